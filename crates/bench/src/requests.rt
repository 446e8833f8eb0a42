//! What guests ask for.
ghost use Rattle.std.specs.Prelude.{◌<◌, ◌≤◌};

use crate::clock::{NO_MEMORY, Stop};
use hmac256::mac_of;
use rpmb_frame::{DATA_READ, DATA_WRITE, Frame, GET_WRITE_COUNTER, PROGRAM_KEY, RESULT_READ};

pub const KEY: [u8; 32] = [0x11; 32];

/// What is asked for.
#[derive(Clone, Copy)]
pub enum Kind {
    /// The programming of the key, with its result.
    Key,
    /// The write counter.
    Counter,
    /// A write of the first block, with its result.
    Write,
    /// A read of 16 blocks.
    Read,
}

impl Kind {
    /// The bytes of its reply.
    pub fn writable(self) -> u32
        ensures some { 0 < result }
        ensures most { result ≤ 8192 }
    {
        match self {
            Kind::Read => 8192,
            _ => 512,
        }
    }

    /// The type of its request (VIRTIO 1.2, 5.12.6.1).
    fn request_type(self) -> u16 {
        match self {
            Kind::Key => PROGRAM_KEY,
            Kind::Counter => GET_WRITE_COUNTER,
            Kind::Write => DATA_WRITE,
            Kind::Read => DATA_READ,
        }
    }

    /// Where a good reply to it ends: the result 0x0000 and its type.
    fn end(self) -> [u8; 4] {
        [0, 0, self.request_type().to_le_bytes()[0], 0]
    }

    /// How many MACs it needs, and of how many frames each: a write is tested and its reply sealed.
    pub fn macs(self) -> (u32, usize) {
        match self {
            Kind::Key => (0, 1),
            Kind::Counter => (1, 1),
            Kind::Write => (2, 1),
            Kind::Read => (1, 16),
        }
    }

    /// Its frame, under a write counter.
    fn frame(self, counter: u32) -> [u8; 512] {
        let frame = Frame::zeros()
            .with_block_count(1)
            .with_req_resp(self.request_type());
        match self {
            Kind::Key => frame.with_key_mac(&KEY),
            Kind::Counter => frame,
            Kind::Read => frame.with_block_count(16),
            Kind::Write => sealed(
                frame
                    .with_block_data(&[0x5a; 256])
                    .with_write_counter(counter),
            ),
        }
        .to_bytes()
    }

    /// The bytes of its request.
    pub fn length(self) -> usize
        ensures some { 0 < result }
    {
        match self {
            Kind::Key | Kind::Write => 1024,
            _ => 512,
        }
    }

    /// Puts a request behind others: its frame, and the one that asks for its result.
    pub fn put(self, requests: &mut Vec<u8>, counter: u32) -> Result<(), Stop> {
        let frame = self.frame(counter);
        let closing = Frame::zeros().with_req_resp(RESULT_READ).to_bytes();
        let is_put = requests.extend_from_slice(&frame).is_ok()
            && (self.length() == 512 || requests.extend_from_slice(&closing).is_ok());
        if is_put { Ok(()) } else { Err(NO_MEMORY) }
    }
}

/// A frame with its MAC.
fn sealed(frame: Frame) -> Frame {
    frame.with_key_mac(&mac_of(&KEY, &[frame.to_bytes()]))
}

/// What was mixed before, and the first byte of the MAC of a good reply to a request of this kind.
/// A MAC stands 316 bytes before the end of the last frame.
pub fn mixed(kind: Kind, reply: &[u8], before: u32) -> Result<u32, Stop> {
    if !reply.ends_with(&kind.end()) {
        return Err("a refusal");
    }
    let at = reply.len().saturating_sub(316);
    let byte = reply.get(at).copied().unwrap_or(0);
    Ok(before.wrapping_mul(31).wrapping_add(u32::from(byte)))
}
