//! Boards of guests that are all alike, and the requests that scenes make.
use chains::Range;
use hmac256::mac_of;
use mmio_transport::Job;
use rpmb_frame::{BoardConfig, Frame, GuestConfig};
use std::alloc::Global;
use std::test::Fail;

pub const KEY: [u8; 32] = [0x11; 32];

/// A board of guests that are all alike.
pub fn board_of(alloc: Global, guests: usize) -> Option<BoardConfig> {
    let mut configs = Vec::new(alloc);
    for _ in 0..guests {
        if configs.push(GuestConfig::of_capacity(1)).is_err() {
            return None;
        }
    }
    BoardConfig::new(configs).ok()
}

pub fn check(holds: bool, what: &'static str) -> Result<(), Fail> {
    if holds { Ok(()) } else { Err(Fail::from(what)) }
}

/// A job of these frames with room for one frame, whose id is 5 and which has 3 places.
pub fn job_of(alloc: Global, guest: u16, session: u64, frames: &[[u8; 512]]) -> Option<Job> {
    let Ok(request) = frames.as_flattened().to_vec(alloc) else {
        return None;
    };
    let Ok(writable) = Vec::from_slice(alloc, &[Range { at: 0, len: 512 }]) else {
        return None;
    };
    Some(Job::of(guest, session, 5, 3, writable, request))
}

/// The frame that asks for the result.
pub fn result_read() -> [u8; 512] {
    Frame::zeros().with_req_resp(0x0005).to_bytes()
}

/// The frames that program a key and ask for the result.
pub fn program_key(key: &[u8; 32]) -> [[u8; 512]; 2] {
    let frame = Frame::zeros()
        .with_key_mac(key)
        .with_block_count(1)
        .with_req_resp(0x0001);
    [frame.to_bytes(), result_read()]
}

/// The frame that asks for the write counter under this nonce.
pub fn get_write_counter(nonce: u128) -> [[u8; 512]; 1] {
    let frame = Frame::zeros()
        .with_nonce(&nonce.to_be_bytes())
        .with_block_count(1)
        .with_req_resp(0x0002);
    [frame.to_bytes()]
}

/// The frames that write a block of this byte at an address and ask for the result.
pub fn write_at(address: u16, byte: u8, counter: u32) -> [[u8; 512]; 2] {
    let frame = Frame::zeros()
        .with_block_data(&[byte; 256])
        .with_write_counter(counter)
        .with_address(address)
        .with_block_count(1)
        .with_req_resp(0x0003);
    let mac = mac_of(&KEY, &[frame.to_bytes()]);
    [frame.with_key_mac(&mac).to_bytes(), result_read()]
}

/// The last twelve bytes of a reply: write counter, address, block count, result and type.
#[derive(Clone, Copy)]
pub struct Tail(pub u32, pub u16, pub u16, pub u16, pub u16);

impl Tail {
    pub fn bytes(&self) -> [u8; 12] {
        let Tail(counter, address, count, code, kind) = *self;
        let mut bytes = [0; 12];
        bytes[..4].copy_from_slice(&counter.to_be_bytes());
        bytes[4..6].copy_from_slice(&address.to_be_bytes());
        bytes[6..8].copy_from_slice(&count.to_be_bytes());
        bytes[8..10].copy_from_slice(&code.to_be_bytes());
        bytes[10..12].copy_from_slice(&kind.to_be_bytes());
        bytes
    }
}

/// Whether a reply ends so.
pub fn has_tail(reply: &[u8], tail: Tail) -> bool {
    reply.ends_with(&tail.bytes())
}

/// The nonce of the first frame of a request or a reply.
pub fn nonce_of(bytes: &[u8]) -> Option<&[u8]> {
    bytes.get(484..500)
}
