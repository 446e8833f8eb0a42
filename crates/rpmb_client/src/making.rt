//! The frames of requests.
ghost use Rattle.std.specs.Prelude.{◌≡◌, ◌<◌, ◌≤◌, ◌∷◌, IfOk, [], Some, length, map};
ghost use Rattle.rpmb_core.specs.Reply.{joined, sealed};
ghost use Rattle.rpmb_client.specs.Made.{asking, counter_frame, frames_like, key_frame, key_frames};
ghost use Rattle.rpmb_client.specs.Made.{read_frame, result_frame, write_frames, write_header};

use hmac256::mac_of;
use rpmb_frame::{DATA_READ, DATA_WRITE, Frame, GET_WRITE_COUNTER, PROGRAM_KEY, RESULT_READ};
use std::alloc::{AllocError, Global};

/// The frame that asks for the result of the last PROGRAM_KEY or DATA_WRITE.
#[tactic(auto, unfolding(crate::specs::Made::result_frame))]
pub fn ask_for_result() -> [u8; 512]
    ensures { result ≡ result_frame }
{
    Frame::zeros().with_req_resp(RESULT_READ).to_bytes()
}

#[tactic(auto, unfolding(crate::specs::Made::key_frame))]
fn key_frame_of(key: &[u8; 32]) -> [u8; 512]
    ensures { result ≡ key_frame key.now }
{
    Frame::zeros()
        .with_key_mac(key)
        .with_block_count(1)
        .with_req_resp(PROGRAM_KEY)
        .to_bytes()
}

/// The two frames that program the key and ask for the result of that.
pub fn program_key(key: &[u8; 32]) -> [[u8; 512]; 2]
    ensures { result ≡ key_frames key.now }
{
    [key_frame_of(key), ask_for_result()]
}

/// The frame that asks for the write counter.
#[tactic(auto, unfolding(crate::specs::Made::counter_frame))]
pub fn read_counter(nonce: &[u8; 16]) -> [u8; 512]
    ensures { result ≡ counter_frame nonce.now }
{
    Frame::zeros()
        .with_nonce(nonce)
        .with_block_count(1)
        .with_req_resp(GET_WRITE_COUNTER)
        .to_bytes()
}

/// The frame that asks for `count` blocks from an address on.
#[tactic(auto, unfolding(crate::specs::Made::read_frame))]
pub fn read_blocks(address: u16, count: u16, nonce: &[u8; 16]) -> [u8; 512]
    ensures { result ≡ read_frame address count nonce.now }
{
    Frame::zeros()
        .with_nonce(nonce)
        .with_address(address)
        .with_block_count(count)
        .with_req_resp(DATA_READ)
        .to_bytes()
}

#[tactic(auto, unfolding(crate::specs::Made::write_header))]
fn header_of(counter: u32, address: u16, count: u16) -> Frame
    ensures { result ≡ write_header counter address count }
{
    Frame::zeros()
        .with_write_counter(counter)
        .with_address(address)
        .with_block_count(count)
        .with_req_resp(DATA_WRITE)
}

/// A frame like `header` for each block.
#[tactic(auto, unfolding(crate::specs::Made::frames_like))]
fn frames_of(
    alloc: Global,
    header: Frame,
    blocks: &[[u8; 256]],
) -> Result<Vec<[u8; 512]>, AllocError>
    ensures each { IfOk result (λ frames. frames.items ≡ frames_like header blocks.now) }
    ensures len { IfOk result (λ frames. length frames.items ≡ length blocks.now) }
{
    let mut frames = Vec::new(alloc);
    for block in blocks {
        frames.push(header.with_block_data(block).to_bytes())?;
    }
    Ok(frames)
}

/// Puts the MAC of all frames into the last one.
#[tactic(auto, unfolding(rpmb_core::specs::Reply::sealed))]
fn seal(key: &[u8; 32], frames: &mut [[u8; 512]])
    requires { 0 < length frames.old }
    ensures { frames.new ≡ sealed (Some key.now) frames.old }
{
    let mac = mac_of(key, frames);
    let last = frames.len() - 1;
    let frame = Frame::from_bytes(&frames[last]);
    frames[last] = frame.with_key_mac(&mac).to_bytes();
}

/// The frames that write blocks from an address on, under the key and its write counter, and behind
/// them the one that asks for the result of that, where it is asked for.
#[tactic(auto, unfolding(crate::specs::Made::write_frames))]
pub fn write_blocks(
    alloc: Global,
    key: &[u8; 32],
    counter: u32,
    address: u16,
    blocks: &[[u8; 256]],
    asks: bool,
) -> Result<Vec<[u8; 512]>, AllocError>
    requires some { 1 ≤ length blocks.now }
    requires few { length blocks.now ≤ 16 }
    ensures { IfOk result (λ frames. frames.items
        ≡ asking asks (write_frames key.now counter address blocks.now)) }
{
    let header = header_of(counter, address, blocks.len() as u16);
    let mut frames = frames_of(alloc, header, blocks)?;
    seal(key, frames.as_mut_slice());
    if asks {
        frames.push(ask_for_result())?;
    }
    Ok(frames)
}

/// The bytes of frames, one after another.
pub fn join(alloc: Global, frames: &[[u8; 512]]) -> Result<Vec<u8>, AllocError>
    ensures { IfOk result (λ bytes. bytes.items ≡ joined frames.now) }
{
    let mut bytes = Vec::new(alloc);
    for frame in frames {
        bytes.extend_from_slice(frame)?;
    }
    Ok(bytes)
}
