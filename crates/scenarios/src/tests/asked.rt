//! What a guest asks for, and the frames of it.
use crate::tests::scene::{KEY, get_write_counter, program_key, result_read, write_at};
use hmac256::mac_of;
use rpmb_frame::Frame;
use std::alloc::Global;

/// A request, in a chain with room for one frame.
#[derive(Clone, Copy)]
pub enum Asked {
    /// A key of 32 such bytes is programmed.
    Key(u8),
    /// Block 0 is written, with bytes of this kind, under this write counter.
    Write(u8, u32),
    /// The block at this address is written under this write counter.
    WriteAt(u16, u32),
    /// So many blocks are written from this address on, under this write counter: the first with
    /// bytes 1 and 16 for each write before it, the next with one more, and so on.
    Blocks(u16, u8, u32),
    /// The write counter is read, under this nonce.
    Counter(u128),
    /// Block 0 is read.
    Block,
    /// The result of the request before it is read.
    LastResult,
    /// A frame of zeros, which is of no kind.
    Zeros,
}

/// The frame that reads the block at address 0.
fn data_read() -> [u8; 512] {
    Frame::zeros()
        .with_block_count(1)
        .with_req_resp(0x0004)
        .to_bytes()
}

/// The frame of the block of these bytes, one of so many that are written, without a MAC.
fn write_frame(byte: u8, address: u16, count: u8, counter: u32) -> [u8; 512] {
    Frame::zeros()
        .with_block_data(&[byte; 256])
        .with_write_counter(counter)
        .with_address(address)
        .with_block_count(u16::from(count))
        .with_req_resp(0x0003)
        .to_bytes()
}

fn push_writes(frames: &mut Vec<[u8; 512]>, address: u16, count: u8, counter: u32) -> bool {
    let first = 16 * (counter % 8) as u8 + 1;
    for i in 0..count {
        let frame = write_frame(first.wrapping_add(i), address, count, counter);
        if frames.push(frame).is_err() {
            return false;
        }
    }
    true
}

/// Puts the MAC of all frames into the last one.
fn seal(frames: &mut [[u8; 512]]) {
    let mac = mac_of(&KEY, frames);
    if let Some(last) = frames.last_mut() {
        *last = Frame::from_bytes(last).with_key_mac(&mac).to_bytes();
    }
}

/// The frames that write so many blocks under this counter and ask for the result.
fn writes_of(alloc: Global, address: u16, count: u8, counter: u32) -> Option<Vec<[u8; 512]>> {
    let mut frames = Vec::new(alloc);
    let written = push_writes(&mut frames, address, count, counter);
    seal(&mut frames);
    (written && frames.push(result_read()).is_ok()).then_some(frames)
}

fn listed(alloc: Global, frames: &[[u8; 512]]) -> Option<Vec<[u8; 512]>> {
    Vec::from_slice(alloc, frames).ok()
}

/// The frames of a request.
pub fn frames_of(alloc: Global, asked: Asked) -> Option<Vec<[u8; 512]>> {
    match asked {
        Asked::Key(byte) => listed(alloc, &program_key(&[byte; 32])),
        Asked::Write(byte, counter) => listed(alloc, &write_at(0, byte, counter)),
        Asked::WriteAt(address, counter) => listed(alloc, &write_at(address, 0xb0, counter)),
        Asked::Blocks(address, count, counter) => writes_of(alloc, address, count, counter),
        Asked::Counter(nonce) => listed(alloc, &get_write_counter(nonce)),
        Asked::Block => listed(alloc, &[data_read()]),
        Asked::LastResult => listed(alloc, &[result_read()]),
        Asked::Zeros => listed(alloc, &[[0; 512]]),
    }
}
