//! What is told of a frame: each fact in words.
ghost use Rattle.std.specs.Prelude.{◌≡◌, ◌<◌, ◌≤◌, ◌+◌, ◌==◌, IfOk, [], length, string_bytes};
ghost use Rattle.rpmb_client.specs.Explained.{data_digits, data_name, has_stuff, has_zero_mac};
ghost use Rattle.rpmb_client.specs.Explained.{judged_mac, kind_text, lacks_mac, lacks_nonce};
ghost use Rattle.rpmb_client.specs.Explained.{mac_text, nonce_text, result_text, stuff_text};
ghost use Rattle.rpmb_client.specs.Explained.{two_bytes};

use crate::answer::{has_nonce, has_right_mac};
use rpmb_frame::Frame;
use std::alloc::{AllocError, Global};

/// A type in the standard's words.
pub fn kind_text(kind: u16) -> &'static str
    ensures { result.now ≡ kind_text kind }
{
    match kind {
        0x0100 => "response PROGRAM_KEY",
        0x0200 => "response GET_WRITE_COUNTER",
        0x0300 => "response DATA_WRITE",
        0x0400 => "response DATA_READ",
        0x0000 => "response without a type",
        _ => "unknown type",
    }
}

/// A result in the standard's words.
pub fn result_text(code: u16) -> &'static str
    ensures { result.now ≡ result_text code }
{
    match code {
        0x0000 => "OK",
        0x0001 => "GENERAL_FAILURE",
        0x0002 => "AUTH_FAILURE",
        0x0003 => "COUNT_FAILURE",
        0x0004 => "ADDR_FAILURE",
        0x0005 => "WRITE_FAILURE",
        0x0007 => "NO_AUTH_KEY",
        0x0080 => "WRITE_COUNTER_EXPIRED",
        _ => "unknown result",
    }
}

/// The two bytes of a frame from an offset on, in hex digits.
pub(crate) fn two_bytes(alloc: Global, bytes: &[u8; 512], at: usize) -> Result<String, AllocError>
    requires { at ≤ 510 }
    ensures { IfOk result (λ text. string_bytes text ≡ two_bytes at bytes.now) }
{
    hex::encode(alloc, &bytes[at..at + 2])
}

/// Whether a frame has zeros for a nonce, and is of a response that repeats none.
#[tactic(auto, unfolding(crate::specs::Explained::lacks_nonce))]
pub(crate) fn lacks_nonce(bytes: &[u8; 512]) -> bool
    ensures { result ≡ lacks_nonce bytes.now }
{
    let frame = Frame::from_bytes(bytes);
    let kind = frame.req_resp();
    frame.nonce() == [0; 16] && !(kind == 0x0200 || kind == 0x0400)
}

pub(crate) fn nonce_text(
    alloc: Global,
    nonce: Option<[u8; 16]>,
    bytes: &[u8; 512],
) -> Result<String, AllocError>
    ensures { IfOk result (λ text. string_bytes text ≡ nonce_text nonce bytes.now) }
{
    let Some(nonce) = nonce else {
        return hex::encode(alloc, &Frame::from_bytes(bytes).nonce());
    };
    if has_nonce(&nonce, bytes) {
        return String::from_str(alloc, "right");
    }
    if lacks_nonce(bytes) {
        return String::from_str(alloc, "zeros");
    }
    String::from_str(alloc, "wrong")
}

/// Whether the last frame has zeros for a MAC, and says that there is no key, or no outcome of any
/// request, as a partition without a key does.
#[tactic(auto, unfolding(crate::specs::Explained::lacks_mac))]
pub(crate) fn lacks_mac(frames: &[[u8; 512]]) -> bool
    requires { 0 < length frames.now }
    ensures { result ≡ lacks_mac frames.now }
{
    let last = Frame::from_bytes(&frames[frames.len() - 1]);
    let keyless = last.result() == 0x0007 || (last.result() == 0x0001 && last.req_resp() == 0);
    keyless && last.key_mac() == [0; 32]
}

/// Whether the last frame has zeros for a MAC, as all have that are told once a disk failed.
#[tactic(auto, unfolding(crate::specs::Explained::has_zero_mac))]
fn has_zero_mac(frames: &[[u8; 512]]) -> bool
    requires { 0 < length frames.now }
    ensures { result ≡ has_zero_mac frames.now }
{
    Frame::from_bytes(&frames[frames.len() - 1]).key_mac() == [0; 32]
}

fn judged_mac(key: &[u8; 32], frames: &[[u8; 512]]) -> &'static str
    requires { 0 < length frames.now }
    ensures { result.now ≡ judged_mac key.now frames.now }
{
    if has_right_mac(key, frames) {
        return "right";
    }
    if lacks_mac(frames) {
        return "none";
    }
    if has_zero_mac(frames) {
        return "wrong (zeros)";
    }
    "wrong"
}

pub(crate) fn mac_text(
    is_last: bool,
    key: Option<[u8; 32]>,
    frames: &[[u8; 512]],
    bytes: &[u8; 512],
) -> &'static str
    requires { 0 < length frames.now }
    ensures { result.now ≡ mac_text is_last key frames.now bytes.now }
{
    if !is_last {
        if Frame::from_bytes(bytes).key_mac() == [0; 32] {
            return "in the last frame";
        }
        return "out of place";
    }
    match key {
        None => "not looked at",
        Some(key) => judged_mac(&key, frames),
    }
}

pub(crate) fn data_name(bytes: &[u8; 512]) -> &'static str
    ensures { result.now ≡ data_name bytes.now }
{
    if Frame::from_bytes(bytes).block_data() == [0; 256] {
        ""
    } else {
        ", data "
    }
}

/// The digits of a block, which only reads give; none of one of zeros.
pub(crate) fn data_digits(alloc: Global, bytes: &[u8; 512]) -> Result<String, AllocError>
    ensures { IfOk result (λ text. string_bytes text ≡ data_digits bytes.now) }
{
    let data = Frame::from_bytes(bytes).block_data();
    if data == [0; 256] {
        return Ok(String::new(alloc));
    }
    hex::encode(alloc, &data)
}

/// Whether the stuff bytes of a frame, which no MAC covers, aren't zeros.
pub(crate) fn has_stuff(bytes: &[u8; 512]) -> bool
    ensures { result ≡ has_stuff bytes.now }
{
    let mut stuff = [0; 196];
    stuff.copy_from_slice(&bytes[0..196]);
    stuff != [0; 196]
}

pub(crate) fn stuff_text(stuff: bool) -> &'static str
    ensures { result.now ≡ stuff_text stuff }
{
    if stuff { ", stuff not zeros" } else { "" }
}
