//! The lines that give replies, and what can be judged of a reply.
ghost use Rattle.std.specs.Prelude.{◌≡◌, ◌<◌, ◌≤◌, ℕ, IfOk, None, Option, Some, length, map};
ghost use Rattle.std.specs.Prelude.{option_map, take};
ghost use Rattle.std.specs.List.{flat_map};
ghost use Rattle.rpmb_frame.specs.Frame.{block_data_of};
ghost use Rattle.rpmb_client.specs.Answer.{Used as UsedModel, as_long, is_mac_right};
ghost use Rattle.rpmb_client.specs.Answer.{is_nonce_right, is_whole, read_of, used_of};
ghost use Rattle.rpmb_client.specs.Answer.{used_of_words, used_words};
ghost use Rattle.rpmb_client.specs.Seen.{read_seen, used_seen};

use hmac256::mac_of;
use rpmb_frame::Frame;
use script::{first_words, read_bytes, read_number};
use std::alloc::{AllocError, Global};

/// A reply that a line gives: `used G LEN HEX`.
#[derive(Drop)]
pub struct Used {
    /// The number of the guest.
    pub guest: u64,
    /// The bytes of the reply.
    pub reply: Vec<u8>,
}

/// What a read comes to.
#[derive(Drop)]
pub enum ReadAnswer {
    /// The blocks that were read, one after another: 256 bytes each.
    Blocks(Vec<u8>),
    /// The reply isn't made of whole frames of 512 bytes, or has none.
    NoFrames,
    /// The last frame doesn't have the MAC of all frames under the key.
    WrongMac,
    /// The last frame has another nonce than the one that was asked with.
    WrongNonce,
    /// The response is of this type, and no DATA_READ.
    OtherResponse(u16),
    /// The read was refused with this result.
    Refused(u16),
}

fn read_used_words(
    alloc: Global,
    guest: &str,
    len: &str,
    hex: &str,
) -> Result<Option<Used>, AllocError>
    ensures { IfOk result
        (λ read. option_map used_seen read ≡ used_words guest.now len.now hex.now) }
{
    let Some(guest) = read_number(guest) else {
        return Ok(None);
    };
    let Some(len) = read_number(len) else {
        return Ok(None);
    };
    let Some(reply) = read_bytes(alloc, hex)? else {
        return Ok(None);
    };
    if reply.len() as u64 != len {
        return Ok(None);
    }
    Ok(Some(Used { guest, reply }))
}

fn read_words(alloc: Global, words: &[&str]) -> Result<Option<Used>, AllocError>
    ensures { IfOk result
        (λ read. option_map used_seen read ≡ used_of_words (map (λ w. w.now) words.now)) }
{
    match words {
        [command, guest, len, hex] => {
            if *command == "used" {
                read_used_words(alloc, guest, len, hex)
            } else {
                Ok(None)
            }
        }
        _ => Ok(None),
    }
}

/// The reply that a line gives, without its line feed, or none where it is another line.
#[tactic(auto, unfolding(crate::specs::Answer::used_of))]
pub fn read_used(alloc: Global, line: &str) -> Result<Option<Used>, AllocError>
    ensures { IfOk result (λ read. option_map used_seen read ≡ used_of line.now) }
{
    let words = first_words(alloc, line)?;
    read_words(alloc, words.as_slice())
}

/// Whether the last frame has the MAC of all frames under the key.
#[tactic(auto, unfolding(crate::specs::Answer::is_mac_right))]
pub fn has_right_mac(key: &[u8; 32], frames: &[[u8; 512]]) -> bool
    requires { 0 < length frames.now }
    ensures { result ≡ is_mac_right key.now frames.now }
{
    let given = Frame::from_bytes(&frames[frames.len() - 1]).key_mac();
    given == mac_of(key, frames)
}

/// Whether a frame has this nonce.
#[tactic(auto, unfolding(crate::specs::Answer::is_nonce_right))]
pub fn has_nonce(nonce: &[u8; 16], frame: &[u8; 512]) -> bool
    ensures { result ≡ is_nonce_right nonce.now frame.now }
{
    Frame::from_bytes(frame).nonce() == *nonce
}

/// Whether bytes are whole frames, at least one.
pub(crate) fn is_whole(reply: &[u8]) -> bool
    ensures { result ≡ is_whole reply.now }
{
    !reply.is_empty() && 512 * (reply.len() / 512) == reply.len()
}

fn blocks_of(alloc: Global, frames: &[[u8; 512]]) -> Result<Vec<u8>, AllocError>
    ensures { IfOk result (λ bytes. bytes.items ≡ flat_map block_data_of frames.now) }
{
    let mut bytes = Vec::new(alloc);
    for frame in frames {
        bytes.extend_from_slice(&Frame::from_bytes(frame).block_data())?;
    }
    Ok(bytes)
}

/// The blocks of a reply to a read, where its MAC is right under the key and its nonce is the one
/// that was asked with; else why not. The MAC is looked at before all other fields.
#[tactic(auto, unfolding(crate::specs::Answer::read_of))]
pub fn read_data(
    alloc: Global,
    key: &[u8; 32],
    nonce: &[u8; 16],
    reply: &[u8],
) -> Result<ReadAnswer, AllocError>
    ensures { IfOk result (λ read. read_seen read ≡ read_of key.now nonce.now reply.now) }
{
    if !is_whole(reply) {
        return Ok(ReadAnswer::NoFrames);
    }
    let (frames, _) = reply.as_chunks::<512>();
    let last = &frames[frames.len() - 1];
    if !has_right_mac(key, frames) {
        return Ok(ReadAnswer::WrongMac);
    }
    if !has_nonce(nonce, last) {
        return Ok(ReadAnswer::WrongNonce);
    }
    let frame = Frame::from_bytes(last);
    match (frame.req_resp(), frame.result()) {
        (0x0400, 0x0000) => Ok(ReadAnswer::Blocks(blocks_of(alloc, frames)?)),
        (0x0400, code) => Ok(ReadAnswer::Refused(code)),
        (kind, _) => Ok(ReadAnswer::OtherResponse(kind)),
    }
}
