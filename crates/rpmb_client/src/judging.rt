//! Whether an answer is told to be wrong, or says that its request was refused.
ghost use Rattle.std.specs.Prelude.{◌≡◌, ◌<◌, ◌==◌, length, not};
ghost use Rattle.std.specs.List.{list_any};
ghost use Rattle.rpmb_client.specs.Explained.{has_wrong_mac, has_wrong_nonce, is_nonce_wrong};
ghost use Rattle.rpmb_client.specs.Explained.{has_refusal, is_refused, is_wrong};

use crate::answer::{Used, has_nonce, has_right_mac, is_whole};
use crate::facts::{lacks_mac, lacks_nonce};
use rpmb_frame::Frame;

fn is_nonce_wrong(nonce: &[u8; 16], frame: &[u8; 512]) -> bool
    ensures { result ≡ is_nonce_wrong nonce.now frame.now }
{
    !has_nonce(nonce, frame) && !lacks_nonce(frame)
}

fn any_nonce_wrong(nonce: &[u8; 16], frames: &[[u8; 512]]) -> bool
    ensures { result ≡ list_any (is_nonce_wrong nonce.now) frames.now }
{
    frames.iter().any(|frame| is_nonce_wrong(nonce, frame))
}

fn has_wrong_nonce(nonce: Option<[u8; 16]>, frames: &[[u8; 512]]) -> bool
    ensures { result ≡ has_wrong_nonce nonce frames.now }
{
    match nonce {
        None => false,
        Some(nonce) => any_nonce_wrong(&nonce, frames),
    }
}

fn has_wrong_mac(key: Option<[u8; 32]>, frames: &[[u8; 512]]) -> bool
    requires { 0 < length frames.now }
    ensures { result ≡ has_wrong_mac key frames.now }
{
    match key {
        None => false,
        Some(key) => !has_right_mac(&key, frames) && !lacks_mac(frames),
    }
}

/// Whether the MAC of a reply is wrong under the key, or a nonce in it isn't the one that was asked
/// with, where a key or a nonce is given: where `explain` says so of a frame.
#[tactic(auto, unfolding(crate::specs::Explained::is_wrong))]
pub fn is_wrong(used: &Used, key: Option<[u8; 32]>, nonce: Option<[u8; 16]>) -> bool
    ensures { result ≡ is_wrong used.now.reply.items key nonce }
{
    let reply = used.reply.as_slice();
    if !is_whole(reply) {
        return false;
    }
    let (frames, _) = reply.as_chunks::<512>();
    has_wrong_mac(key, frames) || has_wrong_nonce(nonce, frames)
}

fn has_refusal(frame: &[u8; 512]) -> bool
    ensures { result ≡ has_refusal frame.now }
{
    Frame::from_bytes(frame).result() != 0
}

fn any_refusal(frames: &[[u8; 512]]) -> bool
    ensures { result ≡ list_any has_refusal frames.now }
{
    frames.iter().any(|frame| has_refusal(frame))
}

/// Whether a reply of whole frames has another result than OK in one of them.
#[tactic(auto, unfolding(crate::specs::Explained::is_refused))]
pub fn is_refused(used: &Used) -> bool
    ensures { result ≡ is_refused used.now.reply.items }
{
    let reply = used.reply.as_slice();
    if !is_whole(reply) {
        return false;
    }
    let (frames, _) = reply.as_chunks::<512>();
    any_refusal(frames)
}
