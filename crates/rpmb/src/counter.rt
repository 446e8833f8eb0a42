//! The write counter that a reply says, before anything is written under it.
ghost use Rattle.std.specs.Prelude.{◌≡◌};
ghost use Rattle.rpmb.specs.Counter.{counter_said, is_authentic, is_counter};

use rpmb_client::{has_nonce, has_right_mac};
use rpmb_frame::Frame;

/// Whether the last of whole frames has the MAC of all of them under the key, and the nonce.
fn is_authentic(key: &[u8; 32], nonce: &[u8; 16], reply: &[u8]) -> bool
    ensures { result ≡ is_authentic key.now nonce.now reply.now }
{
    if reply.is_empty() || 512 * (reply.len() / 512) != reply.len() {
        return false;
    }
    let (frames, _) = reply.as_chunks::<512>();
    has_right_mac(key, frames) && has_nonce(nonce, &frames[frames.len() - 1])
}

/// Whether a frame is the response to a reading of the write counter that succeeded.
fn is_counter(frame: &[u8; 512]) -> bool
    ensures { result ≡ is_counter frame.now }
{
    let frame = Frame::from_bytes(frame);
    frame.req_resp() == 0x0200 && frame.result() == 0
}

/// The write counter of a reply, where the MAC of its frames is right under the key, its nonce is
/// the one that was asked with, and it is the response OK to a reading of the counter.
#[tactic(auto, unfolding(crate::specs::Counter::counter_said))]
pub fn counter_of(key: &[u8; 32], nonce: &[u8; 16], reply: &[u8]) -> Option<u32>
    ensures { result ≡ counter_said key.now nonce.now reply.now }
{
    if !is_authentic(key, nonce, reply) {
        return None;
    }
    let (frames, _) = reply.as_chunks::<512>();
    let last = &frames[frames.len() - 1];
    if !is_counter(last) {
        return None;
    }
    Some(Frame::from_bytes(last).write_counter())
}
