//! The check of a write's MAC, made before the partition is locked.
ghost use Rattle.std.specs.Prelude.{◌≡◌, ◌<◌, ℕ, List, length};
ghost use Rattle.rpmb_frame.specs.Request.{Request, frames_of};
ghost use Rattle.rpmb_core.specs.Verdict.{has_mac};
ghost use Rattle.rpmb_core.specs.MacCheck.{Says, SaysOf, SaysOfWrite, Covers};

use crate::verdict::are_equal;
use hmac256::MacKey;
use rpmb_frame::{DATA_WRITE, Frame, RESULT_READ};

/// What the check of a write's MAC came to: whether the MAC in the last of so many frames is that
/// of them all under this key (VIRTIO 1.2, 5.12.6). It is made of bytes and a key alone, so no
/// partition has to be locked meanwhile. A verdict looks at it where it is of as many frames as the
/// write has, and under the key that the partition then has.
#[derive(Clone, Copy)]
pub struct MacCheck {
    count: usize,
    key: [u8; 32],
    is_right: bool,
}

impl MacCheck {
    /// A check of no frames, which no verdict looks at.
    pub fn none() -> MacCheck
        ensures frames { (frames : List (List ℕ)) → Says frames result }
        ensures request { (r : Request) → SaysOf r result }
    {
        MacCheck {
            count: 0,
            key: [0; 32],
            is_right: false,
        }
    }

    /// The check of the write that these bytes, the readable ones of a chain, may ask for; that of
    /// no frames, where there is none or the first one's type isn't DATA_WRITE. A frame behind them
    /// that asks for the result isn't one of the write's. A frame has 512 bytes, and a rest behind
    /// the last whole one isn't looked at.
    pub fn of_bytes(bytes: &[u8], key: &MacKey) -> MacCheck
        ensures says { Says (frames_of bytes.now) result }
        ensures covers { Covers bytes.now key.now result }
    {
        let (frames, _) = bytes.as_chunks::<512>();
        let count = frames.len();
        if count == 0 || Frame::from_bytes(&frames[0]).req_resp() != DATA_WRITE {
            return MacCheck::none();
        }
        let asks_result = Frame::from_bytes(&frames[count - 1]).req_resp() == RESULT_READ;
        if count > 1 && asks_result {
            MacCheck::of(&frames[..count - 1], key)
        } else {
            MacCheck::of(frames, key)
        }
    }

    /// The check of all these frames, of which there is at least one.
    #[tactic(auto, unfolding(crate::specs::MacCheck::Says))]
    pub fn of(frames: &[[u8; 512]], key: &MacKey) -> MacCheck
        requires { 0 < length frames.now }
        ensures says { Says frames.now result }
        ensures count { result.count ≡ length frames.now }
        ensures key { result.key ≡ key.now }
    {
        MacCheck {
            count: frames.len(),
            key: key.key(),
            is_right: has_mac(frames, key),
        }
    }

    /// Whether the last of these frames has the MAC of them all under this key. No MAC is made
    /// where the check was of as many frames and under the same key.
    #[tactic(auto, unfolding(crate::specs::MacCheck::SaysOfWrite))]
    pub(crate) fn is_right_of(&self, frames: &[[u8; 512]], key: &MacKey) -> bool
        requires some { 0 < length frames.now }
        requires says { SaysOfWrite frames.now self.now }
        ensures { result ≡ has_mac key.now frames.now }
    {
        if self.count == frames.len() && are_equal(&self.key, &key.key()) {
            self.is_right
        } else {
            has_mac(frames, key)
        }
    }
}

/// Whether the last frame's MAC is that of all of them under this key.
fn has_mac(frames: &[[u8; 512]], key: &MacKey) -> bool
    requires { 0 < length frames.now }
    ensures { result ≡ has_mac key.now frames.now }
{
    let given = Frame::from_bytes(&frames[frames.len() - 1]).key_mac();
    are_equal(&given, &key.mac(frames))
}
