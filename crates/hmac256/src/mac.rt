//! The MAC of frames (VIRTIO 1.2, 5.12.6).
ghost use Rattle.std.specs.Prelude.{◌≡◌};
ghost use Rattle.hmac256.specs.Hmac.{mac};

use crate::hmac_sha256::{finish, inner_hasher, outer_hasher};
use sha2::{Digest, Sha256};
use std::marker::Model;

/// The MAC of frames under a key, 32 bytes: the HMAC of their bodies, the last 284 bytes of each
/// frame, one after another (VIRTIO 1.2, 5.12.6). Of no frames it is that of the empty text.
pub fn mac_of(key: &[u8; 32], frames: &[[u8; 512]]) -> [u8; 32]
    ensures { result ≡ mac key.now frames.now }
{
    MacKey::new(key).mac(frames)
}

/// A key whose two pads are hashed once, which saves two compressions on each MAC: one frame takes
/// six in place of eight (RFC 2104, section 4). Contracts see the key's 32 bytes.
#[derive(Drop)]
pub struct MacKey {
    key: [u8; 32],
    inner: Sha256,
    outer: Sha256,
}

impl Model for MacKey {
    ghost use Rattle.std.specs.Prelude.{ℕ, List};
    ghost use Rattle.sha2.specs.Hashers.{Holds256};
    ghost use Rattle.hmac256.specs.Hmac.{ipad, opad, padded_key, xored};

    ghost Value = { List ℕ };

    ghost view = { λ m. m.key };

    ghost invariant = { λ m. Holds256 m.inner (xored (padded_key m.key) ipad)
        × Holds256 m.outer (xored (padded_key m.key) opad) };
}

impl MacKey {
    /// The key of these bytes.
    pub fn new(key: &[u8; 32]) -> MacKey
        ensures { result ≡ key.now }
    {
        MacKey {
            key: *key,
            inner: inner_hasher(key),
            outer: outer_hasher(key),
        }
    }

    /// The same key once more, without hashing its pads again. It takes no memory.
    pub fn copy(&self) -> MacKey
        ensures { result ≡ self.now }
    {
        MacKey {
            key: self.key,
            inner: copy_of(&self.inner),
            outer: copy_of(&self.outer),
        }
    }

    /// The bytes of the key.
    pub fn key(&self) -> [u8; 32]
        ensures { result ≡ self.now }
    {
        self.key
    }

    /// The MAC of these frames, as `mac_of` gives it.
    #[tactic(auto, unfolding(crate::specs::Hmac::mac, rpmb_frame::specs::Frame::body_of))]
    pub fn mac(&self, frames: &[[u8; 512]]) -> [u8; 32]
        ensures { result ≡ mac self.now frames.now }
    {
        let mut inner = copy_of(&self.inner);
        for frame in frames {
            inner.update(&frame[228..512]);
        }
        finish(inner, copy_of(&self.outer))
    }
}

/// The hasher once more: its clone takes no memory, and so can't be refused.
fn copy_of(hasher: &Sha256) -> Sha256
    ensures { result ≡ hasher.now }
{
    match hasher.clone() {
        Ok(copy) => copy,
        Err(_) => unreachable!(),
    }
}
