//! HMAC with SHA-256 (RFC 2104, FIPS 180-4).
ghost use Rattle.std.specs.Prelude.{◌≡◌, ◌≤◌, ◌++◌, ℕ, List, length};
ghost use Rattle.std.specs.List.{flat_map};
ghost use Rattle.sha2.specs.Hashers.{Holds256};
ghost use Rattle.hmac256.specs.Hmac.{ipad, opad, padded_key, xored, hmac_of};

use sha2::{Digest, Sha256};

/// The byte that ipad repeats.
const INNER_PAD: u8 = 0x36;

/// The byte that opad repeats.
const OUTER_PAD: u8 = 0x5C;

/// The HMAC, 32 bytes, of the text that the pieces make one after another, under a key of at most
/// 64 bytes (RFC 2104, section 2).
pub fn hmac(key: &[u8], pieces: &[&[u8]]) -> [u8; 32]
    requires { length key.now ≤ 64 }
    ensures { result ≡ hmac_of key.now (flat_map (λ piece. piece.now) pieces.now) }
{
    let mut inner = inner_hasher(key);
    for piece in pieces {
        inner.update(*piece);
    }
    finish(inner, outer_hasher(key))
}

/// The hasher of the text, once it has taken `K0 xor ipad`.
pub(crate) fn inner_hasher(key: &[u8]) -> Sha256
    requires { length key.now ≤ 64 }
    ensures { Holds256 result (xored (padded_key key.now) ipad) }
{
    keyed_hasher(key, INNER_PAD)
}

/// The hasher of the inner digest, once it has taken `K0 xor opad`.
pub(crate) fn outer_hasher(key: &[u8]) -> Sha256
    requires { length key.now ≤ 64 }
    ensures { Holds256 result (xored (padded_key key.now) opad) }
{
    keyed_hasher(key, OUTER_PAD)
}

/// The HMAC of the text that the inner hasher has taken after its pad.
#[tactic(auto, unfolding(crate::specs::Hmac::hmac_of))]
pub(crate) fn finish(inner: Sha256, mut outer: Sha256) -> [u8; 32]
    ensures { (key text : List ℕ) → Holds256 inner (xored (padded_key key) ipad ++ text)
        → Holds256 outer (xored (padded_key key) opad) → result ≡ hmac_of key text }
{
    outer.update(&inner.finalize());
    outer.finalize()
}

/// A hasher that has taken the key's block, xored with a pad.
fn keyed_hasher(key: &[u8], pad: u8) -> Sha256
    requires { length key.now ≤ 64 }
    ensures { Holds256 result (xored (padded_key key.now) pad) }
{
    let mut block = padded(key);
    xor_each(&mut block, pad);
    let mut hasher = Sha256::new();
    hasher.update(&block);
    hasher
}

/// K0, the key's block: the key and zeros.
fn padded(key: &[u8]) -> [u8; 64]
    requires { length key.now ≤ 64 }
    ensures { result ≡ padded_key key.now }
{
    let mut block = [0; 64];
    block[..key.len()].copy_from_slice(key);
    block
}

/// Xors each byte of a block with the byte that a pad repeats.
fn xor_each(block: &mut [u8; 64], pad: u8)
    ensures { block.new ≡ xored block.old pad }
{
    for byte in block.iter_mut() {
        *byte ^= pad;
    }
}
