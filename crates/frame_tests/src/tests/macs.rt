//! HMAC SHA-256 by the cases of RFC 4231 and others, and the MACs of frames.
ghost use Rattle.std.specs.Prelude.{◌<◌};

use crate::tests::checks::{check_row, same};
use hmac256::{MacKey, hmac, mac_of};
use sha2::{Digest, Sha256};
use std::test::Fail;

type Case = (&'static [u8], &'static [u8], &'static [u64]);

/// The test cases of RFC 4231 whose key has at most 64 bytes (4.2 to 4.6; the last is cut to 128
/// bits), and a key of a whole block, by Python's hmac: key, text, MAC in words of big endian.
#[rattlefmt::skip]
static CASES: [Case; 6] = [
    (&[0x0b; 20], b"Hi There",
     &[0xb0344c61d8db3853, 0x5ca8afceaf0bf12b, 0x881dc200c9833da7, 0x26e9376c2e32cff7]),
    (b"Jefe", b"what do ya want for nothing?",
     &[0x5bdcc146bf60754e, 0x6a042426089575c7, 0x5a003f089d273983, 0x9dec58b964ec3843]),
    (&[0xaa; 20], &[0xdd; 50],
     &[0x773ea91e36800e46, 0x854db8ebd09181a7, 0x2959098b3ef8c122, 0xd9635514ced565fe]),
    (&[
        0x01, 0x02, 0x03, 0x04, 0x05, 0x06, 0x07, 0x08, 0x09, 0x0a, 0x0b, 0x0c, 0x0d, 0x0e, 0x0f,
        0x10, 0x11, 0x12, 0x13, 0x14, 0x15, 0x16, 0x17, 0x18, 0x19,
    ], &[0xcd; 50],
     &[0x82558a389a443c0e, 0xa4cc819899f2083a, 0x85f0faa3e578f807, 0x7a2e3ff46729665b]),
    (&[0x0c; 20], b"Test With Truncation",
     &[0xa3b6167473100ee0, 0x6e0c796c2955552b]),
    (&[0x42; 64], b"",
     &[0xbf64e6883dbe3b4b, 0x2668390800cedbf8, 0xd96dce1b3a66688e, 0xfd3d75593f3eeed0]),
];

/// The MACs of the first 0, 1, 2 and 3 of the frames below under 32 bytes 0x11, by Python's hmac.
#[rattlefmt::skip]
static MACS: [[u64; 4]; 4] = [
    [0x02c2cae45f82ce4b, 0x76cc75a18b9af0d6, 0x7ec9b2eae1695d04, 0x80f3422533bb06d2],
    [0x3534f25570fe24a3, 0x8b391c2e014e86a1, 0x7cbfa0845b86ca25, 0xb3f5cb85b8275d2d],
    [0x40731fc2670879d1, 0x62804fa8deb172c7, 0xb9804569d6c9dca8, 0xf2dbcf0f6d5a2495],
    [0xb1f04fc5445ec054, 0xd8421ef74438972f, 0x8ee44f821a69e34c, 0xceaf211b9e384a4e],
];

/// Whether bytes begin with these words of big endian.
fn begins(bytes: &[u8; 32], words: &[u64]) -> bool {
    for (word, eight) in words.iter().zip(bytes.chunks(8)) {
        if !same(&word.to_be_bytes(), eight) {
            return false;
        }
    }
    true
}

/// Whether the HMAC of these pieces, under a key of at most 64 bytes, begins with these bytes.
fn begins_with(key: &[u8], pieces: &[&[u8]], mac: &[u64]) -> bool {
    key.len() <= 64 && begins(&hmac(key, pieces), mac)
}

fn has_mac(case: &Case) -> bool {
    let (key, text, mac) = *case;
    let (first, last) = text.split_at(text.len() / 2);
    begins_with(key, &[first, &[], last], mac) && begins_with(key, &[text], mac)
}

#[test]
fn hmac_of_the_cases() -> Result<(), Fail> {
    for (place, case) in CASES.iter().enumerate() {
        check_row(has_mac(case), place)?;
    }
    Ok(())
}

/// A frame that writes one of three blocks at address 7, with the byte 0xd0 + `place` in each
/// place of its data, that number as its counter, and a MAC that counts for nothing.
fn frame(place: u8) -> [u8; 512]
    requires { place < 3 }
{
    let mut bytes = [0; 512];
    bytes[196..228].copy_from_slice(&[0xee; 32]);
    bytes[228..484].copy_from_slice(&[0xd0 + place; 256]);
    bytes[503] = place;
    bytes[505] = 7;
    bytes[507] = 3;
    bytes[511] = 3;
    bytes
}

fn is_mac(key: &MacKey, frames: &[[u8; 512]], mac: &[u64; 4]) -> bool {
    begins(&mac_of(&key.key(), frames), mac) && begins(&key.mac(frames), mac)
}

#[test]
fn mac_of_frames() -> Result<(), Fail> {
    let bytes = [0x11; 32];
    let frames = [frame(0), frame(1), frame(2)];
    let key = MacKey::new(&bytes).copy();
    check_row(same(&key.key(), &bytes), 4)?;
    for (count, mac) in MACS.iter().enumerate() {
        check_row(is_mac(&key, &frames[..count], mac), count)?;
    }
    Ok(())
}

/// The first example of FIPS 180-4's SHA-256, and the empty text: text, digest.
#[rattlefmt::skip]
static DIGESTS: [(&[u8], [u64; 4]); 2] = [
    (b"abc",
     [0xba7816bf8f01cfea, 0x414140de5dae2223, 0xb00361a396177a9c, 0xb410ff61f20015ad]),
    (b"",
     [0xe3b0c44298fc1c14, 0x9afbf4c8996fb924, 0x27ae41e4649b934c, 0xa495991b7852b855]),
];

fn is_digest(text: &[u8], digest: &[u64; 4]) -> bool {
    begins(&Sha256::digest(text), digest)
}

#[test]
fn digests_that_the_macs_rest_on() -> Result<(), Fail> {
    for (place, (text, digest)) in DIGESTS.iter().enumerate() {
        check_row(is_digest(text, digest), place)?;
    }
    Ok(())
}
