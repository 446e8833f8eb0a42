//! The values that the words of a client's options say.
ghost use Rattle.std.specs.Prelude.{◌≡◌, ◌⊎◌, ◌≤◌, Err, IfErr, IfOk, IfSome, Some, length};
ghost use Rattle.hex.specs.Hex.{decode_of};
ghost use Rattle.hex.specs.declared.error.FromHexError.{FromHexError};
ghost use Rattle.rpmb_client.specs.Values.{IsWhyNot, IsWhyNoKey, array_said, bytes_said, digits_of};
ghost use Rattle.rpmb_client.specs.Values.{end_length, has_line_feed, has_mark, key_said};
ghost use Rattle.rpmb_client.specs.Values.{number_said, sized_said};

use hex::FromHexError;
use script::read_number;
use std::alloc::Global;

/// Why digits say no bytes, or not as many as are wanted.
#[derive(Clone, Copy)]
pub enum ValueFault {
    /// Memory was refused.
    NoMemory,
    /// They aren't two hex digits for each byte.
    BadHex(FromHexError),
    /// They say this many bytes, and another number was wanted.
    BadLength(usize),
}

/// Why the content of a file says no key.
#[derive(Clone, Copy)]
pub enum KeyFault {
    /// It has 32 bytes, which may be a key itself, and so are never taken for its digits.
    RawKey,
    /// A byte order mark stands before its digits.
    ByteOrderMark,
    /// A line feed stands in it that isn't its last byte.
    SecondLine,
    /// It hasn't just the digits of 32 bytes, behind which a line may end.
    BadDigits(ValueFault),
}

/// The number from `least` to `most` that a word of decimal digits writes; leading zeros are
/// allowed.
pub fn number_of(word: &str, least: u64, most: u64) -> Option<u64>
    ensures said { result ≡ number_said word.now least most }
    ensures bound { IfSome result (λ number. (least ≤ number) × (number ≤ most)) }
{
    match read_number(word) {
        Some(number) if least <= number && number <= most => Some(number),
        _ => None,
    }
}

/// The bytes of hex digits of either case, two for each byte.
pub fn bytes_of(alloc: Global, digits: &[u8]) -> Result<Vec<u8>, ValueFault>
    ensures ok { IfOk result (λ bytes. bytes_said digits.now ≡ Some bytes.items) }
    ensures err { IfErr result (λ fault. (fault ≡ ValueFault.NoMemory)
        ⊎ ((why : FromHexError) × (fault ≡ ValueFault.BadHex why)
        × (decode_of digits.now ≡ Err why))) }
{
    match hex::decode(alloc, digits) {
        Ok(bytes) => Ok(bytes),
        Err(FromHexError::OutOfMemory) => Err(ValueFault::NoMemory),
        Err(why) => Err(ValueFault::BadHex(why)),
    }
}

/// The bytes as an array, where there are as many.
pub fn sized<const N: usize>(bytes: &[u8]) -> Option<[u8; N]>
    ensures { result ≡ sized_said N bytes.now }
{
    if bytes.len() != N {
        return None;
    }
    let mut out = [0; N];
    out.copy_from_slice(bytes);
    Some(out)
}

/// The array that hex digits write: a key, or a nonce.
pub fn array_of<const N: usize>(alloc: Global, digits: &[u8]) -> Result<[u8; N], ValueFault>
    ensures ok { IfOk result (λ array. array_said N digits.now ≡ Some array) }
    ensures err { IfErr result (IsWhyNot N digits.now) }
{
    let bytes = bytes_of(alloc, digits)?;
    match sized(bytes.as_slice()) {
        Some(array) => Ok(array),
        None => Err(ValueFault::BadLength(bytes.len())),
    }
}

/// How many bytes the end of a file's line takes.
#[tactic(auto, unfolding(crate::specs::Values::end_length))]
fn end_length(content: &[u8]) -> usize
    ensures said { result ≡ end_length content.now }
    ensures inside { result ≤ length content.now }
{
    let count = content.len();
    if count == 0 {
        return 0;
    }
    if content[count - 1] != b'\n' {
        return 0;
    }
    if count == 1 {
        return 1;
    }
    if content[count - 2] != b'\r' {
        return 1;
    }
    2
}

/// The digits in a file, without the end of their line: a line feed, or a carriage return and one.
pub fn digits_of(content: &[u8]) -> &[u8]
    ensures { result.now ≡ digits_of content.now }
{
    &content[..content.len() - end_length(content)]
}

/// Whether a text begins with a byte order mark.
fn has_mark(content: &[u8]) -> bool
    ensures { result ≡ has_mark content.now }
{
    matches!(content, [0xef, 0xbb, 0xbf, ..])
}

fn has_line_feed(digits: &[u8]) -> bool
    ensures { result ≡ has_line_feed digits.now }
{
    digits.iter().any(|byte| *byte == b'\n')
}

/// The key in a file: its 64 hex digits, behind which a line may end. A file of 32 bytes is
/// refused, and one with a byte order mark or a second line feed by that name.
pub fn key_in_file(alloc: Global, content: &[u8]) -> Result<[u8; 32], KeyFault>
    ensures ok { IfOk result (λ key. key_said content.now ≡ Some key) }
    ensures err { IfErr result (IsWhyNoKey content.now) }
{
    if content.len() == 32 {
        return Err(KeyFault::RawKey);
    }
    if has_mark(content) {
        return Err(KeyFault::ByteOrderMark);
    }
    let digits = digits_of(content);
    if has_line_feed(digits) {
        return Err(KeyFault::SecondLine);
    }
    match array_of(alloc, digits) {
        Ok(key) => Ok(key),
        Err(fault) => Err(KeyFault::BadDigits(fault)),
    }
}
