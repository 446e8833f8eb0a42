//! The words of a line.
ghost use Rattle.std.specs.Prelude.{◌≡◌, ◌≢◌, IfErr, IfOk, None, Some, map, option_map};
ghost use Rattle.std.specs.Prelude.{string_bytes, take};
ghost use Rattle.script.specs.Words.{bytes_of, number_of, shown, words_of};

use hex::FromHexError;
use std::alloc::{AllocError, Global};

/// The first words of a line: one more than a line that says something has, so that a line of
/// many words takes no more memory.
pub fn first_words<'a>(alloc: Global, line: &'a str) -> Result<Vec<&'a str>, AllocError>
    ensures { IfOk result (λ words. map (λ w. w.now) words.items
        ≡ take 5 (words_of line.entry.now)) }
{
    line.split(' ').take(5).collect(alloc)
}

/// The number that a word of decimal digits writes; leading zeros are allowed.
pub fn read_number(word: &str) -> Option<u64>
    ensures { result ≡ number_of word.now }
{
    if word.starts_with('+') {
        return None;
    }
    word.parse::<u64>().ok()
}

/// The bytes that a word writes in hex digits of either case, or as `-` where there are none; or
/// why it writes none.
pub(crate) fn decoded(alloc: Global, word: &str) -> Result<Vec<u8>, FromHexError>
    ensures ok { IfOk result (λ bytes. bytes_of word.now ≡ Some bytes.items) }
    ensures bad { IfErr result (λ why. why ≢ FromHexError.OutOfMemory
        → bytes_of word.now ≡ None) }
{
    if word == "-" {
        return Ok(Vec::new(alloc));
    }
    if word.is_empty() {
        return Err(FromHexError::InvalidStringLength);
    }
    hex::decode(alloc, word)
}

/// The same bytes; None where the word writes none.
pub fn read_bytes(alloc: Global, word: &str) -> Result<Option<Vec<u8>>, AllocError>
    ensures { IfOk result (λ read. option_map (λ bytes. bytes.items) read ≡ bytes_of word.now) }
{
    match decoded(alloc, word) {
        Ok(bytes) => Ok(Some(bytes)),
        Err(FromHexError::OutOfMemory) => Err(AllocError),
        Err(_) => Ok(None),
    }
}

/// The word of these bytes: hex digits of lower case, or `-` where there are none.
pub fn shown_bytes(alloc: Global, bytes: &[u8]) -> Result<String, AllocError>
    ensures { IfOk result (λ text. string_bytes text ≡ shown bytes.now) }
{
    if bytes.is_empty() {
        String::from_str(alloc, "-")
    } else {
        hex::encode(alloc, bytes)
    }
}
