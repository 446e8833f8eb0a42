//! The values of options, or why they are refused.
ghost use Rattle.std.specs.Prelude.{◌≡◌, ◌≤◌, IfErr, IfOk, Some};
ghost use Rattle.std.specs.Option.{option_copied};
ghost use Rattle.rpmb_client.specs.Values.{array_said, bytes_said, key_said};
ghost use Rattle.rpmb_client.specs.Options.{IsWhyNoBytes, IsWhyNoDigits, IsWhyNoKey, IsWhyNoNonce};
ghost use Rattle.rpmb_client.specs.Options.{IsWhyNoRawKey, nonce_said, number_said};
ghost use Rattle.rpmb_client.specs.Options.{refusal_of_digits, refusal_of_file, refusal_of_nonce};

use crate::refusal::{Number, OptionRefusal};
use crate::values::{KeyFault, ValueFault, array_of, bytes_of, key_in_file, number_of, sized};
use std::alloc::Global;

/// The number of an option, from `least` to `most`, or the refusal with its word.
pub fn option_number<'a>(
    word: Option<&'a str>,
    least: u64,
    most: u64,
    what: Number,
) -> Result<u64, OptionRefusal<'a>>
    ensures said { result ≡ number_said word.entry least most what }
    ensures bound { IfOk result (λ number. (least ≤ number) × (number ≤ most)) }
{
    let Some(word) = word else {
        return Err(OptionRefusal::Incomplete);
    };
    match number_of(word, least, most) {
        Some(number) => Ok(number),
        None => Err(OptionRefusal::Number(what, word)),
    }
}

/// The bytes that an option writes in hex digits.
pub fn option_bytes<'a>(alloc: Global, word: &str) -> Result<Vec<u8>, OptionRefusal<'a>>
    ensures ok { IfOk result (λ bytes. bytes_said word.now ≡ Some bytes.items) }
    ensures err { IfErr result (IsWhyNoBytes word.now) }
{
    match bytes_of(alloc, word.as_bytes()) {
        Ok(bytes) => Ok(bytes),
        Err(ValueFault::BadHex(why)) => Err(OptionRefusal::BadHex(why)),
        Err(_) => Err(OptionRefusal::NoMemory),
    }
}

fn refused_nonce<'a>(fault: ValueFault) -> OptionRefusal<'a>
    ensures { result ≡ refusal_of_nonce fault }
{
    match fault {
        ValueFault::NoMemory => OptionRefusal::NoMemory,
        ValueFault::BadHex(why) => OptionRefusal::BadHex(why),
        ValueFault::BadLength(count) => OptionRefusal::BadNonce(count),
    }
}

/// The nonce of an option: 16 bytes in hex digits.
pub fn option_nonce<'a>(alloc: Global, word: Option<&'a str>) -> Result<[u8; 16], OptionRefusal<'a>>
    ensures ok { IfOk result (λ nonce. nonce_said (option_copied word.entry) ≡ Some nonce) }
    ensures err { IfErr result (IsWhyNoNonce (option_copied word.entry)) }
{
    let Some(word) = word else {
        return Err(OptionRefusal::Incomplete);
    };
    match array_of(alloc, word.as_bytes()) {
        Ok(nonce) => Ok(nonce),
        Err(fault) => Err(refused_nonce(fault)),
    }
}

fn refused_key<'a>(fault: ValueFault) -> OptionRefusal<'a>
    ensures { result ≡ refusal_of_digits fault }
{
    match fault {
        ValueFault::NoMemory => OptionRefusal::NoMemory,
        ValueFault::BadHex(why) => OptionRefusal::BadHex(why),
        ValueFault::BadLength(count) => OptionRefusal::BadKey(count),
    }
}

/// The key that an option's word itself writes: 32 bytes in hex digits.
pub fn key_of_word<'a>(alloc: Global, word: &str) -> Result<[u8; 32], OptionRefusal<'a>>
    ensures ok { IfOk result (λ key. array_said 32 word.now ≡ Some key) }
    ensures err { IfErr result (IsWhyNoDigits word.now) }
{
    match array_of(alloc, word.as_bytes()) {
        Ok(key) => Ok(key),
        Err(fault) => Err(refused_key(fault)),
    }
}

/// The refusal of a file's content, which names the file.
fn refused_file<'a>(file: &'a str, fault: KeyFault) -> OptionRefusal<'a>
    ensures { result ≡ refusal_of_file file.entry fault }
{
    match fault {
        KeyFault::BadDigits(ValueFault::NoMemory) => OptionRefusal::NoMemory,
        _ => OptionRefusal::KeyFile(file, fault),
    }
}

/// The key in the file that an option names: its 64 hex digits, behind which a line may end. A file
/// of 32 bytes is refused.
pub fn key_of_file<'a>(
    alloc: Global,
    file: &'a str,
    content: &[u8],
) -> Result<[u8; 32], OptionRefusal<'a>>
    ensures ok { IfOk result (λ key. key_said content.now ≡ Some key) }
    ensures err { IfErr result (IsWhyNoKey file.entry content.now) }
{
    match key_in_file(alloc, content) {
        Ok(key) => Ok(key),
        Err(fault) => Err(refused_file(file, fault)),
    }
}

/// The key that is a file's content itself: 32 bytes.
pub fn key_of_raw_file<'a>(file: &'a str, content: &[u8]) -> Result<[u8; 32], OptionRefusal<'a>>
    ensures ok { IfOk result (λ key. key ≡ content.now) }
    ensures err { IfErr result (IsWhyNoRawKey file.entry content.now) }
{
    match sized(content) {
        Some(key) => Ok(key),
        None => Err(OptionRefusal::BadRawKey(file, content.len())),
    }
}
