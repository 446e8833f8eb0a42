//! The keys that words write or name.
ghost use Rattle.std.specs.Prelude.{◌≡◌, IfErr, IfOk, Some};
ghost use Rattle.rpmb_client.specs.Values.{array_said};
ghost use Rattle.rpmb_commands.specs.KeySaid.{IsKey, IsKeyInFile, IsKeyWord, IsNamed};
ghost use Rattle.rpmb_commands.specs.KeySaid.{IsWhyNoKeyDigits, IsWhyNoKeyFile, IsWhyNoKeySaid};
ghost use Rattle.rpmb_commands.specs.KeySaid.{IsWhyNoRawKeyFile, IsWhyNot, SaysKey};

use crate::refusal::{FileRefusal, Refusal};
use crate::source::{KEY_FILE, Source, content_of};
use rpmb_client::{OptionRefusal, key_of_file, key_of_raw_file, key_of_word};
use std::alloc::Global;

/// How a word says a key.
#[derive(Clone, Copy)]
pub enum KeyWord<'a> {
    /// By its own hex digits.
    Digits(&'a str),
    /// By the file with its digits: `@FILE`.
    File(&'a str),
    /// By the file that has its bytes: `@raw:FILE`.
    RawFile(&'a str),
}

/// The file of a word behind its `@`.
fn named_file<'a>(name: &'a str) -> KeyWord<'a>
    ensures { IsNamed name.now result }
{
    match name.strip_prefix("raw:") {
        Some(file) => KeyWord::RawFile(file),
        None => KeyWord::File(name),
    }
}

fn key_word<'a>(word: &'a str) -> KeyWord<'a>
    ensures { IsKeyWord word.now result }
{
    match word.strip_prefix('@') {
        Some(name) => named_file(name),
        None => KeyWord::Digits(word),
    }
}

fn key_in_file<'a, S: Source>(
    alloc: Global,
    source: &S,
    name: &'a str,
) -> Result<[u8; 32], Refusal<'a>>
    ensures ok { IfOk result (IsKeyInFile (S.gives source.now) name.now) }
    ensures err { IfErr result (IsWhyNoKeyFile (S.gives source.now) name.entry) }
{
    let content = content_of(alloc, source, name, KEY_FILE)?;
    match key_of_file(alloc, name, content.as_slice()) {
        Ok(key) => Ok(key),
        Err(told) => Err(Refusal::from(told)),
    }
}

fn key_in_raw_file<'a, S: Source>(
    alloc: Global,
    source: &S,
    name: &'a str,
) -> Result<[u8; 32], Refusal<'a>>
    ensures ok { IfOk result (λ key. S.gives source.now name.now key) }
    ensures err { IfErr result (IsWhyNoRawKeyFile (S.gives source.now) name.entry) }
{
    let content = content_of(alloc, source, name, KEY_FILE)?;
    match key_of_raw_file(name, content.as_slice()) {
        Ok(key) => Ok(key),
        Err(told) => Err(Refusal::from(told)),
    }
}

/// The key of a word's own digits. A word that is no key and the name of a file is told as one.
fn key_in_digits<'a, S: Source>(
    alloc: Global,
    source: &S,
    word: &'a str,
) -> Result<[u8; 32], Refusal<'a>>
    ensures ok { IfOk result (λ key. array_said 32 word.now ≡ Some key) }
    ensures err { IfErr result (IsWhyNoKeyDigits word.entry) }
{
    match key_of_word(alloc, word) {
        Ok(key) => Ok(key),
        Err(OptionRefusal::NoMemory) => Err(Refusal::NoMemory),
        Err(_) if source.is_file(word) => Err(Refusal::File(FileRefusal::BareName, word)),
        Err(told) => Err(Refusal::from(told)),
    }
}

fn key_said<'a, S: Source>(
    alloc: Global,
    source: &S,
    word: KeyWord<'a>,
) -> Result<[u8; 32], Refusal<'a>>
    ensures ok { IfOk result (IsKey (S.gives source.now) word.entry) }
    ensures err { IfErr result (IsWhyNot (S.gives source.now) word.entry) }
{
    match word {
        KeyWord::Digits(digits) => key_in_digits(alloc, source, digits),
        KeyWord::File(name) => key_in_file(alloc, source, name),
        KeyWord::RawFile(name) => key_in_raw_file(alloc, source, name),
    }
}

/// The key that a word writes in hex digits, or names as `@FILE` or `@raw:FILE`.
pub fn key<'a, S: Source>(
    alloc: Global,
    source: &S,
    word: Option<&'a str>,
) -> Result<[u8; 32], Refusal<'a>>
    ensures ok { IfOk result (SaysKey (S.gives source.now) word.entry) }
    ensures err { IfErr result (IsWhyNoKeySaid (S.gives source.now) word.entry) }
{
    let Some(word) = word else {
        return Err(Refusal::Option(OptionRefusal::Incomplete));
    };
    key_said(alloc, source, key_word(word))
}
