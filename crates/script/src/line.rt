//! One line of a script.
ghost use Rattle.std.specs.Prelude.{◌≡◌, ◌∷◌, [], IfErr, IfOk, None, Ok, Some, map, true};
ghost use Rattle.script.specs.Line.{IsWithin, chain_line, guest_of, is_skipped, line_of};
ghost use Rattle.script.specs.Line.{line_of_words};
ghost use Rattle.script.specs.Line.{readable_of, said, store_line, stored_of, stored_up_to};
ghost use Rattle.script.specs.Line.{writable_of};
ghost use Rattle.script.specs.Refusal.{IfBad};
ghost use Rattle.script.specs.Words.{bytes_of, number_of};

use crate::fault::LineError;
use crate::flaw;
use crate::word::{decoded, first_words, read_number};
use hex::FromHexError;
use std::alloc::Global;

/// What one line asks for.
#[derive(Debug, Drop)]
pub enum Line {
    /// Nothing: the line is empty or a comment.
    Nothing,
    /// The guest offers a chain.
    Chain {
        /// The number of the guest.
        guest: u16,
        /// The bytes of the readable part, at most 8,704 (17 frames of 512).
        readable: Vec<u8>,
        /// The length of the chain's writable part in bytes, at most 8,192.
        writable: u32,
    },
    /// Bytes go into the guest's memory.
    Store {
        /// The number of the guest.
        guest: u16,
        /// The address of the first byte in guest memory. It need not lie in the memory.
        at: u64,
        /// The bytes, at least one, in the order of their addresses.
        bytes: Vec<u8>,
    },
    /// The guest's device is reset, and negotiated with again.
    Reset {
        /// The number of the guest.
        guest: u16,
    },
}

impl Line {
    /// The guest into whose memory the line stores, and the address behind the last byte that it
    /// stores, at most 2^64 - 1; None of a line that stores nothing.
    pub fn stored_up_to(&self) -> Option<(u16, u64)>
        ensures { result ≡ stored_up_to (said self.now) }
    {
        match self {
            Line::Store { guest, at, bytes } => {
                Some((*guest, at.saturating_add(bytes.len() as u64)))
            }
            _ => None,
        }
    }
}

/// The longest readable part of a chain, in bytes: 17 frames of 512.
const READABLE_LIMIT: usize = 8704;

/// The longest writable part of a chain, in bytes: 16 frames of 512.
const WRITABLE_LIMIT: u64 = 8192;

fn read_guest(alloc: Global, word: &str, guests: u16) -> Result<u16, LineError>
    ensures ok { IfOk result (λ guest. guest_of guests word.now ≡ Some guest) }
    ensures bad { IfErr result (IfBad (guest_of guests word.now ≡ None)) }
{
    match read_number(word) {
        Some(number) if number < u64::from(guests) => Ok(number as u16),
        _ => Err(flaw::no_guest(alloc, word, guests)),
    }
}

/// The bytes of the word at a place, counted from 1.
fn read_hex(alloc: Global, place: usize, word: &str) -> Result<Vec<u8>, LineError>
    ensures ok { IfOk result (λ bytes. bytes_of word.now ≡ Some bytes.items) }
    ensures bad { IfErr result (IfBad (bytes_of word.now ≡ None)) }
{
    match decoded(alloc, word) {
        Ok(bytes) => Ok(bytes),
        Err(FromHexError::OutOfMemory) => Err(LineError::NoMemory),
        Err(why) => Err(flaw::no_hex(alloc, place, why)),
    }
}

fn read_readable(alloc: Global, word: &str) -> Result<Vec<u8>, LineError>
    ensures ok { IfOk result (λ bytes. readable_of word.now ≡ Some bytes.items) }
    ensures bad { IfErr result (IfBad (readable_of word.now ≡ None)) }
{
    let bytes = read_hex(alloc, 3, word)?;
    if bytes.len() > READABLE_LIMIT {
        return Err(flaw::too_long(alloc, READABLE_LIMIT, bytes.len()));
    }
    Ok(bytes)
}

fn read_writable(alloc: Global, word: &str) -> Result<u32, LineError>
    ensures ok { IfOk result (λ length. writable_of word.now ≡ Some length) }
    ensures bad { IfErr result (IfBad (writable_of word.now ≡ None)) }
{
    match read_number(word) {
        Some(number) if number <= WRITABLE_LIMIT => Ok(number as u32),
        _ => Err(flaw::no_number(alloc, 4, word, WRITABLE_LIMIT)),
    }
}

fn read_chain(
    alloc: Global,
    guests: u16,
    guest: &str,
    hex: &str,
    writable: &str,
) -> Result<Line, LineError>
    ensures ok { IfOk result (λ line. chain_line guests guest.now hex.now writable.now
        ≡ Some (said line)) }
    ensures within { IfOk result (λ line. IsWithin guests (said line)) }
    ensures bad { IfErr result (IfBad
        (chain_line guests guest.now hex.now writable.now ≡ None)) }
{
    let guest = read_guest(alloc, guest, guests)?;
    let readable = read_readable(alloc, hex)?;
    let writable = read_writable(alloc, writable)?;
    if readable.is_empty() && writable == 0 {
        return Err(flaw::empty_chain(alloc));
    }
    Ok(Line::Chain {
        guest,
        readable,
        writable,
    })
}

fn read_address(alloc: Global, word: &str) -> Result<u64, LineError>
    ensures ok { IfOk result (λ address. number_of word.now ≡ Some address) }
    ensures bad { IfErr result (IfBad (number_of word.now ≡ None)) }
{
    match read_number(word) {
        Some(address) => Ok(address),
        None => Err(flaw::no_number(alloc, 3, word, u64::MAX)),
    }
}

fn read_stored(alloc: Global, word: &str) -> Result<Vec<u8>, LineError>
    ensures ok { IfOk result (λ bytes. stored_of word.now ≡ Some bytes.items) }
    ensures bad { IfErr result (IfBad (stored_of word.now ≡ None)) }
{
    let bytes = read_hex(alloc, 4, word)?;
    if bytes.is_empty() {
        return Err(flaw::empty_store(alloc));
    }
    Ok(bytes)
}

fn read_store(
    alloc: Global,
    guests: u16,
    guest: &str,
    at: &str,
    hex: &str,
) -> Result<Line, LineError>
    ensures ok { IfOk result (λ line. store_line guests guest.now at.now hex.now
        ≡ Some (said line)) }
    ensures within { IfOk result (λ line. IsWithin guests (said line)) }
    ensures bad { IfErr result (IfBad (store_line guests guest.now at.now hex.now ≡ None)) }
{
    let guest = read_guest(alloc, guest, guests)?;
    let at = read_address(alloc, at)?;
    let bytes = read_stored(alloc, hex)?;
    Ok(Line::Store { guest, at, bytes })
}

/// Reads a line of two words.
fn read_pair(alloc: Global, guests: u16, command: &str, guest: &str) -> Result<Line, LineError>
    ensures ok { IfOk result (λ line. line_of_words guests (command.now ∷ guest.now ∷ [])
        ≡ Some (said line)) }
    ensures within { IfOk result (λ line. IsWithin guests (said line)) }
    ensures bad { IfErr result (IfBad
        (line_of_words guests (command.now ∷ guest.now ∷ []) ≡ None)) }
{
    if command == "reset" {
        let guest = read_guest(alloc, guest, guests)?;
        Ok(Line::Reset { guest })
    } else {
        Err(flaw::misshapen(alloc, command, 1))
    }
}

/// Reads a line of four words.
fn read_four(
    alloc: Global,
    guests: u16,
    command: &str,
    guest: &str,
    second: &str,
    third: &str,
) -> Result<Line, LineError>
    ensures ok { IfOk result (λ line. line_of_words guests
        (command.now ∷ guest.now ∷ second.now ∷ third.now ∷ []) ≡ Some (said line)) }
    ensures within { IfOk result (λ line. IsWithin guests (said line)) }
    ensures bad { IfErr result (IfBad (line_of_words guests
        (command.now ∷ guest.now ∷ second.now ∷ third.now ∷ []) ≡ None)) }
{
    match command {
        "chain" => read_chain(alloc, guests, guest, second, third),
        "store" => read_store(alloc, guests, guest, second, third),
        _ => Err(flaw::misshapen(alloc, command, 3)),
    }
}

fn read_words(alloc: Global, words: &[&str], guests: u16) -> Result<Line, LineError>
    ensures ok { IfOk result (λ line. line_of_words guests (map (λ w. w.now) words.now)
        ≡ Some (said line)) }
    ensures within { IfOk result (λ line. IsWithin guests (said line)) }
    ensures bad { IfErr result (IfBad
        (line_of_words guests (map (λ w. w.now) words.now) ≡ None)) }
{
    match words {
        [command, guest] => read_pair(alloc, guests, command, guest),
        [command, guest, second, third] => {
            read_four(alloc, guests, command, guest, second, third)
        }
        _ => Err(flaw::other_count(alloc, words)),
    }
}

/// Whether the line is empty or a comment.
fn is_skipped(line: &str) -> bool
    ensures { result ≡ is_skipped line.now }
{
    line.is_empty() || line.starts_with('#')
}

/// Reads one line, without its line feed, of a script for a board of so many guests.
///
/// # Errors
///
/// `BadScript` where the line isn't empty, no comment and no `chain`, `store` or `reset` line for
/// one of the guests: it names the first word that isn't what it has to be, and what stands there.
/// `NoMemory` where memory is refused. An empty line or a comment takes no memory.
#[tactic(auto, unfolding(crate::specs::Line::line_of))]
pub fn read_line(alloc: Global, line: &str, guests: u16) -> Result<Line, LineError>
    ensures ok { IfOk result (λ read. line_of guests line.now ≡ Some (said read)) }
    ensures within { IfOk result (λ read. IsWithin guests (said read)) }
    ensures skipped { is_skipped line.now ≡ true → result ≡ Ok Line.Nothing }
    ensures bad { IfErr result (IfBad (line_of guests line.now ≡ None)) }
{
    if is_skipped(line) {
        return Ok(Line::Nothing);
    }
    let Ok(words) = first_words(alloc, line) else {
        return Err(LineError::NoMemory);
    };
    match read_words(alloc, words.as_slice(), guests) {
        Err(LineError::BadScript(flaw)) => Err(flaw::told(alloc, line, flaw)),
        read => read,
    }
}
