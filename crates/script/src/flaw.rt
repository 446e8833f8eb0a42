//! Why a line isn't read, in words. No contract speaks of them: whether a line is read, `line`
//! says.

ghost use Rattle.std.specs.Prelude.{◌≡◌};
ghost use Rattle.script.specs.Refusal.{IfBadLine};

use crate::fault::{LineError, ScriptError};
use hex::FromHexError;
use std::alloc::{AllocError, Global};

/// How many letters of a word are shown.
const SHOWN: usize = 16;

fn is_hex(word: &str) -> bool {
    word.as_bytes().iter().all(|byte| byte.is_ascii_hexdigit())
}

/// A word as it is shown: its first letters, and two dots where it has more, since it may be a
/// whole file. Of a longer one of hex digits, which may be a key, only how long it is.
fn shown(alloc: Global, word: &str) -> Result<String, AllocError> {
    match word.char_indices().nth(SHOWN) {
        None => format!(in alloc; "{word:?}"),
        Some(_) if is_hex(word) => {
            let count = word.len();
            format!(in alloc; "a word of {count} hex digits")
        }
        Some((end, _)) => {
            let front = word.get(..end).unwrap_or("");
            format!(in alloc; "{front:?}..")
        }
    }
}

/// The second word is no guest of the board.
pub(crate) fn no_guest(alloc: Global, word: &str, guests: u16) -> LineError {
    let last = guests.saturating_sub(1);
    let Ok(word) = shown(alloc, word) else {
        return LineError::NoMemory;
    };
    LineError::of(format!(in alloc;
        "word 2: expected a guest of the board, 0 to {last}, got {word}"
    ))
}

fn is_decimal(word: &str) -> bool {
    !word.is_empty() && word.as_bytes().iter().all(|byte| byte.is_ascii_digit())
}

/// The word at a place, counted from 1, is no number up to this one.
pub(crate) fn no_number(alloc: Global, place: usize, word: &str, most: u64) -> LineError {
    if is_decimal(word) {
        return LineError::of(format!(in alloc;
            "word {place}: expected a number from 0 to {most}, got a larger one"
        ));
    }
    let Ok(word) = shown(alloc, word) else {
        return LineError::NoMemory;
    };
    LineError::of(format!(in alloc;
        "word {place}: expected decimal digits of a number from 0 to {most}, got {word}"
    ))
}

/// The word at a place is no hex digits, and no dash.
pub(crate) fn no_hex(alloc: Global, place: usize, why: FromHexError) -> LineError {
    LineError::of(format!(in alloc;
        "word {place}: expected two hex digits for each byte, or -, got: {why}"
    ))
}

/// The readable part of a chain has too many bytes.
pub(crate) fn too_long(alloc: Global, most: usize, count: usize) -> LineError {
    LineError::of(format!(in alloc; "word 3: expected at most {most} bytes, got {count}"))
}

/// A chain has no bytes.
pub(crate) fn empty_chain(alloc: Global) -> LineError {
    LineError::of(String::from_str(alloc, "expected a chain of at least one byte, got `- 0`"))
}

/// A store has no bytes.
pub(crate) fn empty_store(alloc: Global) -> LineError {
    LineError::of(String::from_str(
        alloc,
        "word 4: expected hex digits of at least one byte, got -",
    ))
}

/// A line stores, in a script whose guests are served at once.
pub(crate) fn served_store(alloc: Global) -> LineError {
    LineError::of(String::from_str(
        alloc,
        "word 1: expected chain or reset, as the guests are served at once, got \"store\"",
    ))
}

/// How a line of a command that a script may say is written, and what its words are.
fn form_of(command: &str) -> Option<(&'static str, &'static str)> {
    match command {
        "chain" => Some((
            "chain GUEST READABLE WRITABLE",
            "READABLE is the bytes of the request in hex digits, or -, and WRITABLE how many bytes \
             its answer may have",
        )),
        "store" => Some((
            "store GUEST ADDRESS BYTES",
            "ADDRESS is that of the first byte in the guest's memory, and BYTES are hex digits",
        )),
        "reset" => Some(("reset GUEST", "GUEST is its number, from 0")),
        _ => None,
    }
}

/// What a line looks like that begins with a word of no command.
fn hint_of(command: &str) -> &'static str {
    match command {
        "image" => "; it looks like a board file, which comes first",
        "used" => "; it looks like an answer: the lines that rpmb prints are wanted here",
        "rpmb" => "; what rpmb prints is wanted here: rpmb .. > SCRIPT",
        "rpmb:" | "rpmbd:" => "; it looks like a refusal: > takes standard output alone",
        _ if command.starts_with('[') => "; it looks like a board file, which comes first",
        _ if command.starts_with("VRPMBIMG") => "; it looks like an image",
        _ if command.len() == 64 && is_hex(command) => "; it looks like a key",
        _ => "",
    }
}

/// The first word is no command.
fn no_command(alloc: Global, command: &str) -> LineError {
    let hint = hint_of(command);
    let Ok(word) = shown(alloc, command) else {
        return LineError::NoMemory;
    };
    LineError::of(format!(in alloc; "word 1: expected chain, store or reset, got {word}{hint}"))
}

/// The first word is no command, or none that so many words stand behind.
pub(crate) fn misshapen(alloc: Global, command: &str, given: usize) -> LineError {
    let Some((form, meaning)) = form_of(command) else {
        return no_command(alloc, command);
    };
    let count = given.saturating_add(1);
    let words = match given {
        0 => "word",
        1..=3 => "words",
        _ => "or more words",
    };
    LineError::of(format!(in alloc; "expected the words `{form}`, got {count} {words}: {meaning}"))
}

/// No line has so many words.
pub(crate) fn other_count(alloc: Global, words: &[&str]) -> LineError {
    match words {
        _ if words.iter().any(|word| word.starts_with('#')) => LineError::of(String::from_str(
            alloc,
            "a remark stands on a line of its own, which begins with #",
        )),
        [command, behind @ ..] => misshapen(alloc, command, behind.len()),
        [] => LineError::of(String::from_str(alloc, "expected a word")),
    }
}

/// What is said of a dash that is none of ASCII.
const OTHER_DASH: &str = "it has a dash that an editor made of -; write - itself";

/// Letters that no line has that is read, and what is said of each.
static OTHER_LETTERS: [(char, &str); 6] = [
    ('\t', "it has a tab, expected one space between words"),
    (
        '\u{a0}',
        "it has a no-break space, expected a plain one between words",
    ),
    (
        '\0',
        "it has a byte of zero (NUL), as no text has; make the script again",
    ),
    ('\u{2013}', OTHER_DASH),
    ('\u{2014}', OTHER_DASH),
    ('\u{2212}', OTHER_DASH),
];

/// What is said of the first of those letters that a line has.
fn flaw_of_letters(line: &str) -> Option<&'static str> {
    for (letter, flaw) in OTHER_LETTERS.iter() {
        if line.contains(*letter) {
            return Some(*flaw);
        }
    }
    None
}

/// What is wrong with the bytes of a line, whatever its words are.
fn flaw_of_bytes(line: &str) -> Option<&'static str> {
    if line.starts_with('\u{feff}') {
        return Some("it begins with a byte order mark; save the file without one");
    }
    if line.ends_with('\r') {
        return Some(
            "it ends with a carriage return, expected a line feed alone; tr -d '\\r' takes those \
             away",
        );
    }
    if let Some(flaw) = flaw_of_letters(line) {
        return Some(flaw);
    }
    if line.starts_with(' ') {
        return Some("it begins with a space, expected the line's first word");
    }
    if line.ends_with(' ') {
        return Some("it ends with a space, expected none behind the last word");
    }
    if line.contains("  ") {
        return Some("it has two spaces, expected one between words");
    }
    None
}

/// The refusal of a line whose words are refused: what is wrong with its bytes is told first.
pub(crate) fn told(alloc: Global, line: &str, flaw: String) -> LineError {
    match flaw_of_bytes(line) {
        Some(first) => LineError::of(String::from_str(alloc, first)),
        None => LineError::BadScript(flaw),
    }
}

/// Whether a line of a script that is refused, counted from 1, may have been cut: it is the last
/// one, without a line feed, and has fewer words than its command wants.
fn may_be_cut(script: &str, line: usize) -> bool {
    let last = script.split('\n').last().unwrap_or("");
    let mut words = last.split(' ');
    let command = words.next().unwrap_or("");
    script.split('\n').count() == line && form_of(command).is_some() && words.count() < 3
}

/// The refusal of a script for a line, counted from 1, and that it may have been cut where it may.
pub(crate) fn bad_line(alloc: Global, script: &str, line: usize, flaw: String) -> ScriptError
    ensures { IfBadLine (λ n. n ≡ line) result }
{
    if !may_be_cut(script, line) {
        return ScriptError::BadScript { line, flaw };
    }
    match format!(in alloc; "{flaw}; it has no line feed: was the file cut?") {
        Ok(flaw) => ScriptError::BadScript { line, flaw },
        Err(_) => ScriptError::NoMemory,
    }
}
