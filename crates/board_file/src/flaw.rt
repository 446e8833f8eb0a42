//! Why a board file isn't read, in words. No contract speaks of them: whether a text is read,
//! `board` says, and `guest` and `keys` of each guest.

use crate::fault::BoardError;
use crate::guest::GUEST_KEYS;
use crate::keys::is_among;
use std::alloc::{AllocError, Global};
use strsim::damerau_levenshtein;
use toml::{Table, Value};

/// The keys of a guest, as a message shows them.
const KEYS: &str = "capacity, max_wr_cnt, max_rd_cnt, memory, queue, ring, event_idx, indirect and \
    in_order";

/// What a value is, as a message shows it.
fn shown(alloc: Global, value: &Value) -> Result<String, AllocError> {
    if let Some(number) = value.as_integer() {
        return format!(in alloc; "{number}");
    }
    if let Some(truth) = value.as_bool() {
        return format!(in alloc; "{truth}");
    }
    if let Some(text) = value.as_str() {
        return format!(in alloc; "the text {text:?}");
    }
    let kind = value.type_str();
    format!(in alloc; "a value of the kind {kind}")
}

/// The first known key that is one letter away from a key: one is missing there, added or changed,
/// or swapped with the next.
fn nearest<'a>(alloc: Global, key: &str, known: &[&'a str]) -> Result<Option<&'a str>, AllocError> {
    for other in known {
        if damerau_levenshtein(alloc, key, *other)? == 1 {
            return Ok(Some(*other));
        }
    }
    Ok(None)
}

/// The document has a key but `image` and `guest`, of which these are known.
pub(crate) fn unknown_board_key(alloc: Global, key: &str, known: &[&str]) -> BoardError {
    let Ok(near) = nearest(alloc, key, known) else {
        return BoardError::NoMemory;
    };
    let text = "isn't known, expected image and [[guest]] alone";
    BoardError::of(match near {
        Some(near) => format!(in alloc; "the key {key:?} {text}; {near}?"),
        None if is_among(key, GUEST_KEYS.as_slice()) => {
            format!(in alloc; "the key {key:?} {text}; it belongs below a line [[guest]]")
        }
        None => format!(in alloc; "the key {key:?} {text}"),
    })
}

/// The table of a guest has a key that isn't one of a guest's.
pub(crate) fn unknown_guest_key(alloc: Global, key: &str, known: &[&str]) -> BoardError {
    let Ok(near) = nearest(alloc, key, known) else {
        return BoardError::NoMemory;
    };
    BoardError::of(match near {
        Some(near) => format!(in alloc; "the key {key:?} isn't known; {near}?"),
        None if key == "image" => format!(in alloc;
            "the key {key:?} isn't known; it belongs above the first line [[guest]]"
        ),
        None => format!(in alloc; "the key {key:?} isn't known, expected one of {KEYS}"),
    })
}

/// A key is missing, or has another value than this.
fn no_such_value(alloc: Global, key: &str, expected: &str, value: Option<&Value>) -> BoardError {
    let Some(value) = value else {
        return BoardError::of(format!(in alloc; "the key {key} is missing, expected {expected}"));
    };
    match shown(alloc, value) {
        Ok(got) => BoardError::of(format!(in alloc;
            "the key {key}: expected {expected}, got {got}"
        )),
        Err(_) => BoardError::NoMemory,
    }
}

/// A key has no whole number of its range.
pub(crate) fn no_number(
    alloc: Global,
    key: &str,
    least: u64,
    most: u64,
    value: Option<&Value>,
) -> BoardError {
    let unit = match key {
        "capacity" => " (units of 128 KiB)",
        _ => "",
    };
    match format!(in alloc; "a whole number from {least} to {most}{unit}") {
        Ok(expected) => no_such_value(alloc, key, expected.as_str(), value),
        Err(_) => BoardError::NoMemory,
    }
}

/// A key has no truth value.
pub(crate) fn no_truth(alloc: Global, key: &str, value: &Value) -> BoardError {
    no_such_value(alloc, key, "true or false", Some(value))
}

/// A key has no name of a ring.
pub(crate) fn no_ring(alloc: Global, key: &str) -> BoardError {
    BoardError::of(format!(in alloc; "the key {key}: expected the text \"split\" or \"packed\""))
}

/// The key `image` has no text, or an empty one.
pub(crate) fn no_path(alloc: Global, value: Option<&Value>) -> BoardError {
    let expected = "the path of a file in quotes, or no such key for a board in memory";
    no_such_value(alloc, "image", expected, value)
}

/// A guest's queue has a size that a split ring can't have.
pub(crate) fn no_queue_size(alloc: Global, queue: u16) -> BoardError {
    BoardError::of(format!(in alloc;
        "the key queue: expected a power of two, as the ring is split, got {queue}"
    ))
}

/// A guest's memory is too small for a driver's layout of this length in bytes.
pub(crate) fn no_room(alloc: Global, queue: u16, memory: u64, least: u64) -> BoardError {
    BoardError::of(format!(in alloc;
        "the key memory: expected at least {least} bytes for a queue of {queue}, got {memory}"
    ))
}

/// An entry of the array of guests is no table.
pub(crate) fn no_table(alloc: Global) -> BoardError {
    BoardError::of(String::from_str(alloc, "expected a table [[guest]]"))
}

/// The document has no array of guests.
pub(crate) fn no_guests(alloc: Global, table: &Table) -> BoardError {
    let tables = "1 to 64 tables [[guest]]";
    match table.get("guest") {
        Some(value) if value.as_table().is_some() => BoardError::of(format!(in alloc;
            "the key guest: expected {tables}, got one table; write [[guest]] for [guest]"
        )),
        None if table.is_empty() => BoardError::of(format!(in alloc;
            "no key is there, expected {tables}, each with its capacity"
        )),
        None => BoardError::of(format!(in alloc;
            "the key guest is missing, expected {tables}, each with its capacity"
        )),
        value => no_such_value(alloc, "guest", tables, value),
    }
}

/// The guests are none, or too many.
pub(crate) fn no_count(alloc: Global, count: usize) -> BoardError {
    BoardError::of(format!(in alloc; "expected 1 to 64 tables [[guest]], got {count}"))
}

/// The guest of this number is refused, for what these words say.
pub(crate) fn bad_guest(alloc: Global, number: usize, flaw: &str) -> BoardError {
    BoardError::of(format!(in alloc; "guest {number}: {flaw}"))
}

/// The line of an error, counted from 1, and its text; the error stands behind so many bytes.
fn line_at(text: &str, place: usize) -> (usize, &str) {
    let before = text.as_bytes().iter().take(place);
    let number = before.filter(|byte| **byte == b'\n').count();
    (
        number.saturating_add(1),
        text.split('\n').nth(number).unwrap_or(""),
    )
}

/// What a text has to be that is no TOML, where that can be said better than its reader does.
fn cause_of(message: &str) -> &str {
    match message {
        "duplicate key" => "expected each key once",
        "invalid string" => "expected a text between two quotes \", both in this line",
        "invalid escape sequence" => "expected two backslashes for one, or / between folders",
        "number out of range" => {
            "expected a number of a board: capacity 1 to 128, max_wr_cnt and max_rd_cnt 1 to 16, \
             memory 65536 to 67108864, queue 2 to 256"
        }
        _ if message.starts_with("invalid value") => {
            "expected a number, true, false or a text in quotes"
        }
        _ => message,
    }
}

/// The first letters of a word, and two dots where it has more: it may be of any file.
fn front_of(word: &str) -> (&str, &'static str) {
    match word.char_indices().nth(16) {
        Some((end, _)) => (word.get(..end).unwrap_or(""), ".."),
        None => (word, ""),
    }
}

/// What a line looks like whose number or whose remark isn't written as TOML has them.
fn hint_of_line(line: &str) -> &'static str {
    let line = line.trim_start();
    if !line.is_ascii() {
        "; it has a letter that isn't ASCII, which may look like one that is"
    } else if line.starts_with("//") || line.starts_with(';') {
        "; a remark begins with #"
    } else if line.contains("= 0") {
        "; a number begins with no 0"
    } else if line.starts_with('{') {
        "; it looks like JSON, and TOML is wanted here"
    } else if line.contains(';') {
        "; no ; ends a line"
    } else if line.contains(':') && !line.contains('=') {
        "; write = for :"
    } else {
        ""
    }
}

/// What a text looks like that is no TOML, or a line of it.
fn hint_of(text: &str, line: &str) -> &'static str {
    let is_of_script = ["chain ", "store ", "reset "]
        .iter()
        .any(|word| line.starts_with(*word));
    if is_of_script {
        "; it looks like a script, and the board comes first"
    } else if line.len() == 64 && line.as_bytes().iter().all(|byte| byte.is_ascii_hexdigit()) {
        "; it looks like a key, and the board file is wanted here"
    } else if line.contains('\u{201c}') || line.contains('\u{201d}') {
        "; its quotes are curly, and plain ones (\") are wanted"
    } else if text.starts_with('\u{feff}') {
        "; save it without a byte order mark"
    } else if text.starts_with("VRPMBIMG") {
        "; it looks like an image, and the board file is wanted here"
    } else {
        hint_of_line(line)
    }
}

/// The text is no TOML.
pub(crate) fn no_toml(alloc: Global, text: &str, error: &toml::de::Error) -> BoardError {
    let span = error.span().unwrap_or(0..0);
    let (number, line) = line_at(text, span.start);
    let hint = hint_of(text, line);
    let (word, more) = front_of(text.get(span).unwrap_or(""));
    let cause = cause_of(error.message());
    BoardError::of(match word {
        "" => format!(in alloc; "line {number} is no TOML: {cause}{hint}"),
        _ => format!(in alloc; "line {number} is no TOML: {cause}, got {word:?}{more}{hint}"),
    })
}
