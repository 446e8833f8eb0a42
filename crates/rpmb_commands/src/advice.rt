//! What helps where words are refused: a line behind the refusal's own. No contract speaks of it.

use crate::refusal::{AnswerRefusal, FileRefusal, KeyRefusal, Refusal};
use crate::results::help_with_result;
use crate::source::{BLOCKS_FILE, BOARD_FILE, KEY_FILE, SourceError};
use crate::words::Words;
use rpmb_client::{KeyFault, OptionRefusal};
use std::io::Write;

const NO_KEY: &str = "a key is 64 hex digits in @FILE, and nothing between or behind them, or 32 \
    bytes in @raw:FILE";

const NO_BOARD: &str =
    "a board file (TOML, in UTF-8) is wanted here; its key image names the image";

const NO_GUEST_KEY: &str = "name the key alone; explain alone takes G=KEY";

const NO_FILE_NAME: &str = "the name of a file is missing";

fn is_decimal(word: &str) -> bool {
    word.as_bytes().iter().all(|byte| byte.is_ascii_digit())
}

fn is_hex(word: &str) -> bool {
    word.len() % 2 == 0 && word.as_bytes().iter().all(|byte| byte.is_ascii_hexdigit())
}

/// Whether a word of `--key` neither names a file nor is hex digits, where it may name its guest or
/// not.
fn is_bad_key(word: &str, has_guest: bool) -> bool {
    if word.starts_with('@') {
        return false;
    }
    match word.split_once('=') {
        Some((_, key)) if has_guest => !key.starts_with('@') && !is_hex(key),
        _ => !is_hex(word),
    }
}

/// The first word of `--key` that is no key's. Those of `explain` may name a guest.
fn bad_key<'a>(words: &Words<'a>) -> Option<&'a str> {
    for word in words.keys.as_slice() {
        if is_bad_key(*word, words.command == "explain") {
            return Some(*word);
        }
    }
    None
}

fn help_with_key(word: &str, has_guest: bool) -> &'static str {
    if word.contains('=') && !has_guest {
        NO_GUEST_KEY
    } else if word.contains('@') {
        "an @ begins the name of a file: @FILE, and of guest G alone G=@FILE"
    } else {
        "64 hex digits are wanted, or @FILE that has them"
    }
}

fn help_with_nonce(word: &str) -> &'static str {
    if word.starts_with('@') {
        "32 hex digits are wanted; --key alone takes @FILE"
    } else if word.contains(' ') {
        "32 hex digits are wanted, and no space between them"
    } else {
        "32 hex digits are wanted"
    }
}

fn help_with_bytes(word: &str) -> &'static str {
    if word.starts_with('@') {
        "hex digits are wanted; for a file say --file FILE"
    } else {
        "two hex digits are wanted for each byte"
    }
}

/// Of the options that are read before others, the first whose word is no hex digits.
fn advice_on_digits<'a>(words: &Words<'a>) -> (&'a str, &'static str) {
    if let Some(word) = bad_key(words) {
        return ("--key", help_with_key(word, words.command == "explain"));
    }
    match (words.nonce, words.bytes) {
        (Some(word), _) if !is_hex(word) => ("--nonce", help_with_nonce(word)),
        (_, Some(word)) if !is_hex(word) => ("--data", help_with_bytes(word)),
        _ => ("", ""),
    }
}

fn is_word(said: Option<&str>, word: &str) -> bool {
    match said {
        Some(said) => said == word,
        None => false,
    }
}

/// What helps where a file isn't there.
fn help_with_name(words: &Words<'_>, name: &str) -> &'static str {
    if name == "-" {
        return "for standard input say /dev/stdin";
    }
    if name == "/dev/stdin" {
        return "standard input is closed; give it a file, or name the file";
    }
    if name.starts_with('@') && is_word(words.file, name) {
        return "--file takes the name of a file without an @ before it";
    }
    "a path counts from the folder that you are in, unless it begins with /"
}

/// What helps where a file has no name.
fn advice_on_no_name(words: &Words<'_>) -> (&'static str, &'static str) {
    if is_word(words.file, "") {
        return ("--file", NO_FILE_NAME);
    }
    if is_word(words.board, "") {
        return ("BOARD", NO_FILE_NAME);
    }
    if words.keys.is_empty() {
        return ("SCRIPT", NO_FILE_NAME);
    }
    ("--key", "the name of a file is missing behind @ or @raw:")
}

/// What helps where a file can't be read.
fn help_with_reading(words: &Words<'_>, name: &str, why: SourceError) -> &'static str {
    match why {
        SourceError::NotThere => help_with_name(words, name),
        SourceError::IsFolder => "name a file in it",
        SourceError::NoPermission => "its owner may let you: chmod, or give you a copy",
        SourceError::NoPath => "mend the path",
        SourceError::RoundLinks => "name the file itself",
        SourceError::LongPath => "take a shorter one",
        _ => "name another file, or mend this one",
    }
}

/// What helps where a file has more bytes than there is room for.
fn help_with_length(most: usize) -> &'static str {
    match most {
        KEY_FILE => NO_KEY,
        BOARD_FILE => NO_BOARD,
        BLOCKS_FILE => "no partition has so many; give a part of it",
        _ => "a script is wanted here; part one that is longer",
    }
}

/// What helps where a file is no text.
fn help_with_text(words: &Words<'_>, name: &str) -> &'static str {
    if is_word(words.board, name) {
        NO_BOARD
    } else {
        "save it as text in UTF-8"
    }
}

/// What is said of a file that isn't taken, and what helps.
fn advice_on_file<'a>(
    words: &Words<'a>,
    refusal: FileRefusal,
    name: &'a str,
) -> (&'a str, &'static str) {
    let helps = match refusal {
        FileRefusal::Unread(_) if name.is_empty() => return advice_on_no_name(words),
        FileRefusal::Unread(why) => help_with_reading(words, name, why),
        FileRefusal::TooLong(most) => help_with_length(most),
        FileRefusal::NoText => help_with_text(words, name),
        FileRefusal::BadImage =>
            "its key image names the image: name another, or put a whole copy of this board's \
             there",
        _ => "",
    };
    (name, helps)
}

/// What helps where a file's content is no key.
fn help_with_key_file(fault: KeyFault) -> &'static str {
    match fault {
        KeyFault::ByteOrderMark => "save it without one",
        KeyFault::SecondLine => "take away all but the digits, also what stands before them",
        KeyFault::RawKey => "",
        KeyFault::BadDigits(_) => NO_KEY,
    }
}

fn advice_on_option<'a>(words: &Words<'a>, refusal: OptionRefusal<'a>) -> (&'a str, &'static str) {
    match refusal {
        OptionRefusal::BadHex(_) => advice_on_digits(words),
        OptionRefusal::KeyFile(name, fault) => (name, help_with_key_file(fault)),
        OptionRefusal::BadRawKey(name, _) => (name, NO_KEY),
        OptionRefusal::Number(_, word) if !word.is_empty() && !is_decimal(word) => {
            (word, "decimal digits are wanted")
        }
        _ => ("", ""),
    }
}

/// What helps where a key isn't the one that answers are judged by.
fn help_with_keys(refusal: KeyRefusal) -> &'static str {
    match refusal {
        KeyRefusal::UnusedKey(_) =>
            "name the guest that the lines above name; its MAC wasn't looked at",
        _ => "G=KEY is the key of guest G alone, KEY of all others",
    }
}

/// What is said where there is no answer, or not the one that was asked for.
fn advice_on_answer(refusal: AnswerRefusal) -> &'static str {
    match refusal {
        AnswerRefusal::NoReply(_) =>
            "standard input: what `rpmbd run` prints is wanted here; did that end with a fault, or \
             was its script empty?",
        AnswerRefusal::NoAnswer(0, _) =>
            "standard input: no line begins with `used` and is whole; explain tells of each line \
             what it is",
        AnswerRefusal::NoFrames(0) =>
            "standard input: its request asked for none (--no-result), or needs WRITABLE 512 for \
             each block",
        AnswerRefusal::NoFrames(_) =>
            "standard input: rpmbd answers in whole frames; take its own line",
        AnswerRefusal::NoAnswer(_, 0) =>
            "--nonce: no whole line answers the read of this nonce; explain tells of each line \
             what it is",
        AnswerRefusal::NoAnswer(_, _) => "--nonce: each question wants a nonce of its own",
        AnswerRefusal::WrongNonce => "--nonce: it answers another question, or is an old answer",
        AnswerRefusal::OtherResponse(_) => "--nonce: the nonce of a read is wanted here",
        AnswerRefusal::WrongMac =>
            "--key: the guest has another key, somebody changed the answer, or the host's disk \
             failed (explain says zeros)",
        AnswerRefusal::NoKey =>
            "--guest: program-key gives it a key; if it has one, the host's disk failed",
        AnswerRefusal::TooShort(_, _) => "--length: ask for less, or read more blocks (--count)",
        AnswerRefusal::Refused(code) => help_with_result(code),
        _ => "",
    }
}

/// What is said where what is printed isn't taken: of lines of a script or of an answer that a part
/// stands there, of an operation on an image what was done.
fn advice_on_room<'a>(words: &Words<'a>) -> (&'a str, &'static str) {
    let board = words.board.unwrap_or("");
    match words.operation {
        None => (
            "standard output",
            "it is full or closed, or who read it is gone; what stands there is a part, and isn't \
             to be used",
        ),
        Some("read" | "read-counter") => (board, "only the answer is missing: ask again"),
        Some(_) => (
            board,
            "the request was made, and what it changed stays; only its answer is missing: ask with \
             read-counter, or with read",
        ),
    }
}

/// What helps where what is to be written isn't what a partition takes, or what is said where
/// standard input isn't what is wanted.
fn advice_on_work(refusal: Refusal<'_>) -> &'static str {
    match refusal {
        Refusal::BadData(0) => "has no byte, and --pad fills up none; give at least one",
        Refusal::BadData(_) => "say --pad, and at the read --length with the number of bytes",
        Refusal::PastEnd(_) =>
            "--address: with so many blocks behind it the last has no number; begin lower, or take \
             fewer",
        Refusal::CounterEnd(_) =>
            "--counter: so many writes have no counters left; take fewer, or a larger --max-blocks",
        Refusal::LongLine(_) =>
            "standard input: what `rpmbd run` or `rpmbd serve` prints is read here; no line of \
             that is so long",
        Refusal::NoInput(_) =>
            "standard input: give it what `rpmbd run` prints, by a pipe or from a file",
        _ => "",
    }
}

/// What is said of an answer. Of one to an operation on a board's image more is known, and told
/// behind, or is no cause.
fn advice_on_told(is_operation: bool, refusal: AnswerRefusal) -> &'static str {
    match refusal {
        AnswerRefusal::Refused(_) if is_operation => "",
        AnswerRefusal::WrongMac if is_operation =>
            "--key: the guest has another key, or somebody changed the answer",
        _ => advice_on_answer(refusal),
    }
}

/// Which option or file a refusal of these words is of, and what helps; nothing where that isn't
/// known. Where only what helps is given, that is the whole line.
pub(crate) fn advice_of<'a>(words: &Words<'a>, refusal: Refusal<'a>) -> (&'a str, &'static str) {
    match refusal {
        Refusal::Option(told) => advice_on_option(words, told),
        Refusal::Key(told) => ("--key", help_with_keys(told)),
        Refusal::NamedKey(_, _) => ("--key", NO_GUEST_KEY),
        Refusal::Answer(AnswerRefusal::WrongAnswer(_, _, doubt)) => {
            ("the first of these", doubt.why.text())
        }
        Refusal::Answer(told) => ("", advice_on_told(words.operation.is_some(), told)),
        Refusal::File(told, name) => advice_on_file(words, told, name),
        Refusal::NoRoom => advice_on_room(words),
        Refusal::BadData(_) => (words.file.unwrap_or("--data"), advice_on_work(refusal)),
        _ => ("", advice_on_work(refusal)),
    }
}

/// Writes the line of an advice, where there is one.
pub(crate) fn tell_advice<E: Write>(advice: (&str, &str), err: &mut E) {
    let (what, helps) = advice;
    let colon = if what.is_empty() { "" } else { ": " };
    if !helps.is_empty() {
        let _ = writeln!(err, "{what}{colon}{helps}");
    }
}
