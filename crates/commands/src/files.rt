//! The texts that the words name: the board and the script. Each is read as far as such a file can
//! be long, and no further.

use crate::fault::Fault;
use crate::reason::{NO_TEXT, Refusal};
use board_file::{BoardError, read_board};
use guest_driver::BoardSetup;
use std::alloc::Global;
use std::fs::File;
use std::io;
use std::io::{BufRead, BufReader, Read};
use std::rt::Files;

/// The most bytes of a board file: 1 MiB, where 64 guests with every key take some 10 KiB.
const BOARD_BYTES: u64 = 1_048_576;

/// The most bytes of a script's line with its line feed: a store of 64 MiB, which is the largest
/// memory of a guest, at two digits a byte.
const LINE_BYTES: u64 = 134_217_760;

/// The most bytes of a script: 512 MiB, where a request takes 2 KiB.
const SCRIPT_BYTES: usize = 536_870_912;

/// What is said of a script with a line that is too long, or of one that is itself.
const LONG_LINE: &str = "has a line of 134217760 bytes and more, and is no script";

const LONG_SCRIPT: &str = "has more than 536870912 bytes, which no script has; part it";

/// What is said of an image that is read as a board file.
const NO_BOARD: &str = "is no text: it looks like an image, and the board file is wanted here";

/// And of one that is read as a script.
const NO_SCRIPT: &str = "is no text: it looks like an image, and a script is wanted here";

/// Whether bytes begin as those of an image do.
fn is_image(bytes: &[u8]) -> bool {
    bytes.starts_with(b"VRPMBIMG")
}

/// A file's bytes as a text. `of_image` is said of them where they are none, and an image's.
fn text_of(alloc: Global, path: &str, of_image: &str, bytes: Vec<u8>) -> Result<String, Refusal> {
    let is_image = is_image(bytes.as_slice());
    match String::from_utf8(bytes) {
        Ok(text) => Ok(text),
        Err(_) => {
            let why = if is_image { of_image } else { NO_TEXT };
            Err(Refusal::of_file(alloc, Fault::FileFault, path, why))
        }
    }
}

/// What a path may be meant for that leads to no file.
fn meant(path: &str) -> Option<&'static str> {
    match path {
        "" => Some("names no file"),
        "-" => Some("isn't there; for standard input say /dev/stdin"),
        "/dev/stdin" => Some("standard input is closed; give it a file, or name the file"),
        _ => None,
    }
}

/// Why a text isn't read.
fn not_read(alloc: Global, path: &str, error: &io::Error) -> Refusal {
    match (error.kind(), meant(path)) {
        (io::ErrorKind::NotFound, Some(why)) => {
            Refusal::of_file(alloc, Fault::FileFault, path, why)
        }
        _ => Refusal::of_call(alloc, path, error),
    }
}

/// The bytes of a file, at most one more than `limit`.
fn read_up_to<R: Files + AllocGlobal>(rt: &R, path: &str, limit: u64) -> io::Result<Vec<u8>> {
    let file = File::open(rt, path)?;
    let mut bytes = Vec::new(rt.alloc());
    file.take(limit.saturating_add(1)).read_to_end(&mut bytes)?;
    Ok(bytes)
}

/// The text of a board file.
fn read_board_text<R: Files + AllocGlobal>(rt: &R, path: &str) -> Result<String, Refusal> {
    let alloc = rt.alloc();
    match read_up_to(rt, path, BOARD_BYTES) {
        Ok(bytes) if bytes.len() as u64 > BOARD_BYTES => {
            let why = if is_image(bytes.as_slice()) {
                NO_BOARD
            } else {
                "is no board file, which has at most 1048576 bytes"
            };
            Err(Refusal::of_file(alloc, Fault::FileFault, path, why))
        }
        Ok(bytes) => text_of(alloc, path, NO_BOARD, bytes),
        Err(error) => Err(not_read(alloc, path, &error)),
    }
}

/// Why bytes are no text.
fn why_no_text(bytes: &[u8], of_image: &'static str) -> &'static str {
    if is_image(bytes) { of_image } else { NO_TEXT }
}

/// Why the lines that were read are no script's: the last of them, which begins at `start`, is no
/// text, or is too long, or all are. A character's bytes never go on behind a line feed, so each
/// line is a text by itself.
fn why_no_lines(bytes: &[u8], start: usize) -> Option<&'static str> {
    let line = bytes.get(start..).unwrap_or(b"");
    if str::from_utf8(line).is_err() {
        return Some(why_no_text(bytes, NO_SCRIPT));
    }
    if line.len() as u64 == LINE_BYTES && !line.ends_with(b"\n") {
        return Some(LONG_LINE);
    }
    if bytes.len() > SCRIPT_BYTES {
        return Some(LONG_SCRIPT);
    }
    None
}

/// Reads lines to the end, or says why they are no script's, as soon as one isn't.
fn read_lines<B: BufRead>(input: &mut B, bytes: &mut Vec<u8>) -> io::Result<Option<&'static str>> {
    for _ in 0..SCRIPT_BYTES {
        let start = bytes.len();
        if input.take(LINE_BYTES).read_until(b'\n', bytes)? == 0 {
            return Ok(None);
        }
        if let Some(why) = why_no_lines(bytes.as_slice(), start) {
            return Ok(Some(why));
        }
    }
    Ok(Some(LONG_SCRIPT))
}

fn read_script_bytes<R: Files + AllocGlobal>(
    rt: &R,
    path: &str,
    bytes: &mut Vec<u8>,
) -> io::Result<Option<&'static str>> {
    let file = File::open(rt, path)?;
    let mut input = BufReader::new(rt.alloc(), file)?;
    read_lines(&mut input, bytes)
}

/// The text of a script. `FileFault` where it can't be read, isn't UTF-8, or is longer than any or
/// has such a line; `NoMemory`.
pub fn read_script_text<R: Files + AllocGlobal>(rt: &R, path: &str) -> Result<String, Refusal> {
    let alloc = rt.alloc();
    let mut bytes = Vec::new(alloc);
    match read_script_bytes(rt, path, &mut bytes) {
        Ok(None) => text_of(alloc, path, NO_SCRIPT, bytes),
        Ok(Some(why)) => Err(Refusal::of_file(alloc, Fault::FileFault, path, why)),
        Err(error) => Err(not_read(alloc, path, &error)),
    }
}

/// The guests of a board file, and the path of their image, where it names one. `FileFault` where
/// the file can't be read, isn't UTF-8, or is longer than 1 MiB; `BadBoard` where the text is no
/// board; `NoMemory`.
pub fn read_board_file<R: Files + AllocGlobal>(
    rt: &R,
    path: &str,
) -> Result<(BoardSetup, Option<String>), Refusal> {
    let text = read_board_text(rt, path)?;
    match read_board(rt.alloc(), text.as_str()) {
        Ok(read) => Ok(read),
        Err(BoardError::BadBoard(flaw)) => {
            Err(Refusal::of_file(rt.alloc(), Fault::BadBoard, path, flaw.as_str()))
        }
        Err(BoardError::NoMemory) => Err(Refusal::no_memory()),
    }
}

/// The guests of a board file, and the path of the image that it has to name. Refused as by
/// `read_board_file`, and with `BadBoard` where it names none.
pub fn read_image_board<R: Files + AllocGlobal>(
    rt: &R,
    path: &str,
) -> Result<(BoardSetup, String), Refusal> {
    match read_board_file(rt, path)? {
        (setup, Some(image)) => Ok((setup, image)),
        (_, None) => {
            let why = "names no image: its guests are in memory, and nothing of them is kept; \
                add image = \"FILE\" above [[guest]]";
            Err(Refusal::of_file(rt.alloc(), Fault::BadBoard, path, why))
        }
    }
}
