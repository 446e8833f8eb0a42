//! The command that says whether `rpmbd` reads a board file and a script.
use crate::board_image::check_image;
use crate::refusal::{FileRefusal, Refusal, flawed};
use crate::source::{BOARD_FILE, SCRIPT_FILE, Source, SourceError, content_of};
use crate::words::Words;
use board_file::{BoardError, read_board};
use rpmb_client::OptionRefusal;
use rpmb_frame::BoardConfig;
use script::{Line, ScriptError, read_script};
use std::alloc::Global;
use std::io;
use std::io::Write;

/// The bytes of a script's line that are too many without its line feed: a store of 64 MiB, the
/// largest memory of a guest, has fewer.
const LINE_BYTES: usize = 134_217_760;

/// A board, and the path of its image, where it names one.
#[derive(Drop)]
struct Board {
    config: BoardConfig,
    image: Option<String>,
}

fn board_in<'a>(
    alloc: Global,
    file: &'a str,
    bytes: &[u8],
    flaw: &mut String,
) -> Result<Board, Refusal<'a>> {
    let Ok(text) = str::from_utf8(bytes) else {
        return Err(Refusal::File(FileRefusal::NoText, file));
    };
    match read_board(alloc, text) {
        Ok((setup, image)) => Ok(Board {
            config: setup.into_board(),
            image,
        }),
        Err(BoardError::BadBoard(words)) => {
            *flaw = words;
            Err(Refusal::File(FileRefusal::BadBoard, file))
        }
        Err(BoardError::NoMemory) => Err(Refusal::NoMemory),
    }
}

fn check_board<'a, S: Source>(
    alloc: Global,
    source: &S,
    file: &'a str,
    flaw: &mut String,
) -> Result<Board, Refusal<'a>> {
    let bytes = content_of(alloc, source, file, BOARD_FILE)?;
    board_in(alloc, file, bytes.as_slice(), flaw)
}

/// How many bytes the memory has of a guest beyond whose memory a line stores.
fn left_memory(board: &BoardConfig, line: &Line) -> Option<u64> {
    let (guest, end) = line.stored_up_to()?;
    let memory = board.guests().get(usize::from(guest))?.memory;
    if end > memory { Some(memory) } else { None }
}

/// Refused where a line stores beyond its guest's memory, which ends a run.
fn check_stores<'a>(
    alloc: Global,
    file: &'a str,
    board: &BoardConfig,
    lines: &[Line],
    flaw: &mut String,
) -> Result<(), Refusal<'a>> {
    let mut number = 0usize;
    for line in lines {
        number = number.saturating_add(1);
        if let Some(memory) = left_memory(board, line) {
            let text = "the store reaches beyond its guest's memory, which has";
            let words = format!(in alloc; "line {number}: {text} {memory} bytes");
            return Err(flawed(words, Refusal::File(FileRefusal::BadScript, file), flaw));
        }
    }
    Ok(())
}

fn check_text<'a>(
    alloc: Global,
    file: &'a str,
    text: &str,
    board: &BoardConfig,
    flaw: &mut String,
) -> Result<(), Refusal<'a>> {
    match read_script(alloc, text, board.guests().len() as u16) {
        Ok(lines) => check_stores(alloc, file, board, lines.as_slice(), flaw),
        Err(ScriptError::BadScript { line, flaw: why }) => {
            let words = format!(in alloc; "line {line}: {why}");
            Err(flawed(words, Refusal::File(FileRefusal::BadScript, file), flaw))
        }
        Err(ScriptError::NoMemory) => Err(Refusal::NoMemory),
    }
}

/// Whether the last line of a script says something and lacks its line feed.
fn is_cut(script: &str) -> bool {
    match script.split('\n').last() {
        Some(last) => !(last.is_empty() || last.starts_with('#')),
        None => false,
    }
}

/// Whether a script that is read may have been cut within its last line. Refused, too, where a line
/// has more bytes than `rpmbd run` takes in one.
fn check_lines<'a>(
    alloc: Global,
    file: &'a str,
    bytes: &[u8],
    board: &BoardConfig,
    flaw: &mut String,
) -> Result<bool, Refusal<'a>> {
    let Ok(text) = str::from_utf8(bytes) else {
        return Err(Refusal::File(FileRefusal::NoText, file));
    };
    if text.split('\n').any(|line| line.len() >= LINE_BYTES) {
        let fault = FileRefusal::Unread(SourceError::LongLine);
        return Err(Refusal::File(fault, file));
    }
    check_text(alloc, file, text, board, flaw)?;
    Ok(is_cut(text))
}

/// The script, where one is named and may have been cut.
fn cut_script<'a, S: Source>(
    alloc: Global,
    source: &S,
    script: Option<&'a str>,
    board: &BoardConfig,
    flaw: &mut String,
) -> Result<Option<&'a str>, Refusal<'a>> {
    let Some(file) = script else {
        return Ok(None);
    };
    let bytes = content_of(alloc, source, file, SCRIPT_FILE)?;
    let is_cut = check_lines(alloc, file, bytes.as_slice(), board, flaw)?;
    Ok(if is_cut { Some(file) } else { None })
}

/// Writes of each guest of a board its capacity.
fn write_guests<W: Write>(board: &BoardConfig, out: &mut W) -> io::Result<()> {
    let mut number = 0u16;
    for guest in board.guests() {
        let units = guest.capacity;
        let size = 128 * u32::from(units);
        writeln!(out, "guest {number}: capacity {units} ({size} KiB)")?;
        number = number.saturating_add(1);
    }
    Ok(())
}

/// Writes how many guests a board has, and its image with what is said of that, where it names one.
fn write_board<W: Write>(board: &Board, state: &str, out: &mut W) -> io::Result<()> {
    let count = board.config.guests().len();
    let guests = if count == 1 { "guest" } else { "guests" };
    match board.image.as_deref() {
        Some(path) => writeln!(out, "ok: {count} {guests}, image {path:?}{state}"),
        None => {
            let kept = "in memory: format, show and upgrade refuse it";
            writeln!(out, "ok: {count} {guests}, {kept}")
        }
    }
}

/// Writes what a board is good for, and of the script that it may have been cut.
fn write_checked<W: Write>(
    board: &Board,
    state: &str,
    cut: Option<&str>,
    out: &mut W,
) -> io::Result<()> {
    write_board(board, state, out)?;
    write_guests(&board.config, out)?;
    match cut {
        Some(file) => {
            let why = "the last line has no line feed; if the file was cut, that line isn't whole";
            writeln!(out, "{file}: {why}")
        }
        None => Ok(()),
    }
}

/// Checks the script, where one is named, and the image of a board, and writes what that is good
/// for.
fn check_on<'a, S: Source, W: Write>(
    alloc: Global,
    source: &S,
    files: (&'a str, Option<&'a str>),
    board: &Board,
    flaw: &mut String,
    out: &mut W,
) -> Result<(), Refusal<'a>> {
    let (file, script) = files;
    let cut = cut_script(alloc, source, script, &board.config, flaw)?;
    let image = board.image.as_deref();
    let state = check_image(alloc, source, file, &board.config, image, flaw)?;
    write_checked(board, state, cut, out).or(Err(Refusal::NoRoom))
}

/// Writes `ok`, and what the board is good for, where `rpmbd run` reads the board file, and the
/// script where one is named. Refused, too, where the image is there and is none of the board's.
/// What is wrong with a file goes into `flaw`.
pub fn check<'a, S: Source, W: Write>(
    alloc: Global,
    source: &S,
    words: &Words<'a>,
    flaw: &mut String,
    out: &mut W,
) -> Result<(), Refusal<'a>> {
    let Some(file) = words.board else {
        return Err(Refusal::Option(OptionRefusal::Incomplete));
    };
    let board = check_board(alloc, source, file, flaw)?;
    check_on(alloc, source, (file, words.script), &board, flaw, out)
}
