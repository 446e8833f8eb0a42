//! What `check` says of the image that a board names, which nobody has to have made yet.
ghost use Rattle.std.specs.Prelude.{◌≡◌, ◌≢◌, ◌≤◌, ℕ, length};
ghost use Rattle.intent_slots.specs.Layout.{capacities_of};
ghost use Rattle.rpmb_commands.specs.BoardImage.{IsImageOf};

use crate::refusal::{FileRefusal, Refusal, flawed};
use crate::source::{Front, Source};
use intent_slots::{HeaderFault, Layout};
use rpmb_frame::BoardConfig;
use std::alloc::{AllocError, Global};

/// How many bytes of an image say which version it is of: the last of them does.
const VERSION_FRONT: u64 = 513;

/// What is there of the image of a board.
#[derive(Clone, Copy)]
enum Found {
    /// Nothing has its name.
    NoFile,
    /// Nor has anything that of its folder.
    NoFolder,
    /// Nothing has its name, which has what a shell expands.
    NotExpanded,
    /// An image of the board, of this version.
    Image(u8),
    /// A file that begins as an image of the board, and has so many bytes in place of as many.
    OtherLength(u64, u64),
    /// No image of the board, for this reason.
    NoImage(&'static str),
}

/// What a file is by its first bytes, 513 where it has as many, and how many it has.
fn found_of(board: &BoardConfig, front: &[u8], size: u64) -> Found
    ensures image { (version : ℕ) → result ≡ Found.Image version
        → IsImageOf (capacities_of board.now) front.now size version }
    ensures none { 513 ≤ length front.now → ((version : ℕ) → result ≢ Found.Image version)
        → (version : ℕ) → ¬ IsImageOf (capacities_of board.now) front.now size version }
{
    if front.len() < 513 && size == 0 {
        return Found::NoImage("has no byte; if there never was an image, rpmbd format makes it");
    }
    if front.len() < 513 {
        return Found::NoImage("has too few bytes for one");
    }
    let layout = Layout::of(board);
    let whole = layout.length();
    match layout.check_header(front) {
        Err(HeaderFault::NotFormatted) => Found::NoImage("is none"),
        Err(HeaderFault::OtherConfig) => {
            Found::NoImage("is another board's (other guests or capacities)")
        }
        Ok(()) if size != whole => Found::OtherLength(size, whole),
        Ok(()) if front[512] == 2 => Found::Image(2),
        Ok(()) => Found::Image(1),
    }
}

/// Whether a path has what a shell expands, and no board file.
fn has_shell_word(path: &str) -> bool {
    path.starts_with('~') || path.contains('$')
}

/// What is there at the path of a board's image.
fn found_at<S: Source>(alloc: Global, source: &S, board: &BoardConfig, path: &str) -> Found {
    if path.ends_with('/') {
        return Found::NoImage("ends with /, and so names no file");
    }
    match source.front(alloc, path, VERSION_FRONT) {
        Front::Absent | Front::NoFolder if has_shell_word(path) => Found::NotExpanded,
        Front::Absent => Found::NoFile,
        Front::NoFolder => Found::NoFolder,
        Front::Unread(why) => Found::NoImage(why.text()),
        Front::Read(front, length) => found_of(board, front.as_slice(), length),
    }
}

/// What is said behind the path of an image, unless it is a wrong one.
fn state_of(found: Found) -> Option<&'static str> {
    Some(match found {
        Found::NoFile =>
            ", which isn't there, seen from the folder that you are in: if there never was one, \
             rpmbd format makes it there",
        Found::NoFolder =>
            ", whose folder isn't there, seen from the one that you are in: make that, or mend the \
             path",
        Found::NotExpanded =>
            ", which isn't there: no ~ and no $ is expanded in a board file; write the whole path",
        Found::Image(2) => " of version 2",
        Found::Image(_) => " of version 1",
        Found::OtherLength(_, _) | Found::NoImage(_) => return None,
    })
}

/// Why a file is no image of the board, or none of its length.
fn words_of(alloc: Global, image: &str, found: Found) -> Result<String, AllocError> {
    match found {
        Found::OtherLength(length, whole) => {
            format!(in alloc; "{image:?} has {length} bytes, an image of this board {whole}")
        }
        Found::NoImage(why) => format!(in alloc; "{image:?} {why}"),
        _ => Ok(String::new(alloc)),
    }
}

/// What is said behind the path of an image, which may be none that is made yet; nothing where a
/// board names none. Refused for the flaw where it is there and none of this board.
pub(crate) fn check_image<'a, S: Source>(
    alloc: Global,
    source: &S,
    file: &'a str,
    board: &BoardConfig,
    image: Option<&str>,
    flaw: &mut String,
) -> Result<&'static str, Refusal<'a>> {
    let Some(image) = image else {
        return Ok("");
    };
    let found = found_at(alloc, source, board, image);
    match state_of(found) {
        Some(state) => Ok(state),
        None => {
            let words = words_of(alloc, image, found);
            Err(flawed(words, Refusal::File(FileRefusal::BadImage, file), flaw))
        }
    }
}
