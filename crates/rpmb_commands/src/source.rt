//! Where the files are that words name.
ghost use Rattle.std.specs.Prelude.{◌≤◌, ℕ, IfErr, IfOk, List, length};
ghost use Rattle.rpmb_commands.specs.KeySaid.{IsWhyNoContent};

use crate::refusal::{FileRefusal, Refusal};
use std::alloc::Global;
use std::io::Read;
use std::path::Path;
use std::rt::Files;
use std::{fs, io};

/// The most bytes of a file with a key: room for whatever is nearly one, so that it is told by what
/// is wrong with it.
pub(crate) const KEY_FILE: usize = 128;

/// The most bytes of a file of blocks: 65,536 blocks of 256 bytes, more than any partition has.
pub(crate) const BLOCKS_FILE: usize = 16_777_216;

/// The most bytes of a board file: 1 MiB.
pub(crate) const BOARD_FILE: usize = 1_048_576;

/// The most bytes of a script: 512 MiB, as `rpmbd run` takes them.
pub(crate) const SCRIPT_FILE: usize = 536_870_912;

/// Why a file isn't read.
#[derive(Clone, Copy)]
pub enum SourceError {
    NotThere,
    IsFolder,
    NoPermission,
    NoPath,
    RoundLinks,
    LongPath,
    /// Its path has a byte of zero, or another that no path has.
    NulPath,
    NoPlain,
    DeadLink,
    LongLine,
    /// A read of it failed.
    Failed,
    /// It has more bytes than were asked for, or no end.
    TooLong,
    /// Memory was refused for its bytes.
    NoMemory,
}

impl SourceError {
    pub(crate) fn text(self) -> &'static str {
        match self {
            Self::NotThere => "isn't there",
            Self::IsFolder => "is a folder",
            Self::NoPermission => "no permission to read it",
            Self::NoPath => "a part of its path is a file, and no folder",
            Self::RoundLinks => "leads round in links",
            Self::LongPath => "the path is too long",
            Self::NulPath => "the path has a byte of zero (NUL), or another that no path has",
            Self::NoPlain => "is no plain file",
            Self::DeadLink => "is a link to a file that isn't there",
            Self::LongLine => "has a line of 134217760 bytes and more, and is no script",
            Self::Failed => "a read of it failed",
            _ => "can't be read",
        }
    }
}

/// How a file begins.
#[derive(Drop)]
pub enum Front {
    /// Nothing has its name.
    Absent,
    /// Nor has anything that of its folder.
    NoFolder,
    /// It can't be read, for this reason.
    Unread(SourceError),
    /// Its first bytes, and how many it has.
    Read(Vec<u8>, u64),
}

/// Gives what files hold, by the names that words give them.
pub trait Source {
    /// What a file of a name may give. A file may change, so one name may give more than one.
    ghost gives: { Self → List ℕ → List ℕ → Type 0 };

    /// What a file holds, where that is at most `most` bytes. No more than one byte behind them is
    /// read.
    ///
    /// # Errors
    ///
    /// `TooLong` where it holds more, `NoMemory` where memory is refused for its bytes, else why it
    /// can't be read.
    fn content(&self, alloc: Global, name: &str, most: usize) -> Result<Vec<u8>, SourceError>
        ensures given { IfOk result (λ bytes. gives self.now name.now bytes.items) }
        ensures most { IfOk result (λ bytes. length bytes.items ≤ most) };

    /// Whether there is a file of the name, which isn't opened.
    fn is_file(&self, name: &str) -> bool;

    /// The first bytes of a file, `most` where it has as many, and its length.
    fn front(&self, alloc: Global, name: &str, most: u64) -> Front;
}

fn error_of(error: &io::Error) -> SourceError {
    match error.kind() {
        io::ErrorKind::OutOfMemory => SourceError::NoMemory,
        io::ErrorKind::NotFound => SourceError::NotThere,
        io::ErrorKind::IsADirectory => SourceError::IsFolder,
        io::ErrorKind::PermissionDenied => SourceError::NoPermission,
        io::ErrorKind::NotADirectory => SourceError::NoPath,
        io::ErrorKind::FilesystemLoop => SourceError::RoundLinks,
        io::ErrorKind::InvalidFilename => SourceError::LongPath,
        io::ErrorKind::InvalidInput => SourceError::NulPath,
        _ => SourceError::Failed,
    }
}

/// What a reader gives, up to one byte behind `most`.
fn read_most<A: Read + Drop>(alloc: Global, from: A, most: usize) -> Result<Vec<u8>, SourceError>
    ensures { IfOk result (λ bytes. length bytes.items ≤ most) }
{
    let mut bytes = Vec::new(alloc);
    let mut front = from.take((most as u64).saturating_add(1));
    match front.read_to_end(&mut bytes) {
        Ok(_) if bytes.len() > most => Err(SourceError::TooLong),
        Ok(_) => Ok(bytes),
        Err(error) => Err(error_of(&error)),
    }
}

/// What the file of a path holds. Refused as by `Source::content`.
pub fn read_file<R: Files + AllocGlobal>(
    rt: &R,
    path: &str,
    most: usize,
) -> Result<Vec<u8>, SourceError>
    ensures { IfOk result (λ bytes. length bytes.items ≤ most) }
{
    match fs::open(rt, path) {
        Ok(file) => read_most(rt.alloc(), file, most),
        Err(error) => Err(error_of(&error)),
    }
}

/// The first bytes of a plain file, which others aren't opened for.
fn front_of<R: Files + AllocGlobal>(rt: &R, path: &str, most: u64) -> io::Result<Front> {
    let found = fs::metadata(rt, path)?;
    if !(found.is_file() || found.is_dir()) {
        return Ok(Front::Unread(SourceError::NoPlain));
    }
    let mut bytes = Vec::new(rt.alloc());
    fs::open(rt, path)?.take(most).read_to_end(&mut bytes)?;
    Ok(Front::Read(bytes, found.len()))
}

/// Whether the path itself is a link, wherever it leads.
fn is_link<R: Files>(rt: &R, path: &str) -> bool {
    match fs::symlink_metadata(rt, path) {
        Ok(found) => found.is_symlink(),
        Err(_) => false,
    }
}

/// Whether the folder of a path is there.
fn has_folder<R: Files>(rt: &R, path: &str) -> bool {
    match Path::new(path).parent() {
        Some(folder) if !folder.as_str().is_empty() => fs::metadata(rt, folder.as_str()).is_ok(),
        _ => true,
    }
}

/// How the file of a path begins, as `Source::front` gives it.
pub fn read_front<R: Files + AllocGlobal>(rt: &R, path: &str, most: u64) -> Front {
    match front_of(rt, path, most) {
        Ok(front) => front,
        Err(error) => match error.kind() {
            io::ErrorKind::NotFound if is_link(rt, path) => Front::Unread(SourceError::DeadLink),
            io::ErrorKind::NotFound if !has_folder(rt, path) => Front::NoFolder,
            io::ErrorKind::NotFound => Front::Absent,
            _ => Front::Unread(error_of(&error)),
        },
    }
}

/// Whether there is a file of the path, which isn't opened.
pub fn is_file<R: Files>(rt: &R, path: &str) -> bool {
    match fs::metadata(rt, path) {
        Ok(found) => found.is_file(),
        Err(_) => false,
    }
}

/// What a file holds, or the refusal that names it.
pub(crate) fn content_of<'a, S: Source>(
    alloc: Global,
    source: &S,
    name: &'a str,
    most: usize,
) -> Result<Vec<u8>, Refusal<'a>>
    ensures ok { IfOk result (λ bytes. S.gives source.now name.now bytes.items) }
    ensures most { IfOk result (λ bytes. length bytes.items ≤ most) }
    ensures err { IfErr result (IsWhyNoContent name.entry most) }
{
    match source.content(alloc, name, most) {
        Ok(bytes) => Ok(bytes),
        Err(SourceError::TooLong) => Err(Refusal::File(FileRefusal::TooLong(most), name)),
        Err(SourceError::NoMemory) => Err(Refusal::NoMemory),
        Err(why) => Err(Refusal::File(FileRefusal::Unread(why), name)),
    }
}
