//! Why a command didn't reach its end, in words: the line behind the one of its fault.

use crate::fault::Fault;
use std::alloc::Global;
use std::io;

/// What is said of in the place of a file where what is printed isn't taken.
pub(crate) const OUTPUT: &str = "standard output";

/// What is said of a file that is no text.
pub(crate) const NO_TEXT: &str =
    "isn't text in UTF-8; save it as that, or unpack it where it is compressed";

/// What is said of a file that isn't there.
const NOT_THERE: &str =
    "isn't there; a path counts from the folder that you are in, unless it begins with /";

/// What is said of a path that no file has.
const NO_PATH: &str = "has a byte of zero (NUL), or another that no path has; mend the path";

/// What is said where the system opens no file more.
const NO_MORE_FILES: &str =
    "can't be opened, as too many files are open; close some, or raise their number (ulimit -n)";

/// The system's numbers of errors that have no kind of their own: a stream that is closed, and too
/// many files that are open, in the system or in this process (EBADF, ENFILE and EMFILE of
/// errno(3)).
const CLOSED: i32 = 9;

const SYSTEM_FILES: i32 = 23;

const OWN_FILES: i32 = 24;

/// What ended the program before its command began: the fault, and of which file it is and why.
#[derive(Debug, Drop)]
pub struct Refusal {
    /// The fault that is told.
    pub fault: Fault,
    /// The file and what is wrong with it; None where memory was refused for the words.
    pub reason: Option<String>,
}

/// What an error says of a file, where that can be said better than the system does.
fn words_of(kind: io::ErrorKind) -> Option<&'static str> {
    match kind {
        io::ErrorKind::NotFound => Some(NOT_THERE),
        io::ErrorKind::IsADirectory => Some("is a folder; name a file in it"),
        io::ErrorKind::NotADirectory => Some(
            "a part of its path is a file, and no folder; mend the path",
        ),
        io::ErrorKind::PermissionDenied => Some(
            "permission denied; its owner may change that (chmod), or that of a folder in its path",
        ),
        io::ErrorKind::ReadOnlyFilesystem => Some(
            "stands where nothing can be written; copy it elsewhere",
        ),
        io::ErrorKind::FilesystemLoop => Some("leads round in links; name the file itself"),
        io::ErrorKind::InvalidFilename => Some("the path is too long; take a shorter one"),
        io::ErrorKind::InvalidData => Some(NO_TEXT),
        io::ErrorKind::InvalidInput => Some(NO_PATH),
        io::ErrorKind::StorageFull => Some("no space left; make room"),
        io::ErrorKind::FileTooLarge => Some(
            "is longer than you may write a file (ulimit -f), or than its disk takes; raise that, \
             or name another",
        ),
        io::ErrorKind::BrokenPipe => Some("who read it is gone"),
        _ => None,
    }
}

/// The fault of a file that can't be read, opened or made.
fn fault_of(error: &io::Error) -> Fault {
    match error.kind() {
        io::ErrorKind::OutOfMemory => Fault::NoMemory,
        _ => Fault::FileFault,
    }
}

/// `WHAT: WHY`, where there is memory for it.
pub(crate) fn said(alloc: Global, what: &str, why: &str) -> Option<String> {
    let what = if what.is_empty() {
        "an empty path"
    } else {
        what
    };
    format!(in alloc; "{what}: {why}").ok()
}

/// What is wrong with a file or a stream by an error of a call.
pub(crate) fn said_by(alloc: Global, what: &str, error: &io::Error) -> Option<String> {
    match error.raw_os_error() {
        Some(CLOSED) => return said(alloc, what, "is closed"),
        Some(SYSTEM_FILES | OWN_FILES) => return said(alloc, what, NO_MORE_FILES),
        _ => {}
    }
    match words_of(error.kind()) {
        Some(why) => said(alloc, what, why),
        None => format!(in alloc; "{what}: {error}").ok(),
    }
}

impl Refusal {
    /// Memory was refused: there is none for words either.
    pub(crate) fn no_memory() -> Refusal {
        Refusal {
            fault: Fault::NoMemory,
            reason: None,
        }
    }

    /// A fault of a file, and why.
    pub(crate) fn of_file(alloc: Global, fault: Fault, path: &str, why: &str) -> Refusal {
        Refusal {
            fault,
            reason: said(alloc, path, why),
        }
    }

    /// The fault of a call on a file that failed.
    pub(crate) fn of_call(alloc: Global, path: &str, error: &io::Error) -> Refusal {
        Refusal {
            fault: fault_of(error),
            reason: said_by(alloc, path, error),
        }
    }
}
