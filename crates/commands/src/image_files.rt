//! The file of an image: opened or made, and held for one program as long as it is open.
ghost use Rattle.std.specs.Prelude.{◌≡◌, IfOk};

use crate::fault::Fault;
use crate::file_limit::check_limit;
use crate::reason::Refusal;
use crate::shown_file::ShownFile;
use disk::FileDisk;
use std::env::current_dir;
use std::fs::{File, FileType, Metadata, OpenOptions, TryLockError};
use std::os::unix::fs::{FileTypeExt, MetadataExt, OpenOptionsExt};
use std::path::Path;
use std::{fs, io};

/// Where a path leads to what standard output writes into.
const OUTPUT: &str = "/dev/stdout";

/// What is said of an image that isn't there.
const NOT_THERE: &str = "isn't there; if there never was one, rpmbd format makes it";

/// And of one whose path begins in the folder that the program was started in.
const NOT_HERE: &str = "where you are: the path counts from there, not from the board file's \
    folder; go to the image's folder, or if there never was one, rpmbd format makes it";

/// What is said of an image whose folder isn't there.
const FOLDER_NOT_THERE: &str = "its folder isn't there; mend the path in the board file";

/// And of one whose path begins in the folder that the program was started in.
const FOLDER_NOT_HERE: &str = "where you are: the path counts from there, not from the board \
    file's folder; go to where it counts from, or mend it in the board file";

/// And of one whose path is a link.
const DEAD_LINK: &str = "is a link to a file that isn't there; mend the link, or name the file \
    itself in the board file";

/// And of one whose path has what a shell expands.
const NOT_EXPANDED: &str =
    "isn't there: no ~ and no $ is expanded in a board file; write the whole path";

/// What is said of a path that can't be a file's.
const NO_NAME: &str = "ends with /, and so names no file; take that away in the board file's image";

/// What is said of an image whose path leads to none of the files that have bytes to be kept.
const NO_FILE: &str = "and no plain file, as an image is; name another in the board file's image";

/// What is said of one that has to be a new one.
const IS_THERE: &str = "is there, and --new makes none over it; name another in the board file";

/// What is said of one that can't be made.
const NO_FOLDER: &str = "its folder, seen from the one that you are in, isn't there; make that, or \
    mend the path in the board file";

/// And of one whose folder is there, and is no place for files that are made.
const NO_FILES_THERE: &str = "no file can be made in its folder; name another folder in the board \
    file";

/// And of one whose folder takes no new file.
const NO_NEW_FILE: &str = "isn't there, and its folder lets you make no file; the folder's owner \
    may change that (chmod), or name another folder in the board file";

/// And of one where nothing can be written.
const NO_WRITING: &str = "isn't there, and nothing can be written in its folder; name another \
    folder in the board file";

/// What is said of a board file that names itself as its image.
const IS_BOARD: &str = "is the board file itself, and stays as it is; name another file in its \
    image";

/// What is said of an image that standard output writes into, and which has no byte.
const IS_EMPTIED: &str = "standard output writes into it, and the shell's > has emptied it; send \
    what is printed elsewhere, and if it was an image, put a copy there";

const IS_OUTPUT: &str = "standard output writes into it; send what is printed elsewhere";

/// Opens the file of an image. Where standard output or error is closed, its number goes to the
/// next file that is opened, and what is printed would be written into that file. So the file is
/// kept under a number above theirs.
fn open_above_streams(rt: &HostRuntime, path: &str, options: &OpenOptions) -> io::Result<File> {
    let file = options.open(rt, path)?;
    file.try_clone()
}

/// What stands at a path that is no plain file and no folder.
fn name_of_kind(kind: FileType) -> &'static str {
    if kind.is_fifo() {
        "a pipe"
    } else if kind.is_socket() {
        "a socket"
    } else if kind.is_block_device() {
        "a disk's device"
    } else {
        "a device"
    }
}

/// Refused where the path leads to what is no plain file, before it is opened, which may wait, or
/// do what nobody asked for. A folder is refused as it is opened, and what standard output writes
/// into as that.
fn check_kind(rt: &HostRuntime, path: &str) -> Result<(), Refusal> {
    if path.ends_with('/') {
        return Err(refused(rt, path, NO_NAME));
    }
    match fs::metadata(rt, path) {
        Ok(found) if !(found.is_file() || found.is_dir() || leads_to(rt, OUTPUT, &found)) => {
            let kind = name_of_kind(found.file_type());
            match format!(in rt.alloc(); "is {kind}, {NO_FILE}") {
                Ok(why) => Err(refused(rt, path, why.as_str())),
                Err(_) => Err(Refusal::no_memory()),
            }
        }
        _ => Ok(()),
    }
}

/// Opens a file that is there.
fn open_there(rt: &HostRuntime, path: &str, writable: bool) -> io::Result<File> {
    let mut options = File::options();
    options.read(true).write(writable);
    open_above_streams(rt, path, &options)
}

/// Opens a file, and says whether it was made for that: for its owner alone, since keys will stand
/// in it. A file that is there keeps its mode, and is refused where it has to be a new one.
fn open_or_make(rt: &HostRuntime, path: &str, only_new: bool) -> io::Result<(File, bool)> {
    let mut options = File::options();
    options.read(true).write(true).create_new(true).mode(0o600);
    match open_above_streams(rt, path, &options) {
        Ok(file) => Ok((file, true)),
        Err(error) => match error.kind() {
            io::ErrorKind::AlreadyExists if !only_new => Ok((open_there(rt, path, true)?, false)),
            _ => Err(error),
        },
    }
}

/// Whether the path leads to this very file.
fn leads_to(rt: &HostRuntime, path: &str, file: &Metadata) -> bool {
    match fs::metadata(rt, path) {
        Ok(other) => other.dev() == file.dev() && other.ino() == file.ino(),
        Err(_) => false,
    }
}

/// The refusal of a file for what is wrong with it.
fn refused(rt: &HostRuntime, path: &str, why: &str) -> Refusal {
    Refusal::of_file(rt.alloc(), Fault::FileFault, path, why)
}

/// Takes the lock of the file for as long as it is open: alone, or beside others that only look at
/// it. Another program that has it isn't waited for.
fn lock(rt: &HostRuntime, path: &str, file: &File, alone: bool) -> Result<(), Refusal> {
    let locked = if alone {
        file.try_lock()
    } else {
        file.try_lock_shared()
    };
    match locked {
        Ok(()) => Ok(()),
        Err(TryLockError::WouldBlock) => {
            let why = "another program has it; wait until that ends, or end it";
            Err(refused(rt, path, why))
        }
        Err(TryLockError::Error(error)) => Err(Refusal::of_call(rt.alloc(), path, &error)),
    }
}

/// Locks the file of an image. `FileFault` where another program has it, or where what is printed
/// would go into the file.
fn hold(
    rt: &HostRuntime,
    path: &str,
    file: File,
    alone: bool,
) -> Result<(File, Metadata), Refusal> {
    lock(rt, path, &file, alone)?;
    match file.metadata() {
        Ok(metadata) => {
            if leads_to(rt, OUTPUT, &metadata) {
                let is_empty = metadata.is_file() && metadata.len() == 0;
                let why = if is_empty { IS_EMPTIED } else { IS_OUTPUT };
                return Err(refused(rt, path, why));
            }
            Ok((file, metadata))
        }
        Err(error) => Err(Refusal::of_call(rt.alloc(), path, &error)),
    }
}

/// The folder of a file.
fn folder_of(path: &str) -> &str {
    match Path::new(path).parent() {
        Some(folder) if !folder.as_str().is_empty() => folder.as_str(),
        _ => ".",
    }
}

/// Syncs the folder that a file was made in, so that its name outlives a stop of the machine.
fn sync_folder(rt: &HostRuntime, path: &str) -> io::Result<()> {
    File::open(rt, folder_of(path))?.sync_all()
}

/// Whether nothing stands at a path, or a link leads from there to nothing.
pub(crate) fn is_absent(rt: &HostRuntime, path: &str) -> bool {
    match fs::metadata(rt, path) {
        Ok(_) => false,
        Err(error) => error.kind() == io::ErrorKind::NotFound,
    }
}

/// Whether the path itself is a link, wherever it leads.
fn is_link(rt: &HostRuntime, path: &str) -> bool {
    match fs::symlink_metadata(rt, path) {
        Ok(found) => found.is_symlink(),
        Err(_) => false,
    }
}

/// Whether a path has what a shell expands, and no board file.
fn has_shell_word(path: &str) -> bool {
    path.starts_with('~') || path.contains('$')
}

/// Why the file of an image isn't made.
fn not_made(rt: &HostRuntime, path: &str, error: &io::Error) -> Refusal {
    match error.kind() {
        io::ErrorKind::NotFound if is_link(rt, path) => refused(rt, path, DEAD_LINK),
        io::ErrorKind::NotFound if has_shell_word(path) => refused(rt, path, NOT_EXPANDED),
        io::ErrorKind::NotFound if is_absent(rt, folder_of(path)) => refused(rt, path, NO_FOLDER),
        io::ErrorKind::NotFound => refused(rt, path, NO_FILES_THERE),
        io::ErrorKind::AlreadyExists => refused(rt, path, IS_THERE),
        io::ErrorKind::PermissionDenied if is_absent(rt, path) => refused(rt, path, NO_NEW_FILE),
        io::ErrorKind::ReadOnlyFilesystem if is_absent(rt, path) => refused(rt, path, NO_WRITING),
        _ => Refusal::of_call(rt.alloc(), path, error),
    }
}

/// What isn't there of a path that counts from the folder that the program was started in: the
/// file, or its folder.
fn not_here(rt: &HostRuntime, path: &str, what: &str, why: &str) -> Option<Refusal> {
    let folder = current_dir(rt).ok()?;
    let folder = folder.as_str();
    match format!(in rt.alloc(); "{what}isn't in {folder}, {why}") {
        Ok(why) => Some(refused(rt, path, why.as_str())),
        Err(_) => Some(Refusal::no_memory()),
    }
}

/// A file, or its folder, isn't there.
fn not_there(rt: &HostRuntime, path: &str) -> Refusal {
    let (what, here, there) = if is_absent(rt, folder_of(path)) {
        ("its folder ", FOLDER_NOT_HERE, FOLDER_NOT_THERE)
    } else {
        ("", NOT_HERE, NOT_THERE)
    };
    if path.starts_with('/') {
        return refused(rt, path, there);
    }
    match not_here(rt, path, what, here) {
        Some(refusal) => refusal,
        None => refused(rt, path, there),
    }
}

/// Why the file of an image isn't opened.
fn not_opened(rt: &HostRuntime, path: &str, error: &io::Error) -> Refusal {
    match error.kind() {
        io::ErrorKind::NotFound if is_link(rt, path) => refused(rt, path, DEAD_LINK),
        io::ErrorKind::NotFound if has_shell_word(path) => refused(rt, path, NOT_EXPANDED),
        io::ErrorKind::NotFound => not_there(rt, path),
        _ => Refusal::of_call(rt.alloc(), path, error),
    }
}

/// Gives the file of an image its length. One that was made for that, and can't have it, is taken
/// away again.
fn set_length(
    rt: &HostRuntime,
    path: &str,
    file: &File,
    is_new: bool,
    len: u64,
) -> Result<(), Refusal> {
    let Err(error) = file.set_len(len) else {
        return Ok(());
    };
    if is_new {
        let _ = fs::remove_file(rt, path);
    }
    match error.kind() {
        io::ErrorKind::InvalidInput => Err(refused(rt, path, "is no plain file")),
        _ => Err(Refusal::of_call(rt.alloc(), path, &error)),
    }
}

/// The file of an image that is to be made, cut or made longer to `len` bytes, and no other
/// program's until it is closed. It is made where it isn't there, for its owner alone; where it has
/// no byte yet, its folder is synced. A file that is there keeps its mode, and is refused where
/// `only_new` says so, with `FileFault` as all that follows. It is refused where it can't be opened
/// for reading and writing, where another program holds it, where it is the board file, whose path
/// is `board`, or what standard output writes into: then its bytes stay; or where the folder can't
/// be synced, or the length can't be set, or is beyond what this process may write.
pub fn create_image(
    rt: &HostRuntime,
    path: &str,
    board: &str,
    only_new: bool,
    len: u64,
) -> Result<FileDisk, Refusal>
    ensures { IfOk result (λ disk. disk.len ≡ len) }
{
    check_kind(rt, path)?;
    check_limit(rt, path, len)?;
    let (file, is_new) = match open_or_make(rt, path, only_new) {
        Ok(opened) => opened,
        Err(error) => return Err(not_made(rt, path, &error)),
    };
    let (file, metadata) = hold(rt, path, file, true)?;
    if leads_to(rt, board, &metadata) {
        return Err(refused(rt, path, IS_BOARD));
    }
    // (a file of no bytes may be what a stop left of such a call, before that)
    if (is_new || metadata.len() == 0) && sync_folder(rt, path).is_err() {
        return Err(refused(rt, path, "its folder can't be synced"));
    }
    set_length(rt, path, &file, is_new, len)?;
    Ok(FileDisk::new(file, len))
}

/// The file of an image that is there, and no other program's until it is closed. `FileFault` where
/// it can't be opened for reading and writing, where another program holds it or looks at it, where
/// standard output writes into it, or where it is longer than this process may write.
pub fn open_image(rt: &HostRuntime, path: &str) -> Result<FileDisk, Refusal> {
    check_kind(rt, path)?;
    let file = match open_there(rt, path, true) {
        Ok(file) => file,
        Err(error) => return Err(not_opened(rt, path, &error)),
    };
    let (file, metadata) = hold(rt, path, file, true)?;
    check_limit(rt, path, metadata.len())?;
    Ok(FileDisk::new(file, metadata.len()))
}

/// Opens a file to look at it, and says whether it may be synced: it may not where writing is
/// refused.
fn open_to_look(rt: &HostRuntime, path: &str) -> io::Result<(File, bool)> {
    match open_there(rt, path, true) {
        Ok(file) => Ok((file, true)),
        Err(error) => match error.kind() {
            io::ErrorKind::PermissionDenied | io::ErrorKind::ReadOnlyFilesystem => {
                Ok((open_there(rt, path, false)?, false))
            }
            _ => Err(error),
        },
    }
}

/// The file of an image that is to be shown, beside other programs that show it and no others.
/// Where writing is refused it is opened for reading alone, and isn't synced then. `FileFault`
/// where it can't be opened for reading, where another program holds it, or where standard output
/// writes into it.
pub fn open_shown(rt: &HostRuntime, path: &str) -> Result<FileDisk<ShownFile>, Refusal> {
    check_kind(rt, path)?;
    let (file, may_be_synced) = match open_to_look(rt, path) {
        Ok(opened) => opened,
        Err(error) => return Err(not_opened(rt, path, &error)),
    };
    let (file, metadata) = hold(rt, path, file, false)?;
    let file = ShownFile::new(file, may_be_synced);
    Ok(FileDisk::new(file, metadata.len()))
}
