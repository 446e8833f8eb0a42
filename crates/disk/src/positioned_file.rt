//! The three calls of a file that a disk makes, each at a place that the caller names.
ghost use Rattle.std.specs.Prelude.{length};
ghost use Rattle.disk.specs.FileDisk.{FileCall, ReadAt, WriteAt, SyncAll, count_of, is_done};
ghost use Rattle.disk.specs.FileDisk.{FileShows, FileEffect, unknown_file, unknown_effect};

use std::fs::File;
use std::io;
use std::os::unix::fs::FileExt;

/// A file that is read and written at offsets in bytes from its start, and synced.
///
/// Each call says which call was made, at which offset, of which bytes, and how many of them it
/// says it moved. What a file gives and keeps is known of one that is faithful, and that is for
/// whoever implements this to show, or for whoever trusts a file to assume.
pub trait PositionedFile: Drop {
    /// What the file is known to give and to keep.
    ghost shows: { Self → FileShows };

    /// One call leads from one value to the other. Only by making the call can a caller show it.
    ghost made: { Self → FileCall → Self → Type 0 };

    /// Reads from the offset `at` on into the front of `out`, and says how many bytes it read:
    /// fewer than `out` has where the file ends before, or the system stops early.
    fn read_at(&mut self, at: u64, out: &mut [u8]) -> io::Result<usize>
        ensures { made self.old (ReadAt at out.new (count_of result)) self.new };

    /// Writes the front of `bytes` from the offset `at` on, and says how many of them it wrote.
    fn write_at(&mut self, at: u64, bytes: &[u8]) -> io::Result<usize>
        ensures { made self.old (WriteAt at bytes.now (count_of result)) self.new };

    /// Puts all that was written, and the file's length, where no stop of the machine takes it
    /// away.
    fn sync_all(&mut self) -> io::Result<()>
        ensures { made self.old (SyncAll (is_done result)) self.new };

    /// What a call does to what the file gives and keeps.
    ghost effect: { (old new : Self) (call : FileCall) → made old call new
        → FileEffect (shows old) call (shows new) };
}

// Whether a signal ended the call before it moved a byte.
fn is_interrupted(outcome: &io::Result<usize>) -> bool {
    match outcome {
        Ok(_) => false,
        Err(error) => error.kind() == io::ErrorKind::Interrupted,
    }
}

/// One call of the system each, which is made again where a signal interrupted it before it did
/// anything (EINTR). No contract says what such a file did, so nothing is known of it here.
impl PositionedFile for File {
    ghost shows = { λ file. unknown_file };

    ghost made = { λ old call new. Unit {0} };

    ghost effect = { λ old new call made. unknown_effect call };

    fn read_at(&mut self, at: u64, out: &mut [u8]) -> io::Result<usize> {
        for _ in 0..u64::MAX {
            let outcome = FileExt::read_at(self, out, at);
            if !is_interrupted(&outcome) {
                return outcome;
            }
        }
        FileExt::read_at(self, out, at)
    }

    fn write_at(&mut self, at: u64, bytes: &[u8]) -> io::Result<usize> {
        for _ in 0..u64::MAX {
            let outcome = FileExt::write_at(self, bytes, at);
            if !is_interrupted(&outcome) {
                return outcome;
            }
        }
        FileExt::write_at(self, bytes, at)
    }

    fn sync_all(&mut self) -> io::Result<()> {
        File::sync_all(self)
    }
}
