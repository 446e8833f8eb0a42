//! The file of an image that is only looked at.

ghost use Rattle.disk.specs.FileDisk.{unknown_effect, unknown_file};

use disk::PositionedFile;
use std::fs::File;
use std::io;

/// A file that is read, and synced before that where it may be: what an earlier program wrote and
/// didn't sync is so read only once no stop can lose it. Where writing to it was refused, a sync
/// makes no call: then what is read may be lost by a stop of the machine that comes soon after an
/// earlier program's.
///
/// Writes are refused, since none is made to show an image.
#[derive(Drop)]
pub struct ShownFile {
    file: File,
    may_be_synced: bool,
}

impl ShownFile {
    /// The open file, and whether it may be synced.
    pub(crate) fn new(file: File, may_be_synced: bool) -> ShownFile {
        ShownFile {
            file,
            may_be_synced,
        }
    }
}

/// No contract says what such a file did.
impl PositionedFile for ShownFile {
    ghost shows = { λ file. unknown_file };

    ghost made = { λ old call new. Unit {0} };

    ghost effect = { λ old new call made. unknown_effect call };

    fn read_at(&mut self, at: u64, out: &mut [u8]) -> io::Result<usize> {
        self.file.read_at(at, out)
    }

    fn write_at(&mut self, _at: u64, _bytes: &[u8]) -> io::Result<usize> {
        Err(io::Error::from(io::ErrorKind::PermissionDenied))
    }

    fn sync_all(&mut self) -> io::Result<()> {
        if self.may_be_synced {
            return self.file.sync_all();
        }
        Ok(())
    }
}
