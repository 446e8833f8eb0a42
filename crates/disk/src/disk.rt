//! The trait of a disk: reads, writes, syncs, and what a stop leaves.
ghost use Rattle.std.specs.Prelude.{◌≡◌, ◌+◌, ◌≤◌, true, length, is_ok, OnOk};
ghost use Rattle.disk.specs.Content.{bytes_at};
ghost use Rattle.disk.specs.Disk.{DiskState, DiskCall, Read, Write, Sync, Effect};

use std::alloc::AllocError;
use thiserror::Error;

/// There was no room in memory.
pub type NoMemory = AllocError;

/// A call on a disk failed.
#[derive(Debug, Clone, Copy, PartialEq, Eq, Error)]
#[error("DiskFault")]
pub struct DiskFault;

/// A disk: bytes at the places from 0 up to its length, which outlive a stop of the program once a
/// sync has succeeded.
///
/// Until then each range that was written since the last successful sync, by a call that succeeded
/// or failed, may hold any bytes after a stop. All other bytes stay.
///
/// Each call succeeds or answers `DiskFault`, and that only where `failures` rose in this very
/// call or stands at 2^64 - 1.
pub trait Disk: Drop {
    /// What the disk shows.
    ghost state: { Self → DiskState };

    /// One call leads from one value to the other. Only by making the call can a caller show it.
    ghost makes: { Self → DiskCall → Self → Type 0 };

    /// The length in bytes, which never changes.
    fn len(&self) -> u64
        ensures { result ≡ (state self.now).len };

    /// Reads the bytes from the place `at` on into all of `out`. They lie on the disk.
    ///
    /// After a refusal `out` may hold anything.
    fn read_at(&mut self, at: u64, out: &mut [u8]) -> Result<(), DiskFault>
        requires { at + length out.old ≤ (state self.old).len }
        ensures call { makes self.old (Read (is_ok result)) self.new }
        ensures ok { OnOk result ((state self.old).faithful ≡ true
            → out.new ≡ bytes_at (state self.old).seen at (length out.old)) };

    /// Writes `bytes` from the place `at` on. Their range lies on the disk.
    ///
    /// After a refusal that range may read as anything.
    fn write_at(&mut self, at: u64, bytes: &[u8]) -> Result<(), DiskFault>
        requires { at + length bytes.now ≤ (state self.old).len }
        ensures call { makes self.old (Write at bytes.now (is_ok result)) self.new };

    /// Puts all that was written where no stop takes it away. After a refusal nothing is known to
    /// have got there.
    fn sync(&mut self) -> Result<(), DiskFault>
        ensures call { makes self.old (Sync (is_ok result)) self.new };

    /// How many calls have failed. It stays at 2^64 - 1.
    fn failures(&self) -> u64
        ensures { result ≡ (state self.now).failures };

    /// What a call may do.
    ghost effect: { (old new : Self) (call : DiskCall) → makes old call new
        → Effect (state old) call (state new) };
}

/// A disk that is lent is a disk, and each call on it is the call on that one.
impl<D: Disk> Disk for &mut D {
    ghost state = { λ d. D.state d.now };

    ghost makes = { λ old call new. D.makes old.now call new.now };

    ghost effect = { λ old new call made. D.effect old.now new.now call made };

    fn len(&self) -> u64 {
        (**self).len()
    }

    fn read_at(&mut self, at: u64, out: &mut [u8]) -> Result<(), DiskFault> {
        (**self).read_at(at, out)
    }

    fn write_at(&mut self, at: u64, bytes: &[u8]) -> Result<(), DiskFault> {
        (**self).write_at(at, bytes)
    }

    fn sync(&mut self) -> Result<(), DiskFault> {
        (**self).sync()
    }

    fn failures(&self) -> u64 {
        (**self).failures()
    }
}
