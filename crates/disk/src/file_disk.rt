//! A disk over an open file.
ghost use Rattle.std.specs.Prelude.{◌≡◌, ◌↔◌, ◌+◌, ◌-◌, ◌≤◌, ◌<◌, ◌^◌, true, false, length, is_ok};
ghost use Rattle.std.specs.Prelude.{IfOk, IsTrue, OnOk, Some};
ghost use Rattle.disk.specs.Disk.{DiskState, DiskCall, Read, Write, Sync, Effect, HasRisen};
ghost use Rattle.disk.specs.FileDisk.{file_state, FileMakes, SyncAll, ReadsOnce, WritesOnce};
ghost use Rattle.disk.specs.FileDisk.{IsEnded, Touches, count_of, is_all};
ghost use Rattle.disk.specs.Content.{bytes_at};

use crate::disk::{Disk, DiskFault};
use crate::positioned_file::PositionedFile;
use std::fs::File;
use std::io;
use std::marker::Model;

/// A disk over an open file: positioned reads and writes, and `sync_all`.
///
/// Each call makes one call of the file, at the same offset and of the same bytes, and succeeds
/// exactly where that one did all. One that ends short is a `DiskFault`, just as one that fails;
/// nothing is tried again, a sync that failed neither. On Linux a read or write of more than
/// 2,147,479,552 bytes ends short. Once 2^64 - 1 calls have failed, none is made any more.
///
/// It gives and keeps what its file does. Of a file of the system no contract says that: that it is
/// a faithful one is a premise, and so is that a sync which succeeds has stored what an earlier one
/// failed to store.
#[derive(Drop)]
pub struct FileDisk<F: PositionedFile = File> {
    file: F,
    len: u64,
    failures: u64,
}

impl<F: PositionedFile> Model for FileDisk<F> {
    ghost use Rattle.disk.specs.FileDisk.{FileState};

    ghost Value = { FileState F };

    ghost view = { λ d. record { file = d.file; len = d.len; failures = d.failures } };
}

// How many bytes a call moved, where it didn't fail.
fn is_whole(outcome: io::Result<usize>, wanted: usize) -> bool
    ensures whole { IsTrue result ↔ (count_of outcome ≡ Some wanted) }
    ensures value { result ≡ is_all (count_of outcome) wanted }
{
    match outcome {
        Ok(count) => count == wanted,
        Err(_) => false,
    }
}

// Counts a call that did not do all that it was to do.
fn settle(failures: &mut u64, complete: bool) -> Result<(), DiskFault>
    requires { failures.old + 1 < 2 ^ 64 }
    ensures ok { is_ok result ≡ complete }
    ensures unfailed { complete ≡ true → failures.new ≡ failures.old }
    ensures failed { complete ≡ false → failures.new ≡ failures.old + 1 }
{
    if complete {
        return Ok(());
    }
    *failures += 1;
    Err(DiskFault)
}

impl<F: PositionedFile> FileDisk<F> {
    /// The disk over an open file of `len` bytes, which has been opened for reading and writing.
    ///
    /// A file that is shorter makes calls beyond its end fail, or a write there makes it longer.
    pub fn new(file: F, len: u64) -> FileDisk<F>
        ensures { result ≡ record { file = file; len = len; failures = 0 } }
    {
        FileDisk {
            file,
            len,
            failures: 0,
        }
    }
}

impl FileDisk {
    /// The disk over this open file, of the length in bytes that the system tells now. No contract
    /// says that it is that length.
    pub fn of(file: File) -> io::Result<FileDisk>
        ensures { IfOk result (λ disk. (disk.file ≡ file) × (disk.failures ≡ 0)) }
    {
        let metadata = file.metadata()?;
        Ok(FileDisk::new(file, metadata.len()))
    }
}

impl<F: PositionedFile> Disk for FileDisk<F> {
    ghost state = { file_state F.shows };

    ghost makes = { FileMakes F.shows };

    ghost effect = { λ old new call made. made.effect };

    fn len(&self) -> u64 {
        self.len
    }

    fn read_at(&mut self, at: u64, out: &mut [u8]) -> Result<(), DiskFault>
        requires { at + length out.old ≤ self.old.len }
        ensures call { FileMakes F.shows self.old (Read (is_ok result)) self.new }
        ensures ok { OnOk result ((F.shows self.old.file).faithful ≡ true
            → out.new ≡ bytes_at (F.shows self.old.file).seen at (length out.old)) }
        ensures once { Touches self.old
            (ReadsOnce F.made at out.new self.old.file (is_ok result) self.new.file) }
        ensures ended { IsEnded self.old (is_ok result) self.new }
    {
        if self.failures == u64::MAX {
            return Err(DiskFault);
        }
        let wanted = out.len();
        let complete = is_whole(self.file.read_at(at, out), wanted);
        settle(&mut self.failures, complete)
    }

    fn write_at(&mut self, at: u64, bytes: &[u8]) -> Result<(), DiskFault>
        requires { at + length bytes.now ≤ self.old.len }
        ensures call { FileMakes F.shows self.old (Write at bytes.now (is_ok result)) self.new }
        ensures once { Touches self.old
            (WritesOnce F.made at bytes.now self.old.file (is_ok result) self.new.file) }
        ensures ended { IsEnded self.old (is_ok result) self.new }
    {
        if self.failures == u64::MAX {
            return Err(DiskFault);
        }
        let complete = is_whole(self.file.write_at(at, bytes), bytes.len());
        settle(&mut self.failures, complete)
    }

    fn sync(&mut self) -> Result<(), DiskFault>
        ensures call { FileMakes F.shows self.old (Sync (is_ok result)) self.new }
        ensures once { Touches self.old
            (F.made self.old.file (SyncAll (is_ok result)) self.new.file) }
        ensures ended { IsEnded self.old (is_ok result) self.new }
    {
        if self.failures == u64::MAX {
            return Err(DiskFault);
        }
        let complete = self.file.sync_all().is_ok();
        settle(&mut self.failures, complete)
    }

    fn failures(&self) -> u64 {
        self.failures
    }
}
