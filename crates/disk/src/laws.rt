//! Laws of the definitions, and of disks over files.
ghost use Rattle.std.specs.Prelude.{◌≡◌, ◌+◌, ◌≤◌, true, length, OnOk};
ghost use Rattle.disk.specs.FileDisk.{file_state};
ghost use Rattle.disk.specs.Laws.{SyncedWritesStay, StopsWithinCover, StopsBeforeAreCovered};
ghost use Rattle.disk.specs.Laws.{ChosenCallFailsAlone, FillersReachAll, KeepsBytes};

use crate::disk::{Disk, DiskFault};
use crate::file_disk::FileDisk;
use crate::positioned_file::PositionedFile;

/// Where a write and then a sync succeeded, every stop leaves the bytes that were written.
pub fn synced_writes_stay()
    ensures { SyncedWritesStay }
{}

/// Whatever a stop before or after a call may leave, a stop within the call may leave too.
pub fn stops_within_cover()
    ensures after { StopsWithinCover }
    ensures before { StopsBeforeAreCovered }
{}

/// After `fail(k)` the k-th call on a `CutDisk` fails, and that one alone, while fewer than 2^64 -
/// 2 calls have failed.
pub fn chosen_call_fails_alone()
    ensures { ChosenCallFailsAlone }
{}

/// Every content that a stop may leave on a `CutDisk` is left by a filler of bytes of that content.
pub fn fillers_reach_all()
    ensures { FillersReachAll }
{}

/// Writes bytes into a file from the place `at` on, and syncs it. Where the file is faithful and
/// both succeed, every stop leaves these bytes: so much "this file is a faithful disk" gives to
/// whoever assumes it.
pub fn keep_in_file<F: PositionedFile>(
    disk: &mut FileDisk<F>,
    at: u64,
    bytes: &[u8],
) -> Result<(), DiskFault>
    requires { at + length bytes.now ≤ disk.old.len }
    ensures { OnOk result ((F.shows disk.old.file).faithful ≡ true
        → KeepsBytes at bytes.now (file_state F.shows disk.new)) }
{
    disk.write_at(at, bytes)?;
    disk.sync()
}
