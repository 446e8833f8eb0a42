//! `HookDisk` tells its hook of each sync, before the disk makes it, and of no other call.
ghost use Rattle.disk.specs.FileDisk.{unknown_effect, unknown_file};

use super::{read, write};
use crate::tests::{Row, try_all};
use disk::{Disk, FileDisk, Hook, HookDisk, PositionedFile};
use std::alloc::Global;
use std::io;
use std::sync::atomic::{AtomicU64, Ordering};
use std::test::Fail;

// What a digit of the notes stands for: the hook was told, the file was synced, read, written.
const TOLD: u64 = 1;

const SYNCED: u64 = 2;

const WAS_READ: u64 = 3;

const WRITTEN: u64 = 4;

// Notes a digit behind those that stand there.
fn note(notes: &AtomicU64, digit: u64) {
    let noted = notes.load(Ordering::SeqCst);
    notes.store(noted.wrapping_mul(10).wrapping_add(digit), Ordering::SeqCst);
}

#[derive(Clone, Copy)]
struct Listens<'a>(&'a AtomicU64);

impl<'a> Hook for Listens<'a> {
    fn before_sync(&self) {
        note(self.0, TOLD);
    }
}

// A file that notes its calls. Its syncs fail where that is said.
#[derive(Drop)]
struct Noted<'a> {
    notes: &'a AtomicU64,
    fails: bool,
}

impl PositionedFile for Noted<'_> {
    ghost shows = { λ file. unknown_file };

    ghost made = { λ old call new. Unit {0} };

    ghost effect = { λ old new call made. unknown_effect call };

    fn read_at(&mut self, at: u64, out: &mut [u8]) -> io::Result<usize> {
        note(self.notes, WAS_READ);
        Ok(out.len())
    }

    fn write_at(&mut self, at: u64, bytes: &[u8]) -> io::Result<usize> {
        note(self.notes, WRITTEN);
        Ok(bytes.len())
    }

    fn sync_all(&mut self) -> io::Result<()> {
        note(self.notes, SYNCED);
        if self.fails {
            return Err(io::Error::from(io::ErrorKind::Other));
        }
        Ok(())
    }
}

// The calls, r, w and s, whether a sync fails, and the notes that they leave.
struct Calls(&'static [u8], bool, u64);

static NOTES: [Calls; 5] = [
    Calls(b"s", false, 12),
    Calls(b"rw", false, 34),
    Calls(b"rws", false, 3412),
    Calls(b"swsrs", false, 12_412_312),
    Calls(b"sws", true, 12_412),
];

fn play_one(disk: &mut impl Disk, call: u8) -> bool {
    match call {
        b'r' => read(disk, 0, &mut [0; 3]).is_ok(),
        b'w' => write(disk, 5, &[1, 2, 3]).is_ok(),
        _ => disk.sync().is_ok(),
    }
}

// Makes the calls, and gives how many of them failed.
fn play(disk: &mut impl Disk, calls: &[u8]) -> u64 {
    let mut failed: u64 = 0;
    for call in calls {
        failed = failed.saturating_add(u64::from(!play_one(disk, *call)));
    }
    failed
}

fn failed_of(notes: &AtomicU64, calls: &[u8], fails: bool) -> u64 {
    let file = FileDisk::new(Noted { notes, fails }, 8);
    play(&mut HookDisk::new(file, Listens(notes)), calls)
}

// Whether the calls leave these notes, and fail where their syncs do.
impl Row for Calls {
    fn holds(&self, _: Global) -> bool {
        let notes = AtomicU64::new(0);
        let failed = failed_of(&notes, self.0, self.1);
        notes.load(Ordering::SeqCst) == self.2 && (failed > 0) == self.1
    }
}

#[test]
fn a_hook_is_told_of_each_sync_before_it_is_made(rt: HostRuntime) -> Result<(), Fail> {
    try_all(rt.alloc(), &NOTES)
}
