//! Where a world's disk is.
ghost use Rattle.std.specs.Prelude.{◌≡◌, option_copied};
ghost use Rattle.world.specs.World.{CutBy, CutWithin, CutsTo, disk_of, partition_in};
ghost use Rattle.world.specs.declared.home.Home.TheVariants.{Up};

use board::Board;
use disk::{CutDisk, Filler};
use flusher::{Call, Store};
use rpmb_core::Partition;

/// A board in its life, or the disk alone.
#[derive(Drop)]
pub(crate) enum Home {
    /// A board, and what its disk shows is its store's.
    Up(Board<CutDisk>),
    /// The disk, before the first opening or after one that was refused.
    Down(CutDisk),
}

impl Home {
    /// A guest's partition; None where there is no board, and for a guest that it lacks.
    pub(crate) fn partition(&self, guest: u16) -> Option<&Partition>
        ensures { option_copied result ≡ partition_in self.now guest }
    {
        match self {
            Home::Up(board) => board.partition(guest),
            Home::Down(_) => None,
        }
    }

    /// The disk: all else goes.
    pub(crate) fn into_disk(self) -> CutDisk
        ensures { result ≡ disk_of self }
    {
        match self {
            Home::Up(board) => board.into_disk(),
            Home::Down(disk) => disk,
        }
    }

    /// The disk, cut between two calls.
    pub(crate) fn cut(self, filler: &Filler) -> CutDisk
        ensures { CutsTo filler.now (disk_of self) result }
    {
        let mut disk = self.into_disk();
        disk.cut(filler);
        disk
    }

    /// The disk, cut within the call that the store's next advance would make.
    pub(crate) fn cut_within(self, filler: &Filler) -> CutDisk
        ensures { CutWithin self filler.now result }
    {
        match self {
            Home::Up(board) => cut_in(board, filler),
            Home::Down(disk) => Home::Down(disk).cut(filler),
        }
    }
}

/// The disk of a store, cut between two calls.
fn cut_between(store: Store<CutDisk>, filler: &Filler) -> CutDisk
    ensures { CutsTo filler.now store.disk result }
{
    let mut disk = store.into_disk();
    disk.cut(filler);
    disk
}

/// A write is made and then cut; a sync isn't begun.
fn cut_in(board: Board<CutDisk>, filler: &Filler) -> CutDisk
    ensures { CutWithin (Up board) filler.now result }
{
    let mut store = board.into_store();
    match store.next_call() {
        Call::Write => {
            let _ = store.advance();
            cut_between(store, filler)
        }
        Call::Sync | Call::None => cut_between(store, filler),
    }
}
