//! The end of a run.
ghost use Rattle.workers.specs.Following.{Follow, IsAtRest};

use crate::backlog::Served;
use crate::driver::DriverEnd;
use disk::Disk;
use flusher::Store;
use rpmb_book::{Book, Shares};

/// What a run leaves.
#[derive(Drop)]
pub struct Ended<D: Disk> {
    /// All that was asked, and answered.
    pub book: Book,
    /// Of each guest its tally, and a receipt for each of its jobs.
    pub served: Vec<Served>,
    /// Of each guest what became of its chains.
    pub drivers: Vec<DriverEnd>,
    /// Of each guest the sequence that was taken.
    pub shares: Shares,
    /// The store of all guests.
    pub store: Store<D>,
    /// Whether a call of the disk has failed, and the book was told.
    pub broken: bool,
    // What was taken of the book was given to the store.
    ghost follows: { Follow shares store.guests },
    // No call of the disk is left, unless one has failed.
    ghost rests: { IsAtRest store.broken store.guests },
}
