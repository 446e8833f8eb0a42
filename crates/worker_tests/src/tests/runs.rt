//! Runs of the guests' scripts, and what is looked at of what they leave.
ghost use Rattle.std.specs.Prelude.{◌≡◌, All, IfSome, length, vec_len};
ghost use Rattle.rpmb_book.specs.Book.{counted_in};
ghost use Rattle.workers.specs.Following.{Follow};

use crate::tests::devices::{Other, change_all};
use crate::tests::scene::{formatted, setup_of};
use board::{Board, Parts};
use disk::Disk;
use host::HostFault;
use rpmb_book::Receipt;
use rpmb_frame::BoardConfig;
use std::alloc::Global;
use std::sync::Wait;
use std::thread::Threads;
use workers::{DriverEnd, Ended, Gate, Open, Script, Served, parts_of, serve};

/// What a run leaves. The methods promise nothing, so that what stands above them is proved without
/// the contracts of a book.
pub trait Ending {
    /// Whether a call of the disk has failed.
    fn has_broken(&self) -> bool;

    /// How many requests were answered.
    fn turns(&self) -> u64;

    fn drivers(&self) -> &[DriverEnd];

    fn served(&self) -> &[Served];

    /// The request that a receipt finds, and how long its reply is.
    fn found(&self, receipt: &Receipt) -> Option<(&[u8], usize)>;

    /// The reply that a receipt finds, with its MAC.
    fn reply(&self, alloc: Global, receipt: &Receipt) -> Option<Vec<u8>>;
}

impl<D: Disk> Ending for Ended<D> {
    fn has_broken(&self) -> bool {
        self.broken
    }

    fn turns(&self) -> u64 {
        self.book.submit_turns()
    }

    fn drivers(&self) -> &[DriverEnd] {
        &self.drivers
    }

    fn served(&self) -> &[Served] {
        &self.served
    }

    fn found(&self, receipt: &Receipt) -> Option<(&[u8], usize)> {
        match self.book.find(receipt) {
            Some(turn) => Some((turn.request, turn.reply.len())),
            None => None,
        }
    }

    fn reply(&self, alloc: Global, receipt: &Receipt) -> Option<Vec<u8>> {
        match self.book.find(receipt) {
            Some(turn) => turn.closed_reply(alloc).ok(),
            None => None,
        }
    }
}

/// What a run has to leave.
pub trait Look {
    fn is_met<E: Ending>(&self, ended: &E) -> bool;
}

/// Nothing but its end.
#[derive(Clone, Copy)]
pub struct Ends;

impl Look for Ends {
    fn is_met<E: Ending>(&self, _ended: &E) -> bool {
        true
    }
}

/// The parts of a board that was just opened.
fn opened<D: Disk>(alloc: Global, disk: D, board: &BoardConfig) -> Option<Parts<D>>
    ensures many { IfSome result (λ p. vec_len p.tallies ≡ length board.now) }
    ensures new_book { IfSome result (λ p. counted_in p.book ≡ 0) }
    ensures fresh { IfSome result (λ p. All (λ t. t.count ≡ 0) p.tallies.items) }
    ensures follows { IfSome result (λ p. Follow p.shares p.store.guests) }
{
    match Board::open(alloc, disk, 1, board) {
        Ok(opened) => Some(parts_of(opened, board)),
        Err(_) => None,
    }
}

/// Whether a run of these scripts, one a guest, on an image of as many guests, leaves this; or the
/// fault that it ends with. These devices aren't the board's own. `None` where it wasn't begun. The
/// parts of a run and what it leaves are held here alone, since their drops are dear to prove.
pub fn run<D: Disk + Send + Drop, G: Gate + Sync, R: Threads + Wait + Sync, L: Look>(
    rt: &R,
    alloc: Global,
    disk: D,
    others: &[(usize, Other<'_>)],
    scripts: &[Script],
    gate: &G,
    look: &L,
) -> Option<Result<bool, HostFault>> {
    let Some(setup) = setup_of(alloc, scripts.len()) else {
        return None;
    };
    let board = setup.board();
    if board.guests().len() != scripts.len() {
        return None;
    }
    let Some(mut parts) = opened(alloc, disk, board) else {
        return None;
    };
    let are_changed = change_all(alloc, &mut parts.devices, others);
    match serve(rt, alloc, parts, setup.drivers(), scripts, gate) {
        Ok(ended) => Some(Ok(are_changed && look.is_met(&ended))),
        Err(fault) => Some(Err(fault)),
    }
}

/// The same on a fresh image, where nobody is held.
pub fn run_openly<R: Threads + Wait + Sync, L: Look>(
    rt: &R,
    alloc: Global,
    others: &[(usize, Other<'_>)],
    scripts: &[Script],
    look: &L,
) -> Option<Result<bool, HostFault>> {
    match formatted(alloc, scripts.len()) {
        Some(disk) => run(rt, alloc, disk, others, scripts, &Open, look),
        None => None,
    }
}
