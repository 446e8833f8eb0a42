//! Takes what a guest had accepted to the disk, until its reply may leave.
ghost use Rattle.rpmb_book.specs.Guest.{Held};
ghost use Rattle.board.specs.State.{BoardState};
ghost use Rattle.board.specs.Moving.{Moves};
ghost use Rattle.queue_looks.specs.Waiting.{Collected, IsLate, Leaves, Waits, WaitsForSome};
ghost use Rattle.queue_looks.specs.Waiting.{WritesOn};

use crate::advancing::go_on;
use board::Board;
use disk::Disk;

/// Looks for the reply that a guest waits for. Whether it lies in its place now.
fn collect<D: Disk>(board: &mut Board<D>, guest: u16) -> bool
    requires waits { WaitsForSome D.state guest board.old }
    ensures moves { Moves D.state D.makes board.old board.new }
    ensures found { (start : BoardState D) (reply : Held)
        → Waits D.state guest start reply board.old
        → Collected result D.state guest start reply board.old board.new }
{
    board.collect(guest)
}

/// Brings what the guest had accepted nearer to being settled: the store makes its next call, and
/// the book is told.
fn write_on<D: Disk>(board: &mut Board<D>, guest: u16)
    ensures moves { Moves D.state D.makes board.old board.new }
    ensures writes { (start : BoardState D) (reply : Held)
        → Waits D.state guest start reply board.old
        → IsLate guest board.old → WritesOn D.state guest start reply board.old board.new }
{
    // What these steps come to shows in what the next Collect gives.
    board.take(guest);
    board.give(guest);
    go_on(board);
}

/// Lets the one reply that a guest waits for into its place, once all that the guest's partition
/// took is settled. A call of the disk that fails makes a failure reply of it. It takes no memory.
pub(crate) fn settle_reply<D: Disk>(board: &mut Board<D>, guest: u16)
    requires waits { WaitsForSome D.state guest board.old }
    ensures moves { Moves D.state D.makes board.old board.new }
    ensures leaves { (reply : Held) → Waits D.state guest board.old reply board.old
        → Leaves D.state guest board.old reply board.new }
{
    while !collect(board, guest) {
        write_on(board, guest);
    }
}
