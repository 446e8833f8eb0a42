//! Makes calls of the disk, and tells the book what came of them.
ghost use Rattle.board.specs.Moving.{Moves};
ghost use Rattle.queue_looks.specs.Advancing.{AdvancesBy, GoesOn, IsListened};

use board::Board;
use disk::Disk;

/// Makes the store's next call, unless the book has something to hear first. Whether there was one,
/// and it succeeded.
fn advance<D: Disk>(board: &mut Board<D>) -> bool
    ensures advances { AdvancesBy D.state D.makes result board.old board.new }
    ensures moves { Moves D.state D.makes board.old board.new }
{
    match board.advance() {
        Ok(went) => went,
        Err(_) => false,
    }
}

/// Makes the store's next call, and tells the book what came of it. Whether there was one, and it
/// succeeded.
#[tactic(auto, using(crate::proofs::Ending::goes))]
pub(crate) fn go_on<D: Disk>(board: &mut Board<D>) -> bool
    ensures goes { IsListened board.old → GoesOn D.state D.makes result board.old board.new }
    ensures moves { Moves D.state D.makes board.old board.new }
{
    let went = advance(board);
    // What the book makes of it shows in whether it is broken.
    board.settle();
    went
}
