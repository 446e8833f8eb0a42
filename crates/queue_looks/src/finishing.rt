//! Makes what the store still has before it, once no guest offers anything more.
ghost use Rattle.board.specs.Moving.{Moves};
ghost use Rattle.queue_looks.specs.Advancing.{IsListened};
ghost use Rattle.queue_looks.specs.Finishing.{Finished};

use crate::advancing::go_on;
use board::Board;
use disk::Disk;

/// Makes the store's calls until it has none, or one fails. Whether one failed, `Board::is_broken`
/// tells.
#[tactic(auto, using(crate::proofs::Ending::rested))]
pub fn finish_calls<D: Disk>(board: &mut Board<D>)
    requires listened { IsListened board.old }
    ensures finished { Finished board.old board.new }
    ensures moves { Moves D.state D.makes board.old board.new }
{
    while go_on(board) {}
}
