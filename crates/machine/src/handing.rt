//! Handing what was accepted to the store, and its writes to the disk.
ghost use Rattle.std.specs.Prelude.{◌≡◌, ◌⊎◌, ℕ, List, true, false};
ghost use Rattle.board.specs.Asking.{board_of};
ghost use Rattle.flusher.specs.Store.{next_call};
ghost use Rattle.machine.specs.Ending.{HasRoomForNone, IsHandedOn};
ghost use Rattle.machine.specs.Serving.{DoesSome, Hears, KeepsWaiting, Runs, is_write};
ghost use Rattle.machine.specs.Turn.{Stand};

use board::AskingBoard;
use disk::{MOST_WRITES, OutboxDisk};
use flusher::Call;
use intent_slots::PAYLOAD_LENGTH;

/// Whether the next call of the disk is a write.
pub(crate) fn has_write(board: &AskingBoard<OutboxDisk>) -> bool
    ensures { result
        ≡ is_write (next_call board.now.rest.store.broken board.now.rest.store.guests) }
{
    match board.rest().next_call() {
        Call::Write => true,
        Call::Sync => false,
        Call::None => false,
    }
}

/// Makes the next call where it is a write, and the outbox has room for the largest. Whether it
/// was made: a failure is told to the book next.
fn write_next(board: &mut AskingBoard<OutboxDisk>) -> bool
    ensures runs { (guest most : ℕ) (s : Stand) → Runs guest most s board.old s board.new }
    ensures keeps { (guest : ℕ) → KeepsWaiting guest board.old.rest board.new.rest }
    ensures devices { board.new.devices ≡ board.old.devices }
    ensures made { result ≡ true → (guest most : ℕ) (s : Stand)
        → DoesSome guest most s board.old s board.new }
    ensures none { result ≡ false → board.old.rest.report ≡ None
        → (board_of board.new ≡ board_of board.old) × HasRoomForNone board.new.rest }
{
    if !has_write(board) {
        return false;
    }
    if !board.rest().disk().has_room(PAYLOAD_LENGTH) {
        return false;
    }
    match board.advance() {
        Ok(made) => made,
        Err(_) => true,
    }
}

/// Tells the book of the disk's last call, hands the next of what was accepted of the guest to the
/// store, up to four requests a record, and makes the disk's next write. Whether there was
/// something to do.
fn hand_on(board: &mut AskingBoard<OutboxDisk>, guest: u16) -> bool
    ensures runs { (most : ℕ) (s : Stand) → Runs guest most s board.old s board.new }
    ensures keeps { KeepsWaiting guest board.old.rest board.new.rest }
    ensures devices { board.new.devices ≡ board.old.devices }
    ensures did { result ≡ true
        → (most : ℕ) (s : Stand) → DoesSome guest most s board.old s board.new }
    ensures done { result ≡ false → IsHandedOn guest board.new.rest }
    ensures same { result ≡ false → board_of board.new ≡ board_of board.old }
{
    let told = board.settle();
    let taken = board.take(guest);
    let given = board.give(guest);
    let written = write_next(board);
    told | taken | given | written
}

/// Hands on what was accepted of the guest until nothing of it can be. Whether there may be more,
/// behind as many steps as writes may wait.
pub(crate) fn hand_all(board: &mut AskingBoard<OutboxDisk>, guest: u16) -> bool
    ensures runs { (most : ℕ) (s : Stand) → Runs guest most s board.old s board.new }
    ensures keeps { KeepsWaiting guest board.old.rest board.new.rest }
    ensures devices { board.new.devices ≡ board.old.devices }
    ensures did { result ≡ true
        → (most : ℕ) (s : Stand) → DoesSome guest most s board.old s board.new }
    ensures done { result ≡ false → IsHandedOn guest board.new.rest }
    ensures either { ((most : ℕ) (s : Stand) → DoesSome guest most s board.old s board.new)
        ⊎ (board_of board.new ≡ board_of board.old) }
{
    for _step in 1..MOST_WRITES {
        if !hand_on(board, guest) {
            return false;
        }
    }
    hand_on(board, guest)
}

/// Makes the call that comes next, and tells the book what came of it.
pub(crate) fn go_on(board: &mut AskingBoard<OutboxDisk>)
    ensures hears { Hears board.old board.new }
    ensures devices { board.new.devices ≡ board.old.devices }
{
    board.settle();
    let _ = board.advance(); // the call that was told of
    board.settle();
}
