//! Taking what a guest offered: each chain is popped, and answered by the book.
ghost use Rattle.std.specs.Prelude.{◌≡◌, ◌≢◌, ◌<◌, ◌⊎◌, ◌++◌, ℕ, [], List, length};
ghost use Rattle.std.specs.Prelude.{Bool, false, true, IfSome, IsSome, slice_get};
ghost use Rattle.chains.specs.declared.range.Range.{Range as Part};
ghost use Rattle.guest_memory.specs.declared.ask.Ask.{Ask};
ghost use Rattle.board.specs.State.{HasNoJob, in_place};
ghost use Rattle.machine.specs.Ending.{HasSeenAll, IsRefused, IsTaken, TakesOne, TookSome};
ghost use Rattle.machine.specs.Serving.{DoesSome, HasNoCopy, MayTake, Runs, SameDevices};
ghost use Rattle.machine.specs.Serving.{standing};
ghost use Rattle.machine.specs.Turn.{KeepsStage, Stand, pop_parts, stand_of};

use crate::fault::MachineFault;
use crate::status::is_live;
use crate::turn::Turn;
use board::AskingBoard;
use disk::OutboxDisk;
use guest_memory::Ask;
use mmio_transport::PopFault;

/// What became of the next chain.
#[derive(Clone, Copy, Debug, PartialEq, Eq)]
pub(crate) enum Taken {
    /// Bytes are asked for, and nothing changed.
    Asks(Ask),
    /// It was taken, or answered by the book; or it was looked for, and is to be once more.
    Did,
    /// None is available, or as many wait for their answers as may.
    Nothing,
    /// It was refused.
    Refused(MachineFault),
}

/// Begins a step of the guest's device, where none was begun: what there is a copy of is forgotten.
pub(crate) fn begin(board: &mut AskingBoard<OutboxDisk>, guest: u16, turn: &mut Turn)
    requires { guest < length board.old.devices }
    ensures runs { (most : ℕ) (w : Bool)
        → Runs guest most (standing [] turn.old.going w) board.old (standing [] true w) board.new }
    ensures rest { board.new.rest ≡ board.old.rest }
    ensures devices { SameDevices board.old board.new }
    ensures count { length board.new.devices ≡ length board.old.devices }
    ensures turn { turn.new ≡ record turn.old { going = true } }
    ensures seen { HasSeenAll guest board.old → HasSeenAll guest board.new }
    // Nothing is believed but what is told from here on.
    ensures fresh { turn.old.going ≡ false → HasNoCopy guest board.new }
{
    if !turn.going {
        board.device(guest).forget();
        turn.going = true;
    }
}

/// Notes the part that a pop writes: avail_event, where there is one. Whether it is noted.
fn note_event(board: &AskingBoard<OutboxDisk>, guest: u16, turn: &mut Turn) -> bool
    ensures noted { result ≡ true → IfSome (slice_get board.now.devices guest)
        (λ d. turn.new.parts ≡ turn.old.parts ++ pop_parts d.device) }
    ensures rest { turn.new ≡ record turn.old { parts = turn.new.parts } }
    ensures stays { result ≡ false → turn.new ≡ turn.old }
{
    match board.device_of(guest) {
        Some(device) => match device.written_by_pop() {
            Some(part) => turn.note(part),
            None => true,
        },
        None => true,
    }
}

/// Tells zeros for avail_event, where a pop writes it: what it was is nothing to a pop. Where there
/// is no memory for that, it is asked for.
fn tell_event(board: &mut AskingBoard<OutboxDisk>, guest: u16)
    requires { guest < length board.old.devices }
    ensures runs { (most : ℕ) (ps : List Part) (g w : Bool)
        → Runs guest most (standing ps g w) board.old (standing ps g w) board.new }
    ensures rest { board.new.rest ≡ board.old.rest }
    ensures count { length board.new.devices ≡ length board.old.devices }
{
    let event = match board.device_of(guest) {
        Some(device) => device.written_by_pop(),
        None => None,
    };
    if let Some(part) = event {
        let _ = board.device(guest).tell(part.at, &[0, 0]);
    }
}

/// Begins a pop of the guest's device, where none was begun.
fn begin_pop(board: &mut AskingBoard<OutboxDisk>, guest: u16, turn: &mut Turn)
    requires { guest < length board.old.devices }
    ensures runs { (most : ℕ) (w : Bool)
        → Runs guest most (standing [] turn.old.going w) board.old (standing [] true w) board.new }
    ensures rest { board.new.rest ≡ board.old.rest }
    ensures count { length board.new.devices ≡ length board.old.devices }
    ensures turn { turn.new ≡ record turn.old { going = true } }
{
    if !turn.going {
        begin(board, guest, turn);
        tell_event(board, guest);
    }
}

/// No chain is available. What the pop wrote, where it did, is copied out once, and then it is
/// looked anew: the driver may have offered one before it could see that.
fn found_none(turn: &mut Turn, is_live: bool) -> Taken
    ensures nothing { result ≢ Taken.Did
        → turn.new ≡ record turn.old { going = false; parts = [] } }
    ensures why { result ≢ Taken.Did
        → (is_live ≡ false) ⊎ ((turn.old.looked ≡ true) ⊎ (turn.old.parts ≡ [])) }
    ensures did { result ≡ Taken.Did
        → (turn.new ≡ record turn.old { going = false; looked = true }) × (turn.old.parts ≢ []) }
    ensures live { result ≡ Taken.Did → is_live ≡ true }
    ensures either { (result ≡ Taken.Nothing) ⊎ (result ≡ Taken.Did) }
    ensures keeps { KeepsStage turn.old turn.new }
{
    turn.going = false;
    if !is_live || turn.looked || turn.parts.is_empty() {
        turn.void();
        return Taken::Nothing;
    }
    turn.looked = true;
    Taken::Did
}

/// Pops the guest's next chain, of which none lies in its place. What that writes is noted.
fn pop(board: &mut AskingBoard<OutboxDisk>, guest: u16, turn: &mut Turn) -> Taken
    requires parts { turn.old.parts ≡ [] }
    requires job { HasNoJob guest board.old.rest }
    requires guest { guest < length board.old.devices }
    requires begun { turn.old.going ≡ true }
    ensures runs { (most : ℕ) → MayTake guest most board.old
        → Runs guest most (standing [] true turn.old.looked) board.old (stand_of turn.new)
        board.new }
    ensures taken { (most : ℕ) → MayTake guest most board.old
        → IsTaken guest most (standing [] true turn.old.looked) board.old turn.new board.new
        result }
    ensures did { result ≡ Taken.Did → (most : ℕ) → MayTake guest most board.old
        → TookSome guest most (standing [] true turn.old.looked) board.old turn.new board.new }
    ensures count { length board.new.devices ≡ length board.old.devices }
    ensures keeps { KeepsStage turn.old turn.new }
{
    board.what_always_holds();
    if !note_event(board, guest, turn) {
        turn.going = false;
        return Taken::Refused(MachineFault::NoMemory);
    }
    match board.pop(guest) {
        Err(PopFault::Missing(ask)) => {
            turn.void();
            Taken::Asks(ask)
        }
        Err(PopFault::Refused(fault)) => {
            turn.stop();
            Taken::Refused(MachineFault::of_device(fault))
        }
        Ok(true) => {
            turn.going = false;
            turn.looked = true; // what this wrote is copied out before the next pop
            Taken::Did
        }
        Ok(false) => {
            let is_live = is_live(board, guest);
            found_none(turn, is_live)
        }
    }
}

/// Looks for the guest's next chain.
fn look(board: &mut AskingBoard<OutboxDisk>, guest: u16, turn: &mut Turn) -> Taken
    requires parts { turn.old.parts ≡ [] }
    requires job { HasNoJob guest board.old.rest }
    requires guest { guest < length board.old.devices }
    ensures looks { (most : ℕ) → MayTake guest most board.old
        → TakesOne guest most (standing [] turn.old.going turn.old.looked) board.old turn.new
        board.new result }
    ensures count { length board.new.devices ≡ length board.old.devices }
    ensures keeps { KeepsStage turn.old turn.new }
{
    begin_pop(board, guest, turn);
    pop(board, guest, turn)
}

/// Has the book answer the chain that was popped, and lies in its place.
fn submit(board: &mut AskingBoard<OutboxDisk>, guest: u16) -> Taken
    requires guest { guest < length board.old.devices }
    requires job { IsSome (in_place (slice_get board.old.rest.jobs guest)) }
    ensures runs { (most : ℕ) (s : Stand) → Runs guest most s board.old s board.new }
    ensures did { result ≡ Taken.Did
        → (most : ℕ) (s : Stand) → DoesSome guest most s board.old s board.new }
    ensures either { (result ≡ Taken.Did) ⊎ IsRefused guest result board.old board.new }
    ensures devices { board.new.devices ≡ board.old.devices }
{
    board.what_always_holds();
    match board.submit(guest) {
        Ok(_) => Taken::Did,
        Err(refused) => Taken::Refused(MachineFault::of_book(refused)),
    }
}

/// Takes the guest's next chain: the one that lies in its place, or where fewer than `most` wait
/// for their answers the next one of its queue.
pub(crate) fn take_one(
    board: &mut AskingBoard<OutboxDisk>,
    guest: u16,
    most: u16,
    turn: &mut Turn,
) -> Taken
    requires parts { turn.old.parts ≡ [] }
    requires guest { guest < length board.old.devices }
    ensures takes { TakesOne guest most (standing [] turn.old.going turn.old.looked) board.old
        turn.new board.new result }
    ensures count { length board.new.devices ≡ length board.old.devices }
    ensures keeps { KeepsStage turn.old turn.new }
{
    if board.rest().job(guest).is_some() {
        return submit(board, guest);
    }
    if !board.rest().awaits_fewer(guest, most) {
        return Taken::Nothing;
    }
    look(board, guest, turn)
}
