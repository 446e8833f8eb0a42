//! Serving a guest: taking what it offered, handing it on, letting replies leave, and notifying.
ghost use Rattle.std.specs.Prelude.{◌≡◌, ◌<◌, ℕ, [], List, Option, length, Some, None};
ghost use Rattle.chains.specs.declared.range.Range.{Range as Part};
ghost use Rattle.guest_memory.specs.declared.ask.Ask.{Ask};
ghost use Rattle.machine.specs.Ending.{HasEnded, HasSeenAll, IsHandedOn, NotifiesNext, Went};
ghost use Rattle.machine.specs.Ending.{left_by};
ghost use Rattle.machine.specs.Serving.{Boards, HasNoReply, Runs, SameDevices, standing};
ghost use Rattle.machine.specs.Turn.{Stand, stand_of};
ghost use Rattle.machine.specs.declared.fault.MachineFault.{MachineFault};

use crate::fault::MachineFault;
use crate::handing::{hand_all, has_write};
use crate::leaving::{Left, leave_one};
use crate::status::waits_for_reset;
use crate::taking::{Taken, begin, take_one};
use crate::turn::{Stage, Turn};
use board::AskingBoard;
use chains::Range;
use disk::OutboxDisk;
use guest_memory::Ask;

/// How many moves one call makes before it tells its monitor to call again.
const MOST_MOVES: u32 = 16;

/// What a serve needs next.
#[derive(Clone, Copy)]
pub(crate) enum Next {
    /// That it is called again, once the outbox was taken.
    Again,
    /// To be told bytes of guest memory.
    Read(Ask),
    /// That bytes are copied into it.
    Write(Range),
    /// That the driver is notified.
    Call,
    /// Nothing, until the guest is to be served anew; or why not.
    Rest(Option<MachineFault>),
}

/// Sees whether the driver is to be notified of the replies that left. `None` where it isn't; or
/// where bytes would have to be asked for a device that waits for a reset: a guest that has none
/// there would be asked for them without end.
fn notify(board: &mut AskingBoard<OutboxDisk>, guest: u16, turn: &mut Turn) -> Option<Next>
    requires guest { guest < length board.old.devices }
    requires parts { turn.old.parts ≡ [] }
    ensures runs { (most : ℕ) → Runs guest most (standing [] turn.old.going turn.old.looked)
        board.old (left_by result turn.new) board.new }
    ensures needs { NotifiesNext guest board.new result }
    ensures rest { board.new.rest ≡ board.old.rest }
    ensures none { result ≡ None
        → SameDevices board.old board.new × HasSeenAll guest board.new }
    ensures parts { turn.new.parts ≡ turn.old.parts }
    ensures count { length board.new.devices ≡ length board.old.devices }
    ensures asked { turn.new.asked ≡ turn.old.asked }
{
    begin(board, guest, turn);
    match board.device(guest).notify() {
        Err(ask) => {
            if waits_for_reset(board, guest) {
                turn.take_next();
                return None;
            }
            turn.go_to(Stage::Notifying);
            Some(Next::Read(ask))
        }
        Ok(true) => {
            turn.take_next();
            Some(Next::Call)
        }
        Ok(false) => {
            turn.take_next();
            None
        }
    }
}

/// No more is taken or handed on, no reply may leave, and the driver knows of all that left: the
/// guest rests, for this fault or none. Where a write waits for room the serve is to go on.
fn rest(
    board: &mut AskingBoard<OutboxDisk>,
    guest: u16,
    turn: &mut Turn,
    fault: Option<MachineFault>,
) -> Next
    requires guest { guest < length board.old.devices }
    requires left { IsHandedOn guest board.old.rest × HasNoReply guest board.old.rest
        × HasSeenAll guest board.old }
    requires parts { turn.old.parts ≡ [] }
    ensures went { (most : ℕ) (s : Stand) (a : Boards)
        → HasEnded guest most s a (stand_of turn.old) board.old fault
        → Went guest most s a turn.old turn.new board.old board.new (Some result) }
{
    if has_write(board) {
        return Next::Again;
    }
    begin(board, guest, turn);
    turn.take_next();
    Next::Rest(fault)
}

/// No more is taken, for this fault or none: hands on what was accepted, and lets a reply leave;
/// where there is none the guest rests.
fn settle_down(
    board: &mut AskingBoard<OutboxDisk>,
    guest: u16,
    turn: &mut Turn,
    fault: Option<MachineFault>,
) -> Option<Next>
    requires guest { guest < length board.old.devices }
    requires parts { turn.old.parts ≡ [] }
    ensures went { (most : ℕ) (s : Stand) (a : Boards)
        → HasEnded guest most s a (stand_of turn.old) board.old fault
        → Went guest most s a turn.old turn.new board.old board.new result }
{
    if hand_all(board, guest) {
        return None;
    }
    match leave_one(board, guest, turn) {
        Left::Asks(ask) => {
            turn.go_to(Stage::Leaving);
            Some(Next::Read(ask))
        }
        Left::Did => {
            turn.go_to(Stage::Leaving);
            None
        }
        Left::NoMemory => {
            turn.take_next();
            Some(Next::Rest(Some(MachineFault::NoMemory)))
        }
        Left::Nothing => match notify(board, guest, turn) {
            Some(next) => Some(next),
            None => Some(rest(board, guest, turn, fault)),
        },
    }
}

/// Takes the next chain; where there is none, hands on what was accepted.
fn take(board: &mut AskingBoard<OutboxDisk>, guest: u16, most: u16, turn: &mut Turn) -> Option<Next>
    requires parts { turn.old.parts ≡ [] }
    requires guest { guest < length board.old.devices }
    ensures went { Went guest most (stand_of turn.old) board.old turn.old turn.new board.old
        board.new result }
{
    match take_one(board, guest, most, turn) {
        Taken::Asks(ask) => Some(Next::Read(ask)),
        Taken::Did => match turn.next_part() {
            Some(part) => Some(Next::Write(part)),
            None => None,
        },
        Taken::Nothing => settle_down(board, guest, turn, None),
        Taken::Refused(fault) => settle_down(board, guest, turn, Some(fault)),
    }
}

/// Notifies the driver of the replies that left, where it is to be; else takes the next chain.
fn call(board: &mut AskingBoard<OutboxDisk>, guest: u16, most: u16, turn: &mut Turn) -> Option<Next>
    requires parts { turn.old.parts ≡ [] }
    requires guest { guest < length board.old.devices }
    ensures went { Went guest most (stand_of turn.old) board.old turn.old turn.new board.old
        board.new result }
{
    match notify(board, guest, turn) {
        Some(next) => Some(next),
        None => take(board, guest, most, turn),
    }
}

/// Lets the next reply leave; where there is none, the driver is notified of those that left.
fn leave(
    board: &mut AskingBoard<OutboxDisk>,
    guest: u16,
    most: u16,
    turn: &mut Turn,
) -> Option<Next>
    requires parts { turn.old.parts ≡ [] }
    requires guest { guest < length board.old.devices }
    ensures went { Went guest most (stand_of turn.old) board.old turn.old turn.new board.old
        board.new result }
{
    match leave_one(board, guest, turn) {
        Left::Asks(ask) => Some(Next::Read(ask)),
        Left::Did => None,
        Left::NoMemory => {
            turn.take_next();
            Some(Next::Rest(Some(MachineFault::NoMemory)))
        }
        Left::Nothing => call(board, guest, most, turn),
    }
}

/// Makes the next move of the guest's serve. `None` where it did something, and the move after it
/// may follow at once.
fn move_on(
    board: &mut AskingBoard<OutboxDisk>,
    guest: u16,
    most: u16,
    turn: &mut Turn,
) -> Option<Next>
    requires { guest < length board.old.devices }
    ensures went { Went guest most (stand_of turn.old) board.old turn.old turn.new board.old
        board.new result }
{
    if let Some(part) = turn.next_part() {
        return Some(Next::Write(part));
    }
    match turn.stage {
        Stage::Taking => take(board, guest, most, turn),
        Stage::Leaving => leave(board, guest, most, turn),
        Stage::Notifying => call(board, guest, most, turn),
    }
}

/// Goes on with the guest's serve until something is needed.
pub(crate) fn serve(
    board: &mut AskingBoard<OutboxDisk>,
    guest: u16,
    most: u16,
    turn: &mut Turn,
) -> Next
    requires { guest < length board.old.devices }
    ensures went { Went guest most (stand_of turn.old) board.old turn.old turn.new board.old
        board.new (Some result) }
{
    for _move in 0..MOST_MOVES - 1 {
        if let Some(next) = move_on(board, guest, most, turn) {
            return next;
        }
    }
    match move_on(board, guest, most, turn) {
        Some(next) => next,
        None => Next::Again,
    }
}
