//! Letting replies leave whose need is settled.
ghost use Rattle.std.specs.Prelude.{◌≡◌, ◌≢◌, ◌<◌, ◌++◌, ℕ, [], Bool, List, length, true, false};
ghost use Rattle.std.specs.Prelude.{IsSome, slice_get};
ghost use Rattle.chains.specs.declared.range.Range.{Range as Part};
ghost use Rattle.guest_memory.specs.declared.ask.Ask.{Ask};
ghost use Rattle.mmio_transport.specs.Written.{range_in};
ghost use Rattle.board.specs.Asking.{board_of};
ghost use Rattle.board.specs.State.{in_place};
ghost use Rattle.machine.specs.Serving.{AsksIn, DoesSome, HasNoReply, IsNoted};
ghost use Rattle.machine.specs.Serving.{QueuesStay, Runs, SameDevices, standing};
ghost use Rattle.machine.specs.Turn.{KeepsStage, stand_of, filled_part, filled_parts};

use crate::taking::begin;
use crate::turn::Turn;
use board::AskingBoard;
use chains::Range;
use disk::OutboxDisk;
use guest_memory::Ask;
use mmio_transport::Published;

/// As many bytes as a reply has, at most.
const MOST: usize = 8_192;

/// What stands for bytes that are written over.
static ZEROS: [u8; MOST] = [0; MOST];

/// What became of the next reply.
#[derive(Clone, Copy, Debug, PartialEq, Eq)]
pub(crate) enum Left {
    /// Bytes are asked for, and nothing changed.
    Asks(Ask),
    /// It was handed to its device.
    Did,
    /// None may leave.
    Nothing,
    /// Memory was refused.
    NoMemory,
}

/// Notes the part of a range that so many bytes fill, where there is one. Whether it is noted.
fn note_one(turn: &mut Turn, range: &Range, count: u64) -> bool
    ensures noted { result ≡ true
        → turn.new.parts ≡ turn.old.parts ++ filled_part range.now count }
    ensures rest { turn.new ≡ record turn.old { parts = turn.new.parts } }
{
    let len = u64::from(range.len).min(count) as u32;
    if len == 0 {
        return true;
    }
    turn.note(Range { at: range.at, len })
}

/// Notes the parts of these ranges that so many bytes fill. Whether all are noted.
fn note_filled(turn: &mut Turn, ranges: &[Range], count: u64) -> bool
    ensures noted { result ≡ true
        → turn.new.parts ≡ turn.old.parts ++ filled_parts ranges.now count }
    ensures rest { turn.new ≡ record turn.old { parts = turn.new.parts } }
{
    let mut left = count;
    for range in ranges {
        if !note_one(turn, range, left) {
            return false;
        }
        left = left.saturating_sub(u64::from(range.len));
    }
    true
}

/// Notes a part of a queue, where there is one. Whether it is noted.
fn note_part(turn: &mut Turn, part: Option<Range>) -> bool
    ensures noted { result ≡ true → turn.new.parts ≡ turn.old.parts ++ range_in part }
    ensures rest { turn.new ≡ record turn.old { parts = turn.new.parts } }
{
    match part {
        Some(part) => turn.note(part),
        None => true,
    }
}

/// Notes all that the publication of the reply in its place writes, in the order in which it is
/// copied out: the reply, the used element, the used index. Whether all is noted.
fn note_reply(board: &AskingBoard<OutboxDisk>, guest: u16, turn: &mut Turn) -> bool
    requires { turn.old.parts ≡ [] }
    ensures noted { result ≡ true → IsNoted guest turn.new.parts board.now }
    ensures rest { turn.new ≡ record turn.old { parts = turn.new.parts } }
{
    let Some(done) = board.rest().done(guest) else {
        return true;
    };
    let Some(device) = board.device_of(guest) else {
        return true;
    };
    if !note_filled(turn, done.writable(), done.reply().len() as u64) {
        return false;
    }
    if !note_part(turn, device.written()) {
        return false;
    }
    note_part(turn, device.indexed())
}

/// Tells zeros for all that was noted: a publication writes over them, so what they were is
/// nothing to it. Whether there was memory for them.
fn tell_zeros(board: &mut AskingBoard<OutboxDisk>, guest: u16, turn: &Turn) -> bool
    requires guest { guest < length board.old.devices }
    requires lies { IsSome (in_place (slice_get board.old.rest.dones guest)) }
    requires noted { IsNoted guest turn.now.parts board.old }
    ensures runs { (most : ℕ) (ps : List Part) (g w : Bool)
        → Runs guest most (standing ps g w) board.old (standing ps g w) board.new }
    ensures rest { board.new.rest ≡ board.old.rest }
    ensures queues { QueuesStay board.old board.new }
    ensures count { length board.new.devices ≡ length board.old.devices }
{
    for i in 0..turn.parts.len() {
        let part = turn.parts[i];
        let count = (part.len as usize).min(MOST);
        if board.device(guest).tell(part.at, &ZEROS[..count]).is_err() {
            return false;
        }
    }
    true
}

/// Begins the publication of the reply in its place. Whether there was memory for what it writes.
fn prepare(board: &mut AskingBoard<OutboxDisk>, guest: u16, turn: &mut Turn) -> bool
    requires parts { turn.old.parts ≡ [] }
    requires guest { guest < length board.old.devices }
    requires lies { IsSome (in_place (slice_get board.old.rest.dones guest)) }
    ensures runs { (most : ℕ) → Runs guest most (standing [] turn.old.going turn.old.looked)
        board.old (standing [] turn.new.going turn.new.looked) board.new }
    ensures begun { result ≡ true → turn.new.going ≡ true }
    ensures rest { board.new.rest ≡ board.old.rest }
    ensures noted { result ≡ true → IsNoted guest turn.new.parts board.new }
    ensures idle { result ≡ false → turn.new.parts ≡ [] }
    ensures count { length board.new.devices ≡ length board.old.devices }
    ensures keeps { KeepsStage turn.old turn.new }
{
    begin(board, guest, turn);
    if !note_reply(board, guest, turn) {
        turn.stop();
        return false;
    }
    if !tell_zeros(board, guest, turn) {
        turn.stop();
        return false;
    }
    true
}

/// Hands the reply in its place to its device.
fn publish(board: &mut AskingBoard<OutboxDisk>, guest: u16, turn: &mut Turn) -> Left
    requires guest { guest < length board.old.devices }
    requires lies { IsSome (in_place (slice_get board.old.rest.dones guest)) }
    requires noted { IsNoted guest turn.old.parts board.old }
    requires begun { turn.old.going ≡ true }
    ensures runs { (most : ℕ) → Runs guest most (standing [] true turn.old.looked) board.old
        (stand_of turn.new) board.new }
    ensures did { result ≡ Left.Did → (most : ℕ) → DoesSome guest most
        (standing [] true turn.old.looked) board.old (stand_of turn.new) board.new }
    ensures idle { result ≢ Left.Did → turn.new.parts ≡ [] }
    ensures asks { (ask : Ask) → result ≡ Left.Asks ask → AsksIn guest ask board.new }
    ensures either { (result ≢ Left.Nothing) × (result ≢ Left.NoMemory) }
    ensures count { length board.new.devices ≡ length board.old.devices }
    ensures keeps { KeepsStage turn.old turn.new }
{
    match board.publish(guest) {
        Err(ask) => {
            turn.void();
            Left::Asks(ask)
        }
        Ok(Some(Published::Wrote { notify: _ })) => {
            turn.going = false;
            Left::Did
        }
        Ok(Some(Published::Dropped)) => {
            turn.stop();
            Left::Did
        }
        Ok(None) => unreachable!(),
    }
}

/// Lets the guest's next reply leave, where it may.
pub(crate) fn leave_one(board: &mut AskingBoard<OutboxDisk>, guest: u16, turn: &mut Turn) -> Left
    requires parts { turn.old.parts ≡ [] }
    requires guest { guest < length board.old.devices }
    ensures runs { (most : ℕ) → Runs guest most (standing [] turn.old.going turn.old.looked)
        board.old (stand_of turn.new) board.new }
    ensures did { result ≡ Left.Did → (most : ℕ) → DoesSome guest most
        (standing [] turn.old.going turn.old.looked) board.old (stand_of turn.new) board.new }
    ensures idle { result ≢ Left.Did → turn.new.parts ≡ [] }
    ensures asks { (ask : Ask) → result ≡ Left.Asks ask → AsksIn guest ask board.new }
    ensures nothing { result ≡ Left.Nothing → HasNoReply guest board.new.rest
        × (board.new.devices ≡ board.old.devices)
        × (board_of board.new ≡ board_of board.old) }
    ensures count { length board.new.devices ≡ length board.old.devices }
    ensures keeps { KeepsStage turn.old turn.new }
{
    board.collect(guest);
    if board.rest().done(guest).is_none() {
        return Left::Nothing;
    }
    if !prepare(board, guest, turn) {
        return Left::NoMemory;
    }
    publish(board, guest, turn)
}
