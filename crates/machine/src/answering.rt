//! What a monitor's answer to the last thing that a serve needed does, and what it is asked next.
ghost use Rattle.std.specs.Prelude.{◌≡◌, ◌<◌, ◌≤◌, ◌⊎◌, ◌∷◌, [], List, length, take, true, false};
ghost use Rattle.std.specs.Prelude.{Bool, Err, IfSome, OnErr, OnOk, Some, slice_get, ℕ};
ghost use Rattle.chains.specs.declared.range.Range.{Range as Part};
ghost use Rattle.guest_memory.specs.Memory.{IsHeld, IsInside, bytes_at};
ghost use Rattle.guest_memory.specs.declared.ask.Ask.{Ask};
ghost use Rattle.mmio_transport.specs.Asking.{known};
ghost use Rattle.machine.specs.Ending.{Begins, HearsAnswer, TakesAnswer, TellsIn};
ghost use Rattle.machine.specs.Ending.{left_by};
ghost use Rattle.machine.specs.Serving.{AsksIn, HasParts, HasStopped, IsGoing};
ghost use Rattle.machine.specs.Serving.{RefusesIn, Runs};
ghost use Rattle.machine.specs.Serving.{standing};
ghost use Rattle.machine.specs.Turn.{stand_of};
ghost use Rattle.machine.specs.declared.turn.Asked.TheVariants as asked_of;

use crate::fault::MachineFault;
use crate::serving::{Next, serve};
use crate::status::waits_for_reset;
use crate::turn::{Asked, Turn};
use board::AskingBoard;
use chains::Range;
use disk::OutboxDisk;
use guest_memory::{Ask, MemFault};

/// The most bytes that are asked for, or written, at once.
pub(crate) const LARGEST_PART: usize = 16_384;

/// The guest has no memory where bytes were asked for or were to be copied to: its device waits for
/// a reset.
fn refuse(board: &mut AskingBoard<OutboxDisk>, guest: u16, turn: &mut Turn)
    requires { guest < length board.old.devices }
    ensures count { length board.new.devices ≡ length board.old.devices }
    ensures turn { turn.new ≡ record turn.old { parts = [] } }
    ensures refuses { RefusesIn guest board.old board.new }
{
    board.device(guest).refuse();
    turn.void();
}

/// Bytes that were asked for are told. `NoMemory` where there is no room for a copy.
fn told(
    board: &mut AskingBoard<OutboxDisk>,
    guest: u16,
    ask: Ask,
    bytes: &[u8],
) -> Result<(), MemFault>
    requires { guest < length board.old.devices }
    ensures count { length board.new.devices ≡ length board.old.devices }
    ensures told { OnOk result (TellsIn guest ask.at (take ask.len bytes.now) board.old board.new) }
    ensures same { OnErr result (board.new ≡ board.old) }
    ensures outside { result ≡ Err MemFault.OutOfRange → (length bytes.now < ask.len)
        ⊎ IfSome (slice_get board.old.devices guest) (λ d.
        ¬ IsInside d.device.memory ask.at (length (take ask.len bytes.now))) }
{
    if ask.len > bytes.len() as u64 {
        return Err(MemFault::OutOfRange);
    }
    board.device(guest).tell(ask.at, &bytes[..ask.len as usize])
}

/// Takes the answer to what was asked last: whether it was done, and the bytes that were copied in.
/// Whether there was memory for a copy of them.
fn answer(
    board: &mut AskingBoard<OutboxDisk>,
    guest: u16,
    turn: &mut Turn,
    is_there: bool,
    bytes: &[u8],
) -> bool
    requires { guest < length board.old.devices }
    ensures begins { Begins guest (stand_of turn.old) board.old (stand_of turn.new) board.new }
    ensures count { length board.new.devices ≡ length board.old.devices }
    ensures takes { TakesAnswer guest turn.old.asked is_there bytes.now board.old result board.new }
{
    let asked = turn.asked;
    turn.asked = Asked::Nothing;
    match asked {
        Asked::Nothing => true,
        Asked::Write => {
            if !is_there {
                refuse(board, guest, turn);
            }
            true
        }
        Asked::Read(ask) => {
            if !is_there {
                refuse(board, guest, turn);
                return true;
            }
            match told(board, guest, ask, bytes) {
                Ok(()) => true,
                Err(MemFault::NoMemory) => false,
                Err(MemFault::OutOfRange) => {
                    refuse(board, guest, turn);
                    true
                }
            }
        }
    }
}

/// What the guest's device needs isn't to be had: it is stopped, and served again. It doesn't come
/// to this where it waits for a reset already, as it needs nothing then; and would be told as
/// `NoMemory`.
fn give_up(board: &mut AskingBoard<OutboxDisk>, guest: u16, turn: &mut Turn) -> Next
    requires { guest < length board.old.devices }
    ensures turn { turn.new ≡ record turn.old { parts = [] } }
    ensures refuses { RefusesIn guest board.old board.new }
    ensures either { ((result ≡ Next.Again) × IsGoing guest board.old)
        ⊎ (result ≡ Next.Rest (Some MachineFault.NoMemory)) }
{
    let waits = waits_for_reset(board, guest);
    refuse(board, guest, turn);
    if waits {
        return Next::Rest(Some(MachineFault::NoMemory));
    }
    Next::Again
}

/// Copies a part of guest memory that is to be written to the front of `out`. Whether it could.
fn copy_part(board: &AskingBoard<OutboxDisk>, guest: u16, part: Range, out: &mut [u8]) -> bool
    ensures copied { result ≡ true → IfSome (slice_get board.now.devices guest) (λ d.
        take part.len out.new ≡ bytes_at d.device.memory part.at part.len) }
    ensures none { result ≡ false → (length out.old < part.len)
        ⊎ IfSome (slice_get board.now.devices guest) (λ d. ¬ IsHeld (known d) part.at part.len) }
    ensures count { length out.new ≡ length out.old }
{
    let count = part.len as usize;
    if count > out.len() {
        return false;
    }
    match board.device_of(guest) {
        Some(device) => device.load(part.at, &mut out[..count]).is_ok(),
        None => false,
    }
}

/// Notes what the monitor is asked for, and puts the bytes that it is to write to the front of
/// `out`.
fn need(
    board: &mut AskingBoard<OutboxDisk>,
    guest: u16,
    turn: &mut Turn,
    next: Next,
    out: &mut [u8],
) -> Next
    requires guest { guest < length board.old.devices }
    requires room { 16384 ≤ length out.old }
    requires asks { (wanted : Ask) → next ≡ Next.Read wanted → AsksIn guest wanted board.old }
    requires copied { (part : Part) → next ≡ Next.Write part
        → HasParts guest (part ∷ []) board.old }
    ensures runs { (most : ℕ) → Runs guest most (left_by (Some next) turn.old) board.old
        (left_by (Some result) turn.new) board.new }
    ensures same { (result ≡ next) ⊎ ((result ≡ Next.Rest (Some MachineFault.NoMemory))
        ⊎ ((result ≡ Next.Again) × ((most : ℕ) → HasStopped guest most
        (left_by (Some next) turn.old) board.old (stand_of turn.new) board.new))) }
    ensures board { result ≡ next
        → (board.new ≡ board.old) × (stand_of turn.new ≡ stand_of turn.old) }
    ensures read { (wanted : Ask) → result ≡ Next.Read wanted
        → (wanted.len ≤ 16384) × (turn.new.asked ≡ asked_of.Read wanted) }
    ensures write { (part : Part) → result ≡ Next.Write part
        → (turn.new.asked ≡ asked_of.Write) × IfSome (slice_get board.new.devices guest) (λ d.
        take part.len out.new ≡ bytes_at d.device.memory part.at part.len) }
{
    match next {
        Next::Read(wanted) => {
            if wanted.len > LARGEST_PART as u64 {
                return give_up(board, guest, turn);
            }
            turn.asked = Asked::Read(wanted);
            next
        }
        Next::Write(part) => {
            if !copy_part(board, guest, part, out) {
                return give_up(board, guest, turn);
            }
            turn.asked = Asked::Write;
            next
        }
        Next::Again => next,
        Next::Call => next,
        Next::Rest(_) => next,
    }
}

/// Serves a guest: takes the monitor's answer, goes on until something is needed, and asks for it.
pub(crate) fn serve_turn(
    board: &mut AskingBoard<OutboxDisk>,
    guest: u16,
    most: u16,
    turn: &mut Turn,
    is_there: bool,
    bytes: &mut [u8],
) -> Next
    requires guest { guest < length board.old.devices }
    requires room { 16384 ≤ length bytes.old }
    requires copied { HasParts guest turn.old.parts board.old }
    ensures heard { HearsAnswer guest most turn.old.asked is_there bytes.old (stand_of turn.old)
        board.old turn.new bytes.new board.new result }
{
    if !answer(board, guest, turn, is_there, bytes) {
        return Next::Rest(Some(MachineFault::NoMemory));
    }
    let next = serve(board, guest, most, turn);
    need(board, guest, turn, next, bytes)
}
