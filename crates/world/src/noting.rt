//! The steps of a world's board, and what is noted of them.
ghost use Rattle.std.specs.Prelude.{◌≡◌, ◌+◌, ◌≤◌, ℕ, List, length, slice_get};
ghost use Rattle.rpmb_frame.specs.Partition.{Partition};
ghost use Rattle.rpmb_frame.specs.Request.{Request};
ghost use Rattle.rpmb_frame.specs.declared.config.GuestConfig.{GuestConfig};
ghost use Rattle.disk.specs.CutDisk.{CutMakes, cut_state};
ghost use Rattle.intent_slots.specs.Recovered.{Part};
ghost use Rattle.board.specs.State.{guests, in_place};
ghost use Rattle.board.specs.Steps.{Does};
ghost use Rattle.world.specs.declared.home.Home.TheVariants.{Up};
ghost use Rattle.board.specs.declared.step.Step.TheVariants as step_of;
ghost use Rattle.board.specs.Board.{IsLinkedBoard};
ghost use Rattle.world.specs.World.{published_after};
ghost use Rattle.world.specs.Records.{HaveRoom, count_of};
ghost use Rattle.world.specs.Noting.{IsNoted, NotesPop, NotesSubmit, sequence_of};

use crate::log::{Log, Pop, Publication};
use board::{Board, Seen, Step, StepFault};
use disk::CutDisk;
use mmio_transport::{DeviceFault, Published};
use rpmb_book::Refused;
use std::alloc::Global;

fn sequence(board: &Board<CutDisk>, guest: u16) -> u64
    ensures { result ≡ sequence_of (slice_get (guests board.now) guest) }
{
    match board.partition(guest) {
        None => 0,
        Some(partition) => partition.sequence(),
    }
}

/// Answers a job, and notes its request where it is accepted. Memory for all that is noted comes
/// first: so the request is noted, and forgotten where it isn't accepted.
fn submit(
    alloc: Global,
    board: &mut Board<CutDisk>,
    log: &mut Log,
    guest: u16,
) -> Result<Seen, StepFault>
    ensures submits { NotesSubmit guest result board.old board.new log.old log.new }
{
    let Some(job) = board.job(guest) else {
        return board.step(&Step::Submit(guest));
    };
    let Ok(()) = log.note(alloc, job) else {
        return Err(StepFault::Book(Refused::NoMemory));
    };
    let before = sequence(board, guest);
    let answer = board.step(&Step::Submit(guest));
    if sequence(board, guest) == before {
        log.forget();
    }
    answer
}

/// Pops a job of this life, and notes that where there is one. Memory for the note comes first,
/// where the guest's place is empty.
fn pop(life: u64, board: &mut Board<CutDisk>, log: &mut Log, guest: u16) -> Result<Seen, StepFault>
    ensures pops { NotesPop life guest result board.old board.new log.old log.new }
{
    if let Some(_) = board.job(guest) {
        return board.step(&Step::Pop(guest));
    }
    let Ok(()) = log.make_room() else {
        return Err(StepFault::Device(DeviceFault::NoMemory));
    };
    let answer = board.step(&Step::Pop(guest));
    if let Ok(Seen::Did) = answer {
        if let Some(job) = board.job(guest) {
            log.pop(Pop::of(life, job));
        }
    }
    answer
}

/// Writes a reply into its chain, and notes it where it stands there.
fn publish(
    life: u64,
    board: &mut Board<CutDisk>,
    log: &mut Log,
    guest: u16,
) -> Result<Seen, StepFault>
    requires room { length log.old.published + count_of (in_place (slice_get board.old.dones guest))
        ≤ log.old.room }
    ensures does { Does cut_state CutMakes (step_of.Publish guest) result board.old board.new }
    ensures log { log.new ≡ record log.old {
      published = published_after life (step_of.Publish guest) result board.old (λ g.
          log.old.published) guest;
    } }
{
    let Some(done) = board.done(guest) else {
        return board.step(&Step::Publish(guest));
    };
    let publication = Publication::of(life, done);
    let answer = board.step(&Step::Publish(guest));
    if let Ok(Seen::Published(Published::Wrote { .. })) = answer {
        log.publish(publication);
    }
    answer
}

/// One step of an open world in this life, and what is noted of it.
pub(crate) fn step(
    alloc: Global,
    life: u64,
    board: &mut Board<CutDisk>,
    logs: &mut Vec<Log>,
    step: &Step,
) -> Result<Seen, StepFault>
    requires many { length logs.old.items ≡ length (guests board.old) }
    requires room { HaveRoom (Up board.old) logs.old.items }
    ensures many { length logs.new.items ≡ length logs.old.items }
    ensures noted { (config : List GuestConfig) (bases : ℕ → Partition)
        (accepted : ℕ → List Request) (parts : ℕ → Part)
        → IsLinkedBoard cut_state config bases accepted parts board.old
        → IsNoted config life step.now result board.old board.new logs.old.items logs.new.items }
{
    match step {
        Step::Submit(guest) => {
            let at = usize::from(*guest);
            if at >= logs.len() {
                return board.step(step);
            }
            submit(alloc, board, &mut logs[at], *guest)
        }
        Step::Pop(guest) => {
            let at = usize::from(*guest);
            if at >= logs.len() {
                return board.step(step);
            }
            pop(life, board, &mut logs[at], *guest)
        }
        Step::Publish(guest) => {
            let at = usize::from(*guest);
            if at >= logs.len() {
                return board.step(step);
            }
            publish(life, board, &mut logs[at], *guest)
        }
        Step::Drive(_, _)
        | Step::Collect(_)
        | Step::Take(_)
        | Step::Give(_)
        | Step::Advance
        | Step::Settle => board.step(step),
    }
}
