//! What the answers to one guest depend on.
ghost use Rattle.std.specs.Prelude.{◌≡◌, ◌≤◌, ◌<◌, ◌^◌, ◌*◌, ◌/◌, if◌then◌else◌, IfOk, [], None};
ghost use Rattle.std.specs.Prelude.{Some};
ghost use Rattle.std.specs.Prelude.{length, true, vec_capacity};
ghost use Rattle.mmio_transport.specs.Job.{room_of};
ghost use Rattle.rpmb_frame.specs.Partition.{Partition};
ghost use Rattle.rpmb_frame.specs.Request.{frames_of};
ghost use Rattle.rpmb_core.specs.Verdict.{verdict};
ghost use Rattle.rpmb_core.specs.MacCheck.{Says};
ghost use Rattle.rpmb_core.specs.Accept.{data_of, is_accepted, partition_after};
ghost use Rattle.rpmb_core.specs.Reply.{closed, failure_kind};
ghost use Rattle.rpmb_book.specs.Guest.{stored, core_after, outcome_in, answer, answer_when, need};
ghost use Rattle.rpmb_book.specs.Guest.{entry, entry_of, key_of, blocks_in, request_of};
ghost use Rattle.rpmb_book.specs.Sound.{IsCoreOfBoard};
ghost use Rattle.rpmb_book.specs.Planned.{IsAnswer, IsPlanned};

use crate::rooms::{Rooms, room_for};
use intent_slots::Entry;
use mmio_transport::Job;
use rpmb_core::{
    GENERAL_FAILURE, MacCheck, NoMemory, OK, Outcome, Partition, failure_kind, is_change,
};
use rpmb_frame::{Command, Frame, Limits, Request};
use std::alloc::{AllocError, Global};
use std::marker::Model;

/// The stored outcome of a guest, with the session that it is of.
#[derive(Clone, Copy, Debug, PartialEq, Eq)]
pub struct StoredOutcome {
    pub session: u64,
    pub outcome: Outcome,
}

/// What the answers to a guest depend on: nothing else does.
#[derive(Drop)]
pub struct GuestCore {
    limits: Limits,
    partition: Partition,
    last: Option<StoredOutcome>,
}

impl Model for GuestCore {
    ghost use Rattle.rpmb_book.specs.Guest as model;

    ghost Value = { model.GuestCore };

    ghost view = { λ c. record { limits = c.limits; partition = c.partition; last = c.last } };
}

/// The verdict on a job, and all the memory that its answer takes.
#[derive(Drop)]
pub struct Plan {
    pub code: u16,
    pub is_accepted: bool,
    pub reply: Vec<u8>,
    pub copy: Vec<u8>,
    pub blocks: Vec<u8>,
}

/// The answer to a job: its reply twice, without the MAC, and the key that this is made under; what
/// has to be settled before the reply may leave, the type of the failure reply to its request, and
/// what an accepted one is to make of the partition.
#[derive(Drop)]
pub struct Answer {
    pub reply: Vec<u8>,
    pub copy: Vec<u8>,
    pub key: Option<[u8; 32]>,
    pub need: u64,
    pub kind: u16,
    pub entry: Option<Entry>,
}

/// The failure reply to a job, twice, and its type.
#[derive(Drop)]
pub struct Failure {
    pub reply: Vec<u8>,
    pub copy: Vec<u8>,
    pub kind: u16,
}

impl GuestCore {
    pub fn new(limits: Limits, partition: Partition) -> GuestCore
        ensures { result ≡ record { limits = limits; partition = partition; last = None } }
    {
        GuestCore {
            limits,
            partition,
            last: None,
        }
    }

    pub fn partition(&self) -> &Partition
        ensures { result.now ≡ self.now.partition }
    {
        &self.partition
    }

    pub fn limits(&self) -> Limits
        ensures { result ≡ self.now.limits }
    {
        self.limits
    }

    /// The partition's key; zeros, where it has none.
    pub fn key(&self) -> [u8; 32]
        ensures { result ≡ key_of self.now.partition }
    {
        match self.partition.key() {
            Some(key) => key,
            None => [0; 32],
        }
    }

    /// Finds the verdict on a job, by what the check of its MAC came to, and makes all the memory
    /// that its answer takes, of these rooms where they fit.
    pub fn plan(
        &self,
        alloc: Global,
        job: &Job,
        check: &MacCheck,
        rooms: Rooms,
    ) -> Result<Plan, NoMemory>
        requires { Says (frames_of job.now.request) check.now }
        ensures { IfOk result (IsPlanned self.now job.now) }
    {
        let request = Request::classify(job.request(), job.writable(), self.limits);
        let _most = self.limits.max_rd_cnt(); // for the checker: a reply has at most 16 frames
        let code = self.partition.verdict_by(&request, check);
        let is_accepted = is_accepted(&request, code);
        let len = Partition::reply_len(&request, code);
        let Ok(reply) = room_for(alloc, rooms.reply, len) else {
            return Err(AllocError);
        };
        let Ok(copy) = room_for(alloc, rooms.copy, len) else {
            return Err(AllocError);
        };
        let Ok(blocks) = blocks_of(alloc, &request, is_accepted, rooms.blocks) else {
            return Err(AllocError);
        };
        Ok(Plan {
            code,
            is_accepted,
            reply,
            copy,
            blocks,
        })
    }

    /// Answers a job as planned, and builds its reply in `out`. It takes no memory.
    pub fn carry_out(&mut self, job: &Job, plan: Plan, out: &mut [u8; 8192]) -> Answer
        requires plan { IsPlanned self.old job.now plan }
        requires board { IsCoreOfBoard self.old }
        ensures core { self.new ≡ core_after self.old job.now }
        ensures answer { IsAnswer self.old job.now result }
    {
        let request = Request::classify(job.request(), job.writable(), self.limits);
        let Plan {
            code,
            is_accepted,
            reply,
            copy,
            blocks,
        } = plan;
        apply(&mut self.partition, &request, is_accepted);
        let entry = entry_if(&request, is_accepted, blocks);
        let outcome = Outcome::of(&request, code, self.partition.counter());
        self.last = keep(self.last, job.ticket().session, outcome);
        let len = self
            .partition
            .open_reply(&request, code, outcome_in(self.last), out);
        Answer {
            reply: filled(reply, &out[..len]),
            copy: filled(copy, &out[..len]),
            key: self.partition.key(),
            need: self.partition.sequence(),
            kind: failure_kind(&request),
            entry,
        }
    }

    /// The failure reply to a job of a broken book, built in `out`.
    pub fn failure(
        &self,
        alloc: Global,
        job: &Job,
        out: &mut [u8; 8192],
    ) -> Result<Failure, NoMemory>
        ensures reply { IfOk result (λ f. f.reply.items ≡ answer_when true self.now job.now) }
        ensures fits { IfOk result (λ f. length f.reply.items ≤ room_of job.now) }
        ensures whole { IfOk result
            (λ f. length f.reply.items ≡ 512 * (length f.reply.items / 512)) }
        ensures copy { IfOk result (λ f. f.copy.items ≡ answer_when true self.now job.now) }
        ensures kind { IfOk result
            (λ f. f.kind ≡ failure_kind (request_of self.now job.now).command) }
    {
        let request = Request::classify(job.request(), job.writable(), self.limits);
        let len = Partition::failure(&request, GENERAL_FAILURE, out);
        let reply = Vec::from_slice(alloc, &out[..len])?;
        let copy = Vec::from_slice(alloc, &out[..len])?;
        Ok(Failure {
            reply,
            copy,
            kind: failure_kind(&request),
        })
    }

    /// Forgets the stored outcome.
    pub fn forget(&mut self)
        ensures { self.new ≡ record self.old { last = None } }
    {
        self.last = None;
    }
}

/// Makes the change of a request that is accepted; another one changes nothing.
#[tactic(auto, unfolding(rpmb_core::specs::Accept::partition_after))]
fn apply(partition: &mut Partition, request: &Request<'_>, accepts: bool)
    requires { accepts ≡ is_accepted partition.old request.now }
    ensures { partition.new ≡ partition_after partition.old request.now }
{
    if accepts {
        partition.accept(request);
    }
}

/// The entry of a request that is accepted, with these blocks.
fn entry_if(request: &Request<'_>, accepts: bool, blocks: Vec<u8>) -> Option<Entry>
    requires blocks { accepts ≡ true → blocks.items ≡ blocks_in request.now.command }
    requires few { accepts ≡ true → length blocks.items ≤ 4096 }
    ensures { result ≡ (if accepts then Some (entry_of request.now.command) else None) }
{
    if !accepts {
        return None;
    }
    Some(entry_of(request, blocks))
}

fn outcome_in(last: Option<StoredOutcome>) -> Option<Outcome>
    ensures { result ≡ outcome_in last }
{
    match last {
        None => None,
        Some(stored) => Some(stored.outcome),
    }
}

/// The stored outcome after one more request of a session, which had this outcome.
fn keep(
    last: Option<StoredOutcome>,
    session: u64,
    outcome: Option<Outcome>,
) -> Option<StoredOutcome>
    ensures { result ≡ stored last session outcome }
{
    match (outcome, last) {
        (Some(outcome), _) => Some(StoredOutcome { session, outcome }),
        (None, Some(stored)) if stored.session == session => Some(stored),
        _ => None,
    }
}

/// Whether a request that has this verdict is accepted.
#[tactic(auto, unfolding(rpmb_core::specs::Accept::is_accepted))]
fn is_accepted(request: &Request<'_>, code: u16) -> bool
    ensures { (p : Partition) → code ≡ verdict p request.now → result ≡ is_accepted p request.now }
{
    is_change(request) && code == OK
}

/// These bytes, in the room that was made for them.
fn filled(mut room: Vec<u8>, bytes: &[u8]) -> Vec<u8>
    requires empty { room.items ≡ [] }
    requires fits { length bytes.now ≤ vec_capacity room }
    ensures { result.items ≡ bytes.now }
{
    if room.extend_from_slice(bytes).is_err() {
        unreachable!();
    }
    room
}

/// The blocks of a write that is accepted, one after another, in this room where it fits.
fn blocks_of(
    alloc: Global,
    request: &Request<'_>,
    accepted: bool,
    room: Vec<u8>,
) -> Result<Vec<u8>, NoMemory>
    ensures { IfOk result
        (λ blocks. accepted ≡ true → blocks.items ≡ blocks_in request.now.command) }
{
    match request.command {
        Command::DataWrite { frames, .. } if accepted => data_of(alloc, frames, room),
        _ => Ok(Vec::new(alloc)),
    }
}

#[tactic(auto, unfolding(rpmb_core::specs::Accept::data_of))]
fn data_of(alloc: Global, frames: &[[u8; 512]], room: Vec<u8>) -> Result<Vec<u8>, NoMemory>
    ensures { IfOk result (λ blocks. blocks.items ≡ data_of frames.now) }
{
    let mut blocks = room_for(alloc, room, 256 * frames.len())?;
    for frame in frames {
        blocks.extend_from_slice(&frame[228..484])?;
    }
    Ok(blocks)
}

/// What a request that has these blocks writes; nothing, where it programs the key.
fn entry_of(request: &Request<'_>, blocks: Vec<u8>) -> Entry
    requires blocks { blocks.items ≡ blocks_in request.now.command }
    requires few { length blocks.items ≤ 4096 }
    ensures { result ≡ entry_of request.now.command }
{
    match request.command {
        Command::DataWrite { frames, .. } => {
            Entry::write(Frame::from_bytes(&frames[0]).address(), blocks)
        }
        _ => Entry::program_key(),
    }
}
