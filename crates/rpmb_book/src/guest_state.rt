//! What the book knows of one guest.
ghost use Rattle.std.specs.Prelude.{◌≡◌, ◌+◌, ◌++◌, ◌-◌, ◌*◌, ◌/◌, ◌<◌, ◌≤◌, ◌^◌, [], IfOk};
ghost use Rattle.std.specs.Prelude.{if◌then◌else◌, is_some, length, take, drop, option_to_list};
ghost use Rattle.std.specs.VecDeque.{deque_capacity};
ghost use Rattle.intent_slots.specs.Payload.{EntriesFit};
ghost use Rattle.rpmb_frame.specs.Request.{frames_of};
ghost use Rattle.rpmb_core.specs.Reply.{closed};
ghost use Rattle.rpmb_core.specs.MacCheck.{Says};
ghost use Rattle.rpmb_book.specs.Planned.{IsFailure, IsPlanned};
ghost use Rattle.rpmb_book.specs.GuestPlanned.{IsGuestPlanned, is_failure};
ghost use Rattle.rpmb_book.specs.Allowed.{HasPlaces};
ghost use Rattle.rpmb_book.specs.Left.{left_of};
ghost use Rattle.std.specs.Prelude.{true, false, map, IsSome, ◌↔◌};
ghost use Rattle.rpmb_book.specs.Guest.{submitted, answer_when, took, settled_at, collected};
ghost use Rattle.rpmb_book.specs.Guest.{broken_off, kept_or_failed, first_due, first_intent, fresh};

use crate::due::Due;
use crate::guest_core::{Answer, Failure, GuestCore, Plan};
use crate::held::Held;
use crate::rooms::Rooms;
use intent_slots::{Entry, Intent};
use mmio_transport::Job;
use rpmb_core::{MacCheck, NoMemory, Partition};
use rpmb_frame::Limits;
use std::alloc::Global;
use std::collections::VecDeque;
use std::marker::Model;

/// How many replies of one guest may wait to leave.
pub const HELD: usize = 64;

/// How many requests the store is given as one, at most.
const MOST: usize = 4;

/// What the book knows of one guest.
#[derive(Drop)]
pub struct GuestState {
    core: GuestCore,
    held: VecDeque<Held>,
    waiting: VecDeque<Entry>,
    taken: u64,
    settled: u64,
    submits: u64,
}

impl Model for GuestState {
    ghost use Rattle.std.specs.Prelude.{◌≤◌};
    ghost use Rattle.std.specs.VecDeque.{deque_capacity};
    ghost use Rattle.rpmb_book.specs.Guest as model;

    ghost Value = { model.GuestState };

    ghost view = { λ g. record {
      core = g.core;
      held = g.held.items;
      waiting = g.waiting.items;
      taken = g.taken;
      settled = g.settled;
      submits = g.submits;
    } };

    ghost invariant = { λ g. (64 ≤ deque_capacity g.held) × (64 ≤ deque_capacity g.waiting) };
}

/// All the memory that the answer to a job takes.
#[derive(Drop)]
pub enum GuestPlan {
    /// A book that is broken answers with a failure, which is made already.
    Failure(Failure),
    Answer(Plan),
}

/// What a job asked and was answered, for the history.
#[derive(Drop)]
pub struct Said {
    pub request: Vec<u8>,
    pub reply: Vec<u8>,
    /// The key of the reply's MAC, which isn't made yet.
    pub key: Option<[u8; 32]>,
}

impl GuestState {
    /// A guest of whom nothing was asked yet, with places for all replies and entries that it may
    /// have.
    pub fn fresh(
        alloc: Global,
        limits: Limits,
        partition: Partition,
    ) -> Result<GuestState, NoMemory>
        ensures { IfOk result (λ g. g ≡ fresh limits partition) }
    {
        let sequence = partition.sequence();
        let held = VecDeque::with_capacity(alloc, HELD)?;
        let waiting = VecDeque::with_capacity(alloc, HELD)?;
        Ok(GuestState {
            core: GuestCore::new(limits, partition),
            held,
            waiting,
            taken: sequence,
            settled: sequence,
            submits: 0,
        })
    }

    pub fn partition(&self) -> &Partition
        ensures { result.now ≡ self.now.core.partition }
    {
        self.core.partition()
    }

    pub fn limits(&self) -> Limits
        ensures { result ≡ self.now.core.limits }
    {
        self.core.limits()
    }

    pub fn taken(&self) -> u64
        ensures { result ≡ self.now.taken }
    {
        self.taken
    }

    pub fn settled(&self) -> u64
        ensures { result ≡ self.now.settled }
    {
        self.settled
    }

    pub fn submits(&self) -> u64
        ensures { result ≡ self.now.submits }
    {
        self.submits
    }

    pub fn held_len(&self) -> usize
        ensures { result ≡ length self.now.held }
    {
        self.held.len()
    }

    /// How many of its replies have left.
    pub fn left(&self) -> u64
        ensures { result ≡ left_of self.now }
    {
        self.submits.saturating_sub(self.held.len() as u64)
    }

    /// Makes all the memory that the answer to a job takes, of a book that is broken, or isn't. Of
    /// one that isn't, what the check of the job's MAC came to counts, and the rooms serve where
    /// they fit. A failure reply is built in `out`.
    pub fn plan(
        &self,
        alloc: Global,
        job: &Job,
        broken: bool,
        check: &MacCheck,
        rooms: Rooms,
        out: &mut [u8; 8192],
    ) -> Result<GuestPlan, NoMemory>
        requires { Says (frames_of job.now.request) check.now }
        ensures planned { IfOk result (IsGuestPlanned job.now self.now) }
        ensures failure { IfOk result (λ p. is_failure p ≡ broken) }
    {
        if broken {
            let failure = self.core.failure(alloc, job, out)?;
            Ok(GuestPlan::Failure(failure))
        } else {
            let plan = self.core.plan(alloc, job, check, rooms)?;
            Ok(GuestPlan::Answer(plan))
        }
    }

    /// Answers a job as planned; the reply is built in `out`. It takes no memory: the job goes
    /// along with its reply, and its request to the history.
    pub fn submit(&mut self, alloc: Global, job: Job, plan: GuestPlan, out: &mut [u8; 8192]) -> Said
        requires plan { IsGuestPlanned job self.old plan }
        requires places { HasPlaces (is_failure plan) self.old }
        ensures request { result.request.items ≡ job.request }
        ensures reply { closed result.key result.reply.items
            ≡ answer_when (is_failure plan) self.old.core job }
        ensures whole { length result.reply.items ≡ 512 * (length result.reply.items / 512) }
        ensures state { self.new ≡ submitted (is_failure plan) job self.old }
    {
        match plan {
            GuestPlan::Failure(failure) => self.submit_failure(alloc, job, failure),
            GuestPlan::Answer(plan) => self.submit_answer(alloc, job, plan, out),
        }
    }

    /// Answers a job with a failure, since the store broke: nothing is accepted.
    #[tactic(auto, unfolding(rpmb_core::specs::Reply::closed))]
    fn submit_failure(&mut self, alloc: Global, job: Job, failure: Failure) -> Said
        requires failure { IsFailure self.old.core job failure }
        requires places { HasPlaces true self.old }
        ensures request { result.request.items ≡ job.request }
        ensures reply { closed result.key result.reply.items ≡ answer_when true self.old.core job }
        ensures whole { length result.reply.items ≡ 512 * (length result.reply.items / 512) }
        ensures state { self.new ≡ submitted true job self.old }
    {
        let Failure { reply, copy, kind } = failure;
        let (job, request) = job.without_request(alloc);
        let due = Due::of(job, reply, 0, None);
        self.held.push_back_reserved(Held::of(due, kind));
        self.submits += 1;
        Said {
            request,
            reply: copy,
            key: None,
        }
    }

    /// Answers a job by its request.
    fn submit_answer(&mut self, alloc: Global, job: Job, plan: Plan, out: &mut [u8; 8192]) -> Said
        requires plan { IsPlanned self.old.core job plan }
        requires places { HasPlaces false self.old }
        ensures request { result.request.items ≡ job.request }
        ensures reply { closed result.key result.reply.items ≡ answer_when false self.old.core job }
        ensures whole { length result.reply.items ≡ 512 * (length result.reply.items / 512) }
        ensures state { self.new ≡ submitted false job self.old }
    {
        let Answer {
            reply,
            copy,
            key,
            need,
            kind,
            entry,
        } = self.core.carry_out(&job, plan, out);
        let (job, request) = job.without_request(alloc);
        let due = Due::of(job, reply, need, key);
        self.held.push_back_reserved(Held::of(due, kind));
        match entry {
            None => {}
            Some(entry) => self.waiting.push_back_reserved(entry),
        }
        self.submits += 1;
        Said {
            request,
            reply: copy,
            key,
        }
    }

    /// Gives the requests that come next for the store, at most four, as an intent of the guest
    /// with this number. They are moved, so it takes no memory.
    pub fn take(&mut self, guest: u16) -> Option<Intent>
        requires ready { EntriesFit (2 ^ 24) self.old.taken self.old.waiting }
        requires counters { self.old.taken + length self.old.waiting ≤ 2 ^ 32 }
        ensures intent { result ≡ first_intent guest self.old }
        ensures state { self.new ≡ took self.old }
    {
        let first = take_oldest(&mut self.waiting)?;
        let mut intent = Intent::new(guest, self.core.key(), self.taken as u32, first);
        let waiting = &mut self.waiting;
        for _ in 1..MOST {
            if let Some(entry) = waiting.pop_front() {
                intent.push(entry);
            }
        }
        self.taken = intent.last_sequence();
        Some(intent)
    }

    /// Raises what is settled to a mark.
    pub fn settle(&mut self, mark: u64)
        ensures { self.new ≡ settled_at mark self.old }
    {
        self.settled = self.settled.max(mark);
    }

    /// The store broke: the stored outcome goes, and of the held replies those that aren't settled
    /// become failures. It takes no memory.
    pub fn break_off(&mut self)
        ensures { self.new ≡ broken_off self.old }
    {
        self.core.forget();
        break_held(self.held.make_contiguous(), self.settled);
    }

    /// Gives the first held reply, where its need is settled.
    pub fn collect(&mut self) -> Option<Due>
        ensures done { result ≡ first_due self.old.settled self.old.held }
        ensures state { self.new
            ≡ (if is_some (first_due self.old.settled self.old.held) then collected self.old
            else self.old) }
    {
        if self.held.is_empty() || self.settled < self.held[0].need() {
            return None;
        }
        match self.held.pop_front() {
            None => None,
            Some(held) => Some(held.due()),
        }
    }
}

/// The oldest request that waits for the store, which from then on waits no more.
fn take_oldest(waiting: &mut VecDeque<Entry>) -> Option<Entry>
    ensures items { waiting.old.items ≡ option_to_list result ++ waiting.new.items }
    ensures some { IsSome result ↔ 0 < length waiting.old.items }
    ensures room { deque_capacity waiting.new ≡ deque_capacity waiting.old }
{
    waiting.pop_front()
}

fn break_held(held: &mut [Held], settled: u64)
    ensures { held.new ≡ map (kept_or_failed settled) held.old }
{
    for reply in held.iter_mut() {
        reply.break_off(settled);
    }
}

/// A Break, of all guests.
pub fn break_all(guests: &mut [GuestState])
    ensures { guests.new ≡ map broken_off guests.old }
{
    for guest in guests.iter_mut() {
        guest.break_off();
    }
}
