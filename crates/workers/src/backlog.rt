//! What lies between a guest's device and the book: jobs and replies that are on their way.
ghost use Rattle.std.specs.Prelude.{◌≡◌, ◌+◌, ◌<◌, ◌⊎◌, [], All, Err, IfErr, IfOk};
ghost use Rattle.std.specs.Prelude.{Ok, Some, false, true};
ghost use Rattle.std.specs.Prelude.{if◌then◌else◌, slice_get, length, vec_len};
ghost use Rattle.rpmb_book.specs.Fold.{after_submit};
ghost use Rattle.workers.specs.Looks.{IsSpent};
ghost use Rattle.workers.specs.Turns.{Collects, Flows, HandsOver, Takes, answered_of};

use crate::desk::Desk;
use crate::seat::Guest;
use hmac256::MacKey;
use host::HostFault;
use mmio_transport::{DeviceFault, Job};
use rpmb_book::{Checked, Due, Receipt, Refused, Rooms, Tally};
use rpmb_frame::Limits;
use std::alloc::Global;
use std::collections::VecDeque;
use std::sync::ledger::{Ledger, Share};

/// How many jobs a worker has at most, and how many replies.
const BATCH: usize = 8;

/// What became of the first job that waits for the book.
#[derive(Clone, Copy, Debug, PartialEq, Eq)]
pub(crate) enum Handed {
    /// The book answered it.
    Answered,
    /// There is none.
    Nothing,
    /// The guest has 64 replies that haven't left.
    Busy,
    /// The history waits for its first reply to leave.
    Full,
}

/// What a worker keeps to itself: its guest's tally, a share of the ledger that counts the same, a
/// receipt for each job that the book answered, jobs that it hasn't answered, and replies that left
/// it.
#[derive(Drop)]
pub(crate) struct Backlog<L: Ledger> {
    tally: Tally,
    share: Share<L>,
    receipts: Vec<Receipt>,
    /// How many replies left the book.
    collected: u64,
    /// Jobs that the book hasn't answered, the oldest first.
    jobs: VecDeque<Checked>,
    /// Replies on their way to the device, the oldest first.
    dones: VecDeque<Due>,
    /// What the book told of the guest, for MACs and memory that are made without it.
    limits: Option<Limits>,
    key: Option<MacKey>,
    /// Memory that the book gave back, for jobs to come.
    spares: Vec<Rooms>,
    ghost one_part: { share.parts ≡ 1 },
    ghost counted: { tally.count ≡ share.amount },
    ghost received: { vec_len receipts ≡ tally.count },
    ghost own: { All (λ r. r.guest ≡ tally.guest) receipts.items },
}

/// What a worker leaves.
#[derive(Drop)]
pub struct Served {
    /// How many of its guest's jobs were answered.
    pub tally: Tally,
    /// A receipt for each of them, in their order.
    pub receipts: Vec<Receipt>,
    ghost received: { vec_len receipts ≡ tally.count },
    ghost own: { All (λ r. r.guest ≡ tally.guest) receipts.items },
}

impl<L: Ledger> Backlog<L> {
    /// One of a guest that has submitted nothing.
    pub fn new(alloc: Global, tally: Tally, share: Share<L>) -> Backlog<L>
        requires part { share.parts ≡ 1 }
        requires none { share.amount ≡ 0 }
        requires fresh { tally.count ≡ 0 }
        ensures { result.tally ≡ tally }
    {
        Backlog {
            tally,
            share,
            receipts: Vec::new(alloc),
            collected: 0,
            jobs: VecDeque::new(alloc),
            dones: VecDeque::new(alloc),
            limits: None,
            key: None,
            spares: Vec::new(alloc),
        }
    }

    /// Takes the answer to a pop. Whether it gave a job.
    fn take_popped(
        &mut self,
        alloc: Global,
        popped: Result<Option<Job>, DeviceFault>,
    ) -> Result<bool, HostFault>
        ensures rest { (self.new.tally ≡ self.old.tally) × (self.new.dones ≡ self.old.dones) }
        ensures takes { IfOk result
            (λ is. Takes self.old.jobs.items popped is self.new.jobs.items) }
    {
        match popped {
            Ok(Some(job)) => {
                if self.jobs.push_back(Checked::plain(alloc, job)).is_err() {
                    return Err(HostFault::NoMemory);
                }
                Ok(true)
            }
            Ok(None) => Ok(false),
            Err(DeviceFault::NoMemory) => Err(HostFault::NoMemory),
            // That the device stopped is the driver's to tell.
            Err(DeviceFault::Refused(_)) => Ok(false),
            Err(DeviceFault::NeedsReset) => Ok(false),
        }
    }

    /// Pops a job. Whether there was one.
    fn pop(&mut self, alloc: Global, guest: &mut Guest) -> Result<bool, HostFault>
        ensures rest { (self.new.tally ≡ self.old.tally) × (self.new.dones ≡ self.old.dones) }
        ensures jobs { IfOk result
            (λ is. Flows self.old.jobs.items (if is then 1 else 0) 0 self.new.jobs.items) }
    {
        // Room first: a job that was popped is the worker's to keep.
        if self.jobs.try_reserve(1).is_err() {
            return Err(HostFault::NoMemory);
        }
        let popped = guest.pop();
        self.take_popped(alloc, popped)
    }

    /// Pops what is offered, up to a batch. How many jobs that are.
    pub fn pop_all(&mut self, alloc: Global, guest: &mut Guest) -> Result<usize, HostFault>
        ensures rest { (self.new.tally ≡ self.old.tally) × (self.new.dones ≡ self.old.dones) }
        ensures jobs { IfOk result (λ n. Flows self.old.jobs.items n 0 self.new.jobs.items) }
    {
        let room = BATCH.saturating_sub(self.jobs.len());
        for i in 0..room {
            if !self.pop(alloc, guest)? {
                return Ok(i);
            }
        }
        Ok(room)
    }

    /// Hands the oldest reply to the device. Whether there was one.
    fn publish(&mut self, guest: &mut Guest) -> bool
        ensures rest { (self.new.tally ≡ self.old.tally) × (self.new.jobs ≡ self.old.jobs) }
        ensures replies { Flows self.old.dones.items 0
            (if result then 1 else 0) self.new.dones.items }
        ensures device { HandsOver self.old.dones.items guest.old.device result guest.new.device }
    {
        match self.dones.pop_front() {
            // A reply of an earlier session is dropped.
            Some(due) => {
                let _ = guest.publish(due.done(self.key.as_ref()));
                true
            }
            None => false,
        }
    }

    /// Hands the replies to the device, up to a batch. How many those were.
    pub fn publish_all(&mut self, guest: &mut Guest) -> usize
        ensures rest { (self.new.tally ≡ self.old.tally) × (self.new.jobs ≡ self.old.jobs) }
        ensures replies { Flows self.old.dones.items 0 result self.new.dones.items }
    {
        for i in 0..BATCH {
            if !self.publish(guest) {
                return i;
            }
        }
        BATCH
    }

    /// Submits the oldest job; room for its receipt is made before. Where the guest is busy, or the
    /// history waits for its first reply to leave, the job stays. `HistoryFull` where the book has
    /// counted its last one: no reply that leaves makes room then.
    fn submit(&mut self, desk: &mut Desk<L>, alloc: Global) -> Result<Handed, HostFault>
        ensures rest { (self.new.tally.guest ≡ self.old.tally.guest)
            × (self.new.dones ≡ self.old.dones) }
        ensures count { IfOk result
            (λ h. self.new.tally.count ≡ self.old.tally.count + answered_of h) }
        ensures jobs { IfOk result
            (λ h. Flows self.old.jobs.items 0 (answered_of h) self.new.jobs.items) }
        ensures book { (job : Job) → slice_get self.old.jobs.items 0 ≡ Some job
            → result ≡ Ok Handed.Answered → desk.new ≡ after_submit desk.old job }
        ensures receipt { (r : Receipt)
            → slice_get self.new.receipts.items self.old.tally.count ≡ Some r
            → result ≡ Ok Handed.Answered
            → (r.life ≡ desk.old.life) × (r.number ≡ desk.old.folded + length desk.old.history) }
        ensures fault { IfErr result (λ f. (f ≡ HostFault.NoMemory) ⊎ (f ≡ HostFault.Foreign)
            ⊎ ((f ≡ HostFault.HistoryFull) × IsSpent desk.old)) }
        ensures full { result ≡ Ok Handed.Full → ¬ IsSpent desk.old }
    {
        if self.receipts.reserve(1).is_err() || self.jobs.try_reserve(1).is_err() {
            return Err(HostFault::NoMemory);
        }
        let Some(job) = self.jobs.pop_front() else {
            return Ok(Handed::Nothing);
        };
        let spares = &mut self.spares;
        match desk.submit(alloc, &mut self.tally, &mut self.share, spares, job) {
            Ok(receipt) => {
                self.receipts.push_reserved(receipt);
                Ok(Handed::Answered)
            }
            Err((job, refused)) => {
                self.jobs.push_front_reserved(job);
                match refused {
                    Refused::Busy => Ok(Handed::Busy),
                    Refused::HistoryFull => {
                        if desk.is_spent() {
                            return Err(HostFault::HistoryFull);
                        }
                        Ok(Handed::Full)
                    }
                    Refused::NoMemory => Err(HostFault::NoMemory),
                    Refused::Foreign => Err(HostFault::Foreign),
                }
            }
        }
    }

    /// Makes the MACs of the requests and the memory of their answers, for which no lock is needed.
    pub fn prepare(&mut self, alloc: Global)
        ensures rest { (self.new.tally ≡ self.old.tally) × (self.new.dones ≡ self.old.dones) }
        ensures jobs { self.new.jobs.items ≡ self.old.jobs.items }
    {
        let Some(limits) = self.limits else {
            return;
        };
        let jobs = self.jobs.make_contiguous();
        prepare_each(alloc, jobs, limits, self.key.as_ref(), &mut self.spares);
    }

    /// Makes the MACs of the replies, for which no lock is needed.
    pub fn close(&mut self)
        ensures rest { (self.new.tally ≡ self.old.tally) × (self.new.jobs ≡ self.old.jobs) }
        ensures replies { self.new.dones.items ≡ self.old.dones.items }
    {
        close_each(self.dones.make_contiguous(), self.key.as_ref());
    }

    /// Asks the book for what it hasn't told yet: a key isn't there from the first.
    pub fn learn(&mut self, desk: &Desk<L>)
        ensures rest { self.new.tally ≡ self.old.tally }
        ensures lines { (self.new.jobs ≡ self.old.jobs) × (self.new.dones ≡ self.old.dones) }
    {
        let number = self.tally.guest();
        if self.limits.is_none() {
            self.limits = desk.limits_of(number);
        }
        if self.key.is_none() {
            self.key = desk.mac_key_of(number);
        }
    }

    /// Submits the jobs, the oldest first, until one stays. How many the book answered, and whether
    /// one waits for room in the history.
    pub fn submit_all(
        &mut self,
        desk: &mut Desk<L>,
        alloc: Global,
    ) -> Result<(usize, bool), HostFault>
        ensures rest { (self.new.tally.guest ≡ self.old.tally.guest)
            × (self.new.dones ≡ self.old.dones) }
        ensures count { IfOk result (λ r. self.new.tally.count ≡ self.old.tally.count + r.0) }
        ensures jobs { IfOk result (λ r. Flows self.old.jobs.items 0 r.0 self.new.jobs.items) }
    {
        for i in 0..BATCH {
            match self.submit(desk, alloc)? {
                Handed::Answered => {}
                Handed::Nothing => return Ok((i, false)),
                Handed::Busy => return Ok((i, false)),
                Handed::Full => return Ok((i, true)),
            }
        }
        Ok((BATCH, false))
    }

    /// Collects a reply that may leave. Whether there was one.
    fn collect(&mut self, desk: &mut Desk<L>) -> Result<bool, HostFault>
        ensures rest { (self.new.tally ≡ self.old.tally) × (self.new.jobs ≡ self.old.jobs) }
        ensures collects { IfOk result (λ is.
            Collects desk.old self.old.tally.guest self.old.dones.items is desk.new
            self.new.dones.items) }
    {
        if self.dones.try_reserve(1).is_err() {
            return Err(HostFault::NoMemory);
        }
        match desk.collect(self.tally.guest()) {
            Some(done) => {
                self.dones.push_back_reserved(done);
                self.collected = self.collected.saturating_add(1);
                Ok(true)
            }
            None => Ok(false),
        }
    }

    /// Collects the replies that may leave, up to a batch. How many those are.
    pub fn collect_all(&mut self, desk: &mut Desk<L>) -> Result<usize, HostFault>
        ensures rest { (self.new.tally ≡ self.old.tally) × (self.new.jobs ≡ self.old.jobs) }
        ensures replies { IfOk result (λ n. Flows self.old.dones.items n 0 self.new.dones.items) }
    {
        let room = BATCH.saturating_sub(self.dones.len());
        for i in 0..room {
            if !self.collect(desk)? {
                return Ok(i);
            }
        }
        Ok(room)
    }

    /// Whether the book has something for it to do: a job waits, or a reply is held.
    pub fn needs_book(&self) -> bool {
        !self.jobs.is_empty() || self.collected != self.tally.count()
    }

    /// Whether nothing lies between the device and the book, and all replies have left it: as long
    /// as one is held, the history can't roll over it.
    pub fn is_empty(&self) -> bool
        ensures { result ≡ true → (self.now.jobs.items ≡ []) × (self.now.dones.items ≡ [])
            × (self.now.collected ≡ self.now.tally.count) }
    {
        self.jobs.is_empty() && self.dones.is_empty() && self.collected == self.tally.count()
    }

    /// The number of its guest.
    pub fn number(&self) -> u16
        ensures { result ≡ self.now.tally.guest }
    {
        self.tally.guest()
    }

    /// Its share, and what its worker leaves.
    pub fn into_served(self) -> (Share<L>, Served)
        ensures part { result.0.parts ≡ 1 }
        ensures counted { result.0.amount ≡ result.1.tally.count }
        ensures tally { result.1.tally ≡ self.tally }
    {
        let Backlog {
            tally,
            share,
            receipts,
            collected: _,
            jobs: _,
            dones: _,
            limits: _,
            key: _,
            spares: _,
        } = self;
        (share, Served { tally, receipts })
    }
}

/// Prepares each job, with what is spare.
fn prepare_each(
    alloc: Global,
    jobs: &mut [Checked],
    limits: Limits,
    key: Option<&MacKey>,
    spares: &mut Vec<Rooms>,
)
    ensures { jobs.new ≡ jobs.old }
{
    for job in jobs.iter_mut() {
        let spare = match spares.pop() {
            Some(spare) => spare,
            None => Rooms::none(alloc),
        };
        job.prepare(alloc, limits, key, spare);
    }
}

/// Makes the MAC of each reply.
fn close_each(dues: &mut [Due], key: Option<&MacKey>)
    ensures { dues.new ≡ dues.old }
{
    for due in dues.iter_mut() {
        due.close(key);
    }
}
