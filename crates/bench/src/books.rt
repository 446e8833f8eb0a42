//! How long a worker of `rpmbd serve` calls the book, which it does under the book's lock: a Submit
//! and a Collect for each request. Beside it stands what it does with no lock held: the MACs, and
//! the memory of the answers. Waits for the lock, and the flusher's work under it, aren't here.
use crate::batches::{Subject, time_kind};
use crate::clock::{Extent, NO_MEMORY, Row, Stop, Times, Took, now, plus, print_row, since};
use crate::images::{LIFE, new_image};
use crate::requests::{KEY, Kind, mixed};
use board::{Board, Parts};
use chains::Range;
use disk::Disk;
use flusher::Made;
use guest_driver::BoardSetup;
use hmac256::MacKey;
use mmio_transport::{Job, RingKind};
use rpmb_book::{Checked, Due, Rooms};
use rpmb_frame::{GuestConfig, Limits};
use std::alloc::Global;
use std::collections::VecDeque;

/// More calls than any store has before it.
const CALLS: u32 = 1_000_000;

/// A book and its store. Its methods promise nothing, for the same reason as those of `Subject`.
trait Desk: Drop {
    /// Has the book answer a job; what memory is left.
    fn submit(&mut self, alloc: Global, job: Checked) -> Result<Rooms, Stop>;

    /// Takes the next reply that may leave, without its MAC.
    fn collect(&mut self) -> Option<Due>;

    /// Gives the store the next intent, where one waits and a slot is free; makes the store's next
    /// call, and tells the book what it settled. Whether there was one.
    fn advance(&mut self) -> Result<bool, Stop>;
}

fn hand_over<D: Disk>(parts: &mut Parts<D>) -> Result<(), Stop> {
    if !parts.store.is_free(0) {
        return Ok(());
    }
    match parts.book.take(&mut parts.shares, 0) {
        Ok(Some(intent)) if parts.store.takes(&intent) => {
            parts.store.give(intent);
            Ok(())
        }
        Ok(None) => Ok(()),
        _ => Err("an intent that can't be given"),
    }
}

fn next_call<D: Disk>(parts: &mut Parts<D>) -> Result<bool, Stop> {
    match parts.store.advance() {
        Ok(Made::Idle) => Ok(false),
        Ok(Made::Wrote) => Ok(true),
        Ok(Made::Synced) => match parts.book.settle(&parts.shares, parts.store.marks()) {
            Ok(()) => Ok(true),
            Err(_) => Err("marks that aren't settled"),
        },
        Err(_) => Err("a call that failed"),
    }
}

impl<D: Disk + Drop> Desk for Parts<D> {
    fn submit(&mut self, alloc: Global, job: Checked) -> Result<Rooms, Stop> {
        match self.tallies.get_mut(0) {
            Some(tally) => match self.book.submit_checked(alloc, tally, job) {
                Ok((_, rooms)) => Ok(rooms),
                Err(_) => Err("a job that is refused"),
            },
            None => Err("no such guest"),
        }
    }

    fn collect(&mut self) -> Option<Due> {
        self.book.collect_due(0)
    }

    fn advance(&mut self) -> Result<bool, Stop> {
        match hand_over(self) {
            Ok(()) => next_call(self),
            Err(stop) => Err(stop),
        }
    }
}

/// What is done for a request, one after the other.
#[derive(Clone, Copy)]
enum Step {
    Prepare,
    Submit,
    Collect,
    Publish(Kind),
}

/// A book that answers jobs, the store that keeps what it accepts, and what lies before and behind
/// them.
#[derive(Drop)]
struct Books<D: Desk> {
    alloc: Global,
    desk: D,
    limits: Limits,
    key: MacKey,
    jobs: VecDeque<Checked>,
    /// Memory that answers have left, for the next ones.
    spare: Vec<Rooms>,
    dues: VecDeque<Due>,
    sum: u32,
}

fn books_of<D: Desk>(alloc: Global, desk: D) -> Books<D> {
    Books {
        alloc,
        desk,
        limits: Limits::of(&GuestConfig::of_capacity(1)),
        key: MacKey::new(&KEY),
        jobs: VecDeque::new(alloc),
        spare: Vec::new(alloc),
        dues: VecDeque::new(alloc),
        sum: 0,
    }
}

/// The job of a request, with room for its reply, which no device gave.
fn job_of(alloc: Global, kind: Kind, counter: u32) -> Result<Job, Stop> {
    let mut request = Vec::new(alloc);
    let put = kind.put(&mut request, counter);
    let room = Range {
        at: 0,
        len: kind.writable(),
    };
    match Vec::from_slice(alloc, &[room]) {
        Ok(writable) if put.is_ok() => Ok(Job::of(0, 1, 0, 1, writable, request)),
        _ => Err(NO_MEMORY),
    }
}

impl<D: Desk> Books<D> {
    /// Makes of the job of this number what can be made before the book has it.
    fn prepare(&mut self, number: usize) -> Result<(), Stop> {
        let spare = self.spare.pop().unwrap_or(Rooms::none(self.alloc));
        match self.jobs.get_mut(number) {
            Some(job) => {
                job.prepare(self.alloc, self.limits, Some(&self.key), spare);
                Ok(())
            }
            None => Err("no job"),
        }
    }

    fn submit(&mut self) -> Result<(), Stop> {
        match self.jobs.pop_front() {
            Some(job) => match self.desk.submit(self.alloc, job) {
                Ok(rooms) => self.spare.push(rooms).ok().ok_or(NO_MEMORY),
                Err(stop) => Err(stop),
            },
            None => Err("no job"),
        }
    }

    fn collect(&mut self) -> Result<(), Stop> {
        match self.desk.collect() {
            Some(due) => self.dues.push_back(due).ok().ok_or(NO_MEMORY),
            None => Err("a reply that doesn't leave"),
        }
    }

    /// Makes the MAC of a reply, mixes it, and lets it go.
    fn publish(&mut self, kind: Kind) -> Result<(), Stop> {
        let Some(due) = self.dues.pop_front() else {
            return Err("no reply");
        };
        let mixed = mixed(kind, due.done(Some(&self.key)).reply(), self.sum);
        self.sum = mixed.unwrap_or(0);
        mixed.and(Ok(()))
    }

    /// Takes a step of the request of this number.
    fn step(&mut self, step: Step, number: usize) -> Result<(), Stop> {
        match step {
            Step::Prepare => self.prepare(number),
            Step::Submit => self.submit(),
            Step::Collect => self.collect(),
            Step::Publish(kind) => self.publish(kind),
        }
    }

    /// Takes a step of so many requests; answers the time.
    fn time_steps(&mut self, rt: &HostRuntime, step: Step, count: usize) -> Took {
        let start = now(rt);
        let mut all = Ok(());
        for number in 0..count {
            all = all.and(self.step(step, number));
        }
        all.and(since(rt, start))
    }

    /// Settles all writes that were accepted.
    fn settle_all(&mut self) -> Result<(), Stop> {
        for _ in 0..CALLS {
            match self.desk.advance() {
                Ok(true) => {}
                Ok(false) => return Ok(()),
                Err(stop) => return Err(stop),
            }
        }
        Err("a store that doesn't come to its end")
    }
}

impl<D: Desk> Subject for Books<D> {
    fn offer(&mut self, kind: Kind, counter: u32) -> Result<(), Stop> {
        match job_of(self.alloc, kind, counter) {
            Ok(job) => {
                let job = Checked::plain(self.alloc, job);
                self.jobs.push_back(job).ok().ok_or(NO_MEMORY)
            }
            Err(stop) => Err(stop),
        }
    }

    fn answer(&mut self, rt: &HostRuntime, kind: Kind) -> Times {
        let count = self.jobs.len();
        let prepared = self.time_steps(rt, Step::Prepare, count);
        let submitted = self.time_steps(rt, Step::Submit, count);
        let settled = self.settle_all();
        let collected = self.time_steps(rt, Step::Collect, count);
        let published = self.time_steps(rt, Step::Publish(kind), count);
        Times {
            own: settled.and(plus(submitted, collected)),
            base: plus(prepared, published),
        }
    }

    fn sum(&self) -> u32 {
        self.sum
    }
}

/// A book and its store over an image, of which nothing was asked yet.
fn parts_on<D: Disk + Drop>(alloc: Global, disk: D, setup: &BoardSetup) -> Result<Parts<D>, Stop> {
    match Board::open(alloc, disk, LIFE, setup.board()) {
        Ok(board) => Ok(board.into_parts()),
        Err(_) => Err("no image of the board"),
    }
}

fn time_desk<D: Desk>(
    rt: &HostRuntime,
    extent: Extent,
    desk: D,
    name: &'static str,
    kind: Kind,
) -> Row {
    let mut books = books_of(rt.alloc(), desk);
    let names = (name, "what is done outside of the lock");
    time_kind(rt, &mut books, kind, extent, names)
}

fn time_parts<D: Disk + Drop>(
    rt: &HostRuntime,
    extent: Extent,
    (setup, disk): (BoardSetup, D),
    name: &'static str,
    kind: Kind,
) -> Result<Row, Stop> {
    match parts_on(rt.alloc(), disk, &setup) {
        Ok(parts) => Ok(time_desk(rt, extent, parts, name, kind)),
        Err(stop) => Err(stop),
    }
}

/// What a row is called, and of which kind the requests are.
type Asks = (&'static str, Kind);

fn time_locked(rt: &HostRuntime, extent: Extent, (name, kind): Asks) -> Result<(), Stop> {
    let image = new_image(rt.alloc(), RingKind::Split)?;
    let row = time_parts(rt, extent, image, name, kind)?;
    print_row(rt, extent, &row)
}

static ROWS: [Asks; 3] = [
    ("lock, counter", Kind::Counter),
    ("lock, write of 1 block", Kind::Write),
    ("lock, read of 16 blocks", Kind::Read),
];

/// Times how long the lock is held for a request of each kind.
pub fn time_lock(rt: &HostRuntime, extent: Extent) -> Result<(), Stop> {
    let mut all = Ok(());
    for asks in &ROWS {
        all = all.and(time_locked(rt, extent, *asks));
    }
    all
}
