//! A worker that waits for the history: the first reply of it is another guest's, and needs a sync
//! that is held back.
use crate::tests::devices::{AVAILABLE, DESCRIPTORS, Other, REPLY, REQUEST, descriptor, outside};
use crate::tests::gates::slept_till;
use crate::tests::runs::{Ending, Look, run};
use crate::tests::scene::{Step, check, formatted, program_key, reads, scripts_of};
use crate::tests::threads::{PROGRAMMED, is_reply};
use disk::{Hook, HookDisk};
use std::alloc::Global;
use std::sync::Wait;
use std::sync::atomic::{AtomicBool, AtomicU64, Ordering};
use std::test::Fail;
use std::thread;
use std::thread::Threads;
use std::time::{Clock, Duration};
use workers::{Gate, Place, Script, Who};

/// How many requests a history holds: guest 0's key, and one less than guest 1 asks.
const SUBMITS: u16 = 16_384;

/// What a hook and a gate tell each other.
#[derive(Drop)]
struct Watch<'a, C: Clock> {
    clock: &'a C,
    /// The threads run: the opening of the board made a sync too.
    running: AtomicBool,
    /// Guest 0's key is in the book.
    asked: AtomicBool,
    /// How many jobs guest 1's worker has popped, and how many the book has answered.
    pops: AtomicU64,
    submits: AtomicU64,
    /// It has popped the last one.
    is_full: AtomicBool,
    /// The first sync was held back.
    held: AtomicBool,
    /// How many were answered by the end of that.
    answered: AtomicU64,
    /// A thread was held in vain.
    late: AtomicBool,
}

impl<'a, C: Clock> Watch<'a, C> {
    fn new(clock: &'a C) -> Watch<'a, C> {
        Watch {
            clock,
            running: AtomicBool::new(false),
            asked: AtomicBool::new(false),
            pops: AtomicU64::new(0),
            submits: AtomicU64::new(0),
            is_full: AtomicBool::new(false),
            held: AtomicBool::new(false),
            answered: AtomicU64::new(0),
            late: AtomicBool::new(false),
        }
    }

    fn wait(&self, flag: &AtomicBool) {
        if !slept_till(self.clock, flag) {
            self.late.store(true, Ordering::SeqCst);
        }
    }

    /// Guest 1's worker has popped: the first job after guest 0's key.
    fn popped(&self) {
        self.wait(&self.asked);
        let before = self.pops.fetch_add(1, Ordering::SeqCst);
        if before.saturating_add(1) == u64::from(SUBMITS) {
            self.is_full.store(true, Ordering::SeqCst);
        }
    }

    /// Whether guest 1's worker had waited for the sync, with all but one request answered.
    fn has_waited(&self) -> bool {
        let before = u64::from(SUBMITS - 1);
        self.held.load(Ordering::SeqCst)
            && !self.late.load(Ordering::SeqCst)
            && self.answered.load(Ordering::SeqCst) == before
    }
}

/// Holds the first sync back until guest 1's worker has popped its last job, and so long after that
/// the book has been asked to answer it.
#[derive(Clone, Copy)]
struct HoldsSync<'a, C: Clock>(&'a Watch<'a, C>);

impl<'a, C: Clock> Hook for HoldsSync<'a, C> {
    fn before_sync(&self) {
        let watch = self.0;
        if !watch.running.load(Ordering::SeqCst) || watch.held.load(Ordering::SeqCst) {
            return;
        }
        watch.wait(&watch.is_full);
        thread::sleep(watch.clock, Duration::from_millis(300));
        let answered = watch.submits.load(Ordering::SeqCst);
        watch.answered.store(answered, Ordering::SeqCst);
        watch.held.store(true, Ordering::SeqCst);
    }
}

#[derive(Clone, Copy)]
struct Tells<'a, C: Clock>(&'a Watch<'a, C>);

impl<'a, C: Clock> Gate for Tells<'a, C> {
    fn at(&self, who: Who, place: Place) {
        self.0.running.store(true, Ordering::SeqCst);
        match (who, place) {
            (Who::Worker(0), Place::Submitted) => self.0.asked.store(true, Ordering::SeqCst),
            (Who::Worker(1), Place::Popped) => self.0.popped(),
            (Who::Worker(1), Place::Submitted) => {
                let _ = self.0.submits.fetch_add(1, Ordering::SeqCst);
            }
            _ => {}
        }
    }
}

/// All requests of both guests were answered, and guest 0 was told that its key is programmed,
/// where it asked for that itself.
#[derive(Clone, Copy)]
struct BothAnswered {
    is_told: bool,
}

impl Look for BothAnswered {
    fn is_met<E: Ending>(&self, ended: &E) -> bool {
        let [first, second] = ended.drivers() else {
            return false;
        };
        ended.turns() == u64::from(SUBMITS) + 1
            && second.answers.len() == usize::from(SUBMITS)
            && is_reply(first.answers.get(0), &PROGRAMMED) == self.is_told
    }
}

/// A script of this step, and one of as many reads as a history holds.
fn two_scripts(alloc: Global, first: Step) -> Option<Vec<Script>> {
    match reads(alloc, SUBMITS) {
        Some(second) => scripts_of(alloc, &[&[first], second.as_slice()]),
        None => None,
    }
}

/// Whether guest 1's worker waits for the history, while the sync of guest 0's key is held back,
/// and both guests' requests are answered then.
fn run_held<R: Threads + Wait + Clock + Sync>(
    rt: &R,
    alloc: Global,
    other: Other<'_>,
    first: Step,
    look: BothAnswered,
) -> bool {
    let watch = Watch::new(rt);
    let Some(scripts) = two_scripts(alloc, first) else {
        return false;
    };
    let Some(disk) = formatted(alloc, 2) else {
        return false;
    };
    let disk = HookDisk::new(disk, HoldsSync(&watch));
    let others = [(0, other)];
    let ended = run(rt, alloc, disk, &others, &scripts, &Tells(&watch), &look);
    ended == Some(Ok(true)) && watch.has_waited()
}

#[test]
fn a_worker_waits_for_the_first_reply_of_the_history(rt: HostRuntime) -> Result<(), Fail> {
    let look = BothAnswered { is_told: true };
    check(
        run_held(&rt, rt.alloc(), Other::Own, Step::Key(0x11), look),
        "another outcome",
    )
}

/// What an available ring holds of two chains: flags, the index 2, and the heads 0 and 2.
static TWO_CHAINS: [u8; 8] = [0, 0, 2, 0, 0, 0, 2, 0];

/// Guest 0's queue holds its key request, and then a chain that leaves guest memory, at which its
/// device stops while the reply is held. Its worker stays until that reply has left, though its
/// driver has ended.
#[test]
fn the_reply_of_a_stopped_guest_leaves_the_history(rt: HostRuntime) -> Result<(), Fail> {
    let request = program_key(&[0x11; 32]);
    let chains = [
        descriptor(REQUEST, 1024, 1, 1),
        descriptor(REPLY, 512, 2, 0),
        outside(),
    ];
    let stores = [
        (DESCRIPTORS, chains.as_flattened()),
        (AVAILABLE, TWO_CHAINS.as_slice()),
        (REQUEST, request.as_flattened()),
    ];
    let other = Other::Ready(stores.as_slice());
    let look = BothAnswered { is_told: false };
    check(
        run_held(&rt, rt.alloc(), other, Step::Outcome, look),
        "another outcome",
    )
}
