//! Guests that are served at once: what threads do beside each other, and what a run of them
//! leaves.
use crate::tests::gates::{HoldsOne, HoldsTillSync, TURNS, WaitsInSync, Watch};
use crate::tests::runs::{Ending, Ends, Look, run, run_openly};
use crate::tests::scene::{
    Step, check, formatted, get_write_counter, program_key, scripts_of, tail_of,
};
use disk::HookDisk;
use host::Answer;
use rpmb_book::Receipt;
use std::alloc::Global;
use std::sync::Wait;
use std::test::Fail;
use std::thread::Threads;
use workers::{DriverEnd, Served};

/// A run in which this guest's worker is held, and not in vain.
fn run_held<R: Threads + Wait + Sync>(rt: &R, alloc: Global, held: u16) -> bool {
    let watch = Watch::new(TURNS);
    let Some(scripts) = scripts_of(alloc, &[&[Step::Counter(1)], &[Step::Counter(1)]]) else {
        return false;
    };
    let Some(disk) = formatted(alloc, 2) else {
        return false;
    };
    let gate = HoldsOne(&watch, held);
    let ended = run(rt, alloc, disk, &[], &scripts, &gate, &Ends);
    ended == Some(Ok(true)) && !watch.is_late()
}

#[test]
fn each_worker_runs_beside_the_other(rt: HostRuntime) -> Result<(), Fail> {
    check(
        run_held(&rt, rt.alloc(), 0) && run_held(&rt, rt.alloc(), 1),
        "a guest was held in vain",
    )
}

fn run_beside_a_sync<R: Threads + Wait + Sync>(rt: &R, alloc: Global) -> bool {
    let watch = Watch::new(TURNS);
    let Some(scripts) = scripts_of(alloc, &[&[Step::Key(0x11)], &[Step::Counter(1)]]) else {
        return false;
    };
    let Some(disk) = formatted(alloc, 2) else {
        return false;
    };
    let disk = HookDisk::new(disk, WaitsInSync(&watch));
    let gate = HoldsTillSync(&watch);
    let ended = run(rt, alloc, disk, &[], &scripts, &gate, &Ends);
    ended == Some(Ok(true)) && !watch.is_late()
}

#[test]
fn workers_run_beside_a_sync(rt: HostRuntime) -> Result<(), Fail> {
    let beside = run_beside_a_sync(&rt, rt.alloc());
    check(beside, "the sync was held in vain")
}

/// The tail of the reply to a key that was programmed, and of a counter's that stands at 0.
pub const PROGRAMMED: [u8; 12] = [0, 0, 0, 0, 0, 0, 0, 1, 0, 0, 1, 0];

const AT_ZERO: [u8; 12] = [0, 0, 0, 0, 0, 0, 0, 1, 0, 0, 2, 0];

/// Whether an answer is a reply with these last twelve bytes.
pub fn is_reply(answer: Option<&Answer>, tail: &[u8; 12]) -> bool {
    match answer {
        Some(Answer::Used(reply)) => tail_of(reply) == tail.as_slice(),
        _ => false,
    }
}

/// Two guests were served to their ends: each was told that its key is programmed and that its
/// counter stands at 0, and has a receipt for each request, which finds it and the reply.
#[derive(Clone, Copy)]
struct TwoServed {
    alloc: Global,
}

impl TwoServed {
    /// The receipt finds this request, and the reply that was given.
    fn finds<E: Ending>(
        &self,
        ended: &E,
        receipt: Option<&Receipt>,
        request: &[u8],
        answer: Option<&Answer>,
    ) -> bool {
        let (Some(receipt), Some(Answer::Used(reply))) = (receipt, answer) else {
            return false;
        };
        let is_found = match ended.found(receipt) {
            Some((found, _)) => found == request,
            None => false,
        };
        is_found
            && match ended.reply(self.alloc, receipt) {
                Some(closed) => closed.as_slice() == reply.as_slice(),
                None => false,
            }
    }

    fn is_served<E: Ending>(&self, ended: &E, served: &Served, driver: &DriverEnd) -> bool {
        let (receipts, answers) = (&served.receipts, &driver.answers);
        let key = program_key(&[0x11; 32]);
        let counter = get_write_counter(1);
        served.tally.count() == 2
            && receipts.len() == 2
            && is_reply(answers.get(0), &PROGRAMMED)
            && is_reply(answers.get(1), &AT_ZERO)
            && self.finds(ended, receipts.get(0), key.as_flattened(), answers.get(0))
            && self.finds(ended, receipts.get(1), &counter, answers.get(1))
    }
}

impl Look for TwoServed {
    fn is_met<E: Ending>(&self, ended: &E) -> bool {
        let ([one, other], [first, second]) = (ended.served(), ended.drivers()) else {
            return false;
        };
        !ended.has_broken()
            && ended.turns() == 4
            && self.is_served(ended, one, first)
            && self.is_served(ended, other, second)
    }
}

/// Whether a run in which both guests do these steps is one in which two guests are served. `None`
/// where there is no such run.
fn are_served<R: Threads + Wait + Sync>(rt: &R, alloc: Global, steps: &[Step]) -> Option<bool> {
    let Some(scripts) = scripts_of(alloc, &[steps, steps]) else {
        return None;
    };
    match run_openly(rt, alloc, &[], &scripts, &TwoServed { alloc }) {
        Some(Ok(is)) => Some(is),
        _ => None,
    }
}

#[test]
fn two_guests_each_with_a_key_and_a_counter(rt: HostRuntime) -> Result<(), Fail> {
    let served = are_served(&rt, rt.alloc(), &[Step::Key(0x11), Step::Counter(1)]);
    check(served == Some(true), "two guests that are served")
}

/// A run that serves nobody doesn't pass for it.
#[test]
fn a_run_that_serves_nobody_is_caught(rt: HostRuntime) -> Result<(), Fail> {
    let nothing = are_served(&rt, rt.alloc(), &[]);
    check(nothing == Some(false), "a run of nothing passed")
}
