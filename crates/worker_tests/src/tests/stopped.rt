//! A guest whose device has stopped, beside others that go on.
use crate::tests::alone::{Replies, all_alone, are_replies, steps_of};
use crate::tests::devices::{AVAILABLE, DESCRIPTORS, Other, REPLY, REQUEST, descriptor, outside};
use crate::tests::runs::{Ending, Look, run_openly};
use crate::tests::scene::{Step, check, get_write_counter, scripts_of};
use host::{Answer, Stuck};
use std::alloc::Global;
use std::sync::Wait;
use std::test::Fail;
use std::thread::Threads;
use workers::Script;

/// Where the driver's used ring has its index, for a queue of 16 places.
const USED_INDEX: u64 = 306;

/// What an available ring holds whose one chain begins with the first descriptor: flags, the index
/// and the head.
static ONE_CHAIN: [u8; 6] = [0, 0, 1, 0, 0, 0];

/// What guest 1 does: three chains, a reset, and two chains.
static WITH_RESET: [Step; 6] = [
    Step::Counter(1),
    Step::Key(0x11),
    Step::Counter(2),
    Step::Reset,
    Step::Key(0x11),
    Step::Counter(3),
];

/// The scripts of three guests, of which guest 1 does these steps.
fn three_scripts(alloc: Global, second: &[Step]) -> Option<Vec<Script>> {
    let (first, third) = (steps_of(0), steps_of(2));
    scripts_of(alloc, &[first.as_slice(), second, third.as_slice()])
}

/// The first three chains have no reply, for this reason, and there are five.
fn are_stuck(answers: &[Answer], stuck: Stuck) -> bool {
    for answer in answers.iter().take(3) {
        match answer {
            Answer::Stuck(why) if *why == stuck => {},
            _ => return false,
        }
    }
    answers.len() == 5
}

/// Guest 1 is stuck for this reason until its reset; all else is what each guest is told alone, and
/// so many requests were answered.
#[derive(Clone, Copy)]
struct OneIsStuck<'a> {
    alone: &'a [Replies],
    stuck: Stuck,
    turns: u64,
}

impl<'a> Look for OneIsStuck<'a> {
    fn is_met<E: Ending>(&self, ended: &E) -> bool {
        let ([first, second, third], [one, two, three]) = (ended.drivers(), self.alone) else {
            return false;
        };
        let behind = second.answers.get(3..).unwrap_or(&[]);
        ended.turns() == self.turns
            && are_stuck(&second.answers, self.stuck)
            && are_replies(&first.answers, one)
            && are_replies(behind, two)
            && are_replies(&third.answers, three)
    }
}

/// What the guests are told alone, guest 1 behind its reset.
fn told_alone(alloc: Global) -> Option<Vec<Replies>> {
    match three_scripts(alloc, &WITH_RESET[4..]) {
        Some(scripts) => all_alone(alloc, &scripts),
        None => None,
    }
}

/// A run of three guests, of which guest 1 has this device, and is stuck for this reason. So many
/// of its requests were answered.
fn is_stuck<R: Threads + Wait + Sync>(
    rt: &R,
    alloc: Global,
    other: Other<'_>,
    stuck: Stuck,
    turns: u64,
) -> bool {
    let Some(scripts) = three_scripts(alloc, &WITH_RESET) else {
        return false;
    };
    let Some(alone) = told_alone(alloc) else {
        return false;
    };
    let look = OneIsStuck {
        alone: &alone,
        stuck,
        turns: turns.saturating_add(14),
    };
    run_openly(rt, alloc, &[(1, other)], &scripts, &look) == Some(Ok(true))
}

/// A device whose queue holds a chain that leaves guest memory, at which it will stop.
#[test]
fn a_device_that_stops_leaves_the_others_alone(rt: HostRuntime) -> Result<(), Fail> {
    let chain = outside();
    let stores = [
        (DESCRIPTORS, chain.as_slice()),
        (AVAILABLE, ONE_CHAIN.as_slice()),
    ];
    let other = Other::Ready(stores.as_slice());
    check(
        is_stuck(&rt, rt.alloc(), other, Stuck::NeedsReset, 2),
        "another outcome",
    )
}

/// A device that has stopped at that chain.
#[test]
fn a_device_that_isnt_in_service_leaves_the_others_alone(rt: HostRuntime) -> Result<(), Fail> {
    let chain = outside();
    let stores = [
        (DESCRIPTORS, chain.as_slice()),
        (AVAILABLE, ONE_CHAIN.as_slice()),
    ];
    let other = Other::Stopped(stores.as_slice());
    check(
        is_stuck(&rt, rt.alloc(), other, Stuck::NoAnswer, 2),
        "another outcome",
    )
}

/// A device whose queue holds a request whose reply ends in the driver's used ring, with a nonce of
/// ones. This request is answered too.
#[test]
fn a_device_that_answers_nonsense_leaves_the_others_alone(rt: HostRuntime) -> Result<(), Fail> {
    let chain = [
        descriptor(REQUEST, 512, 1, 1),
        descriptor(REPLY, 484, 3, 2),
        descriptor(USED_INDEX, 28, 2, 0),
    ];
    let request = get_write_counter(u128::MAX);
    let stores = [
        (DESCRIPTORS, chain.as_flattened()),
        (AVAILABLE, ONE_CHAIN.as_slice()),
        (REQUEST, request.as_slice()),
    ];
    let other = Other::Ready(stores.as_slice());
    check(
        is_stuck(&rt, rt.alloc(), other, Stuck::BadUsed, 3),
        "another outcome",
    )
}
