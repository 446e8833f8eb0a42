//! As many requests as a history holds, and one more, at which it rolls.
use crate::tests::runs::{Ending, Look, run_openly};
use crate::tests::scene::{check, reads, result_read, scripts_of};
use host::Answer;
use rpmb_book::Receipt;
use std::alloc::Global;
use std::sync::Wait;
use std::test::Fail;
use std::thread::Threads;

/// The first turn of the book that a receipt finds.
fn first_of<E: Ending>(ended: &E, receipts: &[Receipt]) -> u128 {
    for receipt in receipts {
        if ended.found(receipt).is_some() {
            return receipt.number;
        }
    }
    u128::MAX
}

/// The first turn of the book that a receipt of any guest finds.
fn first_found<E: Ending>(ended: &E) -> u128 {
    let mut first = u128::MAX;
    for one in ended.served() {
        first = first.min(first_of(ended, &one.receipts));
    }
    first
}

/// Whether each receipt finds a request for the result and a reply from this turn on, and none
/// before.
fn are_found_from<E: Ending>(ended: &E, receipts: &[Receipt], first: u128) -> bool {
    let request = result_read();
    for receipt in receipts {
        let is_right = match ended.found(receipt) {
            Some((found, length)) => {
                receipt.number >= first && found == request.as_slice() && length == 512
            }
            None => receipt.number < first,
        };
        if !is_right {
            return false;
        }
    }
    true
}

fn are_replies(answers: &[Answer]) -> bool {
    for answer in answers {
        match answer {
            Answer::Used(reply) if reply.len() == 512 => {}
            _ => return false,
        }
    }
    true
}

/// Whether a guest has so many receipts, of which those from this turn on find their requests, and
/// a reply for each.
fn has_all<E: Ending>(ended: &E, guest: usize, chains: u16, first: u128) -> bool {
    let ends = (ended.served().get(guest), ended.drivers().get(guest));
    let (Some(served), Some(driver)) = ends else {
        return false;
    };
    let count = usize::from(chains);
    served.receipts.len() == count
        && driver.answers.len() == count
        && are_replies(&driver.answers)
        && are_found_from(ended, &served.receipts, first)
}

/// So many requests of guest 0, and so many of guest 1, were answered. Where there are more than a
/// history holds, those up to some turn were folded, the first turn at least and not the last, and
/// the others are found.
#[derive(Clone, Copy)]
struct AllAnswered(u16, u16);

impl Look for AllAnswered {
    fn is_met<E: Ending>(&self, ended: &E) -> bool {
        let turns = u64::from(self.0) + u64::from(self.1);
        let first = first_found(ended);
        ended.turns() == turns
            && first != u128::MAX
            && (first > 0) == (turns > 16_384)
            && has_all(ended, 0, self.0, first)
            && has_all(ended, 1, self.1, first)
    }
}

/// A run of two guests with so many chains, all of which are answered.
fn run_reads<R: Threads + Wait + Sync>(rt: &R, alloc: Global, look: AllAnswered) -> bool {
    let (Some(first), Some(second)) = (reads(alloc, look.0), reads(alloc, look.1)) else {
        return false;
    };
    match scripts_of(alloc, &[first.as_slice(), second.as_slice()]) {
        Some(scripts) => run_openly(rt, alloc, &[], &scripts, &look) == Some(Ok(true)),
        None => false,
    }
}

#[test]
fn requests_16384_have_their_answers(rt: HostRuntime) -> Result<(), Fail> {
    let answered = run_reads(&rt, rt.alloc(), AllAnswered(8_192, 8_192));
    check(answered, "another outcome")
}

#[test]
fn one_request_more_rolls_the_history(rt: HostRuntime) -> Result<(), Fail> {
    let answered = run_reads(&rt, rt.alloc(), AllAnswered(8_192, 8_193));
    check(answered, "another outcome")
}
