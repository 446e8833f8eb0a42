//! What guests are told that are served at once is what each is told by a host that serves one
//! chain at a time.
use crate::tests::runs::{Ending, Look, run_openly};
use crate::tests::scene::{Step, adds_script, check, formatted, script_of, setup_of};
use board::Board;
use disk::MemDisk;
use host::{Answer, Host};
use std::alloc::Global;
use std::sync::Wait;
use std::test::Fail;
use std::thread::Threads;
use workers::{DriverEnd, Order, Script};

/// The replies to a guest's chains, one after another.
pub type Replies = Vec<Vec<u8>>;

/// A guest of this number: its own key, its counter under several nonces, a reset between.
pub fn steps_of(guest: u8) -> [Step; 8] {
    [
        Step::Counter(u128::from(guest)),
        Step::Key(guest),
        Step::Counter(1),
        Step::Counter(2),
        Step::Counter(3),
        Step::Reset,
        Step::Key(guest),
        Step::Counter(9),
    ]
}

/// A host. The method promises nothing, so that what stands above it is proved without a host's
/// contracts.
trait Tells {
    /// Carries an order out, and appends the reply, where it has one.
    fn tell(&mut self, guest: u16, order: &Order, replies: &mut Replies) -> bool;
}

impl Tells for Host<MemDisk> {
    fn tell(&mut self, guest: u16, order: &Order, replies: &mut Replies) -> bool {
        match order {
            Order::Reset => self.reset(guest).is_ok(),
            Order::Chain(chain) => match self.chain(guest, chain.readable(), chain.writable()) {
                Ok(Answer::Used(reply)) => replies.push(reply).is_ok(),
                _ => false,
            },
        }
    }
}

/// What the host tells a guest, one chain after another.
fn told<H: Tells>(alloc: Global, host: &mut H, guest: u16, orders: &[Order]) -> Option<Replies> {
    let mut replies = Vec::new(alloc);
    for order in orders {
        if !host.tell(guest, order, &mut replies) {
            return None;
        }
    }
    Some(replies)
}

/// The same of all guests, each in turn.
fn all_told<H: Tells>(alloc: Global, host: &mut H, scripts: &[Script]) -> Option<Vec<Replies>> {
    let mut all = Vec::new(alloc);
    for (guest, script) in (0..u16::MAX).zip(scripts.iter()) {
        let Some(replies) = told(alloc, host, guest, script.orders()) else {
            return None;
        };
        if all.push(replies).is_err() {
            return None;
        }
    }
    Some(all)
}

fn host_of(alloc: Global, guests: usize) -> Option<Host<MemDisk>> {
    let Some(setup) = setup_of(alloc, guests) else {
        return None;
    };
    let Some(disk) = formatted(alloc, guests) else {
        return None;
    };
    match Board::open(alloc, disk, 1, setup.board()) {
        Ok(opened) => Host::new(alloc, opened, &setup).ok(),
        Err(_) => None,
    }
}

/// What all guests are told alone, by a host on a fresh image.
pub fn all_alone(alloc: Global, scripts: &[Script]) -> Option<Vec<Replies>> {
    match host_of(alloc, scripts.len()) {
        Some(mut host) => all_told(alloc, &mut host, scripts),
        None => None,
    }
}

/// Whether these are the replies.
pub fn are_replies(answers: &[Answer], replies: &[Vec<u8>]) -> bool {
    for (answer, reply) in answers.iter().zip(replies.iter()) {
        match answer {
            Answer::Used(told) if told.as_slice() == reply.as_slice() => {}
            _ => return false,
        }
    }
    answers.len() == replies.len()
}

/// Whether each guest was told what it is told alone.
fn are_all_told(drivers: &[DriverEnd], alone: &[Replies]) -> bool {
    for (driver, replies) in drivers.iter().zip(alone.iter()) {
        if !are_replies(&driver.answers, replies) {
            return false;
        }
    }
    drivers.len() == alone.len()
}

/// Each guest was told what it is told alone, which is so many replies.
#[derive(Clone, Copy)]
struct Alone<'a>(&'a [Replies], u64);

impl<'a> Look for Alone<'a> {
    fn is_met<E: Ending>(&self, ended: &E) -> bool {
        !ended.has_broken() && ended.turns() == self.1 && are_all_told(ended.drivers(), self.0)
    }
}

fn scripts_of(alloc: Global, guests: u8) -> Option<Vec<Script>> {
    let mut scripts = Vec::new(alloc);
    let mut made = true;
    for guest in 0..guests {
        made = made && adds_script(&mut scripts, script_of(alloc, &steps_of(guest)));
    }
    if made { Some(scripts) } else { None }
}

/// Whether a run of these scripts tells each guest what it is told alone, which is so many replies
/// in all.
pub fn are_told_alike<R: Threads + Wait + Sync>(
    rt: &R,
    alloc: Global,
    scripts: &[Script],
    alone: &[Replies],
    turns: u64,
) -> bool {
    run_openly(rt, alloc, &[], scripts, &Alone(alone, turns)) == Some(Ok(true))
}

/// So many guests are told at once what each is told alone.
fn are_told<R: Threads + Wait + Sync>(rt: &R, alloc: Global, guests: u8) -> bool {
    let Some(scripts) = scripts_of(alloc, guests) else {
        return false;
    };
    match all_alone(alloc, &scripts) {
        Some(alone) => are_told_alike(rt, alloc, &scripts, &alone, 7 * u64::from(guests)),
        None => false,
    }
}

#[test]
fn guests_are_told_at_once_what_each_is_told_alone(rt: HostRuntime) -> Result<(), Fail> {
    check(
        are_told(&rt, rt.alloc(), 1) && are_told(&rt, rt.alloc(), 8),
        "another outcome",
    )
}
