//! Three guests that program their keys and write 1, 3 and 8 blocks, each request on its own or
//! several as one, on images of both versions: stopped within each call of the store in turn, and
//! once more within the first call after the opening; or with each call failing in turn. Each reply
//! leaves as soon as it may.

use crate::tests::acts::{Acts, Move};
use crate::tests::asked::Asked;
use crate::tests::image::Image;
use crate::tests::lives::{Lives, Tale, is_told};
use crate::tests::prefixes::check_guests;
use crate::tests::scene::check;
use board::StepFault;
use flusher::StoreFault;
use std::alloc::Global;
use std::test::Fail;
use world::{Publication, Refusal};

/// What a stop leaves in the places that weren't synced, by the numbers of `acts`: what the last
/// sync left, what reads gave, and 0x5a and 0xa5 in turn.
const FILLERS: [u8; 3] = [0, 1, 7];

/// When the guests ask: guest g makes its request n in turn `at[n] + 3 * g`. In each turn what may
/// go to the store does, then the store makes a call, and then the replies leave that may.
#[derive(Clone, Copy)]
struct Pace {
    image: Image,
    at: [u32; 4],
    /// As many turns as the guests need until all their replies have left and the store is idle.
    turns: u32,
}

/// Each request goes on its own.
static ALONE: Pace = Pace {
    image: Image::One,
    at: [0, 20, 40, 60],
    turns: 84,
};

/// A guest's three writes wait behind its key, and go as one.
static TOGETHER: Pace = Pace {
    image: Image::One,
    at: [0, 1, 1, 1],
    turns: 45,
};

/// A guest's next request goes into the other slot while the one before is on its way.
static BESIDE: Pace = Pace {
    image: Image::Two,
    at: [0, 8, 16, 24],
    turns: 72,
};

/// A guest's three writes go as one beside its key.
static TOGETHER_BESIDE: Pace = Pace {
    image: Image::Two,
    at: [0, 1, 1, 1],
    turns: 42,
};

/// A guest's request of this number: its key, and writes of 1, 3 and 8 blocks, which overlap in
/// part. Those of guest 2 reach the last block.
fn request_of(guest: u16, number: usize) -> Asked {
    let first = if guest == 2 { 504 } else { guest };
    match number {
        0 => Asked::Key(0x11),
        1 => Asked::Blocks(first, 1, 0),
        2 => Asked::Blocks(first.saturating_add(1), 3, 1),
        _ => Asked::Blocks(first, 8, 2),
    }
}

/// What a guest asks in this turn, where it asks something, and what goes to the store.
fn ask_in<W: Lives>(acts: &mut Acts, world: &mut W, pace: &Pace, guest: u16, turn: u32) -> bool {
    for (number, at) in pace.at.iter().enumerate() {
        if turn == at.saturating_add(3 * u32::from(guest)) {
            if !acts.play(world, guest, &[Move::Submit(request_of(guest, number))]) {
                return false;
            }
        }
    }
    acts.play(world, guest, &[Move::HandOver])
}

/// All three guests make this move.
fn all<W: Lives>(acts: &mut Acts, world: &mut W, next: Move) -> bool {
    acts.play(world, 0, &[next]) && acts.play(world, 1, &[next]) && acts.play(world, 2, &[next])
}

fn turn<W: Lives>(acts: &mut Acts, world: &mut W, pace: &Pace, turn: u32) -> bool {
    for guest in 0..3 {
        if !ask_in(acts, world, pace, guest, turn) {
            return false;
        }
    }
    acts.play(world, 0, &[Move::Advances(1)]) && all(acts, world, Move::Reply)
}

/// The opening, and all turns of three guests up to the stop. The call behind the opening of this
/// number fails; with 0 none.
fn turns<W: Lives>(acts: &mut Acts, world: &mut W, pace: &Pace, failing: u64) -> bool {
    if !acts.play(world, 0, &[Move::Open, Move::Fail(failing)]) || !all(acts, world, Move::SetUp) {
        return false;
    }
    for number in 0..pace.turns {
        if !turn(acts, world, pace, number) {
            return false;
        }
    }
    true
}

/// A stop within the call of this turn with this filler, and one within the first call after the
/// opening. Nothing is refused, and each guest has all that it was shown.
#[derive(Clone, Copy)]
struct Stopped {
    pace: &'static Pace,
    left: u32,
    filler: u8,
}

impl Tale for Stopped {
    fn is_so<W: Lives>(&self, alloc: Global, world: &mut W) -> bool {
        let mut acts = Acts::new(alloc, Some(self.left), self.filler);
        let mut again = Acts::new(alloc, Some(0), self.filler);
        turns(&mut acts, world, self.pace, 0)
            && acts.refusal.is_none()
            && check_guests(alloc, world, 3, 2)
            && again.goes(world, 0, &[Move::Advances(1)])
            && check_guests(alloc, world, 3, 3)
    }
}

/// Stops within the call of each turn, with each filler.
fn check_stops(alloc: Global, pace: &'static Pace) -> Result<(), Fail> {
    for filler in FILLERS {
        for left in 0..pace.turns {
            let stopped = Stopped { pace, left, filler };
            if !is_told(alloc, 3, pace.image, &stopped) {
                return Err(Fail::from("something that was shown is gone"));
            }
        }
    }
    Ok(())
}

#[test]
fn stops_lose_nothing_that_was_shown(rt: HostRuntime) -> Result<(), Fail> {
    check_stops(rt.alloc(), &ALONE)
}

#[test]
fn stops_lose_nothing_of_several_as_one(rt: HostRuntime) -> Result<(), Fail> {
    check_stops(rt.alloc(), &TOGETHER)
}

#[test]
fn stops_lose_nothing_of_two_slots(rt: HostRuntime) -> Result<(), Fail> {
    check_stops(rt.alloc(), &BESIDE)
}

#[test]
fn stops_lose_nothing_of_several_as_one_in_two_slots(rt: HostRuntime) -> Result<(), Fail> {
    check_stops(rt.alloc(), &TOGETHER_BESIDE)
}

/// Whether a guest was told of each of its four requests: a reply needs all up to its request.
/// Where a call has failed, failures may come from some request on, and need nothing.
fn are_told(published: &[Publication], failed: bool) -> bool {
    let mut right = true;
    for (publication, need) in published.iter().zip(1..5_u64) {
        right = right && publication.need == need;
        let is_failure = failed && publication.need == 0;
        if publication.length != 512 || !(right || is_failure) {
            return false;
        }
    }
    published.len() == 4
}

/// The call of this number behind the opening fails, or there is none; that is all that is refused.
/// All turns are made, and the disk is opened again: what the guests were told and find then.
#[derive(Clone, Copy)]
struct Failing {
    pace: &'static Pace,
    call: u64,
    /// Whether there is such a call.
    fails: bool,
}

impl Tale for Failing {
    fn is_so<W: Lives>(&self, alloc: Global, world: &mut W) -> bool {
        let mut acts = Acts::new(alloc, None, 0);
        let fault = Refusal::Step(StepFault::Store(StoreFault::DiskFault));
        let wanted = if self.fails { Some(fault) } else { None };
        turns(&mut acts, world, self.pace, self.call)
            && acts.play(world, 0, &[Move::Fail(0), Move::Open])
            && acts.refusal == wanted
            && are_told(world.published_to(0), self.fails)
            && are_told(world.published_to(1), self.fails)
            && are_told(world.published_to(2), self.fails)
            && check_guests(alloc, world, 3, 2)
    }
}

/// One call after another fails, until a run meets no failure. Three guests' keys and writes take
/// more than thirty calls, however they are grouped.
fn check_failures(alloc: Global, pace: &'static Pace) -> Result<(), Fail> {
    for call in 1..100_u64 {
        let mut failing = Failing {
            pace,
            call,
            fails: true,
        };
        if !is_told(alloc, 3, pace.image, &failing) {
            failing.fails = false;
            let is_met = call > 31 && is_told(alloc, 3, pace.image, &failing);
            return check(is_met, "another outcome, or other calls");
        }
    }
    Err(Fail::from("calls without an end"))
}

#[test]
fn each_call_fails(rt: HostRuntime) -> Result<(), Fail> {
    check_failures(rt.alloc(), &TOGETHER)
}

#[test]
fn each_call_of_two_slots_fails(rt: HostRuntime) -> Result<(), Fail> {
    check_failures(rt.alloc(), &BESIDE)
}
