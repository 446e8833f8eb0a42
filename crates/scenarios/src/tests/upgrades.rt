//! Images of version 1 that become images of version 2 while a write of each of two guests is under
//! way, in each of its phases and with other bytes in each second slot: whole, or stopped within
//! each call of the upgrade, and then once more. The guests write on, by both slots, and the host
//! stops again.

use crate::tests::acts::{Acts, Move};
use crate::tests::asked::Asked;
use crate::tests::image::Image;
use crate::tests::lives::{Lives, Tale, is_told};
use crate::tests::prefixes::check_guests;
use std::alloc::Global;
use std::test::Fail;

/// Old, New, and each byte that a gate or the version may be left with.
const FILLERS: [u8; 5] = [0, 1, 4, 5, 6];

/// More calls than two guests' keys or writes take.
const IDLE: u32 = 20;

/// After how many calls of the guests' writes an upgrade comes, and within which of its calls it is
/// stopped, with which filler; with 0 in none.
#[derive(Clone, Copy)]
struct Case {
    phase: u32,
    call: u32,
    filler: u8,
}

/// Both guests make these moves, of which none is refused.
fn both<W: Lives>(acts: &mut Acts, world: &mut W, moves: &[Move]) -> bool {
    acts.goes(world, 0, moves) && acts.goes(world, 1, moves)
}

static KEYED: [Move; 3] = [Move::SetUp, Move::Submit(Asked::Key(0x11)), Move::HandOver];

static WRITTEN: [Move; 3] = [
    Move::Reply,
    Move::Submit(Asked::Write(0x41, 0)),
    Move::HandOver,
];

/// The counter that a guest's next write has.
fn counter_of<W: Lives>(world: &W, guest: u16) -> u32 {
    match world.partition_of(guest) {
        Some(partition) => partition.counter(),
        None => 0,
    }
}

fn counters<W: Lives>(world: &W) -> [u32; 2] {
    [counter_of(world, 0), counter_of(world, 1)]
}

/// Each guest writes under its counter, and so many more.
fn write_on<W: Lives>(acts: &mut Acts, world: &mut W, counters: [u32; 2], more: u32) -> bool {
    let first = Asked::Write(0x42, counters[0].saturating_add(more));
    let second = Asked::Write(0x42, counters[1].saturating_add(more));
    acts.goes(world, 0, &[Move::Submit(first), Move::HandOver])
        && acts.goes(world, 1, &[Move::Submit(second), Move::HandOver])
}

impl Case {
    /// Each guest programs its key and is told so, a write of each is under way, and the upgrade
    /// comes.
    fn is_upgraded<W: Lives>(&self, acts: &mut Acts, world: &mut W) -> bool {
        let upgrade = Move::Upgrade(self.call, self.filler);
        acts.goes(world, 0, &[Move::Open])
            && both(acts, world, &KEYED)
            && acts.goes(world, 0, &[Move::Advances(IDLE)])
            && both(acts, world, &WRITTEN)
            && acts.goes(world, 0, &[Move::Advances(self.phase), upgrade])
    }

    /// Each guest writes twice, the second time while its first write is under way; and the host
    /// stops.
    fn is_written_on<W: Lives>(&self, acts: &mut Acts, world: &mut W, before: [u32; 2]) -> bool {
        let stop = Move::Stop(self.filler);
        both(acts, world, &[Move::SetUp])
            && write_on(acts, world, before, 0)
            && acts.goes(world, 0, &[Move::Advances(3)])
            && write_on(acts, world, before, 1)
            && acts.goes(world, 0, &[Move::Advances(self.phase), stop])
    }
}

/// Nothing is refused, and each guest has what was accepted of it after each opening. An upgrade
/// that isn't stopped comes behind the one that may be.
impl Tale for Case {
    fn is_so<W: Lives>(&self, alloc: Global, world: &mut W) -> bool {
        let mut acts = Acts::new(alloc, None, 0);
        if !self.is_upgraded(&mut acts, world) || !check_guests(alloc, world, 2, 2) {
            return false;
        }
        let before = counters(world);
        acts.goes(world, 0, &[Move::Upgrade(0, 0)])
            && check_guests(alloc, world, 2, 3)
            && counters(world) == before
            && self.is_written_on(&mut acts, world, before)
            && check_guests(alloc, world, 2, 4)
    }
}

/// Stops within each call of an upgrade that comes in this phase: a sync, two reads, a write for
/// each guest, a sync, the write of the version, and a sync.
fn stop_at_each(alloc: Global, phase: u32) -> bool {
    for call in 0..9 {
        let case = Case {
            phase,
            call,
            filler: FILLERS[(phase.saturating_add(call) % 5) as usize],
        };
        if !is_told(alloc, 2, Image::Spoiled, &case) {
            return false;
        }
    }
    true
}

#[test]
fn an_upgrade_keeps_what_is_under_way(rt: HostRuntime) -> Result<(), Fail> {
    for phase in 0..15 {
        if !stop_at_each(rt.alloc(), phase) {
            return Err(Fail::from("another outcome"));
        }
    }
    Ok(())
}
