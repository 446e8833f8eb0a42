//! Worlds: boards through steps, stops and openings.
use crate::tests::acts::{Acts, Move};
use crate::tests::asked::Asked;
use crate::tests::image::Image;
use crate::tests::lives::{Lives, Tale, is_told};
use crate::tests::scene::check;
use board::StepFault;
use flusher::StoreFault;
use std::alloc::Global;
use std::test::Fail;
use world::{Publication, Refusal};

/// What is seen of a world of one guest.
#[derive(Clone, Copy)]
enum Sight {
    /// What was refused first.
    Refused(Option<Refusal>),
    Openings(u64),
    /// How many requests were accepted.
    Accepted(usize),
    /// How many replies were published, and what each of them needed, as digits.
    Replies(usize, u64),
    /// The write counter.
    Counter(u32),
    /// The block there is of this byte.
    Block(u16, u8),
    /// The partition is that after one of three writes or none, and has what the last reply needed,
    /// which is one more than its counter.
    IsOneOfFour,
}

/// The needs of what was published, as digits.
fn needs(publications: &[Publication]) -> u64 {
    let mut digits = 0_u64;
    for publication in publications.iter().take(9) {
        digits = digits.saturating_mul(10).saturating_add(publication.need);
    }
    digits
}

fn has_counter<W: Lives>(world: &W, counter: u32) -> bool {
    match world.partition_of(0) {
        Some(partition) => partition.counter() == counter,
        None => false,
    }
}

fn has_block<W: Lives>(world: &W, address: u16, byte: u8) -> bool {
    match world.partition_of(0) {
        Some(partition) => partition.block(address) == [byte; 256],
        None => false,
    }
}

fn is_one_of_four<W: Lives>(world: &W) -> bool {
    let need = needs(world.published_to(0)) % 10;
    let Some(partition) = world.partition_of(0) else {
        return false;
    };
    let counter = partition.counter();
    match [0, 0xa0, 0xa1, 0xa2].get(counter as usize) {
        Some(byte) => partition.block(0) == [*byte; 256] && u64::from(counter) + 1 >= need,
        None => false,
    }
}

fn is_seen<W: Lives>(world: &W, refusal: Option<Refusal>, sight: &Sight) -> bool {
    match sight {
        Sight::Refused(first) => refusal == *first,
        Sight::Openings(count) => world.opened() == *count,
        Sight::Accepted(count) => world.accepted_of(0).len() == *count,
        Sight::Replies(count, digits) => {
            let publications = world.published_to(0);
            publications.len() == *count && needs(publications) == *digits
        }
        Sight::Counter(counter) => has_counter(world, *counter),
        Sight::Block(address, byte) => has_block(world, *address, *byte),
        Sight::IsOneOfFour => is_one_of_four(world),
    }
}

/// Lists of moves of guest 0, one behind the other, where the store's advance after `left` others
/// is stopped; and what is seen then.
#[derive(Clone, Copy)]
struct Moves<'a> {
    lists: &'a [&'a [Move]],
    left: Option<u32>,
    filler: u8,
    sights: &'a [Sight],
}

impl<'a> Tale for Moves<'a> {
    fn is_so<W: Lives>(&self, alloc: Global, world: &mut W) -> bool {
        let mut acts = Acts::new(alloc, self.left, self.filler);
        for moves in self.lists {
            if !acts.play(world, 0, *moves) {
                return false;
            }
        }
        for sight in self.sights {
            if !is_seen(world, acts.refusal, sight) {
                return false;
            }
        }
        true
    }
}

/// Whether this is seen of a fresh world, after lists of moves.
fn is_seen_after(
    alloc: Global,
    lists: &[&[Move]],
    left: Option<u32>,
    filler: u8,
    sights: &[Sight],
) -> bool {
    let moves = Moves {
        lists,
        left,
        filler,
        sights,
    };
    is_told(alloc, 1, Image::One, &moves)
}

/// How many calls the store makes of a key.
const KEY_CALLS: u32 = 8;

/// The guest has its key, and the reply to it; the store is idle.
pub static KEYED: [Move; 6] = [
    Move::Open,
    Move::SetUp,
    Move::Submit(Asked::Key(0x11)),
    Move::HandOver,
    Move::Advances(KEY_CALLS),
    Move::Reply,
];

/// Then a write and two reads are answered, the write's payload is synced and its gate is written.
static UNDER_WAY: [Move; 6] = [
    Move::Submit(Asked::Write(0xa5, 0)),
    Move::Submit(Asked::Counter(1)),
    Move::Submit(Asked::Counter(2)),
    Move::HandOver,
    Move::Advances(3),
    Move::Reply,
];

/// What is seen after a stop of that, of which the write isn't there, or is.
static OLD: [Sight; 4] = [
    Sight::Refused(None),
    Sight::Counter(0),
    Sight::Accepted(1),
    Sight::Replies(1, 1),
];

static NEW: [Sight; 4] = [
    Sight::Refused(None),
    Sight::Counter(1),
    Sight::Accepted(2),
    Sight::Replies(1, 1),
];

/// Whether this is seen after that stop.
fn is_seen_after_stop(alloc: Global, stop: &[Move], sights: &[Sight]) -> bool {
    let lists = [KEYED.as_slice(), UNDER_WAY.as_slice(), stop];
    is_seen_after(alloc, &lists, None, 0, sights)
}

#[test]
fn a_gate_that_is_written_may_be_open(rt: HostRuntime) -> Result<(), Fail> {
    check(
        is_seen_after_stop(rt.alloc(), &[Move::Stop(0)], &OLD)
            && is_seen_after_stop(rt.alloc(), &[Move::Stop(1)], &NEW),
        "the old, or the new",
    )
}

/// The sync of that gate fails, the disk is opened again, and the host stops once more.
static FAILED: [Move; 4] = [Move::Fail(1), Move::Advances(1), Move::Open, Move::Stop(0)];

static AFTER_FAILURE: [Sight; 5] = [
    Sight::Refused(Some(Refusal::Step(StepFault::Store(StoreFault::DiskFault)))),
    Sight::Counter(1),
    Sight::Accepted(2),
    Sight::Replies(1, 1),
    Sight::Openings(3),
];

#[test]
fn an_opening_syncs_what_a_failed_sync_left(rt: HostRuntime) -> Result<(), Fail> {
    let lists = [KEYED.as_slice(), UNDER_WAY.as_slice(), FAILED.as_slice()];
    check(
        is_seen_after(rt.alloc(), &lists, None, 0, &AFTER_FAILURE),
        "the refusal, the counter, openings",
    )
}

/// A read, the key, a read, a write and a read, and each reply leaves once the store is idle.
static ASKED: [Move; 16] = [
    Move::Open,
    Move::SetUp,
    Move::Submit(Asked::Counter(1)),
    Move::Submit(Asked::Key(0x11)),
    Move::Submit(Asked::Counter(2)),
    Move::Submit(Asked::Write(0xa5, 0)),
    Move::Submit(Asked::Counter(3)),
    Move::HandOver,
    Move::Advances(9),
    Move::HandOver,
    Move::Advances(9),
    Move::Reply,
    Move::Reply,
    Move::Reply,
    Move::Reply,
    Move::Reply,
];

/// The replies need 0, 1, 1, 2 and 2.
static ANSWERED: [Sight; 3] = [
    Sight::Refused(None),
    Sight::Accepted(2),
    Sight::Replies(5, 1122),
];

#[test]
fn each_reply_needs_what_was_accepted_before_it(rt: HostRuntime) -> Result<(), Fail> {
    check(
        is_seen_after(rt.alloc(), &[&ASKED], None, 0, &ANSWERED),
        "a refusal, replies, needs, accepted",
    )
}

const FIRST: Move = Move::Submit(Asked::Write(0xa0, 0));

const SECOND: Move = Move::Submit(Asked::Write(0xa1, 1));

const THIRD: Move = Move::Submit(Asked::Write(0xa2, 2));

/// Three writes are answered before any sync, and go to the store in each grouping that a Take can
/// give.
static GROUPINGS: [&[Move]; 4] = [
    &[FIRST, Move::HandOver, SECOND, Move::HandOver, THIRD],
    &[FIRST, SECOND, Move::HandOver, THIRD],
    &[FIRST, Move::HandOver, SECOND, THIRD],
    &[FIRST, SECOND, THIRD],
];

/// What waits goes to the store, which makes a call, and a reply leaves where it may.
static TURN: [Move; 3] = [Move::HandOver, Move::Advances(1), Move::Reply];

/// More turns than three writes take.
const TURNS: u32 = 32;

static ONE_OF_FOUR: [Sight; 3] = [Sight::Refused(None), Sight::Openings(2), Sight::IsOneOfFour];

/// Stops within the call of one of these turns that leave what the last sync left, and bytes 0xff.
fn stay(alloc: Global, moves: &[Move], turn: u32) -> bool {
    let mut lists = [TURN.as_slice(); 34];
    lists[0] = KEYED.as_slice();
    lists[1] = moves;
    let left = Some(turn.saturating_add(KEY_CALLS));
    is_seen_after(alloc, &lists, left, 0, &ONE_OF_FOUR)
        && is_seen_after(alloc, &lists, left, 3, &ONE_OF_FOUR)
}

#[test]
fn what_is_settled_of_three_writes_stays(rt: HostRuntime) -> Result<(), Fail> {
    for moves in &GROUPINGS {
        for turn in 0..TURNS {
            if !stay(rt.alloc(), *moves, turn) {
                return Err(Fail::from("another outcome"));
            }
        }
    }
    Ok(())
}

/// Four writes of a block each go to the store as one.
static FOUR_WRITES: [Move; 6] = [
    Move::Submit(Asked::WriteAt(0, 0)),
    Move::Submit(Asked::WriteAt(1, 1)),
    Move::Submit(Asked::WriteAt(2, 2)),
    Move::Submit(Asked::WriteAt(3, 3)),
    Move::HandOver,
    Move::Advances(4),
];

/// What is seen after a stop within the sync of their gate, which is the fourth of their calls:
/// none of them, or all four.
static NONE: [Sight; 3] = [Sight::Refused(None), Sight::Counter(0), Sight::Accepted(1)];

static ALL_FOUR: [Sight; 3] = [Sight::Refused(None), Sight::Counter(4), Sight::Accepted(5)];

#[test]
fn four_writes_are_there_or_none(rt: HostRuntime) -> Result<(), Fail> {
    let lists = [KEYED.as_slice(), FOUR_WRITES.as_slice()];
    let left = Some(KEY_CALLS + 3);
    check(
        is_seen_after(rt.alloc(), &lists, left, 2, &NONE)
            && is_seen_after(rt.alloc(), &lists, left, 4, &ALL_FOUR),
        "none, or all four",
    )
}

static EIGHT_BLOCKS: [Move; 3] = [
    Move::Submit(Asked::Blocks(0, 8, 0)),
    Move::HandOver,
    Move::Advances(5),
];

static HAS_EIGHT: [Sight; 10] = [
    Sight::Refused(None),
    Sight::Counter(1),
    Sight::Block(0, 1),
    Sight::Block(1, 2),
    Sight::Block(2, 3),
    Sight::Block(3, 4),
    Sight::Block(4, 5),
    Sight::Block(5, 6),
    Sight::Block(6, 7),
    Sight::Block(7, 8),
];

#[test]
fn no_write_of_eight_blocks_is_half_there(rt: HostRuntime) -> Result<(), Fail> {
    // Stopped within the write of the blocks, the fifth of its own calls.
    let lists = [KEYED.as_slice(), EIGHT_BLOCKS.as_slice()];
    check(
        is_seen_after(rt.alloc(), &lists, Some(KEY_CALLS + 4), 3, &HAS_EIGHT),
        "a refusal, the blocks",
    )
}
