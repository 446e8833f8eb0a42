//! More places than 16 bits count, round after round.
use super::{FIRST_ROUND, SECOND_ROUND, WRITE, places};
use crate::tests::descriptors::{check_row, describe, holds};
use crate::tests::devices::check;
use crate::tests::queues::{Answer, Bench, Queue, with_ring};
use chains::Reads;
use packed_ring::Ring;
use std::test::Fail;

// The chain of one descriptor at a place is made available, popped and given back.
fn serve(bench: &mut Bench<Ring>, place: u64) -> bool {
    let (memory, ring) = (&mut bench.memory, &mut bench.ring);
    let number = place.saturating_add(1);
    let flags = if place / 3 % 2 == 0 {
        FIRST_ROUND + WRITE
    } else {
        SECOND_ROUND + WRITE
    };
    describe(memory, 16 * (place % 3), (200, 8, 7, flags))
        && ring.pop_by(bench.alloc, memory, &mut Reads::new(), number) == Answer::Chain(7, 1, 0, 8)
        && ring.give_back(memory, number, 7, 1, 8) == Some(true)
}

// The last place is at the index 2 of a round with the wrap 0.
fn go_round(bench: &mut Bench<Ring>, _: &()) -> Result<(), Fail> {
    for place in 0..200_010_u64 {
        if !serve(bench, place) {
            return check_row(false, place as usize);
        }
    }
    check(
        holds(&bench.memory, 40, &[8, 0, 0, 0, 7, 0, 0x02, 0x00]),
        "a round",
    )
}

// 66,670 rounds of a ring of 3.
#[test]
fn more_than_200_000_places(rt: HostRuntime) -> Result<(), Fail> {
    with_ring(rt.alloc(), 1024, (places(3), 3), &(), go_round)
}
