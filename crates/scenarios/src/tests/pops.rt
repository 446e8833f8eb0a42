//! The pops that a world notes.
use crate::tests::acts::{Acts, Move};
use crate::tests::asked::Asked;
use crate::tests::image::Image;
use crate::tests::lives::{Lives, Tale, is_told};
use crate::tests::scene::check;
use crate::tests::worlds::KEYED;
use std::alloc::Global;
use std::test::Fail;
use world::{Pop, Publication};

/// A second life, in which two requests are answered, each before the next.
static SECOND_LIFE: [Move; 6] = [
    Move::Stop(0),
    Move::SetUp,
    Move::Submit(Asked::Counter(1)),
    Move::Reply,
    Move::Submit(Asked::Counter(2)),
    Move::Reply,
];

/// Of a request in a first life and of these two: their lives, how often the queue was made ready,
/// and the numbers of their pops.
static TOLD: [(u64, u64, u64); 3] = [(1, 1, 1), (2, 1, 1), (2, 1, 2)];

fn are_told(popped: &[Pop]) -> bool {
    for (told, pop) in TOLD.iter().zip(popped.iter()) {
        if *told != (pop.life, pop.readiness, pop.number) {
            return false;
        }
    }
    popped.len() == TOLD.len()
}

/// Each reply tells the pop of its job, and they are in one order.
fn are_of(published: &[Publication], popped: &[Pop]) -> bool {
    for (publication, pop) in published.iter().zip(popped.iter()) {
        if publication.pop != *pop {
            return false;
        }
    }
    published.len() == popped.len()
}

#[derive(Clone, Copy)]
struct TwoLives;

impl Tale for TwoLives {
    fn is_so<W: Lives>(&self, alloc: Global, world: &mut W) -> bool {
        let mut acts = Acts::new(alloc, None, 0);
        acts.goes(world, 0, &KEYED)
            && acts.goes(world, 0, &SECOND_LIFE)
            && are_told(world.popped_of(0))
            && are_of(world.published_to(0), world.popped_of(0))
    }
}

#[test]
fn replies_tell_their_pops(rt: HostRuntime) -> Result<(), Fail> {
    check(
        is_told(rt.alloc(), 1, Image::One, &TwoLives),
        "another outcome",
    )
}
