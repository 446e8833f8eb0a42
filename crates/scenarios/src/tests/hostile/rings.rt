//! A guest that stores into its used ring.
use super::{check_beside, sight_alone};
use crate::tests::acts::{Acts, Move};
use crate::tests::asked::Asked;
use crate::tests::boards::{Deed, Table, Watched, loaded};
use crate::tests::image::Image;
use crate::tests::lives::{Lives, Tale, is_told};
use crate::tests::scene::check;
use std::alloc::Global;
use std::test::Fail;

/// Where the used ring has its index.
const USED_INDEX: u64 = 0x3002;

/// A reply to the guest leaves; then it stores the index 9 into its used ring, and another reply
/// leaves.
static FIRST: [Move; 3] = [Move::SetUp, Move::Submit(Asked::Counter(1)), Move::Reply];

static SECOND: [Move; 2] = [Move::Submit(Asked::Counter(2)), Move::Reply];

fn has_index<B: Table>(board: &Watched<B>, index: u8) -> bool {
    let used: Option<[u8; 2]> = loaded(&board.board, 1, USED_INDEX);
    used == Some([index, 0])
}

#[derive(Clone, Copy)]
struct Stores;

impl Deed for Stores {
    fn is_done<B: Table>(&self, alloc: Global, board: &mut Watched<B>) -> bool {
        let mut acts = Acts::new(alloc, None, 0);
        // The device goes on with its own index.
        acts.goes(board, 1, &FIRST)
            && has_index(board, 1)
            && acts.store(board, 1, USED_INDEX, &[9, 0])
            && has_index(board, 9)
            && acts.goes(board, 1, &SECOND)
            && has_index(board, 2)
    }
}

#[test]
fn a_device_goes_on_with_its_own_index(rt: HostRuntime) -> Result<(), Fail> {
    let alloc = rt.alloc();
    let Some(alone) = sight_alone(alloc) else {
        return Err(Fail::from("no alone"));
    };
    check(check_beside(alloc, &alone, &Stores), "another outcome")
}

impl Tale for Stores {
    /// What was published stays.
    fn is_so<W: Lives>(&self, alloc: Global, world: &mut W) -> bool {
        let mut acts = Acts::new(alloc, None, 0);
        if !acts.goes(world, 1, &[Move::Open]) || !acts.goes(world, 1, &FIRST) {
            return false;
        }
        let first = world.published_to(1).first().copied();
        let is_one = world.published_to(1).len() == 1;
        let is_stored = acts.store(world, 1, USED_INDEX, &[9, 0]);
        let stays = world.published_to(1).len() == 1
            && world.published_to(1).first().copied() == first;
        is_one
            && is_stored
            && stays
            && acts.goes(world, 1, &SECOND)
            && world.published_to(1).len() == 2
            && world.published_to(1).first().copied() == first
    }
}

#[test]
fn what_was_published_stays(rt: HostRuntime) -> Result<(), Fail> {
    check(
        is_told(rt.alloc(), 3, Image::One, &Stores),
        "another outcome",
    )
}
