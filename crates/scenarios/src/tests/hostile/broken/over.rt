//! A reply that is written over the ring.
use super::{AVAIL, Case, Kind, NONE, Row, WRITE};
use crate::tests::acts::Acts;
use crate::tests::boards::{Deed, Table, Watched, loaded};
use crate::tests::hostile::{check_beside, sight_alone};
use std::alloc::Global;
use std::test::Fail;

/// A chain with room for a frame over the ring itself: the used ring of a split one, the
/// descriptors of a packed one. The reply is a frame of zeros but for its result, and goes first;
/// the used fields stand over it.
#[rattlefmt::skip]
static OVER_THE_RING: [(Kind, u64, Row); 2] = [
    (
        Kind::Split,
        0x3000,
        ((0x3000, 512, WRITE, 0), NONE, NONE, NONE, Ok(()), [1, 0, 0, 0, 0, 0, 0, 2]),
    ),
    (
        Kind::Packed,
        0x1000,
        ((0x1000, 512, 7, AVAIL + WRITE), NONE, NONE, NONE, Ok(()), [0, 2, 0, 0, 7, 0, 0x82, 0x80]),
    ),
];

/// Such a chain, over bytes that aren't zeros.
#[derive(Clone, Copy)]
struct Over<'a> {
    case: Case<'a>,
    at: u64,
}

impl<'a> Deed for Over<'a> {
    fn is_done<B: Table>(&self, alloc: Global, board: &mut Watched<B>) -> bool {
        let mut acts = Acts::new(alloc, None, 0);
        let behind = self.at.saturating_add(64);
        let is_done = acts.store(board, 1, behind, &[0xee; 448])
            && acts.refusal.is_none()
            && self.case.is_done(alloc, board);
        let reply: Option<[u8; 448]> = loaded(&board.board, 1, behind);
        is_done && reply == Some(failed())
    }
}

/// The last 448 bytes of a frame of zeros but for the result GENERAL_FAILURE.
fn failed() -> [u8; 448] {
    let mut bytes = [0; 448];
    bytes[445] = 1;
    bytes
}

#[test]
fn a_reply_over_the_ring(rt: HostRuntime) -> Result<(), Fail> {
    let alloc = rt.alloc();
    let Some(alone) = sight_alone(alloc) else {
        return Err(Fail::from("no alone"));
    };
    for (kind, at, row) in &OVER_THE_RING {
        let case = Case { kind: *kind, row };
        if !check_beside(alloc, &alone, &Over { case, at: *at }) {
            return Err(Fail::from("another outcome"));
        }
    }
    Ok(())
}
