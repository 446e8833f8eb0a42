//! Images of version 2 that stops left between the gates of two writes, and what an opening finds.
use super::image::{Bench, Found, Image, ONE_OF_TWO_SLOTS, Row, Stops, try_rows};
use crate::tests::disks::Left;
use std::test::Fail;

/// The partition after so many writes.
static WRITTEN: [Found; 4] = [
    (true, 0, [0, 0, 0, 0, 0]),
    (true, 1, [1, 0, 0, 0, 0]),
    (true, 2, [1, 2, 0, 0, 0]),
    (true, 3, [1, 2, 3, 0, 0]),
];

/// The store has settled the key, was given the first two writes, and makes so many calls.
fn begin<I: Image>(bench: &mut Bench<I>, calls: usize) -> bool {
    let keyed = bench.opens() && bench.gives_key(0);
    bench.advance(8);
    let given = keyed && bench.gives(1) && bench.gives(2);
    bench.advance(calls);
    given
}

/// A stop between two gates: whether a third write is given once the first is home, so that the
/// second stands in slot B before it, and the third in slot A behind it; what the stop leaves; and
/// how many writes an opening finds.
struct Between(bool, Left, usize);

/// Of the first slot's gate, which is written shut, and the second's, which is written open: the
/// first's alone is open, the second's alone, none, and both.
static GATES: [Between; 8] = [
    Between(false, Left::Old, 1),
    Between(false, Left::New, 2),
    Between(false, Left::Fill(&[0x00]), 1),
    Between(false, Left::Fill(&[0xA5]), 2),
    Between(true, Left::Old, 2),
    Between(true, Left::New, 3),
    Between(true, Left::Fill(&[0x00]), 2),
    Between(true, Left::Fill(&[0xA5]), 3),
];

/// The calls before the sync of both gates: ten, or, from the third write on, the second's block
/// and home record, the third's payload, a sync, and the two gates.
fn reach_gates<I: Image>(bench: &mut Bench<I>, third: bool) -> bool {
    if !third {
        return begin(bench, 10);
    }
    let given = begin(bench, 11) && bench.gives(3);
    bench.advance(6);
    given
}

/// Openings find the same before what is left is written home, and after it.
impl<I: Image + Stops> Row<I> for Between {
    fn goes(&self, bench: &mut Bench<I>) -> bool {
        let wanted = [WRITTEN[self.2.min(3)]];
        let reached = reach_gates(bench, self.0);
        let found = reached && bench.stops(&self.1) && bench.finds(&wanted) && bench.opens();
        bench.advance(20);
        bench.image.shut();
        found && bench.finds(&wanted)
    }
}

#[test]
fn each_combination_of_gates(rt: HostRuntime) -> Result<(), Fail> {
    try_rows(rt.alloc(), ONE_OF_TWO_SLOTS, &GATES)
}

/// So many calls of the two writes, and the least and the most writes that a stop may leave then.
#[rattlefmt::skip]
static BOUNDS: [(usize, usize, usize); 17] = [
    (0, 0, 0), (1, 0, 0), (2, 0, 0), (3, 0, 0), (4, 0, 1), (5, 1, 1), (6, 1, 1), (7, 1, 1),
    (8, 1, 1), (9, 1, 1), (10, 1, 2), (11, 2, 2), (12, 2, 2), (13, 2, 2), (14, 2, 2), (15, 2, 2),
    (16, 2, 2),
];

static LEFT: [Left; 4] = [
    Left::Old,
    Left::New,
    Left::Fill(&[0x00]),
    Left::Fill(&[0xA5]),
];

/// What a stop leaves, by its place, after so many calls; and the bounds.
#[derive(Clone, Copy)]
struct Within(usize, (usize, usize, usize));

impl<I: Image + Stops> Row<I> for Within {
    fn goes(&self, bench: &mut Bench<I>) -> bool {
        let (calls, least, most) = self.1;
        if !begin(bench, calls) || !bench.stops(&LEFT[self.0.min(3)]) || !bench.opens() {
            return false;
        }
        let found = bench.image.found(0);
        found == Some(WRITTEN[least.min(3)]) || found == Some(WRITTEN[most.min(3)])
    }
}

#[test]
fn a_stop_after_each_call(rt: HostRuntime) -> Result<(), Fail> {
    for left in 0..LEFT.len() {
        for bounds in &BOUNDS {
            try_rows(rt.alloc(), ONE_OF_TWO_SLOTS, &[Within(left, *bounds)])?;
        }
    }
    Ok(())
}
