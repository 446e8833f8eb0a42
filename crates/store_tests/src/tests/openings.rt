//! Images that stops left, and what an opening finds.
mod calls;
mod gates;
mod image;
mod payloads;
mod refusals;
mod upgrades;

use self::image::{Bench, Found, Image, ONE, Row, Stops, try_rows};
use crate::tests::disks::Left;
use flusher::Call;
use std::test::Fail;

const NOTHING: Found = (false, 0, [0; 5]);

const KEYED: Found = (true, 0, [0; 5]);

/// What an opening finds of a fresh image.
#[derive(Clone, Copy)]
struct Fresh([Found; 2]);

/// The store over it is at rest.
impl<I: Image> Row<I> for Fresh {
    fn goes(&self, bench: &mut Bench<I>) -> bool {
        let opened = bench.opens();
        let image = &bench.image;
        let next = [image.next(0), image.next(1), image.next(2)];
        let is_at_rest = next == [1, 1, 0] && image.next_call() == Some(Call::None);
        bench.image.shut();
        opened && is_at_rest && bench.finds(&self.0)
    }
}

#[test]
fn formatted(rt: HostRuntime) -> Result<(), Fail> {
    try_rows(rt.alloc(), (&[1, 2], false), &[Fresh([NOTHING; 2])])
}

/// How many calls follow the key request of each guest.
static BEGINNINGS: [usize; 3] = [2, 3, 0];

/// The key requests of three guests stand before a sync, in Applying, Opening and Written.
fn begin<I: Image>(bench: &mut Bench<I>) -> bool {
    let mut begun = bench.opens();
    for (guest, calls) in BEGINNINGS.iter().enumerate() {
        begun = bench.gives_key(guest as u16) && begun;
        bench.advance(*calls);
    }
    for _ in 0..8 {
        if bench.image.next_call() == Some(Call::Write) {
            bench.advance(1);
        }
    }
    begun
}

/// How many calls follow, and what a stop leaves then.
#[derive(Clone, Copy)]
struct Stopped(usize, [Found; 3]);

impl<I: Image + Stops> Row<I> for Stopped {
    fn goes(&self, bench: &mut Bench<I>) -> bool {
        let begun = begin(bench);
        bench.advance(self.0);
        bench.stops(&Left::Old) && bench.finds(&self.1) && begun
    }
}

#[test]
fn stopped_at_a_sync(rt: HostRuntime) -> Result<(), Fail> {
    let rows = [
        Stopped(0, [KEYED, NOTHING, NOTHING]),
        Stopped(1, [KEYED, KEYED, NOTHING]),
    ];
    try_rows(rt.alloc(), (&[1, 1, 1], false), &rows)
}

/// The call of a key request that fails, what a stop leaves, where there is one, and what an
/// opening finds then.
struct Failed(u64, Option<Left>, Found);

static FAILED: [Failed; 9] = [
    Failed(1, None, NOTHING),
    Failed(2, None, NOTHING),
    Failed(3, None, NOTHING),
    Failed(4, None, KEYED),
    Failed(5, None, KEYED),
    Failed(6, None, KEYED),
    Failed(7, None, KEYED),
    Failed(8, None, KEYED),
    // The byte of an open gate.
    Failed(3, Some(Left::Fill(&[0xa5])), KEYED),
];

impl<I: Image + Stops> Row<I> for Failed {
    fn goes(&self, bench: &mut Bench<I>) -> bool {
        let given = bench.opens() && bench.gives_key(0);
        bench.image.fail(self.0);
        bench.advance(8);
        bench.image.shut();
        let stopped = match &self.1 {
            Some(left) => bench.stops(left),
            None => true,
        };
        given && stopped && bench.finds(&[self.2])
    }
}

#[test]
fn failed_calls(rt: HostRuntime) -> Result<(), Fail> {
    try_rows(rt.alloc(), ONE, &FAILED)
}
