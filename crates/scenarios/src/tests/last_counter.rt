//! The write that leaves a partition its last counter, on the disk, and the one after it.
use crate::tests::acts::{Acts, Move};
use crate::tests::asked::Asked;
use crate::tests::image::Image;
use crate::tests::lives::{Lives, Tale, is_told};
use crate::tests::scene::{KEY, check};
use std::alloc::Global;
use std::test::Fail;

/// The write is settled and told of, and then the host stops.
static LAST: [Move; 6] = [
    Move::Open,
    Move::SetUp,
    Move::Submit(Asked::Write(0x77, 0xffff_fffe)),
    Move::HandOver,
    Move::Advances(20),
    Move::Reply,
];

static AFTER: [Move; 5] = [
    Move::Stop(0),
    Move::SetUp,
    Move::Submit(Asked::Write(0x78, 0xffff_ffff)),
    Move::HandOver,
    Move::Reply,
];

/// Whether the one write is there, the last that may be, and block 0 repeats its byte.
fn is_at_the_end<W: Lives>(world: &W) -> bool {
    let Some(partition) = world.partition_of(0) else {
        return false;
    };
    partition.key() == Some(KEY)
        && partition.counter() == 0xffff_ffff
        && partition.sequence() == 0x1_0000_0000
        && partition.block(0) == [0x77; 256]
        && world.accepted_of(0).len() == 1
}

/// Whether the write is the next to the partition of the image.
fn is_the_next<W: Lives>(world: &W) -> bool {
    match world.base_of(0) {
        Some(base) => base.sequence() == 0xffff_ffff,
        None => false,
    }
}

/// Whether so many replies were published, of which each needed the last write.
fn are_told<W: Lives>(world: &W, count: usize) -> bool {
    for publication in world.published_to(0) {
        if publication.need != 0x1_0000_0000 || publication.length != 512 {
            return false;
        }
    }
    world.published_to(0).len() == count
}

#[derive(Clone, Copy)]
struct LastWrite;

impl Tale for LastWrite {
    fn is_so<W: Lives>(&self, alloc: Global, world: &mut W) -> bool {
        let mut acts = Acts::new(alloc, None, 0);
        acts.goes(world, 0, &LAST)
            && is_the_next(world)
            && is_at_the_end(world)
            && are_told(world, 1)
            && acts.goes(world, 0, &AFTER)
            && is_at_the_end(world)
            && are_told(world, 2)
            && world.opened() == 2
    }
}

#[test]
fn the_last_write_on_the_disk(rt: HostRuntime) -> Result<(), Fail> {
    check(
        is_told(rt.alloc(), 1, Image::Last, &LastWrite),
        "another outcome",
    )
}
