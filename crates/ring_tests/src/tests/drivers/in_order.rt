//! A driver that accepted VIRTIO_F_IN_ORDER, and its device.
use super::{Turn, WROTE, go, go_forms};
use crate::tests::devices::step::Step;
use guest_driver::DriverFault;
use mmio_transport::{Published, RingKind};
use std::test::Fail;

// With IN_ORDER the reply to the second of two chains is dropped, until that to the first was
// written.
static SECOND_OF_DESCRIPTORS: [Turn; 12] = [
    Turn::Offers(&[5, 6, 7], 2, Ok(0)),
    Turn::Offers(&[5, 6, 7], 2, Ok(2)),
    Turn::Device(Step::Keeps(&[5, 6, 7])),
    Turn::Device(Step::Keeps(&[5, 6, 7])),
    Turn::Device(Step::KeepsAgain(1)),
    Turn::Device(Step::Publishes(1, &[8, 9], Published::Dropped)),
    Turn::ReapsNothing,
    Turn::Device(Step::Publishes(0, &[8, 9], WROTE)),
    Turn::Device(Step::Publishes(0, &[10, 11], WROTE)),
    Turn::Reaps(0, &[8, 9]),
    Turn::Reaps(2, &[10, 11]),
    Turn::ReapsNothing,
];

static SECOND_OF_TABLES_OR_PLACES: [Turn; 12] = [
    Turn::Offers(&[5, 6, 7], 2, Ok(0)),
    Turn::Offers(&[5, 6, 7], 2, Ok(1)),
    Turn::Device(Step::Keeps(&[5, 6, 7])),
    Turn::Device(Step::Keeps(&[5, 6, 7])),
    Turn::Device(Step::KeepsAgain(1)),
    Turn::Device(Step::Publishes(1, &[8, 9], Published::Dropped)),
    Turn::ReapsNothing,
    Turn::Device(Step::Publishes(0, &[8, 9], WROTE)),
    Turn::Device(Step::Publishes(0, &[10, 11], WROTE)),
    Turn::Reaps(0, &[8, 9]),
    Turn::Reaps(1, &[10, 11]),
    Turn::ReapsNothing,
];

#[test]
fn in_order_the_oldest_chain_comes_first(rt: HostRuntime) -> Result<(), Fail> {
    let others = &SECOND_OF_TABLES_OR_PLACES as &[Turn];
    go_forms(
        rt.alloc(),
        true,
        1,
        [&SECOND_OF_DESCRIPTORS, others, others, others],
    )
}

// With IN_ORDER the descriptors are taken round and round, and each names the following one: the
// last of the table is followed by the first.
static TABLE_ORDER: [Turn; 9] = [
    Turn::Offers(&[5, 6, 7], 0, Ok(0)),
    Turn::Offers(&[5, 6, 7], 2, Ok(1)),
    Turn::Offers(&[5, 6, 7], 2, Err(DriverFault::NoRoom)),
    Turn::Device(Step::Keeps(&[5, 6, 7])),
    Turn::Device(Step::Publishes(0, &[], WROTE)),
    Turn::Reaps(0, &[]),
    Turn::Offers(&[5, 6, 7], 2, Ok(3)),
    // NEXT, and the index 0
    Turn::Device(Step::Holds(60, &[1, 0, 0, 0])),
    Turn::Offers(&[], 2, Err(DriverFault::NoRoom)),
];

// With IN_ORDER a used chain that isn't the oldest one is refused, until the oldest is there.
static OLDEST_ALONE: [Turn; 6] = [
    Turn::Offers(&[5, 6, 7], 0, Ok(0)),
    Turn::Offers(&[5, 6, 7], 2, Ok(1)),
    Turn::Uses(1, 2),
    Turn::FailsToReap(DriverFault::BadUsed),
    Turn::Uses(0, 0),
    Turn::Reaps(0, &[]),
];

#[test]
fn in_order_the_driver_keeps_the_order(rt: HostRuntime) -> Result<(), Fail> {
    go(rt.alloc(), (RingKind::Split, false), true, 1, &TABLE_ORDER)?;
    go_forms(rt.alloc(), true, 1, [&OLDEST_ALONE as &[Turn]; 4])
}

// Five chains, which take eight of the four descriptors: twice round the table. The third one ends
// at descriptor 0, which descriptor 3 names.
static FIVE_CHAINS: [Turn; 21] = [
    Turn::Offers(&[5, 6, 7], 2, Ok(0)),
    Turn::Device(Step::Keeps(&[5, 6, 7])),
    Turn::Device(Step::Publishes(0, &[8, 9], WROTE)),
    Turn::Reaps(0, &[8, 9]),
    Turn::Offers(&[5, 6, 7], 0, Ok(2)),
    Turn::Device(Step::Keeps(&[5, 6, 7])),
    Turn::Device(Step::Publishes(0, &[], WROTE)),
    Turn::Reaps(2, &[]),
    Turn::Offers(&[5, 6, 7], 2, Ok(3)),
    Turn::Device(Step::Holds(60, &[1, 0, 0, 0])),
    Turn::Device(Step::Keeps(&[5, 6, 7])),
    Turn::Device(Step::Publishes(0, &[8, 9], WROTE)),
    Turn::Reaps(3, &[8, 9]),
    Turn::Offers(&[], 2, Ok(1)),
    Turn::Device(Step::Keeps(&[])),
    Turn::Device(Step::Publishes(0, &[8, 9], WROTE)),
    Turn::Reaps(1, &[8, 9]),
    Turn::Offers(&[5, 6, 7], 2, Ok(2)),
    Turn::Device(Step::Keeps(&[5, 6, 7])),
    Turn::Device(Step::Publishes(0, &[8, 9], WROTE)),
    Turn::Reaps(2, &[8, 9]),
];

// 65,540 chains in the order of the table, whose indexes run round once.
#[test]
fn in_order_the_table_runs_round(rt: HostRuntime) -> Result<(), Fail> {
    go(
        rt.alloc(),
        (RingKind::Split, false),
        true,
        13108,
        &FIVE_CHAINS,
    )
}

// The guest writes its used ring itself: its own driver takes what stands there, and the device,
// which doesn't read it, goes on by its own counts.
static OWN_USED_RING: [Turn; 10] = [
    Turn::Offers(&[5, 6, 7], 0, Ok(0)),
    Turn::Offers(&[5, 6, 7], 0, Ok(1)),
    Turn::Device(Step::Keeps(&[5, 6, 7])),
    Turn::Device(Step::Keeps(&[5, 6, 7])),
    Turn::Uses(0, 0),
    Turn::Reaps(0, &[]),
    Turn::ReapsNothing,
    Turn::Device(Step::Publishes(1, &[], Published::Dropped)),
    Turn::Device(Step::Publishes(0, &[], WROTE)),
    Turn::ReapsNothing,
];

#[test]
fn in_order_a_guest_writes_its_used_ring(rt: HostRuntime) -> Result<(), Fail> {
    go_forms(rt.alloc(), true, 1, [&OWN_USED_RING as &[Turn]; 4])
}
