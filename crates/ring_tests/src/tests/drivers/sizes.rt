//! Queues that a device takes, and those that it doesn't, in memory that held other bytes.
use super::{FORMS, Form, GUEST, Pair, Turn, driver_of, go_once, offers};
use crate::tests::devices::step::Step;
use crate::tests::devices::stores;
use guest_driver::{DriverConfig, DriverFault};
use mmio_transport::{Device, RingKind};
use rpmb_frame::GuestConfig;
use std::alloc::Global;
use std::test::Fail;

pub fn fills(device: &mut Device) -> bool {
    for page in 0..64u64 {
        if !stores(device, 4096 * page, &[0xee; 4096]) {
            return false;
        }
    }
    true
}

// A negotiation in memory that held other bytes; nothing is offered then.
static TAKEN: [Turn; 3] = [
    Turn::Fills,
    Turn::Negotiates(true),
    Turn::Device(Step::Pops(Ok(None))),
];

static NOT_TAKEN: [Turn; 3] = [
    Turn::Fills,
    Turn::Negotiates(false),
    Turn::Device(Step::Pops(Ok(None))),
];

// A guest with room for the largest queue.
fn roomy() -> GuestConfig {
    GuestConfig {
        memory: 8_388_608,
        ..GUEST
    }
}

// A queue of this form and so many places, with this feature, and whether a device takes it.
type Queue = (Form, u16, bool, bool);

fn go_with_queue(alloc: Global, queue: &Queue) -> Result<(), Fail> {
    let (form, places, event_idx, answer) = *queue;
    let driver = DriverConfig {
        queue: places,
        event_idx,
        ..driver_of(form)
    };
    let turns = if answer { &TAKEN } else { &NOT_TAKEN };
    go_once(alloc, 0, &roomy(), &driver, turns)
}

// Sizes of split queues are powers of two (VIRTIO 1.2, 2.7), and the device has at most 256 places.
static QUEUES: [Queue; 11] = [
    ((RingKind::Split, false), 1, false, true),
    ((RingKind::Split, true), 2, true, true),
    ((RingKind::Split, false), 3, false, false),
    ((RingKind::Split, true), 256, true, true),
    ((RingKind::Split, false), 512, true, false),
    ((RingKind::Split, false), 0, false, false),
    ((RingKind::Packed, false), 1, false, true),
    ((RingKind::Packed, true), 3, true, true),
    ((RingKind::Packed, false), 256, true, true),
    ((RingKind::Packed, true), 257, true, false),
    ((RingKind::Packed, false), 0, false, false),
];

#[test]
fn queues_that_a_device_takes(rt: HostRuntime) -> Result<(), Fail> {
    for queue in &QUEUES {
        go_with_queue(rt.alloc(), queue)?;
    }
    Ok(())
}

// 256 chains of one descriptor each are in flight, by the ids in their order, and then there is no
// room.
pub fn takes_256(pair: &mut Pair) -> bool {
    for place in 0..256_u16 {
        if !offers(pair, &[], 2, Ok(place)) {
            return false;
        }
    }
    offers(pair, &[], 2, Err(DriverFault::NoRoom))
}

static FILLED: [Turn; 2] = [Turn::Negotiates(true), Turn::Takes256];

fn fill_queue(alloc: Global, form: Form) -> Result<(), Fail> {
    let driver = DriverConfig {
        queue: 256,
        ..driver_of(form)
    };
    go_once(alloc, 0, &roomy(), &driver, &FILLED)
}

#[test]
fn a_queue_of_256_is_filled(rt: HostRuntime) -> Result<(), Fail> {
    for form in &FORMS {
        fill_queue(rt.alloc(), *form)?;
    }
    Ok(())
}
