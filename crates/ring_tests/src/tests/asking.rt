//! A device that asks, of a guest of 1 TiB whose parts lie far from each other: what it asks for,
//! in which order, and what it does once that was told.
use super::devices::check;
use super::devices::step::reply_of;
use guest_memory::Ask;
use mmio_transport::register::{
    DRIVER_FEATURES, DRIVER_FEATURES_SEL, QUEUE_DESC_HIGH, QUEUE_DEVICE_HIGH, QUEUE_DRIVER_HIGH,
    QUEUE_NUM, QUEUE_READY, STATUS,
};
use mmio_transport::{AskingDevice, Done, Job, PopFault, Published};
use rpmb_frame::GuestConfig;
use std::alloc::Global;
use std::test::Fail;

// Where the areas stand, the table, and the buffers.
const DESC: u64 = 0x40_0000_0000;

const DRIVER: u64 = 0x50_0000_0000;

const DEVICE: u64 = 0x60_0000_0000;

const TABLE: u64 = 0x7f_ffff_0000;

const FIRST: u64 = 0x12_3456_7890;

const SECOND: u64 = 0x0a_0000_0003;

const REPLY: u64 = 0x35_0000_0001;

// What is asked for, by its address and its length in bytes, and what the guest has there: these
// bytes, and zeros behind them.
type Told = (u64, u64, &'static [u8]);

struct Case {
    // What the driver accepts: the lower and the upper half of the features.
    features: (u32, u32),
    // What the first pop asks for, and the request of the chain that it gives.
    pop: &'static [Told],
    request: &'static [u8],
    // What its publication lacks.
    publication: &'static [Told],
    // By what the driver says whether it wants to be notified, and whether it does.
    wish: Told,
    notified: bool,
    // What the next pop asks for, which finds no chain.
    next: &'static [Told],
}

// The head is 1. Its table has two ranges to be read, an empty one between them, and one of 600
// bytes to be written.
const SPLIT_AREA: [u8; 32] = [
    0, 0, 0, 0, 0, 0, 0, 0, 0, 0, 0, 0, 0, 0, 0, 0, // descriptor 0
    0, 0, 255, 255, 127, 0, 0, 0, 64, 0, 0, 0, 4, 0, 0, 0,
];

const SPLIT_TABLE: [u8; 64] = [
    0x90, 0x78, 0x56, 0x34, 0x12, 0, 0, 0, 2, 0, 0, 0, 1, 0, 1, 0, // 2 bytes
    0, 0, 0, 0, 0, 0, 0, 0, 0, 0, 0, 0, 1, 0, 2, 0, // none
    3, 0, 0, 0, 10, 0, 0, 0, 3, 0, 0, 0, 1, 0, 3, 0, // 3 bytes
    1, 0, 0, 0, 0x35, 0, 0, 0, 88, 2, 0, 0, 2, 0, 0, 0,
];

// INDIRECT_DESC, EVENT_IDX and VERSION_1.
#[rattlefmt::skip]
static SPLIT: Case = Case {
    features: (0x3000_0000, 1),
    pop: &[
        (DRIVER + 2, 2, &[1, 0]),
        (DRIVER + 4, 2, &[1, 0]),
        (DESC, 128, &SPLIT_AREA),
        (TABLE, 64, &SPLIT_TABLE),
        (FIRST, 2, &[42, 43]),
        (SECOND, 3, &[44, 45, 46]),
        (DEVICE + 68, 2, &[]),
    ],
    request: &[42, 43, 44, 45, 46],
    publication: &[(REPLY, 512, &[]), (DEVICE + 4, 8, &[]), (DEVICE + 2, 2, &[])],
    wish: (DRIVER + 20, 2, &[]), // used_event: at the first
    notified: true,
    next: &[(DRIVER + 2, 2, &[1, 0]), (DEVICE + 68, 2, &[])],
};

// The id is 5. Its table has a range to be read and one of 600 bytes to be written.
const PACKED_AREA: [u8; 16] = [0, 0, 255, 255, 127, 0, 0, 0, 32, 0, 0, 0, 5, 0, 0x84, 0];

const PACKED_TABLE: [u8; 32] = [
    3, 0, 0, 0, 10, 0, 0, 0, 3, 0, 0, 0, 0, 0, 0, 0, // 3 bytes
    1, 0, 0, 0, 0x35, 0, 0, 0, 88, 2, 0, 0, 0, 0, 2, 0,
];

// INDIRECT_DESC, VERSION_1 and RING_PACKED.
static PACKED: Case = Case {
    features: (0x1000_0000, 5),
    pop: &[
        (DESC + 14, 2, &[0x84, 0]),
        (DESC, 128, &PACKED_AREA),
        (TABLE, 32, &PACKED_TABLE),
        (SECOND, 3, &[44, 45, 46]),
    ],
    request: &[44, 45, 46],
    publication: &[(REPLY, 512, &[]), (DESC + 8, 8, &[])],
    wish: (DRIVER, 4, &[0, 0, 1, 0]), // RING_EVENT_FLAGS_DISABLE
    notified: false,
    next: &[(DESC + 30, 2, &[])],
};

fn device_of(alloc: Global, features: (u32, u32)) -> AskingDevice {
    let config = GuestConfig {
        memory: 1 << 40,
        ..GuestConfig::of_capacity(1)
    };
    let mut device = AskingDevice::new(alloc, 7, &config);
    for (offset, value) in [
        (STATUS, 3),
        (DRIVER_FEATURES_SEL, 0),
        (DRIVER_FEATURES, features.0),
        (DRIVER_FEATURES_SEL, 1),
        (DRIVER_FEATURES, features.1),
        (STATUS, 11),
        (QUEUE_NUM, 8),
        (QUEUE_DESC_HIGH, 0x40),
        (QUEUE_DRIVER_HIGH, 0x50),
        (QUEUE_DEVICE_HIGH, 0x60),
        (QUEUE_READY, 1),
        (STATUS, 15),
    ] {
        device.write(offset, 4, value);
    }
    device
}

fn tells(alloc: Global, device: &mut AskingDevice, told: &Told) -> bool {
    let (at, len, bytes) = *told;
    let mut copy = Vec::new(alloc);
    copy.extend_from_slice(bytes).is_ok()
        && copy.resize(len as usize, 0).is_ok()
        && device.tell(at, &copy).is_ok()
}

fn ask_of(told: &Told) -> Ask {
    Ask {
        at: told.0,
        len: told.1,
    }
}

// What a pop asks for, where it does.
fn asked(device: &mut AskingDevice) -> Option<Ask> {
    match device.pop() {
        Err(PopFault::Missing(ask)) => Some(ask),
        _ => None,
    }
}

// A pop that asks changes nothing: the next one asks for the same.
fn asks_in_this_order(alloc: Global, device: &mut AskingDevice, asks: &[Told]) -> bool {
    for told in asks {
        let ask = Some(ask_of(told));
        if asked(device) != ask || asked(device) != ask || !tells(alloc, device, told) {
            return false;
        }
    }
    true
}

fn lacks_in_order(alloc: Global, device: &mut AskingDevice, done: &Done, parts: &[Told]) -> bool {
    for told in parts {
        if device.lacks(done) != Some(ask_of(told)) || !tells(alloc, device, told) {
            return false;
        }
    }
    true
}

fn publishes(device: &mut AskingDevice, done: Done) -> bool {
    match device.lacks(&done) {
        None => device.publish(done) == Published::Wrote { notify: false },
        Some(_) => false,
    }
}

// Whether the reply is given back once all was told that its publication lacks.
fn gives_back(alloc: Global, device: &mut AskingDevice, done: Done, parts: &[Told]) -> bool {
    lacks_in_order(alloc, device, &done, parts) && publishes(device, done)
}

// The next chain, where its request is this.
fn popped(device: &mut AskingDevice, request: &[u8]) -> Option<Job> {
    match device.pop() {
        Ok(Some(job)) if job.request() == request => Some(job),
        _ => None,
    }
}

// The reply to the next chain.
fn reply_to(alloc: Global, device: &mut AskingDevice, request: &[u8]) -> Option<Done> {
    match popped(device, request) {
        Some(job) => reply_of(alloc, job, &[7; 512]),
        None => None,
    }
}

fn answers(alloc: Global, device: &mut AskingDevice, case: &Case) -> bool {
    let reply = reply_to(alloc, device, case.request);
    device.forget();
    match reply {
        Some(done) => gives_back(alloc, device, done, case.publication),
        None => false,
    }
}

// Whether the driver is notified just where it wants to be, once.
fn notifies(alloc: Global, device: &mut AskingDevice, case: &Case) -> bool {
    device.forget();
    device.notify() == Err(ask_of(&case.wish))
        && tells(alloc, device, &case.wish)
        && device.notify() == Ok(case.notified)
        && device.notify() == Ok(false)
}

// Whether the next pop finds no second chain.
fn finds_none(alloc: Global, device: &mut AskingDevice, case: &Case) -> bool {
    device.forget();
    asks_in_this_order(alloc, device, case.next) && matches!(device.pop(), Ok(None))
}

fn goes_as_told(alloc: Global, device: &mut AskingDevice, case: &Case) -> bool {
    asks_in_this_order(alloc, device, case.pop)
        && answers(alloc, device, case)
        && notifies(alloc, device, case)
        && finds_none(alloc, device, case)
}

fn goes(alloc: Global, case: &Case) -> bool {
    let mut device = device_of(alloc, case.features);
    goes_as_told(alloc, &mut device, case)
}

#[test]
fn pops_and_publications_ask_in_order(rt: HostRuntime) -> Result<(), Fail> {
    check(goes(rt.alloc(), &SPLIT), "a split ring")?;
    check(goes(rt.alloc(), &PACKED), "a packed ring")
}
