//! What is refused: features, openings, guests that break the rules, calls.
use crate::tests::driver::{COUNTER, NO_KEY, descriptor};
use crate::tests::rig::{Calls, REGION, Rig, check, fresh_image, plain, try_fresh};
use machine::{Machine, MachineFault, Served, Setup, What};
use mmio_transport::register as reg;
use std::alloc::Global;
use std::test::Fail;

/// VIRTIO_F_INDIRECT_DESC (VIRTIO 1.2, 6), and ACCESS_PLATFORM among the features 32 to 63.
const INDIRECT: u32 = 1 << 28;

const PLATFORM: u32 = 1 << 1;

/// Whether INDIRECT is offered, and ACCESS_PLATFORM.
fn offered<M: Calls>(rig: &mut Rig<M>) -> (bool, bool) {
    let low = rig.machine.see(0, reg::DEVICE_FEATURES) & INDIRECT != 0;
    rig.machine.set(0, reg::DEVICE_FEATURES_SEL, 1);
    (
        low,
        rig.machine.see(0, reg::DEVICE_FEATURES) & PLATFORM != 0,
    )
}

/// Whether each may be taken.
fn taken<M: Calls>(rig: &mut Rig<M>) -> (bool, bool) {
    let low = rig.set_up(0, u64::from(INDIRECT), 15);
    (low, rig.set_up(0, u64::from(PLATFORM) << 32, 15))
}

fn shows_all<M: Calls>(rig: &mut Rig<M>) -> bool {
    rig.machine.see(0, reg::QUEUE_NUM_MAX) == 256
        && offered(rig) == (true, false)
        && taken(rig) == (true, false)
}

fn shows_what_was_asked<M: Calls>(rig: &mut Rig<M>) -> bool {
    rig.machine.see(0, reg::QUEUE_NUM_MAX) == 2
        && offered(rig) == (false, true)
        && taken(rig) == (false, true)
}

#[test]
fn features_are_shown_as_was_asked(rt: HostRuntime) -> Result<(), Fail> {
    let mut asked = plain();
    asked.withheld = u64::from(INDIRECT);
    asked.queue = Some(2);
    asked.platform = true;
    try_fresh(rt.alloc(), &[plain()], shows_all)?;
    try_fresh(rt.alloc(), &[asked], shows_what_was_asked)
}

/// Why an image isn't opened.
fn fault_of(alloc: Global, setups: &[Setup], image: &[u8]) -> Option<MachineFault> {
    Machine::open(alloc, setups, image).err()
}

/// Two boards whose images are equally long: a monitor formats what is no image, and would destroy
/// the other board's.
fn are_told_apart(alloc: Global, image: &mut [u8], larger: Setup) -> bool {
    let ours = [plain(), larger];
    let others = fault_of(alloc, &[larger, plain()], image);
    let longer = fault_of(alloc, &[plain()], image);
    image.fill(0);
    others == Some(MachineFault::OtherConfig)
        && longer == Some(MachineFault::BadLength)
        && fault_of(alloc, &ours, image) == Some(MachineFault::NotFormatted)
}

#[test]
fn another_boards_image_is_never_none(rt: HostRuntime) -> Result<(), Fail> {
    let mut larger = plain();
    larger.config.capacity = 2;
    match fresh_image(rt.alloc(), &[plain(), larger]) {
        Some(mut image) => check(
            are_told_apart(rt.alloc(), &mut image, larger),
            "another fault",
        ),
        None => Err(Fail::from("no image")),
    }
}

/// DEVICE_NEEDS_RESET (2.1) is set where the guest is served.
fn stops<M: Calls>(rig: &mut Rig<M>) -> bool {
    match rig.serve(0) {
        Some(served) => {
            served.fault == Some(MachineFault::Stopped) && rig.machine.see(0, reg::STATUS) & 64 != 0
        }
        None => false,
    }
}

/// A reset heals it, and no other device stops.
fn stops_alone<M: Calls>(rig: &mut Rig<M>) -> bool {
    stops(rig) && rig.counts_anew(1, NO_KEY) && rig.counts_anew(0, NO_KEY)
}

/// The first guest's descriptors lie there.
fn stops_by_queue<M: Calls>(rig: &mut Rig<M>, at: u32) -> bool {
    rig.set_up(0, 0, 15);
    let is_offered = rig.offer(0, 0, COUNTER);
    rig.machine.set(0, reg::QUEUE_READY, 0);
    rig.machine.set(0, reg::QUEUE_DESC_LOW, at);
    rig.machine.set(0, reg::QUEUE_READY, 1);
    is_offered && stops_alone(rig)
}

/// Its reply does.
fn stops_by_reply<M: Calls>(rig: &mut Rig<M>, at: u32) -> bool {
    rig.set_up(0, 0, 15);
    let is_offered = rig.offer(0, 0, COUNTER);
    rig.put(0, 0x1010, &descriptor(u64::from(at), 512, [2, 0]));
    is_offered && stops_alone(rig)
}

fn stops_at<M: Calls>(rig: &mut Rig<M>, at: u32) -> bool {
    stops_by_queue(rig, at) && stops_by_reply(rig, at)
}

fn stops_where_nothing_is<M: Calls>(rig: &mut Rig<M>) -> bool {
    stops_at(rig, 0x20_000) && stops_at(rig, REGION as u32 - 240)
}

/// Reads and writes where there is no memory, or not for all of it; a reset heals the device.
#[test]
fn what_is_not_there_stops_one_device(rt: HostRuntime) -> Result<(), Fail> {
    let setups = [plain(), plain()];
    try_fresh(rt.alloc(), &setups, stops_where_nothing_is)
}

fn rests_by(served: &Served, fault: MachineFault) -> bool {
    served.what == What::Rest && served.fault == Some(fault)
}

/// A call with too little room, and one of another guest.
fn refuses_calls<M: Calls>(rig: &mut Rig<M>) -> bool {
    let short = rig.machine.serve_once(0, true, &mut [0; 16_383]);
    let nobody = rig.machine.serve_once(1, true, &mut rig.buffer);
    rests_by(&short, MachineFault::OutOfRange) && rests_by(&nobody, MachineFault::NoGuest)
}

/// No guest has a status, nor is it kicked.
fn is_nobody<M: Calls>(rig: &mut Rig<M>, guest: u16) -> bool {
    rig.machine.see(guest, reg::STATUS) == 0 && !rig.machine.set(guest, reg::QUEUE_NOTIFY, 0)
}

fn is_untouched_by_calls<M: Calls>(rig: &mut Rig<M>) -> bool {
    rig.set_up(0, 0, 15);
    rig.offer(0, 0, COUNTER)
        && refuses_calls(rig)
        && is_nobody(rig, 1)
        && rig.settle(0).is_some()
        && rig.ends(0, 0, NO_KEY, COUNTER)
}

#[test]
fn a_call_for_no_guest_or_no_room_does_nothing(rt: HostRuntime) -> Result<(), Fail> {
    try_fresh(rt.alloc(), &[plain()], is_untouched_by_calls)
}
