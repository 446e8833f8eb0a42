//! Just what a serve needs.
use crate::tests::driver::{COUNTER, NO_KEY, REPLY, REQUEST, descriptor};
use crate::tests::rig::{Calls, Rig, plain, try_fresh};
use machine::What;
use mmio_transport::register as reg;
use std::test::Fail;

/// A counter through a table over a split ring: the index, an entry, the descriptors, the table,
/// the request (VIRTIO 1.2, 2.7.5 to 2.7.7); avail_event, and once more before the last look
/// (2.7.10); the reply, its used element, the used index (2.7.8); used_event.
static OVER_SPLIT: [(What, u64, u64); 14] = [
    (What::Read, 0x2002, 2),
    (What::Read, 0x2004, 2),
    (What::Read, 0x1000, 256),
    (What::Read, 0x5000, 32),
    (What::Read, REQUEST, 512),
    (What::Write, 0x3084, 2),
    (What::Read, 0x2002, 2),
    (What::Write, REPLY, 512),
    (What::Write, 0x3004, 8),
    (What::Write, 0x3002, 2),
    (What::Read, 0x2024, 2),
    (What::Call, 0, 0),
    (What::Read, 0x2002, 2),
    (What::Rest, 0, 0),
];

/// The same over a packed ring: flags, descriptors, table, request; the next flags; the reply and
/// its used descriptor; the driver's event suppression (2.8.1, 2.8.10, 2.8.13).
static OVER_PACKED: [(What, u64, u64); 11] = [
    (What::Read, 0x100e, 2),
    (What::Read, 0x1000, 256),
    (What::Read, 0x5000, 32),
    (What::Read, REQUEST, 512),
    (What::Read, 0x101e, 2),
    (What::Write, REPLY, 512),
    (What::Write, 0x1008, 8),
    (What::Read, 0x2000, 4),
    (What::Call, 0, 0),
    (What::Read, 0x101e, 2),
    (What::Rest, 0, 0),
];

/// Puts a counter through a table at 0x5000. The words are of what refers to it, of the request and
/// of the reply.
fn put_table<M: Calls>(rig: &mut Rig<M>, words: [[u16; 2]; 3]) {
    rig.put(0, 0x1000, &descriptor(0x5000, 32, words[0]));
    rig.put(0, 0x5000, &descriptor(REQUEST, 512, words[1]));
    rig.put(0, 0x5010, &descriptor(REPLY, 512, words[2]));
}

/// Just this is needed until the counter is answered, and the guest is interrupted.
fn needs<M: Calls>(rig: &mut Rig<M>, needed: &[(What, u64, u64)]) -> bool {
    rig.needs.clear();
    rig.settle(0).is_some()
        && rig.machine.line(0) == 1
        && rig.ends(0, 0, NO_KEY, COUNTER)
        && rig.needs.as_slice() == needed
}

/// With INDIRECT_DESC and EVENT_IDX, 28 and 29. The used index is then 1, its element chain 0 with
/// 512 bytes; avail_event is 1.
fn needs_over_split<M: Calls>(rig: &mut Rig<M>) -> bool {
    rig.set_up(0, 1 << 28 | 1 << 29, 15);
    let is_offered = rig.offer(0, 0, COUNTER);
    put_table(rig, [[4, 0], [1, 1], [2, 0]]);
    is_offered
        && needs(rig, &OVER_SPLIT)
        && rig.holds(0, 0x3000, &[0, 0, 1, 0, 0, 0, 0, 0, 0, 2, 0, 0])
        && rig.holds(0, 0x3084, &[1, 0])
}

/// The id is 7, AVAIL is set; then USED too, and the device wrote (2.8.4). The driver's area wants
/// to be told of place 0 of the first wrap (2.8.10).
fn needs_over_packed<M: Calls>(rig: &mut Rig<M>) -> bool {
    rig.set_up(0, 1 << 34 | 1 << 28 | 1 << 29, 15);
    let is_offered = rig.offer(0, 0, COUNTER);
    put_table(rig, [[7, 0x84], [0, 0], [0, 2]]);
    rig.put(0, 0x1010, &[0; 16]);
    rig.put(0, 0x2000, &[0, 0x80, 2, 0]);
    is_offered && needs(rig, &OVER_PACKED) && rig.holds(0, 0x1008, &[0, 2, 0, 0, 7, 0, 0x82, 0x80])
}

fn needs_just_these<M: Calls>(rig: &mut Rig<M>) -> bool {
    needs_over_split(rig) && needs_over_packed(rig)
}

#[test]
fn a_counter_needs_just_these_bytes(rt: HostRuntime) -> Result<(), Fail> {
    try_fresh(rt.alloc(), &[plain()], needs_just_these)
}

fn steps<M: Calls>(rig: &mut Rig<M>, calls: u32) -> bool {
    for _ in 0..calls {
        if rig.step(0).is_none() {
            return false;
        }
    }
    true
}

/// A serve needs nothing but the index, twice at most, and there is no reply.
fn needs_no_chain<M: Calls>(rig: &mut Rig<M>) -> bool {
    rig.needs.clear();
    match rig.serve(0) {
        Some(served) => served.fault.is_none() && rig.needs.len() <= 3 && rig.ends(0, 0, 0, 0),
        None => false,
    }
}

/// A reset after so many calls of a serve: what it was asked for counts for nothing, whether it is
/// told to be there or not.
fn is_void_after<M: Calls>(rig: &mut Rig<M>, calls: u32, is_there: bool) -> bool {
    rig.set_up(0, 0, 15);
    if !rig.offer(0, 0, COUNTER) || !steps(rig, calls) {
        return false;
    }
    rig.set_up(0, 0, 15);
    rig.buffer.fill(0xff);
    rig.is_there = is_there;
    needs_no_chain(rig) && rig.ask(0, 0, COUNTER, NO_KEY).is_some()
}

fn is_always_void<M: Calls>(rig: &mut Rig<M>) -> bool {
    for calls in 0..16 {
        if !is_void_after(rig, calls, true) || !is_void_after(rig, calls, false) {
            return false;
        }
    }
    true
}

#[test]
fn a_reset_voids_what_was_asked(rt: HostRuntime) -> Result<(), Fail> {
    try_fresh(rt.alloc(), &[plain()], is_always_void)
}

/// Just one call of a serve, with no fault.
fn rests_at_once<M: Calls>(rig: &mut Rig<M>) -> bool {
    match rig.serve(0) {
        Some(served) => served.fault.is_none() && rig.needs.len() == 1,
        None => false,
    }
}

fn waits_for_driver_ok<M: Calls>(rig: &mut Rig<M>) -> bool {
    rig.set_up(0, 0, 11);
    if !rig.offer(0, 0, COUNTER) || !rests_at_once(rig) {
        return false;
    }
    rig.machine.set(0, reg::STATUS, 15);
    rig.settle(0).is_some() && rig.ends(0, 0, NO_KEY, COUNTER)
}

/// Before DRIVER_OK; what was offered is served behind it.
#[test]
fn nothing_is_looked_at_before_driver_ok(rt: HostRuntime) -> Result<(), Fail> {
    try_fresh(rt.alloc(), &[plain()], waits_for_driver_ok)
}
