//! What a partition replies, and what each request leaves of it.
mod blocks;
mod ends;
mod failures;
mod fields;
mod mac_checks;
mod refusals;
mod steps;
mod without_key;

use crate::tests::checks::{check_row, same};
use crate::tests::limits::limits_of;
use blocks::{ALONE, BLOCKS, LIMITED};
use ends::{CAPACITY_2, CAPACITY_128, LAST_COUNTER};
use failures::FAILURES;
use fields::FIELDS;
use refusals::REFUSALS;
use rpmb_core::{Partition, fail, failure_kind};
use rpmb_frame::{Limits, Request};
use std::alloc::Global;
use std::test::Fail;
use steps::{Row, Scenario, Step, first_bytes, frames_of, is_reply, take_steps};
use without_key::WITHOUT_KEY;

/// The state that steps left.
#[derive(Clone, Copy, PartialEq)]
struct Left {
    key: Option<[u8; 32]>,
    counter: u32,
    sequence: u64,
    /// The first byte of the blocks at 0, 7, 22, 511 and past the last one.
    firsts: [u8; 5],
}

const KEYED: Option<[u8; 32]> = Some([0x11; 32]);

fn state_of(partition: &Partition) -> Left {
    let mut firsts = [0; 5];
    for (i, address) in [0, 7, 22, 511, 512].iter().enumerate() {
        let block = partition.block(*address);
        firsts[i] = block[0];
    }
    Left {
        key: partition.key(),
        counter: partition.counter(),
        sequence: partition.sequence(),
        firsts,
    }
}

/// Whether a partition of so many units, and its copy, have this state.
fn is_left(alloc: Global, partition: &Partition, capacity: u8, state: &Left) -> Result<bool, Fail> {
    let copy = partition.copy(alloc)?;
    Ok(state_of(partition) == *state && state_of(&copy) == *state && copy.capacity() == capacity)
}

/// What a scenario leaves of a partition: the units of 128 KiB that it has, how many blocks its
/// guest may write and read at once, and its key, counter, sequence and first bytes then.
type Leaving = (u8, (u8, u8), Option<[u8; 32]>, u32, u64, [u8; 5]);

/// Whether a partition and its copy have this state after the steps.
fn leaves(alloc: Global, scenario: &Scenario, told: &Leaving) -> Result<bool, Fail> {
    let (capacity, counts, key, counter, sequence, firsts) = *told;
    let limits = limits_of(alloc, counts)?;
    let mut partition = Partition::new(alloc, capacity)?;
    take_steps(&mut partition, limits, scenario)?;
    let left = Left {
        key,
        counter,
        sequence,
        firsts,
    };
    is_left(alloc, &partition, capacity, &left)
}

/// What the scenario of the same place leaves.
static STATES: [Leaving; 8] = [
    (1, (16, 16), None, 0, 0, [0; 5]),
    (1, (16, 16), KEYED, 0, 1, [0; 5]),
    (1, (16, 16), KEYED, 2, 3, [0, 0x30, 0x3f, 0xa5, 0]),
    (1, (16, 16), KEYED, 1, 2, [0xa5, 0, 0, 0, 0]),
    (1, (2, 1), KEYED, 1, 2, [0, 0, 0, 0xa6, 0]),
    (1, (16, 16), KEYED, 2, 3, [0; 5]),
    (2, (16, 16), KEYED, 1, 2, [0; 5]),
    (128, (16, 16), KEYED, 1, 2, [0; 5]),
];

/// A static can't refer to the scenarios, which are statics.
fn scenarios() -> [&'static Scenario; 8] {
    [
        &WITHOUT_KEY,
        &REFUSALS,
        &BLOCKS,
        &ALONE,
        &LIMITED,
        &FIELDS,
        &CAPACITY_2,
        &CAPACITY_128,
    ]
}

#[test]
fn replies_and_what_they_leave(rt: HostRuntime) -> Result<(), Fail> {
    for (place, scenario) in scenarios().iter().enumerate() {
        check_row(leaves(rt.alloc(), scenario, &STATES[place])?, place)?;
    }
    Ok(())
}

#[test]
fn copy_at_the_last_counter(rt: HostRuntime) -> Result<(), Fail> {
    let alloc = rt.alloc();
    let blocks = vec![in alloc; 0; 131_072]?;
    let near = Partition::of(1, KEYED, 0xFFFF_FFFE, blocks);
    let mut partition = near.copy(alloc)?;
    take_steps(&mut partition, limits_of(alloc, (16, 16))?, &LAST_COUNTER)?;
    let end = partition.copy(alloc)?;
    assert!(rt;
        state_of(&near)
            == Left {
                key: KEYED,
                counter: 0xFFFF_FFFE,
                sequence: 0xFFFF_FFFF,
                firsts: [0; 5]
            }
    );
    assert!(rt;
        state_of(&end)
            == Left {
                key: KEYED,
                counter: 0xFFFF_FFFF,
                sequence: 0x1_0000_0000,
                firsts: [0; 5]
            }
    );
    assert!(rt; end.block(0x31) == [0x74; 256] && end.block(65_535) == [0; 256]);
    Ok(())
}

/// Whether a reply of so many blocks of 1,024 bytes becomes this failure reply to a request.
fn becomes_failure(
    alloc: Global,
    request: &Request<'_>,
    code: u16,
    blocks: usize,
    failure: &[u8],
) -> Result<bool, Fail> {
    let mut reply = vec![in alloc; 0xee; 1024 * blocks.min(8)]?;
    fail(&mut reply, failure_kind(request), code);
    Ok(same(&reply, failure))
}

/// Whether the failure reply to a request is as told, and whether a reply of so many bytes becomes
/// it.
fn fails_as_told(
    alloc: Global,
    request: &Request<'_>,
    code: u16,
    told: &[Row],
) -> Result<bool, Fail> {
    let mut out = [0xee; 8192];
    let len = Partition::failure(request, code, &mut out);
    let is_told = len == 512 * told.len().min(16) && is_reply(&out, told);
    Ok(is_told && becomes_failure(alloc, request, code, told.len(), &out[..len])?)
}

/// Whether the failure reply to these bytes is as told.
fn bytes_fail_as_told(
    alloc: Global,
    limits: Limits,
    step: &Step,
    bytes: &[u8],
    reply: &[Row],
) -> Result<bool, Fail> {
    let request = Request::classify(bytes, step.1, limits);
    fails_as_told(alloc, &request, step.2, reply)
}

/// Whether the failure reply to a step's request is as told.
fn step_fails_as_told(
    alloc: Global,
    limits: Limits,
    step: &Step,
    request: &[Row],
    reply: &[Row],
) -> Result<bool, Fail> {
    let frames = frames_of(request, 0);
    bytes_fail_as_told(
        alloc,
        limits,
        step,
        first_bytes(&frames, request.len()),
        reply,
    )
}

#[test]
fn failure_replies(rt: HostRuntime) -> Result<(), Fail> {
    let limits = limits_of(rt.alloc(), (16, 16))?;
    let (mut requests, mut replies) = (FAILURES.requests, FAILURES.replies);
    for (place, step) in FAILURES.steps.iter().enumerate() {
        let (asked, given) = (step.0, step.3);
        let (Some(request), Some(reply)) = (requests.get(..asked), replies.get(..given)) else {
            return check_row(false, place);
        };
        let fails = step_fails_as_told(rt.alloc(), limits, step, request, reply)?;
        check_row(fails, place)?;
        requests = &requests[asked..];
        replies = &replies[given..];
    }
    Ok(())
}

/// The reply to a malformed request: a frame of zeros but for its result, 1.
static MALFORMED: [Row; 1] = [(0, [0; 4], 0, [0; 2], 0, 0x0000_0000_0001_0000)];

/// Whether these bytes are answered as malformed.
fn is_malformed(partition: &Partition, limits: Limits, bytes: &[u8]) -> bool {
    let request = Request::classify(bytes, 512, limits);
    let mut out = [0xee; 8192];
    partition.verdict(&request) == 1
        && partition.reply(&request, 1, None, &mut out) == 512
        && is_reply(&out, &MALFORMED)
}

/// Bytes that are no frames are answered as malformed.
#[test]
fn bytes_that_are_no_frames(rt: HostRuntime) -> Result<(), Fail> {
    let limits = limits_of(rt.alloc(), (16, 16))?;
    let partition = Partition::new(rt.alloc(), 1)?;
    check_row(is_malformed(&partition, limits, &[]), 0)?;
    check_row(is_malformed(&partition, limits, &[0; 511]), 511)?;
    check_row(is_malformed(&partition, limits, &[0; 513]), 513)
}
