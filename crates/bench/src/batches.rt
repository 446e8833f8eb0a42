//! Requests that are asked batch by batch, behind those that warm what answers them.
use crate::clock::{Extent, Row, Stop, Times};
use crate::requests::Kind;

/// So many are made before the clock runs: as many as a worker takes under one lock.
const BATCH: u32 = 8;

/// What answers requests. Its methods promise nothing, so what stands above is proved cheaply.
pub trait Subject {
    /// Makes a request under a write counter, behind others.
    fn offer(&mut self, kind: Kind, counter: u32) -> Result<(), Stop>;

    /// Takes the requests that were made, all of this kind, to their replies, which are tested.
    fn answer(&mut self, rt: &HostRuntime, kind: Kind) -> Times;

    /// The replies, mixed.
    fn sum(&self) -> u32;
}

/// Stops where something stopped before.
fn after(before: Result<(), Stop>, times: Times) -> Times {
    Times {
        own: before.and(times.own),
        base: times.base,
    }
}

/// Takes so many requests, the first under this write counter, to their replies.
fn take_batch<S: Subject>(
    rt: &HostRuntime,
    subject: &mut S,
    kind: Kind,
    first: u32,
    count: u32,
) -> Times {
    let mut offered = Ok(());
    for number in 0..count {
        offered = offered.and(subject.offer(kind, first.wrapping_add(number)));
    }
    after(offered, subject.answer(rt, kind))
}

/// Takes batches, the first of them behind others.
fn take_batches<S: Subject>(
    rt: &HostRuntime,
    subject: &mut S,
    kind: Kind,
    behind: u32,
    count: u32,
) -> Times {
    let mut all = Times::none();
    for number in 0..count {
        let first = behind.wrapping_add(number).wrapping_mul(BATCH);
        all = all.plus(take_batch(rt, subject, kind, first, BATCH));
    }
    all
}

/// Times whole batches of a kind, behind the key's request and those that warm what answers them.
pub fn time_kind<S: Subject>(
    rt: &HostRuntime,
    subject: &mut S,
    kind: Kind,
    extent: Extent,
    names: (&'static str, &'static str),
) -> Row {
    let warm = extent.warm / BATCH;
    let count = extent.count.div_ceil(BATCH);
    let keyed = take_batch(rt, subject, Kind::Key, 0, 1);
    let warmed = take_batches(rt, subject, kind, 0, warm);
    let times = take_batches(rt, subject, kind, warm, count);
    Row {
        name: names.0,
        base: names.1,
        count: count.saturating_mul(BATCH),
        times: after(keyed.own.and(warmed.own).and(Ok(())), times),
        sum: subject.sum(),
    }
}
