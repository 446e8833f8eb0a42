//! Images whose gates were opened by hand: what an opening makes of the payloads behind them, by
//! the version byte.
use super::image::{Bench, Image, KEY, ONE, Row, try_rows};
use crate::tests::intents::write_of;
use intent_slots::PAYLOAD_LENGTH;
use recovery::OpenFault;
use std::alloc::Global;
use std::test::Fail;

/// What is put into a slot.
#[derive(Clone, Copy)]
enum Put {
    /// Nothing: its gate stays shut.
    Nothing,
    /// Behind an open gate a payload of zeros.
    Zeros,
    /// Behind an open gate the write of a block, which leaves this counter under the usual key.
    Write(u32),
    /// The same under another key.
    Other(u32),
}

/// The version byte, what is put into slot A and slot B, and the counter that an opening finds;
/// None where it finds no image.
struct Case(u8, Put, Put, Option<u32>);

static CASES: [Case; 17] = [
    Case(2, Put::Nothing, Put::Nothing, Some(0)),
    Case(2, Put::Write(1), Put::Nothing, Some(1)),
    Case(2, Put::Nothing, Put::Write(5), Some(5)),
    // In either order of the slots.
    Case(2, Put::Write(1), Put::Write(2), Some(2)),
    Case(2, Put::Write(8), Put::Write(7), Some(8)),
    // A request between them is missing, or they are the same one, or of two keys.
    Case(2, Put::Write(1), Put::Write(3), None),
    Case(2, Put::Write(3), Put::Write(1), None),
    Case(2, Put::Write(1), Put::Write(1), None),
    Case(2, Put::Write(1), Put::Other(2), None),
    Case(2, Put::Other(2), Put::Write(1), None),
    Case(2, Put::Write(1), Put::Zeros, None),
    Case(2, Put::Nothing, Put::Zeros, None),
    // Slot B counts in version 2 alone.
    Case(1, Put::Nothing, Put::Zeros, Some(0)),
    Case(1, Put::Write(1), Put::Write(3), Some(1)),
    Case(0, Put::Write(1), Put::Other(2), Some(1)),
    Case(3, Put::Write(1), Put::Write(2), Some(1)),
    Case(255, Put::Zeros, Put::Write(1), None),
];

/// Where the gate and the payload of each slot stand.
static PLACES: [(u64, u64); 2] = [(1_536, 2_048), (18_944, 19_456)];

/// The payload of a write under this counter and key.
fn encoded(alloc: Global, key: [u8; 32], counter: u32) -> Option<Vec<u8>> {
    let Some(intent) = write_of(alloc, (0, key), counter, (0, 0x77), 1) else {
        return None;
    };
    let Ok(mut bytes) = vec![in alloc; 0; PAYLOAD_LENGTH] else {
        return None;
    };
    intent.encode(bytes.as_mut_slice());
    Some(bytes)
}

/// The payload that stands in a slot.
fn payload(alloc: Global, put: Put) -> Option<Vec<u8>> {
    match put {
        Put::Write(counter) => encoded(alloc, KEY, counter),
        Put::Other(counter) => encoded(alloc, [0x4c; 32], counter),
        _ => vec![in alloc; 0; PAYLOAD_LENGTH].ok(),
    }
}

/// Puts a payload behind a gate, and opens it.
fn fills_slot<I: Image>(bench: &mut Bench<I>, slot: usize, put: Put) -> bool {
    if let Put::Nothing = put {
        return true;
    }
    let (gate, at) = PLACES[slot.min(1)];
    match payload(bench.alloc, put) {
        Some(bytes) => bench.image.put(at, &bytes) && bench.image.put(gate, &[0xA5]),
        None => false,
    }
}

/// An image with this version byte, and this in its slots.
fn is_made<I: Image>(bench: &mut Bench<I>, case: &Case) -> bool {
    bench.image.put(512, &[case.0]) && fills_slot(bench, 0, case.1) && fills_slot(bench, 1, case.2)
}

fn opens_to<I: Image>(bench: &mut Bench<I>, counter: u32) -> bool {
    match (bench.opens(), bench.image.found(0)) {
        (true, Some(found)) => found.1 == counter,
        _ => false,
    }
}

/// An opening finds the counter, or no image.
impl<I: Image> Row<I> for Case {
    fn goes(&self, bench: &mut Bench<I>) -> bool {
        if !is_made(bench, self) {
            return false;
        }
        match self.3 {
            Some(counter) => opens_to(bench, counter),
            None => bench.fault() == Some(OpenFault::NotFormatted),
        }
    }
}

#[test]
fn payloads_by_version(rt: HostRuntime) -> Result<(), Fail> {
    try_rows(rt.alloc(), ONE, &CASES)
}
