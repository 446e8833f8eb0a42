//! The place at which a queue rests, in 16 bits (VIRTIO 1.2, 2.7.6 and 2.8.1).
use chains::Places;
use mmio_transport::{RestingQueue, RingKind};
use std::test::Fail;

/// How many places were used, and the place that is told, of a queue of so many places.
static TOLD: [(RingKind, u16, u128, u16); 9] = [
    (RingKind::Split, 256, 0, 0),
    (RingKind::Split, 256, 65_535, 65_535),
    (RingKind::Split, 256, 65_536, 0),
    (RingKind::Packed, 16, 0, 0x8000),
    (RingKind::Packed, 16, 15, 0x800f),
    (RingKind::Packed, 16, 16, 0),
    (RingKind::Packed, 16, 31, 15),
    (RingKind::Packed, 16, 32, 0x8000),
    (RingKind::Packed, 7, 10, 3),
];

fn queue(kind: RingKind, size: u16, used: u128) -> RestingQueue {
    RestingQueue {
        kind,
        places: Places {
            descriptors: 0,
            driver: 0x1000,
            device: 0x2000,
            indirect: false,
            event_idx: false,
            in_order: false,
        },
        size,
        last: 9,
        used,
    }
}

/// The place that is told, of a queue of 1 to 256 places.
fn told(queue: &RestingQueue) -> Option<u16> {
    if queue.size == 0 || queue.size > 256 {
        None
    } else {
        Some(queue.place())
    }
}

/// It is told so, and a queue that goes on there is told so too.
fn is_told(kind: RingKind, size: u16, used: u128, place: u16) -> bool {
    let is_so = told(&queue(kind, size, used)) == Some(place);
    match queue(kind, size, 0).at(place) {
        Some(moved) => is_so && moved.last == 9 && told(&moved) == Some(place),
        None => false,
    }
}

#[test]
fn places_are_told_by_lap_and_index() -> Result<(), Fail> {
    for (kind, size, used, place) in &TOLD {
        if !is_told(*kind, *size, *used, *place) {
            return Err(Fail::from("another place"));
        }
    }
    let is_none = queue(RingKind::Packed, 16, 0).at(16).is_none();
    if is_none {
        Ok(())
    } else {
        Err(Fail::from("a place behind the last"))
    }
}
