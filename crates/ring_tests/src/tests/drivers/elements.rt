//! Elements of the used ring that the guest wrote itself, and what a reap says of them.
use super::{DRIVER, Form, Pair, Turn, go};
use crate::tests::devices::stores;
use guest_driver::{DriverFault, DriverLayout};
use mmio_transport::{Device, RingKind};
use std::test::Fail;

// Stores the index and the first element of the used ring, at the device's area of the driver's
// layout.
fn puts_element(device: &mut Device, id: u32, len: u32) -> bool {
    let area = DriverLayout::of(RingKind::Split, DRIVER.queue).device_area;
    let at = area.min(131072);
    stores(device, at + 4, &id.to_le_bytes())
        && stores(device, at + 8, &len.to_le_bytes())
        && stores(device, at + 2, &[1, 0])
}

// Makes the first descriptor of a packed ring a used one, of the first round.
fn puts_used(device: &mut Device, id: u32, len: u32) -> bool {
    stores(device, 8, &len.to_le_bytes())
        && stores(device, 12, &id.to_le_bytes())
        && stores(device, 14, &[0x82, 0x80])
}

pub fn uses(pair: &mut Pair, id: u32, len: u32) -> bool {
    match pair.ring {
        RingKind::Split => puts_element(&mut pair.device, id, len),
        RingKind::Packed => puts_used(&mut pair.device, id, len),
    }
}

// While a chain with room for 2 bytes is in flight under the id 0, the device's first element has
// an id and a length. Where no chain has them a reap is refused, and once more.
#[rattlefmt::skip]
static ELEMENTS: [(Form, &[Turn]); 8] = [
    ((RingKind::Split, false), &[OFFERED, Turn::Uses(0, 2), REAPED]),
    ((RingKind::Split, true), &[OFFERED, Turn::Uses(0, 3), BAD, BAD]),
    ((RingKind::Split, true), &[OFFERED, Turn::Uses(1, 0), BAD, BAD]),
    ((RingKind::Split, false), &[OFFERED, Turn::Uses(65536, 0), BAD, BAD]),
    ((RingKind::Packed, false), &[OFFERED, Turn::Uses(0, 2), REAPED]),
    ((RingKind::Packed, true), &[OFFERED, Turn::Uses(0, 3), BAD, BAD]),
    ((RingKind::Packed, false), &[OFFERED, Turn::Uses(1, 0), BAD, BAD]),
    ((RingKind::Packed, true), &[OFFERED, Turn::Uses(65535, 0), BAD, BAD]),
];

const OFFERED: Turn = Turn::Offers(&[5, 6, 7], 2, Ok(0));

const REAPED: Turn = Turn::Reaps(0, &[0, 0]);

const BAD: Turn = Turn::FailsToReap(DriverFault::BadUsed);

#[test]
fn elements_that_no_chain_has(rt: HostRuntime) -> Result<(), Fail> {
    for (form, turns) in &ELEMENTS {
        go(rt.alloc(), *form, false, 1, turns)?;
    }
    Ok(())
}
