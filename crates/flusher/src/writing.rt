//! The calls that a store makes to its disk.
ghost use Rattle.std.specs.Prelude.{◌≡◌, ◌+◌, ◌≤◌, length, is_ok, position, IsTrue, slice_get};
ghost use Rattle.std.specs.Prelude.{Some, MatchOption};
ghost use Rattle.disk.specs.Disk.{Write};
ghost use Rattle.intent_slots.specs.Payload.{GroupFits};
ghost use Rattle.intent_slots.specs.Layout.{end_of, slot_region};
ghost use Rattle.flusher.specs.Phase.{open_write, next_write, has_write};
ghost use Rattle.flusher.specs.Slot.{spelled, slot_write, slot_writes, intent_of};
ghost use Rattle.flusher.specs.Pair.{guest_write, guest_has_write, region_of};
ghost use Rattle.flusher.specs.Round.{WroteSlot, SyncedAll};
ghost use Rattle.flusher.specs.Store.{AllFit, IntentFits};

use crate::guest::{Guest, Turn};
use crate::phase::Phase;
use crate::plan::sync_all;
use crate::slot::Slot;
use disk::{Disk, DiskFault};
use intent_slots::{Extent, Intent, OPEN_GATE, SHUT_GATE, Side};

/// Writes the blocks of the entry that comes next, or the home record once all are written.
fn write_open<D: Disk>(
    disk: &mut D,
    extent: &Extent,
    side: Side,
    intent: &Intent,
    done: usize,
) -> Result<(), DiskFault>
    requires fits { GroupFits extent.now.size intent.now.group }
    requires room { end_of extent.now ≤ (D.state disk.old).len }
    ensures { MatchOption (spelled extent.now (slot_region extent.now side)
        (open_write intent.now.group (slice_get intent.now.group.entries done))) ⊥ (λ w.
        D.makes disk.old (Write w.0 w.1 (is_ok result)) disk.new) }
{
    if done < intent.entries() {
        let entry = intent.entry(done);
        disk.write_at(extent.block(entry.address()), entry.blocks())
    } else {
        disk.write_at(extent.home(), &intent.home().encode())
    }
}

/// Makes the next write of what is in a slot.
fn write_slot<D: Disk>(
    disk: &mut D,
    buffer: &mut [u8],
    extent: &Extent,
    side: Side,
    slot: &Slot,
) -> Result<(), DiskFault>
    requires fits { GroupFits extent.now.size slot.now.intent.group }
    requires room { end_of extent.now ≤ (D.state disk.old).len }
    requires buffer { length buffer.old ≡ 16648 }
    requires has { IsTrue (has_write slot.now.phase) }
    ensures wrote { MatchOption (spelled extent.now (slot_region extent.now side)
        (next_write slot.now.phase slot.now.intent.group)) ⊥ (λ w.
        D.makes disk.old (Write w.0 w.1 (is_ok result)) disk.new) }
    ensures buffer { length buffer.new ≡ 16648 }
{
    match slot.phase {
        Phase::Given => {
            slot.intent.encode(buffer);
            disk.write_at(extent.payload(side), &buffer[..slot.intent.payload_len()])
        }
        Phase::Ready => disk.write_at(extent.gate(side), &[OPEN_GATE]),
        Phase::Open(done) => write_open(disk, extent, side, &slot.intent, done),
        Phase::Applied => disk.write_at(extent.gate(side), &[SHUT_GATE]),
        _ => Ok(()),
    }
}

/// Makes the next write of a slot that has one.
fn write_from<D: Disk>(
    disk: &mut D,
    buffer: &mut [u8],
    extent: &Extent,
    side: Side,
    slot: &Option<Slot>,
) -> Result<(), DiskFault>
    requires fits { IntentFits extent.now.size (intent_of slot.now) }
    requires room { end_of extent.now ≤ (D.state disk.old).len }
    requires buffer { length buffer.old ≡ 16648 }
    requires has { IsTrue (slot_writes slot.now) }
    ensures wrote { MatchOption (spelled extent.now (slot_region extent.now side)
        (slot_write slot.now)) ⊥ (λ w. D.makes disk.old (Write w.0 w.1 (is_ok result)) disk.new) }
    ensures buffer { length buffer.new ≡ 16648 }
{
    match slot {
        Some(slot) => write_slot(disk, buffer, extent, side, slot),
        None => Ok(()),
    }
}

/// Makes the guest's next write.
fn write_next<D: Disk>(disk: &mut D, buffer: &mut [u8], guest: &Guest) -> Result<(), DiskFault>
    requires fits { IntentFits (region_of guest.now).size (intent_of guest.now.slot) }
    requires behind { IntentFits (region_of guest.now).size (intent_of guest.now.behind) }
    requires room { end_of (region_of guest.now) ≤ (D.state disk.old).len }
    requires buffer { length buffer.old ≡ 16648 }
    requires has { IsTrue (guest_has_write guest.now) }
    ensures wrote { MatchOption (guest_write guest.now) ⊥ (λ w.
        D.makes disk.old (Write w.0 w.1 (is_ok result)) disk.new) }
    ensures buffer { length buffer.new ≡ 16648 }
{
    match guest.turn() {
        Turn::First => write_from(disk, buffer, &guest.extent, guest.side, &guest.slot),
        Turn::Second => {
            let side = guest.side.other();
            write_from(disk, buffer, &guest.extent, side, &guest.behind)
        }
        Turn::Neither => Ok(()),
    }
}

/// Makes the write of a guest that has one, and moves its slot, however the write ends.
pub(crate) fn write_round<D: Disk>(
    disk: &mut D,
    buffer: &mut [u8],
    guests: &mut [Guest],
    guest: usize,
) -> Result<(), DiskFault>
    requires fits { AllFit (D.state disk.old).len guests.old }
    requires buffer { length buffer.old ≡ 16648 }
    requires next { position guest_has_write guests.old ≡ Some guest }
    ensures fits { AllFit (D.state disk.old).len guests.new }
    ensures room { (D.state disk.new).len ≡ (D.state disk.old).len }
    ensures buffer { length buffer.new ≡ 16648 }
    ensures wrote { WroteSlot D.makes guest disk.old guests.old (is_ok result) disk.new guests.new }
{
    let wrote = write_next(disk, buffer, &guests[guest]);
    guests[guest].move_written();
    wrote
}

/// Makes a sync, and moves all slots where it succeeds.
pub(crate) fn sync_round<D: Disk>(disk: &mut D, guests: &mut [Guest]) -> Result<(), DiskFault>
    requires fits { AllFit (D.state disk.old).len guests.old }
    ensures fits { AllFit (D.state disk.old).len guests.new }
    ensures same { length guests.new ≡ length guests.old }
    ensures room { (D.state disk.new).len ≡ (D.state disk.old).len }
    ensures synced { SyncedAll D.makes disk.old guests.old (is_ok result) disk.new guests.new }
{
    disk.sync()?;
    sync_all(guests);
    Ok(())
}
