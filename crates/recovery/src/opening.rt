//! Opening an image that a stop may have left.
ghost use Rattle.std.specs.Prelude.{◌≡◌, ◌≤◌, true, false, length, IfOk, IfErr, OnOk, Err};
ghost use Rattle.std.specs.Prelude.{vec_capacity};
ghost use Rattle.disk.specs.Disk.{Within, HasRisen};
ghost use Rattle.intent_slots.specs.Layout.{capacities_of, image_length};
ghost use Rattle.recovery.specs.Opening.{Untouched, Calls, AllBegun, Answers, Opened};
ghost use Rattle.recovery.specs.Opening.{disk_after, outcome_of};
ghost use Rattle.recovery.specs.Reading.{Tells, Passes, Opens, IsRead, FindsAllIn, is_disk_fault};
ghost use Rattle.recovery.specs.Space.{AreSupplied};

use crate::fault::OpenFault;
use crate::front::check;
use crate::reading::read_guest;
use crate::space::{Space, Supplies};
use disk::Disk;
use flusher::{Guest, Store};
use intent_slots::Layout;
use rpmb_core::Partition;
use rpmb_frame::BoardConfig;
use std::alloc::Global;

/// Reads each guest, in ascending order.
fn read_guests<D: Disk>(
    disk: &mut D,
    layout: &Layout,
    paired: bool,
    spaces: Vec<Space>,
    buffer: &mut [u8],
    guests: &mut Vec<Guest>,
    partitions: &mut Vec<Partition>,
) -> Result<(), OpenFault>
    requires room { image_length layout.now ≤ (D.state disk.old).len }
    requires supplied { AreSupplied layout.now spaces.items (length buffer.old)
        guests.old.items (vec_capacity guests.old) partitions.old.items
        (vec_capacity partitions.old) }
    ensures passes { Passes D.state D.makes disk.old disk.new (is_disk_fault result) }
    ensures memory { ¬ result ≡ Err OpenFault.NoMemory }
    ensures begun { OnOk result (AllBegun layout.now guests.new.items partitions.new.items) }
    ensures finds { Tells (D.state disk.old)
        (FindsAllIn paired layout.now guests.new.items partitions.new.items result) }
{
    let mut spaces = spaces;
    for number in 0..layout.guests() {
        let space = spaces.remove(0);
        let (guest, partition) = read_guest(disk, layout, number as u16, paired, space, buffer)?;
        guests.push_reserved(guest);
        partitions.push_reserved(partition);
    }
    Ok(())
}

/// Reads the image, after a sync.
fn read_image<D: Disk>(
    disk: &mut D,
    layout: &Layout,
    spaces: Vec<Space>,
    buffer: &mut [u8],
    guests: &mut Vec<Guest>,
    partitions: &mut Vec<Partition>,
) -> Result<(), OpenFault>
    requires supplied { AreSupplied layout.now spaces.items (length buffer.old)
        guests.old.items (vec_capacity guests.old) partitions.old.items
        (vec_capacity partitions.old) }
    ensures opens { Opens D.state D.makes disk.old disk.new (is_disk_fault result) }
    ensures memory { ¬ result ≡ Err OpenFault.NoMemory }
    ensures read { OnOk result (IsRead D.state D.makes layout.now disk.old disk.new
        guests.new.items partitions.new.items) }
    ensures answers { Tells (D.state disk.old)
        (λ c. Answers layout.now (D.state disk.old).len c result) }
{
    let paired = check(disk, layout)?;
    read_guests(disk, layout, paired, spaces, buffer, guests, partitions)
}

/// Opens an image that a stop may have left: the store over it, and the partition of each guest of
/// the board. It takes all its memory first, then makes a sync, and only after its success it
/// reads. Nothing is written. Where a gate is open, the slot is `Open` with none of its blocks
/// written, so that the store's `advance` writes them again. An image of version 2 has a second
/// slot for each guest.
///
/// It takes for each guest its blocks and room for two intents of 16 KiB each, whatever the
/// version, since that is read after all memory is taken, and one buffer of 16,648 bytes. Room that
/// holds no intent is given back at the end.
///
/// Answers `NoMemory` before any call, and `DiskFault` where a call failed. Else it answers, in
/// this order, `NotFormatted` where the disk is shorter than 1,024 bytes or has another magic;
/// `OtherConfig` where the header has another number of guests, or for a guest another capacity
/// than the board; and `NotFormatted` where the disk hasn't the length of the board's image, the
/// home behind shut gates or the payload behind an open gate (0xA5) isn't well formed, or of two
/// open payloads neither comes next after the other under the same key.
pub fn open<D: Disk>(
    alloc: Global,
    disk: D,
    board: &BoardConfig,
) -> Result<(Store<D>, Vec<Partition>), (D, OpenFault)>
    ensures opened { IfOk result
        (λ r. Opened D.state (capacities_of board.now) (D.state disk) r.0 r.1.items) }
    ensures answers { (D.state disk).faithful ≡ true
        → Answers (capacities_of board.now)
        (D.state disk).len (D.state disk).seen (outcome_of result) }
    ensures no_memory { IfErr result (λ e. e.1 ≡ OpenFault.NoMemory → e.0 ≡ disk) }
    ensures cause { IfErr result (λ e. e.1 ≡ OpenFault.DiskFault
        → HasRisen (D.state disk).failures (D.state e.0).failures) }
    ensures unfailed { is_disk_fault (outcome_of result) ≡ false
        → (D.state (disk_after result)).failures ≡ (D.state disk).failures }

    // The first call is a sync, and only where it succeeded there are others, all of them reads.
    ensures calls { Calls D.makes disk result }

    // At each moment a stop leaves only what it could leave before the call.
    ensures any_moment { Within D.state D.makes (Untouched (D.state disk)) disk
        (disk_after result) }
{
    let mut disk = disk;
    let layout = Layout::of(board);
    let Ok(supplies) = Supplies::new(alloc, &layout) else {
        return Err((disk, OpenFault::NoMemory));
    };
    let Supplies {
        mut guests,
        mut partitions,
        spaces,
        mut buffer,
    } = supplies;
    match read_image(
        &mut disk,
        &layout,
        spaces,
        buffer.as_mut_slice(),
        &mut guests,
        &mut partitions,
    ) {
        Ok(()) => Ok((Store::opened(disk, guests, buffer), partitions)),
        Err(fault) => Err((disk, fault)),
    }
}
