//! What stands in the image for one guest.
ghost use Rattle.std.specs.Prelude.{◌≡◌, ◌≤◌, ◌<◌, ◌+◌, true, false, length, is_ok, not};
ghost use Rattle.std.specs.Prelude.{IfOk, OnOk, Err};
ghost use Rattle.disk.specs.Content.{bytes_at, content_of};
ghost use Rattle.intent_slots.specs.Layout.{region_at, image_length};
ghost use Rattle.intent_slots.specs.declared.layout.Side.TheVariants.{A};
ghost use Rattle.intent_slots.specs.Payload.{GroupFits};
ghost use Rattle.intent_slots.specs.Recovered.{redo};
ghost use Rattle.recovery.specs.Opening.{IsBegun};
ghost use Rattle.recovery.specs.Reading.{Passes, Tells, GateIs, GatesAre, GatesFit, FindsBehind};
ghost use Rattle.recovery.specs.Reading.{FindsIn, FindsOne, FindsPayload, FindsTwo, gates_of};
ghost use Rattle.recovery.specs.Reading.{is_disk_fault, slot_at, IsReadable, IsIntentOf, AreTwo};

use crate::fault::OpenFault;
use crate::space::Space;
use disk::{Disk, DiskFault};
use flusher::Guest;
use intent_slots::{HOME_LENGTH, Home, Intent, Layout, OPEN_GATE, Room, Side};
use rpmb_core::Partition;

/// Reads a range.
pub(crate) fn read<D: Disk>(disk: &mut D, at: u64, out: &mut [u8]) -> Result<(), DiskFault>
    requires { at + length out.old ≤ (D.state disk.old).len }
    ensures passes { Passes D.state D.makes disk.old disk.new (not (is_ok result)) }
    ensures bytes { OnOk result
        (Tells (D.state disk.old) (λ c. out.new ≡ bytes_at c at (length out.old))) }
{
    disk.read_at(at, out)
}

/// Reads all blocks of a partition.
fn read_blocks<D: Disk>(disk: &mut D, at: u64, blocks: &mut Vec<u8>) -> Result<(), DiskFault>
    requires { at + length blocks.old.items ≤ (D.state disk.old).len }
    ensures passes { Passes D.state D.makes disk.old disk.new (not (is_ok result)) }
    ensures bytes { OnOk result (Tells (D.state disk.old)
        (λ c. blocks.new.items ≡ bytes_at c at (length blocks.old.items))) }
    ensures len { length blocks.new.items ≡ length blocks.old.items }
{
    read(disk, at, blocks.as_mut_slice())
}

/// Puts the blocks of an intent's requests over the blocks of its partition, in their order.
fn redo(blocks: &mut Vec<u8>, intent: &Intent)
    requires { GroupFits (length blocks.old.items) intent.now.group }
    ensures content { content_of blocks.new.items
        ≡ redo intent.now.group.entries (content_of blocks.old.items) }
    ensures len { length blocks.new.items ≡ length blocks.old.items }
{
    intent.redo(blocks.as_mut_slice());
}

/// Which gates of a partition are open.
#[derive(Clone, Copy)]
pub(crate) enum Gates {
    /// None.
    Shut,
    /// This slot's alone.
    One(Side),
    /// Both.
    Both,
}

/// Whether a gate is open.
fn read_gate<D: Disk>(
    disk: &mut D,
    layout: &Layout,
    number: u16,
    side: Side,
) -> Result<bool, DiskFault>
    requires guest { number < length layout.now }
    requires room { image_length layout.now ≤ (D.state disk.old).len }
    ensures passes { Passes D.state D.makes disk.old disk.new (not (is_ok result)) }
    ensures tells { IfOk result (λ wide. Tells (D.state disk.old)
        (GateIs wide (slot_at layout.now number side))) }
{
    let mut gate = [0; 1];
    read(disk, layout.extent(number).gate(side), &mut gate)?;
    Ok(gate[0] == OPEN_GATE)
}

/// Which gates are open; in an image of version 1 only slot A's is looked at.
fn read_gates<D: Disk>(
    disk: &mut D,
    layout: &Layout,
    number: u16,
    paired: bool,
) -> Result<Gates, DiskFault>
    requires guest { number < length layout.now }
    requires room { image_length layout.now ≤ (D.state disk.old).len }
    ensures passes { Passes D.state D.makes disk.old disk.new (not (is_ok result)) }
    ensures sides { IfOk result (λ gates. GatesFit paired gates) }
    ensures tells { IfOk result (λ gates. Tells (D.state disk.old)
        (GatesAre paired (region_at layout.now number) gates)) }
{
    let first = read_gate(disk, layout, number, Side::A)?;
    if !paired {
        return Ok(gates_of(first, false));
    }
    let second = read_gate(disk, layout, number, Side::B)?;
    Ok(gates_of(first, second))
}

/// Which gates these are.
fn gates_of(first: bool, second: bool) -> Gates
    ensures { result ≡ gates_of first second }
{
    match (first, second) {
        (false, false) => Gates::Shut,
        (true, false) => Gates::One(Side::A),
        (false, true) => Gates::One(Side::B),
        (true, true) => Gates::Both,
    }
}

/// The intent whose payload stands in a slot.
fn read_payload<D: Disk>(
    disk: &mut D,
    layout: &Layout,
    number: u16,
    side: Side,
    room: Room,
    buffer: &mut [u8],
) -> Result<Intent, OpenFault>
    requires guest { number < length layout.now }
    requires room { image_length layout.now ≤ (D.state disk.old).len }
    requires buffer { length buffer.old ≡ 16648 }
    ensures passes { Passes D.state D.makes disk.old disk.new (is_disk_fault result) }
    ensures memory { ¬ result ≡ Err OpenFault.NoMemory }
    ensures intent { IfOk result (IsIntentOf layout.now number) }
    ensures finds { Tells (D.state disk.old)
        (λ c. FindsPayload (region_at layout.now number) side c result) }
{
    let extent = layout.extent(number);
    read(disk, extent.payload(side), buffer)?;
    match Intent::decode(number, &extent, buffer, room) {
        Some(intent) => Ok(intent),
        None => Err(OpenFault::NotFormatted),
    }
}

/// The guest whose gates are shut: its home and its blocks as they stand.
fn read_shut<D: Disk>(
    disk: &mut D,
    layout: &Layout,
    number: u16,
    paired: bool,
    blocks: Vec<u8>,
) -> Result<(Guest, Partition), OpenFault>
    requires place { IsReadable layout.now (D.state disk.old).len number (length blocks.items) }
    ensures passes { Passes D.state D.makes disk.old disk.new (is_disk_fault result) }
    ensures begun { IfOk result (λ r. IsBegun layout.now number r.0 r.1) }
    ensures memory { ¬ result ≡ Err OpenFault.NoMemory }
    ensures finds { Tells (D.state disk.old)
        (FindsBehind paired Gates.Shut layout.now number result) }
{
    let extent = layout.extent(number);
    let mut record = [0; HOME_LENGTH];
    read(disk, extent.home(), &mut record)?;
    let Some(home) = Home::decode(&record) else {
        return Err(OpenFault::NotFormatted);
    };
    let mut blocks = blocks;
    read_blocks(disk, extent.blocks(), &mut blocks)?;
    let capacity = layout.capacity(number);
    let partition = Partition::of(capacity, home.key(), home.counter(), blocks);
    Ok((Guest::settled(paired, extent, home.sequence()), partition))
}

/// The guest behind one open gate, whose payload is known: its blocks with those of the payload
/// over them. Its home isn't looked at.
fn read_one<D: Disk>(
    disk: &mut D,
    layout: &Layout,
    paired: bool,
    side: Side,
    intent: Intent,
    blocks: Vec<u8>,
) -> Result<(Guest, Partition), OpenFault>
    requires place { IsReadable layout.now (D.state disk.old).len intent.guest
        (length blocks.items) }
    requires fits { GroupFits (region_at layout.now intent.guest).size intent.group }
    requires side { paired ≡ false → side ≡ A }
    ensures passes { Passes D.state D.makes disk.old disk.new (is_disk_fault result) }
    ensures begun { IfOk result (λ r. IsBegun layout.now intent.guest r.0 r.1) }
    ensures memory { ¬ result ≡ Err OpenFault.NoMemory }
    ensures finds { Tells (D.state disk.old) (FindsOne paired layout.now side intent result) }
{
    let extent = layout.extent(intent.guest());
    let mut blocks = blocks;
    read_blocks(disk, extent.blocks(), &mut blocks)?;
    redo(&mut blocks, &intent);
    let capacity = layout.capacity(intent.guest());
    let partition = Partition::of(capacity, Some(*intent.key()), intent.last_counter(), blocks);
    Ok((Guest::open(paired, extent, side, intent), partition))
}

/// The guest behind two open gates, whose payloads are known: its blocks with those of both over
/// them, in their order.
fn read_two<D: Disk>(
    disk: &mut D,
    layout: &Layout,
    side: Side,
    first: Intent,
    second: Intent,
    blocks: Vec<u8>,
) -> Result<(Guest, Partition), OpenFault>
    requires place { IsReadable layout.now (D.state disk.old).len first.guest
        (length blocks.items) }
    requires two { AreTwo layout.now first second }
    ensures passes { Passes D.state D.makes disk.old disk.new (is_disk_fault result) }
    ensures begun { IfOk result (λ r. IsBegun layout.now first.guest r.0 r.1) }
    ensures memory { ¬ result ≡ Err OpenFault.NoMemory }
    ensures finds { Tells (D.state disk.old) (FindsTwo layout.now side first second result) }
{
    let extent = layout.extent(first.guest());
    let mut blocks = blocks;
    read_blocks(disk, extent.blocks(), &mut blocks)?;
    redo(&mut blocks, &first);
    redo(&mut blocks, &second);
    let capacity = layout.capacity(first.guest());
    let partition = Partition::of(capacity, Some(*second.key()), second.last_counter(), blocks);
    Ok((Guest::open_two(extent, side, first, second), partition))
}

/// The guest behind one open gate.
fn read_open<D: Disk>(
    disk: &mut D,
    layout: &Layout,
    number: u16,
    paired: bool,
    side: Side,
    space: Space,
    buffer: &mut [u8],
) -> Result<(Guest, Partition), OpenFault>
    requires place { IsReadable layout.now (D.state disk.old).len number
        (length space.blocks.items) }
    requires buffer { length buffer.old ≡ 16648 }
    requires side { paired ≡ false → side ≡ A }
    ensures passes { Passes D.state D.makes disk.old disk.new (is_disk_fault result) }
    ensures begun { IfOk result (λ r. IsBegun layout.now number r.0 r.1) }
    ensures memory { ¬ result ≡ Err OpenFault.NoMemory }
    ensures finds { Tells (D.state disk.old)
        (FindsBehind paired (Gates.One side) layout.now number result) }
{
    let intent = read_payload(disk, layout, number, side, space.room, buffer)?;
    read_one(disk, layout, paired, side, intent, space.blocks)
}

/// The guest behind two open gates: the payload of lower sequence comes first.
fn read_both<D: Disk>(
    disk: &mut D,
    layout: &Layout,
    number: u16,
    space: Space,
    buffer: &mut [u8],
) -> Result<(Guest, Partition), OpenFault>
    requires place { IsReadable layout.now (D.state disk.old).len number
        (length space.blocks.items) }
    requires buffer { length buffer.old ≡ 16648 }
    ensures passes { Passes D.state D.makes disk.old disk.new (is_disk_fault result) }
    ensures begun { IfOk result (λ r. IsBegun layout.now number r.0 r.1) }
    ensures memory { ¬ result ≡ Err OpenFault.NoMemory }
    ensures finds { Tells (D.state disk.old)
        (FindsBehind true Gates.Both layout.now number result) }
{
    let a = read_payload(disk, layout, number, Side::A, space.room, buffer)?;
    let b = read_payload(disk, layout, number, Side::B, space.second, buffer)?;
    if b.comes_after(&a) {
        read_two(disk, layout, Side::A, a, b, space.blocks)
    } else if a.comes_after(&b) {
        read_two(disk, layout, Side::B, b, a, space.blocks)
    } else {
        Err(OpenFault::NotFormatted)
    }
}

/// What stands in the image for one guest.
pub(crate) fn read_guest<D: Disk>(
    disk: &mut D,
    layout: &Layout,
    number: u16,
    paired: bool,
    space: Space,
    buffer: &mut [u8],
) -> Result<(Guest, Partition), OpenFault>
    requires place { IsReadable layout.now (D.state disk.old).len number
        (length space.blocks.items) }
    requires buffer { length buffer.old ≡ 16648 }
    ensures passes { Passes D.state D.makes disk.old disk.new (is_disk_fault result) }
    ensures begun { IfOk result (λ r. IsBegun layout.now number r.0 r.1) }
    ensures memory { ¬ result ≡ Err OpenFault.NoMemory }
    ensures finds { Tells (D.state disk.old) (FindsIn paired layout.now number result) }
{
    match read_gates(disk, layout, number, paired)? {
        Gates::Shut => read_shut(disk, layout, number, paired, space.blocks),
        Gates::One(side) => read_open(disk, layout, number, paired, side, space, buffer),
        Gates::Both => read_both(disk, layout, number, space, buffer),
    }
}
