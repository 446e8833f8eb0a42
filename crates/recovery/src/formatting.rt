//! Making a fresh image.
ghost use Rattle.std.specs.Prelude.{◌≡◌, if◌then◌else◌, ◌≤◌, ◌<◌, ◌+◌, ◌*◌, ◌^◌, ℕ, true, false};
ghost use Rattle.std.specs.Prelude.{length, is_ok, OnOk, OnErr, Err};
ghost use Rattle.disk.specs.Content.{zeros};
ghost use Rattle.disk.specs.Disk.{HasRisen, Sync};
ghost use Rattle.intent_slots.specs.Layout.{capacities_of, image_length};
ghost use Rattle.recovery.specs.Format.{Attempts, formatted, Holds, IsFormatted, Zeroes};
ghost use Rattle.recovery.specs.Format.{FormattedIsImage, FormattedIsEmpty, WritesZeros};
ghost use Rattle.recovery.specs.Format.{SyncsZeros, IsBlank, StaysEmpty, ClearsFirst};

use crate::fault::OpenFault;
use disk::{Disk, DiskFault};
use intent_slots::{HOME_LENGTH, Layout, Side, VERSION_OFFSET};
use rpmb_frame::BoardConfig;

/// The most bytes of one write.
const CHUNK_LENGTH: u64 = 16_648;

/// Writes zeros.
fn write_zeros<D: Disk>(disk: &mut D, at: u64, count: usize) -> Result<(), DiskFault>
    requires few { count ≤ 16648 }
    requires room { at + count ≤ (D.state disk.old).len }
    ensures attempts { Attempts (is_ok result) (D.state disk.old) (D.state disk.new) }
    ensures zeros { OnOk result ((D.state disk.old).faithful ≡ true
        → Zeroes at count (D.state disk.old) (D.state disk.new)) }
    ensures calls { WritesZeros D.makes disk.old disk.new }
{
    let zeros = [0; 16_648];
    disk.write_at(at, &zeros[..count])
}

/// Writes zeros over the whole disk, in ascending chunks.
fn write_all_zeros<D: Disk>(disk: &mut D) -> Result<(), DiskFault>
    ensures attempts { Attempts (is_ok result) (D.state disk.old) (D.state disk.new) }
    ensures zeros { OnOk result ((D.state disk.old).faithful ≡ true
        → Holds zeros (D.state disk.old).len (D.state disk.new).seen) }
    ensures calls { WritesZeros D.makes disk.old disk.new }
{
    let len = disk.len();
    let whole = len / CHUNK_LENGTH;
    for chunk in 0..whole {
        write_zeros(disk, CHUNK_LENGTH * chunk, CHUNK_LENGTH as usize)?;
    }
    write_zeros(disk, CHUNK_LENGTH * whole, (len % CHUNK_LENGTH) as usize)
}

/// Writes a guest's home record without a key, and its gates shut.
fn write_guest<D: Disk>(disk: &mut D, layout: &Layout, guest: u16) -> Result<(), DiskFault>
    requires guest { guest < length layout.now }
    requires room { image_length layout.now ≤ (D.state disk.old).len }
    ensures attempts { Attempts (is_ok result) (D.state disk.old) (D.state disk.new) }
    ensures zeros { OnOk result ((D.state disk.old).faithful ≡ true
        → Holds zeros (D.state disk.old).len (D.state disk.old).seen
        → Holds zeros (D.state disk.old).len (D.state disk.new).seen) }
    ensures calls { WritesZeros D.makes disk.old disk.new }
{
    let extent = layout.extent(guest);
    write_zeros(disk, extent.home(), HOME_LENGTH)?;
    write_zeros(disk, extent.gate(Side::A), 1)?;
    write_zeros(disk, extent.gate(Side::B), 1)
}

/// Writes each guest's home record without a key, and its gates shut.
fn write_guests<D: Disk>(disk: &mut D, layout: &Layout) -> Result<(), DiskFault>
    requires { image_length layout.now ≤ (D.state disk.old).len }
    ensures attempts { Attempts (is_ok result) (D.state disk.old) (D.state disk.new) }
    ensures zeros { OnOk result ((D.state disk.old).faithful ≡ true
        → Holds zeros (D.state disk.old).len (D.state disk.old).seen
        → Holds zeros (D.state disk.old).len (D.state disk.new).seen) }
    ensures calls { WritesZeros D.makes disk.old disk.new }
{
    for guest in 0..layout.guests() {
        write_guest(disk, layout, guest as u16)?;
    }
    Ok(())
}

/// Writes the header and the version byte.
fn write_header<D: Disk>(disk: &mut D, layout: &Layout, version: u8) -> Result<(), DiskFault>
    requires { image_length layout.now ≤ (D.state disk.old).len }
    ensures attempts { Attempts (is_ok result) (D.state disk.old) (D.state disk.new) }
    ensures header { OnOk result ((D.state disk.old).faithful ≡ true
        → Holds zeros (D.state disk.old).len (D.state disk.old).seen
        → Holds (formatted version layout.now) (D.state disk.old).len (D.state disk.new).seen) }
    ensures empty { IsBlank layout.now (D.state disk.old)
        → StaysEmpty D.state D.makes layout.now disk.old disk.new }
{
    disk.write_at(0, layout.header().as_slice())?;
    disk.write_at(VERSION_OFFSET, &[version])
}

/// Makes all durable.
fn sync<D: Disk>(disk: &mut D) -> Result<(), DiskFault>
    ensures call { D.makes disk.old (Sync (is_ok result)) disk.new }
    ensures attempts { Attempts (is_ok result) (D.state disk.old) (D.state disk.new) }
    ensures seen { (D.state disk.old).faithful ≡ true → (k : ℕ)
        → (D.state disk.new).seen k ≡ (D.state disk.old).seen k }
    ensures durable { OnOk result ((D.state disk.old).faithful ≡ true → (k : ℕ)
        → (D.state disk.new).unsynced k ≡ false) }
{
    disk.sync()
}

/// Makes a fresh image: the header, the version byte 1 at offset 512, and zeros, so that each
/// partition is empty. It writes zeros over the whole disk, and for each guest a home record
/// without a key and both gates shut, makes a sync, writes the header and the version byte, and
/// makes a sync. So no stop leaves the new header over what stood there before. It takes no memory.
/// The disk has just the length of the board's image.
///
/// Answers `DiskFault` where a call failed. Other faults never come.
pub fn format<D: Disk>(disk: &mut D, board: &BoardConfig) -> Result<(), OpenFault>
    requires { (D.state disk.old).len ≡ image_length (capacities_of board.now) }
    ensures formatted { OnOk result ((D.state disk.old).faithful ≡ true
        → IsFormatted 1 (capacities_of board.now) (D.state disk.new)) }
    ensures only { (fault : OpenFault) → result ≡ Err fault → fault ≡ OpenFault.DiskFault }
    ensures cause { OnErr result
        (HasRisen (D.state disk.old).failures (D.state disk.new).failures) }
    ensures unfailed { OnOk result ((D.state disk.new).failures ≡ (D.state disk.old).failures) }

    // However it ends: until a sync succeeds it writes zeros alone, and from then on every stop
    // leaves empty partitions.
    ensures order { ClearsFirst D.state D.makes (capacities_of board.now) disk.old disk.new }
{
    Ok(write_image(disk, &Layout::of(board), version_of(false))?)
}

/// Makes a fresh image of version 2, in which both slots of each partition are in use: as `format`,
/// with the version byte 2.
///
/// Answers `DiskFault` where a call failed. Other faults never come.
pub fn format2<D: Disk>(disk: &mut D, board: &BoardConfig) -> Result<(), OpenFault>
    requires { (D.state disk.old).len ≡ image_length (capacities_of board.now) }
    ensures formatted { OnOk result ((D.state disk.old).faithful ≡ true
        → IsFormatted 2 (capacities_of board.now) (D.state disk.new)) }
    ensures only { (fault : OpenFault) → result ≡ Err fault → fault ≡ OpenFault.DiskFault }
    ensures cause { OnErr result
        (HasRisen (D.state disk.old).failures (D.state disk.new).failures) }
    ensures unfailed { OnOk result ((D.state disk.new).failures ≡ (D.state disk.old).failures) }

    // However it ends: until a sync succeeds it writes zeros alone, and from then on every stop
    // leaves empty partitions.
    ensures order { ClearsFirst D.state D.makes (capacities_of board.now) disk.old disk.new }
{
    Ok(write_image(disk, &Layout::of(board), version_of(true))?)
}

/// The version byte of an image, in which both slots of each partition are in use, or one alone.
fn version_of(paired: bool) -> u8
    ensures { result ≡ (if paired then 2 else 1) }
{
    if paired { 2 } else { 1 }
}

/// Writes a fresh image.
fn write_image<D: Disk>(disk: &mut D, layout: &Layout, version: u8) -> Result<(), DiskFault>
    requires { (D.state disk.old).len ≡ image_length layout.now }
    ensures attempts { Attempts (is_ok result) (D.state disk.old) (D.state disk.new) }
    ensures formatted { OnOk result ((D.state disk.old).faithful ≡ true
        → IsFormatted version layout.now (D.state disk.new)) }
    ensures order { ClearsFirst D.state D.makes layout.now disk.old disk.new }
{
    clear(disk, layout)?;
    write_header(disk, layout, version)?;
    sync(disk)
}

/// Makes zeros of the whole disk, and makes them durable.
fn clear<D: Disk>(disk: &mut D, layout: &Layout) -> Result<(), DiskFault>
    requires { (D.state disk.old).len ≡ image_length layout.now }
    ensures attempts { Attempts (is_ok result) (D.state disk.old) (D.state disk.new) }
    ensures zeros { OnOk result ((D.state disk.old).faithful ≡ true
        → Holds zeros (D.state disk.old).len (D.state disk.new).seen) }
    ensures durable { OnOk result ((D.state disk.old).faithful ≡ true → (k : ℕ)
        → (D.state disk.new).unsynced k ≡ false) }
    ensures cleared { OnOk result (SyncsZeros D.makes true disk.old disk.new) }
    ensures refused { OnErr result (ClearsFirst D.state D.makes layout.now disk.old disk.new) }
{
    write_all_zeros(disk)?;
    write_guests(disk, layout)?;
    sync(disk)
}

/// Each partition of a fresh image is empty, and the image is its board's.
pub fn fresh_is_empty()
    ensures image { FormattedIsImage }
    ensures empty { FormattedIsEmpty }
{}
