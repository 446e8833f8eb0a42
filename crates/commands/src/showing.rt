//! What `show` does: an image is opened, and its partitions are listed.
ghost use Rattle.std.specs.Prelude.{◌≡◌, ◌≤◌, ◌*◌, true, All, Err, IfErr, OnOk, length, replicate};
ghost use Rattle.std.specs.Prelude.{string_bytes};
ghost use Rattle.std.specs.Io.KnownBytes.{Appends};
ghost use Rattle.std.specs.Str.{bytes_eq};
ghost use Rattle.disk.specs.Disk.{DiskState, Within};
ghost use Rattle.intent_slots.specs.Layout.{capacities_of};
ghost use Rattle.recovery.specs.Opening.{IsImage, Untouched};
ghost use Rattle.rpmb_frame.specs.Partition.{IsWhole, block_count, block_of};
ghost use Rattle.commands.specs.Ending.{Ends, IsReadAlone, KeepsUnless, showing};
ghost use Rattle.commands.specs.Listing.{Lists, block_end, block_front, block_shown, blocks_below};
ghost use Rattle.commands.specs.Listing.{guest_listing, guest_shown, listing, some_block};

use crate::fault::Fault;
use disk::Disk;
use recovery::open;
use rpmb_core::Partition;
use rpmb_frame::BoardConfig;
use std::alloc::Global;
use std::io::Write;

/// Writes a guest without its blocks, in JSON where that is asked for: its capacity, whether it has
/// a key, and its write counter.
#[tactic(auto, unfolding(crate::specs::Listing::guest_line, crate::specs::Listing::guest_object))]
fn write_guest_alone<W: Write>(
    guest: u16,
    partition: &Partition,
    as_json: bool,
    out: &mut W,
) -> Result<(), Fault>
    ensures printed { OnOk result
        (Appends (W.contents out.old) (W.contents out.new)
        (guest_shown as_json guest partition.now)) }
    ensures whole { IsWhole partition.now }
    ensures only { (fault : Fault) → result ≡ Err fault → fault ≡ Fault.FileFault }
{
    let has_key = partition.key().is_some();
    let capacity = partition.capacity();
    let counter = partition.counter();
    if as_json {
        return match writeln!(
            out,
            "{{\"guest\":{guest},\"capacity\":{capacity},\"key\":{has_key},\"counter\":{counter}}}"
        ) {
            Ok(()) => Ok(()),
            Err(_) => Err(Fault::FileFault),
        };
    }
    let key = if has_key { "yes" } else { "no" };
    match writeln!(
        out,
        "guest {guest} capacity {capacity} key {key} counter {counter}"
    ) {
        Ok(()) => Ok(()),
        Err(_) => Err(Fault::FileFault),
    }
}

/// Writes which block it is, up to its digits.
#[tactic(auto, unfolding(crate::specs::Listing::block_front))]
fn write_front<W: Write>(guest: u16, address: u16, as_json: bool, out: &mut W) -> Result<(), Fault>
    ensures printed { OnOk result (Appends (W.contents out.old) (W.contents out.new)
        (block_front as_json guest address)) }
    ensures only { (fault : Fault) → result ≡ Err fault → fault ≡ Fault.FileFault }
{
    if as_json {
        return match write!(out, "{{\"guest\":{guest},\"address\":{address},\"data\":\"") {
            Ok(()) => Ok(()),
            Err(_) => Err(Fault::FileFault),
        };
    }
    match write!(out, "block {guest} {address} ") {
        Ok(()) => Ok(()),
        Err(_) => Err(Fault::FileFault),
    }
}

/// What stands behind the digits of a block in its line.
fn block_end(as_json: bool) -> &'static str
    ensures { result.now ≡ block_end as_json }
{
    if as_json { "\"}" } else { "" }
}

/// Writes a block, in JSON where that is asked for.
fn write_some_block<W: Write>(
    guest: u16,
    address: u16,
    block: &[u8; 256],
    as_json: bool,
    out: &mut W,
) -> Result<(), Fault>
    ensures printed { OnOk result (Appends (W.contents out.old) (W.contents out.new)
        (some_block as_json guest address block.now)) }
    ensures only { (fault : Fault) → result ≡ Err fault → fault ≡ Fault.FileFault }
{
    let mut digits = [0; 512];
    match hex::encode_to_slice(block.as_slice(), &mut digits) {
        Ok(()) => {}
        Err(_) => unreachable!(),
    }
    write_front(guest, address, as_json, out)?;
    if out.write_all(&digits).is_err() {
        return Err(Fault::FileFault);
    }
    let end = block_end(as_json);
    match writeln!(out, "{end}") {
        Ok(()) => Ok(()),
        Err(_) => Err(Fault::FileFault),
    }
}

/// Writes a block, unless it is all zeros.
fn write_block<W: Write>(
    guest: u16,
    address: u16,
    block: &[u8; 256],
    as_json: bool,
    out: &mut W,
) -> Result<(), Fault>
    ensures printed { OnOk result (Appends (W.contents out.old) (W.contents out.new)
        (block_shown as_json guest address block.now)) }
    ensures only { (fault : Fault) → result ≡ Err fault → fault ≡ Fault.FileFault }
{
    if *block == [0; 256] {
        return Ok(());
    }
    write_some_block(guest, address, block, as_json, out)
}

/// Writes the blocks of a partition that aren't all zeros, by address.
fn write_blocks<W: Write>(
    guest: u16,
    partition: &Partition,
    as_json: bool,
    out: &mut W,
) -> Result<(), Fault>
    requires { partition.now.capacity ≤ 128 }
    ensures printed { OnOk result (Appends (W.contents out.old) (W.contents out.new)
        (blocks_below as_json (block_count partition.now) guest partition.now)) }
    ensures only { (fault : Fault) → result ≡ Err fault → fault ≡ Fault.FileFault }
{
    let count = 512 * u32::from(partition.capacity());
    for address in 0..count {
        let address = address as u16;
        write_block(guest, address, &partition.block(address), as_json, out)?;
    }
    Ok(())
}

/// Writes a guest, and then its blocks.
fn write_guest<W: Write>(
    guest: u16,
    partition: &Partition,
    as_json: bool,
    out: &mut W,
) -> Result<(), Fault>
    requires { partition.now.capacity ≤ 128 }
    ensures printed { OnOk result (Appends (W.contents out.old) (W.contents out.new)
        (guest_listing as_json guest partition.now)) }
    ensures whole { IsWhole partition.now }
    ensures only { (fault : Fault) → result ≡ Err fault → fault ≡ Fault.FileFault }
{
    write_guest_alone(guest, partition, as_json, out)?;
    write_blocks(guest, partition, as_json, out)
}

/// Writes all guests, one after another.
fn write_guests<W: Write>(partitions: &[Partition], as_json: bool, out: &mut W) -> Result<(), Fault>
    requires few { length partitions.now ≤ 64 }
    requires small { All (λ p. p.capacity ≤ 128) partitions.now }
    ensures printed { OnOk result
        (Appends (W.contents out.old) (W.contents out.new) (listing as_json partitions.now)) }
    ensures whole { OnOk result (All IsWhole partitions.now) }
    ensures only { (fault : Fault) → result ≡ Err fault → fault ≡ Fault.FileFault }
{
    for guest in 0..partitions.len() {
        write_guest(guest as u16, &partitions[guest], as_json, out)?;
    }
    Ok(())
}

/// Writes all guests, and all that is still held back.
fn write_listing<W: Write>(
    partitions: &[Partition],
    as_json: bool,
    out: &mut W,
) -> Result<(), Fault>
    requires few { length partitions.now ≤ 64 }
    requires small { All (λ p. p.capacity ≤ 128) partitions.now }
    ensures printed { OnOk result
        (Appends (W.contents out.old) (W.contents out.new) (listing as_json partitions.now)) }
    ensures whole { OnOk result (All IsWhole partitions.now) }
    ensures only { (fault : Fault) → result ≡ Err fault → fault ≡ Fault.FileFault }
{
    write_guests(partitions, as_json, out)?;
    out.flush().or(Err(Fault::FileFault))
}

/// Opens the image of the board, and lists its partitions, in lines, or in JSON objects. It gives
/// the disk back, which it has only synced and read.
///
/// # Errors
///
/// `NoMemory` where memory was refused, before any call; `DiskFault` where a call of the disk
/// failed; `NotFormatted` and `OtherConfig` where the disk holds no image, or another board's;
/// `FileFault` where the image was opened and standard output took no more.
pub fn show<D: Disk, W: Write>(
    alloc: Global,
    board: &BoardConfig,
    as_json: bool,
    disk: D,
    out: &mut W,
) -> (Result<(), Fault>, D)
    ensures shown { OnOk result.0 (Lists as_json (capacities_of board.now) (D.state disk)
        (W.contents out.old) (W.contents out.new)) }
    ensures image { OnOk result.0 ((D.state disk).faithful ≡ true
        → IsImage (capacities_of board.now) (D.state disk).len (D.state disk).seen) }
    ensures ends { IfErr result.0 (Ends showing board.now (D.state disk) (D.state result.1)) }
    ensures silent { IfErr result.0
        (λ fault. KeepsUnless fault (W.contents out.old) (W.contents out.new)) }
    ensures any_moment { Within D.state D.makes (Untouched (D.state disk)) disk result.1 }
    ensures calls { IsReadAlone D.makes disk result.1 }
{
    match open(alloc, disk, board) {
        Ok((store, partitions)) => {
            let _guests = board.guests(); // for the checker: a board's guests are in their ranges
            let written = write_listing(partitions.as_slice(), as_json, out);
            (written, store.into_disk())
        }
        Err((disk, fault)) => (Err(Fault::of_image(fault)), disk),
    }
}
