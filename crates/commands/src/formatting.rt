//! What `format` does: a fresh image, and a line with its length.
ghost use Rattle.std.specs.Prelude.{◌≡◌, true, Err, IfErr, OnOk};
ghost use Rattle.std.specs.Io.KnownBytes.{Appends};
ghost use Rattle.disk.specs.Disk.{DiskState};
ghost use Rattle.intent_slots.specs.Layout.{capacities_of, image_length};
ghost use Rattle.recovery.specs.Format.{ClearsFirst, IsFormatted};
ghost use Rattle.commands.specs.Ending.{Ends, KeepsUnless, formatting};
ghost use Rattle.commands.specs.Listing.{formatted_line};

use crate::fault::Fault;
use disk::Disk;
use intent_slots::Layout;
use rpmb_frame::BoardConfig;
use std::io::Write;

/// Writes the line of an image of this length, and all that is still held back.
#[tactic(auto, unfolding(crate::specs::Listing::formatted_line))]
fn write_length<W: Write>(length: u64, out: &mut W) -> Result<(), Fault>
    ensures printed { OnOk result
        (Appends (W.contents out.old) (W.contents out.new) (formatted_line length)) }
    ensures only { (fault : Fault) → result ≡ Err fault → fault ≡ Fault.FileFault }
{
    if writeln!(out, "formatted {length}").is_err() {
        return Err(Fault::FileFault);
    }
    out.flush().or(Err(Fault::FileFault))
}

/// Makes a fresh image of the board over all that the disk holds, which has the image's length in
/// bytes, and prints that length. After a fault it has written zeros alone, until a sync succeeded;
/// from then on every stop leaves empty partitions.
///
/// # Errors
///
/// `DiskFault` where a call of the disk failed; `FileFault` where the image is made and standard
/// output took no more.
pub fn format<D: Disk, W: Write>(
    board: &BoardConfig,
    disk: &mut D,
    out: &mut W,
) -> Result<(), Fault>
    requires { (D.state disk.old).len ≡ image_length (capacities_of board.now) }
    ensures formatted { OnOk result ((D.state disk.old).faithful ≡ true
        → IsFormatted 1 (capacities_of board.now) (D.state disk.new)) }
    ensures printed { OnOk result (Appends (W.contents out.old) (W.contents out.new)
        (formatted_line (image_length (capacities_of board.now)))) }
    ensures ends { IfErr result (Ends formatting board.now (D.state disk.old) (D.state disk.new)) }
    ensures silent { IfErr result
        (λ fault. KeepsUnless fault (W.contents out.old) (W.contents out.new)) }
    ensures order { ClearsFirst D.state D.makes (capacities_of board.now) disk.old disk.new }
{
    match recovery::format(disk, board) {
        Ok(()) => write_length(Layout::of(board).length(), out),
        Err(fault) => Err(Fault::of_image(fault)),
    }
}
