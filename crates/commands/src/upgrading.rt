//! What `upgrade` does: an image of version 1 becomes one of version 2, and a line says whether it
//! did.
ghost use Rattle.std.specs.Prelude.{◌≡◌, true, Err, IfErr, OnOk};
ghost use Rattle.std.specs.Io.KnownBytes.{Appends};
ghost use Rattle.disk.specs.Disk.{DiskState};
ghost use Rattle.intent_slots.specs.Layout.{capacities_of};
ghost use Rattle.recovery.specs.Opening.{SyncsFirst};
ghost use Rattle.recovery.specs.Upgrade.{IsNamed, IsUpgradable, StandsThroughout};
ghost use Rattle.commands.specs.Ending.{Ends, KeepsUnless, upgrading};
ghost use Rattle.commands.specs.Upgrading.{CallsAsTold, PrintsUpgrade, upgraded_line};

use crate::fault::Fault;
use disk::Disk;
use recovery::Upgraded;
use rpmb_frame::BoardConfig;
use std::io::Write;

/// Writes the line of an upgrade, and all that is still held back.
#[tactic(auto, unfolding(crate::specs::Upgrading::upgraded_line))]
fn write_done<W: Write>(done: Upgraded, out: &mut W) -> Result<(), Fault>
    ensures printed { OnOk result
        (Appends (W.contents out.old) (W.contents out.new) (upgraded_line done)) }
    ensures only { (fault : Fault) → result ≡ Err fault → fault ≡ Fault.FileFault }
{
    let written = match done {
        Upgraded::Already => writeln!(out, "already 2"),
        Upgraded::Wrote => writeln!(out, "upgraded"),
    };
    if written.is_err() {
        return Err(Fault::FileFault);
    }
    out.flush().or(Err(Fault::FileFault))
}

/// Makes the image of the board one of version 2, and prints whether it did. At each moment every
/// stop leaves what stands for the partitions that stood before. Nothing is written to an image
/// that is of version 2 already, nor to what is no image of this board.
///
/// # Errors
///
/// `DiskFault` where a call of the disk failed; `NotFormatted` and `OtherConfig` where the disk
/// holds no header of an image, or another board's; `FileFault` where the image is of version 2 and
/// standard output took no more.
pub fn upgrade<D: Disk, W: Write>(
    board: &BoardConfig,
    disk: &mut D,
    out: &mut W,
) -> Result<(), Fault>
    ensures stands { StandsThroughout D.state D.makes (capacities_of board.now) disk.old disk.new }
    // Which calls it makes, by what was done: none that writes to an image of version 2.
    ensures calls { CallsAsTold D.state D.makes (capacities_of board.now) disk.old
        (W.contents out.old) result disk.new (W.contents out.new) }
    ensures unwritten { (D.state disk.old).faithful ≡ true
        → ¬ IsUpgradable (capacities_of board.now) (D.state disk.old).len (D.state disk.old).seen
        → SyncsFirst D.makes disk.old disk.new }
    ensures named { OnOk result ((D.state disk.old).faithful ≡ true → IsNamed (D.state disk.new)) }
    ensures printed { OnOk result (PrintsUpgrade (capacities_of board.now) (D.state disk.old)
        (W.contents out.old) (W.contents out.new)) }
    ensures ends { IfErr result (Ends upgrading board.now (D.state disk.old) (D.state disk.new)) }
    ensures silent { IfErr result
        (λ fault. KeepsUnless fault (W.contents out.old) (W.contents out.new)) }
{
    match recovery::upgrade(disk, board) {
        Ok(done) => write_done(done, out),
        Err(fault) => Err(Fault::of_image(fault)),
    }
}
