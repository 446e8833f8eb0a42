//! What a run over a file comes to, where the file is a faithful disk: a premise that whoever
//! trusts a file makes.
ghost use Rattle.std.specs.Prelude.{◌≡◌, true, List, OnOk};
ghost use Rattle.disk.specs.FileDisk.{file_state};
ghost use Rattle.script.specs.Line.{Said};
ghost use Rattle.commands.specs.Image.{LeavesRun};
ghost use Rattle.commands.specs.Transcript.{Says, StoresNothing};

use crate::fault::Fault;
use crate::running::run;
use disk::{FileDisk, PositionedFile};
use guest_driver::BoardSetup;
use std::alloc::Global;
use std::io::Write;

/// `run` over a file. Where the file is faithful and the run comes to its end, the partitions that
/// it began with are those that reads of the file gave, every stop leaves those after its lines,
/// and the image's header is as it was.
pub fn run_in_file<F: PositionedFile, W: Write>(
    alloc: Global,
    setup: &BoardSetup,
    script: &str,
    disk: FileDisk<F>,
    out: &mut W,
) -> (Result<(), Fault>, FileDisk<F>)
    ensures { OnOk result.0 ((F.shows disk.file).faithful ≡ true
        → (lines : List Said) → Says setup.now.board script.now lines → StoresNothing lines
        → LeavesRun setup.now.board (file_state F.shows disk) (file_state F.shows result.1) lines) }
{
    run(alloc, setup, script, disk, out)
}
