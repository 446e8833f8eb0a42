//! What a command does, once its files are read.
ghost use Rattle.std.specs.Prelude.{◌≡◌};
ghost use Rattle.disk.specs.Disk.{DiskState};
ghost use Rattle.intent_slots.specs.Layout.{capacities_of, image_length};
ghost use Rattle.commands.specs.Commands.{Does, IsFormat, Performs};

use crate::fault::Fault;
use crate::fault_lines::tell_end;
use crate::formatting::format;
use crate::running::run;
use crate::serving::serve;
use crate::showing::show;
use crate::upgrading::upgrade;
use command_line::Command;
use disk::Disk;
use guest_driver::BoardSetup;
use std::io::Write;
use std::sync::Wait;
use std::thread::Threads;

/// Does what the command's own function does.
fn obey<R: AllocGlobal + Threads + Wait + Sync, D: Disk + Send + Drop, W: Write>(
    rt: &R,
    command: Command<'_>,
    setup: &BoardSetup,
    script: &str,
    disk: D,
    out: &mut W,
) -> (Result<(), Fault>, Option<D>)
    requires { IsFormat command
        → (D.state disk).len ≡ image_length (capacities_of setup.now.board) }
    ensures { Does D.state D.makes command.entry setup.now script.now disk
        (W.contents out.old) result.0 result.1 (W.contents out.new) }
{
    let board = setup.board();
    match command {
        Command::Format { .. } => {
            let mut disk = disk;
            let done = format(board, &mut disk, out);
            (done, Some(disk))
        }
        Command::Show { as_json, .. } => {
            let (done, disk) = show(rt.alloc(), board, as_json, disk, out);
            (done, Some(disk))
        }
        Command::Upgrade { .. } => {
            let mut disk = disk;
            let done = upgrade(board, &mut disk, out);
            (done, Some(disk))
        }
        Command::Run { .. } => {
            let (done, disk) = run(rt.alloc(), setup, script, disk, out);
            (done, Some(disk))
        }
        Command::Serve { .. } => serve(rt, setup, script, disk, out),
    }
}

/// Performs the command, tells on standard error the fault that ended it, if one did, and gives
/// back how it ended, and the disk. All work on the disk's content, `run` and `serve` with the text
/// of a script. What was printed is flushed before its end is decided. The disk is lost where the
/// threads of `serve` came to a fault.
pub fn perform<R: AllocGlobal + Threads + Wait + Sync, D: Disk + Send + Drop, W: Write, E: Write>(
    rt: &R,
    command: Command<'_>,
    setup: &BoardSetup,
    script: &str,
    disk: D,
    out: &mut W,
    err: &mut E,
) -> (Result<(), Fault>, Option<D>)
    // An image is made on a disk of its length.
    requires { IsFormat command
        → (D.state disk).len ≡ image_length (capacities_of setup.now.board) }
    // It did what its own function promises, and standard error tells how that ended.
    ensures { Performs D.state D.makes command.entry setup.now script.now disk
        (W.contents out.old) result.0 result.1 (W.contents out.new)
        (E.contents err.old) (E.contents err.new) }
{
    let (ended, disk) = obey(rt, command, setup, script, disk, out);
    tell_end(ended, err);
    (ended, disk)
}
