//! What `run` does: a script on the partitions of an image.
ghost use Rattle.std.specs.Prelude.{◌≡◌, ℕ, All, List, Err, IfErr, IfOk, IsErr, OnOk, Some, length};
ghost use Rattle.std.specs.Prelude.{map};
ghost use Rattle.std.specs.Io.KnownBytes.{Keeps};
ghost use Rattle.disk.specs.Disk.{Within};
ghost use Rattle.intent_slots.specs.Layout.{capacities_of};
ghost use Rattle.recovery.specs.Opening.{Untouched};
ghost use Rattle.script.specs.Line.{Said, chain, line_of, said};
ghost use Rattle.script.specs.Script.{lines_of};
ghost use Rattle.queue_looks.specs.Calm.{IsCalm};
ghost use Rattle.board.specs.Moving.{Moves};
ghost use Rattle.commands.specs.Calling.{LineRuns};
ghost use Rattle.commands.specs.Ending.{Ends, IsOfReading, OpeningEnds, RunPrints, running};
ghost use Rattle.commands.specs.Image.{IsOpened, Ran};
ghost use Rattle.commands.specs.Moments.{AnyMoment, LinesCome, MovesTo};
ghost use Rattle.commands.specs.Running.{AreWithin, IsSized};
ghost use Rattle.commands.specs.Transcript.{IsBadAt, Says, StoresNothing};

use crate::fault::Fault;
use crate::used_lines::{write_reply, write_stuck};
use board::Board;
use disk::Disk;
use guest_driver::BoardSetup;
use host::{Answer, Host};
use script::{Line, ScriptError, read_script};
use std::alloc::Global;
use std::io::Write;

/// The life of the board that a run opens. No job of it comes to another one.
const LIFE: u64 = 1;

fn read_lines(alloc: Global, script: &str, setup: &BoardSetup) -> Result<Vec<Line>, Fault>
    ensures ok { IfOk result (λ lines. map (λ line. Some (said line)) lines.items
        ≡ map (line_of (length setup.now.board)) (lines_of script.now)) }
    ensures sized { IfOk result (λ lines. All (λ line. IsSized (said line)) lines.items) }
    ensures within { IfOk result (λ lines. AreWithin (length setup.now.board) lines.items) }
    ensures bad { (n : ℕ) → result ≡ Err (Fault.BadScript n)
        → IsBadAt setup.now.board script.now n }
    ensures reads { IfErr result IsOfReading }
{
    match read_script(alloc, script, setup.board().guests().len() as u16) {
        Ok(lines) => Ok(lines),
        Err(ScriptError::BadScript { line, .. }) => Err(Fault::BadScript { line }),
        Err(ScriptError::NoMemory) => Err(Fault::NoMemory),
    }
}

/// Takes a chain of a guest to its end, and writes what it came to.
fn run_chain<D: Disk, W: Write>(
    alloc: Global,
    host: &mut Host<D>,
    guest: u16,
    readable: &[u8],
    writable: u32,
    out: &mut W,
) -> Result<(), Fault>
    requires { IsSized (chain guest readable.now writable) }
    ensures { LineRuns D.state D.makes (chain guest readable.now writable) host.old
        (W.contents out.old) result (W.contents out.new) host.new }
{
    match host.chain(guest, readable, writable) {
        Ok(Answer::Used(reply)) => write_reply(alloc, guest, reply.as_slice(), out),
        Ok(Answer::Stuck(stuck)) => write_stuck(guest, stuck, out),
        Err(fault) => Err(Fault::of(fault)),
    }
}

/// Takes what a line asks for to its end.
fn run_line<D: Disk, W: Write>(
    alloc: Global,
    host: &mut Host<D>,
    line: Line,
    out: &mut W,
) -> Result<(), Fault>
    requires { IsSized (said line) }
    ensures { LineRuns D.state D.makes (said line) host.old
        (W.contents out.old) result (W.contents out.new) host.new }
{
    match line {
        Line::Nothing => Ok(()),
        Line::Chain {
            guest,
            readable,
            writable,
        } => run_chain(alloc, host, guest, readable.as_slice(), writable, out),
        Line::Store { guest, at, bytes } => match host.store(guest, at, bytes.as_slice()) {
            Ok(()) => Ok(()),
            Err(fault) => Err(Fault::of(fault)),
        },
        Line::Reset { guest } => match host.reset(guest) {
            Ok(()) => Ok(()),
            Err(fault) => Err(Fault::of(fault)),
        },
    }
}

/// Takes the lines to their end, one after another.
fn run_lines<D: Disk, W: Write>(
    alloc: Global,
    host: &mut Host<D>,
    lines: Vec<Line>,
    out: &mut W,
) -> Result<(), Fault>
    requires { All (λ line. IsSized (said line)) lines.items }
    ensures moves { Moves D.state D.makes host.old.board host.new.board }
    ensures moments { LinesCome D.state D.makes lines.items host.old
        (W.contents out.old) result host.new
        (W.contents out.new) }
{
    for line in lines {
        run_line(alloc, host, line, out)?;
    }
    Ok(())
}

/// The guests of an image, each in its first session. The disk is given back with a fault.
fn open_host<D: Disk>(alloc: Global, disk: D, setup: &BoardSetup) -> Result<Host<D>, (D, Fault)>
    ensures opened { IfOk result (IsOpened D.state D.makes setup.now disk) }
    ensures calm { IfOk result (λ h. IsCalm D.state h.board) }
    ensures ends { IfErr result
        (λ e. OpeningEnds (capacities_of setup.now.board) (D.state disk) (D.state e.0) e.1) }
    ensures untouched { IfErr result
        (λ e. Within D.state D.makes (Untouched (D.state disk)) disk e.0) }
{
    match Board::open(alloc, disk, LIFE, setup.board()) {
        Ok(opened) => match Host::new(alloc, opened, setup) {
            Ok(host) => Ok(host),
            Err(disk) => Err((disk, Fault::NoMemory)),
        },
        Err((disk, fault)) => Err((disk, Fault::of_image(fault))),
    }
}

/// Makes the calls of the disk that are left, once all lines are at their end.
fn finish<D: Disk>(host: Host<D>) -> (Result<(), Fault>, D)
    ensures { MovesTo D.state D.makes host.board result.0 result.1 }
{
    match host.finish() {
        (disk, Ok(())) => (Ok(()), disk),
        (disk, Err(_)) => (Err(Fault::DiskFault), disk),
    }
}

/// Takes all lines to their end, one after another, on the partitions of an image.
fn run_on<D: Disk, W: Write>(
    alloc: Global,
    setup: &BoardSetup,
    lines: Vec<Line>,
    disk: D,
    out: &mut W,
) -> (Result<(), Fault>, D)
    requires sized { All (λ line. IsSized (said line)) lines.items }
    requires within { AreWithin (length setup.now.board) lines.items }
    ensures { AnyMoment D.state D.makes setup.now (map said lines.items) disk
        (W.contents out.old) result.0 result.1 (W.contents out.new) }
{
    let mut host = match open_host(alloc, disk, setup) {
        Ok(host) => host,
        Err((disk, fault)) => return (Err(fault), disk),
    };
    let ran = run_lines(alloc, &mut host, lines, out);
    // The lines so far are printed also where the next one ended the run; that they aren't is told
    // first.
    if out.flush().is_err() {
        return (Err(Fault::FileFault), host.into_disk());
    }
    match ran {
        Ok(()) => finish(host),
        Err(fault) => (Err(fault), host.into_disk()),
    }
}

/// Performs a script on the partitions of an image, its lines one after another, and tells of each
/// once it is settled. All lines are read before the image is opened.
///
/// # Errors
///
/// `BadScript` of the first line that says nothing that a script may say, before the disk is
/// called; `NotFormatted` and `OtherConfig` where the disk holds no image, or another board's;
/// `DiskFault` where a call of the disk failed, at the opening or, once all lines are at their end,
/// since then; `NoMemory`; at a chain `HistoryFull`, where 2^64 - 1 chains were answered; at a
/// store `OutOfRange`, where its bytes don't all lie in the guest's memory; `FileFault` where
/// standard output took no more.
pub fn run<D: Disk, W: Write>(
    alloc: Global,
    setup: &BoardSetup,
    script: &str,
    disk: D,
    out: &mut W,
) -> (Result<(), Fault>, D)
    // At its end it has printed the reply to each chain on the partitions of the image, and nothing
    // else, where no line stored into guest memory; and every stop leaves the partitions after
    // them.
    ensures ran { OnOk result.0
        ((lines : List Said) → Says setup.now.board script.now lines → StoresNothing lines
        → Ran setup.now.board (D.state disk) (D.state result.1) lines (W.contents out.old)
        (W.contents out.new)) }
    // Of a script with a bad line nothing is printed, and the disk isn't called.
    ensures bad { (n : ℕ) → IsBadAt setup.now.board script.now n
        → IsErr result.0 × Keeps (W.contents out.old) (W.contents out.new) × (result.1 ≡ disk) }
    ensures ends { IfErr result.0
        (Ends (running script.now) setup.now.board (D.state disk) (D.state result.1)) }
    // At each moment every stop leaves, for each guest, the partition after a prefix of what its
    // lines so far had accepted, with all that was accepted up to the last line that printed, until
    // a call of the disk fails; from then on with all that no stop could lose before. Each line,
    // also one that stores into guest memory, made the call of the host that it says, and a chain
    // printed what the host answered.
    ensures moments { (lines : List Said) → Says setup.now.board script.now lines
        → AnyMoment D.state D.makes setup.now lines disk (W.contents out.old) result.0
        result.1 (W.contents out.new) }
    // With a fault it has printed what a front of its lines prints, unless standard output took no
    // more; where a call of the disk failed, all that they print, with failures from then on.
    ensures stopped { IfErr result.0 (λ fault.
        RunPrints setup.now.board script.now (D.state disk) (D.state result.1) fault
        (W.contents out.old) (W.contents out.new)) }
{
    match read_lines(alloc, script, setup) {
        Ok(lines) => run_on(alloc, setup, lines, disk, out),
        Err(fault) => (Err(fault), disk),
    }
}
