//! What `serve` does: a script on the partitions of an image, its guests at once.
ghost use Rattle.std.specs.Prelude.{◌≡◌, ◌≤◌, ℕ, List, Err, IfErr, IsErr, IsSome, OnOk, Some};
ghost use Rattle.std.specs.Prelude.{false, true};
ghost use Rattle.std.specs.Prelude.{length, map, vec_len};
ghost use Rattle.std.specs.Io.KnownBytes.{Appends, Keeps};
ghost use Rattle.script.specs.Line.{said};
ghost use Rattle.disk.specs.Disk.{DiskState};
ghost use Rattle.intent_slots.specs.Layout.{capacities_of};
ghost use Rattle.commands.specs.Ending.{Ends, IsOfTelling, IsOfWriting, IsServable, serving};
ghost use Rattle.commands.specs.Serving.{AreServable, IsUnservedAt, PrintsEach, ServeLeaves};
ghost use Rattle.commands.specs.Serving.{ServePrints};
ghost use Rattle.commands.specs.Serving.{ServedPrint, ServesAll};
ghost use Rattle.commands.specs.Serving.{answer_lines, guests_lines};
ghost use Rattle.commands.specs.ServedImage.{ServeKeeps};

use crate::fault::Fault;
use crate::script_by_guest::{part, read_served};
use crate::used_lines::write_answer;
use board::Board;
use disk::Disk;
use guest_driver::{BoardSetup, DriverConfig};
use host::Answer;
use rpmb_frame::BoardConfig;
use script::Line;
use std::alloc::Global;
use std::io::Write;
use std::sync::Wait;
use std::thread::Threads;
use workers::{DriverEnd, Ended, Open, parts_of};

/// The life of the board that a run opens. No job of it comes to another one.
const LIFE: u64 = 1;

/// Writes the lines of a guest.
fn write_answers<W: Write>(
    alloc: Global,
    guest: u16,
    answers: &[Answer],
    out: &mut W,
) -> Result<(), Fault>
    ensures printed { OnOk result
        (Appends (W.contents out.old) (W.contents out.new) (answer_lines guest answers.now)) }
    ensures ends { IfErr result IsOfWriting }
{
    for i in 0..answers.len() {
        write_answer(alloc, guest, &answers[i], out)?;
    }
    Ok(())
}

/// Writes the lines of all guests, one guest after another, and all that is still held back.
fn write_drivers<W: Write>(alloc: Global, drivers: &[DriverEnd], out: &mut W) -> Result<(), Fault>
    requires { length drivers.now ≤ 64 }
    ensures printed { OnOk result (Appends (W.contents out.old) (W.contents out.new)
        (guests_lines 0 (map (λ e. e.answers.items) drivers.now))) }
    ensures ends { IfErr result IsOfWriting }
{
    for guest in 0..drivers.len() {
        write_answers(alloc, guest as u16, drivers[guest].answers.as_slice(), out)?;
    }
    out.flush().or(Err(Fault::FileFault))
}

/// Writes what threads have left, and gives the disk back.
fn tell<D: Disk + Drop, W: Write>(
    alloc: Global,
    ended: Ended<D>,
    out: &mut W,
) -> (Result<(), Fault>, Option<D>)
    requires { vec_len ended.drivers ≤ 64 }
    ensures printed { OnOk result.0 (Appends (W.contents out.old) (W.contents out.new)
        (guests_lines 0 (map (λ e. e.answers.items) ended.drivers.items))) }
    ensures whole { OnOk result.0 (ended.broken ≡ false) }
    ensures cause { result.0 ≡ Err Fault.DiskFault → ended.broken ≡ true }
    ensures failed { result.0 ≡ Err Fault.DiskFault
        → Appends (W.contents out.old) (W.contents out.new)
        (guests_lines 0 (map (λ e. e.answers.items) ended.drivers.items)) }
    ensures ends { IfErr result.0 IsOfTelling }
    ensures back { result.1 ≡ Some ended.store.disk }
{
    let Ended {
        book: _,
        served: _,
        drivers,
        shares: _,
        store,
        broken,
    } = ended;
    let told = write_drivers(alloc, drivers.as_slice(), out);
    let disk = store.into_disk();
    match told {
        Ok(()) if broken => (Err(Fault::DiskFault), Some(disk)),
        told => (told, Some(disk)),
    }
}

/// Serves all guests on the partitions of an image.
fn serve_on<D: Disk + Send + Drop, W: Write, R: Threads + Wait + Sync>(
    rt: &R,
    alloc: Global,
    board: &BoardConfig,
    configs: &[DriverConfig],
    lines: Vec<Line>,
    disk: D,
    out: &mut W,
) -> (Result<(), Fault>, Option<D>)
    requires servable { AreServable board.now lines.items }
    requires drivers { length configs.now ≡ length board.now }
    ensures printed { OnOk result.0 (PrintsEach (length board.now) configs.now
        (map said lines.items) (W.contents out.old) (W.contents out.new)) }
    ensures back { OnOk result.0 (IsSome result.1) }
    ensures ends { IfErr result.0
        (λ fault. (script : List ℕ) (new : DiskState) → IsServable board.now script
        → Ends (serving script) board.now (D.state disk) new fault) }
    ensures prints { IfErr result.0 (λ fault.
        ServedPrint (length board.now) configs.now (map said lines.items) fault
        (W.contents out.old) (W.contents out.new)) }
    ensures leaves { IfErr result.0 (λ fault. ServeLeaves D.state D.makes disk fault result.1) }
    ensures keeps { ServeKeeps D.state D.makes board.now disk result.0 result.1 }
{
    let scripts = match part(alloc, lines, board.guests().len()) {
        Ok(scripts) => scripts,
        Err(fault) => return (Err(fault), Some(disk)),
    };
    let opened = match Board::open(alloc, disk, LIFE, board) {
        Ok(opened) => opened,
        Err((disk, fault)) => return (Err(Fault::of_image(fault)), Some(disk)),
    };
    let parts = parts_of(opened, board);
    match workers::serve(rt, alloc, parts, configs, scripts.as_slice(), &Open) {
        Ok(ended) => tell(alloc, ended, out),
        Err(fault) => (Err(Fault::of(fault)), None),
    }
}

/// Performs a script on the partitions of an image, all guests at once: each guest's lines in their
/// order, but beside the lines of the others. At the end it writes guest 0's lines, then guest 1's,
/// and so on. All lines are read before the image is opened, and none of them may store. The disk
/// is lost where the threads came to a fault.
///
/// # Errors
///
/// `BadScript` of the first line that stores, or says nothing that a script may say, before the
/// disk is called; `NotFormatted` and `OtherConfig` where the disk holds no image, or another
/// board's; `DiskFault` where a call of the disk failed, at the opening or, once all lines are
/// printed, since then; `NoMemory`, and what a host may tell of a chain; `FileFault` where standard
/// output took no more.
pub fn serve<R: AllocGlobal + Threads + Wait + Sync, D: Disk + Send + Drop, W: Write>(
    rt: &R,
    setup: &BoardSetup,
    script: &str,
    disk: D,
    out: &mut W,
) -> (Result<(), Fault>, Option<D>)
    // A line for each chain, guest by guest.
    ensures printed { OnOk result.0
        (ServesAll setup.now.board setup.now.drivers script.now (W.contents out.old)
        (W.contents out.new)) }
    ensures back { OnOk result.0 (IsSome result.1) }
    // The disk may be lost.
    ensures ends { IfErr result.0 (λ fault. (new : DiskState)
        → Ends (serving script.now) setup.now.board (D.state disk) new fault) }
    ensures prints { IfErr result.0 (λ fault.
        ServePrints setup.now.board setup.now.drivers script.now fault (W.contents out.old)
        (W.contents out.new)) }
    ensures leaves { IfErr result.0 (λ fault. ServeLeaves D.state D.makes disk fault result.1) }
    // The threads alone called the disk once the image was opened, and at each moment every stop
    // leaves each partition as it was, with whole intents after it, one after another; with no
    // fault nothing is under way at the end.
    ensures keeps { ServeKeeps D.state D.makes setup.now.board disk result.0 result.1 }
    // Of a script with such a line nothing is printed, and the disk isn't called.
    ensures bad { (n : ℕ) → IsUnservedAt setup.now.board script.now n
        → IsErr result.0 × Keeps (W.contents out.old) (W.contents out.new)
        × (result.1 ≡ Some disk) }
{
    let alloc = rt.alloc();
    let board = setup.board();
    match read_served(alloc, script, board) {
        Ok(lines) => serve_on(rt, alloc, board, setup.drivers(), lines, disk, out),
        Err(fault) => (Err(fault), Some(disk)),
    }
}
