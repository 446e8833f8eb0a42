//! Why a command ended that had begun, in words.

use crate::fault::Fault;
use crate::reason::{OUTPUT, said, said_by};
use command_line::Command;
use disk::Disk;
use guest_driver::BoardSetup;
use intent_slots::Layout;
use rpmb_frame::BoardConfig;
use script::{Line, ScriptError, read_script, read_served_script};
use std::alloc::Global;
use std::io::Write;

/// What an image begins with.
const MAGIC: [u8; 8] = *b"VRPMBIMG";

/// What is said of a file that is no image. It may be anything, so that nothing is told that would
/// take its place.
const NO_IMAGE: &str = "is no image of this board, though the board file names it in image; write \
    the name of the image there. If this was the image, keep it: only a copy that is whole helps, \
    and sets its guests back to its day";

/// What helps where a file is no image, or no whole one.
const SPOILED: &str = "keep it as it is; a copy that is whole may take its place, and sets its \
    guests back to its day";

/// What is said of a file without a byte.
const EMPTY: &str = "is empty: put a copy of the image there; if there never was one, rpmbd format \
    makes it";

/// What a command leaves and what helps, where a call of the image failed.
fn after_failure(command: Command<'_>) -> &'static str {
    match command {
        Command::Format { .. } => {
            "What stands there may be no image: make room, and format it again, without --new"
        }
        Command::Show { .. } => "What it keeps stays",
        Command::Upgrade { .. } => {
            "What it keeps stays: make room, restart the machine if a sync failed, and upgrade it \
             again"
        }
        _ => {
            "If a sync failed restart the machine first; then ask for the counters before you go on"
        }
    }
}

/// What a command works on, once its files are read.
#[derive(Clone, Copy)]
pub struct Task<'a> {
    pub command: Command<'a>,
    pub setup: &'a BoardSetup,
    /// The script's text; empty where the command has none.
    pub script: &'a str,
    /// The path of the image, where the board names one.
    pub image: Option<&'a str>,
}

impl<'a> Task<'a> {
    /// The board.
    fn board(self) -> &'a BoardConfig {
        self.setup.board()
    }

    /// What is said in the place of the image's file.
    fn place(self) -> &'a str {
        self.image.unwrap_or("the image in memory")
    }

    /// What is said in the place of the script's file.
    fn script_path(self) -> &'a str {
        self.command.script().unwrap_or("the script")
    }
}

/// Why the script isn't read: its reader, asked again, says which line it is and why.
fn misread(alloc: Global, task: Task<'_>) -> Option<String> {
    let guests = task.board().guests().len() as u16;
    let read = match task.command {
        Command::Serve { .. } => read_served_script(alloc, task.script, guests),
        _ => read_script(alloc, task.script, guests),
    };
    let path = task.script_path();
    match read {
        Err(ScriptError::BadScript { line, flaw }) => {
            format!(in alloc; "{path}: line {line}: {flaw}").ok()
        }
        _ => None,
    }
}

/// How many bytes the memory has of a guest beyond whose memory a line stores.
fn left_memory(board: &BoardConfig, line: &Line) -> Option<u64> {
    let (guest, end) = line.stored_up_to()?;
    let memory = board.guests().get(usize::from(guest))?.memory;
    if end > memory { Some(memory) } else { None }
}

/// Which line of the script stores beyond its guest's memory: the first one that does ended the
/// run.
fn misplaced(alloc: Global, task: Task<'_>) -> Option<String> {
    let lines = read_script(alloc, task.script, task.board().guests().len() as u16).ok()?;
    let place = lines
        .iter()
        .position(|line| left_memory(task.board(), line).is_some())?;
    let memory = left_memory(task.board(), lines.get(place)?)?;
    let (path, number) = (task.script_path(), place.saturating_add(1));
    let text = "the store reaches beyond its guest's memory";
    format!(in alloc; "{path}: line {number}: {text}, which has {memory} bytes").ok()
}

/// Whether a disk begins as an image does.
fn is_image<D: Disk>(disk: &mut D) -> bool {
    let mut front = [0; 8];
    if disk.len() < 8 {
        return false;
    }
    disk.read_at(0, &mut front).is_ok() && front == MAGIC
}

/// Why the disk holds no image of the board: by its first bytes, or by its length, where that is
/// another one. What may be left of partitions, or is something else, is never told to be
/// formatted, which would empty it.
fn unformatted<D: Disk>(alloc: Global, task: Task<'_>, disk: &mut D) -> Option<String> {
    let (image, whole, length) = (task.place(), Layout::of(task.board()).length(), disk.len());
    if length == 0 {
        return said(alloc, image, EMPTY);
    }
    if !is_image(disk) {
        return said(alloc, image, NO_IMAGE);
    }
    if length == whole {
        return format!(in alloc; "{image}: is an image that isn't whole: {SPOILED}").ok();
    }
    format!(in alloc; "{image}: has {length} bytes, an image of this board {whole}: {SPOILED}").ok()
}

/// What a command has done whose lines aren't taken.
fn done_unseen(task: Task<'_>) -> &'static str {
    if task.image.is_none() {
        return "nothing is kept, as the board names no image";
    }
    match task.command {
        Command::Format { .. } => "the image is made all the same",
        Command::Show { .. } => "the image stays as it was",
        Command::Upgrade { .. } => "the image is of version 2 all the same",
        _ => "what was performed stays, also where its line is missing: ask for the counters",
    }
}

/// Why standard output failed: what is still held back is tried again.
fn unwritten<W: Write>(alloc: Global, task: Task<'_>, out: &mut W) -> Option<String> {
    let done = done_unseen(task);
    let why = match out.flush() {
        Ok(()) => said(alloc, OUTPUT, "took no line more: is it full, or closed?")?,
        Err(error) => said_by(alloc, OUTPUT, &error)?,
    };
    format!(in alloc; "{why}; {done}").ok()
}

/// Which file or stream ended a command that had begun, and why. None where nothing helps, or where
/// memory is refused for the words.
pub fn reason_of_end<D: Disk, W: Write>(
    alloc: Global,
    task: Task<'_>,
    fault: Fault,
    disk: Option<&mut D>,
    out: &mut W,
) -> Option<String> {
    match fault {
        Fault::NotFormatted => match disk {
            Some(disk) => unformatted(alloc, task, disk),
            None => said(alloc, task.place(), NO_IMAGE),
        },
        Fault::OtherConfig => {
            let why = "is the image of another board (other guests or capacities), or its first \
                bytes are spoiled; take that board's file, or name another image in this one";
            said(alloc, task.place(), why)
        }
        Fault::DiskFault => {
            let (image, helps) = (task.place(), after_failure(task.command));
            let text = "a read, a write or a sync of it failed: is its disk full or failing?";
            format!(in alloc; "{image}: {text} {helps}").ok()
        }
        Fault::BadScript { .. } => misread(alloc, task),
        Fault::OutOfRange => misplaced(alloc, task),
        Fault::FileFault => unwritten(alloc, task, out),
        Fault::HistoryFull => {
            let why = "a run answers no more than 2^64 - 1 requests; a new one goes on";
            said(alloc, task.script_path(), why)
        }
        _ => None,
    }
}
