//! The program: from the words of its command line and the files that they name to its status.
ghost use Rattle.std.specs.Prelude.{◌≡◌};
ghost use Rattle.disk.specs.Disk.{DiskState};
ghost use Rattle.intent_slots.specs.Layout.{capacities_of, image_length};
ghost use Rattle.commands.specs.Commands.{IsFormat, status_after};

use crate::asking::ask_before_a_loss;
use crate::command::perform;
use crate::end_reason::{Task, reason_of_end};
use crate::fault::Fault;
use crate::fault_lines::{report, report_refusal, write_reason};
use crate::files::{read_board_file, read_image_board, read_script_text};
use crate::fresh::fresh_disk;
use crate::image_files::{create_image, open_image, open_shown};
use crate::notes::tell_notes;
use crate::reason::{OUTPUT, Refusal};
use command_line::{Command, ImageVersion, WordsError, print_words, read_words};
use disk::{Disk, FileDisk};
use intent_slots::Layout;
use std::io::{LineWriter, Write};
use std::sync::Wait;
use std::thread::Threads;

/// The status of a command line that is refused.
pub const REFUSED: u8 = 2;

/// Room for the longest line, that of a reply of 8,192 bytes: two digits a byte, and 14 beside
/// them.
const LINE_ROOM: usize = 16_400;

/// The status that tells how a command ended.
fn status_after(ended: Result<(), Fault>) -> u8
    ensures { result ≡ status_after ended }
{
    match ended {
        Ok(()) => 0,
        Err(_) => 1,
    }
}

/// Performs a command on what its files hold, and says why where it came to a fault. Files and
/// streams are the runtime's, and `threads` starts threads.
fn perform_on<R: AllocGlobal + Threads + Wait + Sync, D: Disk + Send + Drop, W: Write>(
    rt: &HostRuntime,
    threads: &R,
    task: Task<'_>,
    disk: D,
    out: &mut W,
) -> (u8, Option<D>)
    requires { IsFormat task.command
        → (D.state disk).len ≡ image_length (capacities_of task.setup.now.board) }
{
    let mut err = rt.stderr();
    let (command, setup) = (task.command, task.setup);
    let (ended, mut disk) = perform(threads, command, setup, task.script, disk, out, &mut err);
    if let Err(fault) = ended {
        let reason = reason_of_end(rt.alloc(), task, fault, disk.as_mut(), out);
        write_reason(reason.as_ref(), &mut err);
    }
    (status_after(ended), disk)
}

/// Performs a script on the image in the file that the board names, or on a fresh one in memory.
fn perform_script<R: AllocGlobal + Threads + Wait + Sync, W: Write>(
    rt: &HostRuntime,
    threads: &R,
    task: Task<'_>,
    out: &mut W,
) -> Result<u8, Refusal>
    requires { ¬ IsFormat task.command }
{
    match task.image {
        Some(path) => {
            let disk = open_image(rt, path)?;
            Ok(perform_on(rt, threads, task, disk, out).0)
        }
        None => match fresh_disk(rt.alloc(), task.setup.board()) {
            Ok(disk) => Ok(perform_on(rt, threads, task, disk, out).0),
            Err(_) => Err(Refusal::no_memory()),
        },
    }
}

/// Makes an image of the board, of the version that is asked for: a fresh image is of version 1,
/// and becomes one of version 2 by what `upgrade` does.
fn perform_format<R: AllocGlobal + Threads + Wait + Sync, W: Write>(
    rt: &HostRuntime,
    threads: &R,
    task: Task<'_>,
    version: ImageVersion,
    disk: FileDisk,
    out: &mut W,
) -> u8
    requires { disk.len ≡ image_length (capacities_of task.setup.now.board) }
{
    let (status, disk) = perform_on(rt, threads, task, disk, out);
    match (status, version, disk) {
        (0, ImageVersion::Two, Some(disk)) => {
            let board = task.command.board();
            let task = Task {
                command: Command::Upgrade { board },
                ..task
            };
            perform_on(rt, threads, task, disk, out).0
        }
        _ => status,
    }
}

/// Performs a command that works on an image alone.
fn perform_on_image<R: AllocGlobal + Threads + Wait + Sync, W: Write>(
    rt: &HostRuntime,
    threads: &R,
    command: Command<'_>,
    out: &mut W,
) -> Result<u8, Refusal> {
    let path = command.board();
    let (setup, image) = read_image_board(rt, path)?;
    let image = image.as_str();
    let task = Task {
        command,
        setup: &setup,
        script: "",
        image: Some(image),
    };
    match command {
        Command::Format {
            only_new,
            version,
            ..
        } => {
            ask_before_a_loss(rt, image, only_new, setup.board())?;
            let disk = create_image(
                rt,
                image,
                path,
                only_new,
                Layout::of(setup.board()).length(),
            )?;
            Ok(perform_format(rt, threads, task, version, disk, out))
        }
        Command::Show { .. } => {
            let disk = open_shown(rt, image)?;
            Ok(perform_on(rt, threads, task, disk, out).0)
        }
        _ => {
            let disk = open_image(rt, image)?;
            Ok(perform_on(rt, threads, task, disk, out).0)
        }
    }
}

/// Reads the files that the command names, and performs it on them.
fn perform_on_files<R: AllocGlobal + Threads + Wait + Sync, W: Write>(
    rt: &HostRuntime,
    threads: &R,
    command: Command<'_>,
    out: &mut W,
) -> Result<u8, Refusal> {
    match command {
        Command::Format { .. } | Command::Show { .. } | Command::Upgrade { .. } => {
            perform_on_image(rt, threads, command, out)
        }
        Command::Run { board, script } | Command::Serve { board, script } => {
            let (setup, image) = read_board_file(rt, board)?;
            let script = read_script_text(rt, script)?;
            let task = Task {
                command,
                setup: &setup,
                script: script.as_str(),
                image: image.as_deref(),
            };
            let status = perform_script(rt, threads, task, out)?;
            if status == 0 {
                tell_notes(rt, task);
            }
            Ok(status)
        }
    }
}

/// Performs the command. Each line goes out as soon as it is whole, in one write. All room is taken
/// before a file is looked at.
fn perform_with_output<R: AllocGlobal + Threads + Wait + Sync>(
    rt: &HostRuntime,
    threads: &R,
    command: Command<'_>,
) -> Result<u8, Refusal> {
    match LineWriter::with_capacity(rt.alloc(), LINE_ROOM, rt.stdout()) {
        Ok(mut out) => perform_on_files(rt, threads, command, &mut out),
        Err(_) => Err(Refusal::no_memory()),
    }
}

/// Prints why the words give no command, or the help that they ask for.
fn refuse(rt: &HostRuntime, error: WordsError) -> u8 {
    match error {
        WordsError::Refused(error) => {
            let printed = print_words(rt, &error);
            if error.use_stderr() {
                return REFUSED;
            }
            match printed {
                Ok(()) => 0,
                Err(error) => {
                    let refusal = Refusal::of_call(rt.alloc(), OUTPUT, &error);
                    report_refusal(&refusal, &mut rt.stderr())
                }
            }
        }
        WordsError::Incomplete => {
            let _ = eprintln!(rt; "error: --image-version takes 1 or 2");
            REFUSED
        }
        WordsError::NoMemory => report(Fault::NoMemory, &mut rt.stderr()),
    }
}

/// Performs what the words of a command line ask for, of which the first is the program's own name,
/// and gives the program's status: 2 for words that are refused, 1 for a fault, else 0. Files and
/// streams are those of `rt`, and `threads` starts threads.
pub fn status_of<R: AllocGlobal + Threads + Wait + Sync>(
    rt: &HostRuntime,
    threads: &R,
    words: &[String],
) -> u8 {
    match read_words(rt.alloc(), words) {
        Ok(command) => match perform_with_output(rt, threads, command) {
            Ok(status) => status,
            Err(refusal) => report_refusal(&refusal, &mut rt.stderr()),
        },
        Err(error) => refuse(rt, error),
    }
}
