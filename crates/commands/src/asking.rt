//! What `format` asks a person before something is gone.

use crate::fault::Fault;
use crate::image_files::{is_absent, open_shown};
use crate::reason::Refusal;
use crate::shown_file::ShownFile;
use disk::{Disk, FileDisk};
use recovery::{OpenFault, open};
use rpmb_frame::BoardConfig;
use std::alloc::Global;
use std::io;
use std::io::{BufRead, BufReader, IsTerminal};

/// How many keys the board's image holds on a disk.
fn keys_on(
    alloc: Global,
    disk: FileDisk<ShownFile>,
    board: &BoardConfig,
) -> Result<usize, OpenFault> {
    match open(alloc, disk, board) {
        Ok((_store, partitions)) => Ok(partitions.iter().filter(|p| p.key().is_some()).count()),
        Err((_disk, fault)) => Err(fault),
    }
}

/// What a person would lose with what a file holds: nothing where it isn't there, is empty, or
/// holds an image of the board without a key. Refused where it is there and can't be looked at,
/// also for want of memory: who holds it now may be gone when it is made anew.
fn loss(rt: &HostRuntime, path: &str, board: &BoardConfig) -> Result<Option<String>, Refusal> {
    let alloc = rt.alloc();
    let disk = match open_shown(rt, path) {
        Ok(disk) => disk,
        Err(refusal) => {
            if is_absent(rt, path) {
                return Ok(None);
            }
            return Err(refusal);
        }
    };
    if disk.len() == 0 {
        return Ok(None);
    }
    let words = match keys_on(alloc, disk, board) {
        Ok(0) => return Ok(None),
        Ok(1) => format!(in alloc; "{path} holds a key"),
        Ok(keys) => format!(in alloc; "{path} holds {keys} keys"),
        Err(OpenFault::NoMemory) => return Err(Refusal::no_memory()),
        Err(OpenFault::DiskFault) => format!(in alloc; "{path} holds what can't be read"),
        Err(_) => format!(in alloc; "{path} holds what is no image of this board"),
    };
    match words {
        Ok(words) => Ok(Some(words)),
        Err(_) => Err(Refusal::no_memory()),
    }
}

/// Whether the person at standard input types `yes`.
fn is_agreed(rt: &HostRuntime) -> io::Result<bool> {
    let mut line = String::new(rt.alloc());
    BufReader::new(rt.alloc(), rt.stdin())?.read_line(&mut line)?;
    Ok(line.as_str().trim() == "yes")
}

/// Where a person types the command, and the file holds an image of the board with keys, or
/// anything that is no image of the board, says so and asks whether that may go. `FileFault` where
/// the answer isn't `yes`; a script, whose standard input is no terminal, isn't asked. Where only a
/// new file is made, none is lost, and nobody is asked.
pub(crate) fn ask_before_a_loss(
    rt: &HostRuntime,
    path: &str,
    only_new: bool,
    board: &BoardConfig,
) -> Result<(), Refusal> {
    if only_new || !rt.stdin().is_terminal() {
        return Ok(());
    }
    let Some(loss) = loss(rt, path, board)? else {
        return Ok(());
    };
    let _ = eprint!(rt; "{loss}, gone after this. Type yes to go on: ");
    match is_agreed(rt) {
        Ok(true) => Ok(()),
        Ok(false) => {
            let why = "is left as it is";
            Err(Refusal::of_file(rt.alloc(), Fault::FileFault, path, why))
        }
        Err(error) => Err(Refusal::of_call(rt.alloc(), "standard input", &error)),
    }
}
