//! How long a file may be that this process writes. A write beyond that ends the process by a
//! signal (SIGXFSZ), before anything can be told; so it is told before a file is made or opened.
//! Where that signal is ignored, the write fails instead, and is told as each that fails.

use crate::fault::Fault;
use crate::reason::Refusal;
use std::fs::File;
use std::io;
use std::io::Read;

/// Where the system tells the limits of this process, and what it does with signals (proc(5)).
const LIMITS: &str = "/proc/self/limits";

const STATUS: &str = "/proc/self/status";

/// More bytes than either has.
const MOST_BYTES: u64 = 65_536;

/// How the line of the limit begins; behind that stand the limit and the most that it may be raised
/// to, in bytes, or `unlimited`.
const FILE_SIZE: &str = "Max file size";

/// How the line of the ignored signals begins; behind that stands a bit for each in hex digits, the
/// lowest for signal 1.
const IGNORED: &str = "SigIgn:";

/// The bit of SIGXFSZ (signal(7)), number 25.
const FILE_SIZE_SIGNAL: u64 = 1 << 24;

/// What stands behind the front of a line that begins so.
fn told_behind(rt: &HostRuntime, path: &str, front: &str) -> io::Result<String> {
    let mut text = String::new(rt.alloc());
    File::open(rt, path)?
        .take(MOST_BYTES)
        .read_to_string(&mut text)?;
    for line in text.split('\n') {
        if let Some(behind) = line.strip_prefix(front) {
            return Ok(String::from_str(rt.alloc(), behind.trim())?);
        }
    }
    Err(io::Error::from(io::ErrorKind::NotFound))
}

/// The most bytes of a file that this process may write; None where it may write all, or where the
/// system tells no limits.
fn most_bytes(rt: &HostRuntime) -> Option<u64> {
    let numbers = told_behind(rt, LIMITS, FILE_SIZE).ok()?;
    numbers.split(' ').next()?.parse::<u64>().ok()
}

/// Whether a write beyond the limit fails, and ends nothing.
fn is_signal_ignored(rt: &HostRuntime) -> bool {
    match told_behind(rt, STATUS, IGNORED) {
        Ok(digits) => match u64::from_str_radix(digits.as_str(), 16) {
            Ok(signals) => signals & FILE_SIZE_SIGNAL != 0,
            Err(_) => false,
        },
        Err(_) => false,
    }
}

/// Refused where a file of this length is longer than this process may write without being ended.
pub(crate) fn check_limit(rt: &HostRuntime, path: &str, length: u64) -> Result<(), Refusal> {
    let most = match most_bytes(rt) {
        Some(most) if most < length && !is_signal_ignored(rt) => most,
        _ => return Ok(()),
    };
    let text = format!(in rt.alloc();
        "an image of this board has {length} bytes, and you may write {most} of a file; raise that \
         (ulimit -f)"
    );
    match text {
        Ok(why) => Err(Refusal::of_file(rt.alloc(), Fault::FileFault, path, why.as_str())),
        Err(_) => Err(Refusal::no_memory()),
    }
}
