//! Times what can't be seen from outside of the programs, `bench WORK COUNT`; `.ci/speed` times the
//! rest. WORK is `macs`; `device`, whole requests of one guest against the MACs that they need; or
//! `lock`, what a worker of `rpmbd serve` calls under the book's lock. Before the requests that are
//! timed come that for the key and 20,000 of the kind, so that the history, which holds 16,384, has
//! rolled once; writes are settled on a disk in memory. Without arguments a few of each are done,
//! and numbers show that they were.
#![tactic(auto)]

mod batches;
mod books;
mod clock;
mod device;
mod images;
mod macs;
mod requests;

use books::time_lock;
use clock::{Extent, NO_MEMORY, Stop};
use device::time_device;
use macs::time_macs;
use std::env;
use std::process::ExitCode;

const WARM: u32 = 20_000;

/// Does the work of this name.
fn print_work(rt: &HostRuntime, work: &str, extent: Extent) -> Result<(), Stop> {
    match work {
        "macs" => time_macs(rt, extent),
        "device" => time_device(rt, extent),
        "lock" => time_lock(rt, extent),
        _ => Err("no such work"),
    }
}

/// What the gate runs: a few of each work, with no times.
fn print_few(rt: &HostRuntime) -> Result<(), Stop> {
    let few = Extent {
        count: 8,
        warm: 0,
        is_timed: false,
    };
    time_macs(rt, few)
        .and(time_device(rt, few))
        .and(time_lock(rt, few))
}

/// Does what the words ask for: the program's name, WORK and COUNT.
fn perform(rt: &HostRuntime, words: &[String]) -> Result<(), Stop> {
    match words {
        [_, work, count] => {
            let extent = Extent {
                count: count.parse::<u32>().ok().ok_or("COUNT is no number")?,
                warm: WARM,
                is_timed: true,
            };
            print_work(rt, work.as_str(), extent)
        }
        _ => print_few(rt),
    }
}

fn words(rt: &HostRuntime) -> Result<Vec<String>, Stop> {
    match env::args(rt) {
        Ok(words) => words.collect(rt.alloc()).ok().ok_or(NO_MEMORY),
        Err(_) => Err("no words"),
    }
}

fn main(rt: HostRuntime) -> ExitCode {
    match words(&rt).and_then(|words| perform(&rt, &words)) {
        Ok(()) => ExitCode::SUCCESS,
        Err(stop) => {
            let _ = eprintln!(rt; "bench: {stop}");
            ExitCode::FAILURE
        }
    }
}
