//! Faults of several threads at once: the lowest-numbered guest's is answered.
use crate::tests::devices::Other;
use crate::tests::gates::slept_till;
use crate::tests::runs::{Ends, run, run_openly};
use crate::tests::scene::{Step, check, formatted, scripts_of};
use disk::CutDisk;
use host::HostFault;
use std::alloc::Global;
use std::sync::Wait;
use std::sync::atomic::{AtomicBool, Ordering};
use std::test::Fail;
use std::thread;
use std::thread::Threads;
use std::time::{Clock, Duration};
use workers::{Gate, Place, Script, Who};

/// The scripts of two guests with a key each.
fn two_keys(alloc: Global) -> Option<Vec<Script>> {
    scripts_of(alloc, &[&[Step::Key(0x11)], &[Step::Key(0x11)]])
}

/// Whether a run of two guests ends with this fault of which guest 1 has this device.
fn ends_at<R: Threads + Wait + Sync>(
    rt: &R,
    alloc: Global,
    other: Other<'_>,
    fault: HostFault,
) -> bool {
    match two_keys(alloc) {
        Some(scripts) => {
            run_openly(rt, alloc, &[(1, other)], &scripts, &Ends) == Some(Err(fault))
        }
        None => false,
    }
}

#[test]
fn each_fault_alone_ends_a_run(rt: HostRuntime) -> Result<(), Fail> {
    check(
        ends_at(&rt, rt.alloc(), Other::Foreign, HostFault::Foreign)
            && ends_at(&rt, rt.alloc(), Other::Narrow(1), HostFault::OutOfRange),
        "no foreign job, or no narrow memory",
    )
}

/// Holds the worker of one guest at `Popped`, so long that the other's driver has come to its fault
/// by then.
#[derive(Drop)]
struct HoldsAWhile<'a, C: Clock> {
    clock: &'a C,
    held: u16,
    popped: AtomicBool,
}

impl<'a, C: Clock> Gate for HoldsAWhile<'a, C> {
    fn at(&self, who: Who, place: Place) {
        if who == Who::Worker(self.held) && place == Place::Popped {
            self.popped.store(true, Ordering::SeqCst);
            thread::sleep(self.clock, Duration::from_secs(8));
        }
    }
}

/// One chain behind many resets, so that the other guest's worker has popped before.
fn late_steps(alloc: Global) -> Option<Vec<Step>> {
    let Ok(mut steps) = vec![in alloc; Step::Reset; 1_000] else {
        return None;
    };
    if steps.push(Step::Outcome).is_err() {
        return None;
    }
    Some(steps)
}

/// The scripts of two guests, of which this one's is late.
fn late_scripts(alloc: Global, late: u8) -> Option<Vec<Script>> {
    let Some(resets) = late_steps(alloc) else {
        return None;
    };
    if late == 0 {
        scripts_of(alloc, &[resets.as_slice(), &[Step::Outcome]])
    } else {
        scripts_of(alloc, &[&[Step::Outcome], resets.as_slice()])
    }
}

/// A run of two guests, of which this one's driver comes to a fault, and the other's worker, which
/// is held. The fault that it ends with, and whether the worker had come so far before the driver
/// ended all.
fn run_late<R: Threads + Wait + Clock + Sync>(
    rt: &R,
    alloc: Global,
    driver: u8,
) -> Option<(HostFault, bool)> {
    let gate = HoldsAWhile {
        clock: rt,
        held: u16::from(1 - driver % 2),
        popped: AtomicBool::new(false),
    };
    let Some(scripts) = late_scripts(alloc, driver) else {
        return None;
    };
    let Some(disk) = formatted(alloc, 2) else {
        return None;
    };
    let others = [
        (usize::from(driver), Other::Narrow(u16::from(driver))),
        (usize::from(1 - driver % 2), Other::Foreign),
    ];
    match run(rt, alloc, disk, &others, &scripts, &gate, &Ends) {
        Some(Err(fault)) => Some((fault, gate.popped.load(Ordering::SeqCst))),
        _ => None,
    }
}

/// Such runs, until in one both came to a fault: that one ends with this.
fn ends_with<R: Threads + Wait + Clock + Sync>(
    rt: &R,
    alloc: Global,
    driver: u8,
    fault: HostFault,
) -> bool {
    for _ in 0..100 {
        match run_late(rt, alloc, driver) {
            Some((found, true)) => return found == fault,
            Some((_, false)) => {}
            None => return false,
        }
    }
    false
}

#[test]
fn a_driver_of_a_lower_guest_comes_before_a_worker(rt: HostRuntime) -> Result<(), Fail> {
    check(
        ends_with(&rt, rt.alloc(), 0, HostFault::OutOfRange),
        "another outcome",
    )
}

#[test]
fn a_worker_of_a_lower_guest_comes_before_a_driver(rt: HostRuntime) -> Result<(), Fail> {
    check(
        ends_with(&rt, rt.alloc(), 1, HostFault::Foreign),
        "another outcome",
    )
}

/// Holds guest 1's worker at `Popped` until guest 0's has published.
#[derive(Drop)]
struct HoldsTillPublished<'a, C: Clock> {
    clock: &'a C,
    called: AtomicBool,
    published: AtomicBool,
}

impl<'a, C: Clock> Gate for HoldsTillPublished<'a, C> {
    fn at(&self, who: Who, place: Place) {
        match (who, place) {
            (Who::Flusher, _) => self.called.store(true, Ordering::SeqCst),
            (Who::Worker(0), Place::Published) => self.published.store(true, Ordering::SeqCst),
            (Who::Worker(1), Place::Popped) => {
                let _ = slept_till(self.clock, &self.published);
            }
            _ => {}
        }
    }
}

/// A fresh image on a disk whose k-th call fails.
fn failing(alloc: Global, k: u64) -> Option<CutDisk> {
    let Some(fresh) = formatted(alloc, 2) else {
        return None;
    };
    let Ok(content) = fresh.content().to_vec(alloc) else {
        return None;
    };
    let Ok(mut disk) = CutDisk::new(alloc, content) else {
        return None;
    };
    disk.fail(k);
    Some(disk)
}

/// The fault of a run of which the first call behind the opening fails: where one of the opening
/// does, there is no run. Guest 1's jobs are another's.
fn fault_of_first<G: Gate + Sync, R: Threads + Wait + Sync>(
    rt: &R,
    alloc: Global,
    scripts: &[Script],
    gate: &G,
) -> Option<Result<bool, HostFault>> {
    for k in 1..100 {
        let Some(disk) = failing(alloc, k) else {
            return None;
        };
        let ended = run(
            rt,
            alloc,
            disk,
            &[(1, Other::Foreign)],
            scripts,
            gate,
            &Ends,
        );
        if ended.is_some() {
            return ended;
        }
    }
    None
}

// The one call of the disk that the key leads to fails, and guest 0 is told so before guest 1's
// worker goes on.
#[test]
fn a_fault_is_answered_where_a_call_of_the_disk_has_failed(rt: HostRuntime) -> Result<(), Fail> {
    let gate = HoldsTillPublished {
        clock: &rt,
        called: AtomicBool::new(false),
        published: AtomicBool::new(false),
    };
    let Some(scripts) = two_keys(rt.alloc()) else {
        return Err(Fail::from("no scripts"));
    };
    let ended = fault_of_first(&rt, rt.alloc(), &scripts, &gate);
    check(
        ended == Some(Err(HostFault::Foreign))
            && gate.called.load(Ordering::SeqCst)
            && gate.published.load(Ordering::SeqCst),
        "another fault, no call, no reply before",
    )
}
