//! The gates let the right bodies through, and catch wrong ones: actors that share a thread, a lock
//! that is held from pop to publish, and one that is held over a call of the disk.
use crate::tests::gates::{HoldsOne, HoldsTillSync, TURNS, WaitsInSync, Watch};
use crate::tests::scene::check;
use disk::{Disk, HookDisk, MemDisk};
use std::alloc::Global;
use std::sync::{Mutex, Wait};
use std::test::Fail;
use std::thread;
use std::thread::Threads;
use workers::{Gate, Place, Who};

/// For how many turns a gate holds a thread that nothing will free.
const FEW: u32 = 10_000;

/// A worker's way with one request: it holds the book for its submission alone.
fn work<G: Gate>(rt: &impl Wait, gate: &G, book: &Mutex<u32>, guest: u16) {
    gate.at(Who::Worker(guest), Place::Popped);
    submit(rt, book);
    gate.at(Who::Worker(guest), Place::Submitted);
    gate.at(Who::Worker(guest), Place::Published);
}

fn submit(rt: &impl Wait, book: &Mutex<u32>) {
    let mut submits = book.lock(rt);
    *submits = submits.wrapping_add(1);
}

/// The same, but all is done under one lock.
fn work_under_lock<G: Gate>(
    rt: &impl Wait,
    gate: &G,
    whole: &Mutex<u32>,
    book: &Mutex<u32>,
    guest: u16,
) {
    let mut turns = whole.lock(rt);
    *turns = turns.wrapping_add(1);
    work(rt, gate, book, guest);
}

/// How two workers are run.
#[derive(Clone, Copy)]
enum Body {
    Right,
    OneThread,
    OneLock,
}

/// Runs two workers. How many requests they submitted.
fn run_two<G: Gate + Sync, R: Threads + Wait + Sync>(rt: &R, gate: &G, body: Body) -> u32 {
    let book = Mutex::new(0_u32);
    let whole = Mutex::new(0_u32);
    match body {
        Body::Right => {
            thread::join(rt, || work(rt, gate, &book, 0), || work(rt, gate, &book, 1));
        }
        Body::OneThread => {
            work(rt, gate, &book, 0);
            work(rt, gate, &book, 1);
        }
        Body::OneLock => {
            thread::join(
                rt,
                || work_under_lock(rt, gate, &whole, &book, 0),
                || work_under_lock(rt, gate, &whole, &book, 1),
            );
        }
    }
    book.into_inner()
}

/// Whether a gate that holds one of two workers finds that it was held in vain, whichever it is.
fn is_caught<R: Threads + Wait + Sync>(rt: &R, body: Body, turns: u32) -> Option<[bool; 2]> {
    let mut late = [false; 2];
    for held in 0..2_u16 {
        let watch = Watch::new(turns);
        if run_two(rt, &HoldsOne(&watch, held), body) != 2 {
            return None;
        }
        late[usize::from(held)] = watch.is_late();
    }
    Some(late)
}

#[test]
fn two_threads_pass_the_gate_that_holds_one(rt: HostRuntime) -> Result<(), Fail> {
    check(
        is_caught(&rt, Body::Right, TURNS) == Some([false; 2]),
        "a worker was held in vain",
    )
}

#[test]
fn workers_on_one_thread_are_caught(rt: HostRuntime) -> Result<(), Fail> {
    check(
        is_caught(&rt, Body::OneThread, FEW) == Some([true; 2]),
        "one thread that wasn't caught",
    )
}

#[test]
fn a_lock_from_pop_to_publish_is_caught(rt: HostRuntime) -> Result<(), Fail> {
    check(
        is_caught(&rt, Body::OneLock, FEW) == Some([true; 2]),
        "a lock that wasn't caught",
    )
}

/// A flusher's call of the disk, with no lock held.
fn flush<G: Gate, D: Disk>(gate: &G, disk: &mut D) -> bool {
    gate.at(Who::Flusher, Place::BeforeCall);
    disk.sync().is_ok()
}

/// The same, with the book held over it.
fn flush_under_lock<G: Gate, D: Disk>(
    rt: &impl Wait,
    gate: &G,
    book: &Mutex<u32>,
    disk: &mut D,
) -> bool {
    let mut submits = book.lock(rt);
    *submits = submits.wrapping_add(1);
    flush(gate, disk)
}

/// Whether a hook that holds a sync finds that it was held in vain, where the book is held over the
/// sync or isn't.
fn is_sync_caught<R: Threads + Wait + Sync>(
    rt: &R,
    alloc: Global,
    under_lock: bool,
    turns: u32,
) -> Option<bool> {
    let watch = Watch::new(turns);
    let gate = HoldsTillSync(&watch);
    let book = Mutex::new(0_u32);
    let mut disk = HookDisk::new(MemDisk::new(Vec::new(alloc)), WaitsInSync(&watch));
    let (synced, _) = thread::join(
        rt,
        || {
            if under_lock {
                flush_under_lock(rt, &gate, &book, &mut disk)
            } else {
                flush(&gate, &mut disk)
            }
        },
        || work(rt, &gate, &book, 1),
    );
    if !synced {
        return None;
    }
    Some(watch.is_late())
}

#[test]
fn a_sync_without_a_lock_passes_the_hook(rt: HostRuntime) -> Result<(), Fail> {
    check(
        is_sync_caught(&rt, rt.alloc(), false, TURNS) == Some(false),
        "a sync was held in vain",
    )
}

#[test]
fn a_lock_over_a_sync_is_caught(rt: HostRuntime) -> Result<(), Fail> {
    check(
        is_sync_caught(&rt, rt.alloc(), true, FEW) == Some(true),
        "a lock that wasn't caught",
    )
}
