//! Gates that hold a thread until another has come somewhere. A thread that is held in vain for so
//! many turns goes on, and the watch says so.
use disk::Hook;
use std::sync::atomic::{AtomicBool, Ordering};
use std::thread;
use std::time::{Clock, Duration};
use workers::{Gate, Place, Who};

/// How many turns a thread is held at most.
pub const TURNS: u32 = 1_000_000;

/// Sleeps until the flag stands, for fifty seconds at most.
pub fn slept_till(clock: &impl Clock, flag: &AtomicBool) -> bool {
    for _ in 0..50_000 {
        if flag.load(Ordering::SeqCst) {
            return true;
        }
        thread::sleep(clock, Duration::from_millis(1));
    }
    false
}

/// What gates and a hook tell each other.
#[derive(Drop)]
pub struct Watch {
    turns: u32,
    // set once the threads run: the opening of the board made a sync too
    running: AtomicBool,
    in_sync: AtomicBool,
    submitted: AtomicBool,
    published: AtomicBool,
    late: AtomicBool,
}

impl Watch {
    /// A watch that holds a thread for so many turns at most.
    pub fn new(turns: u32) -> Watch {
        Watch {
            turns,
            running: AtomicBool::new(false),
            in_sync: AtomicBool::new(false),
            submitted: AtomicBool::new(false),
            published: AtomicBool::new(false),
            late: AtomicBool::new(false),
        }
    }

    /// Whether a thread was held in vain.
    pub fn is_late(&self) -> bool {
        self.late.load(Ordering::SeqCst)
    }

    fn wait(&self, flag: &AtomicBool) {
        for _ in 0..self.turns {
            if flag.load(Ordering::SeqCst) {
                return;
            }
            thread::yield_now();
        }
        self.late.store(true, Ordering::SeqCst);
    }
}

/// Holds the worker of this guest at `Submitted` until the worker of the other reaches `Published`,
/// and the other's at `Popped` until the first stands there.
#[derive(Clone, Copy)]
pub struct HoldsOne<'a>(pub &'a Watch, pub u16);

impl<'a> Gate for HoldsOne<'a> {
    fn at(&self, who: Who, place: Place) {
        let is_held = who == Who::Worker(self.1);
        match place {
            Place::Popped if !is_held => self.0.wait(&self.0.submitted),
            Place::Submitted if is_held => {
                self.0.submitted.store(true, Ordering::SeqCst);
                self.0.wait(&self.0.published);
            }
            Place::Published if !is_held => self.0.published.store(true, Ordering::SeqCst),
            _ => {}
        }
    }
}

/// Waits in a sync until a worker that had not submitted before passes `Submitted`.
#[derive(Clone, Copy)]
pub struct WaitsInSync<'a>(pub &'a Watch);

impl<'a> Hook for WaitsInSync<'a> {
    fn before_sync(&self) {
        if !self.0.running.load(Ordering::SeqCst) {
            return;
        }
        self.0.in_sync.store(true, Ordering::SeqCst);
        self.0.wait(&self.0.submitted);
    }
}

/// Holds guest 1's worker at `Popped` until the sync is under way.
#[derive(Clone, Copy)]
pub struct HoldsTillSync<'a>(pub &'a Watch);

impl<'a> Gate for HoldsTillSync<'a> {
    fn at(&self, who: Who, place: Place) {
        self.0.running.store(true, Ordering::SeqCst);
        if who != Who::Worker(1) {
            return;
        }
        if place == Place::Popped {
            self.0.wait(&self.0.in_sync);
        }
        if place == Place::Submitted {
            self.0.submitted.store(true, Ordering::SeqCst);
        }
    }
}
