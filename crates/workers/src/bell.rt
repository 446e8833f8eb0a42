//! What threads wait on.
ghost use Rattle.std.specs.Prelude.{◌≡◌, ◌↔◌, ◌<◌, ◌≤◌, true, false, min, ◌+◌, ◌^◌, ◌-◌};
ghost use Rattle.std.specs.Prelude.{IsTrue, length, slice_index_or};
ghost use Rattle.workers.specs.Bell.{TellsAll, TellsWorkers, has_moved, rung, rung_at};

use std::sync::{Condvar, Mutex, Wait};
use std::{hint, thread};

/// How many guests a board has at most.
const GUESTS: usize = 64;

/// A line for each of two threads a guest, and one for the flusher.
const LINES: usize = 129;

/// How often a thread that finds no work looks again at once: a wake costs as much as several
/// looks.
const LOOKS: u32 = 8;

/// How often it lets others run after that, before it waits. Beside other load each time may cost
/// the rest of a time slice.
const YIELDS: u32 = 4;

/// After so many looks that found work a thread looks at the bell, whether all are to end.
const TURNS: u32 = 64;

/// A thread, as the bell knows it.
#[derive(Clone, Copy)]
pub(crate) struct Actor {
    line: usize,
    ghost within: { line < 129 },
}

impl Actor {
    /// The driver of this guest. None, where no board has the guest.
    pub fn driver(guest: usize) -> Option<Actor> {
        if guest < GUESTS {
            Some(Actor { line: guest })
        } else {
            None
        }
    }

    /// The worker of this guest. None, where no board has the guest.
    pub fn worker(guest: usize) -> Option<Actor> {
        if guest < GUESTS {
            Some(Actor {
                line: GUESTS + guest,
            })
        } else {
            None
        }
    }

    pub fn flusher() -> Actor
        ensures { result.line ≡ 128 }
    {
        Actor { line: LINES - 1 }
    }
}

/// What the bell knows of a thread.
#[derive(Clone, Copy, Drop)]
struct Line {
    /// How often it rang for it.
    count: u64,
    /// Whether the thread waits, or is about to.
    waits: bool,
}

impl Line {
    /// Rings for the thread. Whether it waits.
    fn tell(&mut self) -> bool
        ensures counts { self.new ≡ rung self.old }
        ensures waits { result ≡ self.old.waits }
    {
        self.count = self.count.wrapping_add(1);
        self.waits
    }
}

/// What a look at the bell tells a thread.
#[derive(Clone, Copy, Drop)]
pub(crate) struct Look {
    /// How often it rang for it.
    pub count: u64,
    /// Whether all threads are to end.
    pub stopped: bool,
    /// How many workers have ended.
    pub workers_ended: usize,
}

/// What lies under the bell's lock. Each change says whether somebody waits for it.
#[derive(Drop)]
struct Rings {
    /// Of the drivers, then of the workers, guest by guest, and of the flusher.
    lines: [Line; LINES],
    stopped: bool,
    workers_ended: usize,
    /// Whether a worker has found no room in the history since the workers were last told that
    /// there may be some.
    wants_room: bool,
}

impl Rings {
    fn look(&self, who: Actor) -> Look
        ensures count { (l : _)
            → result.count ≡ (slice_index_or self.now.lines who.line l).count }
        ensures ends { result.workers_ended ≡ self.now.workers_ended }
        ensures stops { result.stopped ≡ self.now.stopped }
    {
        Look {
            count: self.lines[who.line].count,
            stopped: self.stopped,
            workers_ended: self.workers_ended,
        }
    }

    fn tell(&mut self, who: Actor) -> bool
        ensures counts { (l : _) → self.new.lines
            ≡ rung_at self.old.lines who.line (slice_index_or self.old.lines who.line l) }
        ensures waits { (l : _) → result ≡ (slice_index_or self.old.lines who.line l).waits }
        ensures rest { (self.new.stopped ≡ self.old.stopped)
            × (self.new.workers_ended ≡ self.old.workers_ended)
            × (self.new.wants_room ≡ self.old.wants_room) }
    {
        self.lines[who.line].tell()
    }

    fn set_waits(&mut self, who: Actor, waits: bool) {
        self.lines[who.line].waits = waits;
    }

    fn tell_workers(&mut self) -> bool
        ensures tells { TellsAll 64 128 self.old.lines result self.new.lines }
        ensures rest { (self.new.stopped ≡ self.old.stopped)
            × (self.new.workers_ended ≡ self.old.workers_ended)
            × (self.new.wants_room ≡ self.old.wants_room) }
    {
        tell_each(&mut self.lines, GUESTS, 2 * GUESTS)
    }

    /// Replies have left the book: there is something for this driver, and room for each worker
    /// that asked for it.
    fn tell_left(&mut self, driver: Actor) -> bool
        ensures room { self.new.wants_room ≡ false }
        ensures alone { self.old.wants_room ≡ false → (l : _) → self.new.lines
            ≡ rung_at self.old.lines driver.line (slice_index_or self.old.lines driver.line l) }
        ensures workers { self.old.wants_room ≡ true → (l : _) → (told : _)
            × TellsAll 64 128 (rung_at self.old.lines driver.line
            (slice_index_or self.old.lines driver.line l)) told self.new.lines }
    {
        let waits = self.tell(driver);
        if !self.wants_room {
            return waits;
        }
        self.wants_room = false;
        self.tell_workers() || waits
    }

    /// More is settled of those guests whose mark has moved.
    fn tell_settled(&mut self, before: &[u64], now: &[u64]) -> bool
        ensures { TellsWorkers (has_moved before.now now.now) self.old.lines result
            self.new.lines }
    {
        tell_moved(&mut self.lines, before, now)
    }

    fn stop(&mut self) -> bool
        ensures stopped { self.new.stopped ≡ true }
        ensures all { TellsAll 0 129 self.old.lines result self.new.lines }
    {
        self.stopped = true;
        tell_each(&mut self.lines, 0, LINES)
    }

    fn leave(&mut self) -> bool
        ensures ended { self.new.workers_ended
            ≡ min (self.old.workers_ended + 1) (2 ^ 64 - 1) }
        ensures flusher { (l : _) → self.new.lines
            ≡ rung_at self.old.lines 128 (slice_index_or self.old.lines 128 l) }
    {
        self.workers_ended = self.workers_ended.saturating_add(1);
        self.tell(Actor::flusher())
    }

    /// Whether nothing rang for a thread since its look.
    fn stands(&self, who: Actor, seen: u64) -> bool
        ensures { (l : _) → IsTrue result ↔ (self.now.stopped ≡ false)
            × ((slice_index_or self.now.lines who.line l).count ≡ seen) }
    {
        !self.stopped && self.lines[who.line].count == seen
    }
}

/// Rings for each thread from one line up to another. Whether one of them waits.
fn tell_each(lines: &mut [Line], from: usize, until: usize) -> bool
    requires order { from ≤ until }
    requires inside { until ≤ length lines.old }
    ensures { TellsAll from until lines.old result lines.new }
{
    let mut waits = false;
    for i in from..until {
        waits = lines[i].tell() || waits;
    }
    waits
}

/// Whether the number of this place has changed.
fn has_moved(before: &[u64], now: &[u64], i: usize) -> bool
    ensures { result ≡ has_moved before.now now.now i }
{
    i < before.len() && i < now.len() && before[i] != now[i]
}

/// Rings for the worker of each guest whose number has changed. Whether one of them waits.
fn tell_moved(lines: &mut [Line], before: &[u64], now: &[u64]) -> bool
    requires { 128 ≤ length lines.old }
    ensures { TellsWorkers (has_moved before.now now.now) lines.old result lines.new }
{
    let mut waits = false;
    for i in GUESTS..2 * GUESTS {
        if has_moved(before, now, i - GUESTS) {
            waits = lines[i].tell() || waits;
        }
    }
    waits
}

/// What threads wait on, and ring for each other where they changed something that another may wait
/// for. A thread reads how often it was rung for before it looks for work, and then waits while
/// that stands, so no ring is lost. Whom nobody waits for isn't woken, and who wakes holds no lock.
#[derive(Drop)]
pub(crate) struct Bell {
    rings: Mutex<Rings>,
    rung: Condvar,
}

impl Bell {
    pub fn new() -> Bell {
        let quiet = Line {
            count: 0,
            waits: false,
        };
        Bell {
            rings: Mutex::new(Rings {
                lines: [quiet; LINES],
                stopped: false,
                workers_ended: 0,
                wants_room: false,
            }),
            rung: Condvar::new(),
        }
    }

    /// How it stands for a thread.
    pub fn look(&self, rt: &impl Wait, who: Actor) -> Look {
        self.rings.lock(rt).look(who)
    }

    /// Wakes those who wait. Each of them takes the bell's lock, so it isn't held here.
    fn wake(&self, waits: bool) {
        if waits {
            self.rung.notify_all();
        }
    }

    /// Tells a thread that there is something for it.
    pub fn ring(&self, rt: &impl Wait, who: Actor) {
        let waits = self.rings.lock(rt).tell(who);
        self.wake(waits);
    }

    /// Tells this driver that its device has replies for it, or stopped, and each worker that asked
    /// for it that there may be room in the history.
    pub fn ring_left(&self, rt: &impl Wait, driver: Actor) {
        let waits = self.rings.lock(rt).tell_left(driver);
        self.wake(waits);
    }

    /// Asks for a ring once there may be room in the history. Who asks looks once more before it
    /// waits: the reply that made room may have left before.
    pub fn want_room(&self, rt: &impl Wait) {
        let mut rings = self.rings.lock(rt);
        rings.wants_room = true;
    }

    /// Tells the workers of those guests whose mark has moved.
    pub fn ring_settled(&self, rt: &impl Wait, before: &[u64], now: &[u64]) {
        let waits = self.rings.lock(rt).tell_settled(before, now);
        self.wake(waits);
    }

    /// Tells all workers that there may be something for them.
    pub fn ring_workers(&self, rt: &impl Wait) {
        let waits = self.rings.lock(rt).tell_workers();
        self.wake(waits);
    }

    /// Tells all threads to end at their next look.
    pub fn stop(&self, rt: &impl Wait) {
        let waits = self.rings.lock(rt).stop();
        self.wake(waits);
    }

    /// Tells that a worker has ended.
    pub fn leave(&self, rt: &impl Wait) {
        let waits = self.rings.lock(rt).leave();
        self.wake(waits);
    }

    /// Waits until it has rung for the thread since that look.
    fn wait<R: Wait>(&self, rt: &R, who: Actor, seen: u64) {
        let mut rings = self.rings.lock(rt);
        rings.set_waits(who, true);
        let mut rings = self
            .rung
            .wait_while(rt, rings, |rings| rings.stands(who, seen));
        rings.set_waits(who, false);
    }
}

/// Where a thread stands between its looks for work and its waits.
#[derive(Drop)]
pub(crate) struct Rest {
    me: Actor,
    look: Look,
    /// How many looks for work in a row came to nothing.
    tries: u32,
    /// How many came to something since the last look at the bell.
    turns: u32,
}

impl Rest {
    /// A thread that is about to look for work.
    pub fn begin(rt: &impl Wait, bell: &Bell, me: Actor) -> Rest {
        Rest {
            me,
            look: bell.look(rt, me),
            tries: 0,
            turns: 0,
        }
    }

    /// Whether all threads are to end.
    pub fn is_stopped(&self) -> bool {
        self.look.stopped
    }

    /// How many workers had ended at the last look.
    pub fn workers_ended(&self) -> usize {
        self.look.workers_ended
    }

    fn look(&mut self, rt: &impl Wait, bell: &Bell) {
        self.look = bell.look(rt, self.me);
        self.turns = 0;
    }

    /// The thread found work.
    pub fn went_on(&mut self, rt: &impl Wait, bell: &Bell) {
        self.tries = 0;
        self.turns = self.turns.saturating_add(1);
        if self.turns >= TURNS {
            self.look(rt, bell);
        }
    }

    /// The thread found no work. At first it looks at the bell; then it tries again some times, at
    /// once and after others ran; and then it waits until it was rung for since that look.
    pub fn rest(&mut self, rt: &impl Wait, bell: &Bell) {
        let tries = self.tries;
        self.tries = tries.saturating_add(1);
        if tries == 0 {
            self.look(rt, bell);
        } else if tries < LOOKS {
            hint::spin_loop();
        } else if tries < LOOKS + YIELDS {
            thread::yield_now();
        } else {
            bell.wait(rt, self.me, self.look.count);
            self.look(rt, bell);
            self.tries = 1;
        }
    }
}
