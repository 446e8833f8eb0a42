//! Times, and how they are printed.
use std::time::{Duration, Instant};

/// Why a work came to no end.
pub type Stop = &'static str;

pub const NO_MEMORY: Stop = "no memory";

/// How long a work took, or why it came to no end.
pub type Took = Result<Duration, Stop>;

/// How much is done of a work, and what is printed of it.
#[derive(Clone, Copy)]
pub struct Extent {
    pub count: u32,
    /// How many requests come before those that are timed.
    pub warm: u32,
    /// Whether times are printed, or only the numbers that show what was done.
    pub is_timed: bool,
}

/// How long a work took, and what it is measured against.
#[derive(Clone, Copy)]
pub struct Times {
    pub own: Took,
    pub base: Took,
}

/// What was done so often, how long it took, and a number that shows that it was done.
#[derive(Clone, Copy)]
pub struct Row {
    pub name: &'static str,
    pub base: &'static str,
    pub count: u32,
    pub times: Times,
    pub sum: u32,
}

/// The time by the clock, where it tells one.
pub fn now(rt: &HostRuntime) -> Option<Instant> {
    Instant::now(rt).ok()
}

/// The time since then.
pub fn since(rt: &HostRuntime, start: Option<Instant>) -> Took {
    match start {
        Some(start) => start.elapsed(rt).ok().ok_or("no clock"),
        None => Err("no clock"),
    }
}

/// Two times together.
pub fn plus(all: Took, more: Took) -> Took {
    match (all, more) {
        (Ok(all), Ok(more)) => Ok(all.saturating_add(more)),
        (Err(stop), _) | (_, Err(stop)) => Err(stop),
    }
}

impl Times {
    pub fn none() -> Times {
        Times {
            own: Ok(Duration::from_nanos(0)),
            base: Ok(Duration::from_nanos(0)),
        }
    }

    pub fn plus(self, more: Times) -> Times {
        Times {
            own: plus(self.own, more.own),
            base: plus(self.base, more.base),
        }
    }
}

/// Prints how long a row took, and how many times its base's time that is.
fn print_times(rt: &HostRuntime, row: &Row, own: Duration, base: Duration) -> Result<(), Stop> {
    let count = u128::from(row.count.max(1));
    let times = own.as_nanos().saturating_mul(100) / base.as_nanos().max(1);
    let printed = println!(rt;
        "{}: {} ns, {}.{:02} times {}, {} ns",
        row.name,
        own.as_nanos() / count,
        times / 100,
        times % 100,
        row.base,
        base.as_nanos() / count
    );
    printed.ok().ok_or("no output")
}

/// Prints a row: its times, or the number that shows that it was done.
pub fn print_row(rt: &HostRuntime, extent: Extent, row: &Row) -> Result<(), Stop> {
    match (row.times.own, row.times.base) {
        (Ok(own), Ok(base)) if extent.is_timed => print_times(rt, row, own, base),
        (Ok(_), Ok(_)) => println!(rt; "{}: {}", row.name, row.sum)
            .ok()
            .ok_or("no output"),
        (Err(stop), _) | (_, Err(stop)) => Err(stop),
    }
}
