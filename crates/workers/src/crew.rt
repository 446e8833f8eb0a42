//! The threads of a scope: started, run to their end, and joined.
ghost use Rattle.std.specs.Prelude.{◌≡◌, ◌<◌, ℕ, [], IfOk, IfSome, vec_len, slice_index_or, length};
ghost use Rattle.std.specs.Prelude.{map};
ghost use Rattle.guest_driver.specs.declared.config.DriverConfig.{DriverConfig};
ghost use Rattle.workers.specs.Crew.{guests_of};
ghost use Rattle.workers.specs.Following.{Follows};
ghost use Rattle.workers.specs.Keeping.{LeftBy};
ghost use Rattle.workers.specs.Ends.{LeavesAll};
ghost use Rattle.workers.specs.Run.{AreJoined};

use crate::bell::{Actor, Bell};
use crate::desk::Desk;
use crate::driver::DriverEnd;
use crate::driving::drive;
use crate::flushing::{Flusher, FlusherEnd};
use crate::gate::Gate;
use crate::scripts::Script;
use crate::seat::{Guest, Seat};
use crate::worker::Worker;
use disk::Disk;
use guest_driver::DriverConfig;
use host::HostFault;
use std::alloc::Global;
use std::snapshot::Snapshot;
use std::sync::ledger::Ledger;
use std::sync::{Mutex, Wait};
use std::thread;
use std::thread::{Promise, PromisedHandle, Scope, Threads};

/// What all threads share: a lock a guest, one for the book, and one for the bell. No thread holds
/// two of them at once, nor one over a call of the disk.
#[derive(Drop)]
pub(crate) struct Hall<L: Ledger> {
    pub guests: Vec<Mutex<Guest>>,
    pub desk: Mutex<Desk<L>>,
    pub bell: Bell,
}

impl<L: Ledger> Hall<L> {
    /// What the threads of the guest of this number share with others.
    fn seat(&self, number: usize) -> Option<Seat<'_, L>>
        ensures { IfSome result (λ s. s.number ≡ number) }
    {
        let Ok(named) = u16::try_from(number) else {
            return None;
        };
        let guest = self.guests.get(number)?;
        Some(Seat {
            number: named,
            guest,
            desk: &self.desk,
            bell: &self.bell,
            driver: Actor::driver(number)?,
            worker: Actor::worker(number)?,
        })
    }
}

/// A worker of this guest.
#[derive(Clone, Copy)]
pub(crate) struct OfGuest(u16);

impl<L: Ledger> Promise<Worker<L>> for OfGuest {
    ghost kept_by = { λ p w. w.backlog.tally.guest ≡ p.0 };
}

/// A driver of the guest of this number, of this configuration, and of this script.
#[derive(Drop)]
pub(crate) struct OfScript(u16, DriverConfig, Snapshot<Script>);

impl Promise<DriverEnd> for OfScript {
    ghost kept_by = { λ p e. LeavesAll p.0 p.1 e.complete e.answers.items p.2.value };
}

/// The end of this flusher.
#[derive(Drop)]
pub(crate) struct OfFlusher<D: Disk>(Snapshot<Flusher<D>>);

impl<D: Disk> Promise<FlusherEnd<D>> for OfFlusher<D> {
    ghost kept_by = { λ p e. LeftBy D.state D.makes p.0.value e.flusher };
}

/// What the threads have left.
#[derive(Drop)]
pub(crate) struct Crew<L: Ledger, D: Disk> {
    pub workers: Vec<Worker<L>>,
    pub drivers: Vec<DriverEnd>,
    pub flusher: FlusherEnd<D>,
}

/// The threads under way.
#[derive(Drop)]
struct Started<L: Ledger, D: Disk> {
    workers: Vec<PromisedHandle<Worker<L>, OfGuest>>,
    drivers: Vec<PromisedHandle<DriverEnd, OfScript>>,
    flusher: PromisedHandle<FlusherEnd<D>, OfFlusher<D>>,
}

/// Starts a worker.
fn start_worker<'s, E, L: Ledger + Send + Sync, G: Gate + Sync, R: Wait + Sync>(
    scope: &'s Scope<'s, E>,
    rt: &'s R,
    alloc: Global,
    seat: Seat<'s, L>,
    gate: &'s G,
    worker: Worker<L>,
) -> Result<PromisedHandle<Worker<L>, OfGuest>, HostFault>
    ensures { IfOk result (λ h. h.promise.0 ≡ worker.backlog.tally.guest) }
{
    let promise = OfGuest(worker.number());
    let started = scope.spawn_with(promise, move || worker.run(rt, alloc, &seat, gate));
    match started {
        Ok(handle) => Ok(handle),
        Err(_) => Err(HostFault::NoMemory),
    }
}

/// Starts a driver. What the thread borrows is captured as plain references: of a captured struct
/// of references the checker would lose what the closure ensures.
fn start_driver<'s, E, L: Ledger + Send + Sync, R: Wait + Sync>(
    scope: &'s Scope<'s, E>,
    rt: &'s R,
    alloc: Global,
    seat: Seat<'s, L>,
    config: &'s DriverConfig,
    script: &'s Script,
) -> Result<PromisedHandle<DriverEnd, OfScript>, HostFault>
    ensures { IfOk result (λ h. (h.promise.0 ≡ seat.entry.number)
        × (h.promise.1 ≡ config.now) × (h.promise.2.value ≡ script.now)) }
{
    let orders = script.orders();
    let Seat {
        number,
        guest,
        desk: _,
        bell,
        driver: me,
        worker,
    } = seat;
    let started = scope.spawn_with(
        OfScript(number, *config, Snapshot::of(script)),
        move || -> DriverEnd
            ensures { LeavesAll number config.entry.now result.complete result.answers.items
                orders.entry.now }
        { drive(rt, alloc, number, guest, bell, me, worker, config, orders) },
    );
    match started {
        Ok(handle) => Ok(handle),
        Err(_) => Err(HostFault::NoMemory),
    }
}

/// Starts the flusher.
fn start_flusher<
    's,
    E,
    L: Ledger + Send + Sync,
    D: Disk + Send + Drop + 's,
    G: Gate + Sync,
    R: Wait + Sync,
>(
    scope: &'s Scope<'s, E>,
    rt: &'s R,
    hall: &'s Hall<L>,
    gate: &'s G,
    flusher: Flusher<D>,
) -> Result<PromisedHandle<FlusherEnd<D>, OfFlusher<D>>, HostFault>
    requires { Follows flusher.keeper }
    ensures { IfOk result (λ h. h.promise.0.value ≡ flusher) }
{
    let started = scope.spawn_with(
        OfFlusher(Snapshot::of(&flusher)),
        move || -> FlusherEnd<D>
            requires { Follows flusher.keeper }
            ensures { LeftBy D.state D.makes flusher result.flusher }
        { flusher.run(rt, &hall.desk, &hall.bell, gate) },
    );
    match started {
        Ok(handle) => Ok(handle),
        Err(_) => Err(HostFault::NoMemory),
    }
}

/// Starts a worker for each guest.
fn start_workers<'s, E, L: Ledger + Send + Sync, G: Gate + Sync, R: Wait + Sync>(
    scope: &'s Scope<'s, E>,
    rt: &'s R,
    alloc: Global,
    hall: &'s Hall<L>,
    gate: &'s G,
    workers: Vec<Worker<L>>,
) -> Result<Vec<PromisedHandle<Worker<L>, OfGuest>>, HostFault>
    ensures { IfOk result (λ v. map (λ h. h.promise.0) v.items ≡ guests_of workers.items) }
{
    let mut started = Vec::new(alloc);
    for worker in workers {
        let number = usize::from(worker.number());
        let Some(seat) = hall.seat(number) else {
            return Err(HostFault::Foreign);
        };
        let handle = start_worker(scope, rt, alloc, seat, gate, worker)?;
        if started.push(handle).is_err() {
            return Err(HostFault::NoMemory);
        }
    }
    Ok(started)
}

/// Starts a driver for each script. `Foreign` where one lacks a configuration.
fn start_drivers<'s, E, L: Ledger + Send + Sync, R: Wait + Sync>(
    scope: &'s Scope<'s, E>,
    rt: &'s R,
    alloc: Global,
    hall: &'s Hall<L>,
    configs: &'s [DriverConfig],
    scripts: &'s [Script],
) -> Result<Vec<PromisedHandle<DriverEnd, OfScript>>, HostFault>
    ensures len { IfOk result (λ v. vec_len v ≡ length scripts.now) }
    ensures each { IfOk result (λ v. (i : ℕ) (d : _) → i < length scripts.now
        → ((slice_index_or v.items i d).promise.0 ≡ i)
        × (slice_index_or scripts.now i [] ≡ (slice_index_or v.items i d).promise.2.value)) }
    ensures configs { IfOk result (λ v. (i : ℕ) (d : _) (c : DriverConfig) → i < length scripts.now
        → slice_index_or configs.now i c ≡ (slice_index_or v.items i d).promise.1) }
{
    let mut started = Vec::new(alloc);
    for i in 0..scripts.len() {
        let Some(seat) = hall.seat(i) else {
            return Err(HostFault::Foreign);
        };
        let Some(config) = configs.get(i) else {
            return Err(HostFault::Foreign);
        };
        let handle = start_driver(scope, rt, alloc, seat, config, &scripts[i])?;
        if started.push(handle).is_err() {
            return Err(HostFault::NoMemory);
        }
    }
    Ok(started)
}

/// Starts all threads. Those that were started before a refusal are told to end.
fn start_all<
    's,
    E,
    L: Ledger + Send + Sync,
    D: Disk + Send + Drop + 's,
    G: Gate + Sync,
    R: Wait + Sync,
>(
    scope: &'s Scope<'s, E>,
    rt: &'s R,
    alloc: Global,
    hall: &'s Hall<L>,
    gate: &'s G,
    workers: Vec<Worker<L>>,
    configs: &'s [DriverConfig],
    scripts: &'s [Script],
    flusher: Flusher<D>,
) -> Result<Started<L, D>, HostFault>
    requires { Follows flusher.keeper }
    ensures guests { IfOk result (λ s. map (λ h. h.promise.0) s.workers.items
        ≡ guests_of workers.items) }
    ensures drivers { IfOk result (λ s. vec_len s.drivers ≡ length scripts.now) }
    ensures each { IfOk result (λ s. (i : ℕ) (d : _) → i < length scripts.now
        → ((slice_index_or s.drivers.items i d).promise.0 ≡ i)
        × (slice_index_or scripts.now i []
        ≡ (slice_index_or s.drivers.items i d).promise.2.value)) }
    ensures configs { IfOk result (λ s. (i : ℕ) (d : _) (c : DriverConfig) → i < length scripts.now
        → slice_index_or configs.now i c ≡ (slice_index_or s.drivers.items i d).promise.1) }
    ensures flusher { IfOk result (λ s. s.flusher.promise.0.value ≡ flusher) }
{
    let workers = start_workers(scope, rt, alloc, hall, gate, workers)?;
    let drivers = start_drivers(scope, rt, alloc, hall, configs, scripts)?;
    let flusher = start_flusher(scope, rt, hall, gate, flusher)?;
    Ok(Started {
        workers,
        drivers,
        flusher,
    })
}

/// Joins all threads.
fn join_all<L: Ledger, D: Disk + Drop, R: Threads>(
    rt: &R,
    started: Started<L, D>,
    configs: &[DriverConfig],
    scripts: &[Script],
) -> Result<Crew<L, D>, HostFault>
    requires len { vec_len started.drivers ≡ length scripts.now }
    requires each { (i : ℕ) (d : _) → i < length scripts.now
        → ((slice_index_or started.drivers.items i d).promise.0 ≡ i)
        × (slice_index_or scripts.now i []
        ≡ (slice_index_or started.drivers.items i d).promise.2.value) }
    requires configs { (i : ℕ) (d : _) (c : DriverConfig) → i < length scripts.now
        → slice_index_or configs.now i c ≡ (slice_index_or started.drivers.items i d).promise.1 }
    ensures joined { IfOk result
        (AreJoined (map (λ h. h.promise.0) started.workers.items) configs.now scripts.now) }
    ensures flusher { IfOk result (λ c. LeftBy D.state D.makes
        started.flusher.promise.0.value c.flusher.flusher) }
{
    let _ = configs; // for the checker: clauses name it
    let Started {
        workers,
        drivers,
        flusher,
    } = started;
    let Ok(workers) = thread::join_promised(rt, workers) else {
        return Err(HostFault::NoMemory);
    };
    let Ok(drivers) = thread::join_promised(rt, drivers) else {
        return Err(HostFault::NoMemory);
    };
    let flusher = flusher.join(rt);
    Ok(Crew {
        workers,
        drivers,
        flusher,
    })
}

/// Runs all threads of a scope to their end.
fn run_in<
    's,
    E,
    L: Ledger + Send + Sync,
    D: Disk + Send + Drop + 's,
    G: Gate + Sync,
    R: Threads + Wait + Sync,
>(
    scope: &'s Scope<'s, E>,
    rt: &'s R,
    alloc: Global,
    hall: &'s Hall<L>,
    gate: &'s G,
    workers: Vec<Worker<L>>,
    configs: &'s [DriverConfig],
    scripts: &'s [Script],
    flusher: Flusher<D>,
) -> Result<Crew<L, D>, HostFault>
    requires { Follows flusher.keeper }
    ensures joined { IfOk result (AreJoined (guests_of workers.items) configs.now scripts.now) }
    ensures flusher { IfOk result (λ c. LeftBy D.state D.makes flusher c.flusher.flusher) }
{
    match start_all(
        scope, rt, alloc, hall, gate, workers, configs, scripts, flusher,
    ) {
        Ok(started) => join_all(rt, started, configs, scripts),
        Err(fault) => {
            hall.bell.stop(rt);
            Err(fault)
        }
    }
}

/// Runs all threads to their end.
pub(crate) fn run_all<
    L: Ledger + Send + Sync,
    D: Disk + Send + Drop,
    G: Gate + Sync,
    R: Threads + Wait + Sync,
>(
    rt: &R,
    alloc: Global,
    hall: &Hall<L>,
    gate: &G,
    workers: Vec<Worker<L>>,
    configs: &[DriverConfig],
    scripts: &[Script],
    flusher: Flusher<D>,
) -> Result<Crew<L, D>, HostFault>
    requires { Follows flusher.keeper }
    ensures joined { IfOk result (AreJoined (guests_of workers.items) configs.now scripts.now) }
    ensures flusher { IfOk result (λ c. LeftBy D.state D.makes flusher c.flusher.flusher) }
{
    thread::scope(
        thread::scope_env(),
        rt,
        |scope| -> Result<Crew<L, D>, HostFault>
            requires { Follows flusher.keeper }
            ensures joined { IfOk result
                (AreJoined (guests_of workers.items) configs.entry.now scripts.entry.now) }
            ensures flusher { IfOk result
                (λ c. LeftBy D.state D.makes flusher c.flusher.flusher) }
        {
            run_in(
                scope, rt, alloc, hall, gate, workers, configs, scripts, flusher,
            )
        },
    )
}
