//! The parts of a world, and what each event makes of them.
ghost use Rattle.std.specs.Prelude.{◌≡◌, ◌<◌, ◌≤◌, ◌+◌, ℕ, List, length, map, slice_get, IfOk};
ghost use Rattle.std.specs.Prelude.{OnOk, OnErr, Some, None};
ghost use Rattle.rpmb_frame.specs.Partition.{sequence};
ghost use Rattle.board.specs.State.{guests};
ghost use Rattle.board.specs.Opening.{bases_of};
ghost use Rattle.world.specs.World.{Happens, OpensOrNot, StepsAt, WorldState, choosing, disk_of};
ghost use Rattle.world.specs.World.{raised};
ghost use Rattle.world.specs.Kept.{IsConsistent, IsNew};
ghost use Rattle.world.specs.Records.{IsFit, IsFitWith, home_of, seen_of, world_of};
ghost use Rattle.world.specs.Logs.{AreCut, AreFresh, kept_count};
ghost use Rattle.world.specs.declared.home.Home.TheVariants.{Up, Down};
ghost use Rattle.world.specs.declared.event.Refusal.TheVariants as refusal;

use crate::event::{Event, Refusal};
use crate::home::Home;
use crate::log::Log;
use crate::noting;
use crate::upgrading::upgrade_disk;
use board::{Board, Step};
use disk::CutDisk;
use recovery::OpenFault;
use rpmb_core::{NoMemory, Partition};
use rpmb_frame::BoardConfig;
use std::alloc::Global;

/// The parts of a world. What ties them is the world's to keep.
#[derive(Drop)]
pub(crate) struct Stage {
    pub(crate) alloc: Global,
    pub(crate) config: BoardConfig,
    // it is None within an event alone
    pub(crate) home: Option<Home>,
    // one a guest, from the first opening on
    pub(crate) bases: Vec<Partition>,
    pub(crate) logs: Vec<Log>,
    pub(crate) openings: u64,
}

#[tactic(auto, unfolding(crate::specs::World::raised))]
fn raised(openings: u64) -> u64
    ensures { result ≡ raised openings }
{
    if openings == u64::MAX {
        openings
    } else {
        openings + 1
    }
}

/// A copy of each guest's partition.
fn copies(alloc: Global, board: &Board<CutDisk>, count: usize) -> Result<Vec<Partition>, NoMemory>
    requires count { count ≡ length (guests board.now) }
    requires few { count ≤ 64 }
    ensures { IfOk result
        (λ partitions. partitions.items ≡ map (λ x. x.core.partition) (guests board.now)) }
{
    let mut partitions = Vec::with_capacity(alloc, count)?;
    for guest in 0..count {
        let Some(partition) = board.partition(guest as u16) else {
            unreachable!();
        };
        partitions.push(partition.copy(alloc)?)?;
    }
    Ok(partitions)
}

/// A log for each guest, with nothing in it.
fn new_logs(alloc: Global, count: usize) -> Result<Vec<Log>, NoMemory>
    ensures { IfOk result (λ logs. AreFresh count logs.items) }
{
    let mut logs = Vec::with_capacity(alloc, count)?;
    for guest in 0..count {
        let _ = guest; // for the checker: its proof counts by this name
        logs.push(Log::new(alloc))?;
    }
    Ok(logs)
}

/// How many of a guest's accepted requests its partition counts.
fn kept(bases: &[Partition], board: &Board<CutDisk>, guest: usize) -> Option<usize>
    requires { guest < 65536 }
    ensures { result ≡ kept_count (bases_of bases.now guest) (slice_get (guests board.now) guest) }
{
    let partition = board.partition(guest as u16)?;
    let base = match bases.get(guest) {
        None => 0,
        Some(base) => base.sequence(),
    };
    Some(partition.sequence().saturating_sub(base) as usize)
}

/// Cuts what was accepted to what the partitions count.
fn keep_prefixes(logs: &mut [Log], bases: &[Partition], board: &Board<CutDisk>)
    requires { length logs.old ≤ 64 }
    ensures { AreCut (bases_of bases.now) board.now logs.old logs.new }
{
    for guest in 0..logs.len() {
        logs[guest].keep(kept(bases, board, guest));
    }
}

impl Stage {
    /// One event, whole.
    pub(crate) fn happen(&mut self, event: &Event) -> Option<Refusal>
        requires consistent { IsConsistent (world_of (seen_of self.old)) }
        requires fit { IsFit self.old }
        ensures happens { Happens (world_of (seen_of self.old)) event.now result
            (world_of (seen_of self.new)) }
        ensures fit { IsFit self.new }
    {
        match event {
            Event::Do(step) => self.step(step),
            Event::Fail(k) => {
                self.choose(*k);
                None
            }
            Event::Stop(filler) => {
                let disk = self.leave().cut(filler);
                self.open(disk)
            }
            Event::StopIn(filler) => {
                let disk = self.leave().cut_within(filler);
                self.open(disk)
            }
            Event::Open => {
                let disk = self.leave().into_disk();
                self.open(disk)
            }
            Event::Upgrade(stop) => {
                let mut disk = self.leave().into_disk();
                let refused = upgrade_disk(&mut disk, &self.config, stop);
                let opened = self.open(disk);
                refused.or(opened)
            }
        }
    }

    fn step(&mut self, step: &Step) -> Option<Refusal>
        requires consistent { IsConsistent (world_of (seen_of self.old)) }
        requires fit { IsFit self.old }
        ensures steps { StepsAt step.now (home_of self.old.home)
            (world_of (seen_of self.old)) result (world_of (seen_of self.new)) }
        ensures fit { IsFit self.new }
    {
        match &mut self.home {
            Some(Home::Up(board)) => {
                board.what_always_holds();
                match noting::step(self.alloc, self.openings, board, &mut self.logs, step) {
                    Ok(_) => None,
                    Err(fault) => Some(Refusal::Step(fault)),
                }
            }
            _ => None,
        }
    }

    fn choose(&mut self, k: u64)
        requires fit { IsFit self.old }
        ensures chosen { world_of (seen_of self.new)
            ≡ record (world_of (seen_of self.old)) { home = choosing k (home_of self.old.home) } }
        ensures fit { IsFit self.new }
    {
        match &mut self.home {
            Some(Home::Up(board)) => board.fail(k),
            Some(Home::Down(disk)) => disk.fail(k),
            None => {}
        }
    }

    fn leave(&mut self) -> Home
        requires { IsFit self.old }
        ensures home { result ≡ home_of self.old.home }
        ensures rest { self.new ≡ record self.old { home = None } }
    {
        match self.home.take() {
            None => unreachable!(),
            Some(home) => home,
        }
    }

    /// Opens the disk: a life of the board, on what the partitions are now.
    fn open(&mut self, disk: CutDisk) -> Option<Refusal>
        requires first { self.old.openings ≡ 0 → IsNew (world_of (seen_of self.old)) }
        requires fit { IsFitWith (Down disk) self.old }
        ensures opens { OpensOrNot disk (world_of (seen_of self.old)) result
            (world_of (seen_of self.new)) }
        ensures fit { IsFit self.new }
    {
        let life = raised(self.openings);
        match Board::open(self.alloc, disk, life, &self.config) {
            Err((disk, fault)) => self.refuse(disk, fault),
            Ok(board) => match self.take_over(&board) {
                Err(_) => self.refuse(board.into_disk(), OpenFault::NoMemory),
                Ok(()) => {
                    self.openings = life;
                    self.home = Some(Home::Up(board));
                    None
                }
            },
        }
    }

    fn refuse(&mut self, disk: CutDisk, fault: OpenFault) -> Option<Refusal>
        ensures told { result ≡ Some (refusal.Open fault) }
        ensures rest { self.new ≡ record self.old { home = Some (Down disk) } }
    {
        self.home = Some(Home::Down(disk));
        Some(Refusal::Open(fault))
    }

    /// The bases and the logs, for a board that was opened.
    fn take_over(&mut self, board: &Board<CutDisk>) -> Result<(), NoMemory>
        requires many { length (guests board.now) ≡ length self.old.config }
        requires logs { 0 < self.old.openings
            → length self.old.logs.items ≡ length self.old.config }
        ensures first { OnOk result (self.old.openings ≡ 0
            → (self.new.bases.items ≡ map (λ x. x.core.partition) (guests board.now))
            × AreFresh (length self.old.config) self.new.logs.items) }
        ensures later { OnOk result (0 < self.old.openings
            → (self.new.bases ≡ self.old.bases)
            × AreCut (bases_of self.old.bases.items) board.now self.old.logs.items
            self.new.logs.items) }
        ensures rest { OnOk result
            (self.new ≡ record self.old { bases = self.new.bases; logs = self.new.logs }) }
        ensures unchanged { OnErr result (self.new ≡ self.old) }
    {
        let count = self.config.guests().len();
        if self.openings > 0 {
            keep_prefixes(&mut self.logs, &self.bases, board);
            return Ok(());
        }
        let bases = copies(self.alloc, board, count)?;
        self.logs = new_logs(self.alloc, count)?;
        self.bases = bases;
        Ok(())
    }
}
