//! All of a board but its devices, and what each step does to it and to the devices.
ghost use Rattle.std.specs.Prelude.{◌≡◌, ◌↔◌, ℕ, List, IfOk, IfErr, IsTrue, OnOk, None, Some, true};
ghost use Rattle.std.specs.Prelude.{false, option_copied, slice_get, slice_set};
ghost use Rattle.disk.specs.Disk.{HasRisen, Within};
ghost use Rattle.intent_slots.specs.Layout.{capacities_of};
ghost use Rattle.intent_slots.specs.Payload.{Intent as IntentSpec};
ghost use Rattle.recovery.specs.Opening.{AllBegun, Answers, Untouched};
ghost use Rattle.recovery.specs.Reading.{is_disk_fault};
ghost use Rattle.flusher.specs.Store.{MayGive, is_free, next_call};
ghost use Rattle.rpmb_book.specs.Book.{is_share, may_settle, state};
ghost use Rattle.rpmb_book.specs.Replay.{opened};
ghost use Rattle.rpmb_book.specs.Sound.{AreOfBoard};
ghost use Rattle.board.specs.Board.{IsKnown};
ghost use Rattle.board.specs.Opening.{Begins, Calls, Finds, begun, disk_left, new_board};
ghost use Rattle.board.specs.Opening.{opening_of};
ghost use Rattle.board.specs.State.{Marks as MarksReport, emptied, in_place, with_devices};
ghost use Rattle.board.specs.State.{without_devices};
ghost use Rattle.board.specs.Steps.{Acts, AdvancesUnder, CollectsInto, Drives, GivesWhere};
ghost use Rattle.board.specs.Steps.{PopsInto};
ghost use Rattle.board.specs.Steps.{PublishesFrom, SettlesBy, SubmitsFrom, TakesInto, answer_by};
ghost use Rattle.board.specs.Steps.{did_answer, drive_answer, publish_answer};
ghost use Rattle.board.specs.Telling.{choosing_call, telling};
ghost use Rattle.board.specs.declared.step.StepFault.TheVariants as fault;

use crate::keeper::{Keeper, take_from};
use crate::opening::Beside;
use crate::step::{Act, Seen};
use disk::{CutDisk, Disk, OutboxDisk, Told};
use flusher::{Call, Store, StoreFault};
use guest_memory::MemFault;
use mmio_transport::{Device, DeviceFault, Done, Job, Published};
use recovery::OpenFault;
use rpmb_book::{Book, Refused, Tally};
use rpmb_core::Partition;
use rpmb_frame::BoardConfig;
use std::alloc::Global;
use std::marker::Model;

/// All of a board but its devices, and what lies between its steps. What ties it is the board's to
/// keep. A contract sees it as a board that has no device.
#[derive(Drop)]
pub struct Rest<D: Disk> {
    pub(crate) alloc: Global,
    pub(crate) book: Book,
    pub(crate) tallies: Vec<Tally>,
    pub(crate) jobs: Vec<Option<Job>>,
    pub(crate) dones: Vec<Option<Done>>,
    pub(crate) keeper: Keeper<D>,
}

impl<D: Disk> Model for Rest<D> {
    ghost use Rattle.std.specs.Prelude.{[]};
    ghost use Rattle.board.specs.State.{BoardState};

    ghost Value = { BoardState D };

    ghost view = { λ r. record {
      devices = [];
      book = r.book;
      tallies = r.tallies.items;
      shares = r.keeper.shares;
      store = r.keeper.store;
      jobs = r.jobs.items;
      dones = r.dones.items;
      intents = r.keeper.intents;
      report = r.keeper.report;
    } };
}

/// What a driver's act does to its device.
fn act_on(device: &mut Device, act: &Act) -> Result<Seen, MemFault>
    ensures { Acts act.now device.old (drive_answer result) device.new }
{
    match act {
        Act::Read { offset, width } => Ok(Seen::Value(device.read(*offset, *width))),
        Act::Write {
            offset,
            width,
            value,
        } => {
            device.write(*offset, *width, *value);
            Ok(Seen::Did)
        }
        Act::Store { at, bytes } => {
            device.store(*at, bytes)?;
            Ok(Seen::Did)
        }
    }
}

impl<D: Disk> Rest<D> {
    /// Opens the image of a disk, as [`crate::Board::open`] does, and makes no devices.
    pub(crate) fn open(
        alloc: Global,
        disk: D,
        life: u64,
        config: &BoardConfig,
    ) -> Result<Rest<D>, (D, OpenFault)>
        ensures begins { IfOk result (λ r. Begins D.state life config.now (begun config.now r)) }
        ensures found { IfOk result (λ r. (D.state disk).faithful ≡ true
            → Finds D.state config.now (D.state disk) (begun config.now r)) }
        ensures answers { (D.state disk).faithful ≡ true
            → Answers (capacities_of config.now)
            (D.state disk).len (D.state disk).seen (opening_of result) }
        ensures cause { IfErr result (λ e. e.1 ≡ OpenFault.DiskFault
            → HasRisen (D.state disk).failures (D.state e.0).failures) }
        ensures unfailed { is_disk_fault (opening_of result) ≡ false
            → (D.state (disk_left result)).failures ≡ (D.state disk).failures }
        ensures calls { Calls D.makes disk result }
        ensures any_moment { Within D.state D.makes (Untouched (D.state disk)) disk
            (disk_left result) }
    {
        let (store, partitions) = recovery::open(alloc, disk, config)?;
        Rest::over(alloc, life, config, store, partitions)
    }

    /// All but the devices over what an opening gave.
    fn over(
        alloc: Global,
        life: u64,
        config: &BoardConfig,
        store: Store<D>,
        partitions: Vec<Partition>,
    ) -> Result<Rest<D>, (D, OpenFault)>
        requires { AllBegun (capacities_of config.now) store.guests partitions.items }
        ensures rest { IfOk result (λ r. r
            ≡ without_devices (new_board life config.now partitions.items store)) }
        ensures of_board { OnOk result (AreOfBoard (opened config.now partitions.items)) }
        ensures refused { IfErr result (λ e. e ≡ (store.disk, OpenFault.NoMemory)) }
    {
        match Beside::new(alloc, life, config, partitions) {
            Err(_) => Err((store.into_disk(), OpenFault::NoMemory)),
            Ok(beside) => Ok(Rest {
                alloc,
                book: beside.book,
                tallies: beside.tallies,
                jobs: beside.jobs,
                dones: beside.dones,
                keeper: Keeper::new(beside.shares, store, beside.intents),
            }),
        }
    }

    /// The store, as it is within an advance.
    pub(crate) fn into_store(self) -> Store<D>
        ensures { result ≡ self.store }
    {
        let (_, store) = self.keeper.into_parts();
        store
    }

    /// Whether a call of the disk has failed and the book was told, so that nothing more is
    /// accepted.
    pub fn is_broken(&self) -> bool
        ensures { result ≡ (state self.now.book).broken }
    {
        self.book.is_broken()
    }

    /// Which call of the disk an Advance would make.
    pub fn next_call(&self) -> Call
        ensures { result ≡ next_call self.now.store.broken self.now.store.guests }
    {
        self.keeper.store.next_call()
    }

    /// The disk, as the last call left it.
    pub fn disk(&self) -> &D
        ensures { result.now ≡ self.now.store.disk }
    {
        self.keeper.store.disk()
    }

    /// The guest's job that the book hasn't answered; `None` for a guest that the board lacks, too.
    pub fn job(&self, guest: u16) -> Option<&Job>
        ensures { option_copied result ≡ in_place (slice_get self.now.jobs guest) }
    {
        self.jobs.get(usize::from(guest))?.as_ref()
    }

    /// The guest's reply that its device hasn't written; `None` for a guest that the board lacks,
    /// too.
    pub fn done(&self, guest: u16) -> Option<&Done>
        ensures { option_copied result ≡ in_place (slice_get self.now.dones guest) }
    {
        self.dones.get(usize::from(guest))?.as_ref()
    }

    /// Whether a guest's place for a job is there, and empty.
    #[inline(always)]
    pub(crate) fn awaits_job(&self, at: usize) -> bool
        ensures { IsTrue result ↔ (slice_get self.now.jobs at ≡ Some None) }
    {
        matches!(self.jobs.get(at), Some(None))
    }

    /// Puts a job into a guest's place.
    #[inline(always)]
    pub(crate) fn put_job(&mut self, at: usize, job: Job)
        requires { slice_get self.old.jobs at ≡ Some None }
        ensures { self.new ≡ record self.old { jobs = slice_set self.old.jobs at (Some job) } }
    {
        self.jobs[at] = Some(job);
    }

    /// Takes the reply in a guest's place, where one lies there.
    #[inline(always)]
    pub(crate) fn take_done(&mut self, at: usize) -> Option<Done>
        ensures taken { result ≡ in_place (slice_get self.old.dones at) }
        ensures state { self.new ≡ record self.old { dones = emptied self.old.dones at } }
    {
        take_from(&mut self.dones, at)
    }

    #[inline(always)]
    pub(crate) fn drive(
        &self,
        devices: &mut Vec<Device>,
        guest: u16,
        act: &Act,
    ) -> Result<Seen, MemFault>
        ensures { Drives guest act.now (slice_get devices.old.items guest) (drive_answer result)
            (with_devices devices.old.items self.now)
            (with_devices devices.new.items self.now) }
    {
        let at = usize::from(guest);
        if at >= devices.len() {
            return Ok(Seen::Nothing);
        }
        act_on(&mut devices[at], act)
    }

    #[inline(always)]
    pub(crate) fn pop(&mut self, devices: &mut Vec<Device>, guest: u16) -> Result<bool, DeviceFault>
        ensures { PopsInto guest (slice_get self.old.jobs guest)
            (slice_get devices.old.items guest) (answer_by fault.Device result)
            (with_devices devices.old.items self.old)
            (with_devices devices.new.items self.new) }
    {
        let at = usize::from(guest);
        match self.jobs.get(at) {
            Some(None) => {}
            _ => return Ok(false),
        }
        if at >= devices.len() {
            return Ok(false);
        }
        match devices[at].pop()? {
            None => Ok(false),
            Some(job) => {
                self.jobs[at] = Some(job);
                Ok(true)
            }
        }
    }

    #[inline(always)]
    pub(crate) fn publish(&mut self, devices: &mut Vec<Device>, guest: u16) -> Option<Published>
        ensures { PublishesFrom guest (in_place (slice_get self.old.dones guest))
            (slice_get devices.old.items guest) (publish_answer result)
            (with_devices devices.old.items self.old)
            (with_devices devices.new.items self.new) }
    {
        let at = usize::from(guest);
        if at >= devices.len() {
            return None;
        }
        match self.take_done(at) {
            None => None,
            Some(done) => Some(devices[at].publish(done)),
        }
    }

    #[inline(always)]
    pub(crate) fn submit(&mut self, guest: u16) -> Result<bool, Refused>
        ensures { SubmitsFrom guest (in_place (slice_get self.old.jobs guest))
            (slice_get self.old.tallies guest) (answer_by fault.Book result) self.old self.new }
    {
        let at = usize::from(guest);
        if at >= self.tallies.len() {
            return Ok(false);
        }
        let Some(job) = take_from(&mut self.jobs, at) else {
            return Ok(false);
        };
        match self.book.submit(self.alloc, &mut self.tallies[at], job) {
            Ok(_) => Ok(true),
            Err((job, refused)) => {
                self.jobs[at] = Some(job);
                Err(refused)
            }
        }
    }

    #[inline(always)]
    pub(crate) fn collect(&mut self, guest: u16) -> bool
        ensures { CollectsInto guest (slice_get self.old.dones guest) (did_answer result)
            self.old self.new }
    {
        let at = usize::from(guest);
        match self.dones.get(at) {
            Some(None) => {}
            _ => return false,
        }
        match self.book.collect(guest) {
            None => false,
            Some(done) => {
                self.dones[at] = Some(done);
                true
            }
        }
    }

    #[inline(always)]
    pub(crate) fn take(&mut self, guest: u16) -> bool
        requires share { slice_get self.old.intents guest ≡ Some None
            → is_share self.old.book self.old.shares guest ≡ true }
        ensures { TakesInto guest (slice_get self.old.intents guest) (did_answer result)
            self.old self.new }
    {
        match self.keeper.take(&mut self.book, guest) {
            Ok(did) => did,
            Err(_) => unreachable!(),
        }
    }

    #[inline(always)]
    pub(crate) fn give(&mut self, guest: u16) -> bool
        requires may { (i : IntentSpec) → in_place (slice_get self.old.intents guest) ≡ Some i
            → is_free self.old.store.guests guest ≡ true → MayGive self.old.store.guests i }
        ensures { GivesWhere guest (is_free self.old.store.guests guest)
            (in_place (slice_get self.old.intents guest)) (did_answer result) self.old self.new }
    {
        self.keeper.give(guest)
    }

    #[inline(always)]
    pub(crate) fn advance(&mut self) -> Result<bool, StoreFault>
        ensures { AdvancesUnder D.state D.makes self.old.report (answer_by fault.Store result)
            self.old self.new }
    {
        self.keeper.advance()
    }

    #[inline(always)]
    pub(crate) fn settle(&mut self) -> bool
        requires { (marks : List ℕ) → self.old.report ≡ Some (MarksReport marks)
            → may_settle self.old.book self.old.shares marks ≡ true }
        ensures { SettlesBy self.old.report (did_answer result) self.old self.new }
    {
        match self.keeper.settle(&mut self.book) {
            Ok(did) => did,
            Err(_) => unreachable!(),
        }
    }

    /// What holds of the book, for proofs: it does nothing.
    pub(crate) fn what_always_holds(&self)
        ensures { IsKnown self.now.book }
    {
        self.book.what_always_holds();
    }
}

impl Rest<CutDisk> {
    pub(crate) fn fail(&mut self, k: u64)
        ensures { self.new ≡ choosing_call k self.old }
    {
        self.keeper.store.fail(k);
    }
}

impl Rest<OutboxDisk> {
    pub(crate) fn tell(&mut self, told: Told)
        ensures { self.new ≡ telling told self.old }
    {
        self.keeper.store.tell(told);
    }
}
