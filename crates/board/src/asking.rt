//! A board whose guests' memory its host doesn't hold.
ghost use Rattle.std.specs.Prelude.{◌≡◌, ◌≤◌, ◌<◌, ℕ, true, false, length, slice_get, map, [], Ok};
ghost use Rattle.std.specs.Prelude.{Err, IfOk, IfErr, IfSome, option_copied};
ghost use Rattle.std.specs.Borrow.{sem};
ghost use Rattle.guest_memory.specs.declared.ask.Ask.{Ask};
ghost use Rattle.disk.specs.Disk.{HasRisen, Within};
ghost use Rattle.intent_slots.specs.Layout.{capacities_of};
ghost use Rattle.recovery.specs.Opening.{Answers, Untouched};
ghost use Rattle.recovery.specs.Reading.{is_disk_fault};
ghost use Rattle.board.specs.Asking.{PopsAsked, PublishesOf, StepsAsked, board_of, first_asked};
ghost use Rattle.board.specs.Asking.{as_boards};
ghost use Rattle.board.specs.Board.{IsSound};
ghost use Rattle.board.specs.Opening.{Begins, Calls, Finds, begun, disk_left, opening_of};
ghost use Rattle.board.specs.Steps.{answer_by, did_answer};
ghost use Rattle.board.specs.Telling.{telling};
ghost use Rattle.board.specs.declared.step.Step.TheVariants as step;
ghost use Rattle.board.specs.declared.step.StepFault.TheVariants as fault;

use crate::opening::asking_devices;
use crate::rest::Rest;
use disk::{Disk, OutboxDisk, Told};
use flusher::StoreFault;
use guest_memory::Ask;
use mmio_transport::{AskingDevice, PopFault, Published};
use recovery::OpenFault;
use rpmb_book::Refused;
use rpmb_frame::{BoardConfig, GuestConfig};
use std::alloc::Global;
use std::marker::Model;

/// All guests of a board, as [`crate::Board`]; but its devices ask for the bytes of their guests'
/// memory. A step that needs bytes of which there is no copy changes nothing, and says which; it is
/// made anew once they were told to the device.
///
/// A contract sees it as a board whose devices' memories are the bytes as they were told, or wrote
/// them, last, and beside it of which parts there are copies.
#[derive(Drop)]
pub struct AskingBoard<D: Disk> {
    devices: Vec<AskingDevice>,
    rest: Rest<D>,
}

impl<D: Disk> Model for AskingBoard<D> {
    ghost use Rattle.board.specs.Asking.{AskingBoardState, board_of};
    ghost use Rattle.board.specs.Board.{IsSound};

    ghost Value = { AskingBoardState D };

    ghost view = { λ b. record { devices = b.devices.items; rest = b.rest } };

    ghost invariant = { λ b.
        IsSound D.state (board_of (record { devices = b.devices.items; rest = b.rest })) };
}

impl<D: Disk> AskingBoard<D> {
    ghost use Rattle.board.specs.Lending.{lends_asking};

    /// Opens the image of a disk that a stop may have left, as [`crate::Board::open`] does, with
    /// the same refusals. The guests' devices are set up as `devices` says, whose memories may have
    /// any size; none has a copy of any byte.
    pub fn open(
        alloc: Global,
        disk: D,
        life: u64,
        config: &BoardConfig,
        devices: &[GuestConfig],
    ) -> Result<AskingBoard<D>, (D, OpenFault)>
        requires { length devices.now ≡ length config.now }
        ensures begins { IfOk result
            (λ b. Begins D.state life config.now (begun config.now b.rest)) }
        ensures fresh { IfOk result (λ b. b.devices ≡ first_asked 0 devices.now) }
        ensures found { IfOk result (λ b. (D.state disk).faithful ≡ true
            → Finds D.state config.now (D.state disk) (begun config.now b.rest)) }
        ensures answers { (D.state disk).faithful ≡ true
            → Answers (capacities_of config.now)
            (D.state disk).len (D.state disk).seen (opening_of (as_boards result)) }
        ensures cause { IfErr result (λ e. e.1 ≡ OpenFault.DiskFault
            → HasRisen (D.state disk).failures (D.state e.0).failures) }
        ensures calls { Calls D.makes disk (as_boards result) }
        ensures any_moment { Within D.state D.makes (Untouched (D.state disk)) disk
            (disk_left (as_boards result)) }
    {
        let _guests = config.guests(); // for the checker: they are at most 64
        let Ok(devices) = asking_devices(alloc, devices) else {
            return Err((disk, OpenFault::NoMemory));
        };
        let rest = Rest::open(alloc, disk, life, config)?;
        Ok(AskingBoard { devices, rest })
    }

    /// How many guests the board has.
    pub fn guests(&self) -> usize
        ensures { result ≡ length self.now.devices }
    {
        self.devices.len()
    }

    /// All of the board but its devices, as it is.
    pub fn rest(&self) -> &Rest<D>
        ensures { result.now ≡ self.now.rest }
    {
        &self.rest
    }

    /// The guest's device, as it is; `None` for a guest that the board lacks.
    pub fn device_of(&self, guest: u16) -> Option<&AskingDevice>
        ensures { option_copied result ≡ slice_get self.now.devices guest }
    {
        self.devices.get(usize::from(guest))
    }

    /// Lends the device of a guest of the board: to its driver, or to be told bytes. What is done
    /// to it changes nothing else.
    pub fn device(&mut self, guest: u16) -> &mut AskingDevice
        requires { guest < length self.old.devices }
        ensures* writes_back { sem 𝓛 (lends_asking D.row D.Disk self.entry guest result) }
        ensures device { slice_get self.old.devices guest ≡ Some result.now }
    {
        &mut self.devices[usize::from(guest)]
    }

    /// What holds of every board, for proofs: it does nothing.
    pub fn what_always_holds(&self)
        ensures { IsSound D.state (board_of self.now) }
    {
        self.rest.what_always_holds();
    }

    /// The device gives its next chain as a job, into the guest's empty place. Whether it gave one:
    /// not where none is available, a job lies there already, or the board lacks the guest.
    ///
    /// A refusal is the device's; or it asks for at most 16,384 bytes, and nothing changes.
    pub fn pop(&mut self, guest: u16) -> Result<bool, PopFault>
        ensures pops { PopsAsked D.state D.makes guest result self.old self.new }
        ensures short { (ask : Ask) → result ≡ Err (PopFault.Missing ask) → ask.len ≤ 16384 }
    {
        self.rest.what_always_holds();
        let at = usize::from(guest);
        if !self.rest.awaits_job(at) {
            return Ok(false);
        }
        if at >= self.devices.len() {
            return Ok(false);
        }
        match self.devices[at].pop() {
            Err(fault) => Err(fault),
            Ok(None) => Ok(false),
            Ok(Some(job)) => {
                self.rest.put_job(at, job);
                Ok(true)
            }
        }
    }

    /// The reply in the guest's place is written into its chain. What became of it; `None` where
    /// none lay there. It takes no memory. Whether the driver is to be notified is the device's to
    /// say, once all of it was copied out.
    ///
    /// Answers the bytes that it writes over and of which there is no copy, and nothing changes.
    pub fn publish(&mut self, guest: u16) -> Result<Option<Published>, Ask>
        ensures { PublishesOf D.state D.makes guest result self.old self.new }
    {
        self.rest.what_always_holds();
        let at = usize::from(guest);
        if at >= self.devices.len() {
            return Ok(None);
        }
        let Some(done) = self.rest.done(guest) else {
            return Ok(None);
        };
        if let Some(ask) = self.devices[at].lacks(done) {
            return Err(ask);
        }
        match self.rest.take_done(at) {
            None => Ok(None),
            Some(done) => Ok(Some(self.devices[at].publish(done))),
        }
    }

    /// As [`crate::Board::submit`].
    pub fn submit(&mut self, guest: u16) -> Result<bool, Refused>
        ensures steps { StepsAsked D.state D.makes (step.Submit guest)
            (answer_by fault.Book result) self.old self.new }
        ensures devices { self.new.devices ≡ self.old.devices }
    {
        self.rest.what_always_holds();
        self.rest.submit(guest)
    }

    /// As [`crate::Board::collect`].
    pub fn collect(&mut self, guest: u16) -> bool
        ensures steps { StepsAsked D.state D.makes (step.Collect guest) (did_answer result)
            self.old self.new }
        ensures devices { self.new.devices ≡ self.old.devices }
    {
        self.rest.what_always_holds();
        self.rest.collect(guest)
    }

    /// As [`crate::Board::take`].
    pub fn take(&mut self, guest: u16) -> bool
        ensures steps { StepsAsked D.state D.makes (step.Take guest) (did_answer result)
            self.old self.new }
        ensures devices { self.new.devices ≡ self.old.devices }
    {
        self.rest.what_always_holds();
        self.rest.take(guest)
    }

    /// As [`crate::Board::give`].
    pub fn give(&mut self, guest: u16) -> bool
        ensures steps { StepsAsked D.state D.makes (step.Give guest) (did_answer result)
            self.old self.new }
        ensures devices { self.new.devices ≡ self.old.devices }
    {
        self.rest.what_always_holds();
        self.rest.give(guest)
    }

    /// As [`crate::Board::advance`].
    pub fn advance(&mut self) -> Result<bool, StoreFault>
        ensures steps { StepsAsked D.state D.makes step.Advance (answer_by fault.Store result)
            self.old self.new }
        ensures devices { self.new.devices ≡ self.old.devices }
    {
        self.rest.what_always_holds();
        self.rest.advance()
    }

    /// As [`crate::Board::settle`].
    pub fn settle(&mut self) -> bool
        ensures steps { StepsAsked D.state D.makes step.Settle (did_answer result)
            self.old self.new }
        ensures devices { self.new.devices ≡ self.old.devices }
    {
        self.rest.what_always_holds();
        self.rest.settle()
    }
}

impl AskingBoard<OutboxDisk> {
    /// Tells the disk what came of its writes and syncs, as `OutboxDisk::tell` does. It changes
    /// nothing else, and makes no call.
    pub fn tell(&mut self, told: Told)
        ensures { self.new ≡ record self.old { rest = telling told self.old.rest } }
    {
        self.rest.tell(told);
    }
}
