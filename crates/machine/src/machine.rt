//! A board for a monitor.
ghost use Rattle.std.specs.Prelude.{◌≡◌, ◌≤◌, ◌%◌, ◌&&◌, true, false, Some, None, Err, IsOk};
ghost use Rattle.std.specs.Prelude.{IfSome};
ghost use Rattle.std.specs.Prelude.{length, slice_get, take};
ghost use Rattle.rpmb_book.specs.Book.{state};
ghost use Rattle.board.specs.Asking.{board_of};
ghost use Rattle.board.specs.State.{owes};
ghost use Rattle.disk.specs.Outbox.{first_of};
ghost use Rattle.machine.specs.Machine.{Completes, Copies, IsServed, LeavesEach, TellsOf};
ghost use Rattle.machine.specs.Machine.{is_awaited, kick_in, line_by, shown_in};
ghost use Rattle.machine.specs.Machine.{GoesOn, IsTold, telling_board, waits_for_sync, writes_in};
ghost use Rattle.machine.specs.Machine.{is_over, left_of};
ghost use Rattle.machine.specs.Machine.{HasCopies, has_guest, turn_of, written_in};

use crate::answering::{LARGEST_PART, serve_turn};
use crate::fault::MachineFault;
use crate::handing::{go_on, hand_all};
use crate::serving::Next;
use crate::settings::Setup;
use crate::turn::Turn;
use board::AskingBoard;
use disk::{OutboxDisk, Told};
use flusher::Call;
use mmio_transport::Kick;
use std::marker::Model;

/// What a serve needs next.
#[derive(Clone, Copy, Debug, PartialEq, Eq)]
pub enum What {
    /// Nothing, until the guest is to be served anew.
    Rest,
    /// Bytes of guest memory, at the front of the caller's.
    Read,
    /// The bytes at the front of the caller's in guest memory, and no others.
    Write,
    /// That the guest is interrupted.
    Call,
    /// To be called again, once the outbox was taken.
    Again,
}

/// What a call of serve came to.
#[derive(Clone, Copy, Debug, PartialEq, Eq)]
pub struct Served {
    pub what: What,
    /// The guest address of the first byte that is read or written.
    pub at: u64,
    /// How many bytes these are.
    pub len: u64,
    /// At `Rest`, where the serve is over: why a chain or a reply stays, where one does.
    pub fault: Option<MachineFault>,
    /// At `Rest`, where the serve is over: a sync is awaited, so the outbox is to be taken and
    /// written, the file synced, and that told.
    pub sync: bool,
    /// The guest waits for an answer.
    pub waiting: bool,
}

/// All guests of a monitor's board, over an image that the monitor keeps.
///
/// It makes no call of the system. What is to be written waits in its outbox: the monitor takes
/// each write, makes it, syncs the file where that is awaited, and says what came of it. It keeps
/// nothing of a guest's memory but, within a step of a device, what it was told for that.
#[derive(Drop)]
pub struct Machine {
    pub(crate) board: AskingBoard<OutboxDisk>,
    pub(crate) setups: Vec<Setup>,
    pub(crate) turns: Vec<Turn>,
}

impl Model for Machine {
    ghost use Rattle.machine.specs.Machine.{HasCopies, MachineState};

    ghost Value = { MachineState };

    ghost view = { λ m. record {
      board = m.board;
      setups = m.setups.items;
      turns = m.turns.items;
    } };

    ghost invariant = { λ m. HasCopies m.turns.items m.board };
}

impl Machine {
    pub(crate) fn over(
        board: AskingBoard<OutboxDisk>,
        setups: Vec<Setup>,
        turns: Vec<Turn>,
    ) -> Machine
        requires { HasCopies turns.items board }
        ensures { result ≡ record { board = board; setups = setups.items; turns = turns.items } }
    {
        Machine {
            board,
            setups,
            turns,
        }
    }

    /// How many guests there are.
    pub fn guests(&self) -> u16
        ensures { result ≡ length self.now.setups % 65536 }
    {
        (self.setups.len() % 65_536) as u16
    }

    /// What a guest reads at an offset of bytes from its device's base, by an access of `width`
    /// bytes (VIRTIO 1.2, 4.2.2); 0 for a guest that there isn't.
    pub fn read(&self, guest: u16, offset: u32, width: u8) -> u32
        ensures { result ≡ shown_in self.now guest offset width }
    {
        match self.setups.get(usize::from(guest)) {
            Some(setup) => match self.board.device_of(guest) {
                Some(device) => setup.read(device, offset, width),
                None => 0,
            },
            None => 0,
        }
    }

    /// What a guest does by writing there, and what that asks of the monitor: after `Notify` the
    /// guest is to be served; after `Reset` nothing more is. Nothing of a guest that there isn't.
    ///
    /// Where its queue isn't ready then, what a serve of it needed last is void.
    pub fn write(&mut self, guest: u16, offset: u32, width: u8, value: u32) -> Kick
        ensures kick { result ≡ kick_in self.old guest offset width value }
        ensures state { self.new ≡ written_in self.old guest offset width value }
    {
        let at = usize::from(guest);
        if at >= self.setups.len() || at >= self.turns.len() || at >= self.board.guests() {
            return Kick::None;
        }
        let setup = &self.setups[at];
        let device = self.board.device(guest);
        let taken = setup.taken(device, offset, width, value);
        let kick = device.write(offset, width, taken);
        let is_ready = device.written().is_some();
        if !is_ready {
            self.turns[at].cancel();
        }
        kick
    }

    /// InterruptStatus of the guest's device (VIRTIO 1.2, 4.2.2): its line is high exactly where
    /// it isn't 0. 0 for a guest that there isn't.
    pub fn interrupt(&self, guest: u16) -> u32
        ensures line { result ≡ line_by (slice_get self.now.board.devices guest) }
    {
        match self.board.device_of(guest) {
            Some(device) => device.interrupt_status(),
            None => 0,
        }
    }

    /// Whether a chain of the guest was taken and isn't answered yet: what it waits for comes by a
    /// serve, once the sync that is awaited was told. Not so of a guest that there isn't.
    pub fn is_waiting(&self, guest: u16) -> bool
        ensures { result ≡ owes guest self.now.board.rest }
    {
        self.board.rest().owes(guest)
    }

    /// Goes on with what the guest offered, and says what that needs. `is_there` says what became
    /// of the read or write that it needed last: what was read stands at the front of `bytes`.
    /// Where there is no memory for it, the guest's device waits for a reset. What is to be written
    /// stands there afterwards.
    ///
    /// `NoGuest`, or `OutOfRange` where `bytes` has less than 16,384, with nothing changed.
    pub fn serve(&mut self, guest: u16, is_there: bool, bytes: &mut [u8]) -> Served
        ensures served { IsServed guest self.old self.new }
        ensures tells { TellsOf guest is_there bytes.old result bytes.new self.old self.new }
    {
        let at = usize::from(guest);
        if at >= self.setups.len() || at >= self.turns.len() || at >= self.board.guests() {
            return self.served(guest, Next::Rest(Some(MachineFault::NoGuest)));
        }
        if bytes.len() < LARGEST_PART {
            return self.served(guest, Next::Rest(Some(MachineFault::OutOfRange)));
        }
        let most = self.setups[at].most();
        let turn = &mut self.turns[at];
        let next = serve_turn(&mut self.board, guest, most, turn, is_there, bytes);
        self.served(guest, next)
    }

    /// What a call of serve tells of what it needs.
    #[inline(always)]
    fn served(&self, guest: u16, next: Next) -> Served
        ensures next { IsTold next result }
        ensures sync { result.sync ≡ (is_over result.what && waits_for_sync self.now.board.rest) }
        ensures waiting { result.waiting ≡ owes guest self.now.board.rest }
    {
        let waiting = self.board.rest().owes(guest);
        // (which call the disk awaits is asked of all guests, so not at each copy)
        let (what, at, len, fault, sync) = match next {
            Next::Again => (What::Again, 0, 0, None, false),
            Next::Read(wanted) => (What::Read, wanted.at, wanted.len, None, false),
            Next::Write(part) => (What::Write, part.at, u64::from(part.len), None, false),
            Next::Call => (What::Call, 0, 0, None, false),
            Next::Rest(fault) => (What::Rest, 0, 0, fault, self.waits_for_sync()),
        };
        Served {
            what,
            at,
            len,
            fault,
            sync,
            waiting,
        }
    }

    /// Whether the next call of the disk is a sync.
    fn waits_for_sync(&self) -> bool
        ensures { result ≡ waits_for_sync self.now.board.rest }
    {
        match self.board.rest().next_call() {
            Call::Sync => true,
            Call::Write => false,
            Call::None => false,
        }
    }

    /// Takes the disk's work further where no guest is served. Whether a sync is awaited then.
    pub fn go_on(&mut self) -> bool
        ensures goes { GoesOn self.old self.new }
        ensures sync { result ≡ waits_for_sync self.new.board.rest }
    {
        for guest in 0..self.setups.len() {
            hand_all(&mut self.board, (guest % 65_536) as u16);
        }
        self.waits_for_sync()
    }

    /// Takes the oldest write that waits into the front of `out`: its offset in the image, and how
    /// many bytes it has. `None` where none waits, or `out` is too short: 16,648 bytes always
    /// suffice.
    pub fn outbox(&mut self, out: &mut [u8]) -> Option<(u64, usize)>
        ensures copies { Copies (first_of (writes_in self.old)) (length out.old) result out.new }
        ensures taken { IfSome result (λ w. self.new
            ≡ record self.old { board = telling_board Told.Taken self.old.board }) }
        ensures none { result ≡ None → (self.new ≡ self.old) × (out.new ≡ out.old) }
    {
        match copy_oldest(self.board.rest().disk(), out) {
            Some((at, count)) => {
                self.board.tell(Told::Taken);
                Some((at, count))
            }
            None => None,
        }
    }

    /// Tells what came of the writes that were taken. A success: each of them was made, and a sync
    /// after them succeeded; `NotAwaited`, with nothing changed, where no sync is awaited or
    /// writes still wait. No success: a write or a sync failed; the next call of the disk fails,
    /// nothing more is accepted, and replies that wait become failures.
    pub fn completed(&mut self, succeeded: bool) -> Result<(), MachineFault>
        ensures early { succeeded ≡ true → is_awaited self.old.board.rest ≡ false
            → (result ≡ Err MachineFault.NotAwaited) × (self.new ≡ self.old) }
        ensures failed { succeeded ≡ false → IsOk result × Completes Told.Failed self.old self.new }
        ensures synced { succeeded ≡ true → is_awaited self.old.board.rest ≡ true
            → IsOk result × Completes Told.Synced self.old self.new }
    {
        if !succeeded {
            self.board.tell(Told::Failed);
            go_on(&mut self.board);
            return Ok(());
        }
        if !self.is_awaited() {
            return Err(MachineFault::NotAwaited);
        }
        self.board.tell(Told::Synced);
        go_on(&mut self.board);
        Ok(())
    }

    /// Whether a sync is awaited, and every write before it was taken.
    pub fn is_awaited(&self) -> bool
        ensures { result ≡ is_awaited self.now.board.rest }
    {
        match self.board.rest().next_call() {
            Call::Sync => self.board.rest().disk().is_taken(),
            Call::Write => false,
            Call::None => false,
        }
    }

    /// What a stop leaves of the monitor's file, where the monitor makes each write that it takes
    /// before the sync that it tells, and such a sync keeps them: of each guest a partition, and
    /// none below what a told sync kept. It does nothing.
    pub fn what_stops_leave(&self)
        ensures { LeavesEach self.now.board.rest }
    {
        self.board.what_always_holds();
        self.board.rest().disk().what_always_holds();
    }

    /// Whether a call of the disk has failed, so that nothing more is accepted.
    pub fn is_broken(&self) -> bool
        ensures { result ≡ (state self.now.board.rest.book).broken }
    {
        self.board.rest().is_broken()
    }
}

/// Copies the oldest write that waits into the front of `out`, where it has room.
fn copy_oldest(disk: &OutboxDisk, out: &mut [u8]) -> Option<(u64, usize)>
    ensures copies { Copies (first_of disk.now.outbox.writes) (length out.old) result out.new }
    ensures none { result ≡ None → out.new ≡ out.old }
{
    let Some(waiting) = disk.oldest() else {
        return None;
    };
    let count = waiting.bytes.len();
    if count > out.len() {
        return None;
    }
    out[..count].copy_from_slice(waiting.bytes);
    Some((waiting.at, count))
}
