//! A guest's device that is saved at rest, and goes on: in this machine or in another one, after a
//! restart of the monitor; and the place at which its queue stands.
ghost use Rattle.std.specs.Prelude.{◌≡◌, true, false, IfErr, IfSome, None, is_some};
ghost use Rattle.std.specs.Prelude.{length, OnOk, OnErr, option_copied, slice_get};
ghost use Rattle.mmio_transport.specs.Resting.{IsSaved, MayGoOn};
ghost use Rattle.machine.specs.Machine.{has_guest};
ghost use Rattle.machine.specs.Resting.{CantGoOn, GoesOnAs, HasLoadingFault, HasNoPlace};
ghost use Rattle.machine.specs.Resting.{HasSavingFault, IsSavedIn, IsUnrested, LoadsOf, MovesTo};
ghost use Rattle.machine.specs.Resting.{RestsAs, RestsAtPlace, StaysThere, is_its, is_written};
ghost use Rattle.machine.specs.Resting.{notified};
ghost use Rattle.machine.specs.Resting.{rests};

use crate::fault::MachineFault;
use crate::machine::Machine;
use crate::settings::Setup;
use crate::state::{STATE_WORDS, device_of, is_of, is_state, write_state};
use crate::turn::{Asked, Turn};
use mmio_transport::{AskingDevice, Interrupts, Registers, RestingDevice};

impl Turn {
    /// Whether all that the device wrote is in guest memory.
    fn is_written(&self) -> bool
        ensures { result ≡ is_written self.now }
    {
        let is_over = match self.asked {
            Asked::Nothing => true,
            Asked::Read(_) => true,
            Asked::Write => false,
        };
        is_over && self.parts.is_empty()
    }
}

/// The registers with bit 0 of InterruptStatus raised (VIRTIO 1.2, 4.2.2).
fn notified(registers: &Registers) -> Registers
    ensures { result ≡ notified registers.now }
{
    let interrupts = Interrupts {
        used_buffer: true,
        ..registers.interrupts
    };
    Registers {
        interrupts,
        ..*registers
    }
}

/// What is to be saved of a guest's device; `None` where the guest isn't at rest.
fn rest_of(turn: &Turn, device: &AskingDevice) -> Option<RestingDevice>
    ensures rests { is_some result ≡ rests turn.now device.now }
    ensures saved { IfSome result (IsSaved device.now) }
    ensures may { IfSome result (λ it. MayGoOn (length device.now.device.memory) it.queue) }
{
    if turn.is_written() {
        device.saved()
    } else {
        None
    }
}

impl Machine {
    /// How a guest's device is set up.
    fn setup_of(&self, guest: u16) -> Option<&Setup>
        ensures { option_copied result ≡ slice_get self.now.setups guest }
    {
        self.setups.get(usize::from(guest))
    }

    /// Where its serve stands.
    fn turn_of(&self, guest: u16) -> Option<&Turn>
        ensures { option_copied result ≡ slice_get self.now.turns guest }
    {
        self.turns.get(usize::from(guest))
    }

    /// Whether there is such a guest.
    fn has(&self, guest: u16) -> bool
        ensures { result ≡ has_guest self.now guest }
    {
        self.setup_of(guest).is_some()
            && self.turn_of(guest).is_some()
            && self.board.device_of(guest).is_some()
    }

    /// Whether the words are of this guest, as it is set up.
    fn is_its(&self, guest: u16, state: &[u32]) -> bool
        ensures { result ≡ is_its self.now guest state.now }
    {
        match self.setup_of(guest) {
            Some(setup) => is_of(state, self.guests(), guest, setup),
            None => false,
        }
    }

    /// What is to be saved of a guest's device; `None` where it isn't at rest.
    fn rest_at(&self, guest: u16) -> Option<RestingDevice>
        ensures some { IfSome result (RestsAs self.now guest) }
        ensures none { result ≡ None → IsUnrested self.now guest }
    {
        let Some(_setup) = self.setup_of(guest) else {
            return None;
        };
        let Some(turn) = self.turn_of(guest) else {
            return None;
        };
        let Some(device) = self.board.device_of(guest) else {
            return None;
        };
        rest_of(turn, device)
    }

    /// The guest's device goes on as this one. Whether it does: not where no queue can stand there.
    fn go_on_as(&mut self, guest: u16, it: &RestingDevice) -> bool
        ensures goes { result ≡ true → GoesOnAs guest it.now self.old self.new }
        ensures cant { result ≡ false → CantGoOn guest it.now self.old }
        ensures unchanged { result ≡ false → self.new ≡ self.old }
    {
        let at = usize::from(guest);
        if at >= self.turns.len() || at >= self.board.guests() {
            return false;
        }
        if !self.board.device(guest).go_on(it) {
            return false;
        }
        self.turns[at].cancel();
        true
    }

    /// Saves the state of a guest's device, its registers and the place of its queue, in
    /// [`STATE_WORDS`] words. By `load` a machine over the same image goes on as it: the driver
    /// notices nothing but the wait.
    ///
    /// `NoGuest`; `OutOfRange` where `out` hasn't just so many words; `NotAtRest` where a chain
    /// waits for its answer, or something is still to be written to guest memory, or to be told to
    /// the driver: the guest is to be served on.
    pub fn save(&self, guest: u16, out: &mut [u32]) -> Result<(), MachineFault>
        ensures saved { OnOk result (IsSavedIn self.now guest out.new) }
        ensures cause { IfErr result (HasSavingFault self.now guest (length out.old)) }
        ensures unchanged { OnErr result (out.new ≡ out.old) }
    {
        if !self.has(guest) {
            return Err(MachineFault::NoGuest);
        }
        let Some(setup) = self.setup_of(guest) else {
            return Err(MachineFault::NoGuest);
        };
        if out.len() != STATE_WORDS {
            return Err(MachineFault::OutOfRange);
        }
        let Some(it) = self.rest_at(guest) else {
            return Err(MachineFault::NotAtRest);
        };
        write_state(out, self.guests(), guest, setup, &it);
        Ok(())
    }

    /// Goes on as the device of that guest that was saved: a session of its own, with these
    /// registers, and the queue at its place. What was popped before gets no answer.
    ///
    /// `NoGuest`; `BadState` where these words aren't a whole state of this version, or no queue
    /// can stand where they say; `OtherConfig` where they are of another guest, or of one that was
    /// set up otherwise. Then nothing changes.
    pub fn load(&mut self, guest: u16, state: &[u32]) -> Result<(), MachineFault>
        ensures loads { OnOk result (LoadsOf guest state.now self.old self.new) }
        ensures cause { IfErr result (HasLoadingFault self.old guest state.now) }
        ensures unchanged { OnErr result (self.new ≡ self.old) }
    {
        if !self.has(guest) {
            return Err(MachineFault::NoGuest);
        }
        if !is_state(state) {
            return Err(MachineFault::BadState);
        }
        if !self.is_its(guest, state) {
            return Err(MachineFault::OtherConfig);
        }
        if !self.go_on_as(guest, &device_of(state)) {
            return Err(MachineFault::BadState);
        }
        Ok(())
    }

    /// The place at which the guest's queue rests: of a split queue the index of its next chain
    /// (VIRTIO 1.2, 2.7.6); of a packed one the bits 0 to 14 are the place, and bit 15 is the wrap
    /// counter (2.8.1). `None` where the guest isn't at rest, or its queue isn't ready.
    pub fn place(&self, guest: u16) -> Option<u16>
        ensures some { IfSome result (RestsAtPlace self.now guest) }
        ensures none { result ≡ None → HasNoPlace self.now guest }
    {
        let Some(it) = self.rest_at(guest) else {
            return None;
        };
        match it.queue {
            Some(queue) => Some(queue.place()),
            None => None,
        }
    }

    /// Lets the guest's queue, which is at rest, go on at another place, and notifies its driver:
    /// who had the queue before may have used a chain, and ended before it told of it. Whether it
    /// does: not where it isn't ready, or has no such place; then nothing changes.
    pub fn move_to(&mut self, guest: u16, place: u16) -> bool
        ensures moves { result ≡ true → MovesTo guest place self.old self.new }
        ensures stays { result ≡ false → StaysThere self.old guest place }
        ensures unchanged { result ≡ false → self.new ≡ self.old }
    {
        let Some(it) = self.rest_at(guest) else {
            return false;
        };
        let Some(queue) = it.queue else {
            return false;
        };
        let Some(moved) = queue.at(place) else {
            return false;
        };
        let moved_device = RestingDevice {
            registers: notified(&it.registers),
            queue: Some(moved),
        };
        self.go_on_as(guest, &moved_device)
    }
}
