//! What a device that asks pops and publishes.
ghost use Rattle.std.specs.Prelude.{◌≡◌, ◌≤◌, ◌↔◌, IsTrue, length, [], None, Some, Ok, Err};
ghost use Rattle.std.specs.Prelude.{IfSome, false};
ghost use Rattle.guest_memory.specs.Memory.{IsAsk};
ghost use Rattle.guest_memory.specs.declared.ask.Ask.{Ask};
ghost use Rattle.mmio_transport.specs.Asking.{known, GivesOrAsks, HasRoomIn, Notifies};
ghost use Rattle.mmio_transport.specs.Asking.{PublishesAsked};
ghost use Rattle.mmio_transport.specs.Asking.{ReplyNeeds, SeesFor};
ghost use Rattle.mmio_transport.specs.Job.{Job, room_in};
ghost use Rattle.mmio_transport.specs.Popping.{is_stopped};
ghost use Rattle.mmio_transport.specs.Publishing.{IsDueIn};

use crate::asking::AskingDevice;
use crate::done::{Done, Published};
use crate::fault::{DeviceFault, PopFault};
use crate::job::{Job, Ticket};
use chains::{Reads, RingFault};
use guest_memory::Ask;

impl AskingDevice {
    /// Whether it gives no more jobs: until a reset where it waits for one, else for good.
    fn is_stopped(&self) -> bool
        ensures { result ≡ is_stopped self.now.device }
    {
        self.registers.status.needs_reset
            || self.session == u64::MAX
            || self.readiness == u64::MAX
            || self.pops == u64::MAX
    }

    /// The chain at the place after those popped, or `None` where that place isn't available,
    /// before DRIVER_OK, and without a ready queue. With VIRTIO_F_EVENT_IDX a pop that gives a
    /// chain, or finds none in a ready queue after DRIVER_OK, writes avail_event (VIRTIO 1.2,
    /// 2.7.10); it writes nothing else into guest memory.
    ///
    /// A fault of the chain sets DEVICE_NEEDS_RESET; from then on each pop answers `NeedsReset` and
    /// changes nothing, until a reset. Where the count of sessions, readiness or pops stands at its
    /// end it does so for good. `NoMemory` comes only where a buffer is reached before any fault,
    /// or the chain passes all tests, and changes nothing. By the ring's contract one pop counts
    /// each descriptor that it reads, up to the first that fails a test: at most the queue size and
    /// 1,024.
    pub fn pop(&mut self) -> Result<Option<Job>, PopFault>
        ensures gives { GivesOrAsks self.old result self.new }
        ensures short { (ask : Ask) → result ≡ Err (PopFault.Missing ask) → ask.len ≤ 16384 }
        // Nothing is believed of what the driver made available but by a copy of it.
        ensures sees { SeesFor self.old result }
        ensures whole { (ask : Ask) → self.old.asks ≡ false
            → ¬ (result ≡ Err (PopFault.Missing ask)) }
    {
        if self.is_stopped() {
            return Err(PopFault::Refused(DeviceFault::NeedsReset));
        }
        if !self.registers.status.driver_ok {
            return Ok(None);
        }
        let ticket = Ticket {
            guest: self.guest,
            session: self.session,
            readiness: self.readiness,
            number: self.pops + 1,
            id: 0,
            places: 0,
        };
        let Some(queue) = &mut self.queue else {
            return Ok(None);
        };
        self.memory.what_always_holds();
        let mut reads = Reads::new();
        match queue.pop(self.alloc, &mut self.memory, &mut reads, ticket.number) {
            Ok(None) => Ok(None),
            Ok(Some(popped)) => {
                self.pops += 1;
                Ok(Some(Job::of_popped(ticket, popped)))
            }
            Err(RingFault::NoMemory) => Err(PopFault::Refused(DeviceFault::NoMemory)),
            Err(RingFault::Missing(ask)) => Err(PopFault::Missing(ask)),
            Err(RingFault::Refused(fault)) => {
                self.refuse();
                Err(PopFault::Refused(DeviceFault::Refused(fault)))
            }
        }
    }

    /// Whether this is the reply to a chain that is the device's to give back.
    fn is_due(&self, done: &Done) -> bool
        ensures { IsTrue result ↔ IsDueIn self.now.device.queue self.now.device done.now }
    {
        let ticket = done.ticket();
        match &self.queue {
            Some(queue) => {
                ticket.guest == self.guest
                    && ticket.session == self.session
                    && ticket.readiness == self.readiness
                    && !self.registers.status.needs_reset
                    && done.lies_in(&self.memory)
                    && queue.may_be_used(ticket.number, ticket.id, ticket.places)
            }
            None => false,
        }
    }

    /// What a publication of the reply writes of which the device has no copy; `None` where it has
    /// all, or the reply would be dropped.
    pub fn lacks(&self, done: &Done) -> Option<Ask>
        ensures some { IfSome result (λ ask. IsAsk (known self.now) ask) }
        ensures needed { IfSome result (ReplyNeeds self.now.device.queue done.now) }
        ensures none { result ≡ None → IsDueIn self.now.device.queue self.now.device done.now
            → HasRoomIn self.now.device.queue self.now done.now }
    {
        if !self.is_due(done) {
            return None;
        }
        let Some(queue) = &self.queue else {
            return None;
        };
        match done.lacks(&self.memory) {
            Some(ask) => Some(ask),
            None => queue.lacks(&self.memory),
        }
    }

    /// Writes a reply into its chain's ranges, and gives the chain back as used. It takes no
    /// memory. In which order the bytes are written is in no contract: nobody else sees this memory
    /// during the call. Whether the driver is to be notified is asked by `notify`, once all of it
    /// was copied out.
    ///
    /// `Dropped`, with nothing changed, where the queue isn't ready, the guest, session or
    /// readiness of the reply isn't the device's, the device waits for a reset, a range doesn't lie
    /// in its memory, the chain of its number isn't outstanding, or with VIRTIO_F_IN_ORDER another
    /// that was popped before it is. So of two replies to one job the second is dropped, whatever
    /// ids the guest gave to its chains.
    pub fn publish(&mut self, done: Done) -> Published
        requires { IsDueIn self.old.device.queue self.old.device done
            → HasRoomIn self.old.device.queue self.old done }
        ensures publishes { PublishesAsked self.old done result self.new }
        ensures once { ¬ IsDueIn self.new.device.queue self.new.device done }
        ensures of_no_device { done.readiness ≡ 0 → result ≡ Published.Dropped }
        // No reply is longer than its ranges: a fact of the type.
        ensures fits { length done.reply ≤ room_in done.writable }
    {
        if !self.is_due(&done) {
            return Published::Dropped;
        }
        let Some(queue) = &mut self.queue else {
            return Published::Dropped;
        };
        let ticket = done.ticket();
        done.scatter(&mut self.memory);
        let notify = queue.publish(
            &mut self.memory,
            ticket.number,
            ticket.id,
            ticket.places,
            done.used_length(),
        );
        if notify {
            self.registers.interrupts.used_buffer = true;
        }
        Published::Wrote { notify }
    }

    /// Whether the driver is to be notified of what was used since that was asked last, by what it
    /// says of it now (VIRTIO 1.2, 2.7.7, 2.8.10); then bit 0 of InterruptStatus is raised. Not so
    /// where nothing was used since.
    ///
    /// Answers the bytes by which the driver says it where there is no copy of them, at most 4, and
    /// nothing changes. They are to be read behind the used index: a driver may ask for the
    /// notification just before it looks for used buffers the last time.
    pub fn notify(&mut self) -> Result<bool, Ask>
        ensures notifies { Notifies self.old result self.new }
        ensures short { (ask : Ask) → result ≡ Err ask → ask.len ≤ 4 }
    {
        let Some(queue) = &self.queue else {
            return Ok(false);
        };
        let used = queue.used();
        if used <= self.told {
            return Ok(false);
        }
        if let Some(ask) = queue.suppression_lacks(&self.memory) {
            return Err(ask);
        }
        let notify = queue.is_due(&self.memory, self.told);
        self.told = used;
        if notify {
            self.registers.interrupts.used_buffer = true;
        }
        Ok(notify)
    }
}
