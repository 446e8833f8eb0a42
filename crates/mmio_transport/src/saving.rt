//! A device that is saved at rest, and goes on in another one.
ghost use Rattle.std.specs.Prelude.{◌≡◌, ◌<◌, ◌≤◌, ◌↔◌, IsTrue, IfSome, true, false, length};
ghost use Rattle.std.specs.Prelude.{is_some};
ghost use Rattle.mmio_transport.specs.Resting.{queue_at, is_at_rest, IsSaved, MayGoOn, MayStand};
ghost use Rattle.mmio_transport.specs.Resting.{going_on, place_of, at_place};
ghost use Rattle.mmio_transport.specs.Device.{counted};

use crate::asking::{AskingDevice, counted};
use crate::queue::Queue;
use crate::registers::Registers;
use crate::ring_kind::RingKind;
use crate::setup::MOST_PLACES;
use chains::{Places, may_rest};
use guest_memory::Memory;
use std::alloc::Global;

/// Where a queue rests: each chain that was popped is used.
#[derive(Clone, Copy)]
pub struct RestingQueue {
    pub kind: RingKind,
    pub places: Places,
    /// How many places it has.
    pub size: u16,
    /// The number of the chain that was popped last; 0 before the first.
    pub last: u64,
    /// How many places were popped and used.
    pub used: u128,
}

/// What is saved of a device: what its driver sees of it, and where its queue rests.
#[derive(Clone, Copy)]
pub struct RestingDevice {
    pub registers: Registers,
    pub queue: Option<RestingQueue>,
}

impl RestingQueue {
    /// The queue that rests here, where its ring may have this size and its areas lie in the
    /// memory.
    fn queue(&self, alloc: Global, memory: &Memory) -> Option<Queue>
        ensures may { is_some result ≡ true ↔ MayStand (length memory.now.bytes) self.now }
        ensures queue { IfSome result (λ queue. queue ≡ queue_at self.now) }
    {
        if self.size == 0 || u32::from(self.size) > MOST_PLACES || !may_rest(self.last, self.used) {
            return None;
        }
        let Ok(queue) = Queue::resting(alloc, self) else {
            return None;
        };
        if queue.lies_in(memory) {
            Some(queue)
        } else {
            None
        }
    }

    /// The place at which the queue stands. Of a split queue it is the index of its next chain
    /// (VIRTIO 1.2, 2.7.6); of a packed one the bits 0 to 14 are the place, and bit 15 is the wrap
    /// counter (2.8.1).
    pub fn place(&self) -> u16
        requires some { 0 < self.now.size }
        requires fits { self.now.size ≤ 32768 }
        ensures { result ≡ place_of self.now }
    {
        let size = u128::from(self.size);
        match self.kind {
            RingKind::Split => (self.used % 65_536) as u16,
            RingKind::Packed => {
                let wrap = if self.used / size % 2 == 0 { 32_768 } else { 0 };
                (self.used % size) as u16 + wrap
            }
        }
    }

    /// The queue at another place, as `place` tells it; `None` where it has no such place.
    pub fn at(&self, place: u16) -> Option<RestingQueue>
        ensures { result ≡ at_place self.now.kind self.now place }
    {
        let used = match self.kind {
            RingKind::Split => u128::from(place),
            RingKind::Packed => {
                let index = place % 32_768;
                if index >= self.size {
                    return None;
                }
                let lap = if place >= 32_768 {
                    0
                } else {
                    u128::from(self.size)
                };
                u128::from(index) + lap
            }
        };
        Some(RestingQueue { used, ..*self })
    }
}

impl AskingDevice {
    /// A session of its own begins with these registers, where so many places were used.
    fn stand(&mut self, registers: Registers, used: u128)
        ensures { self.new ≡ record self.old {
          device = record self.old.device {
            registers = registers;
            session = counted self.old.device.session;
          };
          told = used;
        } }
    {
        self.registers = registers;
        self.session = counted(self.session);
        self.told = used;
    }

    /// What is to be saved of the device, so that another one goes on as it; `None` where a chain
    /// is outstanding, or it wasn't seen yet whether the driver is to be notified.
    pub fn saved(&self) -> Option<RestingDevice>
        ensures rest { is_some result ≡ is_at_rest self.now.device.queue self.now.told }
        ensures saved { IfSome result (IsSaved self.now) }
        ensures may { IfSome result (λ s. MayGoOn (length self.now.device.memory) s.queue) }
    {
        let queue = match &self.queue {
            None => None,
            Some(queue) => match queue.at_rest() {
                Some(it) if it.used == self.told => Some(it),
                _ => return None,
            },
        };
        Some(RestingDevice {
            registers: self.registers,
            queue,
        })
    }

    /// Goes on as the device that was saved: with its registers, and its queue at its place. What
    /// was popped before gets no answer, as after a reset.
    ///
    /// `false`, with nothing changed, exactly where such a queue can't stand in this memory.
    pub fn go_on(&mut self, saved: &RestingDevice) -> bool
        ensures may { IsTrue result ↔ MayGoOn (length self.old.device.memory) saved.now.queue }
        ensures ok { result ≡ true → self.new ≡ going_on self.old saved.now }
        ensures unchanged { result ≡ false → self.new ≡ self.old }
    {
        let Some(it) = saved.queue else {
            self.queue = None;
            self.stand(saved.registers, 0);
            return true;
        };
        let Some(queue) = it.queue(self.alloc, &self.memory) else {
            return false;
        };
        self.queue = Some(queue);
        self.readiness = counted(self.readiness);
        self.pops = self.pops.max(it.last);
        self.stand(saved.registers, it.used);
        true
    }
}
