//! A device that knows of its guest's memory what it was told: its registers, and its copies.
ghost use Rattle.std.specs.Prelude.{◌≡◌, ◌≤◌, ◌+◌, ◌↔◌, IsOk, IfOk, OnOk, OnErr, IsErrOf};
ghost use Rattle.std.specs.Prelude.{length, false, Err};
ghost use Rattle.guest_memory.specs.Memory.{IsHeld, IsInside, IsWhole, bytes_at, kept};
ghost use Rattle.mmio_transport.specs.Asking.{after_asked_write, after_told, first_asking};
ghost use Rattle.mmio_transport.specs.Asking.{first_over, known, whole_device};
ghost use Rattle.mmio_transport.specs.Device.{first_state, read_value, after_write, after_ready};
ghost use Rattle.mmio_transport.specs.Device.{after_reset, kick_of, counted};
ghost use Rattle.mmio_transport.specs.Popping.{with_fault};
ghost use Rattle.mmio_transport.specs.Queue.{indexed_by, popped_by, written_by};
ghost use Rattle.mmio_transport.specs.Registers.{interrupt_number};
ghost use Rattle.mmio_transport.specs.Written.{IsSound};

use crate::configuration::config_number;
use crate::queue::Queue;
use crate::register;
use crate::registers::{Kick, Registers};
use chains::{NoMemory, Range};
use guest_memory::{MemFault, Memory};
use rpmb_frame::GuestConfig;
use std::alloc::{AllocError, Global};
use std::marker::Model;

/// The device of one guest whose memory its host doesn't hold: it asks for the bytes that it needs,
/// and believes no byte of which it has no copy.
///
/// A contract sees it as a [`crate::Device`], whose memory are the bytes as they were told or
/// written last, and beside it the parts of which there is a copy.
#[derive(Drop)]
pub struct AskingDevice {
    pub(crate) alloc: Global,
    pub(crate) guest: u16,
    pub(crate) config: GuestConfig,
    pub(crate) registers: Registers,
    pub(crate) queue: Option<Queue>,
    pub(crate) memory: Memory,
    pub(crate) session: u64,
    pub(crate) readiness: u64,
    pub(crate) pops: u64,
    /// How many places of the queue were used when it was last seen whether the driver is to be
    /// notified.
    pub(crate) told: u128,
}

impl Model for AskingDevice {
    ghost use Rattle.std.specs.Prelude.{length};
    ghost use Rattle.mmio_transport.specs.Device.{DeviceState, IsDevice};
    ghost use Rattle.mmio_transport.specs.Asking.{AskingState};

    ghost Value = { AskingState };

    ghost view = { λ d. record {
      device = record {
        guest = d.guest;
        config = d.config;
        registers = d.registers;
        queue = d.queue;
        memory = d.memory.bytes;
        session = d.session;
        readiness = d.readiness;
        pops = d.pops;
      };
      asks = d.memory.asks;
      held = d.memory.held;
      told = d.told;
    } };

    ghost invariant = { λ d. IsDevice (length d.memory.bytes) d.readiness d.pops d.queue };
}

/// One more, but for a count that stands at its end.
pub(crate) fn counted(count: u64) -> u64
    ensures { result ≡ counted count }
{
    if count == u64::MAX { count } else { count + 1 }
}

impl AskingDevice {
    /// The device of this guest, as it is before a driver finds it, with this memory.
    fn over(alloc: Global, guest: u16, config: &GuestConfig, memory: Memory) -> AskingDevice
        ensures { result ≡ first_over guest config.now memory }
    {
        AskingDevice {
            alloc,
            guest,
            config: *config,
            registers: Registers::fresh(),
            queue: None,
            memory,
            session: 1,
            readiness: 0,
            pops: 0,
            told: 0,
        }
    }

    /// The device of this guest, as it is before a driver finds it, which has all of its memory:
    /// zeros, as many bytes as the configuration says. `NoMemory` where the host has no room.
    pub(crate) fn whole(
        alloc: Global,
        guest: u16,
        config: &GuestConfig,
    ) -> Result<AskingDevice, NoMemory>
        ensures { IfOk result (λ device. device ≡ whole_device (first_state guest config.now)) }
    {
        let Ok(memory) = Memory::new(alloc, config.memory) else {
            return Err(AllocError);
        };
        Ok(AskingDevice::over(alloc, guest, config, memory))
    }

    /// The device of this guest, as it is before a driver finds it. It has no copy of any byte of
    /// its guest's memory, which has as many as the configuration says, and takes no memory.
    pub fn new(alloc: Global, guest: u16, config: &GuestConfig) -> AskingDevice
        ensures { result ≡ first_asking guest config.now }
    {
        AskingDevice::over(alloc, guest, config, Memory::asked(alloc, config.memory))
    }

    /// What the driver reads at an offset of bytes from the device's base, by an access of `width`
    /// bytes (VIRTIO 1.2, 4.2.2).
    ///
    /// Registers are read by 4 bytes; the configuration, from 0x100 on, by 1, 2 or 4, as a number
    /// in little endian. All else reads 0.
    pub fn read(&self, offset: u32, width: u8) -> u32
        ensures { result ≡ read_value self.now.device offset width }
    {
        if offset >= register::CONFIG {
            return config_number(&self.config, (offset - register::CONFIG) as u64, width);
        }
        if width != 4 {
            return 0;
        }
        self.registers.value(self.queue.is_some(), offset)
    }

    /// What the driver does by writing a register, by an access of `width` bytes (VIRTIO 1.2,
    /// 4.2.2), and what that asks of the device's host. It takes no memory.
    ///
    /// Widths other than 4, offsets that aren't listed and the configuration ignore what is
    /// written.
    pub fn write(&mut self, offset: u32, width: u8, value: u32) -> Kick
        ensures state { self.new ≡ after_asked_write self.old offset width value }
        ensures kick { result ≡ kick_of offset width value }
    {
        let kick = self.take_write(offset, width, value);
        if self.queue.is_none() {
            self.told = 0;
        }
        kick
    }

    /// What a write does to the registers and the queue.
    fn take_write(&mut self, offset: u32, width: u8, value: u32) -> Kick
        ensures state { self.new
            ≡ record self.old { device = after_write self.old.device offset width value } }
        ensures kick { result ≡ kick_of offset width value }
    {
        if width != 4 {
            return Kick::None;
        }
        match offset {
            register::QUEUE_READY => {
                self.write_queue_ready(value);
                Kick::None
            }
            register::QUEUE_NOTIFY => { if value == 0 { Kick::Notify } else { Kick::None } }
            register::STATUS if value == 0 => {
                self.reset();
                Kick::Reset
            }
            _ => {
                let ready = self.queue.is_some();
                self.registers = self.registers.written(ready, offset, value);
                Kick::None
            }
        }
    }

    /// QueueReady: makes the queue ready, or takes it away.
    fn write_queue_ready(&mut self, value: u32)
        ensures { self.new ≡ record self.old { device = after_ready self.old.device value } }
    {
        if self.registers.queue_sel != 0 || value > 1 {
            return;
        }
        if value == 0 {
            self.queue = None;
            return;
        }
        if self.queue.is_some() {
            return;
        }
        if self.registers.may_be_ready(&self.memory) {
            self.queue = Some(self.registers.queue(self.alloc, &self.memory));
            self.readiness = counted(self.readiness);
        }
    }

    fn reset(&mut self)
        ensures { self.new ≡ record self.old { device = after_reset self.old.device } }
    {
        self.registers = Registers::fresh();
        self.queue = None;
        self.session = counted(self.session);
    }

    /// Tells what the guest's memory holds from the address `at` on: a copy is made.
    ///
    /// `OutOfRange` where these bytes don't all lie in it, or `NoMemory` where there is no room for
    /// the copy; then nothing changes.
    pub fn tell(&mut self, at: u64, bytes: &[u8]) -> Result<(), MemFault>
        ensures whole { self.old.asks ≡ false
            → (IsOk result ↔ IsInside self.old.device.memory at (length bytes.now)) }
        ensures ok { OnOk result (self.new ≡ after_told self.old at bytes.now) }
        ensures inside { OnOk result (IsInside self.old.device.memory at (length bytes.now)) }
        ensures held { OnOk result (IsHeld (known self.new) at (length bytes.now)) }
        ensures range { result ≡ Err MemFault.OutOfRange
            → ¬ IsInside self.old.device.memory at (length bytes.now) }
        ensures fault { self.old.asks ≡ false → OnErr result (IsErrOf result MemFault.OutOfRange) }
        ensures unchanged { OnErr result (self.new ≡ self.old) }
    {
        self.memory.tell(self.alloc, at, bytes)
    }

    /// Forgets all copies: what is read from now on has to be told anew.
    pub fn forget(&mut self)
        ensures { self.new ≡ record self.old { held = kept (known self.old) } }
    {
        self.memory.forget();
    }

    /// There is no memory where bytes were asked for: the driver broke the queue's rules, and the
    /// device waits for a reset, as after any other fault of a chain.
    pub fn refuse(&mut self)
        ensures { self.new ≡ record self.old {
          device = record self.old.device
              { registers = with_fault self.old.device.registers };
        } }
    {
        self.registers.status.needs_reset = true;
        self.registers.interrupts.configuration = true;
    }

    /// Copies bytes of which the device has a copy, from the address `at` on. `OutOfRange` exactly
    /// where it has none; then nothing changes.
    pub fn load(&self, at: u64, out: &mut [u8]) -> Result<(), MemFault>
        ensures succeeds { IsOk result ↔ IsHeld (known self.now) at (length out.old) }
        ensures whole { self.now.asks ≡ false
            → (IsOk result ↔ IsInside self.now.device.memory at (length out.old)) }
        ensures ok { OnOk result (out.new ≡ bytes_at self.now.device.memory at (length out.old)) }
        ensures err { OnErr result (IsErrOf result MemFault.OutOfRange) }
        ensures unchanged { OnErr result (out.new ≡ out.old) }
    {
        let count = out.len();
        // for the checker: where all is there, inside and held are the same
        let _inside = self.memory.contains(at, count as u64);
        if !self.memory.holds(at, count as u64) {
            return Err(MemFault::OutOfRange);
        }
        out.copy_from_slice(self.memory.bytes(at, count as u64));
        Ok(())
    }

    /// Lends the `len` bytes from the address `at` on, of which the device has a copy.
    pub fn bytes(&self, at: u64, len: u64) -> &[u8]
        requires { IsHeld (known self.now) at len }
        ensures { result.now ≡ bytes_at self.now.device.memory at len }
    {
        self.memory.bytes(at, len)
    }

    /// The size of the guest's memory in bytes, which never changes.
    pub fn memory_size(&self) -> u64
        ensures value { result ≡ length self.now.device.memory }
        ensures whole { self.now.asks ≡ false → IsWhole (known self.now) }
    {
        self.memory.size()
    }

    /// The number of its guest on the board.
    pub fn guest(&self) -> u16
        ensures { result ≡ self.now.device.guest }
    {
        self.guest
    }

    /// The number of the session, which begins at 1 and grows by one at each reset; at 2^64 - 1 it
    /// stands.
    pub fn session(&self) -> u64
        ensures { result ≡ self.now.device.session }
    {
        self.session
    }

    /// The register InterruptStatus (VIRTIO 1.2, 4.2.2): 1 for used buffers, 2 for the
    /// configuration.
    ///
    /// The interrupt line is high exactly where this isn't 0. A `publish` may raise it, and a `pop`
    /// that finds a fault; a write to InterruptACK may lower it, and so does a reset. Whoever
    /// drives the line looks after each of these calls.
    pub fn interrupt_status(&self) -> u32
        ensures { result ≡ interrupt_number self.now.device.registers.interrupts }
    {
        self.registers.interrupts.number()
    }

    /// The half of the offered features that DeviceFeatures reads (VIRTIO 1.2, 4.2.2).
    pub fn device_features_sel(&self) -> u32
        ensures { result ≡ self.now.device.registers.device_features_sel }
    {
        self.registers.device_features_sel
    }

    /// The half of the driver's features that DriverFeatures takes (VIRTIO 1.2, 4.2.2).
    pub fn driver_features_sel(&self) -> u32
        ensures { result ≡ self.now.device.registers.driver_features_sel }
    {
        self.registers.driver_features_sel
    }

    /// The part of the ready queue's areas that a pop writes: of a split queue with
    /// VIRTIO_F_EVENT_IDX avail_event, 2 bytes; `None` of another, and without a ready queue.
    pub fn written_by_pop(&self) -> Option<Range>
        ensures { result ≡ popped_by self.now.device.queue }
    {
        match &self.queue {
            Some(queue) => queue.popped_part(&self.memory),
            None => None,
        }
    }

    /// The part of the ready queue's areas that the next publication writes first; `None` without a
    /// ready queue. Of a split queue it is the used element at the first place that isn't used, 8
    /// bytes; of a packed one the last 8 bytes of the descriptor there.
    pub fn written(&self) -> Option<Range>
        ensures names { result ≡ written_by self.now.device.queue }
        // What the laws of a pop and of a publication start from, for a caller that has only the
        // device.
        ensures sound { IsSound self.now.device }
    {
        match &self.queue {
            Some(queue) => Some(queue.written(&self.memory)),
            None => None,
        }
    }

    /// The part that it writes behind that, by which the driver knows of it: of a split queue the
    /// used ring's idx, 2 bytes; `None` of a packed one, and without a ready queue.
    pub fn indexed(&self) -> Option<Range>
        ensures { result ≡ indexed_by self.now.device.queue }
    {
        match &self.queue {
            Some(queue) => queue.indexed(&self.memory),
            None => None,
        }
    }
}
