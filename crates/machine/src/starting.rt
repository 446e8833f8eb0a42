//! A device without its registers: for a monitor that has a transport of its own. What is done is
//! what a driver does by writing registers, one after another.
ghost use Rattle.std.specs.Prelude.{◌≡◌, ◌+◌, ◌*◌};
ghost use Rattle.machine.specs.Machine.{MachineState};
ghost use Rattle.machine.specs.Starting.{begun_in, features_in, halves_in, is_up, negotiated_in};
ghost use Rattle.machine.specs.Starting.{offered_of, queue_in, set_in, started_in};

use crate::machine::Machine;
use mmio_transport::register;

/// What Status is set to: 0, which resets; ACKNOWLEDGE and DRIVER; behind them FEATURES_OK; behind
/// that DRIVER_OK (VIRTIO 1.2, 2.1).
const RESET: u32 = 0;

const DRIVER: u32 = 3;

const FEATURES_OK: u32 = 11;

const DRIVER_OK: u32 = 15;

/// A driver's queue: how many places it has, and the guest addresses of its areas (VIRTIO 1.2,
/// 2.7 and 2.8).
#[derive(Clone, Copy, Debug, PartialEq, Eq)]
pub struct Areas {
    pub size: u32,
    pub descriptors: u64,
    pub driver: u64,
    pub device: u64,
}

impl Machine {
    /// Writes a register of 32 bits.
    #[tactic(auto, unfolding(crate::specs::Starting::set_in))]
    fn set(&mut self, guest: u16, offset: u32, value: u32)
        ensures { self.new ≡ set_in self.old guest offset value }
    {
        self.write(guest, offset, 4, value);
    }

    /// Writes the halves of a number: at `low`, and at `high`, 4 bytes behind it.
    #[tactic(auto, unfolding(crate::specs::Starting::halves_in))]
    fn set_halves(&mut self, guest: u16, low: u32, high: u32, number: u64)
        requires { high ≡ low + 4 }
        ensures { self.new ≡ halves_in self.old guest low number }
    {
        self.set(guest, low, (number % 4_294_967_296) as u32);
        self.set(guest, high, (number / 4_294_967_296) as u32);
    }

    /// Says which features are taken.
    #[tactic(auto, unfolding(crate::specs::Starting::features_in))]
    fn take_features(&mut self, guest: u16, features: u64)
        ensures { self.new ≡ features_in self.old guest features }
    {
        self.set(guest, register::DRIVER_FEATURES_SEL, 0);
        self.set(
            guest,
            register::DRIVER_FEATURES,
            (features % 4_294_967_296) as u32,
        );
        self.set(guest, register::DRIVER_FEATURES_SEL, 1);
        self.set(
            guest,
            register::DRIVER_FEATURES,
            (features / 4_294_967_296) as u32,
        );
    }

    /// From a reset to FEATURES_OK.
    #[tactic(auto, unfolding(crate::specs::Starting::negotiated_in))]
    fn negotiate(&mut self, guest: u16, features: u64)
        ensures { self.new ≡ negotiated_in self.old guest features }
    {
        self.stop(guest);
        self.set(guest, register::STATUS, DRIVER);
        self.take_features(guest, features);
        self.set(guest, register::STATUS, FEATURES_OK);
    }

    /// Gives the device its queue.
    #[tactic(auto, unfolding(crate::specs::Starting::queue_in))]
    fn give_queue(&mut self, guest: u16, areas: Areas)
        ensures { self.new ≡ queue_in self.old guest areas }
    {
        self.set(guest, register::QUEUE_SEL, 0);
        self.set(guest, register::QUEUE_NUM, areas.size);
        self.set_halves(
            guest,
            register::QUEUE_DESC_LOW,
            register::QUEUE_DESC_HIGH,
            areas.descriptors,
        );
        self.set_halves(
            guest,
            register::QUEUE_DRIVER_LOW,
            register::QUEUE_DRIVER_HIGH,
            areas.driver,
        );
        self.set_halves(
            guest,
            register::QUEUE_DEVICE_LOW,
            register::QUEUE_DEVICE_HIGH,
            areas.device,
        );
        self.set(guest, register::QUEUE_READY, 1);
    }

    /// Whether the guest's device is in service, with its queue.
    #[tactic(auto, unfolding(crate::specs::Starting::is_up))]
    fn is_up(&self, guest: u16) -> bool
        ensures { result ≡ is_up self.now guest }
    {
        self.read(guest, register::STATUS, 4) == DRIVER_OK
            && self.read(guest, register::QUEUE_READY, 4) == 1
    }

    /// All that a driver writes, to DRIVER_OK.
    #[tactic(auto, unfolding(crate::specs::Starting::begun_in))]
    fn begin(&mut self, guest: u16, features: u64, areas: Areas)
        ensures { self.new ≡ begun_in self.old guest features areas }
    {
        self.negotiate(guest, features);
        self.give_queue(guest, areas);
        self.set(guest, register::STATUS, DRIVER_OK);
    }

    /// Resets the guest's device, and brings it into service with these features and this queue,
    /// as a driver does by its registers. Whether it is; where it isn't, the device refused the
    /// features or the queue, and is reset. Nothing is done of a guest that there isn't.
    #[tactic(auto, unfolding(crate::specs::Starting::started_in))]
    pub fn start(&mut self, guest: u16, features: u64, areas: Areas) -> bool
        ensures up { result ≡ is_up (begun_in self.old guest features areas) guest }
        ensures state { self.new ≡ started_in self.old guest features areas }
    {
        self.begin(guest, features, areas);
        if self.is_up(guest) {
            true
        } else {
            self.stop(guest);
            false
        }
    }

    /// Resets the guest's device, as its driver does by writing 0 to Status: what was taken and
    /// isn't answered yet gets no answer.
    pub fn stop(&mut self, guest: u16)
        ensures { self.new ≡ set_in self.old guest 112 0 }
    {
        self.set(guest, register::STATUS, RESET);
    }

    /// One half of the features that the guest's device offers: bits 0 to 31, or 32 to 63.
    #[tactic(auto, unfolding(crate::specs::Starting::offered_of))]
    fn offered(&mut self, guest: u16, half: u32) -> u32
        ensures value { result ≡ offered_of self.old guest half }
        ensures state { self.new ≡ set_in self.old guest 20 half }
    {
        self.set(guest, register::DEVICE_FEATURES_SEL, half);
        self.read(guest, register::DEVICE_FEATURES, 4)
    }

    /// The features that the guest's device offers (VIRTIO 1.2, 6); 0 for a guest that there
    /// isn't. DeviceFeaturesSel is 0 then.
    pub fn features(&mut self, guest: u16) -> u64
        ensures value { result ≡ offered_of (set_in self.old guest 20 1) guest 0
            + 4294967296 * offered_of self.old guest 1 }
        ensures state { self.new ≡ set_in (set_in self.old guest 20 1) guest 20 0 }
    {
        let high = u64::from(self.offered(guest, 1));
        let low = u64::from(self.offered(guest, 0));
        low + 4_294_967_296 * high
    }
}
