//! What a monitor asks of a guest's device beside the plain one. The device itself knows nothing
//! of it.
ghost use Rattle.std.specs.Prelude.{◌≡◌, ◌↔◌, IsTrue, true};
ghost use Rattle.mmio_transport.specs.Device.{read_value};
ghost use Rattle.machine.specs.Settings.{is_plain, withheld_of, features_shown, features_taken};
ghost use Rattle.machine.specs.Settings.{value_shown, value_taken, most_of};
ghost use Rattle.machine.specs.Settings.{HasQueueInRange, places_shown};

use mmio_transport::{AskingDevice, register};
use rpmb_book::HELD;
use rpmb_frame::GuestConfig;

/// `VIRTIO_F_ACCESS_PLATFORM`, 33, among the features 32 to 63 (VIRTIO 1.2, 6).
const ACCESS_PLATFORM: u32 = 2;

/// One guest of a machine: how its device is set up, and what is asked beside the plain device.
#[derive(Clone, Copy, Debug, PartialEq, Eq)]
pub struct Setup {
    /// The device. `memory` is the end of the guest's addresses, any number of bytes: where there
    /// is memory below it only the monitor knows.
    pub config: GuestConfig,
    /// Feature bits (VIRTIO 1.2, 6) that the device doesn't offer; a driver that takes one all the
    /// same is refused FEATURES_OK.
    pub withheld: u64,
    /// How many chains may be popped and not yet answered; 0, and all above, is 64.
    pub most: u16,
    /// What QueueNumMax reads, 2 to 256; without it 256.
    pub queue: Option<u16>,
    /// Whether VIRTIO_F_ACCESS_PLATFORM, 33, is offered, and taken.
    pub platform: bool,
}

impl Setup {
    /// The features withheld of a half.
    #[tactic(auto, unfolding(crate::specs::Settings::withheld_of))]
    fn withheld_of(&self, half: u32) -> u32
        ensures { result ≡ withheld_of self.now half }
    {
        match half {
            0 => (self.withheld % 4_294_967_296) as u32,
            1 => (self.withheld / 4_294_967_296) as u32,
            _ => 0,
        }
    }

    /// The features that are shown of a half, of those that the device offers.
    #[tactic(auto, unfolding(crate::specs::Settings::features_shown))]
    fn features_shown(&self, half: u32, offered: u32) -> u32
        ensures { result ≡ features_shown self.now half offered }
    {
        let all = if self.platform && half == 1 {
            offered | ACCESS_PLATFORM
        } else {
            offered
        };
        all & (u32::MAX - self.withheld_of(half))
    }

    /// The driver's features of a half, as the device gets them.
    #[tactic(auto, unfolding(crate::specs::Settings::features_taken))]
    fn features_taken(&self, half: u32, value: u32) -> u32
        ensures { result ≡ features_taken self.now half value }
    {
        if value & self.withheld_of(half) != 0 {
            return u32::MAX;
        }
        if self.platform && half == 1 {
            value & (u32::MAX - ACCESS_PLATFORM)
        } else {
            value
        }
    }

    /// What a driver reads at an offset from its device's base.
    #[tactic(auto, unfolding(crate::specs::Settings::value_shown, crate::specs::Settings::is_plain))]
    pub(crate) fn read(&self, device: &AskingDevice, offset: u32, width: u8) -> u32
        ensures value { result ≡ value_shown self.now device.now.device offset width }
        ensures plain { is_plain self.now ≡ true
            → result ≡ read_value device.now.device offset width }
    {
        let value = device.read(offset, width);
        if self.is_plain() || width != 4 {
            return value;
        }
        match offset {
            register::DEVICE_FEATURES => self.features_shown(device.device_features_sel(), value),
            register::QUEUE_NUM_MAX => self.places_shown(value),
            _ => value,
        }
    }

    /// What QueueNumMax reads, where the device tells so many: 0 of a queue that there is not.
    fn places_shown(&self, value: u32) -> u32
        ensures { result ≡ places_shown self.now.queue value }
    {
        match self.queue {
            Some(queue) if value != 0 => u32::from(queue),
            _ => value,
        }
    }

    /// Whether what QueueNumMax is to read is in its range.
    pub(crate) fn has_queue_in_range(&self) -> bool
        ensures { IsTrue result ↔ HasQueueInRange self.now }
    {
        match self.queue {
            Some(queue) => (2..=256).contains(&queue),
            None => true,
        }
    }

    /// Whether the device is the plain one.
    #[tactic(auto, unfolding(crate::specs::Settings::is_plain))]
    fn is_plain(&self) -> bool
        ensures { result ≡ is_plain self.now }
    {
        self.withheld == 0 && self.queue.is_none() && !self.platform
    }

    /// What the device gets where its driver writes this value.
    #[tactic(auto, unfolding(crate::specs::Settings::value_taken, crate::specs::Settings::is_plain))]
    pub(crate) fn taken(&self, device: &AskingDevice, offset: u32, width: u8, value: u32) -> u32
        ensures value { result ≡ value_taken self.now device.now.device offset width value }
        ensures plain { is_plain self.now ≡ true → result ≡ value }
    {
        if self.is_plain() || width != 4 || offset != register::DRIVER_FEATURES {
            return value;
        }
        self.features_taken(device.driver_features_sel(), value)
    }

    /// How many chains may be popped and not yet answered.
    #[tactic(auto, unfolding(crate::specs::Settings::most_of))]
    pub(crate) fn most(&self) -> u16
        ensures { result ≡ most_of self.now }
    {
        if self.most == 0 || self.most > HELD as u16 {
            HELD as u16
        } else {
            self.most
        }
    }
}
