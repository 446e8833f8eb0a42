//! How a guest's driver sets up its queue.
ghost use Rattle.std.specs.Prelude.{◌≡◌, ◌↔◌, IsTrue};
ghost use Rattle.guest_driver.specs.Config.{IsDriver, IsQueueSize, usual_driver};

use crate::driver_layout::DriverLayout;
use mmio_transport::RingKind;

/// How a guest's driver sets up its queue. Alone it may be out of range, or too large for its
/// guest's memory: `BoardSetup::new` tests it.
#[derive(Clone, Copy, Debug, PartialEq, Eq)]
pub struct DriverConfig {
    /// The places of the virtqueue: 2 to 256, a power of two for a split ring.
    pub queue: u16,
    /// The format that the driver accepts.
    pub ring: RingKind,
    /// Whether the driver accepts VIRTIO_F_INDIRECT_DESC.
    pub indirect: bool,
    /// Whether the driver accepts VIRTIO_F_EVENT_IDX.
    pub event_idx: bool,
    /// Whether the driver accepts VIRTIO_F_IN_ORDER.
    pub in_order: bool,
}

impl DriverConfig {
    /// As where a board file names none of it: a split ring of 16 entries, without
    /// VIRTIO_F_INDIRECT_DESC and VIRTIO_F_IN_ORDER and with VIRTIO_F_EVENT_IDX.
    pub const fn usual() -> DriverConfig
        ensures { result ≡ usual_driver }
    {
        DriverConfig {
            queue: 16,
            ring: RingKind::Split,
            indirect: false,
            event_idx: true,
            in_order: false,
        }
    }

    /// Whether a queue of its format may have so many places: of a split one a power of two
    /// (VIRTIO 1.2, 2.7).
    pub fn has_queue_size(&self) -> bool
        ensures { IsTrue result ↔ IsQueueSize self.now.ring self.now.queue }
    {
        match self.ring {
            RingKind::Split => self.queue.is_power_of_two(),
            RingKind::Packed => true,
        }
    }

    /// Whether it is in range, and its layout lies in a guest memory of so many bytes.
    pub fn fits(&self, memory: u64) -> bool
        ensures { IsTrue result ↔ IsDriver memory self.now }
    {
        (2..=256).contains(&self.queue)
            && self.has_queue_size()
            && DriverLayout::of(self.ring, self.queue).length <= memory
    }
}
