//! What a driver reads of its ring, of either kind.
ghost use Rattle.std.specs.Prelude.{◌≡◌, ◌≤◌, ◌<◌, ◌↔◌, IsTrue, length};
ghost use Rattle.guest_driver.specs.Kinds.{needed, IsStill, used_id, used_len, writable_at};

use crate::config::DriverConfig;
use crate::packed_reaping::is_used;
use crate::reaping::{Element, used_element, used_idx};
use crate::{layout, packed_layout, packed_reaping};
use mmio_transport::{Device, RingKind};

/// Whether no chain was used at the place of this mark, the one that is used next.
pub(crate) fn is_still(config: &DriverConfig, device: &Device, used: u32) -> bool
    requires room { needed config.now.ring config.now.queue ≤ length device.now.memory }
    ensures { IsTrue result ↔ IsStill config.now.ring device.now.memory config.now.queue used }
{
    match config.ring {
        RingKind::Split => used_idx(device, config.queue) as u32 == used,
        RingKind::Packed => config.queue == 0 || !is_used(device, config.queue, used),
    }
}

/// What stands there.
pub(crate) fn element(config: &DriverConfig, device: &Device, used: u32) -> Element
    requires room { needed config.now.ring config.now.queue ≤ length device.now.memory }
    requires some { 0 < config.now.queue }
    ensures id { result.id ≡ used_id config.now.ring device.now.memory config.now.queue used }
    ensures len { result.len ≡ used_len config.now.ring device.now.memory config.now.queue used }
{
    match config.ring {
        RingKind::Split => used_element(device, config.queue, used),
        RingKind::Packed => packed_reaping::used_element(device, config.queue, used),
    }
}

/// Where the bytes stand that the device writes for the chain with this id.
pub(crate) fn writable_at(config: &DriverConfig, id: u16) -> u64
    ensures { result ≡ writable_at config.now.ring config.now.queue id }
{
    match config.ring {
        RingKind::Split => layout::writable_at(config.queue, id),
        RingKind::Packed => packed_layout::writable_at(config.queue, id),
    }
}
