//! What Status says of a guest's driver and of its device (VIRTIO 1.2, 2.1).
ghost use Rattle.std.specs.Prelude.{◌≡◌, IfSome, slice_get};

use board::AskingBoard;
use disk::OutboxDisk;
use mmio_transport::register;

/// DRIVER_OK in Status (VIRTIO 1.2, 2.1).
const DRIVER_OK: u32 = 4;

/// DEVICE_NEEDS_RESET in Status (VIRTIO 1.2, 2.1).
const NEEDS_RESET: u32 = 64;

/// Whether the guest's driver has set DRIVER_OK: before, a pop looks at nothing, and writes
/// nothing.
pub(crate) fn is_live(board: &AskingBoard<OutboxDisk>, guest: u16) -> bool
    ensures { IfSome (slice_get board.now.devices guest)
        (λ d. d.device.registers.status.driver_ok ≡ result) }
{
    match board.device_of(guest) {
        Some(device) => device.read(register::STATUS, 4) / DRIVER_OK % 2 == 1,
        None => false,
    }
}

/// Whether the guest's device waits for a reset.
pub(crate) fn waits_for_reset(board: &AskingBoard<OutboxDisk>, guest: u16) -> bool
    ensures { IfSome (slice_get board.now.devices guest)
        (λ d. d.device.registers.status.needs_reset ≡ result) }
{
    match board.device_of(guest) {
        Some(device) => device.read(register::STATUS, 4) / NEEDS_RESET % 2 == 1,
        None => true,
    }
}
