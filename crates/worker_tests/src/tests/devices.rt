//! Devices that stand in the place of a board's own, and queues that somebody else has made ready
//! before a guest's driver comes.
use mmio_transport::Device;
use mmio_transport::feature::VERSION_1;
use mmio_transport::register::{
    DRIVER_FEATURES, DRIVER_FEATURES_SEL, QUEUE_DESC_LOW, QUEUE_DEVICE_LOW, QUEUE_DRIVER_LOW,
    QUEUE_NUM, QUEUE_READY, STATUS,
};
use rpmb_frame::GuestConfig;
use std::alloc::Global;

/// Where a queue that is made ready has its descriptors and its available ring: behind all that the
/// driver uses.
pub const DESCRIPTORS: u64 = 0x8_0000;

pub const AVAILABLE: u64 = 0x8_0100;

/// Where the requests and the replies of its chains stand.
pub const REQUEST: u64 = 0x9_0000;

pub const REPLY: u64 = 0x9_1000;

/// A descriptor (`struct virtq_desc`, VIRTIO 1.2, 2.7.5).
pub fn descriptor(addr: u64, len: u32, flags: u16, next: u16) -> [u8; 16] {
    let mut bytes = [0; 16];
    bytes[0..8].copy_from_slice(&addr.to_le_bytes());
    bytes[8..12].copy_from_slice(&len.to_le_bytes());
    bytes[12..14].copy_from_slice(&flags.to_le_bytes());
    bytes[14..16].copy_from_slice(&next.to_le_bytes());
    bytes
}

/// A descriptor that leaves guest memory.
pub fn outside() -> [u8; 16] {
    descriptor(0xffff_0000_0000, 16, 0, 0)
}

/// The registers of a device that has accepted its features, and has a ready queue of four places.
/// A driver that doesn't reset it leaves the queue as it is.
static READY: [(u32, u32); 9] = [
    (STATUS, 3),
    (DRIVER_FEATURES_SEL, 1),
    (DRIVER_FEATURES, VERSION_1),
    (STATUS, 11),
    (QUEUE_NUM, 4),
    (QUEUE_DESC_LOW, 0x8_0000),
    (QUEUE_DRIVER_LOW, 0x8_0100),
    (QUEUE_DEVICE_LOW, 0x8_0200),
    (QUEUE_READY, 1),
];

/// What becomes of a guest's device before the guest begins.
#[derive(Clone, Copy)]
pub enum Other<'a> {
    /// It stays.
    Own,
    /// It is one whose jobs are another guest's: at the first the worker comes to `Foreign`.
    Foreign,
    /// It is one of this guest with too little memory for its driver, which comes to `OutOfRange`
    /// with its first chain.
    Narrow(u16),
    /// Its queue is ready, and these bytes stand there in its memory.
    Ready(&'a [(u64, &'a [u8])]),
    /// The same, and it has stopped at its first chain.
    Stopped(&'a [(u64, &'a [u8])]),
}

fn become_new(alloc: Global, device: &mut Device, number: u16, memory: u64) -> bool {
    let mut config = GuestConfig::of_capacity(1);
    config.memory = memory;
    match Device::new(alloc, number, &config) {
        Ok(other) => {
            *device = other;
            true
        }
        Err(_) => false,
    }
}

fn store_all(device: &mut Device, stores: &[(u64, &[u8])]) -> bool {
    for (at, bytes) in stores {
        if device.store(*at, *bytes).is_err() {
            return false;
        }
    }
    true
}

fn make_ready(device: &mut Device) {
    for (register, value) in &READY {
        device.write(*register, 4, *value);
    }
}

fn stop(device: &mut Device) -> bool {
    device.write(STATUS, 4, 15);
    device.pop().is_err()
}

fn change(alloc: Global, device: &mut Device, other: &Other<'_>) -> bool {
    match other {
        Other::Own => true,
        Other::Foreign => become_new(alloc, device, 63, 1_048_576),
        Other::Narrow(number) => become_new(alloc, device, *number, 65_536),
        Other::Ready(stores) => {
            make_ready(device);
            store_all(device, *stores)
        }
        Other::Stopped(stores) => {
            make_ready(device);
            store_all(device, *stores) && stop(device)
        }
    }
}

/// Does so to the devices of these guests.
pub fn change_all(alloc: Global, devices: &mut [Device], others: &[(usize, Other<'_>)]) -> bool {
    for (guest, other) in others {
        match devices.get_mut(*guest) {
            Some(device) => {
                if !change(alloc, device, other) {
                    return false;
                }
            }
            None => return false,
        }
    }
    true
}
