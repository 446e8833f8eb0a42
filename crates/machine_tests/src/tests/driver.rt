//! A guest's driver: how it brings its device into service, what it offers, and what it sees.
use crate::tests::rig::{Calls, HIGH, Rig};
use mmio_transport::register as reg;

/// The types of a key's programming and of a counter (VIRTIO 1.2, 5.12.6), and of its results
/// NO_AUTH_KEY; OK is 0, GENERAL_FAILURE 1, WRITE_FAILURE 5.
pub const KEY: u8 = 1;

pub const COUNTER: u8 = 2;

pub const NO_KEY: u8 = 7;

/// Where the request of the first chain stands, and its reply; those of the n-th 0x400 n above.
pub const REQUEST: u64 = HIGH + 0x4000;

pub const REPLY: u64 = HIGH + 0x8000;

/// A descriptor: address, length, and flags and next (2.7.5), or id and flags (2.8.13).
pub fn descriptor(at: u64, len: u32, words: [u16; 2]) -> [u8; 16] {
    let mut bytes = [0; 16];
    bytes[0..8].copy_from_slice(&at.to_le_bytes());
    bytes[8..12].copy_from_slice(&len.to_le_bytes());
    bytes[12..14].copy_from_slice(&words[0].to_le_bytes());
    bytes[14..16].copy_from_slice(&words[1].to_le_bytes());
    bytes
}

/// From FEATURES_OK on, a queue of 16: descriptors, driver's area and device's from 0x1000, 0x2000
/// and 0x3000 on.
static QUEUE: [(u32, u32); 6] = [
    (reg::STATUS, 11),
    (reg::QUEUE_NUM, 16),
    (reg::QUEUE_DESC_LOW, 0x1000),
    (reg::QUEUE_DRIVER_LOW, 0x2000),
    (reg::QUEUE_DEVICE_LOW, 0x3000),
    (reg::QUEUE_READY, 1),
];

/// A request of this type, in two frames where it is a key's, which is of 0x11, with its result
/// asked for behind it.
fn request_of(kind: u8) -> [u8; 1024] {
    let mut request = [0; 1024];
    request[507] = 1;
    request[511] = kind;
    if kind == KEY {
        request[196..228].fill(0x11);
        request[1023] = 5;
    }
    request
}

impl<M: Calls> Rig<M> {
    fn set_all(&mut self, guest: u16, writes: &[(u32, u32)]) {
        for (offset, value) in writes {
            self.machine.set(guest, *offset, *value);
        }
    }

    /// From a reset to this status (3.1.1), with VIRTIO_F_VERSION_1 and these features, and a queue
    /// of zeros. Whether it stands.
    pub fn set_up(&mut self, guest: u16, features: u64, status: u32) -> bool {
        self.put(guest, 0, &[0; 0x4000]);
        self.put(guest, REPLY, &[0; 0x1000]);
        let greeting = [
            (reg::STATUS, 0),
            (reg::DRIVER_FEATURES, (features % (1 << 32)) as u32),
            (reg::DRIVER_FEATURES_SEL, 1),
            (reg::DRIVER_FEATURES, (features >> 32) as u32 | 1),
        ];
        self.set_all(guest, &greeting);
        self.set_all(guest, &QUEUE);
        self.machine.set(guest, reg::STATUS, status);
        self.machine.see(guest, reg::STATUS) == status
    }

    /// Puts the n-th chain of a split ring, of a request of so many bytes and a reply of 512.
    fn put_chain(&mut self, guest: u16, n: u8, len: u32) {
        let number = u64::from(n);
        let head = n.saturating_mul(2);
        let (from, to) = (REQUEST + 0x400 * number, REPLY + 0x400 * number);
        let first = descriptor(from, len, [1, u16::from(head) + 1]);
        self.put(guest, 0x1000 + 32 * number, &first);
        self.put(guest, 0x1010 + 32 * number, &descriptor(to, 512, [2, 0]));
        self.put(guest, 0x2004 + 2 * number, &[head, 0]);
        self.put(guest, 0x2002, &[n.saturating_add(1), 0]);
    }

    /// Offers a request as the n-th chain of a split ring, n below 8, and notifies the device.
    pub fn offer(&mut self, guest: u16, n: u8, kind: u8) -> bool {
        self.put(guest, REQUEST + 0x400 * u64::from(n), &request_of(kind));
        self.put_chain(guest, n, if kind == KEY { 1024 } else { 512 });
        self.machine.set(guest, reg::QUEUE_NOTIFY, 0)
    }

    /// Whether the reply to the n-th chain ends with this result and this type: 0 and 0, where
    /// there is none.
    pub fn ends(&self, guest: u16, n: u8, code: u8, kind: u8) -> bool {
        let at = REPLY + 508 + 0x400 * u64::from(n);
        self.holds(guest, at, &[0, code, kind, 0])
    }

    /// Offers a request, is served until no sync is awaited, and sees how the reply ends. How many
    /// syncs that took.
    pub fn ask(&mut self, guest: u16, n: u8, kind: u8, code: u8) -> Option<u32> {
        if !self.offer(guest, n, kind) {
            return None;
        }
        let syncs = self.settle(guest)?;
        if self.ends(guest, n, code, kind) {
            Some(syncs)
        } else {
            None
        }
    }

    /// From a reset on, whether the counter's reply has this result.
    pub fn counts_anew(&mut self, guest: u16, code: u8) -> bool {
        self.set_up(guest, 0, 15);
        self.ask(guest, 0, COUNTER, code).is_some()
    }
}
