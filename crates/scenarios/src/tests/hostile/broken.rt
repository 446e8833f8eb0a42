//! Chains that break the rules of a ring, or just keep them, on both kinds of ring.
mod over;

use super::{check_beside, sight_alone};
use crate::tests::acts::{Acts, Turn};
use crate::tests::boards::{Deed, Table, Watched, loaded, made};
use crate::tests::scene::check;
use board::{Seen, StepFault};
use chains::ChainFault;
use mmio_transport::{DeviceFault, Published, register as reg};
use std::alloc::Global;
use std::test::Fail;

const NEXT: u16 = 1;

const WRITE: u16 = 2;

const INDIRECT: u16 = 4;

/// A descriptor of a packed ring that is available in the first round.
const AVAIL: u16 = 0x80;

/// The length of guest memory.
const SIZE: u64 = 1_048_576;

/// Where a table stands.
const TABLE: u64 = 0x5000;

/// A descriptor as its four fields: le64 addr, le32 len, le16 flags and le16 next of a split one
/// (struct virtq_desc of VIRTIO 1.2, 2.7.5); le64 addr, le32 len, le16 id and le16 flags of a
/// packed one (struct pvirtq_desc, 2.8).
type Descriptor = (u64, u32, u16, u16);

const NONE: Descriptor = (0, 0, 0, 0);

#[derive(Clone, Copy, PartialEq, Eq)]
enum Kind {
    Split,
    Packed,
}

/// The first descriptor of the ring and the second, which fills it; the two of a table; what a pop
/// answers; and what is left of the ring: of a split one the used index, and the id and half of
/// the length of its first used element; of a packed one length, id and flags of the first
/// descriptor.
type Row = (
    Descriptor,
    Descriptor,
    Descriptor,
    Descriptor,
    Answer,
    [u8; 8],
);

/// What a pop answers: a job, or why the device stops.
type Answer = Result<(), ChainFault>;

/// A chain of a queue of four places of this kind.
#[derive(Clone, Copy)]
struct Case<'a> {
    kind: Kind,
    row: &'a Row,
}

/// The registers of a device with a queue of four places, which takes tables.
fn registers_of(kind: Kind) -> [(u32, u32); 13] {
    let high = if kind == Kind::Packed { 5 } else { 1 };
    [
        (reg::STATUS, 3),
        (reg::DRIVER_FEATURES_SEL, 0),
        (reg::DRIVER_FEATURES, 0x1000_0000),
        (reg::DRIVER_FEATURES_SEL, 1),
        (reg::DRIVER_FEATURES, high),
        (reg::STATUS, 11),
        (reg::QUEUE_SEL, 0),
        (reg::QUEUE_NUM, 4),
        (reg::QUEUE_DESC_LOW, 0x1000),
        (reg::QUEUE_DRIVER_LOW, 0x2000),
        (reg::QUEUE_DEVICE_LOW, 0x3000),
        (reg::QUEUE_READY, 1),
        (reg::STATUS, 15),
    ]
}

fn bytes_of(fields: Descriptor) -> [u8; 16] {
    let number = u128::from(fields.0)
        | u128::from(fields.1) << 64
        | u128::from(fields.2) << 96
        | u128::from(fields.3) << 112;
    number.to_le_bytes()
}

fn describe<B: Table>(
    acts: &mut Acts,
    board: &mut Watched<B>,
    at: u64,
    descriptors: &[Descriptor],
) -> bool {
    let mut at = at;
    for fields in descriptors {
        if !acts.store(board, 1, at, &bytes_of(*fields)) {
            return false;
        }
        at = at.wrapping_add(16);
    }
    true
}

impl<'a> Case<'a> {
    /// The hostile guest sets its device up and makes the chain available: a split ring by the
    /// index 1 of the chain that begins with its first descriptor.
    fn offers<B: Table>(&self, alloc: Global, board: &mut Watched<B>) -> bool {
        let (first, second, entry, last, _, _) = *self.row;
        let mut acts = Acts::new(alloc, None, 0);
        acts.write_all(board, 1, &registers_of(self.kind))
            && describe(&mut acts, board, 0x1000, &[first, second, second, second])
            && describe(&mut acts, board, TABLE, &[entry, last])
            && (self.kind == Kind::Packed || acts.store(board, 1, 0x2000, &[0, 0, 1, 0, 0, 0]))
            && acts.refusal.is_none()
    }

    /// Where it stands what is left of the ring.
    fn place_left(&self) -> u64 {
        match self.kind {
            Kind::Split => 0x3002,
            Kind::Packed => 0x1008,
        }
    }
}

/// A device that has stopped, with its interrupt, and gives no job until it is reset.
fn check_stopped<B: Table>(board: &mut B) -> bool {
    let Some(device) = board.device_seen(1) else {
        return false;
    };
    let stopped = device.read(reg::STATUS, 4) == 79 && device.interrupt_status() == 2;
    if !stopped {
        return false;
    }
    let next = made(board, 1, Turn::Pop);
    let needs_reset = StepFault::Device(DeviceFault::NeedsReset);
    next == Err(needs_reset)
}

/// The job is answered, and there is no other.
fn check_answered<B: Table>(board: &mut B) -> bool {
    if made(board, 1, Turn::Submit) != Ok(Seen::Did)
        || made(board, 1, Turn::Collect) != Ok(Seen::Did)
    {
        return false;
    }
    let seen = made(board, 1, Turn::Publish);
    matches!(seen, Ok(Seen::Published(Published::Wrote { .. })))
        && made(board, 1, Turn::Pop) == Ok(Seen::Nothing)
}

fn check_pop<B: Table>(board: &mut B, answer: Answer) -> bool {
    let popped = made(board, 1, Turn::Pop);
    match answer {
        Ok(()) => { popped == Ok(Seen::Did) && check_answered(board) },
        Err(fault) => {
            let refused = StepFault::Device(DeviceFault::Refused(fault));
            popped == Err(refused) && check_stopped(board)
        },
    }
}

impl<'a> Deed for Case<'a> {
    fn is_done<B: Table>(&self, alloc: Global, board: &mut Watched<B>) -> bool {
        let is_popped = self.offers(alloc, board) && check_pop(&mut board.board, self.row.4);
        let left: Option<[u8; 8]> = loaded(&board.board, 1, self.place_left());
        is_popped && left == Some(self.row.5)
    }
}

const PLAIN: Descriptor = (0x4000, 8, 0, 0);

/// Nothing is used.
const UNUSED: [u8; 8] = [0; 8];

/// The chain of the head 0 is used, with a reply of no bytes.
const USED: [u8; 8] = [1, 0, 0, 0, 0, 0, 0, 0];

const TOO_LONG: Answer = Err(ChainFault::TooLong);

const BAD_RANGE: Answer = Err(ChainFault::BadRange);

const ORDER: Answer = Err(ChainFault::Order);

const BAD_TABLE: Answer = Err(ChainFault::BadTable);

#[rattlefmt::skip]
static SPLIT: [Row; 9] = [
    // Two descriptors that name each other, and two entries of a table.
    ((0x4000, 8, NEXT, 1), (0x4000, 8, NEXT, 0), NONE, NONE, TOO_LONG, UNUSED),
    ((TABLE, 32, INDIRECT, 0), NONE, (0x4000, 8, NEXT, 1), (0x4000, 8, NEXT, 0), TOO_LONG, UNUSED),
    // The last byte of the memory, and none behind it.
    ((SIZE - 1, 1, 0, 0), NONE, NONE, NONE, Ok(()), USED),
    ((SIZE, 0, 0, 0), NONE, NONE, NONE, Ok(()), USED),
    // One byte past the memory, and the last address that there is.
    ((SIZE - 1, 2, 0, 0), NONE, NONE, NONE, BAD_RANGE, UNUSED),
    ((u64::MAX, 1, 0, 0), NONE, NONE, NONE, BAD_RANGE, UNUSED),
    // A table in a table.
    ((TABLE, 32, INDIRECT, 0), NONE, (0x4000, 8, INDIRECT, 0), PLAIN, BAD_TABLE, UNUSED),
    // Readable behind writable, in the ring and in a table.
    ((0x4000, 8, WRITE + NEXT, 1), PLAIN, NONE, NONE, ORDER, UNUSED),
    ((TABLE, 32, INDIRECT, 0), NONE, (0x4000, 8, WRITE + NEXT, 1), PLAIN, ORDER, UNUSED),
];

/// The first descriptor is used, with the id 7 and a reply of no bytes.
const ANSWERED: [u8; 8] = [0, 0, 0, 0, 7, 0, 0x80, 0x80];

#[rattlefmt::skip]
static PACKED: [Row; 8] = [
    // NEXT in all four.
    (
        (0x4000, 8, 7, AVAIL + NEXT),
        (0x4000, 8, 7, AVAIL + NEXT),
        NONE,
        NONE,
        TOO_LONG,
        [8, 0, 0, 0, 7, 0, 0x81, 0],
    ),
    ((SIZE - 1, 1, 7, AVAIL), NONE, NONE, NONE, Ok(()), ANSWERED),
    ((SIZE, 0, 7, AVAIL), NONE, NONE, NONE, Ok(()), ANSWERED),
    ((SIZE - 1, 2, 7, AVAIL), NONE, NONE, NONE, BAD_RANGE, [2, 0, 0, 0, 7, 0, 0x80, 0]),
    ((u64::MAX, 1, 7, AVAIL), NONE, NONE, NONE, BAD_RANGE, [1, 0, 0, 0, 7, 0, 0x80, 0]),
    // In a table WRITE is the only flag that counts, so that INDIRECT names no other.
    ((TABLE, 32, 7, AVAIL + INDIRECT), NONE, (0x4000, 8, 0, INDIRECT), PLAIN, Ok(()), ANSWERED),
    (
        (0x4000, 8, 7, AVAIL + WRITE + NEXT),
        (0x4000, 8, 7, AVAIL),
        NONE,
        NONE,
        ORDER,
        [8, 0, 0, 0, 7, 0, 0x83, 0],
    ),
    (
        (TABLE, 32, 7, AVAIL + INDIRECT),
        NONE,
        (0x4000, 8, 0, WRITE),
        PLAIN,
        ORDER,
        [32, 0, 0, 0, 7, 0, 0x84, 0],
    ),
];

fn check_all(alloc: Global, kind: Kind, rows: &[Row]) -> bool {
    let Some(alone) = sight_alone(alloc) else {
        return false;
    };
    for row in rows {
        if !check_beside(alloc, &alone, &Case { kind, row }) {
            return false;
        }
    }
    true
}

#[test]
fn chains_of_a_split_ring(rt: HostRuntime) -> Result<(), Fail> {
    check(
        check_all(rt.alloc(), Kind::Split, &SPLIT),
        "another outcome",
    )
}

#[test]
fn chains_of_a_packed_ring(rt: HostRuntime) -> Result<(), Fail> {
    check(
        check_all(rt.alloc(), Kind::Packed, &PACKED),
        "another outcome",
    )
}
