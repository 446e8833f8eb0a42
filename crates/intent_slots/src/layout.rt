//! Where the parts of an image stand.
ghost use Rattle.std.specs.Prelude.{◌≡◌, ◌≤◌, ◌<◌, ◌+◌, ◌*◌, ◌^◌, length, slice_index};
ghost use Rattle.intent_slots.specs.Layout.{capacities_of, region_at, start_of, image_length};
ghost use Rattle.intent_slots.specs.Layout.{slot_region, other_side, blocks_at, NeverOverlap};
ghost use Rattle.intent_slots.specs.Layout.{AllInside, PartsNeverOverlap, PartsInside};
ghost use Rattle.intent_slots.specs.Layout.{SlotsBetween};

use crate::extent::Extent;
use arrayvec::ArrayVec;
use rpmb_frame::BoardConfig;
use std::marker::Model;

/// The byte of an open gate; any other is shut.
pub const OPEN_GATE: u8 = 0xA5;

/// The byte that shuts a gate.
pub const SHUT_GATE: u8 = 0x00;

/// The offset of the version byte in an image: 2 there means that both slots of each partition are
/// in use, any other byte slot A alone.
pub const VERSION_OFFSET: u64 = 512;

/// The length of the header in bytes: what stands before partition 0.
pub const HEADER_LENGTH: u64 = 1024;

/// The offset of slot A's gate in a partition, in bytes from its first.
pub(crate) const GATE_OFFSET: u64 = 512;

/// The offset of slot A's payload in a partition, in bytes from its first.
pub(crate) const PAYLOAD_OFFSET: u64 = 1024;

/// The length in bytes of a partition's parts before its blocks: the offset of block 0 in it.
pub(crate) const PARTS_LENGTH: u64 = 35_328;

/// The length in bytes of a block.
pub(crate) const BLOCK_LENGTH: u64 = 256;

/// The length in bytes of the blocks of one unit of capacity.
const UNIT_LENGTH: u64 = 131_072;

/// The same as a length in memory.
pub(crate) const UNIT_SIZE: usize = UNIT_LENGTH as usize;

/// The offset of slot B's gate in a partition, in bytes from its first.
pub(crate) const GATE_B_OFFSET: u64 = 17_920;

/// The offset of slot B's payload in a partition, in bytes from its first.
pub(crate) const PAYLOAD_B_OFFSET: u64 = 18_432;

/// One of a partition's two slots. In an image of version 1 nothing reads slot B.
#[derive(Clone, Copy, Debug, PartialEq, Eq)]
pub enum Side {
    /// The slot that intents go through where both are empty.
    A,
    /// The other one.
    B,
}

impl Side {
    /// The other slot.
    pub fn other(self) -> Side
        ensures { result ≡ other_side self }
    {
        match self {
            Side::A => Side::B,
            Side::B => Side::A,
        }
    }
}

/// Where each part of an image stands, in bytes from its first. Contracts see the capacities of the
/// guests.
#[derive(Drop)]
pub struct Layout {
    capacities: ArrayVec<u8, 64>,
}

impl Model for Layout {
    ghost use Rattle.std.specs.Prelude.{List, ℕ};
    ghost use Rattle.intent_slots.specs.Layout.{AreCapacities};

    ghost Value = { List ℕ };

    ghost view = { λ l. l.capacities.items };

    ghost invariant = { λ l. AreCapacities l.capacities.items };
}

impl Layout {
    /// The layout of a board's image. It takes no memory.
    #[tactic(auto, unfolding(crate::specs::Layout::capacities_of))]
    pub fn of(board: &BoardConfig) -> Layout
        ensures { result ≡ capacities_of board.now }
    {
        let mut capacities = ArrayVec::new();
        for guest in board.guests() {
            capacities.push(guest.capacity);
        }
        Layout { capacities }
    }

    /// How many guests the image has: at most 64.
    pub fn guests(&self) -> usize
        ensures value { result ≡ length self.now }
        ensures few { result ≤ 64 }
    {
        self.capacities.len()
    }

    /// The capacities of the guests, in units of 512 blocks of 256 bytes.
    pub(crate) fn capacities(&self) -> &[u8]
        ensures value { result.now ≡ self.now }
        ensures few { length result.now ≤ 64 }
    {
        self.capacities.as_slice()
    }

    /// The length of the image in bytes.
    #[tactic(auto, unfolding(crate::specs::Layout::image_length))]
    pub fn length(&self) -> u64
        ensures value { result ≡ image_length self.now }
        ensures small { result < 2 ^ 31 }
    {
        start(self.capacities.as_slice(), self.capacities.len())
    }

    /// A guest's capacity in units of 512 blocks of 256 bytes: at most 128.
    pub fn capacity(&self, guest: u16) -> u8
        requires { guest < length self.now }
        ensures value { result ≡ slice_index self.now guest }
        ensures in_range { result ≤ 128 }
    {
        self.capacities.as_slice()[usize::from(guest)]
    }

    /// Where a guest's partition stands.
    #[tactic(auto, unfolding(crate::specs::Layout::region_at))]
    pub fn extent(&self, guest: u16) -> Extent
        requires { guest < length self.now }
        ensures { result ≡ region_at self.now guest }
    {
        let base = start(self.capacities.as_slice(), usize::from(guest));
        Extent::new(base, self.capacity(guest))
    }
}

/// Where a partition begins; for the number of partitions, where the image ends.
fn start(capacities: &[u8], guest: usize) -> u64
    requires few { length capacities.now ≤ 64 }
    requires guest { guest ≤ length capacities.now }
    ensures value { result ≡ start_of capacities.now guest }
    ensures small { result < 2 ^ 31 }
{
    let mut at: u64 = HEADER_LENGTH;
    for capacity in &capacities[..guest] {
        at += PARTS_LENGTH + UNIT_LENGTH * u64::from(*capacity);
    }
    at
}

/// Different partitions have no offset in common.
pub fn partitions_never_overlap()
    ensures { NeverOverlap }
{}

/// Each partition lies behind the header, and in the image.
pub fn partitions_lie_inside()
    ensures { AllInside }
{}

/// The parts of a partition have no offset in common, and lie in it; a slot's gate and payload
/// stand between the home record and the blocks.
pub fn parts_never_overlap()
    ensures apart { PartsNeverOverlap }
    ensures inside { PartsInside }
    ensures slots { SlotsBetween }
{}
