//! What the store's intents have, as scenes tell it.

use intent_slots::Intent;

/// What an intent has.
#[derive(Clone, Copy, PartialEq)]
pub struct Group {
    pub requests: usize,
    /// The sequence of the last of them.
    pub sequence: u64,
    /// The write counter before the first.
    pub counter: u32,
    /// The address of the first one's blocks, their length in bytes, and the first and last byte.
    pub address: u16,
    pub length: usize,
    pub first: Option<u8>,
    pub last: Option<u8>,
}

/// What the intent of a key has that is programmed first.
pub const OF_A_KEY: Group = Group {
    requests: 1,
    sequence: 1,
    counter: 0,
    address: 0,
    length: 0,
    first: None,
    last: None,
};

/// What the intent has of the first write, of a block of bytes 0xa5.
pub const OF_A_WRITE: Group = Group {
    requests: 1,
    sequence: 2,
    counter: 1,
    address: 0,
    length: 256,
    first: Some(0xa5),
    last: Some(0xa5),
};

/// What this intent has.
pub fn group_of(intent: &Intent) -> Group {
    let requests = intent.entries();
    let entry = intent.entry(0);
    let blocks = entry.blocks();
    Group {
        requests,
        sequence: intent.last_sequence(),
        counter: intent.first_counter(),
        address: entry.address(),
        length: blocks.len(),
        first: blocks.first().copied(),
        last: blocks.last().copied(),
    }
}
