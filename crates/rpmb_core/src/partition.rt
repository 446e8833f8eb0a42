//! A guest's partition: key, write counter and blocks.
ghost use Rattle.std.specs.Prelude.{◌≡◌, ◌≤◌, ◌+◌, ◌*◌, ◌++◌, ℕ, List, None, true, is_none, IfOk};
ghost use Rattle.std.specs.Prelude.{length, drop, vec_len};
ghost use Rattle.std.specs.Option.{option_copied};
ghost use Rattle.rpmb_frame.specs.Partition.{IsWhole, block_of, overwritten, sequence};
ghost use Rattle.rpmb_frame.specs.Partition.{empty_partition};
ghost use Rattle.rpmb_core.specs.Accept.{is_accepted, partition_after, data_of};

use hmac256::MacKey;
use rpmb_frame::{Command, Frame, Request};
use std::alloc::{AllocError, Global};
use std::marker::Model;

/// Memory was refused.
pub type NoMemory = AllocError;

/// The length of a block in bytes.
const BLOCK_SIZE: usize = 256;

/// The length in bytes of the blocks of one unit of capacity.
const UNIT_SIZE: usize = 131_072;

/// What the device keeps for one guest: its key, its write counter and its blocks.
#[derive(Drop)]
pub struct Partition {
    capacity: u8,
    key: Option<MacKey>,
    counter: u32,
    blocks: Vec<u8>,
}

impl Model for Partition {
    ghost use Rattle.std.specs.Prelude.{◌≡◌, ◌*◌, true, is_none, length};
    ghost use Rattle.rpmb_frame.specs.Partition as model;

    ghost Value = { model.Partition };

    ghost view = { λ p. record {
      capacity = p.capacity;
      key = p.key;
      counter = p.counter;
      blocks = p.blocks.items;
    } };

    ghost invariant = { λ p. (length p.blocks.items ≡ 131072 * p.capacity)
        × (is_none p.key ≡ true → p.counter ≡ 0) };
}

impl Partition {
    /// A partition without a key, of this capacity in units of 128 KiB, with blocks of zeros.
    pub fn new(alloc: Global, capacity: u8) -> Result<Partition, NoMemory>
        ensures { IfOk result (λ p. p ≡ empty_partition capacity) }
    {
        let blocks = vec![in alloc; 0; UNIT_SIZE * usize::from(capacity)]?;
        Ok(Partition {
            capacity,
            key: None,
            counter: 0,
            blocks,
        })
    }

    /// The partition that an opening found: with this key, this write counter, which is 0 without a
    /// key, and these blocks of 256 bytes one after another. It takes no memory.
    pub fn of(capacity: u8, key: Option<[u8; 32]>, counter: u32, blocks: Vec<u8>) -> Partition
        requires blocks { length blocks.items ≡ 131072 * capacity }
        requires counter { is_none key ≡ true → counter ≡ 0 }
        ensures { result
            ≡ record { capacity = capacity; key = key; counter = counter; blocks = blocks.items } }
    {
        let key = match key {
            Some(key) => Some(MacKey::new(&key)),
            None => None,
        };
        Partition {
            capacity,
            key,
            counter,
            blocks,
        }
    }

    /// An equal partition.
    pub fn copy(&self, alloc: Global) -> Result<Partition, NoMemory>
        ensures { IfOk result (λ p. p ≡ self.now) }
    {
        let key = match &self.key {
            Some(key) => Some(key.copy()),
            None => None,
        };
        Ok(Partition {
            capacity: self.capacity,
            key,
            counter: self.counter,
            blocks: Vec::from_slice(alloc, &self.blocks)?,
        })
    }

    /// The capacity in units of 128 KiB, which are 512 blocks of 256 bytes.
    pub fn capacity(&self) -> u8
        ensures value { result ≡ self.now.capacity }
        ensures whole { IsWhole self.now }
    {
        self.capacity
    }

    /// The authentication key, once it was programmed.
    pub fn key(&self) -> Option<[u8; 32]>
        ensures { result ≡ self.now.key }
    {
        match &self.key {
            Some(key) => Some(key.key()),
            None => None,
        }
    }

    /// The write counter; 0 without a key.
    pub fn counter(&self) -> u32
        ensures value { result ≡ self.now.counter }
        ensures without_key { self.now.key ≡ None → result ≡ 0 }
    {
        self.counter
    }

    /// How many requests were accepted: 0 without a key, else one more than the write counter.
    pub fn sequence(&self) -> u64
        ensures { result ≡ sequence self.now }
    {
        match self.key {
            None => 0,
            Some(_) => u64::from(self.counter) + 1,
        }
    }

    /// The block at an address; zeros past the last one.
    pub fn block(&self, address: u16) -> [u8; 256]
        ensures { result ≡ block_of self.now address }
    {
        self.block_at(usize::from(address))
    }

    /// The same by a number that may lie past the 16 bits of an address.
    pub(crate) fn block_at(&self, index: usize) -> [u8; 256]
        requires { index ≤ 65_552 }
        ensures { result ≡ block_of self.now index }
    {
        let mut out = [0; 256];
        self.copy_block(index, &mut out);
        out
    }

    /// Copies the block of this number; zeros past the last one.
    #[tactic(auto, unfolding(rpmb_frame::specs::Partition::block_of))]
    pub(crate) fn copy_block(&self, index: usize, out: &mut [u8])
        requires low { index ≤ 65_552 }
        requires room { length out.old ≡ 256 }
        ensures { out.new ≡ block_of self.now index }
    {
        let at = BLOCK_SIZE * index;
        if at + BLOCK_SIZE <= self.blocks.len() {
            out.copy_from_slice(&self.blocks[at..at + BLOCK_SIZE]);
        } else {
            out.fill(0);
        }
    }

    /// The key with its hashers.
    pub fn mac_key(&self) -> Option<&MacKey>
        ensures { option_copied result ≡ self.now.key }
    {
        self.key.as_ref()
    }

    /// Makes the change of an accepted request: sets the key, or overwrites the blocks and raises
    /// the counter by one.
    #[tactic(auto, unfolding(crate::specs::Accept::is_accepted, crate::specs::Accept::partition_after))]
    pub fn accept(&mut self, request: &Request<'_>)
        requires { is_accepted self.old request.now ≡ true }
        ensures { self.new ≡ partition_after self.old request.now }
    {
        match request.command {
            Command::ProgramKey { frame, .. } => {
                self.key = Some(MacKey::new(&Frame::from_bytes(frame).key_mac()));
                self.counter = 0;
            }
            Command::DataWrite { frames, .. } => {
                let address = Frame::from_bytes(&frames[0]).address();
                write_blocks(&mut self.blocks, BLOCK_SIZE * usize::from(address), frames);
                self.counter += 1;
            }
            _ => {}
        }
    }
}

/// Puts the data of the frames one after another into the bytes from a place on.
fn write_blocks(blocks: &mut [u8], at: usize, frames: &[[u8; 512]])
    requires { at + 256 * length frames.now ≤ length blocks.old }
    ensures { blocks.new ≡ overwritten at (data_of frames.now) blocks.old }
{
    for i in 0..frames.len() {
        let start = at + BLOCK_SIZE * i;
        blocks[start..start + BLOCK_SIZE].copy_from_slice(&frames[i][228..484]);
    }
}
