//! Writes that wait for somebody to make them.
ghost use Rattle.std.specs.Prelude.{◌≡◌, true, length, IfOk, option_map};
ghost use Rattle.disk.specs.Outbox.{empty_outbox, first_of, has_room, is_none, put_in, taken_from};
ghost use Rattle.disk.specs.Outbox.{write_seen};

use crate::disk::NoMemory;
use std::alloc::Global;
use std::collections::VecDeque;
use std::marker::Model;

/// How many bytes there is room for.
const ALL_ROOM: usize = 65_536;

/// How many writes may wait.
pub const MOST_WRITES: usize = 256;

/// Where a write goes, and how many bytes it has.
#[derive(Clone, Copy)]
pub(crate) struct Head {
    pub at: u64,
    pub len: usize,
}

/// A write that waits.
#[derive(Clone, Copy)]
pub struct Waiting<'a> {
    /// The offset of its first byte on the disk.
    pub at: u64,
    /// Its bytes, in the order of their offsets.
    pub bytes: &'a [u8],
}

/// Writes that wait, the oldest first, in memory that is taken once.
#[derive(Drop)]
pub(crate) struct Outbox {
    heads: VecDeque<Head>,
    bytes: Vec<u8>,
    /// How many of the bytes are of writes that were taken.
    from: usize,
}

impl Model for Outbox {
    ghost use Rattle.std.specs.Prelude.{vec_capacity};
    ghost use Rattle.std.specs.VecDeque.{deque_capacity};
    ghost use Rattle.disk.specs.Outbox.{IsOutbox, OutboxView, view_of};

    ghost Value = { OutboxView };

    ghost view = { λ o. view_of o.heads.items o.bytes.items o.from };

    ghost invariant = { λ o. IsOutbox o.heads.items o.bytes.items o.from (deque_capacity o.heads)
        (vec_capacity o.bytes) };
}

#[tactic(auto, using(crate::proofs::OutboxLemmas::length_writes), unfolding(
// room for a write, and a write that is put in
crate::specs::Outbox::has_room, crate::specs::Outbox::put_in,
// a write that is taken, and the writes that wait
crate::specs::Outbox::taken_from, crate::specs::Outbox::writes_of,
// how many bytes they have
crate::specs::Outbox::bytes_in))]
impl Outbox {
    /// No write waits, and there is room for 65,536 bytes and 256 writes.
    pub fn new(alloc: Global) -> Result<Outbox, NoMemory>
        ensures { IfOk result (λ outbox. outbox ≡ empty_outbox) }
    {
        let heads = VecDeque::with_capacity(alloc, MOST_WRITES)?;
        let bytes = Vec::with_capacity(alloc, ALL_ROOM)?;
        Ok(Outbox {
            heads,
            bytes,
            from: 0,
        })
    }

    /// Whether a write of so many bytes may wait, too.
    pub fn has_room(&self, count: usize) -> bool
        ensures { result ≡ has_room count self.now }
    {
        count <= ALL_ROOM - self.bytes.len() && self.heads.len() < MOST_WRITES
    }

    /// Puts a write behind all others. It takes no memory.
    pub fn put(&mut self, at: u64, bytes: &[u8])
        requires { has_room (length bytes.now) self.old ≡ true }
        ensures { self.new ≡ put_in at bytes.now self.old }
    {
        match self.bytes.extend_from_slice(bytes) {
            Ok(()) => {}
            Err(_) => unreachable!(),
        }
        self.heads.push_back_reserved(Head {
            at,
            len: bytes.len(),
        });
    }

    /// The oldest write.
    pub fn oldest(&self) -> Option<Waiting<'_>>
        ensures { option_map write_seen result ≡ first_of self.now.writes }
    {
        let head = self.heads.front()?;
        Some(Waiting {
            at: head.at,
            bytes: &self.bytes[self.from..self.from + head.len],
        })
    }

    /// Whether no write waits.
    pub fn is_empty(&self) -> bool
        ensures { result ≡ is_none self.now.writes }
    {
        self.heads.is_empty()
    }

    /// Lets the oldest write go. Once none is left there is all the room again.
    pub fn take(&mut self)
        ensures { self.new ≡ taken_from self.old }
    {
        let Some(head) = self.heads.pop_front() else {
            return;
        };
        self.from += head.len;
        if self.heads.is_empty() {
            self.bytes.clear();
            self.from = 0;
        }
    }
}
