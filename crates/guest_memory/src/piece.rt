//! One copy of a part of a guest's memory.
ghost use Rattle.std.specs.Prelude.{◌≡◌, ◌≤◌, ◌<◌, ◌+◌, ◌-◌, ◌^◌, ℕ, List, length, IfOk, true};
ghost use Rattle.guest_memory.specs.Memory.{IsInside, with_bytes, bytes_at};
ghost use Rattle.guest_memory.specs.Piece.{lies_in, IsCopy};

use std::alloc::AllocError;

/// A copy of a part of a guest's memory.
#[derive(Drop)]
pub(crate) struct Piece {
    /// The address of the first byte.
    pub at: u64,
    pub bytes: Vec<u8>,
}

impl Piece {
    /// A copy of these bytes, where there is room: what stands in that goes.
    pub fn of(room: Vec<u8>, at: u64, bytes: &[u8]) -> Result<Piece, AllocError>
        ensures { IfOk result (λ piece. (piece.at ≡ at) × (piece.bytes.items ≡ bytes.now)) }
    {
        let mut copy = room;
        copy.clear();
        copy.extend_from_slice(bytes)?;
        Ok(Piece { at, bytes: copy })
    }

    /// Whether the `len` bytes from the address `at` on all lie in it.
    pub fn has(&self, at: u64, len: u64) -> bool
        ensures { result ≡ lies_in at len self.now }
    {
        self.at <= at && at as u128 + len as u128 <= self.at as u128 + self.bytes.len() as u128
    }

    /// Lends these bytes, which lie in it.
    pub fn part(&self, at: u64, len: u64) -> &[u8]
        requires { lies_in at len self.now ≡ true }
        ensures { (m : List ℕ) → IsCopy m self.now → result.now ≡ bytes_at m at len }
    {
        let start = (at - self.at) as usize;
        &self.bytes[start..start + len as usize]
    }

    /// Makes it the copy of a memory into which these bytes were put.
    pub fn patch(&mut self, at: u64, bytes: &[u8])
        requires here { self.old.at + length self.old.bytes.items < 2 ^ 64 }
        requires there { at + length bytes.now < 2 ^ 64 }
        ensures at { self.new.at ≡ self.old.at }
        ensures size { length self.new.bytes.items ≡ length self.old.bytes.items }
        ensures copy { (m : List ℕ) → IsInside m at (length bytes.now) → IsCopy m self.old
            → IsCopy (with_bytes m at bytes.now) self.new }
    {
        let end = self.at + self.bytes.len() as u64;
        let last = at + bytes.len() as u64;
        if end <= at {
            return;
        }
        if last <= self.at {
            return;
        }
        let from = self.at.max(at);
        let to = end.min(last);
        let start = (from - self.at) as usize;
        let first = (from - at) as usize;
        let count = (to - from) as usize;
        self.bytes[start..start + count].copy_from_slice(&bytes[first..first + count]);
    }
}
