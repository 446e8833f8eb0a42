//! The bytes of one guest's memory.
ghost use Rattle.std.specs.Prelude.{◌≡◌, ◌≤◌, ◌+◌, ◌↔◌, IsTrue, true, false, IsOk, IfOk, OnOk};
ghost use Rattle.std.specs.Prelude.{OnErr, IsErrOf, Err};
ghost use Rattle.std.specs.Prelude.{length, replicate, [], ◌∷◌, ℕ, None, IfSome, ◌<◌, ◌^◌};
ghost use Rattle.guest_memory.specs.Memory.{bytes_at, with_bytes, IsInside, Wrote, Known, holds};
ghost use Rattle.guest_memory.specs.Memory.{IsAsk, IsHeld, IsWhole, kept, told, whole};

use crate::ask::Ask;
use crate::fault::MemFault;
use crate::piece::Piece;
use crate::pieces::{copy_of, find, find_from, have, keep, patch};
use crate::truth::Truth;
use std::alloc::Global;
use std::marker::Model;

/// The memory of one guest, at the addresses from 0 up to its size: all of it, or the parts of
/// which its owner has copied what the guest holds there.
///
/// A contract sees the bytes that the guest's memory holds, as far as they were told, and of which
/// parts there is a copy: no other byte is ever read.
#[derive(Drop)]
pub struct Memory {
    size: u64,
    asks: bool,
    pieces: Vec<Piece>,
    /// Memory of copies that were forgotten, for the next ones.
    spare: Vec<Vec<u8>>,
    truth: Truth,
}

impl Model for Memory {
    ghost use Rattle.std.specs.Prelude.{map};
    ghost use Rattle.guest_memory.specs.Memory.{Known};
    ghost use Rattle.guest_memory.specs.Piece.{span_of, IsMemory};

    ghost Value = { Known };

    ghost view = { λ m. record {
      bytes = m.truth.bytes;
      asks = m.asks;
      held = map span_of m.pieces.items;
    } };

    ghost invariant = { λ m. IsMemory m.size m.asks m.pieces.items m.truth.bytes };
}

impl Memory {
    /// A memory of `size` bytes, all of them zeros, and there.
    ///
    /// Answers `NoMemory` where there is no room for it; a size that no address can reach is such
    /// a one.
    pub fn new(alloc: Global, size: u64) -> Result<Memory, MemFault>
        ensures zeros { IfOk result (λ memory. memory ≡ whole (replicate size 0)) }
        ensures err { OnErr result (IsErrOf result MemFault.NoMemory) }
    {
        let bytes = vec![in alloc; 0u8; size as usize]?;
        let mut pieces = Vec::new(alloc);
        pieces.push(Piece { at: 0, bytes })?;
        let mut truth = Truth::new();
        truth.note(&[0, size], &[]);
        Ok(Memory {
            size,
            asks: false,
            pieces,
            spare: Vec::new(alloc),
            truth,
        })
    }

    /// A memory of `size` bytes, of which there is no copy. It takes no memory.
    pub fn asked(alloc: Global, size: u64) -> Memory
        ensures { result ≡ record { bytes = replicate size 0; asks = true; held = [] } }
    {
        let mut truth = Truth::new();
        truth.note(&[0, size], &[]);
        Memory {
            size,
            asks: true,
            pieces: Vec::new(alloc),
            spare: Vec::new(alloc),
            truth,
        }
    }

    /// The size in bytes, which never changes.
    pub fn size(&self) -> u64
        ensures value { result ≡ length self.now.bytes }
        ensures whole { self.now.asks ≡ false → IsWhole self.now }
    {
        self.size
    }

    /// Whether what there is no copy of has to be told.
    pub fn asks(&self) -> bool
        ensures { result ≡ self.now.asks }
    {
        self.asks
    }

    /// Changes nothing: its clauses say what holds of every memory, whose addresses have 64 bits.
    pub fn what_always_holds(&self)
        ensures addresses { length self.now.bytes < 2 ^ 64 }
        ensures whole { self.now.asks ≡ false → IsWhole self.now }
    {
        let _size = self.size; // for the checker: a look inside gives what holds of it
    }

    /// Whether the `len` bytes from the address `at` on lie in the memory. A range of length 0 does
    /// where `at` is at most the size.
    pub fn contains(&self, at: u64, len: u64) -> bool
        ensures inside { IsTrue result ↔ IsInside self.now.bytes at len }
        ensures held { self.now.asks ≡ false → IsTrue result → IsHeld self.now at len }
    {
        let size = self.size;
        // `at + len` may exceed what 64 bits hold.
        at <= size && len <= size - at
    }

    /// Whether there is a copy of the `len` bytes from the address `at` on, in one piece.
    pub fn holds(&self, at: u64, len: u64) -> bool
        ensures value { result ≡ holds self.now at len }
        ensures inside { result ≡ true → IsInside self.now.bytes at len }
        ensures none { self.now.held ≡ [] → result ≡ false }
    {
        have(&self.pieces, at, len)
    }

    /// The `len` bytes from the address `at` on, where there is no copy of them in one piece. A
    /// range of length 0 is never asked for.
    pub fn lacks(&self, at: u64, len: u64) -> Option<Ask>
        requires { IsInside self.now.bytes at len }
        ensures some { IfSome result (λ ask. IsAsk self.now ask) }
        ensures these { IfSome result (λ ask. (ask.at ≡ at) × (ask.len ≡ len)) }
        ensures none { result ≡ None → 0 < len → IsHeld self.now at len }
    {
        if len == 0 {
            return None;
        }
        if self.holds(at, len) {
            return None;
        }
        Some(Ask { at, len })
    }

    /// Lends the `len` bytes from the address `at` on, without a copy.
    pub fn bytes(&self, at: u64, len: u64) -> &[u8]
        requires { IsHeld self.now at len }
        ensures { result.now ≡ bytes_at self.now.bytes at len }
    {
        match find(&self.pieces, at, len) {
            Some(i) => self.pieces[i].part(at, len),
            None => unreachable!(),
        }
    }

    /// Lends the `len` bytes from the address `at` on, without a copy; `None` where there is none
    /// of them in one piece.
    ///
    /// The search begins with the copy at the place `next`, which is then the one behind what was
    /// found: who looks for parts in the order in which they were told finds each at once.
    pub fn lend(&self, next: &mut usize, at: u64, len: u64) -> Option<&[u8]>
        ensures some { IfSome result (λ bytes. bytes.now ≡ bytes_at self.now.bytes at len) }
        ensures none { result ≡ None → holds self.now at len ≡ false }
    {
        match find_from(&self.pieces, *next, at, len) {
            Some(i) => {
                *next = i + 1;
                Some(self.pieces[i].part(at, len))
            }
            None => None,
        }
    }

    /// Puts `bytes` in place of those from the address `at` on, of which there is a copy.
    pub fn put(&mut self, at: u64, bytes: &[u8])
        requires { IsHeld self.old at (length bytes.now) }
        ensures value { self.new
            ≡ record self.old { bytes = with_bytes self.old.bytes at bytes.now } }
        ensures size { length self.new.bytes ≡ length self.old.bytes }
        // What is there is there whatever the bytes are.
        ensures held { (start count : ℕ) → IsHeld self.old start count
            → IsHeld self.new start count }
    {
        let count = self.pieces.len();
        patch(&mut self.pieces, count, &self.truth, at, bytes);
        self.truth.note(&[at], bytes);
    }

    /// Takes a copy of bytes of a memory that asks.
    fn copy_in(&mut self, alloc: Global, at: u64, bytes: &[u8]) -> Result<(), MemFault>
        requires asks { self.old.asks ≡ true }
        requires inside { IsInside self.old.bytes at (length bytes.now) }
        ensures ok { OnOk result (self.new ≡ told self.old at bytes.now) }
        ensures held { OnOk result (IsHeld self.new at (length bytes.now)) }
        ensures err { OnErr result (IsErrOf result MemFault.NoMemory) }
        ensures unchanged { OnErr result (self.new ≡ self.old) }
    {
        let count = self.pieces.len();
        let piece = copy_of(alloc, &mut self.spare, at, bytes)?;
        self.pieces.push(piece)?;
        patch(&mut self.pieces, count, &self.truth, at, bytes);
        self.truth.note(&[at], bytes);
        Ok(())
    }

    /// Tells what the guest's memory holds from the address `at` on. Of a memory that asks, these
    /// bytes are copied.
    ///
    /// Answers `OutOfRange`, or `NoMemory` where there is no room for the copy, and leaves the
    /// memory as it was.
    pub fn tell(&mut self, alloc: Global, at: u64, bytes: &[u8]) -> Result<(), MemFault>
        ensures ok { OnOk result (self.new ≡ told self.old at bytes.now) }
        ensures inside { OnOk result (IsInside self.old.bytes at (length bytes.now)) }
        ensures held { OnOk result (IsHeld self.new at (length bytes.now)) }
        ensures range { result ≡ Err MemFault.OutOfRange
            → ¬ IsInside self.old.bytes at (length bytes.now) }
        ensures whole { self.old.asks ≡ false
            → (IsOk result ↔ IsInside self.old.bytes at (length bytes.now)) }
        ensures fault { self.old.asks ≡ false → OnErr result (IsErrOf result MemFault.OutOfRange) }
        ensures unchanged { OnErr result (self.new ≡ self.old) }
    {
        if !self.contains(at, bytes.len() as u64) {
            return Err(MemFault::OutOfRange);
        }
        if self.asks() {
            return self.copy_in(alloc, at, bytes);
        }
        self.put(at, bytes);
        Ok(())
    }

    /// Forgets the copies of a memory that asks: what is to be read from now on has to be told.
    pub fn forget(&mut self)
        ensures { self.new ≡ record self.old { held = kept self.old } }
    {
        if self.asks {
            keep(&mut self.pieces, &mut self.spare);
            self.pieces.clear();
        }
    }
}
