//! A disk in memory.
ghost use Rattle.std.specs.Prelude.{◌≡◌, ◌+◌, ◌≤◌, true, length, is_ok, IsOk, OnOk};
ghost use Rattle.disk.specs.Content.{bytes_at, content_of, overwritten};
ghost use Rattle.disk.specs.Disk.{DiskState, DiskCall, Read, Write, Sync, Effect};
ghost use Rattle.disk.specs.MemDisk.{mem_state, MemMakes};

use crate::bytes::{copy_out, put};
use crate::disk::{Disk, DiskFault};
use std::marker::Model;

/// A disk in memory that never fails. Each write is on it at once, so a stop leaves what reads
/// give.
///
/// A contract sees it as the list of its bytes.
#[derive(Drop)]
pub struct MemDisk {
    content: Vec<u8>,
}

impl Model for MemDisk {
    ghost use Rattle.std.specs.Prelude.{List, ℕ};

    ghost Value = { List ℕ };

    ghost view = { λ d. d.content.items };
}

impl MemDisk {
    /// The disk with these bytes.
    pub fn new(content: Vec<u8>) -> MemDisk
        ensures { result ≡ content.items }
    {
        MemDisk { content }
    }

    /// What reads give.
    pub fn content(&self) -> &[u8]
        ensures { result.now ≡ self.now }
    {
        &self.content
    }
}

impl Disk for MemDisk {
    ghost state = { mem_state };

    ghost makes = { MemMakes };

    ghost effect = { λ old new call made. made.effect };

    fn len(&self) -> u64
        ensures { result ≡ length self.now }
    {
        self.content.len() as u64
    }

    fn read_at(&mut self, at: u64, out: &mut [u8]) -> Result<(), DiskFault>
        requires { at + length out.old ≤ length self.old }
        ensures call { MemMakes self.old (Read (is_ok result)) self.new }
        ensures succeeds { IsOk result }
        ensures value { out.new ≡ bytes_at (content_of self.old) at (length out.old) }
        ensures unchanged { self.new ≡ self.old }
    {
        copy_out(&self.content, at, out);
        Ok(())
    }

    #[tactic(auto, using(crate::proofs::MemCalls::makes_write))]
    fn write_at(&mut self, at: u64, bytes: &[u8]) -> Result<(), DiskFault>
        requires { at + length bytes.now ≤ length self.old }
        ensures call { MemMakes self.old (Write at bytes.now (is_ok result)) self.new }
        ensures succeeds { IsOk result }
        ensures value { self.new ≡ overwritten at bytes.now self.old }
    {
        put(&mut self.content, at, bytes);
        Ok(())
    }

    fn sync(&mut self) -> Result<(), DiskFault>
        ensures call { MemMakes self.old (Sync (is_ok result)) self.new }
        ensures succeeds { IsOk result }
        ensures unchanged { self.new ≡ self.old }
    {
        // Nothing waits for a sync here.
        Ok(())
    }

    fn failures(&self) -> u64
        ensures { result ≡ 0 }
    {
        0
    }
}
