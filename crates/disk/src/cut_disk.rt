//! A disk in memory whose calls can fail, and which a stop can cut.
ghost use Rattle.std.specs.Prelude.{◌≡◌, ◌+◌, ◌-◌, ◌≤◌, ◌&&◌, ◌==◌, not, true, if◌then◌else◌};
ghost use Rattle.std.specs.Prelude.{length, is_ok, IfOk, OnOk, OnErr};
ghost use Rattle.disk.specs.Content.{bytes_at, content_of};
ghost use Rattle.disk.specs.Disk.{DiskState, DiskCall, Read, Write, Sync, Effect, MayLeave};
ghost use Rattle.disk.specs.CutDisk.{cut_state, fresh, goes_on, next_chosen, next_failures};
ghost use Rattle.disk.specs.CutDisk.{succeeds, counted, after_write, after_sync, CutMakes, Stops};

use crate::bytes::{copy_out, keep, mark, put};
use crate::disk::{Disk, DiskFault, NoMemory};
use crate::filler::Filler;
use crate::filling::leave;
use std::alloc::Global;
use std::marker::Model;

/// A disk in memory that can be made to fail and can be cut.
#[derive(Drop)]
pub struct CutDisk {
    seen: Vec<u8>,
    synced: Vec<u8>,
    unsynced: Vec<bool>,
    chosen: u64,
    failures: u64,
}

impl Model for CutDisk {
    ghost use Rattle.disk.specs.CutDisk.{CutState, IsCutDisk};

    ghost Value = { CutState };

    ghost view = { λ d. record {
      seen = d.seen.items;
      synced = d.synced.items;
      unsynced = d.unsynced.items;
      chosen = d.chosen;
      failures = d.failures;
    } };

    ghost invariant = { λ d. IsCutDisk (record {
      seen = d.seen.items;
      synced = d.synced.items;
      unsynced = d.unsynced.items;
      chosen = d.chosen;
      failures = d.failures;
    }) };
}

// Counts one call, and answers whether it goes on.
#[tactic(auto, unfolding(
// whether a call goes on, and the choice after it
crate::specs::CutDisk::goes_on, crate::specs::CutDisk::next_chosen,
// how many have failed after it
crate::specs::CutDisk::next_failures))]
fn counts(chosen: &mut u64, failures: &mut u64) -> bool
    ensures answer { result ≡ goes_on chosen.old failures.old }
    ensures chosen { chosen.new ≡ next_chosen chosen.old failures.old }
    ensures failures { failures.new ≡ next_failures chosen.old failures.old }
{
    if *failures == u64::MAX {
        return false;
    }
    if *chosen == 1 {
        *chosen = 0;
        *failures += 1;
        return false;
    }
    *chosen = chosen.saturating_sub(1);
    true
}

impl CutDisk {
    /// A disk with this content, all of it synced. This is its only growth: it takes the content
    /// over, and makes a copy and a flag for each byte.
    pub fn new(alloc: Global, content: Vec<u8>) -> Result<CutDisk, NoMemory>
        ensures { IfOk result (λ disk. disk ≡ fresh content.items) }
    {
        let synced = content.to_vec(alloc)?;
        let unsynced = vec![in alloc; false; content.len()]?;
        Ok(CutDisk {
            seen: content,
            synced,
            unsynced,
            chosen: 0,
            failures: 0,
        })
    }

    /// What reads give.
    pub fn content(&self) -> &[u8]
        ensures { result.now ≡ self.now.seen }
    {
        self.seen.as_slice()
    }

    /// Makes the k-th call from now on fail, of reads, writes and syncs, counted from 1; an empty
    /// one counts too. It is that one alone, in place of an earlier choice; 0 chooses none. Once
    /// 2^64 - 1 calls have failed, every call fails.
    pub fn fail(&mut self, k: u64)
        ensures { self.new ≡ record self.old { chosen = k } }
    {
        self.chosen = k;
    }

    /// A stop. What it leaves is what reads give from then on, all of it synced. The choice of
    /// `fail` stays.
    pub fn cut(&mut self, filler: &Filler)
        ensures stops { Stops filler.now self.old self.new }
        ensures left { MayLeave (cut_state self.old) (content_of self.new.seen) }
    {
        leave(&mut self.seen, &self.synced, &self.unsynced, filler);
        keep(&self.seen, &mut self.synced, &mut self.unsynced);
    }
}

impl Disk for CutDisk {
    ghost state = { cut_state };

    ghost makes = { CutMakes };

    ghost effect = { λ old new call made. made.effect };

    fn len(&self) -> u64
        ensures { result ≡ length self.now.seen }
    {
        self.seen.len() as u64
    }

    fn read_at(&mut self, at: u64, out: &mut [u8]) -> Result<(), DiskFault>
        requires { at + length out.old ≤ length self.old.seen }
        ensures call { CutMakes self.old (Read (is_ok result)) self.new }
        ensures ok { OnOk result
            (out.new ≡ bytes_at (content_of self.old.seen) at (length out.old)) }
        ensures succeeds { is_ok result ≡ succeeds self.old }
        ensures counted { self.new ≡ counted self.old }
        ensures unchanged { OnErr result (out.new ≡ out.old) }
    {
        if !counts(&mut self.chosen, &mut self.failures) {
            return Err(DiskFault);
        }
        copy_out(&self.seen, at, out);
        Ok(())
    }

    fn write_at(&mut self, at: u64, bytes: &[u8]) -> Result<(), DiskFault>
        requires { at + length bytes.now ≤ length self.old.seen }
        ensures call { CutMakes self.old (Write at bytes.now (is_ok result)) self.new }
        ensures succeeds { is_ok result ≡ succeeds self.old }
        ensures value { self.new ≡ after_write at bytes.now self.old }
    {
        mark(&mut self.unsynced, at, bytes.len());
        if !counts(&mut self.chosen, &mut self.failures) {
            return Err(DiskFault);
        }
        put(&mut self.seen, at, bytes);
        Ok(())
    }

    fn sync(&mut self) -> Result<(), DiskFault>
        ensures call { CutMakes self.old (Sync (is_ok result)) self.new }
        ensures succeeds { is_ok result ≡ succeeds self.old }
        ensures value { self.new ≡ after_sync self.old }
    {
        if !counts(&mut self.chosen, &mut self.failures) {
            return Err(DiskFault);
        }
        keep(&self.seen, &mut self.synced, &mut self.unsynced);
        Ok(())
    }

    fn failures(&self) -> u64
        ensures { result ≡ self.now.failures }
    {
        self.failures
    }
}
