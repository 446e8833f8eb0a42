//! A disk that tells a hook before each sync.
ghost use Rattle.std.specs.Prelude.{◌≡◌};

use crate::disk::{Disk, DiskFault};
use std::marker::Model;

/// What is told that a disk is about to sync.
pub trait Hook: Drop {
    /// A sync comes next. Whatever the hook waits for, the sync waits too.
    fn before_sync(&self);
}

/// A disk that tells its hook before each sync, and is that disk in all else. It is there for tests
/// that look at what other threads do while a sync is under way.
///
/// A contract sees the disk.
#[derive(Drop)]
pub struct HookDisk<D: Disk, H: Hook> {
    disk: D,
    hook: H,
}

impl<D: Disk, H: Hook> Model for HookDisk<D, H> {
    ghost Value = { D };

    ghost view = { λ h. h.disk };
}

impl<D: Disk, H: Hook> HookDisk<D, H> {
    /// That disk, with this hook.
    pub fn new(disk: D, hook: H) -> HookDisk<D, H>
        ensures { result ≡ disk }
    {
        HookDisk { disk, hook }
    }

    /// The disk alone.
    pub fn into_disk(self) -> D
        ensures { result ≡ self }
    {
        self.disk
    }
}

impl<D: Disk, H: Hook> Disk for HookDisk<D, H> {
    ghost state = { λ h. D.state h };

    ghost makes = { λ old call new. D.makes old call new };

    ghost effect = { λ old new call made. D.effect old new call made };

    fn len(&self) -> u64 {
        self.disk.len()
    }

    fn read_at(&mut self, at: u64, out: &mut [u8]) -> Result<(), DiskFault> {
        self.disk.read_at(at, out)
    }

    fn write_at(&mut self, at: u64, bytes: &[u8]) -> Result<(), DiskFault> {
        self.disk.write_at(at, bytes)
    }

    fn sync(&mut self) -> Result<(), DiskFault> {
        self.hook.before_sync();
        self.disk.sync()
    }

    fn failures(&self) -> u64 {
        self.disk.failures()
    }
}
