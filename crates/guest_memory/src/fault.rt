//! Why a call on guest memory was refused.
ghost use Rattle.std.specs.Prelude.{◌≡◌};

use std::alloc::{AllocError, AllocFailed};
use thiserror::Error;

/// Why a memory was not made, read or written.
#[derive(Debug, Clone, Copy, PartialEq, Eq, Error)]
pub enum MemFault {
    /// The range does not lie in the memory.
    #[error("the range does not lie in the guest's memory")]
    OutOfRange,
    /// There was no room for a memory of that size, or for a copy of what was told.
    #[error("no room for the guest's memory")]
    NoMemory,
}

impl From<AllocError> for MemFault {
    ghost use Rattle.guest_memory.specs.declared.fault.MemFault.TheVariants.{NoMemory};

    ghost from_gives = { λ _ fault. fault ≡ NoMemory };

    fn from(_: AllocError) -> MemFault {
        MemFault::NoMemory
    }
}

impl<T: Drop> From<AllocFailed<T>> for MemFault {
    ghost use Rattle.guest_memory.specs.declared.fault.MemFault.TheVariants.{NoMemory};

    ghost from_gives = { λ _ fault. fault ≡ NoMemory };

    fn from(_: AllocFailed<T>) -> MemFault {
        MemFault::NoMemory
    }
}
