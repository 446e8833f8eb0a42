//! Why a host didn't do what it was asked for.
ghost use Rattle.std.specs.Prelude.{◌≡◌};
ghost use Rattle.queue_looks.specs.Fault.{fault_of};

use rpmb_book::Refused;
use thiserror::Error;

/// Why a host didn't do what it was asked for.
#[derive(Clone, Copy, Debug, PartialEq, Eq, Error)]
pub enum HostFault {
    /// A range that doesn't lie in the guest's memory.
    #[error("OutOfRange")]
    OutOfRange,
    /// Memory was refused.
    #[error("NoMemory")]
    NoMemory,
    /// A guest has 64 replies that have not left.
    #[error("Busy")]
    Busy,
    /// The history holds 16,384 requests, of which the first hasn't left; or 2^64 - 1 were
    /// answered.
    #[error("HistoryFull")]
    HistoryFull,
    /// The guest's driver has too few free descriptors.
    #[error("NoRoom")]
    NoRoom,
    /// The host lacks the guest.
    #[error("Foreign")]
    Foreign,
}

impl HostFault {
    /// The fault of a job that the book refused.
    pub fn of(refused: Refused) -> HostFault
        ensures { result ≡ fault_of refused }
    {
        match refused {
            Refused::Foreign => HostFault::Foreign,
            Refused::Busy => HostFault::Busy,
            Refused::HistoryFull => HostFault::HistoryFull,
            Refused::NoMemory => HostFault::NoMemory,
        }
    }
}
