//! Why a client can't go on.
ghost use Rattle.std.specs.Prelude.{◌≡◌};

use std::alloc::AllocError;
use std::io;

/// Why nothing was made or explained.
#[derive(Clone, Copy)]
pub enum ClientFault {
    /// Memory was refused.
    NoMemory,
    /// A writer took no more.
    FileFault,
}

impl From<AllocError> for ClientFault {
    ghost use Rattle.rpmb_client.specs.declared.fault.ClientFault.TheVariants.{NoMemory};

    ghost from_gives = { λ _ fault. fault ≡ NoMemory };

    fn from(_: AllocError) -> ClientFault {
        ClientFault::NoMemory
    }
}

impl From<io::Error> for ClientFault {
    ghost use Rattle.rpmb_client.specs.declared.fault.ClientFault.TheVariants.{FileFault};

    ghost from_gives = { λ _ fault. fault ≡ FileFault };

    fn from(_: io::Error) -> ClientFault {
        ClientFault::FileFault
    }
}
