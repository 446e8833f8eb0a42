//! Why a call of a monitor was refused.
ghost use Rattle.std.specs.Prelude.{◌≡◌, ◌≢◌};
ghost use Rattle.machine.specs.Opening.{opening_reason};
ghost use Rattle.board.specs.declared.step.StepFault.TheVariants as step_fault;
ghost use Rattle.machine.specs.Ending.{reason_of};

use mmio_transport::DeviceFault;
use recovery::OpenFault;
use rpmb_book::Refused;
use thiserror::Error;

/// Why a call was refused, or the last thing that went wrong in it.
#[derive(Clone, Copy, Debug, PartialEq, Eq, Error)]
pub enum MachineFault {
    /// The board has no such guest.
    #[error("NoGuest")]
    NoGuest,
    /// There is less room than the largest part has.
    #[error("OutOfRange")]
    OutOfRange,
    /// Memory was refused; the same call may succeed later.
    #[error("NoMemory")]
    NoMemory,
    /// The driver broke the rules of its queue: its device waits for a reset.
    #[error("Stopped")]
    Stopped,
    /// The guest has 64 replies that wait: they leave first. A serve takes no chain then, so that
    /// it doesn't come about.
    #[error("Busy")]
    Busy,
    /// The book takes no more jobs: 16,384 stand of which the first hasn't left, or 2^64 - 1 were
    /// answered.
    #[error("HistoryFull")]
    HistoryFull,
    /// A call of the disk failed. Nothing more is accepted in this life.
    #[error("DiskFault")]
    DiskFault,
    /// There are no guests or more than 64, or one is out of its range.
    #[error("BadBoard")]
    BadBoard,
    /// The bytes are no image.
    #[error("NotFormatted")]
    NotFormatted,
    /// They are the image of another board, or the state of another guest.
    #[error("OtherConfig")]
    OtherConfig,
    /// There are more or fewer bytes than the board's image has.
    #[error("BadLength")]
    BadLength,
    /// A success was told where no sync is awaited, or where writes still wait.
    #[error("NotAwaited")]
    NotAwaited,
    /// A chain of the guest waits for its answer, or something is still to be written to its
    /// memory, or to be told to its driver: it is to be served on.
    #[error("NotAtRest")]
    NotAtRest,
    /// The words are no whole state of a device, of this version; or no queue can stand where they
    /// say.
    #[error("BadState")]
    BadState,
}

impl MachineFault {
    /// Why a pop was refused.
    pub(crate) fn of_device(fault: DeviceFault) -> MachineFault
        ensures { result ≡ reason_of (step_fault.Device fault) }
    {
        match fault {
            DeviceFault::NoMemory => MachineFault::NoMemory,
            DeviceFault::Refused(_) => MachineFault::Stopped,
            DeviceFault::NeedsReset => MachineFault::Stopped,
        }
    }

    /// Why the book answered no job.
    pub(crate) fn of_book(refused: Refused) -> MachineFault
        ensures { result ≡ reason_of (step_fault.Book refused) }
    {
        match refused {
            Refused::NoMemory => MachineFault::NoMemory,
            Refused::Busy => MachineFault::Busy,
            Refused::HistoryFull => MachineFault::HistoryFull,
            Refused::Foreign => MachineFault::HistoryFull,
        }
    }

    /// Why an image wasn't opened.
    pub(crate) fn of_opening(fault: OpenFault) -> MachineFault
        ensures value { result ≡ opening_reason fault }
        ensures bad { result ≢ MachineFault.BadBoard }
        ensures length { result ≢ MachineFault.BadLength }
    {
        match fault {
            OpenFault::DiskFault => MachineFault::DiskFault,
            OpenFault::NoMemory => MachineFault::NoMemory,
            OpenFault::NotFormatted => MachineFault::NotFormatted,
            OpenFault::OtherConfig => MachineFault::OtherConfig,
        }
    }
}
