//! The faults that end the program, and what it prints of them.
ghost use Rattle.std.specs.Prelude.{◌≡◌, Some};
ghost use Rattle.commands.specs.Fault.{fault_of, fault_of_image, fault_text};

use host::HostFault;
use recovery::OpenFault;
use std::fmt;

/// Why a command didn't reach its end.
#[derive(Clone, Copy, Debug, PartialEq, Eq)]
pub enum Fault {
    /// A range of a `store` line doesn't lie in the guest's memory.
    OutOfRange,
    /// Memory was refused.
    NoMemory,
    /// A call of the disk failed.
    DiskFault,
    /// The disk holds no image, or one that isn't whole.
    NotFormatted,
    /// The disk holds the image of another board.
    OtherConfig,
    /// A guest has 64 replies that have not left.
    Busy,
    /// 2^64 - 1 requests were answered, by all guests together.
    HistoryFull,
    /// A guest's driver has too few free descriptors.
    NoRoom,
    /// The board lacks the guest.
    Foreign,
    /// The board file is no board, or names no image where one is needed.
    BadBoard,
    /// This line of the script, counted from 1, is the first that says nothing a script may say.
    BadScript { line: usize },
    /// A file can't be read or made, or isn't UTF-8; or standard output takes no more.
    FileFault,
}

impl Fault {
    /// The fault of what a host didn't do.
    pub(crate) fn of(fault: HostFault) -> Fault
        ensures { result ≡ fault_of fault }
    {
        match fault {
            HostFault::OutOfRange => Fault::OutOfRange,
            HostFault::NoMemory => Fault::NoMemory,
            HostFault::Busy => Fault::Busy,
            HostFault::HistoryFull => Fault::HistoryFull,
            HostFault::NoRoom => Fault::NoRoom,
            HostFault::Foreign => Fault::Foreign,
        }
    }

    /// The fault of an image that isn't made or opened.
    pub(crate) fn of_image(fault: OpenFault) -> Fault
        ensures { result ≡ fault_of_image fault }
    {
        match fault {
            OpenFault::DiskFault => Fault::DiskFault,
            OpenFault::NoMemory => Fault::NoMemory,
            OpenFault::NotFormatted => Fault::NotFormatted,
            OpenFault::OtherConfig => Fault::OtherConfig,
        }
    }
}

impl fmt::Display for Fault {
    ghost output = { λ f. Some (fault_text f) };

    fn fmt<W: fmt::Write>(&self, f: &mut fmt::Formatter<W>) -> fmt::Result {
        match *self {
            Fault::OutOfRange => write!(f, "1 OutOfRange"),
            Fault::NoMemory => write!(f, "2 NoMemory"),
            Fault::DiskFault => write!(f, "10 DiskFault"),
            Fault::NotFormatted => write!(f, "12 NotFormatted"),
            Fault::OtherConfig => write!(f, "13 OtherConfig"),
            Fault::Busy => write!(f, "14 Busy"),
            Fault::HistoryFull => write!(f, "15 HistoryFull"),
            Fault::NoRoom => write!(f, "16 NoRoom"),
            Fault::Foreign => write!(f, "17 Foreign"),
            Fault::BadBoard => write!(f, "19 BadBoard"),
            Fault::BadScript { line } => write!(f, "20 BadScript line {line}"),
            Fault::FileFault => write!(f, "21 FileFault"),
        }
    }
}
