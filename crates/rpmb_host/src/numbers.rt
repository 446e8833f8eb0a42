//! The numbers by which C is told what came of a call.
ghost use Rattle.std.specs.Prelude.{◌≡◌, ◌<◌};
ghost use Rattle.rpmb_host.specs.Numbers.{fault_number, kick_number, told_number, what_number};

use machine::{MachineFault, What};
use mmio_transport::Kick;

/// The number of a refusal, which is never that of none.
pub(crate) fn fault_number(fault: MachineFault) -> u32
    ensures value { result ≡ fault_number fault }
    ensures refused { 0 < result }
{
    match fault {
        MachineFault::NoGuest => 1,
        MachineFault::OutOfRange => 2,
        MachineFault::NoMemory => 3,
        MachineFault::Stopped => 4,
        MachineFault::Busy => 5,
        MachineFault::HistoryFull => 6,
        MachineFault::DiskFault => 7,
        MachineFault::BadBoard => 8,
        MachineFault::NotFormatted => 9,
        MachineFault::OtherConfig => 10,
        MachineFault::BadLength => 11,
        MachineFault::NotAwaited => 12,
        MachineFault::NotAtRest => 13,
        MachineFault::BadState => 14,
    }
}

/// The number of a refusal, or 0.
pub(crate) fn told_number(fault: Option<MachineFault>) -> u32
    ensures { result ≡ told_number fault }
{
    match fault {
        Some(fault) => fault_number(fault),
        None => 0,
    }
}

/// The number of what a write asks for.
pub(crate) fn kick_number(kick: Kick) -> u32
    ensures { result ≡ kick_number kick }
{
    match kick {
        Kick::None => 0,
        Kick::Notify => 1,
        Kick::Reset => 2,
    }
}

/// The number of what a serve needs.
pub(crate) fn what_number(what: What) -> u8
    ensures { result ≡ what_number what }
{
    match what {
        What::Rest => 0,
        What::Read => 1,
        What::Write => 2,
        What::Call => 3,
        What::Again => 4,
    }
}
