//! Looks at a guest's queue, and takes what it gives to its end: each chain is popped, answered and
//! published before the next is popped.
ghost use Rattle.std.specs.Prelude.{◌≡◌, ◌<◌, length, max};
ghost use Rattle.queue_looks.specs.Calm.{IsCalm};
ghost use Rattle.queue_looks.specs.Looks.{Looks, LooksOn, OnShare, found_by};

use crate::fault::HostFault;
use crate::settling::settle_reply;
use board::Board;
use disk::Disk;
use mmio_transport::DeviceFault;

/// What looks at a queue came to.
#[derive(Clone, Copy)]
pub enum Look {
    /// No chain was available.
    Nothing,
    /// The device waits for a reset.
    Stopped,
    /// One chain or more was answered, and each reply published.
    Answered,
}

/// Looks once: pops, and takes the job to its publication. A job that was refused before is taken
/// first.
fn look_once<D: Disk>(board: &mut Board<D>, guest: u16) -> Result<Look, HostFault>
    requires calm { IsCalm D.state board.old }
    requires there { guest < length board.old.devices }
    ensures { OnShare D.state D.makes guest (λ s s'. Looks guest s result s') board.old board.new }
{
    match board.pop(guest) {
        Ok(_) => {}
        Err(DeviceFault::NoMemory) => return Err(HostFault::NoMemory),
        Err(DeviceFault::Refused(_)) => return Ok(Look::Stopped),
        Err(DeviceFault::NeedsReset) => return Ok(Look::Stopped),
    }
    match board.submit(guest) {
        Ok(true) => {}
        Ok(false) => return Ok(Look::Nothing),
        Err(refused) => return Err(HostFault::of(refused)),
    }
    settle_reply(board, guest);
    // A reply that is dropped leaves the guest as a device does that answers nothing.
    let _ = board.publish(guest);
    Ok(Look::Answered)
}

/// What looks came to of which so many answered a chain, and the next found none.
fn found_after(answered: u16) -> Look
    ensures { result ≡ found_by answered }
{
    if answered == 0 {
        Look::Nothing
    } else {
        Look::Answered
    }
}

/// Looks until no chain is available: once at least, and `times` times at most. What each look took
/// was published before the next one.
///
/// # Errors
///
/// `NoMemory` where memory was refused; `HistoryFull` where 2^64 - 1 jobs were answered. A job that
/// the book refused stays in the guest's place, and the next look takes it first.
#[tactic(auto, using(crate::proofs::Looks::share_then, crate::proofs::Looks::add_one, crate::proofs::Looks::looks_all))]
pub fn look_on<D: Disk>(board: &mut Board<D>, guest: u16, times: u16) -> Result<Look, HostFault>
    requires calm { IsCalm D.state board.old }
    requires there { guest < length board.old.devices }
    ensures { OnShare D.state D.makes guest
        (λ s s'. LooksOn guest (max 1 times) s result s') board.old board.new }
{
    for answered in 0..times.max(1) {
        match look_once(board, guest)? {
            Look::Answered => {}
            Look::Nothing => return Ok(found_after(answered)),
            Look::Stopped => return Ok(Look::Stopped),
        }
    }
    Ok(Look::Answered)
}
