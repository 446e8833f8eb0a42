//! The guests of a board, as C lays them out.
ghost use Rattle.std.specs.Prelude.{◌≡◌, IfOk, OnErr, Err, map};
ghost use Rattle.rpmb_host.specs.Guests.{setup_of};

use machine::{MachineFault, Setup};
use rpmb_frame::GuestConfig;
use std::alloc::Global;

/// One guest: `struct rpmb_guest` of `rpmb_host.h`, which says what each number may be.
#[repr(C)]
#[derive(Clone, Copy)]
pub struct RpmbGuest {
    pub memory: u64,
    pub withheld: u64,
    pub queue: u16,
    pub most: u16,
    pub capacity: u8,
    pub max_wr_cnt: u8,
    pub max_rd_cnt: u8,
    pub platform: u8,
}

impl RpmbGuest {
    #[tactic(auto, unfolding(crate::specs::Guests::setup_of))]
    fn setup(&self) -> Setup
        ensures { result ≡ setup_of self.now }
    {
        Setup {
            config: GuestConfig {
                capacity: self.capacity,
                max_wr_cnt: self.max_wr_cnt,
                max_rd_cnt: self.max_rd_cnt,
                memory: self.memory,
            },
            withheld: self.withheld,
            most: self.most,
            queue: match self.queue {
                0 => None,
                queue => Some(queue),
            },
            platform: self.platform != 0,
        }
    }
}

/// The same guests for a machine. Where memory is refused, `NoMemory`.
pub(crate) fn setups_of(alloc: Global, guests: &[RpmbGuest]) -> Result<Vec<Setup>, MachineFault>
    ensures setups { IfOk result (λ setups. setups.items ≡ map setup_of guests.now) }
    ensures memory { OnErr result (result ≡ Err MachineFault.NoMemory) }
{
    let mut setups = Vec::new(alloc);
    for guest in guests {
        if setups.push(guest.setup()).is_err() {
            return Err(MachineFault::NoMemory);
        }
    }
    Ok(setups)
}
