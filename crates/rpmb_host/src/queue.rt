//! A driver's queue, as C gives it.
ghost use Rattle.std.specs.Prelude.{◌≡◌};
ghost use Rattle.rpmb_host.specs.Guests.{areas_of};

use machine::Areas;

/// `struct rpmb_queue` of `rpmb_host.h`.
#[repr(C)]
#[derive(Clone, Copy)]
pub struct RpmbQueue {
    pub descriptors: u64,
    pub driver: u64,
    pub device: u64,
    pub size: u32,
    pub spare: u32,
}

impl RpmbQueue {
    #[tactic(auto, unfolding(crate::specs::Guests::areas_of))]
    pub(crate) fn areas(&self) -> Areas
        ensures { result ≡ areas_of self.now }
    {
        Areas {
            size: self.size,
            descriptors: self.descriptors,
            driver: self.driver,
            device: self.device,
        }
    }
}
