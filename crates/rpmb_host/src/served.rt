//! What a call of `rpmb_serve` came to, as C reads it.
ghost use Rattle.std.specs.Prelude.{◌≡◌, ◌%◌};
ghost use Rattle.rpmb_host.specs.Numbers.{flag, told_number, what_number};

use crate::numbers::{told_number, what_number};
use machine::Served;

/// `struct rpmb_next` of `rpmb_host.h`.
#[repr(C)]
#[derive(Clone, Copy)]
pub struct RpmbNext {
    pub at: u64,
    pub len: u32,
    pub fault: u32,
    pub what: u8,
    pub sync: u8,
    pub waiting: u8,
    pub spare: [u8; 5],
}

fn flag(is_set: bool) -> u8
    ensures { result ≡ flag is_set }
{
    if is_set { 1 } else { 0 }
}

impl RpmbNext {
    pub(crate) fn of(served: Served) -> RpmbNext
        ensures at { result.at ≡ served.at }
        ensures len { result.len ≡ served.len % 4294967296 }
        ensures fault { result.fault ≡ told_number served.fault }
        ensures what { result.what ≡ what_number served.what }
        ensures sync { result.sync ≡ flag served.sync }
        ensures waiting { result.waiting ≡ flag served.waiting }
    {
        RpmbNext {
            at: served.at,
            len: (served.len % 4_294_967_296) as u32,
            fault: told_number(served.fault),
            what: what_number(served.what),
            sync: flag(served.sync),
            waiting: flag(served.waiting),
            spare: [0; 5],
        }
    }
}
