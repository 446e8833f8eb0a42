//! Whether a guest has the partition after what was accepted of it, which holds what it was shown.
use crate::tests::lives::Lives;
use crate::tests::scene::board_of;
use rpmb_core::{OK, Partition, is_change};
use rpmb_frame::{Limits, Request};
use std::alloc::Global;
use world::{Accepted, Publication};

/// The limits of each guest.
fn limits(alloc: Global) -> Option<Limits> {
    let Some(board) = board_of(alloc, 1) else {
        return None;
    };
    match board.guests().first() {
        Some(guest) => Some(Limits::of(guest)),
        None => None,
    }
}

#[tactic(auto, unfolding(rpmb_core::specs::Accept::is_accepted))]
fn accept(partition: &mut Partition, request: &Request<'_>) {
    if is_change(request) && partition.verdict(request) == OK {
        partition.accept(request);
    }
}

/// Puts what was accepted over a partition.
fn replay(partition: &mut Partition, requests: &[Accepted], limits: Limits) {
    for accepted in requests {
        let request = Request::classify(accepted.request(), accepted.writable(), limits);
        accept(partition, &request);
    }
}

fn is_same(one: &Partition, other: &Partition) -> bool {
    for address in 0..512_u16 {
        if one.block(address) != other.block(address) {
            return false;
        }
    }
    one.key() == other.key() && one.counter() == other.counter()
}

/// Whether this is what a base becomes, after all that was accepted.
fn is_after(
    alloc: Global,
    now: &Partition,
    base: &Partition,
    requests: &[Accepted],
    limits: Limits,
) -> bool {
    match base.copy(alloc) {
        Ok(mut partition) => {
            replay(&mut partition, requests, limits);
            is_same(now, &partition)
        }
        Err(_) => false,
    }
}

/// Whether no reply needs more than was accepted.
fn need_at_most(publications: &[Publication], accepted: u64) -> bool {
    for publication in publications {
        if publication.need > accepted {
            return false;
        }
    }
    true
}

fn check_guest<W: Lives>(alloc: Global, world: &W, guest: u16, limits: Limits) -> bool {
    let accepted = world.accepted_of(guest);
    match (world.partition_of(guest), world.base_of(guest)) {
        (Some(now), Some(base)) => {
            need_at_most(world.published_to(guest), accepted.len() as u64)
                && is_after(alloc, now, base, accepted, limits)
        }
        _ => false,
    }
}

/// After so many openings each of so many guests has the partition after what was accepted of it,
/// which holds what its replies needed.
pub fn check_guests<W: Lives>(alloc: Global, world: &W, guests: u16, openings: u64) -> bool {
    let Some(limits) = limits(alloc) else {
        return false;
    };
    for guest in 0..guests {
        if !check_guest(alloc, world, guest, limits) {
            return false;
        }
    }
    world.opened() == openings
}
