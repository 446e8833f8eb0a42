//! What a world is to those who tell what happens to it.
use crate::tests::acts::Stage;
use crate::tests::image::{Image, image_of};
use crate::tests::scene::board_of;
use rpmb_core::Partition;
use std::alloc::Global;
use std::slice;
use world::{Accepted, Event, Pop, Publication, Refusal, World};

/// A world, and what it tells.
pub trait Lives: Stage {
    fn partition_of(&self, guest: u16) -> Option<&Partition>;

    /// A guest's partition as the first opening gave it.
    fn base_of(&self, guest: u16) -> Option<&Partition>;

    fn accepted_of(&self, guest: u16) -> &[Accepted];

    fn popped_of(&self, guest: u16) -> &[Pop];

    fn published_to(&self, guest: u16) -> &[Publication];

    /// How many openings succeeded.
    fn opened(&self) -> u64;
}

impl Stage for World {
    fn happen(&mut self, event: Event) -> Option<Refusal> {
        self.run(slice::from_ref(&event))
    }
}

impl Lives for World {
    fn partition_of(&self, guest: u16) -> Option<&Partition> {
        self.partition(guest)
    }

    fn base_of(&self, guest: u16) -> Option<&Partition> {
        self.base(guest)
    }

    fn accepted_of(&self, guest: u16) -> &[Accepted] {
        self.accepted(guest)
    }

    fn popped_of(&self, guest: u16) -> &[Pop] {
        self.popped(guest)
    }

    fn published_to(&self, guest: u16) -> &[Publication] {
        self.published(guest)
    }

    fn opened(&self) -> u64 {
        self.openings()
    }
}

/// What happens to a world, and what has to be seen of it.
pub trait Tale {
    fn is_so<W: Lives>(&self, alloc: Global, world: &mut W) -> bool;
}

/// Whether it is so of a world over a fresh image of so many guests. A world is held here alone,
/// since its drop is dear to prove.
pub fn is_told<T: Tale>(alloc: Global, guests: usize, image: Image, tale: &T) -> bool {
    let Some(board) = board_of(alloc, guests) else {
        return false;
    };
    let Some(disk) = image_of(alloc, &board, image) else {
        return false;
    };
    let mut world = World::new(alloc, disk, board);
    tale.is_so(alloc, &mut world)
}
