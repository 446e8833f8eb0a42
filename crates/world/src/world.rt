//! A world: a board through its lives, and what was accepted and published in all of them.
ghost use Rattle.std.specs.Prelude.{◌≡◌, ◌+◌, ℕ, [], length, map, slice_get, option_copied, Option};
ghost use Rattle.std.specs.Prelude.{Some, None, IfSome};
ghost use Rattle.rpmb_frame.specs.declared.config.GuestConfig.{GuestConfig};
ghost use Rattle.rpmb_core.specs.Requests.{partition_after_all};
ghost use Rattle.world.specs.World.{Runs, base_in, partition_in};
ghost use Rattle.world.specs.declared.home.Home.TheVariants.{Down};
ghost use Rattle.disk.specs.CutDisk.{cut_state};
ghost use Rattle.intent_slots.specs.Layout.{capacities_of, image_length};
ghost use Rattle.recovery.specs.Format.{IsFormatted};
ghost use Rattle.world.specs.Headline.{AllHeadlines};
ghost use Rattle.world.specs.Images.{AllKnown, HasImage};
ghost use Rattle.world.specs.InOrder.{AllInOrder, EndsInOrder};
ghost use Rattle.world.specs.Memory.{AllKeptWithout};
ghost use Rattle.world.specs.Records.{asked_by, world_of};

use crate::event::{Event, Refusal};
use crate::home::Home;
use crate::log::{Accepted, Pop, Publication};
use crate::stage::Stage;
use disk::CutDisk;
use rpmb_core::Partition;
use rpmb_frame::BoardConfig;
use std::alloc::Global;
use std::marker::Model;

/// A board over a disk that can fail and be cut, through steps, stops and openings.
#[derive(Drop)]
pub struct World {
    stage: Stage,
}

impl Model for World {
    ghost use Rattle.world.specs.InOrder.{IsTied};
    ghost use Rattle.world.specs.Kept.{IsConsistent};
    ghost use Rattle.world.specs.Records.{IsFit, WorldView, seen_of, world_of};

    ghost Value = { WorldView };

    ghost view = { λ w. seen_of w.stage };

    ghost invariant = { λ w. IsConsistent (world_of (seen_of w.stage)) × IsFit w.stage
        × IsTied (world_of (seen_of w.stage)) };
}

impl World {
    /// A world that is closed: a disk alone, to be opened as an image of this board.
    pub fn new(alloc: Global, disk: CutDisk, config: BoardConfig) -> World
        ensures value { result
            ≡ record { config = config; home = Down disk; bases = []; logs = []; openings = 0 } }
        // A disk that was formatted for this board is an image of it.
        ensures image { length disk.seen ≡ image_length (capacities_of config) → (version : ℕ)
            → IsFormatted version (capacities_of config) (cut_state disk)
            → HasImage (world_of result) }
    {
        let _guests = config.guests(); // for the checker: there are at most 64
        World {
            stage: Stage {
                alloc,
                config,
                home: Some(Home::Down(disk)),
                bases: Vec::new(alloc),
                logs: Vec::new(alloc),
                openings: 0,
            },
        }
    }

    /// Lets these events happen in turn, each of them, and answers the first refusal. A step of a
    /// closed world is nothing and is no refusal, nor is a call that is cut.
    pub fn run(&mut self, events: &[Event]) -> Option<Refusal>
        // Each event is what its name says, and no step is skipped.
        ensures runs { Runs (world_of self.old) events.now result (world_of self.new) }

        // At each event that opened the world each guest has its partition after a prefix of what
        // was accepted, which holds all that any published reply has shown; and at all others that
        // after all of it.
        ensures headline { (run : Runs (world_of self.old) events.now result (world_of self.new))
            → AllHeadlines (world_of self.old) events.now result (world_of self.new) run }

        // Where each stop leaves an image of the board, so it does after each event, and no opening
        // and no upgrade is refused for what the image holds.
        ensures image { HasImage (world_of self.old) → HasImage (world_of self.new) }
        ensures known { HasImage (world_of self.old)
            → (run : Runs (world_of self.old) events.now result (world_of self.new))
            → AllKnown (world_of self.old) events.now result (world_of self.new) run }

        // With IN_ORDER the replies of a queue are published in the order of its pops: at each
        // event of a queue that is ready, and at the end of each that ever was.
        ensures in_order { (run : Runs (world_of self.old) events.now result (world_of self.new))
            → AllInOrder (world_of self.old) events.now result (world_of self.new) run }
        ensures ends_in_order { (run : Runs (world_of self.old) events.now result
            (world_of self.new))
            → EndsInOrder (world_of self.old) events.now result (world_of self.new) run }

        // Memory that is refused to a Pop or a Submit changes nothing.
        ensures memory { (run : Runs (world_of self.old) events.now result (world_of self.new))
            → AllKeptWithout (world_of self.old) events.now result (world_of self.new) run }
    {
        let mut first = None;
        for event in events {
            let refusal = self.stage.happen(event);
            first = first.or(refusal);
        }
        first
    }

    /// A guest's partition now; None in a closed world, and for a guest that the board lacks.
    pub fn partition(&self, guest: u16) -> Option<&Partition>
        ensures value { option_copied result ≡ partition_in self.now.home guest }
        // It is that after what was accepted since its base.
        ensures gives { IfSome (option_copied result)
            (λ p. p ≡ partition_after_all ((world_of self.now).bases guest)
            ((world_of self.now).accepted guest)) }
    {
        match &self.stage.home {
            None => None,
            Some(home) => home.partition(guest),
        }
    }

    /// A guest's partition as the first opening gave it; None before that, and for a guest that the
    /// board lacks.
    pub fn base(&self, guest: u16) -> Option<&Partition>
        ensures { option_copied result ≡ base_in (world_of self.now) guest }
    {
        self.stage.bases.get(usize::from(guest))
    }

    /// What was accepted of a guest since its base, in the order of the Submits; an opening cuts it
    /// to what the partition counts that it gives. Empty for a guest that the board lacks.
    pub fn accepted(&self, guest: u16) -> &[Accepted]
        ensures asked { (c : GuestConfig) → slice_get self.now.config guest ≡ Some c
            → map (asked_by c) result.now ≡ (world_of self.now).accepted guest }
        ensures absent { slice_get self.now.config guest ≡ None → result.now ≡ [] }
    {
        if usize::from(guest) >= self.stage.config.guests().len() {
            return &[];
        }
        match self.stage.logs.get(usize::from(guest)) {
            None => &[],
            Some(log) => log.accepted(),
        }
    }

    /// What was popped of a guest, over all sessions and lives.
    pub fn popped(&self, guest: u16) -> &[Pop]
        ensures { result.now ≡ (world_of self.now).popped guest }
    {
        match self.stage.logs.get(usize::from(guest)) {
            None => &[],
            Some(log) => log.popped(),
        }
    }

    /// What was published to a guest, over all sessions and lives.
    pub fn published(&self, guest: u16) -> &[Publication]
        ensures { result.now ≡ (world_of self.now).published guest }
    {
        match self.stage.logs.get(usize::from(guest)) {
            None => &[],
            Some(log) => log.published(),
        }
    }

    /// How many openings succeeded; it stays at 2^64 - 1.
    pub fn openings(&self) -> u64
        ensures { result ≡ self.now.openings }
    {
        self.stage.openings
    }
}
