//! The flusher: it takes what the book accepted, gives it to the store, and tells the book what is
//! settled.
ghost use Rattle.std.specs.Prelude.{◌≡◌, ◌<◌, IsTrue, None, Ok, OnOk, false, length, slice_get};
ghost use Rattle.std.specs.Prelude.{true};
ghost use Rattle.flusher.specs.Store.{MayGive};
ghost use Rattle.workers.specs.Following.{Follows, IsAtRest};
ghost use Rattle.workers.specs.Keeping.{GivesNext, GivesTaken, LeftBy, LetsKey};

use crate::bell::{Actor, Bell, Rest};
use crate::desk::Desk;
use crate::gate::{Gate, Place, Who};
use crate::known_keys::lets_key;
use crate::seat::Next;
use board::Keeper;
use disk::Disk;
use flusher::{Call, StoreFault};
use host::HostFault;
use intent_slots::Intent;
use std::sync::ledger::Ledger;
use std::sync::{Mutex, Wait};

/// What the flusher keeps to itself: the store's side of the board, and each guest's key after all
/// that the store was given. An intent under another key isn't given to it: the store itself
/// compares it only with those in its slots.
#[derive(Drop)]
pub(crate) struct Flusher<D: Disk> {
    pub keeper: Keeper<D>,
    pub keys: Vec<Option<[u8; 32]>>,
    pub guests: u16,
    /// Whether a call of the disk has failed. The book is told before the next look.
    pub broken: bool,
}

/// What the flusher leaves.
#[derive(Drop)]
pub(crate) struct FlusherEnd<D: Disk> {
    /// The flusher, whose store is given nothing more.
    pub flusher: Flusher<D>,
    /// Whether it ended with no call of the disk left.
    pub complete: bool,
    /// Why it ended before.
    pub fault: Option<HostFault>,
    ghost follows: { fault ≡ None → Follows flusher.keeper },
    ghost rests: { complete ≡ true
        → IsAtRest flusher.keeper.store.broken flusher.keeper.store.guests },
}

impl<D: Disk> Flusher<D> {
    /// Whether an intent is the guest's, comes next in its free slot, and is under its key.
    fn takes(&self, guest: u16, intent: &Intent) -> bool
        ensures own { IsTrue result → intent.now.guest ≡ guest }
        ensures may { IsTrue result → MayGive self.now.keeper.store.guests intent.now }
        ensures lets { IsTrue result
            → LetsKey (slice_get self.now.keys.items guest) intent.now.group.key }
        ensures within { IsTrue result → guest < length self.now.keys.items }
    {
        intent.guest() == guest
            && lets_key(&self.keys, guest, intent.key())
            && self.keeper.store().takes(intent)
    }

    /// Gives the intent in the guest's place to its free slot, where it is that guest's, comes next
    /// there, and is under the guest's key. Whether it does.
    fn give(&mut self, guest: u16) -> bool
        ensures left { LeftBy D.state D.makes self.old self.new }
        ensures gives { result ≡ true → GivesNext guest self.old.keeper self.new.keeper }
    {
        let Some(intent) = self.keeper.intent(guest) else {
            return false;
        };
        if !self.takes(guest, intent) {
            return false;
        }
        self.keys[usize::from(guest)] = Some(*intent.key());
        self.keeper.give(guest)
    }

    /// Takes what waits for one guest, and gives it to the store where a slot of it is free.
    /// Whether it did.
    fn take<L: Ledger>(&mut self, desk: &mut Desk<L>, guest: u16) -> Result<bool, HostFault>
        requires { Follows self.old.keeper }
        ensures follows { OnOk result (Follows self.new.keeper) }
        ensures left { LeftBy D.state D.makes self.old self.new }
        ensures given { result ≡ Ok true → GivesTaken desk.old self.old.keeper.shares guest
            self.old.keeper.store.guests self.new.keeper.store.guests }
    {
        if !self.keeper.store().is_free(guest) {
            return Ok(false);
        }
        match desk.take(&mut self.keeper, guest) {
            Err(_) => Err(HostFault::Foreign),
            Ok(false) => Ok(false),
            Ok(true) => {
                if !self.give(guest) {
                    return Err(HostFault::Foreign);
                }
                Ok(true)
            }
        }
    }

    /// Takes what waits for each guest with a free slot. Whether there was something.
    fn take_all<L: Ledger>(&mut self, desk: &mut Desk<L>) -> Result<bool, HostFault>
        requires { Follows self.old.keeper }
        ensures follows { OnOk result (Follows self.new.keeper) }
        ensures left { LeftBy D.state D.makes self.old self.new }
    {
        let mut moved = false;
        for guest in 0..self.guests {
            if self.take(desk, guest)? {
                moved = true;
            }
        }
        Ok(moved)
    }

    /// Makes the next call of the disk, with no lock held.
    fn call<G: Gate>(&mut self, gate: &G) -> Result<bool, StoreFault>
        requires { Follows self.old.keeper }
        ensures follows { Follows self.new.keeper }
        ensures left { LeftBy D.state D.makes self.old self.new }
    {
        gate.at(Who::Flusher, Place::BeforeCall);
        let made = self.keeper.advance();
        self.broken |= made.is_err();
        made
    }

    /// Tells the book what came of the last call, where it has to hear of it. Whether it had to.
    fn settle<L: Ledger>(
        &mut self,
        rt: &impl Wait,
        desk: &Mutex<Desk<L>>,
    ) -> Result<bool, HostFault>
        requires { Follows self.old.keeper }
        ensures follows { Follows self.new.keeper }
        ensures left { LeftBy D.state D.makes self.old self.new }
    {
        if !self.keeper.has_report() {
            return Ok(false);
        }
        match desk.lock(rt).settle(&mut self.keeper) {
            Ok(told) => Ok(told),
            Err(_) => Err(HostFault::Foreign),
        }
    }

    /// Makes the next call of the disk, and tells the book what came of it. It rings for the
    /// workers whose replies may leave since.
    fn advance<L: Ledger, G: Gate>(
        &mut self,
        rt: &impl Wait,
        desk: &Mutex<Desk<L>>,
        bell: &Bell,
        gate: &G,
    ) -> Result<(), HostFault>
        requires { Follows self.old.keeper }
        ensures follows { Follows self.new.keeper }
        ensures left { LeftBy D.state D.makes self.old self.new }
    {
        let before = self.keeper.store().marks();
        let made = self.call(gate);
        if self.settle(rt, desk)? {
            match made {
                Ok(_) => {
                    let now = self.keeper.store().marks();
                    bell.ring_settled(rt, before.sequences(), now.sequences());
                }
                Err(_) => bell.ring_workers(rt),
            }
        }
        Ok(())
    }

    /// Whether the store has a call of its disk to make.
    fn has_call(&self) -> bool
        ensures left { result ≡ true
            → ¬ IsAtRest self.now.keeper.store.broken self.now.keeper.store.guests }
        ensures rests { result ≡ false
            → IsAtRest self.now.keeper.store.broken self.now.keeper.store.guests }
    {
        self.keeper.store().next_call() != Call::None
    }

    /// One look for work: what waits is taken, unless the store broke, and one call made.
    pub(crate) fn turn<L: Ledger, G: Gate>(
        &mut self,
        rt: &impl Wait,
        desk: &Mutex<Desk<L>>,
        bell: &Bell,
        gate: &G,
        workers_ended: usize,
    ) -> Result<Next, HostFault>
        requires { Follows self.old.keeper }
        ensures follows { OnOk result (Follows self.new.keeper) }
        ensures rests { result ≡ Ok Next.End
            → IsAtRest self.new.keeper.store.broken self.new.keeper.store.guests }
        ensures left { LeftBy D.state D.makes self.old self.new }
    {
        let taken = if self.broken {
            false
        } else {
            self.take_all(&mut desk.lock(rt))?
        };
        if self.has_call() {
            self.advance(rt, desk, bell, gate)?;
            return Ok(Next::Again);
        }
        if taken {
            return Ok(Next::Again);
        }
        Ok(if workers_ended >= usize::from(self.guests) {
            Next::End
        } else {
            Next::Rest
        })
    }

    /// Writes and syncs what the workers submit, until all of them have ended and nothing is left.
    /// Whether it came so far, before all were told to end.
    fn work<L: Ledger, G: Gate>(
        &mut self,
        rt: &impl Wait,
        desk: &Mutex<Desk<L>>,
        bell: &Bell,
        gate: &G,
    ) -> Result<bool, HostFault>
        requires { Follows self.old.keeper }
        ensures follows { OnOk result (Follows self.new.keeper) }
        ensures rests { result ≡ Ok true
            → IsAtRest self.new.keeper.store.broken self.new.keeper.store.guests }
        ensures left { LeftBy D.state D.makes self.old self.new }
    {
        let mut rest = Rest::begin(rt, bell, Actor::flusher());
        for _ in rt.forever() {
            if rest.is_stopped() {
                break;
            }
            match self.turn(rt, desk, bell, gate, rest.workers_ended())? {
                Next::Again => rest.went_on(rt, bell),
                Next::Rest => rest.rest(rt, bell),
                Next::End => return Ok(true),
            }
        }
        Ok(false)
    }

    /// Works to the end. A fault stops all.
    pub(crate) fn run<L: Ledger, G: Gate>(
        mut self,
        rt: &impl Wait,
        desk: &Mutex<Desk<L>>,
        bell: &Bell,
        gate: &G,
    ) -> FlusherEnd<D>
        requires { Follows self.keeper }
        ensures { LeftBy D.state D.makes self result.flusher }
    {
        let (complete, fault) = match self.work(rt, desk, bell, gate) {
            Ok(complete) => (complete, None),
            Err(fault) => {
                bell.stop(rt);
                (false, Some(fault))
            }
        };
        FlusherEnd {
            flusher: self,
            complete,
            fault,
        }
    }
}
