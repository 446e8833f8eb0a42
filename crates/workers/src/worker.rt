//! A guest's worker: it pops, submits, and publishes what may leave.
ghost use Rattle.std.specs.Prelude.{◌≡◌, ◌+◌, IfOk};
ghost use Rattle.workers.specs.Turns.{Flows, IsNext, Works};

use crate::backlog::{Backlog, Served};
use crate::bell::{Actor, Rest};
use crate::desk::Desk;
use crate::gate::{Gate, Place, Who};
use crate::seat::{Guest, Next, Seat};
use host::HostFault;
use rpmb_book::Tally;
use std::alloc::Global;
use std::sync::ledger::{Ledger, Share};
use std::sync::{Mutex, Wait};

/// What an exchange with the guest came to.
#[derive(Clone, Copy)]
struct Exchange {
    published: usize,
    popped: usize,
    /// Whether the driver's thread has ended.
    finished: bool,
    /// Whether the device stopped in it.
    stopped: bool,
}

/// What a look at the book came to.
#[derive(Clone, Copy)]
struct Consulted {
    answered: usize,
    collected: usize,
    /// Whether a job waits for room in the history.
    full: bool,
    /// Whether something waits for the flusher.
    waits: bool,
}

/// A guest's worker.
#[derive(Drop)]
pub struct Worker<L: Ledger> {
    backlog: Backlog<L>,
    fault: Option<HostFault>,
}

impl<L: Ledger> Worker<L> {
    /// A worker that has submitted nothing.
    pub(crate) fn new(alloc: Global, tally: Tally, share: Share<L>) -> Worker<L>
        requires part { share.parts ≡ 1 }
        requires none { share.amount ≡ 0 }
        requires fresh { tally.count ≡ 0 }
        ensures { result.backlog.tally ≡ tally }
    {
        Worker {
            backlog: Backlog::new(alloc, tally, share),
            fault: None,
        }
    }

    /// Hands what left the book to the device, and pops what is offered, under the guest's lock.
    /// What was done before a refusal of memory stays.
    fn exchange(
        &mut self,
        rt: &impl Wait,
        alloc: Global,
        guest: &Mutex<Guest>,
    ) -> Result<Exchange, HostFault>
        ensures tally { self.new.backlog.tally ≡ self.old.backlog.tally }
        ensures jobs { IfOk result
            (λ e. Flows self.old.backlog.jobs.items e.popped 0 self.new.backlog.jobs.items) }
        ensures replies { IfOk result (λ e.
            Flows self.old.backlog.dones.items 0 e.published self.new.backlog.dones.items) }
    {
        let mut held = guest.lock(rt);
        let stopped = held.is_stopped();
        let published = self.backlog.publish_all(&mut held);
        let popped = self.backlog.pop_all(alloc, &mut held)?;
        Ok(Exchange {
            published,
            popped,
            finished: held.is_finished(),
            stopped: held.is_stopped() && !stopped,
        })
    }

    /// Submits what was popped, and collects what may leave, under the desk's lock.
    fn consult(
        &mut self,
        rt: &impl Wait,
        desk: &Mutex<Desk<L>>,
        alloc: Global,
    ) -> Result<Consulted, HostFault>
        ensures guest { self.new.backlog.tally.guest ≡ self.old.backlog.tally.guest }
        ensures count { IfOk result
            (λ c. self.new.backlog.tally.count ≡ self.old.backlog.tally.count + c.answered) }
        ensures jobs { IfOk result
            (λ c. Flows self.old.backlog.jobs.items 0 c.answered self.new.backlog.jobs.items) }
        ensures replies { IfOk result (λ c.
            Flows self.old.backlog.dones.items c.collected 0 self.new.backlog.dones.items) }
    {
        if !self.backlog.needs_book() {
            return Ok(Consulted {
                answered: 0,
                collected: 0,
                full: false,
                waits: false,
            });
        }
        let mut held = desk.lock(rt);
        let (answered, full) = self.backlog.submit_all(&mut held, alloc)?;
        let collected = self.backlog.collect_all(&mut held)?;
        self.backlog.learn(&held);
        Ok(Consulted {
            answered,
            collected,
            full,
            waits: answered > 0 && held.has_waiting(self.backlog.number()),
        })
    }

    /// Tells the gate so often that the thread stands there.
    fn tell<G: Gate>(&self, gate: &G, place: Place, count: usize) {
        for _ in 0..count {
            gate.at(Who::Worker(self.number()), place);
        }
    }

    /// Rings for those who may wait for what the worker did.
    fn ring(&self, rt: &impl Wait, seat: &Seat<'_, L>, consulted: Consulted) {
        if consulted.waits {
            seat.bell.ring(rt, Actor::flusher());
        }
        if consulted.full {
            seat.bell.want_room(rt);
        }
    }

    /// What comes after such a look: another, where something came of it.
    fn next_after(&self, exchange: Exchange, consulted: Consulted) -> Next
        ensures { IsNext result exchange.popped consulted.answered consulted.collected
            exchange.published
            self.now.backlog.jobs.items self.now.backlog.dones.items }
    {
        if exchange.published > 0 || exchange.popped > 0 {
            return Next::Again;
        }
        if consulted.answered > 0 || consulted.collected > 0 {
            return Next::Again;
        }
        if exchange.finished && self.backlog.is_empty() {
            Next::End
        } else {
            Next::Rest
        }
    }

    /// One look for work, under one lock after the other: the guest's, and the desk's. No lock is
    /// held where the gate is told, nor where a MAC is made.
    pub(crate) fn turn<G: Gate>(
        &mut self,
        rt: &impl Wait,
        alloc: Global,
        seat: &Seat<'_, L>,
        gate: &G,
    ) -> Result<Next, HostFault>
        ensures guest { self.new.backlog.tally.guest ≡ self.old.backlog.tally.guest }
        ensures works { IfOk result (λ next. Works next
            self.old.backlog.tally.count self.old.backlog.jobs.items self.old.backlog.dones.items
            self.new.backlog.tally.count self.new.backlog.jobs.items self.new.backlog.dones.items) }
    {
        let exchange = self.exchange(rt, alloc, seat.guest)?;
        self.tell(gate, Place::Published, exchange.published);
        self.tell(gate, Place::Popped, exchange.popped);
        if exchange.published > 0 || exchange.stopped {
            seat.bell.ring_left(rt, seat.driver);
        }
        self.backlog.prepare(alloc);
        let consulted = self.consult(rt, seat.desk, alloc)?;
        self.backlog.close();
        self.tell(gate, Place::Submitted, consulted.answered);
        self.ring(rt, seat, consulted);
        Ok(self.next_after(exchange, consulted))
    }

    /// Looks for work until the guest's driver has ended and nothing is left, or all are to end.
    pub(crate) fn run<G: Gate>(
        mut self,
        rt: &impl Wait,
        alloc: Global,
        seat: &Seat<'_, L>,
        gate: &G,
    ) -> Worker<L>
        ensures { result.backlog.tally.guest ≡ self.backlog.tally.guest }
    {
        let mut rest = Rest::begin(rt, seat.bell, seat.worker);
        for _ in rt.forever() {
            if rest.is_stopped() {
                break;
            }
            match self.turn(rt, alloc, seat, gate) {
                Ok(Next::Again) => rest.went_on(rt, seat.bell),
                Ok(Next::Rest) => rest.rest(rt, seat.bell),
                Ok(Next::End) => break,
                Err(fault) => {
                    self.fail(fault);
                    seat.bell.stop(rt);
                    break;
                }
            }
        }
        seat.bell.leave(rt);
        self
    }

    fn fail(&mut self, fault: HostFault)
        ensures { self.new.backlog ≡ self.old.backlog }
    {
        self.fault = Some(fault);
    }

    /// Its share, and what it leaves.
    pub(crate) fn into_served(self) -> (Share<L>, Served)
        ensures part { result.0.parts ≡ 1 }
        ensures counted { result.0.amount ≡ result.1.tally.count }
        ensures tally { result.1.tally ≡ self.backlog.tally }
    {
        let Worker { backlog, fault: _ } = self;
        backlog.into_served()
    }

    /// The number of its guest.
    pub(crate) fn number(&self) -> u16
        ensures { result ≡ self.now.backlog.tally.guest }
    {
        self.backlog.number()
    }

    /// Why it ended before its guest's driver, where it did.
    pub(crate) fn fault(&self) -> Option<HostFault>
        ensures { result ≡ self.now.fault }
    {
        self.fault
    }
}
