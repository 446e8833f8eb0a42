//! What a guest's driver does: it offers the chains of its script, and answers each.
ghost use Rattle.std.specs.Prelude.{◌≡◌, IfOk, OnOk, Ok, Some, true, length, slice_get, vec_len};
ghost use Rattle.guest_driver.specs.Driver.{first_driver};
ghost use Rattle.workers.specs.Driving.{Answers, Drives, Finds, GoesOn, GoesTo, Offers, OffersBy};
ghost use Rattle.workers.specs.Driving.{Steps, TakesOrder, at, begun};
ghost use Rattle.workers.specs.Ends.{LeavesAll, completes, fault_in};
ghost use Rattle.workers.specs.Orders.{chains_in};

use crate::bell::{Actor, Bell, Rest};
use crate::driver::{Driver, DriverEnd};
use crate::order::{Chain, Order};
use crate::seat::{Guest, News, Next, fault_of};
use guest_driver::{DriverConfig, DriverFault};
use host::{Answer, HostFault};
use std::alloc::Global;
use std::sync::{Mutex, Wait};

/// How many chains may be under way: a queue has at most 256 places.
const PLACES: usize = 256;

impl<'a> Driver<'a> {
    /// Looks for the answer to the oldest chain that has none. Whether something came of it.
    fn reap(&mut self, guest: &mut Guest) -> Result<bool, HostFault>
        ensures script { (self.new.script ≡ self.old.script) × (self.new.next ≡ self.old.next) }
        ensures looks { IfOk result
            (λ moved. Answers (at self.old) guest.old moved (at self.new) guest.new) }
    {
        if self.outstanding() == 0 {
            return Ok(false);
        }
        if let Some(stuck) = self.stuck() {
            return self.answer(Answer::Stuck(stuck));
        }
        match guest.look(&mut self.queue).told()? {
            News::Reply(bytes) => self.answer(Answer::Used(bytes)),
            News::NoReply(stuck) => {
                self.stick(stuck);
                Ok(true)
            }
            News::Nothing => Ok(false),
        }
    }

    /// Goes on in the script, where the queue has room; before a reset each chain has to have its
    /// answer.
    fn offer(&mut self, guest: &mut Guest) -> Result<bool, HostFault>
        ensures script { (self.new.script ≡ self.old.script)
            × (self.new.answers ≡ self.old.answers) }
        ensures next { IfOk result (λ moved. Offers self.old.next moved self.new.next) }
        ensures takes { TakesOrder (slice_get self.old.script.now self.old.next) (at self.old)
            guest.old result (at self.new) guest.new }
    {
        let Some(order) = self.order() else {
            return Ok(false);
        };
        match order {
            Order::Chain(chain) => self.offer_chain(guest, order, chain),
            Order::Reset => {
                if self.outstanding() != 0 {
                    return Ok(false);
                }
                let in_service = guest.restart(&mut self.queue);
                self.count_reset(order);
                self.renew(in_service);
                Ok(true)
            }
        }
    }

    /// Offers a chain whole, where the queue has room. Whether it did: out of service it only
    /// counts.
    fn offer_chain(
        &mut self,
        guest: &mut Guest,
        order: &Order,
        chain: &Chain,
    ) -> Result<bool, HostFault>
        requires here { slice_get self.old.script.now self.old.next ≡ Some order.now }
        requires chain { chains_in order.now ≡ 1 }
        ensures script { (self.new.script ≡ self.old.script)
            × (self.new.answers ≡ self.old.answers) × (self.new.stuck ≡ self.old.stuck) }
        ensures next { IfOk result (λ moved. Offers self.old.next moved self.new.next) }
        ensures offered { OffersBy self.old.stuck self.old.outstanding chain.now self.old.queue
            guest.old result self.new.queue guest.new }
    {
        if self.outstanding() >= PLACES {
            return Ok(false);
        }
        if self.stuck().is_none() {
            match guest.offer(&mut self.queue, chain.readable(), chain.writable()) {
                Ok(_) => {}
                Err(DriverFault::NoRoom) if self.outstanding() > 0 => return Ok(false),
                Err(fault) => return Err(fault_of(fault)),
            }
        }
        self.count_chain(order);
        Ok(true)
    }

    /// One answer, and one order, of the guest of this number; of another one's device it is
    /// `Foreign`.
    fn step(&mut self, number: u16, guest: &mut Guest) -> Result<Next, HostFault>
        ensures script { self.new.script ≡ self.old.script }
        ensures drives { IfOk result (λ next.
            Drives (vec_len self.old.answers) self.old.next next (vec_len self.new.answers)
            self.new.next) }
        ensures end { result ≡ Ok Next.End
            → (self.new.next ≡ length self.new.script.now) × (self.new.outstanding ≡ 0) }
        ensures steps { IfOk result (λ next.
            Steps number self.old.script.now (at self.old) guest.old next (at self.new)
            guest.new) }
    {
        if guest.number() != number {
            return Err(HostFault::Foreign);
        }
        let reaped = self.reap(guest)?;
        let offered = self.offer(guest)?;
        if reaped || offered {
            return Ok(Next::Again);
        }
        Ok(if self.is_complete() {
            Next::End
        } else {
            Next::Rest
        })
    }

    /// One look for work, under one lock: answers and orders as long as there are some.
    #[tactic(auto, using(crate::proofs::Going::nowhere, crate::proofs::Going::one_more))]
    fn turn(&mut self, rt: &impl Wait, number: u16, guest: &Mutex<Guest>) -> Result<Next, HostFault>
        ensures script { self.new.script ≡ self.old.script }
        ensures goes_on { IfOk result (λ next.
            GoesOn (vec_len self.old.answers) self.old.next next (vec_len self.new.answers)
            self.new.next) }
        ensures end { result ≡ Ok Next.End
            → (self.new.next ≡ length self.new.script.now) × (self.new.outstanding ≡ 0) }
        ensures goes { OnOk result
            (GoesTo number self.old.script.now (at self.old) (at self.new)) }
    {
        let mut held = guest.lock(rt);
        for i in 0..PLACES {
            match self.step(number, &mut held)? {
                Next::Again => {}
                Next::Rest => return Ok(if i == 0 { Next::Rest } else { Next::Again }),
                Next::End => return Ok(Next::End),
            }
        }
        Ok(Next::Again)
    }

    /// Runs the script to its end, or until all are to end. Whether it came to its end.
    #[tactic(auto, using(crate::proofs::Going::nowhere, crate::proofs::Going::through))]
    fn work<R: Wait>(
        &mut self,
        rt: &R,
        number: u16,
        guest: &Mutex<Guest>,
        bell: &Bell,
        me: Actor,
        worker: Actor,
    ) -> Result<bool, HostFault>
        ensures script { self.new.script ≡ self.old.script }
        ensures end { result ≡ Ok true
            → (self.new.next ≡ length self.new.script.now) × (self.new.outstanding ≡ 0) }
        ensures goes { OnOk result
            (GoesTo number self.old.script.now (at self.old) (at self.new)) }
    {
        let mut rest = Rest::begin(rt, bell, me);
        for _ in rt.forever() {
            if rest.is_stopped() {
                break;
            }
            match self.turn(rt, number, guest)? {
                Next::Again => {
                    bell.ring(rt, worker);
                    rest.went_on(rt, bell);
                }
                Next::Rest => rest.rest(rt, bell),
                Next::End => return Ok(true),
            }
        }
        Ok(false)
    }

    /// Brings the device into service. The number of the guest whose device it is.
    fn begin(&mut self, rt: &impl Wait, guest: &Mutex<Guest>) -> u16
        ensures script { (self.new.script ≡ self.old.script) × (self.new.next ≡ self.old.next)
            × (self.new.outstanding ≡ self.old.outstanding)
            × (self.new.answers ≡ self.old.answers) }
        ensures finds { Finds result self.old.queue.config self.new.stuck }
        ensures queue { self.new.queue ≡ first_driver self.old.queue.config }
    {
        let mut held = guest.lock(rt);
        let number = held.number();
        let in_service = held.begin(&mut self.queue);
        self.renew(in_service);
        number
    }

    /// Brings the device into service, and works. A fault stops all; so does a device that isn't
    /// that of the guest of this number, at the latest at the script's end: the worker refuses its
    /// first job.
    fn run<R: Wait>(
        mut self,
        rt: &R,
        number: u16,
        guest: &Mutex<Guest>,
        bell: &Bell,
        me: Actor,
        worker: Actor,
    ) -> DriverEnd
        requires { at self ≡ begun self.queue.config self.stuck }
        ensures { LeavesAll number self.entry.queue.config result.complete result.answers.items
            self.entry.script.now }
    {
        let found = self.begin(rt, guest);
        let worked = on_own(found, number, self.work(rt, found, guest, bell, me, worker));
        if worked.is_err() {
            bell.stop(rt);
        }
        guest.lock(rt).finish();
        bell.ring(rt, worker);
        end_of(self.into_answers(), worked)
    }
}

/// How a driver of the guest of this number worked that found the device of that one.
fn on_own(found: u16, number: u16, worked: Result<bool, HostFault>) -> Result<bool, HostFault>
    ensures own { found ≡ number → result ≡ worked }
    ensures foreign { OnOk result (found ≡ number) }
{
    match worked {
        Ok(_) if found != number => Err(HostFault::Foreign),
        worked => worked,
    }
}

/// What a driver leaves that has these answers, and worked so.
fn end_of(answers: Vec<Answer>, worked: Result<bool, HostFault>) -> DriverEnd
    ensures answers { result.answers ≡ answers }
    ensures complete { result.complete ≡ completes worked }
    ensures fault { result.fault ≡ fault_in worked }
{
    let (complete, fault) = match worked {
        Ok(complete) => (complete, None),
        Err(fault) => (false, Some(fault)),
    };
    DriverEnd {
        answers,
        complete,
        fault,
    }
}

/// Runs the script of the guest of this number to its end, or until all are to end, by a driver of
/// this configuration. It is `Foreign` where the device is another guest's, and `NoMemory` where no
/// driver can be made; then all are to end.
pub(crate) fn drive<R: Wait>(
    rt: &R,
    alloc: Global,
    number: u16,
    guest: &Mutex<Guest>,
    bell: &Bell,
    me: Actor,
    worker: Actor,
    config: &DriverConfig,
    script: &[Order],
) -> DriverEnd
    ensures { LeavesAll number config.now result.complete result.answers.items script.now }
{
    let Ok(queue) = guest_driver::Driver::new(alloc, config) else {
        bell.stop(rt);
        return end_of(Vec::new(alloc), Err(HostFault::NoMemory));
    };
    Driver::new(alloc, queue, script).run(rt, number, guest, bell, me, worker)
}
