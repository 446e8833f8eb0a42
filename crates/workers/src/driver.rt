//! What a guest's driver keeps to itself.
ghost use Rattle.std.specs.Prelude.{◌≡◌, ◌+◌, ◌≤◌, ◌<◌, ◌++◌, ◌∷◌, [], true, length, take, vec_len};
ghost use Rattle.std.specs.Prelude.{if◌then◌else◌, IfOk, IsTrue, None, Some, slice_get};
ghost use Rattle.std.specs.Option.{option_copied};
ghost use Rattle.workers.specs.Orders.{chain_orders, chains_in};

use crate::order::Order;
use host::{Answer, HostFault, Stuck};
use std::alloc::Global;

/// A guest's driver: its half of the queue, how far it is in its script, how many of its chains
/// have no answer yet, and the answers to the others, in the order of the script.
#[derive(Drop)]
pub(crate) struct Driver<'a> {
    /// The driver's half of the queue.
    pub(crate) queue: guest_driver::Driver,
    script: &'a [Order],
    next: usize,
    outstanding: usize,
    answers: Vec<Answer>,
    /// Why it offers nothing until its reset.
    stuck: Option<Stuck>,
    ghost within: { next ≤ length script.now },
    ghost counted: { vec_len answers + outstanding ≡ chain_orders (take next script.now) },
}

/// What a driver leaves.
#[derive(Drop)]
pub struct DriverEnd {
    /// What became of its chains, in the order of the script.
    pub answers: Vec<Answer>,
    /// Whether it came to the end of its script, with an answer to each chain.
    pub complete: bool,
    /// Why it ended before.
    pub fault: Option<HostFault>,
}

impl<'a> Driver<'a> {
    /// A driver of this script that has done nothing yet.
    pub(crate) fn new(alloc: Global, queue: guest_driver::Driver, script: &'a [Order]) -> Driver<'a>
        ensures script { (result.script ≡ script.entry) × (result.queue ≡ queue) }
        ensures begun { (result.next ≡ 0) × (result.outstanding ≡ 0) × (result.answers.items ≡ []) }
    {
        Driver {
            queue,
            script,
            next: 0,
            outstanding: 0,
            answers: Vec::new(alloc),
            stuck: None,
        }
    }

    /// Whether the device came into service: if not, no chain has an answer until a reset.
    pub(crate) fn renew(&mut self, in_service: bool)
        ensures stays { (self.new.script ≡ self.old.script) × (self.new.next ≡ self.old.next)
            × (self.new.outstanding ≡ self.old.outstanding)
            × (self.new.answers ≡ self.old.answers) × (self.new.queue ≡ self.old.queue) }
        ensures stuck { self.new.stuck ≡ (if in_service then None else Some Stuck.NoAnswer) }
    {
        self.stuck = if in_service {
            None
        } else {
            Some(Stuck::NoAnswer)
        };
    }

    /// No chain has a reply any more, until a reset.
    pub(crate) fn stick(&mut self, stuck: Stuck)
        ensures stays { (self.new.script ≡ self.old.script) × (self.new.next ≡ self.old.next)
            × (self.new.outstanding ≡ self.old.outstanding)
            × (self.new.answers ≡ self.old.answers) × (self.new.queue ≡ self.old.queue) }
        ensures stuck { self.new.stuck ≡ Some stuck }
    {
        self.stuck = Some(stuck);
    }

    /// The oldest chain without an answer has this one.
    pub(crate) fn answer(&mut self, answer: Answer) -> Result<bool, HostFault>
        requires { 0 < self.old.outstanding }
        ensures stays { (self.new.script ≡ self.old.script) × (self.new.next ≡ self.old.next)
            × (self.new.stuck ≡ self.old.stuck) × (self.new.queue ≡ self.old.queue) }
        ensures last { IfOk result (λ moved. (moved ≡ true)
            × (self.new.answers.items ≡ self.old.answers.items ++ answer ∷ [])) }
    {
        if self.answers.reserve(1).is_err() {
            return Err(HostFault::NoMemory);
        }
        self.answers.push_reserved(answer);
        self.outstanding -= 1;
        Ok(true)
    }

    /// How many of its chains have no answer yet.
    pub(crate) fn outstanding(&self) -> usize
        ensures { result ≡ self.now.outstanding }
    {
        self.outstanding
    }

    /// Why it offers nothing until its reset.
    pub(crate) fn stuck(&self) -> Option<Stuck>
        ensures { result ≡ self.now.stuck }
    {
        self.stuck
    }

    /// The order that comes next.
    pub(crate) fn order(&self) -> Option<&'a Order>
        ensures { option_copied result ≡ slice_get self.now.script.now self.now.next }
    {
        self.script.get(self.next)
    }

    /// The next order's chain is under way.
    #[tactic(auto, using(crate::proofs::Counting::counted))]
    pub(crate) fn count_chain(&mut self, order: &Order)
        requires here { slice_get self.old.script.now self.old.next ≡ Some order.now }
        requires chain { chains_in order.now ≡ 1 }
        requires room { self.old.outstanding < 256 }
        ensures script { (self.new.script ≡ self.old.script)
            × (self.new.answers ≡ self.old.answers) × (self.new.queue ≡ self.old.queue) }
        ensures next { (self.new.next ≡ self.old.next + 1) × (self.new.stuck ≡ self.old.stuck) }
    {
        self.outstanding += 1;
        self.next += 1;
    }

    /// The next order was a reset.
    #[tactic(auto, using(crate::proofs::Counting::counted))]
    pub(crate) fn count_reset(&mut self, order: &Order)
        requires here { slice_get self.old.script.now self.old.next ≡ Some order.now }
        requires reset { chains_in order.now ≡ 0 }
        ensures script { (self.new.script ≡ self.old.script)
            × (self.new.answers ≡ self.old.answers) × (self.new.queue ≡ self.old.queue) }
        ensures next { (self.new.next ≡ self.old.next + 1) × (self.new.stuck ≡ self.old.stuck) }
    {
        let _ = order; // for the checker: clauses name it
        self.next += 1;
    }

    /// Whether the script is at its end, and each chain has its answer.
    #[tactic(auto, using(crate::proofs::Counting::take_whole))]
    pub(crate) fn is_complete(&self) -> bool
        ensures end { IsTrue result
            → (self.now.next ≡ length self.now.script.now) × (self.now.outstanding ≡ 0) }
        ensures all { IsTrue result → vec_len self.now.answers ≡ chain_orders self.now.script.now }
    {
        self.next == self.script.len() && self.outstanding == 0
    }

    /// Its answers.
    pub(crate) fn into_answers(self) -> Vec<Answer>
        ensures { result ≡ self.entry.answers }
    {
        let Driver {
            queue: _,
            script: _,
            next: _,
            outstanding: _,
            answers,
            stuck: _,
        } = self;
        answers
    }
}
