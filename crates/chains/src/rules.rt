//! What a kind of ring brings of its own.
ghost use Rattle.std.specs.Prelude.{◌≡◌, ◌≤◌, ◌<◌, ◌+◌, ◌*◌, ◌^◌, ◌↔◌, ℕ, Bool, false, IsTrue};
ghost use Rattle.std.specs.Prelude.{List};
ghost use Rattle.std.specs.Prelude.{Option, None, Result, length, IfSome};
ghost use Rattle.guest_memory.specs.Memory.{IsAsk, IsInside, Known};
ghost use Rattle.chains.specs.Building.{AsksOnly, StandsOn};
ghost use Rattle.chains.specs.Needs.{LiesIn};
ghost use Rattle.guest_memory.specs.declared.ask.Ask.{Ask};
ghost use Rattle.chains.specs.declared.places.Places.{Places};
ghost use Rattle.chains.specs.declared.descriptor.Shape.{Shape};
ghost use Rattle.chains.specs.declared.fault.ChainFault.{ChainFault};
ghost use Rattle.chains.specs.Walk.{Found, Member};
ghost use Rattle.chains.specs.Ring.{RingState};
ghost use Rattle.chains.specs.Start.{Starts, descriptors_of, found_from, members_from};

use crate::counts::Counts;
use crate::descriptor::{Descriptors, Shape};
use crate::fault::RingFault;
use crate::places::Places;
use crate::popped::Used;
use guest_memory::{Ask, Memory};

/// What sets one kind of ring apart from the other: its sizes and areas, where its next chain
/// begins, and what its device writes for the driver.
pub trait Rules: Drop {
    /// A ring may stand here, and have so many entries.
    ghost is_ring: { Places → ℕ → Type 0 };

    /// Whether a ring may stand here, and have so many entries.
    fn is_ring(places: &Places, size: u16) -> bool
        ensures { IsTrue result ↔ is_ring places.now size };

    /// The ring's areas lie in a memory of this size.
    ghost areas: { ℕ → RingState → Type 0 };

    /// Whether the ring's areas lie in the memory.
    fn lies_in(ring: &Counts, memory: &Memory) -> bool
        ensures { IsTrue result ↔ areas (length memory.now.bytes) ring.now };

    /// What is asked for lies in one of them.
    ghost of_area: { RingState → Ask → Type 0 };

    /// How the ring's descriptors are laid out.
    ghost shape: { Shape };

    /// The ring's descriptors.
    fn descriptors(ring: &Counts, memory: &Memory) -> Descriptors
        requires sound { is_ring ring.now.places ring.now.size }
        requires areas { areas (length memory.now.bytes) ring.now }
        ensures value { result ≡ descriptors_of shape ring.now }
        ensures inside { IsInside memory.now.bytes result.base (16 * result.limit) }
        ensures some { 0 < result.limit }
        ensures small { result.limit ≤ 2 ^ 15 };

    /// Where the chain at the place after those popped begins among the descriptors.
    ghost start: { List ℕ → RingState → Result (Option ℕ) ChainFault };

    /// What stands at the place after those popped: nothing, a fault, or a chain.
    ghost next: { List ℕ → RingState → Result (Option Found) ChainFault };

    /// The members of that chain.
    ghost members: { List ℕ → RingState → List Member };

    /// There is a copy of what says whether that place is available.
    ghost seen: { Known → RingState → Type 0 };

    /// Where the chain at the place after those popped begins; `None` where that place isn't
    /// available.
    ///
    /// What is to be read first is asked for first: the driver wrote it last.
    fn start(ring: &Counts, memory: &Memory) -> Result<Option<u16>, RingFault>
        requires sound { is_ring ring.now.places ring.now.size }
        requires areas { areas (length memory.now.bytes) ring.now }
        ensures starts { Starts (start memory.now.bytes ring.now) result }
        ensures asks { AsksOnly memory.now (of_area ring.now) result }
        ensures seen { StandsOn (seen memory.now ring.now) result };

    /// The memory with what a pop writes for the driver.
    ghost event: { List ℕ → RingState → List ℕ };

    /// What a pop writes is there to be written.
    ghost event_held: { Known → RingState → Type 0 };

    /// What of it isn't there.
    fn event_lacks(ring: &Counts, memory: &Memory) -> Option<Ask>
        requires areas { areas (length memory.now.bytes) ring.now }
        ensures some { IfSome result (λ ask. IsAsk memory.now ask) }
        ensures needed { IfSome result (of_area ring.now) }
        ensures short { IfSome result (λ ask. ask.len ≤ 2) }
        ensures none { result ≡ None → event_held memory.now ring.now };

    /// Writes for the driver that the places so far were popped.
    fn write_event(ring: &Counts, memory: &mut Memory)
        requires areas { areas (length memory.old.bytes) ring.now }
        requires held { event_held memory.old ring.now }
        ensures value { memory.new.bytes ≡ event memory.old.bytes ring.now }
        ensures size { length memory.new.bytes ≡ length memory.old.bytes }
        ensures held { memory.new ≡ record memory.old { bytes = memory.new.bytes } };

    /// The memory with what says that a chain of this id and so many places was used, of which so
    /// many bytes were written.
    ghost used_written: { List ℕ → RingState → ℕ → ℕ → ℕ → List ℕ };

    /// What a publication writes is there to be written.
    ghost used_held: { Known → RingState → Type 0 };

    /// What of it isn't there.
    fn used_lacks(ring: &Counts, memory: &Memory) -> Option<Ask>
        requires sound { is_ring ring.now.places ring.now.size }
        requires areas { areas (length memory.now.bytes) ring.now }
        ensures some { IfSome result (λ ask. IsAsk memory.now ask) }
        ensures needed { IfSome result (of_area ring.now) }
        ensures none { result ≡ None → used_held memory.now ring.now };

    /// Writes that a chain was used, at the first place that isn't.
    fn write_used(ring: &Counts, memory: &mut Memory, chain: Used)
        requires sound { is_ring ring.now.places ring.now.size }
        requires areas { areas (length memory.old.bytes) ring.now }
        requires fits { ring.now.used < 2 ^ 80 }
        requires held { used_held memory.old ring.now }
        ensures value { memory.new.bytes
            ≡ used_written memory.old.bytes ring.now chain.id chain.places chain.len }
        ensures size { length memory.new.bytes ≡ length memory.old.bytes }
        ensures held { memory.new ≡ record memory.old { bytes = memory.new.bytes } };

    /// What the driver says of notifications is there to be read.
    ghost suppression_held: { Known → RingState → Type 0 };

    /// What of it isn't there.
    fn suppression_lacks(ring: &Counts, memory: &Memory) -> Option<Ask>
        requires areas { areas (length memory.now.bytes) ring.now }
        ensures some { IfSome result (λ ask. IsAsk memory.now ask) }
        ensures needed { IfSome result (of_area ring.now) }
        ensures short { IfSome result (λ ask. ask.len ≤ 4) }
        ensures none { result ≡ None → suppression_held memory.now ring.now };

    /// What is to be answered on whether the driver is notified that the places from one on and
    /// below another were used.
    ghost tells: { List ℕ → RingState → ℕ → ℕ → Bool → Type 0 };

    /// Whether the driver is to be notified that the places from `old` on and below `new` were
    /// used.
    fn is_due(ring: &Counts, memory: &Memory, old: u128, new: u128) -> bool
        requires sound { is_ring ring.now.places ring.now.size }
        requires areas { areas (length memory.now.bytes) ring.now }
        requires fits { old < 2 ^ 80 }
        requires held { suppression_held memory.now ring.now }
        ensures { tells memory.now.bytes ring.now old new result };

    /// The chain at the next place is that which begins there.
    ghost next_is: { (memory : List ℕ) (ring : RingState)
        → next memory ring ≡ found_from memory (descriptors_of shape ring) (start memory ring) };

    ghost members_are: { (memory : List ℕ) (ring : RingState)
        → members memory ring ≡ members_from memory (descriptors_of shape ring)
        (start memory ring) };

    /// The descriptors are one of the areas.
    ghost descriptors_are: { (ring : RingState) (ask : Ask)
        → LiesIn ring.places.descriptors (16 * ring.size) ask → of_area ring ask };

    /// The areas stay where they are, whatever is popped and used.
    ghost areas_stay: { (bytes : ℕ) (old new : RingState) → new.places ≡ old.places
        → new.size ≡ old.size → areas bytes old → areas bytes new };

    /// And so does where a pop writes.
    ghost event_stays: { (memory : Known) (old new : RingState) → new.places ≡ old.places
        → new.size ≡ old.size → event_held memory old → event_held memory new };
}
