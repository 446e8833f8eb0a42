//! The device's half of a virtqueue, for both kinds of ring.
ghost use Rattle.std.specs.Prelude.{◌≡◌, ◌≤◌, ◌<◌, ◌+◌, ◌^◌, ◌↔◌, IsTrue, true, false, IsOk, IfOk};
ghost use Rattle.std.specs.Prelude.{IfSome};
ghost use Rattle.std.specs.Prelude.{OnErr, length, [], Err, None};
ghost use Rattle.chains.specs.Range.{AreInside};
ghost use Rattle.chains.specs.Walk.{reads_of};
ghost use Rattle.chains.specs.Ring.{first_state, MayBeUsed, IsFree, Stays, Finds, Pops};
ghost use Rattle.chains.specs.Ring.{CountsReads, Publishes, resting, may_rest};
ghost use Rattle.chains.specs.Building.{BelievesCopies};
ghost use Rattle.chains.specs.Needs.{IsNeeded};
ghost use Rattle.chains.specs.Start.{descriptors_of};
ghost use Rattle.guest_memory.specs.Memory.{IsAsk};

use crate::counts::Counts;
use crate::fault::{ChainFault, RingFault};
use crate::places::Places;
use crate::popped::{Popped, Used};
use crate::reads::Reads;
use crate::rules::Rules;
use crate::walks::walk;
use guest_memory::{Ask, Memory};
use std::alloc::Global;
use std::marker::{Model, PhantomData};

/// The device's half of a ring, by the rules of its kind.
///
/// A contract sees it by its places, which are counted 0, 1, 2, .. without end.
#[derive(Drop)]
pub struct Ring<R: Rules> {
    counts: Counts,
    rules: PhantomData<R>,
}

impl<R: Rules> Model for Ring<R> {
    ghost use Rattle.chains.specs.Ring.{RingState};

    ghost Value = { RingState };

    ghost view = { λ r. r.counts };

    ghost invariant = { λ r. R.is_ring r.counts.places r.counts.size };
}

impl<R: Rules> Ring<R> {
    /// A ring of which nothing was popped. It takes no memory.
    ///
    /// Answers `BadRange` where a ring of this kind can't have this size, or an area isn't aligned.
    pub fn new(alloc: Global, places: Places, size: u16) -> Result<Ring<R>, RingFault>
        ensures succeeds { IsOk result ↔ R.is_ring places size }
        ensures ok { IfOk result (λ ring. ring ≡ first_state places size) }
        ensures err { OnErr result (result ≡ Err (RingFault.Refused ChainFault.BadRange)) }
    {
        if !R::is_ring(&places, size) {
            return Err(RingFault::Refused(ChainFault::BadRange));
        }
        Ok(Ring {
            counts: Counts::new(alloc, places, size),
            rules: PhantomData,
        })
    }

    /// A ring that goes on: `used` of its places were popped and used, the last of their chains had
    /// the number `last`, and none is outstanding. It takes no memory.
    ///
    /// Answers `BadRange` where a ring of this kind can't have this size, or an area isn't aligned.
    pub fn resting(
        alloc: Global,
        places: Places,
        size: u16,
        last: u64,
        used: u128,
    ) -> Result<Ring<R>, RingFault>
        requires { may_rest last used ≡ true }
        ensures succeeds { IsOk result ↔ R.is_ring places size }
        ensures ok { IfOk result (λ ring. ring ≡ resting places size last used) }
        ensures err { OnErr result (result ≡ Err (RingFault.Refused ChainFault.BadRange)) }
    {
        if !R::is_ring(&places, size) {
            return Err(RingFault::Refused(ChainFault::BadRange));
        }
        Ok(Ring {
            counts: Counts::resting(alloc, places, size, last, used),
            rules: PhantomData,
        })
    }

    /// Whether the ring's areas lie in the memory.
    pub fn lies_in(&self, memory: &Memory) -> bool
        ensures { IsTrue result ↔ R.areas (length memory.now.bytes) self.now }
    {
        R::lies_in(&self.counts, memory)
    }

    /// Where the ring stands, and how many of its places were popped and used.
    pub fn counts(&self) -> &Counts
        ensures counts { result.now ≡ self.now }
        ensures sound { R.is_ring self.now.places self.now.size }
    {
        &self.counts
    }

    /// The number of the chain that was popped last; 0 before the first.
    pub fn last(&self) -> u64
        ensures { result ≡ self.now.last }
    {
        self.counts.last()
    }

    /// Whether the chain of this number, of this id and so many places, may be used: it was popped
    /// and not yet used, and with `VIRTIO_F_IN_ORDER` so was none before it.
    pub fn may_be_used(&self, number: u64, id: u16, places: u16) -> bool
        ensures { IsTrue result ↔ MayBeUsed self.now number id places }
    {
        self.counts.may_be_used(number, id, places)
    }

    /// The chain at the place after those popped, with the bytes that it has to be read; `None`
    /// where that place isn't available. It counts `reads` anew.
    fn find(
        &self,
        alloc: Global,
        memory: &Memory,
        reads: &mut Reads,
    ) -> Result<Option<Popped>, RingFault>
        requires areas { R.areas (length memory.now.bytes) self.now }
        ensures finds { Finds (R.next memory.now.bytes self.now)
            (R.members memory.now.bytes self.now) memory.now.bytes result }
        ensures inside { IfOk result (λ popped.
            IfSome popped (λ popped. AreInside (length memory.now.bytes) popped.chain.writable)) }
        ensures reads { CountsReads result reads.old reads.new
            (reads_of (length memory.now.bytes) false (R.members memory.now.bytes self.now)) }
        ensures few { reads.new.count ≤ self.now.size + 1024 }
        ensures copies { BelievesCopies memory.now self.now.size (R.seen memory.now self.now)
            (IsNeeded (R.of_area self.now) memory.now.bytes (descriptors_of R.shape self.now)
            (R.next memory.now.bytes self.now)) result }
    {
        reads.clear();
        let start = match R::start(&self.counts, memory) {
            Ok(Some(start)) => start,
            Ok(None) => return Ok(None),
            Err(fault) => return Err(fault),
        };
        let descriptors = R::descriptors(&self.counts, memory);
        let len = 16 * descriptors.limit;
        if !memory.holds(descriptors.base, len) {
            return Err(RingFault::Missing(Ask {
                at: descriptors.base,
                len,
            }));
        }
        let walked = walk(alloc, memory, reads, &descriptors, start as u64)?;
        let request = walked.chain.gather(alloc, memory)?;
        Ok(Some(Popped {
            id: walked.id,
            places: walked.places,
            chain: walked.chain,
            request,
        }))
    }

    /// Pops the chain at the place after those popped, or answers `None` where that place isn't
    /// available. Both write for the driver what the ring's kind has them write, and nothing else.
    /// The chain is known by `number` from then on, which has to be above those of the chains
    /// popped before: `last` tells the last of them.
    ///
    /// It counts `reads` anew, and counts each descriptor that it reads, up to the first that fails
    /// a test: at most the queue size and 1,024.
    ///
    /// Answers a fault for what the driver made available against the rules, `NoMemory`, or
    /// `Missing` for bytes that it needs and of which there is no copy; then the ring and the
    /// memory stay as they were. What it asks for is a part of one of its areas, of a table to
    /// which a descriptor there refers, or of a buffer of the chain that the device may read. Once
    /// all of it is told, the next pop begins anew, over what was told.
    pub fn pop(
        &mut self,
        alloc: Global,
        memory: &mut Memory,
        reads: &mut Reads,
        number: u64,
    ) -> Result<Option<Popped>, RingFault>
        requires areas { R.areas (length memory.old.bytes) self.old }
        requires new { self.old.last < number }
        ensures pops { Pops R.next R.members R.event memory.old.bytes self.old number result
            memory.new.bytes self.new }
        ensures stays { Stays R.areas memory.old.bytes memory.new.bytes self.new }
        ensures inside { IfOk result (λ popped.
            IfSome popped (λ popped. AreInside (length memory.old.bytes) popped.chain.writable)) }
        ensures reads { CountsReads result reads.old reads.new
            (reads_of (length memory.old.bytes) false (R.members memory.old.bytes self.old)) }
        ensures few { reads.new.count ≤ self.old.size + 1024 }
        ensures copies { BelievesCopies memory.old self.old.size (R.seen memory.old self.old)
            (IsNeeded (R.of_area self.old) memory.old.bytes (descriptors_of R.shape self.old)
            (R.next memory.old.bytes self.old)) result }
        ensures event { IsOk result → R.event_held memory.old self.old }
        ensures held { memory.new ≡ record memory.old { bytes = memory.new.bytes } }
    {
        let _last = self.counts.last(); // for the checker: places are few, so no sum wraps
        let found = self.find(alloc, memory, reads)?;
        match R::event_lacks(&self.counts, memory) {
            Some(ask) => return Err(RingFault::Missing(ask)),
            None => {}
        }
        let Some(popped) = found else {
            R::write_event(&self.counts, memory);
            return Ok(None);
        };
        self.counts.admit(number, popped.id, popped.places)?;
        R::write_event(&self.counts, memory);
        Ok(Some(popped))
    }

    /// The first of the used fields that a publication writes of which the memory has no copy;
    /// `None` where it has copies of all.
    pub fn lacks(&self, memory: &Memory) -> Option<Ask>
        requires areas { R.areas (length memory.now.bytes) self.now }
        ensures some { IfSome result (λ ask. IsAsk memory.now ask) }
        ensures needed { IfSome result (R.of_area self.now) }
        ensures none { result ≡ None → R.used_held memory.now self.now }
    {
        R::used_lacks(&self.counts, memory)
    }

    /// The bytes by which the driver says whether it wants to be notified, where the memory has no
    /// copy of them.
    pub fn suppression_lacks(&self, memory: &Memory) -> Option<Ask>
        requires areas { R.areas (length memory.now.bytes) self.now }
        ensures some { IfSome result (λ ask. IsAsk memory.now ask) }
        ensures needed { IfSome result (R.of_area self.now) }
        ensures short { IfSome result (λ ask. ask.len ≤ 4) }
        ensures none { result ≡ None → R.suppression_held memory.now self.now }
    {
        R::suppression_lacks(&self.counts, memory)
    }

    /// Whether the driver is to be notified of the places that were used, from `old` on.
    pub fn is_due(&self, memory: &Memory, old: u128) -> bool
        requires areas { R.areas (length memory.now.bytes) self.now }
        requires fits { old < 2 ^ 80 }
        requires held { R.suppression_held memory.now self.now }
        ensures { R.tells memory.now.bytes self.now old self.now.used result }
    {
        R::is_due(&self.counts, memory, old, self.counts.used())
    }

    /// Whether the driver is to be notified at once that so many places more were used. Of a memory
    /// that asks it isn't: what the driver says of that is read once all was copied out.
    fn told(&self, memory: &Memory, places: u16) -> bool
        requires areas { R.areas (length memory.now.bytes) self.now }
        requires fits { self.now.used < 2 ^ 80 }
        ensures exact { memory.now.asks ≡ false
            → R.tells memory.now.bytes self.now self.now.used (self.now.used + places) result }
        ensures later { memory.now.asks ≡ true → result ≡ false }
    {
        if memory.asks() {
            return false;
        }
        memory.what_always_holds();
        // for the checker: a memory that doesn't ask lacks nothing
        if let Some(_ask) = self.suppression_lacks(memory) {
            return false;
        }
        let used = self.counts.used();
        R::is_due(&self.counts, memory, used, used + places as u128)
    }

    /// Publishes a chain as used: writes its used element or descriptor, and nothing else. `len` is
    /// the length in bytes of the reply, which was scattered before. Answers whether the driver is
    /// to be notified, which the memory after these writes decides; of a memory that asks it isn't
    /// decided here.
    ///
    /// The chain of this number is outstanding no more, whatever other chains have its id. It takes
    /// no memory.
    pub fn publish(
        &mut self,
        memory: &mut Memory,
        number: u64,
        id: u16,
        places: u16,
        len: u32,
    ) -> bool
        requires areas { R.areas (length memory.old.bytes) self.old }
        requires due { MayBeUsed self.old number id places }
        requires held { R.used_held memory.old self.old }
        ensures publishes { Publishes R.used_written
            (λ bytes ring count told. memory.old.asks ≡ false
            → R.tells bytes ring ring.used (ring.used + count) told)
            memory.old.bytes self.old number id places len result memory.new.bytes self.new }
        ensures later { memory.old.asks ≡ true → result ≡ false }
        ensures held { memory.new ≡ record memory.old { bytes = memory.new.bytes } }
        ensures once { IsFree number self.new.outstanding }
        ensures stays { Stays R.areas memory.old.bytes memory.new.bytes self.new }
    {
        let _used = self.counts.used(); // for the checker: places are few, so no sum wraps
        R::write_used(&self.counts, memory, Used { id, places, len });
        let told = self.told(memory, places);
        self.counts.retire(number, id, places);
        told
    }
}
