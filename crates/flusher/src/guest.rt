//! What the store holds for one guest.
ghost use Rattle.std.specs.Prelude.{◌≡◌, ◌≤◌, ◌↔◌, ◌+◌, IsTrue, length};
ghost use Rattle.flusher.specs.Slot.{intent_of, pending_of, opening_in, slot_writes, slot_awaits};
ghost use Rattle.flusher.specs.Slot.{after_write};
ghost use Rattle.flusher.specs.Pair.{has_room, entries_in, mark_after, is_let, behind_writes};
ghost use Rattle.flusher.specs.Pair.{turn_of, has_turn, marked, moved_up, guest_has_write};
ghost use Rattle.flusher.specs.Pair.{guest_awaits, guest_after_write, guest_after_sync};
ghost use Rattle.flusher.specs.Pair.{with_intent, resting, redoing, redoing_two};
ghost use Rattle.flusher.specs.Store.{pending, HasSameKey, FitsGuest};

use crate::phase::Phase;
use crate::slot::{Slot, move_synced, skipped};
use intent_slots::{Extent, Intent, Side};

/// What the store holds for one guest: where its partition stands, the sequence up to which its
/// requests are settled, and what is on its way to the disk.
#[derive(Drop)]
pub struct Guest {
    pub(crate) extent: Extent,
    pub(crate) mark: u64,
    /// Whether two slots are in use: the image is of version 2.
    pub(crate) paired: bool,
    /// At which side the slot of lower sequence stands.
    pub(crate) side: Side,
    /// The slot of lower sequence.
    pub(crate) slot: Option<Slot>,
    /// The other slot: in use only beside the first.
    pub(crate) behind: Option<Slot>,
}

/// Which of a guest's slots has its write next.
#[derive(Clone, Copy)]
pub(crate) enum Turn {
    /// The slot of lower sequence.
    First,
    /// The one behind it.
    Second,
    /// None has one now.
    Neither,
}

impl Turn {
    /// Whether there is a write.
    fn is_some(self) -> bool
        ensures { result ≡ has_turn self }
    {
        matches!(self, Turn::First | Turn::Second)
    }
}

/// How many requests of a slot aren't settled yet: at most 4.
fn pending_in(slot: &Option<Slot>) -> u64
    ensures value { result ≡ length (entries_in (pending_of slot.now)) }
    ensures few { result ≤ 4 }
{
    match slot {
        Some(slot) if !slot.phase.is_settled() => slot.intent.entries() as u64,
        _ => 0,
    }
}

/// Whether the slot behind this one may make the write of its phase.
fn is_let(first: &Option<Slot>, phase: Phase) -> bool
    ensures { result ≡ is_let first.now phase }
{
    match first {
        None => true,
        Some(first) => phase.is_let_beside(first.phase),
    }
}

/// Whether an intent's key is that of what is in a slot.
fn has_same_key(slot: &Option<Slot>, intent: &Intent) -> bool
    ensures { IsTrue result ↔ HasSameKey (intent_of slot.now) intent.now }
{
    match slot {
        Some(slot) => intent.key() == slot.intent.key(),
        None => true,
    }
}

/// Whether a sync would move a slot.
fn awaits(slot: &Option<Slot>) -> bool
    ensures { result ≡ slot_awaits slot.now }
{
    match slot {
        Some(slot) => !slot.phase.has_write(),
        None => false,
    }
}

/// The mark that a sync leaves, by what is in a slot.
fn mark_after(slot: &Option<Slot>, mark: u64) -> u64
    ensures { result ≡ mark_after (opening_in slot.now) mark }
{
    match slot {
        Some(slot) if slot.phase.is_opening() => slot.intent.last_sequence(),
        _ => mark,
    }
}

/// At which side the next intent goes where both slots are empty.
fn first_side() -> Side
    ensures { result ≡ Side.A }
{
    Side::A
}

/// Moves a slot as its write does.
fn move_written(slot: &mut Option<Slot>)
    ensures { slot.new ≡ after_write slot.old }
{
    if let Some(known) = slot {
        known.move_written();
    }
}

impl Guest {
    /// A guest behind shut gates, whose partition has this sequence, in an image of version 2 or
    /// not.
    pub fn settled(paired: bool, extent: Extent, sequence: u64) -> Guest
        ensures { result ≡ resting paired extent sequence }
    {
        Guest {
            extent,
            mark: sequence,
            paired,
            side: first_side(),
            slot: None,
            behind: None,
        }
    }

    /// A guest behind whose one open gate this intent stands: it is settled, and all its blocks and
    /// the home record are to be written.
    pub fn open(paired: bool, extent: Extent, side: Side, intent: Intent) -> Guest
        ensures { result ≡ redoing paired extent side intent }
    {
        let mark = intent.last_sequence();
        let done = skipped(&intent);
        Guest {
            extent,
            mark,
            paired,
            side,
            slot: Some(Slot {
                phase: Phase::Open(done),
                intent,
            }),
            behind: None,
        }
    }

    /// A guest behind whose two open gates these intents stand, the first one at this side.
    pub fn open_two(extent: Extent, side: Side, first: Intent, second: Intent) -> Guest
        ensures { result ≡ redoing_two extent side first second }
    {
        let mark = second.last_sequence();
        let one = skipped(&first);
        let two = skipped(&second);
        Guest {
            extent,
            mark,
            paired: true,
            side,
            slot: Some(Slot {
                phase: Phase::Open(one),
                intent: first,
            }),
            behind: Some(Slot {
                phase: Phase::Open(two),
                intent: second,
            }),
        }
    }

    /// Whether a slot is empty, with nothing given: of two the one behind.
    pub(crate) fn has_room(&self) -> bool
        ensures { result ≡ has_room self.now }
    {
        if self.paired {
            self.behind.is_none()
        } else {
            self.slot.is_none()
        }
    }

    /// How many requests were given that aren't settled yet: at most 8.
    pub(crate) fn pending(&self) -> u64
        ensures value { result ≡ pending self.now }
        ensures few { result ≤ 8 }
    {
        pending_in(&self.slot) + pending_in(&self.behind)
    }

    /// Whether an intent lies in the partition, and has the key of those that are in the slots.
    pub(crate) fn fits(&self, intent: &Intent) -> bool
        ensures { IsTrue result ↔ FitsGuest self.now intent.now }
    {
        let one = has_same_key(&self.slot, intent);
        let two = has_same_key(&self.behind, intent);
        intent.lies_inside(&self.extent) && one && two
    }

    /// Whether the slot behind has a write that it may make now.
    fn behind_writes(&self) -> bool
        ensures { result ≡ behind_writes self.now.slot self.now.behind }
    {
        match &self.behind {
            Some(behind) => behind.phase.has_write() && is_let(&self.slot, behind.phase),
            None => false,
        }
    }

    /// Whether the first slot has a write.
    fn first_writes(&self) -> bool
        ensures { result ≡ slot_writes self.now.slot }
    {
        match &self.slot {
            Some(slot) => slot.phase.has_write(),
            None => false,
        }
    }

    /// Which slot has its write next: the one of lower sequence first.
    pub(crate) fn turn(&self) -> Turn
        ensures { result ≡ turn_of self.now }
    {
        if self.first_writes() {
            Turn::First
        } else if self.behind_writes() {
            Turn::Second
        } else {
            Turn::Neither
        }
    }

    /// Whether a write comes next.
    pub(crate) fn has_write(&self) -> bool
        ensures { result ≡ guest_has_write self.now }
    {
        self.turn().is_some()
    }

    /// Whether a sync would move a slot.
    pub(crate) fn awaits_sync(&self) -> bool
        ensures { result ≡ guest_awaits self.now }
    {
        awaits(&self.slot) || awaits(&self.behind)
    }

    /// The mark after a sync that succeeded.
    fn marked(&self) -> u64
        ensures { result ≡ marked self.now }
    {
        let rest = mark_after(&self.behind, self.mark);
        mark_after(&self.slot, rest)
    }

    /// Gives an intent to a slot: to the one behind where the first is in use.
    pub(crate) fn take_in(&mut self, intent: Intent)
        ensures { self.new ≡ with_intent self.old intent }
    {
        let given = Some(Slot {
            phase: Phase::Given,
            intent,
        });
        if self.slot.is_none() {
            self.slot = given;
        } else {
            self.behind = given;
        }
    }

    /// Moves the slot whose turn it is as its write does.
    pub(crate) fn move_written(&mut self)
        ensures { self.new ≡ guest_after_write self.old }
    {
        match self.turn() {
            Turn::First => move_written(&mut self.slot),
            Turn::Second => move_written(&mut self.behind),
            Turn::Neither => {}
        }
    }

    /// Moves the slots and the mark as a sync does: once the first slot is empty, the one behind it
    /// is the first.
    pub(crate) fn move_synced(&mut self)
        ensures { self.new ≡ guest_after_sync self.old }
    {
        self.mark = self.marked();
        move_synced(&mut self.slot);
        move_synced(&mut self.behind);
        self.move_up();
    }

    /// Makes the slot behind the first one where that is empty.
    fn move_up(&mut self)
        ensures { self.new ≡ moved_up self.old self.old.mark self.old.slot self.old.behind }
    {
        if self.slot.is_none() {
            self.side = if self.behind.is_none() {
                first_side()
            } else {
                self.side.other()
            };
            self.slot = self.behind.take();
        }
    }
}
