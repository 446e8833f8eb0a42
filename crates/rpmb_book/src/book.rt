//! The book: every guest's requests, answers and history.
ghost use Rattle.std.specs.Prelude.{◌≡◌, ◌≤◌, ◌+◌, ◌<◌, [], IfOk, Some, option_map, map, length};
ghost use Rattle.rpmb_frame.specs.Partition.{sequence};
ghost use Rattle.rpmb_book.specs.Opening.{tallies_from};
ghost use Rattle.rpmb_book.specs.Replay.{opened, IsLegal};
ghost use Rattle.rpmb_book.specs.Book.{BookView, state, guest_of, counted_in, is_share, is_taken};
ghost use Rattle.rpmb_book.specs.Book.{take_answer, after_take, next_intent, share_moved};
ghost use Rattle.rpmb_book.specs.Book.{are_taken, settle_answer, after_settle, after_break_off};
ghost use Rattle.rpmb_book.specs.Book.{due_of, after_collect, found_by, mac_key_of};
ghost use Rattle.std.specs.Option.{ForSome, option_copied};
ghost use Rattle.rpmb_book.specs.Asked.{answered_in};
ghost use Rattle.rpmb_book.specs.Kept.{IsOpening};
ghost use Rattle.rpmb_book.specs.Sound.{AreOfBoard, AreReady, IsSound};
ghost use Rattle.rpmb_book.specs.Receipt.{turn_seen, submission_seen, HasFrames};

use crate::did::Did;
use crate::due::Due;
use crate::guest_state::{GuestState, break_all};
use crate::history::History;
use crate::marks::{are_within, move_some, settle_each};
use crate::opening::{guests, sequences, tallies};
use crate::receipt::{Receipt, TurnView};
use crate::refused::Refused;
use crate::tally::{Shares, Tally};
use crate::told::Told;
use flusher::Marks;
use hmac256::MacKey;
use intent_slots::Intent;
use mmio_transport::Done;
use rpmb_core::{NoMemory, Partition};
use rpmb_frame::{BoardConfig, Limits};
use std::alloc::Global;
use std::marker::Model;

/// What all guests asked and were answered. Contracts see its life, how many turns were folded, the
/// opening after those, and the history since; the state is the replay of the history on the
/// opening. In memory are the state, and of the history its Submits, which `find` tells.
#[derive(Drop)]
pub struct Book {
    pub(crate) told: Told,
    pub(crate) life: u64,
    pub(crate) guests: Vec<GuestState>,
    pub(crate) broken: bool,
    /// How many turns there were, folded ones too.
    pub(crate) turns: u128,
    /// How many Submits were answered, folded ones too.
    pub(crate) counted: u64,
    /// The Submits that stand.
    pub(crate) history: History,
    /// Where a reply is built: no request has to clear or make it.
    pub(crate) reply: Box<[u8; 8192]>,
}

impl Model for Book {
    ghost use Rattle.rpmb_book.specs.Book.{BookView};
    ghost use Rattle.rpmb_book.specs.Kept.{IsKept};

    ghost Value = { BookView };

    ghost view = { λ b. b.told.book };

    ghost invariant = { λ b. IsKept b.told.book b.life b.guests.items b.broken b.turns b.counted
        b.history };
}

impl Book {
    /// A book of this life on these partitions, with an empty history; a tally for each guest; and
    /// the shares, which stand at the partitions' sequences. All room for the history is made here.
    pub fn open(
        alloc: Global,
        life: u64,
        config: &BoardConfig,
        partitions: Vec<Partition>,
    ) -> Result<(Book, Vec<Tally>, Shares), NoMemory>
        requires { map (λ p. p.capacity) partitions.items ≡ map (λ g. g.capacity) config.now }
        ensures book { IfOk result (λ r. r.0
            ≡ record {
              life = life;
              folded = 0;
              opening = opened config.now partitions.items;
              history = [];
            }) }
        ensures tallies { IfOk result (λ r. r.1.items ≡ tallies_from 0 (length config.now)) }
        ensures shares { IfOk result (λ r. r.2 ≡ map sequence partitions.items) }
    {
        let count = config.guests().len();
        let history = History::new(alloc)?;
        let reply = Box::new(alloc, [0; 8192])?;
        let tallies = tallies(alloc, count)?;
        let sequences = sequences(alloc, &partitions)?;
        let guests = guests(alloc, config, partitions)?;
        let told = Told::of(&life, &guests);
        let book = Book {
            told,
            life,
            guests,
            broken: false,
            turns: 0,
            counted: 0,
            history,
            reply,
        };
        Ok((book, tallies, Shares::of(sequences)))
    }

    /// Whether the guest is the book's, and its share is its taken sequence.
    fn is_share(&self, shares: &Shares, guest: u16) -> bool
        ensures { result ≡ is_share self.now shares.now guest }
    {
        let at = usize::from(guest);
        match self.guests.get(at) {
            Some(known) => is_taken(known, shares.get(at)),
            None => false,
        }
    }

    /// Gives the guest's oldest accepted requests that were not taken, as many as there are and at
    /// most four, as one intent, and moves its share to the last one's sequence; None where none
    /// waits. They are moved out, with the blocks that `submit` copied. `Foreign` exactly where the
    /// book lacks the guest or the share isn't its taken sequence. It takes no memory.
    pub fn take(&mut self, shares: &mut Shares, guest: u16) -> Result<Option<Intent>, Refused>
        ensures answer { result ≡ take_answer self.old shares.old guest }
        ensures book { self.new ≡ after_take self.old shares.old guest }
        ensures shares { shares.new
            ≡ share_moved shares.old guest (next_intent self.old shares.old guest) }
    {
        if !self.is_share(shares, guest) {
            return Err(Refused::Foreign);
        }
        let at = usize::from(guest);
        let known = &mut self.guests[at];
        match known.take(guest) {
            None => Ok(None),
            Some(intent) => {
                shares.set(at, intent.last_sequence());
                self.told = self.told.then(&Did::Take(guest));
                self.turns += 1;
                Ok(Some(intent))
            }
        }
    }

    /// Settles what a store has, by the marks of a sync. `Foreign` exactly where the share of some
    /// guest isn't its taken sequence, or a mark is above it; then nothing changes. A mark below
    /// what is settled moves nothing, and marks of guests that the book lacks aren't looked at. It
    /// takes no memory.
    pub fn settle(&mut self, shares: &Shares, marks: Marks) -> Result<(), Refused>
        ensures answer { result ≡ settle_answer self.old shares.now marks }
        ensures book { self.new ≡ after_settle self.old shares.now marks }
    {
        let marks = marks.sequences();
        if !are_taken(&self.guests, shares) || !are_within(&self.guests, marks) {
            return Err(Refused::Foreign);
        }
        if move_some(&self.guests, marks) {
            self.told = self.told.then(&Did::Settle(marks));
            self.turns += 1;
            settle_each(&mut self.guests, marks);
        }
        Ok(())
    }

    /// Tells the book that its store broke. From then on held replies that are settled leave as
    /// they are, the others are failures, and nothing more is accepted. A second one changes
    /// nothing. It takes no memory.
    pub fn break_off(&mut self)
        ensures { self.new ≡ after_break_off self.old }
    {
        if self.broken {
            return;
        }
        self.told = self.told.then(&Did::Break);
        self.turns += 1;
        break_all(&mut self.guests);
        self.broken = true;
    }

    /// Whether its store broke.
    pub fn is_broken(&self) -> bool
        ensures { result ≡ (state self.now).broken }
    {
        self.broken
    }

    /// Gives the guest's oldest held reply, where its need is settled; None where it isn't, where
    /// none is held, and for a guest that the book lacks. It takes no memory.
    pub fn collect(&mut self, guest: u16) -> Option<Done>
        ensures done { result ≡ due_of self.old guest }
        ensures book { self.new ≡ after_collect self.old guest }
    {
        match self.collect_due(guest) {
            None => None,
            Some(due) => Some(due.done(self.mac_key(guest))),
        }
    }

    /// A guest's key, for who makes its MACs beside the book; None where it has none, and for a
    /// guest that the book lacks. Once there, a key never changes. It takes no memory.
    pub fn mac_key_of(&self, guest: u16) -> Option<MacKey>
        ensures { result ≡ mac_key_of self.now guest }
    {
        match self.mac_key(guest) {
            Some(key) => Some(key.copy()),
            None => None,
        }
    }

    /// A guest's limits, which never change; None for a guest that the book lacks.
    pub fn limits_of(&self, guest: u16) -> Option<Limits>
        ensures { result ≡ option_map (λ g. g.core.limits) (guest_of self.now guest) }
    {
        match self.guests.get(usize::from(guest)) {
            Some(known) => Some(known.limits()),
            None => None,
        }
    }

    fn mac_key(&self, guest: u16) -> Option<&MacKey>
        ensures { option_copied result ≡ mac_key_of self.now guest }
    {
        match self.guests.get(usize::from(guest)) {
            Some(known) => known.partition().mac_key(),
            None => None,
        }
    }

    /// Does what `collect` does, but for the reply's MAC: that is left to who has the `Due`.
    pub fn collect_due(&mut self, guest: u16) -> Option<Due>
        ensures done { result ≡ due_of self.old guest }
        ensures book { self.new ≡ after_collect self.old guest }
    {
        let at = usize::from(guest);
        if at >= self.guests.len() {
            return None;
        }
        let known = &mut self.guests[at];
        let done = known.collect()?;
        self.told = self.told.then(&Did::Collect(guest));
        self.turns += 1;
        Some(done)
    }

    /// The request and the reply of the job that a receipt names, as both were then; None where the
    /// receipt is of another life, names no Submit of that guest, or names one that was folded.
    pub fn find(&self, receipt: &Receipt) -> Option<TurnView<'_>>
        ensures seen { option_map turn_seen result
            ≡ option_map submission_seen (found_by self.now receipt.now) }
        ensures whole { ForSome result HasFrames }
    {
        if receipt.life != self.life {
            return None;
        }
        let filed = self.history.find(receipt.number)?;
        filed.seen_by(receipt.guest)
    }

    /// The life that the book was opened with.
    pub fn life(&self) -> u64
        ensures { result ≡ self.now.life }
    {
        self.life
    }

    /// How many jobs were answered in this life: the Submit turns, those that were folded too.
    pub fn submit_turns(&self) -> u64
        ensures { result ≡ counted_in self.now }
    {
        self.counted
    }

    /// A guest's partition, after all its requests; None for a guest that the book lacks.
    pub fn partition(&self, guest: u16) -> Option<&Partition>
        ensures { option_copied result
            ≡ option_map (λ g. g.core.partition) (guest_of self.now guest) }
    {
        match self.guests.get(usize::from(guest)) {
            Some(known) => Some(known.partition()),
            None => None,
        }
    }

    /// The sequence of a guest's last request that was taken; None for a guest that the book lacks.
    pub fn taken(&self, guest: u16) -> Option<u64>
        ensures { result ≡ option_map (λ g. g.taken) (guest_of self.now guest) }
    {
        match self.guests.get(usize::from(guest)) {
            Some(known) => Some(known.taken()),
            None => None,
        }
    }

    /// The sequence of a guest that is settled: no stop can lose what it and those before it did.
    /// None for a guest that the book lacks.
    pub fn settled(&self, guest: u16) -> Option<u64>
        ensures { result ≡ option_map (λ g. g.settled) (guest_of self.now guest) }
    {
        match self.guests.get(usize::from(guest)) {
            Some(known) => Some(known.settled()),
            None => None,
        }
    }

    /// How many replies of a guest are held until they may leave, at most 64; None for a guest that
    /// the book lacks.
    pub fn held(&self, guest: u16) -> Option<usize>
        ensures { result ≡ option_map (λ g. length g.held) (guest_of self.now guest) }
    {
        match self.guests.get(usize::from(guest)) {
            Some(known) => Some(known.held_len()),
            None => None,
        }
    }

    /// What holds of every book, for proofs: it does nothing.
    pub fn what_always_holds(&self)
        // Each turn of the history is one that the book makes in the state where it stands.
        ensures legal { IsLegal self.now.opening self.now.history }
        // What waits for the store follows what it took and can be done in its order, and nothing
        // is settled that it didn't take.
        ensures sound { IsSound (state self.now) }
        ensures ready { AreReady (state self.now) }
        // Each guest has a partition of a board, which a store can hold.
        ensures of_board { AreOfBoard (state self.now) }
        // Its history begins with such guests.
        ensures begins { IsOpening self.now.opening }
        ensures began_of_board { AreOfBoard self.now.opening }
        // The guests' jobs are counted as the Submits are, folded ones too.
        ensures counted { answered_in (state self.now).guests ≡ counted_in self.now }
    {
        let _life = &self.life; // for the checker: a look inside gives what holds of it
    }
}

/// Whether each guest's share is its taken sequence.
fn are_taken(guests: &[GuestState], shares: &Shares) -> bool
    ensures { result ≡ are_taken guests.now shares.now }
{
    for (i, guest) in guests.iter().enumerate() {
        if !is_taken(guest, shares.get(i)) {
            return false;
        }
    }
    true
}

fn is_taken(guest: &GuestState, share: Option<u64>) -> bool
    ensures { result ≡ is_taken (Some guest.now) share }
{
    match share {
        Some(share) => guest.taken() == share,
        None => false,
    }
}
