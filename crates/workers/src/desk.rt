//! What lies under the book's lock.
ghost use Rattle.std.specs.Prelude.{◌≡◌, ◌↔◌, ◌+◌, ◌<◌, IsTrue, IfErr, IfOk, OnErr, OnOk, None};
ghost use Rattle.std.specs.Prelude.{length, option_map, slice_get, unwrap_or};
ghost use Rattle.board.specs.State.{over};
ghost use Rattle.board.specs.Steps.{SettlesBy, TakesInto, settled_answer, taken_answer};
ghost use Rattle.rpmb_book.specs.Book.{BookView, after_collect, counted_in, due_of, found_by};
ghost use Rattle.rpmb_book.specs.Book.{guest_of, mac_key_of, refusal, state};
ghost use Rattle.rpmb_book.specs.Fold.{after_submit};
ghost use Rattle.rpmb_book.specs.Receipt.{submission_seen, turn_seen, HasFrames};
ghost use Rattle.std.specs.Option.{ForSome};
ghost use Rattle.workers.specs.Looks.{IsSpent};

use board::Keeper;
use disk::Disk;
use hmac256::MacKey;
use rpmb_book::{Book, Checked, Due, Receipt, Refused, Rooms, Tally, TurnView};
use rpmb_frame::Limits;
use std::alloc::Global;
use std::marker::Model;
use std::sync::ledger;
use std::sync::ledger::{Ledger, Share};

/// How much memory is kept for jobs to come, in jobs: that of a batch.
const SPARES: usize = 8;

/// The book, and a ledger's book whose total is the number of its Submit turns, those that were
/// folded too. All threads make their calls here, one at a time: each call is the book's, so the
/// state is the replay of one history.
///
/// A contract sees the book.
#[derive(Drop)]
pub struct Desk<L: Ledger> {
    book: Book,
    submits: ledger::Book<L>,
}

impl<L: Ledger> Model for Desk<L> {
    ghost use Rattle.std.specs.Prelude.{◌≡◌};
    ghost use Rattle.rpmb_book.specs.Book.{BookView, counted_in};

    ghost Value = { BookView };

    ghost view = { λ d. d.book };

    ghost invariant = { λ d. counted_in d.book ≡ d.submits.total };
}

impl<L: Ledger> Desk<L> {
    /// A desk whose ledger counts what the book does.
    pub fn new(book: Book, submits: ledger::Book<L>) -> Desk<L>
        requires { counted_in book ≡ submits.total }
        ensures { result ≡ book }
    {
        Desk { book, submits }
    }

    /// `Book::submit_checked`, counted in the caller's share of the ledger where it succeeds. The
    /// memory that is left goes to the caller's spare.
    pub fn submit(
        &mut self,
        alloc: Global,
        tally: &mut Tally,
        share: &mut Share<L>,
        spares: &mut Vec<Rooms>,
        job: Checked,
    ) -> Result<Receipt, (Checked, Refused)>
        requires { 0 < share.old.parts }
        ensures made { OnOk result ((refusal self.old tally.old job ≡ None)
            × (self.new ≡ after_submit self.old job)) }
        ensures counted { OnOk result ((share.new.amount ≡ share.old.amount + 1)
            × (tally.new ≡ record tally.old { count = tally.old.count + 1 })) }
        ensures named { IfOk result (λ r. r
            ≡ record {
              life = self.old.life;
              guest = job.guest;
              number = self.old.folded + length self.old.history;
            }) }
        ensures refused { IfErr result (λ e. (e.0 ≡ job)
            × (e.1 ≡ unwrap_or (refusal self.old tally.old job) Refused.NoMemory)) }
        ensures unchanged { OnErr result ((self.new ≡ self.old) × (tally.new ≡ tally.old)
            × (share.new.amount ≡ share.old.amount)) }
        ensures parts { share.new.parts ≡ share.old.parts }
    {
        let (receipt, left) = self.book.submit_checked(alloc, tally, job)?;
        self.submits.add(share, 1);
        keep(spares, left);
        Ok(receipt)
    }

    /// `Keeper::take`, of this book.
    pub fn take<D: Disk>(&mut self, keeper: &mut Keeper<D>, guest: u16) -> Result<bool, Refused>
        ensures { TakesInto guest (slice_get keeper.old.intents guest) (taken_answer result)
            (over self.old keeper.old) (over self.new keeper.new) }
    {
        keeper.take(&mut self.book, guest)
    }

    /// `Keeper::settle`, of this book.
    pub fn settle<D: Disk>(&mut self, keeper: &mut Keeper<D>) -> Result<bool, Refused>
        ensures settles { SettlesBy keeper.old.report (settled_answer result)
            (over self.old keeper.old) (over self.new keeper.new) }
        ensures stays { (keeper.new.shares ≡ keeper.old.shares)
            × (keeper.new.store ≡ keeper.old.store) }
    {
        keeper.settle(&mut self.book)
    }

    /// `Book::collect_due`.
    pub fn collect(&mut self, guest: u16) -> Option<Due>
        ensures done { result ≡ due_of self.old guest }
        ensures book { self.new ≡ after_collect self.old guest }
    {
        self.book.collect_due(guest)
    }

    /// `Book::mac_key_of`.
    pub fn mac_key_of(&self, guest: u16) -> Option<MacKey>
        ensures { result ≡ mac_key_of self.now guest }
    {
        self.book.mac_key_of(guest)
    }

    /// `Book::limits_of`.
    pub fn limits_of(&self, guest: u16) -> Option<Limits>
        ensures { result ≡ option_map (λ g. g.core.limits) (guest_of self.now guest) }
    {
        self.book.limits_of(guest)
    }

    /// `Book::is_broken`.
    pub fn is_broken(&self) -> bool
        ensures { result ≡ (state self.now).broken }
    {
        self.book.is_broken()
    }

    /// Whether the book has counted as many jobs as it can: it takes none any more.
    pub fn is_spent(&self) -> bool
        ensures { IsTrue result ↔ IsSpent self.now }
    {
        self.book.submit_turns() == u64::MAX
    }

    /// Whether an accepted request of the guest waits for the store. It says whom to wake, and no
    /// more.
    pub(crate) fn has_waiting(&self, guest: u16) -> bool {
        match (self.book.partition(guest), self.book.taken(guest)) {
            (Some(partition), Some(taken)) => partition.sequence() > taken,
            _ => false,
        }
    }

    /// `Book::find`.
    pub fn find(&self, receipt: &Receipt) -> Option<TurnView<'_>>
        ensures seen { option_map turn_seen result
            ≡ option_map submission_seen (found_by self.now receipt.now) }
        ensures whole { ForSome result HasFrames }
    {
        self.book.find(receipt)
    }

    /// Who holds the whole ledger knows the number of Submit turns, those that were folded too.
    pub fn audit(&mut self, all: &mut Share<L>)
        requires { all.old.parts ≡ L.parts }
        ensures total { counted_in self.old ≡ all.old.amount }
        ensures same { (self.new ≡ self.old) × (all.new.amount ≡ all.old.amount)
            × (all.new.parts ≡ all.old.parts) }
    {
        self.submits.audit(all);
    }

    /// The book alone.
    pub fn into_book(self) -> Book
        ensures { result ≡ self }
    {
        let Desk { book, submits: _ } = self;
        book
    }
}

/// Keeps memory for a job to come. Without a place for it, it goes.
fn keep(spares: &mut Vec<Rooms>, left: Rooms) {
    if spares.len() < SPARES {
        let _ = spares.push(left);
    }
}
