//! The store's side of a board: what the book accepted, on its way to the disk.
ghost use Rattle.std.specs.Prelude.{◌≡◌, ℕ, List, IfOk, None, Some, false, true};
ghost use Rattle.std.specs.Prelude.{◌||◌, is_err, is_some, option_copied, replicate, slice_get};
ghost use Rattle.flusher.specs.Progress.{with_marks};
ghost use Rattle.flusher.specs.SlotInvariant.{IsHeld};
ghost use Rattle.flusher.specs.Store.{AllFit, Gives, MayGive, is_free};
ghost use Rattle.intent_slots.specs.Payload.{Intent as IntentSpec};
ghost use Rattle.intent_slots.specs.Recovered.{Part};
ghost use Rattle.rpmb_book.specs.Book.{BookView, is_share};
ghost use Rattle.board.specs.State.{emptied, in_place, over, report_seen};
ghost use Rattle.board.specs.Steps.{AdvancesUnder, GivesWhere, IsForeign, SettlesBy, TakesInto};
ghost use Rattle.board.specs.Steps.{advance_answer, answer_by, did_answer, report_of};
ghost use Rattle.board.specs.Steps.{settled_answer, taken_answer};
ghost use Rattle.board.specs.declared.step.StepFault.TheVariants as fault;

use crate::opening::empty_places;
use disk::Disk;
use flusher::{Made, Store, StoreFault};
use intent_slots::Intent;
use rpmb_book::{Book, Refused, Shares};
use rpmb_core::NoMemory;
use std::alloc::Global;
use std::marker::Model;

/// How the store's last call ended, of which the book hasn't heard. The marks of a sync stay with
/// the store until the book settles them: they are 520 bytes.
#[derive(Drop)]
pub(crate) enum Ended {
    /// It was a sync, and settled what the store's marks say.
    Synced,
    /// It failed.
    Failed,
}

/// The store's side of a board: of each guest the sequence that was taken of the book, a place for
/// an intent that was taken and not yet given, the store, and how its last call ended, until the
/// book was told. The book isn't its own: who holds it lends it for a step.
#[derive(Drop)]
pub struct Keeper<D: Disk> {
    shares: Shares,
    pub(crate) store: Store<D>,
    intents: Vec<Option<Intent>>,
    report: Option<Ended>,
}

impl<D: Disk> Model for Keeper<D> {
    ghost use Rattle.board.specs.State.{KeeperState, report_seen};

    ghost Value = { KeeperState D };

    ghost view = { λ k. record {
      shares = k.shares;
      store = k.store;
      intents = k.intents.items;
      report = report_seen k.store.guests k.report;
    } };
}

/// Notes what a call of the store has for the book. Whether there was a call.
fn note<D: Disk>(
    report: &mut Option<Ended>,
    store: &Store<D>,
    made: Result<Made, StoreFault>,
) -> Result<bool, StoreFault>
    requires { report.old ≡ None }
    ensures answer { answer_by fault.Store result
        ≡ advance_answer (with_marks store.now.guests made) }
    ensures report { report_seen store.now.guests report.new
        ≡ report_of (with_marks store.now.guests made) }
{
    match made {
        Ok(Made::Wrote) => Ok(true),
        Ok(Made::Synced) => {
            *report = Some(Ended::Synced);
            Ok(true)
        }
        Ok(Made::Idle) => Ok(false),
        Err(fault) => {
            *report = Some(Ended::Failed);
            Err(fault)
        }
    }
}

/// Takes what lies in a place, where it is there and full.
pub(crate) fn take_from<T: Drop>(places: &mut Vec<Option<T>>, at: usize) -> Option<T>
    ensures taken { result ≡ in_place (slice_get places.old.items at) }
    ensures rest { places.new.items ≡ emptied places.old.items at }
{
    if at >= places.len() {
        return None;
    }
    places[at].take()
}

impl<D: Disk> Keeper<D> {
    /// With these places for intents, in which none lies.
    pub(crate) fn new(shares: Shares, store: Store<D>, intents: Vec<Option<Intent>>) -> Keeper<D>
        ensures { result ≡ record {
          shares = shares;
          store = store;
          intents = intents.items;
          report = None;
        } }
    {
        Keeper {
            shares,
            store,
            intents,
            report: None,
        }
    }

    /// The store of so many guests, of whom this was taken, with no intent and no report.
    /// `NoMemory` where the host has no room for their places.
    pub fn over(
        alloc: Global,
        shares: Shares,
        store: Store<D>,
        guests: u16,
    ) -> Result<Keeper<D>, NoMemory>
        ensures { IfOk result (λ k. k ≡ record {
          shares = shares;
          store = store;
          intents = replicate guests None;
          report = None;
        }) }
    {
        let intents = empty_places(alloc, usize::from(guests))?;
        Ok(Keeper::new(shares, store, intents))
    }

    /// The book gives the guest's next intent into its empty place, as [`crate::Board::take`] says.
    /// `Foreign` where the share of the guest isn't the book's; nothing changes then.
    #[inline(always)]
    pub fn take(&mut self, book: &mut Book, guest: u16) -> Result<bool, Refused>
        ensures takes { TakesInto guest (slice_get self.old.intents guest) (taken_answer result)
            (over book.old self.old) (over book.new self.new) }
        ensures foreign { is_err result ≡ true → (slice_get self.old.intents guest ≡ Some None)
            × (is_share book.old self.old.shares guest ≡ false) }
    {
        let at = usize::from(guest);
        match self.intents.get(at) {
            Some(None) => {}
            _ => return Ok(false),
        }
        match book.take(&mut self.shares, guest) {
            Err(refused) => Err(refused),
            Ok(None) => Ok(false),
            Ok(Some(intent)) => {
                self.intents[at] = Some(intent);
                Ok(true)
            }
        }
    }

    /// The store gets the intent in the guest's place, as [`crate::Board::give`] says.
    #[inline(always)]
    pub fn give(&mut self, guest: u16) -> bool
        requires may { (i : IntentSpec) → in_place (slice_get self.old.intents guest) ≡ Some i
            → is_free self.old.store.guests guest ≡ true → MayGive self.old.store.guests i }
        ensures gives { (book : BookView) → GivesWhere guest (is_free self.old.store.guests guest)
            (in_place (slice_get self.old.intents guest)) (did_answer result)
            (over book self.old) (over book self.new) }
        ensures given { (i : IntentSpec) → in_place (slice_get self.old.intents guest) ≡ Some i
            → result ≡ true → Gives i self.old.store.guests self.new.store.guests }
        ensures stays { (self.new.shares ≡ self.old.shares)
            × (self.new.store.disk ≡ self.old.store.disk)
            × (self.new.store.broken ≡ self.old.store.broken) }
        ensures fits { result ≡ true
            → AllFit (D.state self.old.store.disk).len self.old.store.guests }
        ensures held { (parts : ℕ → Part)
            → IsHeld parts self.old.store.guests self.old.store.broken
            (D.state self.old.store.disk)
            → IsHeld parts self.new.store.guests self.new.store.broken
            (D.state self.new.store.disk) }
    {
        if !self.store.is_free(guest) {
            return false;
        }
        match take_from(&mut self.intents, usize::from(guest)) {
            None => false,
            Some(intent) => {
                self.store.give(intent);
                true
            }
        }
    }

    /// The store makes its next call to the disk, as [`crate::Board::advance`] says.
    #[inline(always)]
    pub fn advance(&mut self) -> Result<bool, StoreFault>
        ensures advances { (book : BookView) → AdvancesUnder D.state D.makes self.old.report
            (answer_by fault.Store result) (over book self.old) (over book self.new) }
        ensures breaks { self.new.store.broken ≡ (self.old.store.broken || is_err result) }
        ensures fits { self.old.report ≡ None
            → AllFit (D.state self.old.store.disk).len self.old.store.guests }
    {
        if self.report.is_some() {
            return Ok(false);
        }
        let made = self.store.advance();
        note(&mut self.report, &self.store, made)
    }

    /// The book learns what the store's last call came to, as [`crate::Board::settle`] says.
    /// `Foreign` where the marks of a sync don't fit the book, which stays then.
    #[inline(always)]
    pub fn settle(&mut self, book: &mut Book) -> Result<bool, Refused>
        ensures settles { SettlesBy self.old.report (settled_answer result)
            (over book.old self.old) (over book.new self.new) }
        ensures foreign { is_err result ≡ true
            → IsForeign book.old self.old.shares self.old.report }
        ensures stays { (self.new.shares ≡ self.old.shares)
            × (self.new.store ≡ self.old.store) }
    {
        match self.report.take() {
            None => Ok(false),
            Some(Ended::Synced) => match book.settle(&self.shares, self.store.marks()) {
                Err(refused) => Err(refused),
                Ok(()) => Ok(true),
            },
            Some(Ended::Failed) => {
                book.break_off();
                Ok(true)
            }
        }
    }

    /// Whether the end of the store's last call waits for the book.
    pub fn has_report(&self) -> bool
        ensures { result ≡ is_some self.now.report }
    {
        self.report.is_some()
    }

    /// The intent in the guest's place; `None` for a guest that has no place, too.
    pub fn intent(&self, guest: u16) -> Option<&Intent>
        ensures { option_copied result ≡ in_place (slice_get self.now.intents guest) }
    {
        self.intents.get(usize::from(guest))?.as_ref()
    }

    /// The store, as the last call left it.
    pub fn store(&self) -> &Store<D>
        ensures { result.now ≡ self.now.store }
    {
        &self.store
    }

    /// What was taken of each guest, and the store. An intent that lies in its place is dropped.
    pub fn into_parts(self) -> (Shares, Store<D>)
        ensures { result ≡ (self.shares, self.store) }
    {
        (self.shares, self.store)
    }
}
