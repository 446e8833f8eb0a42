//! How a book answers a job.
ghost use Rattle.std.specs.Prelude.{◌≡◌, ◌+◌, IfOk, IfErr, OnOk, OnErr, None, unwrap_or, length};
ghost use Rattle.std.specs.Option.{ForSome};
ghost use Rattle.rpmb_frame.specs.Request.{frames_of};
ghost use Rattle.rpmb_core.specs.MacCheck.{Says};
ghost use Rattle.rpmb_book.specs.Book.{state, guest_of, counted_in, is_full, with_turn};
ghost use Rattle.rpmb_book.specs.Book.{submit_of, refusal};
ghost use Rattle.rpmb_book.specs.Left.{first_left};
ghost use Rattle.rpmb_book.specs.Fold.{after_submit, folded, roomy};
ghost use Rattle.rpmb_book.specs.GuestPlanned.{IsGuestPlanned, is_failure};
ghost use Rattle.rpmb_book.specs.Allowed.{IsAllowed};

use crate::book::Book;
use crate::checked::Checked;
use crate::did::Did;
use crate::guest_state::{GuestPlan, HELD, Said};
use crate::history::{Filed, SUBMITS};
use crate::receipt::Receipt;
use crate::refused::Refused;
use crate::rooms::Rooms;
use crate::tally::Tally;
use mmio_transport::Job;
use rpmb_core::{MacCheck, NoMemory};
use std::alloc::Global;

/// How many Submits a book may answer in one life.
const COUNTED: u64 = u64::MAX;

impl Book {
    /// Whether the history has no place for a Submit, even after a fold.
    #[tactic(auto, unfolding(crate::specs::Book::is_full))]
    fn is_full(&self) -> bool
        ensures { result ≡ is_full self.now }
    {
        (self.history.len() == SUBMITS && !self.is_first_collected()) || self.counted == COUNTED
    }

    /// Whether the first Submit of the history was collected.
    fn is_first_collected(&self) -> bool
        ensures { result ≡ first_left (state self.now) self.now.opening self.now.history }
    {
        self.history.first_has_left(&self.guests)
    }

    /// Why a job is refused, whatever memory there is; None where it is not.
    fn refusal(&self, tally: &Tally, job: &Job) -> Option<Refused>
        ensures { result ≡ refusal self.now tally.now job.now }
    {
        let Some(guest) = self.guests.get(usize::from(job.ticket().guest)) else {
            return Some(Refused::Foreign);
        };
        if tally.guest() != job.ticket().guest || tally.count() != guest.submits() {
            return Some(Refused::Foreign);
        }
        if guest.held_len() == HELD {
            return Some(Refused::Busy);
        }
        if self.is_full() {
            return Some(Refused::HistoryFull);
        }
        None
    }

    /// Answers a job: the partition, the stored outcome and what waits for the store change as its
    /// request says, and its reply is held until its need is settled. A broken book accepts
    /// nothing: the reply is a failure, which may leave at once, and nothing else changes. Where
    /// 16,384 Submits stand, the history rolls first: the opening becomes the state after the
    /// longest beginning in which every Submit was collected, and that beginning goes. A refusal
    /// gives the job back and changes nothing. It is the first of these that applies: `Foreign`
    /// where the book lacks the job's guest, or the tally isn't of that guest, or not its count of
    /// Submits; `Busy` where the guest has 64 held replies; `HistoryFull` where 16,384 Submits
    /// stand and the first of them wasn't collected, or where 2^64 - 1 were counted in this life;
    /// `NoMemory`.
    pub fn submit(
        &mut self,
        alloc: Global,
        tally: &mut Tally,
        job: Job,
    ) -> Result<Receipt, (Job, Refused)>
        ensures made { OnOk result (self.new ≡ after_submit self.old job) }
        ensures counted { OnOk result
            (tally.new ≡ record tally.old { count = tally.old.count + 1 }) }
        ensures total { OnOk result (counted_in self.new ≡ counted_in self.old + 1) }
        ensures named { IfOk result (λ r. r
            ≡ record {
              life = self.old.life;
              guest = job.guest;
              number = self.old.folded + length self.old.history;
            }) }
        ensures allowed { OnOk result (refusal self.old tally.old job ≡ None) }
        ensures refused { IfErr result (λ e. (e.0 ≡ job)
            × (e.1 ≡ unwrap_or (refusal self.old tally.old job) Refused.NoMemory)) }
        ensures unchanged { OnErr result ((self.new ≡ self.old) × (tally.new ≡ tally.old)) }
    {
        match self.submit_checked(alloc, tally, Checked::plain(alloc, job)) {
            Ok((receipt, _)) => Ok(receipt),
            Err((checked, refused)) => Err((checked.into_job(), refused)),
        }
    }

    /// Does what `submit` does, with what was made of the job before: where that fits, neither a
    /// MAC of the request nor memory is made here. Beside the receipt it gives memory that is left,
    /// for the next job.
    pub fn submit_checked(
        &mut self,
        alloc: Global,
        tally: &mut Tally,
        checked: Checked,
    ) -> Result<(Receipt, Rooms), (Checked, Refused)>
        ensures made { OnOk result (self.new ≡ after_submit self.old checked) }
        ensures counted { OnOk result
            (tally.new ≡ record tally.old { count = tally.old.count + 1 }) }
        ensures total { OnOk result (counted_in self.new ≡ counted_in self.old + 1) }
        ensures named { IfOk result (λ r. r.0
            ≡ record {
              life = self.old.life;
              guest = checked.guest;
              number = self.old.folded + length self.old.history;
            }) }
        ensures allowed { OnOk result (refusal self.old tally.old checked ≡ None) }
        ensures refused { IfErr result (λ e. (e.0 ≡ checked)
            × (e.1 ≡ unwrap_or (refusal self.old tally.old checked) Refused.NoMemory)) }
        ensures unchanged { OnErr result ((self.new ≡ self.old) × (tally.new ≡ tally.old)) }
    {
        if let Some(refused) = self.refusal(tally, checked.job()) {
            return Err((checked, refused));
        }
        let (job, check, rooms) = checked.parts();
        let Ok((plan, left)) = self.plan(alloc, tally, &job, &check, rooms) else {
            return Err((Checked::plain(alloc, job), Refused::NoMemory));
        };
        self.make_room(tally, &job);
        Ok((self.answer(alloc, tally, job, plan), left))
    }

    /// Makes all the memory that the answer to a job takes, where neither the rooms serve nor what
    /// a Submit that has gone held, and says what is left of the two.
    fn plan(
        &mut self,
        alloc: Global,
        tally: &Tally,
        job: &Job,
        check: &MacCheck,
        rooms: Rooms,
    ) -> Result<(GuestPlan, Rooms), NoMemory>
        requires allowed { refusal self.old tally.now job.now ≡ None }
        requires says { Says (frames_of job.now.request) check.now }
        ensures same { self.new ≡ self.old }
        ensures planned { IfOk result (λ p. ForSome (guest_of self.old job.now.guest)
            (λ g. IsGuestPlanned job.now g p.0)) }
        ensures failure { IfOk result (λ p. is_failure p.0 ≡ (state self.old).broken) }
    {
        let (rooms, left) = rooms.or(self.history.spare(alloc));
        let guest = &self.guests[usize::from(job.ticket().guest)];
        let plan = guest.plan(alloc, job, self.broken, check, rooms, &mut self.reply)?;
        Ok((plan, left))
    }

    /// Lets the history roll where it has no place for a Submit.
    fn make_room(&mut self, tally: &Tally, job: &Job)
        requires allowed { refusal self.old tally.now job.now ≡ None }
        ensures made { self.new ≡ roomy self.old }
        ensures total { counted_in self.new ≡ counted_in self.old }
        ensures allowed { IsAllowed self.new tally.now job.now }
    {
        if self.history.len() == SUBMITS {
            self.fold();
        }
    }

    /// Answers a job as planned. It takes no memory.
    fn answer(&mut self, alloc: Global, tally: &mut Tally, job: Job, plan: GuestPlan) -> Receipt
        requires allowed { IsAllowed self.old tally.old job }
        requires plan { ForSome (guest_of self.old job.guest) (λ g. IsGuestPlanned job g plan) }
        requires failure { is_failure plan ≡ (state self.old).broken }
        ensures made { self.new ≡ with_turn self.old (submit_of self.old job) }
        ensures counted { tally.new ≡ record tally.old { count = tally.old.count + 1 } }
        ensures named { result ≡ record {
          life = self.old.life;
          guest = job.guest;
          number = self.old.folded + length self.old.history;
        } }
    {
        self.told = self.told.then(&Did::Submit(&job));
        let receipt = Receipt {
            life: self.life,
            guest: job.ticket().guest,
            number: self.turns,
        };
        let writable = job.writable();
        let guest = &mut self.guests[usize::from(receipt.guest)];
        let Said {
            request,
            reply,
            key,
        } = guest.submit(alloc, job, plan, &mut self.reply);
        self.history.push(Filed {
            number: receipt.number,
            place: tally.count(),
            guest: receipt.guest,
            request,
            writable,
            reply,
            key,
        });
        self.turns += 1;
        self.counted += 1;
        tally.raise();
        receipt
    }

    /// Makes the opening the state after the longest beginning of the history in which every Submit
    /// was collected, and lets that beginning go. The state stays. It takes no memory.
    fn fold(&mut self)
        ensures folded { self.new ≡ folded self.old }
        ensures stays { state self.new ≡ state self.old }
    {
        self.history.roll(&self.guests);
        self.told = self.told.rolled();
    }
}
