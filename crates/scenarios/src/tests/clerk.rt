//! What is done to a book and its store, and looked at.
use crate::tests::asked::{Asked, frames_of};
use crate::tests::desk::{Desk, Given, LIFE};
use crate::tests::groups::Group;
use crate::tests::scene::{Tail, get_write_counter, has_tail, job_of, nonce_of, result_read};
use mmio_transport::{Done, Job};
use rpmb_book::{Receipt, Refused, TurnView};
use std::alloc::Global;

/// Reads of guest 0, each of which is two turns, since its reply leaves before the next: the first
/// one's turn, and the numbers from which on and up to which they are meant.
#[derive(Clone, Copy)]
pub struct Answers(pub u128, pub u32, pub u32);

/// What is wanted of a reply.
#[derive(Clone, Copy)]
pub enum Wanted {
    /// Its session, its need and its end.
    Ends(u64, u64, Tail),
    /// The end alone.
    Tail(Tail),
    Nonce(u128),
    /// Its result and its type, of a failure.
    Failure(u16, u16),
    Empty,
}

/// Whether it answers a request of this guest and session, with the id and the need that are told.
fn is_answer(done: &Done, guest: u16, session: u64, need: u64) -> bool {
    let ticket = done.ticket();
    (ticket.guest, ticket.session, ticket.id, done.need()) == (guest, session, 5, need)
}

/// The bytes of a failure: zeros but for its result and its type.
fn failure_of(code: u16, kind: u16) -> [u8; 512] {
    let mut bytes = [0; 512];
    bytes[500..].copy_from_slice(&Tail(0, 0, 0, code, kind).bytes());
    bytes
}

fn is_wanted(done: &Done, guest: u16, wanted: Wanted) -> bool {
    match wanted {
        Wanted::Ends(session, need, tail) => {
            is_answer(done, guest, session, need) && has_tail(done.reply(), tail)
        }
        Wanted::Tail(tail) => has_tail(done.reply(), tail),
        Wanted::Nonce(nonce) => { nonce_of(done.reply()) == Some(nonce.to_be_bytes().as_slice()) }
        Wanted::Failure(code, kind) => {
            is_answer(done, guest, 1, 0) && done.reply() == failure_of(code, kind).as_slice()
        }
        Wanted::Empty => done.reply().is_empty(),
    }
}

/// Whether it is the turn of the read with this nonce.
fn is_of_nonce(turn: &TurnView, nonce: u128) -> bool {
    let frames = get_write_counter(nonce);
    turn.request == frames.as_flattened()
        && turn.writable == 512
        && turn.reply.len() == 512
        && nonce_of(turn.reply) == nonce_of(frames.as_flattened())
}

/// What a read that is given back says of itself.
fn is_read_of(job: &Job, guest: u16, nonce: u128) -> bool {
    let ticket = job.ticket();
    (ticket.guest, ticket.session, ticket.id, ticket.places) == (guest, 1, 5, 3)
        && job.writable() == 512
        && job.request() == get_write_counter(nonce).as_flattened()
}

/// The receipt of a guest for this turn.
fn receipt_of(guest: u16, number: u128) -> Receipt {
    Receipt {
        life: LIFE,
        guest,
        number,
    }
}

impl Answers {
    /// The receipt of guest 0 for the read of this number.
    fn receipt(&self, number: u32) -> Receipt {
        receipt_of(0, u128::from(number).wrapping_mul(2).wrapping_add(self.0))
    }
}

/// A desk, and what is kept from one line to another.
#[derive(Drop)]
pub struct Scene<D: Desk> {
    alloc: Global,
    pub desk: D,
    /// A job that was given back.
    back: Option<Job>,
    /// A receipt that is held.
    pub held: Receipt,
}

impl<D: Desk> Scene<D> {
    pub fn new(alloc: Global, desk: D) -> Scene<D> {
        Scene {
            alloc,
            desk,
            back: None,
            held: receipt_of(0, 0),
        }
    }

    /// Whether the guest's next reply is as wanted.
    pub fn replies(&mut self, guest: u16, wanted: Wanted) -> bool {
        match self.desk.collect(guest) {
            Some(done) => is_wanted(&done, guest, wanted),
            None => false,
        }
    }

    /// The receipt of a guest for these frames.
    fn offer(&mut self, guest: u16, session: u64, frames: &[[u8; 512]]) -> Option<Receipt> {
        match job_of(self.alloc, guest, session, frames) {
            Some(job) => self.desk.offer(self.alloc, guest, job).ok(),
            None => None,
        }
    }

    pub fn ask(&mut self, guest: u16, session: u64, asked: Asked) -> bool {
        match frames_of(self.alloc, asked) {
            Some(frames) => self.offer(guest, session, &frames).is_some(),
            None => false,
        }
    }

    /// The receipt of a guest's read under this nonce.
    fn read(&mut self, guest: u16, nonce: u128) -> Option<Receipt> {
        self.offer(guest, 1, &get_write_counter(nonce))
    }

    pub fn asks_without_room(&mut self, guest: u16) -> bool {
        let Ok(request) = result_read().to_vec(self.alloc) else {
            return false;
        };
        let job = Job::of(guest, 1, 5, 3, Vec::new(self.alloc), request);
        self.desk.offer(self.alloc, guest, job).is_ok()
    }

    pub fn asks_held(&mut self, guest: u16, nonce: u128) -> bool {
        match self.read(guest, nonce) {
            Some(receipt) => {
                self.held = receipt;
                true
            }
            None => false,
        }
    }

    pub fn asks_untaken(&mut self, guest: u16, count: u32) -> bool {
        for nonce in 0..count {
            if self.read(guest, u128::from(nonce)).is_none() {
                return false;
            }
        }
        true
    }

    pub fn asks_in_turn(&mut self, count: u16) -> bool {
        for number in 0..count {
            let (guest, number) = (number % 64, u128::from(number));
            if self.read(guest, number) != Some(receipt_of(guest, number)) {
                return false;
            }
        }
        true
    }

    /// Keeps a job that was given back.
    fn keeps(&mut self, offered: Result<Receipt, (Job, Refused)>) -> Option<Refused> {
        match offered {
            Ok(_) => None,
            Err((job, reason)) => {
                self.back = Some(job);
                Some(reason)
            }
        }
    }

    /// Whether what is kept is the read of a guest under this nonce.
    fn keeps_read(&self, guest: u16, nonce: u128) -> bool {
        match &self.back {
            Some(job) => is_read_of(job, guest, nonce),
            None => false,
        }
    }

    pub fn refuses(&mut self, tally: u16, guest: u16, nonce: u128, reason: Refused) -> bool {
        match job_of(self.alloc, guest, 1, &get_write_counter(nonce)) {
            Some(job) => {
                let offered = self.desk.offer(self.alloc, tally, job);
                self.keeps(offered) == Some(reason) && self.keeps_read(guest, nonce)
            }
            None => false,
        }
    }

    pub fn asks_again(&mut self, guest: u16, number: u128) -> bool {
        match self.back.take() {
            Some(job) => {
                let offered = self.desk.offer(self.alloc, guest, job).ok();
                offered == Some(receipt_of(guest, number))
            }
            None => false,
        }
    }

    pub fn reads(&mut self, guest: u16, count: u32, is_broken: bool) -> bool {
        for number in 0..count {
            let nonce = u128::from(number);
            let wanted = if is_broken {
                Wanted::Failure(1, 0x0200)
            } else {
                Wanted::Nonce(nonce)
            };
            if self.read(guest, nonce).is_none() || !self.replies(guest, wanted) {
                return false;
            }
        }
        true
    }

    pub fn answers(&mut self, answers: Answers) -> bool {
        for number in answers.1..answers.2 {
            let nonce = u128::from(number);
            if self.read(0, nonce) != Some(answers.receipt(number))
                || !self.replies(0, Wanted::Nonce(nonce))
            {
                return false;
            }
        }
        true
    }

    /// A guest's write under this counter is kept by the store, and its reply leaves.
    fn writes(&mut self, guest: u16, counter: u32) -> bool {
        let tail = Tail(counter.wrapping_add(1), 0, 1, 0, 0x0300);
        self.ask(guest, 1, Asked::Write((counter % 256) as u8, counter))
            && self.gives(guest, None)
            && self.desk.run()
            && self.desk.settle()
            && self.replies(guest, Wanted::Tail(tail))
    }

    pub fn writes_all(&mut self, guest: u16, first: u32, count: u32) -> bool {
        for number in 0..count {
            if !self.writes(guest, first.wrapping_add(number)) {
                return false;
            }
        }
        true
    }

    pub fn gives(&mut self, guest: u16, wanted: Option<Group>) -> bool {
        matches!(self.desk.give(guest, wanted), Given::Gave)
    }

    pub fn fails_so_often(&mut self, guest: u16, count: u32) -> bool {
        for _ in 0..count {
            if !self.replies(guest, Wanted::Failure(1, 0x0200)) {
                return false;
            }
        }
        true
    }

    pub fn has_counter(&self, guest: u16, counter: u32) -> bool {
        match self.desk.partition(guest) {
            Some(partition) => partition.counter() == counter,
            None => false,
        }
    }

    pub fn holds(&self, guest: u16, byte: u8) -> bool {
        match self.desk.partition(guest) {
            Some(partition) => partition.block(0) == [byte; 256],
            None => false,
        }
    }

    /// Whether a receipt finds the read under this nonce. `None` where it finds nothing.
    pub fn finds(&self, receipt: &Receipt, nonce: u128) -> Option<bool> {
        match self.desk.find(receipt) {
            Some(turn) => Some(is_of_nonce(&turn, nonce)),
            None => None,
        }
    }

    pub fn finds_all(&self, answers: Answers, folded: u32) -> bool {
        for number in answers.1..answers.2 {
            let wanted = if number < folded { None } else { Some(true) };
            if self.finds(&answers.receipt(number), u128::from(number)) != wanted {
                return false;
            }
        }
        true
    }

    pub fn finds_in_turn(&self, count: u16) -> bool {
        for number in 0..count {
            let (guest, number) = (number % 64, u128::from(number));
            if self.finds(&receipt_of(guest, number), number) != Some(true) {
                return false;
            }
        }
        true
    }
}
