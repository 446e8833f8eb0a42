//! A book on fresh partitions, and the store that keeps what it accepts.
ghost use Rattle.std.specs.Prelude.{◌≡◌, IfSome, map};

use crate::tests::groups::{Group, group_of};
use crate::tests::image::{Image, image_of};
use crate::tests::scene::{KEY, board_of};
use disk::CutDisk;
use flusher::{Made, Store};
use intent_slots::Intent;
use mmio_transport::{Done, Job};
use recovery::open;
use rpmb_book::{Book, Receipt, Refused, Shares, Tally, TurnView};
use rpmb_core::Partition;
use rpmb_frame::BoardConfig;
use std::alloc::Global;

/// The life that scenes open their book with.
pub const LIFE: u64 = 7;

/// What became of an intent that was to go to the store.
#[derive(Clone, Copy)]
pub enum Given {
    /// It went there.
    Gave,
    /// None waited.
    Nothing,
    /// The book refused the guest.
    Refused,
    /// It was another one, or the store doesn't take it.
    Wrong,
}

/// A book and its store. The methods promise nothing, so that what stands above them is proved
/// without the contracts of either.
pub trait Desk: Drop {
    /// Offers the book a job, with the tally of this guest.
    fn offer(&mut self, alloc: Global, tally: u16, job: Job) -> Result<Receipt, (Job, Refused)>;

    /// The guest's next reply, where one may leave.
    fn collect(&mut self, guest: u16) -> Option<Done>;

    /// Takes the guest's next intent to the store, where it is the one that is told.
    fn give(&mut self, guest: u16, wanted: Option<Group>) -> Given;

    /// Has the store make its calls, until it is idle.
    fn run(&mut self) -> bool;

    /// Settles the book to the marks of the store; whether they are its own.
    fn settle(&mut self) -> bool;

    /// Up to which sequence the store has what it was given by the guest.
    fn mark(&self, guest: u16) -> u64;

    /// Up to which sequence the guest is settled.
    fn settled(&self, guest: u16) -> Option<u64>;

    fn partition(&self, guest: u16) -> Option<&Partition>;

    /// The turn that a receipt names.
    fn find(&self, receipt: &Receipt) -> Option<TurnView<'_>>;

    /// How many jobs of a guest were answered.
    fn count(&self, guest: u16) -> Option<u64>;

    /// How many requests the book has answered.
    fn turns(&self) -> u64;

    /// The book learns that its store broke.
    fn break_off(&mut self);

    fn is_broken(&self) -> bool;

    fn life(&self) -> u64;
}

/// A book with its store, and what those hold that call it.
#[derive(Drop)]
pub struct BookAndStore {
    book: Book,
    tallies: Vec<Tally>,
    shares: Shares,
    store: Store<CutDisk>,
}

/// Whether it is the guest's intent, under the key, and this one where one is told.
fn is_intent(intent: &Intent, guest: u16, wanted: Option<Group>) -> bool {
    match wanted {
        Some(wanted) => {
            intent.guest() == guest && intent.key() == &KEY && group_of(intent) == wanted
        }
        None => true,
    }
}

/// Gives an intent to the store, where that may be given it.
fn gives(store: &mut Store<CutDisk>, intent: Intent, guest: u16, wanted: Option<Group>) -> Given {
    let is_wanted = is_intent(&intent, guest, wanted);
    if !store.takes(&intent) {
        return Given::Wrong;
    }
    store.give(intent);
    if is_wanted { Given::Gave } else { Given::Wrong }
}

fn runs(store: &mut Store<CutDisk>) -> bool {
    for _ in 0..100_u8 {
        match store.advance() {
            Ok(Made::Idle) => return true,
            Ok(_) => {}
            Err(_) => return false,
        }
    }
    false
}

impl Desk for BookAndStore {
    fn offer(&mut self, alloc: Global, tally: u16, job: Job) -> Result<Receipt, (Job, Refused)> {
        match self.tallies.get_mut(usize::from(tally)) {
            Some(tally) => self.book.submit(alloc, tally, job),
            None => Err((job, Refused::Foreign)),
        }
    }

    fn collect(&mut self, guest: u16) -> Option<Done> {
        self.book.collect(guest)
    }

    fn give(&mut self, guest: u16, wanted: Option<Group>) -> Given {
        match self.book.take(&mut self.shares, guest) {
            Ok(Some(intent)) => gives(&mut self.store, intent, guest, wanted),
            Ok(None) => Given::Nothing,
            Err(_) => Given::Refused,
        }
    }

    fn run(&mut self) -> bool {
        runs(&mut self.store)
    }

    fn settle(&mut self) -> bool {
        self.book.settle(&self.shares, self.store.marks()).is_ok()
    }

    fn mark(&self, guest: u16) -> u64 {
        self.store.marks().get(guest)
    }

    fn settled(&self, guest: u16) -> Option<u64> {
        self.book.settled(guest)
    }

    fn partition(&self, guest: u16) -> Option<&Partition> {
        self.book.partition(guest)
    }

    fn find(&self, receipt: &Receipt) -> Option<TurnView<'_>> {
        self.book.find(receipt)
    }

    fn count(&self, guest: u16) -> Option<u64> {
        match self.tallies.get(usize::from(guest)) {
            Some(tally) => Some(tally.count()),
            None => None,
        }
    }

    fn turns(&self) -> u64 {
        self.book.submit_turns()
    }

    fn break_off(&mut self) {
        self.book.break_off();
    }

    fn is_broken(&self) -> bool {
        self.book.is_broken()
    }

    fn life(&self) -> u64 {
        self.book.life()
    }
}

/// A partition for each guest of the board, without a key and with blocks of zeros.
fn fresh_partitions(alloc: Global, board: &BoardConfig) -> Option<Vec<Partition>>
    ensures { IfSome result (λ v. map (λ p. p.capacity) v.items ≡ map (λ g. g.capacity) board.now) }
{
    let mut partitions = Vec::new(alloc);
    for guest in board.guests() {
        let Ok(partition) = Partition::new(alloc, guest.capacity) else {
            return None;
        };
        if partitions.push(partition).is_err() {
            return None;
        }
    }
    Some(partitions)
}

fn book_on(alloc: Global, board: &BoardConfig) -> Option<(Book, Vec<Tally>, Shares)> {
    match fresh_partitions(alloc, board) {
        Some(partitions) => Book::open(alloc, LIFE, board, partitions).ok(),
        None => None,
    }
}

fn store_on(alloc: Global, board: &BoardConfig) -> Option<Store<CutDisk>> {
    match image_of(alloc, board, Image::One) {
        Some(disk) => match open(alloc, disk, board) {
            Ok((store, _)) => Some(store),
            Err(_) => None,
        },
        None => None,
    }
}

/// The desk at its opening, with so many guests.
pub fn desk_of(alloc: Global, guests: usize) -> Option<BookAndStore> {
    let Some(board) = board_of(alloc, guests) else {
        return None;
    };
    let Some((book, tallies, shares)) = book_on(alloc, &board) else {
        return None;
    };
    match store_on(alloc, &board) {
        Some(store) => Some(BookAndStore {
            book,
            tallies,
            shares,
            store,
        }),
        None => None,
    }
}
