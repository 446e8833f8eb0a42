//! The requests of a book's life, and how the oldest are let go.
ghost use Rattle.std.specs.Prelude.{◌≡◌, ◌<◌, ◌≤◌, ◌++◌, ◌∷◌, [], IfOk, Some, option_map, length};
ghost use Rattle.std.specs.Prelude.{slice_get};
ghost use Rattle.std.specs.Option.{ForSome, option_copied};
ghost use Rattle.rpmb_book.specs.History.{below, filed_seen, first_has_left, found_in, has_left};
ghost use Rattle.rpmb_book.specs.History.{has_left_of, of_guest, still_filed, Rise};
ghost use Rattle.rpmb_book.specs.Receipt.{turn_seen, HasFrames};

use crate::guest_state::GuestState;
use crate::receipt::TurnView;
use crate::rooms::Rooms;
use std::alloc::{AllocError, Global};
use std::collections::VecDeque;
use std::marker::Model;

/// How many Submits a history may hold.
pub const SUBMITS: usize = 16_384;

/// A Submit of the history: what was asked and answered then, and where it stands.
#[derive(Drop)]
pub struct Filed {
    /// The number of its turn in this life, folded ones counted.
    pub number: u128,
    /// How many Submits of its guest came before it in this life.
    pub place: u64,
    pub guest: u16,
    pub request: Vec<u8>,
    pub writable: u64,
    /// The reply without its MAC, and the key that this is made under.
    pub reply: Vec<u8>,
    pub key: Option<[u8; 32]>,
}

impl Model for Filed {
    ghost use Rattle.std.specs.Prelude.{◌≡◌, ◌*◌, ◌/◌, length};
    ghost use Rattle.rpmb_core.specs.Reply.{closed};
    ghost use Rattle.rpmb_book.specs.History as model;

    ghost Value = { model.Filed };

    ghost view = { λ f. record {
      number = f.number;
      place = f.place;
      guest = f.guest;
      request = f.request.items;
      writable = f.writable;
      reply = closed f.key f.reply.items;
    } };

    ghost invariant = { λ f. length f.reply.items ≡ 512 * (length f.reply.items / 512) };
}

impl Filed {
    /// What was asked and answered, where it is the guest's.
    pub fn seen_by(&self, guest: u16) -> Option<TurnView<'_>>
        ensures seen { option_map turn_seen result
            ≡ option_map filed_seen (of_guest guest (Some self.now)) }
        ensures whole { ForSome result HasFrames }
    {
        if self.guest != guest {
            return None;
        }
        Some(TurnView {
            request: &self.request,
            writable: self.writable,
            reply: &self.reply,
            key: self.key,
        })
    }

    /// Whether its reply has left.
    fn has_left(&self, guests: &[GuestState]) -> bool
        ensures { result ≡ has_left guests.now self.now }
    {
        has_left_of(guests.get(usize::from(self.guest)), self.place)
    }
}

/// Whether the reply in this place among those to a guest has left.
fn has_left_of(guest: Option<&GuestState>, place: u64) -> bool
    ensures { result ≡ has_left_of (option_copied guest.entry) place }
{
    match guest {
        None => false,
        Some(known) => place < known.left(),
    }
}

/// The Submits of a history, of which contracts see the list, with room for all that may stand.
///
/// Those that go stay in memory, in front of those that stand, until their places are needed: so
/// each Submit that comes gives back what one held, just before it needs as much, and no call gives
/// back all.
#[derive(Drop)]
pub struct History {
    filed: VecDeque<Filed>,
    /// How many of the first have gone.
    gone: usize,
}

impl Model for History {
    ghost use Rattle.std.specs.Prelude.{List, ◌≤◌, drop, length};
    ghost use Rattle.std.specs.VecDeque.{deque_capacity};
    ghost use Rattle.rpmb_book.specs.History as model;

    ghost Value = { List model.Filed };

    ghost view = { λ h. drop h.gone h.filed.items };

    ghost invariant = { λ h. (16384 ≤ deque_capacity h.filed) × (h.gone ≤ length h.filed.items)
        × (length h.filed.items ≤ 16384) };
}

impl History {
    /// A history without Submits.
    pub fn new(alloc: Global) -> Result<History, AllocError>
        ensures { IfOk result (λ h. h ≡ []) }
    {
        Ok(History {
            filed: VecDeque::with_capacity(alloc, SUBMITS)?,
            gone: 0,
        })
    }

    /// How many Submits stand.
    pub fn len(&self) -> usize
        ensures { result ≡ length self.now }
    {
        self.filed.len() - self.gone
    }

    /// The Submit in this place among those that stand.
    fn at(&self, place: usize) -> &Filed
        requires { place < length self.now }
        ensures { slice_get self.now place ≡ Some result.now }
    {
        &self.filed[self.gone + place]
    }

    /// What a Submit that has gone held, for the answer to one that comes; no memory where none has
    /// gone, or places are left. What stands stays.
    pub fn spare(&mut self, alloc: Global) -> Rooms
        ensures { self.new ≡ self.old }
    {
        if self.gone == 0 || self.filed.len() < SUBMITS {
            return Rooms::none(alloc);
        }
        self.gone -= 1;
        match self.filed.pop_front() {
            None => Rooms::none(alloc),
            Some(filed) => Rooms {
                reply: filed.request,
                copy: filed.reply,
                blocks: Vec::new(alloc),
            },
        }
    }

    /// Appends a Submit. It takes no memory.
    pub fn push(&mut self, filed: Filed)
        requires room { length self.old < 16_384 }
        ensures { self.new ≡ self.old ++ filed ∷ [] }
    {
        if self.filed.len() < SUBMITS {
            self.filed.push_back_reserved(filed);
            return;
        }
        // More places are taken than Submits stand, so the first of them has gone.
        let _gone = self.filed.pop_front();
        self.gone -= 1;
        self.filed.push_back_reserved(filed);
    }

    /// Whether the reply to the first Submit has left.
    pub fn first_has_left(&self, guests: &[GuestState]) -> bool
        ensures { result ≡ first_has_left guests.now self.now }
    {
        if self.len() == 0 {
            return false;
        }
        self.at(0).has_left(guests)
    }

    /// Lets the first Submits go whose replies have left.
    pub fn roll(&mut self, guests: &[GuestState])
        ensures { self.new ≡ still_filed guests.now self.old }
    {
        for _ in 0..self.len() {
            if !self.first_has_left(guests) {
                return;
            }
            self.gone += 1;
        }
    }

    /// How many Submits, from the front, have numbers below this one.
    fn below(&self, number: u128) -> usize
        requires { Rise 0 self.now }
        ensures { result ≡ below number self.now }
    {
        let mut low = 0;
        let mut high = self.len();
        while low < high {
            let middle = low + (high - low) / 2;
            if self.at(middle).number < number {
                low = middle + 1;
            } else {
                high = middle;
            }
        }
        low
    }

    /// The Submit whose turn has this number.
    pub fn find(&self, number: u128) -> Option<&Filed>
        requires { Rise 0 self.now }
        ensures { option_copied result ≡ found_in number self.now }
    {
        let place = self.below(number);
        if place >= self.len() {
            return None;
        }
        let filed = self.at(place);
        if filed.number == number {
            Some(filed)
        } else {
            None
        }
    }
}
