//! What a world notes of a guest.
ghost use Rattle.std.specs.Prelude.{◌≡◌, ◌+◌, ◌≤◌, ◌<◌, ◌++◌, ◌∷◌, List, [], length, take, IfOk};
ghost use Rattle.std.specs.Prelude.{OnOk, OnErr};
ghost use Rattle.world.specs.Logs.{Asked, asked_of, cut_log};
ghost use Rattle.world.specs.World.{pop_of, publication_of};

use mmio_transport::{Done, Job};
use rpmb_core::NoMemory;
use std::alloc::Global;
use std::marker::Model;

/// A request that was accepted, as its chain gave it.
#[derive(Drop)]
pub struct Accepted {
    request: Vec<u8>,
    writable: u64,
}

impl Model for Accepted {
    ghost use Rattle.world.specs.Logs.{Asked};

    ghost Value = { Asked };

    ghost view = { λ a. record { request = a.request.items; writable = a.writable } };
}

/// A pop that gave a job. Over all lives it says which chain that was.
#[derive(Clone, Copy, Debug, PartialEq, Eq)]
pub struct Pop {
    /// The life of the board, counted by its openings.
    pub life: u64,
    /// The guest's session.
    pub session: u64,
    /// How often the queue had been made ready in that life.
    pub readiness: u64,
    /// The number of the pop on its device.
    pub number: u64,
}

/// A reply that was written into its guest's used ring.
#[derive(Clone, Copy, Debug, PartialEq, Eq)]
pub struct Publication {
    /// The id of the chain.
    pub id: u16,
    /// The length of the reply in bytes.
    pub length: usize,
    /// The guest's sequence that had to be settled before the reply left.
    pub need: u64,
    /// The pop that gave its job.
    pub pop: Pop,
}

/// What was accepted of a guest since its base, and what was popped of it and published to it in
/// all lives.
#[derive(Drop)]
pub(crate) struct Log {
    accepted: Vec<Accepted>,
    published: Vec<Publication>,
    popped: Vec<Pop>,
}

impl Model for Log {
    ghost use Rattle.std.specs.Prelude.{vec_capacity};
    ghost use Rattle.world.specs.Logs.{GuestLog};

    ghost Value = { GuestLog };

    ghost view = { λ l. record {
      accepted = l.accepted.items;
      published = l.published.items;
      room = vec_capacity l.published;
      popped = l.popped.items;
      pop_room = vec_capacity l.popped;
    } };
}

impl Accepted {
    /// The readable bytes of its chain.
    pub fn request(&self) -> &[u8]
        ensures { result.now ≡ self.now.request }
    {
        &self.request
    }

    /// How many bytes its reply may have.
    pub fn writable(&self) -> u64
        ensures { result ≡ self.now.writable }
    {
        self.writable
    }

    fn of(alloc: Global, job: &Job) -> Result<Accepted, NoMemory>
        ensures { IfOk result (λ a. a ≡ asked_of job.now) }
    {
        Ok(Accepted {
            request: job.request().to_vec(alloc)?,
            writable: job.writable(),
        })
    }
}

impl Pop {
    pub(crate) fn of(life: u64, job: &Job) -> Pop
        ensures { result ≡ pop_of life job.now }
    {
        let ticket = job.ticket();
        Pop {
            life,
            session: ticket.session,
            readiness: ticket.readiness,
            number: ticket.number,
        }
    }
}

impl Publication {
    pub(crate) fn of(life: u64, done: &Done) -> Publication
        ensures { result ≡ publication_of life done.now }
    {
        let ticket = done.ticket();
        Publication {
            id: ticket.id,
            length: done.reply().len(),
            need: done.need(),
            pop: Pop {
                life,
                session: ticket.session,
                readiness: ticket.readiness,
                number: ticket.number,
            },
        }
    }
}

impl Log {
    /// Nothing was accepted, popped or published.
    pub(crate) fn new(alloc: Global) -> Log
        ensures accepted { result.accepted ≡ [] }
        ensures published { result.published ≡ [] }
        ensures popped { result.popped ≡ [] }
    {
        Log {
            accepted: Vec::new(alloc),
            published: Vec::new(alloc),
            popped: Vec::new(alloc),
        }
    }

    /// Makes room for one more pop.
    pub(crate) fn make_room(&mut self) -> Result<(), NoMemory>
        ensures room { OnOk result (length self.new.popped < self.new.pop_room) }
        ensures rest { self.new ≡ record self.old { pop_room = self.new.pop_room } }
    {
        self.popped.reserve(1)?;
        Ok(())
    }

    /// Notes a pop, for which there is room.
    pub(crate) fn pop(&mut self, pop: Pop)
        requires { length self.old.popped < self.old.pop_room }
        ensures { self.new ≡ record self.old { popped = self.old.popped ++ pop ∷ [] } }
    {
        self.popped.push_reserved(pop);
    }

    /// Notes the request of a job as accepted, and makes room for the publication of its reply, of
    /// the 64 at most that the book holds before it, and of the one on its way.
    pub(crate) fn note(&mut self, alloc: Global, job: &Job) -> Result<(), NoMemory>
        ensures noted { OnOk result
            (self.new.accepted ≡ self.old.accepted ++ asked_of job.now ∷ []) }
        ensures unnoted { OnErr result (self.new.accepted ≡ self.old.accepted) }
        ensures published { self.new.published ≡ self.old.published }
        ensures popped { self.new.popped ≡ self.old.popped }
        ensures kept { self.old.room ≤ self.new.room }
        ensures room { OnOk result (length self.old.published + 66 ≤ self.new.room) }
    {
        let noted = Accepted::of(alloc, job)?;
        self.published.reserve(66)?;
        self.accepted.push(noted)?;
        Ok(())
    }

    /// Forgets the last request that was noted.
    pub(crate) fn forget(&mut self)
        ensures { (rest : List Asked) (last : Asked) → self.old.accepted ≡ rest ++ last ∷ []
            → self.new ≡ record self.old { accepted = rest } }
    {
        let count = self.accepted.len();
        self.accepted.truncate(count.saturating_sub(1));
    }

    /// Keeps so many accepted requests, or all.
    pub(crate) fn keep(&mut self, count: Option<usize>)
        ensures { self.new ≡ cut_log count self.old }
    {
        if let Some(count) = count {
            self.accepted.truncate(count);
        }
    }

    /// Notes a publication, for which there is room.
    pub(crate) fn publish(&mut self, publication: Publication)
        requires { length self.old.published < self.old.room }
        ensures { self.new
            ≡ record self.old { published = self.old.published ++ publication ∷ [] } }
    {
        self.published.push_reserved(publication);
    }

    /// What was accepted.
    pub(crate) fn accepted(&self) -> &[Accepted]
        ensures { result.now ≡ self.now.accepted }
    {
        &self.accepted
    }

    /// What was popped.
    pub(crate) fn popped(&self) -> &[Pop]
        ensures { result.now ≡ self.now.popped }
    {
        &self.popped
    }

    /// What was published.
    pub(crate) fn published(&self) -> &[Publication]
        ensures { result.now ≡ self.now.published }
    {
        &self.published
    }
}
