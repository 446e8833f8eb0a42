//! A reply that lacks its MAC alone.
ghost use Rattle.std.specs.Prelude.{◌≡◌, ◌≤◌, ◌*◌, ◌/◌, Some, length};
ghost use Rattle.mmio_transport.specs.Job.{done_of, room_of};
ghost use Rattle.rpmb_core.specs.Reply.{closed, failed};
ghost use Rattle.rpmb_book.specs.Guest.{break_code};

use hmac256::MacKey;
use mmio_transport::{Done, Job};
use rpmb_core::{
    DATA_WRITE_RESPONSE, GENERAL_FAILURE, PROGRAM_KEY_RESPONSE, WRITE_FAILURE, close, fail,
};
use std::marker::Model;

/// A reply on its way that lacks but its MAC: whoever has it makes that, and needs no book for it.
/// Contracts see the `Done` that it becomes.
#[derive(Drop)]
pub struct Due {
    job: Job,
    /// Whole frames.
    reply: Vec<u8>,
    need: u64,
    /// The key of the MAC; None where the reply gets none.
    key: Option<[u8; 32]>,
}

impl Model for Due {
    ghost use Rattle.std.specs.Prelude.{◌≡◌, ◌≤◌, ◌*◌, ◌/◌, length};
    ghost use Rattle.rpmb_core.specs.Reply.{closed};
    ghost use Rattle.mmio_transport.specs.Job.{done_of, room_of};
    ghost use Rattle.mmio_transport.specs.Job as model;

    ghost Value = { model.Done };

    ghost view = { λ d. done_of d.job (closed d.key d.reply.items) d.need };

    ghost invariant = { λ d. (length d.reply.items ≤ room_of d.job)
        × (length d.reply.items ≡ 512 * (length d.reply.items / 512)) };
}

impl Due {
    /// The reply to a job, of whole frames, which may leave once the guest's sequence `need` is
    /// settled. Into the last frame goes the MAC under this key, where there is one.
    pub(crate) fn of(job: Job, reply: Vec<u8>, need: u64, key: Option<[u8; 32]>) -> Due
        requires room { length reply.items ≤ room_of job }
        requires whole { length reply.items ≡ 512 * (length reply.items / 512) }
        ensures { result ≡ done_of job (closed key reply.items) need }
    {
        Due {
            job,
            reply,
            need,
            key,
        }
    }

    /// The sequence of the guest that has to be settled before the reply leaves.
    pub(crate) fn need(&self) -> u64
        ensures { result ≡ self.now.need }
    {
        self.need
    }

    /// Becomes a failure of this type, which gets no MAC and may leave at once. It takes no memory.
    pub(crate) fn fail(&mut self, kind: u16)
        ensures { self.new ≡ record self.old {
          reply = failed kind (break_code kind) self.old.reply;
          need = 0;
        } }
    {
        fail(&mut self.reply, kind, break_code(kind));
        self.key = None;
        self.need = 0;
    }

    /// Makes the MAC, where it isn't made yet. Where the caller has the key with its pads hashed,
    /// that saves two compressions; any other key isn't looked at. It takes no memory.
    #[tactic(auto, unfolding(rpmb_core::specs::Reply::closed))]
    pub fn close(&mut self, known: Option<&MacKey>)
        ensures { self.new ≡ self.old }
    {
        if let Some(key) = self.key.take() {
            close_under(&key, known, &mut self.reply);
        }
    }

    /// The reply with its MAC, which `close` makes where that wasn't done before. It takes no
    /// memory.
    #[tactic(auto, unfolding(rpmb_core::specs::Reply::closed))]
    pub fn done(self, known: Option<&MacKey>) -> Done
        ensures { result ≡ self }
    {
        let Due {
            job,
            mut reply,
            need,
            key,
        } = self;
        if let Some(key) = key {
            close_under(&key, known, &mut reply);
        }
        Done::of(job, reply, need)
    }
}

/// Puts the MAC under a key into whole frames.
fn close_under(key: &[u8; 32], known: Option<&MacKey>, reply: &mut [u8])
    requires whole { length reply.old ≡ 512 * (length reply.old / 512) }
    ensures value { reply.new ≡ closed (Some key.now) reply.old }
    ensures len { length reply.new ≡ length reply.old }
{
    match known {
        Some(known) if known.key() == *key => close(known, reply),
        _ => close(&MacKey::new(key), reply),
    }
}

/// The result of a failure reply of this type, to a request that was answered before the store
/// broke.
fn break_code(kind: u16) -> u16
    ensures { result ≡ break_code kind }
{
    if kind == PROGRAM_KEY_RESPONSE || kind == DATA_WRITE_RESPONSE {
        WRITE_FAILURE
    } else {
        GENERAL_FAILURE
    }
}
