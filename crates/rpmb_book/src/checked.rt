//! A job whose MAC was checked before the book is locked.
ghost use Rattle.std.specs.Prelude.{◌≡◌};
ghost use Rattle.rpmb_frame.specs.Request.{frames_of};
ghost use Rattle.rpmb_core.specs.MacCheck.{Says};

use crate::rooms::Rooms;
use hmac256::MacKey;
use mmio_transport::Job;
use rpmb_core::MacCheck;
use rpmb_frame::{Limits, Request};
use std::alloc::Global;
use std::marker::Model;

/// A job on its way to a book, with what may be made of it before that is locked: what the check of
/// its MAC came to, and memory for its answer. Contracts see the job.
#[derive(Drop)]
pub struct Checked {
    job: Job,
    check: MacCheck,
    rooms: Rooms,
    is_prepared: bool,
}

impl Model for Checked {
    ghost use Rattle.rpmb_frame.specs.Request.{frames_of};
    ghost use Rattle.rpmb_core.specs.MacCheck.{Says};
    ghost use Rattle.mmio_transport.specs.Job as model;

    ghost Value = { model.Job };

    ghost view = { λ c. c.job };

    ghost invariant = { λ c. Says (frames_of c.job.request) c.check };
}

impl Checked {
    /// A job of which nothing was made yet: the book makes its MAC and takes its memory. It takes
    /// none.
    pub fn plain(alloc: Global, job: Job) -> Checked
        ensures { result ≡ job }
    {
        Checked {
            job,
            check: MacCheck::none(),
            rooms: Rooms::none(alloc),
            is_prepared: false,
        }
    }

    /// Checks the MAC of a write under this key, and makes memory for the answer, of what is spare
    /// where that fits. The limits say how long the answer may be. Whatever is handed in, the
    /// book's answer stays: with another key or other limits it makes MAC or memory itself, and
    /// where memory is refused here, it asks for it. A second call makes nothing.
    pub fn prepare(&mut self, alloc: Global, limits: Limits, key: Option<&MacKey>, spare: Rooms)
        ensures { self.new ≡ self.old }
    {
        if self.is_prepared {
            return;
        }
        let request = Request::classify(self.job.request(), self.job.writable(), limits);
        self.rooms = Rooms::of(alloc, &request, spare);
        self.check = match key {
            Some(key) => MacCheck::of_bytes(self.job.request(), key),
            None => MacCheck::none(),
        };
        self.is_prepared = true;
    }

    /// The job alone.
    pub fn into_job(self) -> Job
        ensures { result ≡ self }
    {
        self.job
    }

    /// The job, to be looked at.
    pub(crate) fn job(&self) -> &Job
        ensures { result.now ≡ self.now }
    {
        &self.job
    }

    /// The job, what its check came to, and its memory.
    pub(crate) fn parts(self) -> (Job, MacCheck, Rooms)
        ensures job { result.0 ≡ self }
        ensures check { Says (frames_of self.request) result.1 }
    {
        (self.job, self.check, self.rooms)
    }
}
