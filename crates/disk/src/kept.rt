//! What the owner of an outbox keeps, which only clauses read.
ghost use Rattle.std.specs.Prelude.{◌≡◌, List, [], ◌∷◌};
ghost use Rattle.disk.specs.Kept.{Note};
ghost use Rattle.std.specs.Borrow.{ftrue};

use std::marker::{Model, PhantomData};

/// The file of an outbox's owner: what reads of it give, and what a stop may leave of it, once each
/// write was made that went into the outbox. It has no bytes: a proof alone knows it.
#[derive(Drop)]
pub(crate) struct Kept {
    marker: PhantomData<u8>,
    pub ghost log: { List Note },
}

impl Model for Kept {
    ghost also_owns = { λ _. ftrue };
}

impl Kept {
    pub(crate) fn new() -> Kept
        ensures { result.log ≡ [] }
    {
        Kept {
            marker: PhantomData,
        }
    }

    /// Notes a write at an offset, which is the only number; a sync, without a number; or, of two
    /// numbers, the bytes of the file as it was read.
    pub(crate) fn note(&mut self, _numbers: &[u64], _bytes: &[u8])
        ensures { self.new.log ≡ (_numbers.now, _bytes.now) ∷ self.old.log }
    {}
}
