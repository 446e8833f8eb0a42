//! Which guests wait for answers.
ghost use Rattle.std.specs.Prelude.{◌≡◌, nat_lt};
ghost use Rattle.board.specs.State.{owes, waiting};

use crate::rest::Rest;
use disk::Disk;

impl<D: Disk> Rest<D> {
    /// Whether a chain of the guest was popped whose reply its device hasn't written: it is to be
    /// answered, its reply is held until it may leave, or is to be written. Not so of a guest that
    /// the board lacks.
    pub fn owes(&self, guest: u16) -> bool
        ensures { result ≡ owes guest self.now }
    {
        if self.job(guest).is_some() || self.done(guest).is_some() {
            return true;
        }
        match self.book.held(guest) {
            Some(held) => held > 0,
            None => false,
        }
    }

    /// Whether fewer than so many chains of the guest were popped whose replies its device hasn't
    /// written.
    pub fn awaits_fewer(&self, guest: u16, most: u16) -> bool
        ensures { result ≡ nat_lt (waiting guest self.now) most }
    {
        let held = match self.book.held(guest) {
            Some(held) => held as u128,
            None => 0,
        };
        let job = if self.job(guest).is_some() { 1 } else { 0 };
        let done = if self.done(guest).is_some() { 1 } else { 0 };
        held + job + done < u128::from(most)
    }
}
