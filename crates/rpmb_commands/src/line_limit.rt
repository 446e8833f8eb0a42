//! Standard input whose lines have an end: a line that is longer than any that is wanted there is
//! refused before more of it is taken into memory.
ghost use Rattle.std.specs.Prelude.{◌≡◌};

use std::io;
use std::io::{BufRead, Read};

/// The most bytes of a line with its line feed: 32 KiB, where the longest that `rpmbd run` prints
/// has 16,398, and the longest line of a request that `rpmb` makes 17,424.
const LINE_BYTES: u64 = 32_768;

/// What a reader gives, up to a line of more bytes than any has. Of a longer one it fails by
/// `FileTooLarge` from then on. What it gives is the reader's own.
#[derive(Drop)]
pub struct LineLimit<B> {
    inner: B,
    /// How many bytes of the line were taken.
    taken: u64,
    /// The place behind the first line feed of what is shown; 0 where that has none.
    end: u64,
}

/// The place behind the first line feed; 0 where there is none.
fn end_of_line(bytes: &[u8]) -> u64 {
    match bytes.iter().position(|byte| *byte == b'\n') {
        Some(place) => (place as u64).saturating_add(1),
        None => 0,
    }
}

impl<B> LineLimit<B> {
    pub fn new(inner: B) -> LineLimit<B>
        ensures { result.inner ≡ inner }
    {
        LineLimit {
            inner,
            taken: 0,
            end: 0,
        }
    }

    /// Notes that so many of the bytes that were shown are taken.
    fn note(&mut self, amount: u64)
        ensures { self.new.inner ≡ self.old.inner }
    {
        if self.end > 0 && amount >= self.end {
            self.taken = amount - self.end;
            self.end = 0;
        } else {
            self.taken = self.taken.saturating_add(amount);
            self.end = self.end.saturating_sub(amount);
        }
    }
}

impl<B: Read> Read for LineLimit<B> {
    ghost remaining = { λ limit. B.remaining limit.inner };

    /// Reads past line feeds without a look at them.
    fn read(&mut self, buf: &mut [u8]) -> io::Result<usize> {
        self.inner.read(buf)
    }
}

impl<B: BufRead> BufRead for LineLimit<B> {
    ghost consumable_len = { λ limit. B.consumable_len limit.inner };

    fn fill_buf(&mut self) -> io::Result<&[u8]> {
        if self.taken > LINE_BYTES {
            return Err(io::Error::from(io::ErrorKind::FileTooLarge));
        }
        // A second call shows the same bytes. For the checker: what is given is lent where it is
        // given.
        self.end = end_of_line(self.inner.fill_buf()?);
        self.inner.fill_buf()
    }

    fn consume(&mut self, amount: usize) {
        self.note(amount as u64);
        self.inner.consume(amount);
    }
}
