//! What was found in replies.
ghost use Rattle.std.specs.Prelude.{◌≡◌, ◌||◌, false, nat_lt, true};

use crate::doubts::{Doubt, Wrong};
use rpmb_client::{Keys, Used};
use rpmb_frame::Frame;

/// How many replies were explained, how many of them are torn, of a script or have a wrong MAC or
/// nonce, and how many say that a request was refused; whether a line gave a reply at all, and what
/// is wrong with the first answer that is.
#[derive(Clone, Copy)]
pub struct Counts {
    pub replies: u64,
    pub wrong: u64,
    pub refused: u64,
    pub has_answer: bool,
    pub doubt: Doubt,
    /// How many lines there were.
    pub lines: u64,
    /// A bit for each guest of whom a frame came.
    pub guests: u64,
    /// Whether a frame came of a guest of a number that no board has.
    pub has_stranger: bool,
    /// A bit for each result that a reply has, as `result_bit` gives it.
    pub results: u64,
}

/// The bit of a guest; none of a number above 63, which no board has.
fn bit(guest: u64) -> u64 {
    if guest < 64 { 1 << guest } else { 0 }
}

/// The bit of a result, which is that of its number: the standard's have none above 7 but 0x80,
/// which has the next.
pub(crate) fn result_bit(code: u16) -> u64 {
    match code {
        0x0080 => 1 << 8,
        0..=7 => 1 << code,
        _ => 0,
    }
}

/// The bit of the result that a reply has.
fn seen_result(used: &Used) -> u64 {
    let (frames, _) = used.reply.as_slice().as_chunks::<512>();
    match frames.last() {
        Some(last) => result_bit(Frame::from_bytes(last).result()),
        None => 0,
    }
}

/// The bit of the guest whose frames a line gives, where it gives any.
fn seen(used: &Used) -> u64 {
    if used.reply.len() < 512 {
        return 0;
    }
    bit(used.guest)
}

/// The guest of a key that judged no frame of those that came, where one of these has no key.
pub fn unused_key(keys: &Keys, counts: &Counts) -> Option<u64> {
    if keys.others.is_some() {
        return None;
    }
    let guests = counts.guests;
    let mut left = guests;
    let mut unused = None;
    for own in keys.own.as_slice() {
        let bit = bit(own.guest);
        left &= !bit;
        if guests & bit == 0 {
            unused = Some(own.guest);
        }
    }
    if left == 0 && !counts.has_stranger {
        return None;
    }
    unused
}

/// One more, where there is one and a number for it.
fn more(count: u64, is_one: bool) -> u64
    ensures { nat_lt 0 result ≡ (nat_lt 0 count || is_one) }
{
    if !is_one || count == u64::MAX {
        return count;
    }
    count + 1
}

impl Counts {
    pub fn none() -> Counts
        ensures wrong { result.wrong ≡ 0 }
        ensures refused { result.refused ≡ 0 }
        ensures answer { result.has_answer ≡ false }
    {
        Counts {
            replies: 0,
            wrong: 0,
            refused: 0,
            has_answer: false,
            doubt: Doubt {
                line: 0,
                why: Wrong::Torn,
            },
            lines: 0,
            guests: 0,
            has_stranger: false,
            results: 0,
        }
    }

    /// Counts a line that is wrong, or isn't, for this reason.
    fn add_line(&mut self, is_wrong: bool, why: Wrong)
        ensures wrong { nat_lt 0 self.new.wrong ≡ (nat_lt 0 self.old.wrong || is_wrong) }
        ensures refused { self.new.refused ≡ self.old.refused }
        ensures answer { self.new.has_answer ≡ self.old.has_answer }
    {
        self.lines = self.lines.saturating_add(1);
        let line = self.lines;
        if is_wrong && self.wrong == 0 {
            self.doubt = Doubt { line, why };
        }
        self.wrong = more(self.wrong, is_wrong);
    }

    /// Counts a reply, and keeps what is wrong with it, where it is the first that is.
    pub fn add(&mut self, used: &Used, is_wrong: bool, is_refused: bool, why: Wrong)
        ensures wrong { nat_lt 0 self.new.wrong ≡ (nat_lt 0 self.old.wrong || is_wrong) }
        ensures refused { nat_lt 0 self.new.refused ≡ (nat_lt 0 self.old.refused || is_refused) }
        ensures answer { self.new.has_answer ≡ true }
    {
        self.add_line(is_wrong, why);
        self.has_answer = true;
        self.guests |= seen(used);
        self.has_stranger = self.has_stranger || used.guest > 63;
        self.results |= seen_result(used);
        self.replies = more(self.replies, true);
        self.refused = more(self.refused, is_refused);
    }

    /// Counts a line that gives no reply, where it is no answer: torn, or of a script.
    pub fn add_unread(&mut self, is_no_answer: bool, why: Wrong)
        ensures wrong { nat_lt 0 self.new.wrong ≡ (nat_lt 0 self.old.wrong || is_no_answer) }
        ensures refused { self.new.refused ≡ self.old.refused }
        ensures answer { self.new.has_answer ≡ self.old.has_answer }
    {
        self.add_line(is_no_answer, why);
        self.replies = more(self.replies, is_no_answer);
    }
}
