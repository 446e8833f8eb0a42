//! The answer to a request among the lines of a run, which may come one after another.
ghost use Rattle.std.specs.Prelude.{◌≡◌, ◌++◌, ◌∷◌, ℕ, IfOk, List, None, OnOk, Option, Some, []};
ghost use Rattle.std.specs.Prelude.{option_map};
ghost use Rattle.script.specs.Script.{lines_of};
ghost use Rattle.rpmb_client.specs.Answer.{answer_in, answer_of, is_asked, replies_of, reply_of};
ghost use Rattle.rpmb_client.specs.Finding.{IsFinder, count_after, counted, kept_after, kept_of};
ghost use Rattle.rpmb_client.specs.Finding.{kept_seen};
ghost use Rattle.rpmb_client.specs.Finding.{only_kept, or_else};
ghost use Rattle.rpmb_client.specs.Seen.{chosen, used_seen};

use crate::answer::{Used, has_nonce, is_whole, read_used};
use std::alloc::{AllocError, Global};

/// The answer among lines, or how many there are.
#[derive(Drop)]
pub enum Choice {
    /// The answer.
    Answer(Used),
    /// So many replies, and so many with the nonce.
    Replies(u64, u64),
}

/// Whether a reply is of whole frames, the last of which has the nonce.
fn is_asked(nonce: &[u8; 16], reply: &[u8]) -> bool
    ensures { result ≡ is_asked nonce.now reply.now }
{
    if !is_whole(reply) {
        return false;
    }
    let (frames, _) = reply.as_chunks::<512>();
    has_nonce(nonce, &frames[frames.len() - 1])
}

/// The reply of a line, where it gives one, and where a nonce is named only with that.
fn reply_of(alloc: Global, asked: Option<[u8; 16]>, line: &str) -> Result<Option<Used>, AllocError>
    ensures { IfOk result (λ read. option_map used_seen read ≡ reply_of asked line.now) }
{
    let Some(used) = read_used(alloc, line)? else {
        return Ok(None);
    };
    match asked {
        Some(nonce) if !is_asked(&nonce, used.reply.as_slice()) => Ok(None),
        _ => Ok(Some(used)),
    }
}

/// The first of the replies that came, and whether there were more of them.
#[derive(Drop)]
pub struct Kept {
    first: Option<Used>,
    has_more: bool,
}

impl Kept {
    #[tactic(auto, unfolding(crate::specs::Finding::kept_of))]
    fn none() -> Kept
        ensures { kept_seen result ≡ kept_of [] }
    {
        Kept {
            first: None,
            has_more: false,
        }
    }

    /// One reply more, where there is one.
    fn add(&mut self, read: Option<Used>)
        ensures { kept_seen self.new ≡ kept_after (kept_seen self.old)
            (option_map used_seen read) }
    {
        let Some(used) = read else {
            return;
        };
        if self.first.is_some() {
            self.has_more = true;
        } else {
            self.first = Some(used);
        }
    }

    /// The only reply, where there is just one.
    fn only(self) -> Option<Used>
        ensures { option_map used_seen result ≡ only_kept (kept_seen self) }
    {
        if self.has_more { None } else { self.first }
    }
}

/// What finds the answer among lines that come one after another. It keeps no more of them than two
/// replies.
#[derive(Drop)]
pub struct Finder {
    /// The nonce that the answer has, where there are several.
    nonce: [u8; 16],
    /// Of all replies.
    all: Kept,
    /// Of those with the nonce.
    asked: Kept,
    /// How many there are of each.
    counts: (u64, u64),
}

/// The only one of all replies, or else the only one with the nonce, or how many there are of each.
fn choice_of(all: Option<Used>, asked: Option<Used>, counts: (u64, u64)) -> Choice
    ensures choice { chosen result ≡ or_else (option_map used_seen all)
        (option_map used_seen asked) }
    ensures counts { (count asked : ℕ) → result ≡ Choice.Replies count asked
        → counts ≡ (count, asked) }
{
    match (all, asked) {
        (Some(used), _) | (None, Some(used)) => Choice::Answer(used),
        (None, None) => Choice::Replies(counts.0, counts.1),
    }
}

/// One more, where a line gives a reply, as far as there are numbers.
fn count_after(count: u64, is_one: bool) -> u64
    ensures { result ≡ count_after count is_one }
{
    if is_one {
        count.saturating_add(1)
    } else {
        count
    }
}

impl Finder {
    /// What finds the answer to this nonce, before a line came.
    pub fn new(nonce: &[u8; 16]) -> Finder
        ensures { IsFinder nonce.now [] result }
    {
        Finder {
            nonce: *nonce,
            all: Kept::none(),
            asked: Kept::none(),
            counts: (0, 0),
        }
    }

    /// Takes one line more, without its line feed.
    pub fn take(&mut self, alloc: Global, line: &str) -> Result<(), AllocError>
        ensures { OnOk result ((nonce : List ℕ) (lines : List (List ℕ))
            → IsFinder nonce lines self.old → IsFinder nonce (lines ++ line.now ∷ []) self.new) }
    {
        let any = reply_of(alloc, None, line)?;
        let asked = reply_of(alloc, Some(self.nonce), line)?;
        let (count, asked_count) = self.counts;
        self.counts = (
            count_after(count, any.is_some()),
            count_after(asked_count, asked.is_some()),
        );
        self.all.add(any);
        self.asked.add(asked);
        Ok(())
    }

    /// The answer among the lines that came, or how many replies they gave.
    pub fn answer(self) -> Choice
        ensures answer { (nonce : List ℕ) (lines : List (List ℕ)) → IsFinder nonce lines self
            → chosen result ≡ answer_of nonce lines }
        ensures counts { (count asked : ℕ) → result ≡ Choice.Replies count asked
            → self.counts ≡ (count, asked) }
    {
        choice_of(self.all.only(), self.asked.only(), self.counts)
    }
}

/// The answer among lines: their only reply, or else the only one with the nonce; or how many
/// replies they give.
pub fn find_answer(alloc: Global, nonce: &[u8; 16], lines: &str) -> Result<Choice, AllocError>
    ensures choice { IfOk result (λ choice. chosen choice ≡ answer_in nonce.now lines.now) }
    ensures counts { IfOk result (λ choice. (count asked : ℕ)
        → choice ≡ Choice.Replies count asked
        → (count ≡ counted (replies_of None (lines_of lines.now)))
        × (asked ≡ counted (replies_of (Some nonce.now) (lines_of lines.now)))) }
{
    let mut finder = Finder::new(nonce);
    for line in lines.split('\n') {
        finder.take(alloc, line)?;
    }
    Ok(finder.answer())
}
