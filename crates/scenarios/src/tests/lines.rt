//! Scenes as tables: what is asked of a book and its store, line by line, and what is seen then.
use crate::tests::asked::Asked;
use crate::tests::clerk::{Answers, Scene, Wanted};
use crate::tests::desk::{Desk, Given, desk_of};
use crate::tests::groups::Group;
use crate::tests::scene::Tail;
use rpmb_book::Refused;
use std::alloc::Global;
use std::test::Fail;

/// A line of a scene.
#[derive(Clone, Copy)]
pub enum Line {
    /// The book accepts a request of a guest, in its first session.
    Ask(u16, Asked),
    /// The same in its second session.
    AskNext(u16, Asked),
    /// The book accepts a guest's request for the result, in a chain that has no room for a reply.
    AskWithoutRoom(u16),
    /// A guest reads its counter under this nonce, and its receipt is held.
    AskHeld(u16, u128),
    /// A guest reads its counter so often, under the nonces 0, 1, .., and takes no reply.
    AskUntaken(u16, u32),
    /// Sixty-four guests read their counters in turn, under the nonces 0, 1, .., so often in all;
    /// the receipts are of these turns.
    AskInTurn(u16),
    /// A guest's read under this nonce is offered with the tally of another one. It is refused for
    /// this reason, and given back as it was offered.
    Refuse(u16, u16, u128, Refused),
    /// What was given back is accepted of this guest, and is this turn.
    AskAgain(u16, u128),
    /// A guest reads its counter so often, each time after the reply before has left.
    Reads(u16, u32),
    /// The same of a book that is broken: each reply is a failure.
    FailedReads(u16, u32),
    /// Guest 0 makes these reads, each under its number.
    Answer(Answers),
    /// A guest with its key writes block 0 under the counters from this one on, so often. Each
    /// write goes to the store and is settled, and its reply leaves, before the next.
    Writes(u16, u32, u32),
    /// The guest's next intent goes to the store.
    Give(u16),
    /// It is this one.
    GiveThis { guest: u16, intent: Group },
    /// No intent of the guest waits.
    NoIntent(u16),
    /// The book has no such guest.
    NoGuest(u16),
    /// The store makes its calls, until it is idle.
    Run,
    /// Up to which sequence the store has what it was given by the guest.
    Mark(u16, u64),
    /// The book takes the marks of the store.
    Settle,
    /// Up to which sequence the guest is settled.
    Settled(u16, u64),
    /// The write counter of the guest's partition.
    Counter(u16, u32),
    /// Block 0 of the guest's partition is of this byte.
    Holds(u16, u8),
    /// How many requests the book has answered.
    Turns(u64),
    /// How many of them its guest's tally counts.
    Tally(u16, u64),
    /// The book learns that its store broke.
    BreakOff,
    /// Whether it has learnt that.
    IsBroken(bool),
    /// The life that the book was opened with.
    Life(u64),
    /// The guest's next reply, of this session, has this need and this end.
    Reply(u16, u64, u64, Tail),
    /// It is to a read under this nonce.
    ReadReply(u16, u128),
    /// It is a failure in the first session, with need 0: zeros but for this result and type.
    Failure(u16, u16, u16),
    /// So many of a guest's replies are those of reads that failed.
    Failures(u16, u32),
    /// The guest's next reply has no bytes.
    EmptyReply(u16),
    /// No reply to the guest leaves.
    NoReply(u16),
    /// The receipt that is held finds its request, which has this nonce.
    HeldIsFound(u128),
    /// It finds nothing.
    HeldIsGone,
    /// The receipts of these reads find their turns, but for those of reads before this one.
    AreFound(Answers, u32),
    /// As many receipts of the sixty-four guests in turn find theirs.
    AreFoundInTurn(u16),
}

impl<D: Desk> Scene<D> {
    /// Whether a line that looks happens as it is told.
    fn is_seen(&mut self, line: Line) -> bool {
        match line {
            Line::Mark(guest, sequence) => self.desk.mark(guest) == sequence,
            Line::Settled(guest, sequence) => self.desk.settled(guest) == Some(sequence),
            Line::Counter(guest, counter) => self.has_counter(guest, counter),
            Line::Holds(guest, byte) => self.holds(guest, byte),
            Line::Turns(count) => self.desk.turns() == count,
            Line::Tally(guest, count) => self.desk.count(guest) == Some(count),
            Line::IsBroken(is_broken) => self.desk.is_broken() == is_broken,
            Line::Life(life) => self.desk.life() == life,
            Line::Reply(guest, session, need, tail) => {
                self.replies(guest, Wanted::Ends(session, need, tail))
            }
            Line::ReadReply(guest, nonce) => self.replies(guest, Wanted::Nonce(nonce)),
            Line::Failure(guest, code, kind) => self.replies(guest, Wanted::Failure(code, kind)),
            Line::Failures(guest, count) => self.fails_so_often(guest, count),
            Line::EmptyReply(guest) => self.replies(guest, Wanted::Empty),
            Line::NoReply(guest) => self.desk.collect(guest).is_none(),
            Line::HeldIsFound(nonce) => self.finds(&self.held, nonce) == Some(true),
            Line::HeldIsGone => self.desk.find(&self.held).is_none(),
            Line::AreFound(answers, folded) => self.finds_all(answers, folded),
            Line::AreFoundInTurn(count) => self.finds_in_turn(count),
            _ => false,
        }
    }

    /// Whether a line that gives an intent to the store happens as it is told.
    fn is_kept(&mut self, line: Line) -> bool {
        match line {
            Line::Give(guest) => self.gives(guest, None),
            Line::GiveThis { guest, intent } => self.gives(guest, Some(intent)),
            Line::NoIntent(guest) => matches!(self.desk.give(guest, None), Given::Nothing),
            Line::NoGuest(guest) => matches!(self.desk.give(guest, None), Given::Refused),
            Line::Run => self.desk.run(),
            Line::Settle => self.desk.settle(),
            Line::BreakOff => {
                self.desk.break_off();
                true
            }
            _ => self.is_seen(line),
        }
    }

    /// Whether a line happens as it is told.
    fn happens(&mut self, line: Line) -> bool {
        match line {
            Line::Ask(guest, asked) => self.ask(guest, 1, asked),
            Line::AskNext(guest, asked) => self.ask(guest, 2, asked),
            Line::AskWithoutRoom(guest) => self.asks_without_room(guest),
            Line::AskHeld(guest, nonce) => self.asks_held(guest, nonce),
            Line::AskUntaken(guest, count) => self.asks_untaken(guest, count),
            Line::AskInTurn(count) => self.asks_in_turn(count),
            Line::Refuse(tally, guest, nonce, why) => self.refuses(tally, guest, nonce, why),
            Line::AskAgain(guest, number) => self.asks_again(guest, number),
            Line::Reads(guest, count) => self.reads(guest, count, false),
            Line::FailedReads(guest, count) => self.reads(guest, count, true),
            Line::Answer(answers) => self.answers(answers),
            Line::Writes(guest, first, count) => self.writes_all(guest, first, count),
            _ => self.is_kept(line),
        }
    }

    /// How many lines happen as they are told, from the first on.
    fn play(&mut self, lines: &[Line]) -> usize {
        for (number, line) in lines.iter().enumerate() {
            if !self.happens(*line) {
                return number;
            }
        }
        lines.len()
    }
}

/// How many lines of a scene of its own happen, with so many guests. A desk is held here alone,
/// since its drop is dear to prove.
fn played(alloc: Global, guests: usize, lines: &[Line]) -> Option<usize> {
    match desk_of(alloc, guests) {
        Some(desk) => {
            let mut scene = Scene::new(alloc, desk);
            Some(scene.play(lines))
        }
        None => None,
    }
}

/// Plays a scene of its own, with so many guests, whose lines all have to happen as they are told.
pub fn play_all(alloc: Global, guests: usize, lines: &[Line]) -> Result<(), Fail> {
    match played(alloc, guests, lines) {
        Some(number) if number == lines.len() => Ok(()),
        Some(number) => Err(Fail::new(format_args!("not as told: line {number}"))),
        None => Err(Fail::from("no scene")),
    }
}
