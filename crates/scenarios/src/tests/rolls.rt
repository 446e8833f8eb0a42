//! A history that rolls: which requests are answered still, which receipts find their turn, and
//! what is kept.
use crate::tests::asked::Asked;
use crate::tests::clerk::Answers;
use crate::tests::groups::{Group, OF_A_KEY, OF_A_WRITE};
use crate::tests::lines::{Line, play_all};
use crate::tests::scene::Tail;
use rpmb_book::Refused;
use std::test::Fail;

/// At the 16,385th and the 32,769th read all before it goes.
static READS_40000: [Line; 3] = [
    Line::Answer(Answers(0, 0, 40_000)),
    Line::Turns(40_000),
    Line::AreFound(Answers(0, 0, 40_000), 32_768),
];

#[test]
fn the_book_answers_40000_requests(rt: HostRuntime) -> Result<(), Fail> {
    play_all(rt.alloc(), 1, &READS_40000)
}

/// A job of guest 0 is given back, since the first reply of the history, which is guest 1's, hasn't
/// left; that counts nothing and folds nothing. Once the reply has left, all that was answered
/// goes, and the job is answered.
static WAITS_FOR_ONE: [Line; 14] = [
    Line::AskHeld(1, 99),
    Line::Answer(Answers(1, 0, 16_383)),
    Line::Refuse(0, 0, 16_383, Refused::HistoryFull),
    Line::Turns(16_384),
    Line::Tally(0, 16_383),
    Line::HeldIsFound(99),
    Line::AreFound(Answers(1, 0, 16_383), 0),
    Line::NoReply(0),
    Line::ReadReply(1, 99),
    // One turn more than the reads: that reply's Collect.
    Line::AskAgain(0, 32_768),
    Line::ReadReply(0, 16_383),
    Line::HeldIsGone,
    Line::AreFound(Answers(1, 0, 16_383), 16_383),
    Line::AreFound(Answers(2, 16_383, 16_384), 0),
];

#[test]
fn a_history_waits_for_its_first_reply(rt: HostRuntime) -> Result<(), Fail> {
    play_all(rt.alloc(), 2, &WAITS_FOR_ONE)
}

/// A reply of guest 1 is held behind 10,000 reads of guest 0: these go, and what stands behind them
/// stays.
static BEHIND_READS: [Line; 7] = [
    Line::Answer(Answers(0, 0, 10_000)),
    Line::AskHeld(1, 99),
    Line::Answer(Answers(1, 10_000, 16_384)),
    Line::HeldIsFound(99),
    Line::AreFound(Answers(0, 0, 10_000), 10_000),
    Line::AreFound(Answers(1, 10_000, 16_384), 0),
    Line::ReadReply(1, 99),
];

#[test]
fn what_stands_behind_a_held_reply_stays(rt: HostRuntime) -> Result<(), Fail> {
    play_all(rt.alloc(), 2, &BEHIND_READS)
}

/// Guest 0 programs its key and writes, and guest 2, which has no key, reads. Of guest 1 a read,
/// its key and another read are held when the history rolls first. It rolls once more when those
/// have left.
#[rattlefmt::skip]
static KEPT: [Line; 43] = [
    Line::Ask(0, Asked::Key(0x11)),
    Line::Give(0), Line::Run, Line::Settle,
    Line::Reply(0, 1, 1, Tail(0, 0, 1, 0, 0x0100)),
    Line::Reads(2, 8_000),
    Line::Writes(0, 0, 6),
    // Two writes are taken as one.
    Line::Ask(0, Asked::Write(0xa0, 6)),
    Line::Ask(0, Asked::Write(0xa1, 7)),
    Line::GiveThis {
        guest: 0,
        intent: Group {
            requests: 2,
            sequence: 9,
            counter: 7,
            first: Some(0xa0),
            last: Some(0xa0),
            ..OF_A_WRITE
        },
    },
    Line::Run, Line::Settle,
    Line::Reply(0, 1, 8, Tail(7, 0, 1, 0, 0x0300)),
    Line::Reply(0, 1, 9, Tail(8, 0, 1, 0, 0x0300)),
    Line::Reads(2, 8_200),
    Line::Ask(1, Asked::Counter(6)),
    Line::Ask(1, Asked::Key(0x11)),
    Line::Ask(1, Asked::Counter(7)),
    Line::Writes(0, 8, 3),
    Line::Turns(16_215),
    Line::Reads(2, 180),
    Line::Turns(16_395),
    Line::Counter(0, 11),
    Line::Holds(0, 10),
    Line::Settled(0, 12),
    // The last write's outcome is told in its session alone.
    Line::Ask(0, Asked::LastResult),
    Line::AskNext(0, Asked::LastResult),
    Line::Reply(0, 1, 12, Tail(11, 0, 1, 0, 0x0300)),
    Line::Reply(0, 2, 12, Tail(0, 0, 0, 1, 0x0000)),
    Line::Writes(0, 11, 1),
    Line::Reply(1, 1, 0, Tail(0, 0, 1, 7, 0x0200)),
    Line::NoReply(1),
    Line::GiveThis { guest: 1, intent: OF_A_KEY }, Line::Run, Line::Settle,
    Line::Reply(1, 1, 1, Tail(0, 0, 1, 0, 0x0100)),
    Line::Reply(1, 1, 1, Tail(0, 0, 1, 0, 0x0200)),
    Line::NoReply(1),
    Line::Reads(2, 16_384),
    Line::Writes(1, 0, 2),
    Line::Counter(1, 2),
    Line::Holds(1, 1),
    Line::Turns(32_784),
];

#[test]
fn what_was_written_stays_where_the_history_rolls(rt: HostRuntime) -> Result<(), Fail> {
    play_all(rt.alloc(), 3, &KEPT)
}

/// The store breaks before the history rolls, and then after it. Of guest 1 a key that is settled,
/// and a write and a read that aren't, are held over both.
#[rattlefmt::skip]
static BROKEN: [&[Line]; 2] = [
    &[
        Line::Reads(0, 16_000),
        Line::Ask(1, Asked::Key(0x11)),
        Line::Give(1), Line::Run, Line::Settle,
        Line::Ask(1, Asked::Write(0xa5, 0)),
        Line::Ask(1, Asked::Counter(2)),
        Line::BreakOff,
        Line::FailedReads(0, 400),
        Line::Turns(16_403),
        Line::IsBroken(true),
        Line::Reply(1, 1, 1, Tail(0, 0, 1, 0, 0x0100)),
        Line::Failure(1, 5, 0x0300),
        Line::Failure(1, 1, 0x0200),
        Line::NoReply(1),
    ],
    &[
        Line::Reads(0, 16_000),
        Line::Ask(1, Asked::Key(0x11)),
        Line::Give(1), Line::Run, Line::Settle,
        Line::Ask(1, Asked::Write(0xa5, 0)),
        Line::Ask(1, Asked::Counter(2)),
        Line::Reads(0, 400),
        Line::Turns(16_403),
        Line::IsBroken(false),
        Line::BreakOff,
        Line::FailedReads(0, 10),
        Line::Reply(1, 1, 1, Tail(0, 0, 1, 0, 0x0100)),
        Line::Failure(1, 5, 0x0300),
        Line::Failure(1, 1, 0x0200),
        Line::NoReply(1),
        // It rolls once more, over the Break.
        Line::FailedReads(0, 16_384),
        Line::IsBroken(true),
        // What waited still waits, and nothing more is accepted.
        Line::Ask(1, Asked::Write(0x66, 1)),
        Line::Failure(1, 1, 0x0300),
        Line::Counter(1, 1),
        Line::Holds(1, 0xa5),
        Line::GiveThis { guest: 1, intent: OF_A_WRITE },
        Line::NoIntent(1),
        Line::Turns(32_798),
    ],
];

#[test]
fn a_broken_book_answers_on_where_the_history_rolls(rt: HostRuntime) -> Result<(), Fail> {
    for lines in &BROKEN {
        play_all(rt.alloc(), 2, *lines)?;
    }
    Ok(())
}
