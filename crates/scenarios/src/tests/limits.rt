//! How many replies a guest may have held, whom a book knows, and which turns receipts name.
use crate::tests::asked::Asked;
use crate::tests::lines::{Line, play_all};
use crate::tests::scene::Tail;
use rpmb_book::Refused;
use std::test::Fail;

/// Guest 1 has 64 replies held. Another guest isn't held up, and once the first reply has left the
/// job that was given back is answered.
static THE_65TH: [Line; 5] = [
    Line::AskUntaken(1, 64),
    Line::Refuse(1, 1, 64, Refused::Busy),
    Line::Ask(0, Asked::Counter(64)),
    Line::ReadReply(1, 0),
    Line::AskAgain(1, 66),
];

#[test]
fn the_65th_held_reply_is_refused(rt: HostRuntime) -> Result<(), Fail> {
    play_all(rt.alloc(), 2, &THE_65TH)
}

/// Jobs of others are offered with the tally of guest 0, which counts none of them. With its own
/// guest's tally the same job is answered.
static STRANGERS: [Line; 8] = [
    Line::Refuse(0, 2, 1, Refused::Foreign),
    Line::Tally(0, 0),
    Line::NoGuest(2),
    Line::NoReply(2),
    Line::Refuse(0, 1, 1, Refused::Foreign),
    Line::AskAgain(1, 0),
    Line::Tally(0, 0),
    Line::Tally(1, 1),
];

#[test]
fn strangers_are_foreign(rt: HostRuntime) -> Result<(), Fail> {
    play_all(rt.alloc(), 2, &STRANGERS)
}

/// Guest 0 programs a key, and the result is asked for by guest 1, and by guest 0 in this session
/// and in the next. Each reply has write counter, address, block count, result and type.
static RESULTS: [Line; 11] = [
    Line::Ask(0, Asked::Key(0x22)),
    Line::Ask(1, Asked::LastResult),
    Line::Ask(0, Asked::LastResult),
    Line::AskNext(0, Asked::LastResult),
    Line::Give(0),
    Line::Run,
    Line::Settle,
    Line::Reply(0, 1, 1, Tail(0, 0, 1, 0, 0x0100)),
    Line::Reply(0, 1, 1, Tail(0, 0, 1, 0, 0x0100)),
    Line::Reply(0, 2, 1, Tail(0, 0, 0, 1, 0x0000)),
    Line::Reply(1, 1, 0, Tail(0, 0, 0, 1, 0x0000)),
];

#[test]
fn another_session_forgets_the_outcome(rt: HostRuntime) -> Result<(), Fail> {
    play_all(rt.alloc(), 2, &RESULTS)
}

static IN_TURN: [Line; 2] = [Line::AskInTurn(4_096), Line::AreFoundInTurn(4_096)];

#[test]
fn each_of_64_held_replies_of_64_guests_is_found(rt: HostRuntime) -> Result<(), Fail> {
    play_all(rt.alloc(), 64, &IN_TURN)
}
