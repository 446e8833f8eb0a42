//! What a book tells after its store broke.

use crate::tests::asked::Asked;
use crate::tests::groups::OF_A_WRITE;
use crate::tests::lines::{Line, play_all};
use crate::tests::scene::Tail;
use rpmb_book::Refused;
use std::test::Fail;

/// A read before the key, the key, a write, a read and a lone request for the result, of which the
/// key alone is settled when the store breaks.
#[rattlefmt::skip]
static BROKEN: [Line; 22] = [
    Line::Ask(0, Asked::Counter(1)),
    Line::Ask(0, Asked::Key(0x11)),
    Line::Give(0),
    Line::Ask(0, Asked::Write(0xa5, 0)),
    Line::Ask(0, Asked::Counter(2)),
    Line::Ask(0, Asked::LastResult),
    Line::Run, Line::Settle,
    Line::IsBroken(false),
    Line::BreakOff,
    Line::BreakOff,
    Line::IsBroken(true),
    // What is settled leaves as it was made; of the others each is a failure with the type of its
    // request.
    Line::Reply(0, 1, 0, Tail(0, 0, 1, 7, 0x0200)),
    Line::Reply(0, 1, 1, Tail(0, 0, 1, 0, 0x0100)),
    Line::Failure(0, 5, 0x0300),
    Line::Failure(0, 1, 0x0200),
    Line::Failure(0, 1, 0x0000),
    Line::NoReply(0),
    // A broken book accepts nothing, and what waited still waits.
    Line::Ask(0, Asked::Write(0x66, 1)),
    Line::Failure(0, 1, 0x0300),
    Line::Counter(0, 1),
    Line::GiveThis { guest: 0, intent: OF_A_WRITE },
];

#[test]
fn a_break_fails_what_is_not_settled(rt: HostRuntime) -> Result<(), Fail> {
    play_all(rt.alloc(), 1, &BROKEN)
}

/// One request of each kind, of guest 1, to a book that is broken: a failure of each, with the type
/// of its response, and nothing where there is no room. Then of guest 0 as many reads as may wait:
/// a broken book refuses a guest's job only where 64 replies of it are held.
static EACH_KIND: [Line; 20] = [
    Line::BreakOff,
    Line::Ask(1, Asked::Key(0x11)),
    Line::Ask(1, Asked::Counter(1)),
    Line::Ask(1, Asked::Write(0x5a, 0)),
    Line::Ask(1, Asked::Block),
    Line::Ask(1, Asked::LastResult),
    Line::Ask(1, Asked::Zeros),
    Line::AskWithoutRoom(1),
    Line::Failure(1, 1, 0x0100),
    Line::Failure(1, 1, 0x0200),
    Line::Failure(1, 1, 0x0300),
    Line::Failure(1, 1, 0x0400),
    Line::Failure(1, 1, 0x0000),
    Line::Failure(1, 1, 0x0000),
    Line::EmptyReply(1),
    Line::NoReply(1),
    Line::AskUntaken(0, 64),
    Line::Refuse(0, 0, 64, Refused::Busy),
    Line::Failures(0, 64),
    Line::NoReply(0),
];

#[test]
fn a_broken_book_answers_each_request(rt: HostRuntime) -> Result<(), Fail> {
    play_all(rt.alloc(), 2, &EACH_KIND)
}
