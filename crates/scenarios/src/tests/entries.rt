//! What the store is given, and when replies leave.

use crate::tests::asked::Asked;
use crate::tests::desk::LIFE;
use crate::tests::groups::{Group, OF_A_KEY, OF_A_WRITE};
use crate::tests::lines::{Line, play_all};
use crate::tests::scene::Tail;
use std::test::Fail;

/// Guest 1 reads the counter, programs its key, writes and reads the counter once more. What it
/// asked leaves as the store settles it.
#[rattlefmt::skip]
static REPLIES: [Line; 22] = [
    Line::Life(LIFE),
    Line::Ask(1, Asked::Counter(1)),
    Line::Ask(1, Asked::Key(0x11)),
    Line::GiveThis { guest: 1, intent: OF_A_KEY },
    // The write comes while the key is on its way.
    Line::Ask(1, Asked::Write(0xa5, 0)),
    Line::Ask(1, Asked::Counter(2)),
    // What was asked before the key needs nothing; the reply to the key waits.
    Line::Reply(1, 1, 0, Tail(0, 0, 1, 7, 0x0200)),
    Line::NoReply(1),
    Line::Run,
    Line::NoReply(1),
    // It leaves once the key is settled.
    Line::Settle,
    Line::Reply(1, 1, 1, Tail(0, 0, 1, 0, 0x0100)),
    // While the write isn't settled, neither its reply leaves nor that to what was asked after it.
    Line::NoReply(1),
    Line::NoIntent(0),
    Line::GiveThis { guest: 1, intent: OF_A_WRITE },
    Line::NoIntent(1),
    Line::NoReply(1),
    Line::Run,
    // Both leave then.
    Line::Settle,
    Line::Reply(1, 1, 2, Tail(1, 0, 1, 0, 0x0300)),
    Line::Reply(1, 1, 2, Tail(1, 0, 1, 0, 0x0200)),
    Line::NoReply(1),
];

#[test]
fn replies_wait_for_what_they_show(rt: HostRuntime) -> Result<(), Fail> {
    play_all(rt.alloc(), 2, &REPLIES)
}

/// Writes of 16 blocks and of one, up to the last block: they are taken whole. A write past it is
/// refused, and leaves no intent.
#[rattlefmt::skip]
static WHOLE: [&[Line]; 3] = [
    &[
        Line::Ask(0, Asked::Key(0x11)),
        Line::GiveThis { guest: 0, intent: OF_A_KEY },
        Line::Run,
        Line::Ask(0, Asked::Blocks(496, 16, 0)),
        Line::GiveThis {
            guest: 0,
            intent: Group {
                address: 496,
                length: 4_096,
                first: Some(1),
                last: Some(16),
                ..OF_A_WRITE
            },
        },
        Line::NoIntent(0),
    ],
    &[
        Line::Ask(0, Asked::Key(0x11)),
        Line::GiveThis { guest: 0, intent: OF_A_KEY },
        Line::Run,
        Line::Ask(0, Asked::Blocks(511, 1, 0)),
        Line::GiveThis {
            guest: 0,
            intent: Group { address: 511, first: Some(1), last: Some(1), ..OF_A_WRITE },
        },
        Line::NoIntent(0),
    ],
    &[
        Line::Ask(0, Asked::Key(0x11)),
        Line::Ask(0, Asked::Blocks(511, 2, 0)),
        Line::GiveThis { guest: 0, intent: OF_A_KEY },
        Line::NoIntent(0),
    ],
];

#[test]
fn writes_are_taken_whole(rt: HostRuntime) -> Result<(), Fail> {
    for lines in &WHOLE {
        play_all(rt.alloc(), 1, *lines)?;
    }
    Ok(())
}

/// Six requests wait: a Take gives four, the key first, and the next one the two that are left.
#[rattlefmt::skip]
static GROUPED: [Line; 13] = [
    Line::Ask(0, Asked::Key(0x11)),
    Line::Ask(0, Asked::Write(0xa0, 0)),
    Line::Ask(0, Asked::Write(0xa1, 1)),
    Line::Ask(0, Asked::Write(0xa2, 2)),
    Line::Ask(0, Asked::Write(0xa3, 3)),
    Line::Ask(0, Asked::Write(0xa4, 4)),
    Line::GiveThis { guest: 0, intent: Group { requests: 4, sequence: 4, ..OF_A_KEY } },
    Line::Run,
    Line::Mark(0, 4),
    Line::GiveThis {
        guest: 0,
        intent: Group {
            requests: 2,
            sequence: 6,
            counter: 4,
            first: Some(0xa3),
            last: Some(0xa3),
            ..OF_A_WRITE
        },
    },
    Line::NoIntent(0),
    Line::Run,
    Line::Mark(0, 6),
];

#[test]
fn four_requests_are_taken_as_one(rt: HostRuntime) -> Result<(), Fail> {
    play_all(rt.alloc(), 1, &GROUPED)
}
