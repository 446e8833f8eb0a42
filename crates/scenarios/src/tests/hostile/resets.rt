//! A guest that resets its device a thousand times, each time with a reply on its way.
use super::{check_beside, sight_alone};
use crate::tests::acts::{Acts, Move, SETUP, Turn};
use crate::tests::asked::Asked;
use crate::tests::boards::{Deed, Table, Watched, loaded, made};
use crate::tests::scene::check;
use board::Seen;
use mmio_transport::Published;
use std::alloc::Global;
use std::test::Fail;

const RESETS: u64 = 1000;

#[derive(Clone, Copy)]
struct Resets;

fn is_in_session<B: Table>(board: &B, session: u64) -> bool {
    match board.device_seen(1) {
        Some(device) => device.session() == session,
        None => false,
    }
}

/// The guest offers a request for its counter, which is popped and answered; then it resets its
/// device and sets it up again, and the reply is collected, and is dropped.
fn drops<B: Table>(alloc: Global, board: &mut Watched<B>) -> bool {
    let mut acts = Acts::new(alloc, None, 0);
    let is_collected = acts.goes(board, 1, &[Move::Submit(Asked::Counter(1)), Move::SetUp])
        && acts.turn(board, 1, Turn::Collect)
        && board.board.reply(1).is_some();
    let seen = made(&mut board.board, 1, Turn::Publish);
    is_collected && seen == Ok(Seen::Published(Published::Dropped))
}

fn drops_all<B: Table>(alloc: Global, board: &mut Watched<B>) -> bool {
    for _ in 0..RESETS {
        if !drops(alloc, board) {
            return false;
        }
    }
    true
}

impl Deed for Resets {
    /// The guest sets its device up first, without a reset before.
    fn is_done<B: Table>(&self, alloc: Global, board: &mut Watched<B>) -> bool {
        let mut acts = Acts::new(alloc, None, 0);
        let first = SETUP.get(1..).unwrap_or(&[]);
        let are_dropped = acts.write_all(board, 1, first)
            && acts.refusal.is_none()
            && is_in_session(&board.board, 1)
            && drops_all(alloc, board)
            && is_in_session(&board.board, RESETS + 1);
        let used: Option<[u8; 134]> = loaded(&board.board, 1, 0x3000);
        are_dropped && used == Some([0; 134])
    }
}

#[test]
fn each_reply_of_a_session_before_is_dropped(rt: HostRuntime) -> Result<(), Fail> {
    let alloc = rt.alloc();
    let Some(alone) = sight_alone(alloc) else {
        return Err(Fail::from("no alone"));
    };
    check(check_beside(alloc, &alone, &Resets), "another outcome")
}
