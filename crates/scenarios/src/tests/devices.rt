//! Guests whose requests go through their devices: one that resets its device while a reply is on
//! its way, one that overwrites what was popped, and one that makes its last write.
use crate::tests::acts::{Acts, Move, Turn};
use crate::tests::asked::Asked;
use crate::tests::boards::{Deed, Table, Watched, loaded, made, sight_of};
use crate::tests::image::Image;
use crate::tests::scene::{Tail, check, has_tail};
use board::Seen;
use mmio_transport::Published;
use mmio_transport::register::STATUS;
use std::alloc::Global;
use std::test::Fail;

/// More calls of the store than a request takes.
const IDLE: u32 = 20;

/// Whether a guest's reply stands in its memory, with this end.
fn has_reply<B: Table>(board: &Watched<B>, tail: Tail) -> bool {
    let Some(reply): Option<[u8; 512]> = loaded(&board.board, 0, 0x8000) else {
        return false;
    };
    has_tail(&reply, tail)
}

/// The guest asks, and its reply has this end.
fn asks<B: Table>(acts: &mut Acts, board: &mut Watched<B>, asked: Asked, tail: Tail) -> bool {
    let moves = [
        Move::Submit(asked),
        Move::HandOver,
        Move::Advances(IDLE),
        Move::Reply,
    ];
    acts.goes(board, 0, &moves) && has_reply(board, tail)
}

/// The guest comes into service, and programs its key.
fn begins<B: Table>(acts: &mut Acts, board: &mut Watched<B>) -> bool {
    let programmed = Tail(0, 0, 1, 0, 0x0100);
    acts.goes(board, 0, &[Move::SetUp]) && asks(acts, board, Asked::Key(0x11), programmed)
}

/// A reply is dropped, and leaves the used ring as it was.
fn drops_one<B: Table>(board: &mut B) -> bool {
    let before: Option<[u8; 134]> = loaded(board, 0, 0x3000);
    let dropped = Ok(Seen::Published(Published::Dropped));
    if board.reply(0).is_none() || made(board, 0, Turn::Publish) != dropped {
        return false;
    }
    let after: Option<[u8; 134]> = loaded(board, 0, 0x3000);
    before.is_some() && before == after
}

/// The device is reset while the reply to a write is on its way. The write was accepted, whatever
/// became of its reply; what its session could ask for is gone.
#[derive(Clone, Copy)]
struct ResetBeforeReply;

impl Deed for ResetBeforeReply {
    fn is_done<B: Table>(&self, alloc: Global, board: &mut Watched<B>) -> bool {
        let mut acts = Acts::new(alloc, None, 0);
        let written = [
            Move::Submit(Asked::Write(0x5a, 0)),
            Move::HandOver,
            Move::Advances(IDLE),
        ];
        begins(&mut acts, board)
            && acts.goes(board, 0, &written)
            && acts.turn(board, 0, Turn::Collect)
            && acts.write_all(board, 0, &[(STATUS, 0)])
            && drops_one(&mut board.board)
            && acts.goes(board, 0, &[Move::SetUp])
            && asks(
                &mut acts,
                board,
                Asked::Counter(5),
                Tail(1, 0, 1, 0, 0x0200),
            )
            && asks(
                &mut acts,
                board,
                Asked::LastResult,
                Tail(0, 0, 0, 1, 0x0000),
            )
    }
}

#[test]
fn a_reset_drops_the_reply_and_keeps_the_write(rt: HostRuntime) -> Result<(), Fail> {
    check(
        sight_of(rt.alloc(), 1, Image::One, &ResetBeforeReply).is_some(),
        "another outcome",
    )
}

const NONCE: u128 = 0x0001_0203_0405_0607_0809_0a0b_0c0d_0e0f;

/// The guest overwrites all that was popped: the request, its descriptors and the available ring.
/// The reply is of the frame that was popped, and stands at the range that was popped. It goes back
/// under the id that was popped: it is the ring's second.
#[derive(Clone, Copy)]
struct Overwritten;

impl Deed for Overwritten {
    fn is_done<B: Table>(&self, alloc: Global, board: &mut Watched<B>) -> bool {
        let mut acts = Acts::new(alloc, None, 0);
        let goes = begins(&mut acts, board)
            && acts.ask(board, 0, Asked::Counter(NONCE))
            && acts.store(board, 0, 0x4000, &[0xff; 512])
            && acts.store(board, 0, 0x1000, &[0xff; 32])
            && acts.store(board, 0, 0x2000, &[0xff; 38])
            && acts.turn(board, 0, Turn::Submit)
            && acts.goes(board, 0, &[Move::Reply]);
        let nonce: Option<[u8; 16]> = loaded(&board.board, 0, 0x8000 + 484);
        let index: Option<[u8; 2]> = loaded(&board.board, 0, 0x3002);
        let id: Option<[u8; 4]> = loaded(&board.board, 0, 0x300c);
        goes && has_reply(board, Tail(0, 0, 1, 0, 0x0200))
            && nonce == Some(NONCE.to_be_bytes())
            && index == Some([2, 0])
            && id == Some([0; 4])
    }
}

#[test]
fn a_job_is_what_was_popped(rt: HostRuntime) -> Result<(), Fail> {
    check(
        sight_of(rt.alloc(), 1, Image::One, &Overwritten).is_some(),
        "another outcome",
    )
}

/// The write that leaves a partition its last counter, and the one after it.
#[derive(Clone, Copy)]
struct LastWrite;

impl Deed for LastWrite {
    fn is_done<B: Table>(&self, alloc: Global, board: &mut Watched<B>) -> bool {
        let mut acts = Acts::new(alloc, None, 0);
        let (last, after) = (
            Asked::Write(0x77, 0xffff_fffe),
            Asked::Write(0x78, 0xffff_ffff),
        );
        let written = Tail(0xffff_ffff, 0, 1, 0x0000, 0x0300);
        let expired = Tail(0xffff_ffff, 0, 1, 0x0080, 0x0300);
        acts.goes(board, 0, &[Move::SetUp])
            && asks(&mut acts, board, last, written)
            && asks(&mut acts, board, after, expired)
    }
}

#[test]
fn the_last_write_and_the_one_after(rt: HostRuntime) -> Result<(), Fail> {
    check(
        sight_of(rt.alloc(), 1, Image::Last, &LastWrite).is_some(),
        "another outcome",
    )
}
