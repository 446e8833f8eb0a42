//! A hostile guest between two honest ones, which see of their replies and used rings what they
//! see without it.
mod broken;
mod resets;
mod rings;

use crate::tests::acts::{Acts, Move};
use crate::tests::asked::Asked;
use crate::tests::boards::{Deed, Table, Watched, sight_of};
use crate::tests::image::Image;
use std::alloc::Global;

/// A key of each is on its way to the disk.
fn ask_for_keys<B: Table>(acts: &mut Acts, board: &mut Watched<B>) -> bool {
    let key = [Move::SetUp, Move::Submit(Asked::Key(0x11)), Move::HandOver];
    acts.goes(board, 0, &key)
        && acts.goes(board, 2, &key)
        && acts.goes(board, 0, &[Move::Advances(3)])
}

/// An honest guest's key's reply, and a write, a read and a request for the counter.
fn go_on<B: Table>(acts: &mut Acts, board: &mut Watched<B>, guest: u8) -> bool {
    let asked = [
        Move::Reply,
        Move::Submit(Asked::Write(0xa0 | guest, 0)),
        Move::Submit(Asked::Block),
        Move::Submit(Asked::Counter(u128::from(guest))),
        Move::HandOver,
    ];
    acts.goes(board, u16::from(guest), &asked)
}

/// The keys' replies, and what comes behind them.
fn ask_for_more<B: Table>(acts: &mut Acts, board: &mut Watched<B>) -> bool {
    let replies = [Move::Reply, Move::Reply, Move::Reply];
    acts.goes(board, 0, &[Move::Advances(9)])
        && go_on(acts, board, 0)
        && go_on(acts, board, 2)
        && acts.goes(board, 0, &[Move::Advances(14)])
        && acts.goes(board, 0, &replies)
        && acts.goes(board, 2, &replies)
}

/// A guest that does nothing.
#[derive(Clone, Copy)]
struct Absent;

impl Deed for Absent {
    fn is_done<B: Table>(&self, _alloc: Global, _board: &mut Watched<B>) -> bool {
        true
    }
}

/// The honest guests, between whose requests the other one acts.
#[derive(Drop)]
struct Beside<'a, H: Deed>(&'a H);

impl<'a, H: Deed> Deed for Beside<'a, H> {
    fn is_done<B: Table>(&self, alloc: Global, board: &mut Watched<B>) -> bool {
        let mut acts = Acts::new(alloc, None, 0);
        board.is_watched = true;
        let are_asked = ask_for_keys(&mut acts, board);
        board.is_watched = false;
        let is_done = are_asked && self.0.is_done(alloc, board);
        board.is_watched = true;
        is_done && ask_for_more(&mut acts, board)
    }
}

/// What they see without the other one: eight replies of a frame, each with its need, a
/// notification, a used ring and the room for a reply.
fn sight_alone(alloc: Global) -> Option<Vec<u8>> {
    match sight_of(alloc, 3, Image::One, &Beside(&Absent)) {
        Some(sight) if sight.len() == 8 * (8 + 512 + 1 + 134 + 512) => Some(sight),
        _ => None,
    }
}

/// The hostile guest acts as told, and the honest guests see what they see alone.
fn check_beside<H: Deed>(alloc: Global, alone: &[u8], hostile: &H) -> bool {
    match sight_of(alloc, 3, Image::One, &Beside(hostile)) {
        Some(sight) => sight.as_slice() == alone,
        None => false,
    }
}
