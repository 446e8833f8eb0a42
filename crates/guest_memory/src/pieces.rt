//! The copies of a memory, one after another.
ghost use Rattle.std.specs.Prelude.{◌≡◌, ◌≤◌, ◌<◌, ◌+◌, ◌^◌, length, map, true, false, IfOk};
ghost use Rattle.std.specs.Prelude.{IfSome};
ghost use Rattle.std.specs.Prelude.{None, slice_index_or};
ghost use Rattle.std.specs.List.{list_any, position};
ghost use Rattle.guest_memory.specs.Memory.{IsInside, with_bytes};
ghost use Rattle.guest_memory.specs.Piece.{lies_in, span_of, AreCopies, StayFrom};
ghost use Rattle.guest_memory.specs.declared.piece.Piece.{Piece};

use crate::piece::Piece;
use crate::truth::Truth;
use std::alloc::{AllocError, Global};

/// The memory of how many pieces is kept, and how much each may have.
const MOST_KEPT: usize = 8;

const LARGEST_KEPT: usize = 4_096;

/// Whether all of these bytes lie in one of the pieces.
pub(crate) fn have(pieces: &[Piece], at: u64, len: u64) -> bool
    ensures { result ≡ list_any (lies_in at len) pieces.now }
{
    pieces.iter().any(|piece| piece.has(at, len))
}

/// The first piece in which they lie.
pub(crate) fn find(pieces: &[Piece], at: u64, len: u64) -> Option<usize>
    ensures { result ≡ position (lies_in at len) pieces.now }
{
    pieces.iter().position(|piece| piece.has(at, len))
}

/// A piece in which they lie: the one at this place, if they do, else the first.
pub(crate) fn find_from(pieces: &[Piece], place: usize, at: u64, len: u64) -> Option<usize>
    ensures below { IfSome result (λ i. i < length pieces.now) }
    ensures has { IfSome result
        (λ i. (d : Piece) → lies_in at len (slice_index_or pieces.now i d) ≡ true) }
    ensures none { result ≡ None → list_any (lies_in at len) pieces.now ≡ false }
{
    if place < pieces.len() && pieces[place].has(at, len) {
        return Some(place);
    }
    find(pieces, at, len)
}

/// Makes the first so many pieces copies of the memory into which these bytes are put.
pub(crate) fn patch(pieces: &mut Vec<Piece>, count: usize, truth: &Truth, at: u64, bytes: &[u8])
    requires there { count ≤ length pieces.old.items }
    requires inside { IsInside truth.now.bytes at (length bytes.now) }
    requires fits { length truth.now.bytes < 2 ^ 64 }
    requires copies { AreCopies truth.now.bytes 0 count pieces.old.items }
    ensures copies { AreCopies (with_bytes truth.now.bytes at bytes.now) 0 count pieces.new.items }
    ensures rest { StayFrom count pieces.old.items pieces.new.items }
    ensures spans { map span_of pieces.new.items ≡ map span_of pieces.old.items }
{
    for i in 0..count {
        pieces[i].patch(at, bytes);
    }
}

/// Memory for a piece: what was kept, where there is some.
fn room(alloc: Global, spare: &mut Vec<Vec<u8>>) -> Result<Vec<u8>, AllocError> {
    if spare.capacity() == 0 {
        spare.reserve(MOST_KEPT)?;
    }
    match spare.pop() {
        Some(room) => Ok(room),
        None => Ok(Vec::new(alloc)),
    }
}

/// A copy of these bytes, in what was kept, where there is some.
pub(crate) fn copy_of(
    alloc: Global,
    spare: &mut Vec<Vec<u8>>,
    at: u64,
    bytes: &[u8],
) -> Result<Piece, AllocError>
    ensures { IfOk result (λ piece. (piece.at ≡ at) × (piece.bytes.items ≡ bytes.now)) }
{
    let room = room(alloc, spare)?;
    Piece::of(room, at, bytes)
}

/// Takes the last pieces out, and keeps their memory, where there is room for it.
pub(crate) fn keep(pieces: &mut Vec<Piece>, spare: &mut Vec<Vec<u8>>) {
    for _piece in 0..MOST_KEPT {
        let Some(piece) = pieces.pop() else {
            return;
        };
        if piece.bytes.capacity() <= LARGEST_KEPT && spare.len() < spare.capacity() {
            spare.push_reserved(piece.bytes);
        }
    }
}
