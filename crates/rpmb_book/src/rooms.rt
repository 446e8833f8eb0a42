//! Memory that is made before a job is answered.
ghost use Rattle.std.specs.Prelude.{IfOk};
ghost use Rattle.rpmb_book.specs.Planned.{HasRoom};

use rpmb_core::{NoMemory, OK, Partition};
use rpmb_frame::{Command, Limits, Request};
use std::alloc::Global;

/// How many blocks a request may write or read at most.
const BLOCKS: usize = 16;

/// Memory for the answer to a job: of its reply, of the history's copy of that, and of the blocks
/// that it writes. A list of it may have any room or none, and what stands in it doesn't count.
#[derive(Drop)]
pub struct Rooms {
    pub(crate) reply: Vec<u8>,
    pub(crate) copy: Vec<u8>,
    pub(crate) blocks: Vec<u8>,
}

impl Rooms {
    /// No memory.
    pub fn none(alloc: Global) -> Rooms {
        Rooms {
            reply: Vec::new(alloc),
            copy: Vec::new(alloc),
            blocks: Vec::new(alloc),
        }
    }

    /// What the answer to a request takes at most, of what is spare where that fits; none, where
    /// memory is refused.
    pub(crate) fn of(alloc: Global, request: &Request<'_>, spare: Rooms) -> Rooms {
        let reply = Partition::reply_len(request, OK).min(512 * BLOCKS);
        let blocks = match request.command {
            Command::DataWrite { frames, .. } => 256 * frames.len().min(BLOCKS),
            _ => 0,
        };
        Rooms {
            reply: room_or_none(alloc, spare.reply, reply),
            copy: room_or_none(alloc, spare.copy, reply),
            blocks: room_or_none(alloc, spare.blocks, blocks),
        }
    }

    /// These, and what is spare; the other way round, where these have no memory for a reply.
    pub(crate) fn or(self, spare: Rooms) -> (Rooms, Rooms) {
        if self.reply.capacity() == 0 {
            (spare, self)
        } else {
            (self, spare)
        }
    }
}

/// Room for so many bytes: the spare one, where it is enough and at most twice as large, so that a
/// small reply doesn't keep the room of a large one.
pub fn room_for(alloc: Global, mut spare: Vec<u8>, len: usize) -> Result<Vec<u8>, NoMemory>
    ensures { IfOk result (HasRoom len) }
{
    if len <= spare.capacity() && spare.capacity() / 2 <= len {
        spare.clear();
        return Ok(spare);
    }
    Vec::with_capacity(alloc, len)
}

fn room_or_none(alloc: Global, spare: Vec<u8>, len: usize) -> Vec<u8> {
    match room_for(alloc, spare, len) {
        Ok(room) => room,
        Err(_) => Vec::new(alloc),
    }
}
