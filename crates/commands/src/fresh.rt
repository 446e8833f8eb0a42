//! The disk of a board that names no image.
ghost use Rattle.std.specs.Prelude.{◌≡◌, IfErr, IfOk};
ghost use Rattle.disk.specs.MemDisk.{mem_state};
ghost use Rattle.intent_slots.specs.Layout.{capacities_of};
ghost use Rattle.recovery.specs.Format.{IsFormatted};

use crate::fault::Fault;
use disk::MemDisk;
use intent_slots::Layout;
use recovery::format;
use rpmb_frame::BoardConfig;
use std::alloc::Global;

/// A fresh image of the board on a disk in memory. `NoMemory` where memory is refused for it.
pub(crate) fn fresh_disk(alloc: Global, board: &BoardConfig) -> Result<MemDisk, Fault>
    ensures formatted { IfOk result
        (λ disk. IsFormatted 1 (capacities_of board.now) (mem_state disk)) }
    ensures only { IfErr result (λ fault. fault ≡ Fault.NoMemory) }
{
    let length = Layout::of(board).length();
    let content = match vec![in alloc; 0; length as usize] {
        Ok(content) => content,
        Err(_) => return Err(Fault::NoMemory),
    };
    let mut disk = MemDisk::new(content);
    match format(&mut disk, board) {
        Ok(()) => Ok(disk),
        Err(_) => unreachable!(),
    }
}
