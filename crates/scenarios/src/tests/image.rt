//! Fresh images of a board, on a disk that held something else.
use crate::tests::scene::KEY;
use disk::{CutDisk, Disk};
use intent_slots::{Home, Layout};
use recovery::{format, format2};
use rpmb_frame::BoardConfig;
use std::alloc::Global;

/// A fresh image.
#[derive(Clone, Copy)]
pub enum Image {
    /// Of version 1: one slot of each partition is in use.
    One,
    /// Of version 2: both are.
    Two,
    /// Of version 1, with open gates and other bytes in the second slots of two guests, which it
    /// never looks at.
    Spoiled,
    /// Of version 1, but for the home of guest 0, which says that one more write may come.
    Last,
}

/// Where the second gates of two partitions of capacity 1 stand, which are 35,328 and 131,072 bytes
/// long each and begin at 1,024.
static SECOND_GATES: [u64; 2] = [18_944, 185_344];

/// The last counter but one.
const COUNTER: u32 = 0xffff_fffe;

fn puts(disk: &mut CutDisk, at: u64, bytes: &[u8]) -> bool {
    if at > disk.len() || bytes.len() as u64 > disk.len() - at {
        return false;
    }
    disk.write_at(at, bytes).is_ok()
}

fn spoils(disk: &mut CutDisk) -> bool {
    for gate in &SECOND_GATES {
        if !puts(disk, *gate, &[0xa5; 600]) {
            return false;
        }
    }
    disk.sync().is_ok()
}

fn puts_home(disk: &mut CutDisk, board: &BoardConfig) -> bool {
    let layout = Layout::of(board);
    if layout.guests() == 0 {
        return false;
    }
    let home = layout.extent(0).home();
    puts(disk, home, &Home::with_key(KEY, COUNTER).encode()) && disk.sync().is_ok()
}

/// Formats a disk of the image's length.
fn formats(disk: &mut CutDisk, board: &BoardConfig, image: Image) -> bool {
    if disk.len() != Layout::of(board).length() {
        return false;
    }
    match image {
        Image::Two => format2(disk, board).is_ok(),
        _ => format(disk, board).is_ok(),
    }
}

fn makes(disk: &mut CutDisk, board: &BoardConfig, image: Image) -> bool {
    formats(disk, board, image)
        && match image {
            Image::Spoiled => spoils(disk),
            Image::Last => puts_home(disk, board),
            _ => true,
        }
}

/// A disk with this image.
pub fn image_of(alloc: Global, board: &BoardConfig, image: Image) -> Option<CutDisk> {
    let Ok(bytes) = vec![in alloc; 0xee; Layout::of(board).length() as usize] else {
        return None;
    };
    let Ok(mut disk) = CutDisk::new(alloc, bytes) else {
        return None;
    };
    if makes(&mut disk, board, image) {
        Some(disk)
    } else {
        None
    }
}
