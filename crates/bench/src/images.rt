//! A board of one guest over a fresh image on a disk in memory.

use crate::clock::{NO_MEMORY, Stop};
use disk::MemDisk;
use guest_driver::{BoardSetup, DriverConfig};
use intent_slots::Layout;
use mmio_transport::RingKind;
use recovery::format;
use rpmb_frame::{BoardConfig, GuestConfig};
use std::alloc::Global;

/// Which life a board is opened for. Only receipts tell one from another.
pub const LIFE: u64 = 1;

/// A board of one guest, whose driver takes a queue of this kind.
fn setup_of(alloc: Global, ring: RingKind) -> Result<BoardSetup, Stop> {
    let driver = DriverConfig {
        ring,
        ..DriverConfig::usual()
    };
    let guests = vec![in alloc; GuestConfig::of_capacity(1); 1];
    let (Ok(guests), Ok(drivers)) = (guests, vec![in alloc; driver; 1]) else {
        return Err(NO_MEMORY);
    };
    match BoardConfig::new(guests) {
        Ok(board) => BoardSetup::new(board, drivers).ok().ok_or("no board"),
        Err(_) => Err("no board"),
    }
}

/// A disk in memory with the fresh image of a board.
fn new_disk(alloc: Global, board: &BoardConfig) -> Result<MemDisk, Stop> {
    let Ok(bytes) = vec![in alloc; 0u8; Layout::of(board).length() as usize] else {
        return Err(NO_MEMORY);
    };
    let mut disk = MemDisk::new(bytes);
    match format(&mut disk, board) {
        Ok(()) => Ok(disk),
        Err(_) => Err("no image"),
    }
}

/// Such a board, and a disk in memory with its fresh image.
pub fn new_image(alloc: Global, ring: RingKind) -> Result<(BoardSetup, MemDisk), Stop> {
    let setup = setup_of(alloc, ring)?;
    let disk = new_disk(alloc, setup.board())?;
    Ok((setup, disk))
}
