//! The guests of a board, each with how its driver sets up its queue.
ghost use Rattle.std.specs.Prelude.{◌≡◌, ◌↔◌, IfOk, IsOk, IsTrue};
ghost use Rattle.rpmb_frame.specs.Config.{IsBoard};
ghost use Rattle.guest_driver.specs.Config.{AreDrivers};

use crate::config::DriverConfig;
use rpmb_frame::{BadBoard, BoardConfig, GuestConfig};
use std::marker::Model;

/// The guests of a board, and how the driver of each sets up its queue: what a board file says, or
/// who drives the guests of a board itself. A device reads the board alone.
#[derive(Drop)]
pub struct BoardSetup {
    board: BoardConfig,
    drivers: Vec<DriverConfig>,
}

impl Model for BoardSetup {
    ghost use Rattle.rpmb_frame.specs.Config.{IsBoard};
    ghost use Rattle.guest_driver.specs.Config.{AreDrivers, SetupState};

    ghost Value = { SetupState };

    ghost view = { λ s. record { board = s.board; drivers = s.drivers.items } };

    ghost invariant = { λ s. IsBoard s.board × AreDrivers s.board s.drivers.items };
}

/// Whether there is a driver for each guest, each in range, and its layout in its guest's memory.
fn are_drivers(guests: &[GuestConfig], drivers: &[DriverConfig]) -> bool
    ensures { IsTrue result ↔ AreDrivers guests.now drivers.now }
{
    if drivers.len() != guests.len() {
        return false;
    }
    for i in 0..guests.len() {
        if !drivers[i].fits(guests[i].memory) {
            return false;
        }
    }
    true
}

impl BoardSetup {
    /// The board with these drivers, in the order of its guests; `BadBoard` exactly where they are
    /// more or fewer than the guests, or one is out of range, or its layout isn't within its
    /// guest's memory.
    pub fn new(board: BoardConfig, drivers: Vec<DriverConfig>) -> Result<BoardSetup, BadBoard>
        ensures in_range { IsOk result ↔ AreDrivers board drivers.items }
        ensures value { IfOk result (λ s. s ≡ record { board = board; drivers = drivers.items }) }
    {
        if !are_drivers(board.guests(), &drivers) {
            return Err(BadBoard);
        }
        Ok(BoardSetup { board, drivers })
    }

    /// The board.
    pub fn board(&self) -> &BoardConfig
        ensures { result.now ≡ self.now.board }
    {
        &self.board
    }

    /// The board alone.
    pub fn into_board(self) -> BoardConfig
        ensures { result ≡ self.board }
    {
        self.board
    }

    /// How the drivers set up their queues, in the order of the guests.
    pub fn drivers(&self) -> &[DriverConfig]
        ensures value { result.now ≡ self.now.drivers }
        ensures fit { AreDrivers self.now.board self.now.drivers }
        ensures in_range { IsBoard self.now.board }
    {
        &self.drivers
    }
}
