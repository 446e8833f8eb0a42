//! The limits of a guest of a board.
use rpmb_frame::{BoardConfig, GuestConfig, Limits};
use std::alloc::Global;
use std::test::Fail;

/// The limits of a guest of a board: how many blocks it may write, and how many it may read.
pub fn limits_of(alloc: Global, counts: (u8, u8)) -> Result<Limits, Fail> {
    let guest = GuestConfig {
        max_wr_cnt: counts.0,
        max_rd_cnt: counts.1,
        ..GuestConfig::of_capacity(1)
    };
    let board = BoardConfig::new(Vec::from_array(alloc, [guest])?)?;
    Ok(Limits::of(&board.guests()[0]))
}
