//! The book: what every guest asked and was answered, which replies may leave, and what the store
//! is still to keep. Its history is exact: replayed from the opening, it gives the state.
#![tactic(auto)]

mod answering;
mod book;
mod checked;
mod did;
mod due;
mod guest_core;
mod guest_state;
mod held;
mod history;
pub mod laws;
mod marks;
mod opening;
mod receipt;
mod refused;
mod rooms;
mod tally;
mod told;

pub use book::Book;
pub use checked::Checked;
pub use due::Due;
pub use guest_state::HELD;
pub use receipt::{Receipt, TurnView};
pub use refused::Refused;
pub use rooms::Rooms;
pub use tally::{Shares, Tally};
