//! The device's side of a board, one guest after another: looks at a guest's queue, of which each
//! takes a chain to its publication, and the calls of the disk that are left at the end. It knows
//! no driver.
#![tactic(auto)]

mod advancing;
mod fault;
mod finishing;
mod looking;
mod settling;

pub use fault::HostFault;
pub use finishing::finish_calls;
pub use looking::{Look, look_on};
