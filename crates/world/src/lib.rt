//! A world: a board through steps, stops and openings, and the headline over every run of them.
#![tactic(auto)]

mod event;
mod home;
pub mod laws;
mod log;
mod noting;
mod stage;
mod upgrading;
mod world;

pub use event::{Event, Refusal};
pub use log::{Accepted, Pop, Publication};
pub use world::World;
