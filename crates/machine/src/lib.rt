//! One board for a virtual machine monitor that embeds it: registers, and a serve that asks for the
//! bytes of guest memory that it needs, one step of the device after another. It makes no call of
//! the system: what is to be written waits in an outbox until the monitor takes it, and the monitor
//! says what came of it.
#![tactic(auto)]

mod answering;
mod fault;
mod handing;
pub mod laws;
mod leaving;
mod machine;
mod opening;
mod resting;
mod serving;
mod settings;
mod starting;
mod state;
mod status;
mod taking;
mod turn;

pub use fault::MachineFault;
pub use machine::{Machine, Served, What};
pub use opening::{format_image, image_length};
pub use settings::Setup;
pub use starting::Areas;
pub use state::STATE_WORDS;
