//! The command line of `rpmbd`: the commands that there are, and what a list of words asks for.
#![tactic(auto)]

mod command;
mod given;
mod grammar;
mod help;
mod printing;
mod words;

pub use command::{Command, ImageVersion};
pub use given::{GivenError, given_words};
pub use help::VERSION;
pub use printing::print_words;
pub use words::{WordsError, read_words};
