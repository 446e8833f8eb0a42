//! Scripts: what the guests of a board do, one step a line.
//!
//! A line is empty, a comment (it begins with `#`), or one of these:
//!
//! - `chain G HEX W`: guest G offers a chain of the bytes HEX and of W bytes for the reply.
//! - `store G ADDR HEX`: the bytes HEX go into the memory of guest G at the address ADDR. A script
//!   whose guests are served at once has no such line.
//! - `reset G`: the device of guest G is reset and negotiated with again.
//!
//! `docs/FORMATS.md` has the whole format.
#![tactic(auto)]

mod fault;
mod flaw;
mod line;
mod reader;
mod word;

pub use fault::{LineError, ScriptError};
pub use line::{Line, read_line};
pub use reader::{read_script, read_served_script};
pub use word::{first_words, read_bytes, read_number, shown_bytes};
