//! A client of an RPMB device: makes the requests of a script, and reads the answers.
#![tactic(auto)]

mod answer;
mod blocks;
mod chain;
mod choosing;
mod explaining;
mod facts;
mod fault;
mod judging;
mod keys;
pub mod laws;
mod lines;
mod making;
mod options;
mod refusal;
mod texts;
mod values;

pub use answer::{ReadAnswer, Used, has_nonce, has_right_mac, read_data, read_used};
pub use blocks::{cut, pad};
pub use chain::write_chain;
pub use choosing::{Choice, Finder, find_answer};
pub use explaining::explain;
pub use facts::{kind_text, result_text};
pub use fault::ClientFault;
pub use judging::{is_refused, is_wrong};
pub use keys::{GuestKey, Keys, key_at};
pub use lines::{Request, Writer, write_all, write_line};
pub use making::{ask_for_result, join, program_key, read_blocks, read_counter, write_blocks};
pub use options::{
    key_of_file, key_of_raw_file, key_of_word, option_bytes, option_nonce, option_number,
};
pub use refusal::{Number, OptionRefusal};
pub use values::{
    KeyFault, ValueFault, array_of, bytes_of, digits_of, key_in_file, number_of, sized,
};
