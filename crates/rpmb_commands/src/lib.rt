//! What `rpmb` does: its words, and the performing of them over any files and lines, and two
//! writers.
#![tactic(auto)]

mod advice;
mod asked;
mod board_image;
mod checking;
mod counts;
mod doubts;
mod explaining;
mod grammar;
mod help;
mod keys;
mod line_limit;
mod making;
mod other_line;
mod performing;
mod read_data;
mod reading;
mod refusal;
mod results;
mod source;
mod values;
mod words;
mod writing;

pub use keys::check_own_key;
pub use line_limit::LineLimit;
pub use performing::{perform, report, report_with_advice};
pub use reading::key;
pub use refusal::{AnswerRefusal, FileRefusal, InputFault, KeyRefusal, Refusal};
pub use source::{Front, Source, SourceError, is_file, read_file, read_front};
pub use words::{Words, WordsError, read_words};
