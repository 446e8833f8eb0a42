//! What each command of `rpmbd` does: over any disk, and any two writers for standard output and
//! standard error, once its files are read. The program's faults, how it tells them, and the way
//! from its words and files to its status stand here too.
#![tactic(auto)]

mod asking;
mod command;
mod end_reason;
mod fault;
mod fault_lines;
mod file_limit;
mod file_run;
mod files;
mod formatting;
mod fresh;
mod image_files;
mod notes;
mod program;
mod reason;
mod running;
mod script_by_guest;
mod serving;
mod showing;
mod shown_file;
mod upgrading;
mod used_lines;

pub use command::perform;
pub use end_reason::{Task, reason_of_end};
pub use fault::Fault;
pub use fault_lines::{report, report_refusal, write_reason};
pub use file_run::run_in_file;
pub use files::{read_board_file, read_image_board, read_script_text};
pub use formatting::format;
pub use image_files::{create_image, open_image, open_shown};
pub use program::{REFUSED, status_of};
pub use reason::Refusal;
pub use running::run;
pub use serving::serve;
pub use showing::show;
pub use shown_file::ShownFile;
pub use upgrading::upgrade;
