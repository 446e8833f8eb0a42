//! `rpmbd`: reads its words, and leaves the rest to `commands`.
#![tactic(auto)]

use command_line::{GivenError, given_words};
use commands::{Fault, REFUSED, report, status_of};
use std::process::ExitCode;

/// Prints why there are no words.
fn refuse_words(rt: &HostRuntime, error: GivenError) -> u8 {
    match error {
        GivenError::NoMemory => report(Fault::NoMemory, &mut rt.stderr()),
        GivenError::NotText => {
            let why = "isn't text in UTF-8; rename the file that it names";
            let _ = eprintln!(rt; "error: a word of the command line {why}");
            REFUSED
        }
    }
}

fn main(rt: HostRuntime) -> ExitCode {
    let status = match given_words(&rt) {
        Ok(words) => status_of(&rt, &rt, words.as_slice()),
        Err(error) => refuse_words(&rt, error),
    };
    ExitCode::from(status)
}
