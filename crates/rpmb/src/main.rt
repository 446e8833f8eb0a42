//! `rpmb`: makes the requests of scripts for `rpmbd`, and says what its answers are.
#![tactic(auto)]

mod counter;
mod doing;
mod image;
mod nonce;
mod stop;
mod system;

use crate::doing::perform_operation;
use crate::system::System;
use command_line::{GivenError, given_words, print_words};
use rpmb_commands::{LineLimit, Refusal, Words, WordsError, perform, read_words, report};
use std::io::{BufReader, BufWriter};
use std::process::ExitCode;

/// The status of a command line that is refused.
const REFUSED: u8 = 2;

fn perform_on_streams<'a>(rt: &HostRuntime, words: &Words<'_>) -> Result<u8, Refusal<'a>> {
    let Ok(input) = BufReader::new(rt.alloc(), rt.stdin()) else {
        return Err(Refusal::NoMemory);
    };
    let mut input = LineLimit::new(input);
    let Ok(mut out) = BufWriter::new(rt.alloc(), rt.stdout()) else {
        return Err(Refusal::NoMemory);
    };
    let source = System { rt };
    Ok(perform(
        rt.alloc(),
        &source,
        words,
        &mut input,
        &mut out,
        &mut rt.stderr(),
    ))
}

/// Prints why the words give no command, or the help that they ask for.
fn refuse(rt: &HostRuntime, error: WordsError) -> u8 {
    match error {
        WordsError::Refused(error) => {
            let printed = print_words(rt, &error);
            if error.use_stderr() {
                return REFUSED;
            }
            match printed {
                Ok(()) => 0,
                Err(_) => report(Refusal::NoRoom, &mut rt.stderr()),
            }
        }
        WordsError::NoMemory => report(Refusal::NoMemory, &mut rt.stderr()),
    }
}

fn status_of(rt: &HostRuntime, words: &[String]) -> u8 {
    match read_words(rt.alloc(), words) {
        Ok(words) if words.command == "do" => perform_operation(rt, words),
        Ok(words) => match perform_on_streams(rt, &words) {
            Ok(status) => status,
            Err(refusal) => report(refusal, &mut rt.stderr()),
        },
        Err(error) => refuse(rt, error),
    }
}

/// Prints why there are no words: memory was refused, or one of them isn't UTF-8.
fn refuse_words(rt: &HostRuntime, error: GivenError) -> u8 {
    match error {
        GivenError::NoMemory => report(Refusal::NoMemory, &mut rt.stderr()),
        GivenError::NotText => {
            let why = "isn't text in UTF-8; rename the file that it names";
            let _ = eprintln!(rt; "error: a word of the command line {why}");
            REFUSED
        }
    }
}

fn main(rt: HostRuntime) -> ExitCode {
    let status = match given_words(&rt) {
        Ok(words) => status_of(&rt, words.as_slice()),
        Err(error) => refuse_words(&rt, error),
    };
    ExitCode::from(status)
}
