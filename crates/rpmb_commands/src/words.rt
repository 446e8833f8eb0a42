//! From words to a command's name and the values of its options.
ghost use Rattle.std.specs.Prelude.{◌≡◌};
ghost use Rattle.rpmb_commands.specs.Said.{key_word};

use crate::grammar::program;
use clap::ArgMatches;
use clap::error::ErrorKind;
use std::alloc::{AllocError, Global};
use std::convert::AsStr;

/// A command's name, and the values of its options as they were written.
#[derive(Drop)]
pub struct Words<'a> {
    pub command: &'a str,
    /// What `do` performs.
    pub operation: Option<&'a str>,
    pub guest: Option<&'a str>,
    pub keys: Vec<&'a str>,
    pub nonce: Option<&'a str>,
    pub counter: Option<&'a str>,
    pub address: Option<&'a str>,
    pub count: Option<&'a str>,
    pub bytes: Option<&'a str>,
    pub file: Option<&'a str>,
    pub most: Option<&'a str>,
    pub length: Option<&'a str>,
    pub board: Option<&'a str>,
    pub script: Option<&'a str>,
    pub no_result: bool,
    pub pad: bool,
    /// Whether `explain` prints JSON.
    pub json: bool,
}

impl<'a> Words<'a> {
    /// The key of a command that has one.
    #[tactic(auto, unfolding(crate::specs::Said::key_word))]
    pub fn key(&self) -> Option<&'a str>
        ensures { result ≡ key_word self.now }
    {
        match self.keys.as_slice() {
            [key, ..] => Some(*key),
            [] => None,
        }
    }
}

/// Why words give no command.
#[derive(Drop)]
pub enum WordsError {
    /// They are wrong, or ask for help. The error has the text, and says by `use_stderr` to which
    /// stream it goes and by `exit_code` the status: 0 for help, else 2.
    Refused(clap::Error),
    /// Memory was refused.
    NoMemory,
}

/// The values of the option `--key`, in their order.
fn keys<'a>(alloc: Global, matches: &ArgMatches<'a>) -> Result<Vec<&'a str>, AllocError> {
    let mut keys = Vec::new(alloc);
    if let Some(words) = matches.get_strs("key") {
        for word in words {
            keys.push(*word)?;
        }
    }
    Ok(keys)
}

/// The values of a command's options, of those that have one.
fn found<'a>(
    command: &'a str,
    operation: Option<&'a str>,
    board: Option<&'a str>,
    keys: Vec<&'a str>,
    matches: &ArgMatches<'a>,
) -> Words<'a> {
    Words {
        command,
        operation,
        guest: matches.get_str("guest"),
        keys,
        nonce: matches.get_str("nonce"),
        counter: matches.get_str("counter"),
        address: matches.get_str("address"),
        count: matches.get_str("count"),
        bytes: matches.get_str("data"),
        file: matches.get_str("file"),
        most: matches.get_str("max-blocks"),
        length: matches.get_str("length"),
        board,
        script: matches.get_str("SCRIPT"),
        no_result: matches.get_flag("no-result"),
        pad: matches.get_flag("pad"),
        json: matches.get_flag("json"),
    }
}

/// The words of a command, or those of an operation of `do` on its board.
fn all_found<'a>(
    alloc: Global,
    command: &'a str,
    matches: &ArgMatches<'a>,
) -> Result<Words<'a>, AllocError> {
    let board = matches.get_str("BOARD");
    let (operation, inner) = match matches.subcommand() {
        Some((operation, inner)) => (Some(operation), inner),
        None => (None, matches),
    };
    let keys = keys(alloc, inner)?;
    Ok(found(command, operation, board, keys, inner))
}

/// The words of the command that was found, where there is memory for them.
// for the checker: apart from what reads them, so that what is found is dropped at one exit
fn words_in<'a>(alloc: Global, matches: &ArgMatches<'a>) -> Result<Words<'a>, WordsError> {
    let Some((name, inner)) = matches.subcommand() else {
        return Err(WordsError::NoMemory);
    };
    all_found(alloc, name, inner).or(Err(WordsError::NoMemory))
}

fn refused(error: clap::Error) -> WordsError {
    match error.kind() {
        ErrorKind::OutOfMemory => WordsError::NoMemory,
        _ => WordsError::Refused(error),
    }
}

/// Reads the words of a command line, of which the first is the program's own name.
///
/// # Errors
///
/// `Refused` where `clap` takes the words for none of the commands, or they ask for help;
/// `NoMemory` where memory is refused.
pub fn read_words<'a, S: AsStr>(alloc: Global, words: &'a [S]) -> Result<Words<'a>, WordsError> {
    let Ok(command) = program(alloc) else {
        return Err(WordsError::NoMemory);
    };
    match command.try_get_matches_from(words) {
        Ok(matches) => words_in(alloc, &matches),
        Err(error) => Err(refused(error)),
    }
}
