//! From words to a command.
ghost use Rattle.std.specs.Prelude.{◌≡◌, IfErr, IfNone, IfOk, IfSome, OnOk, [], map};
ghost use Rattle.std.specs.Option.{option_copied};
ghost use Rattle.clap.specs.Kinds.{HasKind, Kinds};
ghost use Rattle.clap.specs.Values.{kind_of};
ghost use Rattle.clap.specs.Words.{fault_of, found_of, rows_of, subcommand_of, subcommand_rows_of};
ghost use Rattle.command_line.specs.declared.command.Command.{Command};
ghost use Rattle.command_line.specs.Program.{AsksFor, IsAskedBy, IsRefusal, IsToldBy};
ghost use Rattle.command_line.specs.Program.{is_given, program, texts_in, texts_of, version_of};

use crate::command::{Command, ImageVersion};
use crate::grammar::program;
use clap::ArgMatches;
use clap::error::ErrorKind;
use std::alloc::Global;
use std::convert::AsStr;

/// Why words give no command.
#[derive(Debug, Drop)]
pub enum WordsError {
    /// They are wrong, or ask for help. The error has the text, and says by `use_stderr` to which
    /// stream it goes and by `exit_code` the status: 0 for help, else 2.
    Refused(clap::Error),
    /// They name a command, but not all of its files, or a version of an image that there isn't.
    Incomplete,
    /// Memory was refused.
    NoMemory,
}

/// The values of a command's arguments, of those that have one.
#[derive(Clone, Copy)]
struct Values<'a> {
    board: Option<&'a str>,
    script: Option<&'a str>,
    only_new: Option<&'a str>,
    version: Option<&'a str>,
    json: Option<&'a str>,
}

/// The version that a word names; that of a fresh image where there is none.
fn version_of(word: Option<&str>) -> Option<ImageVersion>
    ensures { result ≡ version_of (option_copied word.entry) }
{
    match word {
        None | Some("1") => Some(ImageVersion::One),
        Some("2") => Some(ImageVersion::Two),
        _ => None,
    }
}

/// Whether a flag is given.
fn is_given(word: Option<&str>) -> bool
    ensures { result ≡ is_given (option_copied word.entry) }
{
    match word {
        Some("true") => true,
        _ => false,
    }
}

fn command_of<'a>(name: &str, values: Values<'a>) -> Option<Command<'a>>
    ensures some { IfSome result (AsksFor name.now (texts_of values.entry)) }
    ensures none { IfNone result ((c : Command) → ¬ AsksFor name.now (texts_of values.entry) c) }
{
    match (name, values.board, values.script) {
        ("format", Some(board), _) => Some(Command::Format {
            board,
            only_new: is_given(values.only_new),
            version: version_of(values.version)?,
        }),
        ("show", Some(board), _) => Some(Command::Show {
            board,
            as_json: is_given(values.json),
        }),
        ("upgrade", Some(board), _) => Some(Command::Upgrade { board }),
        ("run", Some(board), Some(script)) => Some(Command::Run { board, script }),
        ("serve", Some(board), Some(script)) => Some(Command::Serve { board, script }),
        _ => None,
    }
}

fn values_of<'a>(matches: &ArgMatches<'a>) -> Values<'a>
    ensures { texts_of result ≡ texts_in (rows_of (found_of matches.now)) }
{
    Values {
        board: matches.get_str("BOARD"),
        script: matches.get_str("SCRIPT"),
        only_new: matches.get_str("new"),
        version: matches.get_str("image-version"),
        json: matches.get_str("json"),
    }
}

fn command_found<'a>(matches: &ArgMatches<'a>) -> Option<Command<'a>>
    ensures some { IfSome result (IsAskedBy (subcommand_rows_of matches.now)) }
    ensures none { IfNone result ((c : Command) → ¬ IsAskedBy (subcommand_rows_of matches.now) c) }
{
    match matches.subcommand() {
        Some((name, inner)) => command_of(name, values_of(inner)),
        None => None,
    }
}

/// `clap`'s error, with its want of memory told apart from what it says of the words.
fn refused(error: clap::Error) -> WordsError
    ensures told { (kinds : Kinds) → HasKind kinds error → IsToldBy kinds result }
    ensures memory { result ≡ WordsError.NoMemory → kind_of error ≡ ErrorKind.OutOfMemory }
{
    match error.kind() {
        ErrorKind::OutOfMemory => WordsError::NoMemory,
        _ => WordsError::Refused(error),
    }
}

/// Reads the words of a command line, of which the first is the program's own name.
///
/// # Errors
///
/// `Refused` where `clap` takes the words for none of the commands, or they ask for help;
/// `Incomplete` where what it finds is not a whole command; `NoMemory` where memory is refused.
pub fn read_words<'a, S: AsStr>(alloc: Global, words: &'a [S]) -> Result<Command<'a>, WordsError>
    ensures ok { IfOk result (IsAskedBy (subcommand_of program (map S.text words.entry.now))) }
    ensures taken { OnOk result (fault_of program (map S.text words.entry.now) ≡ []) }
    ensures refused { IfErr result (IsRefusal (map S.text words.entry.now)) }
{
    let Ok(command) = program(alloc) else {
        return Err(WordsError::NoMemory);
    };
    match command.try_get_matches_from(words) {
        Ok(matches) => match command_found(&matches) {
            Some(command) => Ok(command),
            None => Err(WordsError::Incomplete),
        },
        Err(error) => Err(refused(error)),
    }
}
