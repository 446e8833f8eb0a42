//! What is printed of words that are refused, or that ask for help.

use clap::Error;
use clap::error::ErrorKind;
use std::alloc::Global;
use std::io;

/// How `clap` begins to advise that an option which it doesn't know be taken for the name of a
/// file.
const TIP: &str = "\n  tip: to pass '";

/// How it begins to advise `upgrade` in the place of `downgrade`.
const WAY_BACK: &str = "\n  tip: a similar subcommand exists: 'upgrade'";

/// What stands behind that advice.
const USAGE: &str = "\n\nUsage: ";

/// The commands of `rpmb`, as `clap` names one that `rpmbd` hasn't, and those of `rpmbd`.
static OF_RPMB: [&str; 9] = [
    "'program-key'",
    "'read-counter'",
    "'write'",
    "'read'",
    "'result'",
    "'explain'",
    "'read-data'",
    "'check'",
    "'do'",
];

static OF_RPMBD: [&str; 5] = ["'format'", "'show'", "'upgrade'", "'run'", "'serve'"];

fn names_one_of(front: &str, names: &[&str]) -> bool {
    names.iter().any(|name| front.ends_with(*name))
}

/// What is advised of a command that isn't known, where it is the other program's.
fn tip_for_command(front: &str, usage: &str) -> &'static str {
    if usage.starts_with("rpmbd <") && names_one_of(front, OF_RPMB.as_slice()) {
        return "\n\n  tip: that is a command of rpmb";
    }
    if usage.starts_with("rpmb <") && names_one_of(front, OF_RPMBD.as_slice()) {
        return "\n\n  tip: that is a command of rpmbd";
    }
    ""
}

/// What is advised in its place: of an option that isn't known, which was mistyped or is another
/// command's, nothing; of a file for a command that reads standard input, how it is given.
fn tip_for(front: &str, usage: &str) -> &'static str {
    if front.contains("'downgrade'") {
        return "\n\n  tip: there is no way back from an image of version 2";
    }
    if usage.starts_with("rpmbd upgrade ") && front.contains("argument '-") {
        return "\n\n  tip: it takes a board alone, and there is no way back from version 2";
    }
    if usage.contains(" do <BOARD> <OPERATION>") {
        return "\n\n  tip: its operations are program-key, read-counter, write and read";
    }
    let reads_lines = usage.contains(" explain ") || usage.contains(" read-data ");
    if reads_lines && !front.contains("argument '-") {
        return "\n\n  tip: the lines come from standard input: < FILE";
    }
    tip_for_command(front, usage)
}

/// The text of an error with other advice. None where it has no such advice and needs none, and
/// where memory is refused.
fn with_other_tip(alloc: Global, error: &Error) -> Option<String> {
    let tip = match error.kind() {
        ErrorKind::UnknownArgument => TIP,
        ErrorKind::InvalidSubcommand => WAY_BACK,
        _ => return None,
    };
    let text = format!(in alloc; "{error}").ok()?;
    let (front, usage) = text.as_str().split_once(USAGE)?;
    let front = match front.split_once(tip) {
        Some((front, _)) => front.trim_end(),
        None => front,
    };
    let tip = tip_for(front, usage);
    format!(in alloc; "{front}{tip}{USAGE}{usage}").ok()
}

/// Prints what `clap` says of words, on the stream that it is for.
pub fn print_words<R: AllocGlobal + Print + Eprint>(rt: &R, error: &Error) -> io::Result<()> {
    match with_other_tip(rt.alloc(), error) {
        Some(text) => rt.eprint(&text),
        None => error.print(rt),
    }
}
