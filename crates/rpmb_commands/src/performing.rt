//! What a command does.
ghost use Rattle.std.specs.Prelude.{◌≡◌};
ghost use Rattle.rpmb_commands.specs.Performing.{Does, Performs, after_flush, asked_of, status_of};
ghost use Rattle.rpmb_commands.specs.Refusing.{refusal_status};

use crate::advice::{advice_of, tell_advice};
use crate::asked::{Asked, asked_of};
use crate::checking::check;
use crate::explaining::tell;
use crate::making::make;
use crate::read_data::give_data;
use crate::refusal::Refusal;
use crate::results::tell_results;
use crate::source::Source;
use crate::words::Words;
use crate::writing::make_write;
use rpmb_client::OptionRefusal;
use std::alloc::Global;
use std::io::{BufRead, Write};

fn perform_on<'a, S: Source, B: BufRead, W: Write>(
    alloc: Global,
    source: &S,
    words: &Words<'a>,
    input: &mut B,
    flaw: &mut String,
    out: &mut W,
) -> Result<(), Refusal<'a>>
    ensures { Does (S.gives source.now) (asked_of words.now.command.now) words.now
        (B.remaining input.old) (W.contents out.old) result (W.contents out.new) }
{
    match asked_of(words.command) {
        Asked::Make(making) => make(alloc, source, words, making, out),
        Asked::Write => make_write(alloc, source, words, out),
        Asked::Explain => tell(alloc, source, words, input, out),
        Asked::ReadData => give_data(alloc, source, words, input, out),
        Asked::Check => check(alloc, source, words, flaw, out),
        Asked::Unknown => Err(Refusal::Option(OptionRefusal::Incomplete)),
    }
}

/// Writes the line of a refusal, and gives its status: 3 where `explain` found each answer right
/// and a request refused, else 1.
pub fn report<E: Write>(refusal: Refusal<'_>, err: &mut E) -> u8
    ensures { result ≡ refusal_status refusal.entry }
{
    let status = refusal.status();
    let _ = writeln!(err, "rpmb: {refusal}");
    status
}

/// Writes the line of a refusal of these words, with the words of its flaw, and what helps, where
/// that is known; and gives its status.
fn report_flaw<'a, E: Write>(words: &Words<'a>, refusal: Refusal<'a>, flaw: &str, err: &mut E) -> u8
    ensures { result ≡ refusal_status refusal.entry }
{
    let _ = writeln!(err, "rpmb: {refusal}{flaw}");
    tell_advice(advice_of(words, refusal), err);
    tell_results(words, refusal.results(), err);
    refusal.status()
}

/// The same of a refusal that has no flaw.
pub fn report_with_advice<'a, E: Write>(words: &Words<'a>, refusal: Refusal<'a>, err: &mut E) -> u8
    ensures { result ≡ refusal_status refusal.entry }
{
    report_flaw(words, refusal, "", err)
}

/// How a command ends, once all is flushed, or standard output took no more.
fn after_flush<'a>(is_flushed: bool, ended: Result<(), Refusal<'a>>) -> Result<(), Refusal<'a>>
    ensures { result ≡ after_flush is_flushed ended.entry }
{
    match ended {
        Ok(()) if !is_flushed => Err(Refusal::NoRoom),
        _ => ended,
    }
}

/// The status that tells how a command ended, with the lines of its refusal on standard error.
fn status_of<'a, E: Write>(
    words: &Words<'a>,
    ended: Result<(), Refusal<'a>>,
    flaw: &str,
    err: &mut E,
) -> u8
    ensures { result ≡ status_of ended.entry }
{
    match ended {
        Ok(()) => 0,
        Err(refusal) => report_flaw(words, refusal, flaw, err),
    }
}

/// Performs a command, and gives the status that it ends with: 0, or 1 or 3 with a line on standard
/// error, and behind it what helps, where that is known. `source` gives the files that its words
/// name, and `input` the lines of `rpmbd run`.
pub fn perform<S: Source, B: BufRead, W: Write, E: Write>(
    alloc: Global,
    source: &S,
    words: &Words<'_>,
    input: &mut B,
    out: &mut W,
    err: &mut E,
) -> u8
    ensures { Performs (S.gives source.now) words.now (B.remaining input.old)
        (W.contents out.old) result (W.contents out.new) }
{
    let mut flaw = String::new(alloc);
    let ended = perform_on(alloc, source, words, input, &mut flaw, out);
    let is_flushed = out.flush().is_ok();
    status_of(words, after_flush(is_flushed, ended), flaw.as_str(), err)
}
