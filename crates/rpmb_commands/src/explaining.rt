//! The command that says of the lines of `rpmbd run` what each is.
ghost use Rattle.std.specs.Prelude.{◌≡◌, ◌||◌, [], IfErr, IfOk, IfSome, OnOk, nat_lt};
ghost use Rattle.std.specs.Prelude.{Some, string_bytes, true};
ghost use Rattle.std.specs.Io.KnownBytes.{Appends, Keeps};
ghost use Rattle.rpmb_client.specs.Seen.{used_seen};
ghost use Rattle.rpmb_commands.specs.Explaining.{AsksNonce, ExplainDoes, Explains, ExplainsBy};
ghost use Rattle.rpmb_commands.specs.Explaining.{IsNext, IsOther, SaysAll, has_refused, has_wrong};
ghost use Rattle.rpmb_commands.specs.Explaining.{is_answer, is_no_answer, is_refused_of};
ghost use Rattle.rpmb_commands.specs.Explaining.{is_wrong_of, judging_of, line_told, other_told};
ghost use Rattle.rpmb_commands.specs.Explaining.{told_counts, told_of, without_feed};
ghost use Rattle.rpmb_commands.specs.KeysSaid.{keys_seen};
ghost use Rattle.rpmb_commands.specs.Refusing.{IsOfReading};

use crate::counts::{Counts, unused_key};
use crate::doubts::{doubt_of, doubt_of_line};
use crate::keys::keys_of;
use crate::other_line::{is_no_answer, write_other};
use crate::refusal::{AnswerRefusal, InputFault, KeyRefusal, Refusal};
use crate::source::Source;
use crate::values::nonce_of;
use crate::words::Words;
use rpmb_client::{Keys, Used, explain, is_refused, is_wrong, read_used};
use std::alloc::Global;
use std::io;
use std::io::{BufRead, Write};

/// What answers are judged by.
#[derive(Clone, Copy)]
struct Judge<'k> {
    keys: &'k Keys,
    nonce: Option<[u8; 16]>,
    /// Whether all is told in JSON.
    as_json: bool,
}

fn flush<'a, W: Write>(out: &mut W) -> Result<(), Refusal<'a>>
    ensures kept { Keeps (W.contents out.old) (W.contents out.new) }
    ensures other { IfErr result IsOther }
{
    out.flush().or(Err(Refusal::NoRoom))
}

/// Says what the reply of a `used` line is, counts it, and lets that go out.
fn explain_used<'a, W: Write>(
    alloc: Global,
    used: &Used,
    judge: &Judge<'_>,
    counts: &mut Counts,
    out: &mut W,
) -> Result<(), Refusal<'a>>
    ensures told { OnOk result (Appends (W.contents out.old) (W.contents out.new)
        (told_of (judging_of judge.now) (Some (used_seen used.now)) [])) }
    ensures wrong { OnOk result (nat_lt 0 counts.new.wrong ≡ (nat_lt 0 counts.old.wrong
        || is_wrong_of (judging_of judge.now) (Some (used_seen used.now)) [])) }
    ensures refused { OnOk result (nat_lt 0 counts.new.refused ≡ (nat_lt 0 counts.old.refused
        || is_refused_of (Some (used_seen used.now)))) }
    ensures answer { OnOk result (counts.new.has_answer ≡ true) }
    ensures other { IfErr result IsOther }
{
    let key = judge.keys.key_of(used.guest);
    match explain(alloc, used, key, judge.nonce, judge.as_json, out) {
        Ok(()) => {
            let why = doubt_of(used, judge.nonce);
            let is_wrong = is_wrong(used, key, judge.nonce);
            counts.add(used, is_wrong, is_refused(used), why);
            flush(out)
        }
        Err(fault) => Err(Refusal::of(fault)),
    }
}

/// Passes on a line that gives no reply, counts it where it is no answer, and lets it go out.
fn pass_on<'a, W: Write>(
    alloc: Global,
    line: &str,
    as_json: bool,
    counts: &mut Counts,
    out: &mut W,
) -> Result<(), Refusal<'a>>
    ensures told { OnOk result (Appends (W.contents out.old) (W.contents out.new)
        (other_told as_json line.now)) }
    ensures wrong { OnOk result (nat_lt 0 counts.new.wrong ≡ (nat_lt 0 counts.old.wrong
        || is_no_answer line.now)) }
    ensures refused { OnOk result (counts.new.refused ≡ counts.old.refused) }
    ensures answer { OnOk result (counts.new.has_answer ≡ counts.old.has_answer) }
    ensures other { IfErr result IsOther }
{
    match write_other(alloc, line, as_json, out) {
        Ok(()) => {
            counts.add_unread(is_no_answer(line), doubt_of_line(line));
            flush(out)
        }
        Err(fault) => Err(Refusal::of(fault)),
    }
}

/// Says of a line what it is, and counts it where it gives a reply.
#[tactic(auto, unfolding(crate::specs::Explaining::line_told))]
fn explain_line<'a, W: Write>(
    alloc: Global,
    line: &str,
    judge: &Judge<'_>,
    counts: &mut Counts,
    out: &mut W,
) -> Result<(), Refusal<'a>>
    ensures told { OnOk result (Appends (W.contents out.old) (W.contents out.new)
        (line_told (judging_of judge.now) line.now)) }
    ensures wrong { OnOk result (nat_lt 0 counts.new.wrong ≡ (nat_lt 0 counts.old.wrong
        || has_wrong (judging_of judge.now) line.now)) }
    ensures refused { OnOk result (nat_lt 0 counts.new.refused ≡ (nat_lt 0 counts.old.refused
        || has_refused line.now)) }
    ensures answer { OnOk result (counts.new.has_answer
        ≡ (is_answer line.now || counts.old.has_answer)) }
    ensures other { IfErr result IsOther }
{
    match read_used(alloc, line) {
        Ok(Some(used)) => explain_used(alloc, &used, judge, counts, out),
        Ok(None) => pass_on(alloc, line, judge.as_json, counts, out),
        Err(_) => Err(Refusal::NoMemory),
    }
}

/// The system's number of a stream that is closed, which has no kind of its own.
const CLOSED: i32 = 9;

/// What standard input gives in place of lines.
fn why_no_lines(error: &io::Error) -> InputFault {
    if error.raw_os_error() == Some(CLOSED) {
        return InputFault::Closed;
    }
    match error.kind() {
        io::ErrorKind::InvalidData => InputFault::NoText,
        io::ErrorKind::IsADirectory => InputFault::Folder,
        _ => InputFault::Unread,
    }
}

/// Why the line of this number isn't read.
fn input_fault<'a>(error: &io::Error, number: u64) -> Refusal<'a>
    ensures reading { IsOfReading result }
    ensures other { IsOther result }
{
    match error.kind() {
        io::ErrorKind::OutOfMemory => Refusal::NoMemory,
        io::ErrorKind::FileTooLarge => Refusal::LongLine(number),
        _ => Refusal::NoInput(why_no_lines(error)),
    }
}

/// Reads the next line, of this number, with its end, and says whether there is one.
pub(crate) fn next_line<'a, B: BufRead>(
    input: &mut B,
    number: u64,
    line: &mut String,
) -> Result<bool, Refusal<'a>>
    ensures next { IfOk result (λ some. IfSome (B.remaining input.old)
        (λ text. IsNext text some (string_bytes line.new) (B.remaining input.new))) }
    ensures reading { IfErr result IsOfReading }
    ensures other { IfErr result IsOther }
{
    line.clear();
    match input.read_line(line) {
        Ok(count) => Ok(count > 0),
        Err(error) => Err(input_fault(&error, number)),
    }
}

/// A line without its line feed.
pub(crate) fn without_end(line: &str) -> &str
    ensures { result.now ≡ without_feed line.now }
{
    match line.strip_suffix('\n') {
        Some(line) => line,
        None => line,
    }
}

/// Explains line after line, each as it comes and in the same `line`.
fn tell_each<'a, B: BufRead, W: Write>(
    alloc: Global,
    judge: &Judge<'_>,
    line: &mut String,
    input: &mut B,
    out: &mut W,
) -> Result<Counts, Refusal<'a>>
    ensures told { IfOk result (λ counts. SaysAll (judging_of judge.now) (B.remaining input.old)
        (W.contents out.old) (W.contents out.new) counts.wrong counts.refused
        counts.has_answer) }
    ensures other { IfErr result IsOther }
{
    let mut counts = Counts::none();
    for _ in 0..u64::MAX {
        if !next_line(input, counts.lines.saturating_add(1), line)? {
            return Ok(counts);
        }
        explain_line(alloc, without_end(line.as_str()), judge, &mut counts, out)?;
    }
    // No input has so many lines.
    Err(Refusal::NoInput(InputFault::TooMany))
}

fn tell_lines<'a, B: BufRead, W: Write>(
    alloc: Global,
    judge: &Judge<'_>,
    input: &mut B,
    out: &mut W,
) -> Result<Counts, Refusal<'a>>
    ensures told { IfOk result (λ counts. SaysAll (judging_of judge.now) (B.remaining input.old)
        (W.contents out.old) (W.contents out.new) counts.wrong counts.refused
        counts.has_answer) }
    ensures other { IfErr result IsOther }
{
    let mut line = String::new(alloc);
    tell_each(alloc, judge, &mut line, input, out)
}

fn asked_nonce<'a>(alloc: Global, words: &Words<'a>) -> Result<Option<[u8; 16]>, Refusal<'a>>
    ensures ok { IfOk result (AsksNonce words.now) }
    ensures other { IfErr result IsOther }
{
    match words.nonce {
        Some(_) => Ok(Some(nonce_of(alloc, words)?)),
        None => Ok(None),
    }
}

/// Refused where a line is torn or wrong, else where no reply came at all, and else where one says
/// that a request was refused.
fn told<'a>(counts: Result<Counts, Refusal<'a>>) -> Result<(), Refusal<'a>>
    ensures { result ≡ told_counts counts.entry }
{
    match counts {
        Ok(counts) if counts.wrong > 0 => {
            Err(Refusal::Answer(AnswerRefusal::WrongAnswer(
                counts.replies,
                counts.wrong,
                counts.doubt,
            )))
        }
        Ok(counts) if !counts.has_answer => Err(Refusal::Answer(AnswerRefusal::NoReply(
            counts.lines,
        ))),
        Ok(counts) if counts.refused > 0 => {
            Err(Refusal::Answer(AnswerRefusal::RefusedAnswer(
                counts.replies,
                counts.refused,
                counts.results,
            )))
        }
        Ok(_) => Ok(()),
        Err(refusal) => Err(refusal),
    }
}

/// Says of all lines what each is, by these keys.
fn tell_by<'a, B: BufRead, W: Write>(
    alloc: Global,
    words: &Words<'a>,
    keys: &Keys,
    input: &mut B,
    out: &mut W,
) -> Result<Counts, Refusal<'a>>
    ensures told { IfOk result (ExplainsBy (keys_seen keys.now) words.now (B.remaining input.old)
        (W.contents out.old) (W.contents out.new)) }
    ensures other { IfErr result IsOther }
{
    let nonce = asked_nonce(alloc, words)?;
    let as_json = words.json;
    let judge = Judge {
        keys,
        nonce,
        as_json,
    };
    let counts = tell_lines(alloc, &judge, input, out)?;
    match unused_key(keys, &counts) {
        Some(guest) if counts.wrong == 0 => Err(Refusal::Key(KeyRefusal::UnusedKey(guest))),
        _ => Ok(counts),
    }
}

fn tell_all<'a, S: Source, B: BufRead, W: Write>(
    alloc: Global,
    source: &S,
    words: &Words<'a>,
    input: &mut B,
    out: &mut W,
) -> Result<Counts, Refusal<'a>>
    ensures told { IfOk result (Explains (S.gives source.now) words.now (B.remaining input.old)
        (W.contents out.old) (W.contents out.new)) }
    ensures other { IfErr result IsOther }
{
    let keys = keys_of(alloc, source, words)?;
    tell_by(alloc, words, &keys, input, out)
}

/// Says of each `used` line what its reply is, and writes each other line as it is. Refused at the
/// end where one was torn or of a script, a MAC or a nonce was wrong, no reply came, the key of a
/// guest judged nothing while another has none, or a request was refused.
pub fn tell<'a, S: Source, B: BufRead, W: Write>(
    alloc: Global,
    source: &S,
    words: &Words<'a>,
    input: &mut B,
    out: &mut W,
) -> Result<(), Refusal<'a>>
    ensures { ExplainDoes (S.gives source.now) words.now (B.remaining input.old)
        (W.contents out.old) result (W.contents out.new) }
{
    told(tell_all(alloc, source, words, input, out))
}
