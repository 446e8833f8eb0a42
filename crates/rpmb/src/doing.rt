//! `rpmb do`: one operation on the image of a board, from its request to what the answer says. Its
//! request and its answer are lines in memory, made and read by the program's other commands.
ghost use Rattle.std.specs.Prelude.{◌≡◌, ◌≢◌, IfErr, IfOk, OnOk, [], Some, string_bytes};
ghost use Rattle.rpmb_commands.specs.Performing.{Performs};
ghost use Rattle.rpmb.specs.Counter.{IsCounterSaid};
ghost use Rattle.rpmb.specs.System.{any_file};

use crate::counter::counter_of;
use crate::image::Place;
use crate::nonce::random_nonce;
use crate::stop::Stop;
use crate::system::System;
use disk::FileDisk;
use rpmb_client::{Choice, OptionRefusal, find_answer, option_nonce};
use rpmb_commands::{
    AnswerRefusal, FileRefusal, Refusal, Words, check_own_key, key, perform, report,
    report_with_advice,
};
use script::read_number;
use std::alloc::AllocError;
use std::io::{BufWriter, Write};
use std::mem::replace;

/// Tells a refusal in the words of `rpmb`.
fn told(rt: &HostRuntime, refusal: Refusal<'_>) -> Stop {
    let status = report(refusal, &mut rt.stderr());
    Stop { status }
}

/// Performs one of the commands that make or read lines.
fn command<W: Write>(
    rt: &HostRuntime,
    words: &Words<'_>,
    lines: &[u8],
    out: &mut W,
) -> Result<(), Stop>
    ensures ok { OnOk result (Performs any_file words.now (Some lines.now) (W.contents out.old) 0
        (W.contents out.new)) }
    ensures err { IfErr result (λ stop. (stop.status ≢ 0)
        × Performs any_file words.now (Some lines.now) (W.contents out.old) stop.status
        (W.contents out.new)) }
{
    let mut input = lines;
    let source = System { rt };
    match perform(
        rt.alloc(),
        &source,
        words,
        &mut input,
        out,
        &mut rt.stderr(),
    ) {
        0 => Ok(()),
        status => Err(Stop { status }),
    }
}

/// Lines as a text. It never comes to a refusal, since all lines are ASCII.
fn text_of(rt: &HostRuntime, lines: Vec<u8>) -> Result<String, Stop>
    ensures { IfOk result (λ text. string_bytes text ≡ lines.items) }
{
    match String::from_utf8(lines) {
        Ok(text) => Ok(text),
        Err(_) => Err(told(rt, Refusal::File(FileRefusal::NoText, "lines in memory"))),
    }
}

/// The script that a command makes.
fn script_of(rt: &HostRuntime, words: &Words<'_>) -> Result<String, Stop>
    ensures { IfOk result
        (λ script. Performs any_file words.now (Some []) (Some []) 0
        (Some (string_bytes script))) }
{
    let mut script = Vec::new(rt.alloc());
    command(rt, words, b"", &mut script)?;
    text_of(rt, script)
}

/// Performs the requests that a command makes. Where a fault ends them, it is told, and the answers
/// are those before it.
fn answer(
    rt: &HostRuntime,
    place: &Place<'_>,
    disk: FileDisk,
    words: &Words<'_>,
    answers: &mut Vec<u8>,
) -> Result<FileDisk, Stop> {
    let script = script_of(rt, words)?;
    place.perform(rt, script.as_str(), disk, answers)
}

/// Performs a command that reads answers, and tells behind what helps where a request was refused.
fn judge<W: Write>(
    rt: &HostRuntime,
    place: &Place<'_>,
    words: &Words<'_>,
    answers: &[u8],
    out: &mut W,
) -> Result<(), Stop> {
    let judged = command(rt, words, answers, out);
    place.tell_help(rt, answers);
    judged
}

/// How many blocks a script writes: each of its lines has a frame for each block, and one more that
/// asks for the result. A frame has 1,024 hex digits.
fn blocks_of(script: &str) -> u64 {
    let mut blocks = 0u64;
    for line in script.split('\n') {
        let digits = line.split(' ').nth(2).unwrap_or("").len() as u64;
        blocks = blocks.saturating_add((digits / 1024).saturating_sub(1));
    }
    blocks
}

/// Refused where a script writes past the last block of its guest, before it writes any.
fn check_end(
    rt: &HostRuntime,
    place: &Place<'_>,
    words: &Words<'_>,
    script: &str,
) -> Result<(), Stop> {
    match words.address.and_then(|word| read_number(word)) {
        Some(address) if words.command == "write" => {
            place.check_end(rt, address, blocks_of(script))
        }
        _ => Ok(()),
    }
}

/// Performs the requests that a command makes, and explains the answers, also those before a fault.
/// A write past the end is refused before any.
fn ask<W: Write>(
    rt: &HostRuntime,
    place: &Place<'_>,
    disk: FileDisk,
    words: &mut Words<'_>,
    out: &mut W,
) -> Result<(), Stop> {
    let script = script_of(rt, words)?;
    check_end(rt, place, words, script.as_str())?;
    let mut answers = Vec::new(rt.alloc());
    let ended = place.perform(rt, script.as_str(), disk, &mut answers);
    words.command = "explain";
    match ended {
        Ok(_) => judge(rt, place, words, answers.as_slice(), out),
        Err(stop) => {
            if !answers.is_empty() {
                let _ = command(rt, words, answers.as_slice(), out);
            }
            Err(stop)
        }
    }
}

/// Reads blocks, and writes their bytes.
fn read<W: Write>(
    rt: &HostRuntime,
    place: &Place<'_>,
    disk: FileDisk,
    words: &mut Words<'_>,
    out: &mut W,
) -> Result<(), Stop> {
    words.command = "read";
    let mut answers = Vec::new(rt.alloc());
    let _disk = answer(rt, place, disk, words, &mut answers)?;
    words.command = "read-data";
    judge(rt, place, words, answers.as_slice(), out)
}

/// The write counter that the answer among lines says, where its MAC and its nonce are right.
fn counter_said<'a>(
    rt: &HostRuntime,
    words: &Words<'a>,
    lines: &str,
) -> Result<Option<u32>, Refusal<'a>>
    ensures { IfOk result (IsCounterSaid any_file words.now lines.now) }
{
    let key = key(rt.alloc(), &System { rt }, words.key())?;
    let nonce = option_nonce(rt.alloc(), words.nonce)?;
    match find_answer(rt.alloc(), &nonce, lines) {
        Ok(Choice::Answer(used)) => Ok(counter_of(&key, &nonce, used.reply.as_slice())),
        Ok(Choice::Replies(_, _)) => Ok(None),
        Err(_) => Err(Refusal::NoMemory),
    }
}

/// The write counter that the answer among lines says, or else what that answer is.
fn counter_or_why<W: Write>(
    rt: &HostRuntime,
    place: &Place<'_>,
    words: &mut Words<'_>,
    lines: &str,
    out: &mut W,
) -> Result<u32, Stop>
    ensures { IfOk result
        (λ counter. IsCounterSaid any_file words.old lines.now (Some counter)) }
{
    match counter_said(rt, words, lines) {
        Ok(Some(counter)) => Ok(counter),
        Ok(None) => {
            words.command = "explain";
            // Where what follows isn't taken, no write was made.
            words.operation = None;
            let explained = judge(rt, place, words, lines.as_bytes(), out);
            let _ = eprintln!(rt; "rpmb: nothing was written: no counter was read under this key");
            match explained {
                Ok(()) => Err(told(rt, Refusal::Answer(AnswerRefusal::NoCounter))),
                Err(stop) => Err(stop),
            }
        }
        Err(refusal) => {
            let status = report_with_advice(words, refusal, &mut rt.stderr());
            Err(Stop { status })
        }
    }
}

/// Writes blocks under the write counter that is read first, while no other program has the image.
fn write<W: Write>(
    rt: &HostRuntime,
    place: &Place<'_>,
    disk: FileDisk,
    words: &mut Words<'_>,
    out: &mut W,
) -> Result<(), Stop> {
    words.command = "read-counter";
    let mut lines = Vec::new(rt.alloc());
    let disk = answer(rt, place, disk, words, &mut lines)?;
    let lines = text_of(rt, lines)?;
    let counter = counter_or_why(rt, place, words, lines.as_str(), out)?;
    let Ok(digits) = format!(in rt.alloc(); "{counter}") else {
        return Err(told(rt, Refusal::NoMemory));
    };
    let mut words = Words {
        command: "write",
        counter: Some(digits.as_str()),
        keys: replace(&mut words.keys, Vec::new(rt.alloc())),
        ..*words
    };
    ask(rt, place, disk, &mut words, out)
}

/// The hex digits of the key that the words name first; none where they name no key.
fn key_digits(rt: &HostRuntime, words: &Words<'_>) -> Result<String, Stop> {
    if words.key().is_none() {
        return Ok(String::new(rt.alloc()));
    }
    let key = match key(rt.alloc(), &System { rt }, words.key()) {
        Ok(key) => key,
        Err(refusal) => {
            let status = report_with_advice(words, refusal, &mut rt.stderr());
            return Err(Stop { status });
        }
    };
    match hex::encode(rt.alloc(), &key) {
        Ok(digits) => Ok(digits),
        Err(_) => Err(told(rt, Refusal::NoMemory)),
    }
}

/// As many words of a key as were given, each of these digits: `explain` refuses more than one.
fn keys_by<'a>(rt: &HostRuntime, many: usize, digits: &'a str) -> Result<Vec<&'a str>, AllocError> {
    let mut keys = Vec::new(rt.alloc());
    for _word in 0..many {
        keys.push(digits)?;
    }
    Ok(keys)
}

/// Performs an operation on the image of a board. The file of its key is read once, before a
/// request is made: by what it held the answer is judged, too, also where it was a pipe.
fn operate_on<'a, W: Write>(
    rt: &HostRuntime,
    place: &Place<'_>,
    operation: &'a str,
    words: &Words<'a>,
    out: &mut W,
) -> Result<(), Stop> {
    let disk = place.open(rt)?;
    let digits = key_digits(rt, words)?;
    let Ok(keys) = keys_by(rt, words.keys.len(), digits.as_str()) else {
        return Err(told(rt, Refusal::NoMemory));
    };
    let mut words = Words {
        command: operation,
        keys,
        ..*words
    };
    match operation {
        "read" => read(rt, place, disk, &mut words, out),
        "write" => write(rt, place, disk, &mut words, out),
        _ => ask(rt, place, disk, &mut words, out),
    }
}

/// Performs the operation of words that have a nonce.
fn operate<W: Write>(rt: &HostRuntime, words: &Words<'_>, out: &mut W) -> Result<(), Stop> {
    let (Some(file), Some(operation)) = (words.board, words.operation) else {
        return Err(told(rt, Refusal::Option(OptionRefusal::Incomplete)));
    };
    let place = Place::of(rt, file, words.guest.unwrap_or(""))?;
    operate_on(rt, &place, operation, words, out)
}

fn operate_once<W: Write>(rt: &HostRuntime, words: Words<'_>, out: &mut W) -> Result<(), Stop> {
    if let Err(refusal) = check_own_key(&words) {
        let status = report_with_advice(&words, refusal, &mut rt.stderr());
        return Err(Stop { status });
    }
    let nonce = match random_nonce(rt) {
        Ok(nonce) => nonce,
        Err(refusal) => return Err(told(rt, refusal)),
    };
    let words = Words {
        nonce: Some(nonce.as_str()),
        ..words
    };
    operate(rt, &words, out)
}

/// Performs an operation on the image of a board, and gives the program's status: 0, or 1 or 3 with
/// the reason on standard error. Room for what is printed is taken before a file is looked at.
pub fn perform_operation(rt: &HostRuntime, words: Words<'_>) -> u8 {
    let Ok(mut out) = BufWriter::new(rt.alloc(), rt.stdout()) else {
        return report(Refusal::NoMemory, &mut rt.stderr());
    };
    match operate_once(rt, words, &mut out) {
        Ok(()) => 0,
        Err(stop) => stop.status,
    }
}
