//! The lines of what chains come to.
ghost use Rattle.std.specs.Prelude.{IfErr, OnOk};
ghost use Rattle.std.specs.Io.KnownBytes.{Appends};
ghost use Rattle.commands.specs.Ending.{IsOfWriting, KeepsUnless};
ghost use Rattle.commands.specs.Serving.{answer_line};
ghost use Rattle.commands.specs.Transcript.{stuck_line, used_line};

use crate::fault::Fault;
use host::{Answer, Stuck};
use script::shown_bytes;
use std::alloc::Global;
use std::io::Write;

/// Writes the line of a reply: `used G LEN HEX`.
#[tactic(auto, unfolding(crate::specs::Transcript::used_line))]
pub(crate) fn write_reply<W: Write>(
    alloc: Global,
    guest: u16,
    reply: &[u8],
    out: &mut W,
) -> Result<(), Fault>
    ensures printed { OnOk result
        (Appends (W.contents out.old) (W.contents out.new) (used_line guest reply.now)) }
    ensures ends { IfErr result IsOfWriting }
    ensures silent { IfErr result
        (λ fault. KeepsUnless fault (W.contents out.old) (W.contents out.new)) }
{
    let text = match shown_bytes(alloc, reply) {
        Ok(text) => text,
        Err(_) => return Err(Fault::NoMemory),
    };
    match writeln!(out, "used {guest} {} {text}", reply.len()) {
        Ok(()) => Ok(()),
        Err(_) => Err(Fault::FileFault),
    }
}

/// Writes the line of a guest that is stuck: the text and the guest's number.
#[tactic(auto, unfolding(crate::specs::Transcript::stuck_line))]
pub(crate) fn write_stuck<W: Write>(guest: u16, stuck: Stuck, out: &mut W) -> Result<(), Fault>
    ensures printed { OnOk result
        (Appends (W.contents out.old) (W.contents out.new) (stuck_line guest stuck)) }
    ensures ends { IfErr result IsOfWriting }
    ensures silent { IfErr result
        (λ fault. KeepsUnless fault (W.contents out.old) (W.contents out.new)) }
{
    let text = match stuck {
        Stuck::NeedsReset => "needs-reset",
        Stuck::NoAnswer => "no-answer",
        Stuck::BadUsed => "bad-used",
    };
    match writeln!(out, "{text} {guest}") {
        Ok(()) => Ok(()),
        Err(_) => Err(Fault::FileFault),
    }
}

/// Writes the line of an answer.
pub(crate) fn write_answer<W: Write>(
    alloc: Global,
    guest: u16,
    answer: &Answer,
    out: &mut W,
) -> Result<(), Fault>
    ensures printed { OnOk result
        (Appends (W.contents out.old) (W.contents out.new) (answer_line guest answer.now)) }
    ensures ends { IfErr result IsOfWriting }
    ensures silent { IfErr result
        (λ fault. KeepsUnless fault (W.contents out.old) (W.contents out.new)) }
{
    match answer {
        Answer::Used(reply) => write_reply(alloc, guest, reply.as_slice(), out),
        Answer::Stuck(stuck) => write_stuck(guest, *stuck, out),
    }
}
