//! The commands that make the line of one request.
ghost use Rattle.std.specs.Prelude.{◌≡◌, IfErr, IfOk, OnOk};
ghost use Rattle.rpmb_commands.specs.Making.{IsWhyNoRequest, MakesLine, Requests, WhyNoLine};
ghost use Rattle.rpmb_commands.specs.Refusing.{KeepsUnless, told_as};

use crate::asked::Making;
use crate::reading::key;
use crate::refusal::Refusal;
use crate::source::Source;
use crate::values::{guest_of, nonce_of, range_of};
use crate::words::Words;
use rpmb_client::{ClientFault, Request, write_line};
use std::alloc::Global;
use std::io::Write;

/// What a client made, or the refusal of the command.
pub(crate) fn told<'a>(made: Result<(), ClientFault>) -> Result<(), Refusal<'a>>
    ensures { result ≡ told_as made }
{
    match made {
        Ok(()) => Ok(()),
        Err(fault) => Err(Refusal::of(fault)),
    }
}

/// The request that a command makes, for the values that its words say.
fn request_of<'a, S: Source>(
    alloc: Global,
    source: &S,
    words: &Words<'a>,
    making: Making,
) -> Result<Request, Refusal<'a>>
    ensures ok { IfOk result (Requests (S.gives source.now) making words.now) }
    ensures err { IfErr result (IsWhyNoRequest (S.gives source.now) making words.now) }
{
    match making {
        Making::ProgramKey => Ok(Request::ProgramKey(key(alloc, source, words.key())?)),
        Making::ReadCounter => Ok(Request::ReadCounter(nonce_of(alloc, words)?)),
        Making::Read => {
            let (address, count) = range_of(words)?;
            let nonce = nonce_of(alloc, words)?;
            Ok(Request::Read(address, count, nonce))
        }
        Making::Outcome => Ok(Request::Outcome),
    }
}

/// Makes the line of one request.
pub fn make<'a, S: Source, W: Write>(
    alloc: Global,
    source: &S,
    words: &Words<'a>,
    making: Making,
    out: &mut W,
) -> Result<(), Refusal<'a>>
    ensures printed { OnOk result (MakesLine (S.gives source.now) making words.now
        (W.contents out.old) (W.contents out.new)) }
    ensures refused { IfErr result (WhyNoLine (S.gives source.now) making words.now) }
    ensures silent { IfErr result
        (λ refused. KeepsUnless refused (W.contents out.old) (W.contents out.new)) }
{
    let guest = guest_of(words)?;
    let request = request_of(alloc, source, words, making)?;
    told(write_line(alloc, guest, request, out))
}
