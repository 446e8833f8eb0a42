//! The command that makes the lines that write blocks.
ghost use Rattle.std.specs.Prelude.{◌≡◌, ◌≤◌, IfErr, IfOk, OnOk, Some};
ghost use Rattle.rpmb_client.specs.Options.{IsWhyNoBytes};
ghost use Rattle.rpmb_client.specs.Values.{bytes_said};
ghost use Rattle.rpmb_commands.specs.KeySaid.{IsRefusedFor};
ghost use Rattle.rpmb_commands.specs.Writing.{Fits, FitsNot, IsStopped, IsWhyNoBytesSaid};
ghost use Rattle.rpmb_commands.specs.Writing.{IsWhyNoData, IsWhyNoWriter, IsWriter, SaysBytes};
ghost use Rattle.rpmb_commands.specs.Writing.{SaysContent, WhyNoWriteLines, WriteLines};
ghost use Rattle.rpmb_commands.specs.Writing.{WritesAll};

use crate::making::told;
use crate::reading::key;
use crate::refusal::Refusal;
use crate::source::{BLOCKS_FILE, Source, content_of};
use crate::values::{address_of, counter_of, guest_of, most_of};
use crate::words::Words;
use rpmb_client::{Writer, option_bytes, pad, write_all};
use std::alloc::Global;
use std::io::Write;

fn bytes_of_word<'a>(alloc: Global, word: &'a str) -> Result<Vec<u8>, Refusal<'a>>
    ensures ok { IfOk result (λ bytes. bytes_said word.now ≡ Some bytes.items) }
    ensures err { IfErr result (IsRefusedFor (IsWhyNoBytes word.now)) }
{
    match option_bytes(alloc, word) {
        Ok(bytes) => Ok(bytes),
        Err(told) => Err(Refusal::from(told)),
    }
}

/// The bytes that words give, or a file that they name.
fn content<'a, S: Source>(
    alloc: Global,
    source: &S,
    words: &Words<'a>,
) -> Result<Vec<u8>, Refusal<'a>>
    ensures ok { IfOk result
        (λ bytes. SaysContent (S.gives source.now) words.now.bytes words.now.file bytes.items) }
    ensures err { IfErr result (IsWhyNoData words.now.bytes words.now.file) }
{
    match (words.bytes, words.file) {
        (Some(word), None) => bytes_of_word(alloc, word),
        (None, Some(name)) => content_of(alloc, source, name, BLOCKS_FILE),
        (Some(_), Some(_)) => Err(Refusal::TwoData),
        (None, None) => Err(Refusal::NoData),
    }
}

/// The bytes that are to be written: with `--pad` zeros fill the last block.
fn bytes_of<'a, S: Source>(
    alloc: Global,
    source: &S,
    words: &Words<'a>,
) -> Result<Vec<u8>, Refusal<'a>>
    ensures ok { IfOk result (λ bytes. SaysBytes (S.gives source.now) words.now bytes.items) }
    ensures err { IfErr result (IsWhyNoBytesSaid words.now) }
{
    let content = content(alloc, source, words)?;
    if !words.pad {
        return Ok(content);
    }
    pad(content).or(Err(Refusal::NoMemory))
}

/// Who writes, and where it begins.
fn writer_of<'a, S: Source>(
    alloc: Global,
    source: &S,
    words: &Words<'a>,
) -> Result<Writer, Refusal<'a>>
    ensures ok { IfOk result (IsWriter (S.gives source.now) words.now) }
    ensures err { IfErr result (IsWhyNoWriter (S.gives source.now) words.now) }
{
    let guest = guest_of(words)?;
    let key = key(alloc, source, words.key())?;
    let counter = counter_of(words)?;
    let address = address_of(words)?;
    Ok(Writer {
        guest,
        key,
        counter,
        address,
        asks: !words.no_result,
    })
}

/// Refused where the bytes aren't whole blocks, or the last block has no address, or the last write
/// no counter.
fn check_fits<'a>(writer: &Writer, most: u16, bytes: &[u8]) -> Result<(), Refusal<'a>>
    requires least { 1 ≤ most }
    requires most { most ≤ 16 }
    ensures ok { OnOk result (Fits writer.now most bytes.now) }
    ensures err { IfErr result (FitsNot writer.now most bytes.now) }
{
    if bytes.len() < 256 || bytes.len() % 256 != 0 {
        return Err(Refusal::BadData(bytes.len()));
    }
    let count = bytes.len() / 256;
    let end = u64::from(writer.address) + count as u64;
    if end > 65536 {
        return Err(Refusal::PastEnd(end - 1));
    }
    let writes = (count + usize::from(most) - 1) / usize::from(most);
    let counter = u64::from(writer.counter) + writes as u64;
    if counter > 4294967296 {
        return Err(Refusal::CounterEnd(counter - 1));
    }
    Ok(())
}

/// Writes the lines that write these bytes, at most so many blocks a line.
fn write_bytes<'a, W: Write>(
    alloc: Global,
    writer: Writer,
    most: u16,
    bytes: &[u8],
    out: &mut W,
) -> Result<(), Refusal<'a>>
    requires least { 1 ≤ most }
    requires most { most ≤ 16 }
    ensures ok { OnOk result
        (WritesAll writer most bytes.now (W.contents out.old) (W.contents out.new)) }
    ensures err { IfErr result (λ refused. IsStopped writer most bytes.now refused
        (W.contents out.old) (W.contents out.new)) }
{
    check_fits(&writer, most, bytes)?;
    let (blocks, _) = bytes.as_chunks::<256>();
    told(write_all(alloc, writer, most, blocks, out))
}

/// Makes the lines that write blocks.
pub fn make_write<'a, S: Source, W: Write>(
    alloc: Global,
    source: &S,
    words: &Words<'a>,
    out: &mut W,
) -> Result<(), Refusal<'a>>
    ensures printed { OnOk result
        (WriteLines (S.gives source.now) words.now (W.contents out.old) (W.contents out.new)) }
    ensures refused { IfErr result (λ refused. WhyNoWriteLines (S.gives source.now) words.now
        refused (W.contents out.old) (W.contents out.new)) }
{
    let writer = writer_of(alloc, source, words)?;
    let most = most_of(words)?;
    let bytes = bytes_of(alloc, source, words)?;
    write_bytes(alloc, writer, most, bytes.as_slice(), out)
}
