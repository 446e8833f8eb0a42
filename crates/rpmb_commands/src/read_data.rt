//! The command that writes the blocks of a read.
ghost use Rattle.std.specs.Prelude.{◌≡◌, ◌++◌, ◌∷◌, ℕ, IfErr, IfOk, IfSome, List, OnOk, Some, []};
ghost use Rattle.std.specs.Io.KnownBytes.{Appends};
ghost use Rattle.rpmb_client.specs.Answer.{answer_in, blocks, read_of};
ghost use Rattle.rpmb_client.specs.Finding.{IsFinder};
ghost use Rattle.rpmb_client.specs.Seen.{read_seen, used_seen};
ghost use Rattle.rpmb_commands.specs.Explaining.{without_feed};
ghost use Rattle.rpmb_commands.specs.ReadingData.{AreFirst, GivesData, GivesFirst, IsAnswered};
ghost use Rattle.rpmb_commands.specs.ReadingData.{IsSought, IsTold, WhyNoAnswer, WhyNoBlocks};
ghost use Rattle.rpmb_commands.specs.ReadingData.{WhyNoData, WhyNotFirst, WhyNotGiven, WhyNotRead};
ghost use Rattle.rpmb_commands.specs.ReadingData.{WhyNotSoMany, no_right_mac};
ghost use Rattle.rpmb_commands.specs.Refusing.{IsOfReading, KeepsUnless};

use crate::explaining::{next_line, without_end};
use crate::reading::key;
use crate::refusal::{AnswerRefusal, InputFault, Refusal};
use crate::source::Source;
use crate::values::{length_of, nonce_of};
use crate::words::Words;
use rpmb_client::{Choice, Finder, ReadAnswer, Used, cut, is_wrong, read_data};
use std::alloc::Global;
use std::io::{BufRead, Write};

/// Gives a line to what finds the answer.
fn take_line<'a>(alloc: Global, line: &str, finder: &mut Finder) -> Result<(), Refusal<'a>>
    ensures taken { OnOk result ((nonce : List ℕ) (lines : List (List ℕ))
        → IsFinder nonce lines finder.old
        → IsFinder nonce (lines ++ without_feed line.now ∷ []) finder.new) }
    ensures reading { IfErr result IsOfReading }
{
    finder
        .take(alloc, without_end(line))
        .or(Err(Refusal::NoMemory))
}

/// Gives the lines, each as it comes and in the same `line`, to what finds the answer among them.
fn seek<'a, B: BufRead>(
    alloc: Global,
    nonce: &[u8; 16],
    line: &mut String,
    input: &mut B,
) -> Result<Finder, Refusal<'a>>
    ensures found { IfOk result (λ finder. IfSome (B.remaining input.old)
        (λ text. IsSought nonce.now text finder)) }
    ensures reading { IfErr result IsOfReading }
{
    let mut finder = Finder::new(nonce);
    for number in 0..u64::MAX {
        if !next_line(input, number + 1, line)? {
            return Ok(finder);
        }
        take_line(alloc, line.as_str(), &mut finder)?;
    }
    // No input has so many lines.
    Err(Refusal::NoInput(InputFault::TooMany))
}

/// The answer among the lines: the only reply, or else the only one with the nonce.
fn answer_of<'a, B: BufRead>(
    alloc: Global,
    nonce: &[u8; 16],
    input: &mut B,
) -> Result<Used, Refusal<'a>>
    ensures ok { IfOk result (λ used. IfSome (B.remaining input.old)
        (λ text. answer_in nonce.now text ≡ Some (used_seen used))) }
    ensures err { IfErr result (λ refused. IfSome (B.remaining input.old)
        (λ text. WhyNoAnswer nonce.now text refused)) }
{
    let mut line = String::new(alloc);
    let finder = match seek(alloc, nonce, &mut line, input) {
        Ok(finder) => finder,
        Err(refusal) => return Err(refusal),
    };
    match finder.answer() {
        Choice::Answer(used) => Ok(used),
        Choice::Replies(count, asked) => Err(Refusal::Answer(AnswerRefusal::NoAnswer(
            count, asked,
        ))),
    }
}

/// The first bytes of blocks, so many as a word says.
fn cut_at<'a, 'b>(word: &'a str, blocks: &'b [u8]) -> Result<&'b [u8], Refusal<'a>>
    ensures ok { IfOk result (λ bytes. AreFirst (Some word.entry) blocks.now bytes.now) }
    ensures err { IfErr result (WhyNotSoMany word.entry blocks.now) }
{
    let length = length_of(word)?;
    match cut(blocks, length as usize) {
        Some(bytes) => Ok(bytes),
        None => Err(Refusal::Answer(AnswerRefusal::TooShort(length, blocks.len()))),
    }
}

/// The first bytes of blocks, so many as `--length` says, or all of them.
fn first_bytes<'a, 'b>(words: &Words<'a>, blocks: &'b [u8]) -> Result<&'b [u8], Refusal<'a>>
    ensures ok { IfOk result (λ bytes. AreFirst words.now.length blocks.now bytes.now) }
    ensures err { IfErr result (WhyNotFirst words.now.length blocks.now) }
{
    match words.length {
        None => Ok(blocks),
        Some(word) => cut_at(word, blocks),
    }
}

fn give<'a, W: Write>(bytes: &[u8], out: &mut W) -> Result<(), Refusal<'a>>
    ensures printed { OnOk result (Appends (W.contents out.old) (W.contents out.new) bytes.now) }
    ensures err { IfErr result (λ refused. refused ≡ Refusal.NoRoom) }
{
    out.write_all(bytes).or(Err(Refusal::NoRoom))
}

/// Writes as many of these bytes as are wanted.
fn give_first<'a, W: Write>(
    words: &Words<'a>,
    blocks: &[u8],
    out: &mut W,
) -> Result<(), Refusal<'a>>
    ensures printed { OnOk result (GivesFirst words.now.length blocks.now
        (W.contents out.old) (W.contents out.new)) }
    ensures err { IfErr result (WhyNotGiven words.now.length blocks.now) }
    ensures silent { IfErr result
        (λ refused. KeepsUnless refused (W.contents out.old) (W.contents out.new)) }
{
    give(first_bytes(words, blocks)?, out)
}

/// Why a MAC isn't right that `explain` tells to be wrong, or tells to be none.
fn no_right_mac<'a>(is_wrong: bool) -> Refusal<'a>
    ensures { result ≡ no_right_mac is_wrong }
{
    Refusal::Answer(if is_wrong {
        AnswerRefusal::WrongMac
    } else {
        AnswerRefusal::NoKey
    })
}

/// The blocks that a read gives, or why none.
fn blocks_of<'a>(key: &[u8; 32], used: &Used, read: ReadAnswer) -> Result<Vec<u8>, Refusal<'a>>
    ensures ok { IfOk result (λ all. read_seen read ≡ blocks all.items) }
    ensures err { IfErr result (IsTold key.now used.now.reply.items (read_seen read)) }
{
    match read {
        ReadAnswer::Blocks(blocks) => Ok(blocks),
        ReadAnswer::NoFrames => Err(Refusal::Answer(AnswerRefusal::NoFrames(used.reply.len()))),
        ReadAnswer::WrongMac => Err(no_right_mac(is_wrong(used, Some(*key), None))),
        ReadAnswer::WrongNonce => Err(Refusal::Answer(AnswerRefusal::WrongNonce)),
        ReadAnswer::OtherResponse(kind) => {
            Err(Refusal::Answer(AnswerRefusal::OtherResponse(kind)))
        }
        ReadAnswer::Refused(code) => Err(Refusal::Answer(AnswerRefusal::Refused(code))),
    }
}

/// The blocks of a reply, where its MAC and its nonce are right.
fn blocks_read<'a>(
    alloc: Global,
    key: &[u8; 32],
    nonce: &[u8; 16],
    used: &Used,
) -> Result<Vec<u8>, Refusal<'a>>
    ensures ok { IfOk result
        (λ all. read_of key.now nonce.now used.now.reply.items ≡ blocks all.items) }
    ensures err { IfErr result (WhyNotRead key.now nonce.now used.now.reply.items) }
{
    match read_data(alloc, key, nonce, used.reply.as_slice()) {
        Ok(read) => blocks_of(key, used, read),
        Err(_) => Err(Refusal::NoMemory),
    }
}

/// The blocks of the answer among the lines.
fn blocks_answered<'a, B: BufRead>(
    alloc: Global,
    key: &[u8; 32],
    nonce: &[u8; 16],
    input: &mut B,
) -> Result<Vec<u8>, Refusal<'a>>
    ensures ok { IfOk result (λ all. IfSome (B.remaining input.old)
        (λ text. IsAnswered key.now nonce.now text all.items)) }
    ensures err { IfErr result (λ refused. IfSome (B.remaining input.old)
        (λ text. WhyNoBlocks key.now nonce.now text refused)) }
{
    let used = answer_of(alloc, nonce, input)?;
    blocks_read(alloc, key, nonce, &used)
}

/// Writes the blocks of a read, where its MAC and its nonce are right.
pub fn give_data<'a, S: Source, B: BufRead, W: Write>(
    alloc: Global,
    source: &S,
    words: &Words<'a>,
    input: &mut B,
    out: &mut W,
) -> Result<(), Refusal<'a>>
    ensures printed { OnOk result (GivesData (S.gives source.now) words.now
        (B.remaining input.old) (W.contents out.old) (W.contents out.new)) }
    ensures refused { IfErr result
        (WhyNoData (S.gives source.now) words.now (B.remaining input.old)) }
    ensures silent { IfErr result
        (λ refused. KeepsUnless refused (W.contents out.old) (W.contents out.new)) }
{
    let key = key(alloc, source, words.key())?;
    let nonce = nonce_of(alloc, words)?;
    let blocks = blocks_answered(alloc, &key, &nonce, input)?;
    give_first(words, blocks.as_slice(), out)
}
