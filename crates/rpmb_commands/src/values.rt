//! The values of options, or the refusal of the command.
ghost use Rattle.std.specs.Prelude.{◌≡◌, ◌≤◌, ◌+◌, IfErr, IfOk, Some};
ghost use Rattle.rpmb_client.specs.Options.{number_said};
ghost use Rattle.rpmb_commands.specs.ReadingData.{length_said};
ghost use Rattle.rpmb_commands.specs.Said.{IsWhyNonce, address_said, count_said, counter_said};
ghost use Rattle.rpmb_commands.specs.Said.{guest_said, most_said, nonce_of, or_refusal, range_said};

use crate::refusal::Refusal;
use crate::words::Words;
use rpmb_client::{Number, option_nonce, option_number};
use std::alloc::Global;

fn number<'a>(
    word: Option<&'a str>,
    least: u64,
    most: u64,
    what: Number,
) -> Result<u64, Refusal<'a>>
    ensures said { result ≡ or_refusal (number_said word.entry least most what) }
    ensures bound { IfOk result (λ number. (least ≤ number) × (number ≤ most)) }
{
    match option_number(word, least, most, what) {
        Ok(number) => Ok(number),
        Err(told) => Err(Refusal::from(told)),
    }
}

/// The number of the guest.
#[tactic(auto, unfolding(crate::specs::Said::guest_said))]
pub fn guest_of<'a>(words: &Words<'a>) -> Result<u16, Refusal<'a>>
    ensures { result ≡ guest_said words.now }
{
    Ok(number(words.guest, 0, 63, Number::Guest)? as u16)
}

/// The write counter of the first line.
#[tactic(auto, unfolding(crate::specs::Said::counter_said))]
pub fn counter_of<'a>(words: &Words<'a>) -> Result<u32, Refusal<'a>>
    ensures { result ≡ counter_said words.now }
{
    Ok(number(words.counter, 0, 4294967295, Number::Counter)? as u32)
}

/// The first block.
#[tactic(auto, unfolding(crate::specs::Said::address_said))]
pub fn address_of<'a>(words: &Words<'a>) -> Result<u16, Refusal<'a>>
    ensures { result ≡ address_said words.now }
{
    Ok(number(words.address, 0, 65535, Number::Address)? as u16)
}

/// How many blocks are to be read.
#[tactic(auto, unfolding(crate::specs::Said::count_said))]
fn count_of<'a>(words: &Words<'a>) -> Result<u16, Refusal<'a>>
    ensures said { result ≡ count_said words.now }
    ensures bound { IfOk result (λ count. (1 ≤ count) × (count ≤ 16)) }
{
    Ok(number(words.count, 1, 16, Number::Count)? as u16)
}

/// The first block that is to be read, and how many.
#[tactic(auto, unfolding(crate::specs::Said::range_said))]
pub fn range_of<'a>(words: &Words<'a>) -> Result<(u16, u16), Refusal<'a>>
    ensures said { result ≡ range_said words.now }
{
    let address = address_of(words)?;
    let count = count_of(words)?;
    let end = u64::from(address) + u64::from(count);
    if end > 65536 {
        return Err(Refusal::PastEnd(end - 1));
    }
    Ok((address, count))
}

/// The most blocks of one write.
#[tactic(auto, unfolding(crate::specs::Said::most_said))]
pub fn most_of<'a>(words: &Words<'a>) -> Result<u16, Refusal<'a>>
    ensures said { result ≡ most_said words.now }
    ensures bound { IfOk result (λ most. (1 ≤ most) × (most ≤ 16)) }
{
    match words.most {
        None => Ok(16),
        Some(word) => Ok(number(Some(word), 1, 16, Number::MaxBlocks)? as u16),
    }
}

/// The nonce.
#[tactic(auto, unfolding(crate::specs::Said::nonce_of))]
pub fn nonce_of<'a>(alloc: Global, words: &Words<'a>) -> Result<[u8; 16], Refusal<'a>>
    ensures ok { IfOk result (λ nonce. nonce_of words.now ≡ Some nonce) }
    ensures err { IfErr result (IsWhyNonce words.now) }
{
    match option_nonce(alloc, words.nonce) {
        Ok(nonce) => Ok(nonce),
        Err(told) => Err(Refusal::from(told)),
    }
}

/// How many bytes of a read are wanted.
#[tactic(auto, unfolding(crate::specs::ReadingData::length_said))]
pub fn length_of<'a>(word: &'a str) -> Result<u64, Refusal<'a>>
    ensures { result ≡ length_said word.entry }
{
    number(Some(word), 0, 4096, Number::Length)
}
