//! The keys that answers are judged by.
ghost use Rattle.std.specs.Prelude.{◌≡◌, IfErr, IfOk, MatchOption, OnOk};
ghost use Rattle.rpmb_client.specs.Values.{number_said};
ghost use Rattle.rpmb_commands.specs.Explaining.{IsOther};
ghost use Rattle.rpmb_commands.specs.KeysSaid.{AddsKey, AddsKeys, AddsOthers, AddsOwn};
ghost use Rattle.rpmb_commands.specs.KeysSaid.{IsForOthers, IsParted, keys_seen, no_keys};

use crate::reading::key;
use crate::refusal::{KeyRefusal, Refusal};
use crate::source::Source;
use crate::words::Words;
use rpmb_client::{GuestKey, Keys, key_at, number_of};
use std::alloc::Global;

/// The guest of a word `G=KEY`, and the key's word; none where the key is for all other guests.
fn guest_part<'a>(word: &'a str) -> Option<(&'a str, &'a str)>
    ensures { MatchOption result (IsForOthers word.now)
        (λ parts. IsParted word.now parts.0.now parts.1.now) }
{
    match word.strip_prefix('@') {
        Some(_) => None,
        None => word.split_once('='),
    }
}

/// The number of a guest, 0 to 63.
fn guest_number(word: &str) -> Option<u64>
    ensures { result ≡ number_said word.now 0 63 }
{
    number_of(word, 0, 63)
}

/// Refused where the key of an operation on one guest is named for a guest.
pub fn check_own_key<'a>(words: &Words<'a>) -> Result<(), Refusal<'a>> {
    let Some(word) = words.key() else {
        return Ok(());
    };
    let Some((guest, _)) = guest_part(word) else {
        return Ok(());
    };
    match guest_number(guest) {
        Some(named) => Err(Refusal::NamedKey(named, words.guest.unwrap_or(""))),
        None => Ok(()),
    }
}

fn add_own<'a, S: Source>(
    alloc: Global,
    source: &S,
    keys: &mut Keys,
    guest: &'a str,
    word: &'a str,
) -> Result<(), Refusal<'a>>
    ensures ok { OnOk result (AddsOwn (S.gives source.now) guest.now word.now
        (keys_seen keys.old) (keys_seen keys.new)) }
    ensures other { IfErr result IsOther }
{
    let Some(guest) = guest_number(guest) else {
        return Err(Refusal::Key(KeyRefusal::NoGuest));
    };
    if key_at(keys.own.as_slice(), guest).is_some() {
        return Err(Refusal::Key(KeyRefusal::SecondKey(guest)));
    }
    let key = key(alloc, source, Some(word))?;
    match keys.own.push(GuestKey { guest, key }) {
        Ok(()) => Ok(()),
        Err(_) => Err(Refusal::NoMemory),
    }
}

fn add_others<'a, S: Source>(
    alloc: Global,
    source: &S,
    keys: &mut Keys,
    word: &'a str,
) -> Result<(), Refusal<'a>>
    ensures ok { OnOk result (AddsOthers (S.gives source.now) word.now
        (keys_seen keys.old) (keys_seen keys.new)) }
    ensures other { IfErr result IsOther }
{
    if keys.others.is_some() {
        return Err(Refusal::Key(KeyRefusal::SecondOfOthers));
    }
    keys.others = Some(key(alloc, source, Some(word))?);
    Ok(())
}

fn add<'a, S: Source>(
    alloc: Global,
    source: &S,
    keys: &mut Keys,
    word: &'a str,
) -> Result<(), Refusal<'a>>
    ensures ok { OnOk result (AddsKey (S.gives source.now) word.now
        (keys_seen keys.old) (keys_seen keys.new)) }
    ensures other { IfErr result IsOther }
{
    match guest_part(word) {
        Some((guest, word)) => add_own(alloc, source, keys, guest, word),
        None => add_others(alloc, source, keys, word),
    }
}

/// The keys that the words name, at most one for each guest and one for all others.
pub fn keys_of<'a, S: Source>(
    alloc: Global,
    source: &S,
    words: &Words<'a>,
) -> Result<Keys, Refusal<'a>>
    ensures ok { IfOk result
        (λ keys. AddsKeys (S.gives source.now) words.now.keys.items no_keys (keys_seen keys)) }
    ensures other { IfErr result IsOther }
{
    let mut keys = Keys::none(alloc);
    for word in words.keys.as_slice() {
        add(alloc, source, &mut keys, *word)?;
    }
    Ok(keys)
}
