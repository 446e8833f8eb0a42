//! Requests and their answers, over completions, stops and failures.
use crate::tests::driver::{COUNTER, KEY, NO_KEY};
use crate::tests::rig::{Calls, Rig, fresh_image, plain, try_fresh};
use std::test::Fail;

/// A counter writes nothing; a key has four writes and four syncs.
fn answers<M: Calls>(rig: &mut Rig<M>) -> bool {
    rig.counts_anew(0, NO_KEY)
        && rig.writes == 0
        && rig.ask(0, 1, KEY, 0) == Some(4)
        && rig.writes == 4
        && rig.ask(0, 2, COUNTER, 0).is_some()
}

#[test]
fn requests_get_their_answers(rt: HostRuntime) -> Result<(), Fail> {
    try_fresh(rt.alloc(), &[plain()], answers)
}

/// A serve rests, a sync is awaited, and the guest waits.
fn rests_before_a_sync<M: Calls>(rig: &mut Rig<M>) -> bool {
    match rig.serve(0) {
        Some(served) => served.sync && served.waiting && rig.machine.waits(0),
        None => false,
    }
}

/// A key's first write is taken, and no sync is told: there is no reply.
fn stops_within_a_key<M: Calls>(rig: &mut Rig<M>) -> bool {
    rig.set_up(0, 0, 15);
    rig.offer(0, 0, KEY) && rests_before_a_sync(rig) && rig.writes == 1 && rig.ends(0, 0, 0, 0)
}

/// The sync is told, and those behind it: the key's reply is there.
fn goes_on_to_a_key<M: Calls>(rig: &mut Rig<M>) -> bool {
    rig.machine.tell(true) && rig.settle(0).is_some() && rig.ends(0, 0, 0, KEY)
}

/// Opens the image anew, and asks for the counter.
fn counts_after_an_opening<M: Calls>(rig: &mut Rig<M>, code: u8) -> bool {
    rig.machine.open_anew(rig.alloc, &[plain()], &rig.image) && rig.counts_anew(0, code)
}

/// The write is lost, as a system may lose it.
fn loses_its_write<M: Calls>(rig: &mut Rig<M>) -> bool {
    match fresh_image(rig.alloc, &[plain()]) {
        Some(image) => {
            rig.image = image;
            true
        }
        None => false,
    }
}

fn is_lost<M: Calls>(rig: &mut Rig<M>) -> bool {
    stops_within_a_key(rig) && loses_its_write(rig) && counts_after_an_opening(rig, NO_KEY)
}

fn stands<M: Calls>(rig: &mut Rig<M>) -> bool {
    stops_within_a_key(rig) && goes_on_to_a_key(rig) && counts_after_an_opening(rig, 0)
}

/// The write before a stop is lost; a key that was answered stands.
#[test]
fn what_was_answered_stands_after_an_opening(rt: HostRuntime) -> Result<(), Fail> {
    try_fresh(rt.alloc(), &[plain()], is_lost)?;
    try_fresh(rt.alloc(), &[plain()], stands)
}

fn fails_with_its_disk<M: Calls>(rig: &mut Rig<M>) -> bool {
    let is_refused = !rig.machine.tell(true);
    is_refused
        && stops_within_a_key(rig)
        && rig.machine.tell(false)
        && rig.settle(0) == Some(0)
        && rig.ends(0, 0, 5, KEY)
        && rig.ask(0, 1, KEY, 1).is_some()
        && rig.machine.broke()
}

/// A sync of nothing is refused. The reply that waits becomes a failure, and nothing more is
/// accepted.
#[test]
fn a_failed_disk_makes_failures(rt: HostRuntime) -> Result<(), Fail> {
    try_fresh(rt.alloc(), &[plain()], fails_with_its_disk)
}

fn has_nothing<M: Calls>(rig: &mut Rig<M>, guest: u16) -> bool {
    rig.ends(guest, 0, 0, 0) && rig.counts_anew(guest, NO_KEY)
}

fn has_a_key_alone<M: Calls>(rig: &mut Rig<M>) -> bool {
    rig.set_up(2, 0, 15);
    rig.ask(2, 0, KEY, 0).is_some()
        && has_nothing(rig, 0)
        && has_nothing(rig, 1)
        && rig.ask(2, 1, COUNTER, 0).is_some()
}

/// The third of three guests is served, and it alone has a key.
#[test]
fn guests_have_keys_of_their_own(rt: HostRuntime) -> Result<(), Fail> {
    let setups = [plain(), plain(), plain()];
    try_fresh(rt.alloc(), &setups, has_a_key_alone)
}

/// A serve looks for no chain, and the guest goes on waiting.
fn looks_for_none<M: Calls>(rig: &mut Rig<M>) -> bool {
    rig.needs.clear();
    match rig.serve(0) {
        Some(served) => served.waiting && rig.needs.len() == 1,
        None => false,
    }
}

fn waits_for_one<M: Calls>(rig: &mut Rig<M>) -> bool {
    stops_within_a_key(rig)
        && rig.offer(0, 1, COUNTER)
        && looks_for_none(rig)
        && goes_on_to_a_key(rig)
        && rig.ends(0, 1, 0, COUNTER)
}

/// While one chain waits, no second is looked for.
#[test]
fn no_more_chains_wait_than_may(rt: HostRuntime) -> Result<(), Fail> {
    let mut setup = plain();
    setup.most = 1;
    try_fresh(rt.alloc(), &[setup], waits_for_one)
}
