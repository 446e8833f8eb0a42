//! Devices that are saved at rest, and go on.
use crate::tests::driver::{COUNTER, KEY};
use crate::tests::rig::{Calls, Rig, plain, try_fresh};
use machine::{MachineFault, STATE_WORDS};
use std::test::Fail;

type Words = [u32; STATE_WORDS];

/// What is saved of a guest; `None` where it isn't at rest.
fn saved<M: Calls>(rig: &Rig<M>, guest: u16) -> Option<Words> {
    let mut state = [0; STATE_WORDS];
    match rig.machine.save_state(guest, &mut state) {
        None => Some(state),
        Some(_) => None,
    }
}

/// A split queue of 16 of which two chains were used, VIRTIO_F_VERSION_1, DRIVER_OK; the line is
/// high.
#[rattlefmt::skip]
static WORDS: Words = [
    0x424d_5052, 1, 50, 1, 0, 1, 16, 16, 65_536, 256, 0, 0, 0,
    0, 0, 1, 1, 0, 16, 0x1000, 0, 0x2000, 0, 0x3000, 0,
    1, 0, 1, 1, 1, 1, 0, 0,
    1, 0, 0, 0, 16, 0x1000, 0, 0x2000, 0, 0x3000, 0, 2, 0, 2, 0, 0, 0,
];

/// A key and a counter, and what is saved then.
fn answers_two<M: Calls>(rig: &mut Rig<M>) -> bool {
    rig.set_up(0, 0, 15);
    rig.ask(0, 0, KEY, 0).is_some()
        && rig.ask(0, 1, COUNTER, 0).is_some()
        && rig.machine.place_of(0) == Some(2)
        && saved(rig, 0) == Some(WORDS)
}

/// Another machine over the image goes on as it, at its place.
fn goes_on<M: Calls>(rig: &mut Rig<M>) -> bool {
    answers_two(rig)
        && rig.machine.open_anew(rig.alloc, &[plain()], &rig.image)
        && rig.machine.load_state(0, &WORDS).is_none()
        && saved(rig, 0) == Some(WORDS)
        && rig.ask(0, 2, COUNTER, 0).is_some()
        && rig.machine.place_of(0) == Some(3)
}

/// A driver whose device was brought into service anew: its queue moves to where it stood.
fn moves<M: Calls>(rig: &mut Rig<M>) -> bool {
    answers_two(rig)
        && rig.machine.load_state(0, &WORDS).is_none()
        && rig.machine.move_queue(0, 0)
        && rig.machine.place_of(0) == Some(0)
        && rig.machine.move_queue(0, 2)
        && rig.ask(0, 2, COUNTER, 0).is_some()
}

#[test]
fn a_saved_device_goes_on(rt: HostRuntime) -> Result<(), Fail> {
    try_fresh(rt.alloc(), &[plain()], goes_on)?;
    try_fresh(rt.alloc(), &[plain()], moves)
}

/// Why these words are refused, with one of them changed; the device stays.
fn refused<M: Calls>(rig: &mut Rig<M>, at: usize, word: u32) -> Option<MachineFault> {
    let mut state = WORDS;
    state[at % STATE_WORDS] = word;
    rig.machine.load_state(0, &state)
}

fn is_refused<M: Calls>(rig: &mut Rig<M>) -> bool {
    let cut = rig.machine.load_state(0, &WORDS[..49]);
    let absent = rig.machine.load_state(1, &WORDS);
    cut == Some(MachineFault::BadState)
        && absent == Some(MachineFault::NoGuest)
        && refused(rig, 1, 2) == Some(MachineFault::BadState)
        && refused(rig, 4, 1) == Some(MachineFault::OtherConfig)
        && refused(rig, 5, 2) == Some(MachineFault::OtherConfig)
        && refused(rig, 37, 15) == Some(MachineFault::BadState)
        && refused(rig, 39, 512) == Some(MachineFault::BadState)
        && rig.machine.place_of(0).is_none()
}

/// A cut state, another version's, another guest's, a queue that can't be; and no queue is there.
#[test]
fn other_states_are_refused(rt: HostRuntime) -> Result<(), Fail> {
    try_fresh(rt.alloc(), &[plain()], is_refused)
}

/// While a chain waits nothing is saved, and no queue moves; once it is answered it is.
fn is_saved_at_rest_alone<M: Calls>(rig: &mut Rig<M>) -> bool {
    rig.set_up(0, 0, 15);
    rig.offer(0, 0, KEY)
        && rig.serve(0).is_some()
        && rig.machine.save_state(0, &mut [0; STATE_WORDS]) == Some(MachineFault::NotAtRest)
        && rig.machine.save_state(0, &mut []) == Some(MachineFault::OutOfRange)
        && !rig.machine.move_queue(0, 0)
        && rig.machine.tell(true)
        && rig.settle(0).is_some()
        && saved(rig, 0).is_some()
}

#[test]
fn devices_are_saved_at_rest_alone(rt: HostRuntime) -> Result<(), Fail> {
    try_fresh(rt.alloc(), &[plain()], is_saved_at_rest_alone)
}
