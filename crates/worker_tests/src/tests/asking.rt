//! Scripts of two hundred chains, in which a guest asks for all that there is to ask for.
use crate::tests::scene::{Step, Write, script_of};
use std::alloc::Global;
use workers::Script;

/// What a guest's chain of this number asks for, where it has made so many writes: of thirty mostly
/// the counter.
fn step_of(guest: u8, turn: u8, salt: u8, counter: u32) -> Step {
    let nonce = u128::from_be_bytes([turn, guest, 1, 2, 3, 4, 5, 6, 7, 8, 9, 10, 11, 12, 13, 14]);
    let address = u16::from(turn % 8);
    match turn.wrapping_add(guest).wrapping_add(salt.wrapping_mul(7)) % 30 {
        0 | 11 => Step::Write(Write {
            key: guest,
            counter,
            address,
            byte: turn,
        }),
        5 | 17 | 23 => Step::Read(nonce, address),
        8 | 12 => Step::Outcome,
        14 => Step::Unknown,
        20 => Step::Garbage(turn),
        _ => Step::Counter(nonce),
    }
}

/// The steps behind a guest's first two, and a reset among them.
fn pushes_rest(steps: &mut Vec<Step>, guest: u8, salt: u8) -> bool {
    let mut written = 0_u32;
    for turn in 2..200_u8 {
        let step = step_of(guest, turn, salt, written);
        if turn == 60 + guest % 64 && steps.push(Step::Reset).is_err() {
            return false;
        }
        if steps.push(step).is_err() {
            return false;
        }
        written = written.wrapping_add(u32::from(matches!(step, Step::Write(_))));
    }
    true
}

/// A guest's script of two hundred chains and a reset: it asks for the counter before it has a key,
/// and then for all, in an order of its own.
pub fn script_asking(alloc: Global, guest: u8, salt: u8) -> Option<Script> {
    let first = [Step::Counter(u128::from(salt)), Step::Key(guest)];
    let Ok(mut steps) = Vec::from_slice(alloc, &first) else {
        return None;
    };
    if pushes_rest(&mut steps, guest, salt) {
        script_of(alloc, &steps)
    } else {
        None
    }
}
