//! Sixty-four guests at once, each with two hundred chains.
use crate::tests::alone::{Replies, all_alone, are_told_alike};
use crate::tests::asking::script_asking;
use crate::tests::scene::{adds_script, check};
use std::alloc::Global;
use std::sync::Wait;
use std::test::Fail;
use std::thread::Threads;
use workers::Script;

/// A script for each guest; `salt` makes those of one test others than those of the next.
fn scripts_of(alloc: Global, salt: u8) -> Option<Vec<Script>> {
    let mut scripts = Vec::new(alloc);
    let mut made = true;
    for guest in 0..64 {
        made = made && adds_script(&mut scripts, script_asking(alloc, guest, salt));
    }
    if made { Some(scripts) } else { None }
}

/// Each guest has two hundred chains.
fn are_whole(alone: &[Replies]) -> bool {
    for replies in alone {
        if replies.len() != 200 {
            return false;
        }
    }
    true
}

/// Five runs of one board, in which each guest is told what it is told alone.
fn run_five<R: Threads + Wait + Sync>(
    rt: &R,
    alloc: Global,
    scripts: &[Script],
    alone: &[Replies],
) -> bool {
    for _ in 0..5 {
        if !are_told_alike(rt, alloc, scripts, alone, 12_800) {
            return false;
        }
    }
    are_whole(alone)
}

fn are_told<R: Threads + Wait + Sync>(rt: &R, alloc: Global, salt: u8) -> bool {
    let Some(scripts) = scripts_of(alloc, salt) else {
        return false;
    };
    match all_alone(alloc, &scripts) {
        Some(alone) => run_five(rt, alloc, &scripts, &alone),
        None => false,
    }
}

#[test]
fn sixty_four_guests_are_told_what_each_is_told_alone(rt: HostRuntime) -> Result<(), Fail> {
    check(are_told(&rt, rt.alloc(), 0), "another outcome")
}

#[test]
fn sixty_four_guests_are_told_so_with_second_scripts(rt: HostRuntime) -> Result<(), Fail> {
    check(are_told(&rt, rt.alloc(), 1), "another outcome")
}

#[test]
fn sixty_four_guests_are_told_so_with_third_scripts(rt: HostRuntime) -> Result<(), Fail> {
    check(are_told(&rt, rt.alloc(), 2), "another outcome")
}

#[test]
fn sixty_four_guests_are_told_so_with_fourth_scripts(rt: HostRuntime) -> Result<(), Fail> {
    check(are_told(&rt, rt.alloc(), 3), "another outcome")
}
