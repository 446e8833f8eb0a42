//! A script that is served, by guest.
ghost use Rattle.std.specs.Prelude.{◌≡◌, ◌<◌, ◌==◌, ◌++◌, ◌∷◌, ℕ, All, [], Err, IfErr, IfOk};
ghost use Rattle.std.specs.Prelude.{OnOk, Some, if◌then◌else◌, length, map, slice_index_or};
ghost use Rattle.std.specs.Prelude.{vec_len};
ghost use Rattle.script.specs.Line.{IsServed, IsWithin, said, served_line_of};
ghost use Rattle.script.specs.Script.{lines_of};
ghost use Rattle.commands.specs.Ending.{IsOfReading};
ghost use Rattle.commands.specs.Serving.{AreServable, IsUnservedAt, asked_by, asked_of, asks};

use crate::fault::Fault;
use rpmb_frame::BoardConfig;
use script::{Line, ScriptError, read_served_script};
use std::alloc::Global;
use workers::{Chain, Order, Script};

/// The lines of a script that is served, of which none stores.
pub(crate) fn read_served(
    alloc: Global,
    script: &str,
    board: &BoardConfig,
) -> Result<Vec<Line>, Fault>
    ensures ok { IfOk result (λ lines. map (λ line. Some (said line)) lines.items
        ≡ map (served_line_of (length board.now)) (lines_of script.now)) }
    ensures servable { IfOk result (λ lines. AreServable board.now lines.items) }
    ensures bad { (n : ℕ) → result ≡ Err (Fault.BadScript n) → IsUnservedAt board.now script.now n }
    ensures reads { IfErr result IsOfReading }
{
    match read_served_script(alloc, script, board.guests().len() as u16) {
        Ok(lines) => Ok(lines),
        Err(ScriptError::BadScript { line, .. }) => Err(Fault::BadScript { line }),
        Err(ScriptError::NoMemory) => Err(Fault::NoMemory),
    }
}

/// Gives the guest one order more.
fn give(scripts: &mut Vec<Script>, guest: u16, order: Order) -> Result<(), Fault>
    requires { guest < vec_len scripts.old }
    ensures many { vec_len scripts.new ≡ vec_len scripts.old }
    ensures each { OnOk result ((g : ℕ) → g < vec_len scripts.old
        → map (asks g) (slice_index_or scripts.new.items g [])
        ≡ map (asks g) (slice_index_or scripts.old.items g []) ++ (if g == guest
        then asks g order ∷ [] else [])) }
    ensures memory { IfErr result (λ fault. fault ≡ Fault.NoMemory) }
{
    match scripts[usize::from(guest)].push(order) {
        Ok(()) => Ok(()),
        Err(_) => Err(Fault::NoMemory),
    }
}

/// Gives what a line asks for to its guest.
fn hand_out(scripts: &mut Vec<Script>, line: Line) -> Result<(), Fault>
    requires within { IsWithin (vec_len scripts.old) (said line) }
    requires served { IsServed (said line) }
    ensures many { vec_len scripts.new ≡ vec_len scripts.old }
    ensures each { OnOk result ((g : ℕ) → g < vec_len scripts.old
        → map (asks g) (slice_index_or scripts.new.items g [])
        ≡ map (asks g) (slice_index_or scripts.old.items g []) ++ asked_by g (said line)) }
    ensures memory { IfErr result (λ fault. fault ≡ Fault.NoMemory) }
{
    match line {
        Line::Nothing => Ok(()),
        Line::Chain {
            guest,
            readable,
            writable,
        } => give(scripts, guest, Order::Chain(Chain::new(readable, writable))),
        Line::Store { .. } => unreachable!(),
        Line::Reset { guest } => give(scripts, guest, Order::Reset),
    }
}

/// A script with no orders for each guest.
fn no_orders(alloc: Global, guests: usize) -> Result<Vec<Script>, Fault>
    ensures many { IfOk result (λ scripts. vec_len scripts ≡ guests) }
    ensures none { IfOk result (λ scripts. All (λ orders. orders ≡ []) scripts.items) }
    ensures memory { IfErr result (λ fault. fault ≡ Fault.NoMemory) }
{
    let mut scripts = Vec::new(alloc);
    for _ in 0..guests {
        if scripts.push(Script::new(Vec::new(alloc))).is_err() {
            return Err(Fault::NoMemory);
        }
    }
    Ok(scripts)
}

/// Each guest's chains and resets, in the order of the lines.
pub(crate) fn part(alloc: Global, lines: Vec<Line>, guests: usize) -> Result<Vec<Script>, Fault>
    requires within { All (λ line. IsWithin guests (said line)) lines.items }
    requires served { All (λ line. IsServed (said line)) lines.items }
    ensures many { IfOk result (λ scripts. vec_len scripts ≡ guests) }
    ensures each { IfOk result (λ scripts. (g : ℕ) → g < guests
        → map (asks g) (slice_index_or scripts.items g []) ≡ asked_of g (map said lines.items)) }
    ensures memory { IfErr result (λ fault. fault ≡ Fault.NoMemory) }
{
    let mut scripts = no_orders(alloc, guests)?;
    for line in lines {
        hand_out(&mut scripts, line)?;
    }
    Ok(scripts)
}
