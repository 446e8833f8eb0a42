//! A whole script.
ghost use Rattle.std.specs.Prelude.{◌≡◌, IfErr, IfOk, OnOk, All, Some, None, map};
ghost use Rattle.std.specs.Prelude.{false, true};
ghost use Rattle.script.specs.Line.{IsServed, IsWithin, line_of, line_when, said, served_line_of};
ghost use Rattle.script.specs.Refusal.{IfBad, IfBadLine};
ghost use Rattle.script.specs.Script.{first_bad, first_none, first_unserved, lines_of};

use crate::fault::{LineError, ScriptError};
use crate::flaw;
use crate::line::{Line, read_line};
use std::alloc::Global;

/// Reads one line of a script that is served, or of one that is run.
fn read_when(alloc: Global, served: bool, text: &str, guests: u16) -> Result<Line, LineError>
    ensures ok { IfOk result (λ line. line_when served guests text.now ≡ Some (said line)) }
    ensures within { IfOk result (λ line. IsWithin guests (said line)) }
    ensures served { served ≡ true → IfOk result (λ line. IsServed (said line)) }
    ensures bad { IfErr result (IfBad (line_when served guests text.now ≡ None)) }
{
    match read_line(alloc, text, guests) {
        Ok(Line::Store { .. }) if served => Err(flaw::served_store(alloc)),
        read => read,
    }
}

/// Reads the lines of a script that is served, or of one that is run.
fn read_lines(
    alloc: Global,
    served: bool,
    script: &str,
    guests: u16,
) -> Result<Vec<Line>, ScriptError>
    ensures ok { IfOk result (λ lines. map (λ line. Some (said line)) lines.items
        ≡ map (line_when served guests) (lines_of script.now)) }
    ensures within { IfOk result (λ lines. All (λ line. IsWithin guests (said line)) lines.items) }
    ensures served { served ≡ true
        → IfOk result (λ lines. All (λ line. IsServed (said line)) lines.items) }
    ensures bad { IfErr result (IfBadLine
        (λ n. first_none (line_when served guests) (lines_of script.now) ≡ Some n)) }
{
    let mut lines = Vec::new(alloc);
    for text in script.split('\n') {
        match read_when(alloc, served, text, guests) {
            Ok(line) => {
                if lines.push(line).is_err() {
                    return Err(ScriptError::NoMemory);
                }
            }
            Err(LineError::BadScript(flaw)) => {
                return Err(flaw::bad_line(alloc, script, lines.len() + 1, flaw));
            }
            Err(LineError::NoMemory) => return Err(ScriptError::NoMemory),
        }
    }
    Ok(lines)
}

/// Reads a script for a board of so many guests: entry k of the answer is what line k + 1 asks for.
///
/// A line feed ends a line; the last line may lack it, and what follows the last line feed is a
/// line too, if an empty one. A carriage return is a byte like any other.
///
/// # Errors
///
/// `BadScript` with the number of the first line, counted from 1, that `read_line` refuses, and why
/// it does; `NoMemory` where memory is refused.
pub fn read_script(alloc: Global, script: &str, guests: u16) -> Result<Vec<Line>, ScriptError>
    ensures good { OnOk result (first_bad guests (lines_of script.now) ≡ None) }
    ensures ok { IfOk result (λ lines. map (λ line. Some (said line)) lines.items
        ≡ map (line_of guests) (lines_of script.now)) }
    ensures within { IfOk result (λ lines. All (λ line. IsWithin guests (said line)) lines.items) }
    ensures bad { IfErr result (IfBadLine
        (λ n. first_bad guests (lines_of script.now) ≡ Some n)) }
{
    read_lines(alloc, false, script, guests)
}

/// Reads a script whose guests are served at once: as `read_script`, but a `store` line is one that
/// a script may not say, since a guest's memory is its driver's while the others go on.
///
/// # Errors
///
/// `BadScript` with the number of the first line, counted from 1, that `read_line` refuses or that
/// is a `store` line, and why; `NoMemory` where memory is refused.
pub fn read_served_script(
    alloc: Global,
    script: &str,
    guests: u16,
) -> Result<Vec<Line>, ScriptError>
    ensures good { OnOk result (first_unserved guests (lines_of script.now) ≡ None) }
    ensures ok { IfOk result (λ lines. map (λ line. Some (said line)) lines.items
        ≡ map (served_line_of guests) (lines_of script.now)) }
    ensures within { IfOk result (λ lines. All (λ line. IsWithin guests (said line)) lines.items) }
    ensures served { IfOk result (λ lines. All (λ line. IsServed (said line)) lines.items) }
    ensures bad { IfErr result (IfBadLine
        (λ n. first_unserved guests (lines_of script.now) ≡ Some n)) }
{
    read_lines(alloc, true, script, guests)
}
