//! What the program says of the fault that ends it.
ghost use Rattle.std.specs.Prelude.{◌≡◌};
ghost use Rattle.commands.specs.Commands.{TellsEnd};
ghost use Rattle.commands.specs.Ending.{Takes};
ghost use Rattle.commands.specs.Fault.{fault_line};

use crate::fault::Fault;
use crate::reason::Refusal;
use arrayvec::ArrayString;
use std::fmt::Write as _;
use std::io;
use std::io::Write;

/// Room for the longest line of a fault, which has 46 bytes.
const LINE_LENGTH: usize = 64;

/// Writes the text as far as the writer takes it. Only a writer that is interrupted again and again
/// makes many turns.
fn write_front<E: Write>(text: &[u8], err: &mut E)
    ensures { Takes (E.contents err.old) (E.contents err.new) text.now }
{
    let mut taken = 0;
    for _ in 0..u64::MAX {
        if taken == text.len() {
            return;
        }
        match err.write(&text[taken..]) {
            Ok(0) => return,
            Ok(count) => taken += count,
            Err(error) => {
                if error.kind() != io::ErrorKind::Interrupted {
                    return;
                }
            }
        }
    }
}

/// Writes the fault's line, as far as standard error takes it, and gives the status that the
/// program ends with.
pub fn report<E: Write>(fault: Fault, err: &mut E) -> u8
    ensures status { result ≡ 1 }
    ensures told { Takes (E.contents err.old) (E.contents err.new) (fault_line fault) }
{
    let mut line = ArrayString::<LINE_LENGTH>::new();
    match writeln!(line, "rpmbd: {fault}") {
        Ok(()) => write_front(line.as_bytes(), err),
        // It never comes to this, since the room is larger than the line.
        Err(_) => {}
    }
    1
}

/// Writes the line of the fault that ended a command, if there is one.
pub(crate) fn tell_end<E: Write>(ended: Result<(), Fault>, err: &mut E)
    ensures { TellsEnd ended (E.contents err.old) (E.contents err.new) }
{
    if let Err(fault) = ended {
        report(fault, err);
    }
}

/// Writes the lines of a refusal, the fault's and then, where it is known, which file it is of and
/// why, and gives the status that the program ends with.
pub fn report_refusal<E: Write>(refusal: &Refusal, err: &mut E) -> u8
    ensures { result ≡ 1 }
{
    let status = report(refusal.fault, err);
    write_reason(refusal.reason.as_ref(), err);
    status
}

/// Writes the line of a reason, where there is one, as far as standard error takes it.
pub fn write_reason<E: Write>(reason: Option<&String>, err: &mut E) {
    if let Some(reason) = reason {
        write_front(reason.as_bytes(), err);
        write_front(b"\n", err);
    }
}
