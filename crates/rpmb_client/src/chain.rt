//! The lines of a script that offer chains.
ghost use Rattle.std.specs.Prelude.{◌∷◌, ◌++◌, IfErr, OnOk, []};
ghost use Rattle.std.specs.Io.KnownBytes.{Appends};
ghost use Rattle.rpmb_client.specs.Chain.{chain_text};
ghost use Rattle.rpmb_client.specs.Keeping.{KeepsUnless};

use crate::fault::ClientFault;
use script::shown_bytes;
use std::alloc::Global;
use std::io::Write;

/// Writes the line in which a guest offers a chain of these readable bytes and of so many writable
/// ones: `chain G HEX W`.
///
/// # Errors
///
/// `NoMemory` where memory is refused, `FileFault` where the writer takes no more.
#[tactic(auto, unfolding(crate::specs::Chain::chain_text))]
pub fn write_chain<W: Write>(
    alloc: Global,
    guest: u16,
    readable: &[u8],
    writable: u32,
    out: &mut W,
) -> Result<(), ClientFault>
    ensures written { OnOk result (Appends (W.contents out.old) (W.contents out.new)
        (chain_text guest readable.now writable ++ 10 ∷ [])) }
    ensures silent { IfErr result
        (λ fault. KeepsUnless fault (W.contents out.old) (W.contents out.new)) }
{
    let text = match shown_bytes(alloc, readable) {
        Ok(text) => text,
        Err(_) => return Err(ClientFault::NoMemory),
    };
    match writeln!(out, "chain {guest} {text} {writable}") {
        Ok(()) => Ok(()),
        Err(_) => Err(ClientFault::FileFault),
    }
}
