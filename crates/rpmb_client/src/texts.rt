//! Blocks that are texts.
ghost use Rattle.std.specs.Prelude.{◌≡◌, ◌≤◌, ◌==◌, ◌++◌, ◌∷◌, [], OnOk, codes, length};
ghost use Rattle.std.specs.Io.KnownBytes.{Appends};
ghost use Rattle.std.specs.List.{list_all};
ghost use Rattle.rpmb_client.specs.Explained.{end_told, is_printable, is_text, printable_length};

use crate::fault::ClientFault;
use std::io::Write;

fn is_printable(byte: u8) -> bool
    ensures { result ≡ is_printable byte }
{
    (32..=126).contains(&byte)
}

/// How many bytes stand before the first that isn't printable.
fn printable_length(bytes: &[u8]) -> usize
    ensures said { result ≡ printable_length bytes.now }
    ensures inside { result ≤ length bytes.now }
{
    for i in 0..bytes.len() {
        if !is_printable(bytes[i]) {
            return i;
        }
    }
    bytes.len()
}

fn are_zeros(bytes: &[u8]) -> bool
    ensures { result ≡ list_all (λ b. b == 0) bytes.now }
{
    bytes.iter().all(|byte| *byte == 0)
}

/// Whether bytes are a text: printable ones, and behind them zeros alone.
#[tactic(auto, unfolding(crate::specs::Explained::is_text))]
fn is_text(bytes: &[u8]) -> bool
    ensures { result ≡ is_text bytes.now }
{
    let count = printable_length(bytes);
    count > 0 && are_zeros(&bytes[count..])
}

/// Writes bytes between what begins a text and what ends its line.
fn write_quoted<W: Write>(bytes: &[u8], out: &mut W) -> Result<(), ClientFault>
    ensures { OnOk result (Appends (W.contents out.old) (W.contents out.new)
        (codes ", text \"" ++ (bytes.now ++ (34 ∷ 10 ∷ [])))) }
{
    out.write_all(b", text \"")?;
    out.write_all(bytes)?;
    out.write_all(b"\"\n")?;
    Ok(())
}

/// Ends what is said of a frame: an object, or a line, in which the text of a block that is one
/// stands last.
#[tactic(auto, unfolding(crate::specs::Explained::end_told))]
pub(crate) fn write_end<W: Write>(
    block: &[u8; 256],
    as_json: bool,
    out: &mut W,
) -> Result<(), ClientFault>
    ensures { OnOk result (Appends (W.contents out.old) (W.contents out.new)
        (end_told as_json block.now)) }
{
    if as_json {
        out.write_all(b"}\n")?;
        return Ok(());
    }
    if is_text(block) {
        return write_quoted(&block[..printable_length(block)], out);
    }
    out.write_all(b"\n")?;
    Ok(())
}
