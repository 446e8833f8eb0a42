//! A line that gives no reply: whether it is no answer, and what is printed of it.
ghost use Rattle.std.specs.Prelude.{◌≡◌, ◌++◌, ◌∷◌, [], IfOk, OnOk};
ghost use Rattle.std.specs.Io.KnownBytes.{Appends};
ghost use Rattle.json.specs.Print.{quoted};
ghost use Rattle.rpmb_commands.specs.Explaining.{begins_so, ends_in_return, has_script_bytes};
ghost use Rattle.rpmb_commands.specs.Explaining.{has_used, is_no_answer, is_of_script, is_torn};
ghost use Rattle.rpmb_commands.specs.Explaining.{is_used, mark_of, other_told};
ghost use Rattle.rpmb_commands.specs.Explaining.{torn_mark};
ghost use Rattle.rpmb_commands.specs.LineObject.{line_object, object_of};

use json::Writer;
use rpmb_client::ClientFault;
use std::alloc::{AllocError, Global};
use std::io::Write;

/// Whether a line that gives no reply begins as those that do.
pub(crate) fn begins_so(line: &str) -> bool
    ensures { result ≡ begins_so line.now }
{
    line.starts_with("used")
}

/// Whether a word is the one that those begin with, by itself, or behind a byte order mark or a
/// tab.
fn is_used(word: &str) -> bool
    ensures { result ≡ is_used word.now }
{
    word == "used" || word == "\u{feff}used" || word == "\tused"
}

fn has_used(line: &str) -> bool
    ensures { result ≡ has_used line.now }
{
    let mut has_one = false;
    for word in line.split(' ') {
        has_one = has_one || is_used(word);
    }
    has_one
}

/// Whether it begins as they do, or has their first word further on.
fn is_torn(line: &str) -> bool
    ensures { result ≡ is_torn line.now }
{
    begins_so(line) || has_used(line)
}

/// Whether it begins as the lines of a script do that have bytes.
fn has_script_bytes(line: &str) -> bool
    ensures { result ≡ has_script_bytes line.now }
{
    line.starts_with("chain ") || line.starts_with("store ")
}

/// Whether it begins as the lines of a script do, which `rpmbd run` reads.
pub(crate) fn is_of_script(line: &str) -> bool
    ensures { result ≡ is_of_script line.now }
{
    has_script_bytes(line) || line.starts_with("reset ")
}

/// Whether it is none that `rpmbd run` prints: torn, or of a script.
pub(crate) fn is_no_answer(line: &str) -> bool
    ensures { result ≡ is_no_answer line.now }
{
    is_torn(line) || is_of_script(line)
}

fn ends_in_return(line: &str) -> bool
    ensures { result ≡ ends_in_return line.now }
{
    line.ends_with("\r")
}

/// What stands behind a torn line.
fn torn_mark(line: &str) -> &'static str
    ensures { result.now ≡ torn_mark line.now }
{
    if ends_in_return(line) {
        " (torn: it ends with a carriage return; tr -d '\\r' takes those away)"
    } else if begins_so(line) {
        " (torn: expected `used G LEN HEX`)"
    } else {
        " (torn: something stands before `used`, with which a line begins)"
    }
}

/// What stands behind a line that gives no reply.
fn mark_of(line: &str) -> &'static str
    ensures { result.now ≡ mark_of line.now }
{
    if is_torn(line) {
        torn_mark(line)
    } else if is_of_script(line) {
        " (of a script: expected what `rpmbd run` prints)"
    } else {
        ""
    }
}

/// Writes a line that gives no reply as it is, and says where it is no answer.
fn write_line<W: Write>(line: &str, out: &mut W) -> Result<(), ClientFault>
    ensures { OnOk result (Appends (W.contents out.old) (W.contents out.new)
        (line.now ++ (mark_of line.now ++ 10 ∷ []))) }
{
    let mark = mark_of(line);
    writeln!(out, "{line}{mark}")?;
    Ok(())
}

/// A text as a JSON string, between its quotes.
fn string_of(alloc: Global, text: &str) -> Result<Vec<u8>, AllocError>
    ensures { IfOk result (λ bytes. bytes.items ≡ quoted text.now) }
{
    let mut writer = Writer::new(Vec::new(alloc));
    writer.string(text)?;
    Ok(writer.into_inner())
}

/// Writes a JSON string between the rest of the object that it stands in.
#[tactic(auto, unfolding(crate::specs::LineObject::object_of))]
fn write_object<W: Write>(
    string: &[u8],
    torn: bool,
    of_script: bool,
    out: &mut W,
) -> Result<(), ClientFault>
    ensures { OnOk result (Appends (W.contents out.old) (W.contents out.new)
        (object_of string.now torn of_script)) }
{
    out.write_all(b"{\"line\":")?;
    out.write_all(string)?;
    writeln!(out, ",\"torn\":{torn},\"of_script\":{of_script}}}")?;
    Ok(())
}

/// Writes a line that gives no reply as a string in an object, with whether it was torn, and
/// whether it is of a script.
fn write_line_object<W: Write>(alloc: Global, line: &str, out: &mut W) -> Result<(), ClientFault>
    ensures { OnOk result (Appends (W.contents out.old) (W.contents out.new)
        (line_object line.now (is_torn line.now) (is_of_script line.now))) }
{
    let string = string_of(alloc, line)?;
    write_object(string.as_slice(), is_torn(line), is_of_script(line), out)
}

/// Writes it in the form that is asked for.
pub(crate) fn write_other<W: Write>(
    alloc: Global,
    line: &str,
    as_json: bool,
    out: &mut W,
) -> Result<(), ClientFault>
    ensures { OnOk result (Appends (W.contents out.old) (W.contents out.new)
        (other_told as_json line.now)) }
{
    if as_json {
        return write_line_object(alloc, line, out);
    }
    write_line(line, out)
}
