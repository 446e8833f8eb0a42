//! What is said of a reply, a line for each of its frames, or a JSON object.
ghost use Rattle.std.specs.Prelude.{◌≡◌, ◌<◌, ◌+◌, ◌++◌, ◌∷◌, ◌==◌, OnOk, [], get_or, length};
ghost use Rattle.std.specs.Io.KnownBytes.{Appends};
ghost use Rattle.rpmb_client.specs.Explained.{checks_of, checks_told, counter_name, counter_told};
ghost use Rattle.rpmb_client.specs.Explained.{fields_told, frame_told, frames_told, kinds_told};
ghost use Rattle.rpmb_client.specs.Explained.{no_frames_told, place_told, reply_told};

use crate::answer::{Used, is_whole};
use crate::facts::{
    data_digits, data_name, has_stuff, kind_text, mac_text, nonce_text, result_text, stuff_text,
    two_bytes,
};
use crate::fault::ClientFault;
use crate::texts::write_end;
use rpmb_frame::Frame;
use std::alloc::Global;
use std::io::Write;

/// Writes whose frame it is, and at which place of how many.
#[tactic(auto, unfolding(crate::specs::Explained::place_told))]
fn write_place<W: Write>(
    guest: u64,
    place: usize,
    n: usize,
    as_json: bool,
    out: &mut W,
) -> Result<(), ClientFault>
    ensures { OnOk result (Appends (W.contents out.old) (W.contents out.new)
        (place_told as_json guest place n)) }
{
    let written = if as_json {
        write!(out, "{{\"guest\":{guest},\"frame\":{place},\"frames\":{n}")
    } else {
        write!(out, "guest {guest}, frame {place} of {n}: ")
    };
    written?;
    Ok(())
}

/// Writes the type and the result of a frame.
#[tactic(auto, unfolding(crate::specs::Explained::kinds_told))]
fn write_kinds<W: Write>(
    alloc: Global,
    bytes: &[u8; 512],
    as_json: bool,
    out: &mut W,
) -> Result<(), ClientFault>
    ensures { OnOk result
        (Appends (W.contents out.old) (W.contents out.new) (kinds_told as_json bytes.now)) }
{
    let frame = Frame::from_bytes(bytes);
    let (number, code) = (frame.req_resp(), frame.result());
    let (kind, name) = (kind_text(number), result_text(code));
    if as_json {
        write!(
            out,
            ",\"kind\":\"{kind}\",\"type\":{number},\"result\":\"{name}\",\"code\":{code}"
        )?;
        return Ok(());
    }
    let digits = two_bytes(alloc, bytes, 510)?;
    let code_digits = two_bytes(alloc, bytes, 508)?;
    write!(out, "{kind} 0x{digits}, result {name} 0x{code_digits}")?;
    Ok(())
}

/// What stands before the write counter.
fn counter_name(as_json: bool) -> &'static str
    ensures { result.now ≡ counter_name as_json }
{
    if as_json {
        ",\"counter\":"
    } else {
        ", counter "
    }
}

/// Writes the write counter of a frame whose type carries one.
#[tactic(auto, unfolding(crate::specs::Explained::counter_told))]
fn write_counter<W: Write>(bytes: &[u8; 512], as_json: bool, out: &mut W) -> Result<(), ClientFault>
    ensures { OnOk result
        (Appends (W.contents out.old) (W.contents out.new) (counter_told as_json bytes.now)) }
{
    let frame = Frame::from_bytes(bytes);
    let counter = frame.write_counter();
    let name = counter_name(as_json);
    match frame.req_resp() {
        0x0400 | 0x0000 => Ok(()),
        _ => match write!(out, "{name}{counter}") {
            Ok(()) => Ok(()),
            Err(_) => Err(ClientFault::FileFault),
        },
    }
}

/// Writes the other numbers that each frame has.
#[tactic(auto, unfolding(crate::specs::Explained::fields_told))]
fn write_fields<W: Write>(
    address: u16,
    blocks: u16,
    as_json: bool,
    out: &mut W,
) -> Result<(), ClientFault>
    ensures { OnOk result
        (Appends (W.contents out.old) (W.contents out.new) (fields_told as_json address blocks)) }
{
    if as_json {
        write!(out, ",\"address\":{address},\"blocks\":{blocks}")?;
        return Ok(());
    }
    write!(out, ", address {address}, blocks {blocks}")?;
    Ok(())
}

/// Writes what is judged of a frame, its block in digits behind what stands before them, and
/// whether its stuff bytes aren't zeros.
#[tactic(auto, unfolding(crate::specs::Explained::checks_told))]
fn write_checks<W: Write>(
    nonce: &str,
    mac: &str,
    front: &str,
    digits: &str,
    has_stuff: bool,
    as_json: bool,
    out: &mut W,
) -> Result<(), ClientFault>
    ensures { OnOk result (Appends (W.contents out.old) (W.contents out.new)
        (checks_told as_json nonce.now mac.now front.now digits.now has_stuff)) }
{
    if as_json {
        write!(
            out,
            ",\"nonce\":\"{nonce}\",\"mac\":\"{mac}\",\"data\":\"{digits}\",\
             \"has_stuff\":{has_stuff}"
        )?;
        return Ok(());
    }
    let stuff = stuff_text(has_stuff);
    write!(out, ", nonce {nonce}, MAC {mac}{front}{digits}{stuff}")?;
    Ok(())
}

/// Judges frame i, counted from 0, and writes that and its block.
fn judge<W: Write>(
    alloc: Global,
    i: usize,
    frames: &[[u8; 512]],
    key: Option<[u8; 32]>,
    nonce: Option<[u8; 16]>,
    as_json: bool,
    out: &mut W,
) -> Result<(), ClientFault>
    requires { i < length frames.now }
    ensures { OnOk result (Appends (W.contents out.old) (W.contents out.new)
        (checks_of as_json i frames.now key nonce)) }
{
    let bytes = &frames[i];
    let nonce = nonce_text(alloc, nonce, bytes)?;
    let digits = data_digits(alloc, bytes)?;
    let mac = mac_text(i + 1 == frames.len(), key, frames, bytes);
    let (front, stuff) = (data_name(bytes), has_stuff(bytes));
    write_checks(
        nonce.as_str(),
        mac,
        front,
        digits.as_str(),
        stuff,
        as_json,
        out,
    )
}

/// Writes what frame i says, counted from 0.
fn write_frame<W: Write>(
    alloc: Global,
    guest: u64,
    i: usize,
    frames: &[[u8; 512]],
    key: Option<[u8; 32]>,
    nonce: Option<[u8; 16]>,
    as_json: bool,
    out: &mut W,
) -> Result<(), ClientFault>
    requires { i < length frames.now }
    ensures { OnOk result (Appends (W.contents out.old) (W.contents out.new)
        (frame_told as_json guest i frames.now key nonce)) }
{
    let frame = Frame::from_bytes(&frames[i]);
    write_place(guest, i + 1, frames.len(), as_json, out)?;
    write_kinds(alloc, &frames[i], as_json, out)?;
    write_counter(&frames[i], as_json, out)?;
    write_fields(frame.address(), frame.block_count(), as_json, out)?;
    judge(alloc, i, frames, key, nonce, as_json, out)?;
    write_end(&frame.block_data(), as_json, out)
}

/// Writes what all frames say.
fn write_frames<W: Write>(
    alloc: Global,
    guest: u64,
    frames: &[[u8; 512]],
    key: Option<[u8; 32]>,
    nonce: Option<[u8; 16]>,
    as_json: bool,
    out: &mut W,
) -> Result<(), ClientFault>
    ensures { OnOk result (Appends (W.contents out.old) (W.contents out.new)
        (frames_told as_json guest (length frames.now) frames.now key nonce)) }
{
    for i in 0..frames.len() {
        write_frame(alloc, guest, i, frames, key, nonce, as_json, out)?;
    }
    Ok(())
}

/// Writes of a reply that is no whole frames what it is.
#[tactic(auto, unfolding(crate::specs::Explained::no_frames_told))]
fn write_no_frames<W: Write>(
    guest: u64,
    count: usize,
    as_json: bool,
    out: &mut W,
) -> Result<(), ClientFault>
    ensures { OnOk result (Appends (W.contents out.old) (W.contents out.new)
        (no_frames_told as_json guest count)) }
{
    if as_json {
        writeln!(out, "{{\"guest\":{guest},\"frames\":0,\"bytes\":{count}}}")?;
        return Ok(());
    }
    if count == 0 {
        writeln!(
            out,
            "guest {guest}, no frames: its request asked for none (--no-result), or needs WRITABLE \
             512 or more"
        )?;
        return Ok(());
    }
    writeln!(out, "guest {guest}, {count} bytes are no frames")?;
    Ok(())
}

/// Writes what a reply says: a line for each frame, with every field by its name, the result in
/// words, and whether the MAC under the key and the nonce are right, where a key or a nonce is
/// given. For machines it is a JSON object for each frame, or one for a reply that is no whole
/// frames, each in a line of its own.
#[tactic(auto, unfolding(crate::specs::Explained::reply_told))]
pub fn explain<W: Write>(
    alloc: Global,
    used: &Used,
    key: Option<[u8; 32]>,
    nonce: Option<[u8; 16]>,
    as_json: bool,
    out: &mut W,
) -> Result<(), ClientFault>
    ensures { OnOk result (Appends (W.contents out.old) (W.contents out.new)
        (reply_told as_json used.now.guest used.now.reply.items key nonce)) }
{
    let reply = used.reply.as_slice();
    if !is_whole(reply) {
        return write_no_frames(used.guest, reply.len(), as_json, out);
    }
    let (frames, _) = reply.as_chunks::<512>();
    write_frames(alloc, used.guest, frames, key, nonce, as_json, out)
}
