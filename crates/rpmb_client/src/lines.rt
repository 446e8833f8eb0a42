//! The lines of requests.
ghost use Rattle.std.specs.Prelude.{◌≡◌, ◌<◌, ◌≤◌, ◌+◌, ◌-◌, ◌*◌, ◌/◌, ◌^◌, ◌∷◌, IfErr, OnOk, []};
ghost use Rattle.std.specs.Prelude.{length};
ghost use Rattle.std.specs.Io.KnownBytes.{Appends};
ghost use Rattle.rpmb_client.specs.Keeping.{KeepsUnless, WritesFirstUnless};
ghost use Rattle.rpmb_client.specs.Lines.{line_of_request, request_line, write_line, write_lines};
ghost use Rattle.rpmb_client.specs.Lines.{writes_of};

use crate::chain::write_chain;
use crate::fault::ClientFault;
use crate::making::{ask_for_result, join, program_key, read_blocks, read_counter, write_blocks};
use std::alloc::Global;
use std::io::Write;

/// Writes the line of a request of these frames, with room for so many frames of the reply.
#[tactic(auto, unfolding(crate::specs::Lines::request_line))]
fn write_request<W: Write>(
    alloc: Global,
    guest: u16,
    frames: &[[u8; 512]],
    replied: u16,
    out: &mut W,
) -> Result<(), ClientFault>
    ensures written { OnOk result (Appends (W.contents out.old) (W.contents out.new)
        (request_line guest frames.now replied)) }
    ensures silent { IfErr result
        (λ fault. KeepsUnless fault (W.contents out.old) (W.contents out.new)) }
{
    match join(alloc, frames) {
        Ok(bytes) => write_chain(
            alloc,
            guest,
            bytes.as_slice(),
            512 * u32::from(replied),
            out,
        ),
        Err(_) => Err(ClientFault::NoMemory),
    }
}

/// A request that is no write.
#[derive(Clone, Copy)]
pub enum Request {
    /// The key is programmed, and the result of that asked for.
    ProgramKey([u8; 32]),
    /// The write counter is asked for, with this nonce.
    ReadCounter([u8; 16]),
    /// So many blocks from an address on are read, with this nonce.
    Read(u16, u16, [u8; 16]),
    /// The result of the last PROGRAM_KEY or DATA_WRITE is asked for.
    Outcome,
}

/// Writes the line of one request.
pub fn write_line<W: Write>(
    alloc: Global,
    guest: u16,
    request: Request,
    out: &mut W,
) -> Result<(), ClientFault>
    ensures written { OnOk result
        (Appends (W.contents out.old) (W.contents out.new) (line_of_request guest request)) }
    ensures silent { IfErr result
        (λ fault. KeepsUnless fault (W.contents out.old) (W.contents out.new)) }
{
    match request {
        Request::ProgramKey(key) => write_request(alloc, guest, &program_key(&key), 1, out),
        Request::ReadCounter(nonce) => write_request(alloc, guest, &[read_counter(&nonce)], 1, out),
        Request::Read(address, count, nonce) => {
            let frame = read_blocks(address, count, &nonce);
            write_request(alloc, guest, &[frame], count, out)
        }
        Request::Outcome => write_request(alloc, guest, &[ask_for_result()], 1, out),
    }
}

/// Who writes, and where it begins.
#[derive(Clone, Copy)]
pub struct Writer {
    /// The number of the guest.
    pub guest: u16,
    /// The key.
    pub key: [u8; 32],
    /// The write counter of the first write.
    pub counter: u32,
    /// The address of the first block.
    pub address: u16,
    /// Whether each write asks for its result.
    pub asks: bool,
}

/// Writes the line of one write.
#[tactic(auto, unfolding(crate::specs::Lines::write_line))]
fn write_one<W: Write>(
    alloc: Global,
    writer: Writer,
    blocks: &[[u8; 256]],
    out: &mut W,
) -> Result<(), ClientFault>
    requires some { 1 ≤ length blocks.now }
    requires few { length blocks.now ≤ 16 }
    ensures written { OnOk result (Appends (W.contents out.old) (W.contents out.new)
        (write_line writer.guest writer.key writer.counter writer.address blocks.now writer.asks)) }
    ensures silent { IfErr result
        (λ fault. KeepsUnless fault (W.contents out.old) (W.contents out.new)) }
{
    let frames = write_blocks(
        alloc,
        &writer.key,
        writer.counter,
        writer.address,
        blocks,
        writer.asks,
    );
    match frames {
        Ok(frames) => write_request(
            alloc,
            writer.guest,
            frames.as_slice(),
            u16::from(writer.asks),
            out,
        ),
        Err(_) => Err(ClientFault::NoMemory),
    }
}

/// Writes the lines that write blocks from an address on, each line at most `most` of them, under
/// write counters that ascend by one a line.
pub fn write_all<W: Write>(
    alloc: Global,
    writer: Writer,
    most: u16,
    blocks: &[[u8; 256]],
    out: &mut W,
) -> Result<(), ClientFault>
    requires least { 1 ≤ most }
    requires most { most ≤ 16 }
    requires inside { writer.address + length blocks.now ≤ 65536 }
    requires counted { writer.counter + writes_of most (length blocks.now) ≤ 2 ^ 32 }
    ensures written { OnOk result (Appends (W.contents out.old) (W.contents out.new)
        (write_lines (writes_of most (length blocks.now)) writer.guest writer.key writer.counter
        writer.address most blocks.now writer.asks)) }
    ensures stopped { IfErr result (λ fault. WritesFirstUnless fault
        (writes_of most (length blocks.now)) writer.guest writer.key writer.counter
        writer.address most blocks.now writer.asks (W.contents out.old) (W.contents out.new)) }
{
    let most = usize::from(most);
    let count = (blocks.len() + most - 1) / most;
    for k in 0..count {
        let from = most * k;
        let to = (from + most).min(blocks.len());
        let part = Writer {
            counter: writer.counter + k as u32,
            address: writer.address + from as u16,
            ..writer
        };
        write_one(alloc, part, &blocks[from..to], out)?;
    }
    Ok(())
}
