//! What a chain's bytes ask for: the rows of the table, and the law that the first row decides.
use crate::tests::checks::check_row;
use crate::tests::limits::limits_of;
use rpmb_frame::laws::first_row_decides;
use rpmb_frame::{Command, Request};
use std::alloc::Global;
use std::test::Fail;

/// What was told: the command, how many frames it has, and whether it is combined.
type Told = (&'static str, usize, bool);

const MALFORMED: Told = ("Malformed", 0, false);

/// The types of the frames, the readable length, the writable length, `max_wr_cnt`, and what they
/// ask for.
type Row = (&'static [u16], usize, u64, u8, Told);

/// Each row is decided by one row of the table of commands, and not by an earlier one.
static ROWS: [Row; 40] = [
    // no positive multiple of 512 bytes
    (&[2], 0, 512, 16, MALFORMED),
    (&[2], 511, 512, 16, MALFORMED),
    (&[2, 2], 513, 512, 16, MALFORMED),
    // more frames than the limit and one
    (&[3, 3], 1024, 512, 1, ("DataWrite", 2, false)),
    (&[3, 3, 3], 1536, 512, 1, MALFORMED),
    (&[3, 3, 5], 1536, 512, 1, MALFORMED),
    (&[3, 3, 5], 1536, 512, 2, ("DataWrite", 2, true)),
    (&[3, 3, 3, 5], 2048, 512, 2, MALFORMED),
    (&[3; 17], 8704, 512, 16, ("DataWrite", 17, false)),
    (&[3; 18], 9216, 512, 16, MALFORMED),
    // PROGRAM_KEY alone, whatever there is room for
    (&[1], 512, 0, 16, ("ProgramKey", 1, false)),
    (&[1], 512, 512, 16, ("ProgramKey", 1, false)),
    // PROGRAM_KEY with its result
    (&[1, 5], 1024, 512, 1, ("ProgramKey", 1, true)),
    (&[1, 5], 1024, 513, 16, ("ProgramKey", 1, true)),
    (&[1, 5], 1024, 511, 16, MALFORMED),
    (&[1, 1], 1024, 512, 16, MALFORMED),
    (&[1, 0x0105], 1024, 512, 16, MALFORMED),
    (&[1, 5, 5], 1536, 512, 16, MALFORMED),
    // DATA_WRITE with its result
    (&[3, 5], 1024, 512, 16, ("DataWrite", 1, true)),
    (&[3, 3, 5], 1536, 8192, 16, ("DataWrite", 2, true)),
    (&[3, 5, 5], 1536, 512, 16, ("DataWrite", 2, true)),
    (&[3, 1, 5], 1536, 512, 16, ("DataWrite", 2, true)),
    (&[3, 5], 1024, 511, 16, MALFORMED),
    (&[3, 3, 5], 1536, 0, 16, MALFORMED),
    // DATA_WRITE alone, whatever there is room for
    (&[3], 512, 0, 16, ("DataWrite", 1, false)),
    (&[3], 512, 512, 16, ("DataWrite", 1, false)),
    (&[3, 3], 1024, 512, 16, ("DataWrite", 2, false)),
    (&[3, 5, 3], 1536, 0, 16, ("DataWrite", 3, false)),
    (&[3, 0x0500], 1024, 512, 16, ("DataWrite", 2, false)),
    // one frame of the other types
    (&[2], 512, 0, 16, ("GetWriteCounter", 1, false)),
    (&[4], 512, 8192, 16, ("DataRead", 1, false)),
    (&[5], 512, 512, 16, ("ResultRead", 1, false)),
    // anything else
    (&[2, 5], 1024, 512, 16, MALFORMED),
    (&[2, 2], 1024, 512, 16, MALFORMED),
    (&[4, 5], 1024, 512, 16, MALFORMED),
    (&[5, 5], 1024, 512, 16, MALFORMED),
    (&[0], 512, 512, 16, MALFORMED),
    (&[6], 512, 512, 16, MALFORMED),
    (&[0x0300], 512, 512, 16, MALFORMED),
    (&[0x0103, 5], 1024, 512, 16, MALFORMED),
];

/// Frames of these types, each with its own place as its first byte.
fn frames_of_types(types: &[u16]) -> [[u8; 512]; 18] {
    let mut frames = [[0; 512]; 18];
    for (place, code) in types.iter().take(18).enumerate() {
        let frame = &mut frames[place];
        frame[0] = (place % 256) as u8;
        frame[510..512].copy_from_slice(&code.to_be_bytes());
    }
    frames
}

/// What was told, where its frames are the first ones in their order.
fn told(command: &Command) -> Option<Told> {
    match command {
        Command::ProgramKey { frame, combined } if frame[0] == 0 => Some((
            "ProgramKey",
            1,
            *combined,
        )),
        Command::GetWriteCounter { frame } if frame[0] == 0 => Some(("GetWriteCounter", 1, false)),
        Command::DataWrite { frames, combined } if are_first(frames) => {
            Some(("DataWrite", frames.len(), *combined))
        }
        Command::DataRead { frame } if frame[0] == 0 => Some(("DataRead", 1, false)),
        Command::ResultRead => Some(("ResultRead", 1, false)),
        Command::Malformed => Some(MALFORMED),
        _ => None,
    }
}

fn are_first(frames: &[[u8; 512]]) -> bool {
    for (place, frame) in frames.iter().enumerate() {
        if frame[0] as usize != place {
            return false;
        }
    }
    true
}

/// Whether a request is told as the row says, and keeps its room and limits.
fn is_as_told(request: &Request<'_>, row: &Row) -> bool {
    let (_, _, writable, max_wr_cnt, expected) = *row;
    told(&request.command) == Some(expected)
        && request.writable == writable
        && request.limits.max_wr_cnt() == max_wr_cnt
        && request.limits.max_rd_cnt() == 16
}

fn is_decided(alloc: Global, row: &Row) -> Result<bool, Fail> {
    let (types, length, writable, max_wr_cnt, _) = *row;
    let frames = frames_of_types(types);
    let limits = limits_of(alloc, (max_wr_cnt, 16))?;
    match frames.as_flattened().get(..length) {
        Some(bytes) => Ok(is_as_told(&Request::classify(bytes, writable, limits), row)),
        None => Ok(false),
    }
}

#[test]
fn rows_of_the_table(rt: HostRuntime) -> Result<(), Fail> {
    for (place, row) in ROWS.iter().enumerate() {
        check_row(is_decided(rt.alloc(), row)?, place)?;
    }
    Ok(())
}

#[test]
fn law_of_tables_at_a_type() {
    first_row_decides::<u16>();
}
