//! Verdicts on writes whose MAC was checked before. The frames and their MACs, under 32 bytes 0x11,
//! are those of `blocks`; they were written out by Python.

use crate::tests::checks::check_row;
use crate::tests::limits::limits_of;
use crate::tests::partitions::blocks::BLOCKS;
use crate::tests::partitions::steps::{first_bytes, frames_of};
use hmac256::MacKey;
use rpmb_core::{MacCheck, Partition};
use rpmb_frame::{Limits, Request};
use std::alloc::Global;
use std::test::Fail;

/// The first of a write's frames in `blocks`, how many there are with the one that asks for the
/// result, the partition's write counter, the byte that its key repeats, whether a byte of the data
/// is another, and the result.
type Row = (usize, usize, u32, u8, bool, u16);

/// A right MAC, one that is right under another key alone, and one that is wrong under both keys;
/// of a block, and of 16.
static ROWS: [Row; 8] = [
    (2, 2, 0, 0x11, false, 0x0000),
    (2, 2, 0, 0x22, false, 0x0002),
    (2, 2, 0, 0x11, true, 0x0002),
    (2, 2, 0, 0x22, true, 0x0002),
    (6, 17, 1, 0x11, false, 0x0000),
    (6, 17, 1, 0x22, false, 0x0002),
    (6, 17, 1, 0x11, true, 0x0002),
    (6, 17, 1, 0x22, true, 0x0002),
];

/// The result without a check, by one of no frames, and by those under the two keys.
fn verdicts(partition: &Partition, bytes: &[u8], limits: Limits) -> [u16; 4] {
    let request = Request::classify(bytes, 512, limits);
    let ones = MacCheck::of_bytes(bytes, &MacKey::new(&[0x11; 32]));
    let twos = MacCheck::of_bytes(bytes, &MacKey::new(&[0x22; 32]));
    [
        partition.verdict(&request),
        partition.verdict_by(&request, &MacCheck::none()),
        partition.verdict_by(&request, &ones),
        partition.verdict_by(&request, &twos),
    ]
}

/// Whether a write has the result that is told, whatever was checked before.
fn is_as_told(alloc: Global, row: &Row) -> Result<bool, Fail> {
    let (from, count, counter, key, is_changed, told) = *row;
    let blocks = vec![in alloc; 0; 131_072]?;
    let partition = Partition::of(1, Some([key; 32]), counter, blocks);
    let rows = BLOCKS.requests.get(from..).unwrap_or(&[]);
    let mut frames = frames_of(rows, 0);
    frames[0][228] ^= u8::from(is_changed);
    let limits = limits_of(alloc, (16, 16))?;
    Ok(verdicts(&partition, first_bytes(&frames, count), limits) == [told; 4])
}

#[test]
fn writes_that_were_checked_before(rt: HostRuntime) -> Result<(), Fail> {
    for (place, row) in ROWS.iter().enumerate() {
        check_row(is_as_told(rt.alloc(), row)?, place)?;
    }
    Ok(())
}
