//! MACs of frames, by a key whose pads are hashed once.
ghost use Rattle.std.specs.Prelude.{◌≤◌};

use crate::clock::{Extent, Row, Stop, Times, Took, now, print_row, since};
use crate::requests::KEY;
use hmac256::MacKey;

/// So many MACs of this many frames; the answer is their first bytes, mixed.
fn keyed_macs(count: u32, frames: usize) -> u8
    requires { frames ≤ 16 }
{
    let key = MacKey::new(&KEY);
    let mut sealed = [[0x5au8; 512]; 16];
    let mut all = 0u8;
    for _ in 0..count {
        sealed[0][228] = all;
        all ^= key.mac(&sealed[..frames])[0];
    }
    all
}

/// Times so many MACs of this many frames, at most 16; and what they came to.
pub fn time_keyed(rt: &HostRuntime, count: u32, frames: usize) -> (Took, u8) {
    let start = now(rt);
    let sum = keyed_macs(count, frames.min(16));
    (since(rt, start), sum)
}

/// Times so many MACs of one frame, beside as many frames of MACs of 16.
pub fn time_macs(rt: &HostRuntime, extent: Extent) -> Result<(), Stop> {
    let (own, sum) = time_keyed(rt, extent.count, 1);
    let (base, _) = time_keyed(rt, extent.count.div_ceil(16), 16);
    print_row(
        rt,
        extent,
        &Row {
            name: "MAC of one frame",
            base: "a frame of a MAC of 16",
            count: extent.count,
            times: Times { own, base },
            sum: u32::from(sum),
        },
    )
}
