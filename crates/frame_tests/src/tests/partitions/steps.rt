//! Requests to a partition one after another, with their results and all bytes of their replies.

use crate::tests::checks::same;
use rpmb_core::{OK, Outcome, Partition, is_change};
use rpmb_frame::{Limits, Request};
use std::test::Fail;

/// The fields of a frame in their order: the byte that stuff repeats, key_mac, the byte that the
/// data repeat, nonce, write_counter; and address, block_count, result and req_resp, as one number.
pub type Row = (u8, [u64; 4], u8, [u64; 2], u32, u64);

/// How many frames a request has, the writable length in bytes, the result, and how many frames the
/// reply has.
pub type Step = (usize, u64, u16, usize);

/// Steps, with the frames of all their requests and of all their replies.
pub struct Scenario {
    pub steps: &'static [Step],
    pub requests: &'static [Row],
    pub replies: &'static [Row],
}

/// Puts words into a frame from an offset on, in big endian.
fn put_words(bytes: &mut [u8; 512], at: usize, words: &[u64]) {
    let mut place = at;
    for word in words {
        if place <= 504 {
            bytes[place..place + 8].copy_from_slice(&word.to_be_bytes());
            place += 8;
        }
    }
}

/// The frame that a row says.
fn frame(row: &Row) -> [u8; 512] {
    let (stuff, key_mac, data, nonce, write_counter, numbers) = *row;
    let mut bytes = [stuff; 512];
    bytes[228..484].fill(data);
    bytes[500..504].copy_from_slice(&write_counter.to_be_bytes());
    put_words(&mut bytes, 196, &key_mac);
    put_words(&mut bytes, 484, &nonce);
    put_words(&mut bytes, 504, &[numbers]);
    bytes
}

/// The frames that rows say, and behind them frames of one byte.
pub fn frames_of(rows: &[Row], behind: u8) -> [[u8; 512]; 18] {
    let mut frames = [[behind; 512]; 18];
    for (i, row) in rows.iter().take(18).enumerate() {
        frames[i] = frame(row);
    }
    frames
}

/// The bytes of the first frames.
pub fn first_bytes(frames: &[[u8; 512]; 18], count: usize) -> &[u8] {
    frames[..count.min(18)].as_flattened()
}

/// Whether these bytes are a reply, and behind it the bytes 0xee that stood there.
pub fn is_reply(out: &[u8; 8192], rows: &[Row]) -> bool {
    same(out, first_bytes(&frames_of(rows, 0xee), 16))
}

/// The result of a request and the length of its reply, as a guest gets them.
#[tactic(auto, unfolding(rpmb_core::specs::Accept::is_accepted))]
fn answer(
    partition: &mut Partition,
    request: &Request<'_>,
    last: &mut Option<Outcome>,
    out: &mut [u8; 8192],
) -> (u16, usize) {
    let code = partition.verdict(request);
    if is_change(request) && code == OK {
        partition.accept(request);
    }
    let outcome = Outcome::of(request, code, partition.counter());
    if outcome.is_some() {
        *last = outcome;
    }
    (code, partition.reply(request, code, *last, out))
}

/// Whether a request has this result and this reply.
pub fn goes_as_told(
    partition: &mut Partition,
    request: &Request<'_>,
    last: &mut Option<Outcome>,
    told: u16,
    reply: &[Row],
) -> bool {
    let mut out = [0xee; 8192];
    let (code, len) = answer(partition, request, last, &mut out);
    code == told
        && len == 512 * reply.len().min(16)
        && Partition::reply_len(request, code) == len
        && is_reply(&out, reply)
}

/// Takes the steps, each of which gives its result and its reply.
pub fn take_steps(
    partition: &mut Partition,
    limits: Limits,
    scenario: &Scenario,
) -> Result<(), Fail> {
    let mut last = None;
    let (mut requests, mut replies) = (scenario.requests, scenario.replies);
    for (place, (asked, writable, code, given)) in scenario.steps.iter().enumerate() {
        let (Some(request), Some(reply)) = (requests.get(..*asked), replies.get(..*given)) else {
            return Err(Fail::new(format_args!("step {place} lacks frames")));
        };
        let frames = frames_of(request, 0);
        let request = Request::classify(first_bytes(&frames, *asked), *writable, limits);
        if !goes_as_told(partition, &request, &mut last, *code, reply) {
            return Err(Fail::new(format_args!("step {place} goes another way")));
        }
        requests = &requests[*asked..];
        replies = &replies[*given..];
    }
    Ok(())
}
