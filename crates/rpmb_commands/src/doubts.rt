//! What is wrong with an answer, in the words behind its refusal. No contract speaks of them.

use crate::other_line::{begins_so, is_of_script};
use rpmb_client::{Used, is_wrong};
use rpmb_frame::Frame;

/// What is wrong with the first answer that is.
#[derive(Clone, Copy)]
pub struct Doubt {
    /// Its line on standard input, counted from 1.
    pub line: u64,
    pub why: Wrong,
}

/// What may be wrong with an answer, or with a line that is none.
#[derive(Clone, Copy)]
pub enum Wrong {
    /// A MAC of zeros.
    NoMac,
    /// A MAC that isn't the key's.
    OtherMac,
    /// A nonce that wasn't asked with.
    OtherNonce,
    OfScript,
    Return,
    /// Something stands before its first word.
    Behind,
    Spaces,
    Torn,
}

impl Wrong {
    pub(crate) fn text(self) -> &'static str {
        match self {
            Self::NoMac =>
                "has no MAC (zeros): its guest has no key yet, or the host's disk failed; \
                 read-counter tells which",
            Self::OtherMac => "has a wrong MAC: its guest has another key, or somebody changed it",
            Self::OtherNonce =>
                "has another nonce: it answers another question (give explain the line of one \
                 question alone), or is an old answer",
            Self::OfScript =>
                "is a line of a script: what `rpmbd run` prints of that is wanted here",
            Self::Return => "ends with a carriage return; tr -d '\\r' takes those away",
            Self::Behind =>
                "has something before its `used` (a byte order mark, a space, a name); take that \
                 away from each line",
            Self::Spaces => "has a tab or two spaces; give explain the lines as rpmbd printed them",
            Self::Torn =>
                "isn't whole: the run was stopped (ask for the counter before you go on), or the \
                 line was cut, wrapped or changed",
        }
    }
}

/// What is wrong with a reply that is told to be wrong, where this nonce was asked with.
pub(crate) fn doubt_of(used: &Used, nonce: Option<[u8; 16]>) -> Wrong {
    if is_wrong(used, None, nonce) {
        return Wrong::OtherNonce;
    }
    let (frames, _) = used.reply.as_slice().as_chunks::<512>();
    match frames.last() {
        Some(last) if Frame::from_bytes(last).key_mac() == [0; 32] => Wrong::NoMac,
        _ => Wrong::OtherMac,
    }
}

/// What is wrong with a line that is no answer.
pub(crate) fn doubt_of_line(line: &str) -> Wrong {
    if is_of_script(line) {
        Wrong::OfScript
    } else if line.ends_with("\r") {
        Wrong::Return
    } else if !begins_so(line) {
        Wrong::Behind
    } else if line.contains('\t') || line.contains("  ") {
        Wrong::Spaces
    } else {
        Wrong::Torn
    }
}
