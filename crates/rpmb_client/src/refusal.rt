//! Why the value of an option is refused.
use crate::values::{KeyFault, ValueFault};
use hex::FromHexError;
use std::fmt;
use thiserror::Error;

/// Why digits say no bytes, as it is told: of a letter that isn't ASCII no byte is shown as one.
#[derive(Clone, Copy)]
struct Told<'a>(&'a FromHexError);

impl<'a> fmt::Display for Told<'a> {
    fn fmt<W: fmt::Write>(&self, f: &mut fmt::Formatter<W>) -> fmt::Result {
        match *self.0 {
            FromHexError::InvalidHexCharacter { c, index } if !c.is_ascii() => {
                write!(f, "A letter that isn't ASCII at position {index}")
            }
            FromHexError::OddLength => write!(f, "an odd number of letters"),
            why => write!(f, "{why}"),
        }
    }
}

/// A file without a key, as it is told.
#[derive(Clone, Copy)]
struct FileTold<'a>(&'a str, KeyFault);

impl<'a> fmt::Display for FileTold<'a> {
    fn fmt<W: fmt::Write>(&self, f: &mut fmt::Formatter<W>) -> fmt::Result {
        let name = self.0;
        let (wanted, got) = match self.1 {
            KeyFault::RawKey => ("", "32 bytes; if these are the key itself, say @raw:FILE"),
            KeyFault::ByteOrderMark => ("", "a byte order mark before them"),
            KeyFault::SecondLine => ("one line of ", "a second line feed"),
            KeyFault::BadDigits(ValueFault::BadHex(why)) => {
                let wanted = "two hex digits for each byte in the file";
                return write!(f, "BadHex: expected {wanted} {name:?}, got: {}", Told(&why));
            }
            KeyFault::BadDigits(ValueFault::NoMemory) => return write!(f, "NoMemory"),
            KeyFault::BadDigits(ValueFault::BadLength(count)) => {
                let wanted = "32 bytes in hex digits in the file";
                return write!(f, "BadKey: expected {wanted} {name:?}, got {count} bytes");
            }
        };
        write!(
            f,
            "BadKey: expected {wanted}64 hex digits in the file {name:?}, got {got}"
        )
    }
}

/// What an option's number is of.
#[derive(Clone, Copy)]
pub enum Number {
    Guest,
    Counter,
    Address,
    Count,
    MaxBlocks,
    Length,
}

impl Number {
    /// It is told as its range.
    fn text(self) -> &'static str {
        match self {
            Number::Guest => "BadGuest: expected for --guest a number from 0 to 63",
            Number::Counter => "BadCounter: expected for --counter a number from 0 to 4294967295",
            Number::Address =>
                "BadAddress: expected for --address a block from 0 to 65535, the last that any \
                 capacity has",
            Number::Count =>
                "BadCount: expected for --count 1 to 16 blocks of one read, and more in parts",
            Number::MaxBlocks =>
                "BadMaxBlocks: expected for --max-blocks 1 to 16 blocks of one write",
            Number::Length =>
                "BadLength: expected for --length 0 to 4096 bytes, which 16 blocks have",
        }
    }
}

/// Why an option gives no value. Each is told by its name, what was expected, and what stands
/// there; of a key only how long it is.
#[derive(Clone, Copy, Error)]
pub enum OptionRefusal<'a> {
    /// The option isn't there.
    #[error("Incomplete: expected another option")]
    Incomplete,
    #[error("{what}, got {1:?}", what = .0.text())]
    Number(Number, &'a str),
    #[error("BadKey: expected for --key 32 bytes in hex digits, @FILE of 64 hex digits, \
         or @raw:FILE of 32 bytes, got {0} bytes in hex digits")]
    BadKey(usize),
    /// What is wrong with the content of the file that is named.
    #[error("{told}", told = FileTold(.0, *.1))]
    KeyFile(&'a str, KeyFault),
    #[error("BadKey: expected 32 bytes in the file {0:?}, got {1} bytes")]
    BadRawKey(&'a str, usize),
    #[error("BadNonce: expected for --nonce 16 bytes in 32 hex digits, got {0} bytes")]
    BadNonce(usize),
    #[error("BadHex: expected two hex digits for each byte, got: {why}", why = Told(.0))]
    BadHex(FromHexError),
    /// Memory was refused.
    #[error("NoMemory")]
    NoMemory,
}

/// As it is told. For the checker: a derived one has an exit for each variant.
impl<'a> fmt::Debug for OptionRefusal<'a> {
    fn fmt<W: fmt::Write>(&self, f: &mut fmt::Formatter<W>) -> fmt::Result {
        write!(f, "{self}")
    }
}
