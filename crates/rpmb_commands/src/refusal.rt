//! Why a command of `rpmb` is refused.
ghost use Rattle.std.specs.Prelude.{◌≡◌};
ghost use Rattle.rpmb_commands.specs.Refusing.{refusal_of_fault, refusal_status};

use crate::doubts::Doubt;
use crate::source::SourceError;
use rpmb_client::{ClientFault, OptionRefusal, kind_text, result_text};
use std::alloc::AllocError;
use std::convert::From;
use std::fmt;
use thiserror::Error;

/// Why a word of a key is none of those that are wanted.
#[derive(Clone, Copy, Debug, Error)]
pub enum KeyRefusal {
    #[error("BadKey: expected for --key one key for each guest, got a second one for guest {0}")]
    SecondKey(u64),
    #[error("BadKey: expected for --key one key for all other guests, got a second one")]
    SecondOfOthers,
    /// What stands before the `=` of a key isn't shown, since it may be a front of one.
    #[error("BadKey: expected for --key KEY, or G=KEY with a guest G from 0 to 63, got another \
        word before its =")]
    NoGuest,
    /// A key is named for a guest that gave no answer, and guests that gave one have no key.
    #[error("BadKey: expected for --key the keys of the guests that answer, got one that is named \
        for guest {0}, of whom no answer came")]
    UnusedKey(u64),
}

/// Why there is no answer, or not the one that is wanted.
#[derive(Clone, Copy, Error)]
pub enum AnswerRefusal {
    #[error("NoAnswer: expected one line `used G LEN HEX`, or just one with the nonce, \
        got {0} lines, {1} with it")]
    NoAnswer(u64, u64),
    #[error("NoFrames: expected a reply of whole frames of 512 bytes, got {0} bytes")]
    NoFrames(usize),
    #[error("WrongMac: expected the MAC of all frames under the key, got another")]
    WrongMac,
    /// The answer is that of a partition without a key, and so has no MAC.
    #[error("NoKey: expected the MAC of all frames under the key, got none (zeros): the guest \
        has no key yet")]
    NoKey,
    #[error("WrongNonce: expected the nonce that was asked with, got another")]
    WrongNonce,
    /// The response has this type.
    #[error("OtherResponse: expected the response DATA_READ, got the {got}", got = kind_text(*.0))]
    OtherResponse(u16),
    /// The read has this result, and not OK.
    #[error("Refused: expected the result OK, got {got}", got = result_text(*.0))]
    Refused(u16),
    /// A reading of the write counter whose MAC, nonce and result are right has none.
    #[error("NoCounter: expected the write counter in the reply, got another one")]
    NoCounter,
    #[error("TooShort: expected blocks of at least {0} bytes, got {1}")]
    TooShort(u64, usize),
    /// No reply was explained, since none came among so many lines.
    #[error("NoAnswer: expected the lines `used G LEN HEX` that `rpmbd run` prints on standard \
        input, got none in {0} lines")]
    NoReply(u64),
    /// A MAC or a nonce of an answer is wrong, or a line is none of an answer; and what is wrong
    /// with the first, which is told behind.
    #[error("WrongAnswer: expected a right MAC and nonce in each of {0} replies, \
        got {1} torn or with a wrong one, first in line {line}", line = .2.line)]
    WrongAnswer(u64, u64, Doubt),
    /// The answers are right, and say of some requests that they were refused; with a bit for each
    /// of the results that they have, which are told behind.
    #[error("Refused: expected the result OK in each of {0} replies, got {1} with another")]
    RefusedAnswer(u64, u64, u64),
}

/// Why a file isn't taken.
#[derive(Clone, Copy)]
pub enum FileRefusal {
    Unread(SourceError),
    /// It has more bytes than this.
    TooLong(usize),
    NoText,
    /// A word of a key isn't one, and a file has its name.
    BareName,
    /// Of this and the two that follow the flaw is told behind, in words.
    BadBoard,
    BadScript,
    /// The image that the board file names is there, and is none of that board.
    BadImage,
}

/// A file's refusal and its name, as they are told.
#[derive(Clone, Copy)]
struct FileTold<'a>(FileRefusal, &'a str);

impl<'a> fmt::Display for FileTold<'a> {
    fn fmt<W: fmt::Write>(&self, f: &mut fmt::Formatter<W>) -> fmt::Result {
        let name = self.1;
        let (front, colon, end) = match self.0 {
            FileRefusal::Unread(why) => {
                (
                    "FileFault: expected a file that can be read, got",
                    ": ",
                    why.text(),
                )
            }
            FileRefusal::TooLong(most) => {
                let wanted = "bytes in the file";
                return write!(
                    f,
                    "FileFault: expected at most {most} {wanted} {name:?}, got more"
                );
            }
            FileRefusal::NoText => ("FileFault: expected text in UTF-8 in the file", "", ""),
            FileRefusal::BareName => {
                let got = "got the name of a file; a file is named behind an @:";
                return write!(
                    f,
                    "BadKey: expected for --key 32 bytes in hex digits, {got} @{name}"
                );
            }
            FileRefusal::BadBoard => ("BadBoard: the board file", ": ", ""),
            FileRefusal::BadScript => ("BadScript: the script", ": ", ""),
            FileRefusal::BadImage => ("BadImage: the image of the board file", ": ", ""),
        };
        write!(f, "{front} {name:?}{colon}{end}")
    }
}

/// What standard input gives in place of lines.
#[derive(Clone, Copy)]
pub enum InputFault {
    Closed,
    NoText,
    Folder,
    Unread,
    /// No input has so many lines.
    TooMany,
}

impl InputFault {
    fn text(self) -> &'static str {
        match self {
            Self::Closed => "none: it is closed",
            Self::NoText => "bytes that are none",
            Self::Folder => "a folder",
            Self::Unread => "a read of it that failed",
            Self::TooMany => "more than there are numbers for",
        }
    }
}

/// Why nothing more is printed. Each is told by its name, what was expected, and what stands there;
/// of a key only how long it is.
// for the checker: it spells out, at each step of a function, the types of all values that may hold
// a reference; so only words are references here, and as few as may be
#[derive(Clone, Copy, Error)]
pub enum Refusal<'a> {
    /// An option that the command needs gives no value.
    #[error(transparent)]
    Option(OptionRefusal<'a>),
    #[error(transparent)]
    Key(KeyRefusal),
    /// A key is named for a guest, where one operation on one guest is asked for.
    #[error("BadKey: expected for --key the key of guest {1} alone, as KEY, got G=KEY that is \
        named for guest {0}")]
    NamedKey(u64, &'a str),
    #[error(transparent)]
    Answer(AnswerRefusal),
    /// What is wrong with a file, and its name.
    #[error("{told}", told = FileTold(*.0, .1))]
    File(FileRefusal, &'a str),
    #[error("NoData: expected either --data or --file, got neither")]
    NoData,
    #[error("NoData: expected either --data or --file, got both")]
    TwoData,
    #[error("BadData: expected whole blocks of 256 bytes, at least one, got {0} bytes; \
         --pad fills a last block with zeros")]
    BadData(usize),
    #[error("PastEnd: expected no block after 65535, the last that any capacity has, got {0}")]
    PastEnd(u64),
    #[error("CounterEnd: expected write counters of at most 4294967295 for all writes, got {0}")]
    CounterEnd(u64),
    #[error("FileFault: expected lines in UTF-8 on standard input, got {got}", got = .0.text())]
    NoInput(InputFault),
    /// The line of this number on standard input has more bytes than any that is wanted there.
    #[error("FileFault: expected the lines that `rpmbd run` or `rpmbd serve` prints on standard \
        input, got more than 32768 bytes in line {0}")]
    LongLine(u64),
    #[error("FileFault: expected room on standard output")]
    NoRoom,
    #[error("NoMemory")]
    NoMemory,
}

/// A refusal for a flaw, whose words are put into `flaw`.
pub(crate) fn flawed<'a>(
    words: Result<String, AllocError>,
    refusal: Refusal<'a>,
    flaw: &mut String,
) -> Refusal<'a> {
    match words {
        Ok(words) => {
            *flaw = words;
            refusal
        }
        Err(_) => Refusal::NoMemory,
    }
}

impl<'a> Refusal<'a> {
    /// The status that a command ends with where it is refused.
    pub(crate) fn status(&self) -> u8
        ensures { result ≡ refusal_status self.now }
    {
        match self {
            Refusal::Answer(AnswerRefusal::RefusedAnswer(_, _, _)) => 3,
            Refusal::Answer(AnswerRefusal::Refused(_)) => 3,
            _ => 1,
        }
    }

    /// A bit for each of the results that requests were refused with.
    pub(crate) fn results(&self) -> u64 {
        match self {
            Refusal::Answer(AnswerRefusal::RefusedAnswer(_, _, results)) => *results,
            _ => 0,
        }
    }

    /// The refusal of what a client couldn't do.
    pub(crate) fn of(fault: ClientFault) -> Refusal<'a>
        ensures { result ≡ refusal_of_fault fault }
    {
        match fault {
            ClientFault::NoMemory => Refusal::NoMemory,
            ClientFault::FileFault => Refusal::NoRoom,
        }
    }
}

impl<'a> From<OptionRefusal<'a>> for Refusal<'a> {
    ghost use Rattle.rpmb_commands.specs.Refusing.{refusal_of};

    ghost from_gives = { λ told refused. refused ≡ refusal_of told };

    fn from(refusal: OptionRefusal<'a>) -> Refusal<'a> {
        match refusal {
            OptionRefusal::NoMemory => Refusal::NoMemory,
            _ => Refusal::Option(refusal),
        }
    }
}

/// As it is told. For the checker: a derived one has an exit for each variant.
impl<'a> fmt::Debug for Refusal<'a> {
    fn fmt<W: fmt::Write>(&self, f: &mut fmt::Formatter<W>) -> fmt::Result {
        write!(f, "{self}")
    }
}

/// As it is told.
impl fmt::Debug for AnswerRefusal {
    fn fmt<W: fmt::Write>(&self, f: &mut fmt::Formatter<W>) -> fmt::Result {
        write!(f, "{self}")
    }
}
