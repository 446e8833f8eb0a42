//! Why a line or a script isn't read.
use std::alloc::AllocError;
use thiserror::Error;

/// Why a line isn't read.
#[derive(Debug, Drop, Error)]
pub enum LineError {
    /// It says nothing that a script may say to this board, and these words say why: which word of
    /// it isn't what it has to be, and what stands there.
    #[error("BadScript: {0}")]
    BadScript(String),
    /// Memory was refused.
    #[error("NoMemory")]
    NoMemory,
}

/// Why a script isn't read.
#[derive(Debug, Drop, Error)]
pub enum ScriptError {
    /// A line says nothing a script may say.
    #[error("BadScript line {line}: {flaw}")]
    BadScript {
        /// The number of the first such line, counted from 1.
        line: usize,
        /// Why it isn't read, in words.
        flaw: String,
    },
    /// Memory was refused.
    #[error("NoMemory")]
    NoMemory,
}

impl LineError {
    /// The refusal that these words tell; `NoMemory` where there was no memory for them.
    pub(crate) fn of(words: Result<String, AllocError>) -> LineError {
        match words {
            Ok(words) => LineError::BadScript(words),
            Err(_) => LineError::NoMemory,
        }
    }
}
