//! The words that a program is given.
use std::rt::Env;
use std::{env, io};

/// Why there are no words.
#[derive(Clone, Copy, Debug)]
pub enum GivenError {
    /// Memory was refused.
    NoMemory,
    /// One of them isn't UTF-8.
    NotText,
}

fn collect<R: AllocGlobal + Env>(rt: &R) -> io::Result<Vec<String>> {
    let words = env::args(rt)?.collect(rt.alloc())?;
    Ok(words)
}

/// The words of the command line, of which the first is the program's own name.
///
/// # Errors
///
/// `NoMemory` where memory is refused, else `NotText`.
pub fn given_words<R: AllocGlobal + Env>(rt: &R) -> Result<Vec<String>, GivenError> {
    match collect(rt) {
        Ok(words) => Ok(words),
        Err(error) => match error.kind() {
            io::ErrorKind::OutOfMemory => Err(GivenError::NoMemory),
            _ => Err(GivenError::NotText),
        },
    }
}
