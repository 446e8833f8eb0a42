//! Nonces: 16 random bytes.
use rpmb_commands::{FileRefusal, Refusal, SourceError};
use std::fs::File;
use std::io;
use std::io::Read;

/// Where the system gives random bytes.
const RANDOM: &str = "/dev/urandom";

fn random_bytes(rt: &HostRuntime) -> io::Result<[u8; 16]> {
    let mut bytes = [0; 16];
    File::open(rt, RANDOM)?.read_exact(&mut bytes)?;
    Ok(bytes)
}

/// A nonce of the system's random bytes, in 32 hex digits. It is shown to nobody but in the request
/// that is asked with it.
pub fn random_nonce<'a>(rt: &HostRuntime) -> Result<String, Refusal<'a>> {
    match random_bytes(rt) {
        Ok(bytes) => hex::encode(rt.alloc(), &bytes).or(Err(Refusal::NoMemory)),
        Err(_) => Err(Refusal::File(FileRefusal::Unread(SourceError::Failed), RANDOM)),
    }
}
