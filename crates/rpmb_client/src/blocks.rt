//! Bytes that aren't whole blocks.
ghost use Rattle.std.specs.Prelude.{◌≡◌, ◌%◌, IfOk, length, option_map};
ghost use Rattle.rpmb_client.specs.Blocks.{cut, padded};

use std::alloc::AllocError;

/// The bytes with zeros behind them up to the end of their last block of 256 bytes.
pub fn pad(bytes: Vec<u8>) -> Result<Vec<u8>, AllocError>
    ensures said { IfOk result (λ all. all.items ≡ padded bytes.items) }
    ensures whole { IfOk result (λ all. length all.items % 256 ≡ 0) }
{
    let mut all = bytes;
    for _ in 0..(256 - all.len() % 256) % 256 {
        all.push(0)?;
    }
    Ok(all)
}

/// The first bytes, where there are so many.
pub fn cut(bytes: &[u8], count: usize) -> Option<&[u8]>
    ensures { option_map (λ some. some.now) result ≡ cut count bytes.now }
{
    if count > bytes.len() {
        return None;
    }
    Some(&bytes[..count])
}
