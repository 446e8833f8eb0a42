//! Reads and writes of a list of bytes.
ghost use Rattle.std.specs.Prelude.{◌≡◌, ◌+◌, ◌≤◌, true, false, length, replicate};
ghost use Rattle.disk.specs.Content.{bytes_at, content_of, overwritten};

/// Copies the bytes from `at` on into all of `out`.
#[tactic(auto, using(crate::proofs::Overwriting::range_bytes))]
pub fn copy_out(content: &[u8], at: u64, out: &mut [u8])
    requires { at + length out.old ≤ length content.now }
    ensures { out.new ≡ bytes_at (content_of content.now) at (length out.old) }
{
    let from = at as usize;
    out.copy_from_slice(&content[from..from + out.len()]);
}

/// Puts `bytes` in place of those from `at` on.
#[tactic(auto, unfolding(crate::specs::Content::overwritten))]
pub fn put(content: &mut Vec<u8>, at: u64, bytes: &[u8])
    requires { at + length bytes.now ≤ length content.old.items }
    ensures { content.new.items ≡ overwritten at bytes.now content.old.items }
{
    let from = at as usize;
    content[from..from + bytes.len()].copy_from_slice(bytes);
}

/// Takes over all bytes of another list.
pub fn copy_all(content: &mut Vec<u8>, from: &[u8])
    requires { length from.now ≡ length content.old.items }
    ensures { content.new.items ≡ from.now }
{
    content.copy_from_slice(from);
}

/// Sets the flags of a range.
#[tactic(auto, unfolding(crate::specs::Content::overwritten))]
pub fn mark(flags: &mut Vec<bool>, at: u64, count: usize)
    requires { at + count ≤ length flags.old.items }
    ensures { flags.new.items ≡ overwritten at (replicate count true) flags.old.items }
{
    let from = at as usize;
    flags[from..from + count].fill(true);
}

/// Makes all of a content synced: a stop then leaves it, and no flag is set.
pub fn keep(content: &[u8], synced: &mut Vec<u8>, unsynced: &mut Vec<bool>)
    requires { length content.now ≡ length synced.old.items }
    ensures synced { synced.new.items ≡ content.now }
    ensures unsynced { unsynced.new.items ≡ replicate (length unsynced.old.items) false }
{
    synced.copy_from_slice(content);
    unsynced.fill(false);
}
