//! A content after a stop, made of what was synced and what wasn't.
ghost use Rattle.std.specs.Prelude.{◌≡◌, ℕ, length, slice_index};
ghost use Rattle.disk.specs.CutDisk.{filled, filling, left_by};

use crate::bytes::copy_all;
use crate::filler::Filler;

// The byte for the k-th unsynced place, counted from 0.
#[tactic(auto, unfolding(crate::specs::CutDisk::filling))]
fn byte_for(bytes: &[u8], k: usize) -> u8
    ensures { result ≡ filling bytes.now k }
{
    if bytes.is_empty() {
        0
    } else {
        bytes[k % bytes.len()]
    }
}

/// Puts the bytes, over and over, into the places whose flag is set, in ascending order; zeros
/// where there are no bytes.
pub fn fill(seen: &mut Vec<u8>, unsynced: &[bool], bytes: &[u8])
    requires { length unsynced.now ≡ length seen.old.items }
    ensures len { length seen.new.items ≡ length seen.old.items }
    ensures filled { (k : ℕ) → slice_index seen.new.items k
        ≡ filled bytes.now unsynced.now seen.old.items k }
{
    let mut count = 0;
    for i in 0..unsynced.len() {
        if unsynced[i] {
            seen[i] = byte_for(bytes, count);
            count += 1;
        }
    }
}

/// Makes of `seen` what a stop leaves.
#[tactic(auto, unfolding(crate::specs::CutDisk::left_by))]
pub fn leave(seen: &mut Vec<u8>, synced: &[u8], unsynced: &[bool], filler: &Filler)
    requires copy { length synced.now ≡ length seen.old.items }
    requires flags { length unsynced.now ≡ length seen.old.items }
    ensures len { length seen.new.items ≡ length seen.old.items }
    ensures left { (k : ℕ) → slice_index seen.new.items k
        ≡ left_by filler.now seen.old.items synced.now unsynced.now k }
{
    match filler {
        Filler::Old => copy_all(seen, synced),
        Filler::New => {}
        Filler::Fill(bytes) => fill(seen, unsynced, bytes),
    }
}
