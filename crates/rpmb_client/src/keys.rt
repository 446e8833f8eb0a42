//! The keys of several guests.
ghost use Rattle.std.specs.Prelude.{◌≡◌, [], None, Some};
ghost use Rattle.rpmb_client.specs.Keys.{key_at, key_for, pairs_of};

use std::alloc::Global;

/// The key of a guest.
#[derive(Clone, Copy)]
pub struct GuestKey {
    /// The number of the guest.
    pub guest: u64,
    /// Its key.
    pub key: [u8; 32],
}

/// The keys of guests, and the key of all other guests.
#[derive(Drop)]
pub struct Keys {
    /// The key of each guest that has one of its own.
    pub own: Vec<GuestKey>,
    /// The key of all others.
    pub others: Option<[u8; 32]>,
}

/// The first key of a guest.
pub fn key_at(keys: &[GuestKey], guest: u64) -> Option<[u8; 32]>
    ensures { result ≡ key_at (pairs_of keys.now) guest }
{
    for entry in keys {
        if entry.guest == guest {
            return Some(entry.key);
        }
    }
    None
}

impl Keys {
    /// No keys.
    pub fn none(alloc: Global) -> Keys
        ensures own { result.own.items ≡ [] }
        ensures others { result.others ≡ None }
    {
        Keys {
            own: Vec::new(alloc),
            others: None,
        }
    }

    /// The key of a guest: its own, or else that of all others.
    pub fn key_of(&self, guest: u64) -> Option<[u8; 32]>
        ensures { result ≡ key_for (pairs_of self.now.own.items) self.now.others guest }
    {
        match key_at(self.own.as_slice(), guest) {
            Some(key) => Some(key),
            None => self.others,
        }
    }
}
