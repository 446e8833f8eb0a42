//! Under which key each guest's requests are.
ghost use Rattle.std.specs.Prelude.{◌≡◌, ◌↔◌, ◌<◌, IfOk, IsTrue, Some, length, slice_get};
ghost use Rattle.rpmb_book.specs.Book.{guest_of};
ghost use Rattle.workers.specs.Keeping.{HasKeys, IsUnder, LetsKey};

use host::HostFault;
use rpmb_book::Book;
use std::alloc::Global;

/// Whether an intent may be under this key where its guest's is known to be that one.
fn is_under(its: &Option<[u8; 32]>, key: &[u8; 32]) -> bool
    ensures { IsTrue result ↔ IsUnder its.now key.now }
{
    match its {
        Some(its) => its == key,
        None => true,
    }
}

/// The key of a guest of the book.
fn key_of(book: &Book, guest: u16) -> Option<[u8; 32]>
    ensures { (x : _) → guest_of book.now guest ≡ Some x → result ≡ x.core.partition.key }
{
    match book.partition(guest) {
        Some(partition) => partition.key(),
        None => None,
    }
}

/// The keys of so many guests of the book.
pub(crate) fn keys_of(
    alloc: Global,
    book: &Book,
    guests: u16,
) -> Result<Vec<Option<[u8; 32]>>, HostFault>
    ensures { IfOk result (λ keys. HasKeys guests book.now keys.items) }
{
    let mut keys = Vec::new(alloc);
    for guest in 0..guests {
        if keys.push(key_of(book, guest)).is_err() {
            return Err(HostFault::NoMemory);
        }
    }
    Ok(keys)
}

/// Whether the guest's key lets an intent be under this one.
pub(crate) fn lets_key(keys: &Vec<Option<[u8; 32]>>, guest: u16, key: &[u8; 32]) -> bool
    ensures lets { IsTrue result → LetsKey (slice_get keys.now.items guest) key.now }
    ensures within { IsTrue result → guest < length keys.now.items }
{
    match keys.get(usize::from(guest)) {
        Some(its) => is_under(its, key),
        None => false,
    }
}
