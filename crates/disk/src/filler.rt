//! What a stop makes of writes that weren't synced.
/// What a stop leaves in the places that were written since the last sync that succeeded.
#[derive(Drop)]
pub enum Filler {
    /// What that sync left.
    Old,
    /// What reads give.
    New,
    /// These bytes: byte `k mod length` in the k-th such place in ascending order, counted from 0.
    /// An empty list means zeros.
    Fill(Vec<u8>),
}
