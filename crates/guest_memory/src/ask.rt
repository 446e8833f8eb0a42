//! What a memory that asks is asked to be told.

/// Bytes of a guest's memory that have to be told before a call can go on.
#[derive(Clone, Copy, Debug, PartialEq, Eq)]
pub struct Ask {
    /// The address of the first of them.
    pub at: u64,
    /// How many bytes they are; at least one.
    pub len: u64,
}
