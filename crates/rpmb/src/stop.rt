//! Where an operation stops.

/// Standard error has the reason, and the program ends with this status: 1, or 3 where the device
/// refused a request.
#[derive(Clone, Copy)]
pub struct Stop {
    pub status: u8,
}
