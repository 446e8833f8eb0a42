//! A chain that was offered and hasn't come back.
ghost use Rattle.std.specs.Prelude.{◌≡◌};
ghost use Rattle.guest_driver.specs.Driver.{no_flight};

/// A chain in flight, which is known by its head.
#[derive(Clone, Copy)]
pub struct Flight {
    /// Its last descriptor in the ring, which is the head where it has one there; in a packed ring
    /// its id.
    pub last: u16,
    /// How many places of the ring it takes.
    pub places: u16,
    /// How many bytes the device may write.
    pub writable: u32,
    /// The mark of the place at which it was offered.
    pub place: u32,
}

impl Flight {
    /// What is kept of a head that no chain in flight has.
    pub(crate) fn none() -> Flight
        ensures { result ≡ no_flight }
    {
        Flight {
            last: 0,
            places: 0,
            writable: 0,
            place: 0,
        }
    }
}
