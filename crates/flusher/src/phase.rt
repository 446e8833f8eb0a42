//! How far a log record is on its way to the disk.
ghost use Rattle.std.specs.Prelude.{◌≡◌};
ghost use Rattle.flusher.specs.Pair.{is_let_beside};
ghost use Rattle.flusher.specs.Phase.{has_write, is_opening, is_closing, is_settled};

/// How far an intent is on its way to the disk.
#[derive(Clone, Copy)]
pub(crate) enum Phase {
    /// Nothing of it is written.
    Given,
    /// Its payload is written.
    Written,
    /// Its payload is synced.
    Ready,
    /// The gate is written open.
    Opening,
    /// The gate is synced open, and the blocks of so many entries are written, one that has none
    /// counted with them: the intent is settled.
    Open(usize),
    /// The entries' blocks and the home record are written.
    Applying,
    /// They are synced.
    Applied,
    /// The gate is written shut.
    Closing,
}

impl Phase {
    /// Whether a write comes next. Where none does, a sync moves the phase.
    pub(crate) fn has_write(self) -> bool
        ensures { result ≡ has_write self }
    {
        matches!(
            self,
            Phase::Given | Phase::Ready | Phase::Open(_) | Phase::Applied
        )
    }

    /// Whether the gate is written open and not synced.
    pub(crate) fn is_opening(self) -> bool
        ensures { result ≡ is_opening self }
    {
        matches!(self, Phase::Opening)
    }

    /// Whether the gate is written shut and not synced.
    pub(crate) fn is_closing(self) -> bool
        ensures { result ≡ is_closing self }
    {
        matches!(self, Phase::Closing)
    }

    /// Whether the write of this phase may be made while another slot, of lower sequence, is in
    /// that one.
    pub(crate) fn is_let_beside(self, first: Phase) -> bool
        ensures { result ≡ is_let_beside first self }
    {
        match self {
            Phase::Given => true,
            Phase::Ready => first.is_closing(),
            _ => false,
        }
    }

    /// Whether the gate was known to be open.
    pub(crate) fn is_settled(self) -> bool
        ensures { result ≡ is_settled self }
    {
        matches!(
            self,
            Phase::Open(_) | Phase::Applying | Phase::Applied | Phase::Closing
        )
    }
}
