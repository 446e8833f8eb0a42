//! What happens to a world, and what it refuses.
use board::{Step, StepFault};
use disk::Filler;
use recovery::OpenFault;
use thiserror::Error;

/// One thing that happens to a world. Each of the last four ends the life of the board: devices,
/// guest memories, book and store go, and an opening follows at once.
#[derive(Drop)]
pub enum Event {
    /// One step of the board. Of a world that is closed it is nothing.
    Do(Step),
    /// Of the disk's calls from now on the k-th is to fail, counted from 1, in place of an earlier
    /// choice; 0 chooses none.
    Fail(u64),
    /// The host stops between two calls of the disk.
    Stop(Filler),
    /// The host stops within the call of the disk that the store's next advance would make: a write
    /// is in what reads give, or has failed where it was chosen; a sync has done nothing and isn't
    /// counted. Where none would be made, and of a world that is closed, it is `Stop`.
    StopIn(Filler),
    /// The host stops, and nothing is lost of the disk.
    Open,
    /// The host stops, nothing is lost of the disk, and an upgrade of its image to version 2 runs
    /// before the opening. With a number the host stops within that call of the disk that the
    /// upgrade makes, counted from 1: the call fails, and then the disk is cut. Where it makes no
    /// such call, also with 0, it runs to its end, and no later call is chosen. With none an
    /// earlier `Fail` counts its calls. What it refuses is told before what the opening refuses; of
    /// one that the host stopped within, nothing is.
    Upgrade(Option<(u32, Filler)>),
}

/// Why something didn't happen.
#[derive(Clone, Copy, Debug, PartialEq, Eq, Error)]
pub enum Refusal {
    /// A step was refused.
    #[error("{0}")]
    Step(StepFault),
    /// An opening was.
    #[error("{0}")]
    Open(OpenFault),
    /// An upgrade was.
    #[error("{0}")]
    Upgrade(OpenFault),
}
