//! A disk, by what reads give and what a stop may leave, and five disks.
#![tactic(auto)]

mod bytes;
mod cut_disk;
mod disk;
mod file_disk;
mod filler;
mod filling;
mod hook_disk;
mod kept;
pub mod laws;
mod mem_disk;
mod outbox;
mod outbox_disk;
mod positioned_file;

pub use cut_disk::CutDisk;
pub use disk::{Disk, DiskFault, NoMemory};
pub use file_disk::FileDisk;
pub use filler::Filler;
pub use hook_disk::{Hook, HookDisk};
pub use mem_disk::MemDisk;
pub use outbox::{MOST_WRITES, Waiting};
pub use outbox_disk::{OutboxDisk, Told};
pub use positioned_file::PositionedFile;
