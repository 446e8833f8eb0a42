//! Boards to which events happen, and what is seen of their guests.
use crate::tests::acts::{Stage, Turn, step_of};
use crate::tests::image::{Image, image_of};
use crate::tests::scene::board_of;
use board::{Board, Seen, Step, StepFault};
use disk::CutDisk;
use mmio_transport::{Device, Done, Published};
use recovery::OpenFault;
use std::alloc::Global;
use world::{Event, Refusal};

/// A board. Its methods promise nothing, so that what stands above them is proved without a
/// board's contracts.
pub trait Table: Drop {
    fn make(&mut self, step: &Step) -> Result<Seen, StepFault>;

    /// The guest's reply that was collected and isn't published.
    fn reply(&self, guest: u16) -> Option<&Done>;

    fn device_seen(&self, guest: u16) -> Option<&Device>;
}

impl Table for Board<CutDisk> {
    fn make(&mut self, step: &Step) -> Result<Seen, StepFault> {
        self.step(step)
    }

    fn reply(&self, guest: u16) -> Option<&Done> {
        self.done(guest)
    }

    fn device_seen(&self, guest: u16) -> Option<&Device> {
        self.device_of(guest)
    }
}

/// What a guest's turn answers.
pub fn made<B: Table>(board: &mut B, guest: u16, turn: Turn) -> Result<Seen, StepFault> {
    board.make(&step_of(guest, turn))
}

/// So many bytes of a guest's memory.
pub fn loaded<const N: usize, B: Table>(board: &B, guest: u16, at: u64) -> Option<[u8; N]> {
    let mut bytes = [0; N];
    let Some(device) = board.device_seen(guest) else {
        return None;
    };
    if device.load(at, &mut bytes).is_err() {
        return None;
    }
    Some(bytes)
}

/// A board, and what some of its guests are told and find in their memory while they are watched:
/// the replies that are collected, each with its need; then whether the guest is notified, its used
/// ring and the room of its replies.
#[derive(Drop)]
pub struct Watched<B: Table> {
    pub board: B,
    pub is_watched: bool,
    sight: Vec<u8>,
}

fn note_reply(sight: &mut Vec<u8>, done: &Done) -> bool {
    sight.extend_from_slice(&done.need().to_be_bytes()).is_ok()
        && sight.extend_from_slice(done.reply()).is_ok()
}

fn note_memory<B: Table>(sight: &mut Vec<u8>, board: &B, guest: u16, notify: bool) -> bool {
    let Some(used): Option<[u8; 134]> = loaded(board, guest, 0x3000) else {
        return false;
    };
    let Some(room): Option<[u8; 512]> = loaded(board, guest, 0x8000) else {
        return false;
    };
    sight.push(u8::from(notify)).is_ok()
        && sight.extend_from_slice(&used).is_ok()
        && sight.extend_from_slice(&room).is_ok()
}

impl<B: Table> Watched<B> {
    /// Notes what a step left; whether it was one that leaves something.
    fn note(&mut self, step: &Step, made: Result<Seen, StepFault>) -> bool {
        match step {
            Step::Collect(guest) => match self.board.reply(*guest) {
                Some(done) => note_reply(&mut self.sight, done),
                None => false,
            },
            Step::Publish(guest) => match made {
                Ok(Seen::Published(Published::Wrote { notify })) => {
                    note_memory(&mut self.sight, &self.board, *guest, notify)
                }
                _ => false,
            },
            _ => false,
        }
    }

    fn make(&mut self, step: &Step) -> Option<Refusal> {
        let made = self.board.make(step);
        if self.is_watched {
            let _ = self.note(step, made);
        }
        match made {
            Ok(_) => None,
            Err(fault) => Some(Refusal::Step(fault)),
        }
    }
}

impl<B: Table> Stage for Watched<B> {
    /// No board opens an image itself.
    fn happen(&mut self, event: Event) -> Option<Refusal> {
        match event {
            Event::Do(step) => self.make(&step),
            _ => Some(Refusal::Open(OpenFault::NotFormatted)),
        }
    }
}

/// What is done to a board, and whether it goes as told.
pub trait Deed {
    fn is_done<B: Table>(&self, alloc: Global, board: &mut Watched<B>) -> bool;
}

/// What was seen while this was done to a board over a fresh image of so many guests. `None` where
/// it goes otherwise. A board is held here alone, since its drop is dear to prove.
pub fn sight_of<D: Deed>(alloc: Global, guests: usize, image: Image, deed: &D) -> Option<Vec<u8>> {
    let Some(config) = board_of(alloc, guests) else {
        return None;
    };
    let Some(disk) = image_of(alloc, &config, image) else {
        return None;
    };
    let Ok(board) = Board::open(alloc, disk, 1, &config) else {
        return None;
    };
    let mut watched = Watched {
        board,
        is_watched: false,
        sight: Vec::new(alloc),
    };
    let is_done = deed.is_done(alloc, &mut watched);
    let Watched {
        board: _,
        is_watched: _,
        sight,
    } = watched;
    if is_done { Some(sight) } else { None }
}
