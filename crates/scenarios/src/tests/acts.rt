//! What happens to a world or a board: a driver that sets its device up and offers chains, and the
//! steps that take requests to their replies.
use crate::tests::asked::{Asked, frames_of};
use board::{Act, Step};
use disk::Filler;
use mmio_transport::register as reg;
use std::alloc::Global;
use world::{Event, Refusal};

/// What events happen to. The method promises nothing, so that what stands above it is proved
/// without the contracts of a world or a board.
pub trait Stage {
    /// Lets an event happen; why it didn't, where it is refused.
    fn happen(&mut self, event: Event) -> Option<Refusal>;
}

/// What a driver writes into the registers: a reset, VIRTIO_F_VERSION_1 alone, a queue of 16 with
/// its descriptors at 0x1000, its available ring at 0x2000 and its used ring at 0x3000, and
/// DRIVER_OK (VIRTIO 1.2, 3.1.1 and 4.2.3.2).
pub static SETUP: [(u32, u32); 14] = [
    (reg::STATUS, 0),
    (reg::STATUS, 3),
    (reg::DRIVER_FEATURES_SEL, 0),
    (reg::DRIVER_FEATURES, 0),
    (reg::DRIVER_FEATURES_SEL, 1),
    (reg::DRIVER_FEATURES, 1),
    (reg::STATUS, 11),
    (reg::QUEUE_SEL, 0),
    (reg::QUEUE_NUM, 16),
    (reg::QUEUE_DESC_LOW, 0x1000),
    (reg::QUEUE_DRIVER_LOW, 0x2000),
    (reg::QUEUE_DEVICE_LOW, 0x3000),
    (reg::QUEUE_READY, 1),
    (reg::STATUS, 15),
];

/// Two descriptors (VIRTIO 1.2, 2.7.5): the request of 512 or 1,024 bytes at 0x4000, and room for
/// 512 bytes at 0x8000.
fn descriptors(frames: usize) -> [u8; 32] {
    let mut bytes = [0; 32];
    bytes[1] = 0x40;
    bytes[9] = 2 * frames.min(100) as u8;
    bytes[12] = 1;
    bytes[14] = 1;
    bytes[17] = 0x80;
    bytes[25] = 2;
    bytes[28] = 2;
    bytes
}

/// What happens to one of the guests.
#[derive(Clone, Copy)]
pub enum Move {
    /// The image is opened.
    Open,
    /// The guest's driver sets its device up.
    SetUp,
    /// The guest offers a chain of this request, and its job is answered.
    Submit(Asked),
    /// The guest's next intent goes to the store.
    HandOver,
    /// The store makes so many calls, and the book takes its marks after each.
    Advances(u32),
    /// The guest's next reply leaves, where it may.
    Reply,
    /// The call of the disk of this number from now on fails; with 0 none.
    Fail(u64),
    /// A stop, with the filler of this number.
    Stop(u8),
    /// An upgrade of the image, stopped within its call of the first number with the filler of the
    /// second; whole where it makes no such call.
    Upgrade(u32, u8),
}

/// A step that carries no bytes, of some guest.
#[derive(Clone, Copy)]
pub enum Turn {
    Pop,
    Submit,
    Collect,
    Publish,
    Take,
    Give,
    Advance,
    Settle,
}

/// That step. A step is made here alone, and where it carries bytes, since its drop is dear to
/// prove.
pub fn step_of(guest: u16, turn: Turn) -> Step {
    match turn {
        Turn::Pop => Step::Pop(guest),
        Turn::Submit => Step::Submit(guest),
        Turn::Collect => Step::Collect(guest),
        Turn::Publish => Step::Publish(guest),
        Turn::Take => Step::Take(guest),
        Turn::Give => Step::Give(guest),
        Turn::Advance => Step::Advance,
        Turn::Settle => Step::Settle,
    }
}

/// How a host stops.
#[derive(Clone, Copy)]
enum Stop {
    /// Within the store's next call.
    Within,
    Between,
    /// Within this call of an upgrade.
    Upgrading(u32),
}

fn stop_of(stop: Stop, filler: Filler) -> Event {
    match stop {
        Stop::Within => Event::StopIn(filler),
        Stop::Between => Event::Stop(filler),
        Stop::Upgrading(call) => Event::Upgrade(Some((call, filler))),
    }
}

/// How far what happens has come. Events come in their order, up to one that is to come in place of
/// the store's n-th advance.
#[derive(Clone, Copy)]
pub struct Acts {
    alloc: Global,
    /// How many advances come before the stop; None where there is no stop.
    left: Option<u32>,
    filler: u8,
    has_stopped: bool,
    /// How many chains each guest has offered since its setup.
    offered: [u16; 3],
    /// What was refused first.
    pub refusal: Option<Refusal>,
}

/// The bytes that a stop of each number leaves in turn.
fn bytes_of(number: u8) -> &'static [u8] {
    match number {
        2 => &[],
        4 => &[0xa5],
        5 => &[0x02],
        6 => &[0x77],
        7 => &[0x5a, 0xa5],
        _ => &[0xff],
    }
}

/// The fillers of a stop, by number.
fn filler_of(alloc: Global, number: u8) -> Option<Filler> {
    match number {
        0 => Some(Filler::Old),
        1 => Some(Filler::New),
        _ => match bytes_of(number).to_vec(alloc) {
            Ok(bytes) => Some(Filler::Fill(bytes)),
            Err(_) => None,
        },
    }
}

impl Acts {
    /// Nothing has happened; all ends with a stop within the advance after `left` others.
    pub fn new(alloc: Global, left: Option<u32>, filler: u8) -> Acts {
        Acts {
            alloc,
            left,
            filler,
            has_stopped: false,
            offered: [0; 3],
            refusal: None,
        }
    }

    /// One more event, unless the stop has come.
    fn add<S: Stage>(&mut self, stage: &mut S, event: Event) -> bool {
        if !self.has_stopped {
            let refusal = stage.happen(event);
            self.refusal = self.refusal.or(refusal);
        }
        true
    }

    pub fn turn<S: Stage>(&mut self, stage: &mut S, guest: u16, turn: Turn) -> bool {
        self.add(stage, Event::Do(step_of(guest, turn)))
    }

    fn stop<S: Stage>(&mut self, stage: &mut S, stop: Stop, filler: u8) -> bool {
        match filler_of(self.alloc, filler) {
            Some(filler) => self.add(stage, stop_of(stop, filler)),
            None => false,
        }
    }

    /// The stop in place of the store's next call.
    fn stop_in<S: Stage>(&mut self, stage: &mut S) -> bool {
        let is_made = self.stop(stage, Stop::Within, self.filler);
        self.has_stopped = true;
        is_made
    }

    /// One advance less until the stop; answers whether it comes now.
    fn is_due(&mut self) -> bool {
        match self.left {
            Some(0) => true,
            Some(left) => {
                self.left = Some(left.saturating_sub(1));
                false
            }
            None => false,
        }
    }

    /// The store's next call and what it means to the book, or the stop in its place.
    fn advance<S: Stage>(&mut self, stage: &mut S) -> bool {
        if self.is_due() {
            self.stop_in(stage)
        } else {
            self.turn(stage, 0, Turn::Advance) && self.turn(stage, 0, Turn::Settle)
        }
    }

    fn advances<S: Stage>(&mut self, stage: &mut S, times: u32) -> bool {
        for _ in 0..times {
            if !self.advance(stage) {
                return false;
            }
        }
        true
    }

    /// Sets a guest's device up.
    fn set_up<S: Stage>(&mut self, stage: &mut S, guest: u16) -> bool {
        if let Some(offered) = self.offered.get_mut(usize::from(guest)) {
            *offered = 0;
        }
        self.write_all(stage, guest, &SETUP)
    }

    /// A guest writes these values into these registers.
    pub fn write_all<S: Stage>(
        &mut self,
        stage: &mut S,
        guest: u16,
        writes: &[(u32, u32)],
    ) -> bool {
        for (offset, value) in writes {
            let act = Act::Write {
                offset: *offset,
                width: 4,
                value: *value,
            };
            if !self.add(stage, Event::Do(Step::Drive(guest, act))) {
                return false;
            }
        }
        true
    }

    /// A guest stores bytes into its memory.
    pub fn store<S: Stage>(&mut self, stage: &mut S, guest: u16, at: u64, bytes: &[u8]) -> bool {
        match bytes.to_vec(self.alloc) {
            Ok(bytes) => self.add(
                stage,
                Event::Do(Step::Drive(guest, Act::Store { at, bytes })),
            ),
            Err(_) => false,
        }
    }

    /// The number of the guest's next chain.
    fn next_chain(&mut self, guest: u16) -> u16 {
        match self.offered.get_mut(usize::from(guest)) {
            Some(offered) => {
                let number = *offered;
                *offered = number.wrapping_add(1);
                number
            }
            None => 0,
        }
    }

    /// Puts a chain of these frames, with room for one, before the device, and makes it available.
    fn place<S: Stage>(&mut self, stage: &mut S, guest: u16, frames: &[[u8; 512]]) -> bool {
        let number = self.next_chain(guest);
        let next = number.wrapping_add(1).to_le_bytes();
        self.store(stage, guest, 0x4000, frames.as_flattened())
            && self.store(stage, guest, 0x1000, &descriptors(frames.len()))
            && self.store(stage, guest, 0x2004 + 2 * u64::from(number % 16), &[0, 0])
            && self.store(stage, guest, 0x2002, &next)
    }

    /// Puts a chain of this request before the device, and the device pops it.
    pub fn ask<S: Stage>(&mut self, stage: &mut S, guest: u16, asked: Asked) -> bool {
        let is_placed = match frames_of(self.alloc, asked) {
            Some(frames) => self.place(stage, guest, &frames),
            None => false,
        };
        is_placed && self.turn(stage, guest, Turn::Pop)
    }

    fn make<S: Stage>(&mut self, stage: &mut S, guest: u16, next: Move) -> bool {
        match next {
            Move::Open => self.add(stage, Event::Open),
            Move::SetUp => self.set_up(stage, guest),
            Move::Submit(asked) => {
                self.ask(stage, guest, asked) && self.turn(stage, guest, Turn::Submit)
            }
            Move::HandOver => {
                self.turn(stage, guest, Turn::Take) && self.turn(stage, guest, Turn::Give)
            }
            Move::Advances(times) => self.advances(stage, times),
            Move::Reply => {
                self.turn(stage, guest, Turn::Collect) && self.turn(stage, guest, Turn::Publish)
            }
            Move::Fail(call) => self.add(stage, Event::Fail(call)),
            Move::Stop(filler) => self.stop(stage, Stop::Between, filler),
            Move::Upgrade(call, filler) => self.stop(stage, Stop::Upgrading(call), filler),
        }
    }

    /// Makes one move of a guest after another.
    pub fn play<S: Stage>(&mut self, stage: &mut S, guest: u16, moves: &[Move]) -> bool {
        for next in moves {
            if !self.make(stage, guest, *next) {
                return false;
            }
        }
        true
    }

    /// The same; whether nothing is refused.
    pub fn goes<S: Stage>(&mut self, stage: &mut S, guest: u16, moves: &[Move]) -> bool {
        self.play(stage, guest, moves) && self.refusal.is_none()
    }
}
