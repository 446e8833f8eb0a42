//! A monitor over an image in memory, which answers what a serve needs by its guests' memory.
ghost use Rattle.std.specs.Prelude.{◌+◌, ◌≤◌, IfSome, length};

use machine::{Machine, MachineFault, Served, Setup, What, format_image, image_length};
use mmio_transport::Kick;
use rpmb_frame::GuestConfig;
use std::alloc::Global;
use std::test::Fail;

/// A guest has two regions of memory of so many bytes: one from 0 on, the other from `HIGH` on.
pub const REGION: u64 = 65_536;

pub const HIGH: u64 = 0x100_0000_0000;

/// More calls than a serve takes, more syncs than a request, more writes than an outbox holds.
const MANY: u32 = 300;

/// A guest of the smallest partition, and nothing asked beside.
pub fn plain() -> Setup {
    let mut config = GuestConfig::of_capacity(1);
    config.memory = HIGH + REGION;
    Setup {
        config,
        withheld: 0,
        most: 0,
        queue: None,
        platform: false,
    }
}

pub fn check(holds: bool, what: &'static str) -> Result<(), Fail> {
    if holds { Ok(()) } else { Err(Fail::from(what)) }
}

/// What a monitor calls of its machine. The methods promise nothing, so that what stands above them
/// is proved without a machine's contracts.
pub trait Calls: Drop {
    /// A driver writes a register. Whether its monitor is to serve it.
    fn set(&mut self, guest: u16, offset: u32, value: u32) -> bool;

    fn see(&self, guest: u16, offset: u32) -> u32;

    fn line(&self, guest: u16) -> u32;

    fn waits(&self, guest: u16) -> bool;

    fn serve_once(&mut self, guest: u16, is_there: bool, bytes: &mut [u8]) -> Served;

    fn take_write(&mut self, out: &mut [u8]) -> Option<(u64, usize)>;

    /// Whether it may be told that the writes were synced, or that they failed.
    fn tell(&mut self, succeeded: bool) -> bool;

    fn broke(&self) -> bool;

    /// Why no state is saved, or taken.
    fn save_state(&self, guest: u16, out: &mut [u32]) -> Option<MachineFault>;

    fn load_state(&mut self, guest: u16, state: &[u32]) -> Option<MachineFault>;

    fn place_of(&self, guest: u16) -> Option<u16>;

    fn move_queue(&mut self, guest: u16, place: u16) -> bool;

    /// Whether it is opened anew over an image.
    fn open_anew(&mut self, alloc: Global, setups: &[Setup], image: &[u8]) -> bool;
}

impl Calls for Machine {
    fn set(&mut self, guest: u16, offset: u32, value: u32) -> bool {
        self.write(guest, offset, 4, value) == Kick::Notify
    }

    fn see(&self, guest: u16, offset: u32) -> u32 {
        self.read(guest, offset, 4)
    }

    fn line(&self, guest: u16) -> u32 {
        self.interrupt(guest)
    }

    fn waits(&self, guest: u16) -> bool {
        self.is_waiting(guest)
    }

    fn serve_once(&mut self, guest: u16, is_there: bool, bytes: &mut [u8]) -> Served {
        self.serve(guest, is_there, bytes)
    }

    fn take_write(&mut self, out: &mut [u8]) -> Option<(u64, usize)> {
        self.outbox(out)
    }

    fn tell(&mut self, succeeded: bool) -> bool {
        self.completed(succeeded).is_ok()
    }

    fn broke(&self) -> bool {
        self.is_broken()
    }

    fn save_state(&self, guest: u16, out: &mut [u32]) -> Option<MachineFault> {
        self.save(guest, out).err()
    }

    fn load_state(&mut self, guest: u16, state: &[u32]) -> Option<MachineFault> {
        self.load(guest, state).err()
    }

    fn place_of(&self, guest: u16) -> Option<u16> {
        self.place(guest)
    }

    fn move_queue(&mut self, guest: u16, place: u16) -> bool {
        self.move_to(guest, place)
    }

    fn open_anew(&mut self, alloc: Global, setups: &[Setup], image: &[u8]) -> bool {
        match Machine::open(alloc, setups, image) {
            Ok(machine) => {
                *self = machine;
                true
            }
            Err(_) => false,
        }
    }
}

#[derive(Drop)]
pub struct Rig<M: Calls> {
    pub alloc: Global,
    pub machine: M,
    pub image: Vec<u8>,
    /// The regions of each guest, one behind the other.
    memory: Vec<u8>,
    /// What is copied between a guest's memory and a serve, or an outbox and the image.
    pub buffer: Vec<u8>,
    /// Whether there was memory for what the last call needed.
    pub is_there: bool,
    /// What each call needed since this was cleared, where, and how many bytes.
    pub needs: Vec<(What, u64, u64)>,
    /// How many writes were taken.
    pub writes: u32,
}

/// A fresh image of these guests.
pub fn fresh_image(alloc: Global, setups: &[Setup]) -> Option<Vec<u8>> {
    let length = image_length(alloc, setups).ok()?;
    let mut image = vec![in alloc; 0u8; length as usize].ok()?;
    if format_image(alloc, setups, image.as_mut_slice()).is_ok() {
        Some(image)
    } else {
        None
    }
}

/// A machine over the image of these guests.
fn opened(alloc: Global, setups: &[Setup], image: &[u8]) -> Option<Machine> {
    Machine::open(alloc, setups, image).ok()
}

fn fresh(alloc: Global, setups: &[Setup]) -> Option<Rig<Machine>> {
    let image = fresh_image(alloc, setups)?;
    let memory = vec![in alloc; 0u8; 6 * REGION as usize].ok()?;
    let buffer = vec![in alloc; 0u8; 16_648].ok()?;
    let machine = opened(alloc, setups, &image)?;
    Some(Rig {
        alloc,
        machine,
        image,
        memory,
        buffer,
        is_there: true,
        needs: Vec::new(alloc),
        writes: 0,
    })
}

/// Tries this of a monitor over a fresh image of at most three guests, whose memory is zeros. No
/// other function holds a machine, so that one alone drops it.
pub fn try_fresh<F: FnOnce(&mut Rig<Machine>) -> bool>(
    alloc: Global,
    setups: &[Setup],
    goes: F,
) -> Result<(), Fail>
    requires { F.IsAlwaysCallable goes }
{
    match fresh(alloc, setups) {
        Some(mut rig) => check(goes(&mut rig), "it goes otherwise"),
        None => Err(Fail::from("no machine")),
    }
}

/// Where these bytes of a guest stand. `None` where it has no memory for all of them.
fn place_of(memory: &[u8], guest: u16, at: u64, count: usize) -> Option<usize>
    ensures { IfSome result (λ place. place + count ≤ length memory.now) }
{
    let (region, from) = if at < HIGH { (0, at) } else { (1, at - HIGH) };
    if from > REGION || count as u64 > REGION - from {
        return None;
    }
    let place = (2 * u64::from(guest) + region) * REGION + from;
    if place + count as u64 <= memory.len() as u64 {
        Some(place as usize)
    } else {
        None
    }
}

/// Copies bytes to a place, where there is room for them, and answers whether there is.
fn copy_to(all: &mut [u8], place: usize, bytes: &[u8]) -> bool {
    if place > all.len() || bytes.len() > all.len() - place {
        return false;
    }
    all[place..place + bytes.len()].copy_from_slice(bytes);
    true
}

impl<M: Calls> Rig<M> {
    /// Copies bytes into a guest's memory, where it has any there.
    pub fn put(&mut self, guest: u16, at: u64, bytes: &[u8]) {
        if let Some(place) = place_of(&self.memory, guest, at, bytes.len()) {
            self.memory[place..place + bytes.len()].copy_from_slice(bytes);
        }
    }

    /// Whether just these bytes stand in a guest's memory.
    pub fn holds(&self, guest: u16, at: u64, bytes: &[u8]) -> bool {
        match place_of(&self.memory, guest, at, bytes.len()) {
            Some(place) => &self.memory[place..place + bytes.len()] == bytes,
            None => false,
        }
    }

    /// Takes the oldest write of the outbox, and makes it: whether it lies in the image. `None`
    /// where there is none.
    fn take_one(&mut self) -> Option<bool> {
        let (at, count) = self.machine.take_write(&mut self.buffer)?;
        self.writes = self.writes.saturating_add(1);
        match self.buffer.get(..count) {
            Some(bytes) => Some(copy_to(&mut self.image, at as usize, bytes)),
            None => Some(false),
        }
    }

    /// Takes what the outbox has, and makes it.
    fn take_all(&mut self) -> bool {
        for _ in 0..MANY {
            match self.take_one() {
                Some(true) => {}
                Some(false) => return false,
                None => return true,
            }
        }
        false
    }

    /// Copies what a serve needs, where there is memory for it, and answers whether there is.
    fn copy_needed(&mut self, guest: u16, served: &Served) -> bool {
        let count = served.len as usize;
        let Some(place) = place_of(&self.memory, guest, served.at, count) else {
            return false;
        };
        if count > self.buffer.len() {
            return false;
        }
        let there = &mut self.memory[place..place + count];
        match served.what {
            What::Read => self.buffer[..count].copy_from_slice(there),
            What::Write => there.copy_from_slice(&self.buffer[..count]),
            _ => {}
        }
        true
    }

    /// Calls serve once, with the answer to what the call before it needed.
    pub fn step(&mut self, guest: u16) -> Option<Served> {
        let served = self
            .machine
            .serve_once(guest, self.is_there, &mut self.buffer);
        self.is_there = self.copy_needed(guest, &served);
        let is_copy = matches!(served.what, What::Read | What::Write);
        let is_taken = is_copy || self.take_all();
        self.needs.push((served.what, served.at, served.len)).ok()?;
        if is_taken { Some(served) } else { None }
    }

    /// Serves a guest until it rests.
    pub fn serve(&mut self, guest: u16) -> Option<Served> {
        for _ in 0..MANY {
            let served = self.step(guest)?;
            if served.what == What::Rest {
                return Some(served);
            }
        }
        None
    }

    /// Serves a guest, with no fault, until no sync is awaited. How many were told.
    pub fn settle(&mut self, guest: u16) -> Option<u32> {
        for syncs in 0..MANY {
            let served = self.serve(guest)?;
            if served.fault.is_some() {
                return None;
            }
            if !served.sync {
                return Some(syncs);
            }
            if !self.machine.tell(true) {
                return None;
            }
        }
        None
    }
}
