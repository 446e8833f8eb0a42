//! Boards of guests that aren't all alike, fresh images of them, and what their guests do.
use disk::{Disk, MemDisk};
use guest_driver::{BoardSetup, DriverConfig};
use hmac256::mac_of;
use intent_slots::Layout;
use recovery::format;
use rpmb_frame::{BoardConfig, Frame, GuestConfig};
use std::alloc::Global;
use std::test::Fail;
use workers::{Chain, Order, Script};

pub fn check(holds: bool, what: &'static str) -> Result<(), Fail> {
    if holds { Ok(()) } else { Err(Fail::from(what)) }
}

/// Every third driver has a queue of 32 places and no event index.
fn driver_of(number: usize) -> DriverConfig {
    let usual = DriverConfig::usual();
    if number % 3 == 2 {
        DriverConfig {
            queue: 32,
            event_idx: false,
            ..usual
        }
    } else {
        usual
    }
}

/// A board of guests of one unit.
fn board_of(alloc: Global, guests: usize) -> Option<BoardConfig> {
    match vec![in alloc; GuestConfig::of_capacity(1); guests] {
        Ok(guests) => BoardConfig::new(guests).ok(),
        Err(_) => None,
    }
}

/// Such a board, whose drivers aren't all alike.
pub fn setup_of(alloc: Global, guests: usize) -> Option<BoardSetup> {
    let mut drivers = Vec::new(alloc);
    for number in 0..guests {
        if drivers.push(driver_of(number)).is_err() {
            return None;
        }
    }
    match board_of(alloc, guests) {
        Some(board) => BoardSetup::new(board, drivers).ok(),
        None => None,
    }
}

fn is_formatted(disk: &mut MemDisk, board: &BoardConfig) -> bool {
    if disk.len() != Layout::of(board).length() {
        return false;
    }
    format(disk, board).is_ok()
}

/// A fresh image of a board of so many guests, on a disk that held something else.
pub fn formatted(alloc: Global, guests: usize) -> Option<MemDisk> {
    let Some(board) = board_of(alloc, guests) else {
        return None;
    };
    let Ok(bytes) = vec![in alloc; 0xee; Layout::of(&board).length() as usize] else {
        return None;
    };
    let mut disk = MemDisk::new(bytes);
    if is_formatted(&mut disk, &board) {
        Some(disk)
    } else {
        None
    }
}

/// The frame that asks for the result.
pub fn result_read() -> [u8; 512] {
    Frame::zeros().with_req_resp(0x0005).to_bytes()
}

/// The frames that program a key and ask for the result.
pub fn program_key(key: &[u8; 32]) -> [[u8; 512]; 2] {
    let frame = Frame::zeros()
        .with_key_mac(key)
        .with_block_count(1)
        .with_req_resp(0x0001);
    [frame.to_bytes(), result_read()]
}

/// The frame that asks for the write counter under this nonce.
pub fn get_write_counter(nonce: u128) -> [u8; 512] {
    Frame::zeros()
        .with_nonce(&nonce.to_be_bytes())
        .with_block_count(1)
        .with_req_resp(0x0002)
        .to_bytes()
}

/// A block of this byte is written there, under a key of 32 such bytes and this write counter.
#[derive(Clone, Copy)]
pub struct Write {
    pub key: u8,
    pub counter: u32,
    pub address: u16,
    pub byte: u8,
}

/// The frames of a write, and a request for the result.
fn write_of(write: &Write) -> [[u8; 512]; 2] {
    let frame = Frame::zeros()
        .with_block_data(&[write.byte; 256])
        .with_write_counter(write.counter)
        .with_address(write.address)
        .with_block_count(1)
        .with_req_resp(0x0003);
    let mac = mac_of(&[write.key; 32], &[frame.to_bytes()]);
    [frame.with_key_mac(&mac).to_bytes(), result_read()]
}

/// The frame that reads the block there.
fn read_of(nonce: u128, address: u16) -> [u8; 512] {
    Frame::zeros()
        .with_nonce(&nonce.to_be_bytes())
        .with_address(address)
        .with_block_count(1)
        .with_req_resp(0x0004)
        .to_bytes()
}

/// What a guest does at one place of its script.
#[derive(Clone, Copy)]
pub enum Step {
    /// It programs a key of 32 such bytes, and asks for the result.
    Key(u8),
    /// It asks for the write counter under this nonce.
    Counter(u128),
    /// It writes a block, and asks for the result.
    Write(Write),
    /// It reads the block there under this nonce.
    Read(u128, u16),
    /// It asks for the result.
    Outcome,
    /// It makes a request of a type that there is not.
    Unknown,
    /// It offers a hundred such bytes, which make no frame.
    Garbage(u8),
    /// It resets the device.
    Reset,
}

/// A chain of these bytes, with room for one frame.
fn chain(alloc: Global, bytes: &[u8]) -> Option<Order> {
    let Ok(readable) = bytes.to_vec(alloc) else {
        return None;
    };
    if readable.is_empty() || readable.len() > 8704 {
        return None;
    }
    Some(Order::Chain(Chain::new(readable, 512)))
}

/// The order that a step stands for.
fn order_of(alloc: Global, step: &Step) -> Option<Order> {
    match step {
        Step::Key(byte) => chain(alloc, program_key(&[*byte; 32]).as_flattened()),
        Step::Counter(nonce) => chain(alloc, &get_write_counter(*nonce)),
        Step::Write(write) => chain(alloc, write_of(write).as_flattened()),
        Step::Read(nonce, address) => chain(alloc, &read_of(*nonce, *address)),
        Step::Outcome => chain(alloc, &result_read()),
        Step::Unknown => chain(alloc, &Frame::zeros().with_req_resp(0x0077).to_bytes()),
        Step::Garbage(byte) => chain(alloc, &[*byte; 100]),
        Step::Reset => Some(Order::Reset),
    }
}

/// Whether an order was made, and stands behind these now.
fn adds(orders: &mut Vec<Order>, order: Option<Order>) -> bool {
    match order {
        Some(order) => orders.push(order).is_ok(),
        None => false,
    }
}

/// The script of a guest that does these steps one after another.
pub fn script_of(alloc: Global, steps: &[Step]) -> Option<Script> {
    let mut orders = Vec::new(alloc);
    let mut made = true;
    for step in steps {
        made = made && adds(&mut orders, order_of(alloc, step));
    }
    if made {
        Some(Script::new(orders))
    } else {
        None
    }
}

/// Whether a script was made, and stands behind these now.
pub fn adds_script(scripts: &mut Vec<Script>, script: Option<Script>) -> bool {
    match script {
        Some(script) => scripts.push(script).is_ok(),
        None => false,
    }
}

/// The scripts of guests, of which each does the steps of a list.
pub fn scripts_of(alloc: Global, lists: &[&[Step]]) -> Option<Vec<Script>> {
    let mut scripts = Vec::new(alloc);
    let mut made = true;
    for steps in lists {
        made = made && adds_script(&mut scripts, script_of(alloc, *steps));
    }
    if made { Some(scripts) } else { None }
}

/// As many steps that ask for the result.
pub fn reads(alloc: Global, count: u16) -> Option<Vec<Step>> {
    vec![in alloc; Step::Outcome; usize::from(count)].ok()
}

/// The last twelve bytes of a reply: write counter, address, block count, result and type.
pub fn tail_of(reply: &[u8]) -> &[u8] {
    &reply[reply.len().saturating_sub(12)..]
}
