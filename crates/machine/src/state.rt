//! The state of a guest's device as words of 32 bits.
ghost use Rattle.std.specs.Prelude.{◌≡◌, ◌<◌, ◌%◌, ◌/◌, length};
ghost use Rattle.machine.specs.State.{word_at, number_at, flag_at, flag_number, is_state, is_of};
ghost use Rattle.machine.specs.State.{registers_in, resting_in, queue_in, device_in, words_of};
ghost use Rattle.machine.specs.State.{header_words, queue_words, ready_number, register_words};

use crate::settings::Setup;
use chains::Places;
use mmio_transport::{Interrupts, Registers, RestingDevice, RestingQueue, RingKind, Status};

/// How many words a state has.
pub const STATE_WORDS: usize = 50;

/// `RPMB`, in little endian.
const MAGIC: u32 = 0x424d_5052;

const VERSION: u32 = 1;

/// A queue that isn't there.
const NO_QUEUE: RestingQueue = RestingQueue {
    kind: RingKind::Split,
    places: Places {
        descriptors: 0,
        driver: 0,
        device: 0,
        indirect: false,
        event_idx: false,
        in_order: false,
    },
    size: 0,
    last: 0,
    used: 0,
};

/// The word at a place; 0 behind the last one.
fn word(words: &[u32], at: usize) -> u32
    ensures { result ≡ word_at words.now at }
{
    match words.get(at) {
        Some(word) => *word,
        None => 0,
    }
}

/// A number of two words, the lower half first.
fn number(words: &[u32], at: usize) -> u64
    requires { at < 50 }
    ensures { result ≡ number_at words.now at }
{
    u64::from(word(words, at)) + 4_294_967_296 * u64::from(word(words, at + 1))
}

fn flag(words: &[u32], at: usize) -> bool
    ensures { result ≡ flag_at words.now at }
{
    word(words, at) != 0
}

fn low(number: u64) -> u32
    ensures { result ≡ number % 4294967296 }
{
    (number % 4_294_967_296) as u32
}

fn high(number: u64) -> u32
    ensures { result ≡ number / 4294967296 }
{
    (number / 4_294_967_296) as u32
}

fn flag_number(is_set: bool) -> u32
    ensures { result ≡ flag_number is_set }
{
    if is_set { 1 } else { 0 }
}

/// Whether these are a whole state, of this version.
#[tactic(auto, unfolding(crate::specs::State::is_state))]
pub(crate) fn is_state(words: &[u32]) -> bool
    ensures { result ≡ is_state words.now }
{
    words.len() == STATE_WORDS
        && word(words, 0) == MAGIC
        && word(words, 1) == VERSION
        && word(words, 2) == STATE_WORDS as u32
}

/// Whether they are of this guest of a board of so many, which is set up so.
#[tactic(auto, unfolding(crate::specs::State::is_of))]
pub(crate) fn is_of(words: &[u32], guests: u16, guest: u16, setup: &Setup) -> bool
    ensures { result ≡ is_of guests guest setup.now words.now }
{
    word(words, 3) == u32::from(guests)
        && word(words, 4) == u32::from(guest)
        && word(words, 5) == u32::from(setup.config.capacity)
        && word(words, 6) == u32::from(setup.config.max_wr_cnt)
        && word(words, 7) == u32::from(setup.config.max_rd_cnt)
        && word(words, 8) == low(setup.config.memory)
        && word(words, 9) == high(setup.config.memory)
        && word(words, 10) == low(setup.withheld)
        && word(words, 11) == high(setup.withheld)
        && word(words, 12) == flag_number(setup.platform)
}

#[tactic(auto, unfolding(crate::specs::State::registers_in))]
fn registers_of(words: &[u32]) -> Registers
    ensures { result ≡ registers_in words.now }
{
    Registers {
        device_features_sel: word(words, 13),
        driver_features_low: word(words, 14),
        driver_features_high: word(words, 15),
        driver_features_sel: word(words, 16),
        queue_sel: word(words, 17),
        queue_num: word(words, 18),
        desc_low: word(words, 19),
        desc_high: word(words, 20),
        driver_low: word(words, 21),
        driver_high: word(words, 22),
        device_low: word(words, 23),
        device_high: word(words, 24),
        interrupts: Interrupts {
            used_buffer: flag(words, 25),
            configuration: flag(words, 26),
        },
        status: Status {
            acknowledge: flag(words, 27),
            driver: flag(words, 28),
            driver_ok: flag(words, 29),
            features_ok: flag(words, 30),
            needs_reset: flag(words, 31),
            failed: flag(words, 32),
        },
    }
}

#[tactic(auto, unfolding(crate::specs::State::resting_in))]
fn resting_of(words: &[u32]) -> RestingQueue
    ensures { result ≡ resting_in words.now }
{
    let kind = if word(words, 33) == 1 {
        RingKind::Split
    } else {
        RingKind::Packed
    };
    let places = Places {
        descriptors: number(words, 38),
        driver: number(words, 40),
        device: number(words, 42),
        indirect: flag(words, 34),
        event_idx: flag(words, 35),
        in_order: flag(words, 36),
    };
    RestingQueue {
        kind,
        places,
        size: (word(words, 37) % 65_536) as u16,
        last: number(words, 44),
        used: u128::from(number(words, 46))
            + 18_446_744_073_709_551_616 * u128::from(number(words, 48)),
    }
}

/// The device that was saved in these words.
pub(crate) fn device_of(words: &[u32]) -> RestingDevice
    ensures { result ≡ device_in words.now }
{
    let queue = if word(words, 33) == 0 {
        None
    } else {
        Some(resting_of(words))
    };
    RestingDevice {
        registers: registers_of(words),
        queue,
    }
}

/// Which queue is ready: 0 none, 1 a split one, 2 a packed one.
fn ready_number(queue: &Option<RestingQueue>) -> u32
    ensures { result ≡ ready_number queue.now }
{
    match queue {
        None => 0,
        Some(it) => match it.kind {
            RingKind::Split => 1,
            RingKind::Packed => 2,
        },
    }
}

/// Writes what the words are, and of which guest.
fn write_header(out: &mut [u32], guests: u16, guest: u16, s: &Setup)
    requires { length out.old ≡ 13 }
    ensures { out.new ≡ header_words guests guest s.now }
{
    out.copy_from_slice(&[
        MAGIC,
        VERSION,
        STATE_WORDS as u32,
        u32::from(guests),
        u32::from(guest),
        u32::from(s.config.capacity),
        u32::from(s.config.max_wr_cnt),
        u32::from(s.config.max_rd_cnt),
        low(s.config.memory),
        high(s.config.memory),
        low(s.withheld),
        high(s.withheld),
        flag_number(s.platform),
    ]);
}

/// Writes the registers.
fn write_registers(out: &mut [u32], r: &Registers)
    requires { length out.old ≡ 20 }
    ensures { out.new ≡ register_words r.now }
{
    out.copy_from_slice(&[
        r.device_features_sel,
        r.driver_features_low,
        r.driver_features_high,
        r.driver_features_sel,
        r.queue_sel,
        r.queue_num,
        r.desc_low,
        r.desc_high,
        r.driver_low,
        r.driver_high,
        r.device_low,
        r.device_high,
        flag_number(r.interrupts.used_buffer),
        flag_number(r.interrupts.configuration),
        flag_number(r.status.acknowledge),
        flag_number(r.status.driver),
        flag_number(r.status.driver_ok),
        flag_number(r.status.features_ok),
        flag_number(r.status.needs_reset),
        flag_number(r.status.failed),
    ]);
}

/// Writes where the queue rests.
fn write_queue(out: &mut [u32], queue: &Option<RestingQueue>)
    requires { length out.old ≡ 17 }
    ensures { out.new ≡ queue_words queue.now }
{
    let q = queue.unwrap_or(NO_QUEUE);
    let used_low = (q.used % 18_446_744_073_709_551_616) as u64;
    let used_high = (q.used / 18_446_744_073_709_551_616) as u64;
    out.copy_from_slice(&[
        ready_number(queue),
        flag_number(q.places.indirect),
        flag_number(q.places.event_idx),
        flag_number(q.places.in_order),
        u32::from(q.size),
        low(q.places.descriptors),
        high(q.places.descriptors),
        low(q.places.driver),
        high(q.places.driver),
        low(q.places.device),
        high(q.places.device),
        low(q.last),
        high(q.last),
        low(used_low),
        high(used_low),
        low(used_high),
        high(used_high),
    ]);
}

/// Writes the state of a device of this guest.
pub(crate) fn write_state(out: &mut [u32], guests: u16, guest: u16, s: &Setup, it: &RestingDevice)
    requires { length out.old ≡ 50 }
    ensures { out.new ≡ words_of guests guest s.now it.now }
{
    let (header, rest) = out.split_at_mut(13);
    let (registers, queue) = rest.split_at_mut(20);
    write_header(header, guests, guest, s);
    write_registers(registers, &it.registers);
    write_queue(queue, &it.queue);
}
