//! A board for a virtual machine monitor, as a static library: `embedding/rpmb_host.h` has its
//! calls, and what their callers owe.
#![tactic(auto)]

ghost use Rattle.std.specs.Prelude.{◌≡◌, ◌<◌, IfOk, IfErr, None, true, is_some, length, map};
ghost use Rattle.machine.specs.Opening.{HasOpeningFault, IsFresh, IsOpened};
ghost use Rattle.rpmb_host.specs.Calls.{Between, Fails, Gives, GivesNone, Goes, Holds, Interrupts};
ghost use Rattle.rpmb_host.specs.Calls.{Kicks, Reads, Refuses, RefusesImage, RefusesOpening};
ghost use Rattle.rpmb_host.specs.Calls.{Serves};
ghost use Rattle.rpmb_host.specs.Calls.{IsUp, Offers, Selects, Spans, Starts, Stops};
ghost use Rattle.rpmb_host.specs.Calls.{Syncs, Takes, Waits, Writes};
ghost use Rattle.rpmb_host.specs.Guests.{areas_of, setup_of};
ghost use Rattle.rpmb_host.specs.States.{GoesTo, Loads, Saves, StandsAt, Stays, Unloaded, Unsaved};

mod guests;
mod handle;
mod numbers;
mod queue;
mod served;

pub use guests::RpmbGuest;
use guests::setups_of;
pub use handle::Handle;
use handle::{put, take};
use machine::{Machine, MachineFault, format_image, image_length};
use numbers::{fault_number, kick_number};
pub use queue::RpmbQueue;
pub use served::RpmbNext;
use std::alloc::Global;

/// The length in bytes of the image of these guests, or 0 where they are no board, or memory is
/// refused.
#[unsafe(no_mangle)]
pub extern "C" fn rpmb_image_length(alloc: Global, guests: &[RpmbGuest]) -> u64
    ensures { 0 < result → Spans (map setup_of guests.now) result }
{
    match setups_of(alloc, guests) {
        Ok(setups) => match image_length(alloc, &setups) {
            Ok(length) => length,
            Err(_) => 0,
        },
        Err(_) => 0,
    }
}

/// Makes a fresh image of all these bytes.
#[unsafe(no_mangle)]
pub extern "C" fn rpmb_format(alloc: Global, guests: &[RpmbGuest], image: &mut [u8]) -> u32
    ensures fresh { result ≡ 0 → IsFresh (map setup_of guests.now) image.new }
    ensures unchanged { 0 < result → image.new ≡ image.old }
    ensures told { 0 < result
        → RefusesImage (map setup_of guests.now) (length image.old) result }
{
    match setups_of(alloc, guests) {
        Ok(setups) => match format_image(alloc, &setups, image) {
            Ok(()) => 0,
            Err(fault) => fault_number(fault),
        },
        Err(fault) => fault_number(fault),
    }
}

/// Opens an image over these guests, on the heap.
fn opened(alloc: Global, guests: &[RpmbGuest], image: &[u8]) -> Result<Box<Machine>, MachineFault>
    ensures opened { IfOk result
        (λ machine. IsOpened (map setup_of guests.now) image.now machine.value) }
    ensures cause { IfErr result
        (λ fault. HasOpeningFault (map setup_of guests.now) image.now fault) }
{
    let setups = setups_of(alloc, guests)?;
    let machine = Machine::open(alloc, &setups, image)?;
    match Box::new(alloc, machine) {
        Ok(machine) => Ok(machine),
        Err(_) => Err(MachineFault::NoMemory),
    }
}

/// Opens an image that a stop may have left. 0 just where the handle holds the machine then; else
/// it holds none.
#[unsafe(no_mangle)]
pub extern "C" fn rpmb_open(
    alloc: Global,
    guests: &[RpmbGuest],
    image: &[u8],
    host: &mut Handle,
) -> u32
    requires { host.old.value ≡ None }
    ensures opened { result ≡ 0
        → Holds host.new.value (IsOpened (map setup_of guests.now) image.now) }
    ensures refused { 0 < result → host.new.value ≡ None }
    ensures told { 0 < result → RefusesOpening (map setup_of guests.now) image.now result }
{
    match opened(alloc, guests, image) {
        Ok(machine) => {
            put(host, machine);
            0
        }
        Err(fault) => fault_number(fault),
    }
}

/// Lets the machine go; the handle holds none then.
#[unsafe(no_mangle)]
pub extern "C" fn rpmb_close(alloc: Global, host: &mut Handle)
    requires { is_some host.old.value ≡ true }
    ensures { host.new.value ≡ None }
{
    let _machine = take(alloc, host);
}

/// What a guest reads from its device.
#[unsafe(no_mangle)]
pub extern "C" fn rpmb_read(
    alloc: Global,
    host: &mut Handle,
    guest: u16,
    offset: u32,
    width: u8,
) -> u32
    requires { is_some host.old.value ≡ true }
    ensures value { Holds host.old.value (Reads guest offset width result) }
    ensures unchanged { host.new.value ≡ host.old.value }
{
    let machine = take(alloc, host);
    let value = machine.read(guest, offset, width);
    put(host, machine);
    value
}

/// What a guest does by writing to its device, and what that asks for: `enum rpmb_kick`.
#[unsafe(no_mangle)]
pub extern "C" fn rpmb_write(
    alloc: Global,
    host: &mut Handle,
    guest: u16,
    offset: u32,
    width: u8,
    value: u32,
) -> u32
    requires { is_some host.old.value ≡ true }
    ensures kick { Holds host.old.value (Kicks guest offset width value result) }
    ensures state { Between host.old.value host.new.value (Writes guest offset width value) }
{
    let mut machine = take(alloc, host);
    let kick = machine.write(guest, offset, width, value);
    put(host, machine);
    kick_number(kick)
}

/// The features that a guest's device offers.
#[unsafe(no_mangle)]
pub extern "C" fn rpmb_features(alloc: Global, host: &mut Handle, guest: u16) -> u64
    requires { is_some host.old.value ≡ true }
    ensures value { Holds host.old.value (Offers guest result) }
    ensures state { Between host.old.value host.new.value (Selects guest) }
{
    let mut machine = take(alloc, host);
    let features = machine.features(guest);
    put(host, machine);
    features
}

/// Brings a guest's device into service with these features and this queue: 1 where it is, else 0.
#[unsafe(no_mangle)]
pub extern "C" fn rpmb_start(
    alloc: Global,
    host: &mut Handle,
    guest: u16,
    features: u64,
    queue: &RpmbQueue,
) -> u32
    requires { is_some host.old.value ≡ true }
    ensures up { Holds host.old.value (IsUp guest features (areas_of queue.now) result) }
    ensures state { Between host.old.value host.new.value
        (Starts guest features (areas_of queue.now)) }
{
    let mut machine = take(alloc, host);
    let is_up = machine.start(guest, features, queue.areas());
    put(host, machine);
    u32::from(is_up)
}

/// Resets a guest's device.
#[unsafe(no_mangle)]
pub extern "C" fn rpmb_stop(alloc: Global, host: &mut Handle, guest: u16)
    requires { is_some host.old.value ≡ true }
    ensures state { Between host.old.value host.new.value (Stops guest) }
{
    let mut machine = take(alloc, host);
    machine.stop(guest);
    put(host, machine);
}

/// Goes on with what a guest offered, and says what that needs.
#[unsafe(no_mangle)]
pub extern "C" fn rpmb_serve(
    alloc: Global,
    host: &mut Handle,
    guest: u16,
    done: u32,
    bytes: &mut [u8],
    next: &mut RpmbNext,
)
    requires { is_some host.old.value ≡ true }
    ensures serves { Between host.old.value host.new.value
        (Serves guest done bytes.old bytes.new next.new) }
{
    let mut machine = take(alloc, host);
    let served = machine.serve(guest, done != 0, bytes);
    put(host, machine);
    *next = RpmbNext::of(served);
}

/// Takes the disk's work further: 1 where a sync is awaited then, else 0.
#[unsafe(no_mangle)]
pub extern "C" fn rpmb_go_on(alloc: Global, host: &mut Handle) -> u32
    requires { is_some host.old.value ≡ true }
    ensures goes { Between host.old.value host.new.value (Goes result) }
{
    let mut machine = take(alloc, host);
    let is_awaited = machine.go_on();
    put(host, machine);
    u32::from(is_awaited)
}

/// Takes the oldest write out of the outbox: its length, or 0 where there is none.
#[unsafe(no_mangle)]
pub extern "C" fn rpmb_outbox(
    alloc: Global,
    host: &mut Handle,
    at: &mut u64,
    bytes: &mut [u8],
) -> usize
    requires { is_some host.old.value ≡ true }
    ensures open { is_some host.new.value ≡ true }
    ensures gives { 0 < result
        → Holds host.old.value (Gives (length bytes.old) at.new result bytes.new) }
    ensures taken { 0 < result → Between host.old.value host.new.value Takes }
    ensures nothing { result ≡ 0 → Between host.old.value host.new.value
        (GivesNone at.old at.new bytes.old bytes.new) }
{
    let mut machine = take(alloc, host);
    let taken = machine.outbox(bytes);
    put(host, machine);
    match taken {
        Some((offset, count)) => {
            *at = offset;
            count
        }
        None => 0,
    }
}

/// What came of the writes that were taken, and of the sync after them.
#[unsafe(no_mangle)]
pub extern "C" fn rpmb_completed(alloc: Global, host: &mut Handle, succeeded: u32) -> u32
    requires { is_some host.old.value ≡ true }
    ensures failed { succeeded ≡ 0
        → (result ≡ 0) × Between host.old.value host.new.value Fails }
    ensures synced { 0 < succeeded → Between host.old.value host.new.value (Syncs result) }
    ensures early { 0 < succeeded → Between host.old.value host.new.value (Refuses result) }
{
    let mut machine = take(alloc, host);
    let told = machine.completed(succeeded != 0);
    put(host, machine);
    match told {
        Ok(()) => 0,
        Err(fault) => fault_number(fault),
    }
}

/// Whether the guest waits for an answer: 1 where it does, else 0.
#[unsafe(no_mangle)]
pub extern "C" fn rpmb_waiting(alloc: Global, host: &mut Handle, guest: u16) -> u32
    requires { is_some host.old.value ≡ true }
    ensures waits { Holds host.old.value (Waits guest result) }
    ensures unchanged { host.new.value ≡ host.old.value }
{
    let machine = take(alloc, host);
    let waits = machine.is_waiting(guest);
    put(host, machine);
    u32::from(waits)
}

/// The guest's InterruptStatus.
#[unsafe(no_mangle)]
pub extern "C" fn rpmb_interrupt(alloc: Global, host: &mut Handle, guest: u16) -> u32
    requires { is_some host.old.value ≡ true }
    ensures line { Holds host.old.value (Interrupts guest result) }
    ensures unchanged { host.new.value ≡ host.old.value }
{
    let machine = take(alloc, host);
    let status = machine.interrupt(guest);
    put(host, machine);
    status
}

/// Saves the state of a guest's device, which is at rest.
#[unsafe(no_mangle)]
pub extern "C" fn rpmb_save(alloc: Global, host: &mut Handle, guest: u16, state: &mut [u32]) -> u32
    requires { is_some host.old.value ≡ true }
    ensures saved { result ≡ 0 → Holds host.old.value (Saves guest state.new) }
    ensures refused { 0 < result
        → Holds host.old.value (Unsaved guest (length state.old) result) }
    ensures unchanged { host.new.value ≡ host.old.value }
    ensures untouched { 0 < result → state.new ≡ state.old }
{
    let machine = take(alloc, host);
    let saved = machine.save(guest, state);
    put(host, machine);
    match saved {
        Ok(()) => 0,
        Err(fault) => fault_number(fault),
    }
}

/// A guest's device goes on as the one that was saved.
#[unsafe(no_mangle)]
pub extern "C" fn rpmb_load(alloc: Global, host: &mut Handle, guest: u16, state: &[u32]) -> u32
    requires { is_some host.old.value ≡ true }
    ensures loads { result ≡ 0 → Between host.old.value host.new.value (Loads guest state.now) }
    ensures refused { 0 < result → Holds host.old.value (Unloaded guest result state.now) }
    ensures unchanged { 0 < result → host.new.value ≡ host.old.value }
{
    let mut machine = take(alloc, host);
    let loaded = machine.load(guest, state);
    put(host, machine);
    match loaded {
        Ok(()) => 0,
        Err(fault) => fault_number(fault),
    }
}

/// The place at which a guest's queue rests; all ones where it has none now.
#[unsafe(no_mangle)]
pub extern "C" fn rpmb_place(alloc: Global, host: &mut Handle, guest: u16) -> u32
    requires { is_some host.old.value ≡ true }
    ensures place { Holds host.old.value (StandsAt guest result) }
    ensures unchanged { host.new.value ≡ host.old.value }
{
    let machine = take(alloc, host);
    let place = machine.place(guest);
    put(host, machine);
    match place {
        Some(place) => u32::from(place),
        None => u32::MAX,
    }
}

/// A guest's queue, which is at rest, goes on at another place: 1 where it does, else 0.
#[unsafe(no_mangle)]
pub extern "C" fn rpmb_move(alloc: Global, host: &mut Handle, guest: u16, place: u16) -> u32
    requires { is_some host.old.value ≡ true }
    ensures moves { 0 < result → Between host.old.value host.new.value (GoesTo guest place) }
    ensures stays { result ≡ 0 → Holds host.old.value (Stays guest place) }
    ensures unchanged { result ≡ 0 → host.new.value ≡ host.old.value }
{
    let mut machine = take(alloc, host);
    let moves = machine.move_to(guest, place);
    put(host, machine);
    if moves { 1 } else { 0 }
}
