//! An image on a disk, the store over it, and what a test does with both.
ghost use Rattle.std.specs.Prelude.{◌<◌};

use crate::tests::boards::board;
use crate::tests::check_row;
use crate::tests::disks::{Left, filler, write};
use crate::tests::intents::write_of;
use disk::{CutDisk, Disk, Filler};
use flusher::{Call, Made, Store};
use intent_slots::{Intent, Layout};
use recovery::{OpenFault, Upgraded, format, format2, open, upgrade};
use rpmb_core::Partition;
use rpmb_frame::BoardConfig;
use std::alloc::Global;
use std::test::Fail;

pub const KEY: [u8; 32] = [0x4b; 32];

/// Whether a guest has the key, its counter, and the first bytes of the blocks 0, 1, 2, 7 and 8.
pub type Found = (bool, u32, [u8; 5]);

/// An image on a disk, or a store over it. The methods promise nothing, so that what stands above
/// them is proved without a store's contracts.
pub trait Image: Drop {
    /// Opens the image: `None` where no disk is there.
    fn open(&mut self, alloc: Global, board: &BoardConfig) -> Option<Result<(), OpenFault>>;

    /// Leaves the disk alone.
    fn shut(&mut self);

    /// Whether these bytes could be written to the disk.
    fn put(&mut self, at: u64, bytes: &[u8]) -> bool;

    fn upgrade(&mut self, board: &BoardConfig) -> Option<Result<Upgraded, OpenFault>>;

    /// Whether the store took the intent.
    fn give(&mut self, intent: Intent) -> bool;

    fn is_free(&self) -> bool;

    fn next(&self, guest: u16) -> u64;

    fn next_call(&self) -> Option<Call>;

    /// Whether the store made a call, and the mark of guest 0 then; `None` where it failed.
    fn advance(&mut self) -> Option<(bool, u64)>;

    fn guests(&self) -> usize;

    /// What the opening found of a guest.
    fn found(&self, guest: usize) -> Option<Found>;
}

/// What a stop does to an image.
pub trait Stops: Drop {
    /// The call of the disk of this number from now on fails; with 0 none.
    fn fail(&mut self, call: u64);

    fn stop(&mut self, filler: &Filler);

    /// Whether the disk has this length then.
    fn resize(&mut self, alloc: Global, length: usize) -> bool;
}

#[derive(Drop)]
pub struct Held<D: Disk> {
    pub disk: Option<D>,
    store: Option<Store<D>>,
    partitions: Vec<Partition>,
}

fn first_of(partition: &Partition, address: u16) -> u8
    requires { address < 512 }
{
    partition.block(address)[0]
}

fn found_of(partition: &Partition) -> Found {
    let firsts = [
        first_of(partition, 0),
        first_of(partition, 1),
        first_of(partition, 2),
        first_of(partition, 7),
        first_of(partition, 8),
    ];
    (partition.key() == Some(KEY), partition.counter(), firsts)
}

fn take_in<D: Disk>(store: &mut Store<D>, intent: Intent) -> bool {
    if !store.takes(&intent) {
        return false;
    }
    store.give(intent);
    true
}

fn make_call<D: Disk>(store: &mut Store<D>) -> Option<(bool, u64)> {
    match store.advance() {
        Ok(made) => Some((!matches!(made, Made::Idle), store.marks().get(0))),
        Err(_) => None,
    }
}

impl<D: Disk> Image for Held<D> {
    fn open(&mut self, alloc: Global, board: &BoardConfig) -> Option<Result<(), OpenFault>> {
        match open(alloc, self.disk.take()?, board) {
            Ok((store, partitions)) => {
                self.store = Some(store);
                self.partitions = partitions;
                Some(Ok(()))
            }
            Err((disk, fault)) => {
                self.disk = Some(disk);
                Some(Err(fault))
            }
        }
    }

    fn shut(&mut self) {
        if let Some(store) = self.store.take() {
            self.disk = Some(store.into_disk());
        }
    }

    fn put(&mut self, at: u64, bytes: &[u8]) -> bool {
        match &mut self.disk {
            Some(disk) => write(disk, at, bytes).is_ok(),
            None => false,
        }
    }

    fn upgrade(&mut self, board: &BoardConfig) -> Option<Result<Upgraded, OpenFault>> {
        match &mut self.disk {
            Some(disk) => Some(upgrade(disk, board)),
            None => None,
        }
    }

    fn give(&mut self, intent: Intent) -> bool {
        match &mut self.store {
            Some(store) => take_in(store, intent),
            None => false,
        }
    }

    fn is_free(&self) -> bool {
        match &self.store {
            Some(store) => store.is_free(0),
            None => false,
        }
    }

    fn next(&self, guest: u16) -> u64 {
        match &self.store {
            Some(store) => store.next(guest),
            None => 0,
        }
    }

    fn next_call(&self) -> Option<Call> {
        match &self.store {
            Some(store) => Some(store.next_call()),
            None => None,
        }
    }

    fn advance(&mut self) -> Option<(bool, u64)> {
        match &mut self.store {
            Some(store) => make_call(store),
            None => None,
        }
    }

    fn guests(&self) -> usize {
        self.partitions.len()
    }

    fn found(&self, guest: usize) -> Option<Found> {
        match self.partitions.get(guest) {
            Some(partition) => Some(found_of(partition)),
            None => None,
        }
    }
}

fn resized(alloc: Global, disk: &CutDisk, length: usize) -> Option<CutDisk> {
    let Ok(mut content) = disk.content().to_vec(alloc) else {
        return None;
    };
    if content.resize(length, 0).is_err() {
        return None;
    }
    CutDisk::new(alloc, content).ok()
}

impl Stops for Held<CutDisk> {
    fn fail(&mut self, call: u64) {
        if let Some(store) = &mut self.store {
            store.fail(call);
        }
        if let Some(disk) = &mut self.disk {
            disk.fail(call);
        }
    }

    fn stop(&mut self, filler: &Filler) {
        if let Some(disk) = &mut self.disk {
            disk.cut(filler);
        }
    }

    fn resize(&mut self, alloc: Global, length: usize) -> bool {
        let Some(disk) = &self.disk else {
            return false;
        };
        match resized(alloc, disk, length) {
            Some(resized) => {
                self.disk = Some(resized);
                true
            }
            None => false,
        }
    }
}

/// An image, and its board.
#[derive(Drop)]
pub struct Bench<I: Image> {
    pub alloc: Global,
    board: BoardConfig,
    pub image: I,
}

/// The write of one block, each byte of which is this counter, at the address below it.
pub fn write_counting(alloc: Global, counter: u8) -> Option<Intent> {
    let address = u16::from(counter).saturating_sub(1);
    write_of(alloc, (0, KEY), u32::from(counter), (address, counter), 1)
}

impl<I: Image> Bench<I> {
    /// Why the image isn't opened.
    pub fn fault(&mut self) -> Option<OpenFault> {
        match self.image.open(self.alloc, &self.board) {
            Some(Err(fault)) => Some(fault),
            _ => None,
        }
    }

    pub fn opens(&mut self) -> bool {
        self.image.open(self.alloc, &self.board) == Some(Ok(()))
    }

    /// Whether an opening finds these partitions; the disk is left alone then.
    pub fn finds(&mut self, wanted: &[Found]) -> bool {
        let mut is_found = self.opens() && self.image.guests() == wanted.len();
        for (guest, found) in wanted.iter().enumerate() {
            is_found = is_found && self.image.found(guest) == Some(*found);
        }
        self.image.shut();
        is_found
    }

    pub fn upgrades(&mut self, answer: Result<Upgraded, OpenFault>) -> bool {
        self.image.upgrade(&self.board) == Some(answer)
    }

    pub fn is_upgraded(&mut self) -> bool {
        matches!(self.image.upgrade(&self.board), Some(Ok(_)))
    }

    pub fn gives_key(&mut self, guest: u16) -> bool {
        self.image.give(Intent::program_key(guest, KEY))
    }

    /// Whether the store takes the write of one block that leaves this counter.
    pub fn gives(&mut self, counter: u8) -> bool {
        match write_counting(self.alloc, counter) {
            Some(write) => self.image.give(write),
            None => false,
        }
    }

    /// Makes so many calls, which may fail.
    pub fn advance(&mut self, times: usize) {
        for _ in 0..times {
            self.image.advance();
        }
    }
}

impl<I: Image + Stops> Bench<I> {
    /// A stop leaves the disk alone. Whether there was memory for what it leaves.
    pub fn stops(&mut self, left: &Left) -> bool {
        self.image.shut();
        match filler(self.alloc, left) {
            Some(filler) => {
                self.image.stop(&filler);
                true
            }
            None => false,
        }
    }
}

/// As many other bytes as the image has.
pub fn other_bytes(alloc: Global, board: &BoardConfig) -> Option<Vec<u8>> {
    let length = Layout::of(board).length();
    vec![in alloc; 0xee; length as usize].ok()
}

/// Formats a disk of the image's length, with one slot a partition or with two.
pub fn formats(disk: &mut impl Disk, board: &BoardConfig, two_slots: bool) -> bool {
    if disk.len() != Layout::of(board).length() {
        false
    } else if two_slots {
        format2(disk, board).is_ok()
    } else {
        format(disk, board).is_ok()
    }
}

/// An image on this disk.
pub fn bench_of<D: Disk>(alloc: Global, board: BoardConfig, disk: D) -> Bench<Held<D>> {
    let image = Held {
        disk: Some(disk),
        store: None,
        partitions: Vec::new(alloc),
    };
    Bench {
        alloc,
        board,
        image,
    }
}

/// A formatted disk, on which other bytes stood.
fn fresh_disk(alloc: Global, board: &BoardConfig, two_slots: bool) -> Option<CutDisk> {
    let Some(bytes) = other_bytes(alloc, board) else {
        return None;
    };
    let Ok(mut disk) = CutDisk::new(alloc, bytes) else {
        return None;
    };
    if formats(&mut disk, board, two_slots) {
        Some(disk)
    } else {
        None
    }
}

fn fresh(alloc: Global, fresh: Fresh) -> Option<Bench<Held<CutDisk>>> {
    let Some(board) = board(alloc, fresh.0) else {
        return None;
    };
    match fresh_disk(alloc, &board, fresh.1) {
        Some(disk) => Some(bench_of(alloc, board, disk)),
        None => None,
    }
}

/// The capacities of an image's guests, and whether it has two slots a partition.
pub type Fresh<'a> = (&'a [u8], bool);

/// One guest, with one slot or with two.
pub const ONE: Fresh<'static> = (&[1], false);

pub const ONE_OF_TWO_SLOTS: Fresh<'static> = (&[1], true);

/// A row of a table by which an image goes.
pub trait Row<I: Image> {
    fn goes(&self, bench: &mut Bench<I>) -> bool;
}

// Here alone a store is held, since its drop is dear to prove.
fn goes_fresh<R: Row<Held<CutDisk>>>(alloc: Global, image: Fresh<'_>, row: &R) -> bool {
    match fresh(alloc, image) {
        Some(mut bench) => row.goes(&mut bench),
        None => false,
    }
}

/// Tries each row of a table, by a fresh image.
pub fn try_rows<R: Row<Held<CutDisk>>>(
    alloc: Global,
    image: Fresh<'_>,
    rows: &[R],
) -> Result<(), Fail> {
    for (place, row) in rows.iter().enumerate() {
        check_row(goes_fresh(alloc, image, row), place)?;
    }
    Ok(())
}
