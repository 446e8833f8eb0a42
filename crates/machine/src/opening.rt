//! Fresh images, and machines over an image that a stop may have left.
ghost use Rattle.std.specs.Prelude.{◌≡◌, ◌↔◌, Ok, Err, IsTrue, IfOk, IfErr, OnOk, OnErr};
ghost use Rattle.std.specs.Prelude.{length, replicate};
ghost use Rattle.disk.specs.Content.{content_of};
ghost use Rattle.disk.specs.OutboxDisk.{OutboxMakes, first_disk, outbox_state};
ghost use Rattle.board.specs.Asking.{board_of, first_asked};
ghost use Rattle.board.specs.Opening.{Begins, Calls, begun};
ghost use Rattle.intent_slots.specs.Layout as layout;
ghost use Rattle.recovery.specs.Format.{Holds, formatted};
ghost use Rattle.machine.specs.Opening.{HasBoardFault, HasImageFault};
ghost use Rattle.machine.specs.Opening.{FindsIn, HasOpeningFault, IsFresh, IsMonitored};
ghost use Rattle.machine.specs.Opening.{IsOpened, IsOpeningFault, configs_of, devices_of};
ghost use Rattle.machine.specs.Opening.{length_of, on_board};
ghost use Rattle.machine.specs.Turn.{fresh_turn};

use crate::fault::MachineFault;
use crate::machine::Machine;
use crate::settings::Setup;
use crate::turn::Turn;
use board::AskingBoard;
use disk::{MemDisk, OutboxDisk, Told};
use intent_slots::Layout;
use recovery::format2;
use rpmb_frame::{BoardConfig, GuestConfig};
use std::alloc::Global;

/// The number of the life: no reply outlives its board, so one number does.
const LIFE: u64 = 1;

/// The memory that a board's ranges speak of, in bytes: the largest. What a guest's device has,
/// which asks for its bytes, stands in its setup.
const BOARD_MEMORY: u64 = 67_108_864;

impl Setup {
    /// How the guest is set up on its board.
    fn on_board(&self) -> GuestConfig
        ensures { result ≡ on_board self.now }
    {
        GuestConfig {
            memory: BOARD_MEMORY,
            ..self.config
        }
    }
}

/// The guests of a board.
fn configs(alloc: Global, setups: &[Setup]) -> Result<Vec<GuestConfig>, MachineFault>
    ensures value { IfOk result (λ guests. guests.items ≡ configs_of setups.now) }
    ensures memory { OnErr result (result ≡ Err MachineFault.NoMemory) }
{
    let mut guests = Vec::new(alloc);
    for setup in setups {
        if guests.push(setup.on_board()).is_err() {
            return Err(MachineFault::NoMemory);
        }
    }
    Ok(guests)
}

/// How the guests' devices are set up.
fn devices(alloc: Global, setups: &[Setup]) -> Result<Vec<GuestConfig>, MachineFault>
    ensures value { IfOk result (λ devices. devices.items ≡ devices_of setups.now) }
    ensures memory { OnErr result (result ≡ Err MachineFault.NoMemory) }
{
    let mut devices = Vec::new(alloc);
    for setup in setups {
        if devices.push(setup.config).is_err() {
            return Err(MachineFault::NoMemory);
        }
    }
    Ok(devices)
}

/// The board of these guests.
fn board_of(alloc: Global, setups: &[Setup]) -> Result<BoardConfig, MachineFault>
    ensures value { IfOk result (λ board. board ≡ configs_of setups.now) }
    ensures monitored { OnOk result (IsMonitored setups.now) }
    ensures cause { IfErr result (λ f. HasBoardFault setups.now f) }
    ensures bad { result ≡ Err MachineFault.BadBoard → ¬ IsMonitored setups.now }
    ensures length { ¬ (result ≡ Err MachineFault.BadLength) }
{
    if !setups.iter().all(|setup| setup.has_queue_in_range()) {
        return Err(MachineFault::BadBoard);
    }
    let guests = configs(alloc, setups)?;
    match BoardConfig::new(guests) {
        Ok(board) => Ok(board),
        Err(_) => Err(MachineFault::BadBoard),
    }
}

/// The length in bytes of the image of these guests. `BadBoard` where they are none or more than
/// 64, or one is out of its range, and `NoMemory`.
pub fn image_length(alloc: Global, setups: &[Setup]) -> Result<u64, MachineFault>
    ensures value { IfOk result (λ bytes. bytes ≡ length_of setups.now) }
    ensures monitored { OnOk result (IsMonitored setups.now) }
    ensures cause { IfErr result (λ f. HasBoardFault setups.now f) }
    ensures bad { result ≡ Err MachineFault.BadBoard → ¬ IsMonitored setups.now }
{
    Ok(Layout::of(&board_of(alloc, setups)?).length())
}

/// Makes a fresh image of version 2 of these guests, of all of `image`: each partition is empty,
/// without a key. `BadBoard`, `BadLength` where it hasn't just the image's length, or `NoMemory`;
/// then it stays.
pub fn format_image(alloc: Global, setups: &[Setup], image: &mut [u8]) -> Result<(), MachineFault>
    ensures fresh { OnOk result (IsFresh setups.now image.new) }
    ensures monitored { OnOk result (IsMonitored setups.now) }
    ensures unchanged { OnErr result (image.new ≡ image.old) }
    ensures cause { IfErr result (λ f. HasImageFault setups.now (length image.old) f) }
    ensures bad { result ≡ Err MachineFault.BadBoard → ¬ IsMonitored setups.now }
    ensures length { result ≡ Err MachineFault.BadLength
        → ¬ (length image.old ≡ length_of setups.now) }
{
    let board = board_of(alloc, setups)?;
    if image.len() as u64 != Layout::of(&board).length() {
        return Err(MachineFault::BadLength);
    }
    format_all(alloc, &board, image)
}

/// Puts a fresh image into bytes of its length.
fn format_all(alloc: Global, board: &BoardConfig, image: &mut [u8]) -> Result<(), MachineFault>
    requires { length image.old ≡ layout.image_length (layout.capacities_of board.now) }
    ensures fresh { OnOk result (Holds (formatted 2 (layout.capacities_of board.now))
        (layout.image_length (layout.capacities_of board.now)) (content_of image.new)) }
    ensures count { length image.new ≡ length image.old }
    ensures unchanged { OnErr result (image.new ≡ image.old) }
    ensures memory { OnErr result (result ≡ Err MachineFault.NoMemory) }
{
    let Ok(bytes) = vec![in alloc; 0u8; image.len()] else {
        return Err(MachineFault::NoMemory);
    };
    let mut disk = MemDisk::new(bytes);
    match format2(&mut disk, board) {
        Ok(()) => {}
        // No call of a disk in memory fails.
        Err(_) => unreachable!(),
    }
    image.copy_from_slice(disk.content());
    Ok(())
}

/// The disk over a copy of the image's bytes.
fn disk_over(alloc: Global, image: &[u8]) -> Result<OutboxDisk, MachineFault>
    ensures value { IfOk result (λ disk. disk ≡ first_disk image.now) }
    ensures memory { OnErr result (result ≡ Err MachineFault.NoMemory) }
{
    let Ok(bytes) = image.to_vec(alloc) else {
        return Err(MachineFault::NoMemory);
    };
    match OutboxDisk::new(alloc, bytes) {
        Ok(disk) => Ok(disk),
        Err(_) => Err(MachineFault::NoMemory),
    }
}

/// The board over an image, and nothing else.
fn board_over(
    alloc: Global,
    config: &BoardConfig,
    devices: &[GuestConfig],
    image: &[u8],
) -> Result<AskingBoard<OutboxDisk>, MachineFault>
    requires { length devices.now ≡ length config.now }
    ensures begins { IfOk result (λ b. Begins outbox_state 1 config.now (begun config.now b.rest)) }
    ensures fresh { IfOk result (λ b. b.devices ≡ first_asked 0 devices.now) }
    ensures calls { IfOk result (λ b. Calls OutboxMakes (first_disk image.now) (Ok (board_of b))) }
    ensures found { IfOk result (λ b. FindsIn config.now image.now (begun config.now b.rest)) }
    ensures cause { IfErr result (IsOpeningFault config.now image.now) }
    ensures bad { ¬ (result ≡ Err MachineFault.BadBoard) }
    ensures length { ¬ (result ≡ Err MachineFault.BadLength) }
{
    let disk = disk_over(alloc, image)?;
    match AskingBoard::open(alloc, disk, LIFE, config, devices) {
        Ok(board) => Ok(board),
        Err((_, fault)) => Err(MachineFault::of_opening(fault)),
    }
}

/// A turn for each guest.
fn fresh_turns(alloc: Global, count: usize) -> Result<Vec<Turn>, MachineFault>
    ensures turns { IfOk result (λ turns. turns.items ≡ replicate count fresh_turn) }
    ensures memory { OnErr result (result ≡ Err MachineFault.NoMemory) }
{
    let mut turns = Vec::new(alloc);
    for place in 0..count {
        let _ = place; // for the checker: its proof counts by this name
        if turns.push(Turn::fresh(alloc)).is_err() {
            return Err(MachineFault::NoMemory);
        }
    }
    Ok(turns)
}

/// What a machine keeps beside its board.
fn beside(alloc: Global, setups: &[Setup]) -> Result<(Vec<Setup>, Vec<Turn>), MachineFault>
    ensures setups { IfOk result (λ kept. kept.0.items ≡ setups.now) }
    ensures turns { IfOk result (λ kept. kept.1.items ≡ replicate (length setups.now) fresh_turn) }
    ensures memory { OnErr result (result ≡ Err MachineFault.NoMemory) }
{
    let Ok(kept) = setups.to_vec(alloc) else {
        return Err(MachineFault::NoMemory);
    };
    Ok((kept, fresh_turns(alloc, setups.len())?))
}

impl Machine {
    /// Opens the image of these guests, which the monitor synced and then read whole. The bytes
    /// are copied, and freed once it is open.
    ///
    /// `BadBoard` where the guests are none or more than 64, or one is out of its range;
    /// `BadLength` where there are more or fewer bytes than their image has; by the header
    /// `NotFormatted` where they are no image, and `OtherConfig` where they are another board's;
    /// `NotFormatted` where a partition isn't well formed; and `NoMemory`.
    pub fn open(alloc: Global, setups: &[Setup], image: &[u8]) -> Result<Machine, MachineFault>
        ensures opened { IfOk result (λ m. IsOpened setups.now image.now m) }
        ensures bad { result ≡ Err MachineFault.BadBoard → ¬ IsMonitored setups.now }
        ensures length { result ≡ Err MachineFault.BadLength
            → ¬ (length image.now ≡ length_of setups.now) }
        ensures cause { IfErr result (λ f. HasOpeningFault setups.now image.now f) }
    {
        let config = board_of(alloc, setups)?;
        if image.len() as u64 != Layout::of(&config).length() {
            return Err(MachineFault::BadLength);
        }
        let (kept, turns) = beside(alloc, setups)?;
        let devices = devices(alloc, setups)?;
        let mut board = board_over(alloc, &config, &devices, image)?;
        board.tell(Told::Opened);
        Ok(Machine::over(board, kept, turns))
    }
}
