//! What an upgrade makes of a world's disk, whole or stopped within one of its calls.
ghost use Rattle.std.specs.Prelude.{◌≡◌};
ghost use Rattle.world.specs.World.{StopsUpgrade, UpgradesDisk, UpgradesTo, is_met};

use crate::event::Refusal;
use disk::{CutDisk, Disk, Filler};
use recovery::upgrade;
use rpmb_frame::BoardConfig;

/// An upgrade, as far as it comes, and why it is refused.
fn upgrade_whole(disk: &mut CutDisk, board: &BoardConfig) -> Option<Refusal>
    ensures { UpgradesDisk board.now disk.old result disk.new }
{
    match upgrade(disk, board) {
        Ok(_) => None,
        Err(fault) => Some(Refusal::Upgrade(fault)),
    }
}

/// Whether an upgrade made its k-th call, which was to fail, by how many calls had failed before it
/// and after it. Where no further failure can be counted its first call is its last.
fn is_met(k: u32, before: u64, after: u64) -> bool
    ensures { result ≡ is_met k before after }
{
    if before == u64::MAX {
        k == 1
    } else {
        before < after
    }
}

/// An upgrade within whose k-th call of the disk the host stops, and then nobody is told anything;
/// whole where it makes no such call.
fn upgrade_until(
    disk: &mut CutDisk,
    board: &BoardConfig,
    k: u32,
    filler: &Filler,
) -> Option<Refusal>
    ensures { StopsUpgrade board.now k filler.now disk.old result disk.new }
{
    let failures = disk.failures();
    disk.fail(u64::from(k));
    let refused = upgrade_whole(disk, board);
    if is_met(k, failures, disk.failures()) {
        disk.cut(filler);
        None
    } else {
        disk.fail(0);
        refused
    }
}

/// Upgrades the disk, whole or up to a stop, and answers why that is refused.
pub(crate) fn upgrade_disk(
    disk: &mut CutDisk,
    board: &BoardConfig,
    stop: &Option<(u32, Filler)>,
) -> Option<Refusal>
    ensures { UpgradesTo board.now stop.now disk.old result disk.new }
{
    match stop {
        None => upgrade_whole(disk, board),
        Some((k, filler)) => upgrade_until(disk, board, *k, filler),
    }
}
