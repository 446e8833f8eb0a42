//! The front of an image: its header, its length and its version.
ghost use Rattle.std.specs.Prelude.{◌≡◌, ◌≤◌, ℕ, true, false, length, is_ok, not, IfOk, OnOk, Err};
ghost use Rattle.disk.specs.Disk.{Sync};
ghost use Rattle.intent_slots.specs.Layout.{image_length};
ghost use Rattle.intent_slots.specs.Recovered.{is_paired};
ghost use Rattle.recovery.specs.Front.{SyncsAndReads, TellsVersion};
ghost use Rattle.recovery.specs.Reading.{Opens, Passes, Tells, TellsHeader, is_disk_fault};

use crate::fault::OpenFault;
use crate::reading::read;
use disk::{Disk, DiskFault};
use intent_slots::{HEADER_LENGTH, Layout, VERSION_OFFSET};

/// Whether the front of the image is the header of this layout.
fn read_header<D: Disk>(disk: &mut D, layout: &Layout) -> Result<(), OpenFault>
    requires { length layout.now ≤ 64 }
    ensures passes { Passes D.state D.makes disk.old disk.new (is_disk_fault result) }
    ensures memory { ¬ result ≡ Err OpenFault.NoMemory }
    ensures tells { Tells (D.state disk.old)
        (λ c. TellsHeader layout.now (D.state disk.old).len c result) }
{
    if disk.len() < HEADER_LENGTH {
        return Err(OpenFault::NotFormatted);
    }
    let mut front = [0; 74];
    read(disk, 0, &mut front)?;
    Ok(layout.check_header(&front)?)
}

/// Whether the image is of version 2.
fn read_version<D: Disk>(disk: &mut D) -> Result<bool, DiskFault>
    requires { 1024 ≤ (D.state disk.old).len }
    ensures passes { Passes D.state D.makes disk.old disk.new (not (is_ok result)) }
    ensures tells { IfOk result (λ paired. Tells (D.state disk.old) (λ c. paired ≡ is_paired c)) }
{
    let mut version = [0; 1];
    read(disk, VERSION_OFFSET, &mut version)?;
    Ok(version[0] == 2)
}

/// Makes the sync before which nothing of an image is read: until then a stop may take away what
/// reads give.
fn sync_first<D: Disk>(disk: &mut D) -> Result<(), DiskFault>
    ensures call { D.makes disk.old (Sync (is_ok result)) disk.new }
{
    disk.sync()
}

/// Whether the disk is shorter or longer than the image of this layout.
fn has_other_length<D: Disk>(disk: &D, layout: &Layout) -> bool
    requires { length layout.now ≤ 64 }
    ensures other { result ≡ true → ¬ (D.state disk.now).len ≡ image_length layout.now }
    ensures same { result ≡ false → (D.state disk.now).len ≡ image_length layout.now }
{
    disk.len() != layout.length()
}

/// Whether the image is of version 2, after a sync: header, length and version byte are looked at,
/// and nothing else.
pub(crate) fn check<D: Disk>(disk: &mut D, layout: &Layout) -> Result<bool, OpenFault>
    ensures opens { Opens D.state D.makes disk.old disk.new (is_disk_fault result) }
    ensures memory { ¬ result ≡ Err OpenFault.NoMemory }
    ensures went { is_disk_fault result ≡ false → SyncsAndReads D.makes disk.old disk.new }
    ensures long { OnOk result ((D.state disk.new).len ≡ image_length layout.now) }
    ensures synced { OnOk result ((D.state disk.old).faithful ≡ true → (k : ℕ)
        → (D.state disk.new).unsynced k ≡ false) }
    ensures tells { Tells (D.state disk.old)
        (λ c. TellsVersion layout.now (D.state disk.old).len c result) }
{
    let _guests = layout.guests(); // for the checker: there are at most 64
    sync_first(disk)?;
    read_header(disk, layout)?;
    if has_other_length(disk, layout) {
        return Err(OpenFault::NotFormatted);
    }
    Ok(read_version(disk)?)
}
