// What recovery writes once an image was judged: the newest records come home, then the slots are closed,
// then orphans are freed. Until the table has a record, its slot stays open.
ghost use Rattle.std.specs.Prelude.{◌≡◌, ℕ, List, Option, Some, None, length, OnOk};
ghost use Rattle.std.specs.List.{AllByRecursion};
ghost use Rattle.sfs_image.specs.Super.{IsLayout};
ghost use Rattle.journal_one.specs.Calls.{IsCalm};
ghost use Rattle.recovery.specs.Cause.{Ran};
ghost use Rattle.recovery.specs.Freed.{PacksFreeing, unlinked_in, RecoversTo};
ghost use Rattle.recovery.specs.Open.{IsGoodSlot};
ghost use Rattle.recovery.specs.Recovering.{settled_parts, IsReadyToSettle, ClosesAll};

use crate::closing::close_slots;
use crate::homing::bring_home;
use crate::journals::OpenSlot;
use crate::orphans::free_unlinked;
use fmt_super::Layout;
use journal_one::Packed;
use sfs_base::Failed;
use sfs_dev::Disk;

/// Settles a disk that was read: the newest records go into the table, these open slots are closed, and
/// the transaction that frees its orphans is committed. Where no slot is open and there is no orphan it
/// makes no device call.
pub fn settle_disk<D: Disk>(
    disk: &mut D,
    layout: &Layout,
    found: &[OpenSlot],
    stamps: &[Option<u64>],
    records: &[[u8; 512]],
    packed: Option<Packed>,
) -> Result<(), Failed>
    requires layout { IsLayout (D.view disk.old).size layout.now }
    requires good { AllByRecursion (IsGoodSlot layout.now) found.now }
    requires stamps { length stamps.now ≡ layout.now.inodes }
    requires records { length records.now ≡ layout.now.inodes }
    requires packed { PacksFreeing (unlinked_in records.now) packed }
    ensures ran { Ran (D.view disk.old) (D.view disk.new) result }
    ensures calm { IsCalm (D.view disk.old) → OnOk result (IsCalm (D.view disk.new)) }
    ensures settles { (image : List ℕ) → (D.view disk.old).content ≡ Some image → IsCalm (D.view disk.old) → IsReadyToSettle layout.now found.now stamps.now records.now image
        → RecoversTo layout.now (settled_parts layout.now image) (D.view disk.old) (D.view disk.new) result }
    ensures untouched { length found.now ≡ 0 → packed ≡ None → disk.new ≡ disk.old }
{
    settle_slots(disk, layout, found, stamps, records)?;
    match packed {
        Some(packed) => free_unlinked(disk, layout, packed),
        None => Ok(()),
    }
}

// Brings the newest records home and closes the open slots, where there are some.
fn settle_slots<D: Disk>(
    disk: &mut D,
    layout: &Layout,
    found: &[OpenSlot],
    stamps: &[Option<u64>],
    records: &[[u8; 512]],
) -> Result<(), Failed>
    requires layout { IsLayout (D.view disk.old).size layout.now }
    requires good { AllByRecursion (IsGoodSlot layout.now) found.now }
    requires stamps { length stamps.now ≡ layout.now.inodes }
    requires records { length records.now ≡ layout.now.inodes }
    ensures ran { Ran (D.view disk.old) (D.view disk.new) result }
    ensures calm { IsCalm (D.view disk.old) → OnOk result (IsCalm (D.view disk.new)) }
    ensures settles { (image : List ℕ) → (D.view disk.old).content ≡ Some image → IsCalm (D.view disk.old) → IsReadyToSettle layout.now found.now stamps.now records.now image
        → ClosesAll layout.now (settled_parts layout.now image) (D.view disk.old) (D.view disk.new) result }
    ensures untouched { length found.now ≡ 0 → disk.new ≡ disk.old }
{
    if found.is_empty() {
        return Ok(());
    }
    bring_home(disk, layout, stamps, records)?;
    close_slots(disk, layout, found)
}
