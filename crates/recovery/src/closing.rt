// The open slots are closed in the order of their commit stamps, so that no crash leaves an older record
// open without the newer one.
ghost use Rattle.std.specs.Prelude.{◌≡◌, ℕ, ◌<◌, List, ◌+◌, Option, None, Some, length, IfOk, OnOk};
ghost use Rattle.std.specs.List.{AllByRecursion};
ghost use Rattle.sfs_image.specs.Part.{Part};
ghost use Rattle.sfs_image.specs.Settled.{slot_count};
ghost use Rattle.sfs_image.specs.Super.{IsLayout};
ghost use Rattle.journal_one.specs.Calls.{IsCalm};
ghost use Rattle.journal_one.specs.Known.{EachLeft};
ghost use Rattle.recovery.specs.Cause.{Ran};
ghost use Rattle.recovery.specs.Open.{IsGoodSlot};
ghost use Rattle.recovery.specs.Recovering.{is_above, IsOldestAbove, FindsOldest, IsToBeClosed, ClosesUpTo, ClosesAll};

use crate::journals::OpenSlot;
use crate::places::slot_byte;
use fmt_super::Layout;
use sfs_base::Failed;
use sfs_dev::{Disk, write_and_sync};

/// Closes these open slots, ascending by commit stamp: for each a write of one byte and a sync. The table
/// has the newest records of all inodes before.
pub fn close_slots<D: Disk>(disk: &mut D, layout: &Layout, found: &[OpenSlot]) -> Result<(), Failed>
    requires layout { IsLayout (D.view disk.old).size layout.now }
    requires good { AllByRecursion (IsGoodSlot layout.now) found.now }
    ensures ran { Ran (D.view disk.old) (D.view disk.new) result }
    ensures calm { IsCalm (D.view disk.old) → OnOk result (IsCalm (D.view disk.new)) }
    ensures closed { (parts : ℕ → Part) → EachLeft (D.view disk.old) (IsToBeClosed layout.now parts found.now None)
        → ClosesAll layout.now parts (D.view disk.old) (D.view disk.new) result }
{
    let mut last = None;
    while let Some(place) = oldest_above(found, last) {
        last = Some(close_slot(disk, layout, &found[place])?);
    }
    Ok(())
}

// Closes a slot, waits until that is on the disk, and answers its commit stamp.
fn close_slot<D: Disk>(disk: &mut D, layout: &Layout, one: &OpenSlot) -> Result<u64, Failed>
    requires layout { IsLayout (D.view disk.old).size layout.now }
    requires number { one.now.number < slot_count layout.now }
    ensures stamp { IfOk result (λ stamp. stamp ≡ one.now.stamp) }
    ensures ran { Ran (D.view disk.old) (D.view disk.new) result }
    ensures calm { OnOk result (IsCalm (D.view disk.new)) }
    ensures closed { (parts : ℕ → Part) (found : List OpenSlot) (last : Option ℕ) (place : ℕ) → IsOldestAbove found (length found) last place one.now
        → EachLeft (D.view disk.old) (IsToBeClosed layout.now parts found last)
        → ClosesUpTo layout.now parts found (Some one.now.stamp) (D.view disk.old) (D.view disk.new) result }
{
    write_and_sync(disk, slot_byte(layout, one.number), &[0])?;
    Ok(one.stamp)
}

// The place of the slot with the least commit stamp above the last one.
fn oldest_above(found: &[OpenSlot], last: Option<u64>) -> Option<usize>
    ensures { FindsOldest found.now (length found.now) last result }
{
    let mut oldest = None;
    for place in 0..found.len() {
        oldest = oldest_with(found, last, oldest, place);
    }
    oldest
}

// The same among the slots up to the one at a place, where it is known of those before.
fn oldest_with(
    found: &[OpenSlot],
    last: Option<u64>,
    oldest: Option<usize>,
    place: usize,
) -> Option<usize>
    requires place { place < length found.now }
    requires before { FindsOldest found.now place last oldest }
    ensures { FindsOldest found.now (place + 1) last result }
{
    if !is_above(last, found[place].stamp) {
        return oldest;
    }
    match oldest {
        Some(other) if found[other].stamp <= found[place].stamp => Some(other),
        _ => Some(place),
    }
}

// Whether a commit stamp is greater than the last one.
fn is_above(last: Option<u64>, stamp: u64) -> bool
    ensures { result ≡ is_above last stamp }
{
    match last {
        Some(last) => stamp > last,
        None => true,
    }
}
