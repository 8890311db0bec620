// A step towards an idle slot, whoever's it is, and whether others are about to fill theirs.
ghost use Rattle.std.specs.Prelude.{◌≡◌, ◌<◌, ◌≤◌, ◌+◌, OnOk, true, length};
ghost use Rattle.disk_box.specs.Oldest.{IsOldestSlot, OthersWrite};
ghost use Rattle.disk_box.specs.Pens.{WorksAtDesk, calls_at, own_at};
ghost use Rattle.disk_box.specs.Steps.{Steps};

use crate::{BoxTable, Desk, Kind, Pen, place_one, shut_one, sync_all};
use sfs_base::CoreId;
use sfs_dev::Disk;

/// Makes one device call towards an idle slot, on the durable commit in a slot with the least commit stamp: its next record is placed, or its gate
/// is shut, or the disk is synced.
pub fn step_oldest<D: Disk + Drop>(
    table: &BoxTable<D>,
    pen: &mut Pen<D>,
    desk: &mut Desk<D>,
    k: usize,
) -> Result<(), u64>
    requires work { WorksAtDesk D.view table.now pen.old desk.old }
    requires oldest { IsOldestSlot desk.old.slots.items k }
    ensures steps { Steps D.view table.now pen.old pen.new desk.new result }
    ensures own { own_at pen.new ≡ own_at pen.old }
    ensures calls { OnOk result (calls_at pen.new ≡ calls_at pen.old + 1) }
{
    match desk.kind_at(k) {
        Kind::Durable => place_one(table, pen, desk, k),
        Kind::Copied => shut_one(table, pen, desk, k),
        _ => sync_all(table, pen, desk),
    }
}

/// Whether another core is about to write for a slot of its own, so that one that is about to sync may wait for it and serve both.
pub fn others_write<D>(desk: &Desk<D>, core: CoreId) -> bool
    requires cores { 0 < length desk.now.waits.items }
    requires slots { length desk.now.waits.items ≤ length desk.now.slots.items }
    ensures yes { result ≡ true → OthersWrite desk.now.slots.items (length desk.now.waits.items) core.0 }
    ensures only { OthersWrite desk.now.slots.items (length desk.now.waits.items) core.0 → result ≡ true }
{
    let own = core.0 as usize;
    for k in 0..desk.slots.len() {
        if desk.owner_of(k) != own && desk.slots[k].phase.kind().is_writing() {
            return true;
        }
    }
    false
}
