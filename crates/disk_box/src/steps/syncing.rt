// The step that syncs the disk.
ghost use Rattle.std.specs.Prelude.{◌≡◌, ◌⊎◌, ◌+◌, ℕ, OnOk, length};
ghost use Rattle.disk_box.specs.declared.kind.Kind.TheVariants as kind;
ghost use Rattle.disk_box.specs.Calls.{NoneAwaits};
ghost use Rattle.disk_box.specs.Counting.{CountsDown};
ghost use Rattle.disk_box.specs.Kind.{HasKind};
ghost use Rattle.disk_box.specs.Pens.{WorksAtDesk, calls_at, own_at};
ghost use Rattle.disk_box.specs.Steps.{Steps};

use super::serving::{seal_all, serve_all};
use crate::{BoxTable, Desk, Pen, note};
use journal_one::sync;
use sfs_dev::Disk;
use slot_laws::Label;

/// Syncs the disk, which serves every slot: what is filled is sealed, what is opened is durable from this moment on, whoever's it is, records that
/// were placed are on the disk, and slots whose gates were shut are idle.
pub fn sync_all<D: Disk + Drop>(
    table: &BoxTable<D>,
    pen: &mut Pen<D>,
    desk: &mut Desk<D>,
) -> Result<(), u64>
    requires work { WorksAtDesk D.view table.now pen.old desk.old }
    ensures steps { Steps D.view table.now pen.old pen.new desk.new result }
    ensures own { own_at pen.new ≡ own_at pen.old }
    ensures calls { OnOk result (calls_at pen.new ≡ calls_at pen.old + 1) }
    ensures served { OnOk result (NoneAwaits desk.new.slots.items (length desk.new.slots.items)) }
    ensures counts { (k : ℕ) → HasKind desk.old.slots.items k kind.Filled ⊎ HasKind desk.old.slots.items k kind.Opened
        → OnOk result (CountsDown k pen.old pen.new) }
{
    if let Err(doubt) = sync(&mut desk.disk) {
        return Err(doubt.faults);
    }
    seal_all(desk);
    let now = desk.disk.now();
    note(table, pen, &Label::Synced { now });
    serve_all(table, pen, desk);
    Ok(())
}
