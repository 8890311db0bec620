// The step that places a record.
ghost use Rattle.std.specs.Prelude.{◌≡◌, ◌+◌, Some, OnOk, slice_get};
ghost use Rattle.disk_box.specs.declared.desk.Slot.{Slot};
ghost use Rattle.disk_box.specs.declared.kind.Kind.TheVariants as kind;
ghost use Rattle.disk_box.specs.Kind.{HasKind};
ghost use Rattle.disk_box.specs.Pens.{WorksAtDesk, calls_at, own_at, past_at};
ghost use Rattle.disk_box.specs.Steps.{NextIsOldest, Steps};

use crate::{BoxTable, Desk, Pen, note};
use sfs_dev::Disk;
use slot_laws::Label;

/// Places the next record of a durable commit in the inode table, whoever's it is, where it is the oldest of its inode: one write.
pub fn place_one<D: Disk + Drop>(
    table: &BoxTable<D>,
    pen: &mut Pen<D>,
    desk: &mut Desk<D>,
    k: usize,
) -> Result<(), u64>
    requires work { WorksAtDesk D.view table.now pen.old desk.old }
    requires kind { HasKind desk.old.slots.items k kind.Durable }
    requires oldest { (slot : Slot) → slice_get desk.old.slots.items k ≡ Some slot → NextIsOldest (past_at pen.old).slots k slot }
    ensures steps { Steps D.view table.now pen.old pen.new desk.new result }
    ensures own { own_at pen.new ≡ own_at pen.old }
    ensures calls { OnOk result (calls_at pen.new ≡ calls_at pen.old + 1) }
{
    let record = desk.slots[k].phase.written();
    let result = desk.slots[k].place(&mut desk.disk);
    let done = result.is_ok();
    note(
        table,
        pen,
        &Label::Placed {
            slot: k,
            record,
            done,
        },
    );
    result
}
