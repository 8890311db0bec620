// The step that shuts a slot's gate.
ghost use Rattle.std.specs.Prelude.{◌≡◌, ◌+◌, OnOk};
ghost use Rattle.disk_box.specs.declared.kind.Kind.TheVariants as kind;
ghost use Rattle.disk_box.specs.Kind.{HasKind};
ghost use Rattle.disk_box.specs.Pens.{WorksAtDesk, calls_at, own_at};
ghost use Rattle.disk_box.specs.Steps.{Steps};

use crate::{BoxTable, Desk, Pen, note};
use sfs_dev::Disk;
use slot_laws::Label;

/// Shuts the gate of a slot whose records are all in the table on the disk, whoever's it is: one write.
pub fn shut_one<D: Disk + Drop>(
    table: &BoxTable<D>,
    pen: &mut Pen<D>,
    desk: &mut Desk<D>,
    k: usize,
) -> Result<(), u64>
    requires work { WorksAtDesk D.view table.now pen.old desk.old }
    requires kind { HasKind desk.old.slots.items k kind.Copied }
    ensures steps { Steps D.view table.now pen.old pen.new desk.new result }
    ensures own { own_at pen.new ≡ own_at pen.old }
    ensures calls { OnOk result (calls_at pen.new ≡ calls_at pen.old + 1) }
{
    let result = desk.slots[k].shut(&mut desk.disk);
    let done = result.is_ok();
    note(table, pen, &Label::Shut { slot: k, done });
    result
}
