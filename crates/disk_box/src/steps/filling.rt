// The step that fills a slot.
ghost use Rattle.std.specs.Prelude.{◌≡◌, ◌+◌, OnOk};
ghost use Rattle.slot_laws.specs.Labels.{owner};
ghost use Rattle.disk_box.specs.Counting.{CountsDown};
ghost use Rattle.disk_box.specs.Kind.{HasKind};
ghost use Rattle.disk_box.specs.declared.kind.Kind.TheVariants as kind;
ghost use Rattle.disk_box.specs.Pens.{WorksAtDesk, calls_at, own_at};
ghost use Rattle.disk_box.specs.Steps.{Steps};

use crate::{BoxTable, Desk, Pen, note};
use sfs_dev::Disk;
use slot_laws::Label;

/// Writes the next piece that fills a slot of the core's own: one write.
pub fn fill_one<D: Disk + Drop>(
    table: &BoxTable<D>,
    pen: &mut Pen<D>,
    desk: &mut Desk<D>,
    k: usize,
) -> Result<(), u64>
    requires work { WorksAtDesk D.view table.now pen.old desk.old }
    requires own { owner pen.old.table.given.layout k ≡ pen.old.view.core }
    requires kind { HasKind desk.old.slots.items k kind.Filling }
    ensures steps { Steps D.view table.now pen.old pen.new desk.new result }
    ensures own { own_at pen.new ≡ own_at pen.old }
    ensures calls { OnOk result (calls_at pen.new ≡ calls_at pen.old + 1) }
    ensures counts { OnOk result (CountsDown k pen.old pen.new) }
{
    let piece = desk.slots[k].phase.written();
    let result = desk.slots[k].fill(&mut desk.disk);
    let done = result.is_ok();
    note(
        table,
        pen,
        &Label::Filled {
            slot: k,
            piece,
            done,
        },
    );
    result
}
