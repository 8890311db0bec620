// The step that opens a slot's gate.
ghost use Rattle.std.specs.Prelude.{◌≡◌, ◌+◌, OnOk};
ghost use Rattle.slot_laws.specs.Labels.{owner};
ghost use Rattle.disk_box.specs.declared.kind.Kind.TheVariants as kind;
ghost use Rattle.disk_box.specs.Counting.{CountsDown};
ghost use Rattle.disk_box.specs.Kind.{HasKind};
ghost use Rattle.disk_box.specs.Pens.{WorksAtDesk, calls_at, own_at};
ghost use Rattle.disk_box.specs.Steps.{OpensFlight, Steps};
ghost use Rattle.disk_box.specs.Turns.{TellsOpening};

use crate::{BoxTable, Desk, Pen, note};
use sfs_dev::Disk;
use slot_laws::Label;
use tree_laws::TurnAct;

/// Opens the gate of a slot of the core's own, all of which is on the disk: one write. Its commit begins and is opened, also where the call
/// failed.
pub fn open_one<D: Disk + Drop>(
    table: &BoxTable<D>,
    pen: &mut Pen<D>,
    desk: &mut Desk<D>,
    k: usize,
) -> Result<(), u64>
    requires work { WorksAtDesk D.view table.now pen.old desk.old }
    requires own { owner pen.old.table.given.layout k ≡ pen.old.view.core }
    requires kind { HasKind desk.old.slots.items k kind.Sealed }
    ensures steps { Steps D.view table.now pen.old pen.new desk.new result }
    ensures own { OpensFlight pen.old.view.core (own_at pen.old) (own_at pen.new) }
    ensures calls { OnOk result (calls_at pen.new ≡ calls_at pen.old + 1) }
    ensures tells { TellsOpening k pen.old pen.new }
    ensures counts { OnOk result (CountsDown k pen.old pen.new) }
{
    let result = desk.slots[k].open(&mut desk.disk);
    let done = result.is_ok();
    let core = pen.number();
    let cut = desk.slot_turn(core, k, TurnAct::CutAt);
    let opened = desk.slot_turn(core, k, TurnAct::Opened);
    desk.turns.push(cut);
    desk.turns.push(opened);
    note(
        table,
        pen,
        &Label::Opened {
            slot: k,
            done,
            cut,
            opened,
        },
    );
    result
}
