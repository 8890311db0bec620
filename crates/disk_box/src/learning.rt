// What a core finds as it comes to the box: that its commit is durable, or that a commit has failed.
ghost use Rattle.std.specs.Prelude.{◌≡◌, ◌⊎◌, ◌<◌, IfNone, IfSome, IsSome, None, Some};
ghost use Rattle.slot_laws.specs.Labels.{fsync_told};
ghost use Rattle.slot_laws.specs.Rules.{IsTurnBy};
ghost use Rattle.slot_laws.specs.declared.label.Label.TheVariants as label;
ghost use Rattle.tree_laws.specs.declared.turns.TurnAct.TheVariants as act;
ghost use Rattle.disk_box.specs.Desk.{owed_by, owed_of};
ghost use Rattle.disk_box.specs.Pens.{IsAtDesk, PenGoes, TellsLabel, own_at, past_at};
ghost use Rattle.disk_box.specs.Turns.{Halts, Lands, TellsHalt};

use crate::{BoxTable, Desk, Fsync, Pen, note, note_turn};
use sfs_dev::Disk;
use slot_laws::Label;
use tree_laws::{Turn, TurnAct};

/// Learns whether the core's commit has become durable, by whose sync ever, and answers its turn.
pub fn learn<D: Disk + Drop>(
    table: &BoxTable<D>,
    pen: &mut Pen<D>,
    desk: &mut Desk<D>,
) -> Option<Turn>
    requires at { IsAtDesk D.view table.now pen.old desk.old }
    ensures at { IsAtDesk D.view table.now pen.new desk.new }
    ensures goes { PenGoes pen.old pen.new }
    ensures room { pen.new.room ≡ pen.old.room }
    ensures none { IfNone result ((pen.new ≡ pen.old) × (desk.new ≡ desk.old) × ((past_at pen.old).waits pen.old.view.core ≡ None)) }
    ensures some { IfSome result (λ turn. Lands turn pen.old.view.core (own_at pen.old) (own_at pen.new)) }
    ensures waits { IfSome result (λ turn. (past_at pen.old).waits pen.old.view.core ≡ Some turn) }
    ensures tells { IfSome result (λ turn. TellsLabel (label.Learned turn) pen.old pen.new) }
{
    let core = pen.number().0 as usize;
    let turn = desk.waits[core]?;
    desk.waits[core] = None;
    note(table, pen, &Label::Learned { turn });
    Some(turn)
}

/// Takes note that an earlier commit has failed, which ends this one, and answers the count of faults of that failure.
pub fn halt<D: Disk + Drop>(
    table: &BoxTable<D>,
    pen: &mut Pen<D>,
    desk: &mut Desk<D>,
    commit: u64,
    fsync: Fsync,
) -> u64
    requires at { IsAtDesk D.view table.now pen.old desk.old }
    requires failed { IsSome desk.old.failed }
    requires learned { (past_at pen.old).waits pen.old.view.core ≡ None }
    requires room { (owed_by pen.old.table.given.layout.cores (past_at pen.old) < desk.old.turns.spare)
        ⊎ (0 < owed_of ((past_at pen.old).owns pen.old.view.core) None) }
    ensures at { IsAtDesk D.view table.now pen.new desk.new }
    ensures goes { PenGoes pen.old pen.new }
    ensures room { pen.new.room ≡ pen.old.room }
    ensures failed { desk.old.failed ≡ Some result }
    ensures halts { Halts commit (fsync_told fsync.node fsync.stamp) pen.old.view.core (own_at pen.old) (own_at pen.new) }
    ensures tells { TellsHalt commit (fsync_told fsync.node fsync.stamp) pen.old pen.new }
{
    let Some(faults) = desk.failed else {
        unreachable!()
    };
    let turn = desk.turn(pen.number(), commit, fsync, TurnAct::Halted);
    note_turn(table, pen, desk, turn);
    faults
}
