// A device call of a core's commit has failed.
ghost use Rattle.std.specs.Prelude.{◌≡◌, ◌≤◌, None};
ghost use Rattle.slot_laws.specs.Labels.{fsync_told};
ghost use Rattle.disk_box.specs.Desk.{owed_of};
ghost use Rattle.disk_box.specs.Pens.{IsAtDesk, IsBroken, PenGoes, own_at, past_at};
ghost use Rattle.disk_box.specs.Turns.{Fails, FailsBegun, TellsBegunFailure, TellsFailure};

use crate::{BoxTable, Desk, Fsync, Pen, note};
use sfs_dev::Disk;
use slot_laws::Label;
use tree_laws::{Turn, TurnAct};

/// A device call has failed of a commit whose gate was not written: it begins and fails. From here on each commit halts.
pub fn fail_unopened<D: Disk + Drop>(
    table: &BoxTable<D>,
    pen: &mut Pen<D>,
    desk: &mut Desk<D>,
    commit: u64,
    fsync: Fsync,
    faults: u64,
)
    requires broken { IsBroken D.view table.now pen.old desk.old faults }
    requires learned { (past_at pen.old).waits pen.old.view.core ≡ None }
    requires owes { 2 ≤ owed_of ((past_at pen.old).owns pen.old.view.core) None }
    ensures at { IsAtDesk D.view table.now pen.new desk.new }
    ensures goes { PenGoes pen.old pen.new }
    ensures room { pen.new.room ≡ pen.old.room }
    ensures fails { Fails commit (fsync_told fsync.node fsync.stamp) pen.old.view.core faults (own_at pen.old) (own_at pen.new) }
    ensures tells { TellsFailure commit (fsync_told fsync.node fsync.stamp) pen.old pen.new faults }
{
    let core = pen.number();
    let cut = desk.turn(core, commit, fsync, TurnAct::CutAt);
    desk.turns.push(cut);
    note(table, pen, &Label::Noted { turn: cut });
    let failed = Turn {
        faults,
        ..desk.turn(core, commit, fsync, TurnAct::Fail)
    };
    desk.turns.push(failed);
    desk.failed = Some(faults);
    note(table, pen, &Label::Noted { turn: failed });
}

/// A device call has failed of a commit whose gate was written: it fails. From here on each commit halts.
pub fn fail_opened<D: Disk + Drop>(
    table: &BoxTable<D>,
    pen: &mut Pen<D>,
    desk: &mut Desk<D>,
    commit: u64,
    fsync: Fsync,
    faults: u64,
)
    requires broken { IsBroken D.view table.now pen.old desk.old faults }
    requires learned { (past_at pen.old).waits pen.old.view.core ≡ None }
    requires owes { 1 ≤ owed_of ((past_at pen.old).owns pen.old.view.core) None }
    ensures at { IsAtDesk D.view table.now pen.new desk.new }
    ensures goes { PenGoes pen.old pen.new }
    ensures room { pen.new.room ≡ pen.old.room }
    ensures fails { FailsBegun commit (fsync_told fsync.node fsync.stamp) pen.old.view.core faults (own_at pen.old) (own_at pen.new) }
    ensures tells { TellsBegunFailure commit (fsync_told fsync.node fsync.stamp) pen.old pen.new faults }
{
    let failed = Turn {
        faults,
        ..desk.turn(pen.number(), commit, fsync, TurnAct::Fail)
    };
    desk.turns.push(failed);
    desk.failed = Some(faults);
    note(table, pen, &Label::Noted { turn: failed });
}
