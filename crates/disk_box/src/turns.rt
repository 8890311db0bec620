// The turns that a core takes at the disk, and their record.
ghost use Rattle.std.specs.Prelude.{◌≡◌, ◌≢◌, ◌<◌, None, Some, length, slice_get};
ghost use Rattle.slot_laws.specs.Labels.{after_label, fsync_told};
ghost use Rattle.slot_laws.specs.Rules.{IsTurnBy, NotedRule};
ghost use Rattle.slot_laws.specs.declared.label.Label.TheVariants as label;
ghost use Rattle.tree_laws.specs.declared.turns.TurnAct.TheVariants as act;
ghost use Rattle.disk_box.specs.Desk.{owed_by, turn_faults};
ghost use Rattle.disk_box.specs.declared.desk.Slot.{Slot};
ghost use Rattle.disk_box.specs.Pens.{IsAtDesk, TellsLabel, past_at};

use crate::{BoxTable, Desk, Pen, note};
use sfs_base::{CoreId, NodeId, Stamp};
use sfs_dev::Disk;
use slot_laws::Label;
use tree_laws::{Turn, TurnAct};

/// The fsync of a node at a stamp.
#[derive(Clone, Copy)]
pub struct Fsync {
    pub node: NodeId,
    pub stamp: Stamp,
}

impl<D: Disk> Desk<D> {
    /// The turn of a core's commit with this number, 0 where it has none, at this moment.
    pub fn turn(&self, core: CoreId, commit: u64, fsync: Fsync, act: TurnAct) -> Turn
        ensures by { IsTurnBy result act core.0 commit (fsync_told fsync.node fsync.stamp) }
        ensures now { result.now ≡ (D.view self.now.disk).now }
        ensures faults { result.faults ≡ turn_faults self.now.faults self.now.failed (D.view self.now.disk).faults }
    {
        let faults = match self.failed {
            None => self.faults,
            Some(_) => self.disk.faults(),
        };
        Turn {
            core,
            node: fsync.node,
            stamp: fsync.stamp,
            commit,
            now: self.disk.now(),
            faults,
            act,
        }
    }

    /// The turn of a core for the commit in a slot, at this moment.
    pub fn slot_turn(&self, core: CoreId, k: usize, act: TurnAct) -> Turn
        requires within { k < length self.now.slots.items }
        ensures by { (slot : Slot) → slice_get self.now.slots.items k ≡ Some slot
            → IsTurnBy result act core.0 slot.commit (fsync_told slot.node slot.stamp) }
        ensures now { result.now ≡ (D.view self.now.disk).now }
        ensures faults { result.faults ≡ turn_faults self.now.faults self.now.failed (D.view self.now.disk).faults }
    {
        let slot = &self.slots[k];
        let fsync = Fsync {
            node: slot.node,
            stamp: slot.stamp,
        };
        self.turn(core, slot.commit, fsync, act)
    }
}

/// Takes note of a turn that neither opens a commit nor makes one durable, nor fails.
pub fn note_turn<D: Disk + Drop>(
    table: &BoxTable<D>,
    pen: &mut Pen<D>,
    desk: &mut Desk<D>,
    turn: Turn,
)
    requires at { IsAtDesk D.view table.now pen.old desk.old }
    requires may { NotedRule pen.old.table.given.faults pen.old.view.core turn (past_at pen.old) }
    requires no_fail { turn.act ≢ act.Fail }
    requires faults { turn.faults ≡ turn_faults desk.old.faults desk.old.failed (D.view desk.old.disk).faults }
    requires now { turn.now ≡ (D.view desk.old.disk).now }
    requires room { owed_by pen.old.table.given.layout.cores
        (after_label pen.old.table.given.layout pen.old.view.core (label.Noted turn) (past_at pen.old)) < desk.old.turns.spare }
    ensures at { IsAtDesk D.view table.now pen.new desk.new }
    ensures tells { TellsLabel (label.Noted turn) pen.old pen.new }
{
    desk.turns.push(turn);
    note(table, pen, &Label::Noted { turn });
}
