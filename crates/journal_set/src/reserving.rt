// A core reserves what a commit needs.
ghost use Rattle.std.specs.Prelude.{◌≡◌};
ghost use Rattle.slot_laws.specs.Labels.{fsync_told};
ghost use Rattle.disk_box.specs.Pens.{IsAtDesk, IsOutside, PenGoes, own_at};
ghost use Rattle.journal_set.specs.Ready.{HasNothingDue, IsReady};
ghost use Rattle.journal_set.specs.Refusing.{MayReserve};
ghost use Rattle.journal_set.specs.Reserving.{Reserves};
ghost use Rattle.journal_set.specs.Telling.{IsOneTurn, TellsAtBox, TellsCall, reserve_labels};

use crate::numbering::{Numbered, number_commit};
use crate::refusing::check_first;
use crate::{CommitFault, JournalSet};
use disk_box::{BoxTable, Desk, Fsync, Pen, enter, leave, note_turn};
use sfs_base::{NodeId, Stamp};
use sfs_dev::Disk;
use slot_laws::Seen;
use space_map::{Grant, Need, SpaceFault};
use std::alloc::Global;
use std::sync::Wait;
use tree_laws::TurnAct;

impl<D: Disk + Drop> JournalSet<D> {
    /// Reserves a number and what the next commit of this core needs, for an fsync of a node at a stamp. `seen` has each node that the commit
    /// concerns, ascending, with the number of its last commit as it was seen, 0 where there was none. It refuses in this order: `Stopped`, where
    /// an earlier commit has failed; `Moved`, where a node's last commit is another, or has not ended; `NoSpace`, where too little is free,
    /// of inodes before blocks; and `NoMemory`, also where no number is left. After Ok the nodes are in flight until the commit is durable or
    /// has given back. It waits for the box, and makes no device call.
    pub fn reserve<R: Wait>(
        &self,
        rt: &R,
        alloc: Global,
        pen: &mut Pen<D>,
        fsync: Fsync,
        seen: &[Seen],
        need: Need,
    ) -> Result<Grant, CommitFault>
        requires ready { IsReady self.now pen.old }
        ensures outside { IsOutside self.now pen.new }
        ensures goes { PenGoes pen.old pen.new }
        ensures room { pen.new.room ≡ pen.old.room }
        ensures comes { Reserves (record { flush = fsync_told fsync.node fsync.stamp; seen = seen.now; need = need }) pen.old pen.new result }
        ensures tells { TellsCall (IsOneTurn (reserve_labels pen.old.view.core
            (record { flush = fsync_told fsync.node fsync.stamp; seen = seen.now; need = need }) result)) pen.old pen.new }
    {
        self.line.join();
        let mut desk = enter(rt, &self.table, pen);
        let result = reserve_at(alloc, &self.table, pen, &mut desk, fsync, seen, need);
        leave(&self.table, pen, desk);
        self.line.pass_on();
        result
    }
}

// The same, while the core has the box.
fn reserve_at<D: Disk + Drop>(
    alloc: Global,
    table: &BoxTable<D>,
    pen: &mut Pen<D>,
    desk: &mut Desk<D>,
    fsync: Fsync,
    seen: &[Seen],
    need: Need,
) -> Result<Grant, CommitFault>
    requires at { IsAtDesk D.view table.now pen.old desk.old }
    requires rests { HasNothingDue (own_at pen.old) }
    ensures at { IsAtDesk D.view table.now pen.new desk.new }
    ensures goes { PenGoes pen.old pen.new }
    ensures room { pen.new.room ≡ pen.old.room }
    ensures comes { Reserves (record { flush = fsync_told fsync.node fsync.stamp; seen = seen.now; need = need }) pen.old pen.new result }
    ensures tells { TellsAtBox (reserve_labels pen.old.view.core
        (record { flush = fsync_told fsync.node fsync.stamp; seen = seen.now; need = need }) result) pen.old pen.new }
{
    match check_first(table, pen, desk, fsync, seen) {
        Ok(()) => grant_or_refuse(alloc, table, pen, desk, fsync, seen, need),
        Err(fault) => Err(fault),
    }
}

// The same, where no commit has failed and none of the nodes has moved.
fn grant_or_refuse<D: Disk + Drop>(
    alloc: Global,
    table: &BoxTable<D>,
    pen: &mut Pen<D>,
    desk: &mut Desk<D>,
    fsync: Fsync,
    seen: &[Seen],
    need: Need,
) -> Result<Grant, CommitFault>
    requires may { MayReserve D.view table.now seen.now pen.old desk.old }
    ensures at { IsAtDesk D.view table.now pen.new desk.new }
    ensures goes { PenGoes pen.old pen.new }
    ensures room { pen.new.room ≡ pen.old.room }
    ensures comes { Reserves (record { flush = fsync_told fsync.node fsync.stamp; seen = seen.now; need = need }) pen.old pen.new result }
    ensures tells { TellsAtBox (reserve_labels pen.old.view.core
        (record { flush = fsync_told fsync.node fsync.stamp; seen = seen.now; need = need }) result) pen.old pen.new }
{
    let Numbered { number, grant } = match number_commit(alloc, table, pen, desk, seen, need) {
        Ok(numbered) => numbered,
        Err(SpaceFault::NoSpace { kind, need, free }) => {
            let turn = desk.turn(pen.number(), 0, fsync, TurnAct::Short { kind, need, free });
            note_turn(table, pen, desk, turn);
            return Err(CommitFault::NoSpace { kind, need, free });
        }
        Err(SpaceFault::NoMemory) => return Err(CommitFault::NoMemory),
    };
    let turn = desk.turn(pen.number(), number, fsync, TurnAct::Granted);
    note_turn(table, pen, desk, turn);
    Ok(grant)
}
