// A commit without records: it writes nothing, and takes one turn at the box.
ghost use Rattle.std.specs.Prelude.{◌≡◌, ◌≤◌, Some, false};
ghost use Rattle.slot_laws.specs.Labels.{fsync_told};
ghost use Rattle.slot_laws.specs.Nodes.{no_numbers};
ghost use Rattle.disk_box.specs.Pens.{IsAtDesk, WorksAtDesk, IsOutside, PenGoes, own_at};
ghost use Rattle.journal_set.specs.Ready.{HasNothingDue, IsReady};
ghost use Rattle.journal_set.specs.Emptying.{Empties, EndsTogether, NOTHING};
ghost use Rattle.journal_set.specs.Telling.{IsOneTurn, TellsAtBox, TellsCall, TellsEnd, empty_labels};
ghost use Rattle.journal_set.specs.Grants.{grant_at};

use crate::numbering::number_commit;
use crate::refusing::check_first;
use crate::{Ack, CommitFault, JournalSet};
use disk_box::{BoxTable, Desk, Fsync, Pen, enter, leave, note};
use sfs_dev::Disk;
use slot_laws::{Label, Seen};
use space_map::{Need, SpaceFault};
use std::alloc::Global;
use std::sync::Wait;
use tree_laws::TurnAct;

impl<D: Disk + Drop> JournalSet<D> {
    /// The one turn of a commit without records, for an fsync of a node at a stamp: it has a number, and is durable at once. It refuses as
    /// `reserve` does, but for space. It waits for the box, and makes no device call.
    pub fn commit_empty<R: Wait>(
        &self,
        rt: &R,
        alloc: Global,
        pen: &mut Pen<D>,
        fsync: Fsync,
        seen: &[Seen],
    ) -> Result<Ack, CommitFault>
        requires ready { IsReady self.now pen.old }
        ensures outside { IsOutside self.now pen.new }
        ensures goes { PenGoes pen.old pen.new }
        ensures room { pen.new.room ≡ pen.old.room }
        ensures comes { Empties (record { flush = fsync_told fsync.node fsync.stamp; seen = seen.now; need = NOTHING }) pen.old pen.new result }
        ensures tells { TellsCall (IsOneTurn (empty_labels pen.old.view.core
            (record { flush = fsync_told fsync.node fsync.stamp; seen = seen.now; need = NOTHING }) result)) pen.old pen.new }
    {
        self.line.join();
        let mut desk = enter(rt, &self.table, pen);
        let result = empty_at(alloc, &self.table, pen, &mut desk, fsync, seen);
        leave(&self.table, pen, desk);
        self.line.pass_on();
        result
    }
}

// The same, while the core has the box.
fn empty_at<D: Disk + Drop>(
    alloc: Global,
    table: &BoxTable<D>,
    pen: &mut Pen<D>,
    desk: &mut Desk<D>,
    fsync: Fsync,
    seen: &[Seen],
) -> Result<Ack, CommitFault>
    requires at { IsAtDesk D.view table.now pen.old desk.old }
    requires rests { HasNothingDue (own_at pen.old) }
    ensures at { IsAtDesk D.view table.now pen.new desk.new }
    ensures goes { PenGoes pen.old pen.new }
    ensures room { pen.new.room ≡ pen.old.room }
    ensures comes { Empties (record { flush = fsync_told fsync.node fsync.stamp; seen = seen.now; need = NOTHING }) pen.old pen.new result }
    ensures tells { TellsAtBox (empty_labels pen.old.view.core
        (record { flush = fsync_told fsync.node fsync.stamp; seen = seen.now; need = NOTHING }) result) pen.old pen.new }
{
    match check_first(table, pen, desk, fsync, seen) {
        Ok(()) => {}
        Err(fault) => return Err(fault),
    }
    let nothing = Need {
        inodes: 0,
        blocks: 0,
    };
    let numbered = match number_commit(alloc, table, pen, desk, seen, nothing) {
        Ok(numbered) => numbered,
        Err(fault) => match fault {
            SpaceFault::NoMemory => return Err(CommitFault::NoMemory),
            _ => unreachable!(),
        },
    };
    Ok(end_at_once(table, pen, desk, numbered.number, fsync))
}

// A commit that has reserved nothing but this number begins, is opened and is durable.
fn end_at_once<D: Disk + Drop>(
    table: &BoxTable<D>,
    pen: &mut Pen<D>,
    desk: &mut Desk<D>,
    number: u64,
    fsync: Fsync,
) -> Ack
    requires work { WorksAtDesk D.view table.now pen.old desk.old }
    requires reserved { (own_at pen.old).reserved ≡ Some number }
    requires grant { grant_at pen.old ≡ Some no_numbers }
    requires goes_on { (own_at pen.old).over ≡ false }
    ensures at { IsAtDesk D.view table.now pen.new desk.new }
    ensures goes { PenGoes pen.old pen.new }
    ensures room { pen.new.room ≡ pen.old.room }
    ensures ends { EndsTogether pen.old.view.core (fsync_told fsync.node fsync.stamp) result (own_at pen.old) (own_at pen.new) }
    ensures commit { result.commit ≡ number }
    ensures tells { TellsEnd (fsync_told fsync.node fsync.stamp) result pen.old pen.new }
{
    let core = pen.number();
    let cut = desk.turn(core, number, fsync, TurnAct::CutAt);
    let opened = desk.turn(core, number, fsync, TurnAct::Opened);
    let durable = desk.turn(core, number, fsync, TurnAct::Durable);
    desk.turns.push(cut);
    desk.turns.push(opened);
    desk.turns.push(durable);
    let told = Label::Empty {
        commit: number,
        cut,
        opened,
        durable,
    };
    note(table, pen, &told);
    desk.ledger.end_empty(core);
    Ack {
        moment: durable.now,
        commit: number,
    }
}
