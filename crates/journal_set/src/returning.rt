// A core gives back what it reserved.
ghost use Rattle.std.specs.Prelude.{◌≡◌, ◌<◌, Some, None, false};
ghost use Rattle.slot_laws.specs.Labels.{fsync_told};
ghost use Rattle.disk_box.specs.Pens.{IsAtDesk, IsOutside, PenGoes, own_at};
ghost use Rattle.journal_set.specs.Grants.{grant_at};
ghost use Rattle.journal_set.specs.Returning.{ReturnsNumber};
ghost use Rattle.journal_set.specs.Telling.{IsOneTurn, OfReserved, TellsAtBox, TellsCall, TellsReturn};

use crate::JournalSet;
use disk_box::{BoxTable, Desk, Fsync, Pen, enter, leave, note, note_turn};
use sfs_dev::Disk;
use slot_laws::Label;
use space_map::Grant;
use std::sync::Wait;
use tree_laws::TurnAct;

impl<D: Disk + Drop> JournalSet<D> {
    /// Gives back what this core has reserved for an fsync and has not committed: the grant's inodes and blocks are free again, and its nodes are
    /// as before. It waits for the box; it takes no memory and makes no device call.
    pub fn give_back<R: Wait>(&self, rt: &R, pen: &mut Pen<D>, fsync: Fsync, grant: Grant)
        requires outside { IsOutside self.now pen.old }
        requires room { 0 < pen.old.room }
        requires grant { grant_at pen.old ≡ Some grant }
        requires goes_on { (own_at pen.old).over ≡ false }
        ensures outside { IsOutside self.now pen.new }
        ensures goes { PenGoes pen.old pen.new }
        ensures room { pen.new.room ≡ pen.old.room }
        ensures comes { ReturnsNumber pen.old.view.core (fsync_told fsync.node fsync.stamp) (own_at pen.old) (own_at pen.new) }
        ensures tells { TellsCall (IsOneTurn (OfReserved (own_at pen.old) (λ number. TellsReturn pen.old.view.core number
            (fsync_told fsync.node fsync.stamp)))) pen.old pen.new }
    {
        self.line.join();
        let mut desk = enter(rt, &self.table, pen);
        return_number(&self.table, pen, &mut desk, fsync, grant);
        leave(&self.table, pen, desk);
        self.line.pass_on();
    }
}

/// The same, while the core has the box.
pub(crate) fn return_number<D: Disk + Drop>(
    table: &BoxTable<D>,
    pen: &mut Pen<D>,
    desk: &mut Desk<D>,
    fsync: Fsync,
    grant: Grant,
)
    requires at { IsAtDesk D.view table.now pen.old desk.old }
    requires grant { grant_at pen.old ≡ Some grant }
    requires goes_on { (own_at pen.old).over ≡ false }
    ensures at { IsAtDesk D.view table.now pen.new desk.new }
    ensures goes { PenGoes pen.old pen.new }
    ensures room { pen.new.room ≡ pen.old.room }
    ensures comes { ReturnsNumber pen.old.view.core (fsync_told fsync.node fsync.stamp) (own_at pen.old) (own_at pen.new) }
    ensures tells { TellsAtBox (OfReserved (own_at pen.old) (λ number. TellsReturn pen.old.view.core number (fsync_told fsync.node fsync.stamp)))
        pen.old pen.new }
{
    let core = pen.number();
    let Some(number) = desk.ledger.number(core) else {
        unreachable!()
    };
    note(table, pen, &Label::Returned { commit: number });
    desk.ledger.give_back(core, grant);
    let turn = desk.turn(core, number, fsync, TurnAct::GivenBack);
    note_turn(table, pen, desk, turn);
}
