// What becomes of each slot behind a sync that answered Ok, whoever's it is: no device call.
ghost use Rattle.std.specs.Prelude.{◌≡◌, ◌+◌, ◌<◌, ◌≤◌, ℕ, Some, length, slice_get};
ghost use Rattle.journal_one.specs.Calls.{IsCalm};
ghost use Rattle.disk_box.specs.declared.desk.Slot.{Slot as SlotOf};
ghost use Rattle.disk_box.specs.declared.kind.Kind.TheVariants as kind;
ghost use Rattle.disk_box.specs.Calls.{IsSealedBySync};
ghost use Rattle.disk_box.specs.Kind.{HasKind};
ghost use Rattle.disk_box.specs.Pens.{past_at};
ghost use Rattle.disk_box.specs.Serving.{GoesBeside, IsServed, IsServing, ServesOne, owner_by};

use crate::{BoxTable, Desk, Kind, Pen, note};
use sfs_base::CoreId;
use sfs_dev::Disk;
use slot_laws::Label;
use tree_laws::TurnAct;

impl<D> Desk<D> {
    /// Whose a slot is.
    pub fn owner_of(&self, k: usize) -> usize
        requires cores { 0 < length self.now.waits.items }
        requires slots { length self.now.waits.items ≤ length self.now.slots.items }
        ensures { result ≡ owner_by (length self.now.slots.items) (length self.now.waits.items) k }
    {
        k / (self.slots.len() / self.waits.len())
    }
}

// Seals each slot that was filled: all that fills it is on the disk.
pub(crate) fn seal_all<D: Disk>(desk: &mut Desk<D>)
    requires calm { IsCalm (D.view desk.old.disk) }
    ensures beside { desk.new ≡ record desk.old { slots = desk.new.slots } }
    ensures count { length desk.new.slots.items ≡ length desk.old.slots.items }
    ensures sealed { (k : ℕ) (was now : SlotOf) → slice_get desk.old.slots.items k ≡ Some was → slice_get desk.new.slots.items k ≡ Some now
        → IsSealedBySync was now }
{
    for k in 0..desk.slots.len() {
        if let Kind::Filled = desk.kind_at(k) {
            desk.slots[k].seal(&desk.disk);
        }
    }
}

// Serves each other slot in turn.
pub(crate) fn serve_all<D: Disk + Drop>(table: &BoxTable<D>, pen: &mut Pen<D>, desk: &mut Desk<D>)
    requires serving { IsServing D.view table.now pen.old desk.old 0 }
    ensures serving { IsServing D.view table.now pen.new desk.new (length desk.new.slots.items) }
    ensures beside { GoesBeside pen.old pen.new }
    ensures told { (k : ℕ) → IsServed ((past_at pen.old).slots k) ((past_at pen.new).slots k) }
{
    for k in 0..desk.slots.len() {
        serve_one(table, pen, desk, k);
    }
}

// Serves one slot, none of which is filled and not sealed: what was written for it is on the disk.
fn serve_one<D: Disk + Drop>(table: &BoxTable<D>, pen: &mut Pen<D>, desk: &mut Desk<D>, k: usize)
    requires serving { IsServing D.view table.now pen.old desk.old k }
    requires within { k < length desk.old.slots.items }
    ensures serving { IsServing D.view table.now pen.new desk.new (k + 1) }
    ensures beside { GoesBeside pen.old pen.new }
    ensures told { ServesOne k pen.old pen.new }
{
    match desk.kind_at(k) {
        Kind::Opened => settle_one(table, pen, desk, k),
        Kind::Placed => desk.slots[k].copy(&desk.disk),
        Kind::Closing => idle_one(table, pen, desk, k),
        _ => {}
    }
}

// A commit whose gate is open on the disk is durable: its turn is taken, and waits for its core; it has ended, and its fresh blocks are let go of.
fn settle_one<D: Disk + Drop>(table: &BoxTable<D>, pen: &mut Pen<D>, desk: &mut Desk<D>, k: usize)
    requires serving { IsServing D.view table.now pen.old desk.old k }
    requires kind { HasKind desk.old.slots.items k kind.Opened }
    ensures serving { IsServing D.view table.now pen.new desk.new (k + 1) }
    ensures beside { GoesBeside pen.old pen.new }
    ensures told { ServesOne k pen.old pen.new }
{
    let owner = desk.owner_of(k);
    let core = CoreId(owner as u8);
    let alloc = *desk.slots.allocator();
    desk.slots[k].land(&desk.disk, alloc);
    let turn = desk.slot_turn(core, k, TurnAct::Durable);
    desk.turns.push(turn);
    desk.waits[owner] = Some(turn);
    desk.ledger.end(core);
    note(table, pen, &Label::Settled { slot: k, turn });
}

// A slot whose gate is shut on the disk is idle.
fn idle_one<D: Disk + Drop>(table: &BoxTable<D>, pen: &mut Pen<D>, desk: &mut Desk<D>, k: usize)
    requires serving { IsServing D.view table.now pen.old desk.old k }
    requires kind { HasKind desk.old.slots.items k kind.Closing }
    ensures serving { IsServing D.view table.now pen.new desk.new (k + 1) }
    ensures beside { GoesBeside pen.old pen.new }
    ensures told { ServesOne k pen.old pen.new }
{
    desk.slots[k].close(&desk.disk);
    note(table, pen, &Label::Idled { slot: k });
}
