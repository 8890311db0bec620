// A core takes the box, tells what it does there, and brings it home.
ghost use Rattle.std.specs.Prelude.{◌≡◌, ◌+◌, ◌<◌, ◌∷◌, ◌++◌, []};
ghost use Rattle.stamp_table.specs.declared.event.Event.TheVariants.{Told};
ghost use Rattle.slot_laws.specs.declared.label.Label.TheVariants as label;
ghost use Rattle.slot_laws.specs.Rules.{MayLabel};
ghost use Rattle.disk_box.specs.Pens.{HoldsBox, IsAmid, IsAtDesk, IsOutside, PenGoes, TakesBox, TellsLabel, own_at, past_at};

use crate::{BoxTable, Desk, Pen};
use sfs_dev::Disk;
use slot_laws::Label;
use std::sync::Wait;

/// Takes the box, and what lies in it. It waits while another core has it.
pub fn enter<R: Wait, D: Disk + Drop>(rt: &R, table: &BoxTable<D>, pen: &mut Pen<D>) -> Desk<D>
    requires outside { IsOutside table.now pen.old }
    requires room { 0 < pen.old.room }
    ensures at { IsAtDesk D.view table.now pen.new result }
    ensures goes { PenGoes pen.old pen.new }
    ensures own { own_at pen.new ≡ own_at pen.old }
    ensures mine { pen.new.view.mine ≡ pen.old.view.mine ++ Told (record { 0 = pen.old.view.core }) label.Took ∷ [] }
    ensures takes { TakesBox pen.old pen.new }
    ensures room { pen.new.room + 1 ≡ pen.old.room }
{
    pen.hold_one(rt, table, 0);
    let Some(desk) = pen.replace(0, None) else {
        unreachable!()
    };
    pen.tell(table, &Label::Took);
    desk
}

/// Tells a label while the core has the box.
pub fn note<D: Disk + Drop>(table: &BoxTable<D>, pen: &mut Pen<D>, label: &Label)
    requires holds { HoldsBox table.now pen.old }
    requires amid { IsAmid label.now }
    requires may { MayLabel pen.old.table.given.layout pen.old.table.given.faults pen.old.view.core label.now (past_at pen.old) }
    ensures holds { HoldsBox table.now pen.new }
    ensures tells { TellsLabel label.now pen.old pen.new }
{
    pen.tell(table, label);
}

/// Brings the box home, with what lies in it.
pub fn leave<D: Disk + Drop>(table: &BoxTable<D>, pen: &mut Pen<D>, desk: Desk<D>)
    requires at { IsAtDesk D.view table.now pen.old desk }
    ensures outside { IsOutside table.now pen.new }
    ensures goes { PenGoes pen.old pen.new }
    ensures own { own_at pen.new ≡ own_at pen.old }
    ensures mine { pen.new.view.mine ≡ pen.old.view.mine ++ Told (record { 0 = pen.old.view.core }) label.Gave ∷ [] }
    ensures seen { pen.new.view.seen ≡ pen.old.view.seen ++ Told (record { 0 = pen.old.view.core }) label.Gave ∷ [] }
    ensures room { pen.new.room ≡ pen.old.room + 1 }
{
    pen.tell(table, &Label::Gave);
    let _ = pen.replace(0, Some(desk));
    pen.let_go(table, 0);
}
