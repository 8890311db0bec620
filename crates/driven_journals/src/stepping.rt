// One turn of a core for what is due of it.
ghost use Rattle.std.specs.Prelude.{◌≡◌};
ghost use Rattle.disk_box.specs.Pens.{PenGoes};
ghost use Rattle.journal_set.specs.Flying.{IsUnderWay};
ghost use Rattle.driven_journals.specs.Due.{DueFits};
ghost use Rattle.driven_journals.specs.declared.due.Due.TheVariants as due;

use crate::due::{Came, Due};
use disk_box::Pen;
use journal_set::{Beginning, Flight, JournalSet, Progress, Writing};
use sfs_dev::Disk;
use std::sync::Wait;

/// Takes a turn towards the end of the core's commit, where one is due.
pub(crate) fn step<R: Wait, D: Disk + Drop>(
    rt: &R,
    set: &JournalSet<D>,
    pen: &mut Pen<D>,
    now: Due,
) -> (Due, Came)
    requires fits { DueFits set.now pen.old now }
    ensures fits { DueFits set.now pen.new result.0 }
    ensures goes { PenGoes pen.old pen.new }
{
    match now {
        Due::Waits { writing } => begin(rt, set, pen, writing),
        Due::Flies { flight } => fly(rt, set, pen, flight),
        Due::Rests => (Due::Rests, Came::Goes),
        Due::Over => (Due::Over, Came::Goes),
    }
}

// A turn towards the beginning of its commit.
fn begin<R: Wait, D: Disk + Drop>(
    rt: &R,
    set: &JournalSet<D>,
    pen: &mut Pen<D>,
    writing: Writing,
) -> (Due, Came)
    requires fits { DueFits set.now pen.old (due.Waits writing) }
    ensures fits { DueFits set.now pen.new result.0 }
    ensures goes { PenGoes pen.old pen.new }
{
    match set.begin_turn(rt, pen, writing) {
        Ok(Beginning::Waits { writing: still }) => (Due::Waits { writing: still }, Came::Goes),
        Ok(Beginning::Begun { flight }) => (Due::Flies { flight }, Came::Goes),
        Err(fault) => (Due::Over, Came::Refused { fault }),
    }
}

// A turn of its commit under way.
fn fly<R: Wait, D: Disk + Drop>(
    rt: &R,
    set: &JournalSet<D>,
    pen: &mut Pen<D>,
    mut flight: Flight,
) -> (Due, Came)
    requires fits { DueFits set.now pen.old (due.Flies flight) }
    ensures fits { DueFits set.now pen.new result.0 }
    ensures goes { PenGoes pen.old pen.new }
{
    match set.commit_turn(rt, pen, &mut flight) {
        Ok(Progress::Goes) => (Due::Flies { flight }, Came::Goes),
        Ok(Progress::Filled) => (Due::Flies { flight }, Came::Filled),
        Ok(Progress::Durable { ack }) => (Due::Rests, Came::Durable { ack }),
        Err(fault) => (Due::Over, Came::Refused { fault }),
    }
}
