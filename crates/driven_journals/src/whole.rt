// A core's commits as a whole, one behind another.
ghost use Rattle.std.specs.Prelude.{◌≡◌};
ghost use Rattle.disk_box.specs.Pens.{PenGoes};
ghost use Rattle.driven_journals.specs.Due.{DueFits, HasGrant, IsFree};
ghost use Rattle.driven_journals.specs.declared.due.Due.TheVariants as due;

use crate::asking::{ONE_BLOCK, due_behind, first_of, give_back};
use crate::due::{Came, Due};
use crate::job::{Job, tx_of};
use disk_box::Pen;
use fmt_super::Layout;
use journal_set::JournalSet;
use sfs_base::Gate;
use sfs_dev::Disk;
use slot_laws::Seen;
use space_map::Grant;
use std::alloc::Global;
use std::sync::Wait;

/// Reserves for a job and commits it, to its end. Answers the block that was granted for it, 0 where none was.
pub(crate) fn commit_one<R: Wait, D: Disk + Drop, G: Gate>(
    rt: &R,
    alloc: Global,
    set: &JournalSet<D>,
    layout: &Layout,
    pen: &mut Pen<D>,
    job: &Job,
    seen: &[Seen],
    gate: &G,
) -> (Due, Came, u32)
    requires free { IsFree set.now pen.old }
    requires layout { pen.old.table.given.layout ≡ layout.now }
    ensures fits { DueFits set.now pen.new result.0 }
    ensures goes { PenGoes pen.old pen.new }
{
    match set.reserve(rt, alloc, pen, job.fsync, seen, ONE_BLOCK) {
        Ok(grant) => commit_granted(rt, alloc, set, layout, pen, job, grant, gate),
        Err(fault) => (due_behind(fault), Came::Refused { fault }, 0),
    }
}

// Commits a job with its grant.
fn commit_granted<R: Wait, D: Disk + Drop, G: Gate>(
    rt: &R,
    alloc: Global,
    set: &JournalSet<D>,
    layout: &Layout,
    pen: &mut Pen<D>,
    job: &Job,
    grant: Grant,
    gate: &G,
) -> (Due, Came, u32)
    requires has { HasGrant set.now pen.old grant }
    requires layout { pen.old.table.given.layout ≡ layout.now }
    ensures fits { DueFits set.now pen.new result.0 }
    ensures goes { PenGoes pen.old pen.new }
{
    let block = first_of(&grant);
    let Some(tx) = tx_of(alloc, layout, job, &grant) else {
        let (now, came) = give_back(rt, set, pen, job, grant);
        return (now, came, 0);
    };
    match set.commit(rt, alloc, pen, job.fsync, tx, grant, gate) {
        Ok(ack) => (Due::Rests, Came::Durable { ack }, block),
        Err(fault) => (due_behind(fault), Came::Refused { fault }, block),
    }
}
