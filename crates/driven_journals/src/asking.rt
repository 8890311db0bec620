// A core reserves for a job, and packs it.
ghost use Rattle.std.specs.Prelude.{◌≡◌, Some, false};
ghost use Rattle.disk_box.specs.Pens.{IsOutside, PenGoes, own_at};
ghost use Rattle.journal_set.specs.Grants.{grant_at};
ghost use Rattle.driven_journals.specs.Due.{DueFits, HasGrant, IsFree, due_behind};
ghost use Rattle.driven_journals.specs.declared.due.Due.TheVariants as due;

use crate::due::{Came, Due};
use crate::job::{Job, tx_of};
use disk_box::Pen;
use fmt_super::Layout;
use journal_set::{CommitFault, JournalSet, Writing};
use sfs_dev::Disk;
use slot_laws::Seen;
use space_map::{Grant, Need};
use std::alloc::Global;
use std::sync::Wait;

/// What every job needs: one block.
pub(crate) const ONE_BLOCK: Need = Need {
    inodes: 0,
    blocks: 1,
};

/// What is due behind a commit that was refused or failed.
pub(crate) fn due_behind(fault: CommitFault) -> Due
    ensures { result ≡ due_behind fault }
{
    match fault {
        CommitFault::DiskFailed { .. } | CommitFault::Stopped { .. } => Due::Over,
        _ => Due::Rests,
    }
}

/// Reserves for a job of these nodes as they were seen, and packs it.
pub(crate) fn ask<R: Wait, D: Disk + Drop>(
    rt: &R,
    alloc: Global,
    set: &JournalSet<D>,
    layout: &Layout,
    pen: &mut Pen<D>,
    job: &Job,
    seen: &[Seen],
) -> (Due, Came)
    requires free { IsFree set.now pen.old }
    requires layout { pen.old.table.given.layout ≡ layout.now }
    ensures fits { DueFits set.now pen.new result.0 }
    ensures goes { PenGoes pen.old pen.new }
{
    match set.reserve(rt, alloc, pen, job.fsync, seen, ONE_BLOCK) {
        Ok(grant) => pack(rt, alloc, set, layout, pen, job, grant),
        Err(fault) => (due_behind(fault), Came::Refused { fault }),
    }
}

// Packs a job with its grant, which goes back where memory is wanting.
fn pack<R: Wait, D: Disk + Drop>(
    rt: &R,
    alloc: Global,
    set: &JournalSet<D>,
    layout: &Layout,
    pen: &mut Pen<D>,
    job: &Job,
    grant: Grant,
) -> (Due, Came)
    requires has { HasGrant set.now pen.old grant }
    requires layout { pen.old.table.given.layout ≡ layout.now }
    ensures fits { DueFits set.now pen.new result.0 }
    ensures goes { PenGoes pen.old pen.new }
{
    let Some(tx) = tx_of(alloc, layout, job, &grant) else {
        return give_back(rt, set, pen, job, grant);
    };
    let block = first_of(&grant);
    match Writing::new(alloc, tx, grant, job.fsync) {
        Ok(writing) => (Due::Waits { writing }, Came::Granted { block }),
        Err(back) => give_back(rt, set, pen, job, back),
    }
}

// The first block of a grant, 0 where it has none.
pub(crate) fn first_of(grant: &Grant) -> u32 {
    match grant.blocks().get(0) {
        Some(block) => *block,
        None => 0,
    }
}

/// Gives back what was granted for a job.
pub(crate) fn give_back<R: Wait, D: Disk + Drop>(
    rt: &R,
    set: &JournalSet<D>,
    pen: &mut Pen<D>,
    job: &Job,
    grant: Grant,
) -> (Due, Came)
    requires has { HasGrant set.now pen.old grant }
    ensures fits { DueFits set.now pen.new result.0 }
    ensures goes { PenGoes pen.old pen.new }
{
    set.give_back(rt, pen, job.fsync, grant);
    (
        Due::Rests,
        Came::Refused {
            fault: CommitFault::NoMemory,
        },
    )
}
