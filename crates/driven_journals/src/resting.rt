// What a core that rests may ask for, which leaves it at rest or stops it.
ghost use Rattle.std.specs.Prelude.{◌≡◌};
ghost use Rattle.disk_box.specs.Pens.{PenGoes};
ghost use Rattle.driven_journals.specs.Due.{DueFits, IsFree};
ghost use Rattle.driven_journals.specs.Seats.{SeatFits};

use crate::asking::{ONE_BLOCK, due_behind, first_of, give_back};
use crate::due::Due;
use crate::job::Job;
use crate::seat::Seat;
use disk_box::Pen;
use fmt_super::Layout;
use journal_set::{Ack, CommitFault, JournalSet};
use sfs_dev::Disk;
use slot_laws::Seen;
use std::alloc::Global;
use std::sync::Wait;

// A commit without records.
fn empty_one<R: Wait, D: Disk + Drop>(
    rt: &R,
    alloc: Global,
    set: &JournalSet<D>,
    pen: &mut Pen<D>,
    job: &Job,
    seen: &[Seen],
) -> (Due, Result<Ack, CommitFault>)
    requires free { IsFree set.now pen.old }
    ensures fits { DueFits set.now pen.new result.0 }
    ensures goes { PenGoes pen.old pen.new }
{
    match set.commit_empty(rt, alloc, pen, job.fsync, seen) {
        Ok(ack) => (Due::Rests, Ok(ack)),
        Err(fault) => (due_behind(fault), Err(fault)),
    }
}

// What is reserved for a job is given back. Answers the block that was granted.
fn try_one<R: Wait, D: Disk + Drop>(
    rt: &R,
    alloc: Global,
    set: &JournalSet<D>,
    pen: &mut Pen<D>,
    job: &Job,
    seen: &[Seen],
) -> (Due, Result<u32, CommitFault>)
    requires free { IsFree set.now pen.old }
    ensures fits { DueFits set.now pen.new result.0 }
    ensures goes { PenGoes pen.old pen.new }
{
    match set.reserve(rt, alloc, pen, job.fsync, seen, ONE_BLOCK) {
        Ok(grant) => {
            let block = first_of(&grant);
            let (next, _) = give_back(rt, set, pen, job, grant);
            (next, Ok(block))
        }
        Err(fault) => (due_behind(fault), Err(fault)),
    }
}

/// A core that rests makes a commit without records.
pub(crate) fn empty_at<R: Wait, D: Disk + Drop>(
    rt: &R,
    alloc: Global,
    set: &JournalSet<D>,
    layout: &Layout,
    seat: &mut Seat<D>,
) -> Option<Result<Ack, CommitFault>>
    requires fits { SeatFits set.now layout.now seat.old }
    ensures fits { SeatFits set.now layout.now seat.new }
    ensures goes { PenGoes seat.old.pen seat.new.pen }
{
    let Due::Rests = seat.due else { return None };
    let job = seat.book.job();
    let (seen, count) = seat.book.seen();
    let (next, result) = empty_one(rt, alloc, set, &mut seat.pen, &job, &seen[..count]);
    seat.due = next;
    if let Ok(ack) = result {
        seat.book.note_empty(ack);
    }
    Some(result)
}

/// A core that rests reserves for its next commit, and gives back.
pub(crate) fn try_at<R: Wait, D: Disk + Drop>(
    rt: &R,
    alloc: Global,
    set: &JournalSet<D>,
    layout: &Layout,
    seat: &mut Seat<D>,
) -> Option<Result<u32, CommitFault>>
    requires fits { SeatFits set.now layout.now seat.old }
    ensures fits { SeatFits set.now layout.now seat.new }
    ensures goes { PenGoes seat.old.pen seat.new.pen }
{
    let Due::Rests = seat.due else { return None };
    let job = seat.book.job();
    let (seen, count) = seat.book.seen();
    let (next, result) = try_one(rt, alloc, set, &mut seat.pen, &job, &seen[..count]);
    seat.due = next;
    Some(result)
}
