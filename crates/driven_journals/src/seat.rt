// One core at the journals.
ghost use Rattle.std.specs.Prelude.{◌≡◌, true};
ghost use Rattle.disk_box.specs.Pens.{PenGoes};
ghost use Rattle.driven_journals.specs.Due.{DueFits, is_at_rest};
ghost use Rattle.driven_journals.specs.Seats.{SeatFits, SeatGoes};

use crate::asking::ask;
use crate::book::{Book, File};
use crate::due::{Came, Due};
use crate::stepping::step;
use crate::whole::commit_one;
use disk_box::Pen;
use fmt_super::Layout;
use journal_set::JournalSet;
use sfs_base::Gate;
use sfs_dev::Disk;
use std::alloc::Global;
use std::sync::Wait;
use std::sync::atomic::{AtomicU64, Ordering};
use std::{mem, thread};

/// A core at the journals: its pen, what is due of it, and what it commits.
#[derive(Drop)]
pub struct Seat<D: Disk> {
    pub(crate) pen: Pen<D>,
    pub(crate) due: Due,
    pub(crate) book: Book,
}

// Whether nothing is due.
pub(crate) fn is_at_rest(now: &Due) -> bool
    ensures { result ≡ is_at_rest now.now }
{
    match now {
        Due::Rests | Due::Over => true,
        Due::Waits { .. } | Due::Flies { .. } => false,
    }
}

// What is due is taken out of its place.
fn taken(now: &mut Due) -> Due
    ensures { result ≡ now.old }
{
    mem::replace(now, Due::Over)
}

// A turn of a core for what is due, or, where it rests and has commits left to make, towards its next commit.
fn next_due<R: Wait, D: Disk + Drop>(
    rt: &R,
    alloc: Global,
    set: &JournalSet<D>,
    layout: &Layout,
    pen: &mut Pen<D>,
    now: Due,
    book: &Book,
) -> (Due, Came)
    requires fits { DueFits set.now pen.old now }
    requires layout { pen.old.table.given.layout ≡ layout.now }
    ensures fits { DueFits set.now pen.new result.0 }
    ensures goes { PenGoes pen.old pen.new }
{
    match now {
        Due::Rests => {
            if book.left == 0 {
                return (Due::Rests, Came::Goes);
            }
            let (seen, count) = book.seen();
            ask(rt, alloc, set, layout, pen, &book.job(), &seen[..count])
        }
        other => step(rt, set, pen, other),
    }
}

/// A turn of a core.
pub(crate) fn turn_at<R: Wait, D: Disk + Drop>(
    rt: &R,
    alloc: Global,
    set: &JournalSet<D>,
    layout: &Layout,
    seat: &mut Seat<D>,
) -> Came
    requires fits { SeatFits set.now layout.now seat.old }
    ensures fits { SeatFits set.now layout.now seat.new }
    ensures goes { PenGoes seat.old.pen seat.new.pen }
{
    let now = taken(&mut seat.due);
    let (next, came) = next_due(rt, alloc, set, layout, &mut seat.pen, now, &seat.book);
    seat.due = next;
    seat.book.note(came);
    came
}

/// A core is to commit a file from now on, so often.
pub(crate) fn hand_to<D: Disk>(seat: &mut Seat<D>, file: File, left: u32)
    ensures due { seat.new.due ≡ seat.old.due }
    ensures pen { seat.new.pen ≡ seat.old.pen }
{
    seat.book.take(file, left);
}

// The next commit of a core that rests, from its beginning to its end.
fn commit_next<R: Wait, D: Disk + Drop, G: Gate>(
    rt: &R,
    alloc: Global,
    set: &JournalSet<D>,
    layout: &Layout,
    seat: &mut Seat<D>,
    gate: &G,
)
    requires fits { SeatFits set.now layout.now seat.old }
    ensures fits { SeatFits set.now layout.now seat.new }
    ensures goes { PenGoes seat.old.pen seat.new.pen }
{
    if let Due::Rests = seat.due {
        let job = seat.book.job();
        let (seen, count) = seat.book.seen();
        let (next, came, block) = commit_one(
            rt,
            alloc,
            set,
            layout,
            &mut seat.pen,
            &job,
            &seen[..count],
            gate,
        );
        seat.due = next;
        if block != 0 {
            seat.book.note(Came::Granted { block });
        }
        seat.book.note(came);
    } else {
        seat.book.left = 0;
    }
}

/// Makes the commits that a core has left, each from its beginning to its end.
pub(crate) fn commit_all<R: Wait, D: Disk + Drop, G: Gate>(
    rt: &R,
    alloc: Global,
    set: &JournalSet<D>,
    layout: &Layout,
    seat: &mut Seat<D>,
    gate: &G,
    answered: &AtomicU64,
)
    requires fits { SeatFits set.now layout.now seat.old }
    ensures { SeatGoes set.now layout.now seat.old seat.new }
{
    for _ in rt.forever() {
        if seat.book.left == 0 {
            return;
        }
        commit_next(rt, alloc, set, layout, seat, gate);
        answered.fetch_add(1, Ordering::SeqCst);
        thread::yield_now();
    }
    unreachable!()
}
