// What follows from what the states say.
ghost use Rattle.std.specs.Prelude.{◌≡◌};
ghost use Rattle.journal_one.specs.Job.{HaveOwnBlocks, without_fresh};
ghost use Rattle.journal_one.specs.Known.{IsDurable, IsFilling, IsIdle};
ghost use Rattle.journal_one.specs.Laws.{BodiesAreRead, HeadsAreSpelled, OpenSlotsSettle, PiecesLeaveTheGate, PlacedRecordsAreInTheTable};

use crate::{Durable, Filling};
use sfs_dev::Disk;

/// A slot that was idle on a disk is filling there once a commit has begun that writes no block
/// twice. It makes no device call.
pub fn fillings_begin<D: Disk>(filling: &Filling, _disk: &D)
    requires { filling.now.done ≡ 0 }
    ensures { IsIdle filling.now.job.place (D.view _disk.now) → HaveOwnBlocks filling.now.job.fresh → IsFilling filling.now.job 0 (D.view _disk.now) }
{}

/// What is known of a durable slot is known of it without its fresh blocks. It makes no device call.
pub fn sheds_keep<D: Disk>(durable: &Durable, _disk: &D)
    ensures { IsDurable durable.now.job durable.now.done (D.view _disk.now)
        → IsDurable (without_fresh durable.now.job) durable.now.done (D.view _disk.now) }
{}

/// Where the body of a commit stands in an image, its slot has the commit stamp and the records.
pub fn bodies_are_read()
    ensures { BodiesAreRead }
{}

/// Where the body of a commit stands in an image, its slot's first block has the bytes of its head.
pub fn heads_are_spelled()
    ensures { HeadsAreSpelled }
{}

/// No write that fills a slot covers the byte of its gate.
pub fn pieces_leave_the_gate()
    ensures { PiecesLeaveTheGate }
{}

/// A record of an open slot is settled where no other open slot has one with a commit stamp as great.
pub fn open_slots_settle()
    ensures { OpenSlotsSettle }
{}

/// A record that was placed is the table's.
pub fn placed_records_are_in_the_table()
    ensures { PlacedRecordsAreInTheTable }
{}
