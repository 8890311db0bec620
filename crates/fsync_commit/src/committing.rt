// The plan of an fsync is committed. What it needs is reserved before its transaction is built; one that needs nothing is built first, so that it asks
// for no number where it has nothing to write.
ghost use Rattle.std.specs.Prelude.{◌≡◌, ◌&&◌, ◌==◌};
ghost use Rattle.tree_laws.specs.declared.reply.Reply.{Reply};
ghost use Rattle.slot_laws.specs.Labels.{fsync_told};
ghost use Rattle.disk_box.specs.Pens.{PenGoes, own_at};
ghost use Rattle.journal_set.specs.Ready.{IsReady};
ghost use Rattle.journal_set.specs.Ways.{IsAnsweredBy, TakesWay};
ghost use Rattle.fsync_commit.specs.Asked.{IsChangeOn, IsSpaceOn};
ghost use Rattle.fsync_commit.specs.Coming.{AreLow, PlanComesTo, given_by};

use crate::building::{build_and_commit, end_or_commit};
use crate::landing::{CommitRefusal, Landed};
use disk_box::{Fsync, Pen};
use disk_change::{DiskChange, need};
use journal_set::JournalSet;
use sfs_base::Gate;
use sfs_dev::Disk;
use slot_laws::Seen;
use space_map::Need;
use std::alloc::Global;
use std::sync::Wait;

/// Commits what an fsync's plan changes, for the nodes that it concerns as they were seen (`seen` as in `JournalSet::reserve`). Where nothing is needed
/// and no record differs, the commit takes one turn and makes no device call. It answers what the disk has of the nodes once the commit is durable;
/// or why it is not, with what the disk has as it was: `NoSpace`, `Stopped` and `Moved` from the reserving, `Stopped` and `DiskFailed` from the commit, and
/// `NoMemory`, and then what was reserved is given back. It waits for the box.
pub fn commit_plan<R: Wait, D: Disk + Drop, G: Gate>(
    rt: &R,
    alloc: Global,
    set: &JournalSet<D>,
    pen: &mut Pen<D>,
    fsync: Fsync,
    seen: &[Seen],
    change: DiskChange,
    gate: &G,
) -> Result<Landed, CommitRefusal>
    requires ready { IsReady set.now pen.old }
    requires space { IsSpaceOn pen.old.table.given.layout pen.old.table.given.space }
    requires change { IsChangeOn pen.old.table.given.layout change }
    ensures ready { IsReady set.now pen.new }
    ensures goes { PenGoes pen.old pen.new }
    ensures room { pen.new.room ≡ pen.old.room }
    ensures comes { PlanComesTo (record { flush = fsync_told fsync.node fsync.stamp; seen = seen.now; change = change }) pen.old pen.new result }
    ensures low { AreLow pen.old.table.given.layout result }
    ensures way { (given : Reply) → IsAnsweredBy (given_by result) given → TakesWay given (own_at pen.old) (own_at pen.new) }
{
    let need = need(&change);
    if needs_nothing(need) {
        end_or_commit(rt, alloc, set, pen, fsync, seen, change, gate)
    } else {
        build_and_commit(rt, alloc, set, pen, fsync, seen, change, gate)
    }
}

// Whether nothing is needed.
fn needs_nothing(need: Need) -> bool
    ensures { result ≡ (need.inodes == 0 && need.blocks == 0) }
{
    need.inodes == 0 && need.blocks == 0
}
