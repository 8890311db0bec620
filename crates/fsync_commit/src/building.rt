// What a commit needs is reserved, and its transaction is built and committed, or given back.
ghost use Rattle.std.specs.Prelude.{◌≡◌, []};
ghost use Rattle.slot_laws.specs.Labels.{fsync_told};
ghost use Rattle.slot_laws.specs.Nodes.{no_numbers};
ghost use Rattle.disk_box.specs.Pens.{PenGoes};
ghost use Rattle.journal_set.specs.Committing.{CanBeCommitted};
ghost use Rattle.journal_set.specs.Emptying.{NOTHING};
ghost use Rattle.journal_set.specs.Ready.{IsReady};
ghost use Rattle.fsync_commit.specs.Asked.{IsChangeOn, IsSpaceOn, need_planned};
ghost use Rattle.fsync_commit.specs.Coming.{PlanComesTo};
ghost use Rattle.disk_change.specs.Planned.{Planned};
ghost use Rattle.fsync_commit.specs.Granting.{IsBuiltOf};
ghost use Rattle.journal_set.specs.declared.fault.CommitFault.TheVariants as fault;

use crate::granted::{build_granted, commit_built};
use crate::landing::{CommitRefusal, Landed, refusal};
use disk_box::{Fsync, Pen};
use disk_change::{Built, DiskChange, NodeChanges, build, need};
use journal_set::{CommitFault, JournalSet};
use sfs_base::Gate;
use sfs_dev::Disk;
use slot_laws::Seen;
use space_map::{Grant, Need};
use std::alloc::Global;
use std::sync::Wait;

/// Reserves what a change needs, builds its transaction and commits it.
pub(crate) fn build_and_commit<R: Wait, D: Disk + Drop, G: Gate>(
    rt: &R,
    alloc: Global,
    set: &JournalSet<D>,
    pen: &mut Pen<D>,
    fsync: Fsync,
    seen: &[Seen],
    change: DiskChange,
    gate: &G,
) -> Result<Landed, CommitRefusal>
    requires ready { IsReady set.now pen.old }
    requires space { IsSpaceOn pen.old.table.given.layout pen.old.table.given.space }
    requires change { IsChangeOn pen.old.table.given.layout change }
    ensures ready { IsReady set.now pen.new }
    ensures goes { PenGoes pen.old pen.new }
    ensures room { pen.new.room ≡ pen.old.room }
    ensures comes { PlanComesTo (record { flush = fsync_told fsync.node fsync.stamp; seen = seen.now; change = change }) pen.old pen.new result }
{
    match set.reserve(rt, alloc, pen, fsync, seen, need(&change)) {
        Ok(grant) => build_granted(rt, alloc, set, pen, fsync, change, grant, gate),
        Err(fault) => Err(refusal(fault, change.into_old())),
    }
}

/// The same for a change that needs nothing, whose transaction is built first: where it has no record the commit ends in one turn.
pub(crate) fn end_or_commit<R: Wait, D: Disk + Drop, G: Gate>(
    rt: &R,
    alloc: Global,
    set: &JournalSet<D>,
    pen: &mut Pen<D>,
    fsync: Fsync,
    seen: &[Seen],
    change: DiskChange,
    gate: &G,
) -> Result<Landed, CommitRefusal>
    requires ready { IsReady set.now pen.old }
    requires space { IsSpaceOn pen.old.table.given.layout pen.old.table.given.space }
    requires change { IsChangeOn pen.old.table.given.layout change }
    requires nothing { need_planned change ≡ NOTHING }
    ensures ready { IsReady set.now pen.new }
    ensures goes { PenGoes pen.old pen.new }
    ensures room { pen.new.room ≡ pen.old.room }
    ensures comes { PlanComesTo (record { flush = fsync_told fsync.node fsync.stamp; seen = seen.now; change = change }) pen.old pen.new result }
{
    match build(alloc, change, &Grant::none(alloc)) {
        Ok(built) => {
            if built.tx.records.is_empty() {
                end_empty(rt, alloc, set, pen, fsync, seen, built)
            } else {
                commit_settled(rt, alloc, set, pen, fsync, seen, built, gate)
            }
        }
        Err(change) => Err(refusal(CommitFault::NoMemory, change.into_old())),
    }
}

// A commit whose transaction has no record ends in one turn.
fn end_empty<R: Wait, D: Disk + Drop>(
    rt: &R,
    alloc: Global,
    set: &JournalSet<D>,
    pen: &mut Pen<D>,
    fsync: Fsync,
    seen: &[Seen],
    built: Built,
) -> Result<Landed, CommitRefusal>
    requires ready { IsReady set.now pen.old }
    ensures ready { IsReady set.now pen.new }
    ensures goes { PenGoes pen.old pen.new }
    ensures room { pen.new.room ≡ pen.old.room }
    ensures comes { (change : Planned) → need_planned change ≡ NOTHING → IsBuiltOf change no_numbers built → built.tx.records.items ≡ []
        → PlanComesTo (record { flush = fsync_told fsync.node fsync.stamp; seen = seen.now; change = change }) pen.old pen.new result }
{
    match set.commit_empty(rt, alloc, pen, fsync, seen) {
        Ok(ack) => Ok(Landed {
            ack,
            nodes: built.nodes,
        }),
        Err(fault) => Err(refusal(fault, built.nodes.into_old())),
    }
}

// A commit that needs nothing and writes something reserves a number with nothing.
fn commit_settled<R: Wait, D: Disk + Drop, G: Gate>(
    rt: &R,
    alloc: Global,
    set: &JournalSet<D>,
    pen: &mut Pen<D>,
    fsync: Fsync,
    seen: &[Seen],
    built: Built,
    gate: &G,
) -> Result<Landed, CommitRefusal>
    requires ready { IsReady set.now pen.old }
    requires can { CanBeCommitted pen.old.table.given.layout built.tx }
    ensures ready { IsReady set.now pen.new }
    ensures goes { PenGoes pen.old pen.new }
    ensures room { pen.new.room ≡ pen.old.room }
    ensures comes { (change : Planned) → need_planned change ≡ NOTHING → IsBuiltOf change no_numbers built
        → PlanComesTo (record { flush = fsync_told fsync.node fsync.stamp; seen = seen.now; change = change }) pen.old pen.new result }
{
    let nothing = Need {
        inodes: 0,
        blocks: 0,
    };
    match set.reserve(rt, alloc, pen, fsync, seen, nothing) {
        Ok(grant) => commit_built(rt, alloc, set, pen, fsync, built, grant, gate),
        Err(fault) => Err(refusal(fault, built.nodes.into_old())),
    }
}
