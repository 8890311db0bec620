// A core that has a grant builds its transaction and commits it, or gives the grant back.
ghost use Rattle.std.specs.Prelude.{◌≡◌};
ghost use Rattle.disk_change.specs.Planned.{Planned};
ghost use Rattle.slot_laws.specs.Labels.{fsync_told};
ghost use Rattle.disk_box.specs.Pens.{PenGoes};
ghost use Rattle.journal_set.specs.Committing.{CanBeCommitted};
ghost use Rattle.journal_set.specs.Ready.{IsReady};
ghost use Rattle.fsync_commit.specs.Asked.{IsChangeOn};
ghost use Rattle.fsync_commit.specs.Coming.{HandsGrantBack, GrantComes};
ghost use Rattle.fsync_commit.specs.Granting.{IsBuiltOf, IsGranted, IsGrantOn};
ghost use Rattle.journal_set.specs.declared.fault.CommitFault.TheVariants as fault;

use crate::landing::{CommitRefusal, Landed, refusal};
use disk_box::{Fsync, Pen};
use disk_change::{Built, DiskChange, build};
use disk_nodes::OldDisk;
use journal_set::{CommitFault, JournalSet};
use sfs_base::Gate;
use sfs_dev::Disk;
use space_map::Grant;
use std::alloc::Global;
use std::sync::Wait;

/// Builds the transaction of a change with its grant and commits it. Where memory is wanting the grant is given back; so it is where the transaction has no
/// record though something was needed, which no disk comes to whose free blocks nobody has, and which no clause here excludes.
pub(crate) fn build_granted<R: Wait, D: Disk + Drop, G: Gate>(
    rt: &R,
    alloc: Global,
    set: &JournalSet<D>,
    pen: &mut Pen<D>,
    fsync: Fsync,
    change: DiskChange,
    grant: Grant,
    gate: &G,
) -> Result<Landed, CommitRefusal>
    requires granted { IsGranted set.now pen.old grant }
    requires change { IsChangeOn pen.old.table.given.layout change }
    requires grant { IsGrantOn pen.old.table.given.layout change grant }
    ensures ready { IsReady set.now pen.new }
    ensures goes { PenGoes pen.old pen.new }
    ensures room { pen.new.room ≡ pen.old.room }
    ensures comes { GrantComes (fsync_told fsync.node fsync.stamp) pen.old pen.new change grant result }
{
    match build(alloc, change, &grant) {
        Ok(built) => {
            if built.tx.records.is_empty() {
                let old = built.nodes.into_old();
                Err(give_all_back(rt, set, pen, fsync, grant, old))
            } else {
                commit_built(rt, alloc, set, pen, fsync, built, grant, gate)
            }
        }
        Err(change) => {
            let old = change.into_old();
            Err(give_all_back(rt, set, pen, fsync, grant, old))
        }
    }
}

// Gives a grant back, and hands back what the disk has of the nodes.
fn give_all_back<R: Wait, D: Disk + Drop>(
    rt: &R,
    set: &JournalSet<D>,
    pen: &mut Pen<D>,
    fsync: Fsync,
    grant: Grant,
    old: OldDisk,
) -> CommitRefusal
    requires granted { IsGranted set.now pen.old grant }
    ensures ready { IsReady set.now pen.new }
    ensures goes { PenGoes pen.old pen.new }
    ensures room { pen.new.room ≡ pen.old.room }
    ensures back { HandsGrantBack (fsync_told fsync.node fsync.stamp) pen.old pen.new }
    ensures refusal { result ≡ record { fault = fault.NoMemory; old = old } }
{
    set.give_back(rt, pen, fsync, grant);
    refusal(CommitFault::NoMemory, old)
}

/// Commits a transaction that has records, with its grant.
pub(crate) fn commit_built<R: Wait, D: Disk + Drop, G: Gate>(
    rt: &R,
    alloc: Global,
    set: &JournalSet<D>,
    pen: &mut Pen<D>,
    fsync: Fsync,
    built: Built,
    grant: Grant,
    gate: &G,
) -> Result<Landed, CommitRefusal>
    requires granted { IsGranted set.now pen.old grant }
    requires can { CanBeCommitted pen.old.table.given.layout built.tx }
    ensures ready { IsReady set.now pen.new }
    ensures goes { PenGoes pen.old pen.new }
    ensures room { pen.new.room ≡ pen.old.room }
    ensures comes { (change : Planned) → IsBuiltOf change grant built
        → GrantComes (fsync_told fsync.node fsync.stamp) pen.old pen.new change grant result }
{
    let Built { tx, nodes } = built;
    match set.commit(rt, alloc, pen, fsync, tx, grant, gate) {
        Ok(ack) => Ok(Landed { ack, nodes }),
        Err(fault) => Err(refusal(fault, nodes.into_old())),
    }
}
