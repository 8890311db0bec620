// An fsync that waits is tried until it is answered.
ghost use Rattle.std.specs.Prelude.{◌≡◌};
ghost use Rattle.mem_calls.specs.Table.{nodes_of};
ghost use Rattle.disk_box.specs.Pens.{PenGoes};
ghost use Rattle.journal_set.specs.Ready.{IsReady};
ghost use Rattle.fsync_dir.specs.Attempt.{attempt_at};
ghost use Rattle.fsync_dir.specs.Flush.{IsServed, WaitsToFlush};
ghost use Rattle.fsync_dir.specs.Site.{IsSite, ToldAsReserved};

use crate::attempt::{OwnFsync, attempt};
use crate::site::FlushSite;
use disk_box::Pen;
use mem_values::FileCore;
use sfs_base::Gate;
use sfs_dev::Disk;
use std::alloc::Global;
use std::sync::Wait;
use tree_laws::Reply;

/// Flushes what an fsync concerns that waits, and answers it. As long as a node of it has moved meanwhile it begins anew, with the same stamp.
pub(crate) fn serve<R: Wait, D: Disk + Drop, G: Gate>(
    rt: &R,
    alloc: Global,
    site: &FlushSite<D>,
    core: &mut FileCore,
    pen: &mut Pen<D>,
    own: &OwnFsync,
    gate: &G,
) -> Reply
    requires site { IsSite site.now.table.now (nodes_of site.now.table.now) site.now.cores pen.old.table.given }
    requires ready { IsReady site.now.set.now pen.old }
    requires agree { ToldAsReserved core.old pen.old }
    requires waits { WaitsToFlush site.now.table.now (nodes_of site.now.table.now) own.now.fsync own.now.file core.old }
    ensures ready { IsReady site.now.set.now pen.new }
    ensures goes { PenGoes pen.old pen.new }
    ensures room { pen.new.room ≡ pen.old.room }
    ensures comes { IsServed (attempt_at site.now.table.now (nodes_of site.now.table.now) own.now core.old pen.old) core.new pen.new result }
{
    for _ in rt.forever() {
        if let Some(given) = attempt(rt, alloc, site, core, pen, own, gate) {
            return given;
        }
    }
    unreachable!()
}
