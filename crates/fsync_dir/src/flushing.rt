// An fsync of any node.
ghost use Rattle.std.specs.Prelude.{◌≡◌, ◌<◌, ◌≤◌, MatchResult};
ghost use Rattle.stamp_table.specs.Table.{IsBetweenCalls};
ghost use Rattle.mem_calls.specs.Table.{nodes_of};
ghost use Rattle.disk_box.specs.Pens.{PenGoes};
ghost use Rattle.journal_set.specs.Ready.{IsReady};
ghost use Rattle.fsync_stamp.specs.Stamping.{AnswersFsync};
ghost use Rattle.fsync_dir.specs.Flush.{FlushComes};
ghost use Rattle.fsync_dir.specs.Site.{IsSite, ToldAsReserved};
ghost use Rattle.fsync_dir.specs.Stamped.{OwnsCopy};

use crate::answering::answer_wanting;
use crate::attempt::OwnFsync;
use crate::serving::serve;
use crate::site::FlushSite;
use disk_box::Pen;
use fsync_catch::WaitingFsync;
use fsync_stamp::{Copied, STAMP_CELLS, StampedFsync, stamp_with_copy};
use mem_values::FileCore;
use sfs_base::{Gate, NodeId};
use sfs_dev::Disk;
use std::alloc::Global;
use std::sync::Wait;
use tree_laws::{Code, Reply};

// An fsync that waits, with what was copied of its node; the fsync alone, where memory for the copy was wanting.
fn own_fsync(node: NodeId, stamped: StampedFsync) -> Result<OwnFsync, WaitingFsync>
    ensures { MatchResult result (OwnsCopy node stamped) (λ fsync. fsync ≡ record { node = node; stamp = stamped.stamp }) }
{
    let fsync = WaitingFsync {
        node,
        stamp: stamped.stamp,
    };
    match stamped.copied {
        Copied::Directory => Ok(OwnFsync { fsync, file: None }),
        Copied::File { bytes } => Ok(OwnFsync {
            fsync,
            file: Some(bytes),
        }),
        Copied::Refused => Err(fsync),
    }
}

/// Stamps the fsync of a node, flushes what it concerns and answers it: `Ok` once its commit is durable; `NoEntry` where the node is not alive at the stamp;
/// `NoSpace`, `Stopped` and `DiskFailed` as `JournalSet::reserve` and `JournalSet::commit` say; and `NoMemory`, behind the stamp too. Where it is not `Ok` the
/// table is as it was but for the history. It waits for cells of the table that other cores have, and for the box with the disk.
pub fn flush<R: Wait, D: Disk + Drop, G: Gate>(
    rt: &R,
    alloc: Global,
    site: &FlushSite<D>,
    core: &mut FileCore,
    pen: &mut Pen<D>,
    node: NodeId,
    gate: &G,
) -> Reply
    requires site { IsSite site.now.table.now (nodes_of site.now.table.now) site.now.cores pen.old.table.given }
    requires core { IsBetweenCalls site.now.table.now core.old }
    requires spare { 0 < core.old.spare }
    requires cells { STAMP_CELLS ≤ core.old.room }
    requires ready { IsReady site.now.set.now pen.old }
    requires agree { ToldAsReserved core.old pen.old }
    ensures answers { AnswersFsync site.now.table.now node result core.old core.new }
    ensures ready { IsReady site.now.set.now pen.new }
    ensures goes { PenGoes pen.old pen.new }
    ensures room { pen.new.room ≡ pen.old.room }
    ensures agree { ToldAsReserved core.new pen.new }
    ensures comes { FlushComes site.now.table.now (nodes_of site.now.table.now) node core.old core.new pen.old pen.new result }
{
    let stamped = stamp_with_copy(rt, alloc, site.table, core, node, gate);
    let Some(stamped) = stamped else {
        return Reply::Error {
            code: Code::NoEntry,
        };
    };
    match own_fsync(node, stamped) {
        Ok(own) => serve(rt, alloc, site, core, pen, &own, gate),
        Err(fsync) => answer_wanting(site.table, core, fsync),
    }
}
