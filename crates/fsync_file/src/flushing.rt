// An fsync of a file that has an inode.
ghost use Rattle.std.specs.Prelude.{◌≡◌, ◌<◌, ◌≤◌};
ghost use Rattle.stamp_table.specs.Table.{IsBetweenCalls};
ghost use Rattle.mem_values.specs.Start.{given_by};
ghost use Rattle.mem_calls.specs.Table.{nodes_of};
ghost use Rattle.disk_box.specs.Pens.{PenGoes};
ghost use Rattle.journal_set.specs.Ready.{IsReady};
ghost use Rattle.fsync_stamp.specs.Stamping.{AnswersFsync};
ghost use Rattle.fsync_dir.specs.Flush.{FlushComes};
ghost use Rattle.fsync_dir.specs.Site.{IsSite, ToldAsReserved};
ghost use Rattle.fsync_file.specs.Saw.{HasSeenInode};

use disk_box::Pen;
use fsync_dir::FlushSite;
use fsync_stamp::STAMP_CELLS;
use mem_values::FileCore;
use sfs_base::{Gate, NodeId};
use sfs_dev::Disk;
use std::alloc::Global;
use std::sync::Wait;
use tree_laws::Reply;

/// Stamps the fsync of a file of which its core has seen that it had an inode, flushes the file and answers the fsync, with the answers of
/// `fsync_dir::flush`. It waits for cells of the table that other cores have, and for the box with the disk.
pub fn flush<R: Wait, D: Disk + Drop, G: Gate>(
    rt: &R,
    alloc: Global,
    site: &FlushSite<D>,
    core: &mut FileCore,
    pen: &mut Pen<D>,
    node: NodeId,
    gate: &G,
) -> Reply
    requires site { IsSite site.now.table.now (nodes_of site.now.table.now) site.now.cores pen.old.table.given }
    requires core { IsBetweenCalls site.now.table.now core.old }
    requires saw { HasSeenInode (given_by site.now.table.now) (nodes_of site.now.table.now) node core.old }
    requires spare { 0 < core.old.spare }
    requires cells { STAMP_CELLS ≤ core.old.room }
    requires ready { IsReady site.now.set.now pen.old }
    requires agree { ToldAsReserved core.old pen.old }
    ensures answers { AnswersFsync site.now.table.now node result core.old core.new }
    ensures ready { IsReady site.now.set.now pen.new }
    ensures goes { PenGoes pen.old pen.new }
    ensures room { pen.new.room ≡ pen.old.room }
    ensures agree { ToldAsReserved core.new pen.new }
    ensures comes { FlushComes site.now.table.now (nodes_of site.now.table.now) node core.old core.new pen.old pen.new result }
{
    fsync_dir::flush(rt, alloc, site, core, pen, node, gate)
}
