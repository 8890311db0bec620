// All that an fsync gathers.
ghost use Rattle.std.specs.Prelude.{map, All, IfOk};
ghost use Rattle.std.specs.List.Sorted.{IsStrictlyIncreasing};
ghost use Rattle.tree_laws.specs.NameRow.{node_number};
ghost use Rattle.dep_closure.specs.Gathered.{IsOrderly};
ghost use Rattle.note_laws.specs.Merged.{EndBelow, AreMergedOf};
ghost use Rattle.fsync_gather.specs.Gathers.{IsHeldOf, KeepOwn, GathersNodes};

use crate::PAST_ALL_STAMPS;
use crate::flushed::{gather_births, gather_cuts, gather_inodes};
use crate::merging::merge_all;
use dep_closure::Gathered;
use mem_cells::LogPart;
use mem_values::FileCore;
use sfs_base::{NoMemory, NodeId};
use std::alloc::Global;

/// Gathers what an fsync goes by: the changes of each directory of which one of the logs keeps one, and of the nodes `held`, which ascend
/// and whose values the core holds, their cuts, where they were made, and which have an inode. The logs are copies of those of all cores.
/// It takes time in proportion to the changes, the directories and the nodes, times the number of logs. Only want of memory refuses it.
pub fn gather(
    alloc: Global,
    core: &FileCore,
    nodes: u32,
    held: &[NodeId],
    parts: &[LogPart],
) -> Result<Gathered, NoMemory>
    requires holds { All (IsHeldOf nodes core.now.held) held.now }
    requires ascend { IsStrictlyIncreasing (map node_number held.now) }
    requires ends { EndBelow parts.now PAST_ALL_STAMPS }
    requires own { KeepOwn parts.now }
    ensures orderly { IfOk result IsOrderly }
    ensures merged { IfOk result (λ gathered. AreMergedOf parts.now gathered.logs.items) }
    ensures nodes { IfOk result (GathersNodes nodes core.now.held held.now) }
{
    let logs = merge_all(alloc, parts)?;
    let cuts = gather_cuts(alloc, core, nodes, held)?;
    let births = gather_births(alloc, core, nodes, held)?;
    let inodes = gather_inodes(alloc, core, nodes, held)?;
    Ok(Gathered {
        logs,
        cuts,
        births,
        inodes,
    })
}
