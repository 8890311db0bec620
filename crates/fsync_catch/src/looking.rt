// One look of an fsync: the logs of all cores are copied, as far as it asks, while what was flushed of some nodes is held, and what it
// concerns is worked out.
ghost use Rattle.std.specs.Prelude.{◌≡◌, ◌+◌, ◌*◌, ◌<◌, IfOk, length, map, All};
ghost use Rattle.std.specs.List.Sorted.{IsStrictlyIncreasing};
ghost use Rattle.tree_laws.specs.NameRow.{node_number};
ghost use Rattle.stamp_table.specs.Ascending.{LiesAbove};
ghost use Rattle.mem_values.specs.Start.{given_by};
ghost use Rattle.mem_calls.specs.Table.{IsFileTable};
ghost use Rattle.mem_calls.specs.Working.{IsWorking};
ghost use Rattle.fsync_look.specs.Look.{IsBelow, HoldsNodes, SawMore};
ghost use Rattle.fsync_catch.specs.Catch.{HasItsFsync, IsLook};

use dep_closure::Gathered;
use flush_plan::{Concern, concerned};
use fsync_gather::gather;
use fsync_look::copy_logs;
use mem_values::{FileCore, FileShared};
use sfs_base::{NoMemory, NodeId, Stamp};
use std::alloc::Global;
use std::sync::Wait;

/// An fsync that has its stamp and waits for its answer: the node, and the stamp.
#[derive(Clone, Copy)]
pub struct WaitingFsync {
    pub node: NodeId,
    pub stamp: Stamp,
}

/// What an fsync gathered, and what it concerns by that.
#[derive(Drop)]
pub struct Caught {
    pub gathered: Gathered,
    pub concern: Concern,
}

/// What a look of an fsync goes by: the nodes that the core holds, which ascend, and whether it copies whole logs although less would do.
#[derive(Clone, Copy)]
pub(crate) struct Holding<'a> {
    pub(crate) nodes: &'a [NodeId],
    pub(crate) whole: bool,
}

/// Copies of the logs of all cores, one after another, what it asks for, gathers that with what was flushed of the nodes that are held, and
/// works out what the fsync concerns. All that the core holds it still holds. It waits while another core has a log. Only want of memory
/// refuses it.
pub(crate) fn look_once<R: Wait>(
    rt: &R,
    alloc: Global,
    shared: &FileShared,
    core: &mut FileCore,
    nodes: u32,
    cores: u8,
    fsync: WaitingFsync,
    held: Holding,
) -> Result<Caught, NoMemory>
    requires table { IsFileTable shared.now nodes }
    requires work { IsWorking (given_by shared.now) shared.now core.old }
    requires cores { cores ≡ length shared.now.first.made }
    requires waits { HasItsFsync core.old fsync }
    requires holds { HoldsNodes nodes held.nodes.now core.old }
    requires within { All (IsBelow nodes) held.nodes.now }
    requires ascend { IsStrictlyIncreasing (map node_number held.nodes.now) }
    requires room { 0 < core.old.room }
    ensures work { IsWorking (given_by shared.now) shared.now core.new }
    ensures saw { SawMore core.old core.new }
    ensures look { IfOk result (IsLook (given_by shared.now) nodes fsync held.entry.nodes.now core.new) }
{
    let Holding { nodes: list, whole } = held;
    let parts = copy_logs(rt, alloc, shared, core, nodes, cores, list, whole)?;
    core.look(shared);
    let gathered = gather(alloc, core, nodes, list, &parts)?;
    let concern = concerned(alloc, fsync.node, fsync.stamp, &gathered)?;
    Ok(Caught { gathered, concern })
}
