// What was flushed of the nodes that a core holds.
ghost use Rattle.std.specs.Prelude.{◌≡◌, Some, IsSome, IfOk, All, map, filter_map};
ghost use Rattle.mem_calls.specs.Held.{pending_held};
ghost use Rattle.fsync_gather.specs.Gathers.{IsHeldOf, nodes_seen, cut_seen, birth_seen, inode_seen};

use dep_closure::{BirthList, CutList, NodeBirth, NodeCut};
use mem_values::{Cell, CellId, FileCore, Pending};
use sfs_base::{NoMemory, NodeId, NodeList};
use std::alloc::Global;

/// What was flushed of a node, whose value is held.
pub fn flushed_value(core: &FileCore, nodes: u32, node: NodeId) -> &Pending
    requires { IsSome (pending_held nodes core.now.held node) }
    ensures { pending_held nodes core.now.held node ≡ Some result.now }
{
    match core.cell(CellId::Pending { node }.place(nodes)) {
        Cell::Pending { pending } => pending,
        _ => unreachable!(),
    }
}

/// The cuts of the nodes.
pub(crate) fn gather_cuts(
    alloc: Global,
    core: &FileCore,
    nodes: u32,
    held: &[NodeId],
) -> Result<CutList, NoMemory>
    requires holds { All (IsHeldOf nodes core.now.held) held.now }
    ensures { IfOk result (λ cuts. cuts.items ≡ filter_map cut_seen (nodes_seen nodes core.now.held held.now)) }
{
    let mut cuts = CutList::new(alloc);
    for node in held {
        let cut = flushed_value(core, nodes, *node).cut;
        cuts.reserve(1)?;
        cuts.push(NodeCut { node: *node, cut });
    }
    Ok(cuts)
}

/// Where those of the nodes were made that were made in this mount.
pub(crate) fn gather_births(
    alloc: Global,
    core: &FileCore,
    nodes: u32,
    held: &[NodeId],
) -> Result<BirthList, NoMemory>
    requires holds { All (IsHeldOf nodes core.now.held) held.now }
    ensures { IfOk result (λ births. births.items ≡ filter_map birth_seen (nodes_seen nodes core.now.held held.now)) }
{
    let mut births = BirthList::new(alloc);
    for node in held {
        if let Some(dir) = flushed_value(core, nodes, *node).made_in {
            births.reserve(1)?;
            births.push(NodeBirth { node: *node, dir });
        }
    }
    Ok(births)
}

/// Those of the nodes that have an inode.
pub(crate) fn gather_inodes(
    alloc: Global,
    core: &FileCore,
    nodes: u32,
    held: &[NodeId],
) -> Result<NodeList, NoMemory>
    requires holds { All (IsHeldOf nodes core.now.held) held.now }
    ensures { IfOk result (λ inodes. inodes.items ≡ filter_map inode_seen (nodes_seen nodes core.now.held held.now)) }
{
    let mut inodes = NodeList::new(alloc);
    for node in held {
        if flushed_value(core, nodes, *node).old.is_some() {
            inodes.reserve(1)?;
            inodes.push(*node);
        }
    }
    Ok(inodes)
}
