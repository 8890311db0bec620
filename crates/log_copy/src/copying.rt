// A copy of a log gets the directories that a look asks for, one after another. It counts how many of its changes name each node, as
// each log does; where that is as many as those of the log itself, no directory that is left out names one.
ghost use Rattle.std.specs.Prelude.{◌≡◌, ◌<◌, ◌≤◌, ◌-◌, ◌^◌, [], length, map, All, IfOk, OnOk};
ghost use Rattle.std.specs.List.Sorted.{IsStrictlyIncreasing};
ghost use Rattle.tree_laws.specs.NameRow.{node_number};
ghost use Rattle.mem_cells.specs.Part.{changes_kept};
ghost use Rattle.log_copy.specs.Copies.{is_one_of, KeepsFor, KeepsOwn};
ghost use Rattle.log_copy.specs.Steps.{GetsDirectory, HasDirectories};

use crate::naming::{are_counted, is_among, names_one};
use mem_cells::LogPart;
use sfs_base::{NoMemory, NodeId};
use std::alloc::Global;

/// A copy of a log that has of each of the nodes, which ascend, all changes that the log keeps of it, and of each other directory of which
/// the log keeps a change that names one of them all changes too. With h nodes and n changes copied it takes time in proportion to h + n,
/// times a logarithm; only where the log keeps a change that names one of the nodes in another directory does it look through all other
/// directories too. Only want of memory refuses it.
pub fn copy_for(alloc: Global, part: &LogPart, nodes: &[NodeId]) -> Result<LogPart, NoMemory>
    requires own { KeepsOwn part.now }
    requires ascend { IsStrictlyIncreasing (map node_number nodes.now) }
    requires few { length nodes.now < 2 ^ 32 }
    ensures { IfOk result (KeepsFor (is_one_of nodes.now) part.now) }
{
    let mut copy = copy_of_nodes(alloc, part, nodes)?;
    if !are_counted(part, &copy, nodes) {
        copy_naming(alloc, part, nodes, &mut copy)?;
    }
    Ok(copy)
}

// A copy that has the changes of the nodes alone.
fn copy_of_nodes(alloc: Global, part: &LogPart, nodes: &[NodeId]) -> Result<LogPart, NoMemory>
    requires own { KeepsOwn part.now }
    requires ascend { IsStrictlyIncreasing (map node_number nodes.now) }
    ensures { IfOk result (HasDirectories part.now nodes.now) }
{
    let mut copy = LogPart::new(alloc);
    for node in nodes {
        copy_directory(alloc, part, *node, &mut copy)?;
    }
    Ok(copy)
}

// The copy, which has the nodes' changes, gets those of each other directory that has one that names a node.
fn copy_naming(
    alloc: Global,
    part: &LogPart,
    nodes: &[NodeId],
    copy: &mut LogPart,
) -> Result<(), NoMemory>
    requires own { KeepsOwn part.now }
    requires ascend { IsStrictlyIncreasing (map node_number nodes.now) }
    requires few { length nodes.now < 2 ^ 32 }
    requires has { HasDirectories part.now nodes.now copy.old }
    ensures { OnOk result (KeepsFor (is_one_of nodes.now) part.now copy.new) }
{
    let mut after = None;
    while let Some(dir) = part.next_dir(after) {
        if !is_among(nodes, dir) && names_one(part, dir, nodes) {
            copy_directory(alloc, part, dir, copy)?;
        }
        after = Some(dir);
    }
    Ok(())
}

// The copy, which has no changes of the directory, gets all that the log keeps of it.
fn copy_directory(
    alloc: Global,
    part: &LogPart,
    dir: NodeId,
    copy: &mut LogPart,
) -> Result<(), NoMemory>
    requires own { All (λ change. change.dir.0 ≡ dir.0) (changes_kept part.now dir.0) }
    requires none { changes_kept copy.old dir.0 ≡ [] }
    requires few { copy.old.entries < 2 ^ 64 - 1 }
    ensures { OnOk result (GetsDirectory part.now dir.0 copy.old copy.new) }
{
    if part.get(dir, 0).is_none() {
        return Ok(());
    }
    let changes = part.copy_of(alloc, dir)?;
    match u32::try_from(changes.len()) {
        Ok(count) => {
            copy.reserve(dir, count)?;
            copy.add(changes);
            Ok(())
        }
        Err(_) => Err(NoMemory),
    }
}
