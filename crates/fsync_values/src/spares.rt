// What an fsync has of memory before its first turn at the disk, so that nothing behind that takes any.
ghost use Rattle.std.specs.Prelude.{◌≡◌, ◌≤◌, List, length, IfOk};
ghost use Rattle.sfs_base.specs.declared.numbers.NodeId.{NodeId as Node};
ghost use Rattle.disk_nodes.specs.declared.old.OldEntry.{OldEntry as Entry};
ghost use Rattle.fsync_values.specs.Renewing.{boxes_asked};

use crate::lending::{has_old, hollow};
use mem_values::{Cell, KeptNode, TreeLock};
use sfs_base::NoMemory;
use std::alloc::Global;

/// So many values that stand in cells while their own are out. They take no memory beyond the list.
pub fn hollow_values(alloc: Global, count: usize) -> Result<Vec<Cell>, NoMemory>
    ensures { IfOk result (λ values. length values.items ≡ count) }
{
    let mut values = Vec::with_capacity(alloc, count)?;
    while values.len() < count {
        values.push_reserved(Cell::Lock {
            lock: TreeLock { moved: None },
        });
    }
    Ok(values)
}

/// Boxes enough for what a commit leaves of nodes with these values: one for each of which the disk has nothing.
pub fn spare_boxes(alloc: Global, values: &[Cell]) -> Result<Vec<KeptNode>, NoMemory>
    ensures { IfOk result (λ spares. (after : List Entry) (nodes : List Node) → boxes_asked after nodes values.now ≤ length spares.items) }
{
    let mut spares = Vec::new(alloc);
    for value in values {
        if !has_old(value) {
            spares.push(KeptNode::new(alloc, hollow(alloc))?)?;
        }
    }
    Ok(spares)
}
