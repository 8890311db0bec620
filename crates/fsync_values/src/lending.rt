// What the disk has of nodes, out of the values of their cells and back.
ghost use Rattle.std.specs.Prelude.{◌≡◌, ◌≤◌, List, [], length, map, is_some, Some, IsSome, vec_capacity};
ghost use Rattle.std.specs.List.Sorted.{IsStrictlyIncreasing};
ghost use Rattle.sfs_base.specs.declared.numbers.NodeId.{NodeId as Node};
ghost use Rattle.tree_laws.specs.NameRow.{node_number};
ghost use Rattle.mem_values.specs.declared.cell.Cell.{Cell as CellValue};
ghost use Rattle.fsync_values.specs.Lending.{HOLLOW, old_of_value, with_old, lent_value, entries_of, IsLent};

use disk_nodes::{DirectorySlots, OldDisk, OldEntry, OldNode};
use fmt_inode::{Inode, Tables};
use mem_values::Cell;
use sfs_base::NodeId;
use std::alloc::Global;

// What stands in a value for what the disk has of its node while that is out. It takes no memory.
pub(crate) fn hollow(alloc: Global) -> OldNode
    ensures { result ≡ HOLLOW }
{
    OldNode {
        inode: 0,
        meta: Inode {
            kind: 0,
            links: 0,
            size: 0,
            direct: [0; 108],
            indirect: [0; 16],
        },
        tables: Tables::new(alloc),
        slots: DirectorySlots::new(alloc),
    }
}

// Takes what the disk has of a node out of its value, where it has something.
fn lend_one(alloc: Global, value: &mut Cell) -> Option<OldNode>
    ensures old { result ≡ old_of_value value.old }
    ensures value { value.new ≡ lent_value value.old }
{
    match value {
        Cell::Pending { pending } => match &mut pending.old {
            Some(kept) => Some(kept.replace(hollow(alloc))),
            None => None,
        },
        _ => None,
    }
}

// Whether a value has something of the disk.
pub(crate) fn has_old(value: &Cell) -> bool
    ensures { result ≡ is_some (old_of_value value.now) }
{
    match value {
        Cell::Pending { pending } => pending.old.is_some(),
        _ => false,
    }
}

// Puts another into a value that has something of the disk.
fn put_one(value: &mut Cell, old: OldNode)
    requires { IsSome (old_of_value value.old) }
    ensures { value.new ≡ with_old (Some old) value.old }
{
    match value {
        Cell::Pending { pending } => match &mut pending.old {
            Some(kept) => {
                kept.replace(old);
            }
            None => unreachable!(),
        },
        _ => unreachable!(),
    }
}

/// Takes what the disk has of nodes, which ascend, out of their values, a value a node, and answers it as a list. What is left in a value
/// takes no memory. The list is made of `entries`, which is empty and has room for as many.
pub fn lend(
    alloc: Global,
    values: &mut Vec<Cell>,
    nodes: &[NodeId],
    entries: Vec<OldEntry>,
) -> OldDisk
    requires count { length values.old.items ≡ length nodes.now }
    requires ascend { IsStrictlyIncreasing (map node_number nodes.now) }
    requires empty { entries.items ≡ [] }
    requires room { length nodes.now ≤ vec_capacity entries }
    ensures values { values.new.items ≡ map lent_value values.old.items }
    ensures entries { result.items ≡ entries_of nodes.now values.old.items }
{
    let mut entries = entries;
    for at in 0..nodes.len() {
        if let Some(old) = lend_one(alloc, &mut values[at]) {
            entries.push_reserved(OldEntry {
                node: nodes[at],
                old,
            });
        }
    }
    OldDisk::from_vec(entries)
}

/// Puts back what was lent, each into the value that it was taken of: so the values are as they were before that. It takes no memory.
pub fn restore(values: &mut Vec<Cell>, old: OldDisk)
    ensures { (nodes : List Node) (was : List CellValue) → IsLent nodes was values.old.items old.items → values.new.items ≡ was }
{
    let mut entries = old.into_vec();
    let mut at = values.len();
    while at > 0 {
        at -= 1;
        if has_old(&values[at]) {
            if let Some(entry) = entries.pop() {
                put_one(&mut values[at], entry.old);
            }
        }
    }
}
