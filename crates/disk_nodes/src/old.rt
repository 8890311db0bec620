// What the disk has of the nodes that a commit concerns.
ghost use Rattle.std.specs.Prelude.{◌≡◌, ◌≤◌};
ghost use Rattle.std.specs.Option.{option_map};
ghost use Rattle.keyed_list.specs.Ascending.{item_with, without};
ghost use Rattle.disk_nodes.specs.Nodes.{entry_node, entry_old};

use crate::slots::DirectorySlots;
use fmt_inode::{Inode, Tables};
use keyed_list::{Keyed, KeyedList, Numbered};
use sfs_base::NodeId;
use std::marker::Model;

/// What the disk has of a node: the number of its inode, the record, the indirect blocks, and of a
/// directory its slots.
#[derive(Drop)]
pub struct OldNode {
    pub inode: u32,
    pub meta: Inode,
    pub tables: Tables,
    pub slots: DirectorySlots,
}

impl Model for OldNode {
    ghost use Rattle.disk_nodes.specs.OldKept.{OldKept};

    ghost Value = { OldKept };

    ghost view = { λ n. record {
      number = n.inode;
      kept = record { inode = n.meta; tables = n.tables.items; slots = n.slots };
    } };
}

/// A node with what the disk has of it.
#[derive(Drop)]
pub struct OldEntry {
    pub node: NodeId,
    pub old: OldNode,
}

impl Numbered for OldEntry {
    ghost number = { entry_node };
}

impl Keyed for OldEntry {
    fn key(&self) -> u32 {
        self.node.0
    }
}

/// Nodes that have an inode, with what the disk has of them, ascending by node.
pub type OldDisk = KeyedList<OldEntry>;

/// Takes a node out of the list, with what the disk has of it. `None` is for one that is not in it. It takes
/// no memory.
pub fn take_old(disk: &mut OldDisk, node: NodeId) -> Option<OldNode>
    ensures value { result ≡ option_map entry_old (item_with entry_node node.0 disk.old.items) }
    ensures items { disk.new.items ≡ without entry_node node.0 disk.old.items }
    ensures spare { disk.old.spare ≤ disk.new.spare }
{
    match disk.take(node.0) {
        Some(entry) => Some(entry.old),
        None => None,
    }
}
