// The nodes that get an inode in a commit.
ghost use Rattle.disk_change.specs.Nodes.{enter_node};

use keyed_list::{Keyed, KeyedList, Numbered};
use sfs_base::{Kind, NodeId};

/// A node that gets an inode, and of which kind it is.
#[derive(Clone, Copy)]
pub struct Enter {
    pub node: NodeId,
    pub kind: Kind,
}

impl Numbered for Enter {
    ghost number = { enter_node };
}

impl Keyed for Enter {
    fn key(&self) -> u32 {
        self.node.0
    }
}

/// The nodes that get an inode, ascending.
pub type EnterList = KeyedList<Enter>;
