// What cores tell.
use disk_nodes::OldNode;
use sfs_base::{CoreId, NodeId, Stamp};

/// A node that a commit holds: its cut and what the disk has of it, as the commit writes them.
#[derive(Drop)]
pub struct HeldNode {
    pub node: NodeId,
    pub new_cut: Stamp,
    pub new: Option<OldNode>,
}

/// What a core tells the others. It is told without memory, and is no value at run time where it need not be.
#[derive(Drop)]
pub enum Fact {
    /// A commit of a core: its number, the node and the stamp of its fsync, the directories among its members, and all nodes that it holds.
    Committed {
        number: u64,
        node: NodeId,
        stamp: Stamp,
        members: Vec<NodeId>,
        held: Vec<HeldNode>,
    },
    /// A part keeps no change of a member of this core's commit below its stamp any more.
    Trimmed {
        number: u64,
        part: CoreId,
    },
}
