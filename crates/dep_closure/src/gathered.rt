use sfs_base::{NodeId, NodeList, RoomyList, Stamp};
use tree_laws::Changes;

/// A directory, and changes of its own by their stamps, within one stamp removals before additions.
#[derive(Drop)]
pub struct DirectoryChanges {
    pub dir: NodeId,
    pub changes: Changes,
}

/// The changes of directories, ascending by directory.
pub type LogList = RoomyList<DirectoryChanges>;

/// A node, and the stamp from which on its own changes are not yet flushed.
#[derive(Clone, Copy)]
pub struct NodeCut {
    pub node: NodeId,
    pub cut: Stamp,
}

/// The cuts of nodes, ascending by node. A node that is not in it has 0.
pub type CutList = RoomyList<NodeCut>;

/// A node that was made in this mount, and the directory in which it was made.
#[derive(Clone, Copy)]
pub struct NodeBirth {
    pub node: NodeId,
    pub dir: NodeId,
}

/// The births of nodes, ascending by node.
pub type BirthList = RoomyList<NodeBirth>;

/// What an fsync has gathered.
#[derive(Drop)]
pub struct Gathered {
    pub logs: LogList,
    pub cuts: CutList,
    pub births: BirthList,
    /// The nodes that have an inode, ascending.
    pub inodes: NodeList,
}
