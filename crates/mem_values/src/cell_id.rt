// Which cells there are, and where they lie.
ghost use Rattle.std.specs.Prelude.{◌≡◌, ◌≤◌, ◌^◌};
ghost use Rattle.mem_values.specs.Places.{cell_place, IsCell};

use sfs_base::{CoreId, NodeId};

/// A cell: the lock of the tree, one of the eight buckets of a directory, a file, what was flushed of a node, and the log of a core.
#[derive(Clone, Copy)]
pub enum CellId {
    Lock,
    Bucket { node: NodeId, bucket: u8 },
    File { node: NodeId },
    Pending { node: NodeId },
    Part { core: CoreId },
}

impl CellId {
    /// The place of the cell at a table of so many nodes.
    pub fn place(self, nodes: u32) -> usize
        ensures { result ≡ cell_place nodes self }
    {
        let nodes = nodes as usize;
        match self {
            CellId::Lock => 0,
            CellId::Bucket { node, bucket } => 16 + 9 * node.0 as usize + bucket as usize,
            CellId::File { node } => 24 + 9 * node.0 as usize,
            CellId::Pending { node } => 16 + 9 * nodes + node.0 as usize,
            CellId::Part { core } => 32 + 10 * nodes + 16 * core.0 as usize,
        }
    }
}
