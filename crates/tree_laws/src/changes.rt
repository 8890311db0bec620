ghost use Rattle.std.specs.Prelude.{◌≡◌, [], map, IfOk};
ghost use Rattle.tree_laws.specs.NameRow.{node_number};

use sfs_base::{Kind, Name, NoMemory, NodeId, NodeList, RoomyList, Stamp};
use std::alloc::Global;
use std::marker::Model;

/// Whether a row comes or goes.
#[derive(Clone, Copy, Debug, PartialEq, Eq)]
pub enum Act {
    Add,
    Remove,
}

/// The directories above one, from its holder up to the root. Contracts see the list of their
/// numbers.
#[derive(Drop)]
pub struct Ancestors {
    nodes: NodeList,
}

impl Model for Ancestors {
    ghost use Rattle.std.specs.Prelude.{ℕ, List, map};
    ghost use Rattle.tree_laws.specs.NameRow.{node_number};

    ghost Value = { List ℕ };

    ghost view = { λ above. map node_number above.nodes.items };
}

impl Ancestors {
    /// None. It takes no memory.
    pub fn none(alloc: Global) -> Ancestors
        ensures { result ≡ [] }
    {
        Ancestors {
            nodes: NodeList::new(alloc),
        }
    }

    /// These directories. It takes no memory.
    pub fn new(nodes: NodeList) -> Ancestors
        ensures { result ≡ map node_number nodes.items }
    {
        Ancestors { nodes }
    }

    /// The directories, the holder first.
    pub fn nodes(&self) -> &[NodeId]
        ensures { map node_number result.now ≡ self.now }
    {
        self.nodes.as_slice()
    }

    /// The same directories.
    pub fn copy(&self) -> Result<Ancestors, NoMemory>
        ensures { IfOk result (λ above. above ≡ self.now) }
    {
        Ok(Ancestors {
            nodes: self.nodes.copy()?,
        })
    }
}

/// A change of a directory's rows, as a log keeps it. Within one stamp removals stand before
/// additions.
#[derive(Drop)]
pub struct Change {
    pub stamp: Stamp,
    pub dir: NodeId,
    pub name: Name,
    pub child: NodeId,
    pub kind: Kind,
    pub act: Act,
    /// The other directory of a rename between two; `None` for any other change.
    pub other: Option<NodeId>,
    /// Where a rename between two directories puts a directory here: the directories above this one.
    pub above: Ancestors,
}

impl Change {
    /// An equal change.
    pub fn copy(&self) -> Result<Change, NoMemory>
        ensures ok { IfOk result (λ change. change ≡ self.now) }
    {
        Ok(Change {
            stamp: self.stamp,
            dir: self.dir,
            name: self.name.copy()?,
            child: self.child,
            kind: self.kind,
            act: self.act,
            other: self.other,
            above: self.above.copy()?,
        })
    }
}

/// Changes, in their order.
pub type Changes = RoomyList<Change>;
