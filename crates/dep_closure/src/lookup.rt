// What a list that ascends by node has of a node.
ghost use Rattle.std.specs.Prelude.{◌≡◌, ℕ, ◌==◌, map};
ghost use Rattle.std.specs.Option.{option_copied};
ghost use Rattle.std.specs.List.{find};
ghost use Rattle.std.specs.List.Sorted.{IsStrictlyIncreasing};
ghost use Rattle.sfs_base.specs.Listed.{is_listed};
ghost use Rattle.tree_laws.specs.NameRow.{node_number};
ghost use Rattle.dep_closure.specs.Gathered.{log_directory, cut_node, birth_node, cut_in};

use crate::gathered::{DirectoryChanges, NodeBirth, NodeCut};
use sfs_base::{NodeId, Stamp};

// What stands in a list by a node.
pub(crate) trait ByNode {
    ghost number: { Self → ℕ };

    // The node.
    fn node(&self) -> NodeId
        ensures { result.0 ≡ number self.now };
}

impl ByNode for DirectoryChanges {
    ghost number = { log_directory };

    fn node(&self) -> NodeId {
        self.dir
    }
}

impl ByNode for NodeCut {
    ghost number = { cut_node };

    fn node(&self) -> NodeId {
        self.node
    }
}

impl ByNode for NodeBirth {
    ghost number = { birth_node };

    fn node(&self) -> NodeId {
        self.node
    }
}

impl ByNode for NodeId {
    ghost number = { node_number };

    fn node(&self) -> NodeId {
        *self
    }
}

// The item of a node.
pub(crate) fn find_node<T: ByNode>(items: &[T], node: NodeId) -> Option<&T>
    requires { IsStrictlyIncreasing (map T.number items.now) }
    ensures { option_copied result ≡ find (λ item. T.number item == node.0) items.now }
{
    let at = items.partition_point(|item| item.node().0 < node.0);
    let item = items.get(at)?;
    if item.node().0 == node.0 {
        Some(item)
    } else {
        None
    }
}

// The stamp in a node's cut.
pub(crate) fn cut_of(cuts: &[NodeCut], node: NodeId) -> Stamp
    requires { IsStrictlyIncreasing (map cut_node cuts.now) }
    ensures { result.0 ≡ cut_in cuts.now node.0 }
{
    match find_node(cuts, node) {
        Some(one) => one.cut,
        None => Stamp(0),
    }
}

// Whether a node is in a list.
pub(crate) fn has_node(nodes: &[NodeId], node: NodeId) -> bool
    requires { IsStrictlyIncreasing (map node_number nodes.now) }
    ensures { result ≡ is_listed (map node_number nodes.now) node.0 }
{
    find_node(nodes, node).is_some()
}
