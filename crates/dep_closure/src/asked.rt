// What was gathered of one node.
ghost use Rattle.std.specs.Prelude.{◌≡◌, map};
ghost use Rattle.sfs_base.specs.Listed.{is_listed};
ghost use Rattle.tree_laws.specs.NameRow.{node_number};
ghost use Rattle.dep_closure.specs.Gathered.{IsOrderly, cut_in, span_in};

use crate::gathered::Gathered;
use crate::lookup::{cut_of, find_node, has_node};
use crate::spans::span;
use sfs_base::{NodeId, Stamp};
use tree_laws::Change;

impl Gathered {
    /// The stamp in a node's cut, by a binary search.
    pub fn cut(&self, node: NodeId) -> Stamp
        requires { IsOrderly self.now }
        ensures { result.0 ≡ cut_in self.now.cuts.items node.0 }
    {
        cut_of(self.cuts.as_slice(), node)
    }

    /// Whether a node has an inode, by a binary search.
    pub fn has_inode(&self, node: NodeId) -> bool
        requires { IsOrderly self.now }
        ensures { result ≡ is_listed (map node_number self.now.inodes.items) node.0 }
    {
        has_node(self.inodes.as_slice(), node)
    }

    /// The changes in a node's span: those of its log from its cut to below a stamp, by binary searches.
    pub fn span(&self, node: NodeId, below: Stamp) -> &[Change]
        requires { IsOrderly self.now }
        ensures { result.now ≡ span_in self.now below node.0 }
    {
        match find_node(self.logs.as_slice(), node) {
            Some(log) => span(log.changes.as_slice(), self.cut(node), below),
            None => &[],
        }
    }
}
