// What the disk has of a node, in a box of its own.
ghost use Rattle.std.specs.Prelude.{◌≡◌, IfOk};

use disk_nodes::OldNode;
use sfs_base::NoMemory;
use std::alloc::Global;
use std::marker::Model;
use std::mem;

/// What the disk has of a node, in a box: a value of a node of which the disk has nothing takes no room for it.
#[derive(Drop)]
pub struct KeptNode {
    node: Box<OldNode>,
}

impl Model for KeptNode {
    ghost use Rattle.disk_nodes.specs.OldKept.{OldKept};

    ghost Value = { OldKept };

    ghost view = { λ kept. kept.node.value };
}

impl KeptNode {
    /// Puts it into a box. Where memory is refused, it is gone.
    pub fn new(alloc: Global, node: OldNode) -> Result<KeptNode, NoMemory>
        ensures { IfOk result (λ kept. kept ≡ node) }
    {
        Ok(KeptNode {
            node: Box::new(alloc, node)?,
        })
    }

    /// What the disk has of the node.
    pub fn get(&self) -> &OldNode
        ensures { result.now ≡ self.now }
    {
        &self.node
    }

    /// Puts another into the box, and hands out the one that it had. It takes no memory.
    pub fn replace(&mut self, node: OldNode) -> OldNode
        ensures old { result ≡ self.old }
        ensures new { self.new ≡ node }
    {
        mem::replace(&mut self.node, node)
    }
}
