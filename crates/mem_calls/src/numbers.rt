// The numbers of the nodes that cores make.
ghost use Rattle.std.specs.Prelude.{◌+◌, ◌*◌, ◌<◌};
ghost use Rattle.mem_calls.specs.Creations.{IsNextNumber};

use sfs_base::{CoreId, NodeId};

/// By what cores number the nodes that they make: the first number that no node had as the table began, and how many nodes each core
/// may make.
#[derive(Clone, Copy)]
pub struct Numbers {
    pub first: u32,
    pub share: u32,
}

impl Numbers {
    /// The number that a core gives next, once it has made so many nodes; none once it has made its share.
    pub(crate) fn next(self, core: CoreId, made: u32) -> Option<NodeId>
        requires { self.first + core.0 * self.share + self.share < 4294967296 }
        ensures { IsNextNumber self.first self.share core.0 made result }
    {
        if made >= self.share {
            return None;
        }
        Some(NodeId(self.first + core.0 as u32 * self.share + made))
    }
}
