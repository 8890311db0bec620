// The walk up from a directory.
ghost use Rattle.std.specs.Prelude.{◌≡◌, true, map, IfOk};
ghost use Rattle.std.specs.FinMap as finmap;

use super::Tree;
use sfs_base::{NoMemory, NodeId};

impl Tree {
    ghost use Rattle.tree_laws.specs.NameRow.{node_number};
    ghost use Rattle.tree_laws.specs.Tree.{is_directory, walk_up};
    ghost use Rattle.tree_laws.specs.Sound.{IsSound};

    /// The directories above a directory of a sound tree, from its holder on up to the root.
    pub fn above(&self, dir: NodeId) -> Result<Vec<NodeId>, NoMemory>
        requires sound { IsSound self.now }
        requires directory { is_directory self.now dir.0 ≡ true }
        ensures { IfOk result (λ above. map node_number above.items ≡ walk_up (finmap.len self.now.rows) self.now dir.0) }
    {
        let mut above = Vec::new(self.alloc);
        let mut place = dir.0;
        let mut steps = self.store.total();
        while steps > 0 {
            let Some(holder) = self.store.holder(place) else {
                return Ok(above);
            };
            above.push(NodeId(holder))?;
            place = holder;
            steps -= 1;
        }
        Ok(above)
    }
}
