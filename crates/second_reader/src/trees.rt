// The tree that texts begin with, and what the check answers there.
ghost use Rattle.std.specs.Prelude.{◌≡◌, ◌<◌, ◌≤◌, ◌*◌, length, IfOk};
ghost use Rattle.tree_laws.specs.Sound.{IsSound};

use history_check::{CheckFault, LONGEST_HISTORY, check};
use sfs_base::NoMemory;
use sfs_tree::Tree;
use std::alloc::Global;

/// The number of the first new node.
pub const FIRST: u32 = 64;

/// How many nodes each core may make.
pub const SHARE: u32 = 4096;

/// The root alone.
pub fn root_alone(alloc: Global, cores: u8) -> Result<Tree, NoMemory>
    requires { cores ≤ 16 }
    ensures sound { IfOk result (λ tree. IsSound tree) }
    ensures cores { IfOk result (λ tree. cores ≡ length tree.made) }
{
    Tree::empty(alloc, FIRST, SHARE, cores)
}

/// What the check answers to a text.
pub fn answer(alloc: Global, cores: u8, text: &[u8]) -> Result<u64, CheckFault>
    requires { cores ≤ 16 }
{
    if text.len() > LONGEST_HISTORY {
        return Err(CheckFault::NoMemory);
    }
    let tree = root_alone(alloc, cores)?;
    check(alloc, tree, cores, text)
}
