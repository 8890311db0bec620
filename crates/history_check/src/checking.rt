ghost use Rattle.std.specs.Prelude.{◌≡◌, ◌≤◌, length, IfOk, IfErr};
ghost use Rattle.tree_laws.specs.Sound.{IsSound};
ghost use Rattle.history_check.specs.Legal.{IsLegalText, IsFaultOfText};

use crate::CheckFault;
use crate::line::follow;
use sfs_tree::Tree;
use std::alloc::Global;

/// How many bytes a text has at most.
pub const LONGEST_HISTORY: usize = 268_435_456;

/// How many entries a text tells of, where it is that of a legal history which begins with this tree of
/// so many cores. The text has at most `LONGEST_HISTORY` bytes. It takes time in proportion to the text
/// and what the calls themselves take, and memory for the tree and for one line.
pub fn check(alloc: Global, first: Tree, cores: u8, text: &[u8]) -> Result<u64, CheckFault>
    requires sound { IsSound first }
    requires cores { cores ≡ length first.made }
    requires size { length text.now ≤ LONGEST_HISTORY }
    ensures ok { IfOk result (IsLegalText first text.now) }
    ensures err { IfErr result (IsFaultOfText first text.now) }
{
    let mut tree = first;
    let mut left = text;
    let mut count = 0u32;
    while !left.is_empty() {
        match follow(alloc, &mut tree, cores, count, left)? {
            Some(behind) => left = behind,
            None => return Err(CheckFault::WrongLine { line: count + 1 }),
        }
        count += 1;
    }
    Ok(u64::from(count))
}
