// The blocks of an inode that a commit rewrites.
ghost use Rattle.std.specs.Prelude.{◌≡◌, None, IfSome, IfNone};
ghost use Rattle.block_map.specs.Changed.{changed_block, change_of, IsChangeAt, AscendByBlock};

use keyed_list::{Keyed, KeyedList, Numbered};

/// A block that a commit rewrites, and whether it is then all zeros.
#[derive(Clone, Copy)]
pub struct ChangedBlock {
    pub block: u32,
    pub is_zero: bool,
}

impl Numbered for ChangedBlock {
    ghost number = { changed_block };
}

impl Keyed for ChangedBlock {
    fn key(&self) -> u32 {
        self.block
    }
}

/// The blocks of an inode that a commit rewrites, ascending.
pub type Changed = KeyedList<ChangedBlock>;

/// Where this block of the inode stands in the list, where it is rewritten.
pub(crate) fn position(changed: &[ChangedBlock], block: u32) -> Option<usize>
    requires { AscendByBlock changed.now }
    ensures some { IfSome result (IsChangeAt changed.now block) }
    ensures none { IfNone result (change_of changed.now block ≡ None) }
{
    match changed.binary_search_by_key(&block, |one| one.block) {
        Ok(at) => Some(at),
        Err(_) => None,
    }
}
