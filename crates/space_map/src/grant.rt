ghost use Rattle.std.specs.Prelude.{◌≡◌, []};

use sfs_base::{BlockList, InodeList, RoomyList};
use std::alloc::Global;
use std::marker::Model;

/// How much a commit needs.
#[derive(Clone, Copy, Debug, PartialEq, Eq)]
pub struct Need {
    pub inodes: u32,
    pub blocks: u32,
}

/// Inodes and blocks that a map has granted to one commit, each list ascending. It goes back to the
/// map, by `give_back` or by `free_after`: the numbers of one that is dropped are granted for ever.
/// It can't be made or taken apart by others, but for the grant of nothing. Contracts see its two
/// lists of numbers.
#[derive(Drop)]
pub struct Grant {
    inodes: InodeList,
    blocks: BlockList,
}

impl Model for Grant {
    ghost use Rattle.space_map.specs.Space.{GrantedNumbers};

    ghost Value = { GrantedNumbers };

    ghost view = { λ grant. record {
      inodes = grant.inodes.items;
      blocks = grant.blocks.items;
    } };
}

impl Grant {
    /// The grant of nothing, for a commit that needs nothing: no map is asked for it, and its end changes
    /// none. It takes no memory.
    pub fn none(alloc: Global) -> Grant
        ensures inodes { result.inodes ≡ [] }
        ensures blocks { result.blocks ≡ [] }
    {
        Grant::new(RoomyList::new(alloc), RoomyList::new(alloc))
    }

    // The grant of these.
    pub(crate) fn new(inodes: InodeList, blocks: BlockList) -> Grant
        ensures inodes { result.inodes ≡ inodes.items }
        ensures blocks { result.blocks ≡ blocks.items }
    {
        Grant { inodes, blocks }
    }

    // Its two lists, once it has ended.
    pub(crate) fn end(self) -> (InodeList, BlockList)
        ensures inodes { result.0.items ≡ self.inodes }
        ensures blocks { result.1.items ≡ self.blocks }
    {
        let Grant { inodes, blocks } = self;
        (inodes, blocks)
    }

    /// The inodes, ascending.
    pub fn inodes(&self) -> &[u32]
        ensures { result.now ≡ self.now.inodes }
    {
        self.inodes.as_slice()
    }

    /// The blocks, ascending.
    pub fn blocks(&self) -> &[u32]
        ensures { result.now ≡ self.now.blocks }
    {
        self.blocks.as_slice()
    }
}
