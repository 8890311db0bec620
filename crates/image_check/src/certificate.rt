// What a certificate is: the places of an image's directories, and the inodes that hold its blocks.
ghost use Rattle.image_check.specs.Entries.{holder_inode, owner_block};

use keyed_list::{Keyed, KeyedList, Numbered};

/// Where a directory lies: its inode, the inode of the directory that holds it, and how many
/// directories lie above it. The root lies at depth 0.
#[derive(Clone, Copy, Debug, PartialEq, Eq)]
pub struct Holder {
    pub inode: u32,
    pub holder: u32,
    pub depth: u32,
}

impl Numbered for Holder {
    ghost number = { holder_inode };
}

impl Keyed for Holder {
    fn key(&self) -> u32 {
        self.inode
    }
}

/// Holders of directories, ascending by inode.
pub type HolderList = KeyedList<Holder>;

/// Who holds a block: the block's number, and the inode that a pointer to it is in.
#[derive(Clone, Copy, Debug, PartialEq, Eq)]
pub struct Owner {
    pub block: u32,
    pub inode: u32,
}

impl Numbered for Owner {
    ghost number = { owner_block };
}

impl Keyed for Owner {
    fn key(&self) -> u32 {
        self.block
    }
}

/// Owners of blocks, ascending by block.
pub type OwnerList = KeyedList<Owner>;

/// What shows that an image is sound: the place of each directory but the root, the owner of each
/// block that an inode in use holds, and how many files a row names.
#[derive(Drop)]
pub struct Certificate {
    pub holders: HolderList,
    pub owners: OwnerList,
    pub files: u32,
}
