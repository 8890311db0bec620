ghost use Rattle.fmt_journal.specs.Ascending.{AscendByInode};
ghost use Rattle.std.specs.List.Sorted.{IsStrictlyIncreasing};

use sfs_base::{BlockList, InodeList, RoomyList};

/// The record of an inode that a transaction writes.
#[derive(Clone, Copy)]
pub struct TxRecord {
    pub inode: u32,
    pub bytes: [u8; 512],
}

/// A fresh block that a transaction writes.
#[derive(Clone, Copy)]
pub struct TxBlock {
    pub block: u32,
    pub bytes: [u8; 4096],
}

/// What a commit writes: records ascending by inode, and fresh blocks. And what it gives up: blocks
/// and inodes, each ascending, of which nothing is written.
#[derive(Drop)]
pub struct Tx {
    pub records: RoomyList<TxRecord>,
    pub fresh: RoomyList<TxBlock>,
    pub freed_blocks: BlockList,
    pub freed_inodes: InodeList,
    ghost records_ascend: { AscendByInode records.items },
    ghost blocks_ascend: { IsStrictlyIncreasing freed_blocks.items },
    ghost inodes_ascend: { IsStrictlyIncreasing freed_inodes.items },
}
