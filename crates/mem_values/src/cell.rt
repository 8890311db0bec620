// The five values that cells hold.
use crate::{Bucket, KeptNode};
use mem_cells::LogPart;
use mem_files::FileBytes;
use sfs_base::{NodeId, Stamp};

/// The lock of the tree. Who holds it may move a directory to another one. Its value is the stamp of the last such call, which no
/// call reads.
#[derive(Drop)]
pub struct TreeLock {
    pub moved: Option<Stamp>,
}

/// A file: how many rows name it, none where the node is a directory, and its bytes with their marks.
#[derive(Drop)]
pub struct FileCell {
    pub links: u32,
    pub file: FileBytes,
}

/// What fsyncs have flushed of a node: its cut, the number of the last commit that concerned it, 0 for none, the directory in which it
/// was made, where that was in this mount, and where it has an inode what the disk has of it.
#[derive(Drop)]
pub struct Pending {
    pub cut: Stamp,
    pub last: u64,
    pub made_in: Option<NodeId>,
    pub old: Option<KeptNode>,
}

/// The log of a core, and how many nodes it has made.
#[derive(Drop)]
pub struct PartCell {
    pub log: LogPart,
    pub made: u32,
}

/// What a cell holds. What is large stands in a box, so that a value is moved by a word or two.
#[derive(Drop)]
pub enum Cell {
    Lock { lock: TreeLock },
    Bucket { bucket: Box<Bucket> },
    File { file: Box<FileCell> },
    Pending { pending: Box<Pending> },
    Part { part: Box<PartCell> },
}
