// What a commit changes in files.
ghost use Rattle.disk_change.specs.Nodes.{file_node};

use crate::pages::PageList;
use keyed_list::{Keyed, KeyedList, Numbered};
use sfs_base::NodeId;

/// What a commit changes in a file: its size in bytes afterwards, and the blocks that are touched.
#[derive(Drop)]
pub struct FileChange {
    pub node: NodeId,
    pub size: u64,
    pub pages: PageList,
}

impl Numbered for FileChange {
    ghost number = { file_node };
}

impl Keyed for FileChange {
    fn key(&self) -> u32 {
        self.node.0
    }
}

/// The changes of files, ascending by node.
pub type FileChangeList = KeyedList<FileChange>;
