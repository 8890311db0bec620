// The rows of a directory that lie in one bucket, and where the directory stands.
ghost use Rattle.std.specs.Prelude.{◌≡◌, is_some};
ghost use Rattle.std.specs.FinMap as finmap;
ghost use Rattle.tree_laws.specs.Tree.{kind_if};

use sfs_base::{Kind, Name, NodeId};
use std::alloc::Global;
use tree_laws::NameMap;

/// One of a directory's eight buckets: its rows, names ascending; those of them that name directories, once more; and the directory in
/// which this one stands, none where it stands nowhere.
#[derive(Drop)]
pub struct Bucket {
    pub rows: NameMap,
    pub directories: NameMap,
    pub stands: Option<NodeId>,
}

impl Bucket {
    /// No rows, of a directory that stands here. It takes no memory.
    pub fn new(alloc: Global, stands: Option<NodeId>) -> Self
        ensures rows { result.rows ≡ finmap.empty }
        ensures directories { result.directories ≡ finmap.empty }
        ensures stands { result.stands ≡ stands }
    {
        Bucket {
            rows: NameMap::new(alloc),
            directories: NameMap::new(alloc),
            stands,
        }
    }

    /// What the row with this name names.
    pub fn kind(&self, name: &Name) -> Kind
        ensures { result ≡ kind_if (is_some (finmap.get self.now.directories name.now)) }
    {
        match self.directories.get(name) {
            Some(_) => Kind::Directory,
            None => Kind::File,
        }
    }
}
