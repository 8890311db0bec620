// The parts of a tree, as they are read from outside. None of this but `names` takes memory.
ghost use Rattle.std.specs.Prelude.{◌≡◌, ◌<◌, None, true, option_map, slice_get, IfOk, IfSome, IfNone, IsSome, OnOk};
ghost use Rattle.std.specs.FinMap as finmap;

use super::Tree;
use sfs_base::{Kind, Name, NoMemory, NodeId};
use tree_laws::NameMap;

impl Tree {
    ghost use Rattle.tree_laws.specs.Tree.{row_of, is_alive, is_directory, holder_of, bucket_rows, names_of, bytes_of};
    ghost use Rattle.tree_laws.specs.NameRow.{number_of};
    ghost use Rattle.std.specs.Option.{option_or};
    ghost use Rattle.tree_laws.specs.Sound.{IsSound};
    ghost use Rattle.tree_laws.specs.Least.{IsLeast, NoneFrom, first_behind};

    /// The kind of a node, `None` exactly where the tree has no such node.
    pub fn kind(&self, node: NodeId) -> Option<Kind>
        ensures { result ≡ option_map (λ node. node.kind) (finmap.get self.now.nodes node.0) }
    {
        match self.store.node(node.0) {
            Some(data) => Some(data.kind),
            None => None,
        }
    }

    /// The bytes of a node of the tree.
    pub fn bytes(&self, file: NodeId) -> &[u8]
        requires { IsSome (finmap.get self.now.nodes file.0) }
        ensures { result.now ≡ bytes_of self.now file.0 }
    {
        match self.store.node(file.0) {
            Some(data) => &data.bytes,
            None => unreachable!(),
        }
    }

    /// The least node of the tree above `after`, or the least of all; `None` exactly where there is none.
    pub fn next_node(&self, after: Option<NodeId>) -> Option<NodeId>
        ensures found { IfSome result (λ node. IsLeast self.now.nodes (first_behind (number_of after)) node.0) }
        ensures none { IfNone result (NoneFrom self.now.nodes (first_behind (number_of after))) }
    {
        let first = match after {
            Some(node) => node.0 as usize + 1,
            None => 0,
        };
        match self.store.next_from(first) {
            Some(number) => Some(NodeId(number)),
            None => None,
        }
    }

    /// The row at a place of one of a directory's eight buckets, names ascending by their bytes; `None`
    /// exactly past the last row and from bucket 8 on.
    pub fn row(&self, dir: NodeId, bucket: u8, place: u32) -> Option<(&Name, NodeId)>
        ensures { option_map (λ row. (row.0.now, row.1.0)) result
            ≡ slice_get (finmap.entries (bucket_rows dir.0 bucket self.now.rows)) place }
    {
        if bucket >= 8 {
            return None;
        }
        let rows = self.store.bucket(dir.0, bucket)?;
        let row = rows.at(place as usize)?;
        Some((&row.name, row.child))
    }

    /// Whether a node is alive: it is the root, or a row names it.
    pub fn is_alive(&self, node: NodeId) -> bool
        ensures { result ≡ is_alive self.now node.0 }
    {
        node.0 == 0 || self.store.named(node.0) != 0
    }

    /// The child of the directory's row with this name. `None` exactly where no row has it.
    pub fn child(&self, dir: NodeId, name: &Name) -> Option<NodeId>
        ensures { number_of result ≡ row_of self.now dir.0 name.now }
    {
        self.store.child(dir.0, name)
    }

    /// The directory in which the row of a directory of a sound tree stands. `None` exactly where no row names it.
    pub fn holder(&self, dir: NodeId) -> Option<NodeId>
        requires sound { IsSound self.now }
        requires directory { is_directory self.now dir.0 ≡ true }
        ensures { number_of result ≡ holder_of self.now dir.0 }
    {
        match self.store.holder(dir.0) {
            Some(number) => Some(NodeId(number)),
            None => None,
        }
    }

    /// How many rows a directory has.
    pub fn row_count(&self, dir: NodeId) -> u32
        ensures { result ≡ finmap.len (names_of dir.0 self.now.rows) }
    {
        self.store.inside(dir.0)
    }

    /// The rows of a directory, as a map of their own. It takes time in proportion to their number.
    pub fn names(&self, dir: NodeId) -> Result<NameMap, NoMemory>
        ensures { IfOk result (λ names. names ≡ names_of dir.0 self.now.rows) }
    {
        let mut names = NameMap::new(self.alloc);
        for number in 0..8u8 {
            self.add_bucket(&mut names, dir, number)?;
        }
        Ok(names)
    }

    // Adds the rows of a bucket, whose names are new.
    fn add_bucket(&self, names: &mut NameMap, dir: NodeId, number: u8) -> Result<(), NoMemory>
        requires number { number < 8 }
        requires apart { (name : _) → IsSome (finmap.get (bucket_rows dir.0 number self.now.rows) name)
            → finmap.get names.old name ≡ None }
        ensures { OnOk result ((name : _) → finmap.get names.new name
            ≡ option_or (finmap.get (bucket_rows dir.0 number self.now.rows) name) (finmap.get names.old name)) }
    {
        match self.store.bucket(dir.0, number) {
            Some(rows) => names.add_rows(self.alloc, rows.rows()),
            None => Ok(()),
        }
    }
}
