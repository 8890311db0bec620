ghost use Rattle.std.specs.Prelude.{◌≡◌, ◌+◌, ◌*◌, ◌<◌, ◌≤◌, ℕ, None, [], length, nat_lt, IsTrue, IsSome, IfOk, OnOk, OnErr};
ghost use Rattle.std.specs.FinMap as finmap;
ghost use Rattle.sfs_base.specs.Name.{bucket};

use crate::nodes::NodeData;
use crate::store::Store;
use sfs_base::{CoreId, Kind, Name, NoMemory, NodeId};
use std::alloc::Global;
use std::marker::Model;
use tree_laws::{Call, Reply};

mod above;
mod bytes;
mod faults;
mod links;
mod looks;
mod parts;
mod rename;

/// The tree of one thread: rows from directory and name to child, nodes, and how many nodes each
/// core has made. A look-up takes time in the logarithm of a bucket's rows, and no call goes over
/// the whole tree.
#[derive(Drop)]
pub struct Tree {
    alloc: Global,
    store: Store,
    first: u32,
    share: u32,
    made: Vec<u32>,
}

impl Model for Tree {
    ghost use Rattle.tree_laws.specs.Tree.{TreeState, tree_code};

    ghost Value = { TreeState };

    ghost coded = { tree_code };

    ghost use Rattle.tree_laws.specs.Build.{IsFounded};

    ghost view = { λ t. record { rows = t.store.rows; nodes = t.store.nodes; first = t.first; share = t.share; made = t.made.items } };

    ghost invariant = { λ t. IsFounded t.store.nodes t.first t.share t.made.items };
}

impl Tree {
    ghost use Rattle.sfs_base.specs.declared.numbers.Kind.TheVariants.{Directory};
    ghost use Rattle.tree_laws.specs.Tree.{row_of, is_directory, bucket_rows, made_by};
    ghost use Rattle.tree_laws.specs.Build.{root_alone, with_node, with_row};
    ghost use Rattle.tree_laws.specs.Sound.{IsSound, IsNumbered};
    ghost use Rattle.tree_laws.specs.Step.{IsReadable};
    ghost use Rattle.tree_laws.specs.Laws.{IsSoundTree};
    ghost use Rattle.tree_laws.specs.Verdict.{verdict, tree_after_call};

    /// The root alone. The first new node has the number `first`, 1 to 16,384; each of the cores may
    /// make `share` nodes, together at most 65,536.
    pub fn empty(alloc: Global, first: u32, share: u32, cores: u8) -> Result<Tree, NoMemory>
        requires first { 1 ≤ first }
        requires low { first ≤ 16384 }
        requires shares { share * cores ≤ 65536 }
        ensures ok { IfOk result (λ tree. tree ≡ root_alone first share cores) }
    {
        let mut store = Store::new(alloc);
        store.grow(alloc, 1)?;
        let root = NodeData {
            kind: Kind::Directory,
            bytes: Vec::new(alloc),
        };
        store.put_node(0, root);
        let made = vec![in alloc; 0u32; cores as usize]?;
        Ok(Tree {
            alloc,
            store,
            first,
            share,
            made,
        })
    }

    /// A further node, below the first new one. A directory has no bytes, a file at most 67,551,232.
    pub fn put_node(&mut self, node: NodeId, kind: Kind, bytes: Vec<u8>) -> Result<(), NoMemory>
        requires absent { finmap.get self.old.nodes node.0 ≡ None }
        requires low { node.0 < self.old.first }
        requires directory { kind ≡ Directory → bytes.items ≡ [] }
        requires size { length bytes.items ≤ 67551232 }
        ensures ok { OnOk result (self.new ≡ with_node self.old node.0 kind bytes.items) }
        ensures err { OnErr result (self.new ≡ self.old) }
    {
        self.store.grow(self.alloc, node.0 as usize + 1)?;
        self.store.put_node(node.0, NodeData { kind, bytes });
        Ok(())
    }

    /// A further row of a directory of the tree that has no row of this name and fewer than 4,096
    /// rows in the name's bucket. The child is a node of the tree.
    pub fn put_row(&mut self, dir: NodeId, name: Name, child: NodeId) -> Result<(), NoMemory>
        requires directory { IsTrue (is_directory self.old dir.0) }
        requires absent { row_of self.old dir.0 name ≡ None }
        requires room { finmap.len (bucket_rows dir.0 (bucket name) self.old.rows) < 4096 }
        requires child { IsSome (finmap.get self.old.nodes child.0) }
        ensures ok { OnOk result (self.new ≡ with_row self.old dir.0 name child.0) }
        ensures err { OnErr result (self.new ≡ self.old) }
    {
        self.store.put_row(dir.0, name, child)
    }

    /// Each core may make `share` nodes from now on, all cores together at most 65,536. No core has
    /// made one yet. It takes no memory.
    pub fn allow(&mut self, share: u32)
        requires unmade { (core : ℕ) → made_by self.old core ≡ 0 }
        requires shares { share * length self.old.made ≤ 65536 }
        ensures share { self.new ≡ record (self.old) { share = share } }
        ensures numbered { IsNumbered self.new }
    {
        self.share = share;
    }

    /// An equal tree. Each of its nodes has a number that was given. It takes time and memory in proportion to the rows, the numbers of the nodes and their bytes.
    pub fn copy(&self) -> Result<Tree, NoMemory>
        ensures ok { IfOk result (λ tree. tree ≡ self.now) }
        ensures numbered { IsNumbered self.now }
    {
        Ok(Tree {
            alloc: self.alloc,
            store: self.store.copy(self.alloc)?,
            first: self.first,
            share: self.share,
            made: copied(&self.made)?,
        })
    }

    /// What the call answers, and the tree after it. An fsync leaves the tree as it is.
    pub fn step(&mut self, core: CoreId, call: &Call) -> Result<Reply, NoMemory>
        requires core { core.0 < length self.old.made }
        requires sound { IsSound self.old }
        requires readable { IsReadable call.now }
        ensures ok { IfOk result (λ reply. reply ≡ (verdict self.old core.0 call.now).reply) }
        ensures tree { OnOk result (self.new ≡ tree_after_call self.old core.0 call.now) }
        ensures err { OnErr result (self.new ≡ self.old) }
        ensures sound { IsSoundTree self.new }
    {
        let _ = &self.alloc;
        self.run(core, call)
    }
}

// Equal numbers.
fn copied(numbers: &Vec<u32>) -> Result<Vec<u32>, NoMemory>
    ensures { IfOk result (λ copy. copy.items ≡ numbers.now.items) }
{
    Ok(numbers.clone()?)
}

impl Tree {
    ghost use Rattle.tree_laws.specs.Sound.{IsSound};
    ghost use Rattle.tree_laws.specs.Step.{IsReadable, IsStep};

    // Does the call, by its kind.
    fn run(&mut self, core: CoreId, call: &Call) -> Result<Reply, NoMemory>
        requires core { core.0 < length self.old.made }
        requires sound { IsSound self.old }
        requires readable { IsReadable call.now }
        ensures ok { IfOk result (λ reply. IsStep self.old core.0 call.now reply self.new) }
        ensures err { OnErr result (self.new ≡ self.old) }
    {
        match call {
            Call::Look { dir, name } => Ok(self.look(*dir, name)),
            Call::Make { dir, name, kind } => self.make(core, *dir, name, *kind),
            Call::Link { file, dir, name } => self.link(*file, *dir, name),
            Call::Unlink { dir, name } => Ok(self.unlink(*dir, name)),
            Call::Rmdir { dir, name } => Ok(self.rmdir(*dir, name)),
            Call::Rename {
                dir,
                name,
                to_dir,
                to_name,
            } => self.rename(*dir, name, *to_dir, to_name),
            Call::Write { file, at, bytes } => self.write(*file, *at, bytes),
            Call::Read { file, at, count } => self.read(*file, *at, *count),
            Call::Trunc { file, size } => self.trunc(*file, *size),
            Call::Stat { node } => Ok(self.stat(*node)),
            Call::List { dir } => self.list(*dir),
            Call::Fsync { node } => Ok(self.fsync(*node)),
        }
    }
}
