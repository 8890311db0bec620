// The trees that the histories begin with, and what is answered there.
ghost use Rattle.std.specs.Prelude.{◌≡◌, ◌≤◌, length};
ghost use Rattle.tree_laws.specs.Sound.{IsSound};
ghost use Rattle.tree_laws.specs.Step.{IsReadable};

use crate::helpers::{got, holds};
use history_check::{CheckFault, LONGEST_HISTORY, check};
use sfs_base::{Chunk, CoreId, Kind, Name, NodeId};
use sfs_tree::Tree;
use std::alloc::Global;
use std::process::Abort;
use tree_laws::Call;

// How many cores each tree has.
pub(crate) const CORES: u8 = 2;

// The root alone, with this number for the first new node, and 2,048 new nodes for each core.
pub(crate) fn root_alone(rt: &impl Abort, alloc: Global, first: u32) -> Tree
    requires first { 1 ≤ first }
    requires low { first ≤ 16384 }
    ensures sound { IsSound result }
    ensures cores { CORES ≡ length result.made }
{
    got(rt, Tree::empty(alloc, first, 2048, CORES))
}

// What is answered to a text from a tree on.
pub(crate) fn answer_from(
    rt: &impl Abort,
    alloc: Global,
    first: Tree,
    text: &str,
) -> Result<u64, CheckFault>
    requires sound { IsSound first }
    requires cores { CORES ≡ length first.made }
{
    holds(rt, text.len() <= LONGEST_HISTORY);
    check(alloc, first, CORES, text.as_bytes())
}

// What is answered to a text from the root alone on.
pub(crate) fn answer(
    rt: &impl Abort,
    alloc: Global,
    first: u32,
    text: &str,
) -> Result<u64, CheckFault>
    requires first { 1 ≤ first }
    requires low { first ≤ 16384 }
{
    let tree = root_alone(rt, alloc, first);
    answer_from(rt, alloc, tree, text)
}

// Does a call on a tree.
fn step(rt: &impl Abort, tree: &mut Tree, call: Call)
    requires sound { IsSound tree.old }
    requires cores { CORES ≡ length tree.old.made }
    requires readable { IsReadable call }
    ensures sound { IsSound tree.new }
    ensures cores { CORES ≡ length tree.new.made }
{
    let _ = got(rt, tree.step(CoreId(0), &call));
}

// Makes a node.
fn make(rt: &impl Abort, alloc: Global, tree: &mut Tree, dir: NodeId, name: &[u8], kind: Kind)
    requires sound { IsSound tree.old }
    requires cores { CORES ≡ length tree.old.made }
    ensures sound { IsSound tree.new }
    ensures cores { CORES ≡ length tree.new.made }
{
    let name = got(rt, Name::new(alloc, name));
    step(rt, tree, Call::Make { dir, name, kind });
}

// The tree with the directories `/tmp` and `/new` and the file `/new/m` of five bytes, whose nodes are 1, 2 and 3.
pub(crate) fn mail(rt: &impl Abort, alloc: Global) -> Tree
    ensures sound { IsSound result }
    ensures cores { CORES ≡ length result.made }
{
    let root = NodeId(0);
    let new = NodeId(2);
    let file = NodeId(3);
    let mut tree = root_alone(rt, alloc, 1);
    make(
        rt,
        alloc,
        &mut tree,
        root,
        b"tmp".as_slice(),
        Kind::Directory,
    );
    make(
        rt,
        alloc,
        &mut tree,
        root,
        b"new".as_slice(),
        Kind::Directory,
    );
    make(rt, alloc, &mut tree, new, b"m".as_slice(), Kind::File);
    let bytes = match Chunk::new(got(rt, b"hello".as_slice().to_vec(alloc))) {
        Ok(bytes) => bytes,
        Err(_) => panic!(rt; "a long chunk"),
    };
    step(rt, &mut tree, Call::Write { file, at: 0, bytes });
    tree
}
