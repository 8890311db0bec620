// The tree on which calls are made, on a table.
ghost use Rattle.std.specs.Prelude.{◌<◌, ◌≤◌, IfOk};
ghost use Rattle.begun_tables.specs.Begun.{BeginsTable, IsBuiltTree, KeepsNumbers};

use crate::helpers::{got, holds};
use begun_tables::{put_node, put_row, root_alone};
use sfs_base::{Kind, Name, NoMemory, NodeId};
use sfs_tree::Tree;
use std::alloc::Global;
use std::process::Abort;

// The number of the first new node, and how many nodes each core may make.
pub(crate) const FIRST: u32 = 32;

pub(crate) const SHARE: u32 = 3_000;

// Nodes, with the bytes of files.
static NODES: [(u32, Option<&str>); 7] = [
    (1, None),
    (2, None),
    (3, Some("some bytes")),
    (4, Some("")),
    (5, Some("bytes of a file that no row names")),
    (6, None),
    (7, None),
];

// Rows of the root and of two of the three directories in it. None names the nodes 5 and 6.
static ROWS: [(u32, &str, u32); 7] = [
    (0, "d", 1),
    (0, "e", 2),
    (0, "a", 3),
    (1, "b", 3),
    (1, "c", 4),
    (2, "a", 4),
    (0, "g", 7),
];

// Puts a directory, or a file with these bytes.
fn put(rt: &impl Abort, alloc: Global, tree: &mut Tree, node: u32, bytes: Option<&str>)
    requires built { IsBuiltTree tree.old }
    requires low { FIRST ≤ tree.old.first }
    ensures built { IsBuiltTree tree.new }
    ensures numbers { KeepsNumbers tree.old tree.new }
{
    holds(rt, node < FIRST);
    let Some(text) = bytes else {
        let answer = put_node(tree, NodeId(node), Kind::Directory, Vec::new(alloc));
        holds(rt, got(rt, answer));
        return;
    };
    holds(rt, text.len() <= 100);
    let bytes = got(rt, text.as_bytes().to_vec(alloc));
    holds(rt, got(rt, put_node(tree, NodeId(node), Kind::File, bytes)));
}

// Three directories in the root, two files of two names, and a file and a directory of none.
pub(crate) fn begun_tree(rt: &impl Abort, alloc: Global, cores: u8) -> Result<Tree, NoMemory>
    requires { cores ≤ 8 }
    ensures { IfOk result (λ tree. BeginsTable tree FIRST SHARE cores) }
{
    let mut tree = root_alone(alloc, FIRST, SHARE, cores)?;
    for (node, bytes) in NODES {
        put(rt, alloc, &mut tree, node, bytes);
    }
    for (dir, name, child) in ROWS {
        let name = got(rt, Name::new(alloc, name.as_bytes()));
        let answer = put_row(&mut tree, NodeId(dir), name, NodeId(child));
        holds(rt, got(rt, answer));
    }
    tree.allow(SHARE);
    Ok(tree)
}
