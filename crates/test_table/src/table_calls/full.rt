// Calls on a tree that holds as much as it may: a file with as many names as a file may have, buckets with as many rows, and a core that
// has made all its nodes.
ghost use Rattle.std.specs.Prelude.{◌+◌, ◌<◌, ◌≤◌, IfOk, length};
ghost use Rattle.tree_laws.specs.Sound.{IsSound};
ghost use Rattle.stamp_table.specs.Table.{IsBetweenCalls};
ghost use Rattle.begun_tables.specs.Begun.{BeginsTable, IsBuiltTree, KeepsNumbers};

use crate::helpers::{got, holds};
use crate::table_calls::agrees;
use crate::table_calls::asked::Asked::{self, Link, List, Make, Rename, Stat, Unlink};
use crate::table_calls::begun::{FIRST, SHARE};
use crate::table_calls::judged::is_code;
use crate::table_calls::listed::make_listed;
use begun_tables::{begun, put_node, put_row, root_alone};
use mem_calls::TreeTable;
use mem_values::FileCore;
use sfs_base::{Kind, Name, NoMemory, NodeId};
use sfs_tree::Tree;
use std::alloc::Global;
use std::process::Abort;
use std::sync::Wait;
use tree_laws::Code;

const ROOT: NodeId = NodeId(0);

// The file that has 65,535 names, and one that has one.
const LINKED: NodeId = NodeId(1);

const OTHER: NodeId = NodeId(2);

// The first of the 16 directories that hold these names.
const FIRST_HOLDER: u32 = 3;

// Calls, with their refusals: of the directories 3 has a full bucket 0, and 18 one row less. A name that is there comes before the links,
// and these before the bucket.
static FULL: [(Asked, Option<Code>); 16] = [
    (Stat(1), None),
    (Link(1, 3, "000000"), Some(Code::Exists)),
    (Link(1, 18, "000000"), Some(Code::Exists)),
    (Link(2, 3, "000000"), Some(Code::Exists)),
    (Link(1, 18, "a"), Some(Code::TooManyLinks)),
    (Link(1, 3, "gggggg"), Some(Code::TooManyLinks)),
    (Link(2, 3, "gggggg"), Some(Code::DirFull)),
    (Make(3, "gggggg", Kind::File), Some(Code::DirFull)),
    (Rename(0, "o", 3, "gggggg"), Some(Code::DirFull)),
    (Link(2, 3, "a"), None),
    (List(3), None),
    (Unlink(18, "000000"), None),
    (Link(1, 3, "gggggg"), Some(Code::DirFull)),
    (Link(1, 18, "gggggg"), None),
    (Link(1, 18, "a"), Some(Code::TooManyLinks)),
    (Stat(1), None),
];

// The digit with this value.
fn digit(value: u32) -> u8 {
    b"0123456789abcdef"
        .get(value as usize % 16)
        .copied()
        .unwrap_or(b'?')
}

// A name of three hexadecimal digits, each written twice. All of these lie in bucket 0.
fn doubled(rt: &impl Abort, alloc: Global, number: u32) -> Name {
    let (high, middle, low) = (digit(number / 256), digit(number / 16), digit(number));
    let name = Name::new(alloc, [high, high, middle, middle, low, low].as_slice());
    got(rt, name)
}

// Puts a row.
fn add_row(rt: &impl Abort, tree: &mut Tree, dir: NodeId, name: Name, child: NodeId)
    requires built { IsBuiltTree tree.old }
    ensures built { IsBuiltTree tree.new }
    ensures numbers { KeepsNumbers tree.old tree.new }
{
    holds(rt, got(rt, put_row(tree, dir, name, child)));
}

// Gives the file so many names in a directory.
fn add_names(rt: &impl Abort, alloc: Global, tree: &mut Tree, dir: NodeId, count: u32)
    requires built { IsBuiltTree tree.old }
    ensures built { IsBuiltTree tree.new }
    ensures numbers { KeepsNumbers tree.old tree.new }
{
    for number in 0..count {
        add_row(rt, tree, dir, doubled(rt, alloc, number), LINKED);
    }
}

// Puts the directories in the root, with 4,096 names of the file in each but the last one, which has 4,095.
fn add_holders(rt: &impl Abort, alloc: Global, tree: &mut Tree)
    requires built { IsBuiltTree tree.old }
    requires low { FIRST ≤ tree.old.first }
    ensures built { IsBuiltTree tree.new }
    ensures numbers { KeepsNumbers tree.old tree.new }
{
    for number in 0..16u32 {
        let dir = NodeId(FIRST_HOLDER + number);
        let answer = put_node(tree, dir, Kind::Directory, Vec::new(alloc));
        holds(rt, got(rt, answer));
        add_row(rt, tree, ROOT, doubled(rt, alloc, number), dir);
        add_names(rt, alloc, tree, dir, 4_096 - number / 15);
    }
}

// Puts both files, with the one name of the second one, and the directories.
fn add_all(rt: &impl Abort, alloc: Global, tree: &mut Tree)
    requires built { IsBuiltTree tree.old }
    requires low { FIRST ≤ tree.old.first }
    ensures built { IsBuiltTree tree.new }
    ensures numbers { KeepsNumbers tree.old tree.new }
{
    let answer = put_node(tree, LINKED, Kind::File, Vec::new(alloc));
    holds(rt, got(rt, answer));
    let answer = put_node(tree, OTHER, Kind::File, Vec::new(alloc));
    holds(rt, got(rt, answer));
    let name = got(rt, Name::new(alloc, b"o".as_slice()));
    add_row(rt, tree, ROOT, name, OTHER);
    add_holders(rt, alloc, tree);
}

// A tree with a file of 65,535 names and a directory in whose bucket 0 no further row comes.
fn full_tree(rt: &impl Abort, alloc: Global) -> Result<Tree, NoMemory>
    ensures { IfOk result (λ tree. BeginsTable tree FIRST SHARE 1) }
{
    let mut tree = root_alone(alloc, FIRST, SHARE, 1)?;
    add_all(rt, alloc, &mut tree);
    tree.allow(SHARE);
    Ok(tree)
}

// Makes as many files as a core may, each of which goes at once, and then one more.
fn make_all<R: Wait + Abort>(
    rt: &R,
    alloc: Global,
    table: &TreeTable,
    core: &mut FileCore,
    tree: &mut Tree,
)
    requires core { IsBetweenCalls table.now core.old }
    requires sound { IsSound tree.old }
    requires known { 0 < length tree.old.made }
    ensures between { IsBetweenCalls table.now core.new }
{
    for _ in 0..SHARE {
        let made = agrees(rt, alloc, table, core, tree, Make(0, "n", Kind::File));
        let gone = agrees(rt, alloc, table, core, tree, Unlink(0, "n"));
        holds(rt, is_code(&made, None) && is_code(&gone, None));
    }
    let none = agrees(rt, alloc, table, core, tree, Make(0, "n", Kind::Directory));
    let full = agrees(rt, alloc, table, core, tree, Make(3, "gggggg", Kind::File));
    holds(rt, is_code(&none, Some(Code::NoNodes)));
    holds(rt, is_code(&full, Some(Code::DirFull)));
}

// Makes the calls on a table that begins with a tree.
fn make_full<R: Wait + Abort>(rt: &R, alloc: Global, tree: &Tree)
    requires tree { BeginsTable tree.now FIRST SHARE 1 }
{
    let mut plain = got(rt, tree.copy());
    let (table, mut cores) = got(rt, begun(alloc, tree, FIRST, SHARE, 1));
    make_listed(rt, alloc, &table, &mut cores[0], &mut plain, &FULL);
    make_all(rt, alloc, &table, &mut cores[0], &mut plain);
}

#[test]
fn calls_on_a_full_tree_are_refused(rt: HostRuntime) {
    let alloc = rt.alloc();
    let tree = got(&rt, full_tree(&rt, alloc));
    make_full(&rt, alloc, &tree);
}
