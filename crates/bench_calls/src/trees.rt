// The tree with which each table begins: four directories, in each of which one file has some names.
ghost use Rattle.std.specs.Prelude.{◌≡◌, ◌<◌, ◌≤◌, IfSome};
ghost use Rattle.begun_tables.specs.Begun.{BeginsTable, IsBuiltTree, KeepsNumbers};

use crate::loads::{Load, first_name, own_name};
use begun_tables::{put_node, put_row, root_alone};
use sfs_base::{CoreId, Kind, Name, NodeId};
use sfs_tree::Tree;
use std::alloc::Global;

/// How many directories there are; the first has number 1.
pub(crate) const DIRECTORIES: u8 = 4;

/// The number of the first new node, and how many nodes each core may make.
pub(crate) const FIRST: u32 = 6;

pub(crate) const SHARE: u32 = 4_000;

// The file.
const FILE: NodeId = NodeId(5);

// Puts a row. None, where it can't be put.
fn add_row(tree: &mut Tree, dir: NodeId, name: Name, child: NodeId) -> Option<()>
    requires built { IsBuiltTree tree.old }
    ensures built { IfSome result (λ _. IsBuiltTree tree.new) }
    ensures numbers { IfSome result (λ _. KeepsNumbers tree.old tree.new) }
{
    if put_row(tree, dir, name, child).ok()? {
        Some(())
    } else {
        None
    }
}

// Puts a node without bytes. None, where it can't be put.
fn add_node(alloc: Global, tree: &mut Tree, node: NodeId, kind: Kind) -> Option<()>
    requires built { IsBuiltTree tree.old }
    requires low { node.0 < tree.old.first }
    ensures built { IfSome result (λ _. IsBuiltTree tree.new) }
    ensures numbers { IfSome result (λ _. KeepsNumbers tree.old tree.new) }
{
    if put_node(tree, node, kind, Vec::new(alloc)).ok()? {
        Some(())
    } else {
        None
    }
}

// Gives the file so many names in a directory that are looked up.
fn add_names(alloc: Global, tree: &mut Tree, dir: NodeId, rows: u32) -> Option<()>
    requires built { IsBuiltTree tree.old }
    ensures built { IfSome result (λ _. IsBuiltTree tree.new) }
    ensures numbers { IfSome result (λ _. KeepsNumbers tree.old tree.new) }
{
    for number in 0..rows {
        add_row(tree, dir, first_name(alloc, number)?, FILE)?;
    }
    Some(())
}

// Gives the file the first name in a directory that each thread renames.
fn add_own_names(alloc: Global, tree: &mut Tree, dir: NodeId) -> Option<()>
    requires built { IsBuiltTree tree.old }
    ensures built { IfSome result (λ _. IsBuiltTree tree.new) }
    ensures numbers { IfSome result (λ _. KeepsNumbers tree.old tree.new) }
{
    for thread in 0..DIRECTORIES {
        add_row(
            tree,
            dir,
            own_name(alloc, Load::Renames, CoreId(thread), 0)?,
            FILE,
        )?;
    }
    Some(())
}

// Puts the directories into the root, with their rows.
fn add_directories(alloc: Global, tree: &mut Tree, rows: u32) -> Option<()>
    requires built { IsBuiltTree tree.old }
    requires first { tree.old.first ≡ FIRST }
    ensures built { IfSome result (λ _. IsBuiltTree tree.new) }
    ensures numbers { IfSome result (λ _. KeepsNumbers tree.old tree.new) }
{
    for number in 0..DIRECTORIES {
        let dir = NodeId(1 + number as u32);
        add_node(alloc, tree, dir, Kind::Directory)?;
        add_row(
            tree,
            NodeId(0),
            own_name(alloc, Load::Renames, CoreId(number), 0)?,
            dir,
        )?;
        add_names(alloc, tree, dir, rows)?;
        add_own_names(alloc, tree, dir)?;
    }
    Some(())
}

/// The tree, in which each directory has so many names that are looked up. None, where there is no memory for it.
pub(crate) fn begun_tree(alloc: Global, cores: u8, rows: u32) -> Option<Tree>
    requires { cores ≤ 4 }
    ensures { IfSome result (λ tree. BeginsTable tree FIRST SHARE cores) }
{
    let mut tree = root_alone(alloc, FIRST, SHARE, cores).ok()?;
    add_node(alloc, &mut tree, FILE, Kind::File)?;
    add_directories(alloc, &mut tree, rows)?;
    tree.allow(SHARE);
    Some(tree)
}
