// The tree of an image that breaks no rule: its nodes, and then its rows.
ghost use Rattle.std.specs.Prelude.{◌≡◌, ℕ, ◌+◌, ◌<◌, ◌≤◌, length, [], None, IfOk, OnOk};
ghost use Rattle.std.specs.FinMap as finmap;
ghost use Rattle.sfs_image.specs.Super.{InRange};
ghost use Rattle.disk_tree.specs.Built.{MayBuild, MayPut, tree_of_entries, with_entries, row_entries, with_nodes, node_entries, with_node_of};
ghost use Rattle.disk_tree.specs.Contents.{bytes_of_inode};
ghost use Rattle.disk_tree.specs.Inodes.{inode_at};

use crate::by_name::rows_by_name;
use crate::contents::Content;
use crate::inodes::{DIRECTORY, FILE};
use crate::read::ReadInodes;
use crate::rows::RowList;
use fmt_inode::Inode;
use fmt_super::Layout;
use sfs_base::{Kind, NoMemory, NodeId};
use sfs_tree::Tree;
use std::alloc::Global;

/// The tree of an image whose inodes keep the rules.
pub fn built_tree(
    alloc: Global,
    layout: &Layout,
    read: &ReadInodes,
    named: &[u32],
    rows: &[RowList],
) -> Result<Tree, NoMemory>
    requires layout { InRange layout.now }
    requires may { MayBuild layout.now read.now.inodes.items named.now read.now.contents.items rows.now }
    ensures { IfOk result (λ tree. tree ≡ tree_of_entries layout.now
        (node_entries read.now.inodes.items named.now read.now.contents.items (length read.now.inodes.items)) (row_entries rows.now (length rows.now))) }
{
    let mut tree = Tree::empty(alloc, layout.inodes, 0, layout.cores as u8)?;
    put_nodes(alloc, &mut tree, &read.inodes, named, &read.contents)?;
    put_rows(alloc, &mut tree, rows)?;
    Ok(tree)
}

// Puts the nodes of all inodes but the root's into a tree that has the root alone.
fn put_nodes(
    alloc: Global,
    tree: &mut Tree,
    inodes: &[Inode],
    named: &[u32],
    contents: &[Content],
) -> Result<(), NoMemory>
    requires few { length inodes.now ≤ tree.old.first }
    requires some { 0 < length inodes.now }
    requires low { tree.old.first ≤ 16384 }
    requires counts { (length named.now ≡ length inodes.now) × (length contents.now ≡ length inodes.now) }
    requires start { tree.old ≡ with_nodes tree.old (node_entries inodes.now named.now contents.now 1) }
    requires sizes { (i : ℕ) → i < length inodes.now → (inode_at inodes.now i).size ≤ 67551232 }
    requires bytes { (i : ℕ) → i < length inodes.now → (inode_at inodes.now i).size ≤ length (bytes_of_inode contents.now i) }
    ensures { OnOk result (tree.new ≡ with_nodes tree.old (node_entries inodes.now named.now contents.now (length inodes.now))) }
{
    for place in 1..inodes.len() {
        put_node_of(
            alloc,
            tree,
            place as u32,
            &inodes[place],
            named[place],
            contents[place].as_slice(),
        )?;
    }
    Ok(())
}

// Puts the node that an inode is: a directory is one, and a file that a row names.
fn put_node_of(
    alloc: Global,
    tree: &mut Tree,
    place: u32,
    inode: &Inode,
    named: u32,
    bytes: &[u8],
) -> Result<(), NoMemory>
    requires absent { finmap.get tree.old.nodes place ≡ None }
    requires low { place < tree.old.first }
    requires size { inode.now.size ≤ 67551232 }
    requires bytes { inode.now.size ≤ length bytes.now }
    ensures { OnOk result (tree.new ≡ with_node_of tree.old inode.now named bytes.now place) }
{
    if inode.kind == DIRECTORY {
        return tree.put_node(NodeId(place), Kind::Directory, Vec::new(alloc));
    }
    if inode.kind == FILE && named != 0 {
        let own = bytes[..inode.size as usize].to_vec(alloc)?;
        return tree.put_node(NodeId(place), Kind::File, own);
    }
    Ok(())
}

// Puts the rows of all directories into a tree without rows.
fn put_rows(alloc: Global, tree: &mut Tree, rows: &[RowList]) -> Result<(), NoMemory>
    requires few { length rows.now ≤ 16384 }
    requires start { tree.old ≡ with_entries tree.old [] }
    requires may { MayPut tree.old rows.now }
    ensures { OnOk result (tree.new ≡ with_entries tree.old (row_entries rows.now (length rows.now))) }
{
    for place in 0..rows.len() {
        put_rows_of(alloc, tree, rows, place)?;
    }
    Ok(())
}

// Puts the rows of a directory into a tree that has the rows of those before it.
fn put_rows_of(
    alloc: Global,
    tree: &mut Tree,
    rows: &[RowList],
    directory: usize,
) -> Result<(), NoMemory>
    requires few { length rows.now ≤ 16384 }
    requires within { directory < length rows.now }
    requires start { tree.old ≡ with_entries tree.old (row_entries rows.now directory) }
    requires may { MayPut tree.old rows.now }
    ensures { OnOk result (tree.new ≡ with_entries tree.old (row_entries rows.now (directory + 1))) }
{
    let node = NodeId(directory as u32);
    // By ascending names each row comes behind those of its bucket, and moves none of them.
    let sorted = rows_by_name(alloc, rows[directory].as_slice())?;
    for row in &sorted {
        tree.put_row(node, row.name.copy()?, NodeId(row.inode))?;
    }
    Ok(())
}
