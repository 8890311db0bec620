// The rows of one bucket, and where its directory stands.
ghost use Rattle.std.specs.Prelude.{◌≡◌, None, IfOk, OnOk};
ghost use Rattle.std.specs.FinMap as finmap;
ghost use Rattle.tree_laws.specs.Tree.{is_directory};
ghost use Rattle.tree_laws.specs.Lock.{stands_of};
ghost use Rattle.tree_laws.specs.NameRow.{number_of};
ghost use Rattle.tree_laws.specs.Sound.{IsSound};
ghost use Rattle.mem_values.specs.Stands.{ShowsBucket};
ghost use Rattle.mem_begin.specs.Beginning.{ShowsDirectories};

use mem_values::Bucket;
use sfs_base::{Kind, Name, NoMemory, NodeId};
use sfs_tree::Tree;
use std::alloc::Global;

/// Whether a node is a directory of the tree.
pub(crate) fn is_directory(tree: &Tree, node: NodeId) -> bool
    ensures { result ≡ is_directory tree.now node.0 }
{
    match tree.kind(node) {
        Some(Kind::Directory) => true,
        _ => false,
    }
}

// Where a directory stands, and nothing for what is no directory.
fn stands_in(tree: &Tree, node: NodeId) -> Option<NodeId>
    requires { IsSound tree.now }
    ensures { number_of result ≡ stands_of tree.now node.0 }
{
    if is_directory(tree, node) {
        tree.holder(node)
    } else {
        None
    }
}

// Adds a row whose name the bucket does not have.
fn add_row(tree: &Tree, bucket: &mut Bucket, name: &Name, child: NodeId) -> Result<(), NoMemory>
    requires new { finmap.get bucket.old.rows name.now ≡ None }
    requires directories { ShowsDirectories tree.now bucket.old }
    ensures rows { OnOk result (bucket.new.rows ≡ finmap.insert bucket.old.rows name.now child.0) }
    ensures directories { OnOk result (ShowsDirectories tree.now bucket.new) }
    ensures stands { bucket.new.stands ≡ bucket.old.stands }
{
    bucket.rows.insert(name.copy()?, child)?;
    if is_directory(tree, child) {
        bucket.directories.insert(name.copy()?, child)?;
    }
    Ok(())
}

/// A bucket of a node: its rows, names copied, those that name directories, and where the node stands. It takes time in the logarithm of
/// the rows for each of them.
pub(crate) fn bucket_of(
    alloc: Global,
    tree: &Tree,
    node: NodeId,
    number: u8,
) -> Result<Bucket, NoMemory>
    requires { IsSound tree.now }
    ensures { IfOk result (ShowsBucket tree.now node.0 number) }
{
    let mut bucket = Bucket::new(alloc, stands_in(tree, node));
    for place in 0..tree.row_count(node) {
        let Some((name, child)) = tree.row(node, number, place) else {
            return Ok(bucket);
        };
        add_row(tree, &mut bucket, name, child)?;
    }
    Ok(bucket)
}
