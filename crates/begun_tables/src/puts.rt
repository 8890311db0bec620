// Nodes and rows that are put into a tree.
ghost use Rattle.std.specs.Prelude.{◌≡◌, ◌*◌, ◌<◌, ◌≤◌, [], if◌then◌else◌, IfOk, OnErr, OnOk, is_none, length};
ghost use Rattle.std.specs.FinMap as finmap;
ghost use Rattle.sfs_base.specs.declared.numbers.Kind.TheVariants.{Directory};
ghost use Rattle.tree_laws.specs.Build as build;
ghost use Rattle.tree_laws.specs.Verdict.{LARGEST_FILE};
ghost use Rattle.begun_tables.specs.Begun as begun;
ghost use Rattle.begun_tables.specs.Begun.{IsBuiltTree, KeepsNumbers};

use sfs_base::{Kind, Name, NoMemory, NodeId};
use sfs_tree::Tree;
use std::alloc::Global;

/// The root alone. The first new node has this number, and each of so many cores may make `share` nodes.
pub fn root_alone(alloc: Global, first: u32, share: u32, cores: u8) -> Result<Tree, NoMemory>
    requires first { (1 ≤ first) × (first ≤ 16384) }
    requires shares { share * cores ≤ 65536 }
    ensures built { IfOk result IsBuiltTree }
    ensures tree { IfOk result (λ tree. tree ≡ build.root_alone first share cores) }
    ensures made { IfOk result (λ tree. length tree.made ≡ cores) }
{
    let tree = Tree::empty(alloc, first, share, cores)?;
    Ok(tree)
}

/// Puts a node, where the tree does not have it. Says whether it was put.
pub fn put_node(tree: &mut Tree, node: NodeId, kind: Kind, bytes: Vec<u8>) -> Result<bool, NoMemory>
    requires built { IsBuiltTree tree.old }
    requires low { node.0 < tree.old.first }
    requires directory { kind ≡ Directory → bytes.items ≡ [] }
    requires size { length bytes.items ≤ LARGEST_FILE }
    ensures due { IfOk result (λ put. put ≡ is_none (finmap.get tree.old.nodes node.0)) }
    ensures put { IfOk result (λ put. tree.new ≡ (if put then build.with_node tree.old node.0 kind bytes.items else tree.old)) }
    ensures err { OnErr result (tree.new ≡ tree.old) }
    ensures built { OnOk result (IsBuiltTree tree.new) }
    ensures numbers { OnOk result (KeepsNumbers tree.old tree.new) }
{
    if tree.kind(node).is_some() {
        return Ok(false);
    }
    tree.put_node(node, kind, bytes)?;
    Ok(true)
}

/// Puts a row where none is, if the directory is alive and has fewer than 4,096 rows. Its child is a file, or a directory that no row names
/// yet. Says whether it was put.
pub fn put_row(tree: &mut Tree, dir: NodeId, name: Name, child: NodeId) -> Result<bool, NoMemory>
    requires built { IsBuiltTree tree.old }
    ensures due { IfOk result (λ put. put ≡ begun.may_put tree.old dir.0 name child.0) }
    ensures put { IfOk result (λ put. tree.new ≡ (if put then build.with_row tree.old dir.0 name child.0 else tree.old)) }
    ensures err { OnErr result (tree.new ≡ tree.old) }
    ensures built { OnOk result (IsBuiltTree tree.new) }
    ensures numbers { OnOk result (KeepsNumbers tree.old tree.new) }
{
    if !may_put(tree, dir, &name, child) {
        return Ok(false);
    }
    tree.put_row(dir, name, child)?;
    Ok(true)
}

// Whether a row may be put.
fn may_put(tree: &Tree, dir: NodeId, name: &Name, child: NodeId) -> bool
    ensures due { result ≡ begun.may_put tree.now dir.0 name.now child.0 }
{
    may_hold_rows(tree, dir)
        && tree.child(dir, name).is_none()
        && tree.row_count(dir) < 4096
        && may_get_name(tree, child)
}

// Whether a node is a directory that is alive.
fn may_hold_rows(tree: &Tree, node: NodeId) -> bool
    ensures due { result ≡ begun.may_hold_rows tree.now node.0 }
{
    match tree.kind(node) {
        Some(Kind::Directory) => tree.is_alive(node),
        _ => false,
    }
}

// Whether a node is a file, or a directory that no row names.
fn may_get_name(tree: &Tree, node: NodeId) -> bool
    ensures due { result ≡ begun.may_get_name tree.now node.0 }
{
    match tree.kind(node) {
        Some(Kind::File) => true,
        Some(Kind::Directory) => !tree.is_alive(node),
        None => false,
    }
}
