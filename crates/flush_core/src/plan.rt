// The changes that a call makes where it isn't refused, read off the tree before it.
ghost use Rattle.std.specs.Prelude.{◌≡◌, None, map, IfOk};
ghost use Rattle.tree_laws.specs.NameRow.{node_number, number_of};
ghost use Rattle.tree_laws.specs.Tree.{row_of, is_directory};
ghost use Rattle.tree_laws.specs.Sound.{IsSound};
ghost use Rattle.tree_laws.specs.Changes.{added, removed, replaced, changes_by, other_side};
ghost use Rattle.flush_core.specs.Past.{row_change_of};
ghost use Rattle.flush_core.specs.Plan.{plan_of, removal, moving, KeepAllAbove, IsAboveNew};

use crate::past::OwnChange;
use sfs_base::{Kind, Name, NoMemory, NodeId};
use sfs_tree::Tree;
use std::alloc::Global;
use tree_laws::Call;

/// The changes that a call makes where it isn't refused, but for the making of a node. Where a
/// directory is put by a rename between two, those above the new one are kept.
pub fn planned_changes(
    alloc: Global,
    tree: &Tree,
    stamp: u64,
    call: &Call,
) -> Result<Vec<OwnChange>, NoMemory>
    requires { IsSound tree.now }
    ensures changes { IfOk result (λ changes. map row_change_of changes.items ≡ changes_by tree.now stamp (plan_of tree.now call.now)) }
    ensures above { IfOk result (λ changes. KeepAllAbove tree.now changes.items) }
{
    match call {
        Call::Link { file, dir, name } => {
            let row = put(stamp, *dir, name, *file, None, None)?;
            Ok(vec![in alloc; row]?)
        }
        Call::Unlink { dir, name } | Call::Rmdir { dir, name } => {
            planned_removal(alloc, tree, stamp, *dir, name)
        }
        Call::Rename {
            dir,
            name,
            to_dir,
            to_name,
        } => planned_move(alloc, tree, stamp, *dir, name, *to_dir, to_name),
        _ => Ok(Vec::new(alloc)),
    }
}

// A row that comes.
pub fn put(
    stamp: u64,
    dir: NodeId,
    name: &Name,
    child: NodeId,
    other: Option<u32>,
    above: Option<Vec<u32>>,
) -> Result<OwnChange, NoMemory>
    ensures row { IfOk result (λ change. row_change_of change ≡ added stamp dir.0 name.now child.0 other) }
    ensures above { IfOk result (λ change. change.above ≡ above) }
{
    Ok(OwnChange {
        stamp,
        directory: dir.0,
        name: name.copy()?,
        child: child.0,
        places: true,
        other,
        ends: false,
        above,
    })
}

// A row that goes.
fn taken(
    stamp: u64,
    dir: NodeId,
    name: &Name,
    child: NodeId,
    other: Option<u32>,
    ends: bool,
) -> Result<OwnChange, NoMemory>
    ensures row { IfOk result (λ change. row_change_of change ≡ removed stamp dir.0 name.now child.0 other ends) }
    ensures above { IfOk result (λ change. change.above ≡ None) }
{
    Ok(OwnChange {
        stamp,
        directory: dir.0,
        name: name.copy()?,
        child: child.0,
        places: false,
        other,
        ends,
        above: None,
    })
}

// Whether the node with this number is a directory.
fn is_directory(tree: &Tree, node: NodeId) -> bool
    ensures { result ≡ is_directory tree.now node.0 }
{
    match tree.kind(node) {
        Some(Kind::Directory) => true,
        Some(Kind::File) => false,
        None => false,
    }
}

// The row of a name, which goes.
fn planned_removal(
    alloc: Global,
    tree: &Tree,
    stamp: u64,
    dir: NodeId,
    name: &Name,
) -> Result<Vec<OwnChange>, NoMemory>
    ensures changes { IfOk result (λ changes. map row_change_of changes.items
        ≡ changes_by tree.now stamp (removal dir.0 name.now (row_of tree.now dir.0 name.now))) }
    ensures above { IfOk result (λ changes. KeepAllAbove tree.now changes.items) }
{
    let Some(child) = tree.child(dir, name) else {
        return Ok(Vec::new(alloc));
    };
    let row = taken(stamp, dir, name, child, None, is_directory(tree, child))?;
    Ok(vec![in alloc; row]?)
}

// The rows of a rename, where it moves something.
fn planned_move(
    alloc: Global,
    tree: &Tree,
    stamp: u64,
    dir: NodeId,
    name: &Name,
    to_dir: NodeId,
    to_name: &Name,
) -> Result<Vec<OwnChange>, NoMemory>
    requires { IsSound tree.now }
    ensures changes { IfOk result (λ changes. map row_change_of changes.items
        ≡ changes_by tree.now stamp (moving tree.now dir.0 name.now to_dir.0 to_name.now (row_of tree.now dir.0 name.now))) }
    ensures above { IfOk result (λ changes. KeepAllAbove tree.now changes.items) }
{
    let Some(child) = tree.child(dir, name) else {
        return Ok(Vec::new(alloc));
    };
    let there = tree.child(to_dir, to_name);
    if there == Some(child) {
        return Ok(Vec::new(alloc));
    }
    let mut changes = replaced_row(alloc, tree, stamp, dir, to_dir, to_name, there)?;
    changes.push(taken(stamp, dir, name, child, other_of(dir, to_dir), false)?)?;
    let above = above_new(alloc, tree, dir, to_dir, child)?;
    changes.push(put(stamp, to_dir, to_name, child, other_of(to_dir, dir), above)?)?;
    Ok(changes)
}

// The row that a rename replaces, where something is there.
fn replaced_row(
    alloc: Global,
    tree: &Tree,
    stamp: u64,
    dir: NodeId,
    to_dir: NodeId,
    to_name: &Name,
    there: Option<NodeId>,
) -> Result<Vec<OwnChange>, NoMemory>
    ensures changes { IfOk result (λ changes. map row_change_of changes.items
        ≡ replaced tree.now stamp dir.0 to_dir.0 to_name.now (number_of there)) }
    ensures above { IfOk result (λ changes. KeepAllAbove tree.now changes.items) }
{
    let Some(there) = there else {
        return Ok(Vec::new(alloc));
    };
    let ends = is_directory(tree, there);
    let row = taken(stamp, to_dir, to_name, there, other_of(to_dir, dir), ends)?;
    Ok(vec![in alloc; row]?)
}

// The directories above the new directory of a child, where it is a directory that moves between two.
fn above_new(
    alloc: Global,
    tree: &Tree,
    dir: NodeId,
    to_dir: NodeId,
    child: NodeId,
) -> Result<Option<Vec<u32>>, NoMemory>
    requires { IsSound tree.now }
    ensures { IfOk result (λ above. IsAboveNew tree.now dir.0 to_dir.0 child.0 above) }
{
    if dir.0 == to_dir.0 || !is_directory(tree, child) || !is_directory(tree, to_dir) {
        return Ok(None);
    }
    let above = tree.above(to_dir)?;
    Ok(Some(numbers_of(alloc, &above)?))
}

// The numbers of nodes.
fn numbers_of(alloc: Global, nodes: &[NodeId]) -> Result<Vec<u32>, NoMemory>
    ensures { IfOk result (λ numbers. numbers.items ≡ map node_number nodes.now) }
{
    let mut numbers = Vec::new(alloc);
    for node in nodes {
        numbers.push(node.0)?;
    }
    Ok(numbers)
}

// The other one of two directories, where they are two.
fn other_of(dir: NodeId, other: NodeId) -> Option<u32>
    ensures { result ≡ other_side dir.0 other.0 }
{
    if dir.0 == other.0 {
        None
    } else {
        Some(other.0)
    }
}
