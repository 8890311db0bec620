// The trees that disks recover to, and whether two trees are alike.
ghost use Rattle.std.specs.Prelude.{◌≡◌, ◌≤◌, IfSome};
ghost use Rattle.tree_laws.specs.Sound.{IsSound};

use crate::helpers::{got, holds, same_list};
use recovery::recover;
use script::tree_text;
use sfs_base::{Kind, Name, NoMemory, NodeId};
use sfs_dev::Memory;
use sfs_tree::Tree;
use std::alloc::Global;
use std::process::Abort;

/// The tree that recovers of what a crash leaves of a disk, with this draw of what was pending. The disk stays as it is.
pub(crate) fn recovered(rt: &impl Abort, alloc: Global, disk: &Memory, pick: u32) -> Tree
    ensures { IsSound result }
{
    let mut left = got(rt, disk.left(alloc, u64::MAX, pick));
    got(rt, recover(alloc, &mut left)).tree
}

/// Asserts that what a crash leaves of a disk recovers to a tree of this text.
pub(crate) fn assert_recovers(rt: &impl Abort, alloc: Global, disk: &Memory, wanted: &str) {
    for pick in 0..2u32 {
        let tree = recovered(rt, alloc, disk, pick);
        let is = got(rt, tree_text(alloc, &tree));
        same_list(rt, is.as_slice(), wanted.as_bytes());
    }
}

/// Asserts that what a crash may leave of a disk recovers, behind so many device calls, with this draw of what was pending.
pub(crate) fn assert_left(rt: &impl Abort, alloc: Global, disk: &Memory, calls: u64, pick: u32) {
    let mut left = got(rt, disk.left(alloc, calls, pick));
    holds(rt, recover(alloc, &mut left).is_ok());
}

/// The nodes of two trees at the same path.
#[derive(Clone, Copy)]
pub(crate) struct Pair {
    pub one: NodeId,
    pub other: NodeId,
}

impl Pair {
    /// The roots.
    pub(crate) const ROOTS: Pair = Pair {
        one: NodeId(0),
        other: NodeId(0),
    };
}

/// Puts the children of two directories last, each with the one at the same place. Says whether they have the same names.
pub(crate) fn add_children(
    one: &Tree,
    other: &Tree,
    pair: Pair,
    unmet: &mut Vec<Pair>,
) -> Result<bool, NoMemory> {
    let rows = one.names(pair.one)?;
    let others = other.names(pair.other)?;
    if rows.len() != others.len() {
        return Ok(false);
    }
    for place in 0..rows.len() {
        let (Some(row), Some(other_row)) = (rows.at(place), others.at(place)) else {
            return Ok(false);
        };
        if row.name.bytes() != other_row.name.bytes() {
            return Ok(false);
        }
        unmet.push(Pair {
            one: row.child,
            other: other_row.child,
        })?;
    }
    Ok(true)
}

// Whether two nodes are of one kind, directories with the same names or files with the same bytes. Puts the children last.
fn are_alike(
    one: &Tree,
    other: &Tree,
    pair: Pair,
    unmet: &mut Vec<Pair>,
) -> Result<bool, NoMemory> {
    match (one.kind(pair.one), other.kind(pair.other)) {
        (Some(Kind::Directory), Some(Kind::Directory)) => add_children(one, other, pair, unmet),
        (Some(Kind::File), Some(Kind::File)) => {
            Ok(one.bytes(pair.one) == other.bytes(pair.other))
        }
        _ => Ok(false),
    }
}

// How many nodes a walk meets at most.
const MOST_MET: u32 = 100_000;

// Whether two trees have the same names, and files of the same bytes under them.
fn have_same_bytes(alloc: Global, one: &Tree, other: &Tree) -> Result<bool, NoMemory> {
    let mut unmet = Vec::new(alloc);
    unmet.push(Pair::ROOTS)?;
    for _ in 0..MOST_MET {
        let Some(pair) = unmet.pop() else {
            return Ok(true);
        };
        if !are_alike(one, other, pair, &mut unmet)? {
            return Ok(false);
        }
    }
    Ok(false)
}

/// Asserts that two trees have the same text, which tells names, links and sizes and which names are one file's, and the same bytes.
pub(crate) fn assert_alike(rt: &impl Abort, alloc: Global, one: &Tree, other: &Tree)
    requires one { IsSound one.now }
    requires other { IsSound other.now }
{
    let text = got(rt, tree_text(alloc, one));
    let other_text = got(rt, tree_text(alloc, other));
    same_list(rt, text.as_slice(), other_text.as_slice());
    holds(rt, got(rt, have_same_bytes(alloc, one, other)));
}

// The child of a directory with this name.
fn child_of(
    rt: &impl Abort,
    alloc: Global,
    tree: &Tree,
    node: NodeId,
    name: &str,
) -> Option<NodeId> {
    let name = got(rt, Name::new(alloc, name.as_bytes()));
    tree.child(node, &name)
}

/// The bytes of the file at the end of these names.
pub(crate) fn bytes_at<'a>(
    rt: &impl Abort,
    alloc: Global,
    tree: &'a Tree,
    names: &[&str],
) -> Option<&'a [u8]> {
    let mut node = NodeId(0);
    for name in names {
        node = child_of(rt, alloc, tree, node, name)?;
    }
    if tree.kind(node) == Some(Kind::File) {
        Some(tree.bytes(node))
    } else {
        None
    }
}

// How many slashes the longest line of a text has.
fn most_slashes(text: &[u8]) -> u32 {
    let mut most = 0u32;
    let mut slashes = 0u32;
    for byte in text {
        if *byte == b'\n' {
            slashes = 0;
        }
        if *byte == b'/' {
            slashes = slashes.saturating_add(1);
            most = most.max(slashes);
        }
    }
    most
}

/// Whether a tree has a path of more than four names.
pub(crate) fn is_deep(rt: &impl Abort, alloc: Global, tree: &Tree) -> bool
    requires { IsSound tree.now }
{
    let text = got(rt, tree_text(alloc, tree));
    most_slashes(text.as_slice()) > 4
}
