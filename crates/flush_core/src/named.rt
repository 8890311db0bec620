// Which nodes the rows at a cut name. Each directory's rows are made of the first tree's by its own changes below the cut.
ghost use Rattle.std.specs.Prelude.{◌≡◌, ◌↔◌, ℕ, true, List, IsSome, IfOk, OnOk, if◌then◌else◌};
ghost use Rattle.std.specs.FinMap as finmap;
ghost use Rattle.tree_laws.specs.declared.history.Entry.{Entry};
ghost use Rattle.tree_laws.specs.Sound.{IsSound};
ghost use Rattle.tree_laws.specs.Changes.{is_own_below, with_change};
ghost use Rattle.flush_core.specs.declared.past.OwnChange.{OwnChange};
ghost use Rattle.cut_laws.specs.Cut.{cut_of};
ghost use Rattle.flush_core.specs.Engine.{Joins};
ghost use Rattle.cut_laws.specs.Elements.{OfSome};
ghost use Rattle.flush_core.specs.Named.{kept_rows, IsChild, IsChildOf, IsChildIn, AreChildren, StandsInDirectory, AreNamed};
ghost use Rattle.flush_core.specs.NodeSets.{has_node};
ghost use Rattle.flush_core.specs.Past.{IsPast, row_change_of};
ghost use Rattle.cut_laws.specs.Rules.{IsOneOf};

use crate::cut::Cut;
use crate::past::{OwnChange, Past};
use crate::sets::NodeSet;
use sfs_base::{Name, NoMemory, NodeId};
use sfs_tree::Tree;
use std::alloc::Global;
use tree_laws::{NameMap, NameRow};

/// The nodes that some row at a cut names, where the history's first tree is sound. It takes time in proportion to the
/// number of the first tree's nodes and the changes, times that of the changes.
pub(crate) fn named_at(
    alloc: Global,
    first: &Tree,
    past: &Past,
    cut: &Cut,
) -> Result<NodeSet, NoMemory>
    ensures { IfOk result (λ named. (history : List Entry) → IsSound first.now → IsPast first.now history past.now
        → AreNamed first.now history cut.now named) }
{
    children_at(alloc, first, &past.changes, cut)
}

// The children of all directories' rows at a cut.
fn children_at(
    alloc: Global,
    first: &Tree,
    changes: &[OwnChange],
    cut: &Cut,
) -> Result<NodeSet, NoMemory>
    ensures { IfOk result (λ named. IsSound first.now → AreChildren first.now changes.now cut.now named) }
{
    let directories = directories_of(alloc, first, changes)?;
    children_in(alloc, first, changes, cut, &directories)
}

// The first tree's nodes, and the directories that changes stand in.
fn directories_of(alloc: Global, first: &Tree, changes: &[OwnChange]) -> Result<Vec<u32>, NoMemory>
    ensures nodes { IfOk result (λ list. (node : ℕ) → IsSome (finmap.get first.now.nodes node) → IsOneOf list.items node) }
    ensures changed { IfOk result (λ list. (change : OwnChange) → IsOneOf changes.now change → IsOneOf list.items change.directory) }
{
    let mut directories = NodeSet::new(alloc);
    add_nodes(&mut directories, first)?;
    add_changed(&mut directories, changes)?;
    directories.list(alloc)
}

// Puts in the nodes of a tree.
fn add_nodes(directories: &mut NodeSet, first: &Tree) -> Result<(), NoMemory>
    ensures { OnOk result ((node : ℕ) → IsSome (finmap.get first.now.nodes node) → has_node directories.new node ≡ true) }
{
    let mut after = None;
    while let Some(node) = first.next_node(after) {
        directories.insert(node.0)?;
        after = Some(node);
    }
    Ok(())
}

// Puts in the directories that changes stand in.
fn add_changed(directories: &mut NodeSet, changes: &[OwnChange]) -> Result<(), NoMemory>
    ensures { OnOk result (Joins (OfSome changes.now StandsInDirectory) directories.old directories.new) }
{
    for change in changes {
        add_directory(directories, change)?;
    }
    Ok(())
}

// Puts in the directory that a change stands in.
fn add_directory(directories: &mut NodeSet, change: &OwnChange) -> Result<(), NoMemory>
    ensures { OnOk result (Joins (StandsInDirectory change.now) directories.old directories.new) }
{
    directories.insert(change.directory)
}

// The children of these directories' rows at a cut.
fn children_in(
    alloc: Global,
    first: &Tree,
    changes: &[OwnChange],
    cut: &Cut,
    directories: &[u32],
) -> Result<NodeSet, NoMemory>
    ensures { IfOk result (λ named. (node : ℕ) → (has_node named node ≡ true) ↔ OfSome directories.now (IsChildIn first.now changes.now cut.now) node) }
{
    let mut named = NodeSet::new(alloc);
    for directory in directories {
        add_children_in(&mut named, first, changes, cut, *directory)?;
    }
    Ok(named)
}

// Puts in the children of a directory's rows at a cut.
fn add_children_in(
    named: &mut NodeSet,
    first: &Tree,
    changes: &[OwnChange],
    cut: &Cut,
    directory: u32,
) -> Result<(), NoMemory>
    ensures { OnOk result (Joins (IsChildIn first.now changes.now cut.now directory) named.old named.new) }
{
    let names = rows_of(first, changes, directory, cut.get(directory))?;
    add_children(named, names.rows())
}

// Puts in the children of rows.
fn add_children(named: &mut NodeSet, rows: &[NameRow]) -> Result<(), NoMemory>
    ensures { OnOk result (Joins (OfSome rows.now IsChildOf) named.old named.new) }
{
    for row in rows {
        add_child_of(named, row)?;
    }
    Ok(())
}

// Puts in the child of a row.
fn add_child_of(named: &mut NodeSet, row: &NameRow) -> Result<(), NoMemory>
    ensures { OnOk result (Joins (IsChildOf row.now) named.old named.new) }
{
    named.insert(row.child.0)
}

// A directory's rows at a stamp.
pub(crate) fn rows_of(
    first: &Tree,
    changes: &[OwnChange],
    directory: u32,
    stamp: u64,
) -> Result<NameMap, NoMemory>
    ensures { IfOk result (λ names. names ≡ kept_rows first.now changes.now directory stamp) }
{
    let mut names = first.names(NodeId(directory))?;
    for change in changes {
        make_own(&mut names, change, directory, stamp)?;
    }
    Ok(names)
}

// Makes a change in a directory's rows, where it is its own and lies below the stamp.
fn make_own(
    names: &mut NameMap,
    change: &OwnChange,
    directory: u32,
    stamp: u64,
) -> Result<(), NoMemory>
    ensures { OnOk result (names.new ≡ (if is_own_below directory stamp (row_change_of change.now) then with_change names.old (row_change_of change.now) else names.old)) }
{
    if change.stamp < stamp && change.directory == directory {
        make(names, change)?;
    }
    Ok(())
}

// Makes a change in rows.
fn make(names: &mut NameMap, change: &OwnChange) -> Result<(), NoMemory>
    ensures { OnOk result (names.new ≡ with_change names.old (row_change_of change.now)) }
{
    if change.places {
        put(names, &change.name, NodeId(change.child))?;
    } else {
        take(names, &change.name);
    }
    Ok(())
}

// Puts a row, in place of one of its name.
fn put(names: &mut NameMap, name: &Name, child: NodeId) -> Result<(), NoMemory>
    ensures { OnOk result (names.new ≡ finmap.insert names.old name.now child.0) }
{
    match names.get(name) {
        Some(_) => names.replace(name, child),
        None => names.insert(name.copy()?, child)?,
    }
    Ok(())
}

// Takes the row of a name away, where there is one.
fn take(names: &mut NameMap, name: &Name)
    ensures { names.new ≡ finmap.remove names.old name.now }
{
    if names.get(name).is_some() {
        names.remove(name);
    }
}
