// What one fsync flushes and concerns. The set of members grows by one node at a time, until what the changes and births bring in
// for its members is in it.
ghost use Rattle.std.specs.Prelude.{◌≡◌, ◌≤◌, ◌↔◌, ℕ, true, List, IfOk, OnOk};
ghost use Rattle.tree_laws.specs.declared.history.Entry.{Entry};
ghost use Rattle.tree_laws.specs.Tree.{TreeState};
ghost use Rattle.cut_laws.specs.Closure.{Flush};
ghost use Rattle.cut_laws.specs.Cut.{cut_of};
ghost use Rattle.flush_core.specs.Engine.{Spans, IsNaming, RequiresNode, RequiresNodeFor, IsRequiredByChange, RequiresBirthplace, IsRequiredByBirth, IsRequired, Finds, Joins, NamesFor};
ghost use Rattle.cut_laws.specs.Elements.{OfSome};
ghost use Rattle.flush_core.specs.Members.{AreMembers, AreConcerned};
ghost use Rattle.flush_core.specs.Past.{IsPast};
ghost use Rattle.cut_laws.specs.Rules.{IsOneOf};
ghost use Rattle.flush_core.specs.declared.sets.NodeSet.{NodeSet};

use crate::cut::Cut;
use crate::past::{BornNode, OwnChange, Past};
use crate::sets::NodeSet;
use sfs_base::NoMemory;
use std::alloc::Global;

/// The nodes that an fsync of `node` at `stamp` flushes. It takes time in proportion to their number, times that of
/// changes and that of births.
pub(crate) fn members_of(
    alloc: Global,
    past: &Past,
    cut: &Cut,
    inodes: &NodeSet,
    node: u32,
    stamp: u64,
) -> Result<NodeSet, NoMemory>
    ensures { IfOk result (λ members. (first : TreeState) (history : List Entry) → IsPast first history past.now
        → AreMembers first history cut.now inodes.now (record { node = node; stamp = stamp }) members) }
{
    let mut members = NodeSet::new(alloc);
    members.insert(node)?;
    while let Some(required) = required_node(past, cut, inodes, stamp, &members) {
        members.insert(required)?;
    }
    Ok(members)
}

// A node that the members bring in and that is not one of them.
fn required_node(
    past: &Past,
    cut: &Cut,
    inodes: &NodeSet,
    stamp: u64,
    members: &NodeSet,
) -> Option<u32>
    ensures { Finds (IsRequired past.now cut.now inodes.now stamp members.now) members.now result }
{
    match node_of_change(&past.changes, cut, stamp, members) {
        Some(node) => Some(node),
        None => node_of_birth(&past.births, &past.changes, cut, inodes, members),
    }
}

// Such a node that a change brings in.
fn node_of_change(changes: &[OwnChange], cut: &Cut, stamp: u64, members: &NodeSet) -> Option<u32>
    ensures { Finds (IsRequiredByChange changes.now cut.now stamp members.now) members.now result }
{
    for change in changes {
        if let Some(node) = brought_by(change, cut, stamp, members) {
            return Some(node);
        }
    }
    None
}

// Such a node that this change brings in.
fn brought_by(change: &OwnChange, cut: &Cut, stamp: u64, members: &NodeSet) -> Option<u32>
    ensures { Finds (RequiresNodeFor cut.now stamp members.now change.now) members.now result }
{
    if members.has(change.directory) && spans(cut, stamp, change) {
        absent_of(change, members)
    } else {
        None
    }
}

// Whether a change lies in the span of its directory.
pub(crate) fn spans(cut: &Cut, stamp: u64, change: &OwnChange) -> bool
    ensures { (result ≡ true) ↔ Spans cut.now stamp change.now }
{
    cut.get(change.directory) <= change.stamp && change.stamp < stamp
}

// A node that is not a member, of those that a change brings in.
fn absent_of(change: &OwnChange, members: &NodeSet) -> Option<u32>
    ensures { Finds (RequiresNode change.now) members.now result }
{
    if let Some(other) = change.other {
        if !members.has(other) {
            return Some(other);
        }
    }
    if change.ends && !members.has(change.child) {
        return Some(change.child);
    }
    match &change.above {
        Some(above) => absent_among(above, members),
        None => None,
    }
}

// One of some nodes that is not a member.
fn absent_among(nodes: &[u32], members: &NodeSet) -> Option<u32>
    ensures { Finds (IsOneOf nodes.now) members.now result }
{
    for node in nodes {
        if !members.has(*node) {
            return Some(*node);
        }
    }
    None
}

// A node that a birth brings in and that is not a member.
fn node_of_birth(
    births: &[BornNode],
    changes: &[OwnChange],
    cut: &Cut,
    inodes: &NodeSet,
    members: &NodeSet,
) -> Option<u32>
    ensures { Finds (IsRequiredByBirth changes.now births.now cut.now inodes.now members.now) members.now result }
{
    for born in births {
        if let Some(node) = borne_by(born, changes, cut, inodes, members) {
            return Some(node);
        }
    }
    None
}

// The directory of this birth, where the birth brings it in and it is not a member.
fn borne_by(
    born: &BornNode,
    changes: &[OwnChange],
    cut: &Cut,
    inodes: &NodeSet,
    members: &NodeSet,
) -> Option<u32>
    ensures { Finds (RequiresBirthplace changes.now cut.now inodes.now members.now born.now) members.now result }
{
    if members.has(born.node)
        && !inodes.has(born.node)
        && !members.has(born.directory)
        && has_naming(changes, cut, born.node)
    {
        Some(born.directory)
    } else {
        None
    }
}

// Whether a change names a node and does not lie below its directory's cut.
pub(crate) fn has_naming(changes: &[OwnChange], cut: &Cut, node: u32) -> bool
    ensures { (result ≡ true) ↔ IsNaming changes.now cut.now node }
{
    for change in changes {
        if change.child == node && cut.get(change.directory) <= change.stamp {
            return true;
        }
    }
    false
}

/// The nodes that an fsync concerns, whose members these are: them, and the children of the changes in their spans.
/// It takes time in proportion to the number of changes.
pub(crate) fn concerned_by(
    past: &Past,
    cut: &Cut,
    members: &NodeSet,
    stamp: u64,
) -> Result<NodeSet, NoMemory>
    ensures { IfOk result (λ concerned. (first : TreeState) (history : List Entry) (inodes : NodeSet) (node : ℕ) → IsPast first history past.now
        → AreMembers first history cut.now inodes (record { node = node; stamp = stamp }) members.now
        → AreConcerned first history cut.now inodes (record { node = node; stamp = stamp }) concerned) }
{
    with_named(&past.changes, cut, members, stamp)
}

// The members, and the children of those changes that lie in their spans.
fn with_named(
    changes: &[OwnChange],
    cut: &Cut,
    members: &NodeSet,
    stamp: u64,
) -> Result<NodeSet, NoMemory>
    ensures { IfOk result (λ concerned. Joins (OfSome changes.now (NamesFor cut.now stamp members.now)) members.now concerned) }
{
    let mut concerned = members.copy()?;
    for change in changes {
        add_child(&mut concerned, change, cut, members, stamp)?;
    }
    Ok(concerned)
}

// Puts in the child of a change that lies in a member's span.
fn add_child(
    concerned: &mut NodeSet,
    change: &OwnChange,
    cut: &Cut,
    members: &NodeSet,
    stamp: u64,
) -> Result<(), NoMemory>
    ensures { OnOk result (Joins (NamesFor cut.now stamp members.now change.now) concerned.old concerned.new) }
{
    if members.has(change.directory) && spans(cut, stamp, change) {
        concerned.insert(change.child)?;
    }
    Ok(())
}
