// Where members were made: the directory in which a node was made is a member too, where the node has no inode and a naming that
// is not flushed.
ghost use Rattle.std.specs.Prelude.{◌≡◌, ◌↔◌, ℕ, true, map, IfOk, OnOk};
ghost use Rattle.std.specs.Ordering.{nat_cmp};
ghost use Rattle.std.specs.BTreeSet.{contains};
ghost use Rattle.std.specs.List.Sorted.{IsStrictlyIncreasing};
ghost use Rattle.sfs_base.specs.declared.numbers.NodeId.{NodeId};
ghost use Rattle.sfs_base.specs.declared.numbers.Stamp.{Stamp};
ghost use Rattle.tree_laws.specs.NameRow.{node_number};
ghost use Rattle.mem_cells.specs.Log.{IsInOrder};
ghost use Rattle.cut_laws.specs.Elements.{OfSome};
ghost use Rattle.look_laws.specs.Look.{SeesNaming};
ghost use Rattle.dep_closure.specs.Brought.{AddsTo, birthplace_due};
ghost use Rattle.dep_closure.specs.Gathered.{IsOrderly, look_of, lifted_cut, IsNamedByLog};

use crate::gathered::{DirectoryChanges, Gathered};
use crate::lookup::{find_node, has_node};
use crate::spans::from_stamp;
use sfs_base::{NoMemory, NodeId, Stamp};
use std::alloc::Global;
use std::collections::BTreeSet;
use tree_laws::Change;

/// The nodes that a gathered change names which is not flushed: it does not lie below its directory's cut,
/// where the cuts of the nodes of `lifted`, which ascend, are `to` at least. Each log is read once, from its
/// directory's cut on. Only want of memory refuses it.
pub fn named_nodes(
    alloc: Global,
    gathered: &Gathered,
    lifted: &[NodeId],
    to: Stamp,
) -> Result<BTreeSet<u32>, NoMemory>
    requires gathered { IsOrderly gathered.now }
    requires lifted { IsStrictlyIncreasing (map node_number lifted.now) }
    ensures { IfOk result (λ named. (start : NodeId) (below : Stamp) (node : ℕ) →
        (contains nat_cmp named node ≡ true)
        ↔ SeesNaming (look_of start below gathered.now) (lifted_cut gathered.now.cuts.items (map node_number lifted.now) to.0) node) }
{
    let mut named = BTreeSet::new(alloc);
    let logs = gathered.logs.as_slice();
    for log in logs {
        let cut = lifted_stamp(gathered, lifted, to, log.dir);
        add_named(&mut named, log, cut)?;
    }
    Ok(named)
}

// The stamp in a node's cut, where those of some nodes are lifted to a stamp at least.
fn lifted_stamp(gathered: &Gathered, lifted: &[NodeId], to: Stamp, node: NodeId) -> Stamp
    requires gathered { IsOrderly gathered.now }
    requires lifted { IsStrictlyIncreasing (map node_number lifted.now) }
    ensures { result.0 ≡ lifted_cut gathered.now.cuts.items (map node_number lifted.now) to.0 node.0 }
{
    let cut = gathered.cut(node);
    if has_node(lifted, node) {
        Stamp(cut.0.max(to.0))
    } else {
        cut
    }
}

// Adds the nodes that a log's changes from a stamp on name.
fn add_named(named: &mut BTreeSet<u32>, log: &DirectoryChanges, from: Stamp) -> Result<(), NoMemory>
    requires { IsInOrder log.now.changes.items }
    ensures { OnOk result ((cut : ℕ → ℕ) → from.0 ≡ cut log.now.dir.0 → AddsTo named.old named.new (IsNamedByLog cut log.now)) }
{
    add_children(named, from_stamp(log.changes.as_slice(), from))
}

/// Adds the children of changes to the numbers of nodes. Only want of memory refuses it.
pub fn add_children(named: &mut BTreeSet<u32>, changes: &[Change]) -> Result<(), NoMemory>
    ensures { OnOk result (AddsTo named.old named.new (OfSome changes.now (λ change node. change.child.0 ≡ node))) }
{
    for change in changes {
        add_child(named, change.child)?;
    }
    Ok(())
}

// Adds one node.
fn add_child(named: &mut BTreeSet<u32>, child: NodeId) -> Result<(), NoMemory>
    ensures { OnOk result (AddsTo named.old named.new (λ node. child.0 ≡ node)) }
{
    named.insert(child.0)?;
    Ok(())
}

// The directory in which a node was made, where the node has no inode and is named.
pub(crate) fn birthplace(gathered: &Gathered, named: &BTreeSet<u32>, node: NodeId) -> Option<NodeId>
    requires { IsOrderly gathered.now }
    ensures { result ≡ birthplace_due gathered.now named.now node.0 }
{
    if gathered.has_inode(node) || !named.contains(&node.0) {
        return None;
    }
    match find_node(gathered.births.as_slice(), node) {
        Some(birth) => Some(birth.dir),
        None => None,
    }
}
