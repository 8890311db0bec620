// What an fsync makes of the cut and of the nodes that have an inode.
ghost use Rattle.std.specs.Prelude.{◌≡◌, ◌≢◌, ◌↔◌, ℕ, Bool, true, false, List, IfOk, OnOk};
ghost use Rattle.tree_laws.specs.declared.history.Entry.{Entry};
ghost use Rattle.tree_laws.specs.Tree.{is_directory};
ghost use Rattle.tree_laws.specs.Sound.{IsSound};
ghost use Rattle.flush_core.specs.declared.past.Past.{Past};
ghost use Rattle.cut_laws.specs.Closure.{every_entry, IsRaised, AreInodesAfter};
ghost use Rattle.flush_core.specs.Engine.{IsNaming, RaisesThose, RaisesMembers};
ghost use Rattle.flush_core.specs.Inodes.{GetsInode, LosesInode, Settles};
ghost use Rattle.flush_core.specs.Members.{AreConcerned};
ghost use Rattle.flush_core.specs.Named.{AreNamed};
ghost use Rattle.flush_core.specs.NodeSets.{has_node, with_member};
ghost use Rattle.flush_core.specs.Past.{IsPast};
ghost use Rattle.cut_laws.specs.Rules.{IsOneOf};

use crate::closure::{concerned_by, has_naming, members_of};
use crate::cut::Cut;
use crate::named::named_at;
use crate::past::Past;
use crate::sets::NodeSet;
use sfs_base::{Kind, NoMemory, NodeId};
use sfs_tree::Tree;
use std::alloc::Global;

/// What an fsync leaves: the cut that it raises, and the nodes that have an inode after it.
#[derive(Drop)]
pub(crate) struct Raise {
    pub cut: Cut,
    pub inodes: NodeSet,
}

/// What an fsync of `node` at `stamp` makes of a cut and of the nodes with an inode, where the history's first tree is
/// sound. It takes time in proportion to the number of nodes and changes, times that of changes and births.
pub(crate) fn commit(
    alloc: Global,
    first: &Tree,
    past: &Past,
    cut: &Cut,
    inodes: &NodeSet,
    node: u32,
    stamp: u64,
) -> Result<Raise, NoMemory>
    ensures raised { IfOk result (λ raise. (history : List Entry) → IsPast first.now history past.now
        → IsRaised first.now history every_entry cut.now (has_node inodes.now) (record { node = node; stamp = stamp }) raise.cut) }
    ensures inodes { IfOk result (λ raise. (history : List Entry) → IsSound first.now → IsPast first.now history past.now
        → AreInodesAfter first.now history every_entry cut.now (has_node inodes.now) (record { node = node; stamp = stamp }) raise.cut (has_node raise.inodes)) }
{
    let members = members_of(alloc, past, cut, inodes, node, stamp)?;
    let concerned = concerned_by(past, cut, &members, stamp)?;
    let raised = raised_at(alloc, cut, &members, stamp)?;
    let named = named_at(alloc, first, past, &raised)?;
    let inodes = inodes_after(past, &raised, inodes, &concerned.list(alloc)?, &named, node)?;
    Ok(Raise {
        cut: raised,
        inodes,
    })
}

// The cut in which each member's stamp is this one at least.
fn raised_at(alloc: Global, cut: &Cut, members: &NodeSet, stamp: u64) -> Result<Cut, NoMemory>
    ensures { IfOk result (λ raised. RaisesMembers cut.now members.now stamp raised) }
{
    let mut raised = cut.copy()?;
    raise_all(&mut raised, &members.list(alloc)?, stamp)?;
    Ok(raised)
}

// Makes the stamps of some nodes this one at least.
fn raise_all(cut: &mut Cut, nodes: &[u32], stamp: u64) -> Result<(), NoMemory>
    ensures { OnOk result (RaisesThose cut.old nodes.now stamp cut.new) }
{
    for node in nodes {
        cut.raise(*node, stamp)?;
    }
    Ok(())
}

// The nodes that have an inode: of the concerned ones those that keep it or get one, and of the others those that had.
fn inodes_after(
    past: &Past,
    raised: &Cut,
    inodes: &NodeSet,
    concerned: &[u32],
    named: &NodeSet,
    own: u32,
) -> Result<NodeSet, NoMemory>
    ensures settled { IfOk result (λ after. (node : ℕ) → IsOneOf concerned.now node
        → Settles past.now raised.now inodes.now named.now own node (has_node after node)) }
    ensures others { IfOk result (λ after. (node : ℕ) → has_node after node ≢ has_node inodes.now node → IsOneOf concerned.now node) }
{
    let mut after = inodes.copy()?;
    for node in concerned {
        let has = has_inode(past, raised, inodes, named, own, *node);
        put(&mut after, *node, has)?;
    }
    Ok(after)
}

// Puts the node in or takes it out.
fn put(nodes: &mut NodeSet, node: u32, is_in: bool) -> Result<(), NoMemory>
    ensures { OnOk result ((other : ℕ) → has_node nodes.new other ≡ with_member node is_in (has_node nodes.old) other) }
{
    if is_in {
        nodes.insert(node)?;
    } else {
        nodes.remove(node);
    }
    Ok(())
}

// Whether a concerned node has an inode after the fsync.
fn has_inode(
    past: &Past,
    raised: &Cut,
    inodes: &NodeSet,
    named: &NodeSet,
    own: u32,
    node: u32,
) -> bool
    ensures { Settles past.now raised.now inodes.now named.now own node result }
{
    if inodes.has(node) {
        !loses_inode(past, raised, named, node)
    } else {
        gets_inode(past, raised, named, own, node)
    }
}

// Whether a node with an inode loses it.
fn loses_inode(past: &Past, raised: &Cut, named: &NodeSet, node: u32) -> bool
    ensures { (result ≡ true) ↔ LosesInode past.now raised.now named.now node }
{
    node != 0 && !named.has(node) && !has_naming(&past.changes, raised, node)
}

// Whether a node without an inode gets one.
fn gets_inode(past: &Past, raised: &Cut, named: &NodeSet, own: u32, node: u32) -> bool
    ensures { (result ≡ true) ↔ GetsInode past.now raised.now named.now own node }
{
    named.has(node)
        || node == own
            && !is_directory_in(&past.tree, node)
            && has_naming(&past.changes, raised, node)
}

// Whether the node is a directory of the tree.
fn is_directory_in(tree: &Tree, node: u32) -> bool
    ensures { result ≡ is_directory tree.now node }
{
    tree.kind(NodeId(node)) == Some(Kind::Directory)
}
