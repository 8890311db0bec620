// The members that were found, and those of them that were not followed yet.
ghost use Rattle.std.specs.Prelude.{◌≡◌, ◌↔◌, ◌∷◌, [], ◌++◌, ℕ, Some, map, option_to_list, true, IfNone, IfOk, OnOk};
ghost use Rattle.std.specs.Option.{option_map};
ghost use Rattle.std.specs.Ordering.{nat_cmp};
ghost use Rattle.std.specs.BTreeSet.{IsOrdered};
ghost use Rattle.std.specs.List.Sorted.{IsStrictlyIncreasing};
ghost use Rattle.tree_laws.specs.NameRow.{node_number};
ghost use Rattle.cut_laws.specs.Elements.{OfSome};
ghost use Rattle.dep_closure.specs.Brought.{GrowsBy};

use sfs_base::{NoMemory, NodeId, NodeList, RoomyList};
use std::alloc::Global;
use std::collections::BTreeSet;

// Members by their numbers. Those that are due have not been followed yet.
#[derive(Drop)]
pub(crate) struct Found {
    members: BTreeSet<u32>,
    due: Vec<u32>,
}

impl Found {
    // No member.
    pub(crate) fn new(alloc: Global) -> Found
        ensures members { result.members.keys ≡ [] }
        ensures due { result.due.items ≡ [] }
        ensures ordered { IsOrdered nat_cmp result.members }
    {
        Found {
            members: BTreeSet::new(alloc),
            due: Vec::new(alloc),
        }
    }

    // Makes a node a member, and it is due where it wasn't one before.
    pub(crate) fn add(&mut self, node: NodeId) -> Result<(), NoMemory>
        ensures { OnOk result (GrowsBy self.old self.new (λ other. node.0 ≡ other)) }
    {
        if self.members.insert(node.0)? {
            self.due.push(node.0)?;
        }
        Ok(())
    }

    // The same of a node that may be there.
    pub(crate) fn add_some(&mut self, node: Option<NodeId>) -> Result<(), NoMemory>
        ensures { OnOk result (GrowsBy self.old self.new (λ other. option_map node_number node ≡ Some other)) }
    {
        if let Some(node) = node {
            self.add(node)?;
        }
        Ok(())
    }

    // The same of several nodes.
    pub(crate) fn add_all(&mut self, nodes: &[NodeId]) -> Result<(), NoMemory>
        ensures { OnOk result (GrowsBy self.old self.new (OfSome nodes.now (λ node other. node.0 ≡ other))) }
    {
        for node in nodes {
            self.add(*node)?;
        }
        Ok(())
    }

    // Takes a member that is due.
    pub(crate) fn next(&mut self) -> Option<NodeId>
        ensures members { self.new.members ≡ self.old.members }
        ensures due { self.old.due.items ≡ self.new.due.items ++ option_to_list (option_map node_number result) }
        ensures none { IfNone result (self.old.due.items ≡ []) }
    {
        match self.due.pop() {
            Some(node) => Some(NodeId(node)),
            None => None,
        }
    }

    // The members, ascending.
    pub(crate) fn into_list(self, alloc: Global) -> Result<NodeList, NoMemory>
        ensures members { IfOk result (λ nodes. map node_number nodes.items ≡ self.members.keys) }
        ensures ascending { IfOk result (λ nodes. IsStrictlyIncreasing (map node_number nodes.items)) }
    {
        node_list(alloc, self.members)
    }
}

/// The nodes with these numbers, ascending. Only want of memory refuses it.
pub fn node_list(alloc: Global, numbers: BTreeSet<u32>) -> Result<NodeList, NoMemory>
    ensures members { IfOk result (λ nodes. map node_number nodes.items ≡ numbers.keys) }
    ensures ascending { IfOk result (λ nodes. IsStrictlyIncreasing (map node_number nodes.items)) }
{
    let mut nodes = Vec::with_capacity(alloc, numbers.len())?;
    for node in numbers {
        nodes.push(NodeId(node))?;
    }
    Ok(RoomyList::from_vec(nodes))
}
