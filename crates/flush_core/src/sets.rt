// A set of nodes is kept as a mark for each number up to the highest that was put into it.
ghost use Rattle.std.specs.Prelude.{◌≡◌, ◌+◌, ◌≤◌, ◌<◌, ◌↔◌, ◌^◌, ℕ, Bool, true, false, length, slice_index_or, slice_set, vec_len, IfOk, OnOk, OnErr};

use sfs_base::NoMemory;
use std::alloc::Global;

/// Nodes by their numbers. It takes a byte for each number up to the highest that was put in.
#[derive(Drop)]
pub(crate) struct NodeSet {
    has: Vec<bool>,
    ghost small: { length has.items ≤ 2 ^ 32 },
}

impl NodeSet {
    ghost use Rattle.flush_core.specs.NodeSets.{has_node, with_member};
    ghost use Rattle.cut_laws.specs.Rules.{IsOneOf};

    /// The set without a node. It takes no memory.
    pub(crate) fn new(alloc: Global) -> Self
        ensures { (node : ℕ) → has_node result node ≡ false }
    {
        NodeSet {
            has: Vec::new(alloc),
        }
    }

    /// Whether the node is in it.
    pub(crate) fn has(&self, node: u32) -> bool
        ensures { result ≡ has_node self.now node }
    {
        mark_at(&self.has, node as usize)
    }

    /// Puts the node in.
    pub(crate) fn insert(&mut self, node: u32) -> Result<(), NoMemory>
        ensures ok { OnOk result ((other : ℕ) → has_node self.new other ≡ with_member node true (has_node self.old) other) }
        ensures err { OnErr result ((other : ℕ) → has_node self.new other ≡ has_node self.old other) }
    {
        make_room(&mut self.has, node as usize)?;
        put(&mut self.has, node as usize, true);
        Ok(())
    }

    /// Takes the node out. It takes no memory.
    pub(crate) fn remove(&mut self, node: u32)
        ensures { (other : ℕ) → has_node self.new other ≡ with_member node false (has_node self.old) other }
    {
        if (node as usize) < self.has.len() {
            put(&mut self.has, node as usize, false);
        }
    }

    /// A set of the same nodes.
    pub(crate) fn copy(&self) -> Result<NodeSet, NoMemory>
        ensures { IfOk result (λ set. (node : ℕ) → has_node set node ≡ has_node self.now node) }
    {
        Ok(NodeSet {
            has: self.has.clone()?,
        })
    }

    /// Its nodes. It takes time in proportion to the highest number that was put in.
    pub(crate) fn list(&self, alloc: Global) -> Result<Vec<u32>, NoMemory>
        ensures { IfOk result (λ list. (node : ℕ) → IsOneOf list.items node ↔ (has_node self.now node ≡ true)) }
    {
        marked(alloc, &self.has)
    }
}

ghost use Rattle.cut_laws.specs.Rules.{IsOneOf};

// The places that have a mark.
fn marked(alloc: Global, marks: &[bool]) -> Result<Vec<u32>, NoMemory>
    requires { length marks.now ≤ 2 ^ 32 }
    ensures { IfOk result (λ list. (node : ℕ) → IsOneOf list.items node ↔ (slice_index_or marks.now node false ≡ true)) }
{
    let mut list = Vec::new(alloc);
    for (place, mark) in marks.iter().enumerate() {
        if *mark {
            list.push(place as u32)?;
        }
    }
    Ok(list)
}

// The mark at a place, and none past the last.
fn mark_at(marks: &[bool], place: usize) -> bool
    ensures { result ≡ slice_index_or marks.now place false }
{
    marks.get(place).copied().unwrap_or(false)
}

// Puts places without a mark behind the others, up to this one.
fn make_room(marks: &mut Vec<bool>, place: usize) -> Result<(), NoMemory>
    requires place { place < 2 ^ 32 }
    requires small { length marks.old.items ≤ 2 ^ 32 }
    ensures same { (other : ℕ) → slice_index_or marks.new.items other false ≡ slice_index_or marks.old.items other false }
    ensures room { OnOk result (place < length marks.new.items) }
    ensures small { length marks.new.items ≤ 2 ^ 32 }
{
    if marks.len() <= place {
        marks.resize(place + 1, false)?;
    }
    Ok(())
}

// Puts the mark at a place.
fn put(marks: &mut Vec<bool>, place: usize, mark: bool)
    requires { place < length marks.old.items }
    ensures { marks.new.items ≡ slice_set marks.old.items place mark }
{
    marks[place] = mark;
}
