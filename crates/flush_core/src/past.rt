// What the machine keeps of its calls: the tree after them, and the changes and births that they made.
ghost use Rattle.std.specs.Prelude.{◌≡◌, ◌<◌, [], ◌++◌, length, IfOk, OnOk};
ghost use Rattle.tree_laws.specs.Sound.{IsSound, IsNumbered};
ghost use Rattle.tree_laws.specs.Step.{IsReadable};
ghost use Rattle.tree_laws.specs.Verdict.{verdict};
ghost use Rattle.flush_core.specs.Past.{IsPast};
ghost use Rattle.flush_core.specs.Grows.{Grows, HasBirth};

use crate::plan::{planned_changes, put};
use sfs_base::{Name, NoMemory, NodeId};
use sfs_tree::Tree;
use std::alloc::Global;
use tree_laws::{Call, Entry, Reply};

/// A row that a call took away or put, with the directories above the changed one where a directory was
/// put by a rename between two directories.
#[derive(Drop)]
pub struct OwnChange {
    pub stamp: u64,
    pub directory: u32,
    pub name: Name,
    pub child: u32,
    /// The row came, else it went.
    pub places: bool,
    /// The other directory of a rename between two.
    pub other: Option<u32>,
    /// The child is a directory that went by Rmdir, or that a rename replaced.
    pub ends: bool,
    pub above: Option<Vec<u32>>,
}

/// A node that a call made, and where.
#[derive(Drop)]
pub struct BornNode {
    pub stamp: u64,
    pub directory: u32,
    pub node: u32,
}

/// The past of a state, in the order of its calls.
#[derive(Drop)]
pub struct Past {
    pub tree: Tree,
    pub changes: Vec<OwnChange>,
    pub births: Vec<BornNode>,
}

impl Past {
    /// The past of no calls.
    pub fn new(alloc: Global, first: &Tree) -> Result<Past, NoMemory>
        ensures past { IfOk result (λ past. IsPast first.now [] past) }
        ensures numbered { IfOk result (λ past. IsNumbered first.now) }
    {
        Ok(Past {
            tree: first.copy()?,
            changes: Vec::new(alloc),
            births: Vec::new(alloc),
        })
    }

    /// Makes a call, and keeps what it changed. The answer is the reply that was due. A past that was
    /// refused memory is of no use any more.
    pub fn add(&mut self, alloc: Global, entry: &Entry) -> Result<Reply, NoMemory>
        requires core { entry.now.core.0 < length self.old.tree.made }
        requires sound { IsSound self.old.tree }
        requires readable { IsReadable entry.now.call }
        ensures reply { IfOk result (λ reply. reply ≡ (verdict self.old.tree entry.now.core.0 entry.now.call).reply) }
        ensures grows { OnOk result (Grows self.old entry.now self.new) }
    {
        let stamp = entry.stamp.0;
        let mut planned = planned_changes(alloc, &self.tree, stamp, &entry.call)?;
        let reply = self.tree.step(entry.core, &entry.call)?;
        match &entry.call {
            Call::Make { dir, name, .. } => {
                if let Reply::Node { node, .. } = &reply {
                    add_birth(self, stamp, *dir, name, *node)?;
                }
            }
            _ => {
                if let Reply::Ok = &reply {
                    self.changes.append(&mut planned)?;
                }
            }
        }
        Ok(reply)
    }
}

// A node was made: its row came, and it was born.
fn add_birth(
    past: &mut Past,
    stamp: u64,
    dir: NodeId,
    name: &Name,
    node: NodeId,
) -> Result<(), NoMemory>
    ensures { OnOk result (HasBirth past.old past.new stamp dir.0 name.now node.0) }
{
    past.changes.push(put(stamp, dir, name, node, None, None)?)?;
    past.births.push(BornNode {
        stamp,
        directory: dir.0,
        node: node.0,
    })?;
    Ok(())
}
