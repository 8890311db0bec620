// The machine of calls and commits. An event that is refused may lose the past that its story keeps, and leaves the state as it was.
ghost use Rattle.std.specs.Prelude.{◌≡◌, ◌⊎◌, OnOk, OnErr, IfErr};
ghost use Rattle.tree_laws.specs.Sound.{IsSound};

use crate::cut::Cut;
use crate::flight::InFlight;
use crate::sets::NodeSet;
use crate::story::Story;
use cut_laws::{Event, Refused};
use sfs_base::NodeId;
use sfs_tree::Tree;
use std::alloc::Global;
use std::marker::Model;

mod calls;
mod commits;

/// The calls of a run, and what its commits have flushed: the machine that says which runs there may
/// be. It is a plain program to compare others with: each commit goes over all calls before it.
#[derive(Drop)]
pub struct State {
    alloc: Global,
    story: Story,
    cut: Cut,
    // None stands for the first tree's nodes.
    inodes: Option<NodeSet>,
    flights: Vec<InFlight>,
    used: Vec<u64>,
    failed: Option<u64>,
    crashed: bool,
}

impl Model for State {
    ghost use Rattle.std.specs.Coded.{codes};
    ghost use Rattle.tree_laws.specs.Tree.{tree_code};
    ghost use Rattle.flush_core.specs.Stamps.{cut_code};
    ghost use Rattle.flush_core.specs.State.{KeptState};

    ghost Value = { KeptState };

    ghost coded = { Prim.hlevel (codes, tree_code, cut_code) };

    ghost view = { λ s. record {
      first = s.story.first;
      entries = s.story.history;
      cut = s.cut;
      inodes = s.inodes;
      flights = s.flights.items;
      used = s.used.items;
      failed = s.failed;
      crashed = s.crashed;
    } };
}

impl State {
    ghost use Rattle.cut_laws.specs.Machine.{start_of, MayBeTold, IsRefused, Accepts};
    ghost use Rattle.flush_core.specs.State.{machine_of};

    /// The state in which a run begins: no calls, the cut 0, an inode for each node of the tree, which
    /// is sound, and no flights. It takes no memory.
    pub fn new(alloc: Global, first: Tree) -> State
        requires { IsSound first }
        ensures { machine_of result ≡ start_of first }
    {
        State {
            alloc,
            story: Story::new(alloc, first),
            cut: Cut::new(alloc),
            inodes: None,
            flights: Vec::new(alloc),
            used: Vec::new(alloc),
            failed: None,
            crashed: false,
        }
    }

    /// The cut that its commits have raised.
    pub fn cut(&self) -> &Cut
        ensures { result.now ≡ (machine_of self.now).cut }
    {
        &self.cut
    }

    /// Whether a node has an inode.
    pub fn has_inode(&self, node: NodeId) -> bool
        ensures { result ≡ (machine_of self.now).inodes node.0 }
    {
        match &self.inodes {
            Some(inodes) => inodes.has(node.0),
            None => self.story.first().kind(node).is_some(),
        }
    }

    /// Tells it an event. A call's core is one of the first tree's, and a read asks for at most 65,536
    /// bytes. A refusal names the first reason that holds, or want of memory, and changes nothing.
    pub fn step(&mut self, event: &Event) -> Result<(), Refused>
        requires told { MayBeTold (machine_of self.old) event.now }
        ensures ok { OnOk result (Accepts (machine_of self.old) event.now (machine_of self.new)) }
        ensures err { IfErr result (λ why. (why ≡ Refused.NoMemory) ⊎ IsRefused (machine_of self.old) event.now why) }
        ensures stays { OnErr result (self.new ≡ self.old) }
    {
        if self.crashed {
            return Err(Refused::Crashed);
        }
        match event {
            Event::Call { entry } => self.call(entry),
            Event::CutAt {
                commit,
                node,
                stamp,
            } => self.begin(*commit, *node, *stamp),
            Event::Opened { commit } => self.open(*commit),
            Event::Durable { commit } => self.finish(*commit),
            Event::Fail { commit } => self.fail(*commit),
            Event::Crash { kept } => self.crash(kept),
        }
    }
}
