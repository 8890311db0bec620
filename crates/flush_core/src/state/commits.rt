// The events of commits.
ghost use Rattle.std.specs.Prelude.{◌≡◌, false, List, map, IfOk};
ghost use Rattle.tree_laws.specs.Sound.{IsSound};
ghost use Rattle.tree_laws.specs.declared.history.Entry.{Entry};
ghost use Rattle.cut_laws.specs.declared.event.Event.TheVariants as event;
ghost use Rattle.cut_laws.specs.Closure.{every_entry, AreRaised};
ghost use Rattle.flush_core.specs.NodeSets.{has_node};
ghost use Rattle.flush_core.specs.Flights.{flight_as};
ghost use Rattle.flush_core.specs.Past.{IsPast};
ghost use Rattle.flush_core.specs.State.{kept_flushes, tree_has};

use super::State;
use crate::flight::{
    InFlight, end_flight, first_not_flying, first_not_opened, flush_of, is_flying, is_opened,
    least_taken, mark_opened, new_flight,
};
use crate::past::Past;
use crate::raise::{Raise, commit};
use crate::sets::NodeSet;
use cut_laws::{CommitList, Refused};
use sfs_base::{NoMemory, NodeId, Stamp};
use sfs_tree::Tree;
use std::alloc::Global;

impl State {
    ghost use Rattle.cut_laws.specs.Machine.{BeginsFlight};
    ghost use Rattle.flush_core.specs.State.{Answers, IsRaisedTo, machine_of, inodes_of};

    // Begins a commit.
    pub(super) fn begin(&mut self, commit: u64, node: NodeId, stamp: Stamp) -> Result<(), Refused>
        requires { self.old.crashed ≡ false }
        ensures { Answers self.old (event.CutAt commit node stamp) result self.new }
    {
        if let Some(failed) = self.failed {
            return Err(Refused::Stopped { commit: failed });
        }
        if self.used.contains(&commit) {
            return Err(Refused::Used { commit });
        }
        let flight = self.flight(commit, node, stamp)?;
        if let Some(met) = least_taken(self.alloc, &self.flights, &flight.concerned)? {
            return Err(Refused::Meets { node: NodeId(met) });
        }
        if self.story.len() < stamp.0 {
            return Err(Refused::Late { stamp });
        }
        self.used.reserve(1)?;
        self.flights.reserve(1)?;
        self.used.push_reserved(commit);
        self.flights.push_reserved(flight);
        Ok(())
    }

    // A flight as it begins.
    fn flight(&mut self, commit: u64, node: NodeId, stamp: Stamp) -> Result<InFlight, NoMemory>
        ensures begins { IfOk result (λ flight. BeginsFlight (machine_of self.old) commit (record { node = node.0; stamp = stamp.0 }) (flight_as flight)) }
        ensures same { self.new ≡ self.old }
    {
        let past = self.story.take_past()?;
        let inodes = self.inodes_now()?;
        let flight = new_flight(self.alloc, &past, &self.cut, &inodes, commit, node, stamp)?;
        self.story.keep_past(past);
        Ok(flight)
    }

    // The nodes with an inode.
    fn inodes_now(&self) -> Result<NodeSet, NoMemory>
        ensures { IfOk result (λ inodes. has_node inodes ≡ inodes_of self.now.first self.now.inodes) }
    {
        match &self.inodes {
            Some(inodes) => inodes.copy(),
            None => nodes_of(self.alloc, self.story.first()),
        }
    }

    // Marks a commit as opened.
    pub(super) fn open(&mut self, commit: u64) -> Result<(), Refused>
        requires { self.old.crashed ≡ false }
        ensures { Answers self.old (event.Opened commit) result self.new }
    {
        if let Some(failed) = self.failed {
            return Err(Refused::Stopped { commit: failed });
        }
        if !is_flying(&self.flights, commit) {
            return Err(Refused::NotFlying { commit });
        }
        if is_opened(&self.flights, commit) {
            return Err(Refused::AlreadyOpened { commit });
        }
        mark_opened(&mut self.flights, commit);
        Ok(())
    }

    // Ends a commit, whose fsync raises the cut.
    pub(super) fn finish(&mut self, commit: u64) -> Result<(), Refused>
        requires { self.old.crashed ≡ false }
        ensures { Answers self.old (event.Durable commit) result self.new }
    {
        if let Some(failed) = self.failed {
            return Err(Refused::Stopped { commit: failed });
        }
        let Some(flush) = flush_of(&self.flights, commit) else {
            return Err(Refused::NotFlying { commit });
        };
        if !is_opened(&self.flights, commit) {
            return Err(Refused::NotOpened { commit });
        }
        let raise = self.raised(flush.0, flush.1)?;
        self.cut = raise.cut;
        self.inodes = Some(raise.inodes);
        end_flight(&mut self.flights, commit);
        Ok(())
    }

    // The cut and the nodes with an inode as an fsync leaves them.
    fn raised(&mut self, node: NodeId, stamp: Stamp) -> Result<Raise, NoMemory>
        ensures raised { IfOk result (λ raise. IsRaisedTo self.old (record { node = node.0; stamp = stamp.0 }) raise) }
        ensures same { self.new ≡ self.old }
    {
        let past = self.story.take_past()?;
        let inodes = self.inodes_now()?;
        let raise = commit(
            self.alloc,
            self.story.first(),
            &past,
            &self.cut,
            &inodes,
            node.0,
            stamp.0,
        )?;
        self.story.keep_past(past);
        Ok(raise)
    }

    pub(super) fn fail(&mut self, commit: u64) -> Result<(), Refused>
        requires { self.old.crashed ≡ false }
        ensures { Answers self.old (event.Fail commit) result self.new }
    {
        if !is_flying(&self.flights, commit) {
            return Err(Refused::NotFlying { commit });
        }
        if self.failed.is_none() {
            self.failed = Some(commit);
        }
        Ok(())
    }

    // Ends the run. The fsyncs of the listed commits raise the cut.
    pub(super) fn crash(&mut self, kept: &CommitList) -> Result<(), Refused>
        requires { self.old.crashed ≡ false }
        ensures { Answers self.old (event.Crash kept.now) result self.new }
    {
        if let Some(commit) = first_not_flying(&self.flights, kept.as_slice()) {
            return Err(Refused::NotFlying { commit });
        }
        if let Some(commit) = first_not_opened(&self.flights, kept.as_slice()) {
            return Err(Refused::NotOpened { commit });
        }
        let raise = self.raised_by(kept.as_slice())?;
        self.cut = raise.cut;
        self.inodes = Some(raise.inodes);
        self.flights = Vec::new(self.alloc);
        self.crashed = true;
        Ok(())
    }

    // The cut and the nodes with an inode as the fsyncs of the listed commits leave them.
    fn raised_by(&mut self, kept: &[u64]) -> Result<Raise, NoMemory>
        ensures raised { IfOk result (λ raise. AreRaised self.old.first self.old.entries every_entry self.old.cut (inodes_of self.old.first self.old.inodes)
            (kept_flushes (map flight_as self.old.flights) kept.now) raise.cut (has_node raise.inodes)) }
        ensures same { self.new ≡ self.old }
    {
        let past = self.story.take_past()?;
        let from = Raise {
            cut: self.cut.copy()?,
            inodes: self.inodes_now()?,
        };
        let raise = raised_all(
            self.alloc,
            self.story.first(),
            &past,
            from,
            &self.flights,
            kept,
        )?;
        self.story.keep_past(past);
        Ok(raise)
    }
}

// A cut and the nodes with an inode, raised by the fsyncs of the flights whose commits are listed.
fn raised_all(
    alloc: Global,
    first: &Tree,
    past: &Past,
    from: Raise,
    flights: &[InFlight],
    kept: &[u64],
) -> Result<Raise, NoMemory>
    requires { IsSound first.now }
    ensures { IfOk result (λ raise. (history : List Entry) → IsPast first.now history past.now
        → AreRaised first.now history every_entry from.cut (has_node from.inodes) (kept_flushes (map flight_as flights.now) kept.now) raise.cut (has_node raise.inodes)) }
{
    let mut raise = from;
    for flight in flights {
        if kept.contains(&flight.commit) {
            raise = commit(
                alloc,
                first,
                past,
                &raise.cut,
                &raise.inodes,
                flight.node.0,
                flight.stamp.0,
            )?;
        }
    }
    Ok(raise)
}

// The nodes of a tree.
fn nodes_of(alloc: Global, tree: &Tree) -> Result<NodeSet, NoMemory>
    ensures { IfOk result (λ nodes. has_node nodes ≡ tree_has tree.now) }
{
    let mut nodes = NodeSet::new(alloc);
    let mut last = None;
    while let Some(node) = tree.next_node(last) {
        nodes.insert(node.0)?;
        last = Some(node);
    }
    Ok(nodes)
}
