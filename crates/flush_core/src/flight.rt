// Commits in flight, and what is asked of them.
ghost use Rattle.std.specs.Prelude.{◌≡◌, ◌↔◌, ◌==◌, not, true, false, ℕ, List, map, filter, is_some, option_map, IfOk};
ghost use Rattle.tree_laws.specs.declared.history.Entry.{Entry};
ghost use Rattle.tree_laws.specs.Tree.{TreeState};
ghost use Rattle.flush_core.specs.Members.{AreMembers, AreConcerned};
ghost use Rattle.flush_core.specs.Past.{IsPast};
ghost use Rattle.std.specs.List.{find};
ghost use Rattle.cut_laws.specs.Machine.{opened_for};
ghost use Rattle.flush_core.specs.Flights.{flight_as, flight_in, flush_as, flush_in, is_flying_in, is_opened_in, IsTaken, IsLeastTaken, lesser_of, kept_opened};

use crate::closure::{concerned_by, members_of};
use crate::cut::Cut;
use crate::past::Past;
use crate::sets::NodeSet;
use sfs_base::{NoMemory, NodeId, Stamp};
use std::alloc::Global;

/// A commit in flight: its fsync, its members and the nodes that it concerns as it began.
#[derive(Drop)]
pub(crate) struct InFlight {
    pub(crate) commit: u64,
    pub(crate) node: NodeId,
    pub(crate) stamp: Stamp,
    pub(crate) members: NodeSet,
    pub(crate) concerned: NodeSet,
    pub(crate) opened: bool,
}

// A flight as it begins, of an fsync of a node at a stamp.
pub(crate) fn new_flight(
    alloc: Global,
    past: &Past,
    cut: &Cut,
    inodes: &NodeSet,
    commit: u64,
    node: NodeId,
    stamp: Stamp,
) -> Result<InFlight, NoMemory>
    ensures number { IfOk result (λ flight. flight.commit ≡ commit) }
    ensures flush { IfOk result (λ flight. (flight.node ≡ node) × (flight.stamp ≡ stamp)) }
    ensures closed { IfOk result (λ flight. flight.opened ≡ false) }
    ensures members { IfOk result (λ flight. (first : TreeState) (history : List Entry) → IsPast first history past.now
        → AreMembers first history cut.now inodes.now (record { node = node.0; stamp = stamp.0 }) flight.members) }
    ensures concerned { IfOk result (λ flight. (first : TreeState) (history : List Entry) → IsPast first history past.now
        → AreConcerned first history cut.now inodes.now (record { node = node.0; stamp = stamp.0 }) flight.concerned) }
{
    let members = members_of(alloc, past, cut, inodes, node.0, stamp.0)?;
    let concerned = concerned_by(past, cut, &members, stamp.0)?;
    Ok(InFlight {
        commit,
        node,
        stamp,
        members,
        concerned,
        opened: false,
    })
}

// The fsync of a commit that is in flight.
pub(crate) fn flush_of(flights: &[InFlight], commit: u64) -> Option<(NodeId, Stamp)>
    ensures { option_map flush_as result ≡ option_map flush_in (flight_in (map flight_as flights.now) commit) }
{
    for flight in flights {
        if flight.commit == commit {
            return Some((flight.node, flight.stamp));
        }
    }
    None
}

// Whether a commit is in flight.
pub(crate) fn is_flying(flights: &[InFlight], commit: u64) -> bool
    ensures { result ≡ is_flying_in (map flight_as flights.now) commit }
{
    for flight in flights {
        if flight.commit == commit {
            return true;
        }
    }
    false
}

// Whether a commit is in flight and was opened.
pub(crate) fn is_opened(flights: &[InFlight], commit: u64) -> bool
    ensures { result ≡ is_opened_in (map flight_as flights.now) commit }
{
    for flight in flights {
        if flight.commit == commit {
            return flight.opened;
        }
    }
    false
}

// The first of some commits that is not in flight.
pub(crate) fn first_not_flying(flights: &[InFlight], commits: &[u64]) -> Option<u64>
    ensures { result ≡ find (λ commit. not (is_flying_in (map flight_as flights.now) commit)) commits.now }
{
    for commit in commits {
        if !is_flying(flights, *commit) {
            return Some(*commit);
        }
    }
    None
}

// The first of some commits that was not opened.
pub(crate) fn first_not_opened(flights: &[InFlight], commits: &[u64]) -> Option<u64>
    ensures { result ≡ find (λ commit. not (is_opened_in (map flight_as flights.now) commit)) commits.now }
{
    for commit in commits {
        if !is_opened(flights, *commit) {
            return Some(*commit);
        }
    }
    None
}

// Whether a flight concerns a node.
fn is_taken(flights: &[InFlight], node: u32) -> bool
    ensures { (result ≡ true) ↔ IsTaken (map flight_as flights.now) node }
{
    for flight in flights {
        if flight.concerned.has(node) {
            return true;
        }
    }
    false
}

// The least node of a set that a flight concerns.
pub(crate) fn least_taken(
    alloc: Global,
    flights: &[InFlight],
    nodes: &NodeSet,
) -> Result<Option<u32>, NoMemory>
    ensures { IfOk result (λ least. IsLeastTaken (map flight_as flights.now) nodes.now least) }
{
    let mut least = None;
    let list = nodes.list(alloc)?;
    for node in &list {
        if is_taken(flights, *node) {
            least = lesser(least, *node);
        }
    }
    Ok(least)
}

// The lesser of two nodes, of which one may be missing.
fn lesser(least: Option<u32>, node: u32) -> Option<u32>
    ensures { result ≡ lesser_of least node }
{
    match least {
        Some(other) if other <= node => Some(other),
        _ => Some(node),
    }
}

// Marks a commit's flight as opened.
pub(crate) fn mark_opened(flights: &mut Vec<InFlight>, commit: u64)
    ensures { map flight_as flights.new.items ≡ map (opened_for commit) (map flight_as flights.old.items) }
{
    for flight in flights.iter_mut() {
        open_for(flight, commit);
    }
}

// Marks a flight as opened where it is this commit's.
fn open_for(flight: &mut InFlight, commit: u64)
    ensures { flight.new ≡ kept_opened commit flight.old }
{
    flight.opened = flight.opened || flight.commit == commit;
}

// Takes away a commit's flight.
pub(crate) fn end_flight(flights: &mut Vec<InFlight>, commit: u64)
    ensures { map flight_as flights.new.items ≡ filter (λ flight. not (flight.commit == commit)) (map flight_as flights.old.items) }
{
    flights.retain(|flight| flight.commit != commit);
}
