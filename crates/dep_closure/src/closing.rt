// Members are followed until none is due: each brings in nodes that are members too.
ghost use Rattle.std.specs.Prelude.{◌≡◌, ◌↔◌, ℕ, true, map, IfOk};
ghost use Rattle.std.specs.List.Sorted.{IsStrictlyIncreasing};
ghost use Rattle.sfs_base.specs.Listed.{is_listed};
ghost use Rattle.tree_laws.specs.NameRow.{node_number};
ghost use Rattle.look_laws.specs.Look.{Gathers};
ghost use Rattle.dep_closure.specs.Gathered.{IsOrderly, look_of};

use crate::births::named_nodes;
use crate::following::follow;
use crate::gathered::Gathered;
use crate::members::Found;
use sfs_base::{NoMemory, NodeId, NodeList, Stamp};
use std::alloc::Global;

/// The nodes that an fsync of `start` at the stamp `below` flushes, ascending, by what was gathered: the
/// node itself, and with each of them what its changes from its cut to below the stamp and its birth
/// bring in. What was gathered is ascending by node in each of its lists, and each log has changes of its
/// own directory alone, by their stamps.
///
/// A log is read once from its directory's cut on, for the names of nodes, and once more where its
/// directory is a member, from its cut to below the stamp. With n changes looked at, m nodes named or
/// found and k items in the lists it takes time in proportion to n times the logarithm of m, and to m
/// times that of k. Only want of memory refuses it.
pub fn closure(
    alloc: Global,
    start: NodeId,
    below: Stamp,
    logs: &Gathered,
) -> Result<NodeList, NoMemory>
    requires { IsOrderly logs.now }
    ensures members { IfOk result (λ nodes. (node : ℕ) →
        (is_listed (map node_number nodes.items) node ≡ true) ↔ Gathers (look_of start below logs.now) node) }
    ensures ascending { IfOk result (λ nodes. IsStrictlyIncreasing (map node_number nodes.items)) }
{
    let named = named_nodes(alloc, logs, &[], Stamp(0))?;
    let mut found = Found::new(alloc);
    found.add(start)?;
    while let Some(node) = found.next() {
        follow(&mut found, logs, &named, below, node)?;
    }
    found.into_list(alloc)
}
