// Which changes name nodes of a list.
ghost use Rattle.std.specs.Prelude.{◌≡◌, true, false, map, All};
ghost use Rattle.std.specs.List.Sorted.{IsStrictlyIncreasing};
ghost use Rattle.tree_laws.specs.NameRow.{node_number};
ghost use Rattle.log_copy.specs.Copies.{is_one_of};
ghost use Rattle.log_copy.specs.Steps.{IsCounted, NamesNone};

use mem_cells::LogPart;
use sfs_base::NodeId;

// Whether a node is one of some that ascend.
pub(crate) fn is_among(nodes: &[NodeId], node: NodeId) -> bool
    requires { IsStrictlyIncreasing (map node_number nodes.now) }
    ensures { result ≡ is_one_of nodes.now node.0 }
{
    match nodes.binary_search_by_key(&node.0, |one| one.0) {
        Ok(_) => true,
        Err(_) => false,
    }
}

/// Whether a change that the log keeps of the directory may name one of some nodes that ascend.
pub(crate) fn names_one(part: &LogPart, dir: NodeId, nodes: &[NodeId]) -> bool
    requires { IsStrictlyIncreasing (map node_number nodes.now) }
    ensures { result ≡ false → NamesNone nodes.now part.now dir.0 }
{
    for place in 0..u64::MAX {
        match part.get(dir, place) {
            Some(change) => {
                if is_among(nodes, change.child) {
                    return true;
                }
            }
            None => return false,
        }
    }
    true
}

/// Whether of each of some nodes the log keeps no more changes that name it than the copy has.
pub(crate) fn are_counted(part: &LogPart, copy: &LogPart, nodes: &[NodeId]) -> bool
    ensures { result ≡ true → All (IsCounted part.now copy.now) nodes.now }
{
    for node in nodes {
        if part.namings(*node) > copy.namings(*node) {
            return false;
        }
    }
    true
}
