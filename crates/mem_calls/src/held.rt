// What a core holds, by the cells.
ghost use Rattle.std.specs.Prelude.{◌≡◌, ◌<◌, true, None, Some, IsSome};
ghost use Rattle.mem_values.specs.Places.{node_count};
ghost use Rattle.tree_laws.specs.Verdict.{directory_fault, file_fault};
ghost use Rattle.mem_calls.specs.Held.{bucket_held, file_held, part_held, is_standing, stands_held, linked_held, HoldsDirectory, HoldsFile, HoldsPart, InEach};

use mem_values::{Bucket, Cell, CellId, FileCell, FileCore, PartCell};
use sfs_base::NodeId;
use tree_laws::Code;

/// A bucket of a directory that is held.
pub fn bucket_in<'a>(core: &'a FileCore, nodes: u32, node: NodeId, number: u8) -> &'a Bucket
    requires { IsSome (bucket_held nodes core.now.held node number) }
    ensures { bucket_held nodes core.now.held node number ≡ Some result.now }
{
    let place = CellId::Bucket {
        node,
        bucket: number,
    }
    .place(nodes);
    match core.cell(place) {
        Cell::Bucket { bucket } => bucket,
        _ => unreachable!(),
    }
}

/// A file that is held.
pub fn file_in<'a>(core: &'a FileCore, nodes: u32, node: NodeId) -> &'a FileCell
    requires { IsSome (file_held nodes core.now.held node) }
    ensures { file_held nodes core.now.held node ≡ Some result.now }
{
    let place = CellId::File { node }.place(nodes);
    match core.cell(place) {
        Cell::File { file } => file,
        _ => unreachable!(),
    }
}

/// The own log, which is held.
pub(crate) fn part_in(core: &FileCore, nodes: u32) -> &PartCell
    requires { HoldsPart nodes core.now }
    ensures { part_held nodes core.now.held core.now.view.core ≡ Some result.now }
{
    let own = core.number();
    match core.cell(CellId::Part { core: own }.place(nodes)) {
        Cell::Part { part } => part,
        _ => unreachable!(),
    }
}

/// Whether a directory stands by a bucket of it.
pub fn is_standing(node: NodeId, bucket: &Bucket) -> bool
    ensures { result ≡ is_standing node bucket.now }
{
    node.0 == 0 || bucket.stands.is_some()
}

/// Why a node can't be used as a directory, by a bucket of it, and by its file where it does not stand.
pub fn directory_fault_in(core: &FileCore, nodes: u32, node: NodeId, number: u8) -> Option<Code>
    requires counted { nodes ≡ node_count core.now.view.first }
    requires number { number < 8 }
    requires held { HoldsDirectory nodes core.now.held node number }
    ensures fault { InEach core.now (λ tree. result ≡ directory_fault tree node.0) }
    ensures within { result ≡ None → node.0 < nodes }
    ensures stands { result ≡ None → stands_held nodes core.now.held node number ≡ true }
{
    if node.0 >= nodes {
        return Some(Code::NoEntry);
    }
    if is_standing(node, bucket_in(core, nodes, node, number)) {
        return None;
    }
    if file_in(core, nodes, node).links > 0 {
        Some(Code::NotDir)
    } else {
        Some(Code::NoEntry)
    }
}

/// Why a node can't be used as a file, by its file, and by its first bucket where no row names it as one.
pub fn file_fault_in(core: &FileCore, nodes: u32, node: NodeId) -> Option<Code>
    requires counted { nodes ≡ node_count core.now.view.first }
    requires held { HoldsFile nodes core.now.held node }
    ensures fault { InEach core.now (λ tree. result ≡ file_fault tree node.0) }
    ensures within { result ≡ None → node.0 < nodes }
    ensures linked { result ≡ None → linked_held nodes core.now.held node ≡ true }
{
    if node.0 >= nodes {
        return Some(Code::NoEntry);
    }
    if file_in(core, nodes, node).links > 0 {
        return None;
    }
    if is_standing(node, bucket_in(core, nodes, node, 0)) {
        Some(Code::IsDir)
    } else {
        Some(Code::NoEntry)
    }
}
