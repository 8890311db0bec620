// What is said of a node: its kind, its links and its size.
ghost use Rattle.std.specs.Prelude.{◌≡◌, ◌+◌, ◌<◌, ◌≤◌};
ghost use Rattle.tree_laws.specs.Verdict.{verdict, answered};
ghost use Rattle.stamp_table.specs.Table.{IsBetweenCalls};
ghost use Rattle.mem_values.specs.Places.{node_count};
ghost use Rattle.mem_calls.specs.Held.{InEach, CanMeet};
ghost use Rattle.mem_calls.specs.Sums.{sum_until, rows_held, directories_held, HoldsBuckets, AreSmall, HoldsNode};
ghost use Rattle.mem_calls.specs.Reply.{reply_of};
ghost use Rattle.mem_calls.specs.Outcome.{IsAnswered};

use crate::finish::finish;
use crate::held::{bucket_in, file_in, is_standing};
use crate::holding::{CALL_CELLS, hold_node, hold_part};
use crate::short::Short;
use crate::table::TreeTable;
use mem_values::FileCore;
use sfs_base::{Gate, Kind, NodeId};
use std::alloc::Global;
use std::sync::Wait;
use tree_laws::{Call, Code, Reply};

/// A directory's links and its rows, by all of its buckets.
pub(crate) fn directory_counts(core: &FileCore, nodes: u32, node: NodeId) -> (u32, u64)
    requires held { HoldsBuckets nodes core.now.held node }
    requires small { AreSmall nodes core.now.held node }
    ensures links { result.0 ≡ 2 + sum_until 8 (directories_held nodes core.now.held node) }
    ensures size { result.1 ≡ sum_until 8 (rows_held nodes core.now.held node) }
{
    let mut links = 2;
    let mut size = 0;
    for number in 0..8u8 {
        let bucket = bucket_in(core, nodes, node, number);
        links += bucket.directories.len() as u32;
        size += bucket.rows.len() as u64;
    }
    (links, size)
}

// What is said of a node, by what is held.
fn stat_in(core: &FileCore, nodes: u32, node: NodeId) -> Short
    requires counted { nodes ≡ node_count core.now.view.first }
    requires held { HoldsNode nodes core.now.held node }
    requires met { CanMeet core.now }
    ensures { InEach core.now (λ tree. verdict tree core.now.view.core (Call.Stat node) ≡ answered (reply_of result)) }
{
    if node.0 >= nodes {
        return Short::Error {
            code: Code::NoEntry,
        };
    }
    if is_standing(node, bucket_in(core, nodes, node, 0)) {
        let (links, size) = directory_counts(core, nodes, node);
        return Short::Stat {
            kind: Kind::Directory,
            links,
            size,
        };
    }
    let file = file_in(core, nodes, node);
    if file.links == 0 {
        return Short::Error {
            code: Code::NoEntry,
        };
    }
    Short::Stat {
        kind: Kind::File,
        links: file.links,
        size: file.file.size(),
    }
}

/// Asks for a node's kind, link count and size. It holds the first bucket of the node, and where it is a directory that stands all of its
/// buckets, else its file. It may wait. It takes no memory.
pub fn stat<R: Wait, G: Gate>(
    rt: &R,
    alloc: Global,
    table: &TreeTable,
    core: &mut FileCore,
    node: NodeId,
    gate: &G,
) -> Reply
    requires core { IsBetweenCalls table.now core.old }
    requires spare { 0 < core.old.spare }
    requires room { CALL_CELLS ≤ core.old.room }
    ensures { IsAnswered table.now (Call.Stat node) result core.old core.new }
{
    let shared = table.shared();
    let nodes = table.nodes();
    hold_node(rt, shared, core, nodes, node);
    hold_part(rt, shared, core, nodes, gate);
    let answer = stat_in(core, nodes, node);
    let call = Call::Stat { node };
    finish(alloc, shared, core, nodes, call, answer.reply());
    answer.reply()
}
