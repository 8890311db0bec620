// What one node has, cell by cell. Each cell is held by itself, so the parts of a node are those of one tree only where no call came in between.
ghost use Rattle.std.specs.Prelude.{◌≡◌, ◌<◌, ◌≤◌};
ghost use Rattle.std.specs.FinMap as finmap;
ghost use Rattle.tree_laws.specs.Tree.{bucket_rows, row_count};
ghost use Rattle.tree_totals.specs.Totals.{LONGEST_FILE, live_bytes};
ghost use Rattle.mem_calls.specs.Table.{IsFileTable};
ghost use Rattle.table_totals.specs.Seen.{HasNoLongFile, MayCount, SawNoCall, SawOn, tree_seen};

use mem_calls::{bucket_in, file_in, hold_more, let_all_go};
use mem_values::{CellId, FileCore, FileShared};
use sfs_base::NodeId;
use std::sync::Wait;

// How many rows a bucket of a node has.
fn count_bucket<R: Wait>(
    rt: &R,
    shared: &FileShared,
    core: &mut FileCore,
    nodes: u32,
    node: NodeId,
    number: u8,
) -> u64
    requires table { IsFileTable shared.now nodes }
    requires may { MayCount shared.now core.old }
    requires node { node.0 < nodes }
    requires number { number < 8 }
    ensures may { MayCount shared.now core.new }
    ensures saw { SawOn core.old core.new }
    ensures rows { SawNoCall core.old core.new → result ≡ finmap.len (bucket_rows node.0 number (tree_seen core.new).rows) }
    ensures few { result ≤ 4096 }
{
    let cell = CellId::Bucket {
        node,
        bucket: number,
    };
    hold_more(rt, shared, core, nodes, cell);
    let rows = bucket_in(core, nodes, node, number).rows.len() as u64;
    let_all_go(shared, core);
    rows
}

/// How many rows a node has, by its buckets.
pub(crate) fn count_rows<R: Wait>(
    rt: &R,
    shared: &FileShared,
    core: &mut FileCore,
    nodes: u32,
    node: NodeId,
) -> u64
    requires table { IsFileTable shared.now nodes }
    requires may { MayCount shared.now core.old }
    requires node { node.0 < nodes }
    ensures may { MayCount shared.now core.new }
    ensures saw { SawOn core.old core.new }
    ensures rows { SawNoCall core.old core.new → result ≡ row_count (tree_seen core.new) node.0 }
    ensures few { result ≤ 32768 }
{
    let mut rows = 0;
    for number in 0..8u8 {
        rows += count_bucket(rt, shared, core, nodes, node, number);
    }
    rows
}

/// How many bytes a node has, where it is a file that a row names.
pub(crate) fn count_bytes<R: Wait>(
    rt: &R,
    shared: &FileShared,
    core: &mut FileCore,
    nodes: u32,
    node: NodeId,
) -> u64
    requires table { IsFileTable shared.now nodes }
    requires short { HasNoLongFile shared.now.first }
    requires may { MayCount shared.now core.old }
    requires node { node.0 < nodes }
    ensures may { MayCount shared.now core.new }
    ensures saw { SawOn core.old core.new }
    ensures bytes { SawNoCall core.old core.new → result ≡ live_bytes (tree_seen core.new) node.0 }
    ensures few { result ≤ LONGEST_FILE }
{
    hold_more(rt, shared, core, nodes, CellId::File { node });
    let file = file_in(core, nodes, node);
    let bytes = if file.links > 0 { file.file.size() } else { 0 };
    let_all_go(shared, core);
    bytes
}
