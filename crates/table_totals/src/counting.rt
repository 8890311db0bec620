// What all nodes have, counted again until no call came meanwhile: then each cell was seen as the same calls left it.
ghost use Rattle.std.specs.Prelude.{◌≡◌, IfOk, OnErr};
ghost use Rattle.tree_laws.specs.History.{IsLegal};
ghost use Rattle.tree_totals.specs.Totals.{total_bytes, total_rows};
ghost use Rattle.stamp_table.specs.Events.{calls_in};
ghost use Rattle.stamp_table.specs.Table.{IsBetweenCalls};
ghost use Rattle.mem_calls.specs.Table.{IsFileTable};
ghost use Rattle.table_totals.specs.Seen.{HasNoLongFile, MayCount, OnlySaw, SawNoCall, SawOn, tree_seen};

use crate::parts::{count_bytes, count_rows};
use mem_calls::TreeTable;
use mem_values::{FileCore, FileShared};
use sfs_base::{NoMemory, NodeId};
use std::sync::Wait;
use tree_totals::TreeTotals;

// Counts once what each node has, one after the other.
fn count_once<R: Wait>(rt: &R, shared: &FileShared, core: &mut FileCore, nodes: u32) -> TreeTotals
    requires table { IsFileTable shared.now nodes }
    requires short { HasNoLongFile shared.now.first }
    requires may { MayCount shared.now core.old }
    requires legal { IsLegal core.old.view.first (calls_in core.old.view.seen) }
    ensures may { MayCount shared.now core.new }
    ensures saw { SawOn core.old core.new }
    ensures rows { SawNoCall core.old core.new → result.rows ≡ total_rows (tree_seen core.new) }
    ensures bytes { SawNoCall core.old core.new → result.bytes ≡ total_bytes (tree_seen core.new) }
{
    let mut rows = 0;
    let mut bytes = 0;
    for number in 0..nodes {
        let node = NodeId(number);
        rows += count_rows(rt, shared, core, nodes, node);
        bytes += count_bytes(rt, shared, core, nodes, node);
    }
    TreeTotals { rows, bytes }
}

/// How much the tree of a table has after all calls that the core has seen then: its rows, and the bytes of its live files. Other cores
/// may make calls meanwhile; it counts again until none came while it did. It may wait. It makes no entry and changes no cell.
pub fn totals<R: Wait>(
    rt: &R,
    table: &TreeTable,
    core: &mut FileCore,
) -> Result<TreeTotals, NoMemory>
    requires short { HasNoLongFile table.now.first }
    requires between { IsBetweenCalls table.now core.old }
    ensures between { IsBetweenCalls table.now core.new }
    ensures saw { OnlySaw core.old core.new }
    ensures rows { IfOk result (λ found. found.rows ≡ total_rows (tree_seen core.new)) }
    ensures bytes { IfOk result (λ found. found.bytes ≡ total_bytes (tree_seen core.new)) }
    ensures refused { OnErr result (core.new.view ≡ core.old.view) }
{
    let shared = table.shared();
    let nodes = table.nodes();
    core.reserve(0, 1)?;
    let mut before = core.look(shared);
    for _ in rt.forever() {
        let found = count_once(rt, shared, core, nodes);
        let after = core.look(shared);
        if after == before {
            return Ok(found);
        }
        before = after;
    }
    unreachable!()
}
