// The names in a directory.
ghost use Rattle.std.specs.Prelude.{◌≡◌, ◌<◌, ◌≤◌, ◌++◌, map, IfOk, OnOk, MatchResult};
ghost use Rattle.std.specs.List.Sorted.{IsPermutation};
ghost use Rattle.tree_laws.specs.NameKinds.{name_kind};
ghost use Rattle.tree_laws.specs.Names.{with_kinds};
ghost use Rattle.tree_laws.specs.Tree.{names_of};
ghost use Rattle.tree_laws.specs.Verdict.{verdict, answered};
ghost use Rattle.stamp_table.specs.Table.{IsBetweenCalls};
ghost use Rattle.mem_values.specs.Places.{node_count};
ghost use Rattle.mem_calls.specs.Held.{InEach};
ghost use Rattle.mem_calls.specs.Sums.{HoldsBuckets, HoldsNode};
ghost use Rattle.mem_calls.specs.Listed.{kinds_in, kinds_held, join_until, AreInNameOrder};
ghost use Rattle.mem_calls.specs.Outcome.{IsAnswered, IsRefusedMemory, ComesTo};

use crate::finish::finish;
use crate::held::{bucket_in, directory_fault_in};
use crate::holding::{CALL_CELLS, hold_node, hold_part, let_all_go};
use crate::table::TreeTable;
use mem_values::{Bucket, FileCore};
use sfs_base::{Gate, NoMemory, NodeId};
use std::alloc::Global;
use std::sync::Wait;
use tree_laws::{Call, NameKind, NameRows, Reply};

// Puts the rows of a bucket behind the last.
fn push_rows(rows: &mut Vec<NameKind>, bucket: &Bucket) -> Result<(), NoMemory>
    ensures { OnOk result (map name_kind rows.new.items ≡ map name_kind rows.old.items ++ kinds_in bucket.now) }
{
    let found = bucket.rows.rows();
    for row in found {
        let name = row.name.copy()?;
        let kind = bucket.kind(&row.name);
        rows.push(NameKind { name, kind })?;
    }
    Ok(())
}

// The rows of all buckets of a directory, one behind the other.
fn all_rows(
    alloc: Global,
    core: &FileCore,
    nodes: u32,
    node: NodeId,
) -> Result<Vec<NameKind>, NoMemory>
    requires { HoldsBuckets nodes core.now.held node }
    ensures { IfOk result (λ rows. map name_kind rows.items ≡ join_until 8 (kinds_held nodes core.now.held node)) }
{
    let mut rows = Vec::new(alloc);
    for number in 0..8u8 {
        push_rows(&mut rows, bucket_in(core, nodes, node, number))?;
    }
    Ok(rows)
}

// The rows, names ascending by their bytes.
fn by_name(rows: Vec<NameKind>) -> Vec<NameKind>
    ensures rows { IsPermutation rows.items result.items }
    ensures ascend { AreInNameOrder result.items }
{
    let mut rows = rows;
    rows.sort_unstable_by(|row, other| row.name.bytes().cmp(other.name.bytes()));
    rows
}

// The names in a directory that stands, by all of its buckets.
fn names_in(alloc: Global, core: &FileCore, nodes: u32, node: NodeId) -> Result<NameRows, NoMemory>
    requires counted { nodes ≡ node_count core.now.view.first }
    requires within { node.0 < nodes }
    requires held { HoldsBuckets nodes core.now.held node }
    ensures { IfOk result (λ names. InEach core.now (λ tree. names ≡ with_kinds tree (names_of node.0 tree.rows))) }
{
    let rows = by_name(all_rows(alloc, core, nodes, node)?);
    Ok(NameRows::from_rows(rows))
}

// What a listing answers, by what is held, and the same once more.
fn list_in(
    alloc: Global,
    core: &FileCore,
    nodes: u32,
    dir: NodeId,
) -> Result<(Reply, Reply), NoMemory>
    requires counted { nodes ≡ node_count core.now.view.first }
    requires held { HoldsNode nodes core.now.held dir }
    ensures due { IfOk result (λ two. InEach core.now (λ tree. verdict tree core.now.view.core (Call.List dir) ≡ answered two.0)) }
    ensures same { IfOk result (λ two. two.1 ≡ two.0) }
{
    if let Some(code) = directory_fault_in(core, nodes, dir, 0) {
        return Ok((Reply::Error { code }, Reply::Error { code }));
    }
    let rows = names_in(alloc, core, nodes, dir)?;
    let copy = rows.copy()?;
    Ok((Reply::Names { rows }, Reply::Names { rows: copy }))
}

/// Asks for the names in a directory, ascending by their bytes, each with the kind of its node. It holds the first bucket of the node, and
/// where it stands by that the other seven, else its file. It may wait. Only want of memory refuses it.
pub fn list<R: Wait, G: Gate>(
    rt: &R,
    alloc: Global,
    table: &TreeTable,
    core: &mut FileCore,
    dir: NodeId,
    gate: &G,
) -> Result<Reply, NoMemory>
    requires core { IsBetweenCalls table.now core.old }
    requires spare { 0 < core.old.spare }
    requires room { CALL_CELLS ≤ core.old.room }
    ensures { ComesTo table.now (Call.List dir) core.old core.new result }
{
    let shared = table.shared();
    let nodes = table.nodes();
    hold_node(rt, shared, core, nodes, dir);
    hold_part(rt, shared, core, nodes, gate);
    match list_in(alloc, core, nodes, dir) {
        Ok((reply, answer)) => {
            finish(alloc, shared, core, nodes, Call::List { dir }, reply);
            Ok(answer)
        }
        Err(fault) => {
            let_all_go(shared, core);
            Err(fault)
        }
    }
}
