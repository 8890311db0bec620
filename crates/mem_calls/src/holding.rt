// Cells that a core holds for a call, places ascending, its own log last.
ghost use Rattle.std.specs.Prelude.{◌≡◌, ◌+◌, ◌*◌, ◌<◌, ◌≤◌, [], length, IsSome};
ghost use Rattle.tree_laws.specs.History.{IsLegal};
ghost use Rattle.stamp_table.specs.Ascending.{LiesAbove};
ghost use Rattle.stamp_table.specs.Events.{calls_in};
ghost use Rattle.mem_values.specs.Start.{given_by};
ghost use Rattle.mem_values.specs.Places.{cell_place, IsCell};
ghost use Rattle.mem_calls.specs.Table.{IsFileTable};
ghost use Rattle.mem_calls.specs.Held.{bucket_held, HoldsDirectory, HoldsFile, HoldsPart, CanMeet};
ghost use Rattle.mem_calls.specs.Sums.{HoldsBuckets, HoldsNode};
ghost use Rattle.mem_calls.specs.Working.{IsWorking, WorksOn, Gains, StillHolds, TookBucket};

use crate::held::{bucket_in, file_in, is_standing};
use mem_values::{CellId, FileCore, FileShared};
use sfs_base::{Gate, NodeId, Place};
use std::sync::Wait;

/// For how many cells a core has room as a call begins.
pub const CALL_CELLS: u32 = 16;

/// Holds one cell more.
pub fn hold_more<R: Wait>(
    rt: &R,
    shared: &FileShared,
    core: &mut FileCore,
    nodes: u32,
    cell: CellId,
)
    requires table { IsFileTable shared.now nodes }
    requires work { IsWorking (given_by shared.now) shared.now core.old }
    requires cell { IsCell nodes (length shared.now.first.made) cell }
    requires above { LiesAbove (cell_place nodes cell) core.old.view.held }
    requires room { 0 < core.old.room }
    ensures work { IsWorking (given_by shared.now) shared.now core.new }
    ensures gains { Gains nodes cell core.old core.new }
{
    core.hold_one(rt, shared, cell.place(nodes));
}

/// Holds what tells whether a node can be used as a directory: one bucket of it, and where it does not stand by that its file.
pub fn hold_directory<R: Wait>(
    rt: &R,
    shared: &FileShared,
    core: &mut FileCore,
    nodes: u32,
    node: NodeId,
    number: u8,
)
    requires table { IsFileTable shared.now nodes }
    requires work { IsWorking (given_by shared.now) shared.now core.old }
    requires number { number < 8 }
    requires above { LiesAbove (16 + 9 * node.0 + number) core.old.view.held }
    requires below { LiesAbove (32 + 10 * nodes) core.old.view.held }
    requires room { 2 ≤ core.old.room }
    ensures work { IsWorking (given_by shared.now) shared.now core.new }
    ensures on { WorksOn core.old core.new }
    ensures directory { HoldsDirectory nodes core.new.held node number }
    ensures bucket { node.0 < nodes → TookBucket nodes node number core.old core.new }
    ensures below { LiesAbove (32 + 10 * nodes) core.new.view.held }
    ensures near { LiesAbove (25 + 9 * node.0) core.new.view.held }
    ensures still { StillHolds nodes core.old core.new }
    ensures room { core.old.room ≤ core.new.room + 2 }
{
    if node.0 >= nodes {
        return;
    }
    let bucket = CellId::Bucket {
        node,
        bucket: number,
    };
    hold_more(rt, shared, core, nodes, bucket);
    if !is_standing(node, bucket_in(core, nodes, node, number)) {
        hold_more(rt, shared, core, nodes, CellId::File { node });
    }
}

// Holds the buckets of a directory behind its first one.
fn hold_buckets<R: Wait>(rt: &R, shared: &FileShared, core: &mut FileCore, nodes: u32, node: NodeId)
    requires table { IsFileTable shared.now nodes }
    requires work { IsWorking (given_by shared.now) shared.now core.old }
    requires within { node.0 < nodes }
    requires first { IsSome (bucket_held nodes core.old.held node 0) }
    requires above { LiesAbove (17 + 9 * node.0) core.old.view.held }
    requires room { 7 ≤ core.old.room }
    ensures work { IsWorking (given_by shared.now) shared.now core.new }
    ensures on { WorksOn core.old core.new }
    ensures still { StillHolds nodes core.old core.new }
    ensures buckets { HoldsBuckets nodes core.new.held node }
    ensures near { LiesAbove (24 + 9 * node.0) core.new.view.held }
    ensures below { LiesAbove (32 + 10 * nodes) core.new.view.held }
    ensures room { core.old.room ≤ core.new.room + 7 }
{
    for number in 1..8u8 {
        hold_more(
            rt,
            shared,
            core,
            nodes,
            CellId::Bucket {
                node,
                bucket: number,
            },
        );
    }
}

/// Holds all buckets of a node.
pub(crate) fn hold_all_buckets<R: Wait>(
    rt: &R,
    shared: &FileShared,
    core: &mut FileCore,
    nodes: u32,
    node: NodeId,
)
    requires table { IsFileTable shared.now nodes }
    requires work { IsWorking (given_by shared.now) shared.now core.old }
    requires within { node.0 < nodes }
    requires above { LiesAbove (16 + 9 * node.0) core.old.view.held }
    requires room { 8 ≤ core.old.room }
    ensures work { IsWorking (given_by shared.now) shared.now core.new }
    ensures on { WorksOn core.old core.new }
    ensures still { StillHolds nodes core.old core.new }
    ensures buckets { HoldsBuckets nodes core.new.held node }
    ensures near { LiesAbove (24 + 9 * node.0) core.new.view.held }
    ensures below { LiesAbove (32 + 10 * nodes) core.new.view.held }
    ensures room { core.old.room ≤ core.new.room + 8 }
{
    hold_more(rt, shared, core, nodes, CellId::Bucket { node, bucket: 0 });
    hold_buckets(rt, shared, core, nodes, node);
}

/// Holds what tells all of a node: its first bucket, and where it stands by that the others, else its file.
pub(crate) fn hold_node<R: Wait>(
    rt: &R,
    shared: &FileShared,
    core: &mut FileCore,
    nodes: u32,
    node: NodeId,
)
    requires table { IsFileTable shared.now nodes }
    requires work { IsWorking (given_by shared.now) shared.now core.old }
    requires none { (core.old.held ≡ []) × (core.old.view.held ≡ []) }
    requires room { 9 ≤ core.old.room }
    ensures work { IsWorking (given_by shared.now) shared.now core.new }
    ensures on { WorksOn core.old core.new }
    ensures node { HoldsNode nodes core.new.held node }
    ensures below { LiesAbove (32 + 10 * nodes) core.new.view.held }
    ensures room { core.old.room ≤ core.new.room + 9 }
{
    hold_directory(rt, shared, core, nodes, node, 0);
    if node.0 < nodes && is_standing(node, bucket_in(core, nodes, node, 0)) {
        hold_buckets(rt, shared, core, nodes, node);
    }
}

/// Lets go of all cells.
pub fn let_all_go(shared: &FileShared, core: &mut FileCore)
    requires { IsWorking (given_by shared.now) shared.now core.old }
    ensures work { IsWorking (given_by shared.now) shared.now core.new }
    ensures on { WorksOn core.old core.new }
    ensures none { core.new.held ≡ [] }
    ensures idle { core.new.view.held ≡ [] }
{
    core.let_go(shared, 0);
}

/// Holds what tells whether a node can be used as a file: its file, and where no row names it as one also its first bucket, which lies
/// below.
pub fn hold_file<R: Wait>(
    rt: &R,
    shared: &FileShared,
    core: &mut FileCore,
    nodes: u32,
    node: NodeId,
)
    requires table { IsFileTable shared.now nodes }
    requires work { IsWorking (given_by shared.now) shared.now core.old }
    requires none { (core.old.held ≡ []) × (core.old.view.held ≡ []) }
    requires room { 2 ≤ core.old.room }
    ensures work { IsWorking (given_by shared.now) shared.now core.new }
    ensures on { WorksOn core.old core.new }
    ensures file { HoldsFile nodes core.new.held node }
    ensures below { LiesAbove (32 + 10 * nodes) core.new.view.held }
    ensures near { LiesAbove (25 + 9 * node.0) core.new.view.held }
    ensures room { core.old.room ≤ core.new.room + 2 }
{
    if node.0 >= nodes {
        return;
    }
    let file = CellId::File { node };
    hold_more(rt, shared, core, nodes, file);
    if file_in(core, nodes, node).links == 0 {
        let_all_go(shared, core);
        hold_more(rt, shared, core, nodes, CellId::Bucket { node, bucket: 0 });
        hold_more(rt, shared, core, nodes, file);
    }
}

/// Holds the own log, above all other cells.
pub fn hold_part<R: Wait, G: Gate>(
    rt: &R,
    shared: &FileShared,
    core: &mut FileCore,
    nodes: u32,
    gate: &G,
)
    requires table { IsFileTable shared.now nodes }
    requires work { IsWorking (given_by shared.now) shared.now core.old }
    requires below { LiesAbove (32 + 10 * nodes) core.old.view.held }
    requires room { 0 < core.old.room }
    ensures work { IsWorking (given_by shared.now) shared.now core.new }
    ensures on { WorksOn core.old core.new }
    ensures still { StillHolds nodes core.old core.new }
    ensures part { HoldsPart nodes core.new }
    ensures met { CanMeet core.new }
    ensures legal { IsLegal core.new.view.first (calls_in core.new.view.seen) }
{
    let own = core.number();
    gate.at(own, Place::Held);
    hold_more(rt, shared, core, nodes, CellId::Part { core: own });
    gate.at(own, Place::Part);
}
