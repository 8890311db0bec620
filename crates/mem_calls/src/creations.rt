// Nodes that are made.
ghost use Rattle.std.specs.Prelude.{◌≡◌, ◌+◌, ◌*◌, ◌<◌, ◌≤◌, [], IfSome};
ghost use Rattle.stamp_table.specs.Ascending.{LiesAbove};
ghost use Rattle.stamp_table.specs.Table.{IsBetweenCalls};
ghost use Rattle.mem_values.specs.Start.{given_by};
ghost use Rattle.mem_calls.specs.Table.{IsFileTable, AreNumbersOf};
ghost use Rattle.mem_calls.specs.Held.{HoldsPart, CanMeet};
ghost use Rattle.mem_calls.specs.Working.{IsWorking, WorksOn, StillHolds};
ghost use Rattle.mem_calls.specs.Creations.{HoldsOwn, HoldsCreation, HasNext};
ghost use Rattle.mem_calls.specs.Outcome.{ComesTo};

use crate::finish::finish;
use crate::held::part_in;
use crate::holding::{
    CALL_CELLS, hold_all_buckets, hold_directory, hold_more, hold_part, let_all_go,
};
use crate::making::{finish_make, make_in};
use crate::numbers::Numbers;
use crate::table::TreeTable;
use mem_values::{CellId, FileCore, FileShared};
use sfs_base::{Gate, Kind, Name, NoMemory, NodeId, bucket_of};
use std::alloc::Global;
use std::sync::Wait;
use tree_laws::{Call, Reply};

// How many nodes the core has made, by its own log, which it holds for that alone.
fn read_made<R: Wait>(rt: &R, shared: &FileShared, core: &mut FileCore, nodes: u32) -> u32
    requires table { IsFileTable shared.now nodes }
    requires work { IsWorking (given_by shared.now) shared.now core.old }
    requires none { (core.old.held ≡ []) × (core.old.view.held ≡ []) }
    requires room { 0 < core.old.room }
    ensures work { IsWorking (given_by shared.now) shared.now core.new }
    ensures on { WorksOn core.old core.new }
    ensures none { (core.new.held ≡ []) × (core.new.view.held ≡ []) }
{
    let own = core.number();
    hold_more(rt, shared, core, nodes, CellId::Part { core: own });
    let made = part_in(core, nodes).made;
    let_all_go(shared, core);
    made
}

// Holds the file of a node, or all its buckets.
fn hold_own<R: Wait>(
    rt: &R,
    shared: &FileShared,
    core: &mut FileCore,
    nodes: u32,
    node: NodeId,
    kind: Kind,
)
    requires table { IsFileTable shared.now nodes }
    requires work { IsWorking (given_by shared.now) shared.now core.old }
    requires within { node.0 < nodes }
    requires above { LiesAbove (16 + 9 * node.0) core.old.view.held }
    requires room { 8 ≤ core.old.room }
    ensures work { IsWorking (given_by shared.now) shared.now core.new }
    ensures on { WorksOn core.old core.new }
    ensures still { StillHolds nodes core.old core.new }
    ensures own { HoldsOwn nodes core.new.held node kind }
    ensures near { LiesAbove (25 + 9 * node.0) core.new.view.held }
    ensures below { LiesAbove (32 + 10 * nodes) core.new.view.held }
    ensures room { core.old.room ≤ core.new.room + 8 }
{
    match kind {
        Kind::File => hold_more(rt, shared, core, nodes, CellId::File { node }),
        Kind::Directory => hold_all_buckets(rt, shared, core, nodes, node),
    }
}

// Holds the place of a name and the cells of the node that comes there, in their order. Where the directory itself has the number that
// comes, or has none of the table's, there is no such place, and no cells of a node are held.
fn hold_places<R: Wait>(
    rt: &R,
    shared: &FileShared,
    core: &mut FileCore,
    nodes: u32,
    dir: NodeId,
    name: &Name,
    kind: Kind,
    next: Option<NodeId>,
)
    requires table { IsFileTable shared.now nodes }
    requires work { IsWorking (given_by shared.now) shared.now core.old }
    requires none { (core.old.held ≡ []) × (core.old.view.held ≡ []) }
    requires within { IfSome next (λ child. child.0 < nodes) }
    requires room { CALL_CELLS ≤ core.old.room }
    ensures work { IsWorking (given_by shared.now) shared.now core.new }
    ensures on { WorksOn core.old core.new }
    ensures held { HoldsCreation nodes core.new.held dir name.now kind next }
    ensures below { LiesAbove (32 + 10 * nodes) core.new.view.held }
    ensures room { core.old.room ≤ core.new.room + 11 }
{
    let number = bucket_of(name);
    let Some(child) = next else {
        hold_directory(rt, shared, core, nodes, dir, number);
        return;
    };
    if child.0 < dir.0 && dir.0 < nodes {
        hold_own(rt, shared, core, nodes, child, kind);
        hold_directory(rt, shared, core, nodes, dir, number);
        hold_more(rt, shared, core, nodes, CellId::Pending { node: child });
        return;
    }
    hold_directory(rt, shared, core, nodes, dir, number);
    if dir.0 < child.0 {
        hold_own(rt, shared, core, nodes, child, kind);
        hold_more(rt, shared, core, nodes, CellId::Pending { node: child });
    }
}

// Holds what a creation needs, with the own log, and answers the number that the core gives next.
fn hold_creation<R: Wait, G: Gate>(
    rt: &R,
    shared: &FileShared,
    core: &mut FileCore,
    nodes: u32,
    numbers: Numbers,
    dir: NodeId,
    name: &Name,
    kind: Kind,
    gate: &G,
) -> Option<NodeId>
    requires table { IsFileTable shared.now nodes }
    requires work { IsWorking (given_by shared.now) shared.now core.old }
    requires numbers { AreNumbersOf shared.now.first numbers }
    requires none { (core.old.held ≡ []) × (core.old.view.held ≡ []) }
    requires room { CALL_CELLS ≤ core.old.room }
    ensures work { IsWorking (given_by shared.now) shared.now core.new }
    ensures on { WorksOn core.old core.new }
    ensures part { HoldsPart nodes core.new }
    ensures met { CanMeet core.new }
    ensures held { HoldsCreation nodes core.new.held dir name.now kind result }
    ensures next { HasNext nodes core.new result }
{
    for _ in rt.forever() {
        let made = read_made(rt, shared, core, nodes);
        let next = numbers.next(core.number(), made);
        hold_places(rt, shared, core, nodes, dir, name, kind, next);
        hold_part(rt, shared, core, nodes, gate);
        if part_in(core, nodes).made == made {
            return next;
        }
        let_all_go(shared, core);
    }
    unreachable!()
}

/// Makes an empty node and a row that names it. First it reads in its own log which number it gives next. Then it holds the place of the
/// name, where the directory does not stand by that also its file, and of the new node the file or the eight buckets, and what was
/// flushed of it. It may wait. Only want of memory refuses it.
pub fn make<R: Wait, G: Gate>(
    rt: &R,
    alloc: Global,
    table: &TreeTable,
    core: &mut FileCore,
    dir: NodeId,
    name: Name,
    kind: Kind,
    gate: &G,
) -> Result<Reply, NoMemory>
    requires core { IsBetweenCalls table.now core.old }
    requires spare { 0 < core.old.spare }
    requires room { CALL_CELLS ≤ core.old.room }
    ensures { ComesTo table.now (Call.Make dir name kind) core.old core.new result }
{
    let shared = table.shared();
    let nodes = table.nodes();
    let numbers = table.numbers();
    let next = hold_creation(rt, shared, core, nodes, numbers, dir, &name, kind, gate);
    match make_in(core, nodes, dir, &name, kind, next) {
        Ok(node) => {
            finish_make(alloc, shared, core, nodes, dir, name, (node, kind))?;
            Ok(Reply::Node { node, kind })
        }
        Err(code) => {
            let call = Call::Make { dir, name, kind };
            finish(alloc, shared, core, nodes, call, Reply::Error { code });
            Ok(Reply::Error { code })
        }
    }
}
