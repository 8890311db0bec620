// The child of a row.
ghost use Rattle.std.specs.Prelude.{◌≡◌, ◌<◌, ◌≤◌};
ghost use Rattle.sfs_base.specs.Name.{bucket};
ghost use Rattle.tree_laws.specs.Verdict.{verdict, answered};
ghost use Rattle.stamp_table.specs.Table.{IsBetweenCalls};
ghost use Rattle.mem_values.specs.Places.{node_count};
ghost use Rattle.mem_calls.specs.Held.{HoldsDirectory, InEach};
ghost use Rattle.mem_calls.specs.Reply.{reply_of};
ghost use Rattle.mem_calls.specs.Outcome.{IsAnswered};

use crate::finish::finish;
use crate::held::{bucket_in, directory_fault_in};
use crate::holding::{CALL_CELLS, hold_directory, hold_part};
use crate::short::Short;
use crate::table::TreeTable;
use mem_values::FileCore;
use sfs_base::{Gate, Name, NodeId, bucket_of};
use std::alloc::Global;
use std::sync::Wait;
use tree_laws::{Call, Code, Reply};

// What a look-up answers, by what is held.
fn look_in(core: &FileCore, nodes: u32, dir: NodeId, name: &Name) -> Short
    requires counted { nodes ≡ node_count core.now.view.first }
    requires held { HoldsDirectory nodes core.now.held dir (bucket name.now) }
    ensures { InEach core.now (λ tree. verdict tree core.now.view.core (Call.Look dir name.now) ≡ answered (reply_of result)) }
{
    let number = bucket_of(name);
    if let Some(code) = directory_fault_in(core, nodes, dir, number) {
        return Short::Error { code };
    }
    let bucket = bucket_in(core, nodes, dir, number);
    match bucket.rows.get(name) {
        Some(node) => Short::Node {
            node,
            kind: bucket.kind(name),
        },
        None => Short::Error {
            code: Code::NoEntry,
        },
    }
}

/// Asks for the child of the row with this name. It holds the bucket of the name, and where the directory does not stand also its file.
/// It may wait. It takes no memory.
pub fn look<R: Wait, G: Gate>(
    rt: &R,
    alloc: Global,
    table: &TreeTable,
    core: &mut FileCore,
    dir: NodeId,
    name: Name,
    gate: &G,
) -> Reply
    requires core { IsBetweenCalls table.now core.old }
    requires spare { 0 < core.old.spare }
    requires room { CALL_CELLS ≤ core.old.room }
    ensures { IsAnswered table.now (Call.Look dir name) result core.old core.new }
{
    let shared = table.shared();
    let nodes = table.nodes();
    hold_directory(rt, shared, core, nodes, dir, bucket_of(&name));
    hold_part(rt, shared, core, nodes, gate);
    let answer = look_in(core, nodes, dir, &name);
    finish(
        alloc,
        shared,
        core,
        nodes,
        Call::Look { dir, name },
        answer.reply(),
    );
    answer.reply()
}
