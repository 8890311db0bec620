// One function for the calls.
ghost use Rattle.std.specs.Prelude.{◌<◌, ◌≤◌};
ghost use Rattle.tree_laws.specs.Step.{IsReadable};
ghost use Rattle.stamp_table.specs.Table.{IsBetweenCalls};
ghost use Rattle.mem_calls.specs.Calls.{IsPlainCall, IsPlainChange};
ghost use Rattle.mem_calls.specs.Outcome.{ComesTo};

use crate::holding::CALL_CELLS;
use crate::table::TreeTable;
use crate::{link, list, look, make, read, rmdir, stat, trunc, unlink, write};
use mem_values::FileCore;
use sfs_base::{Gate, NoMemory};
use std::alloc::Global;
use std::sync::Wait;
use tree_laws::{Call, Reply};

/// Makes a call that is neither a rename nor an fsync. It may wait. Only want of memory refuses it.
pub fn call<R: Wait, G: Gate>(
    rt: &R,
    alloc: Global,
    table: &TreeTable,
    core: &mut FileCore,
    call: Call,
    gate: &G,
) -> Result<Reply, NoMemory>
    requires core { IsBetweenCalls table.now core.old }
    requires spare { 0 < core.old.spare }
    requires room { CALL_CELLS ≤ core.old.room }
    requires readable { IsReadable call }
    requires plain { IsPlainCall call }
    ensures { ComesTo table.now call core.old core.new result }
{
    match call {
        Call::Look { dir, name } => Ok(look(rt, alloc, table, core, dir, name, gate)),
        Call::Read { file, at, count } => { read(rt, alloc, table, core, file, at, count, gate) }
        Call::Stat { node } => Ok(stat(rt, alloc, table, core, node, gate)),
        Call::List { dir } => list(rt, alloc, table, core, dir, gate),
        call => change(rt, alloc, table, core, call, gate),
    }
}

// Makes a call that may change the tree.
fn change<R: Wait, G: Gate>(
    rt: &R,
    alloc: Global,
    table: &TreeTable,
    core: &mut FileCore,
    call: Call,
    gate: &G,
) -> Result<Reply, NoMemory>
    requires core { IsBetweenCalls table.now core.old }
    requires spare { 0 < core.old.spare }
    requires room { CALL_CELLS ≤ core.old.room }
    requires change { IsPlainChange call }
    ensures { ComesTo table.now call core.old core.new result }
{
    match call {
        Call::Make { dir, name, kind } => { make(rt, alloc, table, core, dir, name, kind, gate) }
        Call::Link { file, dir, name } => { link(rt, alloc, table, core, file, dir, name, gate) }
        Call::Unlink { dir, name } => unlink(rt, alloc, table, core, dir, name, gate),
        Call::Rmdir { dir, name } => rmdir(rt, alloc, table, core, dir, name, gate),
        Call::Write { file, at, bytes } => { write(rt, alloc, table, core, file, at, bytes, gate) }
        Call::Trunc { file, size } => trunc(rt, alloc, table, core, file, size, gate),
        _ => unreachable!(),
    }
}
