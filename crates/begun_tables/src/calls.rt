// One call of a core on a table.
ghost use Rattle.std.specs.Prelude.{◌<◌, ◌≤◌};
ghost use Rattle.tree_laws.specs.Step.{IsReadable};
ghost use Rattle.stamp_table.specs.Table.{IsBetweenCalls, IsSameCore};
ghost use Rattle.begun_tables.specs.Begun.{ComesToReply};

use mem_calls::{TreeTable, call};
use mem_rename::{Move, RENAME_CELLS, rename};
use mem_values::FileCore;
use sfs_base::Gate;
use std::alloc::Global;
use std::sync::Wait;
use tree_laws::{Call, Reply};

// Makes a call for which the core has room.
fn make_ready<R: Wait, G: Gate>(
    rt: &R,
    alloc: Global,
    table: &TreeTable,
    core: &mut FileCore,
    asked: Call,
    gate: &G,
) -> Option<Reply>
    requires core { IsBetweenCalls table.now core.old }
    requires readable { IsReadable asked }
    requires spare { 0 < core.old.spare }
    requires room { RENAME_CELLS ≤ core.old.room }
    ensures made { ComesToReply table.now asked core.old core.new result }
    ensures same { IsSameCore core.old core.new }
    ensures between { IsBetweenCalls table.now core.new }
{
    match asked {
        Call::Rename {
            dir: directory,
            name,
            to_dir: to_directory,
            to_name,
        } => {
            let mv = Move {
                directory,
                name,
                to_directory,
                to_name,
            };
            rename(rt, alloc, table, core, mv, gate).ok()
        }
        Call::Fsync { node: _ } => None,
        other => call(rt, alloc, table, core, other, gate).ok(),
    }
}

/// Makes a call. None, where memory is refused, or the call is an fsync, which is not made here.
pub fn make_call<R: Wait, G: Gate>(
    rt: &R,
    alloc: Global,
    table: &TreeTable,
    core: &mut FileCore,
    asked: Call,
    gate: &G,
) -> Option<Reply>
    requires core { IsBetweenCalls table.now core.old }
    requires readable { IsReadable asked }
    ensures made { ComesToReply table.now asked core.old core.new result }
    ensures same { IsSameCore core.old core.new }
    ensures between { IsBetweenCalls table.now core.new }
{
    core.reserve(1, RENAME_CELLS).ok()?;
    make_ready(rt, alloc, table, core, asked, gate)
}
