// One call of a worker, of whatever kind.
ghost use Rattle.std.specs.Prelude.{◌≡◌};
ghost use Rattle.tree_laws.specs.Step.{IsReadable};
ghost use Rattle.stamp_table.specs.Table.{IsBetweenCalls, IsSameCore};
ghost use Rattle.workers.specs.Keeping.{AddsOrRefused};
ghost use Rattle.workers.specs.Works.{Rests};

use crate::Flush;
use crate::worker::Worker;
use mem_calls::{TreeTable, call};
use mem_rename::{Move, RENAME_CELLS, rename};
use mem_values::FileCore;
use sfs_base::{Gate, NoMemory};
use std::alloc::Global;
use std::sync::Wait;
use tree_laws::{Call, Reply};

/// Makes a worker's call. Where it is refused memory the core has made none.
pub(crate) fn make_call<R: Wait, F: Flush, G: Gate>(
    rt: &R,
    alloc: Global,
    table: &TreeTable,
    core: &mut FileCore,
    pen: &mut F::Pen,
    asked: Call,
    flush: &F,
    gate: &G,
) -> Result<Reply, NoMemory>
    requires flush { F.table flush.now ≡ table.now }
    requires core { IsBetweenCalls table.now core.old }
    requires agrees { F.agrees flush.now core.old pen.old }
    requires readable { IsReadable asked }
    ensures made { AddsOrRefused asked core.old core.new result }
    ensures between { IsBetweenCalls table.now core.new }
    ensures same { IsSameCore core.old core.new }
    ensures agrees { F.agrees flush.now core.new pen.new }
{
    core.reserve(1, RENAME_CELLS)?;
    match asked {
        Call::Rename {
            dir: directory,
            name,
            to_dir: to_directory,
            to_name,
        } => {
            let move_ = Move {
                directory,
                name,
                to_directory,
                to_name,
            };
            rename(rt, alloc, table, core, move_, gate)
        }
        Call::Fsync { node } => Ok(flush.fsync(rt, alloc, core, pen, node, gate)),
        other => call(rt, alloc, table, core, other, gate),
    }
}

/// Makes a call of a worker that rests, and answers its reply. Where it is refused memory before a stamp the worker has made none. The worker rests behind it.
pub fn call_worker<R: Wait, F: Flush, G: Gate>(
    rt: &R,
    alloc: Global,
    table: &TreeTable,
    worker: &mut Worker<F::Pen>,
    asked: Call,
    flush: &F,
    gate: &G,
) -> Result<Reply, NoMemory>
    requires flush { F.table flush.now ≡ table.now }
    requires rest { Rests table.now (F.agrees flush.now) worker.old }
    requires readable { IsReadable asked }
    ensures made { AddsOrRefused asked worker.old.core worker.new.core result }
    ensures rest { Rests table.now (F.agrees flush.now) worker.new }
    ensures same { IsSameCore worker.old.core worker.new.core }
{
    let shared = table.shared();
    worker.core.look_for(rt, shared, worker.until);
    let made = make_call(
        rt,
        alloc,
        table,
        &mut worker.core,
        &mut worker.pen,
        asked,
        flush,
        gate,
    );
    worker.until = worker.core.look(shared);
    made
}
