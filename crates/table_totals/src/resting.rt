// The tree behind all calls of a table's workers, who rest.
ghost use Rattle.std.specs.Prelude.{◌≤◌, All, IfOk};
ghost use Rattle.table_totals.specs.Rest.{AreAtRest, AreTotalsAtEnd, FirstSaw};
ghost use Rattle.table_totals.specs.Seen.{HasNoLongFile};

use crate::counting::totals;
use mem_calls::TreeTable;
use sfs_base::NoMemory;
use std::sync::Wait;
use tree_totals::TreeTotals;
use workers::Worker;

// How many calls the worker has seen who looked last.
fn last_look<P>(workers: &[Worker<P>]) -> u64
    ensures { All (λ worker. worker.until ≤ result) workers.now }
{
    let mut last = 0;
    for worker in workers {
        if last < worker.until {
            last = worker.until;
        }
    }
    last
}

/// How much the tree of a table has after all calls of its workers: its rows, and the bytes of its live files. It takes all workers of
/// the table, ascending by number, and counts by the first one's core, once that has seen all calls. It may wait. It makes no entry and changes no cell.
pub fn totals_at_rest<R: Wait, P>(
    rt: &R,
    table: &TreeTable,
    workers: &mut [Worker<P>],
) -> Result<TreeTotals, NoMemory>
    requires short { HasNoLongFile table.now.first }
    requires rest { AreAtRest table.now workers.old }
    ensures saw { FirstSaw workers.old workers.new }
    ensures end { IfOk result (AreTotalsAtEnd table.now workers.new) }
{
    let last = last_look(workers);
    let core = &mut workers[0].core;
    core.look_for(rt, table.shared(), last);
    totals(rt, table, core)
}
