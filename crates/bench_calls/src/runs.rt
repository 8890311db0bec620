// Threads that call at once on one table.
ghost use Rattle.std.specs.Prelude.{◌≡◌, ◌+◌, ◌*◌, ◌<◌, ◌≤◌, All, IfSome};
ghost use Rattle.stamp_table.specs.Table.{IsBetweenCalls};
ghost use Rattle.bench_calls.specs.Ready.{IsReady};

use crate::cases::{Case, Place, THREADS, Tally};
use crate::owns::on_own_tables;
use crate::trees::{FIRST, SHARE, begun_tree};
use crate::workers::{Worker, begun_worker, work};
use begun_tables::begun;
use mem_calls::TreeTable;
use mem_values::FileCore;
use std::alloc::Global;
use std::rt::Clock;
use std::sync::Wait;
use std::sync::atomic::AtomicU64;
use std::thread;
use std::thread::Threads;

/// A table with its cores. None, where there is no memory for it.
pub(crate) fn begun_table(
    alloc: Global,
    case: Case,
    cores: u8,
) -> Option<(TreeTable, Vec<FileCore>)>
    requires { (0 < cores) × (cores ≤ 4) }
    ensures { IfSome result (λ made. All (IsBetweenCalls made.0) made.1.items) }
{
    let tree = begun_tree(alloc, cores, case.rows)?;
    begun(alloc, &tree, FIRST, SHARE, cores).ok()
}

// Threads with the cores of a table. None, where there is no memory for them.
fn workers_of(
    alloc: Global,
    table: &TreeTable,
    cores: Vec<FileCore>,
    case: Case,
) -> Option<Vec<Worker>>
    requires { All (IsBetweenCalls table.now) cores.items }
    ensures { IfSome result (λ workers. All (IsReady table.now) workers.items) }
{
    let mut workers = Vec::with_capacity(alloc, THREADS as usize).ok()?;
    let mut thread = 0u8;
    for core in cores {
        workers.push(begun_worker(alloc, case, core, thread)?).ok()?;
        thread = thread.saturating_add(1);
    }
    Some(workers)
}

// They call at once.
fn call_all<R: Threads + Wait + Sync + Clock>(
    rt: &R,
    alloc: Global,
    table: &TreeTable,
    workers: &mut [Worker],
    case: Case,
)
    requires workers { All (IsReady table.now) workers.old }
{
    let there = AtomicU64::new(0);
    thread::for_each_mut(
        rt,
        workers,
        4,
        &|_number, worker: &mut Worker|
            requires { IsReady table.now worker.now }
        { work(rt, alloc, table, worker, case, &there) },
    );
}

// Threads call at once on one table: what they did is added. None, where there is no memory for it.
fn on_one_table<R: Threads + Wait + Sync + Clock>(
    rt: &R,
    alloc: Global,
    case: Case,
    tally: &mut Tally,
) -> Option<()> {
    let cores = case.place.threads();
    let (table, hands) = begun_table(alloc, case, cores)?;
    let mut workers = workers_of(alloc, &table, hands, case)?;
    call_all(rt, alloc, &table, workers.as_mut_slice(), case);
    for worker in &workers {
        tally.add(worker.thread.0, worker.done, worker.nanos);
    }
    Some(())
}

/// What threads did in a case, on its tables one after another. None, where there is no memory for it.
pub(crate) fn measured<R: Threads + Wait + Sync + Clock>(
    rt: &R,
    alloc: Global,
    case: Case,
) -> Option<Tally> {
    let mut tally = Tally::new();
    for _ in 0..case.tables {
        match case.place {
            Place::OwnTables => on_own_tables(rt, alloc, case, &mut tally)?,
            _ => on_one_table(rt, alloc, case, &mut tally)?,
        }
    }
    Some(tally)
}
