// The workers of a phase, side by side.
ghost use Rattle.std.specs.Prelude.{◌≡◌, ℕ, ◌≤◌, All, length, is_err};
ghost use Rattle.stamp_table.specs.Table.{IsBetweenCalls};
ghost use Rattle.script.specs.Ready.{LinesMayRun};
ghost use Rattle.script.specs.Walks.{commands_of};
ghost use Rattle.workers.specs.Works.{MakesCalls, Rests, Works, WorksEach, any_refused};

use crate::calls::make_call;
use crate::{Flush, Worker};
use mem_calls::TreeTable;
use mem_values::FileCore;
use script::{Course, Phase};
use sfs_base::{Gate, NoMemory};
use std::alloc::Global;
use std::sync::Wait;
use std::thread::{self, Threads};

// How many threads there are at most: one for each core that a table may have.
const MOST_THREADS: usize = 256;

// Makes the calls of a core's commands, one by one after the replies to those before them, to their end, or until one is refused memory.
fn make_calls<R: Wait, F: Flush, G: Gate>(
    rt: &R,
    alloc: Global,
    table: &TreeTable,
    core: &mut FileCore,
    pen: &mut F::Pen,
    phase: &Phase,
    flush: &F,
    gate: &G,
) -> Result<(), NoMemory>
    requires flush { F.table flush.now ≡ table.now }
    requires core { IsBetweenCalls table.now core.old }
    requires agrees { F.agrees flush.now core.old pen.old }
    requires ready { LinesMayRun phase.now }
    ensures { MakesCalls table.now (F.agrees flush.now) (commands_of core.old.view.core phase.now) core.old core.new pen.new (is_err result) }
{
    let mut course = Course::new(u16::from(core.number().0), phase);
    while let Some(call) = course.next_call()? {
        let reply = make_call(rt, alloc, table, core, pen, call, flush, gate)?;
        course.take(&reply);
    }
    Ok(())
}

// Runs a worker's commands. It begins once it sees the calls of the phases before, and ends by a look at those that there are then.
fn work<R: Wait, F: Flush, G: Gate>(
    rt: &R,
    alloc: Global,
    table: &TreeTable,
    worker: &mut Worker<F::Pen>,
    phase: &Phase,
    from: u64,
    flush: &F,
    gate: &G,
)
    requires flush { F.table flush.now ≡ table.now }
    requires rest { Rests table.now (F.agrees flush.now) worker.old }
    requires reached { worker.old.until ≤ from }
    requires ready { LinesMayRun phase.now }
    ensures { Works table.now (F.agrees flush.now) (commands_of worker.old.core.view.core phase.now) from worker.old worker.new }
{
    let shared = table.shared();
    worker.core.look_for(rt, shared, from);
    let made = make_calls(
        rt,
        alloc,
        table,
        &mut worker.core,
        &mut worker.pen,
        phase,
        flush,
        gate,
    );
    worker.refused = made.is_err();
    worker.until = worker.core.look(shared);
}

// How many calls the workers have seen who looked last.
fn reached<P>(workers: &[Worker<P>]) -> u64
    ensures { All (λ worker. worker.until ≤ result) workers.now }
{
    let mut most = 0;
    for worker in workers {
        if most < worker.until {
            most = worker.until;
        }
    }
    most
}

// Want of memory, where a worker is refused it.
fn none_refused<P>(workers: &[Worker<P>]) -> Result<(), NoMemory>
    ensures { is_err result ≡ any_refused workers.now }
{
    for worker in workers {
        if worker.refused {
            return Err(NoMemory);
        }
    }
    Ok(())
}

/// Runs a phase: each worker its own commands, in a thread of its own where one can be started. All are joined at its end. A worker that is
/// refused memory before a stamp ends alone; then the answer is want of memory, and what was called so far stands in the cores.
pub fn drive<R: Threads + Wait + Sync, F: Flush + Sync, G: Gate>(
    rt: &R,
    alloc: Global,
    table: &TreeTable,
    workers: &mut [Worker<F::Pen>],
    phase: &Phase,
    flush: &F,
    gate: &G,
) -> Result<(), NoMemory>
    requires flush { F.table flush.now ≡ table.now }
    requires rest { All (Rests table.now (F.agrees flush.now)) workers.old }
    requires ready { LinesMayRun phase.now }
    ensures count { length workers.new ≡ length workers.old }
    ensures each { (from : ℕ) × WorksEach table.now (F.agrees flush.now) phase.now from workers.old workers.new }
    ensures refused { is_err result ≡ any_refused workers.new }
{
    let from = reached(workers);
    thread::for_each_mut(
        rt,
        workers,
        MOST_THREADS,
        &|_number, worker: &mut Worker<F::Pen>|
            requires { (F.table flush.now ≡ table.now) × Rests table.now (F.agrees flush.now) worker.now × (worker.now.until ≤ from) × LinesMayRun phase.now }
            ensures { Works table.entry.now (F.agrees flush.entry.now) (commands_of worker.entry.now.core.view.core phase.entry.now) from worker.entry.now
                worker.exit.now }
        { work(rt, alloc, table, worker, phase, from, flush, gate) },
    );
    none_refused(workers)
}
