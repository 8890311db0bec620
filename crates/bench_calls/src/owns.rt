// Threads that call at once, each on a table of its own.
ghost use Rattle.std.specs.Prelude.{All, IfSome};
ghost use Rattle.bench_calls.specs.Ready.{IsReadyAlone};

use crate::cases::{Case, THREADS, Tally};
use crate::runs::begun_table;
use crate::workers::{Worker, begun_worker, work};
use mem_calls::TreeTable;
use std::alloc::Global;
use std::rt::Clock;
use std::sync::Wait;
use std::sync::atomic::AtomicU64;
use std::thread;
use std::thread::Threads;

/// A thread, with a table of its own.
#[derive(Drop)]
pub(crate) struct Own {
    pub(crate) table: TreeTable,
    pub(crate) worker: Worker,
}

// A thread with a table. None, where there is no memory for it.
fn begun_own(alloc: Global, case: Case, thread: u8) -> Option<Own>
    ensures { IfSome result IsReadyAlone }
{
    let (table, mut cores) = begun_table(alloc, case, 1)?;
    let core = cores.pop()?;
    let worker = begun_worker(alloc, case, core, thread)?;
    Some(Own { table, worker })
}

// All threads, each with a table. None, where there is no memory for them.
fn begun_owns(alloc: Global, case: Case) -> Option<Vec<Own>>
    ensures { IfSome result (λ owns. All IsReadyAlone owns.items) }
{
    let mut owns = Vec::new(alloc);
    for thread in 0..THREADS {
        owns.push(begun_own(alloc, case, thread)?).ok()?;
    }
    Some(owns)
}

// They call at once.
fn call_alone<R: Threads + Wait + Sync + Clock>(rt: &R, alloc: Global, owns: &mut [Own], case: Case)
    requires { All IsReadyAlone owns.old }
{
    let there = AtomicU64::new(0);
    thread::for_each_mut(
        rt,
        owns,
        4,
        &|_number, own: &mut Own|
            requires { IsReadyAlone own.now }
        { work(rt, alloc, &own.table, &mut own.worker, case, &there) },
    );
}

/// Threads call at once, each on a table of its own: what they did is added. None, where there is no memory for it.
pub(crate) fn on_own_tables<R: Threads + Wait + Sync + Clock>(
    rt: &R,
    alloc: Global,
    case: Case,
    tally: &mut Tally,
) -> Option<()> {
    let mut owns = begun_owns(alloc, case)?;
    call_alone(rt, alloc, owns.as_mut_slice(), case);
    for own in &owns {
        tally.add(own.worker.thread.0, own.worker.done, own.worker.nanos);
    }
    Some(())
}
