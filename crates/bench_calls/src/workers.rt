// What one thread does on a table.
ghost use Rattle.std.specs.Prelude.{◌≡◌, All, IfSome};
ghost use Rattle.tree_laws.specs.Step.{IsReadable};
ghost use Rattle.stamp_table.specs.Table.{IsBetweenCalls};

use crate::cases::Case;
use crate::loads::call_of;
use begun_tables::make_call;
use mem_calls::TreeTable;
use mem_values::FileCore;
use sfs_base::{CoreId, NoGate, NodeId};
use std::alloc::Global;
use std::rt::Clock;
use std::sync::Wait;
use std::sync::atomic::{AtomicU64, Ordering};
use std::time::Instant;
use tree_laws::{Call, Reply};

// How often a thread looks whether the others are there.
const LOOKS: u64 = 1_000_000_000;

/// The core with which a thread calls, its number and its directory, the calls that were made before the clock, the last one first, and what
/// came of it: how many calls were done, and in how many nanoseconds.
#[derive(Drop)]
pub(crate) struct Worker {
    pub(crate) core: FileCore,
    pub(crate) thread: CoreId,
    pub(crate) dir: NodeId,
    pub(crate) calls: Vec<Call>,
    pub(crate) done: u64,
    pub(crate) nanos: u64,
}

// Makes the calls of a thread beforehand. None, where there is no memory for them.
fn calls_of(alloc: Global, case: Case, dir: NodeId, thread: CoreId) -> Option<Vec<Call>>
    ensures { IfSome result (λ calls. All IsReadable calls.items) }
{
    let mut calls = Vec::with_capacity(alloc, case.rounds as usize).ok()?;
    let mut round = case.rounds;
    while round > 0 {
        round -= 1;
        calls
            .push(call_of(alloc, case.load, case.rows, dir, thread, round)?)
            .ok()?;
    }
    Some(calls)
}

/// A thread with a core of a table. None, where there is no memory for its calls.
pub(crate) fn begun_worker(alloc: Global, case: Case, core: FileCore, thread: u8) -> Option<Worker>
    ensures core { IfSome result (λ worker. worker.core ≡ core) }
    ensures calls { IfSome result (λ worker. All IsReadable worker.calls.items) }
{
    let number = if case.place.together() > 1 { 0 } else { thread };
    let dir = NodeId(1 + number as u32);
    let thread = CoreId(thread);
    let calls = if case.made {
        calls_of(alloc, case, dir, thread)?
    } else {
        Vec::new(alloc)
    };
    Some(Worker {
        core,
        thread,
        dir,
        calls,
        done: 0,
        nanos: 0,
    })
}

// Makes one call, and says whether it was done.
fn call_once<R: Wait>(
    rt: &R,
    alloc: Global,
    table: &TreeTable,
    core: &mut FileCore,
    call: Call,
) -> bool
    requires core { IsBetweenCalls table.now core.old }
    requires readable { IsReadable call }
    ensures between { IsBetweenCalls table.now core.new }
{
    match make_call(rt, alloc, table, core, call, &NoGate) {
        Some(Reply::Error { .. }) => false,
        Some(_) => true,
        None => false,
    }
}

// Makes the calls of a thread, each as it comes.
fn call_each<R: Wait>(rt: &R, alloc: Global, table: &TreeTable, worker: &mut Worker, case: Case)
    requires core { IsBetweenCalls table.now worker.old.core }
    ensures between { IsBetweenCalls table.now worker.new.core }
{
    for round in 0..case.rounds {
        let Some(call) = call_of(
            alloc,
            case.load,
            case.rows,
            worker.dir,
            worker.thread,
            round,
        ) else {
            return;
        };
        if call_once(rt, alloc, table, &mut worker.core, call) {
            worker.done = worker.done.saturating_add(1);
        }
    }
}

// Makes the calls that were made before.
fn call_made<R: Wait>(rt: &R, alloc: Global, table: &TreeTable, worker: &mut Worker, case: Case)
    requires core { IsBetweenCalls table.now worker.old.core }
    requires readable { All IsReadable worker.old.calls.items }
    ensures between { IsBetweenCalls table.now worker.new.core }
{
    for _ in 0..case.rounds {
        let Some(call) = worker.calls.pop() else {
            return;
        };
        if call_once(rt, alloc, table, &mut worker.core, call) {
            worker.done = worker.done.saturating_add(1);
        }
    }
}

// Waits until so many threads are there, but not for ever: where one can't be had, the others go on without it.
fn meet(there: &AtomicU64, threads: u8) {
    there.fetch_add(1, Ordering::SeqCst);
    for _ in 0..LOOKS {
        if there.load(Ordering::SeqCst) >= threads as u64 {
            return;
        }
    }
}

/// Makes the calls of a thread, once all threads are there. The clock runs for its calls alone.
pub(crate) fn work<R: Wait + Clock>(
    rt: &R,
    alloc: Global,
    table: &TreeTable,
    worker: &mut Worker,
    case: Case,
    there: &AtomicU64,
)
    requires core { IsBetweenCalls table.now worker.old.core }
    requires readable { All IsReadable worker.old.calls.items }
{
    meet(there, case.place.threads());
    let Ok(start) = Instant::now(rt) else {
        return;
    };
    if case.made {
        call_made(rt, alloc, table, worker, case);
    } else {
        call_each(rt, alloc, table, worker, case);
    }
    if let Ok(time) = start.elapsed(rt) {
        worker.nanos = u64::try_from(time.as_nanos()).unwrap_or(u64::MAX);
    }
}
