ghost use Rattle.std.specs.Prelude.{◌≡◌, ◌≤◌, IfOk};
ghost use Rattle.std.specs.List.{All};
ghost use Rattle.script.specs.Ready.{LinesMayRun};
ghost use Rattle.made_script.specs.Made.{each, flush_line, home_line, made, worker_lines};

use crate::lines::{push_flush, push_home, push_items};
use script::{Phase, Script};
use sfs_base::NoMemory;
use std::alloc::Global;

/// How many items a worker has at most.
pub const MOST_ITEMS: u32 = 4000;

/// How many workers there are at most.
pub const MOST_WORKERS: u32 = 16;

/// The script of a seed, so many items a worker and so many workers. Its first phase makes a directory for
/// each worker. In its second each worker makes its files, writes four bytes into each, and flushes,
/// renames or removes it or gives it a second name, as it is drawn. In its third each worker flushes its
/// directory. It takes time and memory in proportion to the number of items.
pub fn made(alloc: Global, seed: u32, count: u32, workers: u32) -> Result<Script, NoMemory>
    requires items { count ≤ MOST_ITEMS }
    requires workers { workers ≤ MOST_WORKERS }
    ensures script { IfOk result (λ script. script ≡ made seed count workers) }
{
    let workers = workers as u16;
    let mut phases = Vec::with_capacity(alloc, 3)?;
    phases.push(homes(alloc, workers)?)?;
    phases.push(work(alloc, seed, count, workers)?)?;
    phases.push(flushes(alloc, workers)?)?;
    Ok(Script::new(phases))
}

fn homes(alloc: Global, workers: u16) -> Result<Phase, NoMemory>
    ensures { IfOk result (λ phase. phase ≡ each home_line 0 workers) }
{
    let mut lines = Vec::new(alloc);
    for worker in 0..workers {
        push_home(alloc, &mut lines, worker)?;
    }
    Ok(Phase::new(lines))
}

fn work(alloc: Global, seed: u32, count: u32, workers: u16) -> Result<Phase, NoMemory>
    ensures { IfOk result (λ phase. phase ≡ each (worker_lines seed count) 0 workers) }
{
    let mut lines = Vec::new(alloc);
    for worker in 0..workers {
        push_items(alloc, &mut lines, seed, count, worker)?;
    }
    Ok(Phase::new(lines))
}

fn flushes(alloc: Global, workers: u16) -> Result<Phase, NoMemory>
    ensures { IfOk result (λ phase. phase ≡ each flush_line 0 workers) }
{
    let mut lines = Vec::new(alloc);
    for worker in 0..workers {
        push_flush(alloc, &mut lines, worker)?;
    }
    Ok(Phase::new(lines))
}
