// A script that workers run on a table of their own.
ghost use Rattle.std.specs.Prelude.{◌≡◌, ◌+◌, ◌*◌, ◌<◌, ◌≤◌, ℕ, All, IfOk, OnOk, length, map, slice_index_or};
ghost use Rattle.std.specs.List.{AllByRecursion};
ghost use Rattle.script.specs.Ready.{LinesMayRun};
ghost use Rattle.stamp_table.specs.Table.{AreAllCores, AreNew, IsBetweenCalls, IsSameCore};
ghost use Rattle.begun_tables.specs.Begun.{BeginsTable};
ghost use Rattle.workers.specs.Keeping.{agree_always};
ghost use Rattle.workers.specs.Works.{Rests};
ghost use Rattle.test_workers.specs.Teams.{new_worker, worker_core, AreSameCores};

use crate::helpers::got;
use begun_tables::{begun, root_alone};
use mem_calls::TreeTable;
use mem_values::FileCore;
use script::{Phase, Script, read};
use sfs_base::{Gate, NoMemory};
use sfs_tree::Tree;
use std::alloc::Global;
use std::process::Abort;
use std::sync::Wait;
use std::thread::Threads;
use tree_laws::History;
use workers::{Plainly, Worker, drive_plainly};

// The number of the first new node.
pub(crate) const FIRST: u32 = 8;

// What a script comes to on a table: its history, and whether each phase was driven to its end.
#[derive(Drop)]
pub(crate) struct PlayedScript {
    pub history: History,
    pub ended: bool,
}

// Each core as a worker that has not run yet.
fn workers_of(alloc: Global, cores: Vec<FileCore>) -> Result<Vec<Worker<()>>, NoMemory>
    ensures { IfOk result (λ workers. workers.items ≡ map new_worker cores.items) }
{
    let mut workers = Vec::with_capacity(alloc, cores.len())?;
    for core in cores {
        workers.push_reserved(Worker {
            core,
            pen: (),
            refused: false,
            until: 0,
        });
    }
    Ok(workers)
}

// The cores of workers.
fn cores_of(alloc: Global, workers: Vec<Worker<()>>) -> Result<Vec<FileCore>, NoMemory>
    ensures { IfOk result (λ cores. cores.items ≡ map worker_core workers.items) }
{
    let mut cores = Vec::with_capacity(alloc, workers.len())?;
    for worker in workers {
        let Worker {
            core,
            pen: _,
            refused: _,
            until: _,
        } = worker;
        cores.push_reserved(core);
    }
    Ok(cores)
}

// Drives phase by phase, or until a worker is refused memory. Says whether all were driven.
fn drive_all<R: Threads + Wait + Sync, G: Gate>(
    rt: &R,
    alloc: Global,
    table: &TreeTable,
    workers: &mut [Worker<()>],
    phases: &[Phase],
    plainly: Plainly,
    gate: &G,
) -> bool
    requires rest { All (Rests table.now agree_always) workers.old }
    requires ready { AllByRecursion LinesMayRun phases.now }
    ensures count { length workers.new ≡ length workers.old }
    ensures rest { All (Rests table.now agree_always) workers.new }
    ensures same { AreSameCores workers.old workers.new }
{
    for phase in phases {
        if drive_plainly(rt, alloc, table, workers, phase, plainly, gate).is_err() {
            return false;
        }
    }
    true
}

// The tree with which each script begins: the root alone.
pub(crate) fn first_tree(rt: &impl Abort, alloc: Global, share: u32, cores: u8) -> Tree
    requires { (share ≤ 1000) × (cores ≤ 8) }
    ensures { BeginsTable result FIRST share cores }
{
    got(rt, root_alone(alloc, FIRST, share, cores))
}

// The phases of a script.
pub(crate) fn phases_in(rt: &impl Abort, alloc: Global, text: &[u8]) -> Script
    ensures { AllByRecursion LinesMayRun result }
{
    got(rt, read(alloc, text))
}

// The history of a script that so many workers run on a table over the root alone, each of which may make so many nodes.
pub(crate) fn played<R: Threads + Wait + Sync + Abort, G: Gate>(
    rt: &R,
    alloc: Global,
    script: &Script,
    share: u32,
    cores: u8,
    plainly: Plainly,
    gate: &G,
) -> PlayedScript
    requires ready { AllByRecursion LinesMayRun script.now }
    requires cores { (0 < cores) × (cores ≤ 8) }
    requires share { share ≤ 1000 }
{
    let tree = first_tree(rt, alloc, share, cores);
    let (table, hands) = got(rt, begun(alloc, &tree, FIRST, share, cores));
    let mut workers = got(rt, workers_of(alloc, hands));
    let ended = drive_all(
        rt,
        alloc,
        &table,
        workers.as_mut_slice(),
        script.phases(),
        plainly,
        gate,
    );
    let hands = got(rt, cores_of(alloc, workers));
    let (history, _) = table.into_shared().close(hands);
    PlayedScript { history, ended }
}
