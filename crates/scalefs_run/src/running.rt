// Phases of a script are run on a volume that is begun over a mounted disk and unmounted behind them.
ghost use Rattle.std.specs.Prelude.{◌≡◌, ◌≤◌, ℕ, IfErr, IfOk, OnErr, OnOk, length};
ghost use Rattle.std.specs.List.{AllByRecursion};
ghost use Rattle.mount.specs.Phases.{HaveWorkers, own_of};
ghost use Rattle.mount.specs.Volume.{IsVolume};
ghost use Rattle.mount.specs.Workers.{AreWorkers, HaveMadeNothing};
ghost use Rattle.workers.specs.Phases.{HasMadePhases, HasMadeSoFar};
ghost use Rattle.script.specs.Ready.{LinesMayRun};
ghost use Rattle.volume_laws.specs.Mounting.{WasMounted};
ghost use Rattle.words.specs.Words.{MOST_NODES};
ghost use Rattle.scalefs_run.specs.Ran.{EndsVolume, HasCalls, LeavesRun};
ghost use Rattle.scalefs_run.specs.Writing.{text_behind, text_due};

use crate::writing::{Ending, Writing};
use disk_box::Pen;
use mount::{MountFault, Mounted, Volume, begin, run_phases, totals, unmount};
use mount_begin::Mounted as Begun;
use script::Phase;
use sfs_base::{Gate, NoMemory};
use sfs_dev::Disk;
use std::alloc::Global;
use std::sync::Wait;
use std::thread::Threads;
use tree_laws::{History, Turns};
use workers::Worker;

/// What phases left that were run on a volume: how they ended, what is to be written then, their calls, the turns of these at the disk, and the disk.
#[derive(Drop)]
pub struct Ran<D> {
    pub ended: Result<(), NoMemory>,
    pub ending: Result<Ending, NoMemory>,
    pub history: History,
    pub turns: Turns,
    pub disk: D,
}

// What is to be written at the end of a run on a volume: for the line of `load` it takes how much the tree has then.
fn end_of<R: Wait, D: Disk + Drop>(
    rt: &R,
    volume: &Volume<D>,
    workers: &mut [Worker<Pen<D>>],
    writing: Writing,
) -> Result<Ending, NoMemory>
    requires volume { IsVolume volume.now }
    requires workers { AreWorkers volume.now workers.old }
    ensures count { length workers.new ≡ length workers.old }
    ensures workers { AreWorkers volume.now workers.new }
    ensures entries { (core : ℕ) → own_of workers.new core ≡ own_of workers.old core }
    ensures due { IfOk result (EndsVolume D.view volume.now workers.new writing) }
{
    match writing {
        Writing::History => Ok(Ending::History),
        Writing::Load {
            seed,
            count,
            workers: asked,
        } => {
            let found = totals(rt, volume, workers)?;
            Ok(Ending::Load {
                seed,
                count,
                workers: asked,
                found,
            })
        }
    }
}

// Runs phases on a volume, and takes what is to be written behind them.
fn run_on<R: Threads + Wait + Sync, D: Disk + Drop + Sync, G: Gate>(
    rt: &R,
    alloc: Global,
    volume: &Volume<D>,
    workers: &mut [Worker<Pen<D>>],
    phases: &[Phase],
    writing: Writing,
    gate: &G,
) -> (Result<(), NoMemory>, Result<Ending, NoMemory>)
    requires volume { IsVolume volume.now }
    requires workers { AreWorkers volume.now workers.old }
    requires none { HaveMadeNothing workers.old }
    requires ready { AllByRecursion LinesMayRun phases.now }
    requires within { AllByRecursion (HaveWorkers volume.now.cores) phases.now }
    ensures count { length workers.new ≡ length workers.old }
    ensures workers { AreWorkers volume.now workers.new }
    ensures ok { OnOk result.0 (HasMadePhases volume.now.table.first (own_of workers.new) phases.now) }
    ensures err { OnErr result.0 (HasMadeSoFar volume.now.table.first (own_of workers.new) phases.now) }
    ensures due { IfOk result.1 (EndsVolume D.view volume.now workers.new writing) }
{
    let ended = run_phases(rt, alloc, volume, workers, phases, gate);
    let ending = end_of(rt, volume, workers, writing);
    (ended, ending)
}

/// Begins a volume of many cores over a disk that was mounted with so many new nodes, runs phases on it, each worker of a phase in a thread of its own
/// where one can be started, and unmounts it. Where memory is refused before the volume is there, the disk is handed back as it is.
pub fn run_begun<R: Threads + Wait + Sync, D: Disk + Drop + Sync, G: Gate>(
    rt: &R,
    alloc: Global,
    disk: D,
    begun: Begun,
    nodes: u32,
    phases: &[Phase],
    writing: Writing,
    gate: &G,
) -> Result<Ran<D>, D>
    requires most { nodes ≤ MOST_NODES }
    requires was { (old : D) × WasMounted nodes begun (D.view old) (D.view disk) }
    requires ready { AllByRecursion LinesMayRun phases.now }
    requires within { AllByRecursion (HaveWorkers begun.layout.cores) phases.now }
    ensures leaves { IfOk result (λ ran. (old : D) → WasMounted nodes begun (D.view old) (D.view disk)
        → LeavesRun nodes begun.tree (D.view old) (D.view ran.disk) ran.history ran.turns.items) }
    ensures calls { IfOk result (λ ran. HasCalls phases.now ran.history ran.ended) }
    ensures due { IfOk result (λ ran. IfOk ran.ending (λ ending. text_due ending ran.history ≡ text_behind writing begun.tree ran.history)) }
    ensures refused { IfErr result (λ left. left ≡ disk) }
{
    let Mounted {
        volume,
        mut workers,
    } = match begin(alloc, disk, begun, nodes) {
        Ok(mounted) => mounted,
        Err(MountFault { fault: _, disk }) => return Err(disk),
    };
    let (ended, ending) = run_on(rt, alloc, &volume, &mut workers, phases, writing, gate);
    let (disk, history, turns) = unmount(volume, workers);
    Ok(Ran {
        ended,
        ending,
        history,
        turns,
        disk,
    })
}
