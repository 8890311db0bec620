// A script that workers run on a volume, from its mount to its end.
ghost use Rattle.std.specs.Prelude.{◌≡◌, ◌≤◌, length};
ghost use Rattle.std.specs.List.{AllByRecursion};
ghost use Rattle.script.specs.Ready.{LinesMayRun};
ghost use Rattle.mount.specs.Volume.{IsVolume};
ghost use Rattle.mount.specs.Workers.{AreWorkers};

use crate::helpers::{got, holds, same};
use disk_box::Pen;
use fmt_super::Layout;
use mount::{MountFault, Mounted, Volume, mount, run_phase, totals, unmount};
use recovery::mkfs;
use script::{Phase, Script, read};
use sfs_base::{Gate, NoMemory};
use sfs_dev::{Disk, Memory};
use std::alloc::Global;
use std::process::Abort;
use std::sync::Wait;
use std::thread::Threads;
use tree_laws::{History, Turns};
use tree_totals::TreeTotals;
use workers::Worker;

/// What a run leaves, whether each phase came to its end, and how much the tree had then.
#[derive(Drop)]
pub(crate) struct Ran<D> {
    pub disk: D,
    pub history: History,
    pub turns: Turns,
    pub ended: bool,
    pub totals: Result<TreeTotals, NoMemory>,
}

/// A disk of that content without a device call, where nothing is pending on this one.
pub(crate) fn copy_of(rt: &impl Abort, alloc: Global, disk: &Memory) -> Memory {
    got(rt, disk.left(alloc, u64::MAX, 0))
}

/// A disk with this layout and an empty tree. No device call was made on it yet.
pub(crate) fn image(rt: &impl Abort, alloc: Global, layout: Layout) -> Memory {
    holds(rt, layout.blocks <= 1024 && layout.is_valid(layout.blocks));
    let mut disk = got(rt, Memory::new(alloc, layout.blocks));
    holds(rt, layout.is_valid(disk.len()));
    same(rt, &mkfs(alloc, &mut disk, &layout), &Ok(()));
    copy_of(rt, alloc, &disk)
}

/// The phases of a script.
pub(crate) fn phases_in(rt: &impl Abort, alloc: Global, text: &[u8]) -> Script
    ensures { AllByRecursion LinesMayRun result }
{
    got(rt, read(alloc, text))
}

// Runs phase by phase, or until a worker is refused memory. Says whether all were run.
fn run_all<R: Threads + Wait + Sync, D: Disk + Drop + Sync, G: Gate>(
    rt: &R,
    alloc: Global,
    volume: &Volume<D>,
    workers: &mut [Worker<Pen<D>>],
    phases: &[Phase],
    gate: &G,
) -> bool
    requires volume { IsVolume volume.now }
    requires workers { AreWorkers volume.now workers.old }
    requires ready { AllByRecursion LinesMayRun phases.now }
    ensures count { length workers.new ≡ length workers.old }
    ensures workers { AreWorkers volume.now workers.new }
{
    for phase in phases {
        if run_phase(rt, alloc, volume, workers, phase, gate).is_err() {
            return false;
        }
    }
    true
}

// The same, and counts how much the tree has then.
fn run_and_count<R: Threads + Wait + Sync, D: Disk + Drop + Sync, G: Gate>(
    rt: &R,
    alloc: Global,
    volume: &Volume<D>,
    workers: &mut [Worker<Pen<D>>],
    phases: &[Phase],
    gate: &G,
) -> (bool, Result<TreeTotals, NoMemory>)
    requires volume { IsVolume volume.now }
    requires workers { AreWorkers volume.now workers.old }
    requires ready { AllByRecursion LinesMayRun phases.now }
    ensures count { length workers.new ≡ length workers.old }
    ensures workers { AreWorkers volume.now workers.new }
{
    let ended = run_all(rt, alloc, volume, workers, phases, gate);
    let counted = totals(rt, volume, workers);
    (ended, counted)
}

/// Runs a script on the volume that a disk is mounted as, in which so many nodes may be made.
pub(crate) fn run_on<R: Threads + Wait + Sync, D: Disk + Drop + Sync, G: Gate>(
    rt: &R,
    alloc: Global,
    disk: D,
    nodes: u32,
    script: &Script,
    gate: &G,
) -> Result<Ran<D>, MountFault<D>>
    requires nodes { nodes ≤ 65536 }
    requires ready { AllByRecursion LinesMayRun script.now }
{
    let Mounted {
        volume,
        mut workers,
    } = mount(alloc, disk, nodes)?;
    let (ended, totals) = run_and_count(
        rt,
        alloc,
        &volume,
        workers.as_mut_slice(),
        script.phases(),
        gate,
    );
    let (disk, history, turns) = unmount(volume, workers);
    Ok(Ran {
        disk,
        history,
        turns,
        ended,
        totals,
    })
}

/// The same of a disk that can be mounted, with ample memory.
pub(crate) fn run<R: Threads + Wait + Sync + Abort, D: Disk + Drop + Sync, G: Gate>(
    rt: &R,
    alloc: Global,
    disk: D,
    nodes: u32,
    script: &Script,
    gate: &G,
) -> Ran<D>
    requires nodes { nodes ≤ 65536 }
    requires ready { AllByRecursion LinesMayRun script.now }
{
    let ran = got(rt, run_on(rt, alloc, disk, nodes, script, gate));
    holds(rt, ran.ended);
    ran
}
