// The phases of a script are run on a volume.
ghost use Rattle.std.specs.Prelude.{◌≡◌, OnErr, OnOk, length};
ghost use Rattle.std.specs.List.{AllByRecursion};
ghost use Rattle.script.specs.Ready.{LinesMayRun};
ghost use Rattle.workers.specs.Phases.{HasMadePhases, HasMadeSoFar};
ghost use Rattle.mount.specs.Phases.{HaveWorkers, own_of};
ghost use Rattle.mount.specs.Volume.{IsVolume};
ghost use Rattle.mount.specs.Workers.{AreWorkers, HaveMadeNothing};

use crate::flushing::run_phase;
use crate::volume::Volume;
use disk_box::Pen;
use script::Phase;
use sfs_base::{Gate, NoMemory};
use sfs_dev::Disk;
use std::alloc::Global;
use std::sync::Wait;
use std::thread::Threads;
use workers::Worker;

/// Runs phases on a volume, one after another, with workers that have made no call. Where a worker is refused memory before a stamp no further phase begins.
pub fn run_phases<R: Threads + Wait + Sync, D: Disk + Drop + Sync, G: Gate>(
    rt: &R,
    alloc: Global,
    volume: &Volume<D>,
    workers: &mut [Worker<Pen<D>>],
    phases: &[Phase],
    gate: &G,
) -> Result<(), NoMemory>
    requires volume { IsVolume volume.now }
    requires workers { AreWorkers volume.now workers.old }
    requires none { HaveMadeNothing workers.old }
    requires ready { AllByRecursion LinesMayRun phases.now }
    requires within { AllByRecursion (HaveWorkers volume.now.cores) phases.now }
    ensures count { length workers.new ≡ length workers.old }
    ensures workers { AreWorkers volume.now workers.new }
    ensures ok { OnOk result (HasMadePhases volume.now.table.first (own_of workers.new) phases.now) }
    ensures err { OnErr result (HasMadeSoFar volume.now.table.first (own_of workers.new) phases.now) }
{
    for phase in phases {
        run_phase(rt, alloc, volume, workers, phase, gate)?;
    }
    Ok(())
}
