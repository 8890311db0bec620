// How much the tree of a volume has.
ghost use Rattle.std.specs.Prelude.{◌≡◌, ℕ, IfOk, length};
ghost use Rattle.mount.specs.Phases.{own_of};
ghost use Rattle.mount.specs.Totals.{AreTotalsOfVolume};
ghost use Rattle.mount.specs.Volume.{IsVolume};
ghost use Rattle.mount.specs.Workers.{AreWorkers};

use crate::volume::Volume;
use disk_box::Pen;
use sfs_base::NoMemory;
use sfs_dev::Disk;
use std::sync::Wait;
use table_totals::totals_at_rest;
use tree_totals::TreeTotals;
use workers::Worker;

/// How much the tree of a volume has after the history so far: its rows, and the bytes of its live files. It takes all workers of the volume, ascending by
/// number, adds no entry and changes no cell, and may wait. It is refused for want of memory alone.
pub fn totals<R: Wait, D: Disk + Drop>(
    rt: &R,
    volume: &Volume<D>,
    workers: &mut [Worker<Pen<D>>],
) -> Result<TreeTotals, NoMemory>
    requires volume { IsVolume volume.now }
    requires workers { AreWorkers volume.now workers.old }
    ensures count { length workers.new ≡ length workers.old }
    ensures workers { AreWorkers volume.now workers.new }
    ensures entries { (core : ℕ) → own_of workers.new core ≡ own_of workers.old core }
    ensures totals { IfOk result (AreTotalsOfVolume D.view volume.now workers.new) }
{
    totals_at_rest(rt, &volume.table, workers)
}
