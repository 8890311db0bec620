// A volume from its mount to its end.
ghost use Rattle.std.specs.Prelude.{◌≡◌, ◌≤◌, IfOk, length};
ghost use Rattle.workers.specs.Works.{Rests};
ghost use Rattle.mount.specs.Serving.{ServesAt};
ghost use Rattle.mount.specs.Workers.{AgreeAt};
ghost use Rattle.library_example.specs.Calls.{IsBack};
ghost use Rattle.library_example.specs.Left.{IsLeftOf};
ghost use Rattle.library_example.specs.Seats.{AllAreBack, AllRest};

use crate::errand::run_errand;
use crate::seats::{Seat, parted, seated};
use crate::trouble::Trouble;
use fsync_dir::FlushSite;
use mount::{Mounted, mount, unmount};
use sfs_dev::Disk;
use std::alloc::Global;
use std::sync::Wait;
use std::thread::{self, Threads};
use tree_laws::{History, Turns};

// How many threads there are at most: one for each core that a disk may have.
const MOST_THREADS: usize = 16;

/// What a visit leaves: what each worker read, and the disk, the history of all calls and the record of turns at the disk.
#[derive(Drop)]
pub struct Left<D> {
    pub read: Vec<Result<String, Trouble>>,
    pub disk: D,
    pub history: History,
    pub turns: Turns,
}

// Each worker runs its errand, in a thread of its own where one can be started.
fn run_all<R: Threads + Wait + Sync, D: Disk + Drop + Sync>(
    rt: &R,
    alloc: Global,
    site: &FlushSite<D>,
    seats: &mut [Seat<D>],
)
    requires site { ServesAt site.now.table.now site.now.set.now site.now.cores }
    requires rest { AllRest site.now.table.now site.now.set.now seats.old }
    ensures count { length seats.new ≡ length seats.old }
    ensures back { AllAreBack site.now.table.now site.now.set.now seats.old seats.new }
{
    thread::for_each_mut(
        rt,
        seats,
        MOST_THREADS,
        &|number, seat: &mut Seat<D>|
            requires { ServesAt site.now.table.now site.now.set.now site.now.cores
                × Rests site.now.table.now (AgreeAt site.now.table.now site.now.set.now) seat.now.worker }
            ensures { IsBack site.entry.now.table.now site.entry.now.set.now seat.entry.now.worker seat.exit.now.worker }
        { seat.read = Some(run_errand(rt, alloc, site, &mut seat.worker, number)) },
    );
}

/// Mounts a disk, in whose tree so many nodes may be made; has all workers run their errands; and unmounts it.
pub fn visit<R: Threads + Wait + Sync, D: Disk + Drop + Sync>(
    rt: &R,
    alloc: Global,
    disk: D,
    nodes: u32,
) -> Result<Left<D>, Trouble>
    requires { nodes ≤ 65536 }
    ensures { IfOk result (IsLeftOf D.view nodes disk) }
{
    let Mounted { volume, workers } = mount(alloc, disk, nodes)?;
    let mut seats = seated(alloc, workers)?;
    run_all(rt, alloc, &volume.site(), seats.as_mut_slice());
    let (workers, read) = parted(alloc, seats)?;
    let (disk, history, turns) = unmount(volume, workers);
    Ok(Left {
        read,
        disk,
        history,
        turns,
    })
}
