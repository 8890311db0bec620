// A volume is unmounted.
ghost use Rattle.std.specs.Prelude.{◌≡◌, ◌≤◌, [], length, map};
ghost use Rattle.std.specs.Vec.{vec_capacity};
ghost use Rattle.mount.specs.Ends.{LeavesVolume};
ghost use Rattle.mount.specs.Survives.{VolumeSurvives};
ghost use Rattle.mount.specs.Volume.{HasRoomForWorkers, IsVolume};
ghost use Rattle.mount.specs.Workers.{AreWorkers, core_of, pen_of};

use crate::volume::{Room, Volume};
use disk_box::Pen;
use sfs_dev::Disk;
use tree_laws::{History, Turns};
use workers::Worker;

// The cores and the pens of workers, in room that there is for them.
fn part<D: Disk + Drop>(room: Room<D>, workers: Vec<Worker<Pen<D>>>) -> Room<D>
    requires { HasRoomForWorkers (length workers.items) room }
    ensures cores { result.cores.items ≡ map core_of workers.items }
    ensures pens { result.pens.items ≡ map pen_of workers.items }
{
    let mut room = room;
    for worker in workers {
        let Worker { core, pen, .. } = worker;
        room.cores.push_reserved(core);
        room.pens.push_reserved(pen);
    }
    room
}

/// Unmounts a volume, and answers its disk, the history of all calls, and the record of turns at the disk. Slots that are open stay open, and the next mount takes
/// them in. It takes all workers of the volume, ascending by number, and no memory.
pub fn unmount<D: Disk + Drop>(
    volume: Volume<D>,
    workers: Vec<Worker<Pen<D>>>,
) -> (D, History, Turns)
    requires volume { IsVolume volume }
    requires workers { AreWorkers volume workers.items }
    ensures leaves { LeavesVolume D.view volume workers.items result.0 result.1 result.2.items }
    ensures survives { VolumeSurvives D.view volume result.0 result.1 result.2.items }
{
    let Volume {
        table,
        set,
        room,
        ..
    } = volume;
    let Room { cores, pens } = part(room, workers);
    let (history, _) = table.into_shared().close(cores);
    let (disk, turns) = set.close(pens);
    (disk, history, turns)
}
