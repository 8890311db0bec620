// A volume is mounted.
ghost use Rattle.std.specs.Prelude.{◌≡◌, ◌<◌, ◌≤◌, [], IfErr, IfOk, length};
ghost use Rattle.std.specs.Vec.{vec_capacity};
ghost use Rattle.sfs_image.specs.Super.{InRange};
ghost use Rattle.tree_laws.specs.Laws.{IsSoundTree};
ghost use Rattle.tree_laws.specs.Sound.{IsWithinLimits};
ghost use Rattle.mem_begin.specs.Beginning.{CanBeginTable};
ghost use Rattle.mem_calls.specs.Table.{AreNumbersOf};
ghost use Rattle.mem_values.specs.Places.{node_count};
ghost use Rattle.volume_laws.specs.Mounting.{WasMounted};
ghost use Rattle.recovery.specs.declared.fault.RecoverFault.TheVariants as RecoverFault;
ghost use Rattle.mount.specs.Begun.{IsTableOver, numbers_for};
ghost use Rattle.mount.specs.Volume.{HasRoomForWorkers, IsMountOfDisk, IsRefusedMount, IsVolume};
ghost use Rattle.mount.specs.Workers.{AreWorkers, HaveMadeNothing, workers_begun};

use crate::volume::{Mounted, Room, Volume};
use disk_box::Pen;
use disk_nodes::OldDisk;
use fmt_super::Layout;
use journal_set::{JournalSet, NewFault};
use mem_begin::make;
use mem_calls::{Numbers, TreeTable};
use mem_values::FileCore;
use mount_begin::Mounted as Begun;
use recovery::RecoverFault;
use sfs_base::NoMemory;
use sfs_dev::Disk;
use sfs_tree::Tree;
use std::alloc::Global;
use workers::Worker;

/// Why a disk was not mounted, and the disk.
#[derive(Drop)]
pub struct MountFault<D> {
    pub fault: RecoverFault,
    pub disk: D,
}

// The workers of cores with their pens, of which there are as many, in a list with room for them.
fn pair_up<D: Disk + Drop>(
    cores: Vec<FileCore>,
    pens: Vec<Pen<D>>,
    workers: Vec<Worker<Pen<D>>>,
) -> Vec<Worker<Pen<D>>>
    requires count { length pens.items ≡ length cores.items }
    requires none { workers.items ≡ [] }
    requires room { length cores.items ≤ vec_capacity workers }
    ensures { result.items ≡ workers_begun cores.items pens.items }
{
    let mut workers = workers;
    let mut pens = pens.into_iter();
    for core in cores {
        let Some(pen) = pens.next() else {
            unreachable!()
        };
        workers.push_reserved(Worker {
            core,
            pen,
            refused: false,
            until: 0,
        });
    }
    workers
}

// Room for so many cores and pens, and for their workers.
fn room_for<D: Disk + Drop>(
    alloc: Global,
    cores: usize,
) -> Result<(Room<D>, Vec<Worker<Pen<D>>>), NoMemory>
    ensures room { IfOk result (λ made. HasRoomForWorkers cores made.0) }
    ensures none { IfOk result (λ made. made.1.items ≡ []) }
    ensures workers { IfOk result (λ made. cores ≤ vec_capacity made.1) }
{
    let room = Room {
        cores: Vec::with_capacity(alloc, cores)?,
        pens: Vec::with_capacity(alloc, cores)?,
    };
    Ok((room, Vec::with_capacity(alloc, cores)?))
}

// By what the cores of a volume with this layout number new nodes, where so many are shared among them.
fn numbers_of(layout: &Layout, nodes: u32) -> Numbers
    requires layout { InRange layout.now }
    ensures { result ≡ numbers_for layout.now nodes }
{
    Numbers {
        first: layout.inodes,
        share: nodes / layout.cores,
    }
}

// What a volume is made of before its journals: its table with its cores, and room.
#[derive(Drop)]
struct Tabled<D: Disk> {
    table: TreeTable,
    cores: Vec<FileCore>,
    room: Room<D>,
    workers: Vec<Worker<Pen<D>>>,
}

// That over a tree whose cores number new nodes by these.
fn table_over<D: Disk + Drop>(
    alloc: Global,
    tree: &Tree,
    old: OldDisk,
    numbers: Numbers,
    cores: u8,
) -> Result<Tabled<D>, NoMemory>
    requires begins { CanBeginTable tree.now }
    requires sound { IsSoundTree tree.now × IsWithinLimits tree.now }
    requires numbers { AreNumbersOf tree.now numbers }
    requires cores { (0 < cores) × (cores ≡ length tree.now.made) }
    requires few { node_count tree.now ≤ 131072 }
    ensures table { IfOk result (IsTableOver tree.now old cores) }
    ensures room { IfOk result (λ made. HasRoomForWorkers cores made.room) }
    ensures workers { IfOk result (λ made. (made.workers.items ≡ []) × (cores ≤ vec_capacity made.workers)) }
{
    let nodes = numbers.first + numbers.share * cores as u32;
    let (shared, hands) = make(alloc, tree, old, nodes, cores)?;
    let (room, workers) = room_for(alloc, cores as usize)?;
    Ok(Tabled {
        table: TreeTable::new(shared, nodes, numbers),
        cores: hands,
        room,
        workers,
    })
}

/// Begins a volume over a disk that was mounted with so many new nodes, at most 65,536. It is refused for want of memory alone, and then the disk is handed back as
/// it is.
pub fn begin<D: Disk + Drop>(
    alloc: Global,
    disk: D,
    begun: Begun,
    nodes: u32,
) -> Result<Mounted<D>, MountFault<D>>
    requires most { nodes ≤ 65536 }
    requires was { (old : D) × WasMounted nodes begun (D.view old) (D.view disk) }
    ensures volume { IfOk result (λ made. IsVolume made.volume) }
    ensures mounts { IfOk result (λ made. (old : D) → WasMounted nodes begun (D.view old) (D.view disk) → IsMountOfDisk D.view nodes old made.volume) }
    ensures first { IfOk result (λ made. made.volume.table.first ≡ begun.tree) }
    ensures workers { IfOk result (λ made. AreWorkers made.volume made.workers.items) }
    ensures new { IfOk result (λ made. HaveMadeNothing made.workers.items) }
    ensures cores { IfOk result (λ made. made.volume.cores ≡ begun.layout.cores) }
    ensures refused { IfErr result (λ fault. (fault.fault ≡ RecoverFault.NoMemory) × (fault.disk ≡ disk)) }
{
    let Begun {
        layout,
        tree,
        old,
        space,
    } = begun;
    let numbers = numbers_of(&layout, nodes);
    let cores = layout.cores as u8;
    let Ok(tabled) = table_over(alloc, &tree, old, numbers, cores) else {
        return Err(MountFault {
            fault: RecoverFault::NoMemory,
            disk,
        });
    };
    let (set, pens) = match JournalSet::new(alloc, disk, layout, space) {
        Ok(made) => made,
        Err(NewFault { disk }) => {
            return Err(MountFault {
                fault: RecoverFault::NoMemory,
                disk,
            });
        }
    };
    let Tabled {
        table,
        cores: hands,
        room,
        workers,
    } = tabled;
    Ok(Mounted {
        workers: pair_up(hands, pens, workers),
        volume: Volume {
            table,
            set,
            cores,
            room,
        },
    })
}

/// Mounts a disk, in whose tree `nodes` new nodes may be made, at most 65,536, shared among the cores, each as many, rounded down: it recovers the disk and puts
/// its tree on a table, with a worker for each core of the image. It refuses what `recover` refuses, and want of memory; then the disk is handed back as that leaves
/// it.
pub fn mount<D: Disk + Drop>(
    alloc: Global,
    disk: D,
    nodes: u32,
) -> Result<Mounted<D>, MountFault<D>>
    requires most { nodes ≤ 65536 }
    ensures volume { IfOk result (λ made. IsVolume made.volume) }
    ensures mounts { IfOk result (λ made. IsMountOfDisk D.view nodes disk made.volume) }
    ensures workers { IfOk result (λ made. AreWorkers made.volume made.workers.items) }
    ensures new { IfOk result (λ made. HaveMadeNothing made.workers.items) }
    ensures refused { IfErr result (IsRefusedMount D.view disk) }
{
    let mut disk = disk;
    match mount_begin::mount(alloc, &mut disk, nodes) {
        Ok(begun) => begin(alloc, disk, begun, nodes),
        Err(fault) => Err(MountFault { fault, disk }),
    }
}
