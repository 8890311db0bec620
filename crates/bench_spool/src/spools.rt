// A spool is run on a mounted volume.
ghost use Rattle.std.specs.Prelude.{◌≡◌, IfSome, length};
ghost use Rattle.std.specs.List.{AllByRecursion};
ghost use Rattle.script.specs.Ready.{LinesMayRun};
ghost use Rattle.mount.specs.Volume.{IsVolume};
ghost use Rattle.mount.specs.Workers.{AreWorkers};

use crate::asked::Asked;
use disk_box::Pen;
use fmt_super::Layout;
use mount::{Mounted, Volume, mount, run_phase, unmount};
use recovery::mkfs;
use script::{Phase, Script, read};
use sfs_base::NoGate;
use sfs_dev::Disk;
use std::alloc::Global;
use std::io;
use std::rt::Clock;
use std::sync::Wait;
use std::thread::Threads;
use std::time::Instant;
use tree_laws::{Call, History};
use workers::Worker;

/// How many blocks the image has.
pub const IMAGE_BLOCKS: u32 = 16_384;

// How many inodes it has.
const IMAGE_INODES: u32 = 4096;

// How many new nodes may be made on the mounted volume.
const NODES: u32 = 65_536;

/// What a spool left: its disk; how many calls were made, how many of these were fsyncs, and how many of the fsyncs were acknowledged; and how many
/// microseconds the phase took in which messages are delivered.
#[derive(Drop)]
pub struct Ran<D> {
    pub disk: D,
    pub calls: u64,
    pub fsyncs: u64,
    pub acknowledged: u64,
    pub micros: u128,
}

// Makes an image with a core for each worker and so many journal slots a core, and mounts it. None, where either is refused.
fn mounted_on<D: Disk + Drop>(
    alloc: Global,
    asked: &Asked,
    slots: u32,
    disk: D,
) -> Option<Mounted<D>>
    ensures volume { IfSome result (λ made. IsVolume made.volume) }
    ensures workers { IfSome result (λ made. AreWorkers made.volume made.workers.items) }
{
    let layout = Layout {
        blocks: IMAGE_BLOCKS,
        inodes: IMAGE_INODES,
        cores: asked.workers,
        slots,
    };
    let mut disk = disk;
    if layout.is_valid(disk.len()) && mkfs(alloc, &mut disk, &layout).is_ok() {
        mount(alloc, disk, NODES).ok()
    } else {
        None
    }
}

// The phases of a script.
fn phases_in(alloc: Global, text: &String) -> Option<Script>
    ensures { IfSome result (AllByRecursion LinesMayRun) }
{
    match read(alloc, text.as_bytes()) {
        Ok(script) => Some(script),
        Err(_) => None,
    }
}

// Runs phases on a volume, and answers how many microseconds the last one took; none, where a worker was refused memory.
fn timed<R: Threads + Wait + Sync + Clock, D: Disk + Drop + Sync>(
    rt: &R,
    alloc: Global,
    volume: &Volume<D>,
    workers: &mut [Worker<Pen<D>>],
    phases: &[Phase],
) -> io::Result<Option<u128>>
    requires volume { IsVolume volume.now }
    requires workers { AreWorkers volume.now workers.old }
    requires ready { AllByRecursion LinesMayRun phases.now }
    ensures count { length workers.new ≡ length workers.old }
    ensures workers { AreWorkers volume.now workers.new }
{
    let mut passed = 0;
    for phase in phases {
        let start = Instant::now(rt)?;
        if run_phase(rt, alloc, volume, workers, phase, &NoGate).is_err() {
            return Ok(None);
        }
        passed = start.elapsed(rt)?.as_micros();
    }
    Ok(Some(passed))
}

/// Makes an image with a core for each worker and so many journal slots a core on a disk, mounts it, runs the script on it and unmounts it. None, where
/// memory was refused, or no image could be made and mounted.
pub fn deliver<R: Threads + Wait + Sync + Clock, D: Disk + Drop + Sync>(
    rt: &R,
    alloc: Global,
    asked: &Asked,
    slots: u32,
    text: &String,
    disk: D,
) -> io::Result<Option<Ran<D>>> {
    let Some(script) = phases_in(alloc, text) else {
        return Ok(None);
    };
    let Some(
        Mounted {
            volume,
            mut workers,
        },
    ) = mounted_on(alloc, asked, slots, disk)
    else {
        return Ok(None);
    };
    let passed = timed(rt, alloc, &volume, workers.as_mut_slice(), script.phases());
    let (disk, history, _) = unmount(volume, workers);
    match passed? {
        Some(micros) => Ok(Some(counted(disk, &history, micros))),
        None => Ok(None),
    }
}

// What a history comes to.
fn counted<D>(disk: D, history: &History, micros: u128) -> Ran<D> {
    let mut ran = Ran {
        disk,
        calls: history.len(),
        fsyncs: 0,
        acknowledged: 0,
        micros,
    };
    let mut cursor = history.first();
    for _ in 0..history.len() {
        if let Some(entry) = history.next(&mut cursor)
            && let Call::Fsync { node: _ } = &entry.call
        {
            ran.fsyncs = ran.fsyncs.saturating_add(1);
            ran.acknowledged = ran
                .acknowledged
                .saturating_add(u64::from(entry.ack.is_some()));
        }
    }
    ran
}
