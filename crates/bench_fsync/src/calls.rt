// Calls of the workers of a mounted volume, one after another on one thread.
ghost use Rattle.tree_laws.specs.Step.{IsReadable};
ghost use Rattle.mount.specs.Volume.{IsVolume};
ghost use Rattle.mount.specs.Workers.{AreWorkers};
ghost use Rattle.bench_fsync.specs.Mounted.{IsMounted};

use disk_box::Pen;
use mount::{Mounted, Volume, make_call};
use sfs_base::{NoGate, NodeId};
use sfs_dev::Disk;
use std::alloc::Global;
use std::sync::Wait;
use tree_laws::{Call, Reply};
use workers::Worker;

// Makes a call of the worker at a place. None, where there is no such worker, or no memory.
fn call_at<R: Wait, D: Disk + Drop>(
    rt: &R,
    alloc: Global,
    volume: &Volume<D>,
    workers: &mut [Worker<Pen<D>>],
    place: usize,
    asked: Call,
) -> Option<Reply>
    requires volume { IsVolume volume.now }
    requires workers { AreWorkers volume.now workers.old }
    requires readable { IsReadable asked }
    ensures workers { AreWorkers volume.now workers.new }
{
    if workers.len() <= place {
        return None;
    }
    let site = volume.site();
    make_call(rt, alloc, &site, &mut workers[place], asked, &NoGate).ok()
}

/// Makes a call of the worker at a place. None, where there is no such worker, or no memory.
pub(crate) fn call<R: Wait, D: Disk + Drop>(
    rt: &R,
    alloc: Global,
    mounted: &mut Mounted<D>,
    place: usize,
    asked: Call,
) -> Option<Reply>
    requires mounted { IsMounted mounted.old }
    requires readable { IsReadable asked }
    ensures mounted { IsMounted mounted.new }
{
    call_at(
        rt,
        alloc,
        &mounted.volume,
        &mut mounted.workers,
        place,
        asked,
    )
}

/// Makes a call, and says whether the answer is Ok.
pub(crate) fn is_done<R: Wait, D: Disk + Drop>(
    rt: &R,
    alloc: Global,
    mounted: &mut Mounted<D>,
    place: usize,
    asked: Call,
) -> bool
    requires mounted { IsMounted mounted.old }
    requires readable { IsReadable asked }
    ensures mounted { IsMounted mounted.new }
{
    matches!(call(rt, alloc, mounted, place, asked), Some(Reply::Ok))
}

/// Makes a call, and says which node is the answer.
pub(crate) fn node_of<R: Wait, D: Disk + Drop>(
    rt: &R,
    alloc: Global,
    mounted: &mut Mounted<D>,
    place: usize,
    asked: Call,
) -> Option<NodeId>
    requires mounted { IsMounted mounted.old }
    requires readable { IsReadable asked }
    ensures mounted { IsMounted mounted.new }
{
    match call(rt, alloc, mounted, place, asked) {
        Some(Reply::Node { node, kind: _ }) => Some(node),
        _ => None,
    }
}
