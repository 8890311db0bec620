// A file's fsync by the call for files of which their core has seen an inode, with ample memory.
ghost use Rattle.stamp_table.specs.Table.{IsBetweenCalls};
ghost use Rattle.journal_set.specs.Ready.{IsReady};
ghost use Rattle.fsync_dir.specs.Site.{ToldAsReserved};
ghost use Rattle.workers.specs.Works.{Rests};
ghost use Rattle.mount.specs.Serving.{ServesAt};
ghost use Rattle.mount.specs.Volume.{IsVolume};
ghost use Rattle.mount.specs.Workers.{AgreeAt, AreWorkers};

use crate::called::{LAYOUT, assert_answered, chunk, name};
use crate::helpers::{got, holds};
use crate::runs::image;
use disk_box::Pen;
use fsync_dir::FlushSite;
use fsync_stamp::STAMP_CELLS;
use mem_values::{FileCore, has_inode};
use mount::{Mounted, Volume, mount};
use sfs_base::{Kind, NoGate, NodeId};
use sfs_dev::Memory;
use std::alloc::Global;
use std::process::Abort;
use std::sync::Wait;
use tree_laws::{Call, Reply};
use workers::Worker;

const NOTE: NodeId = NodeId(64);

// The answer to the fsync of a file, where its core finds that it has an inode.
fn flushed_alone<R: Wait>(
    rt: &R,
    alloc: Global,
    site: &FlushSite<Memory>,
    core: &mut FileCore,
    pen: &mut Pen<Memory>,
    node: NodeId,
) -> Option<Reply>
    requires site { ServesAt site.now.table.now site.now.set.now site.now.cores }
    requires between { IsBetweenCalls site.now.table.now core.old }
    requires ready { IsReady site.now.set.now pen.old }
    requires agree { ToldAsReserved core.old pen.old }
{
    core.reserve(1, STAMP_CELLS).ok()?;
    let nodes = site.table.nodes();
    if node.0 < nodes && has_inode(rt, site.table.shared(), core, nodes, node) {
        Some(fsync_file::flush(rt, alloc, site, core, pen, node, &NoGate))
    } else {
        None
    }
}

// Makes a file, writes it and flushes it, and flushes what is written to it then by the core's having seen its inode.
fn assert_flushed_alone<R: Wait + Abort>(
    rt: &R,
    alloc: Global,
    site: &FlushSite<Memory>,
    worker: &mut Worker<Pen<Memory>>,
)
    requires site { ServesAt site.now.table.now site.now.set.now site.now.cores }
    requires rest { Rests site.now.table.now (AgreeAt site.now.table.now site.now.set.now) worker.old }
{
    let asked = Call::Make {
        dir: NodeId(0),
        name: name(rt, alloc, "note"),
        kind: Kind::File,
    };
    let due = Reply::Node {
        node: NOTE,
        kind: Kind::File,
    };
    assert_answered(rt, alloc, site, worker, asked, &due);
    let asked = Call::Fsync { node: NOTE };
    assert_answered(rt, alloc, site, worker, asked, &Reply::Ok);
    let asked = Call::Write {
        file: NOTE,
        at: 0,
        bytes: chunk(rt, alloc),
    };
    assert_answered(rt, alloc, site, worker, asked, &Reply::Ok);
    let is = flushed_alone(rt, alloc, site, &mut worker.core, &mut worker.pen, NOTE);
    holds(rt, matches!(is, Some(Reply::Ok)));
}

// Has the first of the two workers of a volume do so.
fn assert_volume<R: Wait + Abort>(
    rt: &R,
    alloc: Global,
    volume: &Volume<Memory>,
    workers: &mut [Worker<Pen<Memory>>],
)
    requires volume { IsVolume volume.now }
    requires workers { AreWorkers volume.now workers.old }
{
    holds(rt, workers.len() == 2);
    let site = volume.site();
    assert_flushed_alone(rt, alloc, &site, &mut workers[0]);
}

#[test]
fn a_file_is_flushed_by_an_inode_that_its_core_saw(rt: HostRuntime) {
    let alloc = rt.alloc();
    let disk = image(&rt, alloc, LAYOUT);
    let Mounted {
        volume,
        mut workers,
    } = got(&rt, mount(alloc, disk, 64));
    assert_volume(&rt, alloc, &volume, workers.as_mut_slice());
}
