// Calls of one worker of a volume, each by itself and with ample memory.
ghost use Rattle.tree_laws.specs.Step.{IsReadable};
ghost use Rattle.workers.specs.Works.{Rests};
ghost use Rattle.mount.specs.Serving.{ServesAt};
ghost use Rattle.mount.specs.Volume.{IsVolume};
ghost use Rattle.mount.specs.Workers.{AgreeAt, AreWorkers};

use crate::helpers::{got, holds};
use crate::runs::image;
use disk_box::Pen;
use fmt_super::Layout;
use fsync_dir::FlushSite;
use mount::{Mounted, Volume, make_call, mount};
use sfs_base::{Chunk, Kind, Name, NoGate, NodeId};
use sfs_dev::Memory;
use std::alloc::Global;
use std::process::Abort;
use std::sync::Wait;
use tree_laws::{Call, Reply};
use workers::Worker;

pub(crate) const LAYOUT: Layout = Layout {
    blocks: 128,
    inodes: 64,
    cores: 2,
    slots: 1,
};

// Makes a call, and asserts its answer.
pub(crate) fn assert_answered<R: Wait + Abort>(
    rt: &R,
    alloc: Global,
    site: &FlushSite<Memory>,
    worker: &mut Worker<Pen<Memory>>,
    asked: Call,
    due: &Reply,
)
    requires site { ServesAt site.now.table.now site.now.set.now site.now.cores }
    requires rest { Rests site.now.table.now (AgreeAt site.now.table.now site.now.set.now) worker.old }
    requires readable { IsReadable asked }
    ensures { Rests site.now.table.now (AgreeAt site.now.table.now site.now.set.now) worker.new }
{
    let is = got(rt, make_call(rt, alloc, site, worker, asked, &NoGate));
    holds(rt, is.equals(due));
}

// A name.
pub(crate) fn name(rt: &impl Abort, alloc: Global, text: &str) -> Name {
    got(rt, Name::new(alloc, text.as_bytes()))
}

// Some bytes.
pub(crate) fn chunk(rt: &impl Abort, alloc: Global) -> Chunk {
    got(
        rt,
        Chunk::new(got(rt, Vec::from_slice(alloc, b"hi".as_slice()))),
    )
}

const HOME: NodeId = NodeId(64);

const NOTE: NodeId = NodeId(65);

// Makes a directory and a file in it, writes it, flushes it and reads it, and asserts each answer.
fn assert_errand<R: Wait + Abort>(
    rt: &R,
    alloc: Global,
    site: &FlushSite<Memory>,
    worker: &mut Worker<Pen<Memory>>,
)
    requires site { ServesAt site.now.table.now site.now.set.now site.now.cores }
    requires rest { Rests site.now.table.now (AgreeAt site.now.table.now site.now.set.now) worker.old }
{
    let asked = Call::Make {
        dir: NodeId(0),
        name: name(rt, alloc, "home"),
        kind: Kind::Directory,
    };
    let due = Reply::Node {
        node: HOME,
        kind: Kind::Directory,
    };
    assert_answered(rt, alloc, site, worker, asked, &due);
    let asked = Call::Make {
        dir: HOME,
        name: name(rt, alloc, "note"),
        kind: Kind::File,
    };
    let due = Reply::Node {
        node: NOTE,
        kind: Kind::File,
    };
    assert_answered(rt, alloc, site, worker, asked, &due);
    let asked = Call::Write {
        file: NOTE,
        at: 0,
        bytes: chunk(rt, alloc),
    };
    assert_answered(rt, alloc, site, worker, asked, &Reply::Ok);
    let asked = Call::Fsync { node: NOTE };
    assert_answered(rt, alloc, site, worker, asked, &Reply::Ok);
    let asked = Call::Read {
        file: NOTE,
        at: 0,
        count: 100,
    };
    let due = Reply::Bytes {
        bytes: chunk(rt, alloc),
    };
    assert_answered(rt, alloc, site, worker, asked, &due);
}

// Has the first of the two workers of a volume make these calls.
fn assert_called<R: Wait + Abort>(
    rt: &R,
    alloc: Global,
    volume: &Volume<Memory>,
    workers: &mut [Worker<Pen<Memory>>],
)
    requires volume { IsVolume volume.now }
    requires workers { AreWorkers volume.now workers.old }
{
    holds(rt, workers.len() == 2);
    let site = volume.site();
    assert_errand(rt, alloc, &site, &mut workers[0]);
}

#[test]
fn a_worker_makes_calls_by_themselves(rt: HostRuntime) {
    let alloc = rt.alloc();
    let disk = image(&rt, alloc, LAYOUT);
    let Mounted {
        volume,
        mut workers,
    } = got(&rt, mount(alloc, disk, 64));
    assert_called(&rt, alloc, &volume, workers.as_mut_slice());
}
