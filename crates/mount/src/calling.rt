// A call of a worker of a volume, by itself.
ghost use Rattle.tree_laws.specs.Step.{IsReadable};
ghost use Rattle.stamp_table.specs.Table.{IsSameCore};
ghost use Rattle.workers.specs.Keeping.{AddsOrRefused};
ghost use Rattle.workers.specs.Serving.{HasServed, MayServe};
ghost use Rattle.workers.specs.Works.{Rests};
ghost use Rattle.mount.specs.Serving.{ServesAt};
ghost use Rattle.mount.specs.Workers.{AgreeAt};

use crate::flushing::{PairAgreement, serve};
use disk_box::Pen;
use fsync_dir::FlushSite;
use mem_values::FileCore;
use sfs_base::{Gate, NoMemory, NodeId};
use sfs_dev::Disk;
use std::alloc::Global;
use std::marker::PhantomData;
use std::sync::Wait;
use tree_laws::{Call, Reply};
use workers::{FlushBy, Worker, call_worker};

/// Makes a call of a worker that rests, of whatever kind, and answers its reply; an fsync reaches the disk. Where it is refused memory before a stamp the
/// worker has made none. The worker rests behind it.
pub fn make_call<R: Wait, D: Disk + Drop, G: Gate>(
    rt: &R,
    alloc: Global,
    site: &FlushSite<D>,
    worker: &mut Worker<Pen<D>>,
    asked: Call,
    gate: &G,
) -> Result<Reply, NoMemory>
    requires site { ServesAt site.now.table.now site.now.set.now site.now.cores }
    requires rest { Rests site.now.table.now (AgreeAt site.now.table.now site.now.set.now) worker.old }
    requires readable { IsReadable asked }
    ensures made { AddsOrRefused asked worker.old.core worker.new.core result }
    ensures rest { Rests site.now.table.now (AgreeAt site.now.table.now site.now.set.now) worker.new }
    ensures same { IsSameCore worker.old.core worker.new.core }
{
    let serve_one = |core: &mut FileCore, pen: &mut Pen<D>, node: NodeId| -> Reply
        requires { ServesAt site.now.table.now site.now.set.now site.now.cores × MayServe site.now.table.now (AgreeAt site.now.table.now site.now.set.now)
            core.now pen.now }
        ensures { HasServed site.entry.now.table.now (AgreeAt site.entry.now.table.now site.entry.now.set.now) node result core.entry.now core.exit.now
            pen.exit.now }
    { serve(rt, alloc, site, core, pen, node, gate) };
    let by: FlushBy<FlushSite<D>, Pen<D>, PairAgreement<D>, _> = FlushBy {
        files: site.table,
        set: site,
        serve: serve_one,
        kinds: PhantomData,
    };
    call_worker(rt, alloc, site.table, worker, asked, &by, gate)
}
