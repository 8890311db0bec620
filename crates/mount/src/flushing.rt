// An fsync of a core of a volume reaches its disk.
ghost use Rattle.std.specs.Prelude.{◌≡◌, ℕ, All, length, is_err};
ghost use Rattle.script.specs.Ready.{LinesMayRun};
ghost use Rattle.workers.specs.Serving.{HasServed, MayServe};
ghost use Rattle.workers.specs.Works.{Rests, WorksEach, any_refused};
ghost use Rattle.mount.specs.Keeping.{pairs_kept};
ghost use Rattle.mount.specs.Serving.{ServesAt};
ghost use Rattle.mount.specs.Volume.{IsVolume};
ghost use Rattle.mount.specs.Workers.{AgreeAt, AreWorkers, PairAgrees};

use crate::volume::Volume;
use disk_box::Pen;
use fsync_dir::{FlushSite, flush};
use mem_values::FileCore;
use script::Phase;
use sfs_base::{Gate, NoMemory, NodeId};
use sfs_dev::Disk;
use std::alloc::Global;
use std::marker::PhantomData;
use std::sync::Wait;
use std::thread::Threads;
use tree_laws::Reply;
use workers::{Agreement, FlushBy, Worker, drive};

/// What a core of a volume and its pen agree on, by where its fsyncs are served.
pub struct PairAgreement<D> {
    disk: PhantomData<D>,
}

impl<'a, D: Disk + Drop> Agreement<FlushSite<'a, D>, Pen<D>> for PairAgreement<D> {
    ghost agrees = { λ site core pen. AgreeAt site.table.now site.set.now core pen };

    ghost kept = { λ site before after pen keeps agree. pairs_kept site.table.now site.set.now before after pen keeps agree };
}

/// Serves an fsync of a core at a table and journals, and answers it as `flush` does.
pub fn serve<R: Wait, D: Disk + Drop, G: Gate>(
    rt: &R,
    alloc: Global,
    site: &FlushSite<D>,
    core: &mut FileCore,
    pen: &mut Pen<D>,
    node: NodeId,
    gate: &G,
) -> Reply
    requires site { ServesAt site.now.table.now site.now.set.now site.now.cores }
    requires may { MayServe site.now.table.now (AgreeAt site.now.table.now site.now.set.now) core.old pen.old }
    ensures { HasServed site.now.table.now (AgreeAt site.now.table.now site.now.set.now) node result core.old core.new pen.new }
{
    flush(rt, alloc, site, core, pen, node, gate)
}

// Runs a phase at a table and journals, where each worker's core and pen agree.
fn run_at<R: Threads + Wait + Sync, D: Disk + Drop + Sync, G: Gate>(
    rt: &R,
    alloc: Global,
    site: &FlushSite<D>,
    workers: &mut [Worker<Pen<D>>],
    phase: &Phase,
    gate: &G,
) -> Result<(), NoMemory>
    requires site { ServesAt site.now.table.now site.now.set.now site.now.cores }
    requires rest { All (Rests site.now.table.now (AgreeAt site.now.table.now site.now.set.now)) workers.old }
    requires ready { LinesMayRun phase.now }
    ensures count { length workers.new ≡ length workers.old }
    ensures each { (from : ℕ) × WorksEach site.now.table.now (AgreeAt site.now.table.now site.now.set.now) phase.now from workers.old workers.new }
    ensures refused { is_err result ≡ any_refused workers.new }
{
    let serve_one = |core: &mut FileCore, pen: &mut Pen<D>, node: NodeId| -> Reply
        requires { ServesAt site.now.table.now site.now.set.now site.now.cores × MayServe site.now.table.now (AgreeAt site.now.table.now site.now.set.now)
            core.now pen.now }
        ensures { HasServed site.entry.now.table.now (AgreeAt site.entry.now.table.now site.entry.now.set.now) node result core.entry.now core.exit.now
            pen.exit.now }
    { serve(rt, alloc, site, core, pen, node, gate) };
    let by: FlushBy<FlushSite<D>, Pen<D>, PairAgreement<D>, _> = FlushBy {
        files: site.table,
        set: site,
        serve: serve_one,
        kinds: PhantomData,
    };
    drive(rt, alloc, site.table, workers, phase, &by, gate)
}

/// Runs a phase on a volume: each worker its own commands, in a thread of its own where one can be started. A worker that is refused memory before a
/// stamp ends alone; then the answer is want of memory.
pub fn run_phase<R: Threads + Wait + Sync, D: Disk + Drop + Sync, G: Gate>(
    rt: &R,
    alloc: Global,
    volume: &Volume<D>,
    workers: &mut [Worker<Pen<D>>],
    phase: &Phase,
    gate: &G,
) -> Result<(), NoMemory>
    requires volume { IsVolume volume.now }
    requires workers { AreWorkers volume.now workers.old }
    requires ready { LinesMayRun phase.now }
    ensures count { length workers.new ≡ length workers.old }
    ensures workers { AreWorkers volume.now workers.new }
    ensures each { (from : ℕ) × WorksEach volume.now.table (PairAgrees volume.now) phase.now from workers.old workers.new }
    ensures refused { is_err result ≡ any_refused workers.new }
{
    let site = volume.site();
    run_at(rt, alloc, &site, workers, phase, gate)
}
