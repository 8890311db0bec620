// Fsyncs that reach no disk, for tests.
ghost use Rattle.std.specs.Prelude.{◌≡◌, ℕ, ◌<◌, ◌≤◌, All, Option, Some, length, is_err};
ghost use Rattle.script.specs.Ready.{LinesMayRun};
ghost use Rattle.stamp_table.specs.Table.{GivesAnswer, IsBetweenCalls};
ghost use Rattle.fsync_stamp.specs.Stamping.{AnswersFsync};
ghost use Rattle.workers.specs.Keeping.{agree_always};
ghost use Rattle.workers.specs.Works.{Rests, WorksEach, any_refused};

use crate::flush_by::{Agreement, FlushBy};
use crate::{Worker, drive};
use fsync_stamp::stamp_fsync;
use mem_calls::TreeTable;
use mem_values::FileCore;
use script::Phase;
use sfs_base::{Gate, NoMemory, NodeId, Stamp};
use std::alloc::Global;
use std::marker::PhantomData;
use std::sync::Wait;
use std::thread::Threads;
use tree_laws::{Code, Reply};

/// What a core and a pen without meaning agree in: nothing.
pub struct AgreeAlways;

impl<S, P> Agreement<S, P> for AgreeAlways {
    ghost agrees = { λ set core pen. Unit {0} };

    ghost kept = { λ set before after pen keeps agree. tt };
}

/// How fsyncs are answered that reach no disk: Ok, at the moment 0, or want of memory.
#[derive(Clone, Copy)]
pub enum Plainly {
    Acknowledges,
    Refuses,
}

// Answers an fsync that waits.
fn answer_plainly(core: &mut FileCore, stamp: Stamp, plainly: Plainly) -> Reply
    requires { core.old.waiting ≡ Some stamp.0 }
    ensures { (ack : Option ℕ) × GivesAnswer stamp.0 result ack core.old core.new }
{
    match plainly {
        Plainly::Acknowledges => {
            core.answer(stamp, Reply::Ok, Some(0));
            Reply::Ok
        }
        Plainly::Refuses => {
            core.answer(stamp, Reply::NoMemory, None);
            Reply::NoMemory
        }
    }
}

/// Stamps the fsync of a node and answers it. It may wait.
pub fn serve_plainly<R: Wait, G: Gate>(
    rt: &R,
    alloc: Global,
    table: &TreeTable,
    core: &mut FileCore,
    node: NodeId,
    plainly: Plainly,
    gate: &G,
) -> Reply
    requires core { IsBetweenCalls table.now core.old }
    requires spare { 0 < core.old.spare }
    requires room { 3 ≤ core.old.room }
    ensures { AnswersFsync table.now node result core.old core.new }
{
    match stamp_fsync(rt, alloc, table, core, node, gate) {
        Some(stamp) => answer_plainly(core, stamp, plainly),
        None => Reply::Error {
            code: Code::NoEntry,
        },
    }
}

/// Runs a phase over no disk.
pub fn drive_plainly<R: Threads + Wait + Sync, G: Gate>(
    rt: &R,
    alloc: Global,
    table: &TreeTable,
    workers: &mut [Worker<()>],
    phase: &Phase,
    plainly: Plainly,
    gate: &G,
) -> Result<(), NoMemory>
    requires rest { All (Rests table.now agree_always) workers.old }
    requires ready { LinesMayRun phase.now }
    ensures count { length workers.new ≡ length workers.old }
    ensures rest { All (Rests table.now agree_always) workers.new }
    ensures each { (from : ℕ) × WorksEach table.now agree_always phase.now from workers.old workers.new }
    ensures refused { is_err result ≡ any_refused workers.new }
{
    let serve = |core: &mut FileCore, _pen: &mut (), node: NodeId| -> Reply
        requires { IsBetweenCalls table.now core.now × (0 < core.now.spare) × (3 ≤ core.now.room) }
        ensures { AnswersFsync table.entry.now node result core.entry.now core.exit.now }
    { serve_plainly(rt, alloc, table, core, node, plainly, gate) };
    let flush: FlushBy<(), (), AgreeAlways, _> = FlushBy {
        files: table,
        set: &(),
        serve,
        kinds: PhantomData,
    };
    drive(rt, alloc, table, workers, phase, &flush, gate)
}
