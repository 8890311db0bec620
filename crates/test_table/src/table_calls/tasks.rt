// What cores do on a table side by side, each in a thread of its own.
ghost use Rattle.std.specs.Prelude.{◌≡◌, ◌+◌, ◌*◌, ◌<◌, ◌≤◌, ℕ, All, length, slice_index_or};
ghost use Rattle.stamp_table.specs.Table.{IsBetweenCalls, IsSameCore};
ghost use Rattle.begun_tables.specs.Begun.{BeginsTable};

use crate::table_calls::ask;
use crate::table_calls::begun::{FIRST, SHARE};
use crate::table_calls::beside::{Meeting, call_as_due};
use crate::table_calls::crossing::cross_often;
use crate::table_calls::drawn::Draw;
use crate::table_calls::loops::{Pace, move_often};
use begun_tables::begun;
use mem_calls::TreeTable;
use mem_values::FileCore;
use sfs_base::{NoGate, NoMemory};
use sfs_tree::Tree;
use std::alloc::Global;
use std::sync::Wait;
use std::thread;
use std::thread::Threads;
use tree_laws::History;

// What each core does.
#[derive(Drop)]
pub(crate) enum Task<'a> {
    // It draws so many calls and makes them.
    Draws { count: u32 },
    // It moves its directory below the other core's and back.
    Moves { pace: &'a Pace },
    // It is held inside a call, or makes calls while the other one is held.
    Meets { gate: &'a Meeting },
    // It makes calls in the root beside those of three others.
    Crosses,
}

// Makes so many calls that a core draws, or until one is refused memory.
fn draw_often<R: Wait>(rt: &R, alloc: Global, table: &TreeTable, core: &mut FileCore, count: u32)
    requires core { IsBetweenCalls table.now core.old }
    ensures same { IsSameCore core.old core.new }
    ensures between { IsBetweenCalls table.now core.new }
{
    let mut draw = Draw::of(core.number());
    for _ in 0..count {
        let Some(reply) = ask(rt, alloc, table, core, draw.asked(), &NoGate) else {
            return;
        };
        draw.note(&reply);
    }
}

// One core does what it has to.
fn work<R: Wait>(rt: &R, alloc: Global, table: &TreeTable, core: &mut FileCore, task: &Task)
    requires core { IsBetweenCalls table.now core.old }
    ensures same { IsSameCore core.old core.new }
    ensures between { IsBetweenCalls table.now core.new }
{
    match task {
        Task::Draws { count } => draw_often(rt, alloc, table, core, *count),
        Task::Moves { pace } => move_often(rt, alloc, table, core, pace),
        Task::Meets { gate } => call_as_due(rt, alloc, table, core, gate),
        Task::Crosses => cross_often(rt, alloc, table, core),
    }
}

// Each core does what it has to, in a thread of its own.
fn work_all<R: Threads + Wait + Sync>(
    rt: &R,
    alloc: Global,
    table: &TreeTable,
    cores: &mut [FileCore],
    task: &Task,
)
    requires cores { All (IsBetweenCalls table.now) cores.old }
    ensures count { length cores.new ≡ length cores.old }
    ensures same { (place : ℕ) (d : _) → place < length cores.old → IsSameCore (slice_index_or cores.old place d) (slice_index_or cores.new place d)
        × IsBetweenCalls table.now (slice_index_or cores.new place d) }
{
    thread::for_each_mut(
        rt,
        cores,
        8,
        &|_number, core: &mut FileCore|
            requires { IsBetweenCalls table.now core.now }
            ensures { IsSameCore core.entry.now core.exit.now × IsBetweenCalls table.entry.now core.exit.now }
        { work(rt, alloc, table, core, task) },
    );
}

// The history of a table on which so many cores did what they had to, side by side.
pub(crate) fn shared_history<R: Threads + Wait + Sync>(
    rt: &R,
    alloc: Global,
    tree: &Tree,
    cores: u8,
    task: &Task,
) -> Result<History, NoMemory>
    requires tree { BeginsTable tree.now FIRST SHARE cores }
    requires cores { (0 < cores) × (cores ≤ 8) }
{
    let (table, mut hands) = begun(alloc, tree, FIRST, SHARE, cores)?;
    work_all(rt, alloc, &table, hands.as_mut_slice(), task);
    let (history, _) = table.into_shared().close(hands);
    Ok(history)
}
