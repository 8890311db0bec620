// Directories that one core makes, on a table with room for as many nodes as cores may make.
ghost use Rattle.std.specs.Prelude.{◌≡◌, All, IfSome};
ghost use Rattle.stamp_table.specs.Table.{IsBetweenCalls};
ghost use Rattle.begun_tables.specs.Begun.{BeginsTable};

use crate::loads::{Load, own_name};
use begun_tables::{begun, make_call, root_alone};
use mem_calls::TreeTable;
use mem_values::FileCore;
use sfs_base::{CoreId, Kind, NoGate, NodeId};
use sfs_tree::Tree;
use std::alloc::Global;
use std::rt::Clock;
use std::sync::Wait;
use std::sync::atomic::{AtomicU64, Ordering};
use std::thread::Threads;
use std::time::Instant;
use std::{io, thread};
use tree_laws::{Call, Reply};

/// How many calls were done in how many microseconds.
#[derive(Clone, Copy)]
pub(crate) struct Figures {
    pub(crate) done: u64,
    pub(crate) micros: u128,
}

/// How many directories a core may make at most.
pub(crate) const MOST: u32 = 65_536;

// The number of the first of them.
const FIRST: u32 = 4;

// How many directories lie in the root; the others lie in these.
const UPPER: u32 = 64;

// The root alone, of one core. None, where there is no memory for it.
fn root_of_one(alloc: Global) -> Option<Tree>
    ensures { IfSome result (λ tree. BeginsTable tree FIRST MOST 1) }
{
    root_alone(alloc, FIRST, MOST, 1).ok()
}

// Makes the directory of a round. None, where there is no memory for it.
fn make_one<R: Wait>(
    rt: &R,
    alloc: Global,
    table: &TreeTable,
    core: &mut FileCore,
    round: u32,
) -> Option<Reply>
    requires core { IsBetweenCalls table.now core.old }
    ensures between { IsBetweenCalls table.now core.new }
{
    let dir = if round < UPPER {
        NodeId(0)
    } else {
        NodeId(FIRST + round % UPPER)
    };
    let call = Call::Make {
        dir,
        name: own_name(alloc, Load::Creations, CoreId(0), round)?,
        kind: Kind::Directory,
    };
    make_call(rt, alloc, table, core, call, &NoGate)
}

// Makes so many directories, and counts those that were made.
fn make_many<R: Wait>(
    rt: &R,
    alloc: Global,
    table: &TreeTable,
    core: &mut FileCore,
    count: u32,
    done: &AtomicU64,
)
    requires core { IsBetweenCalls table.now core.old }
{
    let mut made = 0u64;
    for round in 0..count {
        match make_one(rt, alloc, table, core, round) {
            Some(Reply::Node { .. }) => made = made.saturating_add(1),
            _ => {}
        }
    }
    done.fetch_add(made, Ordering::SeqCst);
}

// The cores make so many directories each.
fn make_all<R: Threads + Wait + Sync>(
    rt: &R,
    alloc: Global,
    table: &TreeTable,
    cores: &mut [FileCore],
    count: u32,
    done: &AtomicU64,
)
    requires cores { All (IsBetweenCalls table.now) cores.old }
{
    thread::for_each_mut(
        rt,
        cores,
        1,
        &|_number, core: &mut FileCore|
            requires { IsBetweenCalls table.now core.now }
        { make_many(rt, alloc, table, core, count, done) },
    );
}

/// How many directories one core makes of so many, and in what time, the table's making among it. None, where there is no memory for the
/// table.
pub(crate) fn made<R: Threads + Wait + Sync + Clock>(
    rt: &R,
    alloc: Global,
    count: u32,
) -> io::Result<Option<Figures>> {
    let start = Instant::now(rt)?;
    let Some(tree) = root_of_one(alloc) else {
        return Ok(None);
    };
    let Ok((table, mut hands)) = begun(alloc, &tree, FIRST, MOST, 1) else {
        return Ok(None);
    };
    let done = AtomicU64::new(0);
    make_all(rt, alloc, &table, hands.as_mut_slice(), count, &done);
    let micros = start.elapsed(rt)?.as_micros();
    Ok(Some(Figures {
        done: done.load(Ordering::SeqCst),
        micros,
    }))
}
