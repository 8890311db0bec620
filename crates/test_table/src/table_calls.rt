// Calls of the tree on a table, by one core and by several at once: what each answers is what the plain tree answers where it stands in
// the history.
ghost use Rattle.std.specs.Prelude.{◌≡◌, ◌+◌, ◌<◌, length};
ghost use Rattle.tree_laws.specs.Sound.{IsSound};
ghost use Rattle.stamp_table.specs.Table.{IsBetweenCalls, IsSameCore};
ghost use Rattle.begun_tables.specs.Begun.{BeginsTable};

use crate::helpers::{got, holds, some};

mod asked;
mod begun;
mod beside;
mod crossing;
mod drawn;
mod full;
mod judged;
mod listed;
mod loops;
mod tasks;

use asked::{Asked, call_of};
use begun::{FIRST, SHARE, begun_tree};
use begun_tables::{begun, make_call};
use drawn::Draw;
use judged::judged;
use mem_calls::TreeTable;
use mem_values::FileCore;
use sfs_base::{CoreId, Gate, NoGate};
use sfs_tree::Tree;
use std::alloc::Global;
use std::process::Abort;
use std::sync::Wait;
use tasks::{Task, shared_history};
use tree_laws::{History, Reply};

// How many calls one core draws, and how many each of four cores.
const ALONE: u32 = 20_000;

const EACH: u32 = 50_000;

// Makes the call that is asked, where there is memory for it.
pub(crate) fn ask<R: Wait, G: Gate>(
    rt: &R,
    alloc: Global,
    table: &TreeTable,
    core: &mut FileCore,
    asked: Asked,
    gate: &G,
) -> Option<Reply>
    requires core { IsBetweenCalls table.now core.old }
    ensures same { IsSameCore core.old core.new }
    ensures between { IsBetweenCalls table.now core.new }
{
    let call = call_of(alloc, asked)?;
    make_call(rt, alloc, table, core, call, gate)
}

// Whether a call has the reply that a plain tree answers, which makes the same call.
fn agrees<R: Wait + Abort>(
    rt: &R,
    alloc: Global,
    table: &TreeTable,
    core: &mut FileCore,
    tree: &mut Tree,
    asked: Asked,
) -> Reply
    requires core { IsBetweenCalls table.now core.old }
    requires sound { IsSound tree.old }
    requires known { 0 < length tree.old.made }
    ensures same { IsSameCore core.old core.new }
    ensures between { IsBetweenCalls table.now core.new }
    ensures sound { IsSound tree.new }
    ensures cores { length tree.new.made ≡ length tree.old.made }
{
    let call = some(rt, call_of(alloc, asked));
    let due = got(rt, tree.step(CoreId(0), &call));
    let reply = some(rt, ask(rt, alloc, table, core, asked, &NoGate));
    holds(rt, reply.equals(&due));
    reply
}

// Makes so many calls that are drawn.
fn make_drawn<R: Wait + Abort>(
    rt: &R,
    alloc: Global,
    table: &TreeTable,
    core: &mut FileCore,
    tree: &mut Tree,
    count: u32,
)
    requires core { IsBetweenCalls table.now core.old }
    requires sound { IsSound tree.old }
    requires known { 0 < length tree.old.made }
    ensures same { IsSameCore core.old core.new }
    ensures between { IsBetweenCalls table.now core.new }
{
    let mut draw = Draw::of(CoreId(0));
    for _ in 0..count {
        let reply = agrees(rt, alloc, table, core, tree, draw.asked());
        draw.note(&reply);
    }
}

// The history of a table whose one core made so many drawn calls, each with the reply of a plain tree.
fn drawn_history<R: Wait + Abort>(rt: &R, alloc: Global, tree: &Tree, count: u32) -> History
    requires tree { BeginsTable tree.now FIRST SHARE 1 }
{
    let mut plain = got(rt, tree.copy());
    let (table, mut cores) = got(rt, begun(alloc, tree, FIRST, SHARE, 1));
    make_drawn(rt, alloc, &table, &mut cores[0], &mut plain, count);
    let (history, _) = table.into_shared().close(cores);
    history
}

// Judges the history of drawn calls of so many cores: of each kind of calls some were done.
fn assert_judged(
    rt: &impl Abort,
    alloc: Global,
    history: &History,
    tree: Tree,
    cores: u8,
    each: u32,
)
    requires sound { IsSound tree }
    requires cores { length tree.made ≡ cores }
{
    let Some(met) = got(rt, judged(alloc, history, tree, cores, each)) else {
        panic!(rt; "another history");
    };
    holds(rt, met.has_each(20));
}

#[test]
fn drawn_calls_have_the_replies_of_the_tree(rt: HostRuntime) {
    let alloc = rt.alloc();
    let tree = got(&rt, begun_tree(&rt, alloc, 1));
    let history = drawn_history(&rt, alloc, &tree, ALONE);
    assert_judged(&rt, alloc, &history, tree, 1, ALONE);
}

#[test]
fn four_cores_have_the_replies_of_the_tree(rt: HostRuntime) {
    let alloc = rt.alloc();
    let tree = got(&rt, begun_tree(&rt, alloc, 4));
    let history = got(
        &rt,
        shared_history(&rt, alloc, &tree, 4, &Task::Draws { count: EACH }),
    );
    assert_judged(&rt, alloc, &history, tree, 4, EACH);
}
