// What is asserted of each run: its history is legal, by the plain tree and by its text, and the turns at the disk tell what its fsyncs were answered.
ghost use Rattle.tree_laws.specs.Sound.{IsSound};
ghost use Rattle.test_volume.specs.Base.{IsFirst};

use crate::helpers::{got, holds, same, some};
use crate::judged::{Base, CORES, Health, tree_after};
use crate::runs::Ran;
use history_check::{LONGEST_HISTORY, check};
use script::text;
use sfs_base::{Kind, NoMemory, NodeId, Stamp};
use sfs_dev::Disk;
use sfs_tree::Tree;
use std::alloc::Global;
use std::process::Abort;
use tree_laws::{Call, Code, Entry, History, Reply, Turn, TurnAct, Turns};
use tree_totals::TreeTotals;

// Asserts that the text of a history is that of a legal one of as many calls, by a check that has nothing but the text and the tree with which it begins.
fn assert_legal_text(rt: &impl Abort, alloc: Global, base: &Base, history: &History)
    requires { IsFirst base.now.first }
{
    let text = got(rt, text(alloc, history));
    holds(rt, text.len() <= LONGEST_HISTORY);
    let first = got(rt, base.first.copy());
    let count = got(rt, check(alloc, first, CORES, text.as_slice()));
    same(rt, &count, &history.len());
}

// The last turn of the fsync with a stamp.
fn last_turn(turns: &Turns, stamp: Stamp) -> Option<Turn> {
    let mut last = None;
    for place in 0..turns.len() {
        if let Some(turn) = turns.get(place)
            && turn.stamp == stamp
        {
            last = Some(*turn);
        }
    }
    last
}

// Whether an fsync is answered as its last turn says.
fn ends_with(turn: &Turn, entry: &Entry) -> bool {
    match (&turn.act, &entry.reply) {
        (TurnAct::Durable, Reply::Ok) => entry.ack == Some(turn.now),
        (TurnAct::Fail, Reply::DiskFailed) => true,
        (TurnAct::Halted, Reply::Stopped { .. }) => true,
        (TurnAct::Short { kind, need, free }, given) => given.equals(&Reply::NoSpace {
            kind: *kind,
            need: *need,
            free: *free,
        }),
        _ => false,
    }
}

// Whether an entry is told by turns: a call that is no fsync of a live node has none, and such an fsync is answered by its last one.
fn is_told(turns: &Turns, entry: &Entry) -> bool {
    let last = last_turn(turns, entry.stamp);
    match (&entry.call, &entry.reply) {
        (
            Call::Fsync { .. },
            Reply::Error {
                code: Code::NoEntry,
            },
        ) => last.is_none(),
        (Call::Fsync { node }, _) => match last {
            Some(turn) => turn.core == entry.core && turn.node == *node && ends_with(&turn, entry),
            None => false,
        },
        _ => last.is_none(),
    }
}

// Whether each entry of a history is told by turns.
fn all_told(turns: &Turns, history: &History) -> bool {
    let mut cursor = history.first();
    for _ in 0..history.len() {
        if let Some(entry) = history.next(&mut cursor)
            && !is_told(turns, entry)
        {
            return false;
        }
    }
    true
}

// The numbers of nodes in trees of drawn scripts lie below this one.
const HIGHEST: u32 = 1_024;

// The rows of a tree's directories, and the bytes of its live files.
fn totals_of(tree: &Tree) -> (u64, u64) {
    let mut rows = 0u64;
    let mut bytes = 0u64;
    for number in 0..HIGHEST {
        let node = NodeId(number);
        match tree.kind(node) {
            Some(Kind::Directory) => rows = rows.saturating_add(tree.row_count(node) as u64),
            Some(Kind::File) if tree.is_alive(node) => {
                bytes = bytes.saturating_add(tree.bytes(node).len() as u64);
            }
            _ => {}
        }
    }
    (rows, bytes)
}

// Asserts that these are the rows and bytes of a tree.
fn assert_counted(rt: &impl Abort, counted: &Result<TreeTotals, NoMemory>, tree: &Tree) {
    match counted {
        Ok(totals) => same(rt, &(totals.rows, totals.bytes), &totals_of(tree)),
        Err(NoMemory) => panic!(rt; "no memory"),
    }
}

/// The tree after the history of a run that began with a disk's tree. Asserts that the history is legal, by the plain tree and by its text, that each
/// fsync is answered as its last turn says, and that as much was counted at the end as the tree has.
pub(crate) fn plain_tree<D: Disk>(
    rt: &impl Abort,
    alloc: Global,
    base: &Base,
    ran: &Ran<D>,
    health: Health,
) -> Tree
    requires { IsFirst base.now.first }
    ensures { IsSound result }
{
    let calls = ran.disk.now();
    let plain = some(rt, tree_after(rt, &ran.history, &base.first, health, calls));
    assert_legal_text(rt, alloc, base, &ran.history);
    holds(rt, all_told(&ran.turns, &ran.history));
    assert_counted(rt, &ran.totals, &plain);
    plain
}
