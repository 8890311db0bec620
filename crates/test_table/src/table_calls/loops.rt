// Two cores that move two directories below each other at the same time. Both moves together would close a loop, so one of them is refused.
ghost use Rattle.std.specs.Prelude.{◌≡◌, length};
ghost use Rattle.tree_laws.specs.Sound.{IsSound};
ghost use Rattle.stamp_table.specs.Table.{IsBetweenCalls, IsSameCore};

use crate::helpers::{got, holds};
use crate::table_calls::ask;
use crate::table_calls::asked::Asked::{self, Rename};
use crate::table_calls::begun::{FIRST, SHARE, begun_tree};
use crate::table_calls::beside::comes_to;
use crate::table_calls::judged::{is_code, is_due};
use crate::table_calls::tasks::{Task, shared_history};
use mem_calls::TreeTable;
use mem_values::FileCore;
use sfs_base::{CoreId, NoGate, NoMemory};
use sfs_tree::Tree;
use std::alloc::Global;
use std::sync::Wait;
use std::sync::atomic::{AtomicU64, Ordering};
use tree_laws::{Code, Entry, History, Reply};

// How often both cores move their directories.
const ROUNDS: u64 = 10_000;

// Keeps two cores in step.
#[derive(Drop)]
pub(crate) struct Pace {
    // How often they have come to a place where one waits for the other.
    comings: AtomicU64,
}

impl Pace {
    fn new() -> Pace {
        Pace {
            comings: AtomicU64::new(0),
        }
    }

    // Waits until both cores have come so often. Says whether they have.
    fn meets(&self, times: u64) -> bool {
        self.comings.fetch_add(1, Ordering::SeqCst);
        comes_to(&self.comings, times.saturating_mul(2))
    }
}

// The move of a core: its directory goes below that of the other one.
fn move_of(core: CoreId) -> Asked {
    if core.0 == 0 {
        Rename(0, "d", 2, "d")
    } else {
        Rename(0, "e", 1, "e")
    }
}

// The move of a core back.
fn way_back(core: CoreId) -> Asked {
    if core.0 == 0 {
        Rename(2, "d", 0, "d")
    } else {
        Rename(1, "e", 0, "e")
    }
}

// The other core.
fn other(core: CoreId) -> CoreId {
    if core.0 == 0 { CoreId(1) } else { CoreId(0) }
}

// Moves a directory back, where its move was answered Ok. Says whether that was made.
fn move_back<R: Wait>(
    rt: &R,
    alloc: Global,
    table: &TreeTable,
    core: &mut FileCore,
    reply: Reply,
) -> bool
    requires core { IsBetweenCalls table.now core.old }
    ensures same { IsSameCore core.old core.new }
    ensures between { IsBetweenCalls table.now core.new }
{
    if !is_code(&reply, None) {
        return true;
    }
    let back = way_back(core.number());
    ask(rt, alloc, table, core, back, &NoGate).is_some()
}

// Moves a directory at the same time as the other core, and back once both are answered. Says whether all was made.
fn move_once<R: Wait>(
    rt: &R,
    alloc: Global,
    table: &TreeTable,
    core: &mut FileCore,
    pace: &Pace,
    round: u64,
) -> bool
    requires core { IsBetweenCalls table.now core.old }
    ensures same { IsSameCore core.old core.new }
    ensures between { IsBetweenCalls table.now core.new }
{
    let before = round.saturating_mul(2);
    if !pace.meets(before.saturating_add(1)) {
        return false;
    }
    let asked = move_of(core.number());
    let Some(reply) = ask(rt, alloc, table, core, asked, &NoGate) else {
        return false;
    };
    pace.meets(before.saturating_add(2)) && move_back(rt, alloc, table, core, reply)
}

// Does so in each round, or until a call is not made or the other core does not come.
pub(crate) fn move_often<R: Wait>(
    rt: &R,
    alloc: Global,
    table: &TreeTable,
    core: &mut FileCore,
    pace: &Pace,
)
    requires core { IsBetweenCalls table.now core.old }
    ensures same { IsSameCore core.old core.new }
    ensures between { IsBetweenCalls table.now core.new }
{
    for round in 0..ROUNDS {
        if !move_once(rt, alloc, table, core, pace, round) {
            return;
        }
    }
}

// Whether an entry is the next one of its round, in which this core was the first: its move, which is answered Ok, that of the other core,
// which is refused, and the first one's way back. The replies are those of a plain tree.
fn is_in_round(tree: &mut Tree, entry: &Entry, stamp: u64, first: CoreId) -> Result<bool, NoMemory>
    requires sound { IsSound tree.old }
    requires cores { length tree.old.made ≡ 2 }
    ensures sound { IsSound tree.new }
    ensures cores { length tree.new.made ≡ 2 }
{
    let (core, asked, code) = match stamp % 3 {
        0 => (first, move_of(first), None),
        1 => (other(first), move_of(other(first)), Some(Code::Invalid)),
        _ => (first, way_back(first), None),
    };
    if core.0 >= 2 || entry.core != core || entry.stamp.0 != stamp || !is_code(&entry.reply, code) {
        return Ok(false);
    }
    is_due(tree, entry, core, asked)
}

// Whether a history has so many rounds, each with one move that is answered Ok and one that is refused.
fn are_rounds(history: &History, mut tree: Tree, rounds: u64) -> Result<bool, NoMemory>
    requires sound { IsSound tree }
    requires cores { length tree.made ≡ 2 }
{
    let mut cursor = history.first();
    let mut first = CoreId(0);
    for stamp in 0..history.len() {
        let Some(entry) = history.next(&mut cursor) else {
            return Ok(false);
        };
        if stamp % 3 == 0 {
            first = entry.core;
        }
        if !is_in_round(&mut tree, entry, stamp, first)? {
            return Ok(false);
        }
    }
    Ok(history.len() == rounds.saturating_mul(3))
}

#[test]
fn of_two_moves_that_would_close_a_loop_one_is_refused(rt: HostRuntime) {
    let alloc = rt.alloc();
    let tree = got(&rt, begun_tree(&rt, alloc, 2));
    let pace = Pace::new();
    let history = got(
        &rt,
        shared_history(&rt, alloc, &tree, 2, &Task::Moves { pace: &pace }),
    );
    let rounds = got(&rt, are_rounds(&history, tree, ROUNDS));
    holds(&rt, rounds);
}
