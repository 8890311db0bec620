// Four cores at the root: one moves a directory out of it and back, one a file, one makes a file in it and takes it away again, and one asks
// for the root.
ghost use Rattle.std.specs.Prelude.{◌≡◌, length};
ghost use Rattle.tree_laws.specs.Sound.{IsSound};
ghost use Rattle.stamp_table.specs.Table.{IsBetweenCalls, IsSameCore};

use crate::helpers::{got, holds};
use crate::table_calls::ask;
use crate::table_calls::asked::Asked::{self, Make, Rename, Stat, Unlink};
use crate::table_calls::begun::{FIRST, SHARE, begun_tree};
use crate::table_calls::judged::{is_code, is_due};
use crate::table_calls::tasks::{Task, shared_history};
use mem_calls::TreeTable;
use mem_values::FileCore;
use sfs_base::{CoreId, Kind, NoGate, NoMemory};
use sfs_tree::Tree;
use std::alloc::Global;
use std::sync::Wait;
use tree_laws::{Entry, History};

// How many calls each core makes.
const ROUNDS: u64 = 5_000;

// The call that a core makes behind so many.
fn crossing(core: CoreId, round: u64) -> Asked {
    match (core.0, round % 2) {
        (0, 0) => Rename(0, "d", 2, "d"),
        (0, _) => Rename(2, "d", 0, "d"),
        (1, 0) => Rename(0, "a", 1, "z"),
        (1, _) => Rename(1, "z", 0, "a"),
        (2, 0) => Make(0, "n", Kind::File),
        (2, _) => Unlink(0, "n"),
        _ => Stat(0),
    }
}

// Makes the next call. Says whether it was made.
fn cross_once<R: Wait>(
    rt: &R,
    alloc: Global,
    table: &TreeTable,
    core: &mut FileCore,
    round: u64,
) -> bool
    requires core { IsBetweenCalls table.now core.old }
    ensures same { IsSameCore core.old core.new }
    ensures between { IsBetweenCalls table.now core.new }
{
    let asked = crossing(core.number(), round);
    ask(rt, alloc, table, core, asked, &NoGate).is_some()
}

// Makes all its calls, or those up to one that is refused memory.
pub(crate) fn cross_often<R: Wait>(rt: &R, alloc: Global, table: &TreeTable, core: &mut FileCore)
    requires core { IsBetweenCalls table.now core.old }
    ensures same { IsSameCore core.old core.new }
    ensures between { IsBetweenCalls table.now core.new }
{
    for round in 0..ROUNDS {
        if !cross_once(rt, alloc, table, core, round) {
            return;
        }
    }
}

// Whether an entry is the next call of its core, of which so many were made, and was done, with the reply of a plain tree.
fn is_next_crossing(
    tree: &mut Tree,
    entry: &Entry,
    stamp: u64,
    made: &mut [u64],
) -> Result<bool, NoMemory>
    requires sound { IsSound tree.old }
    requires cores { length tree.old.made ≡ 4 }
    requires made { length made.old ≡ 4 }
    ensures sound { IsSound tree.new }
    ensures cores { length tree.new.made ≡ 4 }
    ensures made { length made.new ≡ 4 }
{
    if entry.core.0 >= 4 || entry.stamp.0 != stamp || !is_code(&entry.reply, None) {
        return Ok(false);
    }
    let place = entry.core.0 as usize;
    let asked = crossing(entry.core, made[place]);
    made[place] = made[place].saturating_add(1);
    is_due(tree, entry, entry.core, asked)
}

// Whether each core made so many calls.
fn have_made(made: &[u64], rounds: u64) -> bool {
    for count in made {
        if *count != rounds {
            return false;
        }
    }
    true
}

// Whether a history has all these calls, each core's in their order, all of them done, with the replies of a plain tree.
fn are_crossings(
    alloc: Global,
    history: &History,
    mut tree: Tree,
    rounds: u64,
) -> Result<bool, NoMemory>
    requires sound { IsSound tree }
    requires cores { length tree.made ≡ 4 }
{
    let mut made = vec![in alloc; 0u64, 0, 0, 0]?;
    let mut cursor = history.first();
    for stamp in 0..history.len() {
        let Some(entry) = history.next(&mut cursor) else {
            return Ok(false);
        };
        if !is_next_crossing(&mut tree, entry, stamp, &mut made)? {
            return Ok(false);
        }
    }
    Ok(have_made(&made, rounds))
}

#[test]
fn renames_go_on_beside_creations_in_the_root_and_its_size(rt: HostRuntime) {
    let alloc = rt.alloc();
    let tree = got(&rt, begun_tree(&rt, alloc, 4));
    let history = got(&rt, shared_history(&rt, alloc, &tree, 4, &Task::Crosses));
    let crossings = got(&rt, are_crossings(alloc, &history, tree, ROUNDS));
    holds(&rt, crossings);
}
