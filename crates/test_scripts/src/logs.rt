// Logs of cores: what is added, trimmed and copied, and one directory's changes from several of them.
ghost use Rattle.std.specs.Prelude.{◌≡◌, ◌<◌, ◌≤◌, nat_le, true, All};
ghost use Rattle.mem_cells.specs.Log.{log_place};
ghost use Rattle.mem_cells.specs.Part.{changes_kept};

use crate::helpers::{got, holds, same};
use core_logs::CoreLogs;
use log_merge::merge;
use mem_cells::LogPart;
use sfs_base::{CoreId, Kind, Name, NodeId, Stamp};
use std::alloc::Global;
use std::process::Abort;
use tree_laws::{Act, Ancestors, Change, Changes};

// A change of a directory's row.
fn change(rt: &impl Abort, alloc: Global, stamp: u64, dir: u32, act: Act) -> Change {
    Change {
        stamp: Stamp(stamp),
        dir: NodeId(dir),
        name: got(rt, Name::new(alloc, b"a".as_slice())),
        child: NodeId(9),
        kind: Kind::File,
        act,
        other: None,
        above: Ancestors::none(alloc),
    }
}

// Adds an entry of one change.
fn add(rt: &impl Abort, alloc: Global, part: &mut LogPart, stamp: u64, dir: u32, act: Act) {
    let one = change(rt, alloc, stamp, dir, act);
    holds(rt, part.entries() < 1000);
    holds(rt, comes_last(part, &one));
    put(rt, alloc, part, one);
}

// Adds an entry of a change that comes before none of its directory's.
fn put(rt: &impl Abort, alloc: Global, part: &mut LogPart, one: Change)
    requires entries { part.old.entries < 1000 }
    requires last { All (λ other. log_place other ≤ log_place one) (changes_kept part.old one.dir.0) }
{
    got(rt, part.reserve(one.dir, 1));
    let mut entry = Changes::new(alloc);
    got(rt, entry.reserve(1));
    entry.push(one);
    part.add(entry);
}

// Whether a change comes before none of its directory's.
fn comes_last(part: &LogPart, one: &Change) -> bool
    ensures { result ≡ true → All (λ other. log_place other ≤ log_place one.now) (changes_kept part.now one.now.dir.0) }
{
    for place in 0..1000 {
        match part.get(one.dir, place) {
            Some(other) => {
                if !is_no_later(other, one) {
                    return false;
                }
            }
            None => return true,
        }
    }
    false
}

fn is_no_later(change: &Change, other: &Change) -> bool
    ensures { result ≡ nat_le (log_place change.now) (log_place other.now) }
{
    change.stamp.0 < other.stamp.0
        || change.stamp.0 == other.stamp.0 && (change.act == Act::Remove || other.act == Act::Add)
}

// Trims a directory of a part.
fn trim(part: &mut LogPart, dir: u32, below: u64) {
    part.trim(NodeId(dir), Stamp(below));
}

// The stamp of a directory's change at a place, 1000 where there is none.
fn stamp_at(part: &LogPart, dir: u32, place: u64) -> u64 {
    match part.get(NodeId(dir), place) {
        Some(change) => change.stamp.0,
        None => 1000,
    }
}

// Whether changes have a change with this stamp and act at a place.
fn has(changes: &Changes, place: u64, stamp: u64, act: Act) -> bool {
    match changes.get(place) {
        Some(change) => change.stamp.0 == stamp && change.act == act,
        None => false,
    }
}

// Whether a part has what is left of directories 1 and 2 below.
fn is_left(part: &LogPart) -> bool {
    part.entries() == 4
        && stamp_at(part, 1, 0) == 4
        && stamp_at(part, 1, 1) == 9
        && stamp_at(part, 1, 2) == 1000
        && stamp_at(part, 2, 0) == 2
        && part.mark(NodeId(1)).0 == 4
        && part.mark(NodeId(2)).0 == 0
}

#[test]
fn a_part_keeps_what_is_not_trimmed(rt: HostRuntime) {
    let alloc = rt.alloc();
    let mut part = LogPart::new(alloc);
    same(&rt, &stamp_at(&part, 1, 0), &1000);
    add(&rt, alloc, &mut part, 1, 1, Act::Add);
    add(&rt, alloc, &mut part, 2, 2, Act::Add);
    add(&rt, alloc, &mut part, 4, 1, Act::Remove);
    add(&rt, alloc, &mut part, 9, 1, Act::Add);
    same(&rt, &stamp_at(&part, 1, 0), &1);
    same(&rt, &stamp_at(&part, 1, 2), &9);
    trim(&mut part, 1, 4);
    holds(&rt, is_left(&part));
    trim(&mut part, 1, 3);
    holds(&rt, is_left(&part));
    holds(&rt, is_left(&got(&rt, part.copy())));
}

// The number of the next directory after one, 1000 where there is none.
fn next_number(part: &LogPart, after: Option<NodeId>) -> u32 {
    match part.next_dir(after) {
        Some(dir) => dir.0,
        None => 1000,
    }
}

#[test]
fn a_part_tells_its_directories_one_after_the_other(rt: HostRuntime) {
    let alloc = rt.alloc();
    let mut part = LogPart::new(alloc);
    same(&rt, &next_number(&part, None), &1000);
    add(&rt, alloc, &mut part, 1, 5, Act::Add);
    add(&rt, alloc, &mut part, 2, 2, Act::Add);
    same(&rt, &next_number(&part, None), &2);
    same(&rt, &next_number(&part, Some(NodeId(2))), &5);
    same(&rt, &next_number(&part, Some(NodeId(4))), &5);
    same(&rt, &next_number(&part, Some(NodeId(5))), &1000);
    trim(&mut part, 2, 3);
    same(&rt, &next_number(&part, None), &5);
    let changes = got(&rt, part.copy_of(alloc, NodeId(5)));
    same(&rt, &changes.len(), &1);
    holds(&rt, has(&changes, 0, 1, Act::Add));
    holds(&rt, got(&rt, part.copy_of(alloc, NodeId(2))).is_empty());
    holds(&rt, got(&rt, part.copy_of(alloc, NodeId(7))).is_empty());
}

#[test]
fn a_part_counts_the_changes_that_name_a_node(rt: HostRuntime) {
    let alloc = rt.alloc();
    let mut part = LogPart::new(alloc);
    trim(&mut part, 3, 9);
    same(&rt, &part.mark(NodeId(3)).0, &0);
    same(&rt, &part.namings(NodeId(9)), &0);
    add(&rt, alloc, &mut part, 1, 5, Act::Add);
    add(&rt, alloc, &mut part, 2, 2, Act::Add);
    add(&rt, alloc, &mut part, 4, 5, Act::Remove);
    same(&rt, &part.namings(NodeId(9)), &3);
    same(&rt, &part.namings(NodeId(8)), &0);
    trim(&mut part, 5, 2);
    same(&rt, &part.namings(NodeId(9)), &2);
    same(&rt, &got(&rt, part.copy()).namings(NodeId(9)), &2);
    trim(&mut part, 2, 9);
    trim(&mut part, 5, 9);
    same(&rt, &part.namings(NodeId(9)), &0);
}

#[test]
fn a_merge_has_the_changes_of_all_parts_by_their_stamps(rt: HostRuntime) {
    let alloc = rt.alloc();
    let mut first = LogPart::new(alloc);
    add(&rt, alloc, &mut first, 3, 1, Act::Add);
    add(&rt, alloc, &mut first, 8, 1, Act::Add);
    let mut second = LogPart::new(alloc);
    add(&rt, alloc, &mut second, 1, 1, Act::Add);
    add(&rt, alloc, &mut second, 2, 2, Act::Add);
    add(&rt, alloc, &mut second, 4, 1, Act::Remove);
    add(&rt, alloc, &mut second, 8, 1, Act::Remove);
    let mut parts = Vec::new(alloc);
    got(&rt, parts.push(first));
    got(&rt, parts.push(LogPart::new(alloc)));
    got(&rt, parts.push(second));
    let changes = got(&rt, merge(alloc, &parts, NodeId(1), Stamp(9)));
    same(&rt, &changes.len(), &5);
    holds(&rt, has(&changes, 0, 1, Act::Add));
    holds(&rt, has(&changes, 1, 3, Act::Add));
    holds(&rt, has(&changes, 2, 4, Act::Remove));
    holds(&rt, has(&changes, 3, 8, Act::Remove));
    holds(&rt, has(&changes, 4, 8, Act::Add));
    let changes = got(&rt, merge(alloc, &parts, NodeId(1), Stamp(4)));
    same(&rt, &changes.len(), &2);
    holds(&rt, has(&changes, 1, 3, Act::Add));
    same(
        &rt,
        &got(&rt, merge(alloc, &parts, NodeId(2), Stamp(9))).len(),
        &1,
    );
    holds(
        &rt,
        got(&rt, merge(alloc, &parts, NodeId(7), Stamp(9))).is_empty(),
    );
}

// The logs of two cores, of which the first has one change.
fn logs_of_two(rt: &impl Abort, alloc: Global, one: Change) -> CoreLogs {
    let mut logs = got(rt, CoreLogs::new(alloc, 2));
    let mut entry = Changes::new(alloc);
    got(rt, entry.reserve(1));
    entry.push(one);
    got(rt, logs.reserve(CoreId(0), &entry));
    logs.add(CoreId(0), entry);
    logs
}

#[test]
fn logs_of_all_cores_are_gathered_until_they_are_trimmed(rt: HostRuntime) {
    let alloc = rt.alloc();
    let mut logs = logs_of_two(&rt, alloc, change(&rt, alloc, 3, 1, Act::Add));
    let gathered = got(&rt, logs.gather(alloc, Stamp(4)));
    same(&rt, &gathered.len(), &1);
    let Some(log) = gathered.get(0) else {
        panic!(rt; "no log was gathered");
    };
    same(&rt, &log.dir.0, &1);
    same(&rt, &log.changes.len(), &1);
    holds(&rt, has(&log.changes, 0, 3, Act::Add));
    logs.trim(&[NodeId(1)], Stamp(4));
    same(&rt, &got(&rt, logs.gather(alloc, Stamp(4))).len(), &0);
}
