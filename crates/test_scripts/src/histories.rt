// Histories and their cursors.
ghost use Rattle.std.specs.Prelude.{◌≡◌};
ghost use Rattle.tree_laws.specs.Merged.{entries_in, EachOnce};

use crate::helpers::{got, holds, same, same_list};
use sfs_base::{CoreId, NodeId, Stamp};
use std::alloc::Global;
use std::process::Abort;
use tree_laws::{Call, Cursor, Entry, History, Reply, Turn, TurnAct, Turns};

// An fsync of the root that was answered Ok.
fn fsync(stamp: u64) -> Entry
    ensures { result.stamp.0 ≡ stamp }
{
    Entry {
        stamp: Stamp(stamp),
        core: CoreId(0),
        call: Call::Fsync { node: NodeId(0) },
        reply: Reply::Ok,
        ack: Some(8),
    }
}

#[test]
fn a_cursor_goes_over_a_history(rt: HostRuntime) {
    let mut entries = Vec::new(rt.alloc());
    got(&rt, entries.push(fsync(0)));
    got(&rt, entries.push(fsync(1)));
    let history = History::from_entries(entries);
    same(&rt, &history.len(), &2);
    holds(&rt, !history.is_empty());
    holds(&rt, History::new(rt.alloc()).is_empty());
    let mut cursor = history.first();
    for due in 0..2u64 {
        match history.next(&mut cursor) {
            Some(entry) => same(&rt, &entry.stamp, &Stamp(due)),
            None => panic!(rt; "no entry"),
        }
    }
    holds(&rt, history.next(&mut cursor).is_none());
}

// Two lists that together have the stamps from 0 to 3.
fn two_lists(rt: &impl Abort, alloc: Global) -> Vec<Vec<Entry>>
    ensures { EachOnce (entries_in result.items) }
{
    let outer = got(rt, vec![in alloc; fsync(0), fsync(3)]);
    let inner = got(rt, vec![in alloc; fsync(1), fsync(2)]);
    let parts = got(rt, vec![in alloc; outer, inner]);
    parts
}

// The stamps of a history, by a cursor that ends exactly after the last.
fn stamps(rt: &impl Abort, alloc: Global, history: &History, cursor: &mut Cursor) -> Vec<u64> {
    let mut stamps = Vec::new(alloc);
    for _ in 0..history.len() {
        if let Some(entry) = history.next(cursor) {
            got(rt, stamps.push(entry.stamp.0));
        }
    }
    stamps
}

#[test]
fn a_cursor_goes_over_lists_by_their_stamps(rt: HostRuntime) {
    let history = History::from_parts(two_lists(&rt, rt.alloc()));
    same(&rt, &history.len(), &4);
    let mut cursor = history.first();
    same_list(
        &rt,
        stamps(&rt, rt.alloc(), &history, &mut cursor).as_slice(),
        [0, 1, 2, 3].as_slice(),
    );
    holds(&rt, history.next(&mut cursor).is_none());
}

#[test]
fn a_cursor_that_began_elsewhere_finds_the_same_entries(rt: HostRuntime) {
    let mut entries = Vec::new(rt.alloc());
    got(&rt, entries.push(fsync(0)));
    let one = History::from_entries(entries);
    let mut cursor = one.first();
    holds(&rt, one.next(&mut cursor).is_some());
    let history = History::from_parts(two_lists(&rt, rt.alloc()));
    same_list(
        &rt,
        stamps(&rt, rt.alloc(), &history, &mut cursor).as_slice(),
        [1, 2, 3].as_slice(),
    );
}

#[test]
fn turns_are_pushed_where_room_was_reserved(rt: HostRuntime) {
    let turn = Turn {
        core: CoreId(1),
        node: NodeId(0),
        stamp: Stamp(3),
        commit: 1,
        now: 8,
        faults: 0,
        act: TurnAct::Durable,
    };
    let mut turns = Turns::new(rt.alloc());
    got(&rt, turns.reserve(1));
    turns.push(turn);
    same(&rt, &turns.len(), &1);
    same(&rt, &turns.get(0), &Some(&turn));
    holds(&rt, turns.get(1).is_none());
}
