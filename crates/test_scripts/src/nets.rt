// Net changes of a directory: rows, the changes made to them, and the net that is due.
use crate::helpers::{got, holds, same};
use absorb::{Net, NetRow, net_of};
use sfs_base::{Kind, Name, NodeId, Stamp};
use std::alloc::Global;
use std::process::Abort;
use tree_laws::{Act, Ancestors, Change, Changes, NameMap};

// The rows a, b and c, with the children 1, 2 and 3.
fn three_rows(rt: &impl Abort, alloc: Global) -> NameMap {
    let mut rows = NameMap::new(alloc);
    add_row(rt, alloc, &mut rows, b"b".as_slice(), 2);
    add_row(rt, alloc, &mut rows, b"c".as_slice(), 3);
    add_row(rt, alloc, &mut rows, b"a".as_slice(), 1);
    rows
}

fn add_row(rt: &impl Abort, alloc: Global, rows: &mut NameMap, name: &[u8], child: u32) {
    let name = got(rt, Name::new(alloc, name));
    holds(rt, rows.get(&name).is_none());
    got(rt, rows.insert(name, NodeId(child)));
}

// Puts a change of a row behind the others.
fn change(
    rt: &impl Abort,
    alloc: Global,
    changes: &mut Changes,
    act: Act,
    name: &[u8],
    child: u32,
) {
    got(rt, changes.reserve(1));
    changes.push(Change {
        stamp: Stamp(0),
        dir: NodeId(0),
        name: got(rt, Name::new(alloc, name)),
        child: NodeId(child),
        kind: Kind::File,
        act,
        other: None,
        above: Ancestors::none(alloc),
    });
}

// Whether a net has this row at a place. A child 0 stands for none.
fn has(net: &Net, place: u64, name: &[u8], before: u32, after: u32) -> bool {
    match net.get(place) {
        Some(row) => is_row(row, name, before, after),
        None => false,
    }
}

fn is_row(row: &NetRow, name: &[u8], before: u32, after: u32) -> bool {
    row.name.bytes() == name && number(row.before) == before && number(row.after) == after
}

fn number(child: Option<NodeId>) -> u32 {
    child.map_or(0, |node| node.0)
}

#[test]
fn a_net_has_the_names_whose_child_differs(rt: HostRuntime) {
    let alloc = rt.alloc();
    let rows = three_rows(&rt, alloc);
    let mut changes = Changes::new(alloc);
    change(&rt, alloc, &mut changes, Act::Add, b"z".as_slice(), 9);
    change(&rt, alloc, &mut changes, Act::Add, b"\xff".as_slice(), 6);
    change(&rt, alloc, &mut changes, Act::Add, b"c".as_slice(), 8);
    change(&rt, alloc, &mut changes, Act::Remove, b"a".as_slice(), 1);
    change(&rt, alloc, &mut changes, Act::Remove, b"c".as_slice(), 8);
    change(&rt, alloc, &mut changes, Act::Add, b"B".as_slice(), 5);
    change(&rt, alloc, &mut changes, Act::Add, b"c".as_slice(), 7);
    let net = got(&rt, net_of(alloc, &rows, &changes));
    same(&rt, &net.len(), &5);
    holds(&rt, has(&net, 0, b"B".as_slice(), 0, 5));
    holds(&rt, has(&net, 1, b"a".as_slice(), 1, 0));
    holds(&rt, has(&net, 2, b"c".as_slice(), 3, 7));
    holds(&rt, has(&net, 3, b"z".as_slice(), 0, 9));
    holds(&rt, has(&net, 4, b"\xff".as_slice(), 0, 6));
}

#[test]
fn changes_that_come_to_nothing_have_an_empty_net(rt: HostRuntime) {
    let alloc = rt.alloc();
    let rows = three_rows(&rt, alloc);
    let mut changes = Changes::new(alloc);
    holds(&rt, got(&rt, net_of(alloc, &rows, &changes)).is_empty());
    change(&rt, alloc, &mut changes, Act::Add, b"new".as_slice(), 9);
    change(&rt, alloc, &mut changes, Act::Remove, b"new".as_slice(), 9);
    change(&rt, alloc, &mut changes, Act::Remove, b"b".as_slice(), 2);
    change(&rt, alloc, &mut changes, Act::Add, b"b".as_slice(), 2);
    change(&rt, alloc, &mut changes, Act::Add, b"c".as_slice(), 3);
    change(
        &rt,
        alloc,
        &mut changes,
        Act::Remove,
        b"nothing".as_slice(),
        4,
    );
    holds(&rt, got(&rt, net_of(alloc, &rows, &changes)).is_empty());
}
