// Copies of calls, replies and changes.
use crate::helpers::{got, holds, same, same_list};
use sfs_base::{Kind, Name, NodeId, NodeList, Stamp};
use tree_laws::{Act, Ancestors, Call, Change, NameKind, NameRows, Reply};

#[test]
fn a_call_and_its_copy_are_equal(rt: HostRuntime) {
    let name = got(&rt, Name::new(rt.alloc(), b"a".as_slice()));
    let call = Call::Look {
        dir: NodeId(3),
        name,
    };
    match got(&rt, call.copy()) {
        Call::Look { dir, name } => {
            same(&rt, &dir, &NodeId(3));
            same_list(&rt, name.bytes(), b"a".as_slice());
        }
        _ => panic!(rt; "another call"),
    }
    match got(&rt, (Call::Stat { node: NodeId(4) }).copy()) {
        Call::Stat { node } => same(&rt, &node, &NodeId(4)),
        _ => panic!(rt; "another call"),
    }
}

#[test]
fn a_reply_and_its_copy_are_equal(rt: HostRuntime) {
    let alloc = rt.alloc();
    let mut rows = Vec::new(alloc);
    got(
        &rt,
        rows.push(NameKind {
            name: got(&rt, Name::new(alloc, b"a".as_slice())),
            kind: Kind::Directory,
        }),
    );
    let rows = NameRows::from_rows(rows);
    let copy = got(&rt, (Reply::Names { rows }).copy());
    holds(&rt, lists(&copy, 1));
    holds(&rt, lists_at(&copy, 0, b"a".as_slice(), Kind::Directory));
    let stat = Reply::Stat {
        kind: Kind::File,
        links: 2,
        size: 5,
    };
    holds(&rt, is_stat(&got(&rt, stat.copy()), Kind::File, 2, 5));
}

#[test]
fn a_change_and_its_copy_are_equal(rt: HostRuntime) {
    let alloc = rt.alloc();
    let mut above = NodeList::new(alloc);
    got(&rt, above.reserve(1));
    above.push(NodeId(0));
    let change = Change {
        stamp: Stamp(9),
        dir: NodeId(3),
        name: got(&rt, Name::new(alloc, b"a".as_slice())),
        child: NodeId(4),
        kind: Kind::File,
        act: Act::Remove,
        other: None,
        above: Ancestors::new(above),
    };
    let copy = got(&rt, change.copy());
    same(&rt, &copy.stamp, &Stamp(9));
    same_list(&rt, copy.name.bytes(), b"a".as_slice());
    same(&rt, &copy.act, &Act::Remove);
    same(&rt, &copy.other, &None);
    same(&rt, &copy.above.nodes().len(), &1);
}

fn is_stat(reply: &Reply, due_kind: Kind, due_links: u32, due_size: u64) -> bool {
    match reply {
        Reply::Stat { kind, links, size } => {
            *kind == due_kind && *links == due_links && *size == due_size
        }
        _ => false,
    }
}

// Whether the reply lists so many names.
fn lists(reply: &Reply, due: u64) -> bool {
    match reply {
        Reply::Names { rows } => rows.len() == due,
        _ => false,
    }
}

// Whether the reply lists this name, with this kind, at a place.
fn lists_at(reply: &Reply, place: u64, due: &[u8], due_kind: Kind) -> bool {
    match reply {
        Reply::Names { rows } => match rows.get(place) {
            Some(row) => is_row(row, due, due_kind),
            None => false,
        },
        _ => false,
    }
}

fn is_row(row: &NameKind, due: &[u8], due_kind: Kind) -> bool {
    row.name.bytes() == due && row.kind == due_kind
}
