// Trees built from nodes and rows, and what is read of them; the rows of one directory.
use crate::helpers::{got, holds, same, same_list};
use sfs_base::{Kind, Name, NodeId};
use sfs_tree::Tree;
use std::alloc::Global;
use std::process::Abort;
use tree_laws::NameMap;

// Adds a row whose name is new.
fn insert(rt: &impl Abort, alloc: Global, names: &mut NameMap, name: &[u8], child: u32) {
    let name = got(rt, Name::new(alloc, name));
    holds(rt, names.get(&name).is_none());
    got(rt, names.insert(name, NodeId(child)));
}

#[test]
fn names_ascend_by_their_bytes(rt: HostRuntime) {
    let alloc = rt.alloc();
    let mut names = NameMap::new(alloc);
    insert(&rt, alloc, &mut names, b"b".as_slice(), 7);
    insert(&rt, alloc, &mut names, b"ab".as_slice(), 8);
    insert(&rt, alloc, &mut names, b"a".as_slice(), 9);
    insert(&rt, alloc, &mut names, b"\xff".as_slice(), 6);
    same(&rt, &names.len(), &4);
    let rows = names.rows();
    holds(&rt, rows.len() == 4);
    same_list(&rt, rows[0].name.bytes(), b"a".as_slice());
    same_list(&rt, rows[1].name.bytes(), b"ab".as_slice());
    same(&rt, &rows[2].child, &NodeId(7));
    same(&rt, &rows[3].child, &NodeId(6));
    same(
        &rt,
        &names.get(&got(&rt, Name::new(alloc, b"ab".as_slice()))),
        &Some(NodeId(8)),
    );
    same(
        &rt,
        &names.get(&got(&rt, Name::new(alloc, b"aa".as_slice()))),
        &None,
    );
}

#[test]
fn rows_go_and_get_other_children(rt: HostRuntime) {
    let alloc = rt.alloc();
    let mut names = NameMap::new(alloc);
    insert(&rt, alloc, &mut names, b"b".as_slice(), 7);
    insert(&rt, alloc, &mut names, b"a".as_slice(), 9);
    let a = got(&rt, Name::new(alloc, b"a".as_slice()));
    let b = got(&rt, Name::new(alloc, b"b".as_slice()));
    holds(&rt, names.get(&b).is_some());
    names.replace(&b, NodeId(5));
    same(&rt, &names.get(&b), &Some(NodeId(5)));
    holds(&rt, names.get(&a).is_some());
    names.remove(&a);
    same(&rt, &names.get(&a), &None);
    same(&rt, &names.len(), &1);
}

#[test]
fn nodes_are_met_by_their_numbers(rt: HostRuntime) {
    let alloc = rt.alloc();
    let mut tree = got(&rt, Tree::empty(alloc, 64, 8, 2));
    same(&rt, &tree.next_node(None), &Some(NodeId(0)));
    same(&rt, &tree.next_node(Some(NodeId(0))), &None);
    let seven = NodeId(7);
    holds(&rt, tree.kind(seven).is_none());
    got(
        &rt,
        tree.put_node(seven, Kind::File, got(&rt, b"hi".as_slice().to_vec(alloc))),
    );
    same(&rt, &tree.next_node(Some(NodeId(0))), &Some(seven));
    same(&rt, &tree.next_node(Some(seven)), &None);
    holds(&rt, tree.kind(seven) == Some(Kind::File));
    same(&rt, &tree.kind(NodeId(0)), &Some(Kind::Directory));
    same_list(&rt, tree.bytes(seven), b"hi".as_slice());
    same(&rt, &tree.row_count(NodeId(0)), &0);
    same(&rt, &got(&rt, tree.names(NodeId(0))).len(), &0);
    holds(&rt, tree.row(NodeId(0), 7, 0).is_none());
}
