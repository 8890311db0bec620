// Calls of each kind that one core makes, with the errors that are due.
ghost use Rattle.std.specs.Prelude.{◌+◌, ◌<◌, length};
ghost use Rattle.tree_laws.specs.Sound.{IsSound};
ghost use Rattle.stamp_table.specs.Table.{IsBetweenCalls, IsSameCore};
ghost use Rattle.begun_tables.specs.Begun.{BeginsTable};

use crate::helpers::{got, holds};
use crate::table_calls::agrees;
use crate::table_calls::asked::Asked::{
    self, Link, List, Look, Make, Read, Rename, Rmdir, Stat, Trunc, Unlink, Write,
};
use crate::table_calls::begun::{FIRST, SHARE, begun_tree};
use crate::table_calls::judged::{is_code, is_listed};
use begun_tables::begun;
use mem_calls::TreeTable;
use mem_values::FileCore;
use sfs_base::Kind;
use sfs_tree::Tree;
use std::alloc::Global;
use std::process::Abort;
use std::sync::Wait;
use tree_laws::{Code, History};

// Calls of each kind, with their refusals, in this order on one tree.
static LISTED: [(Asked, Option<Code>); 104] = [
    (Look(0, "d"), None),
    (Look(1, "b"), None),
    (Rename(0, "a", 0, "z"), None),
    (Rename(0, "z", 0, "a"), None),
    (Rename(0, "a", 1, "b"), None),
    (Rename(0, "a", 2, "f"), None),
    (Rename(2, "f", 0, "a"), None),
    (Rename(0, "x", 0, "y"), Some(Code::NoEntry)),
    (Rename(3, "a", 0, "y"), Some(Code::NotDir)),
    (Rename(5, "a", 0, "y"), Some(Code::NoEntry)),
    (Rename(0, "a", 3, "y"), Some(Code::NotDir)),
    (Rename(0, "a", 6, "y"), Some(Code::NoEntry)),
    (Rename(70_000, "a", 0, "y"), Some(Code::NoEntry)),
    (Rename(0, "a", 70_000, "y"), Some(Code::NoEntry)),
    (Rename(0, "d", 1, "y"), Some(Code::Invalid)),
    (Rename(0, "d", 0, "a"), Some(Code::NotDir)),
    (Rename(0, "a", 0, "d"), Some(Code::IsDir)),
    (Rename(0, "e", 0, "d"), Some(Code::NotEmpty)),
    (Rename(0, "e", 1, "e"), None),
    (Rename(0, "d", 2, "y"), Some(Code::Invalid)),
    (Stat(1), None),
    (Rename(1, "e", 0, "e"), None),
    (Rename(0, "a", 1, "c"), None),
    (Stat(4), None),
    (Rename(1, "c", 0, "a"), None),
    (Link(4, 1, "c"), None),
    (Rename(0, "g", 1, "g"), None),
    (Rename(0, "e", 1, "g"), None),
    (Rename(1, "g", 0, "e"), None),
    (Stat(7), Some(Code::NoEntry)),
    (List(0), None),
    (Look(0, "x"), Some(Code::NoEntry)),
    (Look(3, "a"), Some(Code::NotDir)),
    (Look(5, "a"), Some(Code::NoEntry)),
    (Look(6, "a"), Some(Code::NoEntry)),
    (Look(7, "a"), Some(Code::NoEntry)),
    (Look(70_000, "a"), Some(Code::NoEntry)),
    (Write(3, 4_090, "bytes that lie in two blocks"), None),
    (Write(3, 67_551_232, ""), None),
    (Write(3, 67_551_232, "x"), Some(Code::FileTooBig)),
    (Write(1, 0, "x"), Some(Code::IsDir)),
    (Write(5, 0, "x"), Some(Code::NoEntry)),
    (Write(70_000, 0, "x"), Some(Code::NoEntry)),
    (Read(3, 5, 10), None),
    (Read(3, 4_085, 100), None),
    (Read(3, 5_000, 100), None),
    (Read(2, 0, 1), Some(Code::IsDir)),
    (Read(6, 0, 1), Some(Code::NoEntry)),
    (Trunc(3, 4_100), None),
    (Trunc(3, 9_000), None),
    (Read(3, 4_090, 20), None),
    (Trunc(3, 67_551_233), Some(Code::FileTooBig)),
    (Trunc(0, 0), Some(Code::IsDir)),
    (Trunc(5, 0), Some(Code::NoEntry)),
    (Stat(0), None),
    (Stat(1), None),
    (Stat(3), None),
    (Stat(4), None),
    (Stat(5), Some(Code::NoEntry)),
    (Stat(70_000), Some(Code::NoEntry)),
    (Unlink(1, "x"), Some(Code::NoEntry)),
    (Unlink(0, "d"), Some(Code::NotPermitted)),
    (Unlink(3, "a"), Some(Code::NotDir)),
    (Unlink(5, "a"), Some(Code::NoEntry)),
    (Unlink(0, "a"), None),
    (Look(0, "a"), Some(Code::NoEntry)),
    (Unlink(1, "c"), None),
    (Unlink(2, "a"), None),
    (Read(4, 0, 1), Some(Code::NoEntry)),
    (Stat(3), None),
    (List(0), None),
    (List(1), None),
    (List(3), Some(Code::NotDir)),
    (List(5), Some(Code::NoEntry)),
    (List(70_000), Some(Code::NoEntry)),
    (Link(3, 2, "z"), None),
    (Link(3, 2, "z"), Some(Code::Exists)),
    (Link(1, 0, "z"), Some(Code::NotPermitted)),
    (Link(4, 0, "z"), Some(Code::NoEntry)),
    (Link(3, 5, "z"), Some(Code::NoEntry)),
    (Link(3, 3, "z"), Some(Code::NotDir)),
    (Stat(3), None),
    (Rmdir(0, "e"), Some(Code::NotEmpty)),
    (Unlink(2, "z"), None),
    (Rmdir(0, "e"), None),
    (Rmdir(0, "e"), Some(Code::NoEntry)),
    (Rmdir(1, "b"), Some(Code::NotDir)),
    (Rmdir(3, "a"), Some(Code::NotDir)),
    (Rmdir(5, "a"), Some(Code::NoEntry)),
    (Stat(2), Some(Code::NoEntry)),
    (List(0), None),
    (Link(3, 2, "z"), Some(Code::NoEntry)),
    (Make(0, "n", Kind::File), None),
    (Make(0, "n", Kind::Directory), Some(Code::Exists)),
    (Make(3, "n", Kind::File), Some(Code::NotDir)),
    (Make(5, "n", Kind::File), Some(Code::NoEntry)),
    (Make(33, "n", Kind::File), Some(Code::NoEntry)),
    (Make(70_000, "n", Kind::File), Some(Code::NoEntry)),
    (Make(1, "m", Kind::Directory), None),
    (Make(33, "n", Kind::File), None),
    (Look(33, "n"), None),
    (Stat(32), None),
    (Stat(33), None),
    (List(33), None),
];

// Makes listed calls.
pub(crate) fn make_listed<R: Wait + Abort>(
    rt: &R,
    alloc: Global,
    table: &TreeTable,
    core: &mut FileCore,
    tree: &mut Tree,
    listed: &[(Asked, Option<Code>)],
)
    requires core { IsBetweenCalls table.now core.old }
    requires sound { IsSound tree.old }
    requires known { 0 < length tree.old.made }
    ensures same { IsSameCore core.old core.new }
    ensures between { IsBetweenCalls table.now core.new }
    ensures sound { IsSound tree.new }
    ensures known { 0 < length tree.new.made }
{
    for (asked, code) in listed {
        let reply = agrees(rt, alloc, table, core, tree, *asked);
        holds(rt, is_code(&reply, *code));
    }
}

// The history of a table whose one core made the listed calls, each with the reply of a plain tree.
fn listed_history<R: Wait + Abort>(
    rt: &R,
    alloc: Global,
    tree: &Tree,
    listed: &[(Asked, Option<Code>)],
) -> History
    requires tree { BeginsTable tree.now FIRST SHARE 1 }
{
    let mut plain = got(rt, tree.copy());
    let (table, mut cores) = got(rt, begun(alloc, tree, FIRST, SHARE, 1));
    make_listed(rt, alloc, &table, &mut cores[0], &mut plain, listed);
    let (history, _) = table.into_shared().close(cores);
    history
}

#[test]
fn listed_calls_have_the_replies_of_the_tree(rt: HostRuntime) {
    let alloc = rt.alloc();
    let tree = got(&rt, begun_tree(&rt, alloc, 1));
    let history = listed_history(&rt, alloc, &tree, &LISTED);
    let listed = got(&rt, is_listed(&history, tree, &LISTED));
    holds(&rt, listed);
}
