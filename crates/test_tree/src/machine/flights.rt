// A run of twenty calls and three commits.
use super::{Due, Given, Run, Told, begun};
use crate::calls::Asked::{Create, Fsync, Link, Mkdir, Rename, Rmdir, Unlink, Write};
use std::process::Abort;
use tree_laws::Code;

// Calls up to the first commit, which becomes durable. It flushes 3, and the root, where 3 was made.
static FIRST: [(Told, Due); 11] = [
    (
        Told::Call(0, 0, Mkdir(0, "a"), Given::Directory(3)),
        Due::Taken,
    ),
    (
        Told::Call(1, 0, Mkdir(0, "b"), Given::Directory(4)),
        Due::Taken,
    ),
    (
        Told::Call(2, 1, Mkdir(0, "d"), Given::Directory(11)),
        Due::Taken,
    ),
    (Told::Call(3, 0, Create(3, "f"), Given::File(5)), Due::Taken),
    (Told::Call(4, 0, Write(5, 0, "hi"), Given::Done), Due::Taken),
    (Told::Call(5, 0, Link(5, 4, "g"), Given::Done), Due::Taken),
    (
        Told::Call(6, 1, Mkdir(11, "c"), Given::Directory(12)),
        Due::Taken,
    ),
    (Told::CutAt(1, 3, 7), Due::Taken),
    (Told::Opened(1), Due::Taken),
    (Told::Durable(1), Due::Taken),
    (Told::Call(7, 0, Fsync(3), Given::Acked(9)), Due::Taken),
];

fn tell_first(rt: &impl Abort, run: &mut Run) {
    run.tell(rt, &FIRST);
}

// The root has the rows a, b and d now, and 3 has f.
static AFTER_FIRST: [(u32, u64, bool); 9] = [
    (0, 7, true),
    (1, 0, false),
    (2, 0, false),
    (3, 7, true),
    (4, 0, true),
    (5, 0, true),
    (11, 0, true),
    (12, 0, false),
    (13, 0, false),
];

fn assert_first(rt: &impl Abort, run: &Run) {
    run.assert_nodes(rt, &AFTER_FIRST);
}

// Two commits fly side by side, one of 11 and of 12, which ended in it, and one of 4, 3 and the root, with the directory that moved
// from 4 to 3 and the file that both have lost. The second is opened, then the first fails, and the second is kept.
static SECOND: [(Told, Due); 17] = [
    (
        Told::Call(8, 0, Mkdir(4, "h"), Given::Directory(6)),
        Due::Taken,
    ),
    (
        Told::Call(9, 0, Rename(4, "h", 3, "h"), Given::Done),
        Due::Taken,
    ),
    (Told::Call(10, 1, Unlink(3, "f"), Given::Done), Due::Taken),
    (Told::Call(11, 1, Rmdir(11, "c"), Given::Done), Due::Taken),
    (
        Told::Call(12, 1, Mkdir(0, "a"), Given::Error(Code::Exists)),
        Due::Taken,
    ),
    (Told::Call(13, 0, Unlink(4, "g"), Given::Done), Due::Taken),
    (Told::CutAt(2, 11, 12), Due::Taken),
    (Told::CutAt(3, 4, 14), Due::Taken),
    (Told::Opened(3), Due::Taken),
    (
        Told::Call(14, 0, Write(5, 0, "no"), Given::Error(Code::NoEntry)),
        Due::Taken,
    ),
    (
        Told::Call(15, 0, Create(4, "k"), Given::File(7)),
        Due::Taken,
    ),
    (
        Told::Call(16, 1, Rename(4, "k", 11, "k"), Given::Done),
        Due::Taken,
    ),
    (
        Told::Call(17, 0, Mkdir(3, "m"), Given::Directory(8)),
        Due::Taken,
    ),
    (Told::Call(18, 1, Fsync(6), Given::NoSpace), Due::Taken),
    (Told::Fail(2), Due::Taken),
    (Told::Call(19, 1, Fsync(11), Given::DiskFailed), Due::Taken),
    (Told::Crash(&[3]), Due::Taken),
];

fn tell_second(rt: &impl Abort, run: &mut Run) {
    run.tell(rt, &SECOND);
}

// 3 has the row h of 6 now, and no row names 5; 11 stays as it was.
static AFTER_SECOND: [(u32, u64, bool); 10] = [
    (0, 14, true),
    (1, 0, false),
    (3, 14, true),
    (4, 14, true),
    (5, 0, false),
    (6, 0, true),
    (7, 0, false),
    (8, 0, false),
    (11, 0, true),
    (12, 0, false),
];

fn assert_second(rt: &impl Abort, run: &Run) {
    run.assert_nodes(rt, &AFTER_SECOND);
}

#[test]
fn one_commit_is_durable_one_fails_and_one_is_kept(rt: HostRuntime) {
    let mut run = begun(&rt, rt.alloc());
    tell_first(&rt, &mut run);
    assert_first(&rt, &run);
    tell_second(&rt, &mut run);
    assert_second(&rt, &run);
}
