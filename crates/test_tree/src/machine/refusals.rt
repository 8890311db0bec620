// Each reason to refuse an event, and the first of two.
use super::{Due, Given, Run, Told, begun};
use crate::calls::Asked::{Fsync, Mkdir, Rmdir};
use std::process::Abort;

// Each reason to refuse a call, an opening or an end, and then the event as it is right.
static CALLS: [(Told, Due); 15] = [
    (
        Told::Call(1, 0, Mkdir(0, "a"), Given::Directory(3)),
        Due::NotNext(0),
    ),
    (
        Told::Call(1, 0, Mkdir(0, "a"), Given::Directory(4)),
        Due::NotNext(0),
    ),
    (
        Told::Call(0, 0, Mkdir(0, "a"), Given::Directory(4)),
        Due::NotLegal(Given::Directory(3)),
    ),
    (
        Told::Call(0, 0, Mkdir(0, "a"), Given::Directory(3)),
        Due::Taken,
    ),
    (
        Told::Call(1, 0, Fsync(3), Given::Done),
        Due::NotLegal(Given::Done),
    ),
    (Told::Call(1, 0, Fsync(3), Given::Acked(9)), Due::Taken),
    (Told::CutAt(1, 3, 3), Due::Late(3)),
    (Told::CutAt(1, 3, 2), Due::Taken),
    (Told::Opened(2), Due::NotFlying(2)),
    (Told::Durable(2), Due::NotFlying(2)),
    (Told::Durable(1), Due::NotOpened(1)),
    (Told::Opened(1), Due::Taken),
    (Told::Opened(1), Due::AlreadyOpened(1)),
    (Told::Durable(1), Due::Taken),
    (Told::Durable(1), Due::NotFlying(1)),
];

fn tell_calls(rt: &impl Abort, run: &mut Run) {
    run.tell(rt, &CALLS);
}

// 3 has its inode now. A commit of it and of its new children 4 and 11 flies; one of a child would flush 3 too, where it was made.
static COMMITS: [(Told, Due); 12] = [
    (
        Told::Call(2, 1, Mkdir(3, "b"), Given::Directory(11)),
        Due::Taken,
    ),
    (
        Told::Call(3, 0, Mkdir(3, "c"), Given::Directory(4)),
        Due::Taken,
    ),
    (Told::CutAt(1, 3, 99), Due::Used(1)),
    (Told::CutAt(2, 3, 4), Due::Taken),
    (Told::CutAt(2, 3, 4), Due::Used(2)),
    (Told::CutAt(3, 11, 4), Due::Meets(3)),
    (Told::CutAt(3, 4, 99), Due::Meets(3)),
    (Told::CutAt(3, 0, 5), Due::Late(5)),
    (Told::CutAt(3, 0, 4), Due::Taken),
    (Told::Crash(&[2, 9]), Due::NotFlying(9)),
    (Told::Crash(&[2]), Due::NotOpened(2)),
    (Told::Opened(2), Due::Taken),
];

fn tell_commits(rt: &impl Abort, run: &mut Run) {
    run.tell(rt, &COMMITS);
}

// A commit fails, and then the run ends.
static ENDS: [(Told, Due); 14] = [
    (Told::Fail(9), Due::NotFlying(9)),
    (Told::Fail(3), Due::Taken),
    (Told::Fail(2), Due::Taken),
    (Told::CutAt(2, 3, 99), Due::Stopped(3)),
    (Told::Opened(9), Due::Stopped(3)),
    (Told::Durable(2), Due::Stopped(3)),
    (Told::Call(4, 0, Rmdir(3, "b"), Given::Done), Due::Taken),
    (Told::Crash(&[3, 2]), Due::NotOpened(3)),
    (Told::Crash(&[2, 2]), Due::Taken),
    (Told::Call(9, 0, Rmdir(3, "b"), Given::Done), Due::Crashed),
    (Told::CutAt(1, 3, 99), Due::Crashed),
    (Told::Durable(2), Due::Crashed),
    (Told::Fail(9), Due::Crashed),
    (Told::Crash(&[]), Due::Crashed),
];

fn tell_ends(rt: &impl Abort, run: &mut Run) {
    run.tell(rt, &ENDS);
}

// The cut of 3 is that of the commit which the crash kept, and the row b of 11 stands at it.
static AFTER_ENDS: [(u32, u64, bool); 5] = [
    (0, 2, true),
    (3, 4, true),
    (4, 0, true),
    (5, 0, false),
    (11, 0, true),
];

fn assert_ends(rt: &impl Abort, run: &Run) {
    run.assert_nodes(rt, &AFTER_ENDS);
}

// Tells all events, one after another.
fn tell_all(rt: &impl Abort, run: &mut Run) {
    tell_calls(rt, run);
    tell_commits(rt, run);
    tell_ends(rt, run);
}

#[test]
fn each_event_is_refused_for_its_first_reason_and_taken_when_it_is_right(rt: HostRuntime) {
    let mut run = begun(&rt, rt.alloc());
    tell_all(&rt, &mut run);
    assert_ends(&rt, &run);
}
