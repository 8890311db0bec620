// Two cores in turns, with each device call failing alone, and with the disk broken off at each.
use crate::bases::{base, ended};
use crate::helpers::{got, holds, same};
use crate::judging::judge;
use dev_fake::{FailAt, Fuse};
use driven_journals::{Book, Order, Until, begun};
use fmt_super::Layout;
use journal_set::CommitFault;
use sfs_dev::{Disk, Memory};
use std::alloc::Global;
use std::process::Abort;
use std::sync::Wait;

const ONE_SLOT: Layout = Layout {
    blocks: 24,
    inodes: 16,
    cores: 2,
    slots: 1,
};

const TWO_SLOTS: Layout = Layout {
    blocks: 28,
    inodes: 16,
    cores: 2,
    slots: 2,
};

// What a run with a failing disk left: the disk under it, and the cores' books.
#[derive(Drop)]
pub(crate) struct Left {
    pub disk: Memory,
    pub books: Vec<Book>,
}

// How many cores were answered that the disk had failed, and that an earlier commit had.
fn faults_in(books: &[Book]) -> (u64, u64) {
    let mut failed = 0u64;
    let mut stopped = 0u64;
    for book in books {
        match book.fault {
            Some(CommitFault::DiskFailed { faults: 1 }) => failed = failed.saturating_add(1),
            Some(CommitFault::Stopped { faults: 1 }) => stopped = stopped.saturating_add(1),
            _ => {}
        }
    }
    (failed, stopped)
}

// Asserts that one core was told of the fault, where there was one, and the other one too, unless it had made all its commits; and that the disk has
// what is allowed, by eight draws. All commits that were ever durable are to be there.
pub(crate) fn assert_left(rt: &impl Abort, alloc: Global, left: &Left, fails: bool) {
    let (failed, stopped) = faults_in(&left.books);
    same(rt, &failed, &u64::from(fails));
    holds(rt, stopped <= failed);
    for pick in 0..8u32 {
        let mut image = got(rt, left.disk.left(alloc, u64::MAX, pick));
        let verdict = judge(rt, alloc, &mut image, &left.books, u64::MAX);
        holds(rt, verdict.allowed);
    }
}

// Two cores of two commits each in step, on a disk one of whose device calls fails.
fn run_failing<R: Wait + Abort>(rt: &R, alloc: Global, layout: Layout, call: u64) -> Left {
    let disk = base(rt, alloc, layout);
    let disk = FailAt::new(disk, got(rt, vec![in alloc; call]));
    holds(
        rt,
        layout.is_valid(layout.blocks) && disk.len() == layout.blocks,
    );
    let mut driven = got(rt, begun(alloc, disk, layout, 2, 2));
    driven.drive(rt, alloc, Order::InStep { next: 0 }, Until::Rest);
    let ended = ended(rt, driven.end(alloc));
    Left {
        disk: ended.disk.into_inner(),
        books: ended.books,
    }
}

// The same on a disk that is broken off at a device call.
fn run_broken_off<R: Wait + Abort>(rt: &R, alloc: Global, layout: Layout, passes: u64) -> Left {
    let disk = Fuse::new(base(rt, alloc, layout), passes);
    holds(
        rt,
        layout.is_valid(layout.blocks) && disk.len() == layout.blocks,
    );
    let mut driven = got(rt, begun(alloc, disk, layout, 2, 2));
    driven.drive(rt, alloc, Order::InStep { next: 1 }, Until::Rest);
    let ended = ended(rt, driven.end(alloc));
    Left {
        disk: ended.disk.into_inner(),
        books: ended.books,
    }
}

// The same on a disk of which every device call fails in turn.
fn assert_each_failing<R: Wait + Abort>(rt: &R, alloc: Global, layout: Layout) {
    let all = run_failing(rt, alloc, layout, u64::MAX);
    let calls = all.disk.calls().len() as u64;
    holds(rt, 20 < calls);
    assert_left(rt, alloc, &all, false);
    for call in 0..calls {
        let left = run_failing(rt, alloc, layout, call);
        same(rt, &(left.disk.calls().len() as u64), &call);
        assert_left(rt, alloc, &left, true);
    }
}

fn assert_each_broken_off<R: Wait + Abort>(rt: &R, alloc: Global, layout: Layout) {
    let all = run_broken_off(rt, alloc, layout, u64::MAX);
    let calls = all.disk.calls().len() as u64;
    holds(rt, 20 < calls);
    assert_left(rt, alloc, &all, false);
    for passes in 0..calls {
        let left = run_broken_off(rt, alloc, layout, passes);
        same(rt, &(left.disk.calls().len() as u64), &passes);
        assert_left(rt, alloc, &left, true);
    }
}

#[test]
fn a_device_call_that_fails_stops_both_cores(rt: HostRuntime) {
    assert_each_failing(&rt, rt.alloc(), ONE_SLOT);
}

#[test]
fn a_device_call_that_fails_stops_both_cores_of_two_slots(rt: HostRuntime) {
    assert_each_failing(&rt, rt.alloc(), TWO_SLOTS);
}

#[test]
fn a_disk_that_is_broken_off_stops_both_cores(rt: HostRuntime) {
    assert_each_broken_off(&rt, rt.alloc(), ONE_SLOT);
}

#[test]
fn a_disk_that_is_broken_off_stops_both_cores_of_two_slots(rt: HostRuntime) {
    assert_each_broken_off(&rt, rt.alloc(), TWO_SLOTS);
}
