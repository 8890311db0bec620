// Cores side by side in threads: every image that a crash leaves, and each device call failing.
use crate::bases::{base, ended};
use crate::faults::{Left, assert_left};
use crate::helpers::{got, holds};
use crate::sweeps::judge_all;
use dev_fake::{FailAt, Fuse};
use driven_journals::begun;
use fmt_super::Layout;
use sfs_base::NoGate;
use sfs_dev::{Disk, Memory};
use std::alloc::Global;
use std::process::Abort;
use std::sync::Wait;
use std::sync::atomic::AtomicU64;
use std::thread::Threads;

const LAYOUT: Layout = Layout {
    blocks: 28,
    inodes: 16,
    cores: 2,
    slots: 2,
};

// Two cores of two commits each side by side, on a disk one of whose device calls fails.
fn run_failing<R: Threads + Wait + Sync + Abort>(rt: &R, alloc: Global, call: u64) -> Left {
    let disk = base(rt, alloc, LAYOUT);
    let disk = FailAt::new(disk, got(rt, vec![in alloc; call]));
    holds(rt, LAYOUT.is_valid(28) && disk.len() == 28);
    let mut driven = got(rt, begun(alloc, disk, LAYOUT, 2, 2));
    driven.side_by_side(rt, alloc, &NoGate, &AtomicU64::new(0));
    let ended = ended(rt, driven.end(alloc));
    Left {
        disk: ended.disk.into_inner(),
        books: ended.books,
    }
}

// The same on a disk that is broken off at a device call.
fn run_broken_off<R: Threads + Wait + Sync + Abort>(rt: &R, alloc: Global, passes: u64) -> Left {
    let disk = Fuse::new(base(rt, alloc, LAYOUT), passes);
    holds(rt, LAYOUT.is_valid(28) && disk.len() == 28);
    let mut driven = got(rt, begun(alloc, disk, LAYOUT, 2, 2));
    driven.side_by_side(rt, alloc, &NoGate, &AtomicU64::new(0));
    let ended = ended(rt, driven.end(alloc));
    Left {
        disk: ended.disk.into_inner(),
        books: ended.books,
    }
}

#[test]
fn cores_side_by_side_are_whole_behind_each_crash(rt: HostRuntime) {
    let alloc = rt.alloc();
    let left = run_failing(&rt, alloc, u64::MAX);
    assert_left(&rt, alloc, &left, false);
    let [none, one, _] = judge_all(&rt, alloc, &left.disk, &left.books);
    holds(&rt, none && one);
}

// Device calls fail up to the greatest count that a run was seen to make, each in a run of its own; in the last ones no call may fail.
#[test]
fn a_device_call_that_fails_stops_cores_side_by_side(rt: HostRuntime) {
    let alloc = rt.alloc();
    let mut most = run_failing(&rt, alloc, u64::MAX).disk.calls().len() as u64;
    holds(&rt, 12 < most);
    let mut call = 0u64;
    for _ in 0..400u32 {
        if call >= most {
            break;
        }
        let left = run_failing(&rt, alloc, call);
        let made = left.disk.calls().len() as u64;
        assert_left(&rt, alloc, &left, made == call && left.disk.faults() == 1);
        most = most.max(made);
        call = call.saturating_add(1);
    }
    holds(&rt, call >= most);
}

#[test]
fn a_disk_that_is_broken_off_stops_cores_side_by_side(rt: HostRuntime) {
    let alloc = rt.alloc();
    let mut most = run_broken_off(&rt, alloc, u64::MAX).disk.calls().len() as u64;
    holds(&rt, 12 < most);
    let mut passes = 0u64;
    for _ in 0..400u32 {
        if passes >= most {
            break;
        }
        let left = run_broken_off(&rt, alloc, passes);
        let made = left.disk.calls().len() as u64;
        assert_left(&rt, alloc, &left, made == passes && left.disk.faults() == 1);
        most = most.max(made);
        passes = passes.saturating_add(1);
    }
    holds(&rt, passes >= most);
}
