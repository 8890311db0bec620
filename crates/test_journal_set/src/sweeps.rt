// Two cores in turns, and every image that a crash leaves.
use crate::bases::{base, ended};
use crate::helpers::{got, holds};
use crate::judging::judge;
use driven_journals::{Book, Order, Until, begun};
use fmt_super::Layout;
use sfs_dev::{Disk, Memory};
use std::alloc::Global;
use std::process::Abort;
use std::sync::Wait;

const ONE_SLOT: Layout = Layout {
    blocks: 24,
    inodes: 16,
    cores: 2,
    slots: 1,
};

const TWO_SLOTS: Layout = Layout {
    blocks: 28,
    inodes: 16,
    cores: 2,
    slots: 2,
};

// Judges what a crash leaves after each device call, by eight draws each. Answers which numbers of commits beyond the durable ones were met.
pub(crate) fn judge_all(
    rt: &impl Abort,
    alloc: Global,
    disk: &Memory,
    books: &[Book],
) -> [bool; 3] {
    let mut met = [false; 3];
    let calls = disk.calls().len() as u64;
    for made in 0..calls {
        for pick in 0..8u32 {
            let mut left = got(rt, disk.left(alloc, made, pick));
            let verdict = judge(rt, alloc, &mut left, books, made);
            holds(rt, verdict.allowed && verdict.beyond < 3);
            met[verdict.beyond as usize] = true;
        }
    }
    met
}

// Drives two cores of two commits each in an order, and judges each image. Some images have no commit beyond the durable ones, and some have one.
fn assert_whole<R: Wait + Abort>(rt: &R, alloc: Global, layout: Layout, order: Order) {
    let disk = base(rt, alloc, layout);
    holds(
        rt,
        layout.is_valid(layout.blocks) && disk.len() == layout.blocks,
    );
    let mut driven = got(rt, begun(alloc, disk, layout, 2, 2));
    driven.drive(rt, alloc, order, Until::Rest);
    let ended = ended(rt, driven.end(alloc));
    let [none, one, _] = judge_all(rt, alloc, &ended.disk, &ended.books);
    holds(rt, none && one);
}

#[test]
fn two_cores_in_step_are_whole_behind_each_crash(rt: HostRuntime) {
    assert_whole(&rt, rt.alloc(), ONE_SLOT, Order::InStep { next: 0 });
}

#[test]
fn two_cores_of_two_slots_in_step_are_whole_behind_each_crash(rt: HostRuntime) {
    assert_whole(&rt, rt.alloc(), TWO_SLOTS, Order::InStep { next: 1 });
}

#[test]
fn two_cores_in_a_drawn_order_are_whole_behind_each_crash(rt: HostRuntime) {
    assert_whole(&rt, rt.alloc(), ONE_SLOT, Order::Drawn { state: 1 });
}

#[test]
fn two_cores_of_two_slots_in_a_drawn_order_are_whole_behind_each_crash(rt: HostRuntime) {
    assert_whole(&rt, rt.alloc(), TWO_SLOTS, Order::Drawn { state: 2 });
}
