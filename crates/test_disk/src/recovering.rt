// Recovering a disk of 40 blocks with 64 inodes and 2 cores, with two open slots and an orphan. Its data area begins at block 29.
ghost use Rattle.tree_laws.specs.Laws.{IsSoundTree};

use crate::helpers::{got, holds, same};
use crate::making::{Edit, assert_only_read, edit, made_over};
use fmt_super::Layout;
use recovery::{RecoverFault, Report, recover};
use sfs_base::{Kind, NodeId};
use sfs_dev::{Disk, Memory};
use std::alloc::Global;
use std::process::Abort;

// The root has the row `a`, which names inode 1. Under stamp 7 a slot has inode 1 as an empty
// directory; under stamp 3 another has it as a file, and inode 2 as a file of link count 0. The table
// has both free.
const OPEN_SLOTS: [Edit; 12] = [
    (
        86_016,
        &[2, 0, 0, 0, 3, 0, 0, 0, 0, 16, 0, 0, 0, 0, 0, 0, 29],
    ),
    (118_784, &[1, 0, 0, 0, 2, 1, 0, 0, b'a']),
    (4_096, &[1]),
    (4_608, &[1, 0, 0, 0]),
    (4_616, &[7, 0, 0, 0, 0, 0, 0, 0]),
    (8_192, &[1, 0, 0, 0]),
    (12_288, &[2, 0, 0, 0, 2]),
    (45_056, &[1]),
    (45_568, &[2, 0, 0, 0]),
    (45_576, &[3, 0, 0, 0, 0, 0, 0, 0]),
    (49_152, &[1, 0, 0, 0, 2, 0, 0, 0]),
    (53_248, &[1, 0, 0, 0, 1]),
];

const LAYOUT: Layout = Layout {
    blocks: 40,
    inodes: 64,
    cores: 2,
    slots: 1,
};

// What a recovery reports.
fn recovered(rt: &impl Abort, alloc: Global, disk: &mut Memory) -> Report
    ensures { IsSoundTree result.tree }
{
    got(rt, recover(alloc, disk))
}

// The disk with open slots, on which nothing is pending.
pub(crate) fn with_open_slots(rt: &impl Abort, alloc: Global) -> Memory {
    let mut disk = made_over(rt, alloc, &LAYOUT, 0);
    edit(rt, &mut disk, &OPEN_SLOTS);
    edit(rt, &mut disk, &[(53_760, &[1])]);
    holds(rt, disk.sync().is_ok());
    disk
}

// Asserts that the root has one row, and that inode 1 is an empty directory.
fn assert_one_directory(rt: &impl Abort, report: &Report)
    requires { IsSoundTree report.now.tree }
{
    let tree = &report.tree;
    same(
        rt,
        &(tree.kind(NodeId(1)), tree.kind(NodeId(2))),
        &(Some(Kind::Directory), None),
    );
    same(rt, &(tree.links(NodeId(0)), tree.links(NodeId(1))), &(3, 2));
}

#[test]
fn what_open_slots_have_comes_home(rt: HostRuntime) {
    let mut disk = with_open_slots(&rt, rt.alloc());
    let first = recovered(&rt, rt.alloc(), &mut disk);
    same(&rt, &(first.closed, first.freed), &(2, 1));
    assert_one_directory(&rt, &first);
    let bytes = disk.bytes();
    holds(&rt, bytes.len() == 163_840);
    same(&rt, &(bytes[4_096], bytes[45_056]), &(0, 0));
    // The newest record of inode 1, and a free inode 2.
    same(
        &rt,
        &(bytes[86_528], bytes[86_532], bytes[87_040]),
        &(2, 2, 0),
    );
    // Nothing is left to do.
    let calls = disk.calls().len();
    let again = recovered(&rt, rt.alloc(), &mut disk);
    same(&rt, &(again.closed, again.freed), &(0, 0));
    assert_one_directory(&rt, &again);
    assert_only_read(&rt, &disk, calls);
}

#[test]
fn a_recovery_that_is_cut_off_is_begun_again(rt: HostRuntime) {
    let mut disk = with_open_slots(&rt, rt.alloc());
    let began = disk.calls().len() as u64;
    let _ = recovered(&rt, rt.alloc(), &mut disk);
    let mut half_done = false;
    for calls in began..disk.calls().len() as u64 {
        for pick in 0..8u32 {
            let mut left = got(&rt, disk.left(rt.alloc(), calls, pick));
            let report = recovered(&rt, rt.alloc(), &mut left);
            assert_one_directory(&rt, &report);
            if report.closed == 1 {
                half_done = true;
            }
        }
    }
    holds(&rt, half_done);
}

#[test]
fn a_refused_image_is_only_read(rt: HostRuntime) {
    let mut disk = with_open_slots(&rt, rt.alloc());
    // The row names a file.
    edit(&rt, &mut disk, &[(118_788, &[1])]);
    let calls = disk.calls().len();
    match recover(rt.alloc(), &mut disk) {
        Ok(_) => panic!(rt; "taken"),
        Err(fault) => same(&rt, &fault, &RecoverFault::BadImage { inode: 0, rule: 10 }),
    }
    assert_only_read(&rt, &disk, calls);
}
