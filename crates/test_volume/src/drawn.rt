// Scripts that are drawn, on a disk with ample room: their histories are legal, and where all is flushed the disk has the plain tree.
ghost use Rattle.test_volume.specs.Base.{IsFirst};

use crate::helpers::holds;
use crate::judged::{Base, Health, NODES, answers_in, base_of};
use crate::runs::{copy_of, phases_in, run};
use crate::scripts::{Dice, add_flushes, draw};
use crate::shaking::Shaker;
use crate::told::plain_tree;
use crate::trees::{assert_alike, assert_left, is_deep, recovered};
use fmt_super::Layout;
use sfs_dev::Disk;
use std::alloc::Global;
use std::process::Abort;
use std::sync::Wait;
use std::thread::Threads;

// How many scripts are drawn.
const SCRIPTS: u64 = 20;

// A disk whose cores have one journal slot each, and one whose cores have two.
const ONE_SLOT: Layout = Layout {
    blocks: 128,
    inodes: 48,
    cores: 4,
    slots: 1,
};

const TWO_SLOTS: Layout = Layout {
    blocks: 160,
    inodes: 48,
    cores: 4,
    slots: 2,
};

// Runs a script that is drawn and at whose end all is flushed, and judges its history and the disk. Says whether the tree was flushed to its end: it has no path longer than
// those that are.
fn assert_drawn<R: Threads + Wait + Sync + Abort>(
    rt: &R,
    alloc: Global,
    base: &Base,
    seed: u64,
) -> bool
    requires { IsFirst base.now.first }
{
    let mut dice = Dice::of(seed);
    let workers = 1 + dice.below(4);
    let phases = 1 + dice.below(2);
    let mut text = draw(rt, alloc, &mut dice, workers, phases);
    add_flushes(rt, &mut text);
    let script = phases_in(rt, alloc, text.as_slice());
    let ran = run(
        rt,
        alloc,
        copy_of(rt, alloc, &base.image),
        NODES,
        &script,
        &Shaker::of(seed),
    );
    let plain = plain_tree(rt, alloc, base, &ran, Health::Well);
    let (acknowledged, _, _) = answers_in(&ran.history);
    holds(rt, 0 < acknowledged);
    let calls = dice.below(ran.disk.now().saturating_add(1));
    assert_left(rt, alloc, &ran.disk, calls, dice.below(8) as u32);
    let tree = recovered(rt, alloc, &ran.disk, dice.below(8) as u32);
    if is_deep(rt, alloc, &plain) {
        return false;
    }
    assert_alike(rt, alloc, &tree, &plain);
    true
}

// Runs all scripts on disks with this layout. All but a few of them have no path that is too long to be flushed.
fn assert_all<R: Threads + Wait + Sync + Abort>(rt: &R, alloc: Global, layout: Layout) {
    let base = base_of(rt, alloc, layout);
    let mut flushed = 0u64;
    for seed in 0..SCRIPTS {
        if assert_drawn(rt, alloc, &base, seed) {
            flushed = flushed.saturating_add(1);
        }
    }
    holds(rt, SCRIPTS / 2 < flushed);
}

#[test]
fn drawn_scripts_leave_the_tree_that_their_histories_tell(rt: HostRuntime) {
    assert_all(&rt, rt.alloc(), ONE_SLOT);
}

#[test]
fn drawn_scripts_with_two_slots_a_core_leave_the_tree_that_their_histories_tell(rt: HostRuntime) {
    assert_all(&rt, rt.alloc(), TWO_SLOTS);
}
