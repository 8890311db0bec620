// Scripts that are drawn, on a disk with too little room: an fsync that is refused says what it needs, and changes nothing.
ghost use Rattle.test_volume.specs.Base.{IsFirst};

use crate::helpers::holds;
use crate::judged::{Base, Health, NODES, answers_in, base_of};
use crate::machine::assert_taken;
use crate::runs::{copy_of, phases_in, run};
use crate::scripts::{Dice, draw};
use crate::shaking::Shaker;
use crate::told::plain_tree;
use crate::trees::assert_left;
use fmt_super::Layout;
use sfs_dev::Disk;
use std::alloc::Global;
use std::process::Abort;
use std::sync::Wait;
use std::thread::Threads;

// How many scripts are drawn.
const SCRIPTS: u64 = 60;

// One block for data.
const ONE_BLOCK: Layout = Layout {
    blocks: 20,
    inodes: 16,
    cores: 4,
    slots: 1,
};

// Runs a script that is drawn, and judges its history and what a crash may leave. Answers how many fsyncs were acknowledged, and how many had too little room.
fn assert_crowded<R: Threads + Wait + Sync + Abort>(
    rt: &R,
    alloc: Global,
    base: &Base,
    seed: u64,
) -> (u64, u64)
    requires { IsFirst base.now.first }
{
    let mut dice = Dice::of(seed);
    let workers = 1 + dice.below(4);
    let phases = 1 + dice.below(2);
    let text = draw(rt, alloc, &mut dice, workers, phases);
    let script = phases_in(rt, alloc, text.as_slice());
    let disk = copy_of(rt, alloc, &base.image);
    let ran = run(rt, alloc, disk, NODES, &script, &Shaker::of(seed));
    let _ = plain_tree(rt, alloc, base, &ran, Health::Crowded);
    assert_taken(rt, alloc, base, &ran.history, &ran.turns);
    let calls = ran.disk.now();
    for pick in 0..4u32 {
        let calls = dice.below(calls.saturating_add(1));
        assert_left(rt, alloc, &ran.disk, calls, pick);
    }
    let (acknowledged, _, short) = answers_in(&ran.history);
    (acknowledged, short)
}

#[test]
fn fsyncs_without_room_leave_legal_histories(rt: HostRuntime) {
    let alloc = rt.alloc();
    let base = base_of(&rt, alloc, ONE_BLOCK);
    let mut all_acknowledged = 0u64;
    let mut all_short = 0u64;
    for seed in 0..SCRIPTS {
        let (acknowledged, short) = assert_crowded(&rt, alloc, &base, seed);
        all_acknowledged = all_acknowledged.saturating_add(acknowledged);
        all_short = all_short.saturating_add(short);
    }
    holds(&rt, 0 < all_acknowledged && 0 < all_short);
}
