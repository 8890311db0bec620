// Scripts that are drawn, on a disk one of whose device calls fails: their histories are legal, and what a crash leaves then can be recovered.
ghost use Rattle.std.specs.List.{AllByRecursion};
ghost use Rattle.script.specs.Ready.{LinesMayRun};
ghost use Rattle.test_volume.specs.Base.{IsFirst};

use crate::helpers::{got, holds, same};
use crate::judged::{Base, Health, NODES, answers_in, base_of};
use crate::machine::assert_taken;
use crate::runs::{Ran, copy_of, phases_in, run, run_on};
use crate::scripts::{Dice, draw};
use crate::shaking::Shaker;
use crate::told::plain_tree;
use crate::trees::{assert_left, assert_recovers};
use dev_fake::FailAt;
use fmt_super::Layout;
use recovery::RecoverFault;
use script::Script;
use sfs_dev::Disk;
use std::alloc::Global;
use std::process::Abort;
use std::sync::Wait;
use std::thread::Threads;

// How many scripts are drawn.
const SCRIPTS: u64 = 40;

const LAYOUT: Layout = Layout {
    blocks: 128,
    inodes: 48,
    cores: 4,
    slots: 1,
};

/// How many device calls a script makes on a disk that does not fail.
pub(crate) fn calls_of<R: Threads + Wait + Sync + Abort>(
    rt: &R,
    alloc: Global,
    base: &Base,
    script: &Script,
    seed: u64,
) -> u64
    requires { AllByRecursion LinesMayRun script.now }
{
    let disk = copy_of(rt, alloc, &base.image);
    run(rt, alloc, disk, NODES, script, &Shaker::of(seed))
        .disk
        .now()
}

/// Asserts that the history is legal, and that one fsync met the fault if there was one. Answers how many faults there were.
pub(crate) fn assert_answers(rt: &impl Abort, alloc: Global, base: &Base, ran: &Ran<FailAt>) -> u64
    requires { IsFirst base.now.first }
{
    holds(rt, ran.ended);
    let faults = ran.disk.faults();
    let health = if faults == 0 {
        Health::Well
    } else {
        Health::FailsOnce
    };
    let _ = plain_tree(rt, alloc, base, ran, health);
    assert_taken(rt, alloc, base, &ran.history, &ran.turns);
    let (_, failed, _) = answers_in(&ran.history);
    same(rt, &failed, &faults);
    faults
}

// The same, and that what is left recovers. Says whether there was a fault.
fn assert_ran(rt: &impl Abort, alloc: Global, base: &Base, ran: Ran<FailAt>) -> bool
    requires { IsFirst base.now.first }
{
    let faults = assert_answers(rt, alloc, base, &ran);
    let disk = ran.disk.into_inner();
    for pick in 0..4u32 {
        assert_left(rt, alloc, &disk, u64::MAX, pick);
    }
    faults == 1
}

// Runs a script that is drawn on a disk one of whose device calls fails. Says whether it failed behind the mount.
fn assert_failing<R: Threads + Wait + Sync + Abort>(
    rt: &R,
    alloc: Global,
    base: &Base,
    seed: u64,
) -> bool
    requires { IsFirst base.now.first }
{
    let mut dice = Dice::of(seed);
    let workers = 1 + dice.below(4);
    let phases = 1 + dice.below(2);
    let text = draw(rt, alloc, &mut dice, workers, phases);
    let script = phases_in(rt, alloc, text.as_slice());
    let calls = calls_of(rt, alloc, base, &script, seed);
    holds(rt, 0 < calls);
    let call = dice.below(calls);
    let disk = FailAt::new(
        copy_of(rt, alloc, &base.image),
        got(rt, vec![in alloc; call]),
    );
    match run_on(rt, alloc, disk, NODES, &script, &Shaker::of(seed)) {
        Ok(ran) => assert_ran(rt, alloc, base, ran),
        Err(refused) => {
            same(rt, &refused.fault, &RecoverFault::DiskFailed);
            assert_recovers(rt, alloc, &refused.disk.into_inner(), "dir 2 0 /\n");
            false
        }
    }
}

#[test]
fn a_device_call_that_fails_leaves_a_legal_history_and_an_image(rt: HostRuntime) {
    let alloc = rt.alloc();
    let base = base_of(&rt, alloc, LAYOUT);
    let mut met = 0u64;
    for seed in 0..SCRIPTS {
        if assert_failing(&rt, alloc, &base, seed) {
            met = met.saturating_add(1);
        }
    }
    holds(&rt, 0 < met);
}
