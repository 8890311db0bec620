// A small script of two workers, on a disk whose device calls fail, each in turn.
ghost use Rattle.std.specs.List.{AllByRecursion};
ghost use Rattle.script.specs.Ready.{LinesMayRun};
ghost use Rattle.test_volume.specs.Base.{IsFirst};

use crate::failing::{assert_answers, calls_of};
use crate::helpers::{got, holds, same};
use crate::judged::{Base, NODES, base_of, is_acknowledged};
use crate::runs::{copy_of, phases_in, run_on};
use crate::shaking::Shaker;
use crate::trees::{assert_recovers, recovered};
use dev_fake::FailAt;
use fmt_super::Layout;
use recovery::RecoverFault;
use script::{Script, tree_text};
use sfs_base::CoreId;
use sfs_dev::Memory;
use std::alloc::Global;
use std::process::Abort;
use std::sync::Wait;
use std::thread::Threads;
use tree_laws::History;

const LAYOUT: Layout = Layout {
    blocks: 128,
    inodes: 48,
    cores: 4,
    slots: 1,
};

const LINES: &str =
    "0 mkdir /a\n0 create /a/f\n0 write /a/f 0 6869\n0 fsync /a/f\n1 mkdir /b\n1 create /b/g\n1 write /b/g 0 6a6b\n1 fsync /b/g\n";

// The trees that its fsyncs may leave, and whether the files of worker 0 and of worker 1 are in them. With a file comes what was made in the root before its directory.
static TREES: [(&str, bool, bool); 6] = [
    ("dir 2 0 /\n", false, false),
    ("dir 3 1 /\ndir 2 1 /a\nfile 1 2 0 /a/f\n", true, false),
    ("dir 3 1 /\ndir 2 1 /b\nfile 1 2 0 /b/g\n", false, true),
    (
        "dir 4 2 /\ndir 2 1 /a\nfile 1 2 0 /a/f\ndir 2 0 /b\n",
        true,
        false,
    ),
    (
        "dir 4 2 /\ndir 2 0 /a\ndir 2 1 /b\nfile 1 2 0 /b/g\n",
        false,
        true,
    ),
    (
        "dir 4 2 /\ndir 2 1 /a\nfile 1 2 0 /a/f\ndir 2 1 /b\nfile 1 2 1 /b/g\n",
        true,
        true,
    ),
];

// Whether an fsync of a core was acknowledged.
fn has_flushed(history: &History, core: CoreId) -> bool {
    let mut cursor = history.first();
    for _ in 0..history.len() {
        if let Some(entry) = history.next(&mut cursor)
            && entry.core == core
            && is_acknowledged(entry)
        {
            return true;
        }
    }
    false
}

// Whether a text is that of one of the trees, with the file of worker 0 and that of worker 1 where they have to be there.
fn is_left(text: &[u8], first: bool, second: bool) -> bool {
    for (tree, has_first, has_second) in &TREES {
        if text == tree.as_bytes() {
            return (*has_first || !first) && (*has_second || !second);
        }
    }
    false
}

// Asserts that what crashes leave of a disk, by four draws, are trees of the script, with the files that have to be there.
fn assert_tree(rt: &impl Abort, alloc: Global, disk: &Memory, first: bool, second: bool) {
    for pick in 0..4u32 {
        let tree = recovered(rt, alloc, disk, pick);
        let text = got(rt, tree_text(alloc, &tree));
        holds(rt, is_left(text.as_slice(), first, second));
    }
}

// Runs the script on a disk whose device call with this number fails. Says whether it failed behind the mount.
fn assert_swept<R: Threads + Wait + Sync + Abort>(
    rt: &R,
    alloc: Global,
    base: &Base,
    script: &Script,
    call: u64,
) -> bool
    requires base { IsFirst base.now.first }
    requires ready { AllByRecursion LinesMayRun script.now }
{
    let image = copy_of(rt, alloc, &base.image);
    let disk = FailAt::new(image, got(rt, vec![in alloc; call]));
    match run_on(rt, alloc, disk, NODES, script, &Shaker::of(call)) {
        Ok(ran) => {
            let faults = assert_answers(rt, alloc, base, &ran);
            let first = has_flushed(&ran.history, CoreId(0));
            let second = has_flushed(&ran.history, CoreId(1));
            assert_tree(rt, alloc, &ran.disk.into_inner(), first, second);
            faults == 1
        }
        Err(refused) => {
            same(rt, &refused.fault, &RecoverFault::DiskFailed);
            assert_recovers(rt, alloc, &refused.disk.into_inner(), "dir 2 0 /\n");
            false
        }
    }
}

#[test]
fn each_device_call_that_fails_leaves_a_tree_of_the_script(rt: HostRuntime) {
    let alloc = rt.alloc();
    let base = base_of(&rt, alloc, LAYOUT);
    let script = phases_in(&rt, alloc, LINES.as_bytes());
    let calls = calls_of(&rt, alloc, &base, &script, 0);
    let mut met = 0u64;
    for call in 0..calls {
        if assert_swept(&rt, alloc, &base, &script, call) {
            met = met.saturating_add(1);
        }
    }
    holds(&rt, 0 < met && met < calls);
}
