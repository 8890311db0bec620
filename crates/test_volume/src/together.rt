// Cores that change one directory and flush it, in turn and side by side, and files that are flushed again.
use crate::helpers::same;
use crate::judged::{Base, Health, NODES, base_of};
use crate::machine::assert_taken;
use crate::runs::{Ran, copy_of, phases_in, run};
use crate::shaking::Shaker;
use crate::told::plain_tree;
use crate::trees::assert_recovers;
use fmt_super::Layout;
use sfs_base::Stamp;
use sfs_dev::{Disk, Memory};
use std::alloc::Global;
use std::process::Abort;
use std::sync::Wait;
use std::thread::Threads;
use tree_laws::{TurnAct, Turns};

// How often each script is run, each time with other rests at the gate.
const TIMES: u64 = 4;

const LAYOUT: Layout = Layout {
    blocks: 128,
    inodes: 48,
    cores: 4,
    slots: 1,
};

// Runs a script on an empty disk, whose history is legal.
fn run_once<R: Threads + Wait + Sync + Abort>(
    rt: &R,
    alloc: Global,
    base: &Base,
    lines: &str,
    seed: u64,
) -> Ran<Memory> {
    let script = phases_in(rt, alloc, lines.as_bytes());
    let disk = copy_of(rt, alloc, &base.image);
    run(rt, alloc, disk, NODES, &script, &Shaker::of(seed))
}

// Scripts whose outcome is the same in each schedule, with the text of the tree that their disk recovers to.
static SHARED: [(&str, &str); 6] = [
    // Two cores make files in one directory, in two phases, and each flushes it.
    (
        "0 mkdir /d\n0 fsync /\n---\n0 create /d/a\n0 fsync /d\n1 create /d/b\n1 fsync /d\n---\n0 create /d/c\n0 fsync /d\n1 create /d/e\n1 fsync /d\n",
        "dir 3 1 /\ndir 2 4 /d\nfile 1 0 0 /d/a\nfile 1 0 1 /d/b\nfile 1 0 2 /d/c\nfile 1 0 3 /d/e\n",
    ),
    // In the second phase each removes what the other one made.
    (
        "0 mkdir /d\n0 fsync /\n---\n0 create /d/a\n0 fsync /d\n1 create /d/b\n1 fsync /d\n---\n0 unlink /d/b\n0 fsync /d\n1 unlink /d/a\n1 fsync /d\n",
        "dir 3 1 /\ndir 2 0 /d\n",
    ),
    // What one core flushed of two is there, and what both did since is not.
    (
        "0 mkdir /d\n0 fsync /\n---\n0 create /d/a\n1 create /d/b\n---\n0 fsync /d\n---\n0 create /d/c\n0 unlink /d/a\n1 create /d/e\n1 unlink /d/b\n",
        "dir 3 1 /\ndir 2 2 /d\nfile 1 0 0 /d/a\nfile 1 0 1 /d/b\n",
    ),
    // Once the other core flushes, that is there too.
    (
        "0 mkdir /d\n0 fsync /\n---\n0 create /d/a\n1 create /d/b\n---\n0 fsync /d\n---\n0 create /d/c\n0 unlink /d/a\n1 create /d/e\n1 unlink /d/b\n---\n1 fsync /d\n",
        "dir 3 1 /\ndir 2 2 /d\nfile 1 0 0 /d/c\nfile 1 0 1 /d/e\n",
    ),
    // So it is where both move their files into another directory, which a third core flushes: the side that they left comes along.
    (
        "0 mkdir /p\n0 mkdir /q\n0 fsync /\n---\n0 create /p/a\n1 create /p/b\n---\n1 fsync /p\n---\n0 rename /p/a /q/a\n1 rename /p/b /q/b\n---\n2 fsync /q\n",
        "dir 4 2 /\ndir 2 0 /p\ndir 2 2 /q\nfile 1 0 0 /q/a\nfile 1 0 1 /q/b\n",
    ),
    // Three flushes by two cores, with a name that is given again in between.
    (
        "0 mkdir /d\n0 create /d/a\n0 fsync /d\n---\n1 unlink /d/a\n1 fsync /d\n---\n0 mkdir /d/a\n0 create /d/a/b\n---\n1 fsync /d/a\n",
        "dir 3 1 /\ndir 3 1 /d\ndir 2 1 /d/a\nfile 1 0 0 /d/a/b\n",
    ),
];

#[test]
fn cores_flush_one_directory(rt: HostRuntime) {
    let alloc = rt.alloc();
    let base = base_of(&rt, alloc, LAYOUT);
    for (lines, wanted) in &SHARED {
        for seed in 0..TIMES {
            let ran = run_once(&rt, alloc, &base, lines, seed);
            let _ = plain_tree(&rt, alloc, &base, &ran, Health::Well);
            assert_taken(&rt, alloc, &base, &ran.history, &ran.turns);
            assert_recovers(&rt, alloc, &ran.disk, wanted);
        }
    }
}

// How many turns there are of the fsync with a stamp, where all are at one moment, without a device call between them; and what the last one did.
fn empty_turns(turns: &Turns, stamp: Stamp, moment: u64) -> (u64, Option<TurnAct>) {
    let mut count = 0u64;
    let mut last = None;
    for place in 0..turns.len() {
        if let Some(turn) = turns.get(place)
            && turn.stamp == stamp
        {
            if turn.now != moment {
                return (0, None);
            }
            count = count.saturating_add(1);
            last = Some(turn.act);
        }
    }
    (count, last)
}

const FLUSHED_ONCE: &str = "0 create /f\n0 write /f 0 6869\n0 fsync /f\n";

// The stamps are those of the second fsync of the file, and of one of the root, in which it was made.
const FLUSHED_AGAIN: &str = "0 create /f\n0 write /f 0 6869\n0 fsync /f\n0 fsync /f\n0 fsync /\n";

const AGAIN: [Stamp; 2] = [Stamp(6), Stamp(7)];

#[test]
fn what_is_flushed_already_needs_no_device_call(rt: HostRuntime) {
    let alloc = rt.alloc();
    let base = base_of(&rt, alloc, LAYOUT);
    let first = run_once(&rt, alloc, &base, FLUSHED_ONCE, 0);
    let ran = run_once(&rt, alloc, &base, FLUSHED_AGAIN, 0);
    let _ = plain_tree(&rt, alloc, &base, &ran, Health::Well);
    assert_taken(&rt, alloc, &base, &ran.history, &ran.turns);
    let moment = ran.disk.now();
    same(&rt, &moment, &first.disk.now());
    for stamp in &AGAIN {
        let is = empty_turns(&ran.turns, *stamp, moment);
        same(&rt, &is, &(3, Some(TurnAct::Durable)));
    }
    assert_recovers(&rt, alloc, &ran.disk, "dir 2 1 /\nfile 1 2 0 /f\n");
}
