// The turns at the disk that a run's fsyncs take: what each did, at which count of device calls and of faults. A moment is told
// from the end of the mount on.
use crate::bench::{SMALL, Size, copy_of, image, run_script};
use crate::helpers::{got, same};
use dev_fake::FailAt;
use sfs_base::SpaceKind;
use sfs_dev::Disk;
use std::alloc::Global;
use std::process::Abort;
use std::sync::Wait;
use std::thread::Threads;
use tree_laws::{TurnAct, Turns};

// Of a turn: the stamp of its fsync, the node, the commit's number, the device calls and the faults so far, and what was done.
type Told = (u64, u32, u64, u64, u64, TurnAct);

// A commit of a block and two records: the block, the slot's three writes, a sync, the gate and a sync. It is noted with its gate.
const FIRST: [Told; 4] = [
    (1, 0, 1, 0, 0, TurnAct::Granted),
    (1, 0, 1, 6, 0, TurnAct::CutAt),
    (1, 0, 1, 6, 0, TurnAct::Opened),
    (1, 0, 1, 7, 0, TurnAct::Durable),
];

// An fsync with nothing to write, after the first one's seven device calls.
const NOTHING_LEFT: [Told; 3] = [
    (2, 0, 2, 7, 0, TurnAct::CutAt),
    (2, 0, 2, 7, 0, TurnAct::Opened),
    (2, 0, 2, 7, 0, TurnAct::Durable),
];

// What the second commit and the next fsync did where a device call fails: the first record that frees the slot, the sync behind its gate,
// the block, the sync before the gate, the gate, and the sync behind it.
static FAILED: [(u64, &[Told]); 6] = [
    (7, &FAILED_FREEING),
    (11, &FAILED_FREE),
    (12, &FAILED_BLOCK),
    (16, &FAILED_SEAL),
    (17, &FAILED_GATE),
    (18, &FAILED_OPENED),
];

const FAILED_FREEING: [Told; 4] = [
    (3, 0, 2, 7, 0, TurnAct::Granted),
    (3, 0, 2, 8, 0, TurnAct::CutAt),
    (3, 0, 2, 8, 1, TurnAct::Fail),
    (5, 0, 0, 8, 1, TurnAct::Halted),
];

const FAILED_FREE: [Told; 4] = [
    (3, 0, 2, 7, 0, TurnAct::Granted),
    (3, 0, 2, 12, 0, TurnAct::CutAt),
    (3, 0, 2, 12, 1, TurnAct::Fail),
    (5, 0, 0, 12, 1, TurnAct::Halted),
];

const FAILED_BLOCK: [Told; 4] = [
    (3, 0, 2, 7, 0, TurnAct::Granted),
    (3, 0, 2, 13, 0, TurnAct::CutAt),
    (3, 0, 2, 13, 1, TurnAct::Fail),
    (5, 0, 0, 13, 1, TurnAct::Halted),
];

const FAILED_SEAL: [Told; 4] = [
    (3, 0, 2, 7, 0, TurnAct::Granted),
    (3, 0, 2, 17, 0, TurnAct::CutAt),
    (3, 0, 2, 17, 1, TurnAct::Fail),
    (5, 0, 0, 17, 1, TurnAct::Halted),
];

const FAILED_GATE: [Told; 5] = [
    (3, 0, 2, 7, 0, TurnAct::Granted),
    (3, 0, 2, 18, 0, TurnAct::CutAt),
    (3, 0, 2, 18, 0, TurnAct::Opened),
    (3, 0, 2, 18, 1, TurnAct::Fail),
    (5, 0, 0, 18, 1, TurnAct::Halted),
];

const FAILED_OPENED: [Told; 5] = [
    (3, 0, 2, 7, 0, TurnAct::Granted),
    (3, 0, 2, 18, 0, TurnAct::CutAt),
    (3, 0, 2, 18, 0, TurnAct::Opened),
    (3, 0, 2, 19, 1, TurnAct::Fail),
    (5, 0, 0, 19, 1, TurnAct::Halted),
];

// A block is needed, and the only one holds the root's rows.
const SHORT: [Told; 1] = [(
    3,
    0,
    0,
    7,
    0,
    TurnAct::Short {
        kind: SpaceKind::Blocks,
        need: 1,
        free: 0,
    },
)];

// An image with one block for data.
const ONE_BLOCK: Size = (8, 16, 1);

const THREE_DIRECTORIES: &str =
    "0 mkdir /a\n0 fsync /\n0 mkdir /b\n0 fsync /\n0 mkdir /c\n0 fsync /\n";

// How many device calls a mount of this image makes.
fn calls_of_mount<R: Threads + Wait + Sync + Abort>(rt: &R, alloc: Global, size: Size) -> u64 {
    let ran = run_script(rt, alloc, b"".as_slice(), image(rt, alloc, size));
    ran.disk.now()
}

// Asserts that turns are these, behind a mount with so many device calls.
fn assert_told(rt: &impl Abort, turns: &Turns, mount: u64, due: &[&[Told]]) {
    let mut place = 0u64;
    for part in due {
        for told in *part {
            let (stamp, node, commit, calls, faults, act) = *told;
            if let Some(turn) = turns.get(place) {
                same(rt, &turn.stamp.0, &stamp);
                same(rt, &turn.node.0, &node);
                same(rt, &turn.commit, &commit);
                same(rt, &turn.now, &calls.saturating_add(mount));
                same(rt, &turn.faults, &faults);
                same(rt, &turn.act, &act);
            }
            place = place.saturating_add(1);
        }
    }
    same(rt, &turns.len(), &place);
}

#[test]
fn a_commit_takes_four_turns_and_one_without_need_three(rt: HostRuntime) {
    let alloc = rt.alloc();
    let mount = calls_of_mount(&rt, alloc, SMALL);
    let script = b"0 mkdir /a\n0 fsync /\n0 fsync /\n".as_slice();
    let ran = run_script(&rt, alloc, script, image(&rt, alloc, SMALL));
    assert_told(&rt, &ran.turns, mount, &[&FIRST, &NOTHING_LEFT]);
}

#[test]
fn a_commit_that_fails_stops_the_later_ones(rt: HostRuntime) {
    for (call, due) in &FAILED {
        assert_failing(&rt, rt.alloc(), *call, due);
    }
}

// Asserts the turns where this device call behind the mount fails.
fn assert_failing<R: Threads + Wait + Sync + Abort>(
    rt: &R,
    alloc: Global,
    call: u64,
    due: &[Told],
) {
    let mount = calls_of_mount(rt, alloc, SMALL);
    let number = mount.saturating_add(call);
    let disk = FailAt::new(image(rt, alloc, SMALL), got(rt, vec![in alloc; number]));
    let ran = run_script(rt, alloc, THREE_DIRECTORIES.as_bytes(), disk);
    assert_told(rt, &ran.turns, mount, &[&FIRST, due]);
}

#[test]
fn an_fsync_without_room_takes_one_turn(rt: HostRuntime) {
    let alloc = rt.alloc();
    let mount = calls_of_mount(&rt, alloc, ONE_BLOCK);
    let script = b"0 mkdir /a\n0 fsync /\n0 mkdir /b\n0 fsync /\n".as_slice();
    let disk = copy_of(&rt, alloc, &image(&rt, alloc, ONE_BLOCK));
    let ran = run_script(&rt, alloc, script, disk);
    assert_told(&rt, &ran.turns, mount, &[&FIRST, &SHORT]);
}
