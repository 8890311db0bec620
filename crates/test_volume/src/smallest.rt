// The smallest run that changes a disk: one directory is made and flushed.
use crate::helpers::{got, holds, same, same_list, some};
use crate::runs::{image, phases_in, run};
use crate::trees::assert_recovers;
use fmt_super::Layout;
use script::text;
use sfs_base::{CoreId, NoGate, NodeId, Stamp};
use sfs_dev::Disk;
use std::process::Abort;
use tree_laws::{History, Turn, TurnAct, Turns};

const LAYOUT: Layout = Layout {
    blocks: 1024,
    inodes: 64,
    cores: 2,
    slots: 1,
};

// The moment at which the entry with this stamp was on the disk.
fn moment_of(history: &History, stamp: u64) -> Option<u64> {
    let mut cursor = history.first();
    for _ in 0..stamp {
        let _ = history.next(&mut cursor);
    }
    match history.next(&mut cursor) {
        Some(entry) => entry.ack,
        None => None,
    }
}

// What a commit without a fault does.
static ACTS: [TurnAct; 4] = [
    TurnAct::Granted,
    TurnAct::CutAt,
    TurnAct::Opened,
    TurnAct::Durable,
];

// Whether turns are those of one commit without a fault, of the root's fsync of stamp 1, by core 0.
fn are_of_one_commit(turns: &Turns) -> bool {
    for (place, act) in ACTS.iter().enumerate() {
        let Some(turn) = turns.get(place as u64) else {
            return false;
        };
        if !is_of_root(turn) || turn.act != *act {
            return false;
        }
    }
    turns.len() == 4
}

// Whether a turn is of the root's fsync of stamp 1, by core 0, with the number of a commit and no fault.
fn is_of_root(turn: &Turn) -> bool {
    turn.core == CoreId(0)
        && turn.node == NodeId(0)
        && turn.stamp == Stamp(1)
        && turn.commit != 0
        && turn.faults == 0
}

#[test]
fn a_directory_that_is_flushed_is_on_the_disk(rt: HostRuntime) {
    let alloc = rt.alloc();
    let script = phases_in(&rt, alloc, b"0 mkdir /a\n0 fsync /\n".as_slice());
    let disk = image(&rt, alloc, LAYOUT);
    let ran = run(&rt, alloc, disk, 4096, &script, &NoGate);
    let is = got(&rt, text(alloc, &ran.history));
    let wanted = b"0 0 mkdir 0 a = node 64 dir\n1 0 fsync 0 = ok\n";
    same_list(&rt, is.as_slice(), wanted.as_slice());
    same(&rt, &moment_of(&ran.history, 0), &None);
    let moment = some(&rt, moment_of(&ran.history, 1));
    holds(&rt, are_of_one_commit(&ran.turns));
    let last = some(&rt, ran.turns.get(3));
    same(&rt, &last.now, &moment);
    holds(&rt, moment <= ran.disk.now());
    assert_recovers(&rt, alloc, &ran.disk, "dir 3 1 /\ndir 2 0 /a\n");
}
