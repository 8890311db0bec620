// How many device calls each fsync of one worker makes, whose journal has one slot. A commit that writes b blocks and r inode records makes
// b + 6: besides the blocks the numbers, the records and the head of the slot, a sync, the gate, a sync. The slot stays open. The next
// commit frees it first, by r + 3 more: each record goes into the table, a sync, the gate, a sync. An fsync with nothing to write makes
// none, and behind the last acknowledgement no call is made.
use crate::bench::{SMALL, copy_of, image, run_script};
use crate::helpers::{got, holds, holds_at, same, same_list};
use sfs_dev::{Disk, Memory};
use std::alloc::Global;
use std::process::Abort;
use std::sync::Wait;
use std::thread::Threads;
use tree_laws::History;

// Scripts with the calls of each of their fsyncs, on the image with few inodes.
static FIRST_RUNS: [(&str, &[u64]); 11] = [
    ("", &[]),
    ("0 mkdir /a\n", &[]),
    ("0 fsync /\n", &[0]),
    // The root's block; the records of the root and of the new node.
    ("0 create /a\n0 fsync /\n", &[7]),
    ("0 mkdir /a\n0 fsync /\n0 fsync /\n0 fsync /a\n", &[7, 0, 0]),
    // Besides, a block of the file.
    ("0 create /f\n0 write /f 0 61\n0 fsync /f\n", &[8]),
    // Then two records are placed, and that block and its record are written.
    (
        "0 create /f\n0 write /f 0 61\n0 fsync /f\n0 fsync /\n0 write /f 0 62\n0 fsync /f\n",
        &[8, 0, 12],
    ),
    // A file that was made and removed in between.
    (
        "0 mkdir /d\n0 fsync /\n0 create /d/a\n0 unlink /d/a\n0 fsync /d\n",
        &[7, 0],
    ),
    // The bytes are there, and the name comes: two directories, and the file's links.
    (
        "0 mkdir /p\n0 create /p/f\n0 fsync /p\n0 link /p/f /g\n0 fsync /\n",
        // Both blocks, and root, p and f; these three are placed, and the root's block, root and f are written.
        &[8, 13],
    ),
    // The last row goes: no block, and the records of the directory and of the file.
    (
        "0 mkdir /p\n0 create /p/f\n0 fsync /p\n0 unlink /p/f\n0 fsync /p\n",
        &[8, 12],
    ),
    // A longer file of zeros: its record.
    (
        "0 create /f\n0 fsync /f\n0 trunc /f 100000\n0 fsync /f\n",
        &[7, 11],
    ),
];

// A file that is flushed twice before its directories are: the second one finds nothing to write.
static TWICE: &str =
    "0 mkdir /p\n0 mkdir /q\n0 create /p/f\n0 write /p/f 0 6869\n0 fsync /p/f\n0 fsync /p/f\n0 link /p/f /q/f\n0 unlink /p/f\n0 fsync /p\n0 fsync /q\n";

static TWICE_TEXT: &str =
    "0 0 mkdir 0 p = node 64 dir\n1 0 mkdir 0 q = node 65 dir\n2 0 look 0 p = node 64 dir\n3 0 create 64 f = node 66 file\n4 0 look 0 p = node 64 dir\n5 0 look 64 f = node 66 file\n6 0 write 66 0 6869 = ok\n7 0 look 0 p = node 64 dir\n8 0 look 64 f = node 66 file\n9 0 fsync 66 = ok\n10 0 look 0 p = node 64 dir\n11 0 look 64 f = node 66 file\n12 0 fsync 66 = ok\n13 0 look 0 p = node 64 dir\n14 0 look 64 f = node 66 file\n15 0 look 0 q = node 65 dir\n16 0 link 66 65 f = ok\n17 0 look 0 p = node 64 dir\n18 0 unlink 64 f = ok\n19 0 look 0 p = node 64 dir\n20 0 fsync 64 = ok\n21 0 look 0 q = node 65 dir\n22 0 fsync 65 = ok\n";

// The number of device calls at each acknowledgement.
fn acknowledged(rt: &impl Abort, alloc: Global, history: &History) -> Vec<u64> {
    let mut moments = Vec::new(alloc);
    let mut cursor = history.first();
    for _ in 0..history.len() {
        if let Some(entry) = history.next(&mut cursor)
            && let Some(moment) = entry.ack
        {
            got(rt, moments.push(moment));
        }
    }
    moments
}

// The device calls of each fsync that was answered Ok: those from the acknowledgement before it on.
fn calls_of_fsyncs(
    rt: &impl Abort,
    alloc: Global,
    history: &History,
    disk: &Memory,
    mount: u64,
) -> Vec<u64> {
    let mut counts = Vec::new(alloc);
    let mut before = mount;
    for moment in &acknowledged(rt, alloc, history) {
        got(rt, counts.push(moment.saturating_sub(before)));
        before = *moment;
    }
    // Nothing comes behind the last one.
    same(rt, &before, &disk.now());
    counts
}

// How many device calls a mount of this disk makes.
fn calls_of_mount<R: Threads + Wait + Sync + Abort>(rt: &R, alloc: Global, disk: &Memory) -> u64 {
    let ran = run_script(rt, alloc, b"".as_slice(), copy_of(rt, alloc, disk));
    ran.disk.now()
}

// Asserts the calls of each of these on a copy of this disk.
fn assert_counts<R: Threads + Wait + Sync + Abort>(
    rt: &R,
    alloc: Global,
    disk: &Memory,
    cases: &[(&str, &[u64])],
) {
    let mount = calls_of_mount(rt, alloc, disk);
    for (script, due) in cases {
        let ran = run_script(rt, alloc, script.as_bytes(), copy_of(rt, alloc, disk));
        let counts = calls_of_fsyncs(rt, alloc, &ran.history, &ran.disk, mount);
        holds_at(rt, counts.as_slice() == *due, script);
    }
}

#[test]
fn a_commit_makes_six_calls_besides_its_blocks_and_frees_a_slot_before(rt: HostRuntime) {
    let disk = image(&rt, rt.alloc(), SMALL);
    assert_counts(&rt, rt.alloc(), &disk, &FIRST_RUNS);
}

// A directory `a` and a file `f` of one byte.
static TWO_NODES: &str = "0 mkdir /a\n0 create /f\n0 write /f 0 61\n0 fsync /f\n";

// Scripts on the disk that has these, with the calls of each of their fsyncs. The mount closes the slot that was left open.
static SECOND_RUNS: [(&str, &[u64]); 5] = [
    ("0 fsync /\n0 fsync /a\n0 fsync /f\n", &[0, 0, 0]),
    // What went and came back.
    (
        "0 rename /f /g\n0 rename /a /f\n0 rename /f /a\n0 rename /g /f\n0 fsync /\n",
        &[0],
    ),
    // Another name: the root's block and record.
    ("0 rename /f /g\n0 fsync /\n", &[7]),
    // Another directory of the same name: a block, the root, the new one, and the old one.
    ("0 rmdir /a\n0 mkdir /a\n0 fsync /\n", &[7]),
    // The same bytes once more: they were touched.
    ("0 write /f 0 61\n0 fsync /f\n", &[7]),
];

#[test]
fn a_second_run_writes_what_is_not_there_yet(rt: HostRuntime) {
    let alloc = rt.alloc();
    let ran = run_script(&rt, alloc, TWO_NODES.as_bytes(), image(&rt, alloc, SMALL));
    let disk = copy_of(&rt, alloc, &ran.disk);
    assert_counts(&rt, alloc, &disk, &SECOND_RUNS);
}

// An fsync with nothing to write, one that brings a directory, one with nothing again, one that brings another.
static FOUR_FSYNCS: &str = "0 fsync /\n0 mkdir /a\n0 fsync /\n0 fsync /\n0 mkdir /b\n0 fsync /b\n";

// Behind the mount: at once; after a block, three writes of the slot, a sync, the gate and a sync; at once; and after two records,
// a sync, the gate and a sync, by which the slot is freed, the same again.
static ACKNOWLEDGED: [u64; 4] = [0, 7, 7, 19];

#[test]
fn an_fsync_is_acknowledged_at_the_sync_behind_its_gate(rt: HostRuntime) {
    let alloc = rt.alloc();
    let image = image(&rt, alloc, SMALL);
    let mount = calls_of_mount(&rt, alloc, &image);
    let ran = run_script(&rt, alloc, FOUR_FSYNCS.as_bytes(), image);
    let moments = acknowledged(&rt, alloc, &ran.history);
    assert_behind(&rt, mount, &moments, &ACKNOWLEDGED);
}

// Asserts that the moments are these, counted from the end of the mount on.
fn assert_behind(rt: &impl Abort, mount: u64, moments: &[u64], due: &[u64]) {
    same(rt, &moments.len(), &due.len());
    for (moment, due) in moments.iter().zip(due) {
        same(rt, &moment.saturating_sub(mount), due);
    }
}

#[test]
fn a_file_that_is_flushed_again_makes_no_call(rt: HostRuntime) {
    let alloc = rt.alloc();
    let disk = image(&rt, alloc, SMALL);
    let ran = run_script(&rt, alloc, TWICE.as_bytes(), disk);
    same_list(&rt, ran.text.as_slice(), TWICE_TEXT.as_bytes());
    let moments = acknowledged(&rt, alloc, &ran.history);
    holds(&rt, moments.len() == 4);
    same(&rt, &moments[0], &moments[1]);
}
