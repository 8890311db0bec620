// What a crash leaves of a run: its disk is broken off after each number of device calls, and for what was pending then there are
// eight draws. Each image is shown as one of the trees that the script's commits make one after another: with those that were
// acknowledged, and with the next one or without it.
use crate::bench::{Size, assert_text, copy_of, done, image, image_with, run_script};
use crate::helpers::{got, holds, same, same_list};
use dev_fake::{FailAt, Fuse};
use scalefs_run::Status;
use sfs_dev::{Act, Disk, Memory};
use std::alloc::Global;
use std::process::Abort;
use std::sync::Wait;
use std::thread::Threads;
use tree_laws::History;

// A disk of thirteen blocks for data. It has few inodes, since each of its images is copied and shown.
const ROOMY: Size = (24, 16, 2);

// The same with three journal slots a core, of four blocks each.
const RINGS: Size = (40, 16, 2);

// Directories that move into and out of each other, so that a directory flushed without its other side would lie in itself.
const MOVES: &str =
    "0 mkdir /p\n0 mkdir /q\n0 mkdir /r\n0 mkdir /p/b\n0 mkdir /r/a\n0 fsync /\n0 fsync /p\n0 fsync /r\n0 rename /p/b /r/a/b\n0 fsync /r/a\n0 rename /r/a/b /q/b\n0 rename /r/a /q/b/a\n0 fsync /r\n";

const MOVES_TEXT: &str =
    "0 0 mkdir 0 p = node 16 dir\n1 0 mkdir 0 q = node 17 dir\n2 0 mkdir 0 r = node 18 dir\n3 0 look 0 p = node 16 dir\n4 0 mkdir 16 b = node 19 dir\n5 0 look 0 r = node 18 dir\n6 0 mkdir 18 a = node 20 dir\n7 0 fsync 0 = ok\n8 0 look 0 p = node 16 dir\n9 0 fsync 16 = ok\n10 0 look 0 r = node 18 dir\n11 0 fsync 18 = ok\n12 0 look 0 p = node 16 dir\n13 0 look 0 r = node 18 dir\n14 0 look 18 a = node 20 dir\n15 0 rename 16 b 20 b = ok\n16 0 look 0 r = node 18 dir\n17 0 look 18 a = node 20 dir\n18 0 fsync 20 = ok\n19 0 look 0 r = node 18 dir\n20 0 look 18 a = node 20 dir\n21 0 look 0 q = node 17 dir\n22 0 rename 20 b 17 b = ok\n23 0 look 0 r = node 18 dir\n24 0 look 0 q = node 17 dir\n25 0 look 17 b = node 19 dir\n26 0 rename 18 a 19 a = ok\n27 0 look 0 r = node 18 dir\n28 0 fsync 18 = ok\n";

static MOVES_TREES: [&str; 6] = [
    "dir 2 0 /\n",
    "dir 5 3 /\ndir 2 0 /p\ndir 2 0 /q\ndir 2 0 /r\n",
    "dir 5 3 /\ndir 3 1 /p\ndir 2 0 /p/b\ndir 2 0 /q\ndir 2 0 /r\n",
    "dir 5 3 /\ndir 3 1 /p\ndir 2 0 /p/b\ndir 2 0 /q\ndir 3 1 /r\ndir 2 0 /r/a\n",
    "dir 5 3 /\ndir 2 0 /p\ndir 2 0 /q\ndir 3 1 /r\ndir 3 1 /r/a\ndir 2 0 /r/a/b\n",
    "dir 5 3 /\ndir 2 0 /p\ndir 3 1 /q\ndir 3 1 /q/b\ndir 2 0 /q/b/a\ndir 2 0 /r\n",
];

// A disk of five blocks for data.
const FULL: Size = (16, 16, 2);

// Files that are written, linked, cut and removed, an fsync for which there is no room, and inodes that are used again.
const FILES: &str =
    "0 mkdir /d\n0 create /f\n0 write /f 0 616263\n0 fsync /f\n0 link /f /d/g\n0 fsync /d\n0 trunc /f 1\n0 write /f 4096 64\n0 fsync /f\n0 write /f 8192 65\n0 write /f 0 66\n0 fsync /f\n0 unlink /f\n0 fsync /\n0 unlink /d/g\n0 fsync /d\n0 rmdir /d\n0 mkdir /e\n0 create /e/h\n0 fsync /e/h\n";

const FILES_TEXT: &str =
    "0 0 mkdir 0 d = node 16 dir\n1 0 create 0 f = node 17 file\n2 0 look 0 f = node 17 file\n3 0 write 17 0 616263 = ok\n4 0 look 0 f = node 17 file\n5 0 fsync 17 = ok\n6 0 look 0 f = node 17 file\n7 0 look 0 d = node 16 dir\n8 0 link 17 16 g = ok\n9 0 look 0 d = node 16 dir\n10 0 fsync 16 = ok\n11 0 look 0 f = node 17 file\n12 0 trunc 17 1 = ok\n13 0 look 0 f = node 17 file\n14 0 write 17 4096 64 = ok\n15 0 look 0 f = node 17 file\n16 0 fsync 17 = ok\n17 0 look 0 f = node 17 file\n18 0 write 17 8192 65 = ok\n19 0 look 0 f = node 17 file\n20 0 write 17 0 66 = ok\n21 0 look 0 f = node 17 file\n22 0 fsync 17 = nospace blocks need 2 free 1\n23 0 unlink 0 f = ok\n24 0 fsync 0 = ok\n25 0 look 0 d = node 16 dir\n26 0 unlink 16 g = ok\n27 0 look 0 d = node 16 dir\n28 0 fsync 16 = ok\n29 0 rmdir 0 d = ok\n30 0 mkdir 0 e = node 18 dir\n31 0 look 0 e = node 18 dir\n32 0 create 18 h = node 19 file\n33 0 look 0 e = node 18 dir\n34 0 look 18 h = node 19 file\n35 0 fsync 19 = ok\n";

static FILES_TREES: [&str; 7] = [
    "dir 2 0 /\n",
    "dir 3 2 /\ndir 2 0 /d\nfile 1 3 0 /f\n",
    "dir 3 2 /\ndir 2 1 /d\nfile 2 3 0 /d/g\nfile 2 3 0 /f\n",
    "dir 3 2 /\ndir 2 1 /d\nfile 2 4097 0 /d/g\nfile 2 4097 0 /f\n",
    "dir 3 1 /\ndir 2 1 /d\nfile 1 4097 0 /d/g\n",
    "dir 3 1 /\ndir 2 0 /d\n",
    "dir 3 1 /\ndir 2 1 /e\nfile 1 0 0 /e/h\n",
];

// How many fsyncs of a history were acknowledged.
fn acknowledged_in(history: &History) -> usize {
    let mut acknowledged = 0usize;
    let mut cursor = history.first();
    for _ in 0..history.len() {
        if let Some(entry) = history.next(&mut cursor)
            && entry.ack.is_some()
        {
            acknowledged = acknowledged.saturating_add(1);
        }
    }
    acknowledged
}

// Which of these trees a disk is shown as.
fn place_of<R: Threads + Wait + Sync + Abort>(
    rt: &R,
    alloc: Global,
    disk: Memory,
    trees: &[&str],
) -> usize {
    let ran = done(rt, alloc, &["show"], disk);
    same(rt, &ran.status, &Status::Done);
    for (place, tree) in trees.iter().enumerate() {
        if ran.text.as_slice() == tree.as_bytes() {
            return place;
        }
    }
    same_list(rt, ran.text.as_slice(), b"one of the trees".as_slice());
    panic!(rt; "another tree")
}

// Whether a write is pending on a disk.
fn is_pending(disk: &Memory) -> bool {
    for call in disk.calls().iter().rev() {
        match call.act {
            Act::Read { .. } => {}
            Act::Write { .. } => return true,
            Act::Sync => return false,
        }
    }
    false
}

// Asserts that each image that a crash may leave of a disk, where so many commits were acknowledged, has these and at most the
// next one. Notes which trees were met.
fn assert_left<R: Threads + Wait + Sync + Abort>(
    rt: &R,
    alloc: Global,
    disk: &Memory,
    acknowledged: usize,
    trees: &[&str],
    met: &mut Vec<bool>,
) {
    // With nothing pending all draws are alike.
    let picks = if is_pending(disk) { 8u32 } else { 1 };
    for pick in 0..picks {
        let left = got(rt, disk.left(alloc, u64::MAX, pick));
        let place = place_of(rt, alloc, left, trees);
        holds(rt, acknowledged <= place);
        holds(rt, place <= acknowledged.saturating_add(1));
        if place < met.len() {
            met[place] = true;
        }
    }
}

// Breaks the disk off after each number of device calls of the script, and asserts that each tree was met.
fn assert_broken_off<R: Threads + Wait + Sync + Abort>(
    rt: &R,
    alloc: Global,
    image: &Memory,
    script: &str,
    trees: &[&str],
) {
    let whole = run_script(rt, alloc, script.as_bytes(), copy_of(rt, alloc, image));
    let mut met = got(rt, vec![in alloc; false; trees.len()]);
    for passes in 0..=whole.disk.now() {
        let fuse = Fuse::new(copy_of(rt, alloc, image), passes);
        let ran = run_script(rt, alloc, script.as_bytes(), fuse);
        let acknowledged = acknowledged_in(&ran.history);
        let disk = ran.disk.into_inner();
        assert_left(rt, alloc, &disk, acknowledged, trees, &mut met);
    }
    for tree in &met {
        holds(rt, *tree);
    }
}

#[test]
fn moves_are_whole_after_each_device_call(rt: HostRuntime) {
    let alloc = rt.alloc();
    let image = image(&rt, alloc, ROOMY);
    assert_text(&rt, alloc, MOVES, copy_of(&rt, alloc, &image), MOVES_TEXT);
    assert_broken_off(&rt, alloc, &image, MOVES, &MOVES_TREES);
}

#[test]
fn moves_are_whole_where_cores_have_three_slots(rt: HostRuntime) {
    let alloc = rt.alloc();
    let image = image_with(&rt, alloc, RINGS, 3);
    assert_text(&rt, alloc, MOVES, copy_of(&rt, alloc, &image), MOVES_TEXT);
    assert_broken_off(&rt, alloc, &image, MOVES, &MOVES_TREES);
}

#[test]
fn files_are_whole_after_each_device_call(rt: HostRuntime) {
    let alloc = rt.alloc();
    let image = image(&rt, alloc, FULL);
    assert_text(&rt, alloc, FILES, copy_of(&rt, alloc, &image), FILES_TEXT);
    assert_broken_off(&rt, alloc, &image, FILES, &FILES_TREES);
}

// The same where one device call fails, and the later ones do not.
#[test]
fn one_call_that_fails_leaves_whole_trees(rt: HostRuntime) {
    let alloc = rt.alloc();
    let image = image(&rt, alloc, FULL);
    let whole = run_script(&rt, alloc, FILES.as_bytes(), copy_of(&rt, alloc, &image));
    let mut met = got(&rt, vec![in alloc; false; 7]);
    for number in 0..whole.disk.now() {
        let disk = FailAt::new(
            copy_of(&rt, alloc, &image),
            got(&rt, vec![in alloc; number]),
        );
        let ran = run_script(&rt, alloc, FILES.as_bytes(), disk);
        let acknowledged = acknowledged_in(&ran.history);
        let disk = ran.disk.into_inner();
        assert_left(&rt, alloc, &disk, acknowledged, &FILES_TREES, &mut met);
    }
    for tree in &met {
        holds(&rt, *tree);
    }
}
