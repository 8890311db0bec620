// Scripts over the image with few inodes, with their texts and the tree that is shown afterwards, worked out by hand.
use crate::bench::{SMALL, assert_shown, assert_text, image, run_script};
use crate::helpers::{got, holds};
use sfs_dev::Memory;
use std::alloc::Global;
use std::process::Abort;
use std::sync::Wait;
use std::thread::Threads;

// A script, its text, and the tree of the disk after it.
type Row = (&'static str, &'static str, &'static str);

// A file that was made and removed since the last fsync of its directory; link counts of a file whose
// directories are flushed one after another; a directory below one that was never flushed; a file that
// moves, where only the directory that it left is flushed; two workers, phase by phase.
static DIRECTORIES: [Row; 5] = [
    (
        "0 mkdir /d\n0 fsync /\n0 create /d/a\n0 unlink /d/a\n0 fsync /d\n",
        "0 0 mkdir 0 d = node 64 dir\n1 0 fsync 0 = ok\n2 0 look 0 d = node 64 dir\n3 0 create 64 a = node 65 file\n4 0 look 0 d = node 64 dir\n5 0 unlink 64 a = ok\n6 0 look 0 d = node 64 dir\n7 0 fsync 64 = ok\n",
        "dir 3 1 /\ndir 2 0 /d\n",
    ),
    (
        "0 mkdir /p\n0 mkdir /q\n0 create /p/f\n0 link /p/f /q/f\n0 fsync /\n0 fsync /p\n0 fsync /q\n0 unlink /p/f\n0 fsync /p\n",
        "0 0 mkdir 0 p = node 64 dir\n1 0 mkdir 0 q = node 65 dir\n2 0 look 0 p = node 64 dir\n3 0 create 64 f = node 66 file\n4 0 look 0 p = node 64 dir\n5 0 look 64 f = node 66 file\n6 0 look 0 q = node 65 dir\n7 0 link 66 65 f = ok\n8 0 fsync 0 = ok\n9 0 look 0 p = node 64 dir\n10 0 fsync 64 = ok\n11 0 look 0 q = node 65 dir\n12 0 fsync 65 = ok\n13 0 look 0 p = node 64 dir\n14 0 unlink 64 f = ok\n15 0 look 0 p = node 64 dir\n16 0 fsync 64 = ok\n",
        "dir 4 2 /\ndir 2 0 /p\ndir 2 1 /q\nfile 1 0 0 /q/f\n",
    ),
    (
        "0 mkdir /x\n0 mkdir /x/y\n0 fsync /x/y\n",
        "0 0 mkdir 0 x = node 64 dir\n1 0 look 0 x = node 64 dir\n2 0 mkdir 64 y = node 65 dir\n3 0 look 0 x = node 64 dir\n4 0 look 64 y = node 65 dir\n5 0 fsync 65 = ok\n",
        "dir 3 1 /\ndir 3 1 /x\ndir 2 0 /x/y\n",
    ),
    (
        "0 mkdir /p\n0 mkdir /q\n0 create /p/f\n0 fsync /\n0 fsync /p\n0 rename /p/f /q/g\n0 fsync /p\n",
        "0 0 mkdir 0 p = node 64 dir\n1 0 mkdir 0 q = node 65 dir\n2 0 look 0 p = node 64 dir\n3 0 create 64 f = node 66 file\n4 0 fsync 0 = ok\n5 0 look 0 p = node 64 dir\n6 0 fsync 64 = ok\n7 0 look 0 p = node 64 dir\n8 0 look 0 q = node 65 dir\n9 0 rename 64 f 65 g = ok\n10 0 look 0 p = node 64 dir\n11 0 fsync 64 = ok\n",
        "dir 4 2 /\ndir 2 0 /p\ndir 2 1 /q\nfile 1 0 0 /q/g\n",
    ),
    (
        "0 mkdir /a\n0 fsync /a\n---\n1 mkdir /b\n1 fsync /b\n---\n0 create /b/g\n0 fsync /b/g\n---\n1 create /a/f\n1 fsync /a\n",
        "0 0 mkdir 0 a = node 64 dir\n1 0 look 0 a = node 64 dir\n2 0 fsync 64 = ok\n3 1 mkdir 0 b = node 2112 dir\n4 1 look 0 b = node 2112 dir\n5 1 fsync 2112 = ok\n6 0 look 0 b = node 2112 dir\n7 0 create 2112 g = node 65 file\n8 0 look 0 b = node 2112 dir\n9 0 look 2112 g = node 65 file\n10 0 fsync 65 = ok\n11 1 look 0 a = node 64 dir\n12 1 create 64 f = node 2113 file\n13 1 look 0 a = node 64 dir\n14 1 fsync 64 = ok\n",
        "dir 4 2 /\ndir 2 1 /a\nfile 1 0 0 /a/f\ndir 2 1 /b\nfile 1 0 1 /b/g\n",
    ),
];

// Directories that move into and out of each other: a flush of one side alone would put one into itself.
static MOVES: [Row; 1] = [(
    "0 mkdir /p\n0 mkdir /q\n0 mkdir /r\n0 mkdir /p/b\n0 mkdir /r/a\n0 fsync /\n0 fsync /p\n0 fsync /r\n0 rename /p/b /r/a/b\n0 fsync /r/a\n0 rename /r/a/b /q/b\n0 rename /r/a /q/b/a\n0 fsync /r\n",
    "0 0 mkdir 0 p = node 64 dir\n1 0 mkdir 0 q = node 65 dir\n2 0 mkdir 0 r = node 66 dir\n3 0 look 0 p = node 64 dir\n4 0 mkdir 64 b = node 67 dir\n5 0 look 0 r = node 66 dir\n6 0 mkdir 66 a = node 68 dir\n7 0 fsync 0 = ok\n8 0 look 0 p = node 64 dir\n9 0 fsync 64 = ok\n10 0 look 0 r = node 66 dir\n11 0 fsync 66 = ok\n12 0 look 0 p = node 64 dir\n13 0 look 0 r = node 66 dir\n14 0 look 66 a = node 68 dir\n15 0 rename 64 b 68 b = ok\n16 0 look 0 r = node 66 dir\n17 0 look 66 a = node 68 dir\n18 0 fsync 68 = ok\n19 0 look 0 r = node 66 dir\n20 0 look 66 a = node 68 dir\n21 0 look 0 q = node 65 dir\n22 0 rename 68 b 65 b = ok\n23 0 look 0 r = node 66 dir\n24 0 look 0 q = node 65 dir\n25 0 look 65 b = node 67 dir\n26 0 rename 66 a 67 a = ok\n27 0 look 0 r = node 66 dir\n28 0 fsync 66 = ok\n",
    "dir 5 3 /\ndir 2 0 /p\ndir 3 1 /q\ndir 3 1 /q/b\ndir 2 0 /q/b/a\ndir 2 0 /r\n",
)];

// A directory that is removed with what was in it; one that is replaced; a file that is, and an fsync of
// a path that is not there.
static REMOVALS: [Row; 3] = [
    (
        "0 mkdir /a\n0 mkdir /b\n0 create /a/f\n0 fsync /a\n0 unlink /a/f\n0 rmdir /a\n0 fsync /\n",
        "0 0 mkdir 0 a = node 64 dir\n1 0 mkdir 0 b = node 65 dir\n2 0 look 0 a = node 64 dir\n3 0 create 64 f = node 66 file\n4 0 look 0 a = node 64 dir\n5 0 fsync 64 = ok\n6 0 look 0 a = node 64 dir\n7 0 unlink 64 f = ok\n8 0 rmdir 0 a = ok\n9 0 fsync 0 = ok\n",
        "dir 3 1 /\ndir 2 0 /b\n",
    ),
    (
        "0 mkdir /a\n0 mkdir /b\n0 fsync /\n0 rename /a /b\n0 create /b/f\n0 fsync /b\n0 fsync /\n",
        "0 0 mkdir 0 a = node 64 dir\n1 0 mkdir 0 b = node 65 dir\n2 0 fsync 0 = ok\n3 0 rename 0 a 0 b = ok\n4 0 look 0 b = node 64 dir\n5 0 create 64 f = node 66 file\n6 0 look 0 b = node 64 dir\n7 0 fsync 64 = ok\n8 0 fsync 0 = ok\n",
        "dir 3 1 /\ndir 2 1 /b\nfile 1 0 0 /b/f\n",
    ),
    (
        "0 create /f\n0 create /g\n0 write /f 0 61\n0 fsync /\n0 rename /f /g\n0 fsync /g\n0 fsync /\n0 fsync /f\n",
        "0 0 create 0 f = node 64 file\n1 0 create 0 g = node 65 file\n2 0 look 0 f = node 64 file\n3 0 write 64 0 61 = ok\n4 0 fsync 0 = ok\n5 0 rename 0 f 0 g = ok\n6 0 look 0 g = node 64 file\n7 0 fsync 64 = ok\n8 0 fsync 0 = ok\n9 0 look 0 f = error NoEntry\n",
        "dir 2 1 /\nfile 1 1 0 /g\n",
    ),
];

// Asserts the text and the tree of each of these.
fn assert_rows<R: Threads + Wait + Sync + Abort>(rt: &R, alloc: Global, rows: &[Row]) {
    for (script, text, tree) in rows {
        let disk = assert_text(rt, alloc, script, image(rt, alloc, SMALL), text);
        assert_shown(rt, alloc, disk, tree);
    }
}

#[test]
fn directories_are_flushed_with_what_they_need(rt: HostRuntime) {
    assert_rows(&rt, rt.alloc(), &DIRECTORIES);
    assert_rows(&rt, rt.alloc(), &MOVES);
}

#[test]
fn what_was_removed_is_gone(rt: HostRuntime) {
    assert_rows(&rt, rt.alloc(), &REMOVALS);
}

// A file that is flushed, given a name in another directory, and loses its first one: the first directory is flushed, then both.
static MOVED: [Row; 1] = [(
    "0 mkdir /p\n0 mkdir /q\n0 create /p/f\n0 write /p/f 0 6869\n0 fsync /p/f\n0 link /p/f /q/f\n0 unlink /p/f\n0 fsync /p\n",
    "0 0 mkdir 0 p = node 64 dir\n1 0 mkdir 0 q = node 65 dir\n2 0 look 0 p = node 64 dir\n3 0 create 64 f = node 66 file\n4 0 look 0 p = node 64 dir\n5 0 look 64 f = node 66 file\n6 0 write 66 0 6869 = ok\n7 0 look 0 p = node 64 dir\n8 0 look 64 f = node 66 file\n9 0 fsync 66 = ok\n10 0 look 0 p = node 64 dir\n11 0 look 64 f = node 66 file\n12 0 look 0 q = node 65 dir\n13 0 link 66 65 f = ok\n14 0 look 0 p = node 64 dir\n15 0 unlink 64 f = ok\n16 0 look 0 p = node 64 dir\n17 0 fsync 64 = ok\n",
    "dir 4 2 /\ndir 2 0 /p\ndir 2 0 /q\n",
)];

// The same with both, and what a later run finds.
static FOUND: [Row; 2] = [
    (
        "0 mkdir /p\n0 mkdir /q\n0 create /p/f\n0 write /p/f 0 6869\n0 fsync /p/f\n0 link /p/f /q/f\n0 unlink /p/f\n0 fsync /p\n0 fsync /q\n",
        "0 0 mkdir 0 p = node 64 dir\n1 0 mkdir 0 q = node 65 dir\n2 0 look 0 p = node 64 dir\n3 0 create 64 f = node 66 file\n4 0 look 0 p = node 64 dir\n5 0 look 64 f = node 66 file\n6 0 write 66 0 6869 = ok\n7 0 look 0 p = node 64 dir\n8 0 look 64 f = node 66 file\n9 0 fsync 66 = ok\n10 0 look 0 p = node 64 dir\n11 0 look 64 f = node 66 file\n12 0 look 0 q = node 65 dir\n13 0 link 66 65 f = ok\n14 0 look 0 p = node 64 dir\n15 0 unlink 64 f = ok\n16 0 look 0 p = node 64 dir\n17 0 fsync 64 = ok\n18 0 look 0 q = node 65 dir\n19 0 fsync 65 = ok\n",
        "dir 4 2 /\ndir 2 0 /p\ndir 2 1 /q\nfile 1 2 0 /q/f\n",
    ),
    (
        "0 read /q/f 0 10\n",
        "0 0 look 0 q = node 2 dir\n1 0 look 2 f = node 3 file\n2 0 read 3 0 10 = bytes 6869\n",
        "dir 4 2 /\ndir 2 0 /p\ndir 2 1 /q\nfile 1 2 0 /q/f\n",
    ),
];

// Asserts the text and the tree of each of these, one after another on the same disk.
fn assert_in_turn<R: Threads + Wait + Sync + Abort>(rt: &R, alloc: Global, rows: &[Row]) -> Memory {
    let mut disk = image(rt, alloc, SMALL);
    for (script, text, tree) in rows {
        disk = assert_text(rt, alloc, script, disk, text);
        disk = assert_shown(rt, alloc, disk, tree);
    }
    disk
}

#[test]
fn bytes_outlive_a_name(rt: HostRuntime) {
    assert_in_turn(&rt, rt.alloc(), &FOUND);
}

// A script that makes so many directories in the root, and flushes it.
fn directories(rt: &impl Abort, alloc: Global, count: u32) -> String {
    let mut script = String::new(alloc);
    for i in 0..count {
        got(
            rt,
            script.push_str(got(rt, format!(in alloc; "0 mkdir /n{i}\n")).as_str()),
        );
    }
    got(rt, script.push_str("0 fsync /\n"));
    script
}

#[test]
fn a_file_without_a_name_is_freed(rt: HostRuntime) {
    let alloc = rt.alloc();
    let disk = assert_in_turn(&rt, alloc, &MOVED);
    // 61 of the 64 inodes are free.
    let ran = run_script(&rt, alloc, directories(&rt, alloc, 62).as_bytes(), disk);
    holds(
        &rt,
        ran.text.ends_with(b"\n62 0 fsync 0 = nospace inodes need 62 free 61\n".as_slice()),
    );
    let ran = run_script(&rt, alloc, directories(&rt, alloc, 61).as_bytes(), ran.disk);
    holds(&rt, ran.text.ends_with(b"\n61 0 fsync 0 = ok\n".as_slice()));
}
