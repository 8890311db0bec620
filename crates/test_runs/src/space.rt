// Fsyncs that need more blocks or inodes than are free, and those that need just what is: each with the size of the image, the
// last line of the text, and the tree that is shown afterwards, worked out by hand. An image of B blocks with 64 inodes and 2
// cores has B - 29 blocks for data, one with 16 inodes and 1 core has B - 7.
use crate::bench::{Size, assert_shown, image, run_script};
use crate::helpers::{holds_at, same_at};
use scalefs_run::Status;
use std::alloc::Global;
use std::process::Abort;
use std::sync::Wait;
use std::thread::Threads;

// A size, a script, how its text ends, and the tree of the disk after it.
type Row = (Size, &'static str, &'static str, &'static str);

const TWO_DIRECTORIES: &str = "0 mkdir /a\n0 fsync /\n0 mkdir /b\n0 fsync /\n";

const SIXTEEN_FILES: &str =
    "0 create /a\n0 create /b\n0 create /c\n0 create /d\n0 create /e\n0 create /f\n0 create /g\n0 create /h\n0 create /i\n0 create /j\n0 create /k\n0 create /l\n0 create /m\n0 create /n\n0 create /o\n0 create /p\n0 fsync /\n";

const TWO_PAGES: &str =
    "0 create /f\n0 write /f 0 61\n0 fsync /f\n0 write /f 8192 62\n0 fsync /f\n";

// A byte far behind a hole: its block is the first of an indirect block.
const BEHIND_A_HOLE: &str = "0 create /f\n0 write /f 442368 ff\n0 fsync /f\n";

// A directory takes a block and leaves the old one free, but not before; sixteen files, and fifteen inodes.
static DIRECTORIES: [Row; 3] = [
    (
        (8, 16, 1),
        TWO_DIRECTORIES,
        "0 0 mkdir 0 a = node 16 dir\n1 0 fsync 0 = ok\n2 0 mkdir 0 b = node 17 dir\n3 0 fsync 0 = nospace blocks need 1 free 0\n",
        "dir 3 1 /\ndir 2 0 /a\n",
    ),
    (
        (9, 16, 1),
        TWO_DIRECTORIES,
        "0 0 mkdir 0 a = node 16 dir\n1 0 fsync 0 = ok\n2 0 mkdir 0 b = node 17 dir\n3 0 fsync 0 = ok\n",
        "dir 4 2 /\ndir 2 0 /a\ndir 2 0 /b\n",
    ),
    (
        (64, 16, 1),
        SIXTEEN_FILES,
        "\n15 0 create 0 p = node 31 file\n16 0 fsync 0 = nospace inodes need 16 free 15\n",
        "dir 2 0 /\n",
    ),
];

// A block that no write touches is not written again; a hole takes no block, and an indirect block does.
static FILES: [Row; 4] = [
    (
        (31, 64, 2),
        TWO_PAGES,
        "\n4 0 fsync 64 = ok\n5 0 look 0 f = node 64 file\n6 0 write 64 8192 62 = ok\n7 0 look 0 f = node 64 file\n8 0 fsync 64 = nospace blocks need 1 free 0\n",
        "dir 2 1 /\nfile 1 1 0 /f\n",
    ),
    (
        (32, 64, 2),
        TWO_PAGES,
        "\n4 0 fsync 64 = ok\n5 0 look 0 f = node 64 file\n6 0 write 64 8192 62 = ok\n7 0 look 0 f = node 64 file\n8 0 fsync 64 = ok\n",
        "dir 2 1 /\nfile 1 8193 0 /f\n",
    ),
    (
        (31, 64, 2),
        BEHIND_A_HOLE,
        "\n2 0 write 64 442368 ff = ok\n3 0 look 0 f = node 64 file\n4 0 fsync 64 = nospace blocks need 3 free 2\n",
        "dir 2 0 /\n",
    ),
    (
        (32, 64, 2),
        BEHIND_A_HOLE,
        "\n2 0 write 64 442368 ff = ok\n3 0 look 0 f = node 64 file\n4 0 fsync 64 = ok\n",
        "dir 2 1 /\nfile 1 442369 0 /f\n",
    ),
];

// After a refusal nothing has changed, and what needs less is brought to the disk: zeros need no block, and a file that was
// removed gives back its own.
static REFUSED: [Row; 2] = [
    (
        (31, 64, 2),
        "0 create /f\n0 write /f 0 61\n0 fsync /f\n0 write /f 8192 62\n0 fsync /f\n0 trunc /f 4096\n0 trunc /f 8193\n0 fsync /f\n",
        "\n8 0 fsync 64 = nospace blocks need 1 free 0\n9 0 look 0 f = node 64 file\n10 0 trunc 64 4096 = ok\n11 0 look 0 f = node 64 file\n12 0 trunc 64 8193 = ok\n13 0 look 0 f = node 64 file\n14 0 fsync 64 = ok\n",
        "dir 2 1 /\nfile 1 8193 0 /f\n",
    ),
    (
        (31, 64, 2),
        "0 mkdir /d\n0 fsync /\n0 create /d/f\n0 fsync /d\n0 create /g\n0 fsync /g\n0 unlink /d/f\n0 fsync /d\n0 fsync /g\n",
        "\n4 0 look 0 d = node 64 dir\n5 0 fsync 64 = ok\n6 0 create 0 g = node 66 file\n7 0 look 0 g = node 66 file\n8 0 fsync 66 = nospace blocks need 1 free 0\n9 0 look 0 d = node 64 dir\n10 0 unlink 64 f = ok\n11 0 look 0 d = node 64 dir\n12 0 fsync 64 = ok\n13 0 look 0 g = node 66 file\n14 0 fsync 66 = ok\n",
        "dir 3 2 /\ndir 2 0 /d\nfile 1 0 0 /g\n",
    ),
];

const LARGEST: &str =
    "0 create /f\n0 trunc /f 67551231\n0 write /f 67551231 ff\n0 write /f 67551232 00\n0 fsync /f\n";

// The largest file, of zeros but for its last byte, and one byte more: it needs its last block and two besides.
static LARGEST_FILES: [Row; 2] = [
    (
        (31, 64, 2),
        LARGEST,
        "\n2 0 trunc 64 67551231 = ok\n3 0 look 0 f = node 64 file\n4 0 write 64 67551231 ff = ok\n5 0 look 0 f = node 64 file\n6 0 write 64 67551232 00 = error FileTooBig\n7 0 look 0 f = node 64 file\n8 0 fsync 64 = nospace blocks need 3 free 2\n",
        "dir 2 0 /\n",
    ),
    (
        (32, 64, 2),
        LARGEST,
        "\n2 0 trunc 64 67551231 = ok\n3 0 look 0 f = node 64 file\n4 0 write 64 67551231 ff = ok\n5 0 look 0 f = node 64 file\n6 0 write 64 67551232 00 = error FileTooBig\n7 0 look 0 f = node 64 file\n8 0 fsync 64 = ok\n",
        "dir 2 1 /\nfile 1 67551232 0 /f\n",
    ),
];

// Asserts the end of the text and the tree of each of these.
fn assert_rows<R: Threads + Wait + Sync + Abort>(rt: &R, alloc: Global, rows: &[Row]) {
    for (size, script, end, tree) in rows {
        let ran = run_script(rt, alloc, script.as_bytes(), image(rt, alloc, *size));
        same_at(rt, &ran.status, &Status::Done, script);
        holds_at(rt, ran.text.ends_with(end.as_bytes()), script);
        assert_shown(rt, alloc, ran.disk, tree);
    }
}

#[test]
fn directories_need_blocks_and_inodes(rt: HostRuntime) {
    assert_rows(&rt, rt.alloc(), &DIRECTORIES);
}

#[test]
fn files_need_the_blocks_that_were_touched(rt: HostRuntime) {
    assert_rows(&rt, rt.alloc(), &FILES);
}

#[test]
fn a_refused_fsync_changes_nothing(rt: HostRuntime) {
    assert_rows(&rt, rt.alloc(), &REFUSED);
}

#[test]
fn the_largest_file_needs_three_blocks(rt: HostRuntime) {
    assert_rows(&rt, rt.alloc(), &LARGEST_FILES);
}
