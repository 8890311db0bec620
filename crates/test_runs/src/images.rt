// Images that are made and shown. The disk of 1,024 blocks with 64 inodes and 2 cores has its slots at bytes 4,096 and 45,056, its inode
// table at 86,016 and its data area at 118,784.
use crate::bench::{
    SMALL, assert_only_read, assert_shown, assert_text, blank, copy_of, done, ends, image,
    run_between, words_of,
};
use crate::helpers::{got, holds, same, same_list};
use dev_fake::FailAt;
use dev_file::FileDisk;
use scalefs_run::{ImageFault, Status};
use sfs_base::{BytesSink, BytesSource};
use sfs_dev::{Disk, Memory};
use std::alloc::Global;
use std::fs::{self, File, Files, OpenOptions};
use std::process::Abort;
use std::sync::Wait;
use std::thread::Threads;

/// The words that make it.
const MKFS: [&str; 4] = ["mkfs", "1024", "64", "2"];

// Bytes that are put at a place of the disk.
type Edit = (u64, &'static [u8]);

// The root has the row `a`, which names inode 1, an empty directory.
const ONE_DIRECTORY: [Edit; 3] = [
    (
        86_016,
        &[2, 0, 0, 0, 3, 0, 0, 0, 0, 16, 0, 0, 0, 0, 0, 0, 29],
    ),
    (86_528, &[2, 0, 0, 0, 2]),
    (118_784, &[1, 0, 0, 0, 2, 1, 0, 0, b'a']),
];

// The slot of core 1 has, under stamp 1, inode 0 as an empty directory and inode 1 free. Its gate is closed.
const OTHER_SLOT: [Edit; 4] = [
    (45_568, &[2, 0, 0, 0]),
    (45_576, &[1, 0, 0, 0, 0, 0, 0, 0]),
    (49_152, &[0, 0, 0, 0, 1, 0, 0, 0]),
    (53_248, &[2, 0, 0, 0, 2]),
];

// Words of `mkfs` and the line that they write.
static LINES: [([&str; 4], u32, &str); 4] = [
    (
        ["mkfs", "1024", "64", "2"],
        1024,
        "blocks 1024 inodes 64 cores 2 data 29 free 995\n",
    ),
    (
        ["mkfs", "8", "16", "1"],
        8,
        "blocks 8 inodes 16 cores 1 data 7 free 1\n",
    ),
    (
        ["mkfs", "16384", "2048", "4"],
        16384,
        "blocks 16384 inodes 2048 cores 4 data 1293 free 15091\n",
    ),
    // As many cores as there may be, on the least disk: 16 slots of 4 blocks, between a superblock and a table of 2.
    (
        ["mkfs", "68", "16", "16"],
        68,
        "blocks 68 inodes 16 cores 16 data 67 free 1\n",
    ),
];

// Words that are refused on a disk of 8 blocks. The first number out of its range is named; then what the layout needs, where BLOCKS is
// less; then BLOCKS, where the disk has less. With I inodes a slot has 1 + ceil(I / 1024) + ceil(I / 8) blocks and the table ceil(I / 8);
// beside the slots, one a core, and the table a layout needs the superblock and one block for data.
static REFUSED: [(&[&str], Status); 17] = [
    (&["mkfs", "8", "16"], Status::BadWords { place: 0 }),
    (&["mkfs", "7", "16", "1"], Status::BadWords { place: 1 }),
    (
        &["mkfs", "262145", "16", "1"],
        Status::BadWords { place: 1 },
    ),
    (&["mkfs", "8", "15", "1"], Status::BadWords { place: 2 }),
    (&["mkfs", "8", "16", "17"], Status::BadWords { place: 3 }),
    (&["mkfs", "8", "16", "-1"], Status::BadWords { place: 0 }),
    (&["show", "8"], Status::BadWords { place: 0 }),
    (
        &["mkfs", "8", "16", "2"],
        Status::TooSmall { need: 12, have: 8 },
    ),
    (
        &["mkfs", "9", "16", "1"],
        Status::TooSmall { need: 9, have: 8 },
    ),
    // Two slots of 1 + 1 + 2 blocks, 2 of the table and 2 besides are more than BLOCKS; that BLOCKS are more than the disk has comes later.
    (
        &["mkfs", "9", "16", "2"],
        Status::TooSmall { need: 12, have: 9 },
    ),
    // Each number, or each but the first, is out of its range.
    (&["mkfs", "7", "15", "17"], Status::BadWords { place: 1 }),
    (&["mkfs", "8", "15", "17"], Status::BadWords { place: 2 }),
    // One inode too many, and as many as there may be: a slot of 1 + 16 + 2,048 blocks, 2,048 of the table and 2 besides.
    (&["mkfs", "8", "16385", "1"], Status::BadWords { place: 2 }),
    (
        &["mkfs", "8", "16384", "1"],
        Status::TooSmall {
            need: 4_115,
            have: 8,
        },
    ),
    // As many blocks as there may be: the layout needs 8, and the disk has fewer than BLOCKS.
    (
        &["mkfs", "262144", "16", "1"],
        Status::TooSmall {
            need: 262_144,
            have: 8,
        },
    ),
    // No core, and as many as there may be: 16 slots of 4 blocks, 2 of the table and 2 besides.
    (&["mkfs", "8", "16", "0"], Status::BadWords { place: 3 }),
    (
        &["mkfs", "8", "16", "16"],
        Status::TooSmall { need: 68, have: 8 },
    ),
];

// Damage of the disk that is just made, and what it is refused for.
static DAMAGES: [(&[Edit], ImageFault); 3] = [
    (&[(8, &[9])], ImageFault::Super { at: 8 }),
    // One inode more than the disk has.
    (
        &[(45_056, &[1]), (45_568, &[65, 0, 0, 0])],
        ImageFault::Journal {
            core: 1,
            slot: 0,
            at: 512,
        },
    ),
    // A root that is a file.
    (
        &[(86_016, &[1, 0, 0, 0, 1])],
        ImageFault::Tree { inode: 0, rule: 2 },
    ),
];

// The disk that is just made.
fn made<R: Threads + Wait + Sync + Abort>(rt: &R, alloc: Global) -> Memory {
    image(rt, alloc, SMALL)
}

// Puts these bytes; then nothing is pending.
fn edit(rt: &impl Abort, disk: &mut Memory, edits: &[Edit]) {
    for (at, bytes) in edits {
        holds(rt, disk.len() == 1024 && *at <= 4_190_208);
        holds(rt, !bytes.is_empty() && bytes.len() <= 512);
        holds(rt, disk.write_at(*at, bytes).is_ok());
    }
    holds(rt, disk.sync().is_ok());
}

#[test]
fn a_disk_is_made_with_its_line(rt: HostRuntime) {
    assert_lines(&rt, rt.alloc(), &LINES);
}

fn assert_lines<R: Threads + Wait + Sync + Abort>(
    rt: &R,
    alloc: Global,
    cases: &[([&str; 4], u32, &str)],
) {
    for (words, blocks, line) in cases {
        holds(rt, *blocks <= 16384);
        let ran = done(rt, alloc, words, got(rt, Memory::new(alloc, *blocks)));
        same(rt, &ran.status, &Status::Done);
        same_list(rt, ran.text.as_slice(), line.as_bytes());
        assert_shown(rt, alloc, ran.disk, "dir 2 0 /\n");
    }
}

#[test]
fn words_and_sizes_are_refused_before_the_disk_is_touched(rt: HostRuntime) {
    assert_refused(&rt, rt.alloc(), &REFUSED);
}

fn assert_refused<R: Threads + Wait + Sync + Abort>(
    rt: &R,
    alloc: Global,
    cases: &[(&[&str], Status)],
) {
    for (words, status) in cases {
        let ran = done(rt, alloc, words, got(rt, Memory::new(alloc, 8)));
        same(rt, &ran.status, status);
        holds(rt, ran.text.is_empty());
        same(rt, &ran.disk.now(), &0);
    }
}

#[test]
fn a_disk_that_is_made_begins_with_its_superblock(rt: HostRuntime) {
    let disk = made(&rt, rt.alloc());
    holds(
        &rt,
        disk.bytes().starts_with(
            b"SCALEFS1\x01\0\0\0\x02\0\0\0\0\x04\0\0\x40\0\0\0\x01\0\0\0\0\0\0\0".as_slice(),
        ),
    );
}

#[test]
fn a_directory_is_shown(rt: HostRuntime) {
    let mut disk = made(&rt, rt.alloc());
    edit(&rt, &mut disk, &ONE_DIRECTORY);
    let _ = assert_shown(&rt, rt.alloc(), disk, "dir 3 1 /\ndir 2 0 /a\n");
}

#[test]
fn a_clean_image_is_only_read_to_be_shown(rt: HostRuntime) {
    let mut disk = made(&rt, rt.alloc());
    edit(&rt, &mut disk, &ONE_DIRECTORY);
    let disk = copy_of(&rt, rt.alloc(), &disk);
    let disk = assert_shown(&rt, rt.alloc(), disk, "dir 3 1 /\ndir 2 0 /a\n");
    assert_only_read(&rt, &disk);
}

#[test]
fn a_slot_counts_where_its_gate_is_1_and_nowhere_else(rt: HostRuntime) {
    let alloc = rt.alloc();
    let script = "0 mkdir /a\n0 fsync /\n";
    let text = "0 0 mkdir 0 a = node 64 dir\n1 0 fsync 0 = ok\n";
    let disk = assert_text(&rt, alloc, script, made(&rt, alloc), text);
    let mut disk = assert_shown(&rt, alloc, disk, "dir 3 1 /\ndir 2 0 /a\n");
    edit(&rt, &mut disk, &OTHER_SLOT);
    edit(&rt, &mut disk, &[(45_056, &[7])]);
    let mut disk = assert_shown(&rt, alloc, disk, "dir 3 1 /\ndir 2 0 /a\n");
    edit(&rt, &mut disk, &[(45_056, &[1])]);
    let disk = assert_shown(&rt, alloc, disk, "dir 2 0 /\n");
    // The slot is closed, and its records have come home.
    let disk = assert_shown(&rt, alloc, disk, "dir 2 0 /\n");
    let bytes = disk.bytes();
    holds(&rt, bytes.len() == 4_194_304);
    same(
        &rt,
        &(bytes[45_056], bytes[86_020], bytes[86_528]),
        &(0, 2, 0),
    );
}

#[test]
fn a_damaged_image_is_refused_for_its_first_fault(rt: HostRuntime) {
    let blank = done(&rt, rt.alloc(), &["show"], blank(&rt, rt.alloc()));
    let fault = ImageFault::Super { at: 0 };
    same(&rt, &blank.status, &Status::BadImage { fault });
    assert_damages(&rt, rt.alloc(), &DAMAGES);
}

fn assert_damages<R: Threads + Wait + Sync + Abort>(
    rt: &R,
    alloc: Global,
    cases: &[(&[Edit], ImageFault)],
) {
    for (edits, fault) in cases {
        let mut disk = made(rt, alloc);
        edit(rt, &mut disk, edits);
        let written = disk.written().len();
        let ran = done(rt, alloc, &["show"], disk);
        same(rt, &ran.status, &Status::BadImage { fault: *fault });
        holds(rt, ran.text.is_empty());
        same(rt, &ran.disk.written().len(), &written);
    }
}

// A source without bytes, and a sink whose first call fails.
fn failing(rt: &impl Abort, alloc: Global) -> (BytesSource, BytesSink) {
    let source = BytesSource::new(Vec::new(alloc), Vec::new(alloc));
    (source, BytesSink::new(alloc, got(rt, vec![in alloc; 0u64])))
}

#[test]
fn a_sink_that_fails_comes_after_the_image_is_made(rt: HostRuntime) {
    let alloc = rt.alloc();
    let (source, sink) = failing(&rt, alloc);
    let words = words_of(&rt, alloc, &MKFS);
    let ran = run_between(&rt, alloc, &words, source, sink, blank(&rt, alloc));
    same(&rt, &ran.status, &Status::WriteFault);
    let disk = assert_shown(&rt, alloc, ran.disk, "dir 2 0 /\n");
    let (source, sink) = failing(&rt, alloc);
    let show = words_of(&rt, alloc, &["show"]);
    let ran = run_between(&rt, alloc, &show, source, sink, disk);
    same(&rt, &ran.status, &Status::WriteFault);
    holds(&rt, ran.text.is_empty());
}

// The status of what the words say over a disk that fails at its first call.
fn over_failing<R: Threads + Wait + Sync + Abort>(
    rt: &R,
    alloc: Global,
    words: &[&str],
    disk: Memory,
) -> Status {
    let disk = FailAt::new(disk, got(rt, vec![in alloc; 0u64]));
    let ran = done(rt, alloc, words, disk);
    holds(rt, ran.text.is_empty());
    ran.status
}

#[test]
fn a_disk_that_fails_is_named(rt: HostRuntime) {
    let alloc = rt.alloc();
    let status = over_failing(&rt, alloc, &MKFS, blank(&rt, alloc));
    same(&rt, &status, &Status::DiskFault);
    let status = over_failing(&rt, alloc, &["show"], made(&rt, alloc));
    same(&rt, &status, &Status::DiskFault);
}

// Asserts the text of what the words say over the image file, where they have this script.
fn assert_over_file<R: Threads + Wait + Sync + Abort + Files<File = File>>(
    rt: &R,
    alloc: Global,
    words: &[&str],
    script: &str,
    text: &str,
) {
    let mut how = OpenOptions::new();
    how.read(true).write(true).create(true);
    let disk = FileDisk::new(got(rt, how.open(rt, "program.img")));
    let (source, sink) = ends(rt, alloc, script.as_bytes());
    let ran = run_between(rt, alloc, &words_of(rt, alloc, words), source, sink, disk);
    same(rt, &ran.status, &Status::Done);
    same_list(rt, ran.text.as_slice(), text.as_bytes());
}

#[test]
fn an_image_file_is_made_run_on_and_shown(rt: HostRuntime) {
    let alloc = rt.alloc();
    let line = "blocks 1024 inodes 64 cores 2 data 29 free 995\n";
    assert_over_file(&rt, alloc, &MKFS, "", line);
    let held = got(&rt, fs::read(&rt, "program.img"));
    holds(&rt, held.starts_with(b"SCALEFS1".as_slice()));
    same(&rt, &held.len(), &118_784);
    assert_over_file(&rt, alloc, &["show"], "", "dir 2 0 /\n");
    let script = "0 create /f\n0 write /f 1 6869\n0 fsync /f\n0 mkdir /d\n";
    let text =
        "0 0 create 0 f = node 64 file\n1 0 look 0 f = node 64 file\n2 0 write 64 1 6869 = ok\n3 0 look 0 f = node 64 file\n4 0 fsync 64 = ok\n5 0 mkdir 0 d = node 65 dir\n";
    assert_over_file(&rt, alloc, &["run"], script, text);
    assert_over_file(&rt, alloc, &["show"], "", "dir 2 1 /\nfile 1 3 0 /f\n");
    let text = "0 0 look 0 f = node 1 file\n1 0 read 1 0 9 = bytes 006869\n";
    assert_over_file(&rt, alloc, &["run"], "0 read /f 0 9\n", text);
    got(&rt, fs::remove_file(&rt, "program.img"));
}
