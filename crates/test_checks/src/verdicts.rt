// Verdicts on sound images, and a broken one whose record is written out.
use crate::calls::{assert_only_read, copy_of, done, edited, made};
use crate::helpers::{holds, same, same_at, same_list_at};
use scalefs_run::{ImageFault, Status};
use sfs_dev::Memory;
use std::alloc::Global;
use std::process::Abort;
use std::sync::Wait;
use std::thread::Threads;

// Scripts, and the verdict on the image behind them.
static SOUND: [(&str, &str); 4] = [
    ("", "sound 1 directories 0 files\n"),
    (
        "0 mkdir /a\n0 fsync /\n0 mkdir /b\n",
        "sound 2 directories 0 files\n1 0 1\n",
    ),
    // The inodes 1, 2 and 3 are in the root; 4 is in 2, and 5 in 4.
    (
        "0 mkdir /p\n0 mkdir /q\n0 mkdir /r\n0 mkdir /p/b\n0 mkdir /r/a\n0 fsync /\n0 fsync /p\n0 fsync /r\n0 rename /p/b /r/a/b\n0 fsync /r/a\n0 rename /r/a/b /q/b\n0 rename /r/a /q/b/a\n0 fsync /r\n",
        "sound 6 directories 0 files\n1 0 1\n2 0 1\n3 0 1\n4 2 2\n5 4 3\n",
    ),
    // Two names of one file, and one of another.
    (
        "0 create /a\n0 link /a /b\n0 create /c\n0 write /c 0 6869\n0 fsync /\n0 fsync /c\n",
        "sound 1 directories 2 files\n",
    ),
];

// Asserts the verdict on a sound image, which is only read.
fn assert_sound<R: Threads + Wait + Sync + Abort>(
    rt: &R,
    alloc: Global,
    disk: &Memory,
    text: &str,
    place: usize,
) {
    let none = b"".as_slice();
    let ran = done(rt, alloc, &["verify"], none, copy_of(rt, alloc, disk));
    same_at(rt, &ran.status, &Status::Done, place);
    same_list_at(rt, ran.text.as_slice(), text.as_bytes(), place);
    same_at(rt, &ran.calls, &0, place);
    assert_only_read(rt, &ran.disk);
    holds(rt, ran.disk.bytes() == disk.bytes());
}

#[test]
fn a_sound_image_is_told_by_its_directories(rt: HostRuntime) {
    let alloc = rt.alloc();
    for (place, (script, text)) in SOUND.iter().enumerate() {
        let ran = done(&rt, alloc, &["run"], script.as_bytes(), made(&rt, alloc));
        assert_sound(&rt, alloc, &ran.disk, text, place);
        // The same once it is recovered.
        let shown = done(&rt, alloc, &["show"], b"".as_slice(), ran.disk);
        assert_sound(&rt, alloc, &shown.disk, text, place);
    }
}

#[test]
fn a_broken_inode_is_told_with_its_record(rt: HostRuntime) {
    let alloc = rt.alloc();
    let disk = edited(&rt, alloc, &[(86_020, &[4])]);
    let ran = done(&rt, alloc, &["verify"], b"".as_slice(), disk);
    let fault = ImageFault::Tree { inode: 0, rule: 13 };
    same(&rt, &ran.status, &Status::BadImage { fault });
    same(&rt, &ran.status.number(), &7);
    same(&rt, &ran.text.len(), &1048);
    holds(
        &rt,
        ran.text.starts_with(
            b"inode 0 rule 13\nrecord 020000000400000000100000000000001d000000".as_slice(),
        ),
    );
}

// An open slot of core 1 has inode 0 as an empty directory and inode 1 free; the table has them otherwise.
const OPEN_SLOT: [crate::calls::Edit; 5] = [
    (45_056, &[1]),
    (45_568, &[2, 0, 0, 0]),
    (45_576, &[1, 0, 0, 0, 0, 0, 0, 0]),
    (49_152, &[0, 0, 0, 0, 1, 0, 0, 0]),
    (53_248, &[2, 0, 0, 0, 2]),
];

#[test]
fn an_open_slot_counts_and_stays_open(rt: HostRuntime) {
    let disk = edited(&rt, rt.alloc(), &OPEN_SLOT);
    assert_sound(&rt, rt.alloc(), &disk, "sound 1 directories 0 files\n", 0);
    let disk = edited(&rt, rt.alloc(), &[]);
    assert_sound(
        &rt,
        rt.alloc(),
        &disk,
        "sound 2 directories 0 files\n1 0 1\n",
        1,
    );
}
