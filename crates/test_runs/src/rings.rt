// Images whose cores have several journal slots each, made, shown and run on. On the image of `mkfs 1024 64 2 2` a slot has 10 blocks: slot
// 0 of core 0 begins at byte 4,096, slot 0 of core 1 at 86,016, the inode table at 167,936, and the data at block 49.
use crate::helpers::{got, holds, same, same_list, some};
use scalefs_run::{Outcome, Status, run};
use sfs_base::{BytesSink, BytesSource, NoGate};
use sfs_dev::{Act, Disk, Memory};
use std::alloc::Global;
use std::process::Abort;
use std::sync::Wait;
use std::thread::Threads;

// Bytes that are put at a place of the disk.
type Edit = (u64, &'static [u8]);

// What these words do with this script on a disk: the status, the text, and the disk afterwards.
fn done<R: Threads + Wait + Sync + Abort>(
    rt: &R,
    alloc: Global,
    words: &[&str],
    script: &str,
    disk: Memory,
) -> (Status, Vec<u8>, Memory) {
    let mut list = Vec::new(alloc);
    for word in words {
        got(rt, list.push(got(rt, String::from_str(alloc, word))));
    }
    let text = got(rt, Vec::from_slice(alloc, script.as_bytes()));
    let mut source = BytesSource::new(text, Vec::new(alloc));
    let mut sink = BytesSink::new(alloc, Vec::new(alloc));
    let Outcome {
        status,
        history: _,
        turns: _,
        disk,
    } = run(rt, alloc, &list, &mut source, &mut sink, disk, &NoGate);
    let written = got(rt, Vec::from_slice(alloc, sink.bytes()));
    (status, written, disk)
}

// A disk of 1,024 blocks of zeros.
fn blank(rt: &impl Abort, alloc: Global) -> Memory {
    got(rt, Memory::new(alloc, 1024))
}

// Asserts that the words are done on a disk with this text. Answers the disk afterwards.
fn assert_done<R: Threads + Wait + Sync + Abort>(
    rt: &R,
    alloc: Global,
    words: &[&str],
    script: &str,
    disk: Memory,
    due: &str,
) -> Memory {
    let (status, text, disk) = done(rt, alloc, words, script, disk);
    same(rt, &status, &Status::Done);
    same_list(rt, text.as_slice(), due.as_bytes());
    disk
}

// Words of `mkfs` and the line that they write on a disk of 1,024 blocks.
const LINES: [([&str; 5], &str); 3] = [
    (
        ["mkfs", "1024", "64", "2", "2"],
        "blocks 1024 inodes 64 cores 2 data 49 free 975\n",
    ),
    (
        ["mkfs", "1024", "64", "2", "1"],
        "blocks 1024 inodes 64 cores 2 data 29 free 995\n",
    ),
    (
        ["mkfs", "1024", "64", "2", "8"],
        "blocks 1024 inodes 64 cores 2 data 169 free 855\n",
    ),
];

// Words that are refused on a disk of 1,024 blocks, and what for.
const REFUSED: [(&[&str], Status); 6] = [
    (
        &["mkfs", "1024", "64", "2", "9"],
        Status::BadWords { place: 4 },
    ),
    (
        &["mkfs", "1024", "64", "2", "0"],
        Status::BadWords { place: 4 },
    ),
    (
        &["mkfs", "1024", "64", "2", "two"],
        Status::BadWords { place: 4 },
    ),
    (
        &["mkfs", "1024", "64", "17", "9"],
        Status::BadWords { place: 3 },
    ),
    (
        &["mkfs", "1024", "64", "2", "2", "2"],
        Status::BadWords { place: 0 },
    ),
    (
        &["mkfs", "49", "64", "2", "2"],
        Status::TooSmall { need: 50, have: 49 },
    ),
];

// Slot 0 of core 0 has stamp 2 and the records of inode 0, an empty directory, and of inode 1, free. Slot 0 of core 1 has stamp 1 and the
// records of inode 0, a directory with block 49, and of inode 1, an empty directory. Block 49 has the row `a`, which names inode 1.
const TWO_OPEN: [Edit; 11] = [
    (4_608, &[2, 0, 0, 0]),
    (4_616, &[2, 0, 0, 0, 0, 0, 0, 0]),
    (8_192, &[0, 0, 0, 0, 1, 0, 0, 0]),
    (12_288, &[2, 0, 0, 0, 2]),
    (86_528, &[2, 0, 0, 0]),
    (86_536, &[1, 0, 0, 0, 0, 0, 0, 0]),
    (90_112, &[0, 0, 0, 0, 1, 0, 0, 0]),
    (
        94_208,
        &[2, 0, 0, 0, 3, 0, 0, 0, 0, 16, 0, 0, 0, 0, 0, 0, 49],
    ),
    (94_720, &[2, 0, 0, 0, 2]),
    (200_704, &[1, 0, 0, 0, 2, 1, 0, 0, b'a']),
    (4_096, &[1]),
];

// The stamps the other way round.
const EXCHANGED: [Edit; 2] = [(4_616, &[1]), (86_536, &[2])];

// Puts these bytes; then nothing is pending.
fn edit(rt: &impl Abort, disk: &mut Memory, edits: &[Edit]) {
    for (at, bytes) in edits {
        holds(rt, disk.len() == 1024 && *at <= 4_190_208);
        holds(rt, !bytes.is_empty() && bytes.len() <= 512);
        holds(rt, disk.write_at(*at, bytes).is_ok());
    }
    holds(rt, disk.sync().is_ok());
}

// The image of `mkfs 1024 64 2 2` with both slots open.
fn with_two_open<R: Threads + Wait + Sync + Abort>(rt: &R, alloc: Global) -> Memory {
    let (words, line) = &LINES[0];
    let mut disk = assert_done(rt, alloc, words, "", blank(rt, alloc), line);
    edit(rt, &mut disk, &TWO_OPEN);
    edit(rt, &mut disk, &[(86_016, &[1])]);
    disk
}

#[test]
fn an_image_is_made_with_its_slots(rt: HostRuntime) {
    for (words, line) in LINES.iter() {
        let disk = assert_done(&rt, rt.alloc(), words, "", blank(&rt, rt.alloc()), line);
        assert_done(&rt, rt.alloc(), &["show"], "", disk, "dir 2 0 /\n");
    }
}

#[test]
fn slots_out_of_range_are_bad_words(rt: HostRuntime) {
    for (words, due) in REFUSED.iter() {
        let (status, text, disk) = done(&rt, rt.alloc(), words, "", blank(&rt, rt.alloc()));
        same(&rt, &status, due);
        holds(&rt, text.is_empty());
        same(&rt, &disk.now(), &0);
    }
}

#[test]
fn the_greater_stamp_is_shown(rt: HostRuntime) {
    let disk = with_two_open(&rt, rt.alloc());
    let disk = assert_done(&rt, rt.alloc(), &["show"], "", disk, "dir 2 0 /\n");
    assert_done(&rt, rt.alloc(), &["show"], "", disk, "dir 2 0 /\n");
}

#[test]
fn with_the_stamps_exchanged_the_other_slot_is_shown(rt: HostRuntime) {
    let mut disk = with_two_open(&rt, rt.alloc());
    edit(&rt, &mut disk, &EXCHANGED);
    let tree = "dir 3 1 /\ndir 2 0 /a\n";
    let disk = assert_done(&rt, rt.alloc(), &["show"], "", disk, tree);
    assert_done(&rt, rt.alloc(), &["show"], "", disk, tree);
}

// The writes of one byte among a disk's calls from this one on: where, and which byte.
fn gates(rt: &impl Abort, alloc: Global, disk: &Memory, from: usize) -> Vec<(u64, u8)> {
    let mut gates = Vec::new(alloc);
    let mut place = 0u64;
    for (number, call) in disk.calls().iter().enumerate() {
        if let Act::Write { at, count } = call.act {
            if count == 1 && number >= from {
                let byte = some(rt, disk.written().get(place as usize));
                got(rt, gates.push((at, *byte)));
            }
            place = place.saturating_add(count);
        }
    }
    gates
}

// Asserts that a script makes these writes of one byte first, on the image of two slots a core, and that this tree is shown behind it.
fn assert_gates<R: Threads + Wait + Sync + Abort>(
    rt: &R,
    alloc: Global,
    script: &str,
    due: &[(u64, u8)],
    tree: &str,
) {
    let (words, line) = &LINES[0];
    let disk = assert_done(rt, alloc, words, "", blank(rt, alloc), line);
    let made = disk.calls().len();
    let (status, _, disk) = done(rt, alloc, &["run"], script, disk);
    same(rt, &status, &Status::Done);
    let gates = gates(rt, alloc, &disk, made);
    holds(rt, gates.starts_with(due));
    assert_done(rt, alloc, &["show"], "", disk, tree);
}

#[test]
fn a_second_commit_is_opened_before_the_first_slot_is_closed(rt: HostRuntime) {
    assert_gates(
        &rt,
        rt.alloc(),
        "0 mkdir /a\n0 fsync /\n0 mkdir /b\n0 fsync /\n",
        &[(4_096, 1), (45_056, 1)],
        "dir 4 2 /\ndir 2 0 /a\ndir 2 0 /b\n",
    );
}

#[test]
fn each_core_has_slots_of_its_own(rt: HostRuntime) {
    assert_gates(
        &rt,
        rt.alloc(),
        "0 mkdir /a\n0 fsync /\n---\n1 mkdir /b\n1 fsync /\n",
        &[(4_096, 1), (86_016, 1)],
        "dir 4 2 /\ndir 2 0 /a\ndir 2 0 /b\n",
    );
}
