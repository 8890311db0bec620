// One call of the program over a disk in memory, with ample memory and no gate, and the disks that the calls are made on. An image has
// 1,024 blocks, 64 inodes and 2 cores: the record of inode i stands at byte 86,016 + 512 * i, and block 29, the first of the data area,
// at 118,784. A slot of a directory has 264 bytes.
use crate::helpers::{got, holds, same};
use scalefs_run::{Outcome, Status, run};
use sfs_base::{BytesSink, BytesSource, NoGate};
use sfs_dev::{Act, Disk, Memory};
use std::alloc::Global;
use std::process::Abort;
use std::sync::Wait;
use std::thread::Threads;

// What a call leaves: its status, what was written, how many calls its history has, and the disk.
#[derive(Drop)]
pub(crate) struct Ran<D> {
    pub(crate) status: Status,
    pub(crate) text: Vec<u8>,
    pub(crate) calls: u64,
    pub(crate) disk: D,
}

// Bytes that are put at a place of a disk.
pub(crate) type Edit = (u64, &'static [u8]);

// The root has the row `a`, and inode 1 is the empty directory that it names.
pub(crate) const ONE_DIRECTORY: [Edit; 3] = [
    (
        86_016,
        &[2, 0, 0, 0, 3, 0, 0, 0, 0, 16, 0, 0, 0, 0, 0, 0, 29],
    ),
    (86_528, &[2, 0, 0, 0, 2]),
    (118_784, &[1, 0, 0, 0, 2, 1, 0, 0, b'a']),
];

// These words.
pub(crate) fn words_of(rt: &impl Abort, alloc: Global, words: &[&str]) -> Vec<String> {
    let mut list = Vec::new(alloc);
    for word in words {
        got(rt, list.push(got(rt, String::from_str(alloc, word))));
    }
    list
}

// A source of these bytes that does not fail.
pub(crate) fn source_of(rt: &impl Abort, alloc: Global, bytes: &[u8]) -> BytesSource {
    BytesSource::new(got(rt, Vec::from_slice(alloc, bytes)), Vec::new(alloc))
}

// What these words do over a source of these bytes, where no end fails.
pub(crate) fn done<R: Threads + Wait + Sync + Abort, D: Disk + Drop + Sync>(
    rt: &R,
    alloc: Global,
    words: &[&str],
    bytes: &[u8],
    disk: D,
) -> Ran<D> {
    let source = source_of(rt, alloc, bytes);
    let sink = BytesSink::new(alloc, Vec::new(alloc));
    done_between(rt, alloc, words, source, sink, disk)
}

// The same between these ends.
pub(crate) fn done_between<R: Threads + Wait + Sync + Abort, D: Disk + Drop + Sync>(
    rt: &R,
    alloc: Global,
    words: &[&str],
    mut source: BytesSource,
    mut sink: BytesSink,
    disk: D,
) -> Ran<D> {
    let words = words_of(rt, alloc, words);
    let Outcome {
        status,
        history,
        turns: _,
        disk,
    } = run(rt, alloc, &words, &mut source, &mut sink, disk, &NoGate);
    let text = got(rt, Vec::from_slice(alloc, sink.bytes()));
    Ran {
        status,
        text,
        calls: history.len(),
        disk,
    }
}

// A disk of that content, on which nothing is pending and no call was made.
pub(crate) fn copy_of(rt: &impl Abort, alloc: Global, disk: &Memory) -> Memory {
    got(rt, disk.left(alloc, u64::MAX, 0))
}

// The image that is just made.
pub(crate) fn made<R: Threads + Wait + Sync + Abort>(rt: &R, alloc: Global) -> Memory {
    let disk = got(rt, Memory::new(alloc, 1024));
    let ran = done(
        rt,
        alloc,
        &["mkfs", "1024", "64", "2"],
        b"".as_slice(),
        disk,
    );
    same(rt, &ran.status, &Status::Done);
    copy_of(rt, alloc, &ran.disk)
}

// Puts these bytes; then nothing is pending.
pub(crate) fn edit(rt: &impl Abort, disk: &mut Memory, edits: &[Edit]) {
    for (at, bytes) in edits {
        holds(rt, disk.len() == 1024 && *at <= 4_190_208);
        holds(rt, !bytes.is_empty() && bytes.len() <= 512);
        holds(rt, disk.write_at(*at, bytes).is_ok());
    }
    holds(rt, disk.sync().is_ok());
}

// The image with one directory, after edits. Nothing is pending on it, and no call was made.
pub(crate) fn edited<R: Threads + Wait + Sync + Abort>(
    rt: &R,
    alloc: Global,
    edits: &[Edit],
) -> Memory {
    let mut disk = made(rt, alloc);
    edit(rt, &mut disk, &ONE_DIRECTORY);
    edit(rt, &mut disk, edits);
    copy_of(rt, alloc, &disk)
}

// Asserts that a disk was only read.
pub(crate) fn assert_only_read(rt: &impl Abort, disk: &Memory) {
    for call in disk.calls() {
        holds(rt, matches!(call.act, Act::Read { .. }));
    }
}
