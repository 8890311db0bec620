// One call of the program over a disk in memory, with ample memory and no gate.
use crate::helpers::{got, holds, same, same_at, same_list_at};
use scalefs_run::{Outcome, Status, run};
use sfs_base::{BytesSink, BytesSource, NoGate};
use sfs_dev::{Act, Disk, Memory};
use std::alloc::Global;
use std::process::Abort;
use std::sync::Wait;
use std::thread::Threads;
use tree_laws::{History, Turns};

/// What a call leaves, with the text that the sink got.
#[derive(Drop)]
pub struct Ran<D> {
    pub status: Status,
    pub history: History,
    pub turns: Turns,
    pub text: Vec<u8>,
    pub disk: D,
}

/// How many blocks, inodes and cores an image has.
pub type Size = (u32, u32, u32);

/// The image on which most scripts run. Its first new node is 1024, and 3072 on core 1.
pub const PLAIN: Size = (1024, 1024, 2);

/// One with few inodes. Its first new node is 64, and 2112 on core 1.
pub const SMALL: Size = (1024, 64, 2);

/// A disk of 1,024 blocks of zeros.
pub fn blank(rt: &impl Abort, alloc: Global) -> Memory {
    got(rt, Memory::new(alloc, 1024))
}

/// A disk of that content without a device call, where nothing is pending on this one.
pub fn copy_of(rt: &impl Abort, alloc: Global, disk: &Memory) -> Memory {
    got(rt, disk.left(alloc, u64::MAX, 0))
}

/// A disk with an empty image, which has all its blocks. No device call was made on it yet.
pub fn image<R: Threads + Wait + Sync + Abort>(rt: &R, alloc: Global, size: Size) -> Memory {
    image_with(rt, alloc, size, 1)
}

/// The same whose cores have so many journal slots each.
pub fn image_with<R: Threads + Wait + Sync + Abort>(
    rt: &R,
    alloc: Global,
    size: Size,
    slots: u32,
) -> Memory {
    let (blocks, inodes, cores) = size;
    holds(rt, blocks <= 262_144);
    let mut words = words_of(rt, alloc, &["mkfs"]);
    for number in [blocks, inodes, cores, slots] {
        got(rt, words.push(got(rt, format!(in alloc; "{number}"))));
    }
    let (source, sink) = ends(rt, alloc, b"".as_slice());
    let ran = run_between(
        rt,
        alloc,
        &words,
        source,
        sink,
        got(rt, Memory::new(alloc, blocks)),
    );
    same(rt, &ran.status, &Status::Done);
    copy_of(rt, alloc, &ran.disk)
}

/// The image on which most scripts run.
pub fn fresh<R: Threads + Wait + Sync + Abort>(rt: &R, alloc: Global) -> Memory {
    image(rt, alloc, PLAIN)
}

/// These words.
pub fn words_of(rt: &impl Abort, alloc: Global, words: &[&str]) -> Vec<String> {
    let mut list = Vec::new(alloc);
    for word in words {
        got(rt, list.push(got(rt, String::from_str(alloc, word))));
    }
    list
}

/// The one word `run`.
pub fn run_alone(rt: &impl Abort, alloc: Global) -> Vec<String> {
    words_of(rt, alloc, &["run"])
}

/// A source of this script and a sink, neither of which fails.
pub fn ends(rt: &impl Abort, alloc: Global, script: &[u8]) -> (BytesSource, BytesSink) {
    let source = BytesSource::new(got(rt, Vec::from_slice(alloc, script)), Vec::new(alloc));
    (source, BytesSink::new(alloc, Vec::new(alloc)))
}

/// A run of this script over ends that don't fail.
pub fn run_script<R: Threads + Wait + Sync + Abort, D: Disk + Drop + Sync>(
    rt: &R,
    alloc: Global,
    script: &[u8],
    disk: D,
) -> Ran<D> {
    let (source, sink) = ends(rt, alloc, script);
    run_between(rt, alloc, &run_alone(rt, alloc), source, sink, disk)
}

/// What these words do, with no script.
pub fn done<R: Threads + Wait + Sync + Abort, D: Disk + Drop + Sync>(
    rt: &R,
    alloc: Global,
    words: &[&str],
    disk: D,
) -> Ran<D> {
    let (source, sink) = ends(rt, alloc, b"".as_slice());
    run_between(rt, alloc, &words_of(rt, alloc, words), source, sink, disk)
}

/// A call between these ends.
pub fn run_between<R: Threads + Wait + Sync + Abort, D: Disk + Drop + Sync>(
    rt: &R,
    alloc: Global,
    words: &[String],
    mut source: BytesSource,
    mut sink: BytesSink,
    disk: D,
) -> Ran<D> {
    let Outcome {
        status,
        history,
        turns,
        disk,
    } = run(rt, alloc, words, &mut source, &mut sink, disk, &NoGate);
    let text = got(rt, Vec::from_slice(alloc, sink.bytes()));
    Ran {
        status,
        history,
        turns,
        text,
        disk,
    }
}

/// Asserts that a script is run to its end with this text. Answers the disk afterwards.
pub fn assert_text<R: Threads + Wait + Sync + Abort, D: Disk + Drop + Sync>(
    rt: &R,
    alloc: Global,
    script: &str,
    disk: D,
    text: &str,
) -> D {
    let ran = run_script(rt, alloc, script.as_bytes(), disk);
    same_at(rt, &ran.status, &Status::Done, script);
    same_list_at(rt, ran.text.as_slice(), text.as_bytes(), script);
    ran.disk
}

/// Asserts that a script is run to its end with one of these texts.
pub fn assert_text_among<R: Threads + Wait + Sync + Abort, D: Disk + Drop + Sync>(
    rt: &R,
    alloc: Global,
    script: &str,
    disk: D,
    texts: &[&str],
) {
    let ran = run_script(rt, alloc, script.as_bytes(), disk);
    same_at(rt, &ran.status, &Status::Done, script);
    for text in texts {
        if ran.text.as_slice() == text.as_bytes() {
            return;
        }
    }
    same_list_at(
        rt,
        ran.text.as_slice(),
        b"one of the texts".as_slice(),
        script,
    );
}

/// Asserts that a disk is shown with this text. Answers the disk afterwards.
pub fn assert_shown<R: Threads + Wait + Sync + Abort>(
    rt: &R,
    alloc: Global,
    disk: Memory,
    text: &str,
) -> Memory {
    let ran = done(rt, alloc, &["show"], disk);
    same_at(rt, &ran.status, &Status::Done, text);
    same_list_at(rt, ran.text.as_slice(), text.as_bytes(), text);
    holds(rt, ran.history.is_empty());
    ran.disk
}

/// Asserts that no device call but reads was made on a disk.
pub fn assert_only_read(rt: &impl Abort, disk: &Memory) {
    for call in disk.calls() {
        holds(rt, matches!(call.act, Act::Read { .. }));
    }
}
