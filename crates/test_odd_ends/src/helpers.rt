// What tests assert by, how they take answers, and a call of the program with ample memory and no gate.
ghost use Rattle.std.specs.Prelude.{◌≡◌, true, Ok};

use scalefs_run::{Outcome, Status, run};
use sfs_base::{BytesSink, NoGate, Source};
use sfs_dev::{Disk, Memory};
use std::alloc::Global;
use std::fmt::Debug;
use std::process::Abort;
use std::sync::Wait;
use std::thread::Threads;

// Asserts that a value is the one that is wanted.
pub(crate) fn same<T: PartialEq + Debug>(rt: &impl Abort, is: &T, wanted: &T) {
    assert_eq!(rt; *is, *wanted);
}

// Asserts that something holds.
pub(crate) fn holds(rt: &impl Abort, is: bool)
    ensures { is ≡ true }
{
    assert!(rt; is);
}

// The value of an answer that is no error.
pub(crate) fn got<T, E: Drop>(rt: &impl Abort, answer: Result<T, E>) -> T
    ensures { answer ≡ Ok result }
{
    match answer {
        Ok(value) => value,
        Err(_) => panic!(rt; "an error"),
    }
}

// What a call leaves: its status, what was written, and the disk.
#[derive(Drop)]
pub(crate) struct Ran<D> {
    pub(crate) status: Status,
    pub(crate) text: Vec<u8>,
    pub(crate) disk: D,
}

// What these words do over a source and a disk.
pub(crate) fn done<R: Threads + Wait + Sync + Abort, S: Source + Drop, D: Disk + Drop + Sync>(
    rt: &R,
    alloc: Global,
    words: &[&str],
    mut source: S,
    disk: D,
) -> Ran<D> {
    let mut list = Vec::new(alloc);
    for word in words {
        got(rt, list.push(got(rt, String::from_str(alloc, word))));
    }
    let mut sink = BytesSink::new(alloc, Vec::new(alloc));
    let outcome = run(rt, alloc, &list, &mut source, &mut sink, disk, &NoGate);
    let Outcome {
        status,
        history: _,
        turns: _,
        disk,
    } = outcome;
    Ran {
        status,
        text: got(rt, Vec::from_slice(alloc, sink.bytes())),
        disk,
    }
}

// The image of 1,024 blocks, 64 inodes and 2 cores that is just made.
pub(crate) fn made<R: Threads + Wait + Sync + Abort>(rt: &R, alloc: Global) -> Memory {
    let source = crate::LongSource::new(0, 0);
    let disk = got(rt, Memory::new(alloc, 1024));
    let ran = done(rt, alloc, &["mkfs", "1024", "64", "2"], source, disk);
    same(rt, &ran.status, &Status::Done);
    got(rt, ran.disk.left(alloc, u64::MAX, 0))
}
