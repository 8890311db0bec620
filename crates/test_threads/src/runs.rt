// One call of the program over a disk in memory, with ample memory.
use crate::helpers::{got, holds, same};
use scalefs_run::{Outcome, Status, run};
use sfs_base::{BytesSink, BytesSource, Gate, NoGate};
use sfs_dev::{Act, Memory};
use std::alloc::Global;
use std::process::Abort;
use std::sync::Wait;
use std::thread::Threads;
use tree_laws::History;

// What a run leaves that was done, with its text.
#[derive(Drop)]
pub(crate) struct Ran {
    pub(crate) history: History,
    pub(crate) text: Vec<u8>,
    pub(crate) disk: Memory,
}

// Asserts that these words are done with this script on a disk.
pub(crate) fn done<R: Threads + Wait + Sync + Abort, G: Gate>(
    rt: &R,
    alloc: Global,
    words: &[&str],
    script: &str,
    disk: Memory,
    gate: &G,
) -> Ran {
    let mut list = Vec::new(alloc);
    for word in words {
        got(rt, list.push(got(rt, String::from_str(alloc, word))));
    }
    let bytes = got(rt, Vec::from_slice(alloc, script.as_bytes()));
    let mut source = BytesSource::new(bytes, Vec::new(alloc));
    let mut sink = BytesSink::new(alloc, Vec::new(alloc));
    let Outcome {
        status,
        history,
        turns: _,
        disk,
    } = run(rt, alloc, &list, &mut source, &mut sink, disk, gate);
    same(rt, &status, &Status::Done);
    let text = got(rt, Vec::from_slice(alloc, sink.bytes()));
    Ran {
        history,
        text,
        disk,
    }
}

// A disk with an empty image, made by these words, which has so many blocks. No device call was made on it yet.
pub(crate) fn image<R: Threads + Wait + Sync + Abort>(
    rt: &R,
    alloc: Global,
    words: &[&str],
    blocks: u32,
) -> Memory {
    holds(rt, blocks <= 262_144);
    let blank = got(rt, Memory::new(alloc, blocks));
    let ran = done(rt, alloc, words, "", blank, &NoGate);
    got(rt, ran.disk.left(alloc, u64::MAX, 0))
}

// The text of the tree of a disk.
pub(crate) fn shown<R: Threads + Wait + Sync + Abort>(
    rt: &R,
    alloc: Global,
    disk: &Memory,
) -> Vec<u8> {
    let copy = got(rt, disk.left(alloc, u64::MAX, 0));
    done(rt, alloc, &["show"], "", copy, &NoGate).text
}

// The writes of one byte on a disk: where, and which byte.
pub(crate) fn gates(rt: &impl Abort, alloc: Global, disk: &Memory) -> Vec<(u64, u8)> {
    let mut gates = Vec::new(alloc);
    let mut place = 0u64;
    for call in disk.calls() {
        if let Act::Write { at, count } = call.act {
            if count == 1
                && let Some(byte) = disk.written().get(place as usize)
            {
                got(rt, gates.push((at, *byte)));
            }
            place = place.saturating_add(count);
        }
    }
    gates
}
