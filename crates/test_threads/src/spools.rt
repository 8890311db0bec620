// A mail spool of four workers: each message is written, flushed, given its name in the mailbox, which is flushed.
use crate::helpers::{got, holds, same};
use crate::runs::{done, image, shown};
use sfs_base::NoGate;
use std::alloc::Global;
use std::process::Abort;
use std::sync::Wait;
use std::thread::Threads;
use tree_laws::{History, Reply};

// How many messages each of the workers has.
const MESSAGES: u32 = 200;

const WORKERS: u32 = 4;

// The lines of one message.
fn add_message(rt: &impl Abort, alloc: Global, script: &mut String, worker: u32, number: u32) {
    let name = got(rt, format!(in alloc; "{worker}.{number}"));
    let lines = got(
        rt,
        format!(in alloc;
            "{worker} create /tmp/{name}\n{worker} write /tmp/{name} 0 68656c6c6f\n{worker} fsync /tmp/{name}\n{worker} rename /tmp/{name} /new/{name}\n{worker} fsync /new\n"
        ),
    );
    got(rt, script.push_str(lines.as_str()));
}

// Two directories, and then all messages of all workers side by side.
fn spool(rt: &impl Abort, alloc: Global) -> String {
    let mut script = got(
        rt,
        String::from_str(alloc, "0 mkdir /tmp\n0 mkdir /new\n0 fsync /\n---\n"),
    );
    for worker in 0..WORKERS {
        for number in 0..MESSAGES {
            add_message(rt, alloc, &mut script, worker, number);
        }
    }
    script
}

// How many entries of a history were answered by a node, or Ok.
fn done_well(history: &History) -> u64 {
    let mut count = 0u64;
    let mut cursor = history.first();
    for _ in 0..history.len() {
        if let Some(entry) = history.next(&mut cursor)
            && matches!(entry.reply, Reply::Ok | Reply::Node { .. })
        {
            count = count.saturating_add(1);
        }
    }
    count
}

// How many lines of a text begin so.
fn lines_with(text: &[u8], front: &[u8]) -> u32 {
    let mut count = 0u32;
    let mut begins = true;
    for (place, byte) in text.iter().enumerate() {
        if begins
            && let Some(rest) = text.get(place..)
            && rest.starts_with(front)
        {
            count = count.saturating_add(1);
        }
        begins = *byte == b'\n';
    }
    count
}

// Asserts that the spool is delivered on the image that these words make.
fn assert_delivered<R: Threads + Wait + Sync + Abort>(rt: &R, alloc: Global, words: &[&str]) {
    let disk = image(rt, alloc, words, 16_384);
    let script = spool(rt, alloc);
    let ran = done(rt, alloc, &["run"], script.as_str(), disk, &NoGate);
    // Thirteen calls a message, and the first three.
    same(rt, &ran.history.len(), &10_403);
    same(rt, &done_well(&ran.history), &10_403);
    same(
        rt,
        &lines_with(ran.text.as_slice(), b"".as_slice()),
        &10_403,
    );
    let tree = shown(rt, alloc, &ran.disk);
    same(rt, &lines_with(tree.as_slice(), b"".as_slice()), &803);
    same(
        rt,
        &lines_with(tree.as_slice(), b"file 1 5 ".as_slice()),
        &800,
    );
    holds(
        rt,
        tree.starts_with(b"dir 4 2 /\ndir 2 800 /new\n".as_slice()),
    );
    holds(rt, tree.ends_with(b"\ndir 2 0 /tmp\n".as_slice()));
}

#[test]
fn a_spool_is_delivered(rt: HostRuntime) {
    assert_delivered(&rt, rt.alloc(), &["mkfs", "16384", "2048", "4"]);
}

#[test]
fn a_spool_is_delivered_with_three_slots_a_core(rt: HostRuntime) {
    assert_delivered(&rt, rt.alloc(), &["mkfs", "16384", "2048", "4", "3"]);
}
