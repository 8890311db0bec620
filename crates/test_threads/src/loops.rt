// Renames each of which alone is done, and which together would close a loop.
use crate::helpers::{holds, same};
use crate::runs::{done, image, shown};
use sfs_base::NoGate;
use std::alloc::Global;
use std::process::Abort;
use std::sync::Wait;
use std::thread::Threads;
use tree_laws::{Call, Code, Entry, History, Reply};

// Each of two directories into the other one.
const INTO_EACH_OTHER: &str = "0 mkdir /a\n0 mkdir /b\n---\n0 rename /a /b/x\n1 rename /b /a/y\n";

// Each of three directories into the next one; then all is flushed.
const ROUND_OF_THREE: &str =
    "0 mkdir /a\n0 mkdir /b\n0 mkdir /c\n---\n0 rename /a /b/x\n1 rename /b /c/y\n2 rename /c /a/z\n---\n0 fsync /\n";

// The trees that two of the three renames make.
const CHAINS: [&str; 3] = [
    "dir 3 1 /\ndir 3 1 /c\ndir 3 1 /c/y\ndir 2 0 /c/y/x\n",
    "dir 3 1 /\ndir 3 1 /a\ndir 3 1 /a/z\ndir 2 0 /a/z/y\n",
    "dir 3 1 /\ndir 3 1 /b\ndir 3 1 /b/x\ndir 2 0 /b/x/z\n",
];

// How often it is run.
const OFTEN: u32 = 50;

// Whether an entry is a rename that was done.
fn is_done(entry: &Entry) -> bool {
    matches!(entry.call, Call::Rename { .. }) && matches!(entry.reply, Reply::Ok)
}

// Whether an entry refuses a rename: itself, since it would close the loop, or the look-up before it, since the other one has gone.
fn is_refused(entry: &Entry) -> bool {
    match (&entry.call, &entry.reply) {
        (Call::Rename { .. }, Reply::Error { code }) => *code == Code::Invalid,
        (Call::Look { .. }, Reply::Error { code }) => *code == Code::NoEntry,
        _ => false,
    }
}

// How many renames were done in a history, and how many refused.
fn counts(history: &History) -> (u32, u32) {
    let mut done = 0u32;
    let mut refused = 0u32;
    let mut cursor = history.first();
    for _ in 0..history.len() {
        if let Some(entry) = history.next(&mut cursor) {
            if is_done(entry) {
                done = done.saturating_add(1);
            }
            if is_refused(entry) {
                refused = refused.saturating_add(1);
            }
        }
    }
    (done, refused)
}

// Asserts that one of them is done and the other one refused.
fn assert_one<R: Threads + Wait + Sync + Abort>(rt: &R, alloc: Global) {
    let disk = image(rt, alloc, &["mkfs", "1024", "64", "2"], 1024);
    let ran = done(rt, alloc, &["run"], INTO_EACH_OTHER, disk, &NoGate);
    same(rt, &counts(&ran.history), &(1, 1));
    // Two are made, and each rename looks up the other's directory.
    holds(rt, ran.history.len() >= 5 && ran.history.len() <= 6);
}

// Asserts that two of three are done and the third one refused, and that the disk has the chain of the two.
fn assert_two<R: Threads + Wait + Sync + Abort>(rt: &R, alloc: Global) {
    let disk = image(rt, alloc, &["mkfs", "1024", "64", "3"], 1024);
    let ran = done(rt, alloc, &["run"], ROUND_OF_THREE, disk, &NoGate);
    same(rt, &counts(&ran.history), &(2, 1));
    // Three are made, each rename looks up the directory that is its place, and one fsync.
    holds(rt, ran.history.len() >= 9 && ran.history.len() <= 10);
    let tree = shown(rt, alloc, &ran.disk);
    holds(rt, is_one_of(tree.as_slice(), &CHAINS));
}

// Whether a text is one of these.
fn is_one_of(text: &[u8], texts: &[&str]) -> bool {
    for one in texts {
        if text == one.as_bytes() {
            return true;
        }
    }
    false
}

#[test]
fn one_of_two_renames_into_each_other_is_done(rt: HostRuntime) {
    for _ in 0..OFTEN {
        assert_one(&rt, rt.alloc());
    }
}

#[test]
fn two_of_three_renames_in_a_round_are_done(rt: HostRuntime) {
    for _ in 0..OFTEN {
        assert_two(&rt, rt.alloc());
    }
}
