// Two renames that together would close a loop.
use crate::helpers::holds;
use crate::judged::{follows, is_legal};
use crate::played::{first_tree, phases_in, played};
use sfs_base::NoGate;
use std::alloc::Global;
use std::process::Abort;
use std::sync::Wait;
use std::thread::Threads;
use tree_laws::{Call, Code, Entry, History, Reply};
use workers::Plainly;

// How often both run.
const ROUNDS: u64 = 200;

// Whether an entry is a rename that was done.
fn is_done(entry: &Entry) -> bool {
    match (&entry.call, &entry.reply) {
        (Call::Rename { .. }, Reply::Ok) => true,
        _ => false,
    }
}

// Whether an entry is a rename that is refused since it would close a loop, or a look-up of what is no longer there.
fn is_too_late(entry: &Entry) -> bool {
    match (&entry.call, &entry.reply) {
        (Call::Rename { .. }, Reply::Error { code }) => *code == Code::Invalid,
        (Call::Look { .. }, Reply::Error { code }) => *code == Code::NoEntry,
        _ => false,
    }
}

// How many renames were done, and how many workers came too late.
fn outcome(history: &History) -> (u64, u64) {
    let mut cursor = history.first();
    let mut done = 0u64;
    let mut late = 0u64;
    for _ in 0..history.len() {
        if let Some(entry) = history.next(&mut cursor) {
            if is_done(entry) {
                done = done.saturating_add(1);
            }
            if is_too_late(entry) {
                late = late.saturating_add(1);
            }
        }
    }
    (done, late)
}

// Runs both renames side by side.
fn assert_one_moves<R: Threads + Wait + Sync + Abort>(rt: &R, alloc: Global) {
    let text = "0 mkdir /a\n0 mkdir /b\n---\n0 rename /a /b/x\n1 rename /b /a/y\n";
    let script = phases_in(rt, alloc, text.as_bytes());
    let run = played(rt, alloc, &script, 100, 2, Plainly::Acknowledges, &NoGate);
    holds(rt, run.ended);
    holds(rt, outcome(&run.history) == (1, 1));
    holds(rt, follows(rt, alloc, &run.history, &script, 2));
    let tree = first_tree(rt, alloc, 100, 2);
    holds(rt, is_legal(rt, &run.history, tree, 2, &Reply::Ok));
}

#[test]
fn of_two_renames_that_would_close_a_loop_one_is_done(rt: HostRuntime) {
    let alloc = rt.alloc();
    for _ in 0..ROUNDS {
        assert_one_moves(&rt, alloc);
    }
}
