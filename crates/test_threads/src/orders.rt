// Two calls of two workers, in both orders.
use crate::helpers::holds;
use crate::runs::{done, image};
use sfs_base::{CoreId, Gate, Place};
use std::alloc::Global;
use std::process::Abort;
use std::sync::Wait;
use std::thread;
use std::thread::Threads;

// Lets one core rest before its log.
#[derive(Drop)]
struct Rest {
    core: u8,
}

// For how many turns.
const TURNS: u64 = 1_000;

impl Gate for Rest {
    fn at(&self, core: CoreId, place: Place) {
        if core.0 == self.core && place == Place::Held {
            for _ in 0..TURNS {
                thread::yield_now();
            }
        }
    }
}

const TWO_FILES: &str = "0 create /a\n1 create /b\n";

// What it is answered, by whose call comes first.
const ORDERS: [&str; 2] = [
    "0 0 create 0 a = node 64 file\n1 1 create 0 b = node 2112 file\n",
    "0 1 create 0 b = node 2112 file\n1 0 create 0 a = node 64 file\n",
];

// How often it is run at most until a text was met.
const OFTEN: u32 = 1_000;

// Whether the text is this one, where the other core rests.
fn is_met<R: Threads + Wait + Sync + Abort>(rt: &R, alloc: Global, core: u8, wanted: &str) -> bool {
    let disk = image(rt, alloc, &["mkfs", "1024", "64", "2"], 1024);
    let ran = done(rt, alloc, &["run"], TWO_FILES, disk, &Rest { core });
    let text = ran.text.as_slice();
    let [first, second] = ORDERS;
    holds(rt, text == first.as_bytes() || text == second.as_bytes());
    text == wanted.as_bytes()
}

// Asserts that this text comes in some run, where the core whose call is second rests, and one of both in each.
fn assert_comes<R: Threads + Wait + Sync + Abort>(rt: &R, alloc: Global, core: u8, wanted: &str) {
    let mut met = false;
    for _ in 0..OFTEN {
        met = met || is_met(rt, alloc, core, wanted);
    }
    holds(rt, met);
}

#[test]
fn either_worker_may_come_first(rt: HostRuntime) {
    let [first, second] = ORDERS;
    assert_comes(&rt, rt.alloc(), 1, first);
    assert_comes(&rt, rt.alloc(), 0, second);
}
