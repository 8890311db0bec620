// A core is held inside the commit of its fsync while another one flushes and is answered.
use crate::helpers::{got, holds, same_list};
use crate::runs::{Ran, image, phases_in, run};
use crate::trees::assert_recovers;
use fmt_super::Layout;
use sfs_base::{CoreId, Gate, Place};
use sfs_dev::Memory;
use std::alloc::Global;
use std::process::Abort;
use std::sync::Wait;
use std::sync::atomic::{AtomicU64, Ordering};
use std::thread;
use std::thread::Threads;
use tree_laws::{TurnAct, Turns};

// How often a core looks for the other one.
const TURNS: u64 = 100_000_000;

const LAYOUT: Layout = Layout {
    blocks: 128,
    inodes: 64,
    cores: 2,
    slots: 1,
};

// Holds core 0 where the body of its second commit is written, until core 1 has come so often to its log.
#[derive(Drop)]
struct Meeting {
    wanted: u64,
    // How many bodies core 0 has written, and how often core 1 has come to its log.
    bodies: AtomicU64,
    others: AtomicU64,
    // 1 once core 1 has come often enough while core 0 was held.
    met: AtomicU64,
}

impl Meeting {
    fn new(wanted: u64) -> Meeting {
        Meeting {
            wanted,
            bodies: AtomicU64::new(0),
            others: AtomicU64::new(0),
            met: AtomicU64::new(0),
        }
    }

    // Holds core 0.
    fn hold(&self) {
        if comes_to(&self.others, self.wanted) {
            self.met.store(1, Ordering::SeqCst);
        }
    }
}

impl Gate for Meeting {
    fn at(&self, core: CoreId, place: Place) {
        if core.0 == 1 && place == Place::Held {
            self.others.fetch_add(1, Ordering::SeqCst);
        }
        if core.0 == 0 && place == Place::Body {
            let before = self.bodies.fetch_add(1, Ordering::SeqCst);
            if before == 1 {
                self.hold();
            }
        }
    }
}

// Waits until a word has this value or a greater one, and says whether it has.
fn comes_to(word: &AtomicU64, value: u64) -> bool {
    for _ in 0..TURNS {
        if word.load(Ordering::SeqCst) >= value {
            return true;
        }
        thread::yield_now();
    }
    false
}

// The place of the last turn in which a core did this.
fn last_place(turns: &Turns, core: CoreId, act: TurnAct) -> Option<u64> {
    let mut found = None;
    for place in 0..turns.len() {
        if let Some(turn) = turns.get(place)
            && turn.core == core
            && turn.act == act
        {
            found = Some(place);
        }
    }
    found
}

// Whether core 1's commit was durable before core 0 opened its second one.
fn came_between(turns: &Turns) -> bool {
    let durable = last_place(turns, CoreId(1), TurnAct::Durable);
    let opened = last_place(turns, CoreId(0), TurnAct::Opened);
    match (durable, opened) {
        (Some(durable), Some(opened)) => durable < opened,
        _ => false,
    }
}

// The second phase has seven calls of core 1: a look and a make, a look and an fsync, a look and a list, and a call that comes to the log once these are answered.
const LINES: &str =
    "0 mkdir /a\n0 mkdir /b\n0 fsync /\n---\n0 create /a/f\n0 fsync /a\n1 create /b/g\n1 fsync /b\n1 list /b\n1 stat /\n";

#[test]
fn a_core_in_its_commit_keeps_no_other_directory_waiting(rt: HostRuntime) {
    let alloc = rt.alloc();
    let script = phases_in(&rt, alloc, LINES.as_bytes());
    let gate = Meeting::new(7);
    let ran = run(&rt, alloc, image(&rt, alloc, LAYOUT), 4096, &script, &gate);
    holds(&rt, gate.met.load(Ordering::SeqCst) == 1);
    holds(&rt, came_between(&ran.turns));
    assert_recovers(
        &rt,
        alloc,
        &ran.disk,
        "dir 4 2 /\ndir 2 1 /a\nfile 1 0 0 /a/f\ndir 2 1 /b\nfile 1 0 1 /b/g\n",
    );
}
