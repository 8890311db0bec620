// A core is held inside the commit of its fsync while another one flushes and is answered: each writes the gate of its own slot.
use crate::helpers::{got, holds, same_list};
use crate::meetings::comes_to;
use crate::runs::{done, gates, image, shown};
use sfs_base::{CoreId, Gate, NoGate, Place};
use sfs_dev::Memory;
use std::alloc::Global;
use std::process::Abort;
use std::sync::Wait;
use std::sync::atomic::{AtomicU64, Ordering};
use std::thread::Threads;

// Holds core 0 where the body of its commit is written, until core 1 has written one and afterwards comes to the log of a further call.
#[derive(Drop)]
struct Commits {
    // How many bodies core 1 has written, and how often it has come to its log since.
    bodies: AtomicU64,
    since: AtomicU64,
    // 1 once that was so while core 0 was held.
    met: AtomicU64,
}

impl Commits {
    fn new() -> Commits {
        Commits {
            bodies: AtomicU64::new(0),
            since: AtomicU64::new(0),
            met: AtomicU64::new(0),
        }
    }

    // Takes note of a place of core 1.
    fn note(&self, place: Place) {
        if place == Place::Body {
            self.bodies.fetch_add(1, Ordering::SeqCst);
        }
        if place == Place::Held && self.bodies.load(Ordering::SeqCst) > 0 {
            self.since.fetch_add(1, Ordering::SeqCst);
        }
    }
}

impl Gate for Commits {
    fn at(&self, core: CoreId, place: Place) {
        if core.0 == 1 {
            self.note(place);
        }
        if core.0 == 0 && place == Place::Body && comes_to(&self.since, 1) {
            self.met.store(1, Ordering::SeqCst);
        }
    }
}

// Two directories, which a run before has flushed.
const BEFORE: &str = "0 mkdir /a\n0 mkdir /b\n0 fsync /\n";

// A file in each of them, flushed by another core.
const BESIDE: &str = "0 create /a/f\n0 fsync /a\n1 create /b/g\n1 fsync /b\n1 list /b\n";

// The gates of the slots of core 1 and core 0, each opened once.
const OPENED: [(u64, u8); 2] = [(45_056, 1), (4_096, 1)];

#[test]
fn a_core_in_its_commit_keeps_no_other_directory_waiting(rt: HostRuntime) {
    let alloc = rt.alloc();
    let disk = image(&rt, alloc, &["mkfs", "1024", "64", "2"], 1024);
    let before = done(&rt, alloc, &["run"], BEFORE, disk, &NoGate);
    // Recovered, so that each slot is closed.
    let closed = done(&rt, alloc, &["show"], "", before.disk, &NoGate).disk;
    assert_beside(&rt, alloc, got(&rt, closed.left(alloc, u64::MAX, 0)));
}

// Asserts that core 1's commit is opened while core 0 is held in its own, and that both are on the disk.
fn assert_beside<R: Threads + Wait + Sync + Abort>(rt: &R, alloc: Global, disk: Memory) {
    let gate = Commits::new();
    let ran = done(rt, alloc, &["run"], BESIDE, disk, &gate);
    holds(rt, gate.met.load(Ordering::SeqCst) == 1);
    same_list(rt, gates(rt, alloc, &ran.disk).as_slice(), &OPENED);
    same_list(
        rt,
        shown(rt, alloc, &ran.disk).as_slice(),
        b"dir 4 2 /\ndir 2 1 /a\nfile 1 0 0 /a/f\ndir 2 1 /b\nfile 1 0 1 /b/g\n".as_slice(),
    );
}
