// A core is held at a place of its call, and another one makes calls meanwhile.
use crate::helpers::holds;
use crate::runs::{done, image};
use sfs_base::{CoreId, Gate, Place};
use std::alloc::Global;
use std::process::Abort;
use std::sync::Wait;
use std::sync::atomic::{AtomicU64, Ordering};
use std::thread;
use std::thread::Threads;

// How often a core looks for the other one.
const TURNS: u64 = 100_000_000;

// Holds core 0 at a place, as it comes there for the so-many-th time, until core 1 has come so often to the place before its log.
#[derive(Drop)]
struct Meeting {
    held: Place,
    time: u64,
    often: u64,
    // How often core 1 has come there, and core 0 to its place.
    came: AtomicU64,
    stays: AtomicU64,
    // 1 once core 1 has come often enough while core 0 was held.
    met: AtomicU64,
}

impl Meeting {
    fn new(held: Place, time: u64, often: u64) -> Meeting {
        Meeting {
            held,
            time,
            often,
            came: AtomicU64::new(0),
            stays: AtomicU64::new(0),
            met: AtomicU64::new(0),
        }
    }

    // Holds core 0, where it is time.
    fn hold(&self) {
        let stays = self.stays.fetch_add(1, Ordering::SeqCst);
        if stays == self.time.wrapping_sub(1) && comes_to(&self.came, self.often) {
            self.met.store(1, Ordering::SeqCst);
        }
    }
}

impl Gate for Meeting {
    fn at(&self, core: CoreId, place: Place) {
        if core.0 == 1 && place == Place::Held {
            self.came.fetch_add(1, Ordering::SeqCst);
        }
        if core.0 == 0 && place == self.held {
            self.hold();
        }
    }
}

// Waits until a word has this value or a greater one, and says whether it has.
pub(crate) fn comes_to(word: &AtomicU64, value: u64) -> bool {
    for _ in 0..TURNS {
        if word.load(Ordering::SeqCst) >= value {
            return true;
        }
        thread::yield_now();
    }
    false
}

// A file of core 0, and two of core 1.
const THREE_FILES: &str = "0 create /a\n1 create /b\n1 create /c\n";

// A file that core 0 moves, behind two look-ups, from one directory to another one, and three calls of core 1 beside it.
const MOVED: &str =
    "2 mkdir /p\n2 mkdir /q\n2 mkdir /r\n2 create /p/f\n---\n0 rename /p/f /q/f\n1 create /r/g\n1 stat /\n";

// A file of core 1 that comes to the disk; then a file that core 0 makes, and beside it a further write and fsync of the first one, and a call behind these.
const FLUSHED_AGAIN: &str =
    "1 create /b\n1 write /b 0 68\n1 fsync /b\n---\n0 create /a\n1 write /b 0 69\n1 fsync /b\n1 create /c\n";

// Asserts that core 1 comes on while core 0 is held, and that so many calls are made.
fn assert_met<R: Threads + Wait + Sync + Abort>(
    rt: &R,
    alloc: Global,
    gate: &Meeting,
    script: &str,
    calls: u64,
) {
    let disk = image(rt, alloc, &["mkfs", "1024", "64", "3"], 1024);
    let ran = done(rt, alloc, &["run"], script, disk, gate);
    holds(rt, gate.met.load(Ordering::SeqCst) == 1);
    holds(rt, ran.history.len() == calls);
}

#[test]
fn a_call_in_one_bucket_keeps_no_other_bucket_waiting(rt: HostRuntime) {
    let gate = Meeting::new(Place::Held, 1, 2);
    assert_met(&rt, rt.alloc(), &gate, THREE_FILES, 3);
}

#[test]
fn a_core_that_has_its_log_keeps_no_other_core_waiting(rt: HostRuntime) {
    let gate = Meeting::new(Place::Part, 1, 2);
    assert_met(&rt, rt.alloc(), &gate, THREE_FILES, 3);
}

#[test]
fn a_file_that_moves_keeps_no_other_directory_waiting(rt: HostRuntime) {
    let gate = Meeting::new(Place::Held, 3, 3);
    assert_met(&rt, rt.alloc(), &gate, MOVED, 11);
}

#[test]
fn a_file_that_the_disk_has_is_flushed_while_another_core_has_its_log(rt: HostRuntime) {
    let gate = Meeting::new(Place::Part, 1, 10);
    assert_met(&rt, rt.alloc(), &gate, FLUSHED_AGAIN, 11);
}
