// A worker is held inside a call while another one comes on.
use crate::helpers::holds;
use crate::judged::{follows, is_legal};
use crate::played::{first_tree, phases_in, played};
use sfs_base::{CoreId, Gate, Place};
use std::alloc::Global;
use std::process::Abort;
use std::sync::Wait;
use std::sync::atomic::{AtomicU64, Ordering};
use std::thread;
use std::thread::Threads;
use tree_laws::Reply;
use workers::Plainly;

// How often a core looks for the other one.
const TURNS: u64 = 1_000_000_000;

// Holds core 0 at a place, as it comes there for the so-many-th time, until core 1 has come to `Held` so often.
#[derive(Drop)]
struct Meeting {
    place: Place,
    time: u64,
    wanted: u64,
    // How often core 0 has come to its place, and core 1 to `Held`.
    first: AtomicU64,
    others: AtomicU64,
    // 1 once core 1 has come often enough while core 0 was held.
    met: AtomicU64,
}

impl Meeting {
    fn new(place: Place, time: u64, wanted: u64) -> Meeting {
        Meeting {
            place,
            time,
            wanted,
            first: AtomicU64::new(0),
            others: AtomicU64::new(0),
            met: AtomicU64::new(0),
        }
    }

    // Holds core 0.
    fn hold(&self) {
        if comes_to(&self.others, self.wanted) {
            self.met.store(1, Ordering::SeqCst);
        }
    }
}

impl Gate for Meeting {
    fn at(&self, core: CoreId, place: Place) {
        if core.0 == 1 && place == Place::Held {
            self.others.fetch_add(1, Ordering::SeqCst);
        }
        if core.0 == 0 && place == self.place {
            let before = self.first.fetch_add(1, Ordering::SeqCst);
            if before == self.time.wrapping_sub(1) {
                self.hold();
            }
        }
    }
}

// Waits until a word has this value or a greater one, and says whether it has.
fn comes_to(word: &AtomicU64, value: u64) -> bool {
    for _ in 0..TURNS {
        if word.load(Ordering::SeqCst) >= value {
            return true;
        }
        thread::yield_now();
    }
    false
}

// Asserts that core 1 comes on while core 0 is held, and that the history is the script's.
fn assert_meets<R: Threads + Wait + Sync + Abort>(
    rt: &R,
    alloc: Global,
    text: &str,
    gate: Meeting,
) {
    let script = phases_in(rt, alloc, text.as_bytes());
    let run = played(rt, alloc, &script, 100, 3, Plainly::Acknowledges, &gate);
    holds(rt, gate.met.load(Ordering::SeqCst) == 1);
    holds(rt, run.ended);
    holds(rt, follows(rt, alloc, &run.history, &script, 3));
    let tree = first_tree(rt, alloc, 100, 3);
    holds(rt, is_legal(rt, &run.history, tree, 3, &Reply::Ok));
}

#[test]
fn a_worker_holds_its_cells_while_another_one_makes_calls(rt: HostRuntime) {
    let gate = Meeting::new(Place::Held, 1, 2);
    assert_meets(
        &rt,
        rt.alloc(),
        "0 create /a\n1 create /b\n1 create /c\n",
        gate,
    );
}

#[test]
fn a_worker_holds_its_log_while_another_one_makes_calls(rt: HostRuntime) {
    let gate = Meeting::new(Place::Part, 1, 2);
    assert_meets(
        &rt,
        rt.alloc(),
        "0 create /a\n1 create /b\n1 create /c\n",
        gate,
    );
}

#[test]
fn a_file_moves_while_another_worker_makes_calls(rt: HostRuntime) {
    let gate = Meeting::new(Place::Held, 3, 3);
    assert_meets(
        &rt,
        rt.alloc(),
        "2 mkdir /p\n2 mkdir /q\n2 mkdir /r\n2 create /p/f\n---\n0 rename /p/f /q/f\n1 create /r/g\n1 stat /\n",
        gate,
    );
}
