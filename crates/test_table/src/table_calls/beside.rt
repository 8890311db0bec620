// A core that is held inside a call while another one makes calls.
ghost use Rattle.stamp_table.specs.Table.{IsBetweenCalls, IsSameCore};

use crate::helpers::{got, holds};
use crate::table_calls::ask;
use crate::table_calls::asked::Asked::{self, Link, Look, Read, Rename, Trunc, Unlink, Write};
use crate::table_calls::begun::{FIRST, SHARE, begun_tree};
use crate::table_calls::tasks::{Task, shared_history};
use mem_calls::TreeTable;
use mem_values::FileCore;
use sfs_base::{CoreId, Gate, Place};
use std::alloc::Global;
use std::process::Abort;
use std::sync::Wait;
use std::sync::atomic::{AtomicU64, Ordering};
use std::thread;
use std::thread::Threads;

// How often a core looks for the other one.
const TURNS: u64 = 10_000_000;

// What a core calls while another one is held inside a call.
#[derive(Clone, Copy)]
enum Scene {
    TwoDirectories,
    TwoFiles,
    FileMoves,
    DirectoryMoves,
}

impl Scene {
    // The call inside which core 0 is held.
    fn held(self) -> Asked {
        match self {
            Scene::TwoDirectories => Unlink(1, "b"),
            Scene::TwoFiles => Write(3, 0, "x"),
            Scene::FileMoves => Rename(1, "b", 0, "y"),
            Scene::DirectoryMoves => Rename(0, "d", 2, "d"),
        }
    }

    // The calls of the other core, on cells that core 0 does not hold.
    fn beside(self) -> [Asked; 3] {
        match self {
            Scene::TwoDirectories => [Look(2, "a"), Unlink(2, "a"), Look(2, "b")],
            Scene::TwoFiles => [Write(4, 0, "x"), Read(4, 0, 1), Trunc(4, 9)],
            Scene::FileMoves => [Look(0, "d"), Link(4, 2, "z"), Unlink(2, "a")],
            Scene::DirectoryMoves => [Look(2, "a"), Write(4, 0, "x"), Link(3, 2, "z")],
        }
    }
}

// Holds core 0 inside its call until the other core has come three times to the same place inside its own calls.
#[derive(Drop)]
pub(crate) struct Meeting {
    scene: Scene,
    // How often each core has come.
    first: AtomicU64,
    others: AtomicU64,
    // 1 once the other core has come often enough while core 0 was held.
    met: AtomicU64,
    // How many cores have made all their calls.
    made: AtomicU64,
}

impl Meeting {
    fn new(scene: Scene) -> Meeting {
        Meeting {
            scene,
            first: AtomicU64::new(0),
            others: AtomicU64::new(0),
            met: AtomicU64::new(0),
            made: AtomicU64::new(0),
        }
    }

    // Waits until core 0 is held, and says whether it is.
    fn waits_for_first(&self) -> bool {
        comes_to(&self.first, 1)
    }

    // Whether the other core came often enough while core 0 was held, and both made all their calls.
    fn has_met(&self) -> bool {
        self.met.load(Ordering::SeqCst) == 1 && self.made.load(Ordering::SeqCst) == 2
    }

    // Holds core 0.
    fn hold(&self) {
        self.first.fetch_add(1, Ordering::SeqCst);
        if comes_to(&self.others, 3) {
            self.met.store(1, Ordering::SeqCst);
        }
    }
}

impl Gate for Meeting {
    fn at(&self, core: CoreId, place: Place) {
        if place != Place::Held {
            return;
        }
        if core.0 == 0 {
            self.hold();
        } else {
            self.others.fetch_add(1, Ordering::SeqCst);
        }
    }
}

// Waits until a word has this value or a greater one, and says whether it has.
pub(crate) fn comes_to(word: &AtomicU64, value: u64) -> bool {
    for _ in 0..TURNS {
        if word.load(Ordering::SeqCst) >= value {
            return true;
        }
        thread::yield_now();
    }
    false
}

// Waits until core 0 is inside its call, and then makes calls of its own. Says whether all were made.
fn calls_beside<R: Wait>(
    rt: &R,
    alloc: Global,
    table: &TreeTable,
    core: &mut FileCore,
    gate: &Meeting,
) -> bool
    requires core { IsBetweenCalls table.now core.old }
    ensures same { IsSameCore core.old core.new }
    ensures between { IsBetweenCalls table.now core.new }
{
    if !gate.waits_for_first() {
        return false;
    }
    for asked in gate.scene.beside() {
        if ask(rt, alloc, table, core, asked, gate).is_none() {
            return false;
        }
    }
    true
}

// Core 0 makes the call inside which it is held, and the other one its calls beside it. What is made is counted.
pub(crate) fn call_as_due<R: Wait>(
    rt: &R,
    alloc: Global,
    table: &TreeTable,
    core: &mut FileCore,
    gate: &Meeting,
)
    requires core { IsBetweenCalls table.now core.old }
    ensures same { IsSameCore core.old core.new }
    ensures between { IsBetweenCalls table.now core.new }
{
    let made = if core.number().0 == 0 {
        ask(rt, alloc, table, core, gate.scene.held(), gate).is_some()
    } else {
        calls_beside(rt, alloc, table, core, gate)
    };
    if made {
        gate.made.fetch_add(1, Ordering::SeqCst);
    }
}

// Asserts that a core comes three times to the place before its stamp while another one is held there.
fn assert_meets<R: Threads + Wait + Sync + Abort>(rt: &R, alloc: Global, scene: Scene) {
    let tree = got(rt, begun_tree(rt, alloc, 2));
    let gate = Meeting::new(scene);
    got(
        rt,
        shared_history(rt, alloc, &tree, 2, &Task::Meets { gate: &gate }),
    );
    holds(rt, gate.has_met());
}

#[test]
fn calls_in_two_directories_are_inside_at_once(rt: HostRuntime) {
    assert_meets(&rt, rt.alloc(), Scene::TwoDirectories);
}

#[test]
fn writes_to_two_files_are_inside_at_once(rt: HostRuntime) {
    assert_meets(&rt, rt.alloc(), Scene::TwoFiles);
}

#[test]
fn a_file_moves_beside_calls_on_other_rows(rt: HostRuntime) {
    assert_meets(&rt, rt.alloc(), Scene::FileMoves);
}

#[test]
fn a_directory_moves_beside_calls_that_need_no_lock(rt: HostRuntime) {
    assert_meets(&rt, rt.alloc(), Scene::DirectoryMoves);
}
