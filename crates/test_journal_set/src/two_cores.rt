// A core is held once its slot is filled, while another core's commit is answered. On a disk of 40 blocks with 64 inodes and two cores the gates
// of the two cores' slots lie at bytes 4,096 and 45,056.
use crate::bases::{base, ended, gates_in};
use crate::helpers::{got, holds, same_list};
use driven_journals::{Order, Until, begun};
use fmt_super::Layout;
use sfs_base::{CoreId, Gate, Place};
use sfs_dev::{Disk, Memory};
use std::sync::atomic::{AtomicU64, Ordering};
use std::thread;

const LAYOUT: Layout = Layout {
    blocks: 40,
    inodes: 64,
    cores: 2,
    slots: 1,
};

// How often a core looks for the other one.
const TURNS: u64 = 1_000_000_000;

// The second core's gate is written first.
const GATES: [(u64, u8); 2] = [(45_056, 1), (4_096, 1)];

// Holds core 0 at `Body` until a commit is answered.
#[derive(Drop)]
struct Held<'a> {
    answered: &'a AtomicU64,
    met: AtomicU64,
}

impl<'a> Gate for Held<'a> {
    fn at(&self, core: CoreId, place: Place) {
        if core.0 != 0 || place != Place::Body {
            return;
        }
        for _ in 0..TURNS {
            if self.answered.load(Ordering::SeqCst) > 0 {
                self.met.store(1, Ordering::SeqCst);
                return;
            }
            thread::yield_now();
        }
    }
}

#[test]
fn a_core_whose_slot_is_filled_lets_another_one_commit(rt: HostRuntime) {
    let alloc = rt.alloc();
    let disk = base(&rt, alloc, LAYOUT);
    holds(&rt, LAYOUT.is_valid(40) && disk.len() == 40);
    let mut driven = got(&rt, begun(alloc, disk, LAYOUT, 1, 0));
    driven.drive(&rt, alloc, Order::Alone { core: 0 }, Until::Filled);
    driven.drive(&rt, alloc, Order::Alone { core: 1 }, Until::Rest);
    driven.drive(&rt, alloc, Order::Alone { core: 0 }, Until::Rest);
    let ended = ended(&rt, driven.end(alloc));
    same_list(&rt, &gates_in(&rt, alloc, &ended.disk), &GATES);
}

#[test]
fn a_core_that_is_held_lets_another_one_commit(rt: HostRuntime) {
    let alloc = rt.alloc();
    let disk = base(&rt, alloc, LAYOUT);
    holds(&rt, LAYOUT.is_valid(40) && disk.len() == 40);
    let mut driven = got(&rt, begun(alloc, disk, LAYOUT, 1, 0));
    let answered = AtomicU64::new(0);
    let gate = Held {
        answered: &answered,
        met: AtomicU64::new(0),
    };
    driven.side_by_side(&rt, alloc, &gate, &answered);
    holds(&rt, gate.met.load(Ordering::SeqCst) == 1);
    let ended = ended(&rt, driven.end(alloc));
    same_list(&rt, &gates_in(&rt, alloc, &ended.disk), &GATES);
}
