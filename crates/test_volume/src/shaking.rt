// A gate by which cores overlap in many ways.
use sfs_base::{CoreId, Gate, Place};
use std::sync::atomic::{AtomicU64, Ordering};
use std::thread;

// What the numbers rise by, around the end of `u64`: their highest bits fall evenly.
const STEP: u64 = 0x9e37_79b9_7f4a_7c15;

/// Lets a core rest at each place for none up to seven turns.
#[derive(Drop)]
pub(crate) struct Shaker {
    state: AtomicU64,
}

impl Shaker {
    pub(crate) fn of(seed: u64) -> Shaker {
        Shaker {
            state: AtomicU64::new(seed),
        }
    }
}

impl Gate for Shaker {
    fn at(&self, _core: CoreId, _place: Place) {
        let drawn = self.state.fetch_add(STEP, Ordering::SeqCst);
        for _ in 0..drawn >> 61 {
            thread::yield_now();
        }
    }
}
