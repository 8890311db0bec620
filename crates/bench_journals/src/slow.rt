// A disk in memory whose syncs take time.
use sfs_base::Failed;
use sfs_dev::{Disk, Memory};
use std::sync::atomic::{AtomicU64, Ordering};

/// A disk in memory each sync of which takes a processor so many rounds.
#[derive(Drop)]
pub(crate) struct Slow {
    disk: Memory,
    rounds: u64,
}

/// Keeps a processor busy for so many rounds.
pub(crate) fn pass(rounds: u64) {
    let word = AtomicU64::new(0);
    for _ in 0..rounds {
        word.fetch_add(1, Ordering::SeqCst);
    }
}

impl Slow {
    /// A disk over this one, whose syncs take so many rounds.
    pub(crate) fn new(disk: Memory, rounds: u64) -> Slow {
        Slow { disk, rounds }
    }

    /// The disk under it.
    pub(crate) fn into_inner(self) -> Memory {
        self.disk
    }
}

impl Disk for Slow {
    ghost use Rattle.sfs_dev.specs.Memory.{memory_view};
    ghost use Rattle.sfs_dev.specs.MemoryLaws.{memory_whole, memory_left};

    ghost view = { λ slow. memory_view slow.disk };

    ghost whole = { λ slow. memory_whole slow.disk };

    ghost read_is_left = { λ slow. memory_left slow.disk };

    ghost now_fits = { λ slow. slow.disk.moment_fits };

    ghost faults_fit = { λ slow. slow.disk.faults_fit };

    fn len(&self) -> u32 {
        self.disk.len()
    }

    fn now(&self) -> u64 {
        self.disk.now()
    }

    fn faults(&self) -> u64 {
        self.disk.faults()
    }

    fn read_at(&mut self, at: u64, into: &mut [u8]) -> Result<(), Failed> {
        self.disk.read_at(at, into)
    }

    fn write_at(&mut self, at: u64, from: &[u8]) -> Result<(), Failed> {
        self.disk.write_at(at, from)
    }

    fn sync(&mut self) -> Result<(), Failed> {
        pass(self.rounds);
        self.disk.sync()
    }
}
