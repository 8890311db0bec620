// Each call of the disk is one call of the file where the system moves all bytes at once. What the file
// holds no contract can say: that a read gives what was written, and that a sync keeps it, is trusted.
ghost use Rattle.std.specs.Prelude.{◌≡◌, ℕ, ◌+◌, ◌-◌, ◌*◌, ◌^◌, ◌<◌, ◌≤◌, min, true, false, OnOk, OnErr};

use crate::transfer::{read_all_at, write_all_at};
use sfs_base::Failed;
use sfs_dev::Disk;
use std::fs::File;

/// How many blocks of 4,096 bytes the disk has: 1 GiB.
const BLOCKS: u32 = 262_144;

/// A disk of 262,144 blocks over an open file, of whatever length. A read past the file's end gives
/// zeros there, a write past it lengthens the file, and a sync is std's `sync_data`. A call that the
/// system interrupts or that moves a part of the bytes is gone on with. It tells no content.
#[derive(Drop)]
pub struct FileDisk {
    file: File,
    now: u64,
    faults: u64,
    ghost now_fits: { now < 2 ^ 64 },
    ghost faults_fit: { faults < 2 ^ 64 },
}

impl FileDisk {
    ghost use Rattle.dev_file.specs.FileDisk.{file_view};

    /// The disk over a file that is open for reading and writing, of which no call was made yet.
    pub fn new(file: File) -> FileDisk
        ensures now { (file_view result).now ≡ 0 }
        ensures faults { (file_view result).faults ≡ 0 }
    {
        FileDisk {
            file,
            now: 0,
            faults: 0,
        }
    }
}

// Adds one to a count, which stays at the last value of `u64`.
fn raise(count: &mut u64)
    ensures { count.new ≡ min (count.old + 1) (2 ^ 64 - 1) }
{
    *count = count.saturating_add(1);
}

// Counts a device call, and a fault where it failed.
fn noted(now: &mut u64, faults: &mut u64, done: bool) -> Result<(), Failed>
    ensures now { now.new ≡ min (now.old + 1) (2 ^ 64 - 1) }
    ensures ok { OnOk result (faults.new ≡ faults.old) }
    ensures err { OnErr result (faults.new ≡ min (faults.old + 1) (2 ^ 64 - 1)) }
    ensures done { OnOk result (done ≡ true) }
    ensures failed { OnErr result (done ≡ false) }
{
    raise(now);
    if done {
        return Ok(());
    }
    raise(faults);
    Err(Failed)
}

impl Disk for FileDisk {
    ghost use Rattle.dev_file.specs.FileDisk.{file_view};
    ghost use Rattle.dev_file.specs.FileDiskLaws.{file_whole, file_left};

    ghost view = { file_view };

    ghost whole = { file_whole };

    ghost read_is_left = { file_left };

    ghost now_fits = { λ disk. disk.now_fits };

    ghost faults_fit = { λ disk. disk.faults_fit };

    fn len(&self) -> u32 {
        BLOCKS
    }

    fn now(&self) -> u64 {
        self.now
    }

    fn faults(&self) -> u64 {
        self.faults
    }

    fn read_at(&mut self, at: u64, into: &mut [u8]) -> Result<(), Failed> {
        let done = read_all_at(&self.file, at, into);
        noted(&mut self.now, &mut self.faults, done)
    }

    fn write_at(&mut self, at: u64, from: &[u8]) -> Result<(), Failed> {
        let done = write_all_at(&self.file, at, from);
        noted(&mut self.now, &mut self.faults, done)
    }

    fn sync(&mut self) -> Result<(), Failed> {
        let done = self.file.sync_data().is_ok();
        noted(&mut self.now, &mut self.faults, done)
    }
}
