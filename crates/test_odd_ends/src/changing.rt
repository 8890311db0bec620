ghost use Rattle.std.specs.Prelude.{◌≡◌, ℕ, ◌+◌, ◌-◌, ◌^◌, ◌<◌, min, true, false, OnOk, OnErr};

use sfs_base::Failed;
use sfs_dev::Disk;

/// How many blocks of 4,096 bytes the disk has.
const BLOCKS: u32 = 1024;

/// A disk of 1,024 blocks that holds some bytes until so many device calls were made, and others from then on. A read that ends behind
/// its bytes fails, and so does each write and each sync. It tells no content.
#[derive(Drop)]
pub struct Changing {
    first: Vec<u8>,
    then: Vec<u8>,
    calls: u64,
    now: u64,
    faults: u64,
    ghost now_fits: { now < 2 ^ 64 },
    ghost faults_fit: { faults < 2 ^ 64 },
}

impl Changing {
    /// The disk that holds `first` for so many device calls, and `then` from there on.
    pub fn new(first: Vec<u8>, then: Vec<u8>, calls: u64) -> Changing {
        Changing {
            first,
            then,
            calls,
            now: 0,
            faults: 0,
        }
    }
}

// Reads from byte `at` on, where there are so many bytes.
fn is_given(bytes: &[u8], at: u64, into: &mut [u8]) -> bool {
    let length = bytes.len() as u64;
    if into.len() as u64 > length || at > length - into.len() as u64 {
        return false;
    }
    let from = at as usize;
    into.copy_from_slice(&bytes[from..from + into.len()]);
    true
}

// Adds one to a count, which stays at the last value of `u64`.
fn raise(count: &mut u64)
    ensures { count.new ≡ min (count.old + 1) (2 ^ 64 - 1) }
{
    *count = count.saturating_add(1);
}

// Counts a device call, and a fault where it failed.
fn noted(now: &mut u64, faults: &mut u64, done: bool) -> Result<(), Failed>
    ensures now { now.new ≡ min (now.old + 1) (2 ^ 64 - 1) }
    ensures ok { OnOk result (faults.new ≡ faults.old) }
    ensures err { OnErr result (faults.new ≡ min (faults.old + 1) (2 ^ 64 - 1)) }
    ensures done { OnOk result (done ≡ true) }
    ensures failed { OnErr result (done ≡ false) }
{
    raise(now);
    if done {
        return Ok(());
    }
    raise(faults);
    Err(Failed)
}

impl Disk for Changing {
    ghost use Rattle.test_odd_ends.specs.Changing.{changing_view};
    ghost use Rattle.test_odd_ends.specs.ChangingLaws.{changing_whole, changing_left};

    ghost view = { changing_view };

    ghost whole = { changing_whole };

    ghost read_is_left = { changing_left };

    ghost now_fits = { λ disk. disk.now_fits };

    ghost faults_fit = { λ disk. disk.faults_fit };

    fn len(&self) -> u32 {
        BLOCKS
    }

    fn now(&self) -> u64 {
        self.now
    }

    fn faults(&self) -> u64 {
        self.faults
    }

    fn read_at(&mut self, at: u64, into: &mut [u8]) -> Result<(), Failed> {
        let done = if self.now < self.calls {
            is_given(&self.first, at, into)
        } else {
            is_given(&self.then, at, into)
        };
        noted(&mut self.now, &mut self.faults, done)
    }

    fn write_at(&mut self, _at: u64, _from: &[u8]) -> Result<(), Failed> {
        noted(&mut self.now, &mut self.faults, false)
    }

    fn sync(&mut self) -> Result<(), Failed> {
        noted(&mut self.now, &mut self.faults, false)
    }
}
