ghost use Rattle.std.specs.Prelude.{◌≡◌, ◌+◌, ◌-◌, ◌^◌, min};
ghost use Rattle.sfs_base.specs.Listed.{is_listed};
ghost use Rattle.dev_fake.specs.FailAt.{disk_of, listed_of, next_call_number};

use sfs_base::Failed;
use sfs_dev::{Disk, Memory};

/// A disk in memory whose listed device calls fail, which count from 0 on, and no others but those
/// that the disk itself fails. A call that is listed is counted with its fault and changes nothing
/// else: neither what a read gives, nor what a crash may leave, nor the list of calls.
#[derive(Drop)]
pub struct FailAt {
    disk: Memory,
    calls: Vec<u64>,
    // the number of the next device call
    next: u64,
}

impl FailAt {
    /// A disk over this one whose device calls with these numbers fail, in whatever order they are
    /// listed.
    pub fn new(disk: Memory, calls: Vec<u64>) -> FailAt
        ensures disk { disk_of result ≡ disk }
        ensures listed { listed_of result ≡ calls.items }
        ensures next { next_call_number result ≡ 0 }
    {
        FailAt {
            disk,
            calls,
            next: 0,
        }
    }

    /// The disk under it.
    pub fn into_inner(self) -> Memory
        ensures { result ≡ disk_of self }
    {
        self.disk
    }

    // Whether the next device call is listed; it is counted.
    fn is_next_listed(&mut self) -> bool
        ensures listed { result ≡ is_listed (listed_of self.old) (next_call_number self.old) }
        ensures next { next_call_number self.new ≡ min (next_call_number self.old + 1) (2 ^ 64 - 1) }
        ensures same { listed_of self.new ≡ listed_of self.old }
        ensures disk { disk_of self.new ≡ disk_of self.old }
    {
        let listed = self.calls.contains(&self.next);
        self.next = self.next.saturating_add(1);
        listed
    }
}

impl Disk for FailAt {
    ghost use Rattle.std.specs.Prelude.{◌≡◌, ◌+◌, ◌*◌, ◌<◌, ◌≤◌, [], length, option_map, OnOk, OnErr};
    ghost use Rattle.sfs_dev.specs.Ranges.{put};
    ghost use Rattle.sfs_dev.specs.Disk.{images, Gives, Torn, TornTold, AnyIn, SameImages, OnlyTold, IsDeviceCall};
    ghost use Rattle.sfs_dev.specs.Memory.{memory_view};
    ghost use Rattle.sfs_dev.specs.MemoryLaws.{memory_whole, memory_left};
    ghost use Rattle.sfs_dev.specs.declared.call.Act.TheVariants.{Read, Write, Sync};
    ghost use Rattle.dev_fake.specs.FailAt.{disk_of, IsFailAtCall};

    ghost view = { λ fake. memory_view fake.disk };

    ghost whole = { λ fake. memory_whole fake.disk };

    ghost read_is_left = { λ fake. memory_left fake.disk };

    ghost now_fits = { λ fake. fake.disk.moment_fits };

    ghost faults_fit = { λ fake. fake.disk.faults_fit };

    fn len(&self) -> u32 {
        self.disk.len()
    }

    fn now(&self) -> u64 {
        self.disk.now()
    }

    fn faults(&self) -> u64 {
        self.disk.faults()
    }

    fn read_at(&mut self, at: u64, into: &mut [u8]) -> Result<(), Failed>
        requires some { 0 < length into.old }
        requires within { at + length into.old ≤ 4096 * (memory_view (disk_of self.old)).size }

        ensures ok { OnOk result (Gives (memory_view (disk_of self.old)).content at into.new) }
        ensures content { (memory_view (disk_of self.new)).content ≡ (memory_view (disk_of self.old)).content }
        ensures images { SameImages (images (memory_view (disk_of self.old))) (images (memory_view (disk_of self.new))) }
        ensures call { IsDeviceCall (memory_view (disk_of self.old)) (memory_view (disk_of self.new)) result }
        ensures planned { IsFailAtCall (Read at (length into.old)) [] self.old self.new result }
    {
        if self.is_next_listed() {
            return Err(self.disk.fail());
        }
        self.disk.read_at(at, into)
    }

    fn write_at(&mut self, at: u64, from: &[u8]) -> Result<(), Failed>
        requires some { 0 < length from.now }
        requires within { at + length from.now ≤ 4096 * (memory_view (disk_of self.old)).size }

        ensures ok { OnOk result ((memory_view (disk_of self.new)).content ≡ option_map (put at from.now) (memory_view (disk_of self.old)).content) }
        ensures err { OnErr result (TornTold at (length from.now) (memory_view (disk_of self.old)).content (memory_view (disk_of self.new)).content) }
        ensures images { Torn at (length from.now) (images (memory_view (disk_of self.old))) (images (memory_view (disk_of self.new))) }
        ensures any { OnOk result (AnyIn at (length from.now) (images (memory_view (disk_of self.old))) (images (memory_view (disk_of self.new)))) }
        ensures call { IsDeviceCall (memory_view (disk_of self.old)) (memory_view (disk_of self.new)) result }
        ensures planned { IsFailAtCall (Write at (length from.now)) from.now self.old self.new result }
    {
        if self.is_next_listed() {
            return Err(self.disk.fail());
        }
        self.disk.write_at(at, from)
    }

    fn sync(&mut self) -> Result<(), Failed>
        ensures ok { OnOk result (OnlyTold (memory_view (disk_of self.new)).content (images (memory_view (disk_of self.new)))) }
        ensures content { (memory_view (disk_of self.new)).content ≡ (memory_view (disk_of self.old)).content }
        ensures images { OnErr result (SameImages (images (memory_view (disk_of self.old))) (images (memory_view (disk_of self.new)))) }
        ensures call { IsDeviceCall (memory_view (disk_of self.old)) (memory_view (disk_of self.new)) result }
        ensures planned { IsFailAtCall Sync [] self.old self.new result }
    {
        if self.is_next_listed() {
            return Err(self.disk.fail());
        }
        self.disk.sync()
    }
}
