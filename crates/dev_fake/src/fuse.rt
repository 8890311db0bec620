ghost use Rattle.std.specs.Prelude.{◌≡◌, ◌-◌, ◌==◌};
ghost use Rattle.dev_fake.specs.Fuse.{disk_under, passes_of};

use sfs_base::Failed;
use sfs_dev::{Disk, Memory};

/// A disk in memory that passes on some device calls, and fails each later one. A call that it fails
/// is counted with its fault and changes nothing else: neither what a read gives, nor what a crash may
/// leave, nor the list of calls.
#[derive(Drop)]
pub struct Fuse {
    disk: Memory,
    // how many more device calls are passed on
    passes: u64,
}

impl Fuse {
    /// A disk over this one that passes on so many device calls.
    pub fn new(disk: Memory, passes: u64) -> Fuse
        ensures disk { disk_under result ≡ disk }
        ensures passes { passes_of result ≡ passes }
    {
        Fuse { disk, passes }
    }

    /// The disk under it.
    pub fn into_inner(self) -> Memory
        ensures { result ≡ disk_under self }
    {
        self.disk
    }

    // Whether the next device call fails; one that is passed on is counted.
    fn is_burnt(&mut self) -> bool
        ensures burnt { result ≡ (passes_of self.old == 0) }
        ensures passes { passes_of self.new ≡ passes_of self.old - 1 }
        ensures disk { disk_under self.new ≡ disk_under self.old }
    {
        let burnt = self.passes == 0;
        self.passes = self.passes.saturating_sub(1);
        burnt
    }
}

impl Disk for Fuse {
    ghost use Rattle.std.specs.Prelude.{◌≡◌, ◌+◌, ◌*◌, ◌<◌, ◌≤◌, [], length, option_map, OnOk, OnErr};
    ghost use Rattle.sfs_dev.specs.Ranges.{put};
    ghost use Rattle.sfs_dev.specs.Disk.{images, Gives, Torn, TornTold, AnyIn, SameImages, OnlyTold, IsDeviceCall};
    ghost use Rattle.sfs_dev.specs.Memory.{memory_view};
    ghost use Rattle.sfs_dev.specs.MemoryLaws.{memory_whole, memory_left};
    ghost use Rattle.sfs_dev.specs.declared.call.Act.TheVariants.{Read, Write, Sync};
    ghost use Rattle.dev_fake.specs.Fuse.{disk_under, IsFuseCall};

    ghost view = { λ fake. memory_view fake.disk };

    ghost whole = { λ fake. memory_whole fake.disk };

    ghost read_is_left = { λ fake. memory_left fake.disk };

    ghost now_fits = { λ fake. fake.disk.moment_fits };

    ghost faults_fit = { λ fake. fake.disk.faults_fit };

    fn len(&self) -> u32 {
        self.disk.len()
    }

    fn now(&self) -> u64 {
        self.disk.now()
    }

    fn faults(&self) -> u64 {
        self.disk.faults()
    }

    fn read_at(&mut self, at: u64, into: &mut [u8]) -> Result<(), Failed>
        requires some { 0 < length into.old }
        requires within { at + length into.old ≤ 4096 * (memory_view (disk_under self.old)).size }

        ensures ok { OnOk result (Gives (memory_view (disk_under self.old)).content at into.new) }
        ensures content { (memory_view (disk_under self.new)).content ≡ (memory_view (disk_under self.old)).content }
        ensures images { SameImages (images (memory_view (disk_under self.old))) (images (memory_view (disk_under self.new))) }
        ensures call { IsDeviceCall (memory_view (disk_under self.old)) (memory_view (disk_under self.new)) result }
        ensures planned { IsFuseCall (Read at (length into.old)) [] self.old self.new result }
    {
        if self.is_burnt() {
            return Err(self.disk.fail());
        }
        self.disk.read_at(at, into)
    }

    fn write_at(&mut self, at: u64, from: &[u8]) -> Result<(), Failed>
        requires some { 0 < length from.now }
        requires within { at + length from.now ≤ 4096 * (memory_view (disk_under self.old)).size }

        ensures ok { OnOk result ((memory_view (disk_under self.new)).content ≡ option_map (put at from.now) (memory_view (disk_under self.old)).content) }
        ensures err { OnErr result (TornTold at (length from.now) (memory_view (disk_under self.old)).content (memory_view (disk_under self.new)).content) }
        ensures images { Torn at (length from.now) (images (memory_view (disk_under self.old))) (images (memory_view (disk_under self.new))) }
        ensures any { OnOk result (AnyIn at (length from.now) (images (memory_view (disk_under self.old))) (images (memory_view (disk_under self.new)))) }
        ensures call { IsDeviceCall (memory_view (disk_under self.old)) (memory_view (disk_under self.new)) result }
        ensures planned { IsFuseCall (Write at (length from.now)) from.now self.old self.new result }
    {
        if self.is_burnt() {
            return Err(self.disk.fail());
        }
        self.disk.write_at(at, from)
    }

    fn sync(&mut self) -> Result<(), Failed>
        ensures ok { OnOk result (OnlyTold (memory_view (disk_under self.new)).content (images (memory_view (disk_under self.new)))) }
        ensures content { (memory_view (disk_under self.new)).content ≡ (memory_view (disk_under self.old)).content }
        ensures images { OnErr result (SameImages (images (memory_view (disk_under self.old))) (images (memory_view (disk_under self.new)))) }
        ensures call { IsDeviceCall (memory_view (disk_under self.old)) (memory_view (disk_under self.new)) result }
        ensures planned { IsFuseCall Sync [] self.old self.new result }
    {
        if self.is_burnt() {
            return Err(self.disk.fail());
        }
        self.disk.sync()
    }
}
