ghost use Rattle.std.specs.Prelude.{◌≡◌, ℕ, List, ◌+◌, ◌*◌, ◌^◌, ◌<◌, ◌≤◌, length, Some, option_map, OnOk, OnErr};
ghost use Rattle.sfs_dev.specs.Ranges.{put};
ghost use Rattle.sfs_dev.specs.Disk.{View, images, Gives, Torn, TornTold, AnyIn, SameImages, OnlyTold, IsDeviceCall};

use sfs_base::Failed;

/// A disk of whole blocks of 4,096 bytes. A range that is read or written is not empty and ends
/// within the disk. Between two syncs each range written since the last one may hold any bytes
/// after a crash, and the other bytes stay. Each count of device calls and of faults rises to the
/// last value of `u64` and stays there.
pub trait Disk: Send {
    /// The disk as contracts see it: its size, what a read gives, its two counts, and what a crash
    /// at each moment so far may leave.
    ghost view: { Self → View };

    /// The size in blocks of 4,096 bytes. It never changes.
    fn len(&self) -> u32
        ensures size { result ≡ (view self.now).size };

    /// How many device calls were made, those that failed among them.
    fn now(&self) -> u64
        ensures now { result ≡ (view self.now).now };

    /// How many of them failed.
    fn faults(&self) -> u64
        ensures faults { result ≡ (view self.now).faults };

    /// Reads as many bytes as `into` has from byte `at` on. After `Failed` the buffer has any bytes.
    fn read_at(&mut self, at: u64, into: &mut [u8]) -> Result<(), Failed>
        requires some { 0 < length into.old }
        requires within { at + length into.old ≤ 4096 * (view self.old).size }

        ensures ok { OnOk result (Gives (view self.old).content at into.new) }
        ensures content { (view self.new).content ≡ (view self.old).content }
        ensures images { SameImages (images (view self.old)) (images (view self.new)) }
        ensures call { IsDeviceCall (view self.old) (view self.new) result };

    /// Writes these bytes from byte `at` on. Until a sync answers Ok a crash may leave any bytes in
    /// their place. After `Failed` a read gives any bytes there.
    fn write_at(&mut self, at: u64, from: &[u8]) -> Result<(), Failed>
        requires some { 0 < length from.now }
        requires within { at + length from.now ≤ 4096 * (view self.old).size }

        ensures ok { OnOk result ((view self.new).content ≡ option_map (put at from.now) (view self.old).content) }
        ensures err { OnErr result (TornTold at (length from.now) (view self.old).content (view self.new).content) }
        ensures images { Torn at (length from.now) (images (view self.old)) (images (view self.new)) }
        ensures any { OnOk result (AnyIn at (length from.now) (images (view self.old)) (images (view self.new))) }
        ensures call { IsDeviceCall (view self.old) (view self.new) result };

    /// After Ok a crash leaves what a read gives. After `Failed` nothing more is known than before.
    fn sync(&mut self) -> Result<(), Failed>
        ensures ok { OnOk result (OnlyTold (view self.new).content (images (view self.new))) }
        ensures content { (view self.new).content ≡ (view self.old).content }
        ensures images { OnErr result (SameImages (images (view self.old)) (images (view self.new))) }
        ensures call { IsDeviceCall (view self.old) (view self.new) result };

    /// What a read gives has the disk's size.
    ghost whole: { (disk : Self) (content : List ℕ) → (view disk).content ≡ Some content → length content ≡ 4096 * (view disk).size };

    /// What a read gives is always one of the images.
    ghost read_is_left: { (disk : Self) (content : List ℕ) → (view disk).content ≡ Some content → images (view disk) content };

    /// The count of device calls is a `u64`.
    ghost now_fits: { (disk : Self) → (view disk).now < 2 ^ 64 };

    /// So is that of faults.
    ghost faults_fit: { (disk : Self) → (view disk).faults < 2 ^ 64 };
}
