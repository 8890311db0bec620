// Of each inode the record under the greatest commit stamp.
ghost use Rattle.std.specs.Prelude.{◌≡◌, ℕ, ◌*◌, ◌<◌, ◌≤◌, List, Option, None, length};
ghost use Rattle.sfs_image.specs.Journal.{numbers_fault};
ghost use Rattle.sfs_image.specs.Settled.{Stamped};
ghost use Rattle.recovery.specs.Settling.{AreSettled, with_record, with_body, packed_body, is_older};

/// Of each inode its newest record so far, of 512 bytes, and the commit stamp under which a slot has
/// it: none where it is the table's.
#[derive(Drop)]
pub struct Newest {
    pub stamps: Vec<Option<u64>>,
    pub records: Vec<[u8; 512]>,
}

/// Puts the records of a slot, which lie one behind another, each where it is the newest of its inode. A
/// record under the stamp of another comes before that.
pub fn put_all(newest: &mut Newest, stamp: u64, numbers: &[u32], bytes: &[u8])
    requires inodes { length newest.old.records.items ≡ length newest.old.stamps.items }
    requires few { length numbers.now ≤ length newest.old.stamps.items }
    requires numbers { numbers_fault (length newest.old.stamps.items) numbers.now ≡ None }
    requires bytes { length bytes.now ≡ 512 * length numbers.now }
    ensures settled { (table : ℕ → List ℕ) (best : ℕ → Option (Stamped (List ℕ))) → AreSettled (length newest.old.stamps.items) table best newest.old
        → AreSettled (length newest.old.stamps.items) table (with_body (packed_body stamp numbers.now bytes.now) best) newest.new }
    ensures stamps { length newest.new.stamps.items ≡ length newest.old.stamps.items }
    ensures records { length newest.new.records.items ≡ length newest.old.records.items }
{
    for k in 0..numbers.len() {
        let mut record = [0u8; 512];
        record.copy_from_slice(&bytes[512 * k..512 * k + 512]);
        put(newest, numbers[k], stamp, record);
    }
}

// Puts a record of an inode where it is the newest.
fn put(newest: &mut Newest, inode: u32, stamp: u64, bytes: [u8; 512])
    requires stamps { inode < length newest.old.stamps.items }
    requires records { inode < length newest.old.records.items }
    ensures settled { (inodes : ℕ) (table : ℕ → List ℕ) (best : ℕ → Option (Stamped (List ℕ))) → AreSettled inodes table best newest.old
        → AreSettled inodes table (with_record inode stamp bytes best) newest.new }
    ensures stamps { length newest.new.stamps.items ≡ length newest.old.stamps.items }
    ensures records { length newest.new.records.items ≡ length newest.old.records.items }
{
    let place = inode as usize;
    if is_older(newest.stamps[place], stamp) {
        newest.stamps[place] = Some(stamp);
        newest.records[place] = bytes;
    }
}

// Whether a commit stamp is none or at most another.
fn is_older(old: Option<u64>, stamp: u64) -> bool
    ensures { result ≡ is_older old stamp }
{
    match old {
        Some(other) => other <= stamp,
        None => true,
    }
}
