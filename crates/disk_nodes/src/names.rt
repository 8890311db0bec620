// Which blocks of a directory may have a name.
//
// A name lies in a bucket by its hash, and each bucket notes the blocks that have names of it. Buckets take no
// memory once they are there.
ghost use Rattle.std.specs.Prelude.{◌≡◌, ◌≢◌, ◌<◌, ◌-◌, ◌^◌, List, ℕ, true, false, length, IfOk};
ghost use Rattle.disk_nodes.specs.Names.{hash_of as hash_of_name, bucket_place, bucket_with as bucket_of_name, is_noted, tells, NotesNone, SharesNone, TellOf, TellOn, TellOnBut};

use crate::bucket::Bucket;
use fmt_slots::SlotBlock;
use sfs_base::NoMemory;
use std::alloc::Global;

// Empty buckets.
pub(crate) fn empty_buckets(alloc: Global, count: usize) -> Result<Vec<Bucket>, NoMemory> {
    let mut buckets = Vec::with_capacity(alloc, count)?;
    for _ in 0..count {
        buckets.push(Bucket::empty())?;
    }
    Ok(buckets)
}

// A number for a name.
fn hash_of(name: &[u8]) -> u64
    ensures { result ≡ hash_of_name name.now }
{
    let mut hash = 0u64;
    for byte in name {
        hash = (2_654_435_761 * hash + u64::from(*byte)) % 4_294_967_291;
    }
    hash
}

// In which of so many buckets a name lies.
fn place_of(name: &[u8], count: usize) -> usize
    requires { 0 < count }
    ensures place { result ≡ bucket_place count name.now }
    ensures within { result < count }
{
    hash_of(name) as usize % count
}

// The bucket in which a name lies, and a crowded one where there are none.
pub(crate) fn bucket_with(buckets: &[Bucket], name: &[u8]) -> Bucket
    ensures { result ≡ bucket_of_name buckets.now name.now }
{
    if buckets.is_empty() {
        return Bucket {
            is_crowded: true,
            ..Bucket::empty()
        };
    }
    buckets[place_of(name, buckets.len())]
}

// Notes that the block of a place has a name.
fn note_name(buckets: &mut Vec<Bucket>, place: usize, name: &[u8])
    ensures told { tells (bucket_of_name buckets.new.items name.now) place ≡ true }
    ensures others { TellOn buckets.old.items buckets.new.items }
    ensures apart { (other : List ℕ) → bucket_place (length buckets.old.items) name.now ≢ bucket_place (length buckets.old.items) other
        → bucket_of_name buckets.new.items other ≡ bucket_of_name buckets.old.items other }
    ensures count { length buckets.new.items ≡ length buckets.old.items }
{
    if !buckets.is_empty() {
        let at = place_of(name, buckets.len());
        buckets[at].note(place);
    }
}

// Forgets that the block of a place has a name.
fn forget_name(buckets: &mut Vec<Bucket>, place: usize, name: &[u8])
    ensures others { TellOnBut place buckets.old.items buckets.new.items }
    ensures gone { place < 2 ^ 32 - 1 → is_noted (bucket_of_name buckets.new.items name.now) place ≡ false }
    ensures less { (other : List ℕ) → is_noted (bucket_of_name buckets.old.items other) place ≡ false
        → is_noted (bucket_of_name buckets.new.items other) place ≡ false }
    ensures count { length buckets.new.items ≡ length buckets.old.items }
{
    if !buckets.is_empty() {
        let at = place_of(name, buckets.len());
        buckets[at].forget(place);
    }
}

// Notes the names that the block of a place has.
pub(crate) fn note_block(buckets: &mut Vec<Bucket>, place: usize, block: &SlotBlock)
    ensures told { TellOf buckets.new.items place block.now }
    ensures others { TellOn buckets.old.items buckets.new.items }
    ensures apart { (other : List ℕ) → SharesNone (length buckets.old.items) block.now other
        → bucket_of_name buckets.new.items other ≡ bucket_of_name buckets.old.items other }
    ensures count { length buckets.new.items ≡ length buckets.old.items }
{
    for k in 0..block.len() {
        if let Some(row) = block.row(k) {
            note_name(buckets, place, row.name.bytes());
        }
    }
}

// Forgets the names that the block of a place had.
pub(crate) fn forget_block(buckets: &mut Vec<Bucket>, place: usize, block: &SlotBlock)
    ensures others { TellOnBut place buckets.old.items buckets.new.items }
    ensures gone { place < 2 ^ 32 - 1 → NotesNone buckets.new.items place block.now }
    ensures count { length buckets.new.items ≡ length buckets.old.items }
{
    for k in 0..block.len() {
        if let Some(row) = block.row(k) {
            forget_name(buckets, place, row.name.bytes());
        }
    }
}
