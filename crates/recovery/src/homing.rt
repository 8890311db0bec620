// What the open slots have is brought home: of each inode its newest record goes into the table.
ghost use Rattle.std.specs.Prelude.{◌≡◌, ℕ, ◌+◌, ◌<◌, ◌≤◌, Option, length, IfOk, OnOk};
ghost use Rattle.sfs_image.specs.ImageOf.{Transaction, IsImageOf};
ghost use Rattle.sfs_image.specs.Part.{Part};
ghost use Rattle.sfs_image.specs.Super.{IsLayout};
ghost use Rattle.journal_one.specs.Calls.{IsCalm, IsWrite};
ghost use Rattle.journal_one.specs.Known.{EachLeft};
ghost use Rattle.commit_one.specs.Carried.{Keeps};
ghost use Rattle.recovery.specs.Cause.{Ran};
ghost use Rattle.recovery.specs.Recovering.{AreHome, AreNewestOf, BringsHome, IsEndOfNeighbours, records_piece};

use crate::places::table_byte;
use fmt_super::Layout;
use sfs_base::Failed;
use sfs_dev::Disk;
use std::cmp::min;

/// How many records a block of the table has.
const RECORDS: usize = 8;

/// Writes the newest record of each inode that an open slot has into the table: one write for neighbours in one
/// block of the table, and a sync at the end.
pub fn bring_home<D: Disk>(
    disk: &mut D,
    layout: &Layout,
    stamps: &[Option<u64>],
    records: &[[u8; 512]],
) -> Result<(), Failed>
    requires layout { IsLayout (D.view disk.old).size layout.now }
    requires stamps { length stamps.now ≡ layout.now.inodes }
    requires records { length records.now ≡ layout.now.inodes }
    ensures ran { Ran (D.view disk.old) (D.view disk.new) result }
    ensures calm { OnOk result (IsCalm (D.view disk.new)) }
    ensures home { (opened : ℕ → Option Transaction) (parts : ℕ → Part) → AreNewestOf layout.now opened parts stamps.now records.now
        → EachLeft (D.view disk.old) (IsImageOf layout.now opened parts) → BringsHome layout.now opened parts (D.view disk.old) (D.view disk.new) result }
{
    let mut first = 0;
    while first < stamps.len() {
        first = place_neighbours(disk, layout, stamps, records, first)?;
    }
    disk.sync()
}

// Writes the newest records of an inode and of its neighbours behind it into the table, as far as open slots
// have them, and answers the first inode behind; one that no open slot has is passed over.
fn place_neighbours<D: Disk>(
    disk: &mut D,
    layout: &Layout,
    stamps: &[Option<u64>],
    records: &[[u8; 512]],
    first: usize,
) -> Result<usize, Failed>
    requires layout { IsLayout (D.view disk.old).size layout.now }
    requires stamps { length stamps.now ≡ layout.now.inodes }
    requires records { length records.now ≡ layout.now.inodes }
    requires first { first < layout.now.inodes }
    ensures ran { Ran (D.view disk.old) (D.view disk.new) result }
    ensures further { IfOk result (λ end. (first < end) × (end ≤ layout.now.inodes)) }
    ensures keeps { (opened : ℕ → Option Transaction) (parts : ℕ → Part) → AreNewestOf layout.now opened parts stamps.now records.now
        → EachLeft (D.view disk.old) (IsImageOf layout.now opened parts) → Keeps (IsImageOf layout.now opened parts) (D.view disk.old) (D.view disk.new) }
    ensures home { IfOk result (λ end. AreHome layout.now stamps.now records.now first (D.view disk.old) → AreHome layout.now stamps.now records.now end (D.view disk.new)) }
{
    let end = neighbours_end(stamps, first);
    if end == first {
        return Ok(first + 1);
    }
    write_records(disk, layout, first as u32, &records[first..end])?;
    Ok(end)
}

// The first inode from this one on that no open slot has, at most the end of its block of the table.
fn neighbours_end(stamps: &[Option<u64>], first: usize) -> usize
    requires few { length stamps.now ≤ 16384 }
    requires first { first < length stamps.now }
    ensures { IsEndOfNeighbours stamps.now first result }
{
    let end = min(first / RECORDS * RECORDS + RECORDS, stamps.len());
    for place in first..end {
        if stamps[place].is_none() {
            return place;
        }
    }
    end
}

// Writes the records of so many inodes, from a first one on, into the table.
fn write_records<D: Disk>(
    disk: &mut D,
    layout: &Layout,
    first: u32,
    records: &[[u8; 512]],
) -> Result<(), Failed>
    requires layout { IsLayout (D.view disk.old).size layout.now }
    requires some { 0 < length records.now }
    requires within { first + length records.now ≤ layout.now.inodes }
    ensures write { IsWrite (records_piece layout.now first records.now) (D.view disk.old) (D.view disk.new) result }
{
    disk.write_at(
        table_byte(layout) + 512 * u64::from(first),
        records.as_flattened(),
    )
}
