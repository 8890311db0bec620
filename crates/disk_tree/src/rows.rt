// The rows of the directories, and the rules that speak of them but for their names: rules 9 to 13.
ghost use Rattle.std.specs.Prelude.{◌≡◌, ℕ, ◌+◌, ◌<◌, ◌≤◌, ◌==◌, ◌&&◌, ◌++◌, nat_lt, not, length, slice_index, count_by, ◌^◌, All, IfOk, OnOk};
ghost use Rattle.std.specs.List.{list_any};
ghost use Rattle.std.specs.Option.{option_to_list};
ghost use Rattle.tree_laws.specs.Tree.{is_directory_kind};
ghost use Rattle.disk_tree.specs.Blocks.{slots_at};
ghost use Rattle.disk_tree.specs.First.{FindsFirst};
ghost use Rattle.disk_tree.specs.Inodes.{inode_at};
ghost use Rattle.disk_tree.specs.Rows.{AreRowLists, rows_in_slots, slots_together, rows_in_bucket, has_full_bucket, is_misplaced_by, rows_of_inode, directory_row_count, named_rows, AreNamingCounts, CountsNamings};

use crate::inodes::{DIRECTORY, FILE};
use fmt_inode::Inode;
use fmt_slots::{SlotBlock, SlotList, SlotRow};
use sfs_base::{Kind, NoMemory, RoomyList, bucket_of};
use std::alloc::Global;

/// The rows of a directory, in the order of their slots.
pub type RowList = RoomyList<SlotRow>;

/// How many rows a bucket of a directory holds at most.
const BUCKET_ROWS: usize = 4096;

/// The rows of all directories.
pub fn gather_rows(alloc: Global, slots: &[SlotList]) -> Result<Vec<RowList>, NoMemory>
    ensures { IfOk result (λ rows. AreRowLists slots.now (length slots.now) rows.items) }
{
    let mut list = Vec::new(alloc);
    for blocks in slots {
        list.push(rows_of(alloc, blocks.as_slice())?)?;
    }
    Ok(list)
}

// The rows of a directory.
fn rows_of(alloc: Global, blocks: &[SlotBlock]) -> Result<RowList, NoMemory>
    ensures { IfOk result (λ rows. rows.items ≡ rows_in_slots (slots_together blocks.now)) }
{
    let mut rows = Vec::new(alloc);
    for block in blocks {
        push_rows(&mut rows, block)?;
    }
    Ok(RowList::from_vec(rows))
}

// Puts the rows of a block last.
fn push_rows(rows: &mut Vec<SlotRow>, block: &SlotBlock) -> Result<(), NoMemory>
    ensures { OnOk result (rows.new.items ≡ rows.old.items ++ rows_in_slots block.now) }
{
    for slot in block.as_slice() {
        push_row(rows, slot)?;
    }
    Ok(())
}

// Puts the row of a slot last, if there is one.
fn push_row(rows: &mut Vec<SlotRow>, slot: &Option<SlotRow>) -> Result<(), NoMemory>
    ensures { OnOk result (rows.new.items ≡ rows.old.items ++ option_to_list slot.now) }
{
    if let Some(row) = slot {
        rows.push(row.copy()?)?;
    }
    Ok(())
}

/// One of the eight buckets has more rows than it may have.
#[tactic(auto, unfolding(crate::specs::Rows::has_full_bucket))]
pub fn has_full_bucket(rows: &[SlotRow]) -> bool
    ensures { result ≡ has_full_bucket rows.now }
{
    (0..8).any(|number| count_in_bucket(rows, number) > BUCKET_ROWS)
}

// How many rows lie in a bucket.
fn count_in_bucket(rows: &[SlotRow], number: u8) -> usize
    ensures { result ≡ rows_in_bucket rows.now number }
{
    rows.iter()
        .filter(|row| bucket_of(&row.name) == number)
        .count()
}

/// A row's inode is beyond the last one, free, or of another kind than the row.
pub fn has_misplaced_row(inodes: &[Inode], rows: &[SlotRow]) -> bool
    ensures { result ≡ list_any (is_misplaced_by inodes.now) rows.now }
{
    rows.iter().any(|row| is_misplaced(inodes, row))
}

// The inode of a row is beyond the last one, free, or of another kind than the row.
fn is_misplaced(inodes: &[Inode], row: &SlotRow) -> bool
    ensures { result ≡ is_misplaced_by inodes.now row.now }
{
    let kind = match row.kind {
        Kind::File => FILE,
        Kind::Directory => DIRECTORY,
    };
    match inodes.get(row.inode as usize) {
        Some(inode) => inode.kind != kind,
        None => true,
    }
}

/// A row names the root.
pub fn names_root(rows: &[SlotRow]) -> bool
    ensures { result ≡ list_any (λ row. row.inode == 0) rows.now }
{
    rows.iter().any(|row| row.inode == 0)
}

/// How many rows name directories.
pub fn count_directories(rows: &[SlotRow]) -> usize
    ensures { result ≡ directory_row_count rows.now }
{
    rows.iter()
        .filter(|row| matches!(row.kind, Kind::Directory))
        .count()
}

/// How many rows name each inode. Each row names one of the inodes.
pub fn count_named(alloc: Global, count: usize, rows: &[RowList]) -> Result<Vec<u32>, NoMemory>
    requires within { (i : ℕ) → i < length rows.now → All (λ row. row.inode < count) (rows_of_inode rows.now i) }
    requires few { named_rows rows.now (length rows.now) < 2 ^ 32 }
    ensures ok { IfOk result (λ named. AreNamingCounts rows.now (length rows.now) count named.items) }
{
    let mut named = vec![in alloc; 0u32; count]?;
    count_all(&mut named, rows);
    Ok(named)
}

// Counts the rows of all inodes.
fn count_all(named: &mut [u32], rows: &[RowList])
    requires zeros { (i : ℕ) → slice_index named.old i ≡ 0 }
    requires within { (i : ℕ) → i < length rows.now → All (λ row. row.inode < length named.old) (rows_of_inode rows.now i) }
    requires few { named_rows rows.now (length rows.now) < 2 ^ 32 }
    ensures { AreNamingCounts rows.now (length rows.now) (length named.old) named.new }
{
    for place in 0..rows.len() {
        count_in(named, rows[place].as_slice());
    }
}

// Counts the rows that name each inode.
fn count_in(named: &mut [u32], rows: &[SlotRow])
    requires within { All (λ row. row.inode < length named.old) rows.now }
    requires room { (i : ℕ) → slice_index named.old i + length rows.now < 2 ^ 32 }
    ensures { CountsNamings named.old named.new rows.now (length rows.now) }
{
    for row in rows {
        named[row.inode as usize] += 1;
    }
}
