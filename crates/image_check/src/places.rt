// Whether a certificate tells the places of all directories. It goes by the entries: no walk is made.
ghost use Rattle.std.specs.Prelude.{◌≡◌, ◌&&◌, ◌≤◌, ◌==◌, not, length, is_some};
ghost use Rattle.std.specs.List.{list_any};
ghost use Rattle.sfs_image.specs.Rules.{any_below};
ghost use Rattle.keyed_list.specs.Ascending.{AscendBy};
ghost use Rattle.disk_tree.specs.Rows.{AreNamingCounts, rows_of_inode};
ghost use Rattle.image_check.specs.Entries.{holder_inode};
ghost use Rattle.image_check.specs.Checks.{are_places, is_below_root, is_elsewhere, is_off, is_unplaced, lies_one_deeper};

use crate::certificate::{Holder, HolderList};
use disk_tree::{DIRECTORY, RowList};
use fmt_inode::Inode;
use fmt_slots::SlotRow;
use sfs_base::Kind;

/// Whether these are the places of all directories but the root: each entry is that of such a
/// directory and lies one deeper than its holder, each such directory has an entry and is named by one
/// row, and each row that names a directory stands in its holder.
pub fn are_places(inodes: &[Inode], rows: &[RowList], named: &[u32], holders: &HolderList) -> bool
    requires few { length inodes.now ≤ 16384 }
    requires count { length rows.now ≡ length inodes.now }
    requires named { AreNamingCounts rows.now (length inodes.now) (length inodes.now) named.now }
    ensures told { result ≡ are_places inodes.now rows.now holders.now.items }
    ensures ascend { AscendBy holder_inode holders.now.items }
{
    !some_entry_is_off(inodes, holders)
        && !some_is_unplaced(inodes, rows, named, holders)
        && !some_row_is_elsewhere(rows, holders)
}

// An entry is of no directory below the root, or does not lie one deeper than its holder.
fn some_entry_is_off(inodes: &[Inode], holders: &HolderList) -> bool
    ensures some { result ≡ list_any (is_off inodes.now holders.now.items) holders.now.items }
    ensures ascend { AscendBy holder_inode holders.now.items }
{
    holders
        .as_slice()
        .iter()
        .any(|entry| is_off(inodes, holders, entry))
}

// The entry is of no directory below the root, or does not lie one deeper than its holder.
fn is_off(inodes: &[Inode], holders: &HolderList, entry: &Holder) -> bool
    ensures { result ≡ is_off inodes.now holders.now.items entry.now }
{
    !is_below_root(inodes, entry.inode) || !lies_one_deeper(holders, entry)
}

// The inode is a directory and not the root.
fn is_below_root(inodes: &[Inode], inode: u32) -> bool
    ensures { result ≡ is_below_root inodes.now inode }
{
    match inodes.get(inode as usize) {
        Some(found) => found.kind == DIRECTORY && inode != 0,
        None => false,
    }
}

// The entry lies one deeper than its holder.
fn lies_one_deeper(holders: &HolderList, entry: &Holder) -> bool
    ensures { result ≡ lies_one_deeper holders.now.items entry.now }
{
    if entry.holder == 0 {
        return entry.depth == 1;
    }
    match holders.find(entry.holder) {
        Some(holder) => holder.depth < entry.depth && entry.depth - holder.depth == 1,
        None => false,
    }
}

// A directory below the root has no entry, or is not named by one row.
fn some_is_unplaced(inodes: &[Inode], rows: &[RowList], named: &[u32], holders: &HolderList) -> bool
    requires few { length inodes.now ≤ 16384 }
    requires named { AreNamingCounts rows.now (length inodes.now) (length inodes.now) named.now }
    ensures { result ≡ any_below (length inodes.now) (is_unplaced inodes.now rows.now holders.now.items) }
{
    let _ = rows.len();
    for place in 0..inodes.len() {
        let inode = place as u32;
        if is_below_root(inodes, inode) && (holders.find(inode).is_none() || named[place] != 1) {
            return true;
        }
    }
    false
}

// A row names a directory and stands in another one than its holder.
fn some_row_is_elsewhere(rows: &[RowList], holders: &HolderList) -> bool
    requires few { length rows.now ≤ 16384 }
    ensures { result ≡ any_below (length rows.now) (λ directory. list_any (is_elsewhere holders.now.items directory) (rows_of_inode rows.now directory)) }
{
    for place in 0..rows.len() {
        if has_row_elsewhere(holders, place as u32, rows[place].as_slice()) {
            return true;
        }
    }
    false
}

// A row of a directory names a directory and stands in another one than its holder.
fn has_row_elsewhere(holders: &HolderList, directory: u32, rows: &[SlotRow]) -> bool
    ensures { result ≡ list_any (is_elsewhere holders.now.items directory) rows.now }
{
    rows.iter().any(|row| is_elsewhere(holders, directory, row))
}

// The row names a directory and stands in another one than its holder.
fn is_elsewhere(holders: &HolderList, directory: u32, row: &SlotRow) -> bool
    ensures { result ≡ is_elsewhere holders.now.items directory row.now }
{
    if let Kind::File = row.kind {
        return false;
    }
    match holders.find(row.inode) {
        Some(entry) => entry.holder != directory,
        None => true,
    }
}
