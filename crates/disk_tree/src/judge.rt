// The first inode that breaks a rule across inodes: rules 8 to 14.
ghost use Rattle.std.specs.Prelude.{◌≡◌, ℕ, ◌^◌, ◌<◌, ◌≤◌, ◌==◌, length, IfOk};
ghost use Rattle.disk_tree.specs.First.{FindsFirst};
ghost use Rattle.disk_tree.specs.Inodes.{inode_at};
ghost use Rattle.disk_tree.specs.Rows.{AreNamingCounts, rows_of_inode};
ghost use Rattle.disk_tree.specs.Tests.{breaks_eighth, breaks_ninth, breaks_tenth, breaks_eleventh, breaks_twelfth, breaks_thirteenth, breaks_fourteenth, wrong_links};

use crate::by_name::has_duplicate_name;
use crate::inodes::DIRECTORY;
use crate::rows::{RowList, count_directories, has_full_bucket, has_misplaced_row, names_root};
use fmt_inode::Inode;
use fmt_slots::SlotRow;
use sfs_base::NoMemory;
use std::alloc::Global;

/// Rule 8: the first directory with one name twice.
pub fn first_with_name_twice(alloc: Global, rows: &[RowList]) -> Result<Option<u32>, NoMemory>
    requires { length rows.now ≤ 16384 }
    ensures { IfOk result (FindsFirst (length rows.now) (breaks_eighth rows.now)) }
{
    for place in 0..rows.len() {
        if has_duplicate_name(alloc, rows[place].as_slice())? {
            return Ok(Some(place as u32));
        }
    }
    Ok(None)
}

/// Rule 9: the first directory with more rows in a bucket than it may have.
pub fn first_with_full_bucket(rows: &[RowList]) -> Option<u32>
    requires { length rows.now ≤ 16384 }
    ensures { FindsFirst (length rows.now) (breaks_ninth rows.now) result }
{
    for place in 0..rows.len() {
        if has_full_bucket(rows[place].as_slice()) {
            return Some(place as u32);
        }
    }
    None
}

/// Rule 10: the first directory with a row whose inode is beyond the last one, free, or of another
/// kind.
pub fn first_with_misplaced_row(inodes: &[Inode], rows: &[RowList]) -> Option<u32>
    requires { length rows.now ≤ 16384 }
    ensures { FindsFirst (length rows.now) (breaks_tenth inodes.now rows.now) result }
{
    for place in 0..rows.len() {
        if has_misplaced_row(inodes, rows[place].as_slice()) {
            return Some(place as u32);
        }
    }
    None
}

/// Rule 11: the first directory with a row that names the root.
pub fn first_that_names_root(rows: &[RowList]) -> Option<u32>
    requires { length rows.now ≤ 16384 }
    ensures { FindsFirst (length rows.now) (breaks_eleventh rows.now) result }
{
    for place in 0..rows.len() {
        if names_root(rows[place].as_slice()) {
            return Some(place as u32);
        }
    }
    None
}

/// Rule 12: the first directory that two rows name.
pub fn first_named_twice(inodes: &[Inode], rows: &[RowList], named: &[u32]) -> Option<u32>
    requires few { length inodes.now ≤ 16384 }
    requires named { AreNamingCounts rows.now (length inodes.now) (length inodes.now) named.now }
    ensures { FindsFirst (length inodes.now) (breaks_twelfth inodes.now rows.now (length inodes.now)) result }
{
    let _ = rows.len();
    for place in 0..inodes.len() {
        if is_directory(&inodes[place]) && named[place] > 1 {
            return Some(place as u32);
        }
    }
    None
}

/// Rule 13: the first inode in use whose link count is another than by the rows.
pub fn first_with_wrong_links(inodes: &[Inode], rows: &[RowList], named: &[u32]) -> Option<u32>
    requires few { length inodes.now ≤ 16384 }
    requires count { length rows.now ≡ length inodes.now }
    requires short { (i : ℕ) → i < length rows.now → length (rows_of_inode rows.now i) < 2 ^ 32 }
    requires named { AreNamingCounts rows.now (length inodes.now) (length inodes.now) named.now }
    ensures { FindsFirst (length inodes.now) (breaks_thirteenth inodes.now rows.now (length inodes.now)) result }
{
    for place in 0..inodes.len() {
        if has_wrong_links(&inodes[place], rows[place].as_slice(), named[place]) {
            return Some(place as u32);
        }
    }
    None
}

// The inode is in use, and its link count is another than by its rows and by those that name it.
fn has_wrong_links(inode: &Inode, rows: &[SlotRow], named: u32) -> bool
    requires { length rows.now < 2 ^ 32 }
    ensures { result ≡ wrong_links inode.now rows.now named }
{
    let links = if inode.kind == DIRECTORY {
        2 + count_directories(rows) as u64
    } else {
        u64::from(named)
    };
    inode.kind != 0 && u64::from(inode.links) != links
}

/// Rule 14: the first directory that no walk from the root reaches.
pub fn first_unreached(inodes: &[Inode], reached: &[bool]) -> Option<u32>
    requires few { length inodes.now ≤ 16384 }
    requires count { length reached.now ≡ length inodes.now }
    ensures { FindsFirst (length inodes.now) (breaks_fourteenth inodes.now reached.now) result }
{
    for place in 0..inodes.len() {
        if is_directory(&inodes[place]) && !reached[place] {
            return Some(place as u32);
        }
    }
    None
}

// The inode is a directory.
fn is_directory(inode: &Inode) -> bool
    ensures { result ≡ (inode.now.kind == 2) }
{
    inode.kind == DIRECTORY
}
