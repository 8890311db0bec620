// Where the directories lie: each row that names a directory tells its holder, and a walk up its depth.
ghost use Rattle.std.specs.Prelude.{◌≡◌, ℕ, ◌+◌, ◌-◌, ◌<◌, ◌≤◌, ◌^◌, All, IfOk, length, slice_index};
ghost use Rattle.disk_tree.specs.Rows.{rows_of_inode};
ghost use Rattle.image_check.specs.Climbs.{AreClimbed, CanClimb, Climbs, HasHolders, LiesAt, named_directory};
ghost use Rattle.image_check.specs.Writes.{Writes};

use crate::certificate::{Holder, HolderList};
use disk_tree::{DIRECTORY, RowList};
use fmt_inode::Inode;
use fmt_slots::SlotRow;
use sfs_base::{Kind, NoMemory};
use std::alloc::Global;

/// For each inode the directory of the row that names it, if it is a directory, and 0 where no row does.
/// Each row names one of the inodes.
pub fn holder_table(alloc: Global, rows: &[RowList]) -> Result<Vec<u32>, NoMemory>
    requires few { length rows.now ≤ 16384 }
    requires within { (i : ℕ) → i < length rows.now → All (λ row. row.inode < length rows.now) (rows_of_inode rows.now i) }
    ensures size { IfOk result (λ above. length above.items ≡ length rows.now) }
    ensures low { IfOk result (λ above. (i : ℕ) → slice_index above.items i ≤ length rows.now - 1) }
    ensures holders { IfOk result (λ above. HasHolders rows.now (length rows.now) above.items) }
{
    let mut above = vec![in alloc; 0u32; rows.len()]?;
    hold_all(&mut above, rows);
    Ok(above)
}

// Writes each directory at the directories that its rows name.
fn hold_all(above: &mut [u32], rows: &[RowList])
    requires few { length rows.now ≤ 16384 }
    requires size { length above.old ≡ length rows.now }
    requires zeros { (i : ℕ) → slice_index above.old i ≡ 0 }
    requires within { (i : ℕ) → i < length rows.now → All (λ row. row.inode < length rows.now) (rows_of_inode rows.now i) }
    ensures size { length above.new ≡ length rows.now }
    ensures low { (i : ℕ) → slice_index above.new i ≤ length rows.now - 1 }
    ensures holders { HasHolders rows.now (length rows.now) above.new }
{
    for place in 0..rows.len() {
        hold(above, place as u32, rows[place].as_slice());
    }
}

// Writes a directory at the directories that rows name.
fn hold(above: &mut [u32], directory: u32, rows: &[SlotRow])
    requires { All (λ row. row.inode < length above.old) rows.now }
    ensures { Writes above.old above.new 0 directory (named_directory rows.now) (length rows.now) }
{
    for row in rows {
        if let Kind::Directory = row.kind {
            above[row.inode as usize] = directory;
        }
    }
}

/// The places of all directories but the root, by the holder of each.
pub fn holder_list(alloc: Global, inodes: &[Inode], above: &[u32]) -> Result<HolderList, NoMemory>
    requires some { 0 < length inodes.now }
    requires few { length inodes.now ≤ 16384 }
    requires count { length above.now ≡ length inodes.now }
    requires low { (i : ℕ) → slice_index above.now i < length inodes.now }
    requires climbs { CanClimb inodes.now above.now }
    ensures { IfOk result (λ holders. AreClimbed inodes.now above.now (length inodes.now) holders.items) }
{
    let mut list = Vec::new(alloc);
    for place in 1..inodes.len() {
        let found = &inodes[place];
        if found.kind == DIRECTORY {
            let inode = place as u32;
            let holder = above[place];
            let depth = depth_of(above, inode);
            list.push(Holder {
                inode,
                holder,
                depth,
            })?;
        }
    }
    Ok(HolderList::from_vec(list))
}

// How many directories lie above one.
fn depth_of(above: &[u32], directory: u32) -> u32
    requires within { directory < length above.now }
    requires low { (i : ℕ) → slice_index above.now i < length above.now }
    requires climbs { LiesAt above.now directory }
    ensures { Climbs above.now directory result }
{
    let mut at = directory;
    for depth in 0..u32::MAX {
        if at == 0 {
            return depth;
        }
        at = above[at as usize];
    }
    u32::MAX
}
