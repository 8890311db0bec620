// Rule 5: each block is held once. Each block that is met gets a mark.
ghost use Rattle.std.specs.Prelude.{◌≡◌, ℕ, ◌<◌, ◌≤◌, length, slice_index, false, All, IfOk, IfErr};
ghost use Rattle.std.specs.Option.{option_copied};
ghost use Rattle.sfs_image.specs.Inode.{IsInode};
ghost use Rattle.sfs_image.specs.Seen.{PLACES};
ghost use Rattle.block_map.specs.Kept.{pointer_kept};
ghost use Rattle.disk_tree.specs.Apart.{AnswersMarks, FindsShared, pointer_in, entry_kept, is_marked};
ghost use Rattle.disk_tree.specs.Judged.{IsRefusal};

use crate::TreeFault;
use fmt_inode::{Inode, Table, Tables};
use std::alloc::Global;

/// The first inode that holds a block twice, or one that an inode below it holds, on a disk of
/// `blocks` blocks.
pub fn first_that_shares(
    alloc: Global,
    blocks: u32,
    inodes: &[Inode],
    tables: &[Tables],
) -> Result<Option<u32>, TreeFault>
    requires count { length tables.now ≡ length inodes.now }
    requires few { length inodes.now ≤ 16384 }
    requires inodes { All IsInode inodes.now }
    requires within { (i place : ℕ) → i < length inodes.now → place < PLACES → pointer_in inodes.now tables.now i place < blocks }
    ensures ok { IfOk result (FindsShared inodes.now tables.now) }
    ensures err { IfErr result (IsRefusal (λ _ _. ⊥)) }
{
    let mut held = vec![in alloc; false; blocks as usize]?;
    Ok(first_that_meets(&mut held, inodes, tables))
}

// The first inode that holds a block twice, or one that an inode below it holds. No block has a mark
// yet.
fn first_that_meets(held: &mut [bool], inodes: &[Inode], tables: &[Tables]) -> Option<u32>
    requires unmarked { (block : ℕ) → is_marked held.old block ≡ false }
    requires count { length tables.now ≡ length inodes.now }
    requires few { length inodes.now ≤ 16384 }
    requires inodes { All IsInode inodes.now }
    requires within { (i place : ℕ) → i < length inodes.now → place < PLACES → pointer_in inodes.now tables.now i place < length held.old }
    ensures { FindsShared inodes.now tables.now result }
{
    for place in 0..inodes.len() {
        if shares(held, &inodes[place], &tables[place]) {
            return Some(place as u32);
        }
    }
    None
}

// Marks the blocks that an inode holds, unless it holds one that has a mark.
fn shares(held: &mut [bool], inode: &Inode, tables: &Tables) -> bool
    requires inode { IsInode inode.now }
    requires within { (place : ℕ) → place < PLACES → pointer_kept inode.now tables.now.items place < length held.old }
    ensures { AnswersMarks held.old held.new (pointer_kept inode.now tables.now.items) PLACES result }
{
    if meets(held, &inode.direct) {
        return true;
    }
    for place in 0..16u32 {
        if meets_in(held, tables.find(place)) {
            return true;
        }
    }
    meets(held, &inode.indirect)
}

// Marks the blocks that the pointers in an indirect block name, if it is there, unless one of them
// has a mark.
fn meets_in(held: &mut [bool], table: Option<&Table>) -> bool
    requires { (k : ℕ) → k < 1024 → entry_kept k (option_copied table) < length held.old }
    ensures { AnswersMarks held.old held.new (λ k. entry_kept k (option_copied table.entry)) 1024 result }
{
    match table {
        None => false,
        Some(table) => meets(held, table.pointers()),
    }
}

// Marks the blocks that pointers name, unless one of them has a mark.
fn meets(held: &mut [bool], pointers: &[u32]) -> bool
    requires { (k : ℕ) → k < length pointers.now → slice_index pointers.now k < length held.old }
    ensures { AnswersMarks held.old held.new (slice_index pointers.now) (length pointers.now) result }
{
    for pointer in pointers {
        if *pointer != 0 {
            if held[*pointer as usize] {
                return true;
            }
            held[*pointer as usize] = true;
        }
    }
    false
}
