// Rules 6 and 7, which speak of the bytes of an inode, and the slots of the directories.
ghost use Rattle.std.specs.Prelude.{◌≡◌, ℕ, ◌+◌, ◌*◌, ◌^◌, ◌<◌, ◌≤◌, length, IfOk, IfErr};
ghost use Rattle.sfs_image.specs.Bytes.{part};
ghost use Rattle.sfs_image.specs.Seen.{FILE_BLOCKS};
ghost use Rattle.disk_tree.specs.Blocks.{tail_badly, breaks_tail_at, FindsSlots, AreSlotLists, BreaksSeventh};
ghost use Rattle.disk_tree.specs.Contents.{blocks_of_size, bytes_of_inode};
ghost use Rattle.disk_tree.specs.First.{FindsFirst};
ghost use Rattle.disk_tree.specs.Inodes.{inode_at};
ghost use Rattle.disk_tree.specs.Judged.{IsRefusal};

use crate::TreeFault;
use crate::contents::Content;
use crate::inodes::{DIRECTORY, FILE};
use fmt_inode::Inode;
use fmt_slots::{SlotFault, SlotList, decode};
use sfs_base::NoMemory;
use sfs_image::first_nonzero;
use std::alloc::Global;

/// How many bytes a block has.
const BLOCK_BYTES: usize = 4096;

/// The first file with a byte past its size in its last block that is not zero.
pub fn first_of_bad_tail(inodes: &[Inode], contents: &[Content]) -> Option<u32>
    requires count { length contents.now ≡ length inodes.now }
    requires few { length inodes.now ≤ 16384 }
    requires small { (i : ℕ) → i < length inodes.now → (inode_at inodes.now i).size ≤ 4096 * FILE_BLOCKS }
    requires whole { (i : ℕ) → i < length inodes.now → length (bytes_of_inode contents.now i) ≡ 4096 * blocks_of_size (inode_at inodes.now i).size }
    ensures { FindsFirst (length inodes.now) (breaks_tail_at inodes.now contents.now) result }
{
    for place in 0..inodes.len() {
        if breaks_tail(&inodes[place], contents[place].as_slice()) {
            return Some(place as u32);
        }
    }
    None
}

// A file with a byte past its size in its last block that is not zero.
fn breaks_tail(inode: &Inode, bytes: &[u8]) -> bool
    requires small { inode.now.size ≤ 4096 * FILE_BLOCKS }
    requires whole { length bytes.now ≡ 4096 * blocks_of_size inode.now.size }
    ensures { result ≡ tail_badly inode.now bytes.now }
{
    let rest = inode.size as usize % BLOCK_BYTES;
    if inode.kind != FILE || rest == 0 {
        return false;
    }
    let last = block_at(bytes, inode.size as usize / BLOCK_BYTES);
    first_nonzero(last, rest, BLOCK_BYTES).is_some()
}

// A block of some bytes.
fn block_at(bytes: &[u8], n: usize) -> &[u8]
    requires small { n < 2 ^ 32 }
    requires within { 4096 * n + 4096 ≤ length bytes.now }
    ensures block { result.now ≡ part (4096 * n) 4096 bytes.now }
    ensures size { length result.now ≡ 4096 }
{
    let from = BLOCK_BYTES * n;
    &bytes[from..from + BLOCK_BYTES]
}

/// The slots of all directories, where nothing is wrong in them.
pub fn gather_slots(
    alloc: Global,
    inodes: &[Inode],
    contents: &[Content],
) -> Result<Vec<SlotList>, TreeFault>
    requires count { length contents.now ≡ length inodes.now }
    requires few { length inodes.now ≤ 16384 }
    requires small { (i : ℕ) → i < length inodes.now → (inode_at inodes.now i).size ≤ 4096 * FILE_BLOCKS }
    requires whole { (i : ℕ) → i < length inodes.now → length (bytes_of_inode contents.now i) ≡ 4096 * blocks_of_size (inode_at inodes.now i).size }
    ensures ok { IfOk result (λ slots. AreSlotLists inodes.now contents.now (length inodes.now) slots.items) }
    ensures bad { IfErr result (IsRefusal (BreaksSeventh inodes.now contents.now)) }
{
    let mut list = Vec::new(alloc);
    for place in 0..inodes.len() {
        match slots_in(alloc, &inodes[place], contents[place].as_slice())? {
            Some(slots) => list.push(slots)?,
            None => {
                return Err(TreeFault::BadImage {
                    inode: place as u32,
                    rule: 7,
                });
            }
        }
    }
    Ok(list)
}

// The slots of a directory, if nothing is wrong in them. A file has none.
fn slots_in(alloc: Global, inode: &Inode, bytes: &[u8]) -> Result<Option<SlotList>, NoMemory>
    requires small { inode.now.size ≤ 4096 * FILE_BLOCKS }
    requires whole { length bytes.now ≡ 4096 * blocks_of_size inode.now.size }
    ensures { IfOk result (FindsSlots inode.now bytes.now) }
{
    let mut list = Vec::new(alloc);
    if inode.kind != DIRECTORY {
        return Ok(Some(SlotList::from_vec(list)));
    }
    let mut block = [0u8; BLOCK_BYTES];
    for n in 0..inode.size as usize / BLOCK_BYTES {
        block.copy_from_slice(block_at(bytes, n));
        match decode(alloc, &block) {
            Ok(slots) => list.push(slots)?,
            Err(fault) => match fault {
                SlotFault::Bad { at: _ } => return Ok(None),
                SlotFault::NoMemory => return Err(NoMemory),
            },
        }
    }
    Ok(Some(SlotList::from_vec(list)))
}
