// A disk before a visit, and after it.
use crate::trouble::Trouble;
use fmt_super::Layout;
use recovery::{mkfs, recover};
use script::tree_text;
use sfs_dev::{Disk, Memory};
use std::alloc::Global;

// How many blocks a disk may have.
const MOST_BLOCKS: u32 = 262_144;

/// A disk in memory with this layout and an empty tree.
pub fn new_disk(alloc: Global, layout: &Layout) -> Result<Memory, Trouble> {
    if layout.blocks > MOST_BLOCKS {
        return Err(Trouble::NoDisk);
    }
    let mut disk = Memory::new(alloc, layout.blocks)?;
    if !layout.is_valid(disk.len()) {
        return Err(Trouble::NoDisk);
    }
    mkfs(alloc, &mut disk, layout)?;
    Ok(disk)
}

/// The text of the tree that recovers of a disk.
pub fn tree_on(alloc: Global, disk: Memory) -> Result<String, Trouble> {
    let mut disk = disk;
    let tree = recover(alloc, &mut disk)?.tree;
    let text = tree_text(alloc, &tree)?;
    Ok(String::from_utf8_lossy(alloc, text.as_slice())?)
}
