// The bytes of all inodes, in whole blocks.
ghost use Rattle.std.specs.Prelude.{◌≡◌, ℕ, ◌*◌, ◌<◌, ◌≤◌, length, IfOk, IfErr};
ghost use Rattle.sfs_image.specs.Seen.{FILE_BLOCKS};
ghost use Rattle.block_map.specs.Kept.{block_kept};
ghost use Rattle.sfs_dev.specs.Run.{OnlyReads};
ghost use Rattle.disk_tree.specs.Cause.{is_tree_disk_fault};
ghost use Rattle.disk_tree.specs.Contents.{AreReadContents, blocks_of_size};
ghost use Rattle.disk_tree.specs.Gathered.{tables_at};
ghost use Rattle.disk_tree.specs.Inodes.{inode_at};
ghost use Rattle.disk_tree.specs.Judged.{IsPlain};
ghost use Rattle.disk_tree.specs.Reading.{HasContent};

use crate::TreeFault;
use crate::gather::read_content;
use fmt_inode::{Inode, Tables};
use sfs_base::RoomyList;
use sfs_dev::Disk;
use std::alloc::Global;

/// How many bytes a block has.
const BLOCK_BYTES: u64 = 4096;

/// The bytes of an inode, in whole blocks.
pub type Content = RoomyList<u8>;

/// Reads the bytes of all inodes.
pub fn gather_contents<D: Disk>(
    alloc: Global,
    disk: &mut D,
    inodes: &[Inode],
    tables: &[Tables],
) -> Result<Vec<Content>, TreeFault>
    requires count { length tables.now ≡ length inodes.now }
    requires sizes { (i : ℕ) → i < length inodes.now → (inode_at inodes.now i).size ≤ 4096 * FILE_BLOCKS }
    requires within { (i n : ℕ) → i < length inodes.now → n < FILE_BLOCKS
        → block_kept (inode_at inodes.now i) (tables_at tables.now i) n < (D.view disk.old).size }
    ensures ok { IfOk result (λ contents. AreReadContents (D.view disk.old).content inodes.now tables.now (length inodes.now) contents.items) }
    ensures reads { OnlyReads is_tree_disk_fault (D.view disk.old) (D.view disk.new) result }
    ensures plain { IfErr result IsPlain }
{
    let mut list = Vec::new(alloc);
    for place in 0..inodes.len() {
        let bytes = content_of(alloc, disk, &inodes[place], &tables[place])?;
        list.push(bytes)?;
    }
    Ok(list)
}

// Reads the bytes of an inode.
fn content_of<D: Disk>(
    alloc: Global,
    disk: &mut D,
    inode: &Inode,
    tables: &Tables,
) -> Result<Content, TreeFault>
    requires size { inode.now.size ≤ 4096 * FILE_BLOCKS }
    requires within { (n : ℕ) → n < FILE_BLOCKS → block_kept inode.now tables.now.items n < (D.view disk.old).size }
    ensures ok { IfOk result (λ bytes. HasContent (D.view disk.old).content inode.now tables.now.items (blocks_of_size inode.now.size) bytes.items) }
    ensures reads { OnlyReads is_tree_disk_fault (D.view disk.old) (D.view disk.new) result }
    ensures plain { IfErr result IsPlain }
{
    let count = inode.size.div_ceil(BLOCK_BYTES) as u32;
    let bytes = read_content(alloc, disk, inode, tables, count)?;
    Ok(Content::from_vec(bytes))
}
