// What is read of one inode: its indirect blocks, and the blocks of its bytes.
ghost use Rattle.std.specs.Prelude.{◌≡◌, ℕ, ◌+◌, ◌<◌, ◌≤◌, All, slice_index, IfOk, IfErr, OnOk};
ghost use Rattle.sfs_image.specs.Seen.{FILE_BLOCKS};
ghost use Rattle.block_map.specs.Kept.{block_kept};
ghost use Rattle.sfs_dev.specs.Run.{OnlyReads};
ghost use Rattle.disk_tree.specs.Cause.{is_tree_disk_fault};
ghost use Rattle.disk_tree.specs.Judged.{IsPlain};
ghost use Rattle.disk_tree.specs.Reading.{IsReadBlock, IsNextTable, HasTables, HasContent};

use crate::TreeFault;
use block_map::block_at;
use fmt_inode::{Inode, Table, Tables};
use sfs_dev::Disk;
use sfs_image::clear;
use std::alloc::Global;

/// How many bytes a block has.
const BLOCK_BYTES: usize = 4096;

/// How many indirect blocks an inode has at most.
const TABLES: usize = 16;

// Reads the block that a pointer names, zeros for 0.
fn read_block<D: Disk>(
    disk: &mut D,
    pointer: u32,
    block: &mut [u8; BLOCK_BYTES],
) -> Result<(), TreeFault>
    requires { pointer < (D.view disk.old).size }
    ensures ok { OnOk result (IsReadBlock (D.view disk.old).content pointer block.new) }
    ensures reads { OnlyReads is_tree_disk_fault (D.view disk.old) (D.view disk.new) result }
    ensures plain { IfErr result IsPlain }
{
    if pointer == 0 {
        clear(block);
        return Ok(());
    }
    disk.read_at(4096 * u64::from(pointer), block)?;
    Ok(())
}

/// Reads the indirect blocks of an inode.
pub fn read_tables<D: Disk>(alloc: Global, disk: &mut D, inode: &Inode) -> Result<Tables, TreeFault>
    requires { (k : ℕ) → slice_index inode.now.indirect k < (D.view disk.old).size }
    ensures ok { IfOk result (λ tables. HasTables (D.view disk.old).content inode.now tables.items) }
    ensures reads { OnlyReads is_tree_disk_fault (D.view disk.old) (D.view disk.new) result }
    ensures plain { IfErr result IsPlain }
{
    let mut tables = Tables::new(alloc);
    for place in 0..TABLES {
        read_table(alloc, disk, inode, place as u32, &mut tables)?;
    }
    Ok(tables)
}

// Reads the indirect block of a place, if it is there, and puts it last.
fn read_table<D: Disk>(
    alloc: Global,
    disk: &mut D,
    inode: &Inode,
    place: u32,
    tables: &mut Tables,
) -> Result<(), TreeFault>
    requires within { slice_index inode.now.indirect place < (D.view disk.old).size }
    requires place { place < 16 }
    requires above { All (λ t. t.place < place) tables.old.items }
    ensures ok { OnOk result (IsNextTable (D.view disk.old).content inode.now place tables.old.items tables.new.items) }
    ensures reads { OnlyReads is_tree_disk_fault (D.view disk.old) (D.view disk.new) result }
    ensures plain { IfErr result IsPlain }
{
    let pointer = inode.indirect[place as usize];
    if pointer == 0 {
        return Ok(());
    }
    let mut block = [0; BLOCK_BYTES];
    read_block(disk, pointer, &mut block)?;
    let table = Table::decode(alloc, place, &block)?;
    tables.reserve(1)?;
    tables.push(table);
    Ok(())
}

/// Reads the bytes of the first `count` blocks of an inode.
pub fn read_content<D: Disk>(
    alloc: Global,
    disk: &mut D,
    inode: &Inode,
    tables: &Tables,
    count: u32,
) -> Result<Vec<u8>, TreeFault>
    requires count { count ≤ FILE_BLOCKS }
    requires within { (n : ℕ) → n < count → block_kept inode.now tables.now.items n < (D.view disk.old).size }
    ensures ok { IfOk result (λ bytes. HasContent (D.view disk.old).content inode.now tables.now.items count bytes.items) }
    ensures reads { OnlyReads is_tree_disk_fault (D.view disk.old) (D.view disk.new) result }
    ensures plain { IfErr result IsPlain }
{
    let mut bytes = Vec::new(alloc);
    let mut block = [0; BLOCK_BYTES];
    for n in 0..count {
        read_block(disk, block_at(inode, tables, n), &mut block)?;
        bytes.extend_from_slice(&block)?;
    }
    Ok(bytes)
}
