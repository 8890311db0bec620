// Which blocks an inode gives up in a commit.
ghost use Rattle.std.specs.Prelude.{◌≡◌, ◌++◌, IfOk, OnOk};
ghost use Rattle.sfs_image.specs.Part.{tabulate};
ghost use Rattle.block_map.specs.Kept.{pointer_kept};
ghost use Rattle.block_map.specs.Remap.{rewrite_of, table_fate, there, data_left as left_of_data, table_left as left_of_table, AreFreed, TABLES as MOST_TABLES};

use crate::changed::{Changed, ChangedBlock};
use crate::pointers::block_at;
use crate::rewrite::{TABLES, TableFate};
use fmt_inode::{Inode, LARGEST, Tables};
use sfs_base::{BlockList, NoMemory};
use std::alloc::Global;

// The blocks that are given up, ascending: those that stood at the places that are rewritten.
pub(crate) fn freed_blocks(
    alloc: Global,
    inode: &Inode,
    tables: &Tables,
    changed: &Changed,
    fates: &[TableFate; TABLES],
) -> Result<BlockList, NoMemory>
    requires { fates.now ≡ tabulate MOST_TABLES (table_fate (rewrite_of inode.now tables.now.items changed.now.items)) }
    ensures { IfOk result (λ freed. AreFreed (rewrite_of inode.now tables.now.items changed.now.items) freed.items) }
{
    let mut freed = Vec::new(alloc);
    for one in changed.as_slice() {
        push_block(&mut freed, data_left(inode, tables, *one))?;
    }
    for k in 0..TABLES {
        push_block(&mut freed, table_left(fates[k], inode.indirect[k]))?;
    }
    freed.sort_unstable();
    freed.dedup();
    Ok(BlockList::from_vec(freed))
}

// Puts a block last, unless it is a hole.
fn push_block(freed: &mut Vec<u32>, block: u32) -> Result<(), NoMemory>
    ensures { OnOk result (freed.new.items ≡ freed.old.items ++ there block) }
{
    if block != 0 {
        freed.push(block)?;
    }
    Ok(())
}

// The block where a rewritten one stood, or 0.
fn data_left(inode: &Inode, tables: &Tables, one: ChangedBlock) -> u32
    ensures { result ≡ left_of_data (pointer_kept inode.now tables.now.items) one }
{
    if one.block < LARGEST {
        block_at(inode, tables, one.block)
    } else {
        0
    }
}

// The block that an indirect block leaves, or 0.
fn table_left(fate: TableFate, block: u32) -> u32
    ensures { result ≡ left_of_table fate block }
{
    match fate {
        TableFate::Stays => 0,
        TableFate::Goes | TableFate::IsWritten => block,
    }
}
