// What a commit makes of an inode: fresh blocks take the places of those that it rewrites.
//
// The fresh blocks are handed out in the order of the places: first to the rewritten blocks that are
// not all zeros, ascending, then to the indirect blocks that are written.
ghost use Rattle.std.specs.Prelude.{◌≡◌, ◌+◌, ◌<◌, IfOk, slice_index, count_by};
ghost use Rattle.std.specs.Option.{option_copied};
ghost use Rattle.sfs_image.specs.Part.{tabulate};
ghost use Rattle.sfs_image.specs.Seen.{FILE_BLOCKS};
ghost use Rattle.block_map.specs.Remap.{rewrite_of, table_fate, own_pointer as pointer_by_fate, pointer_remapped, inode_remapped, tables_remapped};
ghost use Rattle.block_map.specs.Remap.{table_by_fate, table_written, AreFreed, HavePointers, TABLES as MOST_TABLES};

use crate::changed::{Changed, position};
use crate::freed::freed_blocks;
use crate::pointers::block_at;
use crate::rewrite::{POINTERS, TABLES, TableFate, data_needed, first_of, table_fates};
use fmt_inode::{Inode, LARGEST, Table, Tables};
use sfs_base::{BlockList, NoMemory};
use std::alloc::Global;

/// How many pointers to blocks a record has.
const DIRECT: u32 = 108;

/// An inode after a commit: its record, its indirect blocks, the blocks that it gives up, ascending,
/// and by place what became of each indirect block.
#[derive(Drop)]
pub struct Remapped {
    pub inode: Inode,
    pub tables: Tables,
    pub freed: BlockList,
    pub fates: [TableFate; TABLES],
}

/// Rewrites some blocks of an inode, which has its new size already: each that is not all zeros gets
/// a fresh block, and so does each indirect block that is written; all others become holes. There
/// are as many fresh blocks as `blocks_needed`. Indirect blocks that stay are copied. Only want of
/// memory refuses it.
pub fn remap(
    alloc: Global,
    inode: &Inode,
    tables: &Tables,
    changed: &Changed,
    fresh: &[u32],
) -> Result<Remapped, NoMemory>
    ensures inode { IfOk result (λ r. r.inode
        ≡ inode_remapped (rewrite_of inode.now tables.now.items changed.now.items) fresh.now inode.now) }
    ensures tables { IfOk result (λ r. r.tables.items
        ≡ tables_remapped (rewrite_of inode.now tables.now.items changed.now.items) fresh.now tables.now.items) }
    ensures freed { IfOk result (λ r. AreFreed (rewrite_of inode.now tables.now.items changed.now.items) r.freed.items) }
    ensures fates { IfOk result (λ r. r.fates ≡ tabulate MOST_TABLES (table_fate (rewrite_of inode.now tables.now.items changed.now.items))) }
{
    let fates = table_fates(inode, tables, changed);
    let freed = freed_blocks(alloc, inode, tables, changed, &fates)?;
    let given = data_pointers(alloc, changed, fresh)?;
    let after = Inode {
        kind: inode.kind,
        links: inode.links,
        size: inode.size,
        direct: direct_after(inode, tables, changed, fresh, &given),
        indirect: indirect_after(inode, tables, changed, fresh, &fates),
    };
    let tables = tables_after(alloc, inode, tables, changed, fresh, &given, &fates)?;
    Ok(Remapped {
        inode: after,
        tables,
        freed,
        fates,
    })
}

// A fresh block, or 0 where there are not so many.
fn fresh_at(fresh: &[u32], at: u32) -> u32
    ensures { result ≡ slice_index fresh.now at }
{
    fresh.get(at as usize).copied().unwrap_or(0)
}

// The new pointers of the rewritten blocks, in their order.
fn data_pointers(alloc: Global, changed: &Changed, fresh: &[u32]) -> Result<Vec<u32>, NoMemory>
    ensures { IfOk result (λ pointers. HavePointers fresh.now changed.now.items pointers.items) }
{
    let mut pointers = Vec::new(alloc);
    let mut taken = 0;
    for one in changed.as_slice() {
        pointers.push(if one.is_zero {
            0
        } else {
            fresh_at(fresh, taken)
        })?;
        if one.block < LARGEST && !one.is_zero {
            taken += 1;
        }
    }
    Ok(pointers)
}

// The pointer of a block afterwards.
fn pointer_after(
    inode: &Inode,
    tables: &Tables,
    changed: &Changed,
    fresh: &[u32],
    given: &[u32],
    n: u32,
) -> u32
    requires given { HavePointers fresh.now changed.now.items given.now }
    requires within { n < FILE_BLOCKS }
    ensures { result ≡ pointer_remapped (rewrite_of inode.now tables.now.items changed.now.items) fresh.now n }
{
    match position(changed.as_slice(), n) {
        Some(at) => given[at],
        None => block_at(inode, tables, n),
    }
}

// The record's pointers to blocks afterwards.
fn direct_after(
    inode: &Inode,
    tables: &Tables,
    changed: &Changed,
    fresh: &[u32],
    given: &[u32],
) -> [u32; 108]
    requires { HavePointers fresh.now changed.now.items given.now }
    ensures { result ≡ tabulate 108 (pointer_remapped (rewrite_of inode.now tables.now.items changed.now.items) fresh.now) }
{
    let mut direct = [0; 108];
    for n in 0..DIRECT {
        direct[n as usize] = pointer_after(inode, tables, changed, fresh, given, n);
    }
    direct
}

// The record's pointers to indirect blocks afterwards.
fn indirect_after(
    inode: &Inode,
    tables: &Tables,
    changed: &Changed,
    fresh: &[u32],
    fates: &[TableFate; TABLES],
) -> [u32; 16]
    requires { fates.now ≡ tabulate MOST_TABLES (table_fate (rewrite_of inode.now tables.now.items changed.now.items)) }
    ensures { result ≡ tabulate MOST_TABLES (λ k. pointer_remapped (rewrite_of inode.now tables.now.items changed.now.items) fresh.now (FILE_BLOCKS + k)) }
{
    let mut indirect = [0; 16];
    let mut taken = data_needed(changed);
    for k in 0..TABLES {
        indirect[k] = own_pointer(fates[k], inode.indirect[k], fresh_at(fresh, taken));
        taken += fates[k].fresh_blocks();
    }
    indirect
}

// An indirect block's own pointer afterwards, where it stood in this block and would get that fresh one.
fn own_pointer(fate: TableFate, block: u32, fresh: u32) -> u32
    ensures { result ≡ pointer_by_fate fate block fresh }
{
    match fate {
        TableFate::Stays => block,
        TableFate::Goes => 0,
        TableFate::IsWritten => fresh,
    }
}

// The indirect blocks afterwards.
fn tables_after(
    alloc: Global,
    inode: &Inode,
    tables: &Tables,
    changed: &Changed,
    fresh: &[u32],
    given: &[u32],
    fates: &[TableFate; TABLES],
) -> Result<Tables, NoMemory>
    requires given { HavePointers fresh.now changed.now.items given.now }
    requires fates { fates.now ≡ tabulate MOST_TABLES (table_fate (rewrite_of inode.now tables.now.items changed.now.items)) }
    ensures { IfOk result (λ r. r.items ≡ tables_remapped (rewrite_of inode.now tables.now.items changed.now.items) fresh.now tables.now.items) }
{
    let mut after = Tables::new(alloc);
    after.reserve(TABLES as u32)?;
    for k in 0..TABLES {
        let table = table_after(
            alloc, inode, tables, changed, fresh, given, fates[k], k as u32,
        )?;
        if let Some(table) = table {
            after.push(table);
        }
    }
    Ok(after)
}

// The indirect block of a place afterwards, by its fate.
fn table_after(
    alloc: Global,
    inode: &Inode,
    tables: &Tables,
    changed: &Changed,
    fresh: &[u32],
    given: &[u32],
    fate: TableFate,
    k: u32,
) -> Result<Option<Table>, NoMemory>
    requires given { HavePointers fresh.now changed.now.items given.now }
    requires within { k < MOST_TABLES }
    ensures { IfOk result (λ table. table ≡ table_by_fate fate (rewrite_of inode.now tables.now.items changed.now.items) fresh.now tables.now.items k) }
{
    match fate {
        TableFate::Stays => copy_of(tables.find(k)),
        TableFate::Goes => Ok(None),
        TableFate::IsWritten => Ok(Some(written(alloc, inode, tables, changed, fresh, given, k)?)),
    }
}

// An equal indirect block, where there is one.
fn copy_of(table: Option<&Table>) -> Result<Option<Table>, NoMemory>
    ensures { IfOk result (λ copy. copy ≡ option_copied table.entry) }
{
    match table {
        Some(table) => Ok(Some(table.copy()?)),
        None => Ok(None),
    }
}

// An indirect block with the pointers that it has afterwards.
fn written(
    alloc: Global,
    inode: &Inode,
    tables: &Tables,
    changed: &Changed,
    fresh: &[u32],
    given: &[u32],
    k: u32,
) -> Result<Table, NoMemory>
    requires given { HavePointers fresh.now changed.now.items given.now }
    requires within { k < MOST_TABLES }
    ensures { IfOk result (λ table. table ≡ table_written (rewrite_of inode.now tables.now.items changed.now.items) fresh.now k) }
{
    let mut table = Table::holes(alloc, k)?;
    let first = first_of(k);
    for entry in 0..POINTERS {
        table.put(
            entry as usize,
            pointer_after(inode, tables, changed, fresh, given, first + entry),
        );
    }
    Ok(table)
}
