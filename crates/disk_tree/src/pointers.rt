// Rule 4: each pointer names a block of the data area, and covers a byte below the size.
ghost use Rattle.std.specs.Prelude.{◌≡◌, ℕ, ◌+◌, ◌*◌, ◌^◌, ◌<◌, ◌≤◌, ◌==◌, length, Some, All, IfOk, IfErr};
ghost use Rattle.std.specs.Option.{option_copied};
ghost use Rattle.sfs_image.specs.Inode.{IsInode};
ghost use Rattle.sfs_image.specs.Super.{InRange, IsLayout, data_start};
ghost use Rattle.sfs_dev.specs.Run.{OnlyReads};
ghost use Rattle.disk_tree.specs.Cause.{is_tree_disk_fault};
ghost use Rattle.disk_tree.specs.Judged.{IsPlain, IsReadRefusal};
ghost use Rattle.disk_tree.specs.Gathered.{AreTables, BreaksFourth};
ghost use Rattle.disk_tree.specs.Pointers.{points_well as are_well, some_points_badly, record_points_badly, table_points_badly, tables_point_badly, FindsTables};

use crate::TreeFault;
use crate::gather::read_tables;
use fmt_inode::{Inode, Table, Tables};
use fmt_super::Layout;
use sfs_dev::Disk;
use std::alloc::Global;

/// How many bytes a block has.
const BLOCK_BYTES: u64 = 4096;

/// How many pointers an indirect block has.
const POINTERS: u64 = 1024;

/// How many direct pointers an inode has.
const DIRECT: u64 = 108;

/// Reads the indirect blocks of all inodes, if each of these keeps the rule on pointers.
pub fn gather_tables<D: Disk>(
    alloc: Global,
    disk: &mut D,
    layout: &Layout,
    inodes: &[Inode],
) -> Result<Vec<Tables>, TreeFault>
    requires layout { IsLayout (D.view disk.old).size layout.now }
    requires inodes { All IsInode inodes.now }
    requires few { length inodes.now ≤ 16384 }
    ensures ok { IfOk result (λ tables. AreTables (D.view disk.old).content layout.now inodes.now (length inodes.now) tables.items) }
    ensures bad { IfErr result (IsReadRefusal (BreaksFourth (D.view disk.old).content layout.now inodes.now)) }
    ensures reads { OnlyReads is_tree_disk_fault (D.view disk.old) (D.view disk.new) result }
{
    let mut list = Vec::new(alloc);
    for (place, inode) in inodes.iter().enumerate() {
        match judged_tables(alloc, disk, layout, inode)? {
            Some(tables) => list.push(tables)?,
            None => {
                return Err(TreeFault::BadImage {
                    inode: place as u32,
                    rule: 4,
                });
            }
        }
    }
    Ok(list)
}

// Reads the indirect blocks of an inode, if it keeps the rule on pointers.
fn judged_tables<D: Disk>(
    alloc: Global,
    disk: &mut D,
    layout: &Layout,
    inode: &Inode,
) -> Result<Option<Tables>, TreeFault>
    requires layout { IsLayout (D.view disk.old).size layout.now }
    requires inode { IsInode inode.now }
    ensures ok { IfOk result (λ found. FindsTables (D.view disk.old).content layout.now inode.now found) }
    ensures reads { OnlyReads is_tree_disk_fault (D.view disk.old) (D.view disk.new) result }
    ensures plain { IfErr result IsPlain }
{
    if inode.kind == 0 {
        return Ok(Some(Tables::new(alloc)));
    }
    if record_breaks(layout, inode) {
        return Ok(None);
    }
    let tables = read_tables(alloc, disk, inode)?;
    if tables_break(layout, inode.size, &tables) {
        return Ok(None);
    }
    Ok(Some(tables))
}

// A pointer in the record does not point well.
fn record_breaks(layout: &Layout, inode: &Inode) -> bool
    requires { InRange layout.now }
    ensures { result ≡ record_points_badly layout.now inode.now }
{
    some_break(layout, inode.size, &inode.direct, 0, BLOCK_BYTES)
        || some_break(
            layout,
            inode.size,
            &inode.indirect,
            BLOCK_BYTES * DIRECT,
            BLOCK_BYTES * POINTERS,
        )
}

// One of these pointers does not point well. The first covers bytes from `first` on, each further
// one begins `step` bytes later.
fn some_break(layout: &Layout, size: u64, pointers: &[u32], first: u64, step: u64) -> bool
    requires layout { InRange layout.now }
    requires first { first ≤ 2 ^ 32 }
    requires step { step ≤ 2 ^ 24 }
    requires few { length pointers.now ≤ 1024 }
    ensures { result ≡ some_points_badly layout.now size pointers.now first step }
{
    for (place, pointer) in pointers.iter().enumerate() {
        if !points_well(layout, size, *pointer, first + step * place as u64) {
            return true;
        }
    }
    false
}

// A pointer is 0, or names a block of the data area and covers a byte below the size.
fn points_well(layout: &Layout, size: u64, pointer: u32, first: u64) -> bool
    requires { InRange layout.now }
    ensures { result ≡ are_well layout.now size pointer first }
{
    pointer == 0 || (layout.data_at() <= pointer && pointer < layout.blocks && first < size)
}

// A pointer in one of the indirect blocks does not point well.
fn tables_break(layout: &Layout, size: u64, tables: &Tables) -> bool
    requires { InRange layout.now }
    ensures { result ≡ tables_point_badly layout.now size tables.now.items }
{
    for place in 0..16u32 {
        if found_breaks(layout, size, tables.find(place)) {
            return true;
        }
    }
    false
}

// A pointer in an indirect block that was found does not point well.
fn found_breaks(layout: &Layout, size: u64, table: Option<&Table>) -> bool
    requires { InRange layout.now }
    ensures { result ≡ table_points_badly layout.now size (option_copied table.entry) }
{
    match table {
        None => false,
        Some(table) => table_breaks(layout, size, table),
    }
}

// A pointer in an indirect block does not point well.
fn table_breaks(layout: &Layout, size: u64, table: &Table) -> bool
    requires { InRange layout.now }
    ensures { result ≡ table_points_badly layout.now size (Some table.now) }
{
    let first = BLOCK_BYTES * (DIRECT + POINTERS * u64::from(table.place()));
    for entry in 0..1024usize {
        if !points_well(
            layout,
            size,
            table.pointer(entry),
            first + BLOCK_BYTES * entry as u64,
        ) {
            return true;
        }
    }
    false
}
