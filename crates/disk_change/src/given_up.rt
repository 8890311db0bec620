// What a commit gives up.
ghost use Rattle.std.specs.Prelude.{◌≡◌, ◌++◌, ◌↔◌, ◌⊎◌, ◌<◌, ◌≤◌, ℕ, IfOk, OnOk, Contains, map, filter, length};
ghost use Rattle.std.specs.List.Sorted.{IsSorted, IsStrictlyIncreasing};
ghost use Rattle.std.specs.Ordering.{nat_cmp};
ghost use Rattle.std.specs.List.{flat_map};
ghost use Rattle.block_map.specs.Remap.{there};
ghost use Rattle.block_map.specs.Kept.{pointer_kept};
ghost use Rattle.block_map.specs.RemapLaws.{IsHeld};
ghost use Rattle.disk_change.specs.GivenUp.{IsLeftByGone, entry_number, pointers_of_place};
ghost use Rattle.disk_change.specs.Planned.{has_listed_node};

use crate::links::times_of;
use block_map::TABLES;
use disk_nodes::{OldDisk, OldEntry};
use fmt_inode::{Inode, Tables};
use sfs_base::{BlockList, InodeList, NoMemory};
use std::alloc::Global;

// The inodes of the nodes that lose them, whose numbers ascend, ascending.
pub(crate) fn inodes_left(
    alloc: Global,
    old: &[OldEntry],
    leaving: &[u32],
) -> Result<InodeList, NoMemory>
    requires { IsSorted nat_cmp leaving.now }
    ensures ascending { IfOk result (λ inodes. IsStrictlyIncreasing inodes.items) }
    ensures each { IfOk result (λ inodes. (inode : ℕ)
        → Contains inodes.items inode ↔ Contains (map entry_number (filter (has_listed_node leaving.now) old.now)) inode) }
{
    let mut inodes = Vec::new(alloc);
    for entry in old {
        if times_of(leaving, entry.node.0) != 0 {
            inodes.push(entry.old.inode)?;
        }
    }
    Ok(ascending(inodes))
}

// Numbers ascending, each once.
fn ascending(mut numbers: Vec<u32>) -> BlockList
    ensures ascending { IsStrictlyIncreasing result.items }
    ensures each { (n : ℕ) → Contains result.items n ↔ Contains numbers.items n }
{
    numbers.sort_unstable();
    numbers.dedup();
    BlockList::from_vec(numbers)
}

/// All blocks that nodes hold on the disk, ascending. Only want of memory refuses it.
pub fn held_blocks(alloc: Global, old: &OldDisk) -> Result<BlockList, NoMemory>
    ensures ascending { IfOk result (λ blocks. IsStrictlyIncreasing blocks.items) }
    ensures each { IfOk result (λ blocks. (block : ℕ) → Contains blocks.items block ↔ IsLeftByGone old.now.items block) }
{
    let mut blocks = Vec::new(alloc);
    for entry in old.as_slice() {
        push_held(&mut blocks, &entry.old.meta, &entry.old.tables)?;
    }
    Ok(ascending(blocks))
}

// The blocks that a commit gives up, ascending: those that its nodes leave, and all those of nodes that
// lose their inodes, whose numbers ascend.
pub(crate) fn blocks_left(
    freed: Vec<u32>,
    old: &[OldEntry],
    leaving: &[u32],
) -> Result<BlockList, NoMemory>
    requires { IsSorted nat_cmp leaving.now }
    ensures ascending { IfOk result (λ blocks. IsStrictlyIncreasing blocks.items) }
    ensures each { IfOk result (λ blocks. (block : ℕ)
        → Contains blocks.items block ↔ (Contains freed.items block ⊎ IsLeftByGone (filter (has_listed_node leaving.now) old.now) block)) }
{
    let mut blocks = freed;
    for entry in old {
        if times_of(leaving, entry.node.0) != 0 {
            push_held(&mut blocks, &entry.old.meta, &entry.old.tables)?;
        }
    }
    Ok(ascending(blocks))
}

// Puts all blocks that an inode holds behind others.
fn push_held(blocks: &mut Vec<u32>, inode: &Inode, tables: &Tables) -> Result<(), NoMemory>
    ensures { OnOk result ((block : ℕ) → Contains blocks.new.items block
        ↔ (Contains blocks.old.items block ⊎ IsHeld (pointer_kept inode.now tables.now.items) block)) }
{
    push_pointers(blocks, &inode.direct)?;
    push_pointers(blocks, &inode.indirect)?;
    for k in 0..TABLES {
        push_table(blocks, tables, k)?;
    }
    Ok(())
}

// Puts the blocks that the indirect block of a place names behind others.
fn push_table(blocks: &mut Vec<u32>, tables: &Tables, k: usize) -> Result<(), NoMemory>
    requires { k < 16 }
    ensures blocks { OnOk result (blocks.new.items ≡ blocks.old.items ++ flat_map there (pointers_of_place tables.now.items k)) }
    ensures count { OnOk result (length (pointers_of_place tables.now.items k) ≤ 1024) }
{
    match tables.find(k as u32) {
        Some(table) => push_pointers(blocks, table.pointers()),
        None => Ok(()),
    }
}

// Puts the blocks that pointers name behind others.
fn push_pointers(blocks: &mut Vec<u32>, pointers: &[u32]) -> Result<(), NoMemory>
    ensures { OnOk result (blocks.new.items ≡ blocks.old.items ++ flat_map there pointers.now) }
{
    for pointer in pointers {
        push_pointer(blocks, *pointer)?;
    }
    Ok(())
}

// Puts the block that a pointer names last, and none for a hole.
fn push_pointer(blocks: &mut Vec<u32>, pointer: u32) -> Result<(), NoMemory>
    ensures { OnOk result (blocks.new.items ≡ blocks.old.items ++ there pointer) }
{
    if pointer != 0 {
        blocks.push(pointer)?;
    }
    Ok(())
}
