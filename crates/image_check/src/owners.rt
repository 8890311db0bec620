// Which inode holds each block: the pointers of all inodes, each written at the block that it names.
ghost use Rattle.std.specs.Prelude.{◌≡◌, ◌↔◌, ℕ, ◌<◌, ◌≤◌, ◌^◌, ◌++◌, All, IfOk, OnOk, Some, None, length, slice_index, slice_index_or, true};
ghost use Rattle.std.specs.Option.{option_copied, option_to_list};
ghost use Rattle.sfs_image.specs.Inode.{IsInode};
ghost use Rattle.sfs_image.specs.Seen.{PLACES};
ghost use Rattle.block_map.specs.Kept.{pointer_kept};
ghost use Rattle.disk_tree.specs.Apart.{entry_kept, pointer_in};
ghost use Rattle.image_check.specs.Gathered.{AreGatheredOwners, HasOwners, entry_of, owners_in, pointed};
ghost use Rattle.image_check.specs.Writes.{Writes};

use crate::certificate::{Owner, OwnerList};
use fmt_inode::{Inode, Table, Tables};
use sfs_base::NoMemory;
use std::alloc::Global;

/// The owners of all blocks that inodes hold, on a disk of `blocks` blocks, where no two pointers name
/// one block.
pub fn owner_list(
    alloc: Global,
    blocks: u32,
    inodes: &[Inode],
    tables: &[Tables],
) -> Result<OwnerList, NoMemory>
    requires count { length tables.now ≡ length inodes.now }
    requires few { length inodes.now ≤ 16384 }
    requires inodes { All IsInode inodes.now }
    requires within { (i place : ℕ) → i < length inodes.now → place < PLACES → pointer_in inodes.now tables.now i place < blocks }
    ensures { IfOk result (λ owners. AreGatheredOwners inodes.now tables.now owners.items) }
{
    let owners = owner_table(alloc, blocks, inodes, tables)?;
    listed(alloc, &owners)
}

// At each block the inode that holds it, if one does.
fn owner_table(
    alloc: Global,
    blocks: u32,
    inodes: &[Inode],
    tables: &[Tables],
) -> Result<Vec<Option<u32>>, NoMemory>
    requires count { length tables.now ≡ length inodes.now }
    requires few { length inodes.now ≤ 16384 }
    requires inodes { All IsInode inodes.now }
    requires within { (i place : ℕ) → i < length inodes.now → place < PLACES → pointer_in inodes.now tables.now i place < blocks }
    ensures size { IfOk result (λ owners. length owners.items ≡ blocks) }
    ensures owners { IfOk result (λ owners. HasOwners inodes.now tables.now (length inodes.now) owners.items) }
{
    let mut owners = vec![in alloc; None; blocks as usize]?;
    own_all(&mut owners, inodes, tables);
    Ok(owners)
}

// Writes each inode at the blocks that it holds.
fn own_all(owners: &mut [Option<u32>], inodes: &[Inode], tables: &[Tables])
    requires none { (block : ℕ) → slice_index_or owners.old block None ≡ None }
    requires count { length tables.now ≡ length inodes.now }
    requires few { length inodes.now ≤ 16384 }
    requires inodes { All IsInode inodes.now }
    requires within { (i place : ℕ) → i < length inodes.now → place < PLACES → pointer_in inodes.now tables.now i place < length owners.old }
    ensures size { length owners.new ≡ length owners.old }
    ensures owners { HasOwners inodes.now tables.now (length inodes.now) owners.new }
{
    for place in 0..inodes.len() {
        own(owners, place as u32, &inodes[place], &tables[place]);
    }
}

// Writes an inode at the blocks that it holds.
fn own(owners: &mut [Option<u32>], inode: u32, meta: &Inode, tables: &Tables)
    requires meta { IsInode meta.now }
    requires within { (place : ℕ) → place < PLACES → pointer_kept meta.now tables.now.items place < length owners.old }
    ensures { Writes owners.old owners.new None (Some inode) (λ place. pointed (pointer_kept meta.now tables.now.items place)) PLACES }
{
    own_each(owners, inode, &meta.direct);
    for place in 0..16u32 {
        own_table(owners, inode, tables.find(place));
    }
    own_each(owners, inode, &meta.indirect);
}

// Writes an inode at the blocks that the pointers in an indirect block name, if it is there.
fn own_table(owners: &mut [Option<u32>], inode: u32, table: Option<&Table>)
    requires { (k : ℕ) → k < 1024 → entry_kept k (option_copied table) < length owners.old }
    ensures { Writes owners.old owners.new None (Some inode) (λ k. pointed (entry_kept k (option_copied table.entry))) 1024 }
{
    if let Some(table) = table {
        own_each(owners, inode, table.pointers());
    }
}

// Writes an inode at the blocks that pointers name.
fn own_each(owners: &mut [Option<u32>], inode: u32, pointers: &[u32])
    requires { (k : ℕ) → k < length pointers.now → slice_index pointers.now k < length owners.old }
    ensures { Writes owners.old owners.new None (Some inode) (λ k. pointed (slice_index pointers.now k)) (length pointers.now) }
{
    for pointer in pointers {
        if *pointer != 0 {
            owners[*pointer as usize] = Some(inode);
        }
    }
}

// The blocks that have an owner.
fn listed(alloc: Global, owners: &[Option<u32>]) -> Result<OwnerList, NoMemory>
    requires { length owners.now ≤ 2 ^ 32 }
    ensures { IfOk result (λ list. list.items ≡ owners_in owners.now (length owners.now)) }
{
    let mut list = Vec::new(alloc);
    for block in 0..owners.len() {
        push_owner(&mut list, block as u32, owners[block])?;
    }
    Ok(OwnerList::from_vec(list))
}

// Puts the entry of a block last, if it has an owner.
fn push_owner(list: &mut Vec<Owner>, block: u32, owner: Option<u32>) -> Result<(), NoMemory>
    ensures { OnOk result (list.new.items ≡ list.old.items ++ option_to_list (entry_of block owner)) }
{
    if let Some(inode) = owner {
        list.push(Owner { block, inode })?;
    }
    Ok(())
}

/// Whether two lists of owners are one.
pub fn are_one(owners: &OwnerList, others: &OwnerList) -> bool
    ensures { (result ≡ true) ↔ (owners.now.items ≡ others.now.items) }
{
    owners.as_slice() == others.as_slice()
}
