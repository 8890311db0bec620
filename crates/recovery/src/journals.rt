// The superblock and the journals of a disk: which slots are open, and what stands in them.
ghost use Rattle.std.specs.Prelude.{◌≡◌, ◌+◌, ◌*◌, ◌<◌, ◌≤◌, ◌++◌, option_map, None, length, vec_len, IfOk, IfErr, OnOk};
ghost use Rattle.std.specs.List.{AllByRecursion};
ghost use Rattle.std.specs.Option.{option_to_list};
ghost use Rattle.sfs_dev.specs.Steps.{IfTold};
ghost use Rattle.sfs_image.specs.Bytes.{part, u32s_at};
ghost use Rattle.sfs_image.specs.Journal.{head_of};
ghost use Rattle.sfs_image.specs.Settled.{journal_slot, slot_count, layout_of, super_fault_of};
ghost use Rattle.sfs_image.specs.Super.{InRange, IsLayout};
ghost use Rattle.sfs_dev.specs.Run.{OnlyReads};
ghost use Rattle.recovery.specs.Cause.{is_recover_disk_fault};
ghost use Rattle.recovery.specs.Open.{AreOpen, FindsSlot, IsGoodSlot, IsGoodIfSome, IsBadJournal, BlamesNoImage, IsSuperRefusal, IsSlotRefusal, IsJournalRefusal};

use crate::fault::RecoverFault;
use crate::places::{BLOCK, slot_byte, slot_count};
use byteorder::{ByteOrder, LittleEndian};
use fmt_journal::{Head, decode_head, head_fault, numbers_fault};
use fmt_super::Layout;
use sfs_base::NoMemory;
use sfs_dev::Disk;
use std::alloc::Global;

/// What was read of an open journal slot: its number, slot s of core c being number c * slots + s, its
/// commit stamp, and the numbers of its inodes, ascending.
#[derive(Drop)]
pub struct OpenSlot {
    pub number: u32,
    pub stamp: u64,
    pub numbers: Vec<u32>,
}

/// Reads the layout of a disk.
pub fn read_layout<D: Disk>(disk: &mut D) -> Result<Layout, RecoverFault>
    ensures fits { IfOk result (IsLayout (D.view disk.old).size) }
    ensures ok { IfTold (D.view disk.old).content (λ image. IfOk result (λ layout. (super_fault_of image ≡ None) × (layout ≡ layout_of image))) }
    ensures err { IfTold (D.view disk.old).content (λ image. IfErr result (IsSuperRefusal image)) }
    ensures reads { OnlyReads is_recover_disk_fault (D.view disk.old) (D.view disk.new) result }
{
    if disk.len() == 0 {
        return Err(RecoverFault::BadSuper { at: 0 });
    }
    let mut block = [0u8; 4096];
    disk.read_at(0, &mut block)?;
    match fmt_super::decode(&block, disk.len()) {
        Ok(layout) => Ok(layout),
        Err(bad) => Err(RecoverFault::BadSuper { at: bad.at }),
    }
}

/// Reads the open slots of a disk of this layout, by their numbers. The first wrong one is refused.
pub fn read_open<D: Disk>(
    alloc: Global,
    disk: &mut D,
    layout: &Layout,
) -> Result<Vec<OpenSlot>, RecoverFault>
    requires layout { IsLayout (D.view disk.old).size layout.now }
    ensures ok { IfTold (D.view disk.old).content (λ image. IfOk result (λ found. AreOpen layout.now image (slot_count layout.now) found.items)) }
    ensures good { IfOk result (λ found. AllByRecursion (IsGoodSlot layout.now) found.items) }
    ensures few { IfOk result (λ found. length found.items ≤ slot_count layout.now) }
    ensures err { IfTold (D.view disk.old).content (λ image. IfErr result (IsJournalRefusal layout.now image)) }
    ensures reads { OnlyReads is_recover_disk_fault (D.view disk.old) (D.view disk.new) result }
{
    let mut found = Vec::new(alloc);
    let mut stamps = Vec::new(alloc);
    for number in 0..slot_count(layout) {
        let slot = read_slot(alloc, disk, layout, number, &stamps)?;
        add_slot(&mut found, &mut stamps, slot)?;
    }
    Ok(found)
}

// Puts a slot last, if it is open, and its commit stamp with those before it.
fn add_slot(
    found: &mut Vec<OpenSlot>,
    stamps: &mut Vec<u64>,
    slot: Option<OpenSlot>,
) -> Result<(), NoMemory>
    ensures found { OnOk result (found.new.items ≡ found.old.items ++ option_to_list slot) }
    ensures stamps { OnOk result (stamps.new.items ≡ stamps.old.items ++ option_to_list (option_map (λ one. one.stamp) slot)) }
{
    if let Some(open) = slot {
        stamps.push(open.stamp)?;
        found.push(open)?;
    }
    Ok(())
}

// Reads a slot, if it is open. The commit stamps are those of the open slots before it.
fn read_slot<D: Disk>(
    alloc: Global,
    disk: &mut D,
    layout: &Layout,
    number: u32,
    stamps: &[u64],
) -> Result<Option<OpenSlot>, RecoverFault>
    requires layout { IsLayout (D.view disk.old).size layout.now }
    requires number { number < slot_count layout.now }
    ensures ok { IfTold (D.view disk.old).content (λ image. IfOk result (FindsSlot layout.now image stamps.now number)) }
    ensures good { IfOk result (IsGoodIfSome layout.now) }
    ensures err { IfTold (D.view disk.old).content (λ image. IfErr result (IsSlotRefusal layout.now image stamps.now number)) }
    ensures reads { OnlyReads is_recover_disk_fault (D.view disk.old) (D.view disk.new) result }
{
    let head = read_head(disk, layout, number)?;
    if !head.gate {
        return Ok(None);
    }
    if let Some(at) = head_fault(&head, layout.inodes, stamps) {
        return Err(bad_journal(layout, number, at));
    }
    let numbers = read_numbers(alloc, disk, slot_byte(layout, number) + BLOCK, head.count)?;
    if let Some(at) = numbers_fault(&numbers, layout.inodes) {
        return Err(bad_journal(layout, number, at));
    }
    Ok(Some(OpenSlot {
        number,
        stamp: head.stamp,
        numbers,
    }))
}

// A wrong byte of a slot.
fn bad_journal(layout: &Layout, number: u32, at: u32) -> RecoverFault
    requires ranges { InRange layout.now }
    requires number { number < slot_count layout.now }
    ensures { IsBadJournal layout.now number at result }
{
    RecoverFault::BadJournal {
        core: (number / layout.slots) as u8,
        slot: (number % layout.slots) as u8,
        at,
    }
}

// Reads the head of a slot.
fn read_head<D: Disk>(disk: &mut D, layout: &Layout, number: u32) -> Result<Head, RecoverFault>
    requires layout { IsLayout (D.view disk.old).size layout.now }
    requires number { number < slot_count layout.now }
    ensures ok { IfTold (D.view disk.old).content (λ image. IfOk result (λ head. head ≡ head_of (part 0 4096 (journal_slot layout.now image number)))) }
    ensures plain { IfErr result BlamesNoImage }
    ensures reads { OnlyReads is_recover_disk_fault (D.view disk.old) (D.view disk.new) result }
{
    let mut block = [0u8; 4096];
    disk.read_at(slot_byte(layout, number), &mut block)?;
    Ok(decode_head(&block))
}

// Reads so many numbers of 4 bytes.
fn read_numbers<D: Disk>(
    alloc: Global,
    disk: &mut D,
    at: u64,
    count: u32,
) -> Result<Vec<u32>, RecoverFault>
    requires within { at + 4 * count ≤ 4096 * (D.view disk.old).size }
    requires few { count ≤ 16384 }
    ensures ok { IfTold (D.view disk.old).content (λ image. IfOk result (λ numbers. numbers.items ≡ u32s_at at count image)) }
    ensures count { IfOk result (λ numbers. vec_len numbers ≡ count) }
    ensures plain { IfErr result BlamesNoImage }
    ensures reads { OnlyReads is_recover_disk_fault (D.view disk.old) (D.view disk.new) result }
{
    let bytes = read_bytes(alloc, disk, at, 4 * count as usize)?;
    let mut numbers = vec![in alloc; 0u32; count as usize]?;
    LittleEndian::read_u32_into(&bytes, &mut numbers);
    Ok(numbers)
}

/// Reads so many bytes.
pub fn read_bytes<D: Disk>(
    alloc: Global,
    disk: &mut D,
    at: u64,
    count: usize,
) -> Result<Vec<u8>, RecoverFault>
    requires within { at + count ≤ 4096 * (D.view disk.old).size }
    ensures ok { IfTold (D.view disk.old).content (λ image. IfOk result (λ bytes. bytes.items ≡ part at count image)) }
    ensures count { IfOk result (λ bytes. vec_len bytes ≡ count) }
    ensures plain { IfErr result BlamesNoImage }
    ensures reads { OnlyReads is_recover_disk_fault (D.view disk.old) (D.view disk.new) result }
{
    if count == 0 {
        return Ok(Vec::new(alloc));
    }
    let mut bytes = vec![in alloc; 0u8; count]?;
    disk.read_at(at, &mut bytes)?;
    Ok(bytes)
}
