// What an image settles: its layout, its open slots, and of each inode its newest record.
ghost use Rattle.std.specs.Prelude.{◌≡◌, ◌+◌, ◌*◌, ◌<◌, ◌≤◌, ℕ, List, Option, None, length, slice_index_or, IfOk, IfErr, OnOk};
ghost use Rattle.std.specs.List.{AllByRecursion};
ghost use Rattle.sfs_dev.specs.Steps.{IfTold};
ghost use Rattle.sfs_image.specs.Settled.{Stamped, slot_count, table_record};
ghost use Rattle.sfs_image.specs.Super.{IsLayout};
ghost use Rattle.sfs_dev.specs.Run.{OnlyReads};
ghost use Rattle.recovery.specs.Cause.{is_recover_disk_fault};
ghost use Rattle.recovery.specs.Open.{IsGoodSlot, IsOpenSlot, BlamesNoImage};
ghost use Rattle.recovery.specs.Settling.{AreSettled, HaveCounts, best_of, with_body, body_read, bodies_read, IsSettledOn, IsSettledRefusal, WereRead};

use crate::fault::RecoverFault;
use crate::journals::{OpenSlot, read_bytes, read_layout, read_open};
use crate::newest::{Newest, put_all};
use crate::places::{slot_byte, table_byte};
use fmt_inode::Records;
use fmt_journal::record_place;
use fmt_super::Layout;
use sfs_base::{NoMemory, RoomyList};
use sfs_dev::Disk;
use std::alloc::Global;

/// What the superblock and the journals of an image settle: its layout, and the record of each inode.
#[derive(Drop)]
pub struct Settled {
    pub layout: Layout,
    pub records: Records,
}

/// The layout, the open slots by their numbers, and of each inode its newest record.
#[derive(Drop)]
pub struct Journals {
    pub layout: Layout,
    pub open: Vec<OpenSlot>,
    pub newest: Newest,
}

/// Reads the layout of a disk and the records that it settles: of each inode that of the open slot with
/// the greatest commit stamp that has one, else the table's. It answers the first wrong byte of the
/// superblock, else of an open slot, and looks at no inode. It writes nothing. It takes memory for a
/// record of 512 bytes an inode.
pub fn read_settled<D: Disk>(alloc: Global, disk: &mut D) -> Result<Settled, RecoverFault>
    ensures fits { IfOk result (λ settled. IsLayout (D.view disk.old).size settled.layout) }
    ensures count { IfOk result (λ settled. length settled.records.items ≡ settled.layout.inodes) }
    ensures ok { IfTold (D.view disk.old).content (λ image. IfOk result (IsSettledOn image)) }
    ensures err { IfTold (D.view disk.old).content (λ image. IfErr result (IsSettledRefusal image)) }
    ensures reads { OnlyReads is_recover_disk_fault (D.view disk.old) (D.view disk.new) result }
{
    let journals = read_journals(alloc, disk)?;
    let layout = journals.layout;
    let newest = journals.newest;
    Ok(Settled {
        layout,
        records: RoomyList::from_vec(newest.records),
    })
}

/// The same with the open slots.
pub fn read_journals<D: Disk>(alloc: Global, disk: &mut D) -> Result<Journals, RecoverFault>
    ensures fits { IfOk result (λ read. IsLayout (D.view disk.old).size read.layout) }
    ensures good { IfOk result (λ read. AllByRecursion (IsGoodSlot read.layout) read.open.items) }
    ensures few { IfOk result (λ read. length read.open.items ≤ slot_count read.layout) }
    ensures counts { IfOk result (λ read. HaveCounts read.layout.inodes read.newest) }
    ensures ok { IfTold (D.view disk.old).content (λ image. IfOk result (WereRead image)) }
    ensures err { IfTold (D.view disk.old).content (λ image. IfErr result (IsSettledRefusal image)) }
    ensures reads { OnlyReads is_recover_disk_fault (D.view disk.old) (D.view disk.new) result }
{
    let layout = read_layout(disk)?;
    let open = read_open(alloc, disk, &layout)?;
    let mut newest = read_table(alloc, disk, &layout)?;
    settle(alloc, disk, &layout, &open, &mut newest)?;
    Ok(Journals {
        layout,
        open,
        newest,
    })
}

// Reads the records of the inode table.
fn read_table<D: Disk>(alloc: Global, disk: &mut D, layout: &Layout) -> Result<Newest, RecoverFault>
    requires layout { IsLayout (D.view disk.old).size layout.now }
    ensures counts { IfOk result (HaveCounts layout.now.inodes) }
    ensures ok { IfTold (D.view disk.old).content (λ image. IfOk result (AreSettled layout.now.inodes (table_record layout.now image) (λ _. None))) }
    ensures plain { IfErr result BlamesNoImage }
    ensures reads { OnlyReads is_recover_disk_fault (D.view disk.old) (D.view disk.new) result }
{
    let inodes = layout.inodes as usize;
    let bytes = read_bytes(alloc, disk, table_byte(layout), 512 * inodes)?;
    let stamps = no_stamps(alloc, inodes)?;
    let mut records = vec![in alloc; [0u8; 512]; inodes]?;
    for i in 0..inodes {
        records[i].copy_from_slice(&bytes[512 * i..512 * i + 512]);
    }
    Ok(Newest { stamps, records })
}

// So many inodes without a commit stamp.
fn no_stamps(alloc: Global, count: usize) -> Result<Vec<Option<u64>>, NoMemory>
    ensures count { IfOk result (λ stamps. length stamps.items ≡ count) }
    ensures none { IfOk result (λ stamps. (i : ℕ) → slice_index_or stamps.items i None ≡ None) }
{
    let mut stamps = Vec::with_capacity(alloc, count)?;
    for i in 0..count {
        let _ = i;
        stamps.push(None)?;
    }
    Ok(stamps)
}

// Puts the records of all open slots, from the last slot on.
fn settle<D: Disk>(
    alloc: Global,
    disk: &mut D,
    layout: &Layout,
    found: &[OpenSlot],
    newest: &mut Newest,
) -> Result<(), RecoverFault>
    requires layout { IsLayout (D.view disk.old).size layout.now }
    requires counts { HaveCounts layout.now.inodes newest.old }
    requires good { AllByRecursion (IsGoodSlot layout.now) found.now }
    ensures counts { OnOk result (HaveCounts layout.now.inodes newest.new) }
    ensures ok { IfTold (D.view disk.old).content (λ image. AllByRecursion (IsOpenSlot layout.now image) found.now
        → AreSettled layout.now.inodes (table_record layout.now image) (λ _. None) newest.old
        → OnOk result (AreSettled layout.now.inodes (table_record layout.now image) (best_of (bodies_read layout.now image found.now)) newest.new)) }
    ensures plain { IfErr result BlamesNoImage }
    ensures reads { OnlyReads is_recover_disk_fault (D.view disk.old) (D.view disk.new) result }
{
    let mut left = found.len();
    while left > 0 {
        left -= 1;
        put_slot(alloc, disk, layout, &found[left], newest)?;
    }
    Ok(())
}

// Puts the records of an open slot.
fn put_slot<D: Disk>(
    alloc: Global,
    disk: &mut D,
    layout: &Layout,
    one: &OpenSlot,
    newest: &mut Newest,
) -> Result<(), RecoverFault>
    requires layout { IsLayout (D.view disk.old).size layout.now }
    requires counts { HaveCounts layout.now.inodes newest.old }
    requires good { IsGoodSlot layout.now one.now }
    ensures counts { OnOk result (HaveCounts layout.now.inodes newest.new) }
    ensures ok { IfTold (D.view disk.old).content (λ image. IsOpenSlot layout.now image one.now → (table : ℕ → List ℕ) (best : ℕ → Option (Stamped (List ℕ)))
        → AreSettled layout.now.inodes table best newest.old → OnOk result (AreSettled layout.now.inodes table (with_body (body_read layout.now image one.now) best) newest.new)) }
    ensures plain { IfErr result BlamesNoImage }
    ensures reads { OnlyReads is_recover_disk_fault (D.view disk.old) (D.view disk.new) result }
{
    let place = record_place(layout.inodes, 0);
    let at = slot_byte(layout, one.number) + 4096 * u64::from(place.block) + u64::from(place.byte);
    let bytes = read_bytes(alloc, disk, at, 512 * one.numbers.len())?;
    put_all(newest, one.stamp, &one.numbers, &bytes);
    Ok(())
}
