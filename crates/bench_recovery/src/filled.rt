// A disk with an image whose journal slots are all open: 16 cores of 8 slots, 2,048 inodes, and 20 records a slot.
ghost use Rattle.std.specs.Prelude.{◌<◌};

use byteorder::{ByteOrder, LittleEndian};
use fmt_journal::{Head, encode_head};
use fmt_super::Layout;
use recovery::mkfs;
use sfs_base::Failed;
use sfs_dev::Disk;
use std::alloc::Global;
use std::cmp::min;

/// How the disk is divided.
pub const LAYOUT: Layout = Layout {
    blocks: 33_792,
    inodes: 2048,
    cores: 16,
    slots: 8,
};

/// How many records each slot has.
const RECORDS: usize = 20;

/// How many inodes of a slot the next one does not have.
const STEP: u32 = 16;

/// Makes an image with all slots open, each with the records of 20 neighbouring inodes, of which it shares four with the next slot.
/// All are free. The last slot has the least commit stamp.
pub fn fill<D: Disk>(alloc: Global, disk: &mut D) -> Result<(), Failed> {
    if !LAYOUT.is_valid(disk.len()) || mkfs(alloc, disk, &LAYOUT).is_err() {
        return Err(Failed);
    }
    for core in 0..16 {
        for slot in 0..8 {
            open_slot(disk, core, slot)?;
        }
    }
    disk.sync()
}

// Opens a slot with its records.
fn open_slot<D: Disk>(disk: &mut D, core: u32, slot: u32) -> Result<(), Failed>
    requires core { core < 16 }
    requires slot { slot < 8 }
{
    let number = 8 * core + slot;
    let at = 4096 * u64::from(LAYOUT.slot_at(core, slot));
    let mut numbers = [0u8; 4 * RECORDS];
    let first = min(1 + STEP * number, 2048 - RECORDS as u32);
    for k in 0..RECORDS {
        LittleEndian::write_u32(&mut numbers[4 * k..4 * k + 4], first + k as u32);
    }
    put(disk, at + 4096, &numbers)?;
    for block in 3..6u64 {
        put(disk, at + 4096 * block, &[0u8; 4096])?;
    }
    let head = Head {
        gate: false,
        count: RECORDS as u32,
        stamp: u64::from(128 - number),
    };
    let mut block = [0u8; 4096];
    encode_head(&head, &mut block);
    block[0] = 1;
    put(disk, at, &block)
}

// Writes bytes that lie on the disk.
fn put<D: Disk>(disk: &mut D, at: u64, bytes: &[u8]) -> Result<(), Failed> {
    let len = 4096 * u64::from(disk.len());
    if bytes.is_empty() || bytes.len() as u64 > len || at > len - bytes.len() as u64 {
        return Err(Failed);
    }
    disk.write_at(at, bytes)
}
