// A directory of 4,097 names of one bucket, which is one more than a bucket may have. Its 274 blocks
// are those from 30 on: 108 by the pointers of its record, the others by the indirect block 29.
use super::{made, read};
use crate::helpers::{got, holds, same};
use disk_tree::TreeFault;
use fmt_slots::{SlotBlock, SlotRow, encode as encode_slots};
use sfs_base::{Kind, Name};
use sfs_dev::{Disk, Memory};
use std::alloc::Global;
use std::process::Abort;

// The name of a number below 4,096: its three digits to base 16, each twice. Behind them comes
// `gggggg`. All of them lie in bucket 0.
fn name(rt: &impl Abort, alloc: Global, number: u32) -> Name {
    let mut bytes = [b'g'; 6];
    if number < 4096 {
        let digits = b"0123456789abcdef";
        for place in 0..6usize {
            let digit = (number >> (4 * (2 - place as u32 / 2))) % 16;
            bytes[place] = digits[digit as usize];
        }
    }
    got(rt, Name::new(alloc, bytes.as_slice()))
}

// The block of the 15 names from a number on, of which there are so many.
fn block(rt: &impl Abort, alloc: Global, first: u32, count: u32) -> [u8; 4096] {
    holds(rt, first <= 4096);
    let mut slots = got(rt, SlotBlock::empty(alloc));
    for place in 0..15usize {
        let number = first + place as u32;
        if number < count {
            slots.put(
                place,
                Some(SlotRow {
                    inode: 2,
                    kind: Kind::File,
                    name: name(rt, alloc, number),
                }),
            );
        }
    }
    let mut bytes = [0u8; 4096];
    encode_slots(&slots, &mut bytes);
    bytes
}

// The record of the root: link count 2, 274 blocks, and the pointers to the blocks from 30 on.
fn root() -> [u8; 512] {
    let mut bytes = [0u8; 512];
    bytes[0] = 2;
    bytes[4] = 2;
    bytes[8..12].copy_from_slice(&1_122_304u32.to_le_bytes());
    for n in 0..108u32 {
        let at = 16 + 4 * n as usize;
        bytes[at..at + 4].copy_from_slice(&(30 + n).to_le_bytes());
    }
    bytes[448] = 29;
    bytes
}

// The indirect block, with the pointers to the blocks from 138 on.
fn table() -> [u8; 4096] {
    let mut bytes = [0u8; 4096];
    for n in 0..166u32 {
        let at = 4 * n as usize;
        bytes[at..at + 4].copy_from_slice(&(138 + n).to_le_bytes());
    }
    bytes
}

// Writes bytes at a place of the disk.
fn write(rt: &impl Abort, disk: &mut Memory, at: u64, bytes: &[u8]) {
    holds(rt, disk.len() == 1024 && at <= 4_190_208);
    holds(rt, !bytes.is_empty() && bytes.len() <= 4096);
    holds(rt, disk.write_at(at, bytes).is_ok());
}

// The disk with so many names in the root, all of which name the file of inode 2.
fn with_names(rt: &impl Abort, alloc: Global, count: u32) -> Memory {
    let mut disk = made(rt, alloc, 64);
    write(rt, &mut disk, 86_016, &root());
    write(rt, &mut disk, 118_784, &table());
    for n in 0..274u32 {
        let bytes = block(rt, alloc, 15 * n, count);
        write(rt, &mut disk, 4096 * u64::from(30 + n), &bytes);
    }
    write(rt, &mut disk, 87_040, &[1]);
    write(rt, &mut disk, 87_044, &count.to_le_bytes());
    disk
}

#[test]
fn a_bucket_has_at_most_4096_names(rt: HostRuntime) {
    let alloc = rt.alloc();
    let mut disk = with_names(&rt, alloc, 4096);
    match read(&rt, alloc, &mut disk) {
        Ok(found) => same(&rt, &found.parts.len(), &2),
        Err(fault) => panic!(rt; "{fault:?}"),
    }
    let mut disk = with_names(&rt, alloc, 4097);
    match read(&rt, alloc, &mut disk) {
        Ok(_) => panic!(rt; "taken"),
        Err(fault) => same(&rt, &fault, &TreeFault::BadImage { inode: 0, rule: 9 }),
    }
}
