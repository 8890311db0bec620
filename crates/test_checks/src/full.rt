// A root of 4,097 names of one bucket, which is one more than a bucket may have. Its 274 blocks are those from 30 on: 108 by the pointers
// of its record, the others by the indirect block 29.
use crate::calls::{copy_of, made};
use crate::damaged::assert_refused;
use crate::helpers::holds;
use scalefs_run::ImageFault;
use sfs_dev::{Disk, Memory};
use std::process::Abort;

// The number below 4,096 stands in a name by its three digits to base 16, each twice. Behind them comes `gggggg`. All lie in bucket 0.
fn name_byte(number: u32, place: u32) -> u8 {
    if number > 4095 {
        return b'g';
    }
    let digits = b"0123456789abcdef";
    digits[((number >> (4 * 2u32.saturating_sub(place / 2))) % 16) as usize]
}

// The block of the 15 names from a number on: each slot has the inode 2, its kind, the name's length and the name.
fn names(first: u32) -> [u8; 4096] {
    let mut bytes = [0u8; 4096];
    for slot in 0..15u32 {
        let number = first.saturating_add(slot);
        if number <= 4096 {
            let at = 264 * slot as usize;
            bytes[at] = 2;
            bytes[at + 4] = 1;
            bytes[at + 5] = 6;
            for place in 0..6u32 {
                bytes[at + 8 + place as usize] = name_byte(number, place);
            }
        }
    }
    bytes
}

// The record of the root: link count 2, 274 blocks, and the pointers to the blocks from 30 on.
fn root() -> [u8; 512] {
    let mut bytes = [0u8; 512];
    bytes[0] = 2;
    bytes[4] = 2;
    bytes[8..12].copy_from_slice(&1_122_304u32.to_le_bytes());
    for n in 0..108u32 {
        let at = 16 + 4 * n as usize;
        bytes[at..at + 4].copy_from_slice(&(30 + n).to_le_bytes());
    }
    bytes[448] = 29;
    bytes
}

// The indirect block, with the pointers to the blocks from 138 on.
fn table() -> [u8; 4096] {
    let mut bytes = [0u8; 4096];
    for n in 0..166u32 {
        let at = 4 * n as usize;
        bytes[at..at + 4].copy_from_slice(&(138 + n).to_le_bytes());
    }
    bytes
}

// Writes bytes at a place of the disk.
fn write(rt: &impl Abort, disk: &mut Memory, at: u64, bytes: &[u8]) {
    holds(rt, disk.len() == 1024 && at <= 4_190_208);
    holds(rt, !bytes.is_empty() && bytes.len() <= 4096);
    holds(rt, disk.write_at(at, bytes).is_ok());
}

#[test]
fn a_bucket_with_a_name_too_many_is_named(rt: HostRuntime) {
    let alloc = rt.alloc();
    let mut disk = made(&rt, alloc);
    write(&rt, &mut disk, 86_016, &root());
    write(&rt, &mut disk, 118_784, &table());
    for n in 0..274u32 {
        write(&rt, &mut disk, 4096 * u64::from(30 + n), &names(15 * n));
    }
    // The file that all of them name, with 4,097 links.
    write(&rt, &mut disk, 87_040, &[1, 0, 0, 0, 1, 16]);
    holds(&rt, disk.sync().is_ok());
    let disk = copy_of(&rt, alloc, &disk);
    assert_refused(&rt, alloc, &disk, ImageFault::Tree { inode: 0, rule: 9 }, 0);
}
