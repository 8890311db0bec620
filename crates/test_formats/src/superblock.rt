// The superblock of 1,024 blocks with 64 inodes and 2 cores, and its layout.
use crate::helpers::{holds, same, same_list};
use fmt_super::{Bad, Layout, decode, encode};
use sfs_image::{MOST_SLOTS, clear, first_nonzero};
use std::process::Abort;

const LAYOUT: Layout = Layout {
    blocks: 1024,
    inodes: 64,
    cores: 2,
    slots: 1,
};

// The bytes with which that superblock begins. Zeros follow.
const FRONT: [u8; 28] = [
    0x53, 0x43, 0x41, 0x4c, 0x45, 0x46, 0x53, 0x31, 1, 0, 0, 0, 2, 0, 0, 0, 0, 4, 0, 0, 0x40, 0, 0,
    0, 1, 0, 0, 0,
];

// That superblock.
fn block() -> [u8; 4096] {
    let mut block = [0u8; 4096];
    block[..28].copy_from_slice(&FRONT);
    block
}

// Asserts the fault of that superblock with another byte at a place.
fn assert_bad(rt: &impl Abort, at: usize, byte: u8, fault: u32) {
    let mut block = block();
    holds(rt, at < 4096);
    block[at] = byte;
    same(rt, &decode(&block, 1024), &Err(Bad { at: fault }));
}

#[test]
fn a_superblock_has_its_bytes(rt: HostRuntime) {
    let mut bytes = [0xffu8; 4096];
    encode(&LAYOUT, &mut bytes);
    same_list(&rt, &bytes[..28], FRONT.as_slice());
    same(&rt, &first_nonzero(&bytes, 28, 4096), &None);
    same(&rt, &decode(&bytes, 1024), &Ok(LAYOUT));
    same(&rt, &MOST_SLOTS, &8);
}

#[test]
fn each_field_is_refused_at_its_place(rt: HostRuntime) {
    assert_bad(&rt, 7, b'2', 0);
    assert_bad(&rt, 8, 2, 8);
    assert_bad(&rt, 12, 0, 12);
    assert_bad(&rt, 12, 17, 12);
    assert_bad(&rt, 20, 15, 20);
    assert_bad(&rt, 22, 1, 20);
    assert_bad(&rt, 24, 9, 24);
    // 1,025 blocks are more than the disk has.
    assert_bad(&rt, 16, 1, 16);
    assert_bad(&rt, 28, 1, 28);
    assert_bad(&rt, 4095, 1, 4095);
    // Zeros, and a disk of no blocks.
    same(&rt, &decode(&[0u8; 4096], 1024), &Err(Bad { at: 0 }));
    same(&rt, &decode(&block(), 0), &Err(Bad { at: 0 }));
    same(&rt, &decode(&block(), 1023), &Err(Bad { at: 16 }));
}

#[test]
fn the_blocks_are_looked_at_behind_the_slots(rt: HostRuntime) {
    let mut block = block();
    // 29 blocks, one too few.
    block[16] = 29;
    block[17] = 0;
    same(&rt, &decode(&block, 1024), &Err(Bad { at: 16 }));
    block[24] = 0;
    same(&rt, &decode(&block, 1024), &Err(Bad { at: 24 }));
    block[20] = 0;
    same(&rt, &decode(&block, 1024), &Err(Bad { at: 20 }));
    block[24] = 1;
    block[20] = 64;
    block[16] = 30;
    same(
        &rt,
        &decode(&block, 1024),
        &Ok(Layout {
            blocks: 30,
            ..LAYOUT
        }),
    );
}

#[test]
fn layouts_divide_a_disk(rt: HostRuntime) {
    same(&rt, &LAYOUT.slot_at(0, 0), &1);
    same(&rt, &LAYOUT.slot_at(1, 0), &11);
    same(&rt, &LAYOUT.table_at(), &21);
    same(&rt, &LAYOUT.data_at(), &29);
    holds(&rt, LAYOUT.is_valid(1024));
    holds(&rt, !LAYOUT.is_valid(1023));
    let least = Layout {
        blocks: 8,
        inodes: 16,
        cores: 1,
        slots: 1,
    };
    same(&rt, &(least.table_at(), least.data_at()), &(5, 7));
    let spool = Layout {
        blocks: 16_384,
        inodes: 2048,
        cores: 4,
        slots: 1,
    };
    same(&rt, &spool.slot_at(3, 0), &778);
    same(&rt, &(spool.table_at(), spool.data_at()), &(1037, 1293));
}

#[test]
fn the_first_byte_that_is_not_zero_is_found(rt: HostRuntime) {
    let mut bytes = [0, 3, 0, 5];
    same(&rt, &first_nonzero(&bytes, 0, 4), &Some(1));
    same(&rt, &first_nonzero(&bytes, 2, 4), &Some(3));
    same(&rt, &first_nonzero(&bytes, 2, 3), &None);
    clear(&mut bytes);
    same(&rt, &bytes, &[0, 0, 0, 0]);
}
