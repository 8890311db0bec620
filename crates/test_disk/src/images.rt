// The image of 1,024 blocks with 64 inodes and 2 cores that is just made, and the same with one directory `a` in the root: their
// blocks by the encoders, and what the decoders read of them.
use crate::helpers::{got, holds, same, same_list};
use fmt_inode::{Inode, decode as decode_record, encode as encode_record};
use fmt_journal::decode_head;
use fmt_slots::{SlotBlock, SlotRow, decode as decode_slots, encode as encode_slots};
use fmt_super::{Layout, decode as decode_super, encode as encode_super};
use sfs_base::{Kind, Name};
use sfs_image::first_nonzero;
use std::alloc::Global;
use std::process::Abort;

// A directory's record, with one block at most.
pub(crate) fn directory(links: u32, size: u64, pointer: u32) -> [u8; 512] {
    let mut inode = Inode {
        kind: 2,
        links,
        size,
        direct: [0; 108],
        indirect: [0; 16],
    };
    inode.direct[0] = pointer;
    let mut bytes = [0xffu8; 512];
    encode_record(&inode, &mut bytes);
    bytes
}

// The first block of the inode table, with the records of inodes 0 and 1.
fn table(root: &[u8; 512], first: &[u8; 512]) -> [u8; 4096] {
    let mut block = [0u8; 4096];
    block[..512].copy_from_slice(root);
    block[512..1024].copy_from_slice(first);
    block
}

// The block of a directory with one directory `a`, which is inode 1.
pub(crate) fn rows(rt: &impl Abort, alloc: Global) -> [u8; 4096] {
    let mut slots = got(rt, SlotBlock::empty(alloc));
    slots.put(
        0,
        Some(SlotRow {
            inode: 1,
            kind: Kind::Directory,
            name: got(rt, Name::new(alloc, b"a".as_slice())),
        }),
    );
    let mut block = [0xffu8; 4096];
    encode_slots(&slots, &mut block);
    block
}

// Asserts the kind, the links, the size and the first pointer in the record of inode 0 or 1.
fn assert_record(rt: &impl Abort, table: &[u8; 4096], inode: usize, said: (u8, u32, u64, u32)) {
    let mut bytes = [0u8; 512];
    holds(rt, inode < 2);
    bytes.copy_from_slice(&table[512 * inode..512 * inode + 512]);
    match decode_record(&bytes) {
        Err(_) => panic!(rt; "refused"),
        Ok(inode) => {
            same(
                rt,
                &(inode.kind, inode.links, inode.size, inode.direct[0]),
                &said,
            );
            same(rt, &first_nonzero(&bytes, 20, 512), &None);
        }
    }
}

#[test]
fn an_image_that_is_just_made_has_its_root_alone(rt: HostRuntime) {
    let layout = Layout {
        blocks: 1024,
        inodes: 64,
        cores: 2,
        slots: 1,
    };
    let mut first = [0xffu8; 4096];
    encode_super(&layout, &mut first);
    same(&rt, &decode_super(&first, 1024), &Ok(layout));
    same(&rt, &(layout.slot_at(0, 0), layout.slot_at(1, 0)), &(1, 11));
    same(&rt, &(layout.table_at(), layout.data_at()), &(21, 29));
    holds(&rt, !decode_head(&[0u8; 4096]).gate);
    let table = table(&directory(2, 0, 0), &[0u8; 512]);
    assert_record(&rt, &table, 0, (2, 2, 0, 0));
    assert_record(&rt, &table, 1, (0, 0, 0, 0));
    same(&rt, &first_nonzero(&table, 8, 4096), &None);
}

#[test]
fn an_image_with_one_directory_shows_it_in_the_root(rt: HostRuntime) {
    let table = table(&directory(3, 4096, 29), &directory(2, 0, 0));
    assert_record(&rt, &table, 0, (2, 3, 4096, 29));
    assert_record(&rt, &table, 1, (2, 2, 0, 0));
    same(&rt, &first_nonzero(&table, 1024, 4096), &None);
    let block = rows(&rt, rt.alloc());
    let slots = got(&rt, decode_slots(rt.alloc(), &block));
    match slots.row(0) {
        None => panic!(rt; "empty"),
        Some(row) => {
            same(&rt, &(row.inode, row.kind), &(1, Kind::Directory));
            same_list(&rt, row.name.bytes(), b"a".as_slice());
        }
    }
    holds(&rt, slots.row(1).is_none());
    same(&rt, &first_nonzero(&block, 9, 4096), &None);
}
