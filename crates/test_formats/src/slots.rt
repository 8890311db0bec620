// The slots of a directory's block.
use crate::helpers::{got, holds, same, same_list};
use fmt_slots::{
    SlotBlock, SlotFault, SlotList, SlotRow, copy_list, decode, decode_slot, encode, encode_slot,
};
use sfs_base::{Kind, Name};
use sfs_image::first_nonzero;
use std::alloc::Global;
use std::process::Abort;

// The bytes with which the slot of directory `a` with inode 1 begins. Zeros follow.
const FRONT: [u8; 9] = [1, 0, 0, 0, 2, 1, 0, 0, 0x61];

// That row.
fn row(rt: &impl Abort, alloc: Global) -> SlotRow {
    SlotRow {
        inode: 1,
        kind: Kind::Directory,
        name: got(rt, Name::new(alloc, b"a".as_slice())),
    }
}

// Asserts the fault of a block that has that row in its third slot, with another byte there.
fn assert_bad(rt: &impl Abort, alloc: Global, at: usize, byte: u8) {
    let mut block = [0u8; 4096];
    block[528..537].copy_from_slice(&FRONT);
    holds(rt, at < 3568);
    block[528 + at] = byte;
    match decode(alloc, &block) {
        Err(fault) => same(
            rt,
            &fault,
            &SlotFault::Bad {
                at: 528 + at as u32,
            },
        ),
        Ok(_) => panic!(rt; "taken"),
    }
}

#[test]
fn a_slot_has_its_bytes(rt: HostRuntime) {
    let row = row(&rt, rt.alloc());
    let mut bytes = [0xffu8; 264];
    encode_slot(Some(&row), &mut bytes);
    same_list(&rt, &bytes[..9], FRONT.as_slice());
    same(&rt, &first_nonzero(&bytes, 9, 264), &None);
    match got(&rt, decode_slot(rt.alloc(), &bytes)) {
        None => panic!(rt; "empty"),
        Some(again) => {
            same(&rt, &again.inode, &1);
            same(&rt, &again.kind, &Kind::Directory);
            same_list(&rt, again.name.bytes(), b"a".as_slice());
        }
    }
    encode_slot(None, &mut bytes);
    same(&rt, &first_nonzero(&bytes, 0, 264), &None);
    holds(&rt, got(&rt, decode_slot(rt.alloc(), &bytes)).is_none());
}

#[test]
fn a_block_has_its_bytes(rt: HostRuntime) {
    let alloc = rt.alloc();
    let longest = got(&rt, vec![in alloc; b'n'; 255]);
    let mut slots = got(&rt, SlotBlock::empty(alloc));
    slots.put(0, Some(got(&rt, row(&rt, alloc).copy())));
    slots.put(
        14,
        Some(SlotRow {
            inode: 0x01020304,
            kind: Kind::File,
            name: got(&rt, Name::new(alloc, &longest)),
        }),
    );
    let mut block = [0xffu8; 4096];
    encode(&got(&rt, slots.copy()), &mut block);
    same_list(&rt, &block[..9], FRONT.as_slice());
    same(&rt, &first_nonzero(&block, 9, 4096), &Some(3696));
    same_list(
        &rt,
        &block[3696..3705],
        [4, 3, 2, 1, 1, 255, 0, 0, b'n'].as_slice(),
    );
    same_list(&rt, &block[3958..3961], [b'n', 0, 0].as_slice());
    same(&rt, &first_nonzero(&block, 3959, 4096), &None);
    let again = got(&rt, decode(alloc, &block));
    holds(&rt, again.row(0).is_some());
    holds(&rt, again.row(1).is_none());
    holds(&rt, again.row(14).is_some());
    let mut list = SlotList::new(alloc);
    got(&rt, list.reserve(1));
    list.push(again);
    same(&rt, &got(&rt, copy_list(alloc, &list)).len(), &1);
}

#[test]
fn each_byte_is_refused_at_its_place(rt: HostRuntime) {
    let alloc = rt.alloc();
    assert_bad(&rt, alloc, 4, 0);
    assert_bad(&rt, alloc, 4, 3);
    assert_bad(&rt, alloc, 5, 0);
    assert_bad(&rt, alloc, 7, 1);
    assert_bad(&rt, alloc, 8, b'/');
    assert_bad(&rt, alloc, 8, b'.');
    assert_bad(&rt, alloc, 9, 1);
    assert_bad(&rt, alloc, 263, 1);
    // Behind the slots.
    assert_bad(&rt, alloc, 3960 - 528, 1);
    assert_bad(&rt, alloc, 4095 - 528, 1);
}
