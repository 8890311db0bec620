// The slots of a directory's blocks with their index, by which a name and an empty slot are found; and the blocks that nodes hold.
use crate::helpers::{got, holds, same, same_list};
use disk_change::held_blocks;
use disk_nodes::{DirectorySlots, OldDisk, OldEntry, OldNode};
use fmt_inode::{Inode, Tables};
use fmt_slots::{SlotBlock, SlotList, SlotRow};
use sfs_base::{Kind, Name, NodeId};
use std::alloc::Global;
use std::process::Abort;

// A block whose first slots, as many as this, have a row with this name.
fn block(rt: &impl Abort, alloc: Global, rows: usize, name: &[u8]) -> SlotBlock {
    let mut block = got(rt, SlotBlock::empty(alloc));
    for place in 0..15 {
        if place < rows {
            let row = SlotRow {
                inode: 1,
                kind: Kind::File,
                name: got(rt, Name::new(alloc, name)),
            };
            block.put(place, Some(row));
        }
    }
    block
}

// A full block with the name `a`, one with `b` in all slots but the last, and one with `a` in its first slot.
fn three_blocks(rt: &impl Abort, alloc: Global) -> DirectorySlots {
    let mut list = SlotList::new(alloc);
    got(rt, list.reserve(3));
    list.push(block(rt, alloc, 15, b"a".as_slice()));
    list.push(block(rt, alloc, 14, b"b".as_slice()));
    list.push(block(rt, alloc, 1, b"a".as_slice()));
    got(rt, DirectorySlots::from_list(alloc, list))
}

// Asserts which blocks have a name.
fn assert_places(
    rt: &impl Abort,
    alloc: Global,
    slots: &DirectorySlots,
    name: &[u8],
    wanted: &[usize],
) {
    let mut places = Vec::new(alloc);
    got(rt, slots.push_places(&mut places, name));
    places.sort_unstable();
    same_list(rt, places.as_slice(), wanted);
}

#[test]
fn names_and_empty_slots_are_found(rt: HostRuntime) {
    let slots = three_blocks(&rt, rt.alloc());
    same(&rt, &slots.len(), &3);
    assert_places(&rt, rt.alloc(), &slots, b"a".as_slice(), &[0, 2]);
    assert_places(&rt, rt.alloc(), &slots, b"b".as_slice(), &[1]);
    assert_places(&rt, rt.alloc(), &slots, b"c".as_slice(), &[]);
    same(&rt, &slots.room_from(0), &1);
    same(&rt, &slots.room_from(2), &2);
    holds(&rt, slots.room_from(3) >= 3);
}

#[test]
fn a_block_with_other_slots_has_other_names(rt: HostRuntime) {
    let mut slots = three_blocks(&rt, rt.alloc());
    holds(&rt, slots.len() == 3);
    slots.put(1, block(&rt, rt.alloc(), 15, b"c".as_slice()));
    assert_places(&rt, rt.alloc(), &slots, b"b".as_slice(), &[]);
    assert_places(&rt, rt.alloc(), &slots, b"c".as_slice(), &[1]);
    same(&rt, &slots.room_from(0), &2);
    slots.truncate(2);
    same(&rt, &slots.len(), &2);
    assert_places(&rt, rt.alloc(), &slots, b"a".as_slice(), &[0]);
    holds(&rt, slots.room_from(0) >= 2);
}

// Two blocks, of which the first is full.
fn two_blocks(rt: &impl Abort, alloc: Global) -> Vec<SlotBlock> {
    let mut further = Vec::new(alloc);
    got(rt, further.push(block(rt, alloc, 15, b"a".as_slice())));
    got(rt, further.push(block(rt, alloc, 0, b"a".as_slice())));
    further
}

#[test]
fn further_blocks_come_behind(rt: HostRuntime) {
    let slots = three_blocks(&rt, rt.alloc());
    let further = two_blocks(&rt, rt.alloc());
    holds(&rt, slots.len() == 3);
    holds(&rt, further.len() == 2);
    let room = got(&rt, slots.room_for(rt.alloc(), 2));
    let slots = slots.join(room, further);
    same(&rt, &slots.len(), &5);
    assert_places(&rt, rt.alloc(), &slots, b"a".as_slice(), &[0, 2, 3]);
    assert_places(&rt, rt.alloc(), &slots, b"b".as_slice(), &[1]);
    same(&rt, &slots.room_from(3), &4);
}

// What the disk has of a file of two blocks.
fn two_pointers(alloc: Global) -> OldNode {
    let mut direct = [0u32; 108];
    direct[0] = 31;
    direct[1] = 29;
    OldNode {
        inode: 1,
        meta: Inode {
            kind: 1,
            links: 1,
            size: 8192,
            direct,
            indirect: [0; 16],
        },
        tables: Tables::new(alloc),
        slots: DirectorySlots::new(alloc),
    }
}

#[test]
fn the_blocks_that_nodes_hold_are_listed(rt: HostRuntime) {
    let mut disk = OldDisk::new(rt.alloc());
    let none = got(&rt, held_blocks(rt.alloc(), &disk));
    holds(&rt, none.as_slice().is_empty());
    holds(&rt, disk.find(1).is_none());
    let entry = OldEntry {
        node: NodeId(1),
        old: two_pointers(rt.alloc()),
    };
    got(&rt, disk.add(entry));
    let held = got(&rt, held_blocks(rt.alloc(), &disk));
    same_list(&rt, held.as_slice(), &[29, 31]);
}
