// A directory whose rows are changed as drawn, beside a plain array of its slots.
use crate::changing::{ROOT, built, change, entering, root_alone, root_net};
use crate::helpers::{got, holds, same};
use disk_change::{DiskChange, FileChangeList, need};
use disk_nodes::{OldDisk, OldEntry};
use sfs_base::{Name, NodeId, NodeList};
use space_map::SpaceMap;
use std::alloc::Global;
use std::process::Abort;
use tree_laws::{Act, Changes, NameMap};

// Four blocks of slots. A slot has 64 times its node and its name, from 1 to 40, or 0.
type Slots = [u32; 60];

// What becomes of a row.
#[derive(Clone, Copy)]
struct Step {
    goes: u32,
    comes: u32,
}

// The next number of a row of draws.
fn next(seed: u32) -> u32 {
    seed.wrapping_mul(1_664_525).wrapping_add(1_013_904_223)
}

// The row with a name, or 0.
fn named(slots: &Slots, name: u32) -> u32 {
    for row in slots {
        if *row % 64 == name {
            return *row;
        }
    }
    0
}

// Puts a row for the first that is another.
fn put(slots: &mut Slots, old: u32, new: u32) {
    for place in 0..60 {
        if slots[place] == old {
            slots[place] = new;
            return;
        }
    }
}

// How many of the slots of a block differ from others, and how many have a row.
fn counted(slots: &Slots, others: &Slots, block: usize) -> (u32, u32) {
    let mut differ: u32 = 0;
    let mut rows: u32 = 0;
    for place in 0..60 {
        if place / 15 == block {
            if slots[place] != others[place] {
                differ = differ.wrapping_add(1);
            }
            if slots[place] != 0 {
                rows = rows.wrapping_add(1);
            }
        }
    }
    (differ, rows)
}

// The bytes of a name.
fn spelled(rt: &impl Abort, alloc: Global, row: u32) -> Name {
    let letters = [b'a', b'b', b'c', b'd', b'e', b'f', b'g', b'h'];
    let first = letters[(row % 64 / 8) as usize];
    let second = letters[(row % 8) as usize];
    got(rt, Name::new(alloc, &[first, second]))
}

// What becomes of the row with a drawn name: it comes where it is not there, or goes, or gets another
// name.
fn drawn(slots: &Slots, seed: u32, node: u32) -> Step {
    let name = seed / 65_536 % 40 + 1;
    let other = seed / 256 % 40 + 1;
    let held = named(slots, name);
    if held == 0 {
        return Step {
            goes: 0,
            comes: (node % 65_536) * 64 + name,
        };
    }
    if seed % 3 == 0 && named(slots, other) == 0 {
        return Step {
            goes: held,
            comes: held / 64 * 64 + other,
        };
    }
    Step {
        goes: held,
        comes: 0,
    }
}

// A directory on the disk, with its rows and its slots.
#[derive(Drop)]
struct Shelf {
    disk: OldDisk,
    rows: NameMap,
    slots: Slots,
}

// The changes of a step, and the rows after it.
fn changes_of(rt: &impl Abort, alloc: Global, rows: &mut NameMap, step: Step) -> Changes {
    let mut changes = Changes::new(alloc);
    if step.goes != 0 {
        let name = spelled(rt, alloc, step.goes);
        change(
            rt,
            alloc,
            &mut changes,
            Act::Remove,
            name.bytes(),
            NodeId(step.goes / 64),
        );
        holds(rt, rows.get(&name).is_some());
        rows.remove(&name);
    }
    if step.comes != 0 {
        let name = spelled(rt, alloc, step.comes);
        change(
            rt,
            alloc,
            &mut changes,
            Act::Add,
            name.bytes(),
            NodeId(step.comes / 64),
        );
        holds(rt, rows.get(&name).is_none());
        got(rt, rows.insert(name, NodeId(step.comes / 64)));
    }
    changes
}

// Whether a slot of a directory has this row.
fn stands(
    rt: &impl Abort,
    alloc: Global,
    disk: &OldDisk,
    root: &OldEntry,
    place: usize,
    row: u32,
) -> bool {
    let held = match root.old.slots.as_slice().get(place / 15) {
        Some(block) => block.row(place % 15),
        None => None,
    };
    let Some(held) = held else {
        return row == 0;
    };
    let Some(child) = disk.find(row / 64) else {
        return false;
    };
    let name = spelled(rt, alloc, row);
    held.inode == child.old.inode && held.name.bytes() == name.bytes()
}

// Asserts that the disk has a directory of these slots, with a pointer where a block has a row, and
// another one than before exactly where it differs.
fn assert_like(rt: &impl Abort, alloc: Global, shelf: &Shelf, slots: &Slots, before: &[u32; 108]) {
    let Some(root) = shelf.disk.find(ROOT.0) else {
        panic!(rt; "no root");
    };
    let mut blocks: u64 = 0;
    for block in 0..4usize {
        let (differ, rows) = counted(&shelf.slots, slots, block);
        let pointer = root.old.meta.direct[block];
        same(rt, &(pointer == 0), &(rows == 0));
        same(rt, &(pointer == before[block]), &(differ == 0));
        if rows != 0 {
            blocks = block as u64 + 1;
        }
    }
    same(
        rt,
        &(root.old.slots.len() as u64, root.old.meta.size),
        &(blocks, blocks.wrapping_mul(4_096)),
    );
    for place in 0..60usize {
        holds(
            rt,
            stands(rt, alloc, &shelf.disk, root, place, shelf.slots[place]),
        );
    }
}

// How many fresh blocks a step needs, by the plain slots.
fn due(slots: &Slots, others: &Slots) -> u32 {
    let mut blocks: u32 = 0;
    for block in 0..4usize {
        let (differ, rows) = counted(slots, others, block);
        if differ != 0 && rows != 0 {
            blocks = blocks.wrapping_add(1);
        }
    }
    blocks
}

// The node that a step brings, and the one that goes.
fn moved(rt: &impl Abort, alloc: Global, step: Step) -> (Option<NodeId>, NodeList) {
    let mut leave = NodeList::new(alloc);
    if step.comes == 0 {
        got(rt, leave.reserve(1));
        leave.push(NodeId(step.goes / 64));
    }
    let enter = if step.goes == 0 {
        Some(NodeId(step.comes / 64))
    } else {
        None
    };
    (enter, leave)
}

// Makes a step.
fn make(rt: &impl Abort, alloc: Global, shelf: Shelf, space: &mut SpaceMap, step: Step) -> Shelf {
    let Shelf {
        disk,
        mut rows,
        mut slots,
    } = shelf;
    let Some(root) = disk.find(ROOT.0) else {
        panic!(rt; "no root");
    };
    let before = root.old.meta.direct;
    let old = slots;
    let earlier = got(rt, rows.copy(alloc));
    let changes = changes_of(rt, alloc, &mut rows, step);
    if step.goes != 0 {
        put(&mut slots, step.goes, 0);
    }
    if step.comes != 0 {
        put(&mut slots, 0, step.comes);
    }
    let nets = got(rt, root_net(alloc, &earlier, &changes));
    let (enters, leave) = moved(rt, alloc, step);
    let enter = entering(rt, alloc, enters);
    let change = got(
        rt,
        DiskChange::new(
            alloc,
            disk,
            nets,
            FileChangeList::new(alloc),
            &enter,
            &leave,
        ),
    );
    same(rt, &need(&change).blocks, &due(&slots, &old));
    let made = built(rt, alloc, change, space);
    let shelf = Shelf {
        disk: made.after,
        rows,
        slots,
    };
    assert_like(rt, alloc, &shelf, &old, &before);
    shelf
}

// An empty directory.
fn empty(rt: &impl Abort, alloc: Global) -> Shelf {
    Shelf {
        disk: root_alone(rt, alloc),
        rows: NameMap::new(alloc),
        slots: [0; 60],
    }
}

#[test]
fn a_directory_grows_past_a_block_and_shrinks_again(rt: HostRuntime) {
    let alloc = rt.alloc();
    let mut space = got(&rt, SpaceMap::new(alloc, 29, 64, 64, &[], &[0]));
    let mut shelf = empty(&rt, alloc);
    for name in 1..17u32 {
        let step = Step {
            goes: 0,
            comes: (name + 100) * 64 + name,
        };
        shelf = make(&rt, alloc, shelf, &mut space, step);
    }
    let Some(root) = shelf.disk.find(ROOT.0) else {
        panic!(rt; "no root");
    };
    same(
        &rt,
        &(root.old.meta.size, root.old.meta.direct[1] != 0),
        &(8_192, true),
    );
    let last = Step {
        goes: 116 * 64 + 16,
        comes: 0,
    };
    let shelf = make(&rt, alloc, shelf, &mut space, last);
    let Some(root) = shelf.disk.find(ROOT.0) else {
        panic!(rt; "no root");
    };
    same(
        &rt,
        &(root.old.meta.size, root.old.meta.direct[1]),
        &(4_096, 0),
    );
}

#[test]
fn drawn_changes_are_those_of_plain_slots(rt: HostRuntime) {
    let alloc = rt.alloc();
    let mut space = got(&rt, SpaceMap::new(alloc, 29, 64, 64, &[], &[0]));
    let mut shelf = empty(&rt, alloc);
    let mut seed: u32 = 7;
    let mut most: u64 = 0;
    for node in 100..400u32 {
        seed = next(seed);
        let step = drawn(&shelf.slots, seed, node);
        shelf = make(&rt, alloc, shelf, &mut space, step);
        let Some(root) = shelf.disk.find(ROOT.0) else {
            panic!(rt; "no root");
        };
        let count = root.old.slots.len() as u64;
        if count > most {
            most = count;
        }
    }
    holds(&rt, most >= 2);
}
