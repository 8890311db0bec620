// Disks whose cores have several journal slots each. One of 72 blocks with 64 inodes and two cores of three slots: a slot has 10 blocks,
// so those of core 0 begin at blocks 1, 11 and 21, those of core 1 at 31, 41 and 51, the inode table at 61 and the data at 69. In a
// slot the count stands at byte 512, the stamp at 520, the numbers at 4,096 and the records at 8,192.
ghost use Rattle.std.specs.Prelude.{IfOk};
ghost use Rattle.tree_laws.specs.Laws.{IsSoundTree};

use crate::helpers::{got, holds, same, same_list};
use fmt_super::{Bad, Layout, MOST_SLOTS, decode, encode};
use recovery::{RecoverFault, Report, mkfs, recover};
use sfs_base::{Kind, NodeId};
use sfs_dev::{Act, Disk, Memory};
use std::alloc::Global;
use std::process::Abort;

const LAYOUT: Layout = Layout {
    blocks: 72,
    inodes: 64,
    cores: 2,
    slots: 3,
};

// Bytes that are put at a place of the disk.
type Edit = (u64, &'static [u8]);

// Four slots are open, and their stamps rise neither by core nor by slot. Of inodes 0 and 1 three have a record, of 2 and 3 two,
// of 4 one.
const OPEN_SLOTS: [Edit; 30] = [
    // Slot 0 of core 0, stamp 6: inode 1 a directory, inode 3 a file that a row names.
    (4_096, &[1]),
    (4_608, &[2, 0, 0, 0]),
    (4_616, &[6, 0, 0, 0, 0, 0, 0, 0]),
    (8_192, &[1, 0, 0, 0, 3, 0, 0, 0]),
    (12_288, &[2, 0, 0, 0, 2]),
    (12_800, &[1, 0, 0, 0, 1]),
    // Slot 2 of core 0, stamp 9: the root has block 71, inode 1 is free, inode 2 a file that a row names.
    (86_016, &[1]),
    (86_528, &[3, 0, 0, 0]),
    (86_536, &[9, 0, 0, 0, 0, 0, 0, 0]),
    (90_112, &[0, 0, 0, 0, 1, 0, 0, 0, 2, 0, 0, 0]),
    (
        94_208,
        &[2, 0, 0, 0, 2, 0, 0, 0, 0, 16, 0, 0, 0, 0, 0, 0, 71],
    ),
    (95_232, &[1, 0, 0, 0, 1]),
    // Slot 0 of core 1, stamp 4: the root has block 70, inode 1 is a directory, inode 2 free.
    (126_976, &[1]),
    (127_488, &[3, 0, 0, 0]),
    (127_496, &[4, 0, 0, 0, 0, 0, 0, 0]),
    (131_072, &[0, 0, 0, 0, 1, 0, 0, 0, 2, 0, 0, 0]),
    (
        135_168,
        &[2, 0, 0, 0, 3, 0, 0, 0, 0, 16, 0, 0, 0, 0, 0, 0, 70],
    ),
    (135_680, &[2, 0, 0, 0, 2]),
    // Slot 2 of core 1, stamp 2: inodes 1, 3 and 4 are files of link count 0.
    (208_896, &[1]),
    (209_408, &[3, 0, 0, 0]),
    (209_416, &[2, 0, 0, 0, 0, 0, 0, 0]),
    (212_992, &[1, 0, 0, 0, 3, 0, 0, 0, 4, 0, 0, 0]),
    (217_088, &[1]),
    (217_600, &[1]),
    (218_112, &[1]),
    // In the table the root has block 70 too. That block was given up since and written by another, so it has no rows.
    (
        249_856,
        &[2, 0, 0, 0, 3, 0, 0, 0, 0, 16, 0, 0, 0, 0, 0, 0, 70],
    ),
    (286_720, &[255, 255, 255, 255, 9, 9, 9]),
    // Block 71 has the rows `b` and `c`, which name inodes 2 and 3.
    (290_816, &[2, 0, 0, 0, 1, 1, 0, 0, b'b']),
    (291_080, &[3, 0, 0, 0, 1, 1, 0, 0, b'c']),
    // A gate of 7 is closed, whatever stands behind it.
    (45_056, &[7]),
];

// What recovery writes there, and its syncs: five neighbours come home at once; the gates shut by their stamps, 2, 4, 6 and 9; and
// inode 4, the only orphan, is freed through slot 0 of core 0.
const WRITES: [Act; 20] = [
    Act::Write {
        at: 249_856,
        count: 2_560,
    },
    Act::Sync,
    Act::Write {
        at: 208_896,
        count: 1,
    },
    Act::Sync,
    Act::Write {
        at: 126_976,
        count: 1,
    },
    Act::Sync,
    Act::Write {
        at: 4_096,
        count: 1,
    },
    Act::Sync,
    Act::Write {
        at: 86_016,
        count: 1,
    },
    Act::Sync,
    Act::Write {
        at: 8_192,
        count: 4,
    },
    Act::Write {
        at: 12_288,
        count: 512,
    },
    Act::Write {
        at: 4_608,
        count: 16,
    },
    Act::Sync,
    Act::Write {
        at: 4_096,
        count: 1,
    },
    Act::Sync,
    Act::Write {
        at: 251_904,
        count: 512,
    },
    Act::Sync,
    Act::Write {
        at: 4_096,
        count: 1,
    },
    Act::Sync,
];

// Makes edits.
fn edit(rt: &impl Abort, disk: &mut Memory, edits: &[Edit]) {
    for (at, bytes) in edits {
        holds(
            rt,
            *at <= 4_190_208 && !bytes.is_empty() && bytes.len() <= 512,
        );
        holds(rt, *at + bytes.len() as u64 <= 4096 * u64::from(disk.len()));
        holds(rt, disk.write_at(*at, bytes).is_ok());
    }
}

// The disk with these edits, on which nothing is pending.
fn disk_with(rt: &impl Abort, alloc: Global, edits: &[Edit]) -> Memory {
    let mut disk = got(rt, Memory::new(alloc, 72));
    holds(rt, LAYOUT.is_valid(disk.len()));
    same(rt, &mkfs(alloc, &mut disk, &LAYOUT), &Ok(()));
    edit(rt, &mut disk, edits);
    holds(rt, disk.sync().is_ok());
    disk
}

// What a recovery reports.
fn recovered(rt: &impl Abort, alloc: Global, disk: &mut Memory) -> Report
    ensures { IsSoundTree result.tree }
{
    got(rt, recover(alloc, disk))
}

// Asserts that the root has two files, inodes 2 and 3, and that there is nothing else.
fn assert_two_files(rt: &impl Abort, report: &Report)
    requires { IsSoundTree report.now.tree }
{
    let tree = &report.tree;
    same(
        rt,
        &(tree.links(NodeId(0)), tree.kind(NodeId(1))),
        &(2, None),
    );
    same(rt, &tree.kind(NodeId(2)), &Some(Kind::File));
    same(rt, &tree.kind(NodeId(3)), &Some(Kind::File));
    same(rt, &tree.kind(NodeId(4)), &None);
    same(rt, &(tree.links(NodeId(2)), tree.links(NodeId(3))), &(1, 1));
}

#[test]
fn several_slots_lie_core_by_core(rt: HostRuntime) {
    same(&rt, &MOST_SLOTS, &8);
    same(
        &rt,
        &(
            LAYOUT.slot_at(0, 0),
            LAYOUT.slot_at(0, 2),
            LAYOUT.slot_at(1, 0),
        ),
        &(1, 21, 31),
    );
    same(
        &rt,
        &(LAYOUT.slot_at(1, 2), LAYOUT.table_at(), LAYOUT.data_at()),
        &(51, 61, 69),
    );
}

#[test]
fn a_superblock_has_one_to_eight_slots(rt: HostRuntime) {
    let layout = Layout {
        blocks: 1024,
        inodes: 64,
        cores: 2,
        slots: 8,
    };
    let mut block = [0xffu8; 4096];
    encode(&layout, &mut block);
    same(&rt, &block[24], &8);
    same(&rt, &decode(&block, 1024), &Ok(layout));
    block[24] = 9;
    same(&rt, &decode(&block, 1024), &Err(Bad { at: 24 }));
    block[24] = 0;
    same(&rt, &decode(&block, 1024), &Err(Bad { at: 24 }));
}

#[test]
fn what_several_slots_have_of_one_inode_comes_home(rt: HostRuntime) {
    let mut disk = disk_with(&rt, rt.alloc(), &OPEN_SLOTS);
    let began = disk.calls().len();
    let report = recovered(&rt, rt.alloc(), &mut disk);
    same(&rt, &(report.closed, report.freed), &(4, 1));
    same(&rt, &report.layout, &LAYOUT);
    assert_two_files(&rt, &report);
    let mut acts = got(&rt, Vec::with_capacity(rt.alloc(), 32));
    for call in disk.calls().iter().skip(began) {
        if !matches!(call.act, Act::Read { .. }) {
            got(&rt, acts.push(call.act));
        }
    }
    same_list(&rt, &acts, &WRITES);
    let again = recovered(&rt, rt.alloc(), &mut disk);
    same(&rt, &(again.closed, again.freed), &(0, 0));
    assert_two_files(&rt, &again);
}

#[test]
fn a_recovery_of_several_slots_is_begun_again(rt: HostRuntime) {
    let mut disk = disk_with(&rt, rt.alloc(), &OPEN_SLOTS);
    let began = disk.calls().len() as u64;
    let _ = recovered(&rt, rt.alloc(), &mut disk);
    let mut met = [false; 5];
    for calls in began..disk.calls().len() as u64 {
        for pick in 0..8u32 {
            let mut left = got(&rt, disk.left(rt.alloc(), calls, pick));
            let report = recovered(&rt, rt.alloc(), &mut left);
            assert_two_files(&rt, &report);
            holds(&rt, report.closed < 5);
            met[report.closed as usize] = true;
        }
    }
    // Each number of slots was still open in some image.
    same(&rt, &met, &[true; 5]);
}

// Edits of that disk, and what it is refused for then.
const REFUSALS: [(&[Edit], RecoverFault); 3] = [
    // The stamp of slot 0 of core 1 is that of slot 2 of core 0.
    (
        &[(127_496, &[9])],
        RecoverFault::BadJournal {
            core: 1,
            slot: 0,
            at: 520,
        },
    ),
    // Slot 2 of core 0 counts one inode more than there are, and slot 2 of core 1 too.
    (
        &[(86_528, &[65]), (209_408, &[65])],
        RecoverFault::BadJournal {
            core: 0,
            slot: 2,
            at: 512,
        },
    ),
    // Slot 2 of core 1 has one number twice.
    (
        &[(212_996, &[1])],
        RecoverFault::BadJournal {
            core: 1,
            slot: 2,
            at: 4_100,
        },
    ),
];

#[test]
fn a_wrong_slot_is_named_by_core_and_slot(rt: HostRuntime) {
    for (edits, due) in REFUSALS.iter() {
        let mut disk = disk_with(&rt, rt.alloc(), &OPEN_SLOTS);
        edit(&rt, &mut disk, edits);
        match recover(rt.alloc(), &mut disk) {
            Ok(_) => panic!(rt; "taken"),
            Err(fault) => same(&rt, &fault, due),
        }
    }
}
