// Making a disk of 1,024 blocks with 64 inodes and 2 cores, and what is read of it when it is damaged. Its slots begin at bytes
// 4,096 and 45,056, its inode table at 86,016; a slot has its stamp at 520, its numbers at 4,096 and its records at 8,192.
use crate::helpers::{got, holds, same};
use dev_fake::{FailAt, Fuse};
use fmt_super::Layout;
use recovery::{MkfsFault, RecoverFault, Settled, mkfs, read_settled};
use sfs_dev::{Act, Disk, Memory};
use sfs_image::first_nonzero;
use std::alloc::Global;
use std::process::Abort;

const LAYOUT: Layout = Layout {
    blocks: 1024,
    inodes: 64,
    cores: 2,
    slots: 1,
};

// The bytes with which its superblock begins. Zeros follow.
const FRONT: [u8; 28] = [
    0x53, 0x43, 0x41, 0x4c, 0x45, 0x46, 0x53, 0x31, 1, 0, 0, 0, 2, 0, 0, 0, 0, 4, 0, 0, 0x40, 0, 0,
    0, 1, 0, 0, 0,
];

// Bytes that are put at a place of the disk.
pub(crate) type Edit = (u64, &'static [u8]);

// Edits of the disk that is just made, and what it is refused for then.
struct Damage {
    edits: &'static [Edit],
    due: RecoverFault,
}

const DAMAGES: [Damage; 12] = [
    Damage {
        edits: &[(0, &[0])],
        due: RecoverFault::BadSuper { at: 0 },
    },
    Damage {
        edits: &[(8, &[9])],
        due: RecoverFault::BadSuper { at: 8 },
    },
    Damage {
        edits: &[(12, &[17])],
        due: RecoverFault::BadSuper { at: 12 },
    },
    Damage {
        edits: &[(20, &[15])],
        due: RecoverFault::BadSuper { at: 20 },
    },
    Damage {
        edits: &[(24, &[9])],
        due: RecoverFault::BadSuper { at: 24 },
    },
    Damage {
        edits: &[(16, &[29, 0])],
        due: RecoverFault::BadSuper { at: 16 },
    },
    Damage {
        edits: &[(28, &[1])],
        due: RecoverFault::BadSuper { at: 28 },
    },
    // One inode more than the disk has.
    Damage {
        edits: &[(4_096, &[1]), (4_608, &[65, 0, 0, 0])],
        due: RecoverFault::BadJournal {
            core: 0,
            slot: 0,
            at: 512,
        },
    },
    // Two slots with one commit stamp.
    Damage {
        edits: &[
            (4_096, &[1]),
            (4_608, &[0, 0, 0, 0]),
            (4_616, &[1, 0, 0, 0, 0, 0, 0, 0]),
            (45_056, &[1]),
            (45_568, &[0, 0, 0, 0]),
            (45_576, &[1, 0, 0, 0, 0, 0, 0, 0]),
        ],
        due: RecoverFault::BadJournal {
            core: 1,
            slot: 0,
            at: 520,
        },
    },
    // One number twice.
    Damage {
        edits: &[
            (4_096, &[1]),
            (4_608, &[2, 0, 0, 0]),
            (4_616, &[1, 0, 0, 0, 0, 0, 0, 0]),
            (8_192, &[5, 0, 0, 0, 5, 0, 0, 0]),
        ],
        due: RecoverFault::BadJournal {
            core: 0,
            slot: 0,
            at: 4_100,
        },
    },
    // The first wrong slot of two.
    Damage {
        edits: &[
            (4_096, &[1]),
            (4_608, &[65, 0, 0, 0]),
            (45_056, &[1]),
            (45_568, &[66, 0, 0, 0]),
        ],
        due: RecoverFault::BadJournal {
            core: 0,
            slot: 0,
            at: 512,
        },
    },
    // The superblock comes before the slots.
    Damage {
        edits: &[(28, &[1]), (4_096, &[1]), (4_608, &[65, 0, 0, 0])],
        due: RecoverFault::BadSuper { at: 28 },
    },
];

// Two open slots that have inode 5, and one that has inode 6 too: the greater stamp's record of 5 begins with 8, and that of 6 with 9.
const TWO_SLOTS: [Edit; 8] = [
    (4_096, &[1]),
    (4_608, &[1, 0, 0, 0]),
    (4_616, &[7, 0, 0, 0, 0, 0, 0, 0]),
    (8_192, &[5, 0, 0, 0]),
    (45_056, &[1]),
    (45_568, &[2, 0, 0, 0]),
    (45_576, &[3, 0, 0, 0, 0, 0, 0, 0]),
    (49_152, &[5, 0, 0, 0, 6, 0, 0, 0]),
];

// The disk that is just made, over bytes that are all 255.
fn just_made(rt: &impl Abort, alloc: Global) -> Memory {
    made_with(rt, alloc, &LAYOUT)
}

// The same with another layout.
pub(crate) fn made_with(rt: &impl Abort, alloc: Global, layout: &Layout) -> Memory {
    made_over(rt, alloc, layout, 255)
}

// The same over bytes that are all this one.
pub(crate) fn made_over(rt: &impl Abort, alloc: Global, layout: &Layout, byte: u8) -> Memory {
    holds(rt, layout.blocks <= 1024);
    let Ok(mut disk) = Memory::of(
        alloc,
        got(rt, vec![in alloc; byte; 4096 * layout.blocks as usize]),
    ) else {
        panic!(rt; "no whole number of blocks");
    };
    holds(rt, layout.is_valid(disk.len()));
    same(rt, &mkfs(alloc, &mut disk, layout), &Ok(()));
    disk
}

// A disk of 1,024 blocks of zeros.
fn blank(rt: &impl Abort, alloc: Global) -> Memory {
    got(rt, Memory::new(alloc, 1024))
}

// Makes edits.
pub(crate) fn edit(rt: &impl Abort, disk: &mut Memory, edits: &[Edit]) {
    for (at, bytes) in edits {
        holds(
            rt,
            *at <= 4_190_208 && !bytes.is_empty() && bytes.len() <= 512,
        );
        holds(rt, *at + bytes.len() as u64 <= 4096 * u64::from(disk.len()));
        holds(rt, disk.write_at(*at, bytes).is_ok());
    }
}

// Asserts that a disk was only read since so many calls.
pub(crate) fn assert_only_read(rt: &impl Abort, disk: &Memory, calls: usize) {
    for call in disk.calls().iter().skip(calls) {
        holds(rt, matches!(call.act, Act::Read { .. }));
    }
}

// What is read of the disk.
fn settled(rt: &impl Abort, alloc: Global, disk: &mut Memory) -> Settled {
    let calls = disk.calls().len();
    let read = read_settled(alloc, disk);
    assert_only_read(rt, disk, calls);
    got(rt, read)
}

// Asserts the first byte of an inode's record.
fn assert_first(rt: &impl Abort, settled: &Settled, inode: u64, due: u8) {
    match settled.records.get(inode) {
        Some(record) => same(rt, &record[0], &due),
        None => panic!(rt; "no record"),
    }
}

// The byte at a place.
fn byte_at(rt: &impl Abort, bytes: &[u8], place: usize) -> u8 {
    match bytes.get(place) {
        Some(byte) => *byte,
        None => panic!(rt; "no byte"),
    }
}

#[test]
fn a_disk_that_is_made_has_its_bytes(rt: HostRuntime) {
    let disk = just_made(&rt, rt.alloc());
    let bytes = disk.bytes();
    holds(&rt, bytes.len() == 4_194_304);
    holds(&rt, bytes.starts_with(&FRONT));
    same(&rt, &first_nonzero(bytes, 28, 4_096), &None);
    same(&rt, &(bytes[4_096], bytes[45_056]), &(0, 0));
    same(&rt, &(bytes[86_016], bytes[86_020]), &(2, 2));
    same(&rt, &first_nonzero(bytes, 86_017, 86_020), &None);
    same(&rt, &first_nonzero(bytes, 86_021, 118_784), &None);
    // What stands elsewhere is left.
    same(&rt, &byte_at(&rt, bytes, 4_097), &255);
    same(&rt, &byte_at(&rt, bytes, 118_784), &255);
    same(&rt, &disk.calls().len(), &5);
}

#[test]
fn what_a_disk_that_is_made_settles(rt: HostRuntime) {
    let mut disk = just_made(&rt, rt.alloc());
    let settled = settled(&rt, rt.alloc(), &mut disk);
    same(&rt, &settled.layout, &LAYOUT);
    assert_first(&rt, &settled, 0, 2);
    assert_first(&rt, &settled, 63, 0);
}

#[test]
fn the_greatest_stamp_settles_an_inode(rt: HostRuntime) {
    let mut disk = just_made(&rt, rt.alloc());
    edit(&rt, &mut disk, &TWO_SLOTS);
    edit(
        &rt,
        &mut disk,
        &[(12_288, &[8]), (53_248, &[4]), (53_760, &[9])],
    );
    let both = settled(&rt, rt.alloc(), &mut disk);
    assert_first(&rt, &both, 5, 8);
    assert_first(&rt, &both, 6, 9);
    assert_first(&rt, &both, 0, 2);
    // A gate of 7 is closed.
    edit(&rt, &mut disk, &[(4_096, &[7])]);
    let one = settled(&rt, rt.alloc(), &mut disk);
    assert_first(&rt, &one, 5, 4);
    assert_first(&rt, &one, 6, 9);
}

#[test]
fn the_first_wrong_byte_is_named(rt: HostRuntime) {
    for damage in DAMAGES.iter() {
        let mut disk = just_made(&rt, rt.alloc());
        edit(&rt, &mut disk, damage.edits);
        let calls = disk.calls().len();
        match read_settled(rt.alloc(), &mut disk) {
            Ok(_) => panic!(rt; "taken"),
            Err(fault) => same(&rt, &fault, &damage.due),
        }
        assert_only_read(&rt, &disk, calls);
    }
}

#[test]
fn a_failing_call_is_a_fault(rt: HostRuntime) {
    let alloc = rt.alloc();
    // The superblock, written by call 3, is lost.
    let mut disk = FailAt::new(blank(&rt, alloc), got(&rt, vec![in alloc; 3u64; 1]));
    holds(&rt, LAYOUT.is_valid(disk.len()));
    same(
        &rt,
        &mkfs(alloc, &mut disk, &LAYOUT),
        &Err(MkfsFault::DiskFailed),
    );
    same(&rt, &(disk.now(), disk.faults()), &(4, 1));
    let disk = disk.into_inner();
    same(&rt, &disk.calls().len(), &3);
    same(&rt, &first_nonzero(disk.bytes(), 0, 86_016), &None);
    // All calls but the first two fail.
    let mut disk = Fuse::new(just_made(&rt, alloc), 2);
    let read = read_settled(alloc, &mut disk);
    holds(&rt, matches!(read, Err(RecoverFault::DiskFailed)));
    same(&rt, &disk.faults(), &1);
}
