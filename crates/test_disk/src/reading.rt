// Trees read from an image of 1,024 blocks with 64 inodes and 2 cores. The record of inode i stands
// at byte 86,016 + 512 * i of the disk, and block 29, the first of the data area, at 118,784.
ghost use Rattle.std.specs.Prelude.{IfOk};
ghost use Rattle.tree_laws.specs.Sound.{IsSound};

use crate::helpers::{got, holds, same};
use crate::making::{Edit, assert_only_read, edit, made_over};
use dev_fake::Fuse;
use disk_tree::{Found, TreeFault, read_tree};
use fmt_super::Layout;
use recovery::read_settled;
use sfs_base::{Kind, Name, NodeId};
use sfs_dev::{Disk, Memory};
use sfs_image::first_nonzero;
use std::alloc::Global;
use std::process::Abort;

mod damaged;
mod full;

// What stands of an inode: its number, its kind, its link count, its size, and how many blocks of
// slots are kept of it.
type Kept = (u32, u8, u32, u64, u64);

// Inode 0 is a directory with the row `a` in block 29, and inode 1 is the directory that it names.
pub(crate) const ONE_DIRECTORY: [Edit; 3] = [
    (
        86_016,
        &[2, 0, 0, 0, 3, 0, 0, 0, 0, 16, 0, 0, 0, 0, 0, 0, 29],
    ),
    (86_528, &[2, 0, 0, 0, 2]),
    (118_784, &[1, 0, 0, 0, 2, 1, 0, 0, b'a']),
];

// The disk that is just made with so many inodes, over zeros.
pub(crate) fn made(rt: &impl Abort, alloc: Global, inodes: u32) -> Memory {
    made_over(
        rt,
        alloc,
        &Layout {
            blocks: 1024,
            inodes,
            cores: 2,
            slots: 1,
        },
        0,
    )
}

// The disk with one directory, after edits.
pub(crate) fn edited(rt: &impl Abort, alloc: Global, edits: &[Edit]) -> Memory {
    let mut disk = made(rt, alloc, 64);
    edit(rt, &mut disk, &ONE_DIRECTORY);
    edit(rt, &mut disk, edits);
    disk
}

// What reading the tree answers; the disk is read alone.
pub(crate) fn read(rt: &impl Abort, alloc: Global, disk: &mut Memory) -> Result<Found, TreeFault>
    ensures { IfOk result (λ found. IsSound found.tree) }
{
    let settled = got(rt, read_settled(alloc, disk));
    holds(rt, settled.layout.is_valid(disk.len()));
    holds(
        rt,
        settled.records.len() == u64::from(settled.layout.inodes),
    );
    let calls = disk.calls().len();
    let found = read_tree(alloc, disk, &settled.layout, &settled.records);
    assert_only_read(rt, disk, calls);
    found
}

// What is found on the disk.
pub(crate) fn found(rt: &impl Abort, alloc: Global, disk: &mut Memory) -> Found
    ensures { IsSound result.tree }
{
    got(rt, read(rt, alloc, disk))
}

// Asserts how many links and how many rows a directory has.
fn assert_directory(rt: &impl Abort, found: &Found, node: u32, due: (u32, u32)) {
    let node = NodeId(node);
    same(rt, &found.tree.kind(node), &Some(Kind::Directory));
    same(
        rt,
        &(found.tree.links(node), found.tree.row_count(node)),
        &due,
    );
}

// Asserts which node a name of the root stands for.
fn assert_child(rt: &impl Abort, alloc: Global, found: &Found, name: &[u8], due: Option<NodeId>) {
    let name = got(rt, Name::new(alloc, name));
    same(rt, &found.tree.child(NodeId(0), &name), &due);
}

// Asserts that the root has one row, `a`, which names the empty directory of inode 1.
fn assert_one_directory(rt: &impl Abort, alloc: Global, found: &Found) {
    assert_directory(rt, found, 0, (3, 1));
    assert_directory(rt, found, 1, (2, 0));
    assert_child(rt, alloc, found, b"a", Some(NodeId(1)));
}

// Asserts what is kept of the inodes in use.
fn assert_kept(rt: &impl Abort, found: &Found, due: &[Kept]) {
    same(rt, &found.parts.len(), &(due.len() as u64));
    for (part, due) in found.parts.as_slice().iter().zip(due) {
        let kept = (
            part.inode,
            part.meta.kind,
            part.meta.links,
            part.meta.size,
            part.slots.len(),
        );
        same(rt, &kept, due);
    }
}

#[test]
fn a_disk_that_is_just_made_has_its_root_alone(rt: HostRuntime) {
    let mut disk = made(&rt, rt.alloc(), 64);
    let found = found(&rt, rt.alloc(), &mut disk);
    assert_directory(&rt, &found, 0, (2, 0));
    assert_kept(&rt, &found, &[(0, 2, 2, 0, 0)]);
}

#[test]
fn a_directory_is_a_row_of_the_root(rt: HostRuntime) {
    let mut disk = edited(&rt, rt.alloc(), &[]);
    let found = found(&rt, rt.alloc(), &mut disk);
    assert_one_directory(&rt, rt.alloc(), &found);
    assert_kept(&rt, &found, &[(0, 2, 3, 4096, 1), (1, 2, 2, 0, 0)]);
}

// A file `f` of 8,195 bytes in inode 2, with the blocks 30 and 32 and a hole between them.
const WITH_HOLE: [Edit; 4] = [
    (
        87_040,
        &[
            1, 0, 0, 0, 1, 0, 0, 0, 3, 32, 0, 0, 0, 0, 0, 0, 30, 0, 0, 0, 0, 0, 0, 0, 32,
        ],
    ),
    (119_048, &[2, 0, 0, 0, 1, 1, 0, 0, b'f']),
    (122_880, b"xy"),
    (131_072, b"uvw"),
];

#[test]
fn a_hole_reads_as_zeros(rt: HostRuntime) {
    let mut disk = edited(&rt, rt.alloc(), &WITH_HOLE);
    let found = found(&rt, rt.alloc(), &mut disk);
    assert_directory(&rt, &found, 0, (3, 2));
    assert_child(&rt, rt.alloc(), &found, b"f", Some(NodeId(2)));
    same(&rt, &found.tree.links(NodeId(2)), &1);
    holds(&rt, found.tree.kind(NodeId(2)).is_some());
    let bytes = found.tree.bytes(NodeId(2));
    holds(&rt, bytes.len() == 8195);
    holds(&rt, bytes.starts_with(b"xy"));
    holds(&rt, bytes.ends_with(b"uvw"));
    holds(&rt, bytes[2..8192].iter().all(|byte| *byte == 0));
}

// A file `f` of 109 blocks in inode 2, of which the last one is there: block 33, by the indirect
// block 32.
const WITH_TABLE: [Edit; 5] = [
    (87_040, &[1, 0, 0, 0, 1, 0, 0, 0, 0, 208, 6]),
    (87_488, &[32]),
    (119_048, &[2, 0, 0, 0, 1, 1, 0, 0, b'f']),
    (131_072, &[33]),
    (139_263, &[7]),
];

#[test]
fn an_indirect_block_has_the_pointers_past_the_first(rt: HostRuntime) {
    let mut disk = edited(&rt, rt.alloc(), &WITH_TABLE);
    let found = found(&rt, rt.alloc(), &mut disk);
    holds(&rt, found.tree.kind(NodeId(2)).is_some());
    let bytes = found.tree.bytes(NodeId(2));
    holds(&rt, bytes.len() == 446_464);
    same(&rt, &first_nonzero(bytes, 0, 446_464), &Some(446_463));
    holds(&rt, bytes.ends_with(&[0, 7]));
}

// The root has three blocks: 29, a hole, and block 30, which has zeros.
const EMPTY_BLOCKS: [Edit; 2] = [(86_025, &[48]), (86_040, &[30])];

#[test]
fn empty_blocks_at_a_directorys_end_are_taken(rt: HostRuntime) {
    let mut disk = edited(&rt, rt.alloc(), &EMPTY_BLOCKS);
    let found = found(&rt, rt.alloc(), &mut disk);
    assert_one_directory(&rt, rt.alloc(), &found);
    assert_kept(&rt, &found, &[(0, 2, 3, 12_288, 3), (1, 2, 2, 0, 0)]);
}

// A file of link count 0 and 3 bytes in inode 5, which no row names.
const ORPHAN: [Edit; 1] = [(
    88_576,
    &[1, 0, 0, 0, 0, 0, 0, 0, 3, 0, 0, 0, 0, 0, 0, 0, 30],
)];

#[test]
fn an_orphan_is_kept_and_is_no_node(rt: HostRuntime) {
    let mut disk = edited(&rt, rt.alloc(), &ORPHAN);
    let found = found(&rt, rt.alloc(), &mut disk);
    assert_one_directory(&rt, rt.alloc(), &found);
    assert_kept(
        &rt,
        &found,
        &[(0, 2, 3, 4096, 1), (1, 2, 2, 0, 0), (5, 1, 0, 3, 0)],
    );
    holds(&rt, found.tree.kind(NodeId(5)).is_none());
}

// With 17 inodes the inode table begins at block 11 and the data area at block 14: the root has a row
// `z`, and inode 16 is the directory that it names.
const LAST_OF_SEVENTEEN: [Edit; 3] = [
    (
        45_056,
        &[2, 0, 0, 0, 3, 0, 0, 0, 0, 16, 0, 0, 0, 0, 0, 0, 14],
    ),
    (53_248, &[2, 0, 0, 0, 2]),
    (57_344, &[16, 0, 0, 0, 2, 1, 0, 0, b'z']),
];

#[test]
fn the_last_of_seventeen_inodes_is_named(rt: HostRuntime) {
    let mut disk = made(&rt, rt.alloc(), 17);
    edit(&rt, &mut disk, &LAST_OF_SEVENTEEN);
    let found = found(&rt, rt.alloc(), &mut disk);
    assert_child(&rt, rt.alloc(), &found, b"z", Some(NodeId(16)));
    edit(&rt, &mut disk, &[(57_344, &[17])]);
    match read(&rt, rt.alloc(), &mut disk) {
        Ok(_) => panic!(rt; "taken"),
        Err(fault) => same(&rt, &fault, &TreeFault::BadImage { inode: 0, rule: 10 }),
    }
}

#[test]
fn a_failing_read_is_a_fault(rt: HostRuntime) {
    let alloc = rt.alloc();
    let mut disk = edited(&rt, alloc, &[]);
    let settled = got(&rt, read_settled(alloc, &mut disk));
    let mut disk = Fuse::new(disk, 0);
    holds(&rt, settled.layout.is_valid(disk.len()));
    holds(
        &rt,
        settled.records.len() == u64::from(settled.layout.inodes),
    );
    let found = read_tree(alloc, &mut disk, &settled.layout, &settled.records);
    holds(&rt, matches!(found, Err(TreeFault::DiskFailed)));
    same(&rt, &disk.faults(), &1);
}
