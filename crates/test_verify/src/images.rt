// Images of 1,024 blocks with 64 inodes and 2 cores. The record of inode i stands at byte
// 86,016 + 512 * i of the disk, block 29, the first of the data area, at 118,784, and each further
// block 4,096 bytes later. A slot of a directory has 264 bytes.
use crate::helpers::{got, holds, same};
use fmt_super::Layout;
use image_check::Certificate;
use recovery::mkfs;
use sfs_dev::{Act, Disk, Memory};
use std::alloc::Global;
use std::process::Abort;

// Bytes that are put at a place of the disk.
pub(crate) type Edit = (u64, &'static [u8]);

const LAYOUT: Layout = Layout {
    blocks: 1024,
    inodes: 64,
    cores: 2,
    slots: 1,
};

// The root has the row `a`, and inode 1 is the directory that it names.
pub(crate) const ONE_DIRECTORY: [Edit; 3] = [
    (
        86_016,
        &[2, 0, 0, 0, 3, 0, 0, 0, 0, 16, 0, 0, 0, 0, 0, 0, 29],
    ),
    (86_528, &[2, 0, 0, 0, 2]),
    (118_784, &[1, 0, 0, 0, 2, 1, 0, 0, b'a']),
];

// Six directories: the root has `p`, `q` and `r`, which are the inodes 1, 2 and 3; `q` has `b`, inode
// 4; and that has `a`, inode 5.
pub(crate) const SIX_DIRECTORIES: [Edit; 11] = [
    (
        86_016,
        &[2, 0, 0, 0, 5, 0, 0, 0, 0, 16, 0, 0, 0, 0, 0, 0, 29],
    ),
    (86_528, &[2, 0, 0, 0, 2]),
    (
        87_040,
        &[2, 0, 0, 0, 3, 0, 0, 0, 0, 16, 0, 0, 0, 0, 0, 0, 30],
    ),
    (87_552, &[2, 0, 0, 0, 2]),
    (
        88_064,
        &[2, 0, 0, 0, 3, 0, 0, 0, 0, 16, 0, 0, 0, 0, 0, 0, 31],
    ),
    (88_576, &[2, 0, 0, 0, 2]),
    (118_784, &[1, 0, 0, 0, 2, 1, 0, 0, b'p']),
    (119_048, &[2, 0, 0, 0, 2, 1, 0, 0, b'q']),
    (119_312, &[3, 0, 0, 0, 2, 1, 0, 0, b'r']),
    (122_880, &[4, 0, 0, 0, 2, 1, 0, 0, b'b']),
    (126_976, &[5, 0, 0, 0, 2, 1, 0, 0, b'a']),
];

// Files beside them: inode 6, of 3 bytes, with two rows in the root; inode 7, of 109 blocks, of which
// the last one is there, block 34, by the indirect block 33; and inode 8, which no row names.
pub(crate) const FILES: [Edit; 8] = [
    (
        89_088,
        &[1, 0, 0, 0, 2, 0, 0, 0, 3, 0, 0, 0, 0, 0, 0, 0, 32],
    ),
    (89_600, &[1, 0, 0, 0, 1, 0, 0, 0, 0, 208, 6]),
    (90_048, &[33]),
    (
        90_112,
        &[1, 0, 0, 0, 0, 0, 0, 0, 3, 0, 0, 0, 0, 0, 0, 0, 35],
    ),
    (119_576, &[6, 0, 0, 0, 1, 1, 0, 0, b'f']),
    (119_840, &[6, 0, 0, 0, 1, 1, 0, 0, b'g']),
    (120_104, &[7, 0, 0, 0, 1, 1, 0, 0, b'h']),
    (135_168, &[34]),
];

// An entry on a directory: its inode, its holder and its depth.
pub(crate) type Place = (u32, u32, u32);

// An entry on a block: its number, and the inode that holds it.
pub(crate) type Owned = (u32, u32);

// Where the six directories lie.
pub(crate) const PLACES: [Place; 5] = [(1, 0, 1), (2, 0, 1), (3, 0, 1), (4, 2, 2), (5, 4, 3)];

// Who holds blocks of them and of the files.
pub(crate) const OWNERS: [Owned; 7] = [
    (29, 0),
    (30, 2),
    (31, 4),
    (32, 6),
    (33, 7),
    (34, 7),
    (35, 8),
];

// Makes edits.
pub(crate) fn edit(rt: &impl Abort, disk: &mut Memory, edits: &[Edit]) {
    for (at, bytes) in edits {
        holds(
            rt,
            *at <= 4_190_208 && !bytes.is_empty() && bytes.len() <= 512,
        );
        holds(rt, *at + bytes.len() as u64 <= 4096 * u64::from(disk.len()));
        holds(rt, disk.write_at(*at, bytes).is_ok());
    }
}

// The disk that is just made.
pub(crate) fn made(rt: &impl Abort, alloc: Global) -> Memory {
    made_with(rt, alloc, &LAYOUT)
}

// The same with any layout.
fn made_with(rt: &impl Abort, alloc: Global, layout: &Layout) -> Memory {
    holds(rt, layout.blocks <= 1024);
    let mut disk = got(rt, Memory::new(alloc, layout.blocks));
    holds(rt, layout.is_valid(disk.len()));
    same(rt, &mkfs(alloc, &mut disk, layout), &Ok(()));
    disk
}

// The same after edits.
pub(crate) fn edited(rt: &impl Abort, alloc: Global, edits: &[Edit]) -> Memory {
    let mut disk = made(rt, alloc);
    edit(rt, &mut disk, edits);
    disk
}

// The disk with the six directories and the files.
pub(crate) fn full(rt: &impl Abort, alloc: Global) -> Memory {
    let mut disk = edited(rt, alloc, &SIX_DIRECTORIES);
    edit(rt, &mut disk, &FILES);
    disk
}

// Asserts that a disk was only read since so many calls.
pub(crate) fn assert_only_read(rt: &impl Abort, disk: &Memory, calls: usize) {
    for call in disk.calls().iter().skip(calls) {
        holds(rt, matches!(call.act, Act::Read { .. }));
    }
}

// Asserts what a certificate tells.
pub(crate) fn assert_tells(
    rt: &impl Abort,
    cert: &Certificate,
    places: &[Place],
    owners: &[Owned],
    files: u32,
) {
    let told = cert.holders.as_slice();
    same(rt, &told.len(), &places.len());
    for (entry, due) in told.iter().zip(places) {
        same(rt, &(entry.inode, entry.holder, entry.depth), due);
    }
    let told = cert.owners.as_slice();
    same(rt, &told.len(), &owners.len());
    for (entry, due) in told.iter().zip(owners) {
        same(rt, &(entry.block, entry.inode), due);
    }
    same(rt, &cert.files, &files);
}
