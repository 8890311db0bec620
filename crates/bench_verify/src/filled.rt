// A disk with an image of 1 GiB whose 16,384 inodes are all in use: each directory has 15 rows in its
// one block, and inode i names the inodes from 15 i + 1 on. The first 1,093 are directories, the others
// files of so many blocks, of the last of which three bytes are used. All their bytes are zero.
ghost use Rattle.std.specs.Prelude.{◌<◌, ◌≤◌};

use byteorder::{ByteOrder, LittleEndian};
use fmt_super::Layout;
use recovery::mkfs;
use sfs_base::Failed;
use sfs_dev::Disk;
use std::alloc::Global;

/// How the disk is divided.
pub const LAYOUT: Layout = Layout {
    blocks: 262_144,
    inodes: 16_384,
    cores: 2,
    slots: 1,
};

// How many of the inodes are directories.
const DIRECTORIES: u32 = 1093;

/// How large each file is.
#[derive(Clone, Copy)]
pub enum FileSize {
    OneBlock,
    /// As many blocks as have their place in all files.
    SixteenBlocks,
}

impl FileSize {
    /// How many blocks that are.
    pub fn blocks(self) -> u32
        ensures some { 0 < result }
        ensures few { result ≤ 16 }
    {
        match self {
            FileSize::OneBlock => 1,
            FileSize::SixteenBlocks => 16,
        }
    }
}

/// Makes an image with all inodes in use, and files of this size.
pub fn fill<D: Disk>(alloc: Global, disk: &mut D, size: FileSize) -> Result<(), Failed> {
    let blocks = size.blocks();
    if !LAYOUT.is_valid(disk.len()) || mkfs(alloc, disk, &LAYOUT).is_err() {
        return Err(Failed);
    }
    let table = 4096 * u64::from(LAYOUT.table_at());
    let data = LAYOUT.data_at();
    if data > 200_000 {
        return Err(Failed);
    }
    for inode in 0..16_384u32 {
        let at = table + 512 * u64::from(inode);
        if inode < DIRECTORIES {
            put(disk, at, &directory(inode, data + inode))?;
        } else {
            let first = data + DIRECTORIES + (inode - DIRECTORIES) * blocks;
            put(disk, at, &file(first, blocks))?;
        }
    }
    for inode in 0..DIRECTORIES {
        put(disk, 4096 * u64::from(data + inode), &rows(inode))?;
    }
    disk.sync()
}

// The record of a directory, which has one block.
fn directory(inode: u32, block: u32) -> [u8; 512]
    requires { inode < 1093 }
{
    let mut bytes = [0u8; 512];
    bytes[0] = 2;
    LittleEndian::write_u32(&mut bytes[4..8], 2 + directories_below(inode));
    LittleEndian::write_u32(&mut bytes[8..12], 4096);
    LittleEndian::write_u32(&mut bytes[16..20], block);
    bytes
}

// The record of a file with so many blocks.
fn file(first: u32, blocks: u32) -> [u8; 512]
    requires first { first ≤ 500000 }
    requires some { 0 < blocks }
    requires few { blocks ≤ 16 }
{
    let mut bytes = [0u8; 512];
    bytes[0] = 1;
    bytes[4] = 1;
    LittleEndian::write_u32(&mut bytes[8..12], 4096 * (blocks - 1) + 3);
    for k in 0..blocks {
        let at = 16 + 4 * k as usize;
        LittleEndian::write_u32(&mut bytes[at..at + 4], first + k);
    }
    bytes
}

// How many rows of a directory name directories.
fn directories_below(inode: u32) -> u32
    requires { inode < 1093 }
    ensures { result ≤ 15 }
{
    DIRECTORIES.saturating_sub(15 * inode + 1).min(15)
}

// The block of a directory.
fn rows(inode: u32) -> [u8; 4096]
    requires { inode < 1093 }
{
    let mut block = [0u8; 4096];
    for k in 0..15u8 {
        let child = 15 * inode + 1 + u32::from(k);
        if child < 16_384 {
            let at = 264 * k as usize;
            LittleEndian::write_u32(&mut block[at..at + 4], child);
            block[at + 4] = if child < DIRECTORIES { 2 } else { 1 };
            block[at + 5] = 1;
            block[at + 8] = b'a' + k;
        }
    }
    block
}

// Writes bytes that lie on the disk.
fn put<D: Disk>(disk: &mut D, at: u64, bytes: &[u8]) -> Result<(), Failed> {
    let len = 4096 * u64::from(disk.len());
    if bytes.is_empty() || bytes.len() as u64 > len || at > len - bytes.len() as u64 {
        return Err(Failed);
    }
    disk.write_at(at, bytes)
}
