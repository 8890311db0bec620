// Disks that are mounted, with what is flushed on them.
ghost use Rattle.std.specs.Prelude.{IfSome};
ghost use Rattle.tree_laws.specs.Step.{IsReadable};
ghost use Rattle.bench_fsync.specs.Mounted.{IsMounted};

use crate::calls::{is_done, node_of};
use crate::cases::{Case, plain_name, row_name};
use fmt_super::Layout;
use mount::{Mounted, mount, unmount};
use recovery::mkfs;
use sfs_base::{Chunk, Kind, NodeId};
use sfs_dev::{Disk, Memory};
use std::alloc::Global;
use std::sync::Wait;
use tree_laws::Call;

/// The root.
pub(crate) const ROOT: NodeId = NodeId(0);

// How a disk is divided.
const LAYOUT: Layout = Layout {
    blocks: 16_384,
    inodes: 1024,
    cores: 2,
    slots: 1,
};

// How many new nodes may be made on a mounted disk, both cores together.
const NODES: u32 = 65_536;

// How many blocks are written by one call.
const BLOCKS_AT_ONCE: u32 = 16;

// Makes an empty image on a disk, and says whether that went well.
fn is_made<D: Disk>(alloc: Global, disk: &mut D) -> bool {
    LAYOUT.is_valid(disk.len()) && mkfs(alloc, disk, &LAYOUT).is_ok()
}

// A disk with an empty image.
fn image(alloc: Global) -> Option<Memory> {
    let mut disk = Memory::new(alloc, LAYOUT.blocks).ok()?;
    if is_made(alloc, &mut disk) {
        disk.left(alloc, u64::MAX, 0).ok()
    } else {
        None
    }
}

/// What a copy of a disk is mounted as.
pub(crate) fn mounted_copy(alloc: Global, disk: &Memory) -> Option<Mounted<Memory>>
    ensures { IfSome result IsMounted }
{
    let copy = disk.left(alloc, u64::MAX, 0).ok()?;
    mount(alloc, copy, NODES).ok()
}

/// The call that makes a node in a directory.
pub(crate) fn making(alloc: Global, dir: NodeId, name: &str, kind: Kind) -> Option<Call>
    ensures { IfSome result IsReadable }
{
    let name = plain_name(alloc, name)?;
    Some(Call::Make { dir, name, kind })
}

/// The call that writes a block of a file again and again, so many times, with this byte.
pub(crate) fn writing(alloc: Global, file: NodeId, block: u32, count: u32, byte: u8) -> Option<Call>
    ensures { IfSome result IsReadable }
{
    let bytes = vec![in alloc; byte; 4096 * count as usize].ok()?;
    let bytes = Chunk::new(bytes).ok()?;
    let at = 4096 * u64::from(block);
    Some(Call::Write { file, at, bytes })
}

// Makes the rows of a directory, all of which name one file.
fn are_linked<R: Wait>(
    rt: &R,
    alloc: Global,
    mounted: &mut Mounted<Memory>,
    file: NodeId,
    dir: NodeId,
    rows: u32,
) -> bool
    requires { IsMounted mounted.old }
    ensures { IsMounted mounted.new }
{
    let mut done = true;
    for row in 0..rows {
        match row_name(alloc, row, 0) {
            Some(name) => {
                let asked = Call::Link { file, dir, name };
                done = is_done(rt, alloc, mounted, 0, asked) && done;
            }
            None => done = false,
        }
    }
    done
}

// Writes the blocks of a file.
fn are_written<R: Wait>(
    rt: &R,
    alloc: Global,
    mounted: &mut Mounted<Memory>,
    file: NodeId,
    blocks: u32,
) -> bool
    requires { IsMounted mounted.old }
    ensures { IsMounted mounted.new }
{
    let mut done = true;
    for part in 0..blocks / BLOCKS_AT_ONCE {
        match writing(alloc, file, BLOCKS_AT_ONCE * part, BLOCKS_AT_ONCE, 1) {
            Some(asked) => done = is_done(rt, alloc, mounted, 0, asked) && done,
            None => done = false,
        }
    }
    done
}

// Makes the file `f`, the directory `d` with rows that name it, and the directory `e`, and flushes all.
fn is_filled<R: Wait>(
    rt: &R,
    alloc: Global,
    mounted: &mut Mounted<Memory>,
    case: Case,
) -> Option<bool>
    requires { IsMounted mounted.old }
    ensures { IsMounted mounted.new }
{
    let file = node_of(rt, alloc, mounted, 0, making(alloc, ROOT, "f", Kind::File)?)?;
    let dir = node_of(
        rt,
        alloc,
        mounted,
        0,
        making(alloc, ROOT, "d", Kind::Directory)?,
    )?;
    let _ = node_of(
        rt,
        alloc,
        mounted,
        0,
        making(alloc, ROOT, "e", Kind::Directory)?,
    )?;
    let linked = are_linked(rt, alloc, mounted, file, dir, case.rows());
    let written = are_written(rt, alloc, mounted, file, case.blocks());
    let mut done = linked && written;
    for node in [ROOT, dir, file] {
        done = is_done(rt, alloc, mounted, 0, Call::Fsync { node }) && done;
    }
    Some(done)
}

/// A disk with what a case flushes.
pub(crate) fn begun<R: Wait>(rt: &R, alloc: Global, case: Case) -> Option<Memory> {
    let mut mounted = mounted_copy(alloc, &image(alloc)?)?;
    let done = is_filled(rt, alloc, &mut mounted, case)?;
    let Mounted { volume, workers } = mounted;
    let (disk, _, _) = unmount(volume, workers);
    if done {
        disk.left(alloc, u64::MAX, 0).ok()
    } else {
        None
    }
}
