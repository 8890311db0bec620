// Disks that tests begin with. The root has a file for each of the inodes 1 to 4, named `a` to `d` and empty; its rows lie in the first block
// of the data area. Nothing is pending, and no device call was made.
ghost use Rattle.std.specs.Prelude.{◌≡◌, Some};

use crate::helpers::{got, holds, same};
use driven_journals::Ended;
use fmt_super::Layout;
use recovery::mkfs;
use sfs_dev::{Act, Disk, Memory};
use std::alloc::Global;
use std::process::Abort;

// Writes bytes at a place.
fn put(rt: &impl Abort, disk: &mut Memory, at: u64, bytes: &[u8]) {
    holds(
        rt,
        at <= 4_190_208 && !bytes.is_empty() && bytes.len() <= 512,
    );
    holds(rt, at + bytes.len() as u64 <= 4096 * u64::from(disk.len()));
    holds(rt, disk.write_at(at, bytes).is_ok());
}

// The rows of the four files.
static ROWS: [(u64, [u8; 9]); 4] = [
    (0, [1, 0, 0, 0, 1, 1, 0, 0, b'a']),
    (264, [2, 0, 0, 0, 1, 1, 0, 0, b'b']),
    (528, [3, 0, 0, 0, 1, 1, 0, 0, b'c']),
    (792, [4, 0, 0, 0, 1, 1, 0, 0, b'd']),
];

/// The disk with this layout.
pub(crate) fn base(rt: &impl Abort, alloc: Global, layout: Layout) -> Memory {
    holds(rt, layout.blocks <= 1024 && layout.is_valid(layout.blocks));
    let mut disk = got(rt, Memory::new(alloc, layout.blocks));
    holds(rt, layout.is_valid(disk.len()));
    same(rt, &mkfs(alloc, &mut disk, &layout), &Ok(()));
    let data = layout.data_at();
    let table = layout.table_at();
    holds(rt, data < 1024 && table < 1024);
    for (at, row) in ROWS.iter() {
        holds(rt, *at < 4096);
        put(rt, &mut disk, 4096 * u64::from(data) + at, row);
    }
    let mut root = [0u8; 20];
    root[0] = 2;
    root[4] = 2;
    root[9] = 16;
    root[16..20].copy_from_slice(&data.to_le_bytes());
    put(rt, &mut disk, 4096 * u64::from(table), &root);
    for inode in 1..5u64 {
        put(
            rt,
            &mut disk,
            4096 * u64::from(table) + 512 * inode,
            &[1, 0, 0, 0, 1],
        );
    }
    holds(rt, disk.sync().is_ok());
    got(rt, disk.left(alloc, u64::MAX, 0))
}

/// The writes of one byte, which are those of gates: where, and which byte.
pub(crate) fn gates_in(rt: &impl Abort, alloc: Global, disk: &Memory) -> Vec<(u64, u8)> {
    let mut gates = got(rt, Vec::with_capacity(alloc, 16));
    let mut written = 0usize;
    for call in disk.calls() {
        if let Act::Write { at, count } = call.act {
            if count == 1 {
                match disk.written().get(written) {
                    Some(byte) => got(rt, gates.push((at, *byte))),
                    None => panic!(rt; "no byte"),
                }
            }
            written = written.saturating_add(count as usize);
        }
    }
    gates
}

/// How many syncs there were.
pub(crate) fn syncs_in(disk: &Memory) -> usize {
    disk.calls()
        .iter()
        .filter(|call| matches!(call.act, Act::Sync))
        .count()
}

/// What is left of cores, all of which have ended.
pub(crate) fn ended<D: Disk + Drop>(rt: &impl Abort, end: Option<Ended<D>>) -> Ended<D>
    ensures { end ≡ Some result }
{
    match end {
        Some(ended) => ended,
        None => panic!(rt; "not ended"),
    }
}
