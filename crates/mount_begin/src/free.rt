// Which blocks and inodes of a disk are free.
ghost use Rattle.std.specs.Prelude.{◌≡◌, map, IfOk};
ghost use Rattle.sfs_image.specs.Super.{InRange};
ghost use Rattle.disk_change.specs.GivenUp.{entry_number};
ghost use Rattle.mount_begin.specs.Mounted.{IsFreeSpace};

use disk_change::held_blocks;
use disk_nodes::{OldDisk, OldEntry};
use fmt_super::Layout;
use sfs_base::NoMemory;
use space_map::SpaceMap;
use std::alloc::Global;

/// The blocks of the data area that no node holds, and the inodes that none has.
pub fn free_space(alloc: Global, layout: &Layout, old: &OldDisk) -> Result<SpaceMap, NoMemory>
    requires { InRange layout.now }
    ensures { IfOk result (IsFreeSpace layout.now old.now.items) }
{
    let held = held_blocks(alloc, old)?;
    let used = inodes_of(alloc, old.as_slice())?;
    let space = SpaceMap::new(
        alloc,
        layout.data_at(),
        layout.blocks,
        layout.inodes,
        held.as_slice(),
        &used,
    )?;
    Ok(space)
}

// The inodes of entries.
fn inodes_of(alloc: Global, entries: &[OldEntry]) -> Result<Vec<u32>, NoMemory>
    ensures { IfOk result (λ inodes. inodes.items ≡ map entry_number entries.now) }
{
    let mut inodes = Vec::with_capacity(alloc, entries.len())?;
    for entry in entries {
        inodes.push(entry.old.inode)?;
    }
    Ok(inodes)
}
