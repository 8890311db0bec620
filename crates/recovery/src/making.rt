// A disk is made by closing each slot, writing the inode table with the root in it, and then the
// superblock; a sync ends it. A crash before that may leave any of this.
ghost use Rattle.std.specs.Prelude.{◌≡◌, ◌≤◌, OnOk, IfOk, IsErrOf};
ghost use Rattle.sfs_dev.specs.Run.{Advances};
ghost use Rattle.sfs_dev.specs.Steps.{IfTold};
ghost use Rattle.sfs_image.specs.Settled.{slot_count};
ghost use Rattle.sfs_image.specs.Super.{InRange, IsLayout};
ghost use Rattle.recovery.specs.Cause.{HasMkfsCause, Ran};
ghost use Rattle.recovery.specs.Mkfs.{IsMadeOn, ShutBelow, empty_table};

use crate::fault::MkfsFault;
use crate::places::{slot_byte, slot_count, table_byte};
use fmt_inode::Inode;
use fmt_super::Layout;
use sfs_base::{Failed, NoMemory};
use sfs_dev::Disk;
use std::alloc::Global;

/// The inode of an empty directory.
const EMPTY_DIRECTORY: Inode = Inode {
    kind: 2,
    links: 2,
    size: 0,
    direct: [0; 108],
    indirect: [0; 16],
};

/// Makes an empty image of this layout, which the disk can have: every journal slot closed, inode 0 the
/// root without rows, every other inode free. After Ok nothing is pending. The blocks of the data area
/// are left as they are. It takes memory for the inode table, 512 bytes an inode, before the disk is
/// touched.
pub fn mkfs<D: Disk>(alloc: Global, disk: &mut D, layout: &Layout) -> Result<(), MkfsFault>
    requires layout { IsLayout (D.view disk.old).size layout.now }
    ensures made { OnOk result (IsMadeOn layout.now (D.view disk.new)) }
    ensures advances { Advances (D.view disk.old) (D.view disk.new) }
    ensures cause { HasMkfsCause (D.view disk.old).faults (D.view disk.new).faults result }
    ensures untouched { IsErrOf result MkfsFault.NoMemory → disk.new ≡ disk.old }
{
    let Ok(table) = new_table(alloc, layout) else {
        return Err(MkfsFault::NoMemory);
    };
    match write_image(disk, layout, &table) {
        Ok(()) => Ok(()),
        Err(Failed) => Err(MkfsFault::DiskFailed),
    }
}

// The inode table: the root, and free inodes.
fn new_table(alloc: Global, layout: &Layout) -> Result<Vec<u8>, NoMemory>
    requires { InRange layout.now }
    ensures { IfOk result (λ table. table.items ≡ empty_table layout.now) }
{
    let mut root = [0u8; 512];
    fmt_inode::encode(&EMPTY_DIRECTORY, &mut root);
    let blocks = layout.inodes.div_ceil(8);
    let mut table = Vec::from_slice(alloc, &root)?;
    table.resize(4096 * blocks as usize, 0)?;
    Ok(table)
}

// Writes the gates, this inode table and the superblock.
fn write_image<D: Disk>(disk: &mut D, layout: &Layout, table: &[u8]) -> Result<(), Failed>
    requires layout { IsLayout (D.view disk.old).size layout.now }
    requires table { table.now ≡ empty_table layout.now }
    ensures made { OnOk result (IsMadeOn layout.now (D.view disk.new)) }
    ensures ran { Ran (D.view disk.old) (D.view disk.new) result }
{
    close_gates(disk, layout)?;
    disk.write_at(table_byte(layout), table)?;
    let mut block = [0u8; 4096];
    fmt_super::encode(layout, &mut block);
    disk.write_at(0, &block)?;
    disk.sync()?;
    Ok(())
}

// Closes the gate of each journal slot.
fn close_gates<D: Disk>(disk: &mut D, layout: &Layout) -> Result<(), Failed>
    requires layout { IsLayout (D.view disk.old).size layout.now }
    ensures shut { OnOk result (IfTold (D.view disk.new).content (ShutBelow layout.now (slot_count layout.now))) }
    ensures ran { Ran (D.view disk.old) (D.view disk.new) result }
{
    for number in 0..slot_count(layout) {
        disk.write_at(slot_byte(layout, number), &[0])?;
    }
    Ok(())
}
