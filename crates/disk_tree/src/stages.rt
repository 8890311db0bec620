// The indirect blocks of all inodes, and the rules on pointers: rules 4 to 7.
ghost use Rattle.std.specs.Prelude.{◌≡◌, length, map, All, IfOk, IfErr};
ghost use Rattle.sfs_image.specs.Inode.{IsInode, inode_of};
ghost use Rattle.sfs_image.specs.Super.{IsLayout};
ghost use Rattle.disk_tree.specs.Blocks.{ReadWell};
ghost use Rattle.sfs_dev.specs.Run.{OnlyReads};
ghost use Rattle.disk_tree.specs.Cause.{is_tree_disk_fault};
ghost use Rattle.disk_tree.specs.Gathered.{KeepPointerRules};
ghost use Rattle.disk_tree.specs.Inodes.{KeepRecordRules};
ghost use Rattle.disk_tree.specs.Judged.{IsReadRefusal, Refused};

use crate::TreeFault;
use crate::apart::first_that_shares;
use crate::blocks::{first_of_bad_tail, gather_slots};
use crate::contents::{Content, gather_contents};
use crate::pointers::gather_tables;
use fmt_inode::{Inode, Records, Tables};
use fmt_slots::SlotList;
use fmt_super::Layout;
use sfs_dev::Disk;
use std::alloc::Global;

/// The indirect blocks of all inodes, where none of these breaks one of the rules on pointers.
pub fn tables_of<D: Disk>(
    alloc: Global,
    disk: &mut D,
    layout: &Layout,
    records: &Records,
    inodes: &[Inode],
) -> Result<Vec<Tables>, TreeFault>
    requires layout { IsLayout (D.view disk.old).size layout.now }
    requires count { length records.now.items ≡ layout.now.inodes }
    requires inodes { inodes.now ≡ map inode_of records.now.items }
    requires fit { All IsInode inodes.now }
    requires keep { KeepRecordRules layout.now records.now.items }
    ensures count { IfOk result (λ tables. length tables.items ≡ layout.now.inodes) }
    ensures keep { IfOk result (λ tables. KeepPointerRules (D.view disk.old).content layout.now records.now.items tables.items) }
    ensures bad { IfErr result (IsReadRefusal (Refused (D.view disk.old).content layout.now records.now.items)) }
    ensures reads { OnlyReads is_tree_disk_fault (D.view disk.old) (D.view disk.new) result }
{
    let _ = records.len();
    let tables = match gather_tables(alloc, disk, layout, inodes) {
        Ok(tables) => tables,
        Err(fault) => return Err(fault),
    };
    if let Some(inode) = first_that_shares(alloc, layout.blocks, inodes, &tables)? {
        return Err(TreeFault::BadImage { inode, rule: 5 });
    }
    Ok(tables)
}

/// The bytes of all inodes and the slots of the directories, where no inode breaks one of the rules
/// on bytes.
pub fn bytes_of<D: Disk>(
    alloc: Global,
    disk: &mut D,
    layout: &Layout,
    records: &Records,
    inodes: &[Inode],
    tables: &[Tables],
) -> Result<(Vec<Content>, Vec<SlotList>), TreeFault>
    requires layout { IsLayout (D.view disk.old).size layout.now }
    requires counts { (length records.now.items ≡ layout.now.inodes) × (length tables.now ≡ layout.now.inodes) }
    requires inodes { inodes.now ≡ map inode_of records.now.items }
    requires fit { All IsInode inodes.now }
    requires records { KeepRecordRules layout.now records.now.items }
    requires keep { KeepPointerRules (D.view disk.old).content layout.now records.now.items tables.now }
    ensures ok { IfOk result (λ read. ReadWell (D.view disk.old).content layout.now records.now.items inodes.now tables.now read.0.items read.1.items) }
    ensures bad { IfErr result (IsReadRefusal (Refused (D.view disk.old).content layout.now records.now.items)) }
    ensures reads { OnlyReads is_tree_disk_fault (D.view disk.old) (D.view disk.new) result }
{
    let _ = (records.len(), layout.inodes);
    let contents = gather_contents(alloc, disk, inodes, tables)?;
    if let Some(inode) = first_of_bad_tail(inodes, &contents) {
        return Err(TreeFault::BadImage { inode, rule: 6 });
    }
    match gather_slots(alloc, inodes, &contents) {
        Ok(slots) => Ok((contents, slots)),
        Err(fault) => Err(fault),
    }
}
