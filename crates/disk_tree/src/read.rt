// Reading a tree: first what the disk has of the inodes, then the rules in their order, then the tree.
ghost use Rattle.std.specs.Prelude.{◌≡◌, length, IfOk, IfErr};
ghost use Rattle.sfs_image.specs.Super.{IsLayout};
ghost use Rattle.sfs_dev.specs.Run.{OnlyReads};
ghost use Rattle.disk_tree.specs.Cause.{is_tree_disk_fault};
ghost use Rattle.disk_tree.specs.Found.{WereReadWell, IsFoundIn};
ghost use Rattle.disk_tree.specs.Judged.{IsReadRefusal, Refused};

use crate::TreeFault;
use crate::build::built_tree;
use crate::contents::Content;
use crate::found::{Found, kept_parts};
use crate::inodes::read_inodes;
use crate::ordered::judged_naming;
use crate::rows::gather_rows;
use crate::stages::{bytes_of, tables_of};
use fmt_inode::{Inode, Records, Tables};
use fmt_slots::SlotList;
use fmt_super::Layout;
use sfs_dev::Disk;
use std::alloc::Global;

/// What the disk has of all inodes: their records, indirect blocks, bytes, and slots.
#[derive(Drop)]
pub struct ReadInodes {
    pub inodes: Vec<Inode>,
    pub tables: Vec<Tables>,
    pub contents: Vec<Content>,
    pub slots: Vec<SlotList>,
}

/// Reads the tree of an image from its settled records, and what is kept of the inodes in use. It
/// answers the first fault: of the least rule that an inode breaks the least inode. It writes
/// nothing.
pub fn read_tree<D: Disk>(
    alloc: Global,
    disk: &mut D,
    layout: &Layout,
    records: &Records,
) -> Result<Found, TreeFault>
    requires layout { IsLayout (D.view disk.old).size layout.now }
    requires count { length records.now.items ≡ layout.now.inodes }
    ensures ok { IfOk result (IsFoundIn (D.view disk.old).content layout.now records.now.items) }
    ensures bad { IfErr result (IsReadRefusal (Refused (D.view disk.old).content layout.now records.now.items)) }
    ensures reads { OnlyReads is_tree_disk_fault (D.view disk.old) (D.view disk.new) result }
{
    let read = read_all(alloc, disk, layout, records)?;
    let rows = gather_rows(alloc, &read.slots)?;
    let named = judged_naming(alloc, &read.inodes, &rows)?;
    let tree = built_tree(alloc, layout, &read, &named, &rows)?;
    let parts = kept_parts(alloc, &read.inodes, &read.tables, &read.slots)?;
    Ok(Found { tree, parts })
}

/// Reads what the disk has of all inodes, where none of them breaks one of the first seven rules, which
/// speak of the bytes of an inode and of the blocks that it holds. It answers the first fault, and
/// writes nothing.
pub fn read_all<D: Disk>(
    alloc: Global,
    disk: &mut D,
    layout: &Layout,
    records: &Records,
) -> Result<ReadInodes, TreeFault>
    requires layout { IsLayout (D.view disk.old).size layout.now }
    requires count { length records.now.items ≡ layout.now.inodes }
    ensures ok { IfOk result (WereReadWell (D.view disk.old).content layout.now records.now.items) }
    ensures bad { IfErr result (IsReadRefusal (Refused (D.view disk.old).content layout.now records.now.items)) }
    ensures reads { OnlyReads is_tree_disk_fault (D.view disk.old) (D.view disk.new) result }
{
    let inodes = read_inodes(alloc, layout, records)?;
    let tables = tables_of(alloc, disk, layout, records, &inodes)?;
    let (contents, slots) = bytes_of(alloc, disk, layout, records, &inodes, &tables)?;
    Ok(ReadInodes {
        inodes,
        tables,
        contents,
        slots,
    })
}
