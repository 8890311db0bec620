// What is read of a disk and judged, before anything is written to it.
ghost use Rattle.std.specs.Prelude.{◌≡◌, length, IfOk, IfErr};
ghost use Rattle.sfs_image.specs.Super.{IsLayout};
ghost use Rattle.sfs_dev.specs.Run.{OnlyReads};
ghost use Rattle.sfs_dev.specs.Steps.{IfTold};
ghost use Rattle.disk_tree.specs.Found.{IsFoundIn};
ghost use Rattle.disk_tree.specs.Judged.{IsReadRefusal, Refused};
ghost use Rattle.recovery.specs.Cause.{is_recover_disk_fault};
ghost use Rattle.recovery.specs.Judging.{IsFaultOf, IsTreeRefusal, IsFit, IsJudgedOn};

use crate::fault::RecoverFault;
use crate::journals::OpenSlot;
use crate::settled::read_journals;
use disk_tree::{Found, TreeFault, read_tree};
use fmt_inode::Records;
use fmt_super::Layout;
use sfs_base::RoomyList;
use sfs_dev::Disk;
use std::alloc::Global;

/// What a disk has: its layout, its open slots, of each inode the commit stamp under which a slot has its
/// newest record, and that record, and the tree with the parts of the inodes in use.
#[derive(Drop)]
pub struct Judged {
    pub layout: Layout,
    pub open_slots: Vec<OpenSlot>,
    pub stamps: Vec<Option<u64>>,
    pub records: Records,
    pub found: Found,
}

/// Reads a disk and judges it: what its journals settle, and the tree that this shows. The first fault is
/// refused. It writes nothing.
pub fn judge<D: Disk>(alloc: Global, disk: &mut D) -> Result<Judged, RecoverFault>
    ensures fits { IfOk result (λ judged. IsLayout (D.view disk.old).size judged.layout) }
    ensures fit { IfOk result IsFit }
    ensures found { IfOk result (λ judged. IsFoundIn (D.view disk.old).content judged.layout judged.records.items judged.found) }
    ensures ok { IfTold (D.view disk.old).content (λ image. IfOk result (IsJudgedOn image)) }
    ensures bad { IfTold (D.view disk.old).content (λ image. IfErr result (IsFaultOf image)) }
    ensures reads { OnlyReads is_recover_disk_fault (D.view disk.old) (D.view disk.new) result }
{
    let journals = read_journals(alloc, disk)?;
    let layout = journals.layout;
    let newest = journals.newest;
    let records = RoomyList::from_vec(newest.records);
    let found = find_tree(alloc, disk, &layout, &records)?;
    Ok(Judged {
        layout,
        open_slots: journals.open,
        stamps: newest.stamps,
        records,
        found,
    })
}

// Reads the tree that settled records show.
fn find_tree<D: Disk>(
    alloc: Global,
    disk: &mut D,
    layout: &Layout,
    records: &Records,
) -> Result<Found, RecoverFault>
    requires layout { IsLayout (D.view disk.old).size layout.now }
    requires count { length records.now.items ≡ layout.now.inodes }
    ensures ok { IfOk result (IsFoundIn (D.view disk.old).content layout.now records.now.items) }
    ensures bad { IfErr result (IsTreeRefusal (Refused (D.view disk.old).content layout.now records.now.items)) }
    ensures reads { OnlyReads is_recover_disk_fault (D.view disk.old) (D.view disk.new) result }
{
    match read_tree(alloc, disk, layout, records) {
        Ok(found) => Ok(found),
        Err(TreeFault::DiskFailed) => Err(RecoverFault::DiskFailed),
        Err(TreeFault::BadImage { inode, rule }) => Err(RecoverFault::BadImage { inode, rule }),
        Err(TreeFault::NoMemory) => Err(RecoverFault::NoMemory),
    }
}
