// An image as it is read anew by each call: what its superblock and journals settle, its inodes, and the
// rows of its directories.
ghost use Rattle.std.specs.Prelude.{◌≡◌, ℕ, IfOk, IfErr, List, length};
ghost use Rattle.sfs_dev.specs.Run.{OnlyReads};
ghost use Rattle.sfs_dev.specs.Steps.{IfTold};
ghost use Rattle.image_check.specs.Cause.{is_verify_disk_fault};
ghost use Rattle.image_check.specs.Read.{IsFirstFault, IsReadImage, IsWithin, verify_fault};
ghost use Rattle.recovery.specs.Cause.{is_recover_disk_fault};
ghost use Rattle.recovery.specs.Settling.{IsSettledRefusal};

use crate::VerifyFault;
use disk_tree::{ReadInodes, RowList, TreeFault, gather_rows, read_all};
use fmt_inode::Records;
use fmt_super::Layout;
use recovery::{RecoverFault, Settled, read_settled};
use sfs_dev::Disk;
use std::alloc::Global;

/// What was read of an image in which no byte of the superblock or of a journal is wrong, and in which
/// no inode breaks one of the first seven rules.
#[derive(Drop)]
pub struct ReadImage {
    pub layout: Layout,
    pub records: Records,
    pub read: ReadInodes,
    pub rows: Vec<RowList>,
}

/// Reads an image. It answers the first fault of the superblock, the journals, or the first seven rules,
/// and writes nothing.
pub fn read_image<D: Disk>(alloc: Global, disk: &mut D) -> Result<ReadImage, VerifyFault>
    ensures ok { IfOk result (IsReadImage (D.view disk.old).content) }
    ensures bad { IfTold (D.view disk.old).content (λ image. IfErr result (IsFirstFault image)) }
    ensures reads { OnlyReads is_verify_disk_fault (D.view disk.old) (D.view disk.new) result }
{
    let Settled { layout, records } = match read_settled(alloc, disk) {
        Ok(settled) => settled,
        Err(fault) => return Err(settling_fault(fault)),
    };
    let read = match read_all(alloc, disk, &layout, &records) {
        Ok(read) => read,
        Err(fault) => return Err(tree_fault(fault, &records)),
    };
    let rows = gather_rows(alloc, &read.slots)?;
    Ok(ReadImage {
        layout,
        records,
        read,
        rows,
    })
}

// A fault of the superblock or of a journal. What is read there names no inode, and so no record.
fn settling_fault(fault: RecoverFault) -> VerifyFault
    ensures first { (image : List ℕ) → IsSettledRefusal image fault → IsFirstFault image result }
    ensures cause { is_verify_disk_fault result ≡ is_recover_disk_fault fault }
{
    match fault {
        RecoverFault::DiskFailed => VerifyFault::DiskFailed,
        RecoverFault::BadSuper { at } => VerifyFault::BadSuper { at },
        RecoverFault::BadJournal { core, slot, at } => VerifyFault::BadJournal { core, slot, at },
        RecoverFault::BadImage { inode, rule } => VerifyFault::BadImage {
            inode,
            rule,
            bytes: [0; 512],
        },
        RecoverFault::NoMemory => VerifyFault::NoMemory,
    }
}

/// A fault of an inode, with the record that was judged.
pub fn tree_fault(fault: TreeFault, records: &Records) -> VerifyFault
    requires { IsWithin (length records.now.items) fault }
    ensures { result ≡ verify_fault records.now.items fault }
{
    match fault {
        TreeFault::DiskFailed => VerifyFault::DiskFailed,
        TreeFault::BadImage { inode, rule } => VerifyFault::BadImage {
            inode,
            rule,
            bytes: records.as_slice()[inode as usize],
        },
        TreeFault::NoMemory => VerifyFault::NoMemory,
    }
}
