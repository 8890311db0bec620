// The verdict on a certificate.
ghost use Rattle.std.specs.Prelude.{◌≡◌, ◌↔◌, ℕ, ◌≤◌, IfOk, List, Option, length, true};
ghost use Rattle.sfs_dev.specs.Run.{OnlyReads};
ghost use Rattle.sfs_dev.specs.Steps.{IfTold};
ghost use Rattle.image_check.specs.Cause.{is_accept_disk_fault};
ghost use Rattle.disk_tree.specs.Ordered.{AreFewRows};
ghost use Rattle.disk_tree.specs.Rows.{AreNamingCounts};
ghost use Rattle.image_check.specs.Agreed.{AgreesOn};
ghost use Rattle.image_check.specs.Read.{IsReadImage, KeepsRows, WasRead};
ghost use Rattle.image_check.specs.Valid.{IsValid};

use crate::certificate::Certificate;
use crate::fault::{AcceptFault, VerifyFault};
use crate::files::count_files;
use crate::owners::{are_one, owner_list};
use crate::places::are_places;
use crate::reading::{ReadImage, read_image};
use disk_tree::{RowList, TreeFault, count_named, first_with_wrong_links, judge_rows};
use fmt_inode::Inode;
use sfs_base::NoMemory;
use sfs_dev::Disk;
use std::alloc::Global;

/// Whether a certificate is valid for an image. The image is read anew, and nothing of how the
/// certificate came about is taken on trust: that one row at most names a directory and that a walk from
/// the root reaches it is seen by the holders and depths that it tells. It writes nothing.
pub fn accept<D: Disk>(alloc: Global, disk: &mut D, cert: &Certificate) -> Result<bool, AcceptFault>
    ensures told { IfTold (D.view disk.old).content (λ image. IfOk result (λ valid. (valid ≡ true) ↔ IsValid image cert.now)) }
    ensures reads { OnlyReads is_accept_disk_fault (D.view disk.old) (D.view disk.new) result }
{
    match read_image(alloc, disk) {
        Ok(image) => Ok(is_valid(alloc, &image, cert)?),
        Err(fault) => match fault {
            VerifyFault::DiskFailed => Err(AcceptFault::DiskFailed),
            VerifyFault::NoMemory => Err(AcceptFault::NoMemory),
            _ => Ok(false),
        },
    }
}

// Whether a certificate is valid for an image that was read.
fn is_valid(alloc: Global, image: &ReadImage, cert: &Certificate) -> Result<bool, NoMemory>
    requires read { WasRead image.now }
    ensures { (told : Option (List ℕ)) → IsReadImage told image.now → IfTold told (λ one. IfOk result (λ valid. (valid ≡ true) ↔ IsValid one cert.now)) }
{
    let inodes = image.read.inodes.as_slice();
    let rows = image.rows.as_slice();
    if !keeps_rows(alloc, inodes, rows)? {
        return Ok(false);
    }
    let named = count_named(alloc, inodes.len(), rows)?;
    if !counts_agree(inodes, rows, named.as_slice(), cert) {
        return Ok(false);
    }
    let tables = image.read.tables.as_slice();
    let owners = owner_list(alloc, image.layout.blocks, inodes, tables)?;
    Ok(are_one(&owners, &cert.owners))
}

// Whether all link counts are those of the rows, and a certificate's holders and its number of files
// agree with these.
fn counts_agree(inodes: &[Inode], rows: &[RowList], named: &[u32], cert: &Certificate) -> bool
    requires few { length inodes.now ≤ 16384 }
    requires count { length rows.now ≡ length inodes.now }
    requires short { AreFewRows rows.now }
    requires named { AreNamingCounts rows.now (length inodes.now) (length inodes.now) named.now }
    ensures { AgreesOn inodes.now rows.now named.now cert.now result }
{
    match first_with_wrong_links(inodes, rows, named) {
        Some(_) => false,
        None => {
            are_places(inodes, rows, named, &cert.holders)
                && count_files(inodes, named) == cert.files
        }
    }
}

// Whether no directory breaks one of the rules on its rows.
fn keeps_rows(alloc: Global, inodes: &[Inode], rows: &[RowList]) -> Result<bool, NoMemory>
    requires few { length inodes.now ≤ 16384 }
    requires count { length rows.now ≡ length inodes.now }
    ensures { IfOk result (KeepsRows inodes.now rows.now) }
{
    match judge_rows(alloc, inodes, rows) {
        Ok(()) => Ok(true),
        Err(fault) => match fault {
            TreeFault::NoMemory => Err(NoMemory),
            _ => Ok(false),
        },
    }
}
