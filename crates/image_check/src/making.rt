// A certificate of an image in which nothing is wrong.
ghost use Rattle.std.specs.Prelude.{◌≡◌, ℕ, IfOk, IfErr, List, Option, length};
ghost use Rattle.sfs_dev.specs.Run.{OnlyReads};
ghost use Rattle.sfs_dev.specs.Steps.{IfTold};
ghost use Rattle.disk_tree.specs.Ordered.{KeepTreeRules};
ghost use Rattle.disk_tree.specs.Rows.{AreNamingCounts};
ghost use Rattle.image_check.specs.Cause.{is_verify_disk_fault};
ghost use Rattle.image_check.specs.Read.{IsFirstFault, IsReadImage, ReadNothingMore, WasRead};
ghost use Rattle.image_check.specs.Valid.{IsValid};

use crate::certificate::Certificate;
use crate::climb::{holder_list, holder_table};
use crate::fault::VerifyFault;
use crate::files::count_files;
use crate::owners::owner_list;
use crate::reading::{ReadImage, read_image, tree_fault};
use disk_tree::judged_naming;
use sfs_base::NoMemory;
use sfs_dev::Disk;
use std::alloc::Global;

/// A valid certificate of an image in which nothing is wrong, or its first fault. It needs no recovery
/// before it, and writes nothing. It takes memory for all inodes, rows and bytes of the files.
pub fn certify<D: Disk>(alloc: Global, disk: &mut D) -> Result<Certificate, VerifyFault>
    ensures ok { IfTold (D.view disk.old).content (λ image. IfOk result (IsValid image)) }
    ensures bad { IfTold (D.view disk.old).content (λ image. IfErr result (IsFirstFault image)) }
    ensures reads { OnlyReads is_verify_disk_fault (D.view disk.old) (D.view disk.new) result }
{
    let image = read_image(alloc, disk)?;
    certificate_of(alloc, &image)
}

// The certificate of an image that was read, or its first fault.
fn certificate_of(alloc: Global, image: &ReadImage) -> Result<Certificate, VerifyFault>
    requires read { WasRead image.now }
    ensures ok { (told : Option (List ℕ)) → IsReadImage told image.now → IfTold told (λ one. IfOk result (IsValid one)) }
    ensures bad { (told : Option (List ℕ)) → IsReadImage told image.now → IfTold told (λ one. IfErr result (IsFirstFault one)) }
    ensures plain { IfErr result ReadNothingMore }
{
    let inodes = image.read.inodes.as_slice();
    match judged_naming(alloc, inodes, image.rows.as_slice()) {
        Ok(named) => Ok(certificate_by(alloc, image, named.as_slice())?),
        Err(fault) => Err(tree_fault(fault, &image.records)),
    }
}

// The certificate of an image that was read and that breaks no rule, by the number of rows that name
// each inode.
fn certificate_by(alloc: Global, image: &ReadImage, named: &[u32]) -> Result<Certificate, NoMemory>
    requires read { WasRead image.now }
    requires named { AreNamingCounts image.now.rows.items (length image.now.read.inodes.items) (length image.now.read.inodes.items) named.now }
    requires keep { KeepTreeRules image.now.read.inodes.items image.now.rows.items }
    ensures { (told : Option (List ℕ)) → IsReadImage told image.now → IfTold told (λ one. IfOk result (IsValid one)) }
{
    let inodes = image.read.inodes.as_slice();
    let above = holder_table(alloc, image.rows.as_slice())?;
    let holders = holder_list(alloc, inodes, above.as_slice())?;
    let tables = image.read.tables.as_slice();
    let owners = owner_list(alloc, image.layout.blocks, inodes, tables)?;
    Ok(Certificate {
        holders,
        owners,
        files: count_files(inodes, named),
    })
}
