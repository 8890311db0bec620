// An fsync of a file whose namings are all flushed.
ghost use Rattle.std.specs.Prelude.{◌≡◌, ◌∷◌, [], IfErr, IfOk};
ghost use Rattle.disk_change.specs.declared.files.FileChange.{FileChange};
ghost use Rattle.flush_plan.specs.Touched.{IsFileChange};
ghost use Rattle.flush_plan.specs.FilePlan.{IsFilePlan};

use crate::touched::file_change;
use disk_change::{DiskChange, EnterList, FileChangeList, NetList};
use disk_nodes::OldDisk;
use mem_files::FileBytes;
use sfs_base::{NoMemory, NodeId, NodeList, Stamp};
use std::alloc::Global;

/// What an fsync of one file alone changes: its size, and the blocks whose mark is `cut` at least. No row
/// comes or goes, and no node gets or loses an inode. `old` has what the disk has of the file. Only want of
/// memory refuses it, and then it hands `old` back.
pub fn plan_file(
    alloc: Global,
    file: NodeId,
    cut: Stamp,
    old: OldDisk,
    bytes: &FileBytes,
) -> Result<DiskChange, OldDisk>
    ensures ok { IfOk result (λ change. IsFilePlan file cut.0 old.items bytes.now change) }
    ensures err { IfErr result (λ back. back.items ≡ old.items) }
{
    match one_change(alloc, file, cut, bytes) {
        Ok(files) => DiskChange::new(
            alloc,
            old,
            NetList::new(alloc),
            files,
            &EnterList::new(alloc),
            &NodeList::new(alloc),
        ),
        Err(_) => Err(old),
    }
}

// The change of one file as a list.
fn one_change(
    alloc: Global,
    file: NodeId,
    cut: Stamp,
    bytes: &FileBytes,
) -> Result<FileChangeList, NoMemory>
    ensures { IfOk result (λ files. (one : FileChange) × IsFileChange file cut.0 bytes.now one × (files.items ≡ one ∷ [])) }
{
    let mut files = FileChangeList::new(alloc);
    files.reserve(1)?;
    files.push(file_change(alloc, file, cut, bytes)?);
    Ok(files)
}
