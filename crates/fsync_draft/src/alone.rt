// What an fsync plans of a file that has an inode, by its own value alone.
ghost use Rattle.std.specs.Prelude.{◌≡◌, IfOk, OnErr, length};
ghost use Rattle.fsync_draft.specs.Drafting.{IsDraftedAlone, IsHollow, IsOwnDraft, IsOwnDraftOf};

use crate::drafting::Draft;
use crate::lending::DraftedFsync;
use crate::seeing::seen_of;
use disk_change::{DiskChange, EnterList, FileChangeList, NetList};
use flush_plan::{FsyncPlan, file_change};
use fsync_catch::{WaitingFsync, one_node};
use fsync_values::{hollow_values, lend, restore, spare_boxes};
use mem_files::FileBytes;
use mem_values::{Cell, FileCore};
use sfs_base::{NoMemory, NodeList, Stamp};
use std::alloc::Global;

// The changes of the file from its cut on; there are none where something later than the fsync was flushed.
fn own_files(
    alloc: Global,
    fsync: WaitingFsync,
    cut: Stamp,
    bytes: &FileBytes,
) -> Result<FileChangeList, NoMemory>
    ensures { IfOk result (λ files. IsDraftedAlone fsync cut bytes.now files.items) }
{
    let mut files = FileChangeList::new(alloc);
    if cut.0 <= fsync.stamp.0 {
        files.reserve(1)?;
        files.push(file_change(alloc, fsync.node, cut, bytes)?);
    }
    Ok(files)
}

// Plans what the fsync of a file changes, over its value. What the disk has of it is taken out of the value. Where memory is wanting this is as it was.
fn drafted_alone(
    alloc: Global,
    fsync: WaitingFsync,
    cut: Stamp,
    bytes: &FileBytes,
    values: &mut Vec<Cell>,
) -> Result<Draft, NoMemory>
    requires count { length values.old.items ≡ 1 }
    ensures drafted { IfOk result (λ draft. IsOwnDraft fsync cut bytes.now values.old.items values.new.items draft) }
    ensures same { OnErr result (values.new.items ≡ values.old.items) }
{
    let nodes = one_node(alloc, fsync.node)?;
    let members = one_node(alloc, fsync.node)?;
    let seen = seen_of(alloc, nodes.as_slice(), values)?;
    let spares = spare_boxes(alloc, values)?;
    let entries = Vec::with_capacity(alloc, 1)?;
    let files = own_files(alloc, fsync, cut, bytes)?;
    let old = lend(alloc, values, nodes.as_slice(), entries);
    let nets = NetList::new(alloc);
    let enter = EnterList::new(alloc);
    let leave = NodeList::new(alloc);
    match DiskChange::new(alloc, old, nets, files, &enter, &leave) {
        Ok(change) => Ok(Draft {
            plan: FsyncPlan {
                members,
                nodes,
                leave,
                change,
            },
            spares,
            seen,
        }),
        Err(old) => {
            restore(values, old);
            Err(NoMemory)
        }
    }
}

/// Plans what the fsync of a file changes that has an inode and of which something was flushed up to `cut`, by these bytes, which the file had at the fsync's
/// stamp. The file's value is all that the core holds; it is taken out of its cell, and what the disk has of the file is lent to the plan. Where memory is
/// wanting the core is as it was.
pub fn draft_alone(
    alloc: Global,
    core: &mut FileCore,
    fsync: WaitingFsync,
    cut: Stamp,
    bytes: &FileBytes,
) -> Result<DraftedFsync, NoMemory>
    requires holds { length core.old.held ≡ 1 }
    ensures drafted { IfOk result (IsOwnDraftOf fsync cut bytes.now core.old) }
    ensures hollow { IfOk result (λ drafted. IsHollow core.old core.new) }
    ensures back { OnErr result (core.new ≡ core.old) }
{
    let mut values = hollow_values(alloc, 1)?;
    core.swap_values(&mut values);
    match drafted_alone(alloc, fsync, cut, bytes, &mut values) {
        Ok(draft) => Ok(DraftedFsync { draft, values }),
        Err(fault) => {
            core.swap_values(&mut values);
            Err(fault)
        }
    }
}
