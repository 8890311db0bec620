// An fsync that copies its file before its own log is held, so that nobody waits for that log meanwhile.
ghost use Rattle.std.specs.Prelude.{◌≡◌, ◌<◌, ◌≤◌, None, Some, IfSome};
ghost use Rattle.stamp_table.specs.Table.{IsBetweenCalls};
ghost use Rattle.mem_values.specs.declared.cell.FileCell.{FileCell};
ghost use Rattle.mem_calls.specs.Held.{HoldsDirectory, file_held};
ghost use Rattle.fsync_stamp.specs.Copying.{ComesToCopy, copied_as};

use crate::stamp::{STAMP_CELLS, is_dead_fault, stamp_held};
use mem_calls::{
    TreeTable, bucket_in, directory_fault_in, file_in, hold_directory, hold_part, is_standing,
};
use mem_files::FileBytes;
use mem_values::FileCore;
use sfs_base::{Gate, NodeId, Stamp};
use std::alloc::Global;
use std::sync::Wait;

/// What was copied of an fsync's node as it was at the stamp.
#[derive(Drop)]
pub enum Copied {
    /// Nothing: it is a directory.
    Directory,
    /// A file's bytes, with the marks of its blocks.
    File { bytes: FileBytes },
    /// Nothing, since memory was wanting: it is a file.
    Refused,
}

/// An fsync that has its stamp and waits for its answer, and what was copied of its node.
#[derive(Drop)]
pub struct StampedFsync {
    pub stamp: Stamp,
    pub copied: Copied,
}

// A copy of a node's file, where it is held since no row of the node's own tells that it is a directory. None, where it is not, or memory is wanting.
fn copy_held(core: &FileCore, nodes: u32, node: NodeId) -> Option<FileBytes>
    requires { HoldsDirectory nodes core.now.held node 0 }
    ensures within { IfSome result (λ bytes. node.0 < nodes) }
    ensures held { IfSome result (λ bytes. (value : FileCell) × (file_held nodes core.now.held node ≡ Some value) × (value.file ≡ bytes)) }
{
    if node.0 >= nodes || is_standing(node, bucket_in(core, nodes, node, 0)) {
        return None;
    }
    match file_in(core, nodes, node).file.copy() {
        Ok(bytes) => Some(bytes),
        Err(_) => None,
    }
}

// What was copied of a node, by whether it is a directory.
fn copied_as(is_directory: bool, bytes: Option<FileBytes>) -> Copied
    ensures { result ≡ copied_as is_directory bytes }
{
    if is_directory {
        return Copied::Directory;
    }
    match bytes {
        Some(bytes) => Copied::File { bytes },
        None => Copied::Refused,
    }
}

/// Draws the stamp of an fsync of a node as `stamp_fsync` does, and copies the node's file as it is at the stamp. None, where the node is not alive: that
/// is its answer then. Else it waits for its answer. It may wait for cells that other cores hold, and the core holds no cell afterwards. Want of memory refuses
/// the copy alone.
pub fn stamp_with_copy<R: Wait, G: Gate>(
    rt: &R,
    alloc: Global,
    table: &TreeTable,
    core: &mut FileCore,
    node: NodeId,
    gate: &G,
) -> Option<StampedFsync>
    requires core { IsBetweenCalls table.now core.old }
    requires spare { 0 < core.old.spare }
    requires room { STAMP_CELLS ≤ core.old.room }
    ensures { ComesToCopy table.now node core.old core.new result }
{
    let shared = table.shared();
    let nodes = table.nodes();
    hold_directory(rt, shared, core, nodes, node, 0);
    let bytes = copy_held(core, nodes, node);
    hold_part(rt, shared, core, nodes, gate);
    let fault = directory_fault_in(core, nodes, node, 0);
    let lives = !is_dead_fault(fault);
    let stamp = stamp_held(alloc, shared, core, nodes, node, lives);
    if lives {
        let copied = copied_as(fault.is_none(), bytes);
        Some(StampedFsync { stamp, copied })
    } else {
        None
    }
}
