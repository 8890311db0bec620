// What each cell begins with.
ghost use Rattle.std.specs.Prelude.{◌≡◌, [], ℕ, IfOk};
ghost use Rattle.mem_values.specs.Start.{given_in};
ghost use Rattle.mem_values.specs.Home.{BeginsAs};
ghost use Rattle.mem_begin.specs.Beginning.{CanBeginTable, given_of, IsGivenOf, IsFlushedOf};

use crate::bucket::bucket_of;
use crate::file::file_of;
use disk_nodes::{OldDisk, OldNode, take_old};
use mem_cells::LogPart;
use mem_values::{Cell, CellId, KeptNode, PartCell, Pending, TreeLock};
use sfs_base::{NoMemory, Stamp};
use sfs_tree::Tree;
use std::alloc::Global;
use std::snapshot::Snapshot;

/// What the disk has of the node, taken out of the list, where the cell is what was flushed of one.
pub(crate) fn take_given(given: &mut OldDisk, cell: CellId) -> Option<OldNode>
    ensures old { result ≡ given_of given.old.items cell }
    ensures left { (node : ℕ) → (IsFlushedOf node cell → ⊥) → given_in given.new.items node ≡ given_in given.old.items node }
{
    match cell {
        CellId::Pending { node } => take_old(given, node),
        _ => None,
    }
}

/// What a cell begins with, and with what the disk has of its node where it is what was flushed of one.
pub(crate) fn begin_cell(
    alloc: Global,
    tree: &Tree,
    start: &Snapshot<OldDisk>,
    cell: CellId,
    old: Option<OldNode>,
) -> Result<Cell, NoMemory>
    requires begins { CanBeginTable tree.now }
    requires given { IsGivenOf (given_in start.now.value.items) cell old }
    ensures { IfOk result (BeginsAs (given_in start.now.value.items) tree.now cell) }
{
    let _start = start;
    match cell {
        CellId::Lock => Ok(Cell::Lock {
            lock: TreeLock { moved: None },
        }),
        CellId::Bucket { node, bucket } => Ok(Cell::Bucket {
            bucket: Box::new(alloc, bucket_of(alloc, tree, node, bucket)?)?,
        }),
        CellId::File { node } => Ok(Cell::File {
            file: Box::new(alloc, file_of(alloc, tree, node)?)?,
        }),
        CellId::Pending { node: _ } => Ok(Cell::Pending {
            pending: Box::new(alloc, unflushed(boxed(alloc, old)?))?,
        }),
        CellId::Part { core: _ } => Ok(Cell::Part {
            part: Box::new(alloc, empty_part(alloc))?,
        }),
    }
}

// What the disk has of a node, if anything, in a box.
fn boxed(alloc: Global, old: Option<OldNode>) -> Result<Option<KeptNode>, NoMemory>
    ensures { IfOk result (λ kept. kept ≡ old) }
{
    match old {
        Some(node) => Ok(Some(KeptNode::new(alloc, node)?)),
        None => Ok(None),
    }
}

// What was flushed of a node before any commit.
fn unflushed(old: Option<KeptNode>) -> Pending
    ensures { result ≡ record { cut = record { 0 = 0 }; last = 0; made_in = None; old = old } }
{
    Pending {
        cut: Stamp(0),
        last: 0,
        made_in: None,
        old,
    }
}

// The log of a core that has made no node.
fn empty_part(alloc: Global) -> PartCell
    ensures { result ≡ record { log = record { logs = []; entries = 0 }; made = 0 } }
{
    PartCell {
        log: LogPart::new(alloc),
        made: 0,
    }
}
