// Cells that a core holds, by what they are.
ghost use Rattle.std.specs.Prelude.{◌≡◌, ◌≤◌, Some, IsSome, length, map, option_map};
ghost use Rattle.stamp_table.specs.Ascending.{AreBelow, RiseAbove};
ghost use Rattle.stamp_table.specs.Table.{HoldsAll, cell_at, with_value};
ghost use Rattle.mem_values.specs.Places.{cell_place};
ghost use Rattle.mem_values.specs.Stands.{StandsAt};
ghost use Rattle.mem_values.specs.Facts.{IsLawfulLog};

use crate::{Cell, CellId, Fact, FileTable, KeptNode};
use disk_nodes::OldDisk;
use sfs_base::NodeId;
use stamp_table::{Core, Shared};
use std::sync::Wait;

/// A table over a file tree.
pub type FileShared = Shared<Cell, Fact, OldDisk, FileTable>;

/// A core of such a table.
pub type FileCore = Core<Cell, Fact, OldDisk, FileTable>;

/// Holds these cells more, in their order, each above all that the core holds, at a table of so many nodes. It waits while another core
/// has one of them. It takes no memory.
pub fn hold_cells<R: Wait>(
    rt: &R,
    shared: &FileShared,
    core: &mut FileCore,
    nodes: u32,
    cells: &[CellId],
)
    requires table { core.old.table ≡ shared.now.table }
    requires within { AreBelow shared.now.table.id.slots (map (cell_place nodes) cells.now) }
    requires above { RiseAbove core.old.view.held (map (cell_place nodes) cells.now) }
    requires room { length cells.now ≤ core.old.room }
    ensures { HoldsAll (IsLawfulLog (given_by shared.now)) (StandsAt (given_by shared.now)) (map (cell_place nodes) cells.now) core.old core.new }
{
    for cell in cells {
        core.hold_one(rt, shared, cell.place(nodes));
    }
}

/// The value of a cell that the core holds.
pub fn value_of(core: &FileCore, nodes: u32, cell: CellId) -> &Cell
    requires { IsSome (cell_at (cell_place nodes cell) core.now.held) }
    ensures { option_map (λ held. held.value) (cell_at (cell_place nodes cell) core.now.held) ≡ Some result.now }
{
    core.cell(cell.place(nodes))
}

/// Gives a cell that the core holds another value, and answers the one that it had.
pub fn replace_value(core: &mut FileCore, nodes: u32, cell: CellId, value: Cell) -> Cell
    requires { IsSome (cell_at (cell_place nodes cell) core.old.held) }
    ensures old { option_map (λ held. held.value) (cell_at (cell_place nodes cell) core.old.held) ≡ Some result }
    ensures new { core.new ≡ record core.old { held = with_value (cell_place nodes cell) value core.old.held } }
{
    core.replace(cell.place(nodes), value)
}

ghost use Rattle.std.specs.Prelude.{◌<◌, []};
ghost use Rattle.mem_values.specs.Start.{given_by};
ghost use Rattle.mem_values.specs.Inode.{is_file_kept, has_inode_kept, SawInode};
ghost use Rattle.mem_values.specs.declared.cell_id.CellId.TheVariants.{Pending};

// The kind of a file in a record.
const FILE: u8 = 1;

// Whether what the disk has of a node is the record of a file.
fn is_file(old: &Option<KeptNode>) -> bool
    ensures { result ≡ is_file_kept old.now }
{
    match old {
        Some(kept) => kept.get().meta.kind == FILE,
        None => false,
    }
}

// Whether a cell has what the disk has of a file.
fn has_inode_in(cell: &Cell) -> bool
    ensures { result ≡ has_inode_kept cell.now }
{
    match cell {
        Cell::Pending { pending } => is_file(&pending.old),
        _ => false,
    }
}

/// Whether a node is a file that has an inode, as what was flushed of it says when this call holds it. The core holds no cell before and
/// after it.
pub fn has_inode<R: Wait>(
    rt: &R,
    shared: &FileShared,
    core: &mut FileCore,
    nodes: u32,
    node: NodeId,
) -> bool
    requires table { core.old.table ≡ shared.now.table }
    requires cell { cell_place nodes (Pending node) < shared.now.table.id.slots }
    requires idle { (core.old.held ≡ []) × (core.old.view.held ≡ []) }
    requires room { 0 < core.old.room }
    ensures { SawInode (given_by shared.now) (cell_place nodes (Pending node)) core.old result core.new }
{
    let place = CellId::Pending { node }.place(nodes);
    core.hold_one(rt, shared, place);
    let found = has_inode_in(core.cell(place));
    core.let_go(shared, 0);
    found
}
