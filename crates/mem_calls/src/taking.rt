// Values that are taken out of their cells and put back, without memory.
ghost use Rattle.std.specs.Prelude.{◌≡◌, ◌+◌, ◌<◌, Some, IsSome};
ghost use Rattle.mem_cells.specs.Part.{IsAddedTo};
ghost use Rattle.mem_values.specs.declared.cell_id.CellId.TheVariants as id;
ghost use Rattle.mem_values.specs.declared.cell.Cell.{Cell as CellValue};
ghost use Rattle.mem_values.specs.declared.cell.Cell.TheVariants as cell;
ghost use Rattle.mem_calls.specs.Held.{value_held, as_part, bucket_held, file_held, part_held, pending_held, HoldsPart};
ghost use Rattle.mem_calls.specs.Changes.{PutsValue};
ghost use Rattle.mem_calls.specs.Parts.{HasRoomFor, MayTake, TakesEntry};

use mem_values::{
    Bucket, Cell, CellId, FileCell, FileCore, PartCell, Pending, TreeLock, replace_value,
};
use sfs_base::NodeId;
use tree_laws::Changes;

/// Puts a value into a cell that is held.
pub fn put(core: &mut FileCore, nodes: u32, cell: CellId, value: Cell)
    requires { IsSome (value_held nodes core.old.held cell) }
    ensures { PutsValue nodes cell value core.old core.new }
{
    replace_value(core, nodes, cell, value);
}

// A value that takes no memory, for a cell whose own is out.
pub(crate) fn no_value() -> Cell {
    Cell::Lock {
        lock: TreeLock { moved: None },
    }
}

/// Takes the own log out of its cell.
pub fn take_part(core: &mut FileCore, nodes: u32) -> Box<PartCell>
    requires { HoldsPart nodes core.old }
    ensures part { part_held nodes core.old.held core.old.view.core ≡ Some result.value }
    ensures held { (value : CellValue) × PutsValue nodes (id.Part (record { 0 = core.old.view.core })) value core.old core.new }
{
    let cell = CellId::Part {
        core: core.number(),
    };
    match replace_value(core, nodes, cell, no_value()) {
        Cell::Part { part } => part,
        _ => unreachable!(),
    }
}

/// The log with the changes of an entry more.
pub fn with_entry(part: Box<PartCell>, changes: Changes) -> Box<PartCell>
    requires { HasRoomFor changes.items part.value }
    ensures log { IsAddedTo part.value.log changes.items result.value.log }
    ensures made { result.value.made ≡ part.value.made }
{
    let mut part = part;
    part.log.add(changes);
    part
}

/// The log of a core that has made one node more.
pub(crate) fn with_node(part: Box<PartCell>) -> Box<PartCell>
    requires { part.value.made < 4294967295 }
    ensures log { result.value.log ≡ part.value.log }
    ensures made { result.value.made ≡ part.value.made + 1 }
{
    let mut part = part;
    part.made += 1;
    part
}

/// Puts the changes of the core's entry into its own log, and counts it.
pub fn add_entry(core: &mut FileCore, nodes: u32, changes: Changes)
    requires part { HoldsPart nodes core.old }
    requires may { MayTake nodes changes.items core.old }
    ensures { TakesEntry nodes changes.items core.old core.new }
{
    let part = with_entry(take_part(core, nodes), changes);
    let cell = CellId::Part {
        core: core.number(),
    };
    put(core, nodes, cell, Cell::Part { part });
}

/// Takes a file out of its cell.
pub fn take_file(core: &mut FileCore, nodes: u32, node: NodeId) -> Box<FileCell>
    requires { IsSome (file_held nodes core.old.held node) }
    ensures file { file_held nodes core.old.held node ≡ Some result.value }
    ensures held { (value : CellValue) × PutsValue nodes (id.File node) value core.old core.new }
{
    match replace_value(core, nodes, CellId::File { node }, no_value()) {
        Cell::File { file } => file,
        _ => unreachable!(),
    }
}

/// Takes what was flushed of a node out of its cell.
pub(crate) fn take_pending(core: &mut FileCore, nodes: u32, node: NodeId) -> Box<Pending>
    requires { IsSome (pending_held nodes core.old.held node) }
    ensures pending { pending_held nodes core.old.held node ≡ Some result.value }
    ensures held { (value : CellValue) × PutsValue nodes (id.Pending node) value core.old core.new }
{
    match replace_value(core, nodes, CellId::Pending { node }, no_value()) {
        Cell::Pending { pending } => pending,
        _ => unreachable!(),
    }
}

/// Takes a bucket out of its cell.
pub fn take_bucket(core: &mut FileCore, nodes: u32, node: NodeId, number: u8) -> Box<Bucket>
    requires { IsSome (bucket_held nodes core.old.held node number) }
    ensures bucket { bucket_held nodes core.old.held node number ≡ Some result.value }
    ensures held { (value : CellValue) × PutsValue nodes (id.Bucket node number) value core.old core.new }
{
    let cell = CellId::Bucket {
        node,
        bucket: number,
    };
    match replace_value(core, nodes, cell, no_value()) {
        Cell::Bucket { bucket } => bucket,
        _ => unreachable!(),
    }
}

/// Puts the own log into its cell.
pub(crate) fn put_part(core: &mut FileCore, nodes: u32, part: Box<PartCell>)
    requires { IsSome (value_held nodes core.old.held (id.Part (record { 0 = core.old.view.core }))) }
    ensures { (value : CellValue) × (as_part value ≡ Some part.value) × PutsValue nodes (id.Part (record { 0 = core.old.view.core })) value core.old core.new }
{
    let cell = CellId::Part {
        core: core.number(),
    };
    put(core, nodes, cell, Cell::Part { part });
}

/// Puts a bucket into its cell.
pub fn put_bucket(core: &mut FileCore, nodes: u32, node: NodeId, number: u8, bucket: Box<Bucket>)
    requires { IsSome (value_held nodes core.old.held (id.Bucket node number)) }
    ensures { PutsValue nodes (id.Bucket node number) (cell.Bucket bucket) core.old core.new }
{
    let cell = CellId::Bucket {
        node,
        bucket: number,
    };
    put(core, nodes, cell, Cell::Bucket { bucket });
}
