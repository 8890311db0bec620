// The values of a table's cells, and the table with its cores.
ghost use Rattle.std.specs.Prelude.{◌≡◌, ◌-◌, ◌+◌, ◌*◌, ◌<◌, [], ℕ, All, IfOk, OnOk, Some, length, slice_get};
ghost use Rattle.stamp_table.specs.Table.{AreAllCores, AreNew, IsBetweenCalls};
ghost use Rattle.mem_values.specs.Start.{given_in};
ghost use Rattle.mem_values.specs.Places.{node_count, place_count};
ghost use Rattle.mem_values.specs.Stands.{StandsAt};
ghost use Rattle.mem_begin.specs.Beginning.{CanBeginTable, HasGivenBelow, nodes_below};

use crate::cell::{begin_cell, take_given};
use crate::place::{cell_lying_at, place_count};
use disk_nodes::OldDisk;
use mem_values::{Cell, FileCore, FileShared};
use sfs_base::NoMemory;
use sfs_tree::Tree;
use stamp_table::Shared;
use std::alloc::Global;
use std::snapshot::Snapshot;

// What the cell at a place begins with.
fn begin_place(
    alloc: Global,
    tree: &Tree,
    start: &Snapshot<OldDisk>,
    given: &mut OldDisk,
    nodes: u32,
    place: usize,
) -> Result<Cell, NoMemory>
    requires begins { CanBeginTable tree.now }
    requires nodes { nodes ≡ node_count tree.now }
    requires place { place < place_count nodes 256 }
    requires given { HasGivenBelow (given_in start.now.value.items) (nodes_below nodes (place + 1)) given.old.items }
    ensures stands { IfOk result (StandsAt (given_in start.now.value.items) tree.now [] place) }
    ensures left { HasGivenBelow (given_in start.now.value.items) (nodes_below nodes place) given.new.items }
{
    let cell = cell_lying_at(nodes, place);
    let old = take_given(given, cell);
    begin_cell(alloc, tree, start, cell, old)
}

// The values of all cells, each at its place. They are made from the last place down: so the node of which what was flushed is made next
// is the last one that is left in the list, and is taken from its end without a move of the others.
fn cells_of(
    alloc: Global,
    tree: &Tree,
    start: &Snapshot<OldDisk>,
    mut given: OldDisk,
    nodes: u32,
    cores: u8,
) -> Result<Vec<Cell>, NoMemory>
    requires begins { CanBeginTable tree.now }
    requires given { start.now.value ≡ given }
    requires nodes { nodes ≡ node_count tree.now }
    requires cores { cores ≡ length tree.now.made }
    ensures count { IfOk result (λ cells. length cells.items ≡ place_count nodes cores) }
    ensures stand { IfOk result (λ cells. (place : ℕ) (value : Cell) → slice_get cells.items place ≡ Some value
        → StandsAt (given_in start.now.value.items) tree.now [] place value) }
{
    let mut place = place_count(nodes, cores);
    let mut cells = Vec::with_capacity(alloc, place)?;
    while place > 0 {
        place -= 1;
        cells.push(begin_place(alloc, tree, start, &mut given, nodes, place)?)?;
    }
    cells.reverse();
    Ok(cells)
}

/// A table over a file tree, whose cells begin with what the tree has of them, and its cores, ascending by number. `given` has the nodes of
/// which the disk has something, `nodes` is how many nodes there may be: those below the first new one, and the shares of all cores. It may
/// be refused memory. It takes time in proportion to the places, the bytes and the rows, each row in the logarithm of its bucket's; bytes
/// are copied once, what is given is moved.
pub fn make(
    alloc: Global,
    tree: &Tree,
    given: OldDisk,
    nodes: u32,
    cores: u8,
) -> Result<(FileShared, Vec<FileCore>), NoMemory>
    requires begins { CanBeginTable tree.now }
    requires nodes { nodes ≡ node_count tree.now }
    requires cores { (0 < cores) × (cores ≡ length tree.now.made) }
    ensures first { IfOk result (λ made. made.0.first ≡ tree.now) }
    ensures given { IfOk result (λ made. made.0.table.given ≡ given) }
    ensures slots { IfOk result (λ made. made.0.table.id.slots ≡ place_count nodes cores) }
    ensures made { IfOk result (λ made. made.0.cores ≡ length made.0.first.made) }
    ensures count { IfOk result (λ made. length made.1.items ≡ cores) }
    ensures cores { IfOk result (λ made. AreAllCores made.0 made.1.items) }
    ensures new { IfOk result (λ made. AreNew tree.now made.1.items) }
    ensures between { IfOk result (λ made. All (IsBetweenCalls made.0) made.1.items) }
{
    let start = Snapshot::of(&given);
    let cells = cells_of(alloc, tree, &start, given, nodes, cores)?;
    Shared::make(alloc, tree, start, nodes as usize, cells, cores)
}
