// Cells that a rename holds, in the order of their places.
ghost use Rattle.std.specs.Prelude.{◌≡◌, ◌+◌, ◌*◌, ◌<◌, ◌≤◌, length};
ghost use Rattle.stamp_table.specs.Ascending.{LiesAbove};
ghost use Rattle.mem_values.specs.Start.{given_by};
ghost use Rattle.mem_calls.specs.Table.{IsFileTable};
ghost use Rattle.mem_calls.specs.Working.{IsWorking};
ghost use Rattle.mem_rename.specs.Holding.{AreTreeCells, is_before, nearer, IsNextAbove, HoldsAsked};

use mem_calls::hold_more;
use mem_values::{CellId, FileCore, FileShared};
use std::sync::Wait;

// Whether a place lies before that of a cell that may be there.
fn is_before(place: usize, cell: Option<CellId>, nodes: u32) -> bool
    ensures { result ≡ is_before nodes place cell }
{
    match cell {
        Some(cell) => place < cell.place(nodes),
        None => true,
    }
}

// Of two cells the one that is nearer above a place.
fn nearer(next: Option<CellId>, cell: CellId, nodes: u32, last: usize) -> Option<CellId>
    ensures { result ≡ nearer nodes last next cell }
{
    let place = cell.place(nodes);
    if last < place && is_before(place, next, nodes) {
        Some(cell)
    } else {
        next
    }
}

// The least of some cells that lies above a place.
fn next_above(cells: &[CellId], nodes: u32, last: usize) -> Option<CellId>
    ensures { IsNextAbove nodes last cells.now result }
{
    let mut next = None;
    for cell in cells {
        next = nearer(next, *cell, nodes, last);
    }
    next
}

/// Holds these cells more, the least place first, one that is named twice once. It waits while another core has one of them.
pub(crate) fn hold_asked<R: Wait>(
    rt: &R,
    shared: &FileShared,
    core: &mut FileCore,
    nodes: u32,
    cells: &[CellId],
)
    requires table { IsFileTable shared.now nodes }
    requires work { IsWorking (given_by shared.now) shared.now core.old }
    requires cells { AreTreeCells nodes cells.now }
    requires above { LiesAbove 16 core.old.view.held }
    requires room { length cells.now ≤ core.old.room }
    ensures work { IsWorking (given_by shared.now) shared.now core.new }
    ensures holds { HoldsAsked nodes cells.now core.old core.new }
    ensures room { core.old.room ≤ core.new.room + length cells.now }
{
    let mut last = 15usize;
    for _ in rt.forever() {
        let Some(cell) = next_above(cells, nodes, last) else {
            return;
        };
        hold_more(rt, shared, core, nodes, cell);
        last = cell.place(nodes);
    }
}
