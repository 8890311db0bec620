// The values of the cells that a core holds.
ghost use Rattle.std.specs.Prelude.{◌≡◌, ◌<◌, Some, IsSome, length, slice_get, option_map};
ghost use Rattle.keyed_list.specs.Ascending.{AscendBy};
ghost use Rattle.stamp_table.specs.Hand.{place_in};
ghost use Rattle.stamp_table.specs.Table.{cell_at, cells_before, with_value, with_values, values_in};

use crate::{Core, HeldCell, Meaning};
use std::mem;

// Up to how many held cells one is found by looking at each.
const FEW: usize = 16;

// How many cells come before the one at a place, found by looking at each.
fn find_few<C>(cells: &[HeldCell<C>], place: usize) -> usize
    requires { IsSome (cell_at place cells.now) }
    ensures { result ≡ cells_before place cells.now }
{
    for at in 0..cells.len() {
        if cells[at].place == place {
            return at;
        }
    }
    unreachable!()
}

// How many cells come before the one at a place. Their places ascend, and among many it is found by halves.
fn find_index<C>(cells: &[HeldCell<C>], place: usize) -> usize
    requires found { IsSome (cell_at place cells.now) }
    requires ascend { AscendBy place_in cells.now }
    ensures { result ≡ cells_before place cells.now }
{
    if cells.len() <= FEW {
        return find_few(cells, place);
    }
    let Ok(at) = cells.binary_search_by_key(&place, |cell| cell.place) else {
        unreachable!()
    };
    at
}

// Exchanges the values of cells for those of a list.
fn swap_all<C>(cells: &mut [HeldCell<C>], values: &mut [C])
    requires { length values.old ≡ length cells.old }
    ensures cells { cells.new ≡ with_values values.old cells.old }
    ensures values { values.new ≡ values_in cells.old }
{
    for at in 0..cells.len() {
        mem::swap(&mut cells[at].value, &mut values[at]);
    }
}

impl<C: Drop, X, G, M: Meaning<C, X, G>> Core<C, X, G, M> {
    /// The value of the cell that stands at a place of the list of those that this core holds.
    pub fn value_at(&self, at: usize) -> &C
        requires { at < length self.now.held }
        ensures { option_map (λ cell. cell.value) (slice_get self.now.held at) ≡ Some result.now }
    {
        &self.held[at].value
    }

    /// Exchanges the values of all cells that this core holds, in their order, for those of a list. It takes no memory.
    pub fn swap_values(&mut self, values: &mut Vec<C>)
        requires { length values.old.items ≡ length self.old.held }
        ensures cells { self.new ≡ record self.old { held = with_values values.old.items self.old.held } }
        ensures values { values.new.items ≡ values_in self.old.held }
    {
        swap_all(self.held.as_mut_slice(), values.as_mut_slice());
    }

    /// The value of a cell that this core holds.
    pub fn cell(&self, place: usize) -> &C
        requires { IsSome (cell_at place self.now.held) }
        ensures { option_map (λ cell. cell.value) (cell_at place self.now.held) ≡ Some result.now }
    {
        let at = find_index(&self.held, place);
        &self.held[at].value
    }

    /// Gives a cell that this core holds another value, and answers the one that it had.
    pub fn replace(&mut self, place: usize, value: C) -> C
        requires { IsSome (cell_at place self.old.held) }
        ensures old { option_map (λ cell. cell.value) (cell_at place self.old.held) ≡ Some result }
        ensures new { self.new ≡ record self.old { held = with_value place value self.old.held } }
    {
        let at = find_index(&self.held, place);
        mem::replace(&mut self.held[at].value, value)
    }
}
