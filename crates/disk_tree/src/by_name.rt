// The rows of a directory in the order of their names: equal names are neighbours there.
ghost use Rattle.std.specs.Prelude.{◌≡◌, bytes_eq, IfOk};
ghost use Rattle.std.specs.List.Sorted.{IsPermutation};
ghost use Rattle.disk_tree.specs.ByName.{AscendByName};
ghost use Rattle.disk_tree.specs.Tests.{has_twice};

use fmt_slots::SlotRow;
use sfs_base::NoMemory;
use std::alloc::Global;

/// Copies of the rows, names ascending by their bytes. For n rows it takes time in proportion to n log n.
pub fn rows_by_name(alloc: Global, rows: &[SlotRow]) -> Result<Vec<SlotRow>, NoMemory>
    ensures rows { IfOk result (λ sorted. IsPermutation rows.now sorted.items) }
    ensures ascend { IfOk result (λ sorted. AscendByName sorted.items) }
{
    let mut sorted = copied(alloc, rows)?;
    sorted.sort_unstable_by(|row, other| row.name.bytes().cmp(other.name.bytes()));
    Ok(sorted)
}

// Copies of the rows, in their order.
fn copied(alloc: Global, rows: &[SlotRow]) -> Result<Vec<SlotRow>, NoMemory>
    ensures { IfOk result (λ copies. copies.items ≡ rows.now) }
{
    let mut copies = Vec::new(alloc);
    for row in rows {
        copies.push(row.copy()?)?;
    }
    Ok(copies)
}

/// Whether two rows have one name.
pub fn has_duplicate_name(alloc: Global, rows: &[SlotRow]) -> Result<bool, NoMemory>
    ensures { IfOk result (λ twice. twice ≡ has_twice rows.now) }
{
    let sorted = rows_by_name(alloc, rows)?;
    Ok(has_equal_neighbours(&sorted))
}

// Whether two rows have one name, of rows whose names ascend.
fn has_equal_neighbours(rows: &[SlotRow]) -> bool
    requires { AscendByName rows.now }
    ensures { result ≡ has_twice rows.now }
{
    for place in 1..rows.len() {
        if have_one_name(&rows[place - 1], &rows[place]) {
            return true;
        }
    }
    false
}

// Two rows have one name.
fn have_one_name(row: &SlotRow, other: &SlotRow) -> bool
    ensures { result ≡ bytes_eq row.now.name other.now.name }
{
    row.name.bytes() == other.name.bytes()
}
