// Rule 14: which directories a walk from the root reaches.
ghost use Rattle.std.specs.Prelude.{◌≡◌, ◌⊎◌, ℕ, ◌<◌, ◌≤◌, length, false, All, IfOk, OnOk};
ghost use Rattle.tree_laws.specs.Tree.{is_directory_kind};
ghost use Rattle.disk_tree.specs.Apart.{is_marked};
ghost use Rattle.disk_tree.specs.Reached.{MarksReached, Visits, Passes, Marks};
ghost use Rattle.disk_tree.specs.Rows.{rows_of_inode};

use crate::rows::RowList;
use fmt_slots::SlotRow;
use sfs_base::{Kind, NoMemory};
use std::alloc::Global;

/// Marks each directory that a walk from the root reaches. Each row names one of the inodes.
pub fn reached(alloc: Global, rows: &[RowList]) -> Result<Vec<bool>, NoMemory>
    requires some { 0 < length rows.now }
    requires within { (i : ℕ) → i < length rows.now → All (λ row. row.inode < length rows.now) (rows_of_inode rows.now i) }
    ensures { IfOk result (λ reached. MarksReached rows.now (length rows.now) reached.items) }
{
    let mut reached = vec![in alloc; false; rows.len()]?;
    walk(alloc, &mut reached, rows)?;
    Ok(reached)
}

// Visits the root, and then each directory that had no mark when it was met.
fn walk(alloc: Global, reached: &mut [bool], rows: &[RowList]) -> Result<(), NoMemory>
    requires some { 0 < length rows.now }
    requires within { (i : ℕ) → i < length rows.now → All (λ row. row.inode < length rows.now) (rows_of_inode rows.now i) }
    requires size { length reached.old ≡ length rows.now }
    requires unmarked { (i : ℕ) → is_marked reached.old i ≡ false }
    ensures { OnOk result (MarksReached rows.now (length rows.now) reached.new) }
{
    reached[0] = true;
    let mut pending = vec![in alloc; 0u32]?;
    while let Some(directory) = pending.pop() {
        visit(reached, &mut pending, rows[directory as usize].as_slice())?;
    }
    Ok(())
}

// Marks each directory that a row names. Those that had no mark are pending then.
fn visit(reached: &mut [bool], pending: &mut Vec<u32>, rows: &[SlotRow]) -> Result<(), NoMemory>
    requires { All (λ row. row.inode < length reached.old) rows.now }
    ensures { OnOk result (Visits rows.now (length rows.now) reached.old reached.new pending.old.items pending.new.items) }
{
    for row in rows {
        visit_row(reached, pending, row)?;
    }
    Ok(())
}

// Marks the directory that a row names. If it had no mark it is pending then.
fn visit_row(reached: &mut [bool], pending: &mut Vec<u32>, row: &SlotRow) -> Result<(), NoMemory>
    requires { row.now.inode < length reached.old }
    ensures { OnOk result (Passes row.now reached.old reached.new pending.old.items pending.new.items
        ⊎ Marks row.now reached.old reached.new pending.old.items pending.new.items) }
{
    if !is_directory(row) || reached[row.inode as usize] {
        return Ok(());
    }
    reached[row.inode as usize] = true;
    pending.push(row.inode)?;
    Ok(())
}

// The row names a directory.
fn is_directory(row: &SlotRow) -> bool
    ensures { result ≡ is_directory_kind row.now.kind }
{
    matches!(row.kind, Kind::Directory)
}
