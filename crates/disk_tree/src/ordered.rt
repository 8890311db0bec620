// The rules across inodes in their order: rules 8 to 14.
ghost use Rattle.std.specs.Prelude.{◌≡◌, List, Bool, ◌<◌, ◌≤◌, length, IfOk, IfErr, OnOk};
ghost use Rattle.disk_tree.specs.Judged.{IsRefusal};
ghost use Rattle.disk_tree.specs.Ordered.{AreFewRows, BreaksFirst, KeepEarlier, KeepTreeRules};
ghost use Rattle.disk_tree.specs.Rows.{AreNamingCounts};

use crate::TreeFault;
use crate::judge::{
    first_named_twice, first_that_names_root, first_unreached, first_with_full_bucket,
    first_with_misplaced_row, first_with_name_twice, first_with_wrong_links,
};
use crate::reached::reached;
use crate::rows::{RowList, count_named};
use fmt_inode::Inode;
use std::alloc::Global;

/// How many rows name each inode, where no inode breaks a rule across inodes.
pub fn judged_naming(
    alloc: Global,
    inodes: &[Inode],
    rows: &[RowList],
) -> Result<Vec<u32>, TreeFault>
    requires some { 0 < length inodes.now }
    requires few { length inodes.now ≤ 16384 }
    requires count { length rows.now ≡ length inodes.now }
    requires short { AreFewRows rows.now }
    ensures named { IfOk result (λ named. AreNamingCounts rows.now (length inodes.now) (length inodes.now) named.items) }
    ensures keep { IfOk result (λ _. KeepTreeRules inodes.now rows.now) }
    ensures bad { IfErr result (IsRefusal (BreaksFirst inodes.now rows.now)) }
{
    judge_rows(alloc, inodes, rows)?;
    let named = count_named(alloc, inodes.len(), rows)?;
    judge_counts(inodes, rows, &named)?;
    judge_reached(alloc, inodes, rows)?;
    Ok(named)
}

/// The rules that speak of the rows of one directory: 8 to 11. It answers the first fault.
pub fn judge_rows(alloc: Global, inodes: &[Inode], rows: &[RowList]) -> Result<(), TreeFault>
    requires few { length inodes.now ≤ 16384 }
    requires count { length rows.now ≡ length inodes.now }
    ensures ok { OnOk result ((reached : List Bool) → KeepEarlier inodes.now rows.now reached 12) }
    ensures bad { IfErr result (IsRefusal (BreaksFirst inodes.now rows.now)) }
{
    if let Some(inode) = first_with_name_twice(alloc, rows)? {
        return Err(TreeFault::BadImage { inode, rule: 8 });
    }
    if let Some(inode) = first_with_full_bucket(rows) {
        return Err(TreeFault::BadImage { inode, rule: 9 });
    }
    if let Some(inode) = first_with_misplaced_row(inodes, rows) {
        return Err(TreeFault::BadImage { inode, rule: 10 });
    }
    if let Some(inode) = first_that_names_root(rows) {
        return Err(TreeFault::BadImage { inode, rule: 11 });
    }
    Ok(())
}

// The rules that count rows: 12 and 13.
fn judge_counts(inodes: &[Inode], rows: &[RowList], named: &[u32]) -> Result<(), TreeFault>
    requires few { length inodes.now ≤ 16384 }
    requires count { length rows.now ≡ length inodes.now }
    requires short { AreFewRows rows.now }
    requires named { AreNamingCounts rows.now (length inodes.now) (length inodes.now) named.now }
    requires before { (reached : List Bool) → KeepEarlier inodes.now rows.now reached 12 }
    ensures ok { OnOk result ((reached : List Bool) → KeepEarlier inodes.now rows.now reached 14) }
    ensures bad { IfErr result (IsRefusal (BreaksFirst inodes.now rows.now)) }
{
    if let Some(inode) = first_named_twice(inodes, rows, named) {
        return Err(TreeFault::BadImage { inode, rule: 12 });
    }
    if let Some(inode) = first_with_wrong_links(inodes, rows, named) {
        return Err(TreeFault::BadImage { inode, rule: 13 });
    }
    Ok(())
}

// The rule on walks from the root: 14.
fn judge_reached(alloc: Global, inodes: &[Inode], rows: &[RowList]) -> Result<(), TreeFault>
    requires some { 0 < length inodes.now }
    requires few { length inodes.now ≤ 16384 }
    requires count { length rows.now ≡ length inodes.now }
    requires before { (reached : List Bool) → KeepEarlier inodes.now rows.now reached 14 }
    ensures keep { OnOk result (KeepTreeRules inodes.now rows.now) }
    ensures bad { IfErr result (IsRefusal (BreaksFirst inodes.now rows.now)) }
{
    let marks = reached(alloc, rows)?;
    if let Some(inode) = first_unreached(inodes, &marks) {
        return Err(TreeFault::BadImage { inode, rule: 14 });
    }
    Ok(())
}
