// The changes of one part after the other are merged into those of the parts before it; each change is copied once.
ghost use Rattle.std.specs.Prelude.{◌≡◌, ◌≤◌, nat_le, nat_lt, ℕ, Bool, [], ◌++◌, slice_get, IfOk};
ghost use Rattle.mem_cells.specs.Log.{log_place, IsInOrder};
ghost use Rattle.log_merge.specs.Merge.{part_changes, parts_changes, IsMergeOf, is_first_next, TakesNext};

use mem_cells::LogPart;
use sfs_base::{NoMemory, NodeId, RoomyList, Stamp};
use std::alloc::Global;
use std::collections::VecDeque;
use tree_laws::{Act, Change, Changes};

/// The changes of a directory below a stamp from the logs of all cores, each once, by their stamps, and
/// within one stamp removals before additions. With n changes of the directory in p parts it takes time
/// in proportion to n times p. Only want of memory refuses it.
pub fn merge(
    alloc: Global,
    parts: &[LogPart],
    dir: NodeId,
    below: Stamp,
) -> Result<Changes, NoMemory>
    ensures { IfOk result (λ changes. IsMergeOf (parts_changes dir.0 below.0 parts.now) changes.items) }
{
    let mut merged = Vec::new(alloc);
    for part in parts {
        let own = own_changes(alloc, part, dir, below)?;
        merged = merge_two(alloc, merged, own)?;
    }
    Ok(RoomyList::from_vec(merged))
}

// Copies of a part's changes of a directory below a stamp.
fn own_changes(
    alloc: Global,
    part: &LogPart,
    dir: NodeId,
    below: Stamp,
) -> Result<Vec<Change>, NoMemory>
    ensures own { IfOk result (λ own. own.items ≡ part_changes dir.0 below.0 part.now) }
    ensures order { IfOk result (λ own. IsInOrder own.items) }
{
    let mut own = Vec::new(alloc);
    while let Some(change) = part.get(dir, own.len() as u64) {
        if change.stamp.0 >= below.0 {
            break;
        }
        own.push(change.copy()?)?;
    }
    Ok(own)
}

// Two lists of changes in order as one; at one place those of the first stand before those of the second.
fn merge_two(
    alloc: Global,
    first: Vec<Change>,
    second: Vec<Change>,
) -> Result<Vec<Change>, NoMemory>
    requires first { IsInOrder first.items }
    requires second { IsInOrder second.items }
    ensures { IfOk result (λ both. IsMergeOf (first.items ++ second.items) both.items) }
{
    let mut both = Vec::with_capacity(alloc, first.len())?;
    let mut first = VecDeque::from_vec(first);
    let mut second = VecDeque::from_vec(second);
    while let Some(change) = take_next(&mut first, &mut second) {
        both.push(change)?;
    }
    Ok(both)
}

// Takes the next change of two lists, if there is one.
fn take_next(first: &mut VecDeque<Change>, second: &mut VecDeque<Change>) -> Option<Change>
    requires first { IsInOrder first.old.items }
    requires second { IsInOrder second.old.items }
    ensures { TakesNext first.old.items second.old.items result first.new.items second.new.items }
{
    if goes_first(first, second) {
        first.pop_front()
    } else {
        second.pop_front()
    }
}

// Whether the next of two lists is the first's: it has one, and the second has none before it.
fn goes_first(first: &VecDeque<Change>, second: &VecDeque<Change>) -> bool
    ensures { result ≡ is_first_next first.now.items second.now.items }
{
    let Some(next) = first.front() else {
        return false;
    };
    match second.front() {
        Some(other) => is_no_later(next, other),
        None => true,
    }
}

// Whether a change stands no later than another.
fn is_no_later(change: &Change, other: &Change) -> bool
    ensures { result ≡ nat_le (log_place change.now) (log_place other.now) }
{
    change.stamp.0 < other.stamp.0
        || change.stamp.0 == other.stamp.0 && (change.act == Act::Remove || other.act == Act::Add)
}
