// Which rule a cut breaks. It is looked for as the rules say: each change is held against the cut, and against each other change where
// the rule speaks of two.
ghost use Rattle.std.specs.Prelude.{◌≡◌, ◌↔◌, true, List};
ghost use Rattle.tree_laws.specs.declared.history.Entry.{Entry};
ghost use Rattle.tree_laws.specs.History.{IsLegal};
ghost use Rattle.tree_laws.specs.Laws.{IsSoundTree};
ghost use Rattle.tree_laws.specs.Tree.{TreeState};
ghost use Rattle.flush_core.specs.Broken.{SomeIs, IsFlushed, IsSplit, IsLeft, LeavesChange, IsFlushedIn, IsBornLate};
ghost use Rattle.flush_core.specs.Broken.{PlacesBelow, IsLatest, IsUnplaced, HasUnplaced, LacksAncestor, FindsBroken, later};
ghost use Rattle.flush_core.specs.Past.{IsPast};
ghost use Rattle.flush_core.specs.declared.past.Past.{Past as PastState};

use crate::cut::Cut;
use crate::past::{BornNode, OwnChange, Past};

/// A rule that a cut has to keep, so that the tree at it is sound.
#[derive(Clone, Copy, PartialEq, Eq)]
pub enum Rule {
    /// A rename between two directories lies below the cuts of both or of neither.
    Renames,
    /// Where the end of a directory lies below its holder's cut, all own changes of the ended one lie below its cut.
    Removals,
    /// Where an own change of a directory that was made lies below its cut, its making lies below the
    /// cut of the directory in which it was made.
    Births,
    /// Where a directory's move into another one lies below that one's cut, the last placings of the
    /// new holder and of those above it, as they stood then, lie below the cuts of their holders.
    Ancestors,
}

/// The first rule that a cut breaks, or None where it is closed. It takes time in proportion to the
/// square of the number of changes, times that of the directories above one, and no memory.
pub(crate) fn broken_rule(past: &Past, cut: &Cut) -> Option<Rule>
    ensures { (first : TreeState) (history : List Entry) → IsSoundTree first → IsLegal first history → IsPast first history past.now
        → FindsBroken first history cut.now result }
{
    broken_by(&past.changes, &past.births, cut)
}

// The first rule that a cut of a history with these changes and births breaks.
fn broken_by(changes: &[OwnChange], births: &[BornNode], cut: &Cut) -> Option<Rule>
    ensures { (first : TreeState) (history : List Entry) (past : PastState) → IsSoundTree first → IsLegal first history → IsPast first history past
        → changes.now ≡ past.changes.items → births.now ≡ past.births.items → FindsBroken first history cut.now result }
{
    if splits_rename(changes, cut) {
        Some(Rule::Renames)
    } else if leaves_changes(changes, cut) {
        Some(Rule::Removals)
    } else if bears_late(births, changes, cut) {
        Some(Rule::Births)
    } else if lacks_ancestors(changes, cut) {
        Some(Rule::Ancestors)
    } else {
        None
    }
}

// Whether a change lies below the cut of its directory.
fn is_flushed(cut: &Cut, change: &OwnChange) -> bool
    ensures { (result ≡ true) ↔ IsFlushed cut.now change.now }
{
    change.stamp < cut.get(change.directory)
}

// Whether one of some changes is of a rename that is split.
fn splits_rename(changes: &[OwnChange], cut: &Cut) -> bool
    ensures { (result ≡ true) ↔ SomeIs changes.now (IsSplit cut.now) }
{
    for change in changes {
        if is_split(cut, change) {
            return true;
        }
    }
    false
}

// Whether a change is of a rename between two directories that lies below the cut of the changed one alone.
fn is_split(cut: &Cut, change: &OwnChange) -> bool
    ensures { (result ≡ true) ↔ IsSplit cut.now change.now }
{
    match change.other {
        Some(other) => is_flushed(cut, change) && cut.get(other) <= change.stamp,
        None => false,
    }
}

// Whether one of some changes ends a directory of which an own change is left.
fn leaves_changes(changes: &[OwnChange], cut: &Cut) -> bool
    ensures { (result ≡ true) ↔ SomeIs changes.now (LeavesChange changes.now cut.now) }
{
    for change in changes {
        if leaves_change(changes, cut, change) {
            return true;
        }
    }
    false
}

// Whether a change ends a directory of which an own change is left.
fn leaves_change(changes: &[OwnChange], cut: &Cut, change: &OwnChange) -> bool
    ensures { (result ≡ true) ↔ LeavesChange changes.now cut.now change.now }
{
    change.ends && is_flushed(cut, change) && has_left(changes, cut, change.child)
}

// Whether an own change of a directory does not lie below its cut.
fn has_left(changes: &[OwnChange], cut: &Cut, directory: u32) -> bool
    ensures { (result ≡ true) ↔ SomeIs changes.now (IsLeft cut.now directory) }
{
    for change in changes {
        if is_left(cut, directory, change) {
            return true;
        }
    }
    false
}

// Whether a change is an own one of a directory and does not lie below its cut.
fn is_left(cut: &Cut, directory: u32, change: &OwnChange) -> bool
    ensures { (result ≡ true) ↔ IsLeft cut.now directory change.now }
{
    change.directory == directory && cut.get(directory) <= change.stamp
}

// Whether one of some births is late.
fn bears_late(births: &[BornNode], changes: &[OwnChange], cut: &Cut) -> bool
    ensures { (result ≡ true) ↔ SomeIs births.now (IsBornLate changes.now cut.now) }
{
    for born in births {
        if is_born_late(born, changes, cut) {
            return true;
        }
    }
    false
}

// Whether a birth does not lie below its place's cut, though an own change of the node lies below the node's.
fn is_born_late(born: &BornNode, changes: &[OwnChange], cut: &Cut) -> bool
    ensures { (result ≡ true) ↔ IsBornLate changes.now cut.now born.now }
{
    cut.get(born.directory) <= born.stamp && has_flushed(changes, cut, born.node)
}

// Whether an own change of a directory lies below its cut.
fn has_flushed(changes: &[OwnChange], cut: &Cut, directory: u32) -> bool
    ensures { (result ≡ true) ↔ SomeIs changes.now (IsFlushedIn cut.now directory) }
{
    for change in changes {
        if is_flushed_in(cut, directory, change) {
            return true;
        }
    }
    false
}

// Whether a change is an own one of a directory and lies below its cut.
fn is_flushed_in(cut: &Cut, directory: u32, change: &OwnChange) -> bool
    ensures { (result ≡ true) ↔ IsFlushedIn cut.now directory change.now }
{
    change.directory == directory && change.stamp < cut.get(directory)
}

// Whether one of some changes lacks an ancestor.
fn lacks_ancestors(changes: &[OwnChange], cut: &Cut) -> bool
    ensures { (result ≡ true) ↔ SomeIs changes.now (LacksAncestor changes.now cut.now) }
{
    for change in changes {
        if lacks_ancestor(changes, cut, change) {
            return true;
        }
    }
    false
}

// Whether a change moved a directory, and on the way up from the new holder some node's last placing is not flushed.
fn lacks_ancestor(changes: &[OwnChange], cut: &Cut, change: &OwnChange) -> bool
    ensures { (result ≡ true) ↔ LacksAncestor changes.now cut.now change.now }
{
    match &change.above {
        Some(above) => is_flushed(cut, change) && has_unplaced(changes, cut, change, above),
        None => false,
    }
}

// Whether the last placing of the changed directory, or of one of those above it, is not flushed.
fn has_unplaced(changes: &[OwnChange], cut: &Cut, change: &OwnChange, above: &[u32]) -> bool
    ensures { (result ≡ true) ↔ HasUnplaced changes.now cut.now change.now.stamp change.now.directory above.now }
{
    let mut node = change.directory;
    for holder in above {
        if is_unplaced(changes, cut, change.stamp, node, *holder) {
            return true;
        }
        node = *holder;
    }
    false
}

// Whether the last placing of a node below a stamp does not lie below the holder's cut.
fn is_unplaced(changes: &[OwnChange], cut: &Cut, below: u64, node: u32, holder: u32) -> bool
    ensures { (result ≡ true) ↔ IsUnplaced changes.now cut.now below node holder }
{
    match last_placing(changes, node, below) {
        Some(last) => cut.get(holder) <= last,
        None => false,
    }
}

// The stamp of the last change below a stamp that places a node.
fn last_placing(changes: &[OwnChange], node: u32, below: u64) -> Option<u64>
    ensures { IsLatest changes.now node below result }
{
    let mut last = None;
    for change in changes {
        if places_below(node, below, change) {
            last = Some(later(last, change.stamp));
        }
    }
    last
}

// Whether a change places a node and lies below a stamp.
fn places_below(node: u32, below: u64, change: &OwnChange) -> bool
    ensures { (result ≡ true) ↔ PlacesBelow node below change.now }
{
    change.places && change.child == node && change.stamp < below
}

// The greater of two stamps, where the first is there.
fn later(last: Option<u64>, stamp: u64) -> u64
    ensures { result ≡ later last stamp }
{
    match last {
        Some(last) => last.max(stamp),
        None => stamp,
    }
}
