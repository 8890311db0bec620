// Parts of a directory's changes by their stamps, which stand side by side since the changes are in order.
ghost use Rattle.std.specs.Prelude.{◌≡◌, ◌≤◌, ◌+◌, ◌∷◌, ℕ, nat_lt, filter, take, drop, length, position, not, All};
ghost use Rattle.std.specs.List.{list_any};
ghost use Rattle.mem_cells.specs.Log.{IsInOrder, is_from};
ghost use Rattle.tree_laws.specs.Logged.{is_end_of, adds_any, adds_name};
ghost use Rattle.dep_closure.specs.Spans.{is_of_stamp, is_in_span, ended_by};

use sfs_base::{Kind, NodeId, Stamp};
use tree_laws::{Act, Change};

// The changes from one stamp to below another. It takes time in proportion to the logarithm of their number.
pub(crate) fn span(changes: &[Change], from: Stamp, below: Stamp) -> &[Change]
    requires { IsInOrder changes.now }
    ensures items { result.now ≡ filter (is_in_span from.0 below.0) changes.now }
    ensures in_order { IsInOrder result.now }
{
    let late = from_stamp(changes, from);
    &late[..place_of(late, below)]
}

// The changes from a stamp on.
pub(crate) fn from_stamp(changes: &[Change], from: Stamp) -> &[Change]
    requires { IsInOrder changes.now }
    ensures items { result.now ≡ filter (is_from from.0) changes.now }
    ensures in_order { IsInOrder result.now }
{
    &changes[place_of(changes, from)..]
}

// How many changes lie below a stamp.
fn place_of(changes: &[Change], stamp: Stamp) -> usize
    requires { IsInOrder changes.now }
    ensures bound { result ≤ length changes.now }
    ensures behind { drop result changes.now ≡ filter (is_from stamp.0) changes.now }
    ensures before { take result changes.now ≡ filter (λ change. nat_lt change.stamp.0 stamp.0) changes.now }
{
    changes.partition_point(|change| change.stamp.0 < stamp.0)
}

// The directory that a change ends, by the changes that stand behind it.
pub(crate) fn ended_child(change: &Change, later: &[Change]) -> Option<NodeId>
    requires { IsInOrder (change.now ∷ later.now) }
    ensures { result ≡ ended_by later.now change.now }
{
    let own = of_stamp(later, change.stamp);
    if ends_child(change, own) {
        Some(change.child)
    } else {
        None
    }
}

// The changes of a stamp, of which none has a lower one. It takes time in proportion to the number of those of the stamp.
fn of_stamp(changes: &[Change], stamp: Stamp) -> &[Change]
    requires order { IsInOrder changes.now }
    requires no_lower { All (λ change. stamp.0 ≤ change.stamp.0) changes.now }
    ensures { result.now ≡ filter (is_of_stamp stamp.0) changes.now }
{
    match end_of(changes, stamp) {
        Some(end) => &changes[..end],
        None => changes,
    }
}

// The place of the first change that is not of a stamp.
fn end_of(changes: &[Change], stamp: Stamp) -> Option<usize>
    ensures { result ≡ position (λ change. not (is_of_stamp stamp.0 change)) changes.now }
{
    changes.iter().position(|change| change.stamp.0 != stamp.0)
}

// Whether a change ends its child, by the changes of its stamp that stand behind it.
fn ends_child(change: &Change, own: &[Change]) -> bool
    ensures { result ≡ is_end_of own.now change.now }
{
    change.act == Act::Remove
        && change.kind == Kind::Directory
        && (is_replaced(change, own) || change.other.is_none() && !has_addition(own))
}

// Whether a row of a change's name comes.
fn is_replaced(change: &Change, own: &[Change]) -> bool
    ensures { result ≡ list_any (adds_name change.now.name) own.now }
{
    own.iter().any(|next| next.act == Act::Add && next.name.bytes() == change.name.bytes())
}

// Whether any row comes.
fn has_addition(own: &[Change]) -> bool
    ensures { result ≡ list_any adds_any own.now }
{
    own.iter().any(|next| next.act == Act::Add)
}
