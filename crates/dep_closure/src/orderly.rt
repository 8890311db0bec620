// Whether what was gathered stands in order.
ghost use Rattle.std.specs.Prelude.{◌≡◌, ◌↔◌, true, nat_le, map, All};
ghost use Rattle.std.specs.List.Sorted.{IsStrictlyIncreasing};
ghost use Rattle.mem_cells.specs.Log.{log_place, IsInOrder};
ghost use Rattle.dep_closure.specs.Gathered.{IsOrderly, IsOwnLog};

use crate::gathered::{DirectoryChanges, Gathered};
use crate::lookup::ByNode;
use tree_laws::{Act, Change};

impl Gathered {
    /// Whether each list ascends by node, and each log has changes of its own directory alone, by their
    /// stamps. It reads all of it once.
    pub fn is_orderly(&self) -> bool
        ensures { (result ≡ true) ↔ IsOrderly self.now }
    {
        if !ascends(self.logs.as_slice()) || !ascends(self.cuts.as_slice()) {
            return false;
        }
        if !ascends(self.births.as_slice()) || !ascends(self.inodes.as_slice()) {
            return false;
        }
        are_own_logs(self.logs.as_slice())
    }
}

// Whether items ascend by node.
fn ascends<T: ByNode>(items: &[T]) -> bool
    ensures { (result ≡ true) ↔ IsStrictlyIncreasing (map T.number items.now) }
{
    for at in 1..items.len() {
        if items[at - 1].node().0 >= items[at].node().0 {
            return false;
        }
    }
    true
}

// Whether each log is one of its directory.
fn are_own_logs(logs: &[DirectoryChanges]) -> bool
    ensures { (result ≡ true) ↔ All IsOwnLog logs.now }
{
    for log in logs {
        if !is_own_log(log) {
            return false;
        }
    }
    true
}

// Whether a log has changes of its directory alone, in order.
fn is_own_log(log: &DirectoryChanges) -> bool
    ensures { (result ≡ true) ↔ IsOwnLog log.now }
{
    let changes = log.changes.as_slice();
    for change in changes {
        if change.dir.0 != log.dir.0 {
            return false;
        }
    }
    is_in_order(changes)
}

// Whether changes stand in order.
fn is_in_order(changes: &[Change]) -> bool
    ensures { (result ≡ true) ↔ IsInOrder changes.now }
{
    for at in 1..changes.len() {
        if !is_no_later(&changes[at - 1], &changes[at]) {
            return false;
        }
    }
    true
}

// Whether a change stands no later than another.
fn is_no_later(change: &Change, other: &Change) -> bool
    ensures { result ≡ nat_le (log_place change.now) (log_place other.now) }
{
    change.stamp.0 < other.stamp.0
        || change.stamp.0 == other.stamp.0 && (change.act == Act::Remove || other.act == Act::Add)
}
