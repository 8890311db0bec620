// The net of a directory's changes by the changes alone: the first and the last change of each name tell it.
ghost use Rattle.std.specs.Prelude.{◌≡◌, ◌++◌, None, reverse, filter_map, option_to_list, IfOk, OnOk};
ghost use Rattle.sfs_base.specs.Name.{name_fault};
ghost use Rattle.absorb.specs.Last.{lent, AreLast, net_row};
ghost use Rattle.absorb.specs.Net.{child_after};
ghost use Rattle.flush_plan.specs.Ends.{lent_between, child_lent};
ghost use Rattle.flush_plan.specs.Net.{HasGoodNames, IsNetBy, child_before};

use absorb::{Net, NetRow};
use sfs_base::{NoMemory, NodeId, RoomyList};
use std::alloc::Global;
use std::collections::BTreeMap;
use tree_laws::{Act, Change};

// Changes by the bytes of their names, one a name.
type ByName<'a> = BTreeMap<&'a [u8], &'a Change>;

// The net of some changes of a directory, which stand in their order.
pub(crate) fn net_by(alloc: Global, changes: &[Change]) -> Result<Net, NoMemory>
    ensures net { IfOk result (λ net. IsNetBy changes.now net.items) }
    ensures names { IfOk result (λ net. HasGoodNames net.items) }
{
    let first = first_changes(alloc, changes)?;
    let last = last_changes(alloc, changes)?;
    let rows = rows_between(alloc, &first, &last)?;
    Ok(RoomyList::from_vec(rows))
}

// The first change of each name: from the last change on, each takes the place of a later one.
fn first_changes(alloc: Global, changes: &[Change]) -> Result<ByName<'_>, NoMemory>
    ensures { IfOk result (λ first. AreLast (reverse changes.now) (lent first.entries)) }
{
    let mut first = BTreeMap::new(alloc);
    let mut left = changes.len();
    while left > 0 {
        left -= 1;
        let change = &changes[left];
        first.insert(change.name.bytes(), change)?;
    }
    Ok(first)
}

// The last change of each name.
fn last_changes(alloc: Global, changes: &[Change]) -> Result<ByName<'_>, NoMemory>
    ensures { IfOk result (λ last. AreLast changes.now (lent last.entries)) }
{
    let mut last = BTreeMap::new(alloc);
    for change in changes {
        last.insert(change.name.bytes(), change)?;
    }
    Ok(last)
}

// The rows of the net, in the order of the names.
fn rows_between(
    alloc: Global,
    first: &ByName<'_>,
    last: &ByName<'_>,
) -> Result<Vec<NetRow>, NoMemory>
    ensures rows { IfOk result (λ net. net.items ≡ filter_map (lent_between first.now) last.now.entries) }
    ensures names { IfOk result (λ net. HasGoodNames net.items) }
{
    let mut net = Vec::new(alloc);
    for (_, change) in last {
        push_row(&mut net, child_stood(first, change), change)?;
    }
    Ok(net)
}

// The child that a change's name has before all changes.
fn child_stood(first: &ByName<'_>, change: &Change) -> Option<NodeId>
    ensures child { result ≡ child_lent first.now change.now.name }
    ensures grammar { name_fault change.now.name ≡ None }
{
    match first.get(change.name.bytes()) {
        Some(first) => child_taken(first),
        None => None,
    }
}

// The child that a removal takes away.
fn child_taken(change: &Change) -> Option<NodeId>
    ensures { result ≡ child_before change.now.act change.now.child }
{
    match change.act {
        Act::Add => None,
        Act::Remove => Some(change.child),
    }
}

// The child that an addition brings.
fn child_left(change: &Change) -> Option<NodeId>
    ensures { result ≡ child_after change.now.act change.now.child }
{
    match change.act {
        Act::Add => Some(change.child),
        Act::Remove => None,
    }
}

// Puts the row of a name behind the others, where its last change leaves it another child than it had.
fn push_row(net: &mut Vec<NetRow>, before: Option<NodeId>, change: &Change) -> Result<(), NoMemory>
    ensures { OnOk result (net.new.items
        ≡ net.old.items ++ option_to_list (net_row change.now.name before (child_after change.now.act change.now.child))) }
{
    let after = child_left(change);
    if before != after {
        net.push(NetRow {
            name: change.name.copy()?,
            before,
            after,
        })?;
    }
    Ok(())
}
