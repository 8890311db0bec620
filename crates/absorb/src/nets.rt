// The rows are made from the last change of each name, in the order of the names.
ghost use Rattle.std.specs.Prelude.{◌≡◌, ◌++◌, IfOk, OnOk, OnErr, filter_map, option_to_list};
ghost use Rattle.absorb.specs.Net.{IsNet, rows_with_changes, child_after};
ghost use Rattle.absorb.specs.Last.{lent_row, net_row_by};

use crate::last::{ByName, last_changes};
use sfs_base::{Name, NoMemory, NodeId, RoomyList};
use std::alloc::Global;
use tree_laws::{Act, Change, Changes, NameMap};

/// A name whose child differs: the child before and the one after, each `None` where no row has the
/// name.
#[derive(Drop)]
pub struct NetRow {
    pub name: Name,
    pub before: Option<NodeId>,
    pub after: Option<NodeId>,
}

/// What changes of a directory come to: its names whose child differs, ascending by their bytes.
pub type Net = RoomyList<NetRow>;

/// The net of a directory's changes, in their order, over its rows before. All changes are taken as
/// those of one directory. An addition replaces the row that has its name; a removal takes the row of
/// its name away, and does nothing where there is none. With n rows and m changes it takes time in
/// m log m + m log n, and it copies the names that the net has. Only want of memory refuses it.
pub fn net_of(alloc: Global, rows: &NameMap, changes: &Changes) -> Result<Net, NoMemory>
    ensures { IfOk result (λ net. IsNet rows.now (rows_with_changes rows.now changes.now.items) net.items) }
{
    let last = last_changes(alloc, changes.as_slice())?;
    let net = rows_of(alloc, rows, &last)?;
    Ok(RoomyList::from_vec(net))
}

// The rows of the net, from the last change of each name.
fn rows_of(alloc: Global, rows: &NameMap, last: &ByName<'_>) -> Result<Vec<NetRow>, NoMemory>
    ensures { IfOk result (λ net. net.items ≡ filter_map (lent_row rows.now) last.now.entries) }
{
    let mut net = Vec::new(alloc);
    for (_, change) in last {
        push_row(&mut net, rows, change)?;
    }
    Ok(net)
}

// Puts the row of a name's last change behind the others, where it changes the name's child.
fn push_row(net: &mut Vec<NetRow>, rows: &NameMap, change: &Change) -> Result<(), NoMemory>
    ensures ok { OnOk result (net.new.items ≡ net.old.items ++ option_to_list (net_row_by rows.now change.now)) }
    ensures err { OnErr result (net.new.items ≡ net.old.items) }
{
    let before = rows.get(&change.name);
    let after = child_left(change);
    if before != after {
        net.push(NetRow {
            name: change.name.copy()?,
            before,
            after,
        })?;
    }
    Ok(())
}

// The child that a change leaves its name with.
fn child_left(change: &Change) -> Option<NodeId>
    ensures { result ≡ child_after change.now.act change.now.child }
{
    match change.act {
        Act::Add => Some(change.child),
        Act::Remove => None,
    }
}
