// One block of a directory after a net.
ghost use Rattle.std.specs.Prelude.{◌≡◌, ◌&&◌, ◌||◌, reverse, IfOk, OnOk, is_none, is_some, ◌<◌, ◌≤◌, length, true, false, slice_index_or, None};
ghost use Rattle.std.specs.List.Sorted.{IsPartitionPoint};
ghost use Rattle.std.specs.Ordering.{is_lt};
ghost use Rattle.tree_laws.specs.Order.{name_cmp};
ghost use Rattle.std.specs.List.{list_any};
ghost use Rattle.std.specs.Option.{option_copied, option_and_then};
ghost use Rattle.image_laws.specs.Commit.{row_in_net};
ghost use Rattle.disk_change.specs.Lists.{NamesAscend};
ghost use Rattle.disk_change.specs.Directory.{row_brought, block_moved, is_in_net, fill_front, rows_left, block_is_touched};

use crate::kinds::Directories;
use absorb::NetRow;
use fmt_slots::{SlotBlock, SlotRow};
use sfs_base::{Kind, Name, NoMemory, NodeId};
use std::cmp::Ordering;

// The row of a net that has this name, where there is one.
pub(crate) fn row_of<'a>(net: &'a [NetRow], name: &[u8]) -> Option<&'a NetRow>
    requires { NamesAscend net.now }
    ensures { option_copied result ≡ row_in_net name.now net.now }
{
    let place = place_of(net, name);
    if place >= net.len() {
        return None;
    }
    let row = &net[place];
    if row.name.bytes() == name {
        Some(row)
    } else {
        None
    }
}

// How many rows of a net have lesser names.
fn place_of(net: &[NetRow], name: &[u8]) -> usize
    requires { NamesAscend net.now }
    ensures bound { result ≤ length net.now }
    ensures parted { IsPartitionPoint (λ row. is_lt (name_cmp row.name name.now) ≡ true) (λ row. is_lt (name_cmp row.name name.now) ≡ false) net.now result }
{
    net.partition_point(|row| row.name.bytes().cmp(name) == Ordering::Less)
}

// The row that a name has after a net.
pub(crate) fn brought(row: &NetRow, directories: &Directories) -> Result<Option<SlotRow>, NoMemory>
    ensures { IfOk result (λ slot. slot ≡ row_brought directories.now row.now) }
{
    match row.after {
        Some(child) => Ok(Some(slot_row(child, directories.kind_of(child), row.name.copy()?))),
        None => Ok(None),
    }
}

// A row as a slot has it.
fn slot_row(child: NodeId, kind: Kind, name: Name) -> SlotRow
    ensures { result ≡ record { inode = child.0; kind = kind; name = name } }
{
    SlotRow {
        inode: child.0,
        kind,
        name,
    }
}

// Empties the slots of names that are gone, and gives names with another child their rows.
pub(crate) fn move_rows(
    block: &mut SlotBlock,
    net: &[NetRow],
    directories: &Directories,
) -> Result<(), NoMemory>
    requires { NamesAscend net.now }
    ensures { OnOk result (block.new ≡ block_moved directories.now net.now block.old) }
{
    for place in 0..block.len() {
        if let Some(row) = changed_at(block, net, place) {
            block.put(place, brought(row, directories)?);
        }
    }
    Ok(())
}

// Whether a block has a name of a net.
pub(crate) fn has_name(block: &SlotBlock, net: &[NetRow]) -> bool
    requires { NamesAscend net.now }
    ensures { result ≡ list_any (is_in_net net.now) block.now }
{
    for place in 0..block.len() {
        if changed_at(block, net, place).is_some() {
            return true;
        }
    }
    false
}

// Whether a block has an empty slot.
pub(crate) fn has_room(block: &SlotBlock) -> bool
    ensures { result ≡ list_any is_none block.now }
{
    for place in 0..block.len() {
        if block.row(place).is_none() {
            return true;
        }
    }
    false
}

// The row of the net that has the name in a slot, where there is one.
fn changed_at<'a>(block: &SlotBlock, net: &'a [NetRow], place: usize) -> Option<&'a NetRow>
    requires place { place < 15 }
    requires ascending { NamesAscend net.now }
    ensures { option_copied result ≡ option_and_then (λ row. row_in_net row.name net.now) (slice_index_or block.now place None) }
{
    match block.row(place) {
        Some(row) => row_of(net, row.name.bytes()),
        None => None,
    }
}

// Puts new rows into the empty slots of a block, as far as it has room. The rows wait in a list
// whose last comes first.
pub(crate) fn fill(block: &mut SlotBlock, waiting: &mut Vec<SlotRow>)
    ensures block { block.new ≡ fill_front block.old (reverse waiting.old.items) }
    ensures left { reverse waiting.new.items ≡ rows_left block.old (reverse waiting.old.items) }
{
    for place in 0..block.len() {
        if block.row(place).is_none() {
            block.put(place, waiting.pop());
        }
    }
}
