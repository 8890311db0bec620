// The numbers of a commit's nodes, and its rows with them.
ghost use Rattle.std.specs.Prelude.{◌≡◌, ◌<◌, ℕ, [], map, None, Some, IfOk, OnOk, slice_index_or};
ghost use Rattle.std.specs.Ordering.{nat_cmp};
ghost use Rattle.std.specs.BTreeMap.{get};
ghost use Rattle.std.specs.Option.{unwrap_or};
ghost use Rattle.disk_change.specs.Lists.{NamesAscend};
ghost use Rattle.disk_change.specs.Parts.{seat_with};
ghost use Rattle.disk_change.specs.Numbered.{numbers_given, number_in, number_given as given_of, grant_left as left_of, block_numbered, slot_numbered, IsPut};

use crate::block::row_of;
use crate::seat::Seat;
use absorb::NetRow;
use fmt_slots::{SlotBlock, SlotRow};
use sfs_base::NoMemory;
use std::alloc::Global;
use std::collections::BTreeMap;

// A node of a commit and its number: its own, or one of the grant, and none where that has none left.
#[derive(Clone, Copy)]
pub(crate) struct NodeNumber {
    pub(crate) node: u32,
    pub(crate) number: Option<u32>,
}

// The numbers of the nodes of a commit: each keeps its own, and those that enter get those of the
// grant, in their order.
pub(crate) fn numbers_of_seats(
    alloc: Global,
    seats: &[Seat],
    grant: &[u32],
) -> Result<Vec<NodeNumber>, NoMemory>
    ensures { IfOk result (λ numbers. numbers.items ≡ numbers_given (map (seat_with []) seats.now) grant.now) }
{
    let mut numbers = Vec::new(alloc);
    let mut left = grant;
    for seat in seats {
        numbers.push(NodeNumber {
            node: seat.node.0,
            number: number_given(seat.number, left),
        })?;
        left = grant_left(seat.number, left);
    }
    Ok(numbers)
}

// A node's own number, or the first one that is left of a grant.
fn number_given(own: Option<u32>, left: &[u32]) -> Option<u32>
    ensures { result ≡ given_of own left.now }
{
    match own {
        Some(number) => Some(number),
        None => left.first().copied(),
    }
}

// What a node leaves of a grant.
fn grant_left(own: Option<u32>, left: &[u32]) -> &[u32]
    ensures { result.now ≡ left_of own left.now }
{
    if own.is_some() || left.is_empty() {
        left
    } else {
        &left[1..]
    }
}

// The numbers of nodes, to look them up.
pub(crate) fn by_node(
    alloc: Global,
    numbers: &[NodeNumber],
) -> Result<BTreeMap<u32, Option<u32>>, NoMemory>
    ensures { IfOk result (λ map. (node : ℕ) → unwrap_or (get nat_cmp map node) None ≡ number_in numbers.now node) }
{
    let mut map = BTreeMap::new(alloc);
    for one in numbers {
        map.insert(one.node, one.number)?;
    }
    Ok(map)
}

// The number of a node, and 0 for one that the commit does not have.
pub(crate) fn number_of(numbers: &BTreeMap<u32, Option<u32>>, node: u32) -> u32
    ensures { result ≡ unwrap_or (unwrap_or (get nat_cmp numbers.now node) None) 0 }
{
    match numbers.get(&node) {
        Some(number) => number.unwrap_or(0),
        None => 0,
    }
}

// Gives the rows of a block whose names a net has their numbers: they have named their children by
// nodes so far.
pub(crate) fn renumber(
    block: &mut SlotBlock,
    net: &[NetRow],
    numbers: &BTreeMap<u32, Option<u32>>,
) -> Result<(), NoMemory>
    requires { NamesAscend net.now }
    ensures { OnOk result (block.new ≡ block_numbered (λ node. unwrap_or (get nat_cmp numbers.now node) None) net.now block.old) }
{
    for place in 0..block.len() {
        if let Some(row) = renumbered(block, net, numbers, place)? {
            block.put(place, Some(row));
        }
    }
    Ok(())
}

// The row in a slot with its child's number, where the net has its name.
fn renumbered(
    block: &SlotBlock,
    net: &[NetRow],
    numbers: &BTreeMap<u32, Option<u32>>,
    place: usize,
) -> Result<Option<SlotRow>, NoMemory>
    requires place { place < 15 }
    requires ascending { NamesAscend net.now }
    ensures { IfOk result (λ row. IsPut (slice_index_or block.now place None) row
        (slot_numbered (λ node. unwrap_or (get nat_cmp numbers.now node) None) net.now (slice_index_or block.now place None))) }
{
    match block.row(place) {
        Some(row) => row_renumbered(row, net, numbers),
        None => Ok(None),
    }
}

// A row with its child's number, where the net has its name.
fn row_renumbered(
    row: &SlotRow,
    net: &[NetRow],
    numbers: &BTreeMap<u32, Option<u32>>,
) -> Result<Option<SlotRow>, NoMemory>
    requires { NamesAscend net.now }
    ensures { IfOk result (λ own. IsPut (Some row.now) own
        (slot_numbered (λ node. unwrap_or (get nat_cmp numbers.now node) None) net.now (Some row.now))) }
{
    match row_of(net, row.name.bytes()) {
        Some(_) => Ok(Some(SlotRow {
            inode: number_of(numbers, row.inode),
            kind: row.kind,
            name: row.name.copy()?,
        })),
        None => Ok(None),
    }
}
