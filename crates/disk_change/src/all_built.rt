// What a commit makes of all its nodes, with the numbers and the blocks of a grant.
ghost use Rattle.std.specs.Prelude.{◌≡◌, ◌++◌, ◌↔◌, ◌⊎◌, ℕ, IfOk, OnOk, None, [], map, take, drop, Contains};
ghost use Rattle.std.specs.Ordering.{nat_cmp};
ghost use Rattle.std.specs.BTreeMap.{get};
ghost use Rattle.std.specs.Option.{unwrap_or, option_map_or};
ghost use Rattle.std.specs.List.{flat_map};
ghost use Rattle.disk_change.specs.AllBuilt.{nodes_built as built_of_seats, built_by, fresh_of_node};
ghost use Rattle.disk_change.specs.Built.{rewrite_in};
ghost use Rattle.disk_change.specs.GivenUp.{IsLeftBySeat};
ghost use Rattle.disk_change.specs.Parts.{CanAllBePut, CanBePut, HavePatches, built_in, built_with, seat_in, seat_with, slots_begun};
ghost use Rattle.disk_change.specs.Patched.{IsPatchFor};
ghost use Rattle.disk_change.specs.Planned.{blocks_taken};
ghost use Rattle.disk_change.specs.Seated.{changes_in, net_of_node};
ghost use Rattle.block_map.specs.Remap.{AreFreed};

use crate::begun::slots_kept;
use crate::files::FileChangeList;
use crate::fresh::push_fresh;
use crate::node_built::{BuiltAndFreed, NodeBuilt, build_node};
use crate::numbers::number_of;
use crate::pages::PageList;
use crate::plans::Plans;
use crate::seat::{Seat, net_of};
use block_map::blocks_needed;
use disk_nodes::{DirectorySlots, OldDisk};
use fmt_journal::TxBlock;
use fmt_slots::SlotBlock;
use sfs_base::{NoMemory, NodeId};
use std::alloc::Global;
use std::collections::BTreeMap;

// The nodes of a commit as they are built, the fresh blocks that are written of them, and the blocks that they
// give up, in any order.
#[derive(Drop)]
pub(crate) struct NodesBuilt {
    pub(crate) nodes: Vec<NodeBuilt>,
    pub(crate) written: Vec<TxBlock>,
    pub(crate) freed: Vec<u32>,
}

// Builds nodes of which the disk has this; they cut these fresh blocks among them: each takes as many as it needs.
pub(crate) fn nodes_built(
    alloc: Global,
    old: &OldDisk,
    seats: &[Seat],
    plans: &Plans,
    numbers: &BTreeMap<u32, Option<u32>>,
    fresh: &[u32],
) -> Result<NodesBuilt, NoMemory>
    requires { HavePatches old.now.items plans.now.nets.items seats.now }
    ensures nodes { IfOk result (λ made. map (built_in old.now.items) made.nodes.items ≡ built_of_seats (changes_in plans.now.directories plans.now.nets.items plans.now.files.items)
        (λ node. unwrap_or (get nat_cmp numbers.now node) None) (map (seat_in old.now.items) seats.now) fresh.now) }
    ensures written { IfOk result (λ made. made.written.items
        ≡ flat_map (fresh_of_node plans.now.files.items) (map (built_in old.now.items) made.nodes.items)) }
    ensures freed { IfOk result (λ made. (block : ℕ) → Contains made.freed.items block ↔ IsLeftBySeat (map (seat_in old.now.items) seats.now) block) }
    ensures put { IfOk result (λ made. CanAllBePut old.now.items made.nodes.items) }
{
    let mut nodes = Vec::new(alloc);
    let mut written = Vec::new(alloc);
    let mut freed = Vec::new(alloc);
    let mut left = fresh;
    let none = DirectorySlots::new(alloc);
    for seat in seats {
        let slots = slots_of(old, &none, seat.number, seat.node);
        let count = blocks_needed(&seat.meta, &seat.tables, &seat.changed) as usize;
        let one = build_seat(alloc, seat, slots, plans, numbers, first_of(left, count))?;
        left = rest_of(left, count);
        push_blocks(
            alloc,
            &mut written,
            &one.built,
            slots.as_slice(),
            &plans.files,
        )?;
        freed.extend_from_slice(one.freed.as_slice())?;
        nodes.push(one.built)?;
    }
    Ok(NodesBuilt {
        nodes,
        written,
        freed,
    })
}

// The slots that a node begins with: those that the disk has of it where it has an inode, and none where it
// enters.
fn slots_of<'a>(
    old: &'a OldDisk,
    none: &'a DirectorySlots,
    own: Option<u32>,
    node: NodeId,
) -> &'a DirectorySlots
    requires { none.now ≡ [] }
    ensures { result.now ≡ slots_begun old.now.items own node.0 }
{
    if own.is_none() {
        return none;
    }
    match old.find(node.0) {
        Some(entry) => slots_kept(entry),
        None => none,
    }
}

// The first numbers of a list, as far as there are so many.
fn first_of(numbers: &[u32], count: usize) -> &[u32]
    ensures { result.now ≡ take count numbers.now }
{
    if count < numbers.len() {
        &numbers[..count]
    } else {
        numbers
    }
}

// And the others.
fn rest_of(numbers: &[u32], count: usize) -> &[u32]
    ensures { result.now ≡ drop count numbers.now }
{
    if count < numbers.len() {
        &numbers[count..]
    } else {
        &[]
    }
}

// Builds a node that begins with these slots, with its fresh blocks.
fn build_seat(
    alloc: Global,
    seat: &Seat,
    slots: &DirectorySlots,
    plans: &Plans,
    numbers: &BTreeMap<u32, Option<u32>>,
    fresh: &[u32],
) -> Result<BuiltAndFreed, NoMemory>
    requires { IsPatchFor (net_of_node plans.now.nets.items seat.now.node) seat.now.end slots.now seat.now.patch }
    ensures built { IfOk result (λ one. built_with slots.now one.built ≡ built_by (changes_in plans.now.directories plans.now.nets.items plans.now.files.items)
        (λ node. unwrap_or (get nat_cmp numbers.now node) None) fresh.now (seat_with slots.now seat.now)) }
    ensures own { IfOk result (λ one. one.built.own ≡ seat.now.number) }
    ensures put { IfOk result (λ one. CanBePut slots.now one.built) }
    ensures freed { IfOk result (λ one. AreFreed (rewrite_in (seat_with slots.now seat.now)) one.freed.items) }
{
    let number = number_of(numbers, seat.node.0);
    let net = net_of(&plans.nets, seat.node);
    build_node(alloc, seat, slots, number, net, numbers, fresh)
}

// Puts the fresh blocks of a node that begins with these slots behind others.
fn push_blocks(
    alloc: Global,
    blocks: &mut Vec<TxBlock>,
    node: &NodeBuilt,
    slots: &[SlotBlock],
    files: &FileChangeList,
) -> Result<(), NoMemory>
    ensures { OnOk result (blocks.new.items ≡ blocks.old.items ++ fresh_of_node files.now.items (built_with slots.now node.now)) }
{
    match files.find(node.node.0) {
        Some(one) => push_fresh(blocks, node, slots, &one.pages),
        None => push_fresh(blocks, node, slots, &PageList::new(alloc)),
    }
}
