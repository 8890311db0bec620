// What a commit makes of one node, with its number and its fresh blocks.
ghost use Rattle.std.specs.Prelude.{◌≡◌, None, map, take, IfOk};
ghost use Rattle.std.specs.Ordering.{nat_cmp};
ghost use Rattle.std.specs.BTreeMap.{get};
ghost use Rattle.std.specs.Option.{unwrap_or};
ghost use Rattle.block_map.specs.Remap.{AreFreed};
ghost use Rattle.disk_change.specs.Lists.{NamesAscend};
ghost use Rattle.disk_change.specs.Numbered.{block_numbered};
ghost use Rattle.disk_change.specs.Built.{built, rewrite_in};
ghost use Rattle.disk_change.specs.Parts.{CanBePut, HasRoom, built_with, seat_with};
ghost use Rattle.disk_change.specs.Patched.{FitsBlocks, IsPatchFor, patched};

use crate::numbers::renumber;
use crate::patch::SlotPatch;
use crate::placed::PlacedSlots;
use crate::seat::Seat;
use absorb::NetRow;
use block_map::{Changed, TABLES, TableFate, remap};
use disk_nodes::{DirectorySlots, SlotsRoom};
use fmt_inode::{Inode, Tables};
use fmt_slots::SlotBlock;
use sfs_base::{BlockList, NoMemory, NodeId};
use std::alloc::Global;
use std::collections::BTreeMap;
use std::marker::Model;

// A node as the commit makes it, with what it rewrites of it: of its slots what changes, how many blocks of them
// stay, and where further blocks come room for all.
#[derive(Drop)]
pub(crate) struct NodeBuilt {
    pub(crate) node: NodeId,
    pub(crate) own: Option<u32>,
    pub(crate) number: u32,
    pub(crate) before: Inode,
    pub(crate) meta: Inode,
    pub(crate) tables: Tables,
    pub(crate) patch: SlotPatch,
    pub(crate) end: usize,
    pub(crate) changed: Changed,
    pub(crate) fates: [TableFate; TABLES],
    pub(crate) alloc: Global,
    pub(crate) room: Option<SlotsRoom>,
}

impl Model for NodeBuilt {
    ghost use Rattle.disk_change.specs.Parts.{BuiltParts};
    ghost use Rattle.disk_change.specs.Seated.{IsInUse};

    ghost Value = { BuiltParts };

    ghost view = { λ b. record {
      node = b.node.0;
      own = b.own;
      number = b.number;
      before = b.before;
      meta = b.meta;
      tables = b.tables.items;
      patch = b.patch;
      end = b.end;
      changed = b.changed.items;
      fates = b.fates;
      room = b.room;
    } };

    ghost invariant = { λ b. IsInUse b.meta };
}

// A node that is built, and the blocks that it gives up.
#[derive(Drop)]
pub(crate) struct BuiltAndFreed {
    pub(crate) built: NodeBuilt,
    pub(crate) freed: BlockList,
}

// What becomes of a node that begins with these slots, and has this number and these fresh blocks.
pub(crate) fn build_node(
    alloc: Global,
    seat: &Seat,
    slots: &DirectorySlots,
    number: u32,
    net: &[NetRow],
    numbers: &BTreeMap<u32, Option<u32>>,
    fresh: &[u32],
) -> Result<BuiltAndFreed, NoMemory>
    requires ascending { NamesAscend net.now }
    requires patch { IsPatchFor net.now seat.now.end slots.now seat.now.patch }
    ensures built { IfOk result (λ r. built_with slots.now r.built
        ≡ built (λ node. unwrap_or (get nat_cmp numbers.now node) None) net.now number fresh.now (seat_with slots.now seat.now)) }
    ensures own { IfOk result (λ r. r.built.own ≡ seat.now.number) }
    ensures put { IfOk result (λ r. CanBePut slots.now r.built) }
    ensures freed { IfOk result (λ r. AreFreed (rewrite_in (seat_with slots.now seat.now)) r.freed.items) }
{
    let patch = patch_numbered(alloc, slots.as_slice(), &seat.patch, seat.end, net, numbers)?;
    let room = room_for(alloc, slots, &patch)?;
    let after = remap(alloc, &seat.meta, &seat.tables, &seat.changed, fresh)?;
    let changed = changed_copy(alloc, &seat.changed)?;
    let fates = after.fates;
    Ok(BuiltAndFreed {
        built: NodeBuilt {
            node: seat.node,
            own: seat.number,
            number,
            before: seat.before,
            meta: after.inode,
            tables: after.tables,
            patch,
            end: seat.end,
            changed,
            fates,
            alloc,
            room,
        },
        freed: after.freed,
    })
}

// The same rewritten blocks.
fn changed_copy(alloc: Global, changed: &Changed) -> Result<Changed, NoMemory>
    ensures { IfOk result (λ copy. copy.items ≡ changed.now.items) }
{
    let mut items = Vec::new(alloc);
    items.extend_from_slice(changed.as_slice())?;
    Ok(Changed::from_vec(items))
}

// Room for all blocks of slots with a patch, where it has further ones.
fn room_for(
    alloc: Global,
    slots: &DirectorySlots,
    patch: &SlotPatch,
) -> Result<Option<SlotsRoom>, NoMemory>
    requires { FitsBlocks slots.now patch.now }
    ensures { IfOk result (HasRoom slots.now patch.now) }
{
    if patch.further.is_empty() {
        return Ok(None);
    }
    Ok(Some(slots.room_for(alloc, patch.further.len())?))
}

// A patch with the numbers of children: no other block up to an end has a name of the net.
fn patch_numbered(
    alloc: Global,
    slots: &[SlotBlock],
    patch: &SlotPatch,
    end: usize,
    net: &[NetRow],
    numbers: &BTreeMap<u32, Option<u32>>,
) -> Result<SlotPatch, NoMemory>
    requires ascending { NamesAscend net.now }
    requires patch { IsPatchFor net.now end slots.now patch.now }
    ensures slots { IfOk result (λ r. take end (patched r slots.now)
        ≡ map (block_numbered (λ node. unwrap_or (get nat_cmp numbers.now node) None) net.now) (take end (patched patch.now slots.now))) }
    ensures fits { IfOk result (FitsBlocks slots.now) }
{
    let mut changed = Vec::new(alloc);
    for one in &patch.changed {
        let slots = block_renumbered(&one.slots, net, numbers)?;
        changed.push(PlacedSlots {
            place: one.place,
            slots,
        })?;
    }
    let mut further = Vec::new(alloc);
    for block in &patch.further {
        further.push(block_renumbered(block, net, numbers)?)?;
    }
    Ok(SlotPatch { changed, further })
}

// A block with the numbers of children.
fn block_renumbered(
    block: &SlotBlock,
    net: &[NetRow],
    numbers: &BTreeMap<u32, Option<u32>>,
) -> Result<SlotBlock, NoMemory>
    requires { NamesAscend net.now }
    ensures { IfOk result (λ r. r ≡ block_numbered (λ node. unwrap_or (get nat_cmp numbers.now node) None) net.now block.now) }
{
    let mut copy = block.copy()?;
    renumber(&mut copy, net, numbers)?;
    Ok(copy)
}
