// What a commit makes of one node, before it has numbers and fresh blocks.
ghost use Rattle.std.specs.Prelude.{◌≡◌, [], IfOk};
ghost use Rattle.std.specs.Option.{option_map_or};
ghost use Rattle.disk_change.specs.Lists.{NamesAscend};
ghost use Rattle.keyed_list.specs.Ascending.{item_with};
ghost use Rattle.disk_change.specs.Nodes.{file_node};
ghost use Rattle.disk_change.specs.Parts.{seat_with};
ghost use Rattle.disk_change.specs.Patched.{IsPatchFor};
ghost use Rattle.disk_change.specs.Seat.{file_changed as blocks_of_pages};
ghost use Rattle.disk_change.specs.Seated.{changes_in, seated, directory_seated, file_seated, net_of_node, size_of_blocks};

use crate::begun::BegunNode;
use crate::directory::directory_after;
use crate::files::FileChangeList;
use crate::kinds::{DIRECTORY, FILE};
use crate::net_list::NetList;
use crate::patch::{SlotPatch, end_of, no_patch};
use crate::plans::Plans;
use crate::rewritten::{directory_changed, file_changed};
use absorb::NetRow;
use block_map::Changed;
use disk_nodes::DirectorySlots;
use fmt_inode::{Inode, Tables};
use fmt_slots::SlotBlock;
use sfs_base::{Kind, NoMemory, NodeId};
use std::alloc::Global;
use std::marker::Model;

// What becomes of a node that has an inode after a commit: of its slots what changes, and how many blocks of
// them stay.
#[derive(Drop)]
pub(crate) struct Seat {
    pub(crate) node: NodeId,
    pub(crate) number: Option<u32>,
    pub(crate) before: Inode,
    pub(crate) meta: Inode,
    pub(crate) tables: Tables,
    pub(crate) patch: SlotPatch,
    pub(crate) end: usize,
    pub(crate) changed: Changed,
}

impl Model for Seat {
    ghost use Rattle.disk_change.specs.Parts.{SeatParts};
    ghost use Rattle.disk_change.specs.Seated.{IsInUse};

    ghost Value = { SeatParts };

    ghost view = { λ s. record {
      node = s.node.0;
      number = s.number;
      before = s.before;
      meta = s.meta;
      tables = s.tables.items;
      patch = s.patch;
      end = s.end;
      changed = s.changed.items;
    } };

    ghost invariant = { λ s. IsInUse s.meta };
}

// What becomes of a node that begins with these slots.
pub(crate) fn seat_of(
    alloc: Global,
    begun: BegunNode,
    slots: &DirectorySlots,
    plans: &Plans,
) -> Result<Seat, NoMemory>
    ensures seat { IfOk result (λ seat. seat_with slots.now seat
        ≡ seated (changes_in plans.now.directories plans.now.nets.items plans.now.files.items) (record begun { slots = slots.now })) }
    ensures patch { IfOk result (λ seat. IsPatchFor (net_of_node plans.now.nets.items seat.node) seat.end slots.now seat.patch) }
{
    match begun.kind {
        Kind::File => file_seat(alloc, begun, slots.as_slice(), plans),
        Kind::Directory => directory_seat(alloc, begun, slots, plans),
    }
}

// What becomes of a directory.
fn directory_seat(
    alloc: Global,
    begun: BegunNode,
    slots: &DirectorySlots,
    plans: &Plans,
) -> Result<Seat, NoMemory>
    ensures seat { IfOk result (λ seat. seat_with slots.now seat
        ≡ directory_seated (changes_in plans.now.directories plans.now.nets.items plans.now.files.items) (record begun { slots = slots.now })) }
    ensures patch { IfOk result (λ seat. IsPatchFor (net_of_node plans.now.nets.items seat.node) seat.end slots.now seat.patch) }
{
    let BegunNode {
        node,
        number,
        kind: _,
        before,
        base,
        tables,
    } = begun;
    let net = net_of(&plans.nets, node);
    let patch = directory_after(alloc, slots, net, &plans.directories)?;
    let blocks = slots.as_slice();
    let end = end_of(blocks, &patch);
    let changed = directory_changed(alloc, &base, &tables, blocks, &patch, end)?;
    let links = plans.links.links_after(node, base.links);
    let meta = with(&base, DIRECTORY, links, size_of(end));
    Ok(Seat {
        node,
        number,
        before,
        meta,
        tables,
        patch,
        end,
        changed,
    })
}

// An inode with another kind, link count and size.
fn with(base: &Inode, kind: u8, links: u32, size: u64) -> Inode
    ensures { result ≡ record base.now { kind = kind; links = links; size = size } }
{
    let mut inode = *base;
    inode.kind = kind;
    inode.links = links;
    inode.size = size;
    inode
}

// The size of so many blocks.
fn size_of(count: usize) -> u64
    ensures { result ≡ size_of_blocks count }
{
    (count as u64).saturating_mul(4096)
}

// The rows of a directory's net, none where it has none.
pub(crate) fn net_of(nets: &NetList, node: NodeId) -> &[NetRow]
    ensures rows { result.now ≡ net_of_node nets.now.items node.0 }
    ensures ascending { NamesAscend result.now }
{
    match nets.find(node.0) {
        Some(one) => one.net.as_slice(),
        None => &[],
    }
}

// What becomes of a file, which keeps no slots.
fn file_seat(
    alloc: Global,
    begun: BegunNode,
    slots: &[SlotBlock],
    plans: &Plans,
) -> Result<Seat, NoMemory>
    ensures seat { IfOk result (λ seat. seat_with slots.now seat
        ≡ file_seated (changes_in plans.now.directories plans.now.nets.items plans.now.files.items) (record begun { slots = slots.now })) }
    ensures patch { IfOk result (λ seat. IsPatchFor (net_of_node plans.now.nets.items seat.node) seat.end slots.now seat.patch) }
{
    let BegunNode {
        node,
        number,
        kind: _,
        before,
        base,
        tables,
    } = begun;
    let changed = pages_changed(alloc, &plans.files, node)?;
    let links = plans.links.links_after(node, base.links);
    let meta = with(&base, FILE, links, file_size(&plans.files, node, base.size));
    Ok(Seat {
        node,
        number,
        before,
        meta,
        tables,
        patch: no_patch(alloc),
        end: 0,
        changed,
    })
}

// The size of a file afterwards.
fn file_size(files: &FileChangeList, node: NodeId, size: u64) -> u64
    ensures { result ≡ option_map_or (λ one. one.size) (item_with file_node node.0 files.now.items) size }
{
    match files.find(node.0) {
        Some(one) => one.size,
        None => size,
    }
}

// The blocks of a file that are rewritten.
fn pages_changed(alloc: Global, files: &FileChangeList, node: NodeId) -> Result<Changed, NoMemory>
    ensures { IfOk result (λ changed. changed.items
        ≡ option_map_or (λ one. blocks_of_pages one.pages.items) (item_with file_node node.0 files.now.items) []) }
{
    match files.find(node.0) {
        Some(one) => file_changed(alloc, &one.pages),
        None => Ok(Changed::new(alloc)),
    }
}
