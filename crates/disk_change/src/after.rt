// What the disk has of a commit's nodes, as it was, and once the commit is durable.
ghost use Rattle.std.specs.Prelude.{◌≡◌, ◌≢◌, ℕ, take, map, IfOk, OnOk};
ghost use Rattle.keyed_list.specs.Ascending.{AscendBy, item_with};
ghost use Rattle.disk_change.specs.AllBuilt.{entry_after};
ghost use Rattle.disk_change.specs.Lists.{ascending_by, put_over};
ghost use Rattle.disk_change.specs.Parts.{CanBePut, HasRoom, built_in, parts_keyed, parts_node, slots_begun};
ghost use Rattle.disk_change.specs.Patched.{FitsBlocks, patched, with_placed};
ghost use Rattle.disk_nodes.specs.Nodes.{entry_node};

use crate::node_built::NodeBuilt;
use crate::patch::SlotPatch;
use crate::placed::PlacedSlots;
use disk_nodes::{DirectorySlots, OldDisk, OldEntry, OldNode, SlotsRoom, take_old};
use sfs_base::{NoMemory, NodeId};
use std::alloc::Global;
use std::collections::BTreeMap;
use std::marker::Model;

// Nodes by their numbers.
type Nodes = BTreeMap<u32, NodeBuilt>;

/// What the disk has of a commit's nodes, as it was, and what the commit changes of them beside it. Contracts
/// see what the disk has, and what it has once the commit is durable.
#[derive(Drop)]
pub struct NodeChanges {
    pub(crate) old: OldDisk,
    pub(crate) nodes: Vec<NodeBuilt>,
    pub(crate) list: Vec<OldEntry>,
}

impl Model for NodeChanges {
    ghost use Rattle.std.specs.Prelude.{◌≡◌, ◌≤◌, [], length, vec_capacity};
    ghost use Rattle.keyed_list.specs.Ascending.{AscendBy};
    ghost use Rattle.disk_change.specs.Parts.{CanAllBePut, OldAndAfter, old_and_after, parts_node};

    ghost Value = { OldAndAfter };

    ghost view = { λ n. old_and_after n.old.items n.nodes.items };

    ghost invariant = { λ n. AscendBy parts_node n.nodes.items × CanAllBePut n.old.items n.nodes.items × (n.list.items ≡ [])
        × (length n.nodes.items ≤ vec_capacity n.list) };
}

impl NodeChanges {
    /// What the disk has of the nodes, as it was: the commit is given up. It takes no memory.
    pub fn into_old(self) -> OldDisk
        ensures { result.items ≡ self.old }
    {
        self.old
    }

    /// What the disk has of the nodes once the commit is durable. It takes no memory.
    pub fn into_after(self) -> OldDisk
        ensures { result.items ≡ self.after }
    {
        let NodeChanges {
            mut old,
            mut nodes,
            mut list,
        } = self;
        while let Some(node) = nodes.pop() {
            list.push_reserved(put_node(&mut old, node));
        }
        list.reverse();
        OldDisk::from_vec(list)
    }
}

// What the disk has of a node afterwards; what it had of it is taken out of the list.
fn put_node(old: &mut OldDisk, built: NodeBuilt) -> OldEntry
    requires { CanBePut (slots_begun old.old.items built.own built.node) built }
    ensures entry { result ≡ entry_after (built_in old.old.items built) }
    ensures others { (other : ℕ) → other ≢ built.node → item_with entry_node other old.new.items ≡ item_with entry_node other old.old.items }
{
    let NodeBuilt {
        node,
        own,
        number,
        before: _,
        meta,
        tables,
        patch,
        end,
        changed: _,
        fates: _,
        alloc,
        room,
    } = built;
    let slots = put_patch(taken_slots(alloc, old, own, node), patch, end, room);
    OldEntry {
        node,
        old: OldNode {
            inode: number,
            meta,
            tables,
            slots,
        },
    }
}

// The slots that a node begins with, taken out of the list where it has an inode.
fn taken_slots(alloc: Global, old: &mut OldDisk, own: Option<u32>, node: NodeId) -> DirectorySlots
    ensures slots { result ≡ slots_begun old.old.items own node.0 }
    ensures others { (other : ℕ) → other ≢ node.0 → item_with entry_node other old.new.items ≡ item_with entry_node other old.old.items }
{
    if own.is_none() {
        return DirectorySlots::new(alloc);
    }
    match take_old(old, node) {
        Some(one) => one.slots,
        None => DirectorySlots::new(alloc),
    }
}

// Slots with a patch, as many blocks of them as stay. Where further blocks come, all move into the room.
fn put_patch(
    slots: DirectorySlots,
    patch: SlotPatch,
    end: usize,
    room: Option<SlotsRoom>,
) -> DirectorySlots
    requires fits { FitsBlocks slots patch }
    requires room { HasRoom slots patch room }
    ensures { result ≡ take end (patched patch slots) }
{
    let SlotPatch { changed, further } = patch;
    let mut blocks = put_placed(slots, changed);
    if let Some(room) = room {
        blocks = blocks.join(room, further);
    }
    blocks.truncate(end);
    blocks
}

// Blocks with those that get other slots.
fn put_placed(mut slots: DirectorySlots, changed: Vec<PlacedSlots>) -> DirectorySlots
    ensures { result ≡ with_placed changed.items slots }
{
    for one in changed {
        if one.place < slots.len() {
            slots.put(one.place, one.slots);
        }
    }
    slots
}

// Nodes ascending; of those with one number the last one stays.
pub(crate) fn ascending_nodes(
    alloc: Global,
    nodes: Vec<NodeBuilt>,
) -> Result<Vec<NodeBuilt>, NoMemory>
    ensures items { IfOk result (λ list. list.items ≡ ascending_by parts_node nodes.items) }
    ensures ascending { IfOk result (λ list. AscendBy parts_node list.items) }
{
    let mut by_node = BTreeMap::new(alloc);
    for node in nodes {
        put_built(&mut by_node, node)?;
    }
    listed(alloc, by_node)
}

// Puts a node among others.
fn put_built(by_node: &mut Nodes, built: NodeBuilt) -> Result<(), NoMemory>
    ensures { OnOk result (map parts_keyed by_node.new.entries ≡ put_over parts_node built (map parts_keyed by_node.old.entries)) }
{
    by_node.insert(built.node.0, built)?;
    Ok(())
}

// Nodes as a list.
fn listed(alloc: Global, by_node: Nodes) -> Result<Vec<NodeBuilt>, NoMemory>
    ensures items { IfOk result (λ list. list.items ≡ map parts_keyed by_node.entries) }
    ensures ascending { IfOk result (λ list. AscendBy parts_node list.items) }
{
    let mut list = Vec::new(alloc);
    for (node, built) in by_node {
        let mut one = built;
        one.node = NodeId(node);
        list.push(one)?;
    }
    Ok(list)
}
