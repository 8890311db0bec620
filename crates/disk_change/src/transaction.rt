// A commit's transaction, from its change and a grant of numbers and blocks.
ghost use Rattle.std.specs.Prelude.{◌≡◌, ◌≤◌, [], map, length, vec_capacity, IfOk, IfErr};
ghost use Rattle.keyed_list.specs.Ascending.{AscendBy};
ghost use Rattle.disk_change.specs.AllBuilt.{after_commit, entry_after};
ghost use Rattle.disk_change.specs.Parts.{CanAllBePut, built_in, parts_node};
ghost use Rattle.disk_change.specs.Written.{IsTransactionOf};
ghost use Rattle.disk_nodes.specs.Nodes.{entry_node};

use crate::after::{NodeChanges, ascending_nodes};
use crate::all_built::nodes_built;
use crate::change::DiskChange;
use crate::given_up::{blocks_left, inodes_left};
use crate::node_built::NodeBuilt;
use crate::numbers::{by_node, numbers_of_seats};
use crate::records::records;
use disk_nodes::OldEntry;
use fmt_journal::Tx;
use sfs_base::{NoMemory, RoomyList};
use space_map::Grant;
use std::alloc::Global;

/// What a commit writes and gives up, and what it changes of what the disk has of its nodes.
#[derive(Drop)]
pub struct Built {
    pub tx: Tx,
    pub nodes: NodeChanges,
}

/// The transaction of a change, with a grant that has as many inodes and blocks as `need` answers: the
/// nodes that enter get its inodes in their order, and each node its blocks in turn. It writes the
/// records that differ, and the fresh blocks. Only want of memory refuses it, and then the change comes back
/// as it was.
pub fn build(alloc: Global, change: DiskChange, grant: &Grant) -> Result<Built, DiskChange>
    ensures tx { IfOk result (λ built. IsTransactionOf change grant.now built.tx) }
    ensures old { IfOk result (λ built. built.nodes.old ≡ change.old) }
    ensures after { IfOk result (λ built. built.nodes.after ≡ after_commit change grant.now) }
    ensures ascending { IfOk result (λ built. AscendBy entry_node built.nodes.after) }
    ensures err { IfErr result (λ back. back ≡ change) }
{
    match parts_built(alloc, &change, grant) {
        Ok(parts) => Ok(with_parts(change, parts)),
        Err(_) => Err(change),
    }
}

// What is built of a change, but for what the disk has of its nodes.
#[derive(Drop)]
struct PartsBuilt {
    tx: Tx,
    nodes: Vec<NodeBuilt>,
    list: Vec<OldEntry>,
}

// The same with what the disk has of the change's nodes.
fn with_parts(change: DiskChange, parts: PartsBuilt) -> Built
    requires ascending { AscendBy parts_node parts.nodes.items }
    requires put { CanAllBePut change.old parts.nodes.items }
    requires empty { parts.list.items ≡ [] }
    requires room { length parts.nodes.items ≤ vec_capacity parts.list }
    ensures tx { result.tx ≡ parts.tx }
    ensures old { result.nodes.old ≡ change.old }
    ensures after { result.nodes.after ≡ map (λ one. entry_after (built_in change.old one)) parts.nodes.items }
    ensures ascending { AscendBy entry_node result.nodes.after }
{
    let PartsBuilt { tx, nodes, list } = parts;
    Built {
        tx,
        nodes: NodeChanges {
            old: change.into_old(),
            nodes,
            list,
        },
    }
}

// What is built of a change.
fn parts_built(alloc: Global, change: &DiskChange, grant: &Grant) -> Result<PartsBuilt, NoMemory>
    ensures tx { IfOk result (λ parts. IsTransactionOf change.now grant.now parts.tx) }
    ensures after { IfOk result (λ parts. map (λ one. entry_after (built_in change.now.old one)) parts.nodes.items ≡ after_commit change.now grant.now) }
    ensures ascending { IfOk result (λ parts. AscendBy parts_node parts.nodes.items) }
    ensures put { IfOk result (λ parts. CanAllBePut change.now.old parts.nodes.items) }
    ensures empty { IfOk result (λ parts. parts.list.items ≡ []) }
    ensures room { IfOk result (λ parts. length parts.nodes.items ≤ vec_capacity parts.list) }
{
    let old = change.old.as_slice();
    let numbers = by_node(
        alloc,
        &numbers_of_seats(alloc, &change.seats, grant.inodes())?,
    )?;
    let made = nodes_built(
        alloc,
        &change.old,
        &change.seats,
        &change.plans,
        &numbers,
        grant.blocks(),
    )?;
    let tx = Tx {
        records: records(alloc, &made.nodes, old, &change.leaving)?,
        fresh: RoomyList::from_vec(made.written),
        freed_blocks: blocks_left(made.freed, old, &change.leaving)?,
        freed_inodes: inodes_left(alloc, old, &change.leaving)?,
    };
    let nodes = ascending_nodes(alloc, made.nodes)?;
    let list = Vec::with_capacity(alloc, nodes.len())?;
    Ok(PartsBuilt { tx, nodes, list })
}
