// The records that a commit writes: those that differ.
ghost use Rattle.std.specs.Prelude.{◌≡◌, ◌≤◌, ◌++◌, [], IfOk, OnOk, map, filter, filter_map};
ghost use Rattle.std.specs.List.Sorted.{IsSorted};
ghost use Rattle.std.specs.Ordering.{nat_cmp};
ghost use Rattle.sfs_image.specs.Inode.{IsFree};
ghost use Rattle.fmt_journal.specs.Ascending.{AscendByInode};
ghost use Rattle.disk_change.specs.Lists.{put_if, ascending_by};
ghost use Rattle.disk_change.specs.Parts.{built_with};
ghost use Rattle.disk_change.specs.Planned.{has_listed_node};
ghost use Rattle.disk_change.specs.Records.{same_inode as inodes_equal, written_of_built, written_of_gone, record_written, record_inode, record_keyed};
ghost use Rattle.disk_change.specs.Seated.{free_inode};

use crate::begun::free;
use crate::links::times_of;
use crate::node_built::NodeBuilt;
use disk_nodes::OldEntry;
use fmt_inode::{Inode, encode};
use fmt_journal::TxRecord;
use sfs_base::{NoMemory, RoomyList};
use std::alloc::Global;
use std::collections::BTreeMap;

// The bytes of records by their inodes.
type Records = BTreeMap<u32, [u8; 512]>;

// The records that differ, ascending by inode: of nodes that have an inode afterwards, and of those
// that lose theirs, whose numbers ascend.
pub(crate) fn records(
    alloc: Global,
    nodes: &[NodeBuilt],
    old: &[OldEntry],
    leaving: &[u32],
) -> Result<RoomyList<TxRecord>, NoMemory>
    requires { IsSorted nat_cmp leaving.now }
    ensures items { IfOk result (λ records. records.items
        ≡ ascending_by record_inode (filter_map written_of_built (map (built_with []) nodes.now)
        ++ filter_map written_of_gone (filter (has_listed_node leaving.now) old.now))) }
    ensures ascending { IfOk result (λ records. AscendByInode records.items) }
{
    let mut records = BTreeMap::new(alloc);
    for node in nodes {
        put_built(&mut records, node)?;
    }
    for entry in old {
        if times_of(leaving, entry.node.0) != 0 {
            put_gone(&mut records, entry)?;
        }
    }
    listed(alloc, records)
}

// Puts the record of a node that is built, where it differs.
fn put_built(records: &mut Records, node: &NodeBuilt) -> Result<(), NoMemory>
    ensures { OnOk result (map record_keyed records.new.entries ≡ put_if record_inode (written_of_built (built_with [] node.now)) (map record_keyed records.old.entries)) }
{
    put_record(records, node.number, &node.before, &node.meta)
}

// Puts a free record for a node that loses its inode, where that differs.
fn put_gone(records: &mut Records, entry: &OldEntry) -> Result<(), NoMemory>
    ensures { OnOk result (map record_keyed records.new.entries ≡ put_if record_inode (written_of_gone entry.now) (map record_keyed records.old.entries)) }
{
    put_record(records, entry.old.inode, &entry.old.meta, &free())
}

// Puts the record of an inode, where it differs.
fn put_record(
    records: &mut Records,
    number: u32,
    before: &Inode,
    after: &Inode,
) -> Result<(), NoMemory>
    requires kind { after.now.kind ≤ 2 }
    requires free { after.now.kind ≡ 0 → IsFree after.now }
    ensures { OnOk result (map record_keyed records.new.entries
        ≡ put_if record_inode (record_written (record { number = number; before = before.now; after = after.now })) (map record_keyed records.old.entries)) }
{
    if same_inode(before, after) {
        return Ok(());
    }
    let mut bytes = [0; 512];
    encode(after, &mut bytes);
    records.insert(number, bytes)?;
    Ok(())
}

// Whether two inodes are one.
fn same_inode(inode: &Inode, other: &Inode) -> bool
    ensures { result ≡ inodes_equal inode.now other.now }
{
    inode.kind == other.kind
        && inode.links == other.links
        && inode.size == other.size
        && inode.direct == other.direct
        && inode.indirect == other.indirect
}

// Records as a list.
fn listed(alloc: Global, records: Records) -> Result<RoomyList<TxRecord>, NoMemory>
    ensures items { IfOk result (λ list. list.items ≡ map record_keyed records.entries) }
    ensures ascending { IfOk result (λ list. AscendByInode list.items) }
{
    let mut list = Vec::new(alloc);
    for (inode, bytes) in records {
        list.push(TxRecord { inode, bytes })?;
    }
    Ok(RoomyList::from_vec(list))
}
