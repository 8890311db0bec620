// What the disk has of each node, from the parts that a recovery kept.
ghost use Rattle.std.specs.Prelude.{◌≡◌, map, IfOk};
ghost use Rattle.keyed_list.specs.Ascending.{AscendBy};
ghost use Rattle.disk_nodes.specs.Nodes.{entry_node};
ghost use Rattle.mount_begin.specs.Mounted.{entry_mounted};

use disk_nodes::{DirectorySlots, OldDisk, OldEntry, OldNode};
use disk_tree::{KeptPart, PartList};
use sfs_base::{NoMemory, NodeId};
use std::alloc::Global;

/// The entries of these parts, which ascend by inode: each node has the number of its inode.
pub fn entries_of(alloc: Global, parts: PartList) -> Result<OldDisk, NoMemory>
    requires { AscendBy entry_node (map entry_mounted parts.items) }
    ensures { IfOk result (λ old. old.items ≡ map entry_mounted parts.items) }
{
    let mut entries = Vec::new(alloc);
    for part in parts.into_vec() {
        entries.push(entry_of(alloc, part)?)?;
    }
    Ok(OldDisk::from_vec(entries))
}

// The entry of a part.
fn entry_of(alloc: Global, part: KeptPart) -> Result<OldEntry, NoMemory>
    ensures { IfOk result (λ entry. entry ≡ entry_mounted part) }
{
    let KeptPart {
        inode,
        meta,
        tables,
        slots,
    } = part;
    Ok(OldEntry {
        node: NodeId(inode),
        old: OldNode {
            inode,
            meta,
            tables,
            slots: DirectorySlots::from_list(alloc, slots)?,
        },
    })
}
