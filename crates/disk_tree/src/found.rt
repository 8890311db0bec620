// What reading a tree gives: the tree, and what is kept of the inodes in use.
ghost use Rattle.std.specs.Prelude.{◌≡◌, ◌≤◌, length, IfOk};
ghost use Rattle.disk_tree.specs.KeptParts.{gathered_in_use};

use fmt_inode::{Inode, Tables};
use fmt_slots::{SlotList, copy_list};
use sfs_base::{NoMemory, RoomyList};
use sfs_tree::Tree;
use std::alloc::Global;
use std::marker::Model;

/// What is kept of the part of an inode: the inode's number, the record, the indirect blocks, and of
/// a directory its slots.
#[derive(Drop)]
pub struct KeptPart {
    pub inode: u32,
    pub meta: Inode,
    pub tables: Tables,
    pub slots: SlotList,
}

impl Model for KeptPart {
    ghost use Rattle.disk_tree.specs.KeptParts.{NumberedKept};

    ghost Value = { NumberedKept };

    ghost view = { λ p. record {
      number = p.inode;
      kept = record { inode = p.meta; tables = p.tables.items; slots = p.slots.items };
    } };
}

/// What is kept of the inodes in use, ascending by inode. Contracts see the list, and the number
/// `spare` of pushes that are reserved.
pub type PartList = RoomyList<KeptPart>;

/// The tree of an image, each node under its inode's number, and what is kept of the inodes in use.
#[derive(Drop)]
pub struct Found {
    pub tree: Tree,
    pub parts: PartList,
}

/// What is kept of the inodes in use.
pub fn kept_parts(
    alloc: Global,
    inodes: &[Inode],
    tables: &[Tables],
    slots: &[SlotList],
) -> Result<PartList, NoMemory>
    requires few { length inodes.now ≤ 16384 }
    requires tables { length tables.now ≡ length inodes.now }
    requires slots { length slots.now ≡ length inodes.now }
    ensures { IfOk result (λ parts. parts.items ≡ gathered_in_use inodes.now tables.now slots.now (length inodes.now)) }
{
    let mut list = Vec::new(alloc);
    for place in 0..inodes.len() {
        let inode = &inodes[place];
        if inode.kind != 0 {
            let part = kept_part(alloc, place as u32, inode, &tables[place], &slots[place])?;
            list.push(part)?;
        }
    }
    Ok(PartList::from_vec(list))
}

// What is kept of an inode.
fn kept_part(
    alloc: Global,
    inode: u32,
    meta: &Inode,
    tables: &Tables,
    slots: &SlotList,
) -> Result<KeptPart, NoMemory>
    ensures { IfOk result (λ part. part ≡ record {
      number = inode;
      kept = record { inode = meta.now; tables = tables.now.items; slots = slots.now.items };
    }) }
{
    Ok(KeptPart {
        inode,
        meta: *meta,
        tables: tables.copy()?,
        slots: copy_list(alloc, slots)?,
    })
}
