// What a node begins with in a commit.
ghost use Rattle.std.specs.Prelude.{◌≡◌, IfOk};
ghost use Rattle.sfs_image.specs.Slot.{kind_of as kind_of_byte};
ghost use Rattle.disk_change.specs.Seated.{begun_old, begun_entering, free_inode, first_links as links_of_kind};

use crate::enter::Enter;
use crate::kinds::DIRECTORY;
use disk_nodes::{DirectorySlots, OldEntry};
use fmt_inode::{Inode, Tables};
use sfs_base::{Kind, NoMemory, NodeId};
use std::alloc::Global;
use std::marker::Model;

// A node that has an inode after a commit, with what it begins with, but for its slots: what the disk has
// of it, or, where it enters, nothing.
#[derive(Drop)]
pub(crate) struct BegunNode {
    pub(crate) node: NodeId,
    pub(crate) number: Option<u32>,
    pub(crate) kind: Kind,
    pub(crate) before: Inode,
    pub(crate) base: Inode,
    pub(crate) tables: Tables,
}

impl Model for BegunNode {
    ghost use Rattle.std.specs.Prelude.{[]};
    ghost use Rattle.disk_change.specs.Seated.{Begun};

    ghost Value = { Begun };

    ghost view = { λ b. record {
      node = b.node.0;
      number = b.number;
      kind = b.kind;
      before = b.before;
      base = b.base;
      tables = b.tables.items;
      slots = [];
    } };
}

// A node that has an inode.
pub(crate) fn old_node(entry: &OldEntry) -> Result<BegunNode, NoMemory>
    ensures { IfOk result (λ begun. record begun { slots = entry.now.old.kept.slots } ≡ begun_old entry.now) }
{
    let old = &entry.old;
    Ok(BegunNode {
        node: entry.node,
        number: Some(old.inode),
        kind: kind_of(old.meta.kind),
        before: old.meta,
        base: old.meta,
        tables: old.tables.copy()?,
    })
}

// A node that enters.
pub(crate) fn entering_node(alloc: Global, one: Enter) -> BegunNode
    ensures { result ≡ begun_entering one }
{
    let free = free();
    BegunNode {
        node: one.node,
        number: None,
        kind: one.kind,
        before: free,
        base: Inode {
            links: first_links(one.kind),
            ..free
        },
        tables: Tables::new(alloc),
    }
}

// The inode of a free record.
pub(crate) fn free() -> Inode
    ensures { result ≡ free_inode }
{
    Inode {
        kind: 0,
        links: 0,
        size: 0,
        direct: [0; 108],
        indirect: [0; 16],
    }
}

// The kind of a record's byte.
fn kind_of(byte: u8) -> Kind
    ensures { result ≡ kind_of_byte byte }
{
    if byte == DIRECTORY {
        Kind::Directory
    } else {
        Kind::File
    }
}

// How many links a node has in which and of which nothing is.
fn first_links(kind: Kind) -> u32
    ensures { result ≡ links_of_kind kind }
{
    match kind {
        Kind::File => 0,
        Kind::Directory => 2,
    }
}

// The slots that the disk has of a node.
pub(crate) fn slots_kept(entry: &OldEntry) -> &DirectorySlots
    ensures { result.now ≡ entry.now.old.kept.slots }
{
    &entry.old.slots
}
