// Changes of a small disk, made by hand: the directory 3, which has inode 2, and the file 4.
ghost use Rattle.std.specs.Prelude.{◌≡◌, ◌<◌, IfOk, IfSome, true, length, Contains};
ghost use Rattle.disk_nodes.specs.declared.old.OldEntry.{OldEntry as Entry};
ghost use Rattle.fsync_commit.specs.Asked.{IsChangeOn};
ghost use Rattle.test_commits.specs.Disk.{SMALL};

use absorb::{Net, NetRow};
use disk_change::{
    DirectoryNet, DiskChange, Enter, EnterList, FileChange, FileChangeList, NetList, Page, PageList,
};
use disk_nodes::{DirectorySlots, OldDisk, OldEntry, OldNode};
use fmt_inode::{Inode, Tables};
use fmt_super::Layout;
use sfs_base::{Kind, Name, NoMemory, NodeId, NodeList};
use std::alloc::Global;

pub(crate) const DIRECTORY: NodeId = NodeId(3);

pub(crate) const FILE: NodeId = NodeId(4);

// The slot of core 0 has the blocks 1 to 4, the inode table the blocks 9 and 10, and the data area the blocks 11 to 14.
pub(crate) const LAYOUT: Layout = Layout {
    blocks: 15,
    inodes: 16,
    cores: 2,
    slots: 1,
};

// What the disk has of a node: an inode with this number, kind and size, whose first block is this one, 0 for none.
pub(crate) fn old_node(alloc: Global, inode: u32, kind: u8, size: u64, block: u32) -> OldNode {
    let mut direct = [0; 108];
    direct[0] = block;
    OldNode {
        inode,
        meta: Inode {
            kind,
            links: 1,
            size,
            direct,
            indirect: [0; 16],
        },
        tables: Tables::new(alloc),
        slots: DirectorySlots::new(alloc),
    }
}

// What the disk has of one node.
pub(crate) fn one_entry(alloc: Global, node: NodeId, old: OldNode) -> Result<OldDisk, NoMemory> {
    let mut disk = OldDisk::new(alloc);
    disk.add(OldEntry { node, old })?;
    Ok(disk)
}

// Whether all inodes are the disk's.
fn lie_low(old: &OldDisk) -> bool
    ensures { result ≡ true → (entry : Entry) → Contains old.now.items entry → entry.old.number < 16 }
{
    old.as_slice().iter().all(|entry| entry.old.inode < 16)
}

// The file enters.
fn file_enters(alloc: Global) -> Result<EnterList, NoMemory>
    ensures { IfOk result (λ enter. length enter.items ≡ 1) }
{
    let mut enter = EnterList::new(alloc);
    enter.add(Enter {
        node: FILE,
        kind: Kind::File,
    })?;
    Ok(enter)
}

// The directory gets its first row, which names the file.
fn one_row(alloc: Global) -> Result<NetList, NoMemory> {
    let name = match Name::new(alloc, b"a") {
        Ok(name) => name,
        Err(_) => return Err(NoMemory),
    };
    let mut net = Net::new(alloc);
    net.reserve(1)?;
    net.push(NetRow {
        name,
        before: None,
        after: Some(FILE),
    });
    let mut nets = NetList::new(alloc);
    nets.add(DirectoryNet {
        node: DIRECTORY,
        net,
    })?;
    Ok(nets)
}

// The file has this size. Where a byte is given its first block is written, and begins with it.
fn one_file(alloc: Global, size: u64, byte: Option<u8>) -> Result<FileChangeList, NoMemory> {
    let mut pages = PageList::new(alloc);
    if let Some(byte) = byte {
        let mut bytes = [0; 4096];
        bytes[0] = byte;
        pages.add(Page { block: 0, bytes })?;
    }
    let mut files = FileChangeList::new(alloc);
    files.add(FileChange {
        node: FILE,
        size,
        pages,
    })?;
    Ok(files)
}

/// The file is made in the directory, with one byte. It needs an inode, a block for the directory's first row and one for the byte.
pub(crate) fn file_made(alloc: Global, old: OldDisk) -> Option<DiskChange>
    ensures { IfSome result (IsChangeOn SMALL) }
{
    if !lie_low(&old) {
        return None;
    }
    let Ok(enter) = file_enters(alloc) else {
        return None;
    };
    let nets = one_row(alloc).ok()?;
    let files = one_file(alloc, 1, Some(7)).ok()?;
    let none = NodeList::new(alloc);
    match DiskChange::new(alloc, old, nets, files, &enter, &none) {
        Ok(change) => Some(change),
        Err(_) => None,
    }
}

/// The file gets another size, and nothing else: that needs nothing.
pub(crate) fn file_sized(alloc: Global, old: OldDisk, size: u64) -> Option<DiskChange>
    ensures { IfSome result (IsChangeOn SMALL) }
{
    if !lie_low(&old) {
        return None;
    }
    let files = one_file(alloc, size, None).ok()?;
    let enter = EnterList::new(alloc);
    let none = NodeList::new(alloc);
    match DiskChange::new(alloc, old, NetList::new(alloc), files, &enter, &none) {
        Ok(change) => Some(change),
        Err(_) => None,
    }
}
