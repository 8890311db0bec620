// What a commit needs, writes and gives up, in the root of a disk whose data begins at block 29.
use crate::helpers::{got, holds, same, same_list};

pub(crate) mod drawn;

use crate::space::reserve;
use absorb::net_of;
use disk_change::{
    DirectoryNet, DiskChange, Enter, EnterList, FileChange, FileChangeList, NetList, Page,
    PageList, build, need,
};
use disk_nodes::{DirectorySlots, OldDisk, OldEntry, OldNode};
use fmt_inode::{Inode, Tables};
use fmt_journal::Tx;
use sfs_base::{Kind, Name, NoMemory, NodeId, NodeList, SpaceKind, Stamp};
use space_map::{Need, SpaceFault, SpaceMap};
use std::alloc::Global;
use std::process::Abort;
use tree_laws::{Act, Ancestors, Change, Changes, NameMap};

pub(crate) const ROOT: NodeId = NodeId(0);

const FILE: NodeId = NodeId(64);

// The disk's root, an empty directory.
pub(crate) fn root_alone(rt: &impl Abort, alloc: Global) -> OldDisk {
    let mut disk = OldDisk::new(alloc);
    holds(rt, disk.find(ROOT.0).is_none());
    let root = Inode {
        kind: 2,
        links: 2,
        size: 0,
        direct: [0; 108],
        indirect: [0; 16],
    };
    let old = OldNode {
        inode: 0,
        meta: root,
        tables: Tables::new(alloc),
        slots: DirectorySlots::new(alloc),
    };
    got(rt, disk.add(OldEntry { node: ROOT, old }));
    disk
}

// Puts a change of the root's rows behind the others.
pub(crate) fn change(
    rt: &impl Abort,
    alloc: Global,
    changes: &mut Changes,
    act: Act,
    name: &[u8],
    child: NodeId,
) {
    got(rt, changes.reserve(1));
    changes.push(Change {
        stamp: Stamp(0),
        dir: ROOT,
        name: got(rt, Name::new(alloc, name)),
        child,
        kind: Kind::File,
        act,
        other: None,
        above: Ancestors::none(alloc),
    });
}

// The net of the root's changes alone.
pub(crate) fn root_net(
    alloc: Global,
    rows: &NameMap,
    changes: &Changes,
) -> Result<NetList, NoMemory> {
    let mut nets = NetList::new(alloc);
    nets.reserve(1)?;
    let net = net_of(alloc, rows, changes)?;
    nets.push(DirectoryNet { node: ROOT, net });
    Ok(nets)
}

// One file that gets an inode, or none.
pub(crate) fn entering(rt: &impl Abort, alloc: Global, node: Option<NodeId>) -> EnterList {
    let mut enter = EnterList::new(alloc);
    if let Some(node) = node {
        got(rt, enter.reserve(1));
        enter.push(Enter {
            node,
            kind: Kind::File,
        });
    }
    enter
}

// A file's new size and one touched block of it, whose last byte is this.
fn one_page(rt: &impl Abort, alloc: Global, size: u64, block: u32, last: u8) -> FileChangeList {
    let mut bytes = [0u8; 4096];
    bytes[4095] = last;
    let mut pages = PageList::new(alloc);
    got(rt, pages.reserve(1));
    pages.push(Page { block, bytes });
    let mut files = FileChangeList::new(alloc);
    got(rt, files.reserve(1));
    files.push(FileChange {
        node: FILE,
        size,
        pages,
    });
    files
}

// What a commit wrote, and what the disk has of its nodes afterwards.
#[derive(Drop)]
pub(crate) struct Committed {
    pub(crate) tx: Tx,
    pub(crate) after: OldDisk,
}

// Builds a change with a grant of what it needs, which is then no more free.
pub(crate) fn built(
    rt: &impl Abort,
    alloc: Global,
    change: DiskChange,
    space: &mut SpaceMap,
) -> Committed {
    let due = need(&change);
    let grant = reserve(rt, space, due.inodes, due.blocks);
    match build(alloc, change, &grant) {
        Ok(built) => {
            let blocks = built.tx.freed_blocks.as_slice();
            let inodes = built.tx.freed_inodes.as_slice();
            space.free_after(grant, blocks, inodes);
            Committed {
                tx: built.tx,
                after: built.nodes.into_after(),
            }
        }
        Err(fault) => {
            space.give_back(grant);
            panic!(rt; "refused")
        }
    }
}

// The change by which the file `f` enters with one block.
fn created(rt: &impl Abort, alloc: Global, disk: OldDisk, size: u64, block: u32) -> DiskChange {
    let mut changes = Changes::new(alloc);
    change(rt, alloc, &mut changes, Act::Add, b"f".as_slice(), FILE);
    let nets = got(rt, root_net(alloc, &NameMap::new(alloc), &changes));
    let files = one_page(rt, alloc, size, block, 0xff);
    let enter = entering(rt, alloc, Some(FILE));
    let leave = NodeList::new(alloc);
    got(
        rt,
        DiskChange::new(alloc, disk, nets, files, &enter, &leave),
    )
}

// The change by which a block of it is touched.
fn touched(
    rt: &impl Abort,
    alloc: Global,
    disk: OldDisk,
    size: u64,
    block: u32,
    last: u8,
) -> DiskChange {
    let nets = NetList::new(alloc);
    let files = one_page(rt, alloc, size, block, last);
    let enter = entering(rt, alloc, None);
    let leave = NodeList::new(alloc);
    got(
        rt,
        DiskChange::new(alloc, disk, nets, files, &enter, &leave),
    )
}

#[test]
fn a_largest_file_with_its_last_block_needs_three_blocks(rt: HostRuntime) {
    let alloc = rt.alloc();
    let change = created(&rt, alloc, root_alone(&rt, alloc), 67_551_232, 16_491);
    same(
        &rt,
        &need(&change),
        &Need {
            inodes: 1,
            blocks: 3,
        },
    );
    let mut space = got(&rt, SpaceMap::new(alloc, 29, 1_024, 64, &[], &[0]));
    let built = built(&rt, alloc, change, &mut space);
    let mut written = [0u32; 3];
    same(&rt, &built.tx.fresh.len(), &3);
    for (place, one) in built.tx.fresh.as_slice().iter().enumerate() {
        if place < 3 {
            written[place] = one.block;
        }
    }
    // The root's rows, the file's block, and the indirect block.
    same(&rt, &written, &[29, 30, 31]);
    let Some(file) = built.after.find(FILE.0) else {
        panic!(rt; "gone");
    };
    same(
        &rt,
        &(file.old.inode, file.old.meta.kind, file.old.meta.links),
        &(1, 1, 1),
    );
    same(
        &rt,
        &(file.old.meta.size, file.old.meta.indirect[15]),
        &(67_551_232, 31),
    );
    let Some(table) = file.old.tables.find(15) else {
        panic!(rt; "no table");
    };
    same(&rt, &(table.pointer(1_022), table.pointer(1_023)), &(0, 30));
    let Some(root) = built.after.find(ROOT.0) else {
        panic!(rt; "gone");
    };
    same(
        &rt,
        &(root.old.meta.size, root.old.meta.direct[0]),
        &(4_096, 29),
    );
}

// What a need is refused for, where it is.
fn refused(space: &mut SpaceMap, need: Need) -> Option<SpaceFault> {
    match space.reserve(need) {
        Ok(grant) => {
            space.give_back(grant);
            None
        }
        Err(fault) => Some(fault),
    }
}

// After a file with one block stands on a disk of so many blocks, what a block more is refused for.
fn second_block(rt: &impl Abort, alloc: Global, blocks: u32) -> Option<SpaceFault> {
    let mut space = got(rt, SpaceMap::new(alloc, 29, blocks, 64, &[], &[0]));
    let change = created(rt, alloc, root_alone(rt, alloc), 1, 0);
    same(
        rt,
        &need(&change),
        &Need {
            inodes: 1,
            blocks: 2,
        },
    );
    let first = built(rt, alloc, change, &mut space);
    let change = touched(rt, alloc, first.after, 8_193, 2, b'b');
    refused(&mut space, need(&change))
}

#[test]
fn a_file_gets_a_second_block_where_the_disk_has_one(rt: HostRuntime) {
    let short = SpaceFault::NoSpace {
        kind: SpaceKind::Blocks,
        need: 1,
        free: 0,
    };
    same(&rt, &second_block(&rt, rt.alloc(), 31), &Some(short));
    same(&rt, &second_block(&rt, rt.alloc(), 32), &None);
}

// What is asserted of a change of the file: its need, and then its blocks, the pointer of its first
// indirect block, and the blocks given up.
#[derive(Clone, Copy)]
struct Expected {
    need: u32,
    first: u32,
    indirect: u32,
    freed: &'static [u32],
}

fn assert_step(
    rt: &impl Abort,
    alloc: Global,
    change: DiskChange,
    space: &mut SpaceMap,
    due: &Expected,
) -> OldDisk {
    same(rt, &need(&change).blocks, &due.need);
    let made = built(rt, alloc, change, space);
    same_list(rt, made.tx.freed_blocks.as_slice(), due.freed);
    let Some(file) = made.after.find(FILE.0) else {
        panic!(rt; "gone");
    };
    same(
        rt,
        &(file.old.meta.direct[0], file.old.meta.indirect[0]),
        &(due.first, due.indirect),
    );
    same(rt, &file.old.tables.find(0).is_some(), &(due.indirect != 0));
    made.after
}

#[test]
fn a_file_gets_keeps_and_loses_an_indirect_block(rt: HostRuntime) {
    let alloc = rt.alloc();
    let mut space = got(&rt, SpaceMap::new(alloc, 29, 64, 64, &[], &[0]));
    let first = built(
        &rt,
        alloc,
        created(&rt, alloc, root_alone(&rt, alloc), 4_096, 0),
        &mut space,
    );
    // Block 108 is the first whose pointer stands in an indirect block.
    let gets = Expected {
        need: 2,
        first: 30,
        indirect: 32,
        freed: &[],
    };
    let change = touched(&rt, alloc, first.after, 446_464, 108, 1);
    let disk = assert_step(&rt, alloc, change, &mut space, &gets);
    let keeps = Expected {
        need: 1,
        first: 33,
        indirect: 32,
        freed: &[30],
    };
    let change = touched(&rt, alloc, disk, 446_464, 0, 2);
    let disk = assert_step(&rt, alloc, change, &mut space, &keeps);
    let written = Expected {
        need: 2,
        first: 33,
        indirect: 34,
        freed: &[31, 32],
    };
    let change = touched(&rt, alloc, disk, 446_464, 108, 3);
    let disk = assert_step(&rt, alloc, change, &mut space, &written);
    let loses = Expected {
        need: 0,
        first: 33,
        indirect: 0,
        freed: &[30, 34],
    };
    let change = touched(&rt, alloc, disk, 442_368, 108, 0);
    let _ = assert_step(&rt, alloc, change, &mut space, &loses);
}
