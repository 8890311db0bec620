// What a commit hands out with ample memory: of what is made anew, of what needs nothing, and of what changes nothing.
ghost use Rattle.std.specs.Prelude.{◌≡◌, All, IfOk, IfSome};
ghost use Rattle.slot_laws.specs.Grants.{NoneGranted};
ghost use Rattle.journal_set.specs.Ready.{IsReady};
ghost use Rattle.fsync_commit.specs.Asked.{IsChangeOn, IsSpaceOn};
ghost use Rattle.test_commits.specs.Disk.{HasItsSpace, HasLayout, SMALL};

use crate::changes::{DIRECTORY, FILE, LAYOUT, file_made, file_sized, old_node, one_entry};
use crate::helpers::{got, holds, same, some};
use disk_box::{Fsync, Pen};
use disk_change::DiskChange;
use disk_nodes::OldEntry;
use fmt_inode::Inode;
use fsync_commit::{CommitRefusal, Landed, commit_plan};
use journal_set::{Ack, JournalSet};
use sfs_base::{NoGate, NoMemory, NodeId, Stamp};
use sfs_dev::Memory;
use slot_laws::Seen;
use space_map::SpaceMap;
use std::alloc::Global;
use std::sync::Wait;

const FSYNC: Fsync = Fsync {
    node: DIRECTORY,
    stamp: Stamp(5),
};

// What is free on the disk, where these blocks and inodes are taken.
fn free_space(alloc: Global, held: &[u32], used: &[u32]) -> Result<SpaceMap, NoMemory>
    ensures free { IfOk result (λ space. NoneGranted space.inodes × NoneGranted space.blocks) }
    ensures on { IfOk result (IsSpaceOn SMALL) }
{
    let space = SpaceMap::new(alloc, 11, 15, 16, held, used)?;
    Ok(space)
}

// The journals of a disk of zeros, on which these blocks and inodes are taken, and their pens.
fn journals(
    alloc: Global,
    held: &[u32],
    used: &[u32],
) -> Option<(JournalSet<Memory>, Vec<Pen<Memory>>)>
    ensures ready { IfSome result (λ made. All (IsReady made.0) made.1.items) }
    ensures space { IfSome result (λ made. All HasItsSpace made.1.items) }
    ensures layout { IfSome result (λ made. All HasLayout made.1.items) }
{
    if !LAYOUT.is_valid(15) {
        return None;
    }
    let disk = Memory::new(alloc, 15).ok()?;
    let Ok(space) = free_space(alloc, held, used) else {
        return None;
    };
    match JournalSet::new(alloc, disk, LAYOUT, space) {
        Ok((set, pens)) => Some((set, pens)),
        Err(_) => None,
    }
}

// Commits a change with a pen. Of the directory this last commit was seen, of the file none.
fn commits_by<R: Wait>(
    rt: &R,
    alloc: Global,
    set: &JournalSet<Memory>,
    pen: &mut Pen<Memory>,
    last: u64,
    change: DiskChange,
) -> Result<Landed, CommitRefusal>
    requires ready { IsReady set.now pen.old }
    requires space { HasItsSpace pen.old }
    requires layout { HasLayout pen.old }
    requires change { IsChangeOn SMALL change }
{
    let seen = [
        Seen {
            node: DIRECTORY,
            last,
        },
        Seen {
            node: FILE,
            last: 0,
        },
    ];
    commit_plan(rt, alloc, set, pen, FSYNC, &seen, change, &NoGate)
}

/// Commits a change on a disk of zeros on which these blocks and inodes are taken. Of the directory this last commit was seen, of the file none.
pub(crate) fn commits<R: Wait>(
    rt: &R,
    alloc: Global,
    held: &[u32],
    used: &[u32],
    last: u64,
    change: DiskChange,
) -> Option<Result<Landed, CommitRefusal>>
    requires change { IsChangeOn SMALL change }
{
    let (set, mut pens) = journals(alloc, held, used)?;
    let pen = pens.get_mut(0)?;
    Some(commits_by(rt, alloc, &set, pen, last, change))
}

// The commit, which is durable.
fn landed<R: Wait>(rt: &R, alloc: Global, used: &[u32], change: DiskChange) -> Option<Landed>
    requires change { IsChangeOn SMALL change }
{
    match commits(rt, alloc, &[], used, 0, change) {
        Some(Ok(landed)) => Some(landed),
        _ => None,
    }
}

// What a test wants of what the disk has of a node: its inode, the kind, the link count, the size, and the first block.
#[derive(Clone, Copy, PartialEq, Eq)]
struct Wanted {
    node: NodeId,
    inode: u32,
    kind: u8,
    links: u32,
    size: u64,
    block: u32,
}

// The directory keeps inode 2, and its first row lies in the least free block. The file gets the least free inode, which is 1, and the next block.
const MADE: [Wanted; 2] = [
    Wanted {
        node: DIRECTORY,
        inode: 2,
        kind: 2,
        links: 1,
        size: 4096,
        block: 11,
    },
    Wanted {
        node: FILE,
        inode: 1,
        kind: 1,
        links: 1,
        size: 1,
        block: 12,
    },
];

// What is said of a node by its inode and its record.
fn said_by(node: NodeId, inode: u32, record: &Inode) -> Wanted {
    Wanted {
        node,
        inode,
        kind: record.kind,
        links: record.links,
        size: record.size,
        block: record.direct[0],
    }
}

// Whether entries say this, one behind another.
fn say(entries: &[OldEntry], wanted: &[Wanted]) -> bool {
    if entries.len() != wanted.len() {
        return false;
    }
    for at in 0..entries.len() {
        let entry = &entries[at];
        if said_by(entry.node, entry.old.inode, &entry.old.meta) != wanted[at] {
            return false;
        }
    }
    true
}

// Whether the first entry's one block of slots has one row, which names inode 1.
fn has_one_row(entries: &[OldEntry]) -> bool {
    match entries {
        [directory, ..] => match directory.old.slots.as_slice() {
            [block] => match block.as_slice() {
                [Some(row), rest @ ..] => row.inode == 1 && rest.iter().all(|slot| slot.is_none()),
                _ => false,
            },
            _ => false,
        },
        _ => false,
    }
}

// What the disk has of the file 4: inode 1, with five bytes in block 12.
const FIVE_BYTES: Wanted = Wanted {
    node: FILE,
    inode: 1,
    kind: 1,
    links: 1,
    size: 5,
    block: 12,
};

#[test]
fn a_file_that_is_made_gets_an_inode_and_its_block(rt: HostRuntime) {
    let alloc = rt.alloc();
    let old = got(
        &rt,
        one_entry(alloc, DIRECTORY, old_node(alloc, 2, 2, 0, 0)),
    );
    let change = some(&rt, file_made(alloc, old));
    let landed = some(&rt, landed(&rt, alloc, &[0, 2], change));
    // Two blocks, the numbers, the records, the count, a sync, the gate, a sync.
    let ack = Ack {
        moment: 8,
        commit: 1,
    };
    same(&rt, &landed.ack, &ack);
    let after = landed.nodes.into_after();
    holds(&rt, say(after.as_slice(), &MADE));
    holds(&rt, has_one_row(after.as_slice()));
}

#[test]
fn a_size_alone_needs_no_block(rt: HostRuntime) {
    let alloc = rt.alloc();
    let old = got(&rt, one_entry(alloc, FILE, old_node(alloc, 1, 1, 5, 12)));
    let change = some(&rt, file_sized(alloc, old, 3));
    let landed = some(&rt, landed(&rt, alloc, &[0, 1], change));
    // The numbers, the record, the count, a sync, the gate, a sync.
    let ack = Ack {
        moment: 6,
        commit: 1,
    };
    same(&rt, &landed.ack, &ack);
    let three = Wanted {
        size: 3,
        ..FIVE_BYTES
    };
    holds(&rt, say(landed.nodes.into_after().as_slice(), &[three]));
}

#[test]
fn a_change_of_nothing_makes_no_device_call(rt: HostRuntime) {
    let alloc = rt.alloc();
    let old = got(&rt, one_entry(alloc, FILE, old_node(alloc, 1, 1, 5, 12)));
    let change = some(&rt, file_sized(alloc, old, 5));
    let landed = some(&rt, landed(&rt, alloc, &[0, 1], change));
    let ack = Ack {
        moment: 0,
        commit: 1,
    };
    same(&rt, &landed.ack, &ack);
    holds(
        &rt,
        say(landed.nodes.into_after().as_slice(), &[FIVE_BYTES]),
    );
}
