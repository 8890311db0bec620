// Why a commit is refused, and that what was lent for it goes back into the values that it was taken of.
ghost use Rattle.std.specs.Prelude.{◌≡◌, IfOk, length};

use crate::changes::{DIRECTORY, FILE, file_made, old_node};
use crate::commits::commits;
use crate::helpers::{same, some};
use disk_nodes::OldNode;
use fsync_values::{lend, restore};
use journal_set::CommitFault;
use mem_values::{Cell, KeptNode, Pending};
use sfs_base::{NoMemory, SpaceKind, Stamp};
use std::alloc::Global;
use std::sync::Wait;

// A value of what was flushed of a node, of which the disk has this.
fn value_of(alloc: Global, old: Option<OldNode>) -> Result<Cell, NoMemory> {
    let old = match old {
        Some(old) => Some(KeptNode::new(alloc, old)?),
        None => None,
    };
    let pending = Pending {
        cut: Stamp(5),
        last: 0,
        made_in: None,
        old,
    };
    Ok(Cell::Pending {
        pending: Box::new(alloc, pending)?,
    })
}

// The values of the directory, which has inode 2, and of the file, which has none.
fn two_values(alloc: Global) -> Result<Vec<Cell>, NoMemory>
    ensures { IfOk result (λ values. length values.items ≡ 2) }
{
    let mut values = Vec::with_capacity(alloc, 2)?;
    values.push_reserved(value_of(alloc, Some(old_node(alloc, 2, 2, 0, 0)))?);
    values.push_reserved(value_of(alloc, None)?);
    Ok(values)
}

// The inode and the kind that a value has of its node.
fn said_by(value: &Cell) -> Option<(u32, u8)> {
    match value {
        Cell::Pending { pending } => match &pending.old {
            Some(kept) => Some((kept.get().inode, kept.get().meta.kind)),
            None => None,
        },
        _ => None,
    }
}

// Whether the directory has this inode and this kind by the values, and the file none.
fn say(values: &[Cell], inode: u32, kind: u8) -> bool {
    match values {
        [directory, file] => {
            said_by(directory) == Some((inode, kind)) && said_by(file).is_none()
        }
        _ => false,
    }
}

// Why the making of the file is refused on a disk on which these blocks and inodes are taken, where the directory's last commit was seen as this one. None
// where it is not refused, or where the values are not then as they were.
fn refused<R: Wait>(
    rt: &R,
    alloc: Global,
    held: &[u32],
    used: &[u32],
    last: u64,
) -> Option<CommitFault> {
    let mut values = two_values(alloc).ok()?;
    let entries = Vec::with_capacity(alloc, 2).ok()?;
    let old = lend(alloc, &mut values, &[DIRECTORY, FILE], entries);
    let change = file_made(alloc, old)?;
    let is_lent = say(&values, 0, 0);
    match commits(rt, alloc, held, used, last, change) {
        Some(Err(refusal)) => {
            restore(&mut values, refusal.old);
            if is_lent && say(&values, 2, 2) {
                Some(refusal.fault)
            } else {
                None
            }
        }
        _ => None,
    }
}

#[test]
fn a_shortage_of_blocks_is_told_and_the_values_are_as_they_were(rt: HostRuntime) {
    let alloc = rt.alloc();
    let fault = some(&rt, refused(&rt, alloc, &[11, 12, 14], &[0, 2], 0));
    let short = CommitFault::NoSpace {
        kind: SpaceKind::Blocks,
        need: 2,
        free: 1,
    };
    same(&rt, &fault, &short);
}

static ALL_INODES: [u32; 16] = [0, 1, 2, 3, 4, 5, 6, 7, 8, 9, 10, 11, 12, 13, 14, 15];

#[test]
fn a_shortage_of_inodes_is_told_before_one_of_blocks(rt: HostRuntime) {
    let alloc = rt.alloc();
    let fault = some(&rt, refused(&rt, alloc, &[11, 12, 14], &ALL_INODES, 0));
    let short = CommitFault::NoSpace {
        kind: SpaceKind::Inodes,
        need: 1,
        free: 0,
    };
    same(&rt, &fault, &short);
}

#[test]
fn a_directory_that_has_moved_is_named(rt: HostRuntime) {
    let alloc = rt.alloc();
    let fault = some(&rt, refused(&rt, alloc, &[], &[0, 2], 7));
    let moved = CommitFault::Moved {
        node: DIRECTORY,
        last: 0,
    };
    same(&rt, &fault, &moved);
}
