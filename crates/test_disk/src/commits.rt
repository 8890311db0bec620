// A commit through a journal slot: a directory `a`, inode 1, in the root of a disk of 32 blocks with 64 inodes and 2 cores that is
// just made. Block 29 gets the root's rows. The slot begins at byte 4,096, the inode table at 86,016, block 29 at 118,784.
ghost use Rattle.std.specs.Prelude.{◌<◌, All};
ghost use Rattle.sfs_image.specs.Journal.{Entry};
ghost use Rattle.journal_one.specs.Job.{LiesInData};

use crate::helpers::{got, holds, same};
use crate::images::{directory, rows};
use crate::making::made_with;
use commit_one::{Committed, commit};
use fmt_journal::{Tx, TxBlock, TxRecord};
use fmt_super::Layout;
use journal_one::{Idle, Packed};
use recovery::read_settled;
use sfs_base::{BlockList, InodeList, RoomyList};
use sfs_dev::{Act, Disk, Memory};
use std::alloc::Global;
use std::process::Abort;

const LAYOUT: Layout = Layout {
    blocks: 32,
    inodes: 64,
    cores: 2,
    slots: 1,
};

// The device calls of making the disk, and after how many of the commit's it is durable.
const MADE: u64 = 5;

const DURABLE: u64 = 7;

// The device calls of the commit.
const ACTS: [Act; 12] = [
    // the fresh block; the numbers, the records, the count and the stamp
    Act::Write {
        at: 118_784,
        count: 4_096,
    },
    Act::Write {
        at: 8_192,
        count: 8,
    },
    Act::Write {
        at: 12_288,
        count: 1_024,
    },
    Act::Write {
        at: 4_608,
        count: 16,
    },
    Act::Sync,
    // the gate
    Act::Write {
        at: 4_096,
        count: 1,
    },
    Act::Sync,
    // the records in the table
    Act::Write {
        at: 86_016,
        count: 512,
    },
    Act::Write {
        at: 86_528,
        count: 512,
    },
    Act::Sync,
    // the gate
    Act::Write {
        at: 4_096,
        count: 1,
    },
    Act::Sync,
];

// The records of the root with `a` and of `a`, and the block of the root, for a disk of this layout.
fn packed(rt: &impl Abort, alloc: Global, layout: &Layout) -> Packed
    ensures below { All (λ (entry : Entry). entry.inode < layout.now.inodes) result.entries }
    ensures in_data { All (LiesInData layout.now) result.fresh }
{
    holds(rt, layout.is_valid(32));
    holds(
        rt,
        layout.data_at() <= 29 && 29 < layout.blocks && 1 < layout.inodes,
    );
    let mut records = RoomyList::<TxRecord>::new(alloc);
    got(rt, records.reserve(2));
    records.push(TxRecord {
        inode: 0,
        bytes: directory(3, 4096, 29),
    });
    records.push(TxRecord {
        inode: 1,
        bytes: directory(2, 0, 0),
    });
    let mut fresh = RoomyList::<TxBlock>::new(alloc);
    got(rt, fresh.reserve(1));
    fresh.push(TxBlock {
        block: 29,
        bytes: rows(rt, alloc),
    });
    let tx = Tx {
        records,
        fresh,
        freed_blocks: BlockList::new(alloc),
        freed_inodes: InodeList::new(alloc),
    };
    got(rt, Packed::new(alloc, tx))
}

// The disk on which that was committed under the stamp 1, through the first slot of core 0.
fn committed(rt: &impl Abort, alloc: Global) -> Memory {
    let mut disk = made_with(rt, alloc, &LAYOUT);
    holds(rt, LAYOUT.is_valid(32) && disk.len() == 32);
    let packed = packed(rt, alloc, &LAYOUT);
    let idle = Idle::at(&disk, &LAYOUT, 0, 0);
    match commit(&mut disk, idle, packed, 1) {
        Ok(Committed { idle, moment }) => {
            idle.leave();
            same(rt, &moment, &(MADE + DURABLE));
        }
        Err(_) => panic!(rt; "failed"),
    }
    disk
}

#[test]
fn a_commit_makes_its_device_calls(rt: HostRuntime) {
    let disk = committed(&rt, rt.alloc());
    same(&rt, &disk.calls().len(), &17);
    for (call, act) in disk.calls().iter().skip(5).zip(ACTS.iter()) {
        same(&rt, &call.act, act);
    }
    let bytes = disk.bytes();
    holds(&rt, bytes.len() == 131_072);
    same(&rt, &bytes[4_096], &0);
    // the count and the stamp, the numbers
    same(&rt, &(bytes[4_608], bytes[4_616]), &(2, 1));
    same(&rt, &(bytes[8_192], bytes[8_196]), &(0, 1));
    // the row of the root
    same(&rt, &(bytes[118_784], bytes[118_788]), &(1, 2));
    same(&rt, &(bytes[118_789], bytes[118_792]), &(1, b'a'));
    // kinds and link counts
    same(&rt, &(bytes[86_016], bytes[86_020]), &(2, 3));
    same(&rt, &(bytes[86_528], bytes[86_532]), &(2, 2));
}

// Whether a disk as a crash leaves it settles the commit: both records of it, or neither.
fn has_commit(rt: &impl Abort, alloc: Global, disk: &mut Memory) -> bool {
    match read_settled(alloc, disk) {
        Err(fault) => panic!(rt; "{fault:?}"),
        Ok(settled) => match (settled.records.get(0), settled.records.get(1)) {
            (Some(root), Some(first)) => {
                holds(
                    rt,
                    (root[4], first[0]) == (3, 2) || (root[4], first[0]) == (2, 0),
                );
                root[4] == 3
            }
            _ => panic!(rt; "no record"),
        },
    }
}

#[test]
fn a_crash_leaves_a_commit_whole_or_not_at_all(rt: HostRuntime) {
    let disk = committed(&rt, rt.alloc());
    for calls in 0..13 {
        for pick in 0..8 {
            let mut left = got(&rt, disk.left(rt.alloc(), MADE + calls, pick));
            let has = has_commit(&rt, rt.alloc(), &mut left);
            // Up to the seal it has not, and from the moment on at which it is durable it has.
            holds(&rt, has == (calls >= DURABLE) || calls == 6);
        }
    }
}
