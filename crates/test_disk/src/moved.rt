// A block that moves on while the slot whose commit wrote it is still open. Commit 1 gives inode 5 a record of bytes 1 and writes block
// 19; commit 2 gives inode 5 one of bytes 2, so that block 19 is given up; and commit 3 gives inode 6 one of bytes 3 and writes block 19
// anew. Only then the slots are closed, the oldest first.
ghost use Rattle.std.specs.Prelude.{◌≡◌, ◌<◌, All};
ghost use Rattle.sfs_image.specs.Journal.{Entry};
ghost use Rattle.journal_one.specs.Job.{LiesInData};

use crate::helpers::{got, holds, same};
use crate::making::made_with;
use crate::turns::{fill_last, fill_more, first_byte, open_one};
use fmt_journal::{Tx, TxBlock, TxRecord};
use fmt_super::Layout;
use journal_one::{Durable, Idle, Packed, Put, sync};
use recovery::read_settled;
use sfs_base::{BlockList, InodeList, RoomyList};
use sfs_dev::{Disk, Memory};
use std::alloc::Global;
use std::process::Abort;

const LAYOUT: Layout = Layout {
    blocks: 22,
    inodes: 16,
    cores: 2,
    slots: 2,
};

// The device calls of making the disk.
const MADE: u64 = 7;

// After how many device calls each of the three commits was durable.
struct Made {
    disk: Memory,
    durable: [u64; 3],
}

// The transaction of one record and one fresh block, both of these bytes, for a disk of this layout.
fn packed(
    rt: &impl Abort,
    alloc: Global,
    layout: &Layout,
    inode: u32,
    block: u32,
    byte: u8,
) -> Packed
    ensures below { All (λ (entry : Entry). entry.inode < layout.now.inodes) result.entries }
    ensures in_data { All (LiesInData layout.now) result.fresh }
{
    holds(rt, layout.is_valid(22));
    holds(
        rt,
        layout.data_at() <= block && block < layout.blocks && inode < layout.inodes,
    );
    let mut records = RoomyList::<TxRecord>::new(alloc);
    got(rt, records.reserve(1));
    records.push(TxRecord {
        inode,
        bytes: [byte; 512],
    });
    let mut fresh = RoomyList::<TxBlock>::new(alloc);
    got(rt, fresh.reserve(1));
    fresh.push(TxBlock {
        block,
        bytes: [byte; 4096],
    });
    let tx = Tx {
        records,
        fresh,
        freed_blocks: BlockList::new(alloc),
        freed_inodes: InodeList::new(alloc),
    };
    got(rt, Packed::new(alloc, tx))
}

// Commits through an idle slot up to where it is durable, and lets go of the fresh block.
fn made_durable(
    rt: &impl Abort,
    alloc: Global,
    disk: &mut Memory,
    layout: &Layout,
    idle: Idle,
    packed: Packed,
    stamp: u64,
) -> Durable
    requires idle { idle.layout ≡ layout.now }
    requires below { All (λ (entry : Entry). entry.inode < layout.now.inodes) packed.entries }
    requires in_data { All (LiesInData layout.now) packed.fresh }
    ensures { result.job.place.layout ≡ layout.now }
{
    let filling = idle.begin(packed, stamp);
    same(rt, &filling.done(), &0);
    let filling = fill_more(rt, disk, layout, filling);
    let filling = fill_more(rt, disk, layout, filling);
    let filling = fill_more(rt, disk, layout, filling);
    same(rt, &filling.done(), &3);
    let filled = fill_last(rt, disk, layout, filling);
    let Ok(sealed) = filled.seal(disk) else {
        panic!(rt; "failed");
    };
    let opened = open_one(rt, disk, layout, sealed);
    let Ok(durable) = opened.settle(disk) else {
        panic!(rt; "failed");
    };
    let (durable, fresh) = durable.shed(alloc);
    same(rt, &fresh.as_slice().len(), &1);
    durable
}

// Places the record of a durable commit and closes its slot. Answers how many records and how many fresh blocks the transaction had
// that it hands back.
fn brought_home(
    rt: &impl Abort,
    disk: &mut Memory,
    layout: &Layout,
    durable: Durable,
) -> (usize, usize)
    requires { durable.job.place.layout ≡ layout.now }
{
    holds(rt, layout.blocks <= disk.len());
    same(rt, &durable.done(), &0);
    let placed = match durable.place_next(disk) {
        Ok(Put::Done { placed }) => placed,
        _ => panic!(rt; "no last record"),
    };
    let Ok(copied) = placed.copy(disk) else {
        panic!(rt; "failed");
    };
    holds(rt, layout.blocks <= disk.len());
    let Ok(closing) = copied.shut_gate(disk) else {
        panic!(rt; "failed");
    };
    let Ok(()) = sync(disk) else {
        panic!(rt; "failed");
    };
    let (_, packed) = closing.ended_by(disk);
    let tx = packed.into_tx();
    (tx.records.as_slice().len(), tx.fresh.as_slice().len())
}

// The records that a disk settles of inodes 5 and 6.
fn settled_bytes(rt: &impl Abort, alloc: Global, disk: &mut Memory) -> (u8, u8) {
    match read_settled(alloc, disk) {
        Ok(settled) => (
            first_byte(rt, &settled.records, 5),
            first_byte(rt, &settled.records, 6),
        ),
        Err(fault) => panic!(rt; "{fault:?}"),
    }
}

// Makes the three commits, and closes their slots.
fn moved(rt: &impl Abort, alloc: Global) -> Made {
    let mut disk = made_with(rt, alloc, &LAYOUT);
    holds(rt, LAYOUT.is_valid(22) && disk.len() == 22);
    let first = Idle::at(&disk, &LAYOUT, 0, 0);
    let second = Idle::at(&disk, &LAYOUT, 1, 0);
    let third = Idle::at(&disk, &LAYOUT, 0, 1);
    let own = packed(rt, alloc, &LAYOUT, 5, 19, 1);
    let first = made_durable(rt, alloc, &mut disk, &LAYOUT, first, own, 1);
    let one = disk.now();
    let own = packed(rt, alloc, &LAYOUT, 5, 20, 2);
    let second = made_durable(rt, alloc, &mut disk, &LAYOUT, second, own, 2);
    let two = disk.now();
    let own = packed(rt, alloc, &LAYOUT, 6, 19, 3);
    let third = made_durable(rt, alloc, &mut disk, &LAYOUT, third, own, 3);
    let three = disk.now();
    same(rt, &settled_bytes(rt, alloc, &mut disk), &(2, 3));
    same(rt, &brought_home(rt, &mut disk, &LAYOUT, first), &(1, 0));
    same(rt, &settled_bytes(rt, alloc, &mut disk), &(2, 3));
    same(rt, &brought_home(rt, &mut disk, &LAYOUT, second), &(1, 0));
    same(rt, &brought_home(rt, &mut disk, &LAYOUT, third), &(1, 0));
    Made {
        disk,
        durable: [one, two, three],
    }
}

#[test]
fn a_block_moves_on_while_its_slot_is_open(rt: HostRuntime) {
    let alloc = rt.alloc();
    let Made {
        mut disk,
        durable: _,
    } = moved(&rt, alloc);
    same(&rt, &settled_bytes(&rt, alloc, &mut disk), &(2, 3));
    let bytes = disk.bytes();
    holds(&rt, bytes.len() == 90_112);
    same(
        &rt,
        &(bytes[77_824], bytes[81_919], bytes[81_920]),
        &(3, 3, 2),
    );
}

#[test]
fn a_crash_leaves_each_commit_whole_while_a_block_moves_on(rt: HostRuntime) {
    let alloc = rt.alloc();
    let Made { disk, durable } = moved(&rt, alloc);
    holds(&rt, disk.now() < 100);
    for calls in MADE..disk.now() + 1 {
        let least = durable.iter().filter(|moment| **moment <= calls).count();
        for pick in 0..8 {
            let mut left = got(&rt, disk.left(alloc, calls, pick));
            let has = match settled_bytes(&rt, alloc, &mut left) {
                (0, 0) => 0,
                (1, 0) => 1,
                (2, 0) => 2,
                (2, 3) => 3,
                _ => 100,
            };
            holds(&rt, least <= has && has <= least + 1);
        }
    }
}
