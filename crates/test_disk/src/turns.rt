// Two slots that are used in turn: while one is filled, the other is placed and closed, and both wait for the same syncs. Eight commits
// are made, of which commit k gives inodes 5 and 5 + k a record of bytes k.
ghost use Rattle.std.specs.Prelude.{◌≡◌, ◌<◌, All};
ghost use Rattle.sfs_image.specs.Journal.{Entry};
ghost use Rattle.journal_one.specs.Job.{LiesInData};

use crate::helpers::{got, holds, same};
use crate::making::made_with;
use fmt_inode::Records;
use fmt_journal::{Tx, TxBlock, TxRecord};
use fmt_super::Layout;
use journal_one::{Durable, Fill, Filled, Filling, Idle, Opened, Packed, Placed, Put, Sealed};
use recovery::read_settled;
use sfs_base::{BlockList, InodeList, RoomyList};
use sfs_dev::{Act, Disk, Memory};
use std::alloc::Global;
use std::process::Abort;

const LAYOUT: Layout = Layout {
    blocks: 12,
    inodes: 16,
    cores: 2,
    slots: 1,
};

// The device calls of making the disk.
const MADE: u64 = 5;

// A slot that is idle, one whose records are placed, and after how many device calls the commit of the latter was durable.
struct Turn {
    idle: Idle,
    placed: Placed,
    durable: u64,
}

// The transaction of commit k, for a disk of this layout.
fn packed(rt: &impl Abort, alloc: Global, layout: &Layout, k: u8) -> Packed
    ensures below { All (λ (entry : Entry). entry.inode < layout.now.inodes) result.entries }
    ensures in_data { All (LiesInData layout.now) result.fresh }
{
    holds(rt, 1 <= k && k <= 8 && 13 < layout.inodes);
    let mut records = RoomyList::<TxRecord>::new(alloc);
    holds(rt, records.reserve(2).is_ok());
    records.push(TxRecord {
        inode: 5,
        bytes: [k; 512],
    });
    records.push(TxRecord {
        inode: 5 + u32::from(k),
        bytes: [k; 512],
    });
    let tx = Tx {
        records,
        fresh: RoomyList::<TxBlock>::new(alloc),
        freed_blocks: BlockList::new(alloc),
        freed_inodes: InodeList::new(alloc),
    };
    match Packed::new(alloc, tx) {
        Ok(packed) => packed,
        Err(_) => panic!(rt; "no memory"),
    }
}

// Writes a piece that is not the last.
pub(crate) fn fill_more(
    rt: &impl Abort,
    disk: &mut Memory,
    layout: &Layout,
    filling: Filling,
) -> Filling
    requires { filling.job.place.layout ≡ layout.now }
    ensures { result.job.place.layout ≡ layout.now }
{
    holds(rt, layout.blocks <= disk.len());
    match filling.put_next(disk) {
        Ok(Fill::More { next }) => next,
        Ok(Fill::Done { filled }) => {
            filled.abandon();
            panic!(rt; "the last piece")
        }
        Err(_) => panic!(rt; "failed"),
    }
}

// Writes the last piece.
pub(crate) fn fill_last(
    rt: &impl Abort,
    disk: &mut Memory,
    layout: &Layout,
    filling: Filling,
) -> Filled
    requires { filling.job.place.layout ≡ layout.now }
    ensures { result.place.layout ≡ layout.now }
{
    holds(rt, layout.blocks <= disk.len());
    match filling.put_next(disk) {
        Ok(Fill::Done { filled }) => filled,
        Ok(Fill::More { next }) => {
            next.abandon();
            panic!(rt; "more pieces")
        }
        Err(_) => panic!(rt; "failed"),
    }
}

// Fills an idle slot with the transaction of commit k: its numbers, its records, its count and stamp.
fn fill_all(
    rt: &impl Abort,
    disk: &mut Memory,
    layout: &Layout,
    idle: Idle,
    packed: Packed,
    k: u8,
) -> Filled
    requires idle { idle.layout ≡ layout.now }
    requires below { All (λ (entry : Entry). entry.inode < layout.now.inodes) packed.entries }
    requires in_data { All (LiesInData layout.now) packed.fresh }
    ensures { result.place.layout ≡ layout.now }
{
    let filling = idle.begin(packed, u64::from(k));
    let filling = fill_more(rt, disk, layout, filling);
    let filling = fill_more(rt, disk, layout, filling);
    fill_last(rt, disk, layout, filling)
}

// Places the two records of a commit.
fn place_all(rt: &impl Abort, disk: &mut Memory, layout: &Layout, durable: Durable) -> Placed
    requires { durable.job.place.layout ≡ layout.now }
    ensures { result.place.layout ≡ layout.now }
{
    holds(rt, layout.blocks <= disk.len());
    let next = match durable.place_next(disk) {
        Ok(Put::More { next }) => next,
        Ok(Put::Done { placed }) => {
            placed.abandon();
            panic!(rt; "the last record")
        }
        Err(_) => panic!(rt; "failed"),
    };
    holds(rt, layout.blocks <= disk.len());
    match next.place_next(disk) {
        Ok(Put::Done { placed }) => placed,
        Ok(Put::More { next }) => {
            next.abandon();
            panic!(rt; "more records")
        }
        Err(_) => panic!(rt; "failed"),
    }
}

// Opens the gate of a slot that is sealed.
pub(crate) fn open_one(
    rt: &impl Abort,
    disk: &mut Memory,
    layout: &Layout,
    sealed: Sealed,
) -> Opened
    requires { sealed.place.layout ≡ layout.now }
    ensures { result.place.layout ≡ layout.now }
{
    holds(rt, layout.blocks <= disk.len());
    match sealed.open_gate(disk) {
        Ok(opened) => opened,
        Err(_) => panic!(rt; "failed"),
    }
}

// Makes the first commit, beside a slot that stays idle.
fn first_turn(
    rt: &impl Abort,
    alloc: Global,
    disk: &mut Memory,
    layout: &Layout,
    first: Idle,
    idle: Idle,
) -> Turn
    requires first { first.layout ≡ layout.now }
    requires idle { idle.layout ≡ layout.now }
    ensures idle { result.idle.layout ≡ layout.now }
    ensures placed { result.placed.place.layout ≡ layout.now }
{
    let packed = packed(rt, alloc, layout, 1);
    let filled = fill_all(rt, disk, layout, first, packed, 1);
    let Ok(sealed) = filled.seal(disk) else {
        panic!(rt; "failed");
    };
    let opened = open_one(rt, disk, layout, sealed);
    let Ok(durable) = opened.settle(disk) else {
        panic!(rt; "failed");
    };
    let calls = disk.now();
    Turn {
        idle,
        placed: place_all(rt, disk, layout, durable),
        durable: calls,
    }
}

// Makes commit k through the idle slot, with two syncs, on which the other slot is closed.
fn next_turn(
    rt: &impl Abort,
    alloc: Global,
    disk: &mut Memory,
    layout: &Layout,
    turn: Turn,
    k: u8,
) -> Turn
    requires idle { turn.idle.layout ≡ layout.now }
    requires placed { turn.placed.place.layout ≡ layout.now }
    ensures idle { result.idle.layout ≡ layout.now }
    ensures placed { result.placed.place.layout ≡ layout.now }
{
    let Turn {
        idle,
        placed: other,
        durable: _,
    } = turn;
    let packed = packed(rt, alloc, layout, k);
    let filled = fill_all(rt, disk, layout, idle, packed, k);
    let Ok(sealed) = filled.seal(disk) else {
        panic!(rt; "failed");
    };
    let copied = other.copied_by(disk);
    let opened = open_one(rt, disk, layout, sealed);
    holds(rt, layout.blocks <= disk.len());
    let Ok(closing) = copied.shut_gate(disk) else {
        panic!(rt; "failed");
    };
    let Ok(durable) = opened.settle(disk) else {
        panic!(rt; "failed");
    };
    let idle = closing.idle_by(disk);
    let calls = disk.now();
    Turn {
        idle,
        placed: place_all(rt, disk, layout, durable),
        durable: calls,
    }
}

// Makes eight commits in turn and closes the last slot. Answers after how many device calls each of them was durable.
fn make_eight(rt: &impl Abort, alloc: Global, disk: &mut Memory, layout: &Layout) -> [u64; 8] {
    holds(
        rt,
        layout.is_valid(layout.blocks) && layout.blocks <= disk.len(),
    );
    holds(rt, layout.cores == 2 && layout.slots == 1);
    let slot = Idle::at(disk, layout, 0, 0);
    let other = Idle::at(disk, layout, 1, 0);
    let mut moments = [0u64; 8];
    let turn = first_turn(rt, alloc, disk, layout, slot, other);
    moments[0] = turn.durable;
    let turn = next_turn(rt, alloc, disk, layout, turn, 2);
    moments[1] = turn.durable;
    let turn = next_turn(rt, alloc, disk, layout, turn, 3);
    moments[2] = turn.durable;
    let turn = next_turn(rt, alloc, disk, layout, turn, 4);
    moments[3] = turn.durable;
    let turn = next_turn(rt, alloc, disk, layout, turn, 5);
    moments[4] = turn.durable;
    let turn = next_turn(rt, alloc, disk, layout, turn, 6);
    moments[5] = turn.durable;
    let turn = next_turn(rt, alloc, disk, layout, turn, 7);
    moments[6] = turn.durable;
    let Turn {
        idle,
        placed,
        durable,
    } = next_turn(rt, alloc, disk, layout, turn, 8);
    moments[7] = durable;
    idle.leave();
    holds(rt, layout.blocks <= disk.len());
    match placed.close(disk) {
        Ok(idle) => idle.leave(),
        Err(_) => panic!(rt; "failed"),
    }
    moments
}

// The first byte of the record that a disk settles of an inode.
pub(crate) fn first_byte(rt: &impl Abort, records: &Records, inode: u64) -> u8 {
    match records.get(inode) {
        Some(record) => record[0],
        None => panic!(rt; "no record"),
    }
}

// How many of the commits a disk has, as a crash leaves it: the first ones, each whole.
fn commits_in(rt: &impl Abort, alloc: Global, disk: &mut Memory) -> u8 {
    let records = match read_settled(alloc, disk) {
        Ok(settled) => settled.records,
        Err(fault) => panic!(rt; "{fault:?}"),
    };
    let last = first_byte(rt, &records, 5);
    for k in 1..9u8 {
        let due = if k <= last { k } else { 0 };
        same(rt, &first_byte(rt, &records, 5 + u64::from(k)), &due);
    }
    last
}

#[test]
fn slots_in_turn_share_their_syncs(rt: HostRuntime) {
    let alloc = rt.alloc();
    let mut disk = made_with(&rt, alloc, &LAYOUT);
    let moments = make_eight(&rt, alloc, &mut disk, &LAYOUT);
    let mut syncs = [0u8; 2];
    for call in disk.calls().iter() {
        if matches!(call.act, Act::Sync) {
            let at = usize::from(call.moment > moments[7]);
            holds(&rt, syncs[at] < 100);
            syncs[at] += 1;
        }
    }
    // One that made the disk, and two for each commit; and two that close the last slot.
    same(&rt, &syncs, &[17, 2]);
}

#[test]
fn a_crash_leaves_the_first_commits_of_slots_in_turn(rt: HostRuntime) {
    let alloc = rt.alloc();
    let mut disk = made_with(&rt, alloc, &LAYOUT);
    let moments = make_eight(&rt, alloc, &mut disk, &LAYOUT);
    holds(&rt, disk.now() < 100);
    for calls in MADE..disk.now() + 1 {
        let durable = moments.iter().filter(|moment| **moment <= calls).count();
        for pick in 0..8 {
            let mut left = got(&rt, disk.left(alloc, calls, pick));
            let has = usize::from(commits_in(&rt, alloc, &mut left));
            holds(&rt, durable <= has && has <= durable + 1);
        }
    }
}
