// One core with one slot, and with two.
use crate::bases::{base, ended, gates_in, syncs_in};
use crate::helpers::{got, holds, same, same_list};
use driven_journals::{Made, Order, Until, begun};
use fmt_super::Layout;
use journal_set::Ack;
use sfs_dev::{Act, Disk};

// A slot has 4 blocks: its gate lies at byte 4,096, its count at 4,608, its numbers at 8,192 and its records at 12,288. The inode table begins
// at byte 20,480, and the data area at block 7.
const ONE_SLOT: Layout = Layout {
    blocks: 16,
    inodes: 16,
    cores: 1,
    slots: 1,
};

// The second slot's gate lies at byte 20,480.
const TWO_SLOTS: Layout = Layout {
    blocks: 16,
    inodes: 16,
    cores: 1,
    slots: 2,
};

// The device calls of two commits of the file of inode 1, with blocks 8 and 9.
const ACTS: [Act; 18] = [
    Act::Write {
        at: 32_768,
        count: 4_096,
    },
    Act::Write {
        at: 8_192,
        count: 4,
    },
    Act::Write {
        at: 12_288,
        count: 512,
    },
    Act::Write {
        at: 4_608,
        count: 16,
    },
    Act::Sync,
    Act::Write {
        at: 4_096,
        count: 1,
    },
    Act::Sync,
    // The first commit's record comes home, and its slot is idle.
    Act::Write {
        at: 20_992,
        count: 512,
    },
    Act::Sync,
    Act::Write {
        at: 4_096,
        count: 1,
    },
    Act::Sync,
    Act::Write {
        at: 36_864,
        count: 4_096,
    },
    Act::Write {
        at: 8_192,
        count: 4,
    },
    Act::Write {
        at: 12_288,
        count: 512,
    },
    Act::Write {
        at: 4_608,
        count: 16,
    },
    Act::Sync,
    Act::Write {
        at: 4_096,
        count: 1,
    },
    Act::Sync,
];

// What is told of the two: their numbers, and the moments of the syncs that made them durable.
const MADE: [Made; 2] = [
    Made {
        size: None,
        ack: Some(Ack {
            moment: 7,
            commit: 1,
        }),
    },
    Made {
        size: None,
        ack: Some(Ack {
            moment: 18,
            commit: 2,
        }),
    },
];

#[test]
fn a_second_commit_frees_the_slot_first(rt: HostRuntime) {
    let alloc = rt.alloc();
    let disk = base(&rt, alloc, ONE_SLOT);
    holds(&rt, ONE_SLOT.is_valid(16) && disk.len() == 16);
    let mut driven = got(&rt, begun(alloc, disk, ONE_SLOT, 2, 0));
    driven.drive(&rt, alloc, Order::Alone { core: 0 }, Until::Rest);
    let ended = ended(&rt, driven.end(alloc));
    let mut acts = got(&rt, Vec::with_capacity(alloc, 32));
    for call in ended.disk.calls() {
        got(&rt, acts.push(call.act));
    }
    same_list(&rt, &acts, &ACTS);
    same(&rt, &ended.books.len(), &1);
    holds(&rt, ended.books.len() == 1);
    same_list(&rt, &ended.books[0].made, &MADE);
}

#[test]
fn the_second_gate_is_opened_before_the_first_is_shut(rt: HostRuntime) {
    let alloc = rt.alloc();
    let disk = base(&rt, alloc, TWO_SLOTS);
    holds(&rt, TWO_SLOTS.is_valid(16) && disk.len() == 16);
    let mut driven = got(&rt, begun(alloc, disk, TWO_SLOTS, 2, 0));
    driven.drive(&rt, alloc, Order::Alone { core: 0 }, Until::Rest);
    let ended = ended(&rt, driven.end(alloc));
    same_list(
        &rt,
        &gates_in(&rt, alloc, &ended.disk),
        &[(4_096, 1), (20_480, 1), (4_096, 0)],
    );
    same(&rt, &syncs_in(&ended.disk), &4);
}
