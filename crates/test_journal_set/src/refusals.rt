// What the calls answer with ample memory, and why they refuse.
use crate::bases::{base, ended};
use crate::helpers::{got, holds, same};
use dev_fake::Fuse;
use driven_journals::{File, Order, Until, begun};
use fmt_super::Layout;
use journal_set::{Ack, CommitFault};
use sfs_base::{NodeId, SpaceKind};
use sfs_dev::Disk;
use tree_laws::TurnAct;

// Three blocks are free: 12, 13 and 14.
const LAYOUT: Layout = Layout {
    blocks: 15,
    inodes: 16,
    cores: 2,
    slots: 1,
};

// A file of which the disk has no block.
const NEW: File = File {
    inode: 1,
    block: None,
    last: 0,
    byte: 1,
};

#[test]
fn what_is_reserved_and_given_back_is_granted_again(rt: HostRuntime) {
    let alloc = rt.alloc();
    let disk = base(&rt, alloc, LAYOUT);
    holds(&rt, LAYOUT.is_valid(15) && disk.len() == 15);
    let mut driven = got(&rt, begun(alloc, disk, LAYOUT, 0, 0));
    same(&rt, &driven.try_out(&rt, alloc, 0), &Some(Ok(12)));
    same(&rt, &driven.try_out(&rt, alloc, 1), &Some(Ok(12)));
    let ended = ended(&rt, driven.end(alloc));
    same(&rt, &ended.turns.len(), &4);
    same(
        &rt,
        &ended.turns.get(3).map(|turn| turn.act),
        &Some(TurnAct::GivenBack),
    );
    same(&rt, &ended.disk.calls().len(), &0);
}

#[test]
fn a_commit_without_records_ends_at_once(rt: HostRuntime) {
    let alloc = rt.alloc();
    let disk = base(&rt, alloc, LAYOUT);
    holds(&rt, LAYOUT.is_valid(15) && disk.len() == 15);
    let mut driven = got(&rt, begun(alloc, disk, LAYOUT, 0, 0));
    let first = Ack {
        moment: 0,
        commit: 1,
    };
    same(&rt, &driven.commit_empty(&rt, alloc, 0), &Some(Ok(first)));
    let second = Ack {
        moment: 0,
        commit: 2,
    };
    same(&rt, &driven.commit_empty(&rt, alloc, 0), &Some(Ok(second)));
    let ended = ended(&rt, driven.end(alloc));
    same(&rt, &ended.turns.len(), &6);
    same(&rt, &ended.disk.calls().len(), &0);
}

#[test]
fn a_node_that_has_moved_is_named(rt: HostRuntime) {
    let alloc = rt.alloc();
    let disk = base(&rt, alloc, LAYOUT);
    holds(&rt, LAYOUT.is_valid(15) && disk.len() == 15);
    let mut driven = got(&rt, begun(alloc, disk, LAYOUT, 1, 0));
    driven.drive(&rt, alloc, Order::Alone { core: 0 }, Until::Filled);
    driven.hand_over(1, NEW, 0);
    let moved = CommitFault::Moved {
        node: NodeId(1),
        last: 1,
    };
    // It is in flight, and then it has ended.
    same(&rt, &driven.try_out(&rt, alloc, 1), &Some(Err(moved)));
    same(&rt, &driven.commit_empty(&rt, alloc, 1), &Some(Err(moved)));
    driven.drive(&rt, alloc, Order::Alone { core: 0 }, Until::Rest);
    same(&rt, &driven.try_out(&rt, alloc, 1), &Some(Err(moved)));
    let seen = File { last: 1, ..NEW };
    driven.hand_over(1, seen, 0);
    same(&rt, &driven.try_out(&rt, alloc, 1), &Some(Ok(13)));
}

#[test]
fn a_shortage_is_told_with_what_is_free(rt: HostRuntime) {
    let alloc = rt.alloc();
    let disk = base(&rt, alloc, LAYOUT);
    holds(&rt, LAYOUT.is_valid(15) && disk.len() == 15);
    let mut driven = got(&rt, begun(alloc, disk, LAYOUT, 1, 0));
    driven.drive(&rt, alloc, Order::InStep { next: 0 }, Until::Rest);
    // The third block goes to the first core's file, which keeps the one that it had.
    let more = File { last: 1, ..NEW };
    driven.hand_over(0, more, 1);
    driven.drive(&rt, alloc, Order::Alone { core: 0 }, Until::Filled);
    let short = CommitFault::NoSpace {
        kind: SpaceKind::Blocks,
        need: 1,
        free: 0,
    };
    same(&rt, &driven.try_out(&rt, alloc, 1), &Some(Err(short)));
    // A commit that needs nothing is not refused. It has the next number.
    match driven.commit_empty(&rt, alloc, 1) {
        Some(Ok(ack)) => same(&rt, &ack.commit, &4),
        _ => panic!(rt; "refused"),
    }
}

#[test]
fn a_failure_stops_all_that_come_behind_it(rt: HostRuntime) {
    let alloc = rt.alloc();
    let disk = Fuse::new(base(&rt, alloc, LAYOUT), 3);
    holds(&rt, LAYOUT.is_valid(15) && disk.len() == 15);
    let mut driven = got(&rt, begun(alloc, disk, LAYOUT, 1, 0));
    driven.drive(&rt, alloc, Order::Alone { core: 0 }, Until::Rest);
    let stopped = CommitFault::Stopped { faults: 1 };
    same(&rt, &driven.try_out(&rt, alloc, 1), &Some(Err(stopped)));
    same(&rt, &driven.try_out(&rt, alloc, 1), &None);
    let ended = ended(&rt, driven.end(alloc));
    holds(&rt, ended.books.len() == 2);
    same(
        &rt,
        &ended.books[0].fault,
        &Some(CommitFault::DiskFailed { faults: 1 }),
    );
    same(&rt, &ended.disk.faults(), &1);
}
