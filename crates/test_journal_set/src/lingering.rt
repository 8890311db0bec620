// A durable commit lingers in its slot while the block that it wrote is given up and written anew: core 0 fills file 1 with bytes 1; core 1 fills it
// with bytes 2, then file 2 with bytes 3, and file 2 with bytes 4. Each core has two slots.
ghost use Rattle.driven_journals.specs.Seats.{IsDriven};

use crate::bases::{base, ended, gates_in};
use crate::helpers::{got, holds, same, same_list};
use crate::judging::filled_with;
use driven_journals::{Driven, Ended, File, Order, Until, begun};
use fmt_super::Layout;
use recovery::recover;
use sfs_dev::{Disk, Memory};
use std::alloc::Global;
use std::process::Abort;
use std::sync::Wait;

// A slot has 4 blocks: the gates lie at bytes 4,096 and 20,480 (core 0), 36,864 and 53,248 (core 1). The data area begins at block 19.
const LAYOUT: Layout = Layout {
    blocks: 24,
    inodes: 16,
    cores: 2,
    slots: 2,
};

// The gates: three commits are open at once; the fourth has no idle slot, so the first comes home and its gate is shut, and then the second. The
// third one's record comes home before the fourth is sealed, and its gate is shut before the fourth is settled.
const GATES: [(u64, u8); 7] = [
    (4_096, 1),
    (36_864, 1),
    (53_248, 1),
    (4_096, 0),
    (36_864, 0),
    (36_864, 1),
    (53_248, 0),
];

// What the two files are filled with behind each commit.
const FILLED: [(u64, u64); 5] = [(0, 0), (1, 0), (2, 0), (2, 3), (2, 4)];

// A core makes a commit of a file, to its end. Answers the file behind it.
fn commit_file<R: Wait + Abort>(
    rt: &R,
    alloc: Global,
    driven: Driven<Memory>,
    core: u32,
    file: File,
) -> (Driven<Memory>, File)
    requires { IsDriven driven }
    ensures { IsDriven result.0 }
{
    let mut driven = driven;
    driven.hand_over(core, file, 1);
    driven.drive(rt, alloc, Order::Alone { core }, Until::Rest);
    let behind = match driven.book(core) {
        Some(book) => File {
            inode: file.inode,
            block: book.block,
            last: book.last,
            byte: book.byte,
        },
        None => panic!(rt; "no core"),
    };
    (driven, behind)
}

// The four commits.
fn moved<R: Wait + Abort>(rt: &R, alloc: Global) -> Ended<Memory> {
    let disk = base(rt, alloc, LAYOUT);
    holds(rt, LAYOUT.is_valid(24) && disk.len() == 24);
    let driven = got(rt, begun(alloc, disk, LAYOUT, 0, 0));
    let one = File {
        inode: 1,
        block: None,
        last: 0,
        byte: 1,
    };
    let two = File {
        inode: 2,
        block: None,
        last: 0,
        byte: 3,
    };
    let (driven, one) = commit_file(rt, alloc, driven, 0, one);
    let (driven, again) = commit_file(rt, alloc, driven, 1, one);
    let (driven, two) = commit_file(rt, alloc, driven, 1, two);
    // The block that the first commit wrote is written anew.
    same(
        rt,
        &(one.block, again.block, two.block),
        &(Some(20), Some(21), Some(20)),
    );
    let (driven, last) = commit_file(rt, alloc, driven, 1, two);
    same(rt, &last.last, &4);
    ended(rt, driven.end(alloc))
}

// How many commits were durable at a moment.
fn durable_at(ended: &Ended<Memory>, moment: u64) -> usize {
    let mut count = 0usize;
    for book in ended.books.iter() {
        count = count.saturating_add(crate::judging::durable_at(book, moment) as usize);
    }
    count
}

// Whether what a crash left is what so many commits left, or one more.
fn is_left(rt: &impl Abort, alloc: Global, left: &mut Memory, durable: usize) -> bool {
    let report = got(rt, recover(alloc, left));
    let (one, two) = (filled_with(&report.tree, 1), filled_with(&report.tree, 2));
    let mut found = false;
    for (place, (first, second)) in FILLED.iter().enumerate() {
        if (one, two) == (Some(*first), Some(*second)) {
            found = durable <= place && place <= durable.saturating_add(1);
        }
    }
    found
}

#[test]
fn three_commits_are_open_at_once(rt: HostRuntime) {
    let alloc = rt.alloc();
    let ended = moved(&rt, alloc);
    same_list(&rt, &gates_in(&rt, alloc, &ended.disk), &GATES);
}

#[test]
fn a_crash_leaves_each_commit_whole_while_a_slot_lingers(rt: HostRuntime) {
    let alloc = rt.alloc();
    let ended = moved(&rt, alloc);
    let calls = ended.disk.calls().len() as u64;
    for made in 0..calls {
        for pick in 0..8u32 {
            let mut left = got(&rt, ended.disk.left(alloc, made, pick));
            holds(
                &rt,
                is_left(&rt, alloc, &mut left, durable_at(&ended, made)),
            );
        }
    }
}
