// Commits of cores on a disk of their own, and what they took.
ghost use Rattle.std.specs.Prelude.{IfSome};
ghost use Rattle.driven_journals.specs.Seats.{IsDriven};

use crate::slow::Slow;
use driven_journals::{Book, Driven, Ended, Order, Until, begun};
use fmt_super::Layout;
use sfs_base::NoGate;
use sfs_dev::{Act, Disk, Memory};
use std::alloc::Global;
use std::sync::Wait;
use std::sync::atomic::AtomicU64;
use std::thread::Threads;

// How many blocks and inodes each disk has.
const BLOCKS: u32 = 256;

const INODES: u32 = 64;

/// So many cores with so many slots each make so many commits together.
#[derive(Clone, Copy)]
pub(crate) struct Case {
    pub(crate) cores: u32,
    pub(crate) slots: u32,
    pub(crate) commits: u32,
}

/// How many commits were durable in the end, with how many syncs and writes.
#[derive(Clone, Copy)]
pub(crate) struct Figures {
    pub(crate) durable: u64,
    pub(crate) syncs: u64,
    pub(crate) writes: u64,
}

// A disk whose syncs take so many rounds, with its cores. None, where there is no memory for it.
fn made(alloc: Global, case: Case, rounds: u64) -> Option<Driven<Slow>>
    ensures { IfSome result IsDriven }
{
    let disk = Slow::new(Memory::new(alloc, BLOCKS).ok()?, rounds);
    let layout = Layout {
        blocks: BLOCKS,
        inodes: INODES,
        cores: case.cores,
        slots: case.slots,
    };
    if !layout.is_valid(BLOCKS) || disk.len() < BLOCKS {
        return None;
    }
    begun(alloc, disk, layout, case.commits / case.cores.max(1), 0).ok()
}

// How many commits of a core were durable.
fn durable_of(book: &Book) -> u64 {
    book.made.iter().filter(|one| one.ack.is_some()).count() as u64
}

// What cores took that have ended.
fn figures_of(ended: Ended<Slow>) -> Figures {
    let Ended {
        disk,
        turns: _,
        books,
    } = ended;
    let memory = disk.into_inner();
    let mut figures = Figures {
        durable: 0,
        syncs: 0,
        writes: 0,
    };
    for book in &books {
        figures.durable = figures.durable.saturating_add(durable_of(book));
    }
    for call in memory.calls() {
        match call.act {
            Act::Sync => figures.syncs = figures.syncs.saturating_add(1),
            Act::Write { .. } => figures.writes = figures.writes.saturating_add(1),
            _ => {}
        }
    }
    figures
}

/// What commits of cores take that have turns in step on one thread, on a disk in memory. None, where there is no memory for it.
pub(crate) fn in_step<R: Wait>(rt: &R, alloc: Global, case: Case) -> Option<Figures> {
    let mut driven = made(alloc, case, 0)?;
    driven.drive(rt, alloc, Order::InStep { next: 0 }, Until::Rest);
    Some(figures_of(driven.end(alloc)?))
}

/// What commits of cores take in threads of their own, on a disk whose syncs take so many rounds.
pub(crate) fn in_threads<R: Threads + Wait + Sync>(
    rt: &R,
    alloc: Global,
    case: Case,
    rounds: u64,
) -> Option<Figures> {
    let mut driven = made(alloc, case, rounds)?;
    driven.side_by_side(rt, alloc, &NoGate, &AtomicU64::new(0));
    Some(figures_of(driven.end(alloc)?))
}
