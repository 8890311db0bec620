// What fsyncs take.
ghost use Rattle.std.specs.Prelude.{IfSome};
ghost use Rattle.bench_fsync.specs.Mounted.{IsMounted};

use crate::cases::Case;
use crate::changes::{Target, are_changed, are_made_beside, target_of};
use crate::disks::{begun, mounted_copy};
use mount::{Mounted, unmount};
use sfs_dev::{Act, Memory};
use std::alloc::Global;
use std::io;
use std::rt::Clock;
use std::sync::Wait;
use std::time::Instant;

/// How many changes a run makes.
pub(crate) const CHANGES: u32 = 200;

/// How often a figure is taken.
const TIMES: usize = 5;

/// What an fsync takes: medians of nanoseconds, and the counts of the last run.
#[derive(Clone, Copy)]
pub(crate) struct Figures {
    /// An fsync: a change with it, less one without.
    pub(crate) fsync: u128,
    /// A change without an fsync.
    pub(crate) change: u128,
    /// The first change of a mounted disk with its fsync.
    pub(crate) first: u128,
    /// How many device calls and syncs all fsyncs made but the first one.
    pub(crate) device_calls: u64,
    pub(crate) syncs: u64,
    /// Whether all was answered Ok.
    pub(crate) done: bool,
}

// What a run took.
#[derive(Clone, Copy)]
struct Taken {
    first: u128,
    nanos: u128,
    device_calls: u64,
    syncs: u64,
    done: bool,
}

// A mounted copy of a disk on which the other core has made its changes, with what is to be changed.
fn ready<R: Wait>(
    rt: &R,
    alloc: Global,
    disk: &Memory,
    case: Case,
) -> Option<(Mounted<Memory>, Target)>
    ensures { IfSome result (λ made. IsMounted made.0) }
{
    let mut mounted = mounted_copy(alloc, disk)?;
    let target = target_of(rt, alloc, &mut mounted, case)?;
    if are_made_beside(rt, alloc, &mut mounted, case.rounds()) {
        Some((mounted, target))
    } else {
        None
    }
}

// How many of a disk's calls were syncs.
fn syncs_of(disk: &Memory) -> u64 {
    let mut syncs = 0u64;
    for call in disk.calls() {
        if call.act == Act::Sync {
            syncs = syncs.saturating_add(1);
        }
    }
    syncs
}

// Changes a copy of a disk: once with an fsync, and then again and again with or without.
fn run_of<R: Wait + Clock>(
    rt: &R,
    alloc: Global,
    disk: &Memory,
    case: Case,
    is_flushed: bool,
) -> io::Result<Option<Taken>> {
    let Some((mut mounted, target)) = ready(rt, alloc, disk, case) else {
        return Ok(None);
    };
    let start = Instant::now(rt)?;
    let first_done = are_changed(rt, alloc, &mut mounted, &target, 0, 1, true);
    let first = start.elapsed(rt)?.as_nanos();
    let start = Instant::now(rt)?;
    let done = are_changed(rt, alloc, &mut mounted, &target, 1, 1 + CHANGES, is_flushed);
    let nanos = start.elapsed(rt)?.as_nanos();
    let Mounted { volume, workers } = mounted;
    let (disk, _, _) = unmount(volume, workers);
    Ok(Some(Taken {
        first,
        nanos,
        device_calls: disk.calls().len() as u64,
        syncs: syncs_of(&disk),
        done: first_done && done,
    }))
}

// The one in the middle.
fn median(taken: [u128; TIMES]) -> u128 {
    let mut taken = taken;
    taken.sort_unstable();
    taken[TIMES / 2]
}

/// What an fsync takes in a case, as the median of five: each time a run of changes with an fsync after each, less a run of
/// the same changes without, by the number of fsyncs. Outer `Err` is the clock's.
pub(crate) fn fsyncs_of<R: Wait + Clock>(
    rt: &R,
    alloc: Global,
    case: Case,
) -> io::Result<Option<Figures>> {
    let Some(disk) = begun(rt, alloc, case) else {
        return Ok(None);
    };
    let mut fsyncs = [0u128; TIMES];
    let mut changes = [0u128; TIMES];
    let mut firsts = [0u128; TIMES];
    let mut figures = Figures {
        fsync: 0,
        change: 0,
        first: 0,
        device_calls: 0,
        syncs: 0,
        done: true,
    };
    for time in 0..TIMES {
        let Some(plain) = run_of(rt, alloc, &disk, case, false)? else {
            return Ok(None);
        };
        let Some(flushed) = run_of(rt, alloc, &disk, case, true)? else {
            return Ok(None);
        };
        fsyncs[time] = flushed.nanos.saturating_sub(plain.nanos) / u128::from(CHANGES);
        changes[time] = plain.nanos / u128::from(CHANGES);
        firsts[time] = flushed.first;
        figures.device_calls = flushed.device_calls.saturating_sub(plain.device_calls);
        figures.syncs = flushed.syncs.saturating_sub(plain.syncs);
        figures.done = figures.done && plain.done && flushed.done;
    }
    figures.fsync = median(fsyncs);
    figures.change = median(changes);
    figures.first = median(firsts);
    Ok(Some(figures))
}
