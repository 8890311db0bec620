// Cores that count in cells of one table, each in a thread of its own.
ghost use Rattle.std.specs.Prelude.{◌≡◌, ◌<◌, ◌≤◌, ℕ, All, length, slice_index_or};
ghost use Rattle.stamp_table.specs.Placing.{lies_in_order};
ghost use Rattle.stamp_table.specs.Table.{IsBetweenCalls, IsSameCore};
ghost use Rattle.tree_laws.specs.Sound.{IsSound};

use crate::helpers::{got, holds};
use sfs_base::{NoMemory, NodeId};
use sfs_tree::Tree;
use stamp_table::{Core, Meaning, Shared};
use std::alloc::Global;
use std::process::Abort;
use std::snapshot::Snapshot;
use std::sync::Wait;
use std::sync::atomic::{AtomicU64, Ordering};
use std::thread;
use std::thread::{Threads, join};
use tree_laws::{Call, Entry, History, Reply};

// How often a core looks for the other one while it is inside.
pub(crate) const TURNS: u64 = 10_000_000;

// How often all cores together count.
const CALLS: u64 = 200_000;

// Each value stands for whatever the calls leave.
pub(crate) struct Anything;

impl<C, X> Meaning<C, X, ()> for Anything {
    ghost lawful = { λ given first log. Unit {0} };

    ghost stands = { λ given first log place value. Unit {0} };

    ghost nothing = { tt };

    ghost slot_at = { λ measure place. place };

    ghost place_at = { λ measure slot. slot };

    ghost one_to_one = { λ measure. lies_in_order };

    fn slot_of(_measure: usize, place: usize) -> usize {
        place
    }
}

pub(crate) type Counters = Shared<u64, (), (), Anything>;

pub(crate) type Counter = Core<u64, (), (), Anything>;

// Holds a cell, adds 1 to it, adds an entry, lets go, and answers the entry with what the cell had.
pub(crate) fn count_once<R: Wait>(
    rt: &R,
    shared: &Counters,
    core: &mut Counter,
    place: usize,
) -> Result<(), NoMemory>
    requires core { IsBetweenCalls shared.now core.old }
    requires cell { place < shared.now.table.id.slots }
    ensures same { IsSameCore core.old core.new }
    ensures between { IsBetweenCalls shared.now core.new }
{
    core.reserve(1, 1)?;
    core.hold_one(rt, shared, place);
    let count = *core.cell(place);
    core.replace(place, count.wrapping_add(1));
    let stamp = core.stamp(shared, Call::Fsync { node: NodeId(0) }, Reply::NoMemory);
    core.let_go(shared, 0);
    core.answer(stamp, Reply::Ok, Some(count));
    Ok(())
}

// Does so many times, or until it is refused memory.
pub(crate) fn count<R: Wait>(
    rt: &R,
    shared: &Counters,
    core: &mut Counter,
    place: usize,
    rounds: u32,
)
    requires core { IsBetweenCalls shared.now core.old }
    requires cell { place < shared.now.table.id.slots }
    ensures same { IsSameCore core.old core.new }
    ensures between { IsBetweenCalls shared.now core.new }
{
    for _ in 0..rounds {
        if count_once(rt, shared, core, place).is_err() {
            return;
        }
    }
}

// All cores do, each in a cell of its own or all in the first.
fn count_all<R: Threads + Wait + Sync>(
    rt: &R,
    shared: &Counters,
    cores: &mut [Counter],
    apart: bool,
    rounds: u32,
)
    requires cores { All (IsBetweenCalls shared.now) cores.old }
    requires cells { length cores.old ≤ shared.now.table.id.slots }
    ensures count { length cores.new ≡ length cores.old }
    ensures same { (place : ℕ) (d : _) → place < length cores.old → IsSameCore (slice_index_or cores.old place d) (slice_index_or cores.new place d)
        × IsBetweenCalls shared.now (slice_index_or cores.new place d) }
{
    thread::for_each_mut(
        rt,
        cores,
        8,
        &|number, core: &mut Counter|
            requires { IsBetweenCalls shared.now core.now × (number < shared.now.table.id.slots) }
            ensures { IsSameCore core.entry.now core.exit.now × IsBetweenCalls shared.entry.now core.exit.now }
        {
            let place = if apart { number } else { 0 };
            count(rt, shared, core, place, rounds)
        },
    );
}

// Whether the entry is an fsync of the root, and what the tree answers to it.
fn is_due(tree: &mut Tree, entry: &Entry) -> Result<bool, NoMemory>
    requires sound { IsSound tree.old }
    requires core { entry.now.core.0 < length tree.old.made }
    ensures sound { IsSound tree.new }
    ensures cores { length tree.new.made ≡ length tree.old.made }
{
    match &entry.call {
        Call::Fsync { node } => {
            let call = Call::Fsync { node: *node };
            Ok(tree.step(entry.core, &call)?.equals(&entry.reply))
        }
        _ => Ok(false),
    }
}

// Whether the entries stand at their stamps, each is what the plain tree answers there, and those of each cell have what it had, in order.
fn is_right(alloc: Global, history: &History, cores: u8, apart: bool) -> Result<bool, NoMemory>
    requires { cores ≤ 8 }
{
    let mut tree = Tree::empty(alloc, 1, 1, cores)?;
    let mut next = vec![in alloc; 0u64; cores as usize]?;
    let mut cursor = history.first();
    for place in 0..history.len() {
        let Some(entry) = history.next(&mut cursor) else {
            return Ok(false);
        };
        let core = entry.core.0 as usize;
        if entry.stamp.0 != place || core >= next.len() || !is_due(&mut tree, entry)? {
            return Ok(false);
        }
        let cell = if apart { core } else { 0 };
        if entry.ack != Some(next[cell]) {
            return Ok(false);
        }
        next[cell] = next[cell].wrapping_add(1);
    }
    Ok(true)
}

// Whether the values that the table had at its end are what was counted in each cell.
fn are_counts(values: &[u64], cores: u8, apart: bool, rounds: u32) -> bool {
    let all = cores as u64 * rounds as u64;
    let mut right = values.len() == cores as usize;
    for place in 0..values.len() {
        let wanted = if apart {
            rounds as u64
        } else if place == 0 {
            all
        } else {
            0
        };
        if values[place] != wanted {
            right = false;
        }
    }
    right
}

// Counts with so many cores, each in a cell of its own or all in the first, and says how many entries there are, none where one is wrong.
fn counted<R: Threads + Wait + Sync>(
    rt: &R,
    alloc: Global,
    cores: u8,
    apart: bool,
    rounds: u32,
) -> Result<u64, NoMemory>
    requires { (0 < cores) × (cores ≤ 8) }
{
    let first = Tree::empty(alloc, 1, 1, cores)?;
    let cells = vec![in alloc; 0u64; cores as usize]?;
    let (shared, mut hands) = Counters::make(alloc, &first, Snapshot::of(&()), 0, cells, cores)?;
    count_all(rt, &shared, hands.as_mut_slice(), apart, rounds);
    let (history, values) = shared.close(hands);
    if is_right(alloc, &history, cores, apart)? && are_counts(&values, cores, apart, rounds) {
        Ok(history.len())
    } else {
        Ok(0)
    }
}

// Whether each call of each of so many cores is in the history once, where each counts so often.
fn are_all_counted<R: Threads + Wait + Sync + Abort>(
    rt: &R,
    alloc: Global,
    cores: u8,
    apart: bool,
    rounds: u32,
) -> bool
    requires { (0 < cores) × (cores ≤ 8) }
{
    let done = got(rt, counted(rt, alloc, cores, apart, rounds));
    done == CALLS
}

#[test]
fn one_core_counts(rt: HostRuntime) {
    let counted = are_all_counted(&rt, rt.alloc(), 1, true, 200_000);
    holds(&rt, counted);
}

#[test]
fn two_cores_count_apart(rt: HostRuntime) {
    let counted = are_all_counted(&rt, rt.alloc(), 2, true, 100_000);
    holds(&rt, counted);
}

#[test]
fn two_cores_count_in_one_cell(rt: HostRuntime) {
    let counted = are_all_counted(&rt, rt.alloc(), 2, false, 100_000);
    holds(&rt, counted);
}

#[test]
fn four_cores_count_apart(rt: HostRuntime) {
    let counted = are_all_counted(&rt, rt.alloc(), 4, true, 50_000);
    holds(&rt, counted);
}

#[test]
fn four_cores_count_in_one_cell(rt: HostRuntime) {
    let counted = are_all_counted(&rt, rt.alloc(), 4, false, 50_000);
    holds(&rt, counted);
}

#[test]
fn eight_cores_count_apart(rt: HostRuntime) {
    let counted = are_all_counted(&rt, rt.alloc(), 8, true, 25_000);
    holds(&rt, counted);
}

#[test]
fn eight_cores_count_in_one_cell(rt: HostRuntime) {
    let counted = are_all_counted(&rt, rt.alloc(), 8, false, 25_000);
    holds(&rt, counted);
}

// Holds a cell, and says whether the other core was inside at some time until then.
fn meets<R: Wait>(
    rt: &R,
    shared: &Counters,
    core: &mut Counter,
    place: usize,
    gate: &AtomicU64,
) -> bool
    requires core { IsBetweenCalls shared.now core.old }
    requires cell { place < shared.now.table.id.slots }
    ensures same { IsSameCore core.old core.new }
    ensures between { IsBetweenCalls shared.now core.new }
{
    if core.reserve(0, 1).is_err() {
        return false;
    }
    core.hold_one(rt, shared, place);
    gate.fetch_add(1, Ordering::SeqCst);
    let mut met = false;
    for _ in 0..TURNS {
        if gate.load(Ordering::SeqCst) == 2 {
            met = true;
            break;
        }
        thread::yield_now();
    }
    core.let_go(shared, 0);
    met
}

// Whether two cores that hold different cells are inside at once: each waits for the other one before it lets go.
fn are_inside_at_once<R: Threads + Wait + Sync>(rt: &R, alloc: Global) -> Result<bool, NoMemory> {
    let first = Tree::empty(alloc, 1, 1, 2)?;
    let cells = vec![in alloc; 0u64, 0u64]?;
    let (shared, mut hands) = Counters::make(alloc, &first, Snapshot::of(&()), 0, cells, 2)?;
    let gate = AtomicU64::new(0);
    let shared_by = &shared;
    let gate_by = &gate;
    let (Some(mut second), Some(mut first)) = (hands.pop(), hands.pop()) else {
        unreachable!()
    };
    let (one, two) = join(
        rt,
        || meets(rt, shared_by, &mut first, 0, gate_by),
        || meets(rt, shared_by, &mut second, 1, gate_by),
    );
    Ok(one && two)
}

#[test]
fn two_cores_are_inside_at_once(rt: HostRuntime) {
    let met = got(&rt, are_inside_at_once(&rt, rt.alloc()));
    holds(&rt, met);
}
