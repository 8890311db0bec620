// What a table hands out at its end, and what a core sees, tells and exchanges meanwhile.
ghost use Rattle.std.specs.Prelude.{◌≡◌, ◌<◌, ◌≤◌, ◌∷◌, ℕ, [], List};
ghost use Rattle.std.specs.Vec.{vec_capacity};
ghost use Rattle.stamp_table.specs.declared.event.Event.{Event};
ghost use Rattle.stamp_table.specs.declared.event.Event.TheVariants.{Told};
ghost use Rattle.stamp_table.specs.Events.{event_core};
ghost use Rattle.stamp_table.specs.Rule.{entries_by};
ghost use Rattle.stamp_table.specs.Table.{AreAllCores, IsBetweenCalls, IsNew};

use crate::helpers::{got, holds};
use crate::table::{Anything, Counter, Counters, TURNS, count, count_once};
use sfs_base::{NoMemory, NodeId};
use sfs_tree::Tree;
use stamp_table::{Core, Shared};
use std::alloc::Global;
use std::snapshot::Snapshot;
use std::sync::Wait;
use std::sync::atomic::{AtomicU64, Ordering};
use std::thread;
use std::thread::{Threads, join};
use tree_laws::{Call, History, Reply};

// How often the one core counts for which the other one looks.
const ROUNDS: u32 = 1000;

// For how many turns a core holds a cell for long: many times what another one looks at it before it sleeps.
const LONG: u64 = 200_000;

type Tellers = Shared<u64, u64, (), Anything>;

type Teller = Core<u64, u64, (), Anything>;

// The only core of a table tells 7, and the table ends.
fn tell_and_close(shared: Tellers, hands: Vec<Teller>, core: Teller) -> (History, Vec<u64>)
    requires all { AreAllCores shared (core ∷ []) }
    requires new { IsNew shared.first core }
    requires room { (hands.items ≡ []) × (0 < vec_capacity hands) }
    ensures told { (log : List (Event ℕ)) × (entries_by event_core 0 log ≡ Told (record { 0 = 0 }) 7 ∷ []) }
{
    let mut core = core;
    let mut hands = hands;
    core.tell(&shared, &7);
    hands.push_reserved(core);
    shared.close(hands)
}

// Ends a table with one cell to which a fact was told: whether the history is empty and the cell has the value with which it began.
fn has_told(alloc: Global) -> Result<bool, NoMemory> {
    let first = Tree::empty(alloc, 1, 1, 1)?;
    let cells = vec![in alloc; 5u64]?;
    let (shared, mut hands) = Tellers::make(alloc, &first, Snapshot::of(&()), 0, cells, 1)?;
    let Some(core) = hands.pop() else {
        unreachable!()
    };
    let (history, values) = tell_and_close(shared, hands, core);
    Ok(history.is_empty() && values.len() == 1 && values[0] == 5)
}

#[test]
fn a_fact_that_was_told_is_in_the_log_at_the_end(rt: HostRuntime) {
    let told = got(&rt, has_told(rt.alloc()));
    holds(&rt, told);
}

// How many calls the second core sees before the first one makes one, and after it.
fn seen_by_the_other<R: Wait>(rt: &R, alloc: Global) -> Result<(u64, u64), NoMemory> {
    let first = Tree::empty(alloc, 1, 1, 2)?;
    let cells = vec![in alloc; 0u64, 0u64]?;
    let (shared, mut hands) = Counters::make(alloc, &first, Snapshot::of(&()), 0, cells, 2)?;
    let (Some(mut second), Some(mut first)) = (hands.pop(), hands.pop()) else {
        unreachable!()
    };
    let before = second.look(&shared);
    count_once(rt, &shared, &mut first, 0)?;
    let after = second.look(&shared);
    Ok((before, after))
}

#[test]
fn a_core_sees_what_another_one_did(rt: HostRuntime) {
    let (before, after) = got(&rt, seen_by_the_other(&rt, rt.alloc()));
    holds(&rt, before == 0);
    holds(&rt, after == 1);
}

// How many calls a core finds that looks for all of another one's, while that makes them.
fn looks_for_all<R: Threads + Wait + Sync>(rt: &R, alloc: Global) -> Result<u64, NoMemory> {
    let first = Tree::empty(alloc, 1, 1, 2)?;
    let cells = vec![in alloc; 0u64, 0u64]?;
    let (shared, mut hands) = Counters::make(alloc, &first, Snapshot::of(&()), 0, cells, 2)?;
    let shared_by = &shared;
    let (Some(mut second), Some(mut first)) = (hands.pop(), hands.pop()) else {
        unreachable!()
    };
    let ((), found) = join(
        rt,
        || count(rt, shared_by, &mut first, 0, ROUNDS),
        || second.look_for(rt, shared_by, ROUNDS as u64),
    );
    Ok(found)
}

#[test]
fn a_core_that_looks_for_calls_finds_them(rt: HostRuntime) {
    let found = got(&rt, looks_for_all(&rt, rt.alloc()));
    holds(&rt, found == ROUNDS as u64);
}

// Holds the cell, and lets go of it long after the other core has come to it.
fn hold_long<R: Wait>(rt: &R, shared: &Counters, core: &mut Counter, gate: &AtomicU64) -> bool
    requires core { IsBetweenCalls shared.now core.old }
    requires cell { 0 < shared.now.table.id.slots }
{
    if core.reserve(0, 1).is_err() {
        return false;
    }
    core.hold_one(rt, shared, 0);
    gate.store(1, Ordering::SeqCst);
    let mut come = false;
    for _ in 0..TURNS {
        if gate.load(Ordering::SeqCst) == 2 {
            come = true;
            break;
        }
        thread::yield_now();
    }
    for _ in 0..LONG {
        thread::yield_now();
    }
    core.let_go(shared, 0);
    come
}

// Holds the cell once the other core does, so that it has to sleep until that lets go.
fn hold_behind<R: Wait>(rt: &R, shared: &Counters, core: &mut Counter, gate: &AtomicU64) -> bool
    requires core { IsBetweenCalls shared.now core.old }
    requires cell { 0 < shared.now.table.id.slots }
{
    if core.reserve(0, 1).is_err() {
        return false;
    }
    let mut held = false;
    for _ in 0..TURNS {
        if gate.load(Ordering::SeqCst) == 1 {
            held = true;
            break;
        }
        thread::yield_now();
    }
    gate.store(2, Ordering::SeqCst);
    core.hold_one(rt, shared, 0);
    core.let_go(shared, 0);
    held
}

// Whether a core that finds a cell held for long has it once it is let go.
fn is_woken<R: Threads + Wait + Sync>(rt: &R, alloc: Global) -> Result<bool, NoMemory> {
    let first = Tree::empty(alloc, 1, 1, 2)?;
    let cells = vec![in alloc; 0u64, 0u64]?;
    let (shared, mut hands) = Counters::make(alloc, &first, Snapshot::of(&()), 0, cells, 2)?;
    let gate = AtomicU64::new(0);
    let shared_by = &shared;
    let gate_by = &gate;
    let (Some(mut second), Some(mut first)) = (hands.pop(), hands.pop()) else {
        unreachable!()
    };
    let (one, two) = join(
        rt,
        || hold_long(rt, shared_by, &mut first, gate_by),
        || hold_behind(rt, shared_by, &mut second, gate_by),
    );
    Ok(one && two)
}

#[test]
fn a_core_that_waits_for_long_is_woken(rt: HostRuntime) {
    let woken = got(&rt, is_woken(&rt, rt.alloc()));
    holds(&rt, woken);
}

// Holds both cells and exchanges their values for those of a list: what the list has then.
fn exchange<R: Wait>(
    rt: &R,
    shared: &Counters,
    core: &mut Counter,
    values: &mut Vec<u64>,
) -> Result<bool, NoMemory>
    requires core { IsBetweenCalls shared.now core.old }
    requires cells { 2 ≤ shared.now.table.id.slots }
{
    core.reserve(0, 2)?;
    core.hold_one(rt, shared, 0);
    core.hold_one(rt, shared, 1);
    if values.len() != 2 {
        core.let_go(shared, 0);
        return Ok(false);
    }
    core.swap_values(values);
    let inside = *core.value_at(0) == 5 && *core.value_at(1) == 6 && *core.cell(1) == 6;
    core.let_go(shared, 0);
    Ok(inside)
}

// Whether the cells have the list's values after it, and the list has theirs.
fn is_exchanged<R: Wait>(rt: &R, alloc: Global) -> Result<bool, NoMemory> {
    let first = Tree::empty(alloc, 1, 1, 1)?;
    let cells = vec![in alloc; 3u64, 4u64]?;
    let (shared, mut hands) = Counters::make(alloc, &first, Snapshot::of(&()), 0, cells, 1)?;
    let Some(mut core) = hands.pop() else {
        unreachable!()
    };
    let mut values = vec![in alloc; 5u64, 6u64]?;
    let inside = exchange(rt, &shared, &mut core, &mut values)?;
    Ok(inside && values.len() == 2 && values[0] == 3 && values[1] == 4)
}

#[test]
fn all_held_values_are_exchanged_at_once(rt: HostRuntime) {
    let exchanged = got(&rt, is_exchanged(&rt, rt.alloc()));
    holds(&rt, exchanged);
}

// What a core does while its fsync waits for an answer: it holds a cell, changes it, tells, looks and lets go. How many calls it sees.
fn work_while_waiting<R: Wait>(rt: &R, shared: &Tellers, core: &mut Teller) -> Result<u64, NoMemory>
    requires core { IsBetweenCalls shared.now core.old }
    requires cells { 0 < shared.now.table.id.slots }
{
    core.reserve(1, 1)?;
    let stamp = core.stamp(shared, Call::Fsync { node: NodeId(0) }, Reply::NoMemory);
    core.hold_one(rt, shared, 0);
    let value = *core.cell(0);
    core.replace(0, value.wrapping_add(1));
    core.tell(shared, &value);
    let seen = core.look(shared);
    core.let_go(shared, 0);
    core.answer(stamp, Reply::Ok, Some(value));
    Ok(seen)
}

// The same on a table with one core.
fn seen_while_waiting<R: Wait>(rt: &R, alloc: Global) -> Result<u64, NoMemory> {
    let first = Tree::empty(alloc, 1, 1, 1)?;
    let cells = vec![in alloc; 3u64]?;
    let (shared, mut hands) = Tellers::make(alloc, &first, Snapshot::of(&()), 0, cells, 1)?;
    let Some(mut core) = hands.pop() else {
        unreachable!()
    };
    work_while_waiting(rt, &shared, &mut core)
}

#[test]
fn a_core_works_while_its_fsync_waits(rt: HostRuntime) {
    let seen = got(&rt, seen_while_waiting(&rt, rt.alloc()));
    holds(&rt, seen == 1);
}
