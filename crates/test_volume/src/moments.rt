// Scripts that are drawn, and what a crash leaves at many moments of each: a tree that the plain machine of calls and commits allows then.
ghost use Rattle.test_volume.specs.Base.{IsFirst};

use crate::cuts::{Past, is_at_cut};
use crate::follows::assert_follows;
use crate::helpers::{got, holds, some};
use crate::judged::{Base, Health, NODES, base_of};
use crate::machine::Machine;
use crate::runs::{Ran, copy_of, phases_in, run};
use crate::scripts::{Dice, draw};
use crate::shaking::Shaker;
use crate::told::plain_tree;
use fmt_super::Layout;
use recovery::recover;
use sfs_dev::{Disk, Memory};
use sfs_tree::Tree;
use std::alloc::Global;
use std::process::Abort;
use std::sync::Wait;
use std::thread::Threads;
use tree_laws::{TurnAct, Turns};

// How many scripts are drawn on disks of each layout.
const SCRIPTS: u64 = 100;

// At how many moments of each.
const MOMENTS: u64 = 100;

const ONE_SLOT: Layout = Layout {
    blocks: 128,
    inodes: 48,
    cores: 4,
    slots: 1,
};

const TWO_SLOTS: Layout = Layout {
    blocks: 160,
    inodes: 48,
    cores: 4,
    slots: 2,
};

// How many images had nothing but what was durable while a commit was in doubt, and how many had what one in doubt wrote.
#[derive(Clone, Copy)]
struct Counts {
    without: u64,
    with: u64,
}

// How many turns there are up to a moment, from this place on.
fn turns_up_to(turns: &Turns, from: u64, moment: u64) -> u64 {
    for place in from..turns.len() {
        if let Some(turn) = turns.get(place)
            && turn.now > moment
        {
            return place;
        }
    }
    turns.len()
}

// Whether a commit ended in some turn of these first ones.
fn has_ended(turns: &Turns, count: u64, commit: u64) -> bool {
    for place in 0..count {
        if let Some(turn) = turns.get(place)
            && turn.act == TurnAct::Durable
            && turn.commit == commit
        {
            return true;
        }
    }
    false
}

// The commits that are in doubt behind so many turns: opened, and not durable.
fn in_doubt(rt: &impl Abort, alloc: Global, turns: &Turns, count: u64) -> Vec<u64> {
    let mut open = Vec::new(alloc);
    for place in 0..count {
        if let Some(turn) = turns.get(place)
            && turn.act == TurnAct::Opened
            && !has_ended(turns, count, turn.commit)
        {
            got(rt, open.push(turn.commit));
        }
    }
    open
}

// Those of some commits that this number tells, whose digits to the base 2 are 1.
fn chosen(rt: &impl Abort, alloc: Global, commits: &[u64], number: u64) -> Vec<u64> {
    let mut kept = Vec::new(alloc);
    let mut left = number;
    for commit in commits {
        if left % 2 == 1 {
            got(rt, kept.push(*commit));
        }
        left /= 2;
    }
    kept
}

// A run, what its calls made, and how many of its turns there are up to a moment.
#[derive(Clone, Copy)]
struct Moment<'a> {
    base: &'a Base,
    ran: &'a Ran<Memory>,
    past: &'a Past,
    count: u64,
}

// Whether a tree has what some of the commits in doubt wrote besides what is durable.
fn is_with_some(rt: &impl Abort, alloc: Global, moment: &Moment, tree: &Tree, open: &[u64]) -> bool
    requires { IsFirst moment.now.base.now.first }
{
    let sets = 1u64 << (open.len() as u64).min(20);
    for number in 1..sets {
        let ran = moment.ran;
        let mut machine = Machine::new(rt, alloc, moment.base, &ran.history);
        machine.tell_turns(rt, &ran.turns, 0..moment.count);
        machine.tell_crash(rt, chosen(rt, alloc, open, number));
        if got(rt, is_at_cut(alloc, tree, moment.past, machine.cut())) {
            return true;
        }
    }
    false
}

// Counts an image that a crash may leave at a moment, whose tree is one that the machine allows, with these commits in doubt.
fn counted(
    rt: &impl Abort,
    alloc: Global,
    moment: &Moment,
    machine: &Machine,
    tree: &Tree,
    counts: Counts,
) -> Counts
    requires { IsFirst moment.now.base.now.first }
{
    let open = in_doubt(rt, alloc, &moment.ran.turns, moment.count);
    let mut counts = counts;
    if got(rt, is_at_cut(alloc, tree, moment.past, machine.cut())) {
        if !open.is_empty() {
            counts.without = counts.without.saturating_add(1);
        }
    } else {
        holds(rt, is_with_some(rt, alloc, moment, tree, open.as_slice()));
        counts.with = counts.with.saturating_add(1);
    }
    counts
}

// Asserts what crashes leave at moments of a run that are drawn, ascending.
fn assert_moments(
    rt: &impl Abort,
    alloc: Global,
    base: &Base,
    ran: &Ran<Memory>,
    dice: &mut Dice,
) -> Counts
    requires { IsFirst base.now.first }
{
    let past = Past::new(rt, alloc, base, &ran.history);
    let mut machine = Machine::new(rt, alloc, base, &ran.history);
    let mut counts = Counts {
        without: 0,
        with: 0,
    };
    let calls = ran.disk.now();
    let mut told = 0u64;
    for number in 0..MOMENTS {
        let drawn = dice.below(calls.saturating_add(1));
        let moment = calls.saturating_mul(number).saturating_add(drawn) / MOMENTS;
        let count = turns_up_to(&ran.turns, told, moment);
        machine.tell_turns(rt, &ran.turns, told..count);
        told = count;
        let mut left = got(rt, ran.disk.left(alloc, moment, dice.below(1_000) as u32));
        let tree = got(rt, recover(alloc, &mut left)).tree;
        let place = Moment {
            base,
            ran,
            past: &past,
            count,
        };
        counts = counted(rt, alloc, &place, &machine, &tree, counts);
    }
    counts
}

// Runs a script that is drawn, and judges its history and what crashes leave.
fn assert_drawn<R: Threads + Wait + Sync + Abort>(
    rt: &R,
    alloc: Global,
    base: &Base,
    seed: u64,
) -> Counts
    requires { IsFirst base.now.first }
{
    let mut dice = Dice::of(seed);
    let workers = 1 + dice.below(4);
    let phases = 1 + dice.below(2);
    let text = draw(rt, alloc, &mut dice, workers, phases);
    let script = phases_in(rt, alloc, text.as_slice());
    let disk = copy_of(rt, alloc, &base.image);
    let ran = run(rt, alloc, disk, NODES, &script, &Shaker::of(seed));
    let _ = plain_tree(rt, alloc, base, &ran, Health::Well);
    assert_follows(rt, alloc, &script, &ran.history);
    assert_moments(rt, alloc, base, &ran, &mut dice)
}

// Judges all scripts on disks with this layout, with the seeds from this one on. Images with and without what commits in doubt wrote are met.
fn assert_all<R: Threads + Wait + Sync + Abort>(rt: &R, alloc: Global, layout: Layout, first: u64) {
    let base = base_of(rt, alloc, layout);
    let mut without = 0u64;
    let mut with = 0u64;
    for number in 0..SCRIPTS {
        let counts = assert_drawn(rt, alloc, &base, first.saturating_add(number));
        without = without.saturating_add(counts.without);
        with = with.saturating_add(counts.with);
    }
    holds(rt, 0 < without && 0 < with);
}

#[test]
fn a_crash_at_any_moment_leaves_a_tree_that_the_machine_allows(rt: HostRuntime) {
    assert_all(&rt, rt.alloc(), ONE_SLOT, 1_000);
}

#[test]
fn a_crash_with_two_slots_a_core_leaves_a_tree_that_the_machine_allows(rt: HostRuntime) {
    assert_all(&rt, rt.alloc(), TWO_SLOTS, 2_000);
}
