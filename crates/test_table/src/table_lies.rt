// A table whose five cells lie in memory from the last place to the first.
ghost use Rattle.std.specs.Prelude.{◌≡◌, ◌<◌, ◌∷◌, []};
ghost use Rattle.std.specs.Vec.{vec_capacity};
ghost use Rattle.stamp_table.specs.Table.{AreAllCores, IsBetweenCalls, IsSameCore};
ghost use Rattle.test_table.specs.Mirrored.{mirrored, mirrored_twice};

use crate::helpers::{got, same_list};
use sfs_base::NoMemory;
use sfs_tree::Tree;
use stamp_table::{Core, Meaning, Shared};
use std::alloc::Global;
use std::snapshot::Snapshot;
use std::sync::Wait;

// The values of the cells once those at 1 and 4 have others than 11 and 14.
const CHANGED: [u64; 5] = [10, 21, 12, 13, 34];

// What a core finds in the cells at 1 and 4 on the way.
const FOUND: [u64; 4] = [11, 14, 21, 34];

// Each value stands for whatever the calls leave, and the cells lie from the last to the first.
struct Backwards;

impl<C, X> Meaning<C, X, ()> for Backwards {
    ghost lawful = { λ given first log. Unit {0} };

    ghost stands = { λ given first log place value. Unit {0} };

    ghost nothing = { tt };

    ghost slot_at = { λ measure place. mirrored place };

    ghost place_at = { λ measure slot. mirrored slot };

    ghost one_to_one = { λ measure. mirrored_twice };

    fn slot_of(_measure: usize, place: usize) -> usize {
        if place < 5 { 4 - place } else { place }
    }
}

type Mirror = Shared<u64, (), (), Backwards>;

type Watcher = Core<u64, (), (), Backwards>;

// Holds the cells at 1 and 4, gives each another value, lets go, and holds them again: what it finds there.
fn change_two<R: Wait>(
    rt: &R,
    alloc: Global,
    shared: &Mirror,
    core: &mut Watcher,
) -> Result<Vec<u64>, NoMemory>
    requires core { IsBetweenCalls shared.now core.old }
    requires cells { 4 < shared.now.table.id.slots }
    ensures same { IsSameCore core.old core.new }
    ensures between { IsBetweenCalls shared.now core.new }
{
    core.reserve(0, 2)?;
    core.hold_one(rt, shared, 1);
    core.hold_one(rt, shared, 4);
    let first = core.replace(1, 21);
    let second = core.replace(4, 34);
    core.let_go(shared, 0);
    core.reserve(0, 2)?;
    core.hold_one(rt, shared, 1);
    core.hold_one(rt, shared, 4);
    let third = *core.cell(1);
    let fourth = *core.cell(4);
    core.let_go(shared, 0);
    let found = vec![in alloc; first, second, third, fourth]?;
    Ok(found)
}

// The only core of a table does so, and the table ends: what the core found, and the values at the end.
fn change_and_close<R: Wait>(
    rt: &R,
    alloc: Global,
    shared: Mirror,
    hands: Vec<Watcher>,
    core: Watcher,
) -> Result<(Vec<u64>, Vec<u64>), NoMemory>
    requires all { AreAllCores shared (core ∷ []) }
    requires core { IsBetweenCalls shared core }
    requires cells { 4 < shared.table.id.slots }
    requires room { (hands.items ≡ []) × (0 < vec_capacity hands) }
{
    let mut core = core;
    let mut hands = hands;
    let found = change_two(rt, alloc, &shared, &mut core)?;
    hands.push_reserved(core);
    let (_, values) = shared.close(hands);
    Ok((found, values))
}

// What the only core of a table finds whose cells lie so, and the values at the end.
fn laid_backwards<R: Wait>(rt: &R, alloc: Global) -> Result<(Vec<u64>, Vec<u64>), NoMemory> {
    let first = Tree::empty(alloc, 1, 1, 1)?;
    let cells = vec![in alloc; 10u64, 11, 12, 13, 14]?;
    let (shared, mut hands) = Mirror::make(alloc, &first, Snapshot::of(&()), 0, cells, 1)?;
    let Some(core) = hands.pop() else {
        unreachable!()
    };
    change_and_close(rt, alloc, shared, hands, core)
}

#[test]
fn cells_may_lie_from_the_last_to_the_first(rt: HostRuntime) {
    let (found, values) = got(&rt, laid_backwards(&rt, rt.alloc()));
    same_list(&rt, &found, &FOUND);
    same_list(&rt, &values, &CHANGED);
}
