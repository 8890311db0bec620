// Cores that hold cells, in threads of their own.
ghost use Rattle.std.specs.Prelude.{◌≡◌, ◌<◌, ◌≤◌, ◌*◌, ◌+◌, All, length, OnOk};
ghost use Rattle.stamp_table.specs.Placing.{lies_in_order};
ghost use Rattle.stamp_table.specs.Table.{IsBetweenCalls};

use sfs_base::NoMemory;
use sfs_tree::Tree;
use stamp_table::{Core, Meaning, Shared};
use std::alloc::Global;
use std::snapshot::Snapshot;
use std::sync::Wait;
use std::thread;
use std::thread::Threads;

// The places of the cells lie so far apart that each lock word has a line of memory to itself.
const APART: usize = 16;

// Each value stands for whatever the calls leave.
pub(crate) struct Anything;

impl<C, X> Meaning<C, X, ()> for Anything {
    ghost lawful = { λ given first log. Unit {0} };

    ghost stands = { λ given first log place value. Unit {0} };

    ghost nothing = { tt };

    ghost slot_at = { λ measure place. place };

    ghost place_at = { λ measure slot. slot };

    ghost one_to_one = { λ measure. lies_in_order };

    fn slot_of(_measure: usize, place: usize) -> usize {
        place
    }
}

pub(crate) type Cells = Shared<u64, (), (), Anything>;

pub(crate) type Hand = Core<u64, (), (), Anything>;

// Holds a cell and changes it so often.
fn hold_often<R: Wait>(rt: &R, shared: &Cells, core: &mut Hand, place: usize, rounds: u32)
    requires core { IsBetweenCalls shared.now core.old }
    requires cell { place < shared.now.table.id.slots }
{
    if core.reserve(0, 1).is_err() {
        return;
    }
    for _ in 0..rounds {
        core.hold_one(rt, shared, place);
        let count = *core.cell(place);
        core.replace(place, count.wrapping_add(1));
        core.let_go(shared, 0);
    }
}

/// So many cores, one to a thread, hold a cell of their own each, or all the first.
pub fn hold_all<R: Threads + Wait + Sync>(
    rt: &R,
    alloc: Global,
    cores: u8,
    apart: bool,
    rounds: u32,
) -> Result<(), NoMemory>
    requires { (0 < cores) × (cores ≤ 8) }
{
    let first = Tree::empty(alloc, 1, 1, cores)?;
    let cells = vec![in alloc; 0u64; APART * cores as usize]?;
    let (shared, mut hands) = Cells::make(alloc, &first, Snapshot::of(&()), 0, cells, cores)?;
    hold_each(rt, &shared, hands.as_mut_slice(), apart, rounds);
    Ok(())
}

// Each core in a thread of its own.
fn hold_each<R: Threads + Wait + Sync>(
    rt: &R,
    shared: &Cells,
    hands: &mut [Hand],
    apart: bool,
    rounds: u32,
)
    requires cores { All (IsBetweenCalls shared.now) hands.old }
    requires cells { APART * length hands.old ≤ shared.now.table.id.slots }
    requires few { length hands.old ≤ 8 }
{
    thread::for_each_mut(
        rt,
        hands,
        8,
        &|number, core: &mut Hand|
            requires { IsBetweenCalls shared.now core.now × (APART * number < shared.now.table.id.slots) × (number < 8) }
        {
            let place = if apart { APART * number } else { 0 };
            hold_often(rt, shared, core, place, rounds)
        },
    );
}
