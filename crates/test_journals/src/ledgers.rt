// What the box with the disk keeps of commits, of two cores. Blocks 4 to 9 but 5 are free, and inodes 1, 2 and 3.
ghost use Rattle.std.specs.Prelude.{◌≡◌, ◌<◌, length};
ghost use Rattle.commit_ledger.specs.Calls.{HasEntered, IsOut, MayEnd, MayReturn};

use crate::helpers::{got, holds, same, same_list};
use commit_ledger::{Ledger, Prepared};
use sfs_base::{CoreId, NodeId, RoomyList, SpaceKind};
use slot_laws::Seen;
use space_map::{Grant, Need, SpaceFault, SpaceMap};
use std::alloc::Global;
use std::process::Abort;

const FIRST: CoreId = CoreId(0);

const SECOND: CoreId = CoreId(1);

// That ledger.
fn ledger(rt: &impl Abort, alloc: Global) -> Ledger
    ensures { length result.opens ≡ 2 }
{
    let space = got(rt, SpaceMap::new(alloc, 4, 10, 4, &[5], &[0]));
    got(rt, Ledger::new(alloc, space, 2))
}

// A node, and its last commit as it was seen.
fn seen(node: u32, last: u64) -> Seen {
    Seen {
        node: NodeId(node),
        last,
    }
}

// A list of these numbers.
fn list(rt: &impl Abort, alloc: Global, numbers: &[u32]) -> RoomyList<u32> {
    RoomyList::from_vec(got(rt, Vec::from_slice(alloc, numbers)))
}

// Asserts which node has moved, and to which commit.
fn assert_moved(rt: &impl Abort, ledger: &Ledger, seen: &[Seen], due: Option<(u32, u64)>) {
    let moved = match ledger.moved(seen) {
        Some(one) => Some((one.node.0, one.last)),
        None => None,
    };
    same(rt, &moved, &due);
}

// Asserts why a need is not met.
fn assert_short(rt: &impl Abort, alloc: Global, ledger: &mut Ledger, need: Need, due: SpaceFault)
    ensures { ledger.new ≡ ledger.old }
{
    match ledger.prepare(alloc, &[], need) {
        Err(fault) => same(rt, &fault, &due),
        Ok(_) => panic!(rt; "granted"),
    }
}

// Asserts what is granted.
fn assert_granted(rt: &impl Abort, grant: &Grant, inodes: &[u32], blocks: &[u32]) {
    same_list(rt, grant.inodes(), inodes);
    same_list(rt, grant.blocks(), blocks);
}

// A core that has no commit enters one of these nodes, whose number is due. Its grant.
fn enter(
    rt: &impl Abort,
    alloc: Global,
    ledger: &mut Ledger,
    core: CoreId,
    seen: &[Seen],
    need: Need,
    due: u64,
) -> Grant
    requires core { core.0 < length ledger.old.opens }
    ensures may { MayReturn core.0 result ledger.new }
    ensures cores { length ledger.new.opens ≡ length ledger.old.opens }
{
    holds(rt, ledger.number(core).is_none());
    let Prepared {
        number,
        seen,
        grant,
    } = got(rt, ledger.prepare(alloc, seen, need));
    same(rt, &number, &due);
    ledger.enter(core, number, seen);
    grant
}

// The commit begins in a slot, and gives up one block and one inode.
fn begin(
    rt: &impl Abort,
    alloc: Global,
    ledger: &mut Ledger,
    core: CoreId,
    grant: Grant,
    block: u32,
    inode: u32,
)
    requires may { MayReturn core.0 grant ledger.old }
    ensures may { MayEnd core.0 ledger.new }
    ensures cores { length ledger.new.opens ≡ length ledger.old.opens }
{
    let blocks = list(rt, alloc, &[block]);
    let inodes = list(rt, alloc, &[inode]);
    ledger.owe(core, grant, blocks, inodes);
}

#[test]
fn what_a_commit_gives_up_is_free_once_it_has_ended(rt: HostRuntime) {
    let alloc = rt.alloc();
    let mut ledger = ledger(&rt, alloc);
    let need = Need {
        inodes: 1,
        blocks: 2,
    };
    let grant = enter(&rt, alloc, &mut ledger, FIRST, &[seen(3, 0)], need, 1);
    assert_granted(&rt, &grant, &[1], &[4, 6]);
    begin(&rt, alloc, &mut ledger, FIRST, grant, 5, 0);
    let all = Need {
        inodes: 3,
        blocks: 4,
    };
    let short = SpaceFault::NoSpace {
        kind: SpaceKind::Inodes,
        need: 3,
        free: 2,
    };
    assert_short(&rt, alloc, &mut ledger, all, short);
    ledger.end(FIRST);
    let after = enter(&rt, alloc, &mut ledger, SECOND, &[seen(3, 1)], all, 2);
    assert_granted(&rt, &after, &[0, 2, 3], &[5, 7, 8, 9]);
}

#[test]
fn a_node_has_moved_until_its_commit_has_ended(rt: HostRuntime) {
    let alloc = rt.alloc();
    let mut ledger = ledger(&rt, alloc);
    assert_moved(&rt, &ledger, &[seen(3, 0), seen(70_000, 0)], None);
    assert_moved(
        &rt,
        &ledger,
        &[seen(3, 0), seen(70_000, 2)],
        Some((70_000, 0)),
    );
    let need = Need {
        inodes: 1,
        blocks: 1,
    };
    let grant = enter(&rt, alloc, &mut ledger, FIRST, &[seen(3, 0)], need, 1);
    assert_moved(&rt, &ledger, &[seen(2, 0), seen(3, 0)], Some((3, 1)));
    assert_moved(&rt, &ledger, &[seen(3, 1)], Some((3, 1)));
    same(&rt, &ledger.number(FIRST), &Some(1));
    begin(&rt, alloc, &mut ledger, FIRST, grant, 5, 0);
    ledger.end(FIRST);
    same(&rt, &ledger.number(FIRST), &None);
    assert_moved(&rt, &ledger, &[seen(3, 0)], Some((3, 1)));
    assert_moved(&rt, &ledger, &[seen(3, 1)], None);
}

#[test]
fn a_commit_gives_back_its_grant_and_its_nodes(rt: HostRuntime) {
    let alloc = rt.alloc();
    let mut ledger = ledger(&rt, alloc);
    let need = Need {
        inodes: 2,
        blocks: 3,
    };
    let grant = enter(
        &rt,
        alloc,
        &mut ledger,
        FIRST,
        &[seen(3, 0), seen(4, 0)],
        need,
        1,
    );
    assert_granted(&rt, &grant, &[1, 2], &[4, 6, 7]);
    assert_moved(&rt, &ledger, &[seen(4, 0)], Some((4, 1)));
    ledger.give_back(FIRST, grant);
    assert_moved(&rt, &ledger, &[seen(3, 0), seen(4, 0)], None);
    same(&rt, &ledger.commits(), &1);
    let again = enter(&rt, alloc, &mut ledger, FIRST, &[seen(4, 0)], need, 2);
    assert_granted(&rt, &again, &[1, 2], &[4, 6, 7]);
}

#[test]
fn a_commit_of_another_core_goes_on(rt: HostRuntime) {
    let alloc = rt.alloc();
    let mut ledger = ledger(&rt, alloc);
    let need = Need {
        inodes: 1,
        blocks: 1,
    };
    let other = enter(&rt, alloc, &mut ledger, SECOND, &[seen(4, 0)], need, 1);
    assert_granted(&rt, &other, &[1], &[4]);
    let grant = enter(&rt, alloc, &mut ledger, FIRST, &[seen(3, 0)], need, 2);
    assert_granted(&rt, &grant, &[2], &[6]);
    begin(&rt, alloc, &mut ledger, FIRST, grant, 4, 1);
    ledger.end(FIRST);
    assert_moved(&rt, &ledger, &[seen(3, 2)], None);
    assert_moved(&rt, &ledger, &[seen(3, 2), seen(4, 0)], Some((4, 1)));
    same(&rt, &ledger.number(SECOND), &Some(1));
    let third = enter(&rt, alloc, &mut ledger, FIRST, &[seen(3, 2)], need, 3);
    assert_granted(&rt, &third, &[3], &[7]);
}

#[test]
fn a_commit_that_needs_nothing_ends_at_once(rt: HostRuntime) {
    let alloc = rt.alloc();
    let mut ledger = ledger(&rt, alloc);
    let need = Need {
        inodes: 0,
        blocks: 0,
    };
    let grant = enter(&rt, alloc, &mut ledger, FIRST, &[seen(3, 0)], need, 1);
    assert_granted(&rt, &grant, &[], &[]);
    ledger.end_empty(FIRST);
    assert_moved(&rt, &ledger, &[seen(3, 1)], None);
    same(&rt, &ledger.number(FIRST), &None);
}

#[test]
fn too_much_is_refused_and_takes_no_number(rt: HostRuntime) {
    let alloc = rt.alloc();
    let mut ledger = ledger(&rt, alloc);
    let both = Need {
        inodes: 4,
        blocks: 9,
    };
    let inodes = SpaceFault::NoSpace {
        kind: SpaceKind::Inodes,
        need: 4,
        free: 3,
    };
    assert_short(&rt, alloc, &mut ledger, both, inodes);
    let more = Need {
        inodes: 3,
        blocks: 6,
    };
    let blocks = SpaceFault::NoSpace {
        kind: SpaceKind::Blocks,
        need: 6,
        free: 5,
    };
    assert_short(&rt, alloc, &mut ledger, more, blocks);
    same(&rt, &ledger.commits(), &0);
    let all = Need {
        inodes: 3,
        blocks: 5,
    };
    let grant = enter(&rt, alloc, &mut ledger, FIRST, &[seen(3, 0)], all, 1);
    assert_granted(&rt, &grant, &[1, 2, 3], &[4, 6, 7, 8, 9]);
}
