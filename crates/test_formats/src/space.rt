ghost use Rattle.space_map.specs.Space.{AllGranted};

// Free space: of blocks 4 to below 9 all but 5 and 7, and of inodes 0 to below 4 all but 0.
use crate::helpers::{got, same, same_list};
use sfs_base::SpaceKind;
use space_map::{Grant, Need, SpaceFault, SpaceMap};
use std::alloc::Global;
use std::process::Abort;

// That map.
fn map(rt: &impl Abort, alloc: Global) -> SpaceMap {
    got(rt, SpaceMap::new(alloc, 4, 9, 4, &[7, 5], &[0]))
}

// Asserts why a need is not met.
fn assert_short(rt: &impl Abort, map: &mut SpaceMap, need: Need, due: SpaceFault) {
    match map.reserve(need) {
        Err(fault) => same(rt, &fault, &due),
        Ok(_) => panic!(rt; "granted"),
    }
}

// Asserts what is granted.
fn assert_granted(rt: &impl Abort, grant: &Grant, inodes: &[u32], blocks: &[u32]) {
    same_list(rt, grant.inodes(), inodes);
    same_list(rt, grant.blocks(), blocks);
}

// A need that is met.
pub(crate) fn reserve(rt: &impl Abort, map: &mut SpaceMap, inodes: u32, blocks: u32) -> Grant
    ensures inodes { AllGranted map.new.inodes result.inodes }
    ensures blocks { AllGranted map.new.blocks result.blocks }
{
    match map.reserve(Need { inodes, blocks }) {
        Ok(grant) => grant,
        Err(_) => panic!(rt; "refused"),
    }
}

#[test]
fn too_much_is_refused_inodes_first(rt: HostRuntime) {
    let mut map = map(&rt, rt.alloc());
    let inodes = SpaceFault::NoSpace {
        kind: SpaceKind::Inodes,
        need: 4,
        free: 3,
    };
    assert_short(
        &rt,
        &mut map,
        Need {
            inodes: 4,
            blocks: 9,
        },
        inodes,
    );
    let blocks = SpaceFault::NoSpace {
        kind: SpaceKind::Blocks,
        need: 4,
        free: 3,
    };
    assert_short(
        &rt,
        &mut map,
        Need {
            inodes: 3,
            blocks: 4,
        },
        blocks,
    );
}

#[test]
fn a_grant_is_given_back(rt: HostRuntime) {
    let mut map = map(&rt, rt.alloc());
    let grant = reserve(&rt, &mut map, 2, 3);
    assert_granted(&rt, &grant, &[1, 2], &[4, 6, 8]);
    map.give_back(grant);
    let again = reserve(&rt, &mut map, 3, 3);
    assert_granted(&rt, &again, &[1, 2, 3], &[4, 6, 8]);
    map.give_back(again);
}

#[test]
fn a_grant_ends_and_what_was_given_up_is_free(rt: HostRuntime) {
    let mut map = map(&rt, rt.alloc());
    let grant = reserve(&rt, &mut map, 1, 3);
    assert_granted(&rt, &grant, &[1], &[4, 6, 8]);
    map.free_after(grant, &[5], &[0]);
    let after = reserve(&rt, &mut map, 3, 1);
    assert_granted(&rt, &after, &[0, 2, 3], &[5]);
    map.give_back(after);
}

// Another grant of one inode and one block, of which these are due, beside a grant that is kept. It is
// given back, and the kept one stays granted.
fn grant_beside(rt: &impl Abort, map: &mut SpaceMap, kept: &Grant, inodes: &[u32], blocks: &[u32])
    ensures inodes { AllGranted map.old.inodes kept.now.inodes → AllGranted map.new.inodes kept.now.inodes }
    ensures blocks { AllGranted map.old.blocks kept.now.blocks → AllGranted map.new.blocks kept.now.blocks }
{
    match map.reserve(Need {
        inodes: 1,
        blocks: 1,
    }) {
        Ok(grant) => {
            assert_granted(rt, &grant, inodes, blocks);
            map.give_back(grant);
        }
        Err(_) => panic!(rt; "refused"),
    }
}

#[test]
fn two_grants_are_apart_and_end_apart(rt: HostRuntime) {
    let mut map = map(&rt, rt.alloc());
    let kept = reserve(&rt, &mut map, 1, 1);
    assert_granted(&rt, &kept, &[1], &[4]);
    grant_beside(&rt, &mut map, &kept, &[2], &[6]);
    grant_beside(&rt, &mut map, &kept, &[2], &[6]);
    map.give_back(kept);
    let again = reserve(&rt, &mut map, 1, 1);
    assert_granted(&rt, &again, &[1], &[4]);
    map.give_back(again);
}
