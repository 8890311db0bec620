// Mounting a disk of 40 blocks with 64 inodes and 2 cores, with two open slots and an orphan. Its data area has the 11 blocks from 29 on,
// and the root holds the first of them.
use crate::helpers::{got, same};
use crate::recovering::with_open_slots;
use mount_begin::{Mounted, mount};
use sfs_base::SpaceKind;
use space_map::{Need, SpaceFault};
use std::alloc::Global;
use std::process::Abort;

// What is mounted with 4,096 new nodes.
fn mounted(rt: &impl Abort, alloc: Global) -> Mounted {
    let mut disk = with_open_slots(rt, alloc);
    got(rt, mount(alloc, &mut disk, 4096))
}

// Asserts that of so much so little is free.
fn assert_free(
    rt: &impl Abort,
    mounted: &mut Mounted,
    need: Need,
    kind: SpaceKind,
    wanted: u32,
    due: u32,
) {
    match mounted.space.reserve(need) {
        Err(
            SpaceFault::NoSpace {
                kind: of,
                need,
                free,
            },
        ) => {
            same(rt, &of, &kind);
            same(rt, &(need, free), &(wanted, due));
        }
        _ => panic!(rt; "granted"),
    }
}

#[test]
fn what_no_node_has_is_free(rt: HostRuntime) {
    let mut mounted = mounted(&rt, rt.alloc());
    let inodes = Need {
        inodes: 64,
        blocks: 0,
    };
    assert_free(&rt, &mut mounted, inodes, SpaceKind::Inodes, 64, 62);
    let blocks = Need {
        inodes: 62,
        blocks: 11,
    };
    assert_free(&rt, &mut mounted, blocks, SpaceKind::Blocks, 11, 10);
}

#[test]
fn the_disk_has_the_root_and_its_child(rt: HostRuntime) {
    let mounted = mounted(&rt, rt.alloc());
    let kinds = [0u32, 1, 2].map(|node| match mounted.old.find(node) {
        Some(entry) => entry.old.meta.kind,
        None => 0,
    });
    same(&rt, &kinds, &[2u8, 2, 0]);
}
