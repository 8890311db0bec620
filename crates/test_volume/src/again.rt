// Disks that are mounted again as they were left, and one that cannot be mounted.
use crate::helpers::{got, holds, same};
use crate::runs::{image, phases_in, run, run_on};
use crate::trees::assert_recovers;
use fmt_super::Layout;
use recovery::RecoverFault;
use sfs_base::NoGate;
use sfs_dev::{Act, Memory};
use tree_laws::{History, Reply};

const LAYOUT: Layout = Layout {
    blocks: 128,
    inodes: 64,
    cores: 2,
    slots: 2,
};

// Both workers make a file each.
const FIRST: &str =
    "0 mkdir /a\n0 mkdir /b\n0 fsync /\n---\n0 create /a/f\n0 write /a/f 0 6869\n0 fsync /a/f\n1 create /b/g\n1 fsync /b\n";

const SECOND: &str = "1 read /a/f 0 10\n1 link /a/f /b/h\n1 fsync /b\n";

// Whether some call was answered with these bytes.
fn is_told(history: &History, wanted: &[u8]) -> bool {
    let mut cursor = history.first();
    for _ in 0..history.len() {
        if let Some(entry) = history.next(&mut cursor)
            && let Reply::Bytes { bytes } = &entry.reply
            && bytes.bytes() == wanted
        {
            return true;
        }
    }
    false
}

#[test]
fn a_disk_is_mounted_again_as_it_was_left(rt: HostRuntime) {
    let alloc = rt.alloc();
    let disk = image(&rt, alloc, LAYOUT);
    let script = phases_in(&rt, alloc, FIRST.as_bytes());
    let ran = run(&rt, alloc, disk, 4096, &script, &NoGate);
    let script = phases_in(&rt, alloc, SECOND.as_bytes());
    let again = run(&rt, alloc, ran.disk, 4096, &script, &NoGate);
    holds(&rt, is_told(&again.history, b"hi".as_slice()));
    assert_recovers(
        &rt,
        alloc,
        &again.disk,
        "dir 4 2 /\ndir 2 1 /a\nfile 2 2 0 /a/f\ndir 2 2 /b\nfile 1 0 1 /b/g\nfile 2 2 0 /b/h\n",
    );
}

#[test]
fn a_disk_without_an_image_is_handed_back(rt: HostRuntime) {
    let alloc = rt.alloc();
    let disk = got(&rt, Memory::new(alloc, 16));
    let script = phases_in(&rt, alloc, FIRST.as_bytes());
    let Err(refused) = run_on(&rt, alloc, disk, 4096, &script, &NoGate) else {
        panic!(rt; "a mount")
    };
    same(&rt, &refused.fault, &RecoverFault::BadSuper { at: 0 });
    for call in refused.disk.calls() {
        holds(&rt, matches!(call.act, Act::Read { .. }));
    }
}
