// Runs that a fault of one of the ends or of the disk breaks off.
use crate::bench::{
    SMALL, assert_only_read, assert_shown, blank, copy_of, done, fresh, image, image_with,
    run_alone, run_between, run_script,
};
use crate::helpers::{got, holds, same, same_list, some};
use dev_fake::FailAt;
use scalefs_run::{ImageFault, Status};
use sfs_base::{BytesSink, BytesSource};
use sfs_dev::{Act, Disk, Memory};
use std::alloc::Global;
use std::process::Abort;
use std::sync::Wait;
use std::thread::Threads;

const SCRIPT: &[u8] = b"0 mkdir /a\n0 fsync /\n";

// Three commits.
const THRICE: &[u8] = b"0 mkdir /a\n0 fsync /\n0 mkdir /b\n0 fsync /\n0 mkdir /c\n0 fsync /\n";

#[test]
fn a_source_that_fails_keeps_the_disk_untouched(rt: HostRuntime) {
    let words = run_alone(&rt, rt.alloc());
    for call in 0..2u64 {
        let fails = got(&rt, vec![in rt.alloc(); call]);
        let source = BytesSource::new(got(&rt, Vec::from_slice(rt.alloc(), SCRIPT)), fails);
        let sink = BytesSink::new(rt.alloc(), Vec::new(rt.alloc()));
        let disk = fresh(&rt, rt.alloc());
        let ran = run_between(&rt, rt.alloc(), &words, source, sink, disk);
        same(&rt, &ran.status, &Status::ReadFault);
        holds(&rt, ran.history.is_empty());
        holds(&rt, ran.text.is_empty());
        same(&rt, &ran.disk.now(), &0);
    }
}

#[test]
fn a_sink_that_fails_comes_after_the_calls(rt: HostRuntime) {
    let alloc = rt.alloc();
    let words = run_alone(&rt, alloc);
    let source = BytesSource::new(got(&rt, Vec::from_slice(alloc, SCRIPT)), Vec::new(alloc));
    let sink = BytesSink::new(alloc, got(&rt, vec![in alloc; 0u64]));
    let ran = run_between(&rt, alloc, &words, source, sink, fresh(&rt, alloc));
    same(&rt, &ran.status, &Status::WriteFault);
    same(&rt, &ran.history.len(), &2);
    holds(&rt, ran.text.is_empty());
    assert_shown(&rt, alloc, ran.disk, "dir 3 1 /\ndir 2 0 /a\n");
}

#[test]
fn a_disk_that_fails_at_once_is_named(rt: HostRuntime) {
    let alloc = rt.alloc();
    let disk = FailAt::new(image(&rt, alloc, SMALL), got(&rt, vec![in alloc; 0u64]));
    let ran = run_script(&rt, alloc, SCRIPT, disk);
    same(&rt, &ran.status, &Status::DiskFault);
    holds(&rt, ran.history.is_empty());
    holds(&rt, ran.text.is_empty());
    assert_shown(&rt, alloc, ran.disk.into_inner(), "dir 2 0 /\n");
}

#[test]
fn a_disk_without_an_image_is_left_as_it_is(rt: HostRuntime) {
    let alloc = rt.alloc();
    let ran = run_script(&rt, alloc, SCRIPT, blank(&rt, alloc));
    let fault = ImageFault::Super { at: 0 };
    same(&rt, &ran.status, &Status::BadImage { fault });
    holds(&rt, ran.history.is_empty() && ran.text.is_empty());
    assert_only_read(&rt, &ran.disk);
    // The script is looked at before the image, and its workers after it.
    let ran = run_script(&rt, alloc, b"0 mkdir /a\nx\n".as_slice(), blank(&rt, alloc));
    same(&rt, &ran.status, &Status::BadScript { line: 2 });
    same(&rt, &ran.disk.now(), &0);
    let ran = run_script(&rt, alloc, b"9 mkdir /a\n".as_slice(), blank(&rt, alloc));
    same(&rt, &ran.status, &Status::BadImage { fault });
}

#[test]
fn a_damaged_image_is_left_as_it_is(rt: HostRuntime) {
    let alloc = rt.alloc();
    let mut disk = image(&rt, alloc, SMALL);
    // The root is a file.
    holds(&rt, disk.len() == 1024);
    holds(&rt, disk.write_at(86_016, &[1, 0, 0, 0, 1]).is_ok());
    holds(&rt, disk.sync().is_ok());
    let disk = copy_of(&rt, alloc, &disk);
    let ran = run_script(&rt, alloc, SCRIPT, copy_of(&rt, alloc, &disk));
    let fault = ImageFault::Tree { inode: 0, rule: 2 };
    same(&rt, &ran.status, &Status::BadImage { fault });
    holds(&rt, ran.history.is_empty() && ran.text.is_empty());
    assert_only_read(&rt, &ran.disk);
    holds(&rt, ran.disk.bytes() == disk.bytes());
}

// The number, from 0 on, of the device call that is this sync of a disk.
fn number_of_sync(disk: &Memory, place: usize) -> Option<u64> {
    let mut syncs = 0usize;
    for call in disk.calls() {
        if call.act == Act::Sync {
            if syncs == place {
                return Some(call.moment.saturating_sub(1));
            }
            syncs = syncs.saturating_add(1);
        }
    }
    None
}

#[test]
fn a_commit_whose_sync_fails_stops_the_later_ones(rt: HostRuntime) {
    // Each commit has two syncs of its own, and from the second one on two more, first, by which its slot is freed.
    for place in 2..6usize {
        assert_stops(&rt, rt.alloc(), 1, place, place == 5);
    }
}

#[test]
fn so_it_does_where_cores_have_three_slots(rt: HostRuntime) {
    // Then no slot is freed before.
    for place in 2..4usize {
        assert_stops(&rt, rt.alloc(), 3, place, place == 3);
    }
}

// Asserts that the second commit fails at this sync, before its gate is written or behind it, and the third one stops.
fn assert_stops<R: Threads + Wait + Sync + Abort>(
    rt: &R,
    alloc: Global,
    slots: u32,
    place: usize,
    opened: bool,
) {
    let image = image_with(rt, alloc, SMALL, slots);
    let whole = run_script(rt, alloc, THRICE, copy_of(rt, alloc, &image));
    let number = some(rt, number_of_sync(&whole.disk, place));
    let disk = FailAt::new(image, got(rt, vec![in alloc; number]));
    let ran = run_script(rt, alloc, THRICE, disk);
    same(rt, &ran.status, &Status::Done);
    same_list(
        rt,
        ran.text.as_slice(),
        b"0 0 mkdir 0 a = node 64 dir\n1 0 fsync 0 = ok\n2 0 mkdir 0 b = node 65 dir\n3 0 fsync 0 = failed\n4 0 mkdir 0 c = node 66 dir\n5 0 fsync 0 = stopped 1\n".as_slice(),
    );
    assert_left_behind(rt, alloc, &ran.disk.into_inner(), opened);
}

// Asserts that what a crash leaves has the first commit, and the second one only where its gate was written.
fn assert_left_behind<R: Threads + Wait + Sync + Abort>(
    rt: &R,
    alloc: Global,
    disk: &Memory,
    opened: bool,
) {
    for pick in 0..8u32 {
        let left = got(rt, disk.left(alloc, u64::MAX, pick));
        let ran = done(rt, alloc, &["show"], left);
        same(rt, &ran.status, &Status::Done);
        let first = b"dir 3 1 /\ndir 2 0 /a\n".as_slice();
        let second = b"dir 4 2 /\ndir 2 0 /a\ndir 2 0 /b\n".as_slice();
        let is_second = ran.text.as_slice() == second;
        holds(rt, ran.text.as_slice() == first || is_second && opened);
    }
}
