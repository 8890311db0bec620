// Images that are others when they are read again: the certificate of the first is not accepted for the second.
use crate::helpers::{Ran, done, got, holds, made, same};
use crate::{Changing, LongSource};
use scalefs_run::Status;
use sfs_dev::{Disk, Memory};
use std::alloc::Global;
use std::process::Abort;
use std::sync::Wait;
use std::thread::Threads;

// Bytes that are put at a place of a disk. The record of inode i stands at byte 86,016 + 512 * i, and block 29, the first of the data
// area, at 118,784.
type Edit = (u64, &'static [u8]);

// The root has the row `a`, and inode 1 is the empty directory that it names.
const ONE_DIRECTORY: [Edit; 3] = [
    (
        86_016,
        &[2, 0, 0, 0, 3, 0, 0, 0, 0, 16, 0, 0, 0, 0, 0, 0, 29],
    ),
    (86_528, &[2, 0, 0, 0, 2]),
    (118_784, &[1, 0, 0, 0, 2, 1, 0, 0, b'a']),
];

// The root has 7 links, and nothing names it.
const SEVEN_LINKS: [Edit; 1] = [(86_020, &[7])];

// The bytes of the image that is just made, after edits.
fn bytes_of<R: Threads + Wait + Sync + Abort>(rt: &R, alloc: Global, edits: &[Edit]) -> Vec<u8> {
    let mut disk = made(rt, alloc);
    for (at, bytes) in edits {
        holds(rt, disk.len() == 1024 && *at <= 4_190_208);
        holds(rt, !bytes.is_empty() && bytes.len() <= 512);
        holds(rt, disk.write_at(*at, bytes).is_ok());
    }
    got(rt, Vec::from_slice(alloc, disk.bytes()))
}

// How many device calls it takes to verify the image that is just made: as many to certify it as to accept that.
fn reads<R: Threads + Wait + Sync + Abort>(rt: &R, alloc: Global) -> u64 {
    let disk: Memory = made(rt, alloc);
    let ran = done(rt, alloc, &["verify"], LongSource::new(0, 0), disk);
    same(rt, &ran.status, &Status::Done);
    ran.disk.now() / 2
}

// The verdict on the image that is just made, which is the one of these edits from so many device calls on.
fn verdict<R: Threads + Wait + Sync + Abort>(
    rt: &R,
    alloc: Global,
    edits: &[Edit],
    calls: u64,
) -> Ran<Changing> {
    let first = bytes_of(rt, alloc, &[]);
    let disk = Changing::new(first, bytes_of(rt, alloc, edits), calls);
    done(rt, alloc, &["verify"], LongSource::new(0, 0), disk)
}

// Asserts that the certificate of an image is not accepted for that of these edits.
fn assert_changed<R: Threads + Wait + Sync + Abort>(rt: &R, alloc: Global, edits: &[Edit]) {
    let ran = verdict(rt, alloc, edits, reads(rt, alloc));
    same(rt, &ran.status, &Status::NotAccepted);
    same(rt, &ran.status.number(), &15);
    same(rt, &ran.text.len(), &0);
    same(rt, &ran.disk.faults(), &0);
}

#[test]
fn an_image_that_changes_is_not_accepted(rt: HostRuntime) {
    assert_changed(&rt, rt.alloc(), &ONE_DIRECTORY);
    assert_changed(&rt, rt.alloc(), &SEVEN_LINKS);
}

#[test]
fn an_image_that_stays_is_accepted(rt: HostRuntime) {
    let alloc = rt.alloc();
    let ran = verdict(&rt, alloc, &[], reads(&rt, alloc));
    same(&rt, &ran.status, &Status::Done);
    holds(
        &rt,
        ran.text.as_slice() == b"sound 1 directories 0 files\n".as_slice(),
    );
    same(&rt, &ran.disk.faults(), &0);
}
