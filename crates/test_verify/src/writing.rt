// What is written of an image: the text of its certificate, or of the first inode that breaks a rule.
use crate::helpers::{got, holds, same};
use crate::images::{Edit, ONE_DIRECTORY, assert_only_read, edit, edited, full, made};
use dev_fake::Fuse;
use image_verdict::{Verdict, write_verdict};
use sfs_base::BytesSink;
use sfs_dev::Memory;
use std::alloc::Global;
use std::process::Abort;

// What stands in front of the record, and its bytes that are not 0: inode 1 with 7 links.
const FRONT: &str = "inode 1 rule 13\nrecord 0200000007000000";

// The record of inode 1, a directory, with 7 links.
const SEVEN_LINKS: Edit = (86_528, &[2, 0, 0, 0, 7]);

// Asserts the verdict on a disk, which is read alone, and answers what was written.
fn written(rt: &impl Abort, alloc: Global, disk: &mut Memory, due: Verdict) -> BytesSink {
    let calls = disk.calls().len();
    let mut sink = BytesSink::new(alloc, Vec::new(alloc));
    same(rt, &write_verdict(alloc, &mut sink, disk), &due);
    assert_only_read(rt, disk, calls);
    sink
}

#[test]
fn a_sound_image_is_written_by_its_directories(rt: HostRuntime) {
    let mut disk = made(&rt, rt.alloc());
    let sink = written(&rt, rt.alloc(), &mut disk, Verdict::Sound);
    holds(
        &rt,
        sink.bytes() == b"sound 1 directories 0 files\n".as_slice(),
    );
    let mut disk = full(&rt, rt.alloc());
    let sink = written(&rt, rt.alloc(), &mut disk, Verdict::Sound);
    holds(
        &rt,
        sink.bytes()
            == b"sound 6 directories 2 files\n1 0 1\n2 0 1\n3 0 1\n4 2 2\n5 4 3\n".as_slice(),
    );
}

#[test]
fn a_broken_inode_is_written_with_its_record(rt: HostRuntime) {
    let mut disk = edited(&rt, rt.alloc(), &ONE_DIRECTORY);
    edit(&rt, &mut disk, &[SEVEN_LINKS]);
    let due = Verdict::BadImage { inode: 1, rule: 13 };
    let sink = written(&rt, rt.alloc(), &mut disk, due);
    let text = sink.bytes();
    holds(
        &rt,
        text.len() == 1048 && text.starts_with(FRONT.as_bytes()),
    );
    for byte in text.iter().skip(39).take(1008) {
        same(&rt, byte, &b'0');
    }
    holds(&rt, text.ends_with(b"\n"));
}

#[test]
fn of_a_wrong_byte_before_the_inodes_nothing_is_written(rt: HostRuntime) {
    let mut disk = edited(&rt, rt.alloc(), &[(28, &[1])]);
    let sink = written(&rt, rt.alloc(), &mut disk, Verdict::BadSuper { at: 28 });
    holds(&rt, sink.bytes().is_empty());
}

#[test]
fn a_failing_sink_and_a_failing_disk_are_told(rt: HostRuntime) {
    let alloc = rt.alloc();
    let mut disk = full(&rt, alloc);
    let mut sink = BytesSink::new(alloc, got(&rt, vec![in alloc; 0; 1]));
    let verdict = write_verdict(alloc, &mut sink, &mut disk);
    same(&rt, &verdict, &Verdict::WriteFault);
    // Eleven reads certify the image, and the next accept the certificate.
    let mut disk = Fuse::new(disk, 15);
    let mut sink = BytesSink::new(alloc, Vec::new(alloc));
    let verdict = write_verdict(alloc, &mut sink, &mut disk);
    same(&rt, &verdict, &Verdict::DiskFailed);
    holds(&rt, sink.bytes().is_empty());
}
