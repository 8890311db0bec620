// A source, a sink or a disk that fails, and images that are refused.
use crate::calls::{assert_only_read, done, done_between, edited, made, source_of};
use crate::helpers::{got, holds, same};
use dev_fake::FailAt;
use scalefs_run::{ImageFault, Status};
use sfs_base::{BytesSink, BytesSource};
use sfs_dev::{Disk, Memory};
use std::alloc::Global;
use std::process::Abort;

// A legal text over the image that is just made.
const TEXT: &[u8] = b"0 0 mkdir 0 a = node 64 dir\n";

// A sink whose first call fails.
fn failing_sink(rt: &impl Abort, alloc: Global) -> BytesSink {
    BytesSink::new(alloc, got(rt, vec![in alloc; 0u64]))
}

// A disk whose call of this number fails.
fn failing_disk(rt: &impl Abort, alloc: Global, disk: Memory, call: u64) -> FailAt {
    FailAt::new(disk, got(rt, vec![in alloc; call]))
}

#[test]
fn a_source_that_fails_keeps_the_disk_untouched(rt: HostRuntime) {
    let alloc = rt.alloc();
    for call in 0..2u64 {
        let fails = got(&rt, vec![in alloc; call]);
        let source = BytesSource::new(got(&rt, Vec::from_slice(alloc, TEXT)), fails);
        let sink = BytesSink::new(alloc, Vec::new(alloc));
        let disk = made(&rt, alloc);
        let ran = done_between(&rt, alloc, &["check"], source, sink, disk);
        same(&rt, &ran.status, &Status::ReadFault);
        holds(&rt, ran.text.is_empty());
        same(&rt, &ran.disk.now(), &0);
    }
}

#[test]
fn a_sink_that_fails_is_named(rt: HostRuntime) {
    let alloc = rt.alloc();
    let (source, sink) = (source_of(&rt, alloc, TEXT), failing_sink(&rt, alloc));
    let disk = made(&rt, alloc);
    let ran = done_between(&rt, alloc, &["check"], source, sink, disk);
    same(&rt, &ran.status, &Status::WriteFault);
    holds(&rt, ran.text.is_empty());
    let (source, sink) = (
        source_of(&rt, alloc, b"".as_slice()),
        failing_sink(&rt, alloc),
    );
    let disk = made(&rt, alloc);
    let ran = done_between(&rt, alloc, &["verify"], source, sink, disk);
    same(&rt, &ran.status, &Status::WriteFault);
    // The text of an inode that breaks a rule comes before its status.
    let (source, sink) = (
        source_of(&rt, alloc, b"".as_slice()),
        failing_sink(&rt, alloc),
    );
    let disk = edited(&rt, alloc, &[(86_020, &[4])]);
    let ran = done_between(&rt, alloc, &["verify"], source, sink, disk);
    same(&rt, &ran.status, &Status::WriteFault);
    holds(&rt, ran.text.is_empty());
}

#[test]
fn a_wrong_text_needs_no_sink(rt: HostRuntime) {
    let alloc = rt.alloc();
    let (source, sink) = (
        source_of(&rt, alloc, b"x".as_slice()),
        failing_sink(&rt, alloc),
    );
    let disk = made(&rt, alloc);
    let ran = done_between(&rt, alloc, &["check"], source, sink, disk);
    same(&rt, &ran.status, &Status::WrongHistory { line: 1 });
}

#[test]
fn a_disk_that_fails_is_named(rt: HostRuntime) {
    let alloc = rt.alloc();
    let disk = failing_disk(&rt, alloc, made(&rt, alloc), 0);
    let ran = done(&rt, alloc, &["check"], TEXT, disk);
    same(&rt, &ran.status, &Status::DiskFault);
    holds(&rt, ran.text.is_empty());
    // The first read of the certificate, and the first of its acceptance, behind as many reads.
    let whole = done(&rt, alloc, &["verify"], b"".as_slice(), made(&rt, alloc));
    let reads = whole.disk.now();
    for call in [0, reads / 2, reads.saturating_sub(1)] {
        let disk = failing_disk(&rt, alloc, made(&rt, alloc), call);
        let ran = done(&rt, alloc, &["verify"], b"".as_slice(), disk);
        same(&rt, &ran.status, &Status::DiskFault);
        holds(&rt, ran.text.is_empty());
    }
}

#[test]
fn an_image_is_refused_before_the_text_is_checked(rt: HostRuntime) {
    let alloc = rt.alloc();
    let disk = edited(&rt, alloc, &[(86_020, &[4])]);
    let ran = done(&rt, alloc, &["check"], b"x".as_slice(), disk);
    let fault = ImageFault::Tree { inode: 0, rule: 13 };
    same(&rt, &ran.status, &Status::BadImage { fault });
    holds(&rt, ran.text.is_empty());
    assert_only_read(&rt, &ran.disk);
}
