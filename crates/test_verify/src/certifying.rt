// What certificates tell, what is answered where there is none, and that each is accepted for its own
// image alone.
use crate::helpers::{got, holds, same};
use crate::images::{
    Edit, ONE_DIRECTORY, OWNERS, PLACES, SIX_DIRECTORIES, assert_only_read, assert_tells, edit,
    edited, full, made,
};
use image_check::{Certificate, VerifyFault, accept, certify};
use sfs_dev::Memory;
use std::alloc::Global;
use std::process::Abort;

// The certificate of a disk, which is read alone.
fn certified(rt: &impl Abort, alloc: Global, disk: &mut Memory) -> Certificate {
    let calls = disk.calls().len();
    let cert = got(rt, certify(alloc, disk));
    assert_only_read(rt, disk, calls);
    cert
}

// Asserts whether a certificate is accepted for a disk, which is read alone.
fn assert_verdict(
    rt: &impl Abort,
    alloc: Global,
    disk: &mut Memory,
    cert: &Certificate,
    due: bool,
) {
    let calls = disk.calls().len();
    same(rt, &accept(alloc, disk, cert), &Ok(due));
    assert_only_read(rt, disk, calls);
}

#[test]
fn an_image_that_is_just_made_has_an_empty_certificate(rt: HostRuntime) {
    let mut disk = made(&rt, rt.alloc());
    let cert = certified(&rt, rt.alloc(), &mut disk);
    assert_tells(&rt, &cert, &[], &[], 0);
    assert_verdict(&rt, rt.alloc(), &mut disk, &cert, true);
}

#[test]
fn a_certificate_tells_where_each_directory_lies(rt: HostRuntime) {
    let mut disk = edited(&rt, rt.alloc(), &SIX_DIRECTORIES);
    let cert = certified(&rt, rt.alloc(), &mut disk);
    assert_tells(&rt, &cert, &PLACES, &OWNERS[..3], 0);
    assert_verdict(&rt, rt.alloc(), &mut disk, &cert, true);
}

#[test]
fn a_certificate_tells_who_holds_each_block(rt: HostRuntime) {
    let mut disk = full(&rt, rt.alloc());
    let cert = certified(&rt, rt.alloc(), &mut disk);
    assert_tells(&rt, &cert, &PLACES, &OWNERS, 2);
    assert_verdict(&rt, rt.alloc(), &mut disk, &cert, true);
}

#[test]
fn a_certificate_is_not_accepted_for_another_image(rt: HostRuntime) {
    let mut disk = made(&rt, rt.alloc());
    let cert = certified(&rt, rt.alloc(), &mut disk);
    edit(&rt, &mut disk, &ONE_DIRECTORY);
    assert_verdict(&rt, rt.alloc(), &mut disk, &cert, false);
    let own = certified(&rt, rt.alloc(), &mut disk);
    assert_verdict(&rt, rt.alloc(), &mut disk, &own, true);
    // The root's link count is wrong then.
    edit(&rt, &mut disk, &[(86_020, &[4])]);
    assert_verdict(&rt, rt.alloc(), &mut disk, &own, false);
}

// Asserts which inode breaks which rule, and how its record begins.
fn assert_broken(rt: &impl Abort, alloc: Global, disk: &mut Memory, due: (u32, u8), front: &[u8]) {
    match certify(alloc, disk) {
        Err(VerifyFault::BadImage { inode, rule, bytes }) => {
            same(rt, &(inode, rule), &due);
            holds(rt, bytes.starts_with(front));
        }
        _ => panic!(rt; "no inode"),
    }
}

#[test]
fn the_record_of_the_inode_is_answered(rt: HostRuntime) {
    let mut disk = edited(&rt, rt.alloc(), &ONE_DIRECTORY);
    edit(&rt, &mut disk, &[(86_020, &[4])]);
    assert_broken(
        &rt,
        rt.alloc(),
        &mut disk,
        (0, 13),
        &[2, 0, 0, 0, 4, 0, 0, 0, 0, 16],
    );
}

// The slot of core 0 is open and has a record of inode 1: a directory with 7 links. In the table it
// has 2.
const IN_A_SLOT: [Edit; 5] = [
    (4_096, &[1]),
    (4_608, &[1, 0, 0, 0]),
    (4_616, &[1, 0, 0, 0, 0, 0, 0, 0]),
    (8_192, &[1, 0, 0, 0]),
    (12_288, &[2, 0, 0, 0, 7]),
];

#[test]
fn the_record_is_the_settled_one(rt: HostRuntime) {
    let mut disk = edited(&rt, rt.alloc(), &ONE_DIRECTORY);
    edit(&rt, &mut disk, &IN_A_SLOT);
    assert_broken(
        &rt,
        rt.alloc(),
        &mut disk,
        (1, 13),
        &[2, 0, 0, 0, 7, 0, 0, 0],
    );
}

#[test]
fn a_wrong_byte_before_the_inodes_is_named(rt: HostRuntime) {
    let mut disk = edited(&rt, rt.alloc(), &[(28, &[1])]);
    let fault = certify(rt.alloc(), &mut disk);
    holds(&rt, matches!(fault, Err(VerifyFault::BadSuper { at: 28 })));
    let mut disk = edited(&rt, rt.alloc(), &[(45_056, &[1]), (45_568, &[65, 0, 0, 0])]);
    let fault = certify(rt.alloc(), &mut disk);
    holds(
        &rt,
        matches!(
            fault,
            Err(VerifyFault::BadJournal {
                core: 1,
                slot: 0,
                at: 512
            })
        ),
    );
}
