// The number and the line of each status.
use crate::helpers::{got, same};
use scalefs_run::{ImageFault, Status, status_line};
use sfs_base::Measure;
use std::alloc::Global;
use std::process::Abort;

// Asserts what a status is outside.
fn assert_shown(rt: &impl Abort, alloc: Global, status: Status, number: u8, line: &str) {
    same(rt, &status.number(), &number);
    same(rt, &got(rt, status_line(alloc, &status)).as_str(), &line);
}

#[test]
fn each_status_has_its_number_and_line(rt: HostRuntime) {
    let alloc = rt.alloc();
    assert_shown(&rt, alloc, Status::Done, 0, "");
    assert_shown(
        &rt,
        alloc,
        Status::BadWords { place: 0 },
        2,
        "bad words at 0",
    );
    assert_shown(
        &rt,
        alloc,
        Status::BadScript { line: 262_144 },
        3,
        "bad script at line 262144",
    );
    assert_shown(&rt, alloc, Status::ReadFault, 4, "cannot read the script");
    assert_shown(&rt, alloc, Status::WriteFault, 5, "cannot write the answer");
    assert_shown(&rt, alloc, Status::DiskFault, 6, "the disk failed");
    assert_shown(&rt, alloc, Status::NoMemory, 8, "out of memory");
    assert_shown(
        &rt,
        alloc,
        Status::TooManyWorkers { asked: 2, have: 2 },
        9,
        "worker 2 of 2",
    );
    assert_shown(
        &rt,
        alloc,
        Status::TooLong {
            measure: Measure::Bytes,
        },
        10,
        "script too long",
    );
}

#[test]
fn images_disks_and_histories_have_their_lines(rt: HostRuntime) {
    let alloc = rt.alloc();
    let fault = ImageFault::Super { at: 4095 };
    let line = "bad image: superblock byte 4095";
    assert_shown(&rt, alloc, Status::BadImage { fault }, 7, line);
    let fault = ImageFault::Journal {
        core: 15,
        slot: 0,
        at: 520,
    };
    let line = "bad image: journal 15 slot 0 byte 520";
    assert_shown(&rt, alloc, Status::BadImage { fault }, 7, line);
    let fault = ImageFault::Tree { inode: 9, rule: 14 };
    let line = "bad image: inode 9 rule 14";
    assert_shown(&rt, alloc, Status::BadImage { fault }, 7, line);
    let small = Status::TooSmall { need: 12, have: 8 };
    assert_shown(&rt, alloc, small, 11, "too small: need 12 blocks, have 8");
    let wrong = Status::WrongHistory { line: 5 };
    assert_shown(&rt, alloc, wrong, 13, "wrong history at line 5");
    assert_shown(&rt, alloc, Status::NotAccepted, 15, "the image changed");
}
