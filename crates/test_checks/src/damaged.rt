// Edits of the image with one directory, each of which breaks something, and the first fault that `show` and `verify` name then.
use crate::calls::{Edit, assert_only_read, copy_of, done, edited};
use crate::helpers::{got, holds, same_at, same_list_at};
use scalefs_run::{ImageFault, Status};
use sfs_dev::Memory;
use std::alloc::Global;
use std::process::Abort;
use std::sync::Wait;
use std::thread::Threads;

// Edits, and what the image is refused for.
type Damage = (&'static [Edit], ImageFault);

// Wrong bytes of the superblock and of the journals.
static BEFORE_THE_INODES: [Damage; 10] = [
    (&[(0, &[0])], ImageFault::Super { at: 0 }),
    (&[(8, &[9])], ImageFault::Super { at: 8 }),
    (&[(12, &[17])], ImageFault::Super { at: 12 }),
    (&[(20, &[15])], ImageFault::Super { at: 20 }),
    (&[(24, &[9])], ImageFault::Super { at: 24 }),
    (&[(16, &[29, 0])], ImageFault::Super { at: 16 }),
    (&[(28, &[1])], ImageFault::Super { at: 28 }),
    // One record more than there are inodes.
    (
        &[(4_096, &[1]), (4_608, &[65, 0, 0, 0])],
        ImageFault::Journal {
            core: 0,
            slot: 0,
            at: 512,
        },
    ),
    // Two open slots without records, of one stamp.
    (
        &[
            (4_096, &[1]),
            (4_608, &[0, 0, 0, 0]),
            (4_616, &[1, 0, 0, 0, 0, 0, 0, 0]),
            (45_056, &[1]),
            (45_568, &[0, 0, 0, 0]),
            (45_576, &[1, 0, 0, 0, 0, 0, 0, 0]),
        ],
        ImageFault::Journal {
            core: 1,
            slot: 0,
            at: 520,
        },
    ),
    // One number twice.
    (
        &[
            (4_096, &[1]),
            (4_608, &[2, 0, 0, 0]),
            (4_616, &[1, 0, 0, 0, 0, 0, 0, 0]),
            (8_192, &[5, 0, 0, 0, 5, 0, 0, 0]),
        ],
        ImageFault::Journal {
            core: 0,
            slot: 0,
            at: 4_100,
        },
    ),
];

// Inodes that break a rule. No slot is open, so the record in the table is the settled one.
static OF_INODES: [Damage; 9] = [
    (&[(86_528, &[9])], ImageFault::Tree { inode: 1, rule: 1 }),
    (&[(86_016, &[1])], ImageFault::Tree { inode: 0, rule: 2 }),
    (&[(86_024, &[1])], ImageFault::Tree { inode: 0, rule: 3 }),
    (&[(86_032, &[28])], ImageFault::Tree { inode: 0, rule: 4 }),
    (&[(86_032, &[0, 4])], ImageFault::Tree { inode: 0, rule: 4 }),
    (
        &[(86_537, &[16]), (86_544, &[29])],
        ImageFault::Tree { inode: 1, rule: 5 },
    ),
    // A byte past the three of a file.
    (
        &[
            (
                87_040,
                &[1, 0, 0, 0, 1, 0, 0, 0, 3, 0, 0, 0, 0, 0, 0, 0, 30],
            ),
            (122_883, &[1]),
        ],
        ImageFault::Tree { inode: 2, rule: 6 },
    ),
    (&[(118_790, &[1])], ImageFault::Tree { inode: 0, rule: 7 }),
    (
        &[(119_048, &[1, 0, 0, 0, 2, 1, 0, 0, b'a'])],
        ImageFault::Tree { inode: 0, rule: 8 },
    ),
];

// The same of what the rows of directories name, and of link counts.
static OF_ROWS: [Damage; 8] = [
    (&[(118_784, &[64])], ImageFault::Tree { inode: 0, rule: 10 }),
    (&[(118_784, &[2])], ImageFault::Tree { inode: 0, rule: 10 }),
    (&[(118_784, &[0])], ImageFault::Tree { inode: 0, rule: 11 }),
    (
        &[(119_048, &[1, 0, 0, 0, 2, 1, 0, 0, b'b'])],
        ImageFault::Tree { inode: 1, rule: 12 },
    ),
    (&[(86_020, &[4])], ImageFault::Tree { inode: 0, rule: 13 }),
    // Two directories that name one another.
    (
        &[
            (86_020, &[2]),
            (86_025, &[0]),
            (86_032, &[0]),
            (
                86_528,
                &[2, 0, 0, 0, 3, 0, 0, 0, 0, 16, 0, 0, 0, 0, 0, 0, 30],
            ),
            (
                87_040,
                &[2, 0, 0, 0, 3, 0, 0, 0, 0, 16, 0, 0, 0, 0, 0, 0, 31],
            ),
            (122_880, &[2, 0, 0, 0, 2, 1, 0, 0, b'x']),
            (126_976, &[1, 0, 0, 0, 2, 1, 0, 0, b'y']),
        ],
        ImageFault::Tree { inode: 1, rule: 14 },
    ),
    // Of two faults the lesser rule.
    (
        &[(86_528, &[9]), (86_020, &[4])],
        ImageFault::Tree { inode: 1, rule: 1 },
    ),
    // A link count of the table, beside an open slot without records.
    (
        &[
            (4_096, &[1]),
            (4_608, &[0, 0, 0, 0]),
            (4_616, &[1, 0, 0, 0, 0, 0, 0, 0]),
            (86_532, &[7]),
        ],
        ImageFault::Tree { inode: 1, rule: 13 },
    ),
];

// Where the record of an inode stands.
fn record_at(inode: u32) -> usize {
    86_016 + 512 * inode.min(63) as usize
}

// The lines of an inode that breaks a rule, with its record of the inode table.
pub(crate) fn broken_lines(
    rt: &impl Abort,
    alloc: Global,
    disk: &Memory,
    inode: u32,
    rule: u8,
) -> Vec<u8> {
    let digits = b"0123456789abcdef";
    let front = got(rt, format!(in alloc; "inode {inode} rule {rule}\nrecord "));
    let mut text = front.into_bytes();
    for byte in disk.bytes().iter().skip(record_at(inode)).take(512) {
        got(rt, text.push(digits[(*byte >> 4) as usize]));
        got(rt, text.push(digits[(*byte & 15) as usize]));
    }
    got(rt, text.push(b'\n'));
    text
}

// The text that `verify` writes of a damaged image: the lines of an inode, or nothing.
fn text_due(rt: &impl Abort, alloc: Global, disk: &Memory, fault: ImageFault) -> Vec<u8> {
    match fault {
        ImageFault::Tree { inode, rule } => broken_lines(rt, alloc, disk, inode, rule),
        _ => Vec::new(alloc),
    }
}

// Asserts that `show` and `verify` refuse a disk for this fault, and only read it.
pub(crate) fn assert_refused<R: Threads + Wait + Sync + Abort>(
    rt: &R,
    alloc: Global,
    disk: &Memory,
    fault: ImageFault,
    place: usize,
) {
    let due = Status::BadImage { fault };
    let none = b"".as_slice();
    let shown = done(rt, alloc, &["show"], none, copy_of(rt, alloc, disk));
    same_at(rt, &shown.status, &due, place);
    holds(rt, shown.text.is_empty());
    assert_only_read(rt, &shown.disk);
    let verified = done(rt, alloc, &["verify"], none, copy_of(rt, alloc, disk));
    same_at(rt, &verified.status, &due, place);
    let text = text_due(rt, alloc, disk, fault);
    same_list_at(rt, verified.text.as_slice(), text.as_slice(), place);
    assert_only_read(rt, &verified.disk);
}

fn assert_damages<R: Threads + Wait + Sync + Abort>(rt: &R, alloc: Global, damages: &[Damage]) {
    for (place, (edits, fault)) in damages.iter().enumerate() {
        assert_refused(rt, alloc, &edited(rt, alloc, edits), *fault, place);
    }
}

#[test]
fn show_and_verify_name_one_wrong_byte(rt: HostRuntime) {
    assert_damages(&rt, rt.alloc(), &BEFORE_THE_INODES);
}

#[test]
fn show_and_verify_name_one_inode_and_rule(rt: HostRuntime) {
    assert_damages(&rt, rt.alloc(), &OF_INODES);
}

#[test]
fn show_and_verify_name_one_row_or_link_count(rt: HostRuntime) {
    assert_damages(&rt, rt.alloc(), &OF_ROWS);
}
