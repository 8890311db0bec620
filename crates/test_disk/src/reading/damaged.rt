// Edits of the image with one directory, each of which breaks a rule, and which inode is named then.
use super::{edited, read};
use crate::helpers::same;
use crate::making::Edit;
use disk_tree::TreeFault;
use std::alloc::Global;
use std::process::Abort;

// Edits, and the inode and the rule that are answered for them.
struct Damage {
    edits: &'static [Edit],
    inode: u32,
    rule: u8,
}

// Each rule but that on full buckets, alone.
const DAMAGES: [Damage; 18] = [
    // A kind past the last.
    Damage {
        edits: &[(86_528, &[9])],
        inode: 1,
        rule: 1,
    },
    // The second byte of a record, and a free record with a size.
    Damage {
        edits: &[(86_529, &[1])],
        inode: 1,
        rule: 1,
    },
    Damage {
        edits: &[(87_048, &[1])],
        inode: 2,
        rule: 1,
    },
    // The root is a file.
    Damage {
        edits: &[(86_016, &[1])],
        inode: 0,
        rule: 2,
    },
    // A directory of a block and a byte.
    Damage {
        edits: &[(86_024, &[1])],
        inode: 0,
        rule: 3,
    },
    // A file of a byte more than a file has.
    Damage {
        edits: &[(87_040, &[1, 0, 0, 0, 0, 0, 0, 0, 1, 192, 6, 4])],
        inode: 2,
        rule: 3,
    },
    // The block before the data area, the one behind it, and one that covers no byte.
    Damage {
        edits: &[(86_032, &[28])],
        inode: 0,
        rule: 4,
    },
    Damage {
        edits: &[(86_032, &[0, 4])],
        inode: 0,
        rule: 4,
    },
    Damage {
        edits: &[(86_036, &[30])],
        inode: 0,
        rule: 4,
    },
    // The root's block in another directory too.
    Damage {
        edits: &[(86_537, &[16]), (86_544, &[29])],
        inode: 1,
        rule: 5,
    },
    // A byte past a file's three.
    Damage {
        edits: &[
            (
                87_040,
                &[1, 0, 0, 0, 1, 0, 0, 0, 3, 0, 0, 0, 0, 0, 0, 0, 30],
            ),
            (122_883, &[1]),
        ],
        inode: 2,
        rule: 6,
    },
    // A byte of a slot that is to be zero, and one behind the slots.
    Damage {
        edits: &[(118_790, &[1])],
        inode: 0,
        rule: 7,
    },
    Damage {
        edits: &[(122_879, &[1])],
        inode: 0,
        rule: 7,
    },
    // One name twice.
    Damage {
        edits: &[(119_048, &[1, 0, 0, 0, 2, 1, 0, 0, b'a'])],
        inode: 0,
        rule: 8,
    },
    // A row of an inode beyond the last one, of a free one, and of another kind.
    Damage {
        edits: &[(118_784, &[64])],
        inode: 0,
        rule: 10,
    },
    Damage {
        edits: &[(118_784, &[2])],
        inode: 0,
        rule: 10,
    },
    Damage {
        edits: &[(118_788, &[1])],
        inode: 0,
        rule: 10,
    },
    // A row of the root.
    Damage {
        edits: &[(118_784, &[0])],
        inode: 0,
        rule: 11,
    },
];

// The rules on what is named, where lesser inodes break greater rules too.
const PAIRS: [Damage; 8] = [
    // Two rows of one directory; the root's link count is wrong then too.
    Damage {
        edits: &[(119_048, &[1, 0, 0, 0, 2, 1, 0, 0, b'b'])],
        inode: 1,
        rule: 12,
    },
    // A link count alone, and two.
    Damage {
        edits: &[(86_020, &[4])],
        inode: 0,
        rule: 13,
    },
    Damage {
        edits: &[(86_020, &[4]), (86_532, &[3])],
        inode: 0,
        rule: 13,
    },
    // Directories that name one another.
    Damage {
        edits: &[
            (86_020, &[2]),
            (86_025, &[0]),
            (86_032, &[0]),
            (
                86_528,
                &[2, 0, 0, 0, 3, 0, 0, 0, 0, 16, 0, 0, 0, 0, 0, 0, 30],
            ),
            (
                87_040,
                &[2, 0, 0, 0, 3, 0, 0, 0, 0, 16, 0, 0, 0, 0, 0, 0, 31],
            ),
            (122_880, &[2, 0, 0, 0, 2, 1, 0, 0, b'x']),
            (126_976, &[1, 0, 0, 0, 2, 1, 0, 0, b'y']),
        ],
        inode: 1,
        rule: 14,
    },
    // A kind past the last, and a link count of the root.
    Damage {
        edits: &[(86_528, &[9]), (86_020, &[4])],
        inode: 1,
        rule: 1,
    },
    // A size, and a pointer of the root.
    Damage {
        edits: &[(86_536, &[1]), (86_032, &[28])],
        inode: 1,
        rule: 3,
    },
    // A block that is held twice, and a slot of the root.
    Damage {
        edits: &[(86_537, &[16]), (86_544, &[29]), (118_790, &[1])],
        inode: 1,
        rule: 5,
    },
    // One name in two blocks of a directory, and a row of the root that names the root.
    Damage {
        edits: &[
            (
                86_528,
                &[
                    2, 0, 0, 0, 2, 0, 0, 0, 0, 32, 0, 0, 0, 0, 0, 0, 30, 0, 0, 0, 31,
                ],
            ),
            (122_880, &[2, 0, 0, 0, 1, 1, 0, 0, b'x']),
            (126_976, &[3, 0, 0, 0, 1, 1, 0, 0, b'x']),
            (118_784, &[0]),
        ],
        inode: 1,
        rule: 8,
    },
];

// Asserts what a disk is refused for.
fn assert_refused(rt: &impl Abort, alloc: Global, damage: &Damage) {
    let mut disk = edited(rt, alloc, damage.edits);
    let due = TreeFault::BadImage {
        inode: damage.inode,
        rule: damage.rule,
    };
    match read(rt, alloc, &mut disk) {
        Ok(_) => panic!(rt; "taken"),
        Err(fault) => same(rt, &fault, &due),
    }
}

#[test]
fn each_rule_is_broken_by_an_inode(rt: HostRuntime) {
    for damage in DAMAGES.iter() {
        assert_refused(&rt, rt.alloc(), damage);
    }
}

#[test]
fn the_least_rule_is_named_whatever_its_inode(rt: HostRuntime) {
    for damage in PAIRS.iter() {
        assert_refused(&rt, rt.alloc(), damage);
    }
}
