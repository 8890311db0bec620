// What an fsync of a file writes of it where another fsync came before it: nothing where something later of the file was flushed, and
// nothing where the file's last name went and that was flushed.
use crate::helpers::{got, holds, same};
use dep_closure::{DirectoryChanges, Gathered, NodeBirth, NodeCut};
use disk_change::{FileChange, need};
use disk_nodes::{DirectorySlots, OldDisk, OldEntry, OldNode};
use flush_plan::{concerned, file_change, plan};
use fmt_inode::{Inode, Tables};
use mem_files::FileBytes;
use sfs_base::{Kind, Name, NodeId, NodeList, RoomyList, Stamp};
use space_map::Need;
use std::alloc::Global;
use std::process::Abort;
use tree_laws::{Act, Ancestors, Change};

const ROOT: NodeId = NodeId(0);

const FILE: NodeId = NodeId(64);

// What was gathered for an fsync of the file: its cut, whether it has an inode, and whether the change that named it is not flushed.
struct Case {
    cut: u64,
    has_inode: bool,
    is_named: bool,
}

// A list of one item, or of none.
fn listed<T: Drop>(rt: &impl Abort, alloc: Global, item: T, is_there: bool) -> RoomyList<T> {
    let mut items = Vec::new(alloc);
    if is_there {
        got(rt, items.push(item));
    }
    RoomyList::from_vec(items)
}

// The change of the root that named the file, at the stamp 1.
fn naming(rt: &impl Abort, alloc: Global) -> DirectoryChanges {
    let change = Change {
        stamp: Stamp(1),
        dir: ROOT,
        name: got(rt, Name::new(alloc, b"f")),
        child: FILE,
        kind: Kind::File,
        act: Act::Add,
        other: None,
        above: Ancestors::none(alloc),
    };
    DirectoryChanges {
        dir: ROOT,
        changes: listed(rt, alloc, change, true),
    }
}

impl Case {
    // What was gathered.
    fn gathered(&self, rt: &impl Abort, alloc: Global) -> Gathered {
        let mut inodes = Vec::new(alloc);
        got(rt, inodes.push(ROOT));
        if self.has_inode {
            got(rt, inodes.push(FILE));
        }
        let cut = NodeCut {
            node: FILE,
            cut: Stamp(self.cut),
        };
        let birth = NodeBirth {
            node: FILE,
            dir: ROOT,
        };
        Gathered {
            logs: listed(rt, alloc, naming(rt, alloc), self.is_named),
            cuts: listed(rt, alloc, cut, self.cut > 0),
            births: listed(rt, alloc, birth, true),
            inodes: NodeList::from_vec(inodes),
        }
    }

    // What the disk has of the root and of the file.
    fn old(&self, rt: &impl Abort, alloc: Global) -> OldDisk {
        let mut old = OldDisk::new(alloc);
        put(rt, alloc, &mut old, ROOT, 2);
        if self.has_inode {
            put(rt, alloc, &mut old, FILE, 1);
        }
        old
    }

    // What an fsync of the file at the stamp 4 needs, where two bytes were written at the stamp 2.
    fn needed(&self, rt: &impl Abort, alloc: Global, with_change: bool) -> Need {
        let logs = self.gathered(rt, alloc);
        holds(rt, logs.is_orderly());
        let concern = got(rt, concerned(alloc, FILE, Stamp(4), &logs));
        let old = self.old(rt, alloc);
        let change = if with_change {
            Some(written(rt, alloc))
        } else {
            None
        };
        let plan = got(
            rt,
            plan(alloc, FILE, Stamp(4), &logs, concern, old, true, change),
        );
        need(&plan.change)
    }
}

// Puts an inode of a kind with nothing in it.
fn put(rt: &impl Abort, alloc: Global, old: &mut OldDisk, node: NodeId, kind: u8) {
    let one = OldNode {
        inode: node.0,
        meta: Inode {
            kind,
            links: u32::from(kind),
            size: 0,
            direct: [0; 108],
            indirect: [0; 16],
        },
        tables: Tables::new(alloc),
        slots: DirectorySlots::new(alloc),
    };
    if old.find(node.0).is_none() {
        got(rt, old.add(OldEntry { node, old: one }));
    }
}

// The change of a file of two bytes from its beginning on.
fn written(rt: &impl Abort, alloc: Global) -> FileChange {
    let mut bytes = FileBytes::new(alloc);
    let touched = got(rt, bytes.write(0, b"hi"));
    bytes.mark(touched, Stamp(2));
    got(rt, file_change(alloc, FILE, Stamp(0), &bytes))
}

// The fsyncs with what they need: in time; at the very stamp of the cut; late, with a change that is left out and with none; of a file that
// is dead on the disk; and of one without an inode whose naming is not flushed, which brings its directory's row too.
static CASES: [(Case, bool, u32, u32); 6] = [
    (
        Case {
            cut: 0,
            has_inode: true,
            is_named: false,
        },
        true,
        0,
        1,
    ),
    (
        Case {
            cut: 4,
            has_inode: true,
            is_named: false,
        },
        true,
        0,
        1,
    ),
    (
        Case {
            cut: 5,
            has_inode: true,
            is_named: false,
        },
        true,
        0,
        0,
    ),
    (
        Case {
            cut: 5,
            has_inode: true,
            is_named: false,
        },
        false,
        0,
        0,
    ),
    (
        Case {
            cut: 0,
            has_inode: false,
            is_named: false,
        },
        true,
        0,
        0,
    ),
    (
        Case {
            cut: 0,
            has_inode: false,
            is_named: true,
        },
        true,
        1,
        2,
    ),
];

#[test]
fn a_file_is_written_in_time_and_not_late_nor_dead(rt: HostRuntime) {
    let alloc = rt.alloc();
    for (case, with_change, inodes, blocks) in &CASES {
        let needed = case.needed(&rt, alloc, *with_change);
        same(&rt, &needed.inodes, inodes);
        same(&rt, &needed.blocks, blocks);
    }
}
