// Worked histories, with the members of each fsync worked out by hand.
use super::{Watched, begun};
use crate::calls::Asked::{self, Create, Link, Mkdir, Rename, Unlink, Write};
use crate::calls::call_of;
use crate::helpers::{holds, same};
use std::alloc::Global;
use std::process::Abort;

// A call, or an fsync of a node with its members and with how many inodes and blocks it needs.
enum Step {
    Call(Asked),
    Fsync(u32, &'static [u32], u32, u32),
}

use Step::{Call, Fsync};

impl Watched {
    // Makes a call, or an fsync whose members it compares.
    fn take(&mut self, rt: &impl Abort, step: &Step) {
        match step {
            Step::Call(asked) => {
                let call = call_of(rt, self.alloc, asked);
                self.make(rt, &call)
            }
            Step::Fsync(node, due, inodes, blocks) => {
                let members = self.compare(rt, *node);
                holds(rt, members.as_slice() == *due);
                same(rt, &self.disk.needed.inodes, inodes);
                same(rt, &self.disk.needed.blocks, blocks);
            }
        }
    }

    // Takes steps one after the other.
    fn run(&mut self, rt: &impl Abort, steps: &[Step]) {
        for step in steps {
            self.take(rt, step);
        }
    }
}

fn run_anew(rt: &impl Abort, alloc: Global, steps: &[Step]) {
    let mut watched = begun(rt, alloc);
    watched.run(rt, steps);
}

// What came and went between two fsyncs.
static ABSORBED: [Step; 5] = [
    Call(Mkdir(0, "d")),
    Fsync(0, &[0], 1, 1),
    Call(Create(64, "a")),
    Call(Unlink(64, "a")),
    Fsync(64, &[64], 0, 0),
];

// A file's fsync flushes where it was made; a link and an unlink of it then flush one directory each.
static NAMED_TWICE: [Step; 9] = [
    Call(Mkdir(0, "p")),
    Call(Mkdir(0, "q")),
    Call(Create(64, "f")),
    Call(Write(66, 0, "hi")),
    Fsync(66, &[0, 64, 66], 3, 2),
    Call(Link(66, 65, "f")),
    Call(Unlink(64, "f")),
    Fsync(64, &[64], 0, 0),
    Fsync(65, &[65], 0, 1),
];

// Directories that were made in one another.
static BIRTHS: [Step; 3] = [
    Call(Mkdir(0, "x")),
    Call(Mkdir(64, "y")),
    Fsync(65, &[0, 64, 65], 2, 2),
];

// A rename between two directories.
static BOTH_SIDES: [Step; 7] = [
    Call(Mkdir(0, "p")),
    Call(Mkdir(0, "q")),
    Call(Create(64, "f")),
    Fsync(0, &[0], 2, 1),
    Fsync(64, &[64], 1, 1),
    Call(Rename(64, "f", 65, "g")),
    Fsync(64, &[64, 65], 0, 1),
];

// Directories that move below others.
static MOVED: [Step; 13] = [
    Call(Mkdir(0, "p")),
    Call(Mkdir(0, "q")),
    Call(Mkdir(0, "r")),
    Call(Mkdir(64, "b")),
    Call(Mkdir(66, "a")),
    Fsync(0, &[0], 3, 1),
    Fsync(64, &[64], 1, 1),
    Fsync(66, &[66], 1, 1),
    Call(Rename(64, "b", 68, "b")),
    Fsync(68, &[0, 64, 66, 68], 0, 1),
    Call(Rename(68, "b", 65, "b")),
    Call(Rename(66, "a", 67, "a")),
    Fsync(66, &[0, 65, 66, 67, 68], 0, 2),
];

#[test]
fn the_members_of_worked_fsyncs_are_those_of_the_machine(rt: HostRuntime) {
    let alloc = rt.alloc();
    run_anew(&rt, alloc, &ABSORBED);
    run_anew(&rt, alloc, &NAMED_TWICE);
    run_anew(&rt, alloc, &BIRTHS);
    run_anew(&rt, alloc, &BOTH_SIDES);
    run_anew(&rt, alloc, &MOVED);
}
