// Limits, and the numbers of two cores.
ghost use Rattle.std.specs.Prelude.{◌<◌};
ghost use Rattle.tree_laws.specs.Step.{IsReadable};

use super::Asked::{self, Create, Link, List, Mkdir, Rename, Stat, Unlink};
use super::{Trial, made, root_alone};
use crate::helpers::{got, holds};
use sfs_base::{Kind, Name, NodeId};
use std::alloc::Global;
use std::process::Abort;
use tree_laws::{Call, Code, Reply};

// The file that many rows name.
static FILE: [(Asked, &str); 1] = [(Create(0, "000000"), " create 0 000000 = node 64 file\n")];

// Behind a full bucket of the root, in which each row names the file. A name that is there is refused as such, full bucket or not.
static FULL: [(Asked, &str); 11] = [
    (Link(64, 0, "ffffff"), " link 64 0 ffffff = error Exists\n"),
    (Link(64, 0, "gggggg"), " link 64 0 gggggg = error DirFull\n"),
    (Create(0, "gggggg"), " create 0 gggggg = error DirFull\n"),
    (Link(64, 0, "a"), " link 64 0 a = ok\n"),
    (
        Rename(0, "a", 0, "gggggg"),
        " rename 0 a 0 gggggg = error DirFull\n",
    ),
    (
        Rename(0, "000000", 0, "gggggg"),
        " rename 0 000000 0 gggggg = error DirFull\n",
    ),
    (Rename(0, "a", 0, "000000"), " rename 0 a 0 000000 = ok\n"),
    (Unlink(0, "000000"), " unlink 0 000000 = ok\n"),
    (Link(64, 0, "gggggg"), " link 64 0 gggggg = ok\n"),
    (List(0), " ffffee ffffff gggggg\n"),
    (Stat(0), " stat 0 = stat dir 2 4097\n"),
];

// Directories in which the file gets its names.
static DIRECTORIES: [(Asked, &str); 16] = [
    (Mkdir(0, "A"), " mkdir 0 A = node 65 dir\n"),
    (Mkdir(0, "B"), " mkdir 0 B = node 66 dir\n"),
    (Mkdir(0, "C"), " mkdir 0 C = node 67 dir\n"),
    (Mkdir(0, "D"), " mkdir 0 D = node 68 dir\n"),
    (Mkdir(0, "E"), " mkdir 0 E = node 69 dir\n"),
    (Mkdir(0, "F"), " mkdir 0 F = node 70 dir\n"),
    (Mkdir(0, "G"), " mkdir 0 G = node 71 dir\n"),
    (Mkdir(0, "H"), " mkdir 0 H = node 72 dir\n"),
    (Mkdir(0, "I"), " mkdir 0 I = node 73 dir\n"),
    (Mkdir(0, "J"), " mkdir 0 J = node 74 dir\n"),
    (Mkdir(0, "K"), " mkdir 0 K = node 75 dir\n"),
    (Mkdir(0, "L"), " mkdir 0 L = node 76 dir\n"),
    (Mkdir(0, "M"), " mkdir 0 M = node 77 dir\n"),
    (Mkdir(0, "N"), " mkdir 0 N = node 78 dir\n"),
    (Mkdir(0, "O"), " mkdir 0 O = node 79 dir\n"),
    (Mkdir(0, "P"), " mkdir 0 P = node 80 dir\n"),
];

// Behind 65,535 links of the file, 4,094 of them in the last directory. A name that is there comes first, whether the bucket is full too,
// as in the first directory, or not; then the links; then the bucket.
static LINKED: [(Asked, &str); 8] = [
    (Stat(64), " stat 64 = stat file 65535 0\n"),
    (
        Link(64, 65, "000000"),
        " link 64 65 000000 = error Exists\n",
    ),
    (
        Link(64, 80, "000000"),
        " link 64 80 000000 = error Exists\n",
    ),
    (
        Link(64, 65, "gggggg"),
        " link 64 65 gggggg = error TooManyLinks\n",
    ),
    (Link(64, 80, "a"), " link 64 80 a = error TooManyLinks\n"),
    (Unlink(0, "000000"), " unlink 0 000000 = ok\n"),
    (Link(64, 80, "a"), " link 64 80 a = ok\n"),
    (Stat(0), " stat 0 = stat dir 18 16\n"),
];

// The digit with this value.
fn hex_digit(value: u16) -> u8 {
    b"0123456789abcdef"
        .get(value as usize)
        .copied()
        .unwrap_or(b'?')
}

// A link of the file in a directory: the name has three hex digits, each twice, so all lie in one bucket.
fn linked(rt: &impl Abort, alloc: Global, dir: u32, number: u16) -> Call
    ensures { IsReadable result }
{
    let (high, middle, low) = (
        hex_digit(number / 256),
        hex_digit(number / 16 % 16),
        hex_digit(number % 16),
    );
    let name = got(
        rt,
        Name::new(alloc, &[high, high, middle, middle, low, low]),
    );
    Call::Link {
        file: NodeId(64),
        dir: NodeId(dir),
        name,
    }
}

// Links the file in a directory by the names from one number up to another.
fn link_all(trial: &mut Trial, rt: &impl Abort, alloc: Global, dir: u32, from: u16, to: u16) {
    for number in from..to {
        trial.assert_call(rt, linked(rt, alloc, dir, number), " = ok\n");
    }
}

#[test]
fn a_bucket_is_full_at_4096_rows(rt: HostRuntime) {
    let alloc = rt.alloc();
    let mut trial = got(&rt, root_alone(alloc, 2048));
    trial.assert_all(&rt, &FILE);
    link_all(&mut trial, &rt, alloc, 0, 1, 4096);
    trial.assert_all(&rt, &FULL);
}

// Links the file by 4,096 names in each directory from one number up to another.
fn link_in_each(trial: &mut Trial, rt: &impl Abort, alloc: Global, from: u32, to: u32) {
    for dir in from..to {
        link_all(trial, rt, alloc, dir, 0, 4096);
    }
}

// Links the file in fifteen directories by 4,096 names, and in the sixteenth by 4,094.
fn link_in_all(trial: &mut Trial, rt: &impl Abort, alloc: Global) {
    link_in_each(trial, rt, alloc, 65, 80);
    link_all(trial, rt, alloc, 80, 0, 4094);
}

#[test]
fn a_file_has_at_most_65535_links(rt: HostRuntime) {
    let alloc = rt.alloc();
    let mut trial = got(&rt, root_alone(alloc, 2048));
    trial.assert_all(&rt, &FILE);
    trial.assert_all(&rt, &DIRECTORIES);
    link_in_all(&mut trial, &rt, alloc);
    trial.assert_all(&rt, &LINKED);
}

// Makes a file in the root by a core.
fn make_by(rt: &impl Abort, trial: &mut Trial, alloc: Global, core: u8, name: &str) -> Reply
    requires { core < 2 }
{
    let call = made(rt, alloc, 0, name, Kind::File);
    got(rt, trial.step(core, &call))
}

fn is_node(reply: &Reply, due: u32) -> bool {
    match reply {
        Reply::Node { node, kind: _ } => node.0 == due,
        _ => false,
    }
}

fn is_error(reply: &Reply, due: Code) -> bool {
    match reply {
        Reply::Error { code } => *code == due,
        _ => false,
    }
}

// Asserts that a core makes a file of this name, whose number is the due one.
fn assert_made(trial: &mut Trial, rt: &impl Abort, alloc: Global, made: (u8, &str), due: u32)
    requires { made.0 < 2 }
{
    let reply = make_by(rt, trial, alloc, made.0, made.1);
    holds(rt, is_node(&reply, due));
}

// Asserts that a core is refused a file of this name with the due code.
fn assert_refused(trial: &mut Trial, rt: &impl Abort, alloc: Global, made: (u8, &str), due: Code)
    requires { made.0 < 2 }
{
    let reply = make_by(rt, trial, alloc, made.0, made.1);
    holds(rt, is_error(&reply, due));
}

#[test]
fn two_cores_number_their_own_nodes(rt: HostRuntime) {
    let alloc = rt.alloc();
    let mut trial = got(&rt, root_alone(alloc, 1));
    assert_made(&mut trial, &rt, alloc, (0, "a"), 64);
    assert_refused(&mut trial, &rt, alloc, (0, "b"), Code::NoNodes);
    assert_refused(&mut trial, &rt, alloc, (1, "a"), Code::Exists);
    assert_made(&mut trial, &rt, alloc, (1, "b"), 65);
}
