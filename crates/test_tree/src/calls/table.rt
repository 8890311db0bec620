// Each line of the table of the calls, in its order, and longer runs of calls.
use super::Asked::{
    self, Create, Fsync, Link, List, Look, Mkdir, Read, Rename, Rmdir, Stat, Trunc, Unlink, Write,
};
use super::{assert_from_root, root_alone};
use crate::helpers::got;
use std::alloc::Global;
use std::process::Abort;

// A root with a file `f` of number 64, a directory `d` of number 65 with a file `x` of number 66 in it, and an
// empty directory `e` of number 67. No node has the number 99.
static SMALL: [(Asked, &str); 4] = [
    (Create(0, "f"), " create 0 f = node 64 file\n"),
    (Mkdir(0, "d"), " mkdir 0 d = node 65 dir\n"),
    (Create(65, "x"), " create 65 x = node 66 file\n"),
    (Mkdir(0, "e"), " mkdir 0 e = node 67 dir\n"),
];

// Look, in the small tree.
static LOOK: [(Asked, &str); 5] = [
    (Look(99, "f"), " look 99 f = error NoEntry\n"),
    (Look(64, "f"), " look 64 f = error NotDir\n"),
    (Look(65, "f"), " look 65 f = error NoEntry\n"),
    (Look(0, "f"), " look 0 f = node 64 file\n"),
    (Look(0, "d"), " look 0 d = node 65 dir\n"),
];

// Making nodes, in the small tree, where a core makes eight.
static MAKE: [(Asked, &str); 11] = [
    (Create(99, "f"), " create 99 f = error NoEntry\n"),
    (Create(64, "f"), " create 64 f = error NotDir\n"),
    (Mkdir(0, "f"), " mkdir 0 f = error Exists\n"),
    (Mkdir(65, "0"), " mkdir 65 0 = node 68 dir\n"),
    (Mkdir(65, "1"), " mkdir 65 1 = node 69 dir\n"),
    (Mkdir(65, "2"), " mkdir 65 2 = node 70 dir\n"),
    (Mkdir(65, "3"), " mkdir 65 3 = node 71 dir\n"),
    (Create(65, "f"), " create 65 f = error NoNodes\n"),
    (Create(65, "0"), " create 65 0 = error Exists\n"),
    (Stat(68), " stat 68 = stat dir 2 0\n"),
    (Stat(65), " stat 65 = stat dir 6 5\n"),
];

// Links, in the small tree.
static LINK: [(Asked, &str); 8] = [
    (Link(99, 99, "f"), " link 99 99 f = error NoEntry\n"),
    (Link(65, 99, "f"), " link 65 99 f = error NotPermitted\n"),
    (Link(64, 99, "f"), " link 64 99 f = error NoEntry\n"),
    (Link(64, 66, "f"), " link 64 66 f = error NotDir\n"),
    (Link(64, 0, "f"), " link 64 0 f = error Exists\n"),
    (Link(64, 65, "f"), " link 64 65 f = ok\n"),
    (Look(65, "f"), " look 65 f = node 64 file\n"),
    (Stat(64), " stat 64 = stat file 2 0\n"),
];

// Unlink, in the small tree.
static UNLINK: [(Asked, &str); 7] = [
    (Unlink(99, "f"), " unlink 99 f = error NoEntry\n"),
    (Unlink(64, "f"), " unlink 64 f = error NotDir\n"),
    (Unlink(65, "f"), " unlink 65 f = error NoEntry\n"),
    (Unlink(0, "d"), " unlink 0 d = error NotPermitted\n"),
    (Unlink(0, "f"), " unlink 0 f = ok\n"),
    (Stat(64), " stat 64 = error NoEntry\n"),
    (Unlink(0, "f"), " unlink 0 f = error NoEntry\n"),
];

// Rmdir, in the small tree.
static RMDIR: [(Asked, &str); 8] = [
    (Rmdir(99, "d"), " rmdir 99 d = error NoEntry\n"),
    (Rmdir(64, "d"), " rmdir 64 d = error NotDir\n"),
    (Rmdir(65, "d"), " rmdir 65 d = error NoEntry\n"),
    (Rmdir(0, "f"), " rmdir 0 f = error NotDir\n"),
    (Rmdir(0, "d"), " rmdir 0 d = error NotEmpty\n"),
    (Rmdir(0, "e"), " rmdir 0 e = ok\n"),
    (Stat(67), " stat 67 = error NoEntry\n"),
    (Stat(0), " stat 0 = stat dir 3 2\n"),
];

// Renames, in the small tree.
static RENAME: [(Asked, &str); 14] = [
    (
        Rename(99, "f", 64, "g"),
        " rename 99 f 64 g = error NoEntry\n",
    ),
    (
        Rename(64, "f", 99, "g"),
        " rename 64 f 99 g = error NotDir\n",
    ),
    (
        Rename(0, "f", 99, "g"),
        " rename 0 f 99 g = error NoEntry\n",
    ),
    (Rename(0, "g", 64, "g"), " rename 0 g 64 g = error NotDir\n"),
    (
        Rename(0, "g", 65, "g"),
        " rename 0 g 65 g = error NoEntry\n",
    ),
    (Rename(0, "d", 0, "d"), " rename 0 d 0 d = ok\n"),
    (
        Rename(0, "d", 65, "x"),
        " rename 0 d 65 x = error Invalid\n",
    ),
    (Rename(0, "d", 0, "f"), " rename 0 d 0 f = error NotDir\n"),
    (Rename(0, "f", 0, "d"), " rename 0 f 0 d = error IsDir\n"),
    (Rename(0, "e", 0, "d"), " rename 0 e 0 d = error NotEmpty\n"),
    (Rename(0, "d", 67, "g"), " rename 0 d 67 g = ok\n"),
    (Look(67, "g"), " look 67 g = node 65 dir\n"),
    (Look(0, "d"), " look 0 d = error NoEntry\n"),
    (Look(65, "x"), " look 65 x = node 66 file\n"),
];

// Bytes, in the small tree.
static BYTES: [(Asked, &str); 12] = [
    (Write(99, 0, "b"), " write 99 0 62 = error NoEntry\n"),
    (Write(65, 0, "b"), " write 65 0 62 = error IsDir\n"),
    (
        Write(64, 67551232, "b"),
        " write 64 67551232 62 = error FileTooBig\n",
    ),
    (Write(64, 0, "b"), " write 64 0 62 = ok\n"),
    (Read(99, 0, 1), " read 99 0 1 = error NoEntry\n"),
    (Read(65, 0, 1), " read 65 0 1 = error IsDir\n"),
    (Read(64, 0, 1), " read 64 0 1 = bytes 62\n"),
    (Trunc(99, 0), " trunc 99 0 = error NoEntry\n"),
    (Trunc(65, 0), " trunc 65 0 = error IsDir\n"),
    (
        Trunc(64, 67551233),
        " trunc 64 67551233 = error FileTooBig\n",
    ),
    (Trunc(64, 0), " trunc 64 0 = ok\n"),
    (Read(64, 0, 1), " read 64 0 1 = bytes -\n"),
];

// Nodes, in the small tree.
static NODES: [(Asked, &str); 10] = [
    (Stat(99), " stat 99 = error NoEntry\n"),
    (Stat(0), " stat 0 = stat dir 4 3\n"),
    (Stat(66), " stat 66 = stat file 1 0\n"),
    (List(99), " list 99 = error NoEntry\n"),
    (List(64), " list 64 = error NotDir\n"),
    (List(0), " list 0 = list d/ e/ f\n"),
    (List(67), " list 67 = list\n"),
    (Fsync(99), " fsync 99 = error NoEntry\n"),
    (Fsync(0), " fsync 0 = ok\n"),
    (Fsync(66), " fsync 66 = ok\n"),
];

// Two names of one file.
static TWO_NAMES: [(Asked, &str); 7] = [
    (Create(0, "a"), " create 0 a = node 64 file\n"),
    (Look(0, "a"), " look 0 a = node 64 file\n"),
    (Link(64, 0, "b"), " link 64 0 b = ok\n"),
    (Rename(0, "a", 0, "b"), " rename 0 a 0 b = ok\n"),
    (List(0), " list 0 = list a b\n"),
    (Look(0, "a"), " look 0 a = node 64 file\n"),
    (Stat(64), " stat 64 = stat file 2 0\n"),
];

// A directory that would move below itself, and others that may move.
static BELOW: [(Asked, &str); 12] = [
    (Mkdir(0, "a"), " mkdir 0 a = node 64 dir\n"),
    (Mkdir(64, "b"), " mkdir 64 b = node 65 dir\n"),
    (Mkdir(65, "b"), " mkdir 65 b = node 66 dir\n"),
    (
        Rename(0, "a", 65, "c"),
        " rename 0 a 65 c = error Invalid\n",
    ),
    (
        Rename(0, "a", 66, "c"),
        " rename 0 a 66 c = error Invalid\n",
    ),
    (
        Rename(0, "a", 64, "c"),
        " rename 0 a 64 c = error Invalid\n",
    ),
    (Rename(65, "b", 0, "c"), " rename 65 b 0 c = ok\n"),
    (Rename(0, "a", 66, "a"), " rename 0 a 66 a = ok\n"),
    (
        Rename(0, "c", 65, "c"),
        " rename 0 c 65 c = error Invalid\n",
    ),
    (Stat(66), " stat 66 = stat dir 3 1\n"),
    (Stat(0), " stat 0 = stat dir 3 1\n"),
    (Stat(65), " stat 65 = stat dir 2 0\n"),
];

// A directory that takes the place of an empty one, and not of one with rows.
static ONTO_EMPTY: [(Asked, &str); 12] = [
    (Mkdir(0, "a"), " mkdir 0 a = node 64 dir\n"),
    (Mkdir(0, "b"), " mkdir 0 b = node 65 dir\n"),
    (Mkdir(0, "c"), " mkdir 0 c = node 66 dir\n"),
    (Look(0, "c"), " look 0 c = node 66 dir\n"),
    (Mkdir(66, "x"), " mkdir 66 x = node 67 dir\n"),
    (Stat(0), " stat 0 = stat dir 5 3\n"),
    (Rename(0, "a", 0, "b"), " rename 0 a 0 b = ok\n"),
    (Rename(0, "b", 0, "c"), " rename 0 b 0 c = error NotEmpty\n"),
    (List(0), " list 0 = list b/ c/\n"),
    (Look(0, "b"), " look 0 b = node 64 dir\n"),
    (Stat(65), " stat 65 = error NoEntry\n"),
    (Stat(0), " stat 0 = stat dir 4 2\n"),
];

// Refusals by kind.
static KINDS: [(Asked, &str); 11] = [
    (Create(0, "f"), " create 0 f = node 64 file\n"),
    (Mkdir(0, "d"), " mkdir 0 d = node 65 dir\n"),
    (Rmdir(0, "f"), " rmdir 0 f = error NotDir\n"),
    (Unlink(0, "d"), " unlink 0 d = error NotPermitted\n"),
    (Rename(0, "d", 0, "f"), " rename 0 d 0 f = error NotDir\n"),
    (Rename(0, "f", 0, "d"), " rename 0 f 0 d = error IsDir\n"),
    (Link(65, 0, "e"), " link 65 0 e = error NotPermitted\n"),
    (Mkdir(0, "d"), " mkdir 0 d = error Exists\n"),
    (Unlink(0, "g"), " unlink 0 g = error NoEntry\n"),
    (Read(65, 0, 1), " read 65 0 1 = error IsDir\n"),
    (Look(64, "x"), " look 64 x = error NotDir\n"),
];

// A file that takes the place of another.
static ONTO_FILE: [(Asked, &str); 10] = [
    (Create(0, "f"), " create 0 f = node 64 file\n"),
    (Mkdir(0, "d"), " mkdir 0 d = node 65 dir\n"),
    (Create(65, "g"), " create 65 g = node 66 file\n"),
    (Rename(0, "f", 65, "g"), " rename 0 f 65 g = ok\n"),
    (Look(0, "f"), " look 0 f = error NoEntry\n"),
    (Look(65, "g"), " look 65 g = node 64 file\n"),
    (Stat(66), " stat 66 = error NoEntry\n"),
    (Stat(64), " stat 64 = stat file 1 0\n"),
    (Stat(65), " stat 65 = stat dir 2 1\n"),
    (Stat(0), " stat 0 = stat dir 3 1\n"),
];

// Zeros in a gap and behind a cut.
static GAPS: [(Asked, &str); 9] = [
    (Create(0, "f"), " create 0 f = node 64 file\n"),
    (Write(64, 3, "hi"), " write 64 3 6869 = ok\n"),
    (Read(64, 0, 10), " read 64 0 10 = bytes 0000006869\n"),
    (Trunc(64, 1), " trunc 64 1 = ok\n"),
    (Trunc(64, 3), " trunc 64 3 = ok\n"),
    (Read(64, 0, 10), " read 64 0 10 = bytes 000000\n"),
    (Read(64, 5, 1), " read 64 5 1 = bytes -\n"),
    (Write(64, 9, ""), " write 64 9 - = ok\n"),
    (Stat(64), " stat 64 = stat file 1 3\n"),
];

// Bytes put over others.
static OVER: [(Asked, &str); 10] = [
    (Create(0, "f"), " create 0 f = node 64 file\n"),
    (Write(64, 0, "abcdef"), " write 64 0 616263646566 = ok\n"),
    (Write(64, 2, "XY"), " write 64 2 5859 = ok\n"),
    (
        Read(64, 0, 65535),
        " read 64 0 65535 = bytes 616258596566\n",
    ),
    (Read(64, 1, 3), " read 64 1 3 = bytes 625859\n"),
    (Write(64, 5, "pq"), " write 64 5 7071 = ok\n"),
    (Read(64, 4, 10), " read 64 4 10 = bytes 657071\n"),
    (Trunc(64, 3), " trunc 64 3 = ok\n"),
    (Write(64, 5, "z"), " write 64 5 7a = ok\n"),
    (Read(64, 0, 10), " read 64 0 10 = bytes 61625800007a\n"),
];

// The largest file.
static LARGEST: [(Asked, &str); 9] = [
    (Create(0, "f"), " create 0 f = node 64 file\n"),
    (
        Trunc(64, 67551233),
        " trunc 64 67551233 = error FileTooBig\n",
    ),
    (
        Write(64, 67551232, "x"),
        " write 64 67551232 78 = error FileTooBig\n",
    ),
    (
        Write(64, 18446744073709551615, "x"),
        " write 64 18446744073709551615 78 = error FileTooBig\n",
    ),
    (
        Write(64, 18446744073709551615, ""),
        " write 64 18446744073709551615 - = ok\n",
    ),
    (Stat(64), " stat 64 = stat file 1 0\n"),
    (Write(64, 67551231, "x"), " write 64 67551231 78 = ok\n"),
    (Stat(64), " stat 64 = stat file 1 67551232\n"),
    (
        Read(64, 67551230, 10),
        " read 64 67551230 10 = bytes 0078\n",
    ),
];

// Asserts the text of each of these calls, in the small tree.
fn assert_in_small(rt: &impl Abort, alloc: Global, cases: &[(Asked, &str)]) {
    let mut trial = got(rt, root_alone(alloc, 8));
    trial.assert_all(rt, &SMALL);
    trial.assert_all(rt, cases);
}

#[test]
fn each_line_of_look(rt: HostRuntime) {
    assert_in_small(&rt, rt.alloc(), &LOOK);
}

#[test]
fn each_line_of_make(rt: HostRuntime) {
    assert_in_small(&rt, rt.alloc(), &MAKE);
}

#[test]
fn each_line_of_link(rt: HostRuntime) {
    assert_in_small(&rt, rt.alloc(), &LINK);
}

#[test]
fn each_line_of_unlink(rt: HostRuntime) {
    assert_in_small(&rt, rt.alloc(), &UNLINK);
}

#[test]
fn each_line_of_rmdir(rt: HostRuntime) {
    assert_in_small(&rt, rt.alloc(), &RMDIR);
}

#[test]
fn each_line_of_rename(rt: HostRuntime) {
    assert_in_small(&rt, rt.alloc(), &RENAME);
}

#[test]
fn each_line_of_write_read_and_trunc(rt: HostRuntime) {
    assert_in_small(&rt, rt.alloc(), &BYTES);
}

#[test]
fn each_line_of_stat_list_and_fsync(rt: HostRuntime) {
    assert_in_small(&rt, rt.alloc(), &NODES);
}

#[test]
fn two_rows_name_one_file(rt: HostRuntime) {
    assert_from_root(&rt, rt.alloc(), 2048, &TWO_NAMES);
}

#[test]
fn a_directory_does_not_move_below_itself(rt: HostRuntime) {
    assert_from_root(&rt, rt.alloc(), 2048, &BELOW);
}

#[test]
fn a_directory_takes_the_place_of_an_empty_one(rt: HostRuntime) {
    assert_from_root(&rt, rt.alloc(), 2048, &ONTO_EMPTY);
}

#[test]
fn each_kind_refuses_the_other(rt: HostRuntime) {
    assert_from_root(&rt, rt.alloc(), 2048, &KINDS);
}

#[test]
fn a_file_takes_the_place_of_another(rt: HostRuntime) {
    assert_from_root(&rt, rt.alloc(), 2048, &ONTO_FILE);
}

#[test]
fn zeros_lie_in_a_gap_and_behind_a_cut(rt: HostRuntime) {
    assert_from_root(&rt, rt.alloc(), 2048, &GAPS);
}

#[test]
fn bytes_are_put_over_those_that_are_there(rt: HostRuntime) {
    assert_from_root(&rt, rt.alloc(), 2048, &OVER);
}

#[test]
fn a_file_has_at_most_67551232_bytes(rt: HostRuntime) {
    assert_from_root(&rt, rt.alloc(), 2048, &LARGEST);
}
