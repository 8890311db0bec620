// Texts of histories over the image that is just made: legal ones, with their entries, and wrong ones, each with its first wrong line.
use crate::calls::{assert_only_read, done, edited, made};
use crate::helpers::{got, holds, same, same_at, same_list_at};
use scalefs_run::Status;
use std::alloc::Global;
use std::process::Abort;
use std::sync::Wait;
use std::thread::Threads;

// Scripts, and how many calls they make.
static SCRIPTS: [(&str, u64); 6] = [
    ("0 mkdir /a\n0 fsync /\n", 2),
    (
        "0 create /a\n0 link /a /b\n0 rename /a /b\n0 list /\n0 stat /a\n",
        7,
    ),
    ("0 mkdir /a\n0 mkdir /a/b\n0 rename /a /a/b/c\n", 6),
    (
        "0 mkdir /a\n0 mkdir /b\n0 mkdir /c\n0 mkdir /c/x\n0 rename /a /b\n0 rename /b /c\n",
        7,
    ),
    ("0 create /a\n1 create /b\n", 2),
    (
        "0 create /f\n0 write /f 3 6869\n0 read /f 0 10\n0 trunc /f 1\n0 trunc /f 3\n0 read /f 0 10\n0 read /f 5 1\n0 write /f 9 -\n",
        15,
    ),
];

// A text that `check` is given with some words, its status, and what is written.
struct Given {
    words: &'static [&'static str],
    text: &'static str,
    status: Status,
    written: &'static str,
}

// Texts over the image that is just made. Core 0 makes nodes from 64 on. Where each core may make 2,048 nodes, core 1 begins at 2,112, and
// where it may make one, at 65.
static GIVEN: [Given; 15] = [
    Given {
        words: &["check"],
        text: "",
        status: Status::Done,
        written: "legal 0 entries\n",
    },
    Given {
        words: &["check"],
        text: "0 0 create 0 a = node 64 file\n1 0 look 0 a = node 64 file\n2 0 link 64 0 b = ok\n3 0 rename 0 a 0 b = ok\n4 0 list 0 = list a b\n5 0 look 0 a = node 64 file\n6 0 stat 64 = stat file 2 0\n",
        status: Status::Done,
        written: "legal 7 entries\n",
    },
    // The rows of the listing in another order.
    Given {
        words: &["check"],
        text: "0 0 create 0 a = node 64 file\n1 0 look 0 a = node 64 file\n2 0 link 64 0 b = ok\n3 0 rename 0 a 0 b = ok\n4 0 list 0 = list b a\n5 0 look 0 a = node 64 file\n6 0 stat 64 = stat file 2 0\n",
        status: Status::WrongHistory { line: 5 },
        written: "",
    },
    // The last line has no end, and then it has one.
    Given {
        words: &["check"],
        text: "0 0 mkdir 0 a = node 64 dir\n1 0 fsync 0 = ok",
        status: Status::WrongHistory { line: 2 },
        written: "",
    },
    Given {
        words: &["check"],
        text: "0 0 mkdir 0 a = node 64 dir\n1 0 fsync 0 = ok\n",
        status: Status::Done,
        written: "legal 2 entries\n",
    },
    // Both orders of two creations, and neither with the other's stamps.
    Given {
        words: &["check"],
        text: "0 0 create 0 a = node 64 file\n1 1 create 0 b = node 2112 file\n",
        status: Status::Done,
        written: "legal 2 entries\n",
    },
    Given {
        words: &["check", "4096"],
        text: "0 1 create 0 b = node 2112 file\n1 0 create 0 a = node 64 file\n",
        status: Status::Done,
        written: "legal 2 entries\n",
    },
    Given {
        words: &["check"],
        text: "1 0 create 0 a = node 64 file\n0 1 create 0 b = node 2112 file\n",
        status: Status::WrongHistory { line: 1 },
        written: "",
    },
    // A stamp is left out.
    Given {
        words: &["check"],
        text: "0 0 stat 0 = stat dir 2 0\n2 0 stat 0 = stat dir 2 0\n",
        status: Status::WrongHistory { line: 2 },
        written: "",
    },
    // One node a core; with more of them the second creation finds a number.
    Given {
        words: &["check", "2"],
        text: "0 0 create 0 a = node 64 file\n1 0 create 0 b = error NoNodes\n2 1 create 0 b = node 65 file\n",
        status: Status::Done,
        written: "legal 3 entries\n",
    },
    Given {
        words: &["check", "4"],
        text: "0 0 create 0 a = node 64 file\n1 0 create 0 b = error NoNodes\n2 1 create 0 b = node 65 file\n",
        status: Status::WrongHistory { line: 2 },
        written: "",
    },
    // A core that the image has not.
    Given {
        words: &["check"],
        text: "0 1 stat 0 = stat dir 2 0\n1 2 stat 0 = stat dir 2 0\n",
        status: Status::WrongHistory { line: 2 },
        written: "",
    },
    // Each answer that an fsync of a live node may have, and one of a node that there is not.
    Given {
        words: &["check"],
        text: "0 0 fsync 0 = ok\n1 0 fsync 0 = failed\n2 0 fsync 0 = stopped 3\n3 0 fsync 0 = nomemory\n4 1 fsync 0 = nospace blocks need 2 free 1\n5 1 fsync 9 = error NoEntry\n",
        status: Status::Done,
        written: "legal 6 entries\n",
    },
    Given {
        words: &["check"],
        text: "0 0 fsync 9 = ok\n",
        status: Status::WrongHistory { line: 1 },
        written: "",
    },
    // An empty line, and one outside of the grammar.
    Given {
        words: &["check"],
        text: "0 0 stat 0 = stat dir 2 0\n\nx\n",
        status: Status::WrongHistory { line: 2 },
        written: "",
    },
];

// Asserts what `check` does with a text. The image has no slot open, so it is only read.
fn assert_given<R: Threads + Wait + Sync + Abort>(
    rt: &R,
    alloc: Global,
    given: &Given,
    place: usize,
) {
    let ran = done(
        rt,
        alloc,
        given.words,
        given.text.as_bytes(),
        made(rt, alloc),
    );
    same_at(rt, &ran.status, &given.status, place);
    same_list_at(rt, ran.text.as_slice(), given.written.as_bytes(), place);
    same_at(rt, &ran.calls, &0, place);
    assert_only_read(rt, &ran.disk);
}

#[test]
fn texts_are_legal_or_wrong_at_their_first_wrong_line(rt: HostRuntime) {
    for (place, given) in GIVEN.iter().enumerate() {
        assert_given(&rt, rt.alloc(), given, place);
    }
}

// Asserts that the text of a script's run is legal over the image that the script began with.
fn assert_legal<R: Threads + Wait + Sync + Abort>(
    rt: &R,
    alloc: Global,
    script: &str,
    count: u64,
    place: usize,
) {
    let ran = done(rt, alloc, &["run"], script.as_bytes(), made(rt, alloc));
    same_at(rt, &ran.calls, &count, place);
    let check = done(rt, alloc, &["check"], ran.text.as_slice(), made(rt, alloc));
    same_at(rt, &check.status, &Status::Done, place);
    let line = got(rt, format!(in alloc; "legal {count} entries\n"));
    same_list_at(rt, check.text.as_slice(), line.as_bytes(), place);
}

#[test]
fn the_text_of_a_run_is_legal(rt: HostRuntime) {
    for (place, (script, count)) in SCRIPTS.iter().enumerate() {
        assert_legal(&rt, rt.alloc(), script, *count, place);
    }
}

#[test]
fn a_history_begins_with_the_image_that_is_checked(rt: HostRuntime) {
    let alloc = rt.alloc();
    // The directory is there already.
    let text = b"0 0 mkdir 0 a = node 64 dir\n".as_slice();
    let ran = done(&rt, alloc, &["check"], text, edited(&rt, alloc, &[]));
    same(&rt, &ran.status, &Status::WrongHistory { line: 1 });
    let text = b"0 0 mkdir 0 a = error Exists\n1 0 look 0 a = node 1 dir\n".as_slice();
    let ran = done(&rt, alloc, &["check"], text, edited(&rt, alloc, &[]));
    same(&rt, &ran.status, &Status::Done);
    holds(&rt, ran.text.as_slice() == b"legal 2 entries\n".as_slice());
}
