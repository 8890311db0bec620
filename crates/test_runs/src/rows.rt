// Whole runs of one worker or two over a fresh image, with their texts worked out by hand.
use crate::bench::{
    SMALL, Size, assert_only_read, assert_text, assert_text_among, ends, fresh, image, run_alone,
    run_between, run_script,
};
use crate::helpers::{got, holds, same, same_list};
use scalefs_run::Status;
use sfs_base::Measure;
use sfs_dev::Disk;
use std::alloc::Global;
use std::ops::Range;
use std::process::Abort;
use std::sync::Wait;
use std::thread::Threads;

// Scripts over the image with few inodes, with their texts, worked out by hand: two names of one file; a directory that
// would move below itself; one that moves onto an empty one, and one that can't onto another; bytes put, cut and read; each kind of
// node with its refusals; an escaped name.
static TEXTS: [(&str, &str); 6] = [
    (
        "0 create /a\n0 link /a /b\n0 rename /a /b\n0 list /\n0 stat /a\n",
        "0 0 create 0 a = node 64 file\n1 0 look 0 a = node 64 file\n2 0 link 64 0 b = ok\n3 0 rename 0 a 0 b = ok\n4 0 list 0 = list a b\n5 0 look 0 a = node 64 file\n6 0 stat 64 = stat file 2 0\n",
    ),
    (
        "0 mkdir /a\n0 mkdir /a/b\n0 rename /a /a/b/c\n",
        "0 0 mkdir 0 a = node 64 dir\n1 0 look 0 a = node 64 dir\n2 0 mkdir 64 b = node 65 dir\n3 0 look 0 a = node 64 dir\n4 0 look 64 b = node 65 dir\n5 0 rename 0 a 65 c = error Invalid\n",
    ),
    (
        "0 mkdir /a\n0 mkdir /b\n0 mkdir /c\n0 mkdir /c/x\n0 rename /a /b\n0 rename /b /c\n",
        "0 0 mkdir 0 a = node 64 dir\n1 0 mkdir 0 b = node 65 dir\n2 0 mkdir 0 c = node 66 dir\n3 0 look 0 c = node 66 dir\n4 0 mkdir 66 x = node 67 dir\n5 0 rename 0 a 0 b = ok\n6 0 rename 0 b 0 c = error NotEmpty\n",
    ),
    (
        "0 create /f\n0 write /f 3 6869\n0 read /f 0 10\n0 trunc /f 1\n0 trunc /f 3\n0 read /f 0 10\n0 read /f 5 1\n0 write /f 9 -\n0 stat /f\n",
        "0 0 create 0 f = node 64 file\n1 0 look 0 f = node 64 file\n2 0 write 64 3 6869 = ok\n3 0 look 0 f = node 64 file\n4 0 read 64 0 10 = bytes 0000006869\n5 0 look 0 f = node 64 file\n6 0 trunc 64 1 = ok\n7 0 look 0 f = node 64 file\n8 0 trunc 64 3 = ok\n9 0 look 0 f = node 64 file\n10 0 read 64 0 10 = bytes 000000\n11 0 look 0 f = node 64 file\n12 0 read 64 5 1 = bytes -\n13 0 look 0 f = node 64 file\n14 0 write 64 9 - = ok\n15 0 look 0 f = node 64 file\n16 0 stat 64 = stat file 1 3\n",
    ),
    (
        "0 create /f\n0 mkdir /d\n0 rmdir /f\n0 unlink /d\n0 rename /d /f\n0 rename /f /d\n0 link /d /e\n0 mkdir /d\n0 unlink /g\n0 read /d 0 1\n0 stat /f/x\n",
        "0 0 create 0 f = node 64 file\n1 0 mkdir 0 d = node 65 dir\n2 0 rmdir 0 f = error NotDir\n3 0 unlink 0 d = error NotPermitted\n4 0 rename 0 d 0 f = error NotDir\n5 0 rename 0 f 0 d = error IsDir\n6 0 look 0 d = node 65 dir\n7 0 link 65 0 e = error NotPermitted\n8 0 mkdir 0 d = error Exists\n9 0 unlink 0 g = error NoEntry\n10 0 look 0 d = node 65 dir\n11 0 read 65 0 1 = error IsDir\n12 0 look 0 f = node 64 file\n13 0 look 64 x = error NotDir\n",
    ),
    ("0 mkdir /a%20b\n", "0 0 mkdir 0 a%20b = node 64 dir\n"),
];

// Scripts of two workers with each text that they may have: whose call of a phase comes first is not told.
static EITHER: [(&str, &[&str]); 2] = [
    (
        "0 create /a\n1 create /b\n",
        &[
            "0 0 create 0 a = node 64 file\n1 1 create 0 b = node 2112 file\n",
            "0 1 create 0 b = node 2112 file\n1 0 create 0 a = node 64 file\n",
        ],
    ),
    (
        "1 create /b\n0 create /a\n---\n1 unlink /a\n0 unlink /b\n",
        &[
            "0 0 create 0 a = node 64 file\n1 1 create 0 b = node 2112 file\n2 0 unlink 0 b = ok\n3 1 unlink 0 a = ok\n",
            "0 0 create 0 a = node 64 file\n1 1 create 0 b = node 2112 file\n2 1 unlink 0 a = ok\n3 0 unlink 0 b = ok\n",
            "0 1 create 0 b = node 2112 file\n1 0 create 0 a = node 64 file\n2 0 unlink 0 b = ok\n3 1 unlink 0 a = ok\n",
            "0 1 create 0 b = node 2112 file\n1 0 create 0 a = node 64 file\n2 1 unlink 0 a = ok\n3 0 unlink 0 b = ok\n",
        ],
    ),
];

// Scripts that are refused, with the first line outside the grammar.
static BAD_LINES: [(&str, u32); 7] = [
    ("0 mkdir /a%2Fb", 1),
    ("0 mkdir /", 1),
    ("0 mkdir /a/", 1),
    ("0 rename /a", 1),
    ("0 mkdir /a\nx", 2),
    ("# none\n\n0 fsync a\n", 3),
    ("0 mkdir /a\n---\n---x\n", 3),
];

// Words behind `run` that are no number of new nodes, with the place that is bad.
static BAD_NODES: [(&str, u32); 6] = [
    ("0", 1),
    ("65537", 1),
    ("01", 1),
    ("x", 1),
    ("", 1),
    ("-1", 0),
];

// Asserts that a script has this status, and that the disk was not touched.
fn assert_refused<R: Threads + Wait + Sync + Abort>(
    rt: &R,
    alloc: Global,
    script: &[u8],
    status: Status,
) {
    let ran = run_script(rt, alloc, script, image(rt, alloc, SMALL));
    same(rt, &ran.status, &status);
    holds(rt, ran.history.is_empty());
    holds(rt, ran.text.is_empty());
    same(rt, &ran.disk.now(), &0);
}

// Asserts that a script has this status on an image of this size, without a call, and that the image was only read.
fn assert_no_calls<R: Threads + Wait + Sync + Abort>(
    rt: &R,
    alloc: Global,
    script: &[u8],
    size: Size,
    status: Status,
) {
    let ran = run_script(rt, alloc, script, image(rt, alloc, size));
    same(rt, &ran.status, &status);
    holds(rt, ran.history.is_empty());
    holds(rt, ran.text.is_empty());
    assert_only_read(rt, &ran.disk);
}

// The status of a run of a script with a number of new nodes, and its text.
fn run_nodes<R: Threads + Wait + Sync + Abort>(
    rt: &R,
    alloc: Global,
    nodes: &str,
    script: &str,
) -> (Status, Vec<u8>) {
    let mut words = run_alone(rt, alloc);
    got(rt, words.push(got(rt, String::from_str(alloc, nodes))));
    let (source, sink) = ends(rt, alloc, script.as_bytes());
    let ran = run_between(rt, alloc, &words, source, sink, image(rt, alloc, SMALL));
    (ran.status, ran.text)
}

// Asserts the same of each of these.
fn assert_texts<R: Threads + Wait + Sync + Abort>(rt: &R, alloc: Global, cases: &[(&str, &str)]) {
    for (script, text) in cases {
        assert_text(rt, alloc, script, image(rt, alloc, SMALL), text);
    }
}

#[test]
fn scripts_have_their_texts(rt: HostRuntime) {
    assert_texts(&rt, rt.alloc(), &TEXTS);
}

#[test]
fn two_workers_have_one_of_the_texts_of_a_phase(rt: HostRuntime) {
    for (script, texts) in &EITHER {
        let disk = image(&rt, rt.alloc(), SMALL);
        assert_text_among(&rt, rt.alloc(), script, disk, texts);
    }
}

// Asserts that each of these is refused at its line.
fn assert_bad_lines<R: Threads + Wait + Sync + Abort>(
    rt: &R,
    alloc: Global,
    cases: &[(&str, u32)],
) {
    for (script, line) in cases {
        let status = Status::BadScript { line: *line };
        assert_refused(rt, alloc, script.as_bytes(), status);
    }
}

#[test]
fn the_first_bad_line_is_named(rt: HostRuntime) {
    assert_bad_lines(&rt, rt.alloc(), &BAD_LINES);
}

#[test]
fn a_core_makes_its_share_of_the_nodes(rt: HostRuntime) {
    let script = "0 create /a\n0 create /b\n---\n1 create /b\n";
    let due =
        "0 0 create 0 a = node 64 file\n1 0 create 0 b = error NoNodes\n2 1 create 0 b = node 65 file\n";
    let (status, text) = run_nodes(&rt, rt.alloc(), "2", script);
    same(&rt, &status, &Status::Done);
    same_list(&rt, text.as_slice(), due.as_bytes());
    let (_, text) = run_nodes(&rt, rt.alloc(), "65536", "1 create /a\n");
    same_list(
        &rt,
        text.as_slice(),
        "0 1 create 0 a = node 32832 file\n".as_bytes(),
    );
}

// Asserts that each of these is bad at its place.
fn assert_bad_nodes<R: Threads + Wait + Sync + Abort>(
    rt: &R,
    alloc: Global,
    cases: &[(&str, u32)],
) {
    for (nodes, place) in cases {
        let (status, _) = run_nodes(rt, alloc, nodes, "0 create /a\n");
        same(rt, &status, &Status::BadWords { place: *place });
    }
}

#[test]
fn a_bad_number_of_nodes_has_its_place(rt: HostRuntime) {
    assert_bad_nodes(&rt, rt.alloc(), &BAD_NODES);
}

#[test]
fn a_worker_without_a_core_is_named(rt: HostRuntime) {
    let alloc = rt.alloc();
    let script = b"0 mkdir /a\n---\n2 mkdir /b\n7 mkdir /c\n".as_slice();
    let status = Status::TooManyWorkers { asked: 2, have: 2 };
    assert_no_calls(&rt, alloc, script, SMALL, status);
    // The image says how many cores there are.
    let status = Status::TooManyWorkers { asked: 7, have: 3 };
    assert_no_calls(&rt, alloc, script, (1024, 64, 3), status);
    let script = "0 mkdir /a\n1 mkdir /b\n";
    let status = Status::TooManyWorkers { asked: 1, have: 1 };
    assert_no_calls(&rt, alloc, script.as_bytes(), (1024, 64, 1), status);
    let status = Status::TooManyWorkers {
        asked: 16,
        have: 16,
    };
    let text = "0 15 mkdir 0 a = node 3904 dir\n";
    assert_no_calls(
        &rt,
        alloc,
        b"16 mkdir /a".as_slice(),
        (1024, 64, 16),
        status,
    );
    assert_text(
        &rt,
        alloc,
        "15 mkdir /a",
        image(&rt, alloc, (1024, 64, 16)),
        text,
    );
}

// So many lines that are comments.
fn comments(rt: &impl Abort, alloc: Global, count: u32) -> Vec<u8> {
    let mut lines = Vec::new(alloc);
    for _ in 0..count {
        got(rt, lines.extend_from_slice(b"#\n".as_slice()));
    }
    lines
}

#[test]
fn a_script_past_262144_lines_is_too_long(rt: HostRuntime) {
    let alloc = rt.alloc();
    let measure = Measure::Lines;
    let lines = comments(&rt, alloc, 262_145);
    assert_refused(&rt, alloc, &lines, Status::TooLong { measure });
    let lines = comments(&rt, alloc, 262_144);
    assert_no_calls(&rt, alloc, &lines, SMALL, Status::Done);
}

// A script that makes a directory with a name of so many bytes.
fn long_name(rt: &impl Abort, alloc: Global, count: usize) -> Vec<u8> {
    let mut script = got(rt, Vec::from_slice(alloc, b"0 mkdir /".as_slice()));
    let name = got(rt, vec![in alloc; b'n'; count]);
    got(rt, script.extend_from_slice(&name));
    script
}

#[test]
fn a_name_has_255_bytes_at_most(rt: HostRuntime) {
    let alloc = rt.alloc();
    let ran = run_script(&rt, alloc, &long_name(&rt, alloc, 255), fresh(&rt, alloc));
    holds(&rt, ran.text.ends_with(b"n = node 1024 dir\n".as_slice()));
    assert_refused(
        &rt,
        alloc,
        &long_name(&rt, alloc, 256),
        Status::BadScript { line: 1 },
    );
}

// The digit with this value.
fn hex_digit(value: u16) -> u8 {
    b"0123456789abcdef"
        .get(value as usize)
        .copied()
        .unwrap_or(b'?')
}

// Adds lines that give a file names with these numbers in a directory: each is three hex digits, each written twice, and lies in bucket 0.
fn add_links(
    rt: &impl Abort,
    script: &mut Vec<u8>,
    file: &str,
    directory: &str,
    numbers: Range<u16>,
) {
    for i in numbers {
        let (high, middle, low) = (
            hex_digit(i / 256),
            hex_digit(i / 16 % 16),
            hex_digit(i % 16),
        );
        add(rt, script, "0 link ");
        add(rt, script, file);
        add(rt, script, " ");
        add(rt, script, directory);
        let name = [b'/', high, high, middle, middle, low, low, b'\n'];
        got(rt, script.extend_from_slice(&name));
    }
}

// Adds a text.
fn add(rt: &impl Abort, script: &mut Vec<u8>, text: &str) {
    got(rt, script.extend_from_slice(text.as_bytes()));
}

// A script that fills a bucket.
fn full_bucket(rt: &impl Abort, alloc: Global) -> Vec<u8> {
    let mut script = Vec::new(alloc);
    add(rt, &mut script, "0 create /000000\n");
    add_links(rt, &mut script, "/000000", "", 1..4096);
    add(
        rt,
        &mut script,
        "0 link /000000 /gggggg\n0 link /000000 /a\n",
    );
    script
}

#[test]
fn a_bucket_holds_4096_rows(rt: HostRuntime) {
    let alloc = rt.alloc();
    let ran = run_script(
        &rt,
        alloc,
        &full_bucket(&rt, alloc),
        image(&rt, alloc, SMALL),
    );
    same(&rt, &ran.status, &Status::Done);
    holds(
        &rt,
        ran.text.ends_with(
            b"8191 0 look 0 000000 = node 64 file\n8192 0 link 64 0 gggggg = error DirFull\n8193 0 look 0 000000 = node 64 file\n8194 0 link 64 0 a = ok\n".as_slice(),
        ),
    );
}

// Directories in which a file has 65,535 names: 4,096 in each but the last.
static SIXTEEN: [(&str, u16, u16); 16] = [
    ("/0", 1, 4096),
    ("/1", 0, 4096),
    ("/2", 0, 4096),
    ("/3", 0, 4096),
    ("/4", 0, 4096),
    ("/5", 0, 4096),
    ("/6", 0, 4096),
    ("/7", 0, 4096),
    ("/8", 0, 4096),
    ("/9", 0, 4096),
    ("/a", 0, 4096),
    ("/b", 0, 4096),
    ("/c", 0, 4096),
    ("/d", 0, 4096),
    ("/e", 0, 4096),
    ("/f", 0, 4095),
];

// A script that gives a file so many names, and one more.
fn most_links(rt: &impl Abort, alloc: Global) -> Vec<u8> {
    let mut script = Vec::new(alloc);
    for (directory, _, _) in &SIXTEEN {
        add(rt, &mut script, "0 mkdir ");
        add(rt, &mut script, directory);
        add(rt, &mut script, "\n");
    }
    add(rt, &mut script, "0 create /0/000000\n");
    for (directory, from, to) in &SIXTEEN {
        add_links(rt, &mut script, "/0/000000", directory, *from..*to);
    }
    add(
        rt,
        &mut script,
        "0 link /0/000000 /f/ffffff\n0 stat /0/000000\n",
    );
    script
}

#[test]
fn a_file_has_65535_names_at_most(rt: HostRuntime) {
    let alloc = rt.alloc();
    let ran = run_script(
        &rt,
        alloc,
        &most_links(&rt, alloc),
        image(&rt, alloc, SMALL),
    );
    same(&rt, &ran.status, &Status::Done);
    holds(
        &rt,
        ran.text.ends_with(
            b"\n262157 0 link 80 79 ffffff = error TooManyLinks\n262158 0 look 0 0 = node 64 dir\n262159 0 look 64 000000 = node 80 file\n262160 0 stat 80 = stat file 65535 0\n".as_slice(),
        ),
    );
}
