// Lists of words that ask for something, and lists that are bad at a place.
use crate::helpers::{got, same_at};
use std::alloc::Global;
use std::process::Abort;
use words::{Command, WordsFault, command_asked};

// Words and what they ask for.
static ASKED: [(&[&str], Answer); 28] = [
    (&["show"], Answer::Show),
    (&["run"], Answer::Run(4096)),
    (&["run", "1"], Answer::Run(1)),
    (&["run", "65536"], Answer::Run(65_536)),
    (&["mkfs", "8", "16", "1"], Answer::Mkfs(8, 16, 1, 1)),
    (&["mkfs", "1024", "64", "2"], Answer::Mkfs(1024, 64, 2, 1)),
    (
        &["mkfs", "262144", "16384", "16"],
        Answer::Mkfs(262_144, 16_384, 16, 1),
    ),
    (&["mkfs", "8", "16", "1", "1"], Answer::Mkfs(8, 16, 1, 1)),
    (
        &["mkfs", "262144", "16384", "16", "8"],
        Answer::Mkfs(262_144, 16_384, 16, 8),
    ),
    (&["run", "2"], Answer::Run(2)),
    (&["mkfs", "9", "16", "1"], Answer::Mkfs(9, 16, 1, 1)),
    (&["mkfs", "64", "16", "1"], Answer::Mkfs(64, 16, 1, 1)),
    (&["mkfs", "8", "16", "2"], Answer::Mkfs(8, 16, 2, 1)),
    (&["mkfs", "31", "64", "2"], Answer::Mkfs(31, 64, 2, 1)),
    (&["mkfs", "32", "64", "2"], Answer::Mkfs(32, 64, 2, 1)),
    (
        &["mkfs", "16384", "2048", "4"],
        Answer::Mkfs(16_384, 2048, 4, 1),
    ),
    (
        &["mkfs", "1024", "64", "2", "2"],
        Answer::Mkfs(1024, 64, 2, 2),
    ),
    (
        &["mkfs", "1024", "64", "2", "1"],
        Answer::Mkfs(1024, 64, 2, 1),
    ),
    (
        &["mkfs", "262144", "16384", "16", "2"],
        Answer::Mkfs(262_144, 16_384, 16, 2),
    ),
    (&["load", "0", "1", "1"], Answer::Load(0, 1, 1)),
    (&["load", "5", "100", "4"], Answer::Load(5, 100, 4)),
    (&["load", "7", "1000", "16"], Answer::Load(7, 1000, 16)),
    (&["load", "1", "4", "1"], Answer::Load(1, 4, 1)),
    (
        &["load", "4294967295", "4000", "16"],
        Answer::Load(4_294_967_295, 4000, 16),
    ),
    (&["check"], Answer::Check(4096)),
    (&["check", "1"], Answer::Check(1)),
    (&["check", "65536"], Answer::Check(65_536)),
    (&["verify"], Answer::Verify),
];

// Words that are no command, or of which one begins with `-`.
static NO_COMMAND: [&[&str]; 75] = [
    &[],
    &[""],
    &[" "],
    &["help"],
    &["version"],
    &["Run"],
    &["runs"],
    &["ru"],
    &["run "],
    &[" run"],
    &["run 1"],
    &["run\n"],
    &["list"],
    &["help", "run"],
    &["help", "mkfs"],
    &["mount"],
    &["MKFS", "1024", "64", "2"],
    &["1024", "64", "2"],
    &["0"],
    &["run", "1", "2"],
    &["run", "1", "2", "3"],
    &["run", "", ""],
    &["show", "1"],
    &["show", ""],
    &["show", "show"],
    &["show", "a", "b", "c", "d", "e"],
    &["mkfs"],
    &["mkfs", "8"],
    &["mkfs", "8", "16"],
    &["mkfs", "8", "16", "1", "1", "1"],
    &["mkfs", "8", "16", "1", "1", "1", "1"],
    &["load"],
    &["load", "1"],
    &["load", "1", "4"],
    &["load", "1", "4", "1", "1"],
    &["load", "1", "4", "1", "1", "1"],
    &["load", "load"],
    &["--help"],
    &["-h"],
    &["-"],
    &["--"],
    &["-V"],
    &["--version"],
    &["run", "-1"],
    &["run", "--help"],
    &["run", "-h"],
    &["show", "--help"],
    &["show", "-"],
    &["--", "run"],
    &["run", "--", "1"],
    &["mkfs", "-8", "16", "1"],
    &["mkfs", "8", "-16", "1"],
    &["mkfs", "8", "16", "-1"],
    &["mkfs", "8", "16", "1", "-1"],
    &["load", "-1", "4", "1"],
    &["load", "1", "-4", "1"],
    &["load", "1", "4", "-1"],
    &["mkfs", "x", "-"],
    &["run", "99999999", "-x"],
    &["Check"],
    &["chec"],
    &["checks"],
    &["check", "1", "2"],
    &["check", "", ""],
    &["check", "-1"],
    &["check", "--help"],
    &["help", "check"],
    &["Verify"],
    &["verif"],
    &["verify", ""],
    &["verify", "1"],
    &["verify", "verify"],
    &["verify", "-"],
    &["verify", "--help"],
    &["help", "verify"],
];

// Words with numbers, and the place of the first that is none of its range.
static BAD_NUMBERS: [(&[&str], u32); 56] = [
    (&["check", "0"], 1),
    (&["check", "65537"], 1),
    (&["check", "01"], 1),
    (&["check", ""], 1),
    (&["check", "a"], 1),
    (&["check", "1 "], 1),
    (&["check", "18446744073709551617"], 1),
    (&["run", "0"], 1),
    (&["run", "65537"], 1),
    (&["run", "01"], 1),
    (&["run", "00"], 1),
    (&["run", "+1"], 1),
    (&["run", "1 "], 1),
    (&["run", " 1"], 1),
    (&["run", ""], 1),
    (&["run", "a"], 1),
    (&["run", "1a"], 1),
    (&["run", "0x10"], 1),
    (&["run", "1.0"], 1),
    (&["run", "4294967297"], 1),
    (&["run", "18446744073709551617"], 1),
    (&["run", "٣"], 1),
    (&["mkfs", "7", "16", "1"], 1),
    (&["mkfs", "262145", "16", "1"], 1),
    (&["mkfs", "08", "16", "1"], 1),
    (&["mkfs", "", "16", "1"], 1),
    (&["mkfs", "x", "y", "z"], 1),
    (&["mkfs", "0", "0", "0", "0"], 1),
    (&["mkfs", "8", "15", "1"], 2),
    (&["mkfs", "8", "16385", "1"], 2),
    (&["mkfs", "8", "016", "1"], 2),
    (&["mkfs", "8", "", "1"], 2),
    (&["mkfs", "8", "x", "y", "z"], 2),
    (&["mkfs", "8", "16", "0"], 3),
    (&["mkfs", "8", "16", "17"], 3),
    (&["mkfs", "8", "16", "+1"], 3),
    (&["mkfs", "8", "16", ""], 3),
    (&["mkfs", "8", "16", "17", "9"], 3),
    (&["mkfs", "8", "16", "1", "0"], 4),
    (&["mkfs", "8", "16", "1", "9"], 4),
    (&["mkfs", "1024", "64", "2", "9"], 4),
    (&["mkfs", "8", "16", "1", "01"], 4),
    (&["mkfs", "8", "16", "1", ""], 4),
    (&["mkfs", "8", "16", "1", "8 "], 4),
    (&["load", "4294967296", "4", "1"], 1),
    (&["load", "00", "4", "1"], 1),
    (&["load", "", "4", "1"], 1),
    (&["load", "x", "0", "0"], 1),
    (&["load", "0", "0", "1"], 2),
    (&["load", "0", "4001", "1"], 2),
    (&["load", "0", "", "1"], 2),
    (&["load", "0", "04", "17"], 2),
    (&["load", "0", "1", "0"], 3),
    (&["load", "0", "1", "17"], 3),
    (&["load", "0", "1", ""], 3),
    (&["load", "0", "1", "1 "], 3),
];

// What words came to.
#[derive(Clone, Copy, Debug, PartialEq)]
enum Answer {
    Show,
    Run(u32),
    Mkfs(u32, u32, u32, u32),
    Load(u32, u32, u32),
    Check(u32),
    Verify,
    Bad(u32),
    NoMemory,
}

fn answer_to(rt: &impl Abort, alloc: Global, words: &[&str]) -> Answer {
    let mut list = Vec::new(alloc);
    for word in words {
        got(rt, list.push(got(rt, String::from_str(alloc, word))));
    }
    match command_asked(alloc, &list) {
        Ok(command) => match command {
            Command::Show => Answer::Show,
            Command::Run { nodes } => Answer::Run(nodes),
            Command::Mkfs {
                blocks,
                inodes,
                cores,
                slots,
            } => Answer::Mkfs(blocks, inodes, cores, slots),
            Command::Load {
                seed,
                count,
                workers,
            } => Answer::Load(seed, count, workers),
            Command::Check { nodes } => Answer::Check(nodes),
            Command::Verify => Answer::Verify,
        },
        Err(fault) => match fault {
            WordsFault::BadWords { place } => Answer::Bad(place),
            WordsFault::NoMemory => Answer::NoMemory,
        },
    }
}

fn assert_asked(rt: &impl Abort, alloc: Global, rows: &[(&[&str], Answer)]) {
    for (row, (words, wanted)) in rows.iter().enumerate() {
        same_at(rt, &answer_to(rt, alloc, words), wanted, row);
    }
}

fn assert_none(rt: &impl Abort, alloc: Global, rows: &[&[&str]]) {
    for (row, words) in rows.iter().enumerate() {
        same_at(rt, &answer_to(rt, alloc, words), &Answer::Bad(0), row);
    }
}

fn assert_faulty(rt: &impl Abort, alloc: Global, rows: &[(&[&str], u32)]) {
    for (row, (words, place)) in rows.iter().enumerate() {
        same_at(rt, &answer_to(rt, alloc, words), &Answer::Bad(*place), row);
    }
}

#[test]
fn words_ask_for_commands(rt: HostRuntime) {
    assert_asked(&rt, rt.alloc(), &ASKED);
}

// Too few words and too many, signs, zeros before a number, spaces, empty words, numbers outside of their ranges at each place, words that
// are no command, and clap's own.
#[test]
fn faulty_words_are_named_by_their_place(rt: HostRuntime) {
    assert_none(&rt, rt.alloc(), &NO_COMMAND);
    assert_faulty(&rt, rt.alloc(), &BAD_NUMBERS);
}
