// Scripts: lines in and outside the grammar, phases and limits.
use crate::helpers::{got, holds, same, same_at, same_list};
use script::{Command, LONGEST_SCRIPT, MOST_LINES, ScriptFault, read};
use sfs_base::Measure;
use std::alloc::Global;
use std::process::Abort;

// Lines in the grammar, and what of it each shows.
static INSIDE: [(&str, &str); 33] = [
    ("0 create /a", "each verb"),
    ("0 mkdir /a", "each verb"),
    ("0 link /a /b", "each verb"),
    ("0 unlink /a", "each verb"),
    ("0 rmdir /a", "each verb"),
    ("0 rename /a /b", "each verb"),
    ("0 write /a 0 00", "each verb"),
    ("0 read /a 0 1", "each verb"),
    ("0 trunc /a 0", "each verb"),
    ("0 stat /a", "each verb"),
    ("0 list /a", "each verb"),
    ("65535 stat /", "the last worker, and the root"),
    ("10 list /", "a zero that is not the first digit"),
    ("0 fsync /", "each verb, and the root is a path"),
    ("0 fsync /a", "an fsync of another node than the root"),
    ("0 write / 0 00", "the root, which the call refuses"),
    ("0 link / /a", "the first path of a link may be the root"),
    ("0 mkdir /a/b/c", "several names"),
    (
        "0 mkdir /!\"#$&'()*+,-.:;<=>?@[]^_`{|}~",
        "bytes that stand for themselves",
    ),
    ("0 mkdir /a%20b", "an escaped space"),
    ("0 mkdir /%41%2e%2E%fF%0a", "digits of either case"),
    ("0 mkdir /%25", "an escaped `%`"),
    ("0 mkdir /...", "three dots are a name"),
    ("0 mkdir /%2e%2E.", "three dots with escapes"),
    ("0 mkdir /.a", "a name that begins with a dot"),
    ("0 write /a 18446744073709551615 ff", "the last offset"),
    ("0 write /a 0 -", "no bytes"),
    ("0 write /a 0 aBcDeF09", "hex of either case"),
    (
        "0 read /a 18446744073709551615 65536",
        "the last offset and the largest count",
    ),
    ("0 read /a 0 0", "a count of nothing"),
    ("0 trunc /a 18446744073709551615", "the last size"),
    ("0 create /-", "a name that looks like no bytes"),
    ("0 create /---", "a name that looks like the end of a phase"),
];

// Lines outside the grammar, and why.
static OUTSIDE: [(&str, &str); 55] = [
    ("x", "one word"),
    (" ", "two empty words"),
    (" # no comment", "a comment begins with `#`"),
    (" ---", "a blank before the end of a phase"),
    ("--- ", "a blank behind it"),
    ("--", "two dashes"),
    ("----", "four dashes"),
    ("0", "a worker alone"),
    ("0 stat", "no argument"),
    ("0 stat ", "an empty argument"),
    ("0 stat / ", "an empty second argument"),
    ("0 stat / /", "an argument too many"),
    ("0  stat /", "two spaces"),
    (" 0 stat /", "a space first"),
    ("0\tstat /", "a tab for a space"),
    ("0 stat /\r", "a return before the end"),
    ("0 Stat /", "an upper-case verb"),
    ("0 remove /a", "no verb"),
    ("0 look /a", "a call that is no verb"),
    ("65536 stat /", "past the last worker"),
    ("00 stat /", "a leading zero"),
    ("01 stat /", "a leading zero"),
    ("-1 stat /", "a sign"),
    ("+1 stat /", "a sign"),
    ("0x1 stat /", "no decimal digits"),
    ("184467440737095516160 stat /", "a worker past 64 bits"),
    ("0 mkdir /", "the root has no name"),
    ("0 rename / /a", "the root has no name"),
    ("0 link /a /", "the root has no name"),
    ("0 rename /a", "one path of two"),
    ("0 link /a", "one path of two"),
    ("0 mkdir a", "a path begins with `/`"),
    ("0 stat a/b", "a path begins with `/`"),
    ("0 mkdir /a/", "an empty last name"),
    ("0 mkdir //a", "an empty first name"),
    ("0 mkdir /a//b", "an empty name"),
    ("0 mkdir /.", "`.` is no name"),
    ("0 mkdir /..", "`..` is no name"),
    ("0 mkdir /%2e", "`.` is no name"),
    ("0 stat /.%2E/a", "`..` is no name"),
    ("0 mkdir /a%2Fb", "an escaped `/`"),
    ("0 mkdir /a%2fb", "an escaped `/`"),
    ("0 mkdir /a%00b", "a byte 0"),
    ("0 mkdir /a%", "an escape cut short"),
    ("0 mkdir /a%4", "an escape cut short"),
    ("0 mkdir /%4/1", "an escape cut by `/`"),
    ("0 mkdir /%%41", "an escape of `%`"),
    ("0 mkdir /%4g", "no hex digit"),
    ("0 mkdir /\u{e9}", "bytes above 126"),
    ("0 write /a 18446744073709551616 00", "past the last offset"),
    ("0 write /a 0 0", "one hex digit"),
    ("0 write /a 0 ", "no hex digits"),
    ("0 write /a 0 0g", "no hex digit"),
    ("0 write /a 00 00", "a leading zero"),
    ("0 trunc /a 01", "a leading zero"),
];

// More lines outside the grammar, by one argument.
static ARGUMENTS: [(&str, &str); 9] = [
    ("0 read /a 0 65537", "past the largest count"),
    ("0 read /a 0 01", "a leading zero"),
    ("0 read /a 0", "no count"),
    ("0 read /a 0 -", "a dash for a count"),
    ("0 read /a  1", "an empty offset"),
    ("0 trunc /a 1 1", "an argument too many"),
    ("0 write /a 0 00 00", "an argument too many"),
    ("0 write /a 0 --", "two dashes for bytes"),
    ("0 trunc /a 18446744073709551616", "past the last size"),
];

// Asserts the first line outside the grammar.
fn assert_bad(rt: &impl Abort, alloc: Global, script: &[u8], due: u32, reason: &str) {
    match read(alloc, script) {
        Err(ScriptFault::BadLine { line }) => same_at(rt, &line, &due, reason),
        _ => panic!(rt; "another answer: {reason}"),
    }
}

// Asserts how many lines each phase has.
fn assert_phases(rt: &impl Abort, alloc: Global, script: &[u8], due: &[usize]) {
    let script = got(rt, read(alloc, script));
    let mut counts = Vec::new(alloc);
    for phase in script.phases() {
        got(rt, counts.push(phase.lines().len()));
    }
    same_list(rt, counts.as_slice(), due);
}

// A line that makes a directory with a name of so many bytes.
fn line_of(rt: &impl Abort, alloc: Global, count: usize) -> Vec<u8> {
    let mut line = got(rt, Vec::from_slice(alloc, b"0 mkdir /".as_slice()));
    got(
        rt,
        line.extend_from_slice(&got(rt, vec![in alloc; b'n'; count])),
    );
    line
}

// Asserts that each of these lines is in the grammar.
fn assert_inside(rt: &impl Abort, alloc: Global, lines: &[(&str, &str)]) {
    for (line, reason) in lines {
        match read(alloc, line.as_bytes()) {
            Ok(script) => match script.phases() {
                [phase] => same_at(rt, &phase.lines().len(), &1, reason),
                _ => panic!(rt; "several phases: {line}"),
            },
            Err(_) => panic!(rt; "refused: {line}: {reason}"),
        }
    }
}

// Asserts that each of these lines is outside the grammar.
fn assert_outside(rt: &impl Abort, alloc: Global, lines: &[(&str, &str)]) {
    for (line, reason) in lines {
        assert_bad(rt, alloc, line.as_bytes(), 1, reason);
    }
}

#[test]
fn lines_are_in_the_grammar(rt: HostRuntime) {
    assert_inside(&rt, rt.alloc(), INSIDE.as_slice());
}

#[test]
fn lines_are_outside_the_grammar(rt: HostRuntime) {
    let alloc = rt.alloc();
    assert_outside(&rt, alloc, OUTSIDE.as_slice());
    assert_outside(&rt, alloc, ARGUMENTS.as_slice());
    assert_bad(
        &rt,
        alloc,
        b"0 mkdir /\x7f".as_slice(),
        1,
        "a byte above 126",
    );
    assert_bad(&rt, alloc, b"0 mkdir /a\0".as_slice(), 1, "a byte below 33");
}

#[test]
fn a_name_has_255_bytes_at_most(rt: HostRuntime) {
    let alloc = rt.alloc();
    let script = got(&rt, read(alloc, &line_of(&rt, alloc, 255)));
    match script.phases() {
        [phase] => match phase.lines() {
            [line] => assert_mkdir(&rt, &line.command, &got(&rt, vec![in alloc; b'n'; 255])),
            _ => panic!(rt; "not one line"),
        },
        _ => panic!(rt; "not one phase"),
    }
    assert_bad(&rt, alloc, &line_of(&rt, alloc, 256), 1, "256 bytes");
}

// Asserts that a command makes the directory with this name in the root.
fn assert_mkdir(rt: &impl Abort, command: &Command, due: &[u8]) {
    match command {
        Command::Mkdir { path } => {
            same(rt, &path.parent().len(), &0);
            same_list(rt, path.name().bytes(), due);
        }
        _ => panic!(rt; "another command"),
    }
}

#[test]
fn a_path_has_4096_bytes_at_most(rt: HostRuntime) {
    let alloc = rt.alloc();
    let mut line = got(&rt, Vec::from_slice(alloc, b"0 stat ".as_slice()));
    for _ in 0..2048 {
        got(&rt, line.extend_from_slice(b"/n".as_slice()));
    }
    assert_phases(&rt, alloc, &line, [1].as_slice());
    got(&rt, line.push(b'n'));
    assert_bad(&rt, alloc, &line, 1, "4,097 bytes");
}

#[test]
fn a_write_has_65536_bytes_at_most(rt: HostRuntime) {
    let alloc = rt.alloc();
    let mut line = got(&rt, Vec::from_slice(alloc, b"0 write /a 0 ".as_slice()));
    got(
        &rt,
        line.extend_from_slice(&got(&rt, vec![in alloc; b'0'; 131_072])),
    );
    assert_phases(&rt, alloc, &line, [1].as_slice());
    got(&rt, line.extend_from_slice(b"00".as_slice()));
    assert_bad(&rt, alloc, &line, 1, "65,537 bytes");
}

#[test]
fn phases_end_and_lines_are_skipped(rt: HostRuntime) {
    let alloc = rt.alloc();
    assert_phases(&rt, alloc, b"".as_slice(), [0].as_slice());
    assert_phases(
        &rt,
        alloc,
        b"\n\n#\n# \xff\x00\n".as_slice(),
        [0].as_slice(),
    );
    assert_phases(&rt, alloc, b"---".as_slice(), [0, 0].as_slice());
    assert_phases(&rt, alloc, b"---\n---\n".as_slice(), [0, 0, 0].as_slice());
    let script = b"0 stat /\n\n1 stat /\n---\n# two\n0 stat /\n---\n1 stat /\n0 stat /\n2 stat /";
    assert_phases(&rt, alloc, script.as_slice(), [2, 1, 3].as_slice());
}

#[test]
fn the_first_bad_line_is_named(rt: HostRuntime) {
    let alloc = rt.alloc();
    assert_bad(&rt, alloc, b"0 rename /a".as_slice(), 1, "one path");
    assert_bad(&rt, alloc, b"0 mkdir /a\nx".as_slice(), 2, "no command");
    assert_bad(
        &rt,
        alloc,
        b"\n#\n---\nx\ny\n".as_slice(),
        4,
        "skipped lines count",
    );
    assert_bad(
        &rt,
        alloc,
        b"0 stat /\nx".as_slice(),
        2,
        "the last line without its end",
    );
    assert_bad(
        &rt,
        alloc,
        b"0 stat /\nx\n0 stat /\n".as_slice(),
        2,
        "a line in the middle",
    );
}

#[test]
fn scripts_have_limits(rt: HostRuntime) {
    let alloc = rt.alloc();
    same(&rt, &LONGEST_SCRIPT, &16_777_216);
    same(&rt, &MOST_LINES, &262_144);
    let mut script = got(&rt, vec![in alloc; b'#'; LONGEST_SCRIPT]);
    assert_phases(&rt, alloc, &script, [0].as_slice());
    got(&rt, script.push(b'#'));
    assert_too_long(&rt, alloc, &script, Measure::Bytes);
    let mut script = got(&rt, vec![in alloc; b'\n'; MOST_LINES]);
    assert_phases(&rt, alloc, &script, [0].as_slice());
    got(&rt, script.push(b'#'));
    assert_too_long(&rt, alloc, &script, Measure::Lines);
    let script = got(&rt, vec![in alloc; b'\n'; LONGEST_SCRIPT + 1]);
    assert_too_long(&rt, alloc, &script, Measure::Bytes);
}

// Asserts in what a script is too long.
fn assert_too_long(rt: &impl Abort, alloc: Global, script: &[u8], due: Measure) {
    match read(alloc, script) {
        Err(ScriptFault::TooLong { measure }) => same(rt, &measure, &due),
        _ => panic!(rt; "another answer"),
    }
}

// How many lines there are in some bytes.
fn lines_in(bytes: &[u8]) -> usize {
    let mut count = 0usize;
    let mut open = false;
    for byte in bytes {
        if !open {
            count = count.saturating_add(1);
        }
        open = *byte != b'\n';
    }
    count
}

#[test]
fn each_prefix_is_read_or_refused_at_its_last_line(rt: HostRuntime) {
    let alloc = rt.alloc();
    let script =
        b"# a script\n0 mkdir /a%20b\n1 create /c\n---\n0 link /c /a%20b/d\n\n0 write /c 12 00fF\n1 read /c 0 65536\n0 rename /a%20b/d /e\n1 trunc /c 10".as_slice();
    let mut refused = 0usize;
    let mut prefix = Vec::new(alloc);
    for byte in script {
        match read(alloc, &prefix) {
            Ok(_) => {}
            Err(ScriptFault::BadLine { line }) => {
                same(&rt, &(line as usize), &lines_in(&prefix));
                refused = refused.saturating_add(1);
            }
            Err(_) => panic!(rt; "another fault"),
        }
        got(&rt, prefix.push(*byte));
    }
    holds(&rt, refused > 50);
    same(&rt, &got(&rt, read(alloc, &prefix)).phases().len(), &2);
}

#[test]
fn a_command_has_its_arguments(rt: HostRuntime) {
    let alloc = rt.alloc();
    let script = read(alloc, b"513 write /d%2f%2Fe".as_slice());
    holds(&rt, script.is_err());
    let script = got(
        &rt,
        read(
            alloc,
            b"513 write /d/%41%2e~ 18446744073709551615 00fF7a".as_slice(),
        ),
    );
    match script.phases() {
        [phase] => match phase.lines() {
            [line] => {
                same(&rt, &line.worker, &513);
                assert_write(&rt, &line.command);
            }
            _ => panic!(rt; "not one line"),
        },
        _ => panic!(rt; "not one phase"),
    }
}

// Asserts that a command writes three bytes at the last offset of `/d/A.~`.
fn assert_write(rt: &impl Abort, command: &Command) {
    match command {
        Command::Write { path, at, bytes } => {
            match path.names() {
                [first, second] => {
                    same_list(rt, first.bytes(), b"d".as_slice());
                    same_list(rt, second.bytes(), b"A.~".as_slice());
                }
                _ => panic!(rt; "not two names"),
            }
            same(rt, at, &u64::MAX);
            same_list(rt, bytes.bytes(), [0, 255, 122].as_slice());
        }
        _ => panic!(rt; "another command"),
    }
}
