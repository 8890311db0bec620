// Workers on a tree that holds as much as it may: a file with as many names as a file may have, of which the plain tree is not asked since
// it counts them anew at each call, and a bucket with as many rows.
ghost use Rattle.std.specs.List.{AllByRecursion};
ghost use Rattle.script.specs.Ready.{LinesMayRun};

use crate::helpers::{got, holds};
use crate::judged::{follows, is_legal};
use crate::played::{first_tree, phases_in, played};
use script::Script;
use sfs_base::NoGate;
use std::alloc::Global;
use std::process::Abort;
use std::sync::Wait;
use std::thread::Threads;
use tree_laws::{Code, History, Reply};
use workers::Plainly;

// How many names a file may have, and how many of these the names in four directories are, beside its first one.
const MOST_NAMES: u32 = 65_535;

// How many rows a bucket may have.
const MOST_ROWS: u32 = 4_096;

// The digit with this value.
fn digit(value: u32) -> u8 {
    b"0123456789abcdef"
        .get(value as usize % 16)
        .copied()
        .unwrap_or(b'?')
}

// Writes a line by which a worker gives the file one name more, in a directory of one letter.
fn write_link(rt: &impl Abort, text: &mut Vec<u8>, directory: u8, name: &[u8]) {
    got(rt, text.extend_from_slice(b"0 link /f /"));
    got(rt, text.push(directory));
    got(rt, text.push(b'/'));
    got(rt, text.extend_from_slice(name));
    got(rt, text.push(b'\n'));
}

// Names in four directories, so many that the file has as many as it may.
fn write_names(rt: &impl Abort, text: &mut Vec<u8>) {
    for number in 1..MOST_NAMES {
        let name = [
            digit(number / 4096),
            digit(number / 256),
            digit(number / 16),
            digit(number),
        ];
        let directory = b"abcd".get(number as usize % 4).copied().unwrap_or(b'a');
        write_link(rt, text, directory, name.as_slice());
    }
}

// As many names as a bucket may have rows: each digit stands twice, so all of them lie in bucket 0.
fn write_rows(rt: &impl Abort, text: &mut Vec<u8>) {
    for number in 0..MOST_ROWS {
        let (high, middle, low) = (digit(number / 256), digit(number / 16), digit(number));
        write_link(
            rt,
            text,
            b'a',
            [high, high, middle, middle, low, low].as_slice(),
        );
    }
}

// How many calls were refused, and how many of them for this.
fn refusals(history: &History, wanted: Code) -> (u64, u64) {
    let mut cursor = history.first();
    let mut all = 0u64;
    let mut found = 0u64;
    for _ in 0..history.len() {
        let Some(entry) = history.next(&mut cursor) else {
            break;
        };
        if let Reply::Error { code } = &entry.reply {
            all = all.saturating_add(1);
            if *code == wanted {
                found = found.saturating_add(1);
            }
        }
    }
    (all, found)
}

// The history of a script of two workers, of which exactly so many calls are refused, and for this.
fn refused<R: Threads + Wait + Sync + Abort>(
    rt: &R,
    alloc: Global,
    script: &Script,
    code: Code,
    wanted: u64,
) -> History
    requires { AllByRecursion LinesMayRun script.now }
{
    let run = played(rt, alloc, script, 100, 2, Plainly::Acknowledges, &NoGate);
    holds(rt, run.ended);
    holds(rt, refusals(&run.history, code) == (wanted, wanted));
    run.history
}

#[test]
fn a_file_has_65535_names_at_most(rt: HostRuntime) {
    let alloc = rt.alloc();
    let begin = b"0 create /f\n0 mkdir /a\n0 mkdir /b\n0 mkdir /c\n0 mkdir /d\n";
    let mut text = got(&rt, begin.as_slice().to_vec(alloc));
    write_names(&rt, &mut text);
    let end =
        b"---\n0 link /f /a/x\n1 link /f /b/x\n---\n1 unlink /b/0001\n---\n0 link /f /a/x\n---\n1 link /f /b/x\n";
    got(&rt, text.extend_from_slice(end));
    let script = phases_in(&rt, alloc, text.as_slice());
    let history = refused(&rt, alloc, &script, Code::TooManyLinks, 3);
    holds(&rt, history.len() > 2 * MOST_NAMES as u64);
}

#[test]
fn a_bucket_has_4096_rows_at_most(rt: HostRuntime) {
    let alloc = rt.alloc();
    let begin = b"0 create /f\n0 mkdir /a\n";
    let mut text = got(&rt, begin.as_slice().to_vec(alloc));
    write_rows(&rt, &mut text);
    let end =
        b"---\n0 link /f /a/gggggg\n1 link /f /a/hhhhhh\n---\n1 unlink /a/000000\n---\n0 link /f /a/gggggg\n---\n1 link /f /a/hhhhhh\n";
    got(&rt, text.extend_from_slice(end));
    let script = phases_in(&rt, alloc, text.as_slice());
    let history = refused(&rt, alloc, &script, Code::DirFull, 3);
    holds(&rt, follows(&rt, alloc, &history, &script, 2));
    let tree = first_tree(&rt, alloc, 100, 2);
    holds(&rt, is_legal(&rt, &history, tree, 2, &Reply::Ok));
}
