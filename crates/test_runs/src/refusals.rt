// Words and scripts that are refused before the disk is touched.
use crate::bench::{Ran, ends, fresh, run_alone, run_between, run_script};
use crate::helpers::{got, holds, same};
use scalefs_run::Status;
use sfs_base::Measure;
use sfs_dev::{Disk, Memory};
use std::alloc::Global;
use std::process::Abort;
use std::sync::Wait;
use std::thread::Threads;

// Asserts that nothing happened but the status.
fn assert_untouched(rt: &impl Abort, ran: &Ran<Memory>) {
    holds(rt, ran.history.is_empty());
    holds(rt, ran.text.is_empty());
    same(rt, &ran.disk.now(), &0);
}

// Runs the smallest script with these words.
fn run_words<R: Threads + Wait + Sync + Abort>(
    rt: &R,
    alloc: Global,
    words: &[String],
) -> Ran<Memory> {
    let (source, sink) = ends(rt, alloc, b"0 mkdir /a\n".as_slice());
    run_between(rt, alloc, words, source, sink, fresh(rt, alloc))
}

#[test]
fn only_the_word_run_is_a_command(rt: HostRuntime) {
    let bad = Status::BadWords { place: 0 };
    let mut words = Vec::new(rt.alloc());
    let ran = run_words(&rt, rt.alloc(), &words);
    same(&rt, &ran.status, &bad);
    assert_untouched(&rt, &ran);
    got(
        &rt,
        words.push(got(&rt, String::from_str(rt.alloc(), "--help"))),
    );
    let ran = run_words(&rt, rt.alloc(), &words);
    same(&rt, &ran.status, &bad);
    assert_untouched(&rt, &ran);
    let mut words = run_alone(&rt, rt.alloc());
    got(
        &rt,
        words.push(got(&rt, String::from_str(rt.alloc(), "run"))),
    );
    let ran = run_words(&rt, rt.alloc(), &words);
    same(&rt, &ran.status, &Status::BadWords { place: 1 });
    assert_untouched(&rt, &ran);
    got(
        &rt,
        words.push(got(&rt, String::from_str(rt.alloc(), "run"))),
    );
    let ran = run_words(&rt, rt.alloc(), &words);
    same(&rt, &ran.status, &bad);
    assert_untouched(&rt, &ran);
}

#[test]
fn a_bad_line_is_named(rt: HostRuntime) {
    let ran = run_script(&rt, rt.alloc(), b"x".as_slice(), fresh(&rt, rt.alloc()));
    same(&rt, &ran.status, &Status::BadScript { line: 1 });
    assert_untouched(&rt, &ran);
    let ran = run_script(
        &rt,
        rt.alloc(),
        b"0 mkdir /a\n0 fsync /\nx\n".as_slice(),
        fresh(&rt, rt.alloc()),
    );
    same(&rt, &ran.status, &Status::BadScript { line: 3 });
    assert_untouched(&rt, &ran);
}

#[test]
fn a_script_past_16_mib_is_too_long(rt: HostRuntime) {
    let script = got(&rt, vec![in rt.alloc(); b'#'; 16_777_217]);
    let ran = run_script(&rt, rt.alloc(), &script, fresh(&rt, rt.alloc()));
    same(
        &rt,
        &ran.status,
        &Status::TooLong {
            measure: Measure::Bytes,
        },
    );
    assert_untouched(&rt, &ran);
}
