//! What an fsync takes on a disk in memory: of one renamed row in a small and in a large directory, of one changed block in a small and in a large
//! file, and of a directory of one core beside none and many changes of another one that are not flushed. `bench_fsync measure` measures it; without
//! the word the program says so. It is in no test.
#![tactic(auto)]

mod calls;
mod cases;
mod changes;
mod disks;
mod figures;

use cases::{Case, PAIRS};
use figures::{CHANGES, Figures, fsyncs_of};
use std::alloc::Global;
use std::rt::Clock;
use std::sync::Wait;
use std::{env, io};

fn main(rt: HostRuntime) -> io::Result<()> {
    let alloc = rt.alloc();
    let asked = match env::args(&rt) {
        Ok(args) => match args.collect::<Vec<String>>(alloc) {
            Ok(words) => is_measure(&words),
            Err(_) => false,
        },
        Err(_) => false,
    };
    if !asked {
        return println!(rt;
            "bench_fsync measure: what an fsync takes by the size of what it flushes, and beside changes of another core"
        );
    }
    for (small, large) in PAIRS {
        let control = shown(&rt, alloc, small)?;
        let found = shown(&rt, alloc, large)?;
        let hundredths = found.saturating_mul(100) / control.max(1);
        println!(rt;
            "  so {}.{:02} times as long",
            hundredths / 100,
            hundredths % 100
        )?;
    }
    Ok(())
}

// Whether the one word is `measure`.
fn is_measure(words: &[String]) -> bool {
    words.len() == 2 && words[1].as_str() == "measure"
}

// Says what an fsync takes in a case, and answers its time.
fn shown<R: Wait + Clock + Print>(rt: &R, alloc: Global, case: Case) -> io::Result<u128> {
    let (what, many) = case.text();
    let Some(found) = fsyncs_of(rt, alloc, case)? else {
        println!(rt; "{what}: {many}: no memory")?;
        return Ok(0);
    };
    println!(rt; "{what}: {many}, all done: {}", found.done)?;
    show(rt, found)?;
    Ok(found.fsync)
}

// Says what was found.
fn show<R: Print>(rt: &R, found: Figures) -> io::Result<()> {
    println!(rt;
        "  an fsync in {} ns, {} device calls and {} syncs in 100 fsyncs; a change without it in {} ns, the first one with it in {} ns",
        found.fsync,
        in_hundred(found.device_calls),
        in_hundred(found.syncs),
        found.change,
        found.first
    )
}

// How many in a hundred fsyncs, where all took so many.
fn in_hundred(count: u64) -> u64 {
    count.saturating_mul(100) / u64::from(CHANGES)
}
