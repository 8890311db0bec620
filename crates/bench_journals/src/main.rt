//! How many syncs and writes commits take at the journals of a disk: of one core, of four whose turns are in step, and of four in threads.
//! `bench_journals measure` measures 1,000 commits each; without the word the program makes fewer and prints what does not depend on how
//! threads run. It is in no test.
#![tactic(auto)]

mod runs;
mod slow;

use runs::{Case, Figures, in_step, in_threads};
use slow::pass;
use std::alloc::Global;
use std::rt::Clock;
use std::sync::Wait;
use std::thread::Threads;
use std::time::Instant;
use std::{env, io};

// How many commits are measured, and how many are made without the word.
const MOST: u32 = 1_000;

const FEW: u32 = 40;

// By how many rounds their time is found, and how many microseconds a sync takes.
const ROUNDS: u64 = 10_000_000;

const SYNC: u64 = 100;

// How often what depends on how threads run is measured.
const TIMES: u8 = 3;

fn main(rt: HostRuntime) -> io::Result<()> {
    let alloc = rt.alloc();
    let asked = match env::args(&rt) {
        Ok(args) => match args.collect::<Vec<String>>(alloc) {
            Ok(words) => is_measure(&words),
            Err(_) => false,
        },
        Err(_) => false,
    };
    let commits = if asked { MOST } else { FEW };
    for (cores, slots) in [(1, 1), (1, 2), (4, 1), (4, 2)] {
        let case = Case {
            cores,
            slots,
            commits,
        };
        show_in_step(&rt, alloc, case)?;
    }
    if asked {
        show_times(&rt, alloc)
    } else {
        show_threads(&rt, alloc)
    }
}

// Whether the one word is `measure`.
fn is_measure(words: &[String]) -> bool {
    words.len() == 2 && words[1].as_str() == "measure"
}

// Says what commits take in step.
fn show_in_step<R: Wait + Print>(rt: &R, alloc: Global, case: Case) -> io::Result<()> {
    print!(rt; "{} cores in step, {} slots: ", case.cores, case.slots)?;
    match in_step(rt, alloc, case) {
        Some(figures) => show(rt, figures),
        None => println!(rt; "no memory"),
    }
}

// Says how many commits were durable, with how many syncs and writes.
fn show<R: Print>(rt: &R, figures: Figures) -> io::Result<()> {
    println!(rt;
        "{} durable, {} syncs, {} writes",
        figures.durable, figures.syncs, figures.writes
    )
}

// Says how many of few commits are durable in threads.
fn show_threads<R: Threads + Wait + Sync + Print>(rt: &R, alloc: Global) -> io::Result<()> {
    let case = Case {
        cores: 4,
        slots: 2,
        commits: FEW,
    };
    let durable = match in_threads(rt, alloc, case, 0) {
        Some(figures) => figures.durable,
        None => 0,
    };
    println!(rt; "4 threads, 2 slots: {durable} durable")
}

// Says what commits take in threads on a disk whose syncs take 100 microseconds, and in what time.
fn show_times<R: Threads + Wait + Sync + Clock + Print>(rt: &R, alloc: Global) -> io::Result<()> {
    let rounds = rounds_of(rt)?;
    for _ in 0..TIMES {
        for (cores, slots) in [(1, 1), (4, 1), (1, 2), (4, 2)] {
            let case = Case {
                cores,
                slots,
                commits: MOST,
            };
            show_time(rt, alloc, case, rounds)?;
        }
    }
    Ok(())
}

// How many rounds take as long as a sync is to take.
fn rounds_of<R: Clock>(rt: &R) -> io::Result<u64> {
    let start = Instant::now(rt)?;
    pass(ROUNDS);
    let micros = u64::try_from(start.elapsed(rt)?.as_micros()).unwrap_or(u64::MAX);
    Ok(ROUNDS.saturating_mul(SYNC) / micros.max(1))
}

// Says so of one case.
fn show_time<R: Threads + Wait + Sync + Clock + Print>(
    rt: &R,
    alloc: Global,
    case: Case,
    rounds: u64,
) -> io::Result<()> {
    print!(rt; "{} threads, {} slots: ", case.cores, case.slots)?;
    let start = Instant::now(rt)?;
    let found = in_threads(rt, alloc, case, rounds);
    let millis = start.elapsed(rt)?.as_millis();
    print!(rt; "{millis} ms, ")?;
    match found {
        Some(figures) => show(rt, figures),
        None => println!(rt; "no memory"),
    }
}
