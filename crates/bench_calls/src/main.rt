//! How many files a second threads make, look up and rename on a table, each in a directory of its own or all in one, beside threads with
//! tables of their own and beside one thread; and in what time one core makes as many directories as cores may make.
//! `bench_calls measure` measures it; without the word the program makes fewer calls and says how many of them were done. It is in no test.
#![tactic(auto)]

mod cases;
mod directories;
mod loads;
mod owns;
mod runs;
mod shown;
mod trees;
mod workers;

use directories::{MOST, made};
use loads::Load;
use shown::{show_done, show_measured};
use std::alloc::Global;
use std::rt::Clock;
use std::sync::Wait;
use std::thread::Threads;
use std::{env, io};

fn main(rt: HostRuntime) -> io::Result<()> {
    let alloc = rt.alloc();
    let asked = match env::args(&rt) {
        Ok(args) => match args.collect::<Vec<String>>(alloc) {
            Ok(words) => is_measure(&words),
            Err(_) => false,
        },
        Err(_) => false,
    };
    for load in [Load::Creations, Load::LookUps, Load::Renames] {
        for made in [false, true] {
            if asked {
                show_measured(&rt, alloc, load, made)?;
            } else {
                show_done(&rt, alloc, load, made)?;
            }
        }
    }
    show_directories(&rt, alloc, asked)
}

// Says how many directories one core made on a table for as many, or where it is asked all that it may make and in what time.
fn show_directories<R: Threads + Wait + Sync + Clock + Print>(
    rt: &R,
    alloc: Global,
    asked: bool,
) -> io::Result<()> {
    print!(rt; "directories, 1 cores: ")?;
    let count = if asked { MOST } else { 100 };
    let Some(figures) = made(rt, alloc, count)? else {
        return println!(rt; "no memory");
    };
    let done = figures.done;
    if !asked {
        return println!(rt; "{done} done");
    }
    let millis = figures.micros / 1000;
    println!(rt; "{done} in {millis} ms")
}

// Whether the one word is `measure`.
fn is_measure(words: &[String]) -> bool {
    words.len() == 2 && words[1].as_str() == "measure"
}
